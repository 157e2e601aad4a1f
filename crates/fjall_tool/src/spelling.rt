//! How keys, values and names are spelled for people: as text, or behind `0x` as hexadecimal digits.

use anyhow::{Result, bail};
use hex::FromHexError;
use std::alloc::{AllocError, Global};

/// The bytes that a word spells: those of its text, or behind `0x` those of the hexadecimal digits.
pub fn bytes_of(alloc: Global, word: &str) -> Result<Vec<u8>> {
    let Some(digits) = word.strip_prefix("0x") else {
        return Ok(word.as_bytes().to_vec(alloc)?);
    };
    match hex::decode(alloc, digits) {
        Ok(bytes) => Ok(bytes),
        Err(FromHexError::OutOfMemory) => Err(AllocError.into()),
        Err(_) => bail!("{word}: behind 0x stand pairs of hexadecimal digits"),
    }
}

// Whether a text can stand in a line as it is, and isn't taken for hexadecimal digits.
fn is_plain(text: &str) -> bool {
    !text.starts_with("0x") && !text.chars().any(char::is_control)
}

/// Bytes as a word that spells them: their text where that is one without control characters, else `0x` and hexadecimal digits.
pub fn word_of(alloc: Global, bytes: &[u8]) -> Result<String, AllocError> {
    match str::from_utf8(bytes) {
        Ok(text) if is_plain(text) => String::from_str(alloc, text),
        _ => format!(in alloc; "0x{}", hex::encode(alloc, bytes)?),
    }
}

/// Bytes as the lines of a dump have them: hexadecimal digits, `-` for none.
pub fn digits_of(alloc: Global, bytes: &[u8]) -> Result<String, AllocError> {
    if bytes.is_empty() {
        return String::from_str(alloc, "-");
    }
    hex::encode(alloc, bytes)
}
