//! What the words of a line spell.

use fjall_base::{Error, Slice, UserKey};
use fjall_files::parse_number;
use fjall_journal::{Op, PersistMode};
use hex::FromHexError;
use std::alloc::{AllocError, AllocFailed, Global};
use std::ops::Bound;

/// Why a line isn't done.
#[derive(Clone, Copy, Debug, PartialEq, Eq)]
pub enum LineError {
    /// It is no command.
    BadLine,
    /// What it asks for is refused.
    Refused(Error),
}

impl From<AllocError> for LineError {
    fn from(_: AllocError) -> LineError {
        LineError::Refused(Error::OutOfMemory)
    }
}

impl<T: Drop> From<AllocFailed<T>> for LineError {
    fn from(_: AllocFailed<T>) -> LineError {
        LineError::Refused(Error::OutOfMemory)
    }
}

impl From<Error> for LineError {
    fn from(error: Error) -> LineError {
        LineError::Refused(error)
    }
}

/// What is read of a line, or why it isn't done.
pub type Parsed<T> = Result<T, LineError>;

/// A number.
pub fn number(word: &str) -> Parsed<u64> {
    match parse_number(word) {
        Some(number) => Ok(number),
        None => Err(LineError::BadLine),
    }
}

/// A count or a place.
pub fn size(word: &str) -> Parsed<usize> {
    match parse_number(word) {
        Some(number) => Ok(number as usize),
        None => Err(LineError::BadLine),
    }
}

/// A number below 256.
pub fn byte(word: &str) -> Parsed<u8> {
    match u8::try_from(number(word)?) {
        Ok(byte) => Ok(byte),
        Err(_) => Err(LineError::BadLine),
    }
}

// Bytes in lower-case hexadecimal.
fn hexadecimal(alloc: Global, word: &str) -> Parsed<Vec<u8>> {
    if word.is_empty() || word.bytes().any(|byte| byte.is_ascii_uppercase()) {
        return Err(LineError::BadLine);
    }
    match hex::decode(alloc, word) {
        Ok(bytes) => Ok(bytes),
        Err(FromHexError::OutOfMemory) => Err(LineError::Refused(Error::OutOfMemory)),
        Err(_) => Err(LineError::BadLine),
    }
}

// The same byte so many times, as `61x300`.
fn repeated(alloc: Global, byte: &str, count: &str) -> Parsed<Slice> {
    let count = size(count)?;
    let one = hexadecimal(alloc, byte)?;
    let [byte] = one.as_slice() else {
        return Err(LineError::BadLine);
    };
    let bytes: Vec<u8> = vec![in alloc; *byte; count]?;
    Ok(Slice::new(alloc, &bytes)?)
}

/// Bytes: lower-case hexadecimal, `-` for none, `61x300` for the same byte so many times.
pub fn bytes(alloc: Global, word: &str) -> Parsed<Slice> {
    if word == "-" {
        return Ok(Slice::empty());
    }
    if let Some((byte, count)) = word.split_once('x') {
        return repeated(alloc, byte, count);
    }
    let decoded = hexadecimal(alloc, word)?;
    Ok(Slice::new(alloc, &decoded)?)
}

/// What becomes of a key: bytes, or `~` where it is removed.
pub fn op(alloc: Global, word: &str) -> Parsed<Op> {
    if word == "~" {
        return Ok(Op::Remove);
    }
    Ok(Op::Put(bytes(alloc, word)?))
}

/// A value, or `~` for none.
pub fn value(alloc: Global, word: &str) -> Parsed<Option<Slice>> {
    if word == "~" {
        return Ok(None);
    }
    Ok(Some(bytes(alloc, word)?))
}

/// How something is persisted: `buffer`, `data` or `all`.
pub fn mode(word: &str) -> Parsed<PersistMode> {
    match word {
        "buffer" => Ok(PersistMode::Buffer),
        "data" => Ok(PersistMode::SyncData),
        "all" => Ok(PersistMode::SyncAll),
        _ => Err(LineError::BadLine),
    }
}

/// How a commit is persisted: as [`mode`], or `none`.
pub fn durability(word: &str) -> Parsed<Option<PersistMode>> {
    if word == "none" {
        return Ok(None);
    }
    Ok(Some(mode(word)?))
}

// A bound: `*`, `=K` with its key, `!K` without it.
fn bound(alloc: Global, word: &str) -> Parsed<Bound<UserKey>> {
    if word == "*" {
        return Ok(Bound::Unbounded);
    }
    if let Some(key) = word.strip_prefix('=') {
        return Ok(Bound::Included(bytes(alloc, key)?));
    }
    if let Some(key) = word.strip_prefix('!') {
        return Ok(Bound::Excluded(bytes(alloc, key)?));
    }
    Err(LineError::BadLine)
}

/// A range of keys: a bound `*`, `=K` with its key or `!K` without it, and another.
pub fn range(alloc: Global, from: &str, to: &str) -> Parsed<(Bound<UserKey>, Bound<UserKey>)> {
    let from = bound(alloc, from)?;
    Ok((from, bound(alloc, to)?))
}
