//! An entry at the front of some bytes. The key and the value of an item are parts of the text that the bytes stand in
//! (`Slice::part_of`).

ghost use Rattle.std.specs.Prelude.{drop, ℕ, IfOk, Ok};
ghost use Rattle.fjall_journal.specs.declared.entry.Entry.{Entry};
ghost use Rattle.fjall_journal.specs.Spelling.{StandsFirst};
ghost use Rattle.fjall_journal.specs.Reading.{Gives, IsRestOf, bytes_at, compression_of, start_at, item_at, end_at, clear_at, entry_at};

use crate::entry::{Entry, MAGIC_BYTES, Tag, ValueType};
use bytes::Bytes;
use fjall_base::{CompressionType, Error, Result, Slice, bytes_of, u8_of, u16_of, u32_of, u64_of};
use std::alloc::Global;
use std::io::ErrorKind;

// Bytes that end within a field.
const SHORT: Error = Error::Io(ErrorKind::UnexpectedEof);

#[inline(always)]
fn compression_named(b: u8) -> Result<CompressionType>
    ensures { Gives (λ compression. compression) result (compression_of b) }
{
    match b {
        0 => Ok(CompressionType::None),
        _ => Err(Error::InvalidTag(("CompressionType", b))),
    }
}

#[tactic(auto, unfolding(crate::specs::Reading::start_at))]
#[inline(always)]
fn start_of(bytes: &[u8]) -> Result<(Entry, &[u8])>
    ensures { Gives (λ x. (x.0, x.1.now)) result (start_at bytes.now) }
{
    let Some((item_count, rest)) = u32_of(bytes) else {
        return Err(SHORT);
    };
    let Some((seqno, rest)) = u64_of(rest) else {
        return Err(SHORT);
    };
    Ok((Entry::Start { item_count, seqno }, rest))
}

/// That many bytes at the front, as a part of the text whose rest this is, and the bytes after them.
#[inline(always)]
fn part_of<'a>(text: &Bytes, bytes: &'a [u8], len: usize) -> Result<(Slice, &'a [u8])>
    requires { IsRestOf text.now bytes.now }
    ensures gives { Gives (λ x. (x.0, x.1.now)) result (bytes_at len bytes.now) }
    ensures rest { IfOk result (λ x. IsRestOf text.now x.1.now) }
{
    if bytes.len() < len {
        return Err(SHORT);
    }
    let at = text.len() - bytes.len();
    let part = Slice::part_of(text, at..at + len)?;
    Ok((part, &bytes[len..]))
}

#[tactic(auto, unfolding(crate::specs::Reading::item_at))]
#[inline(always)]
fn item_of<'a>(text: &Bytes, bytes: &'a [u8]) -> Result<(Entry, &'a [u8])>
    requires { IsRestOf text.now bytes.now }
    ensures { Gives (λ x. (x.0, x.1.now)) result (item_at bytes.now) }
{
    let Some((type_byte, rest)) = u8_of(bytes) else {
        return Err(SHORT);
    };
    let value_type = ValueType::try_from(type_byte)?;
    let Some((compression_byte, rest)) = u8_of(rest) else {
        return Err(SHORT);
    };
    let compression = compression_named(compression_byte)?;
    let Some((keyspace_id, rest)) = u64_of(rest) else {
        return Err(SHORT);
    };
    let Some((key_len, rest)) = u16_of(rest) else {
        return Err(SHORT);
    };
    let Some((value_len, rest)) = u32_of(rest) else {
        return Err(SHORT);
    };
    let Some((stored_len, rest)) = u32_of(rest) else {
        return Err(SHORT);
    };
    if key_len == 0 {
        return Err(Error::InvalidTag(("KeyLength", 0)));
    }
    if stored_len != value_len {
        return Err(Error::InvalidTag(("ValueLength", 0)));
    }
    let (key, rest) = part_of(text, rest, usize::from(key_len))?;
    let (value, rest) = part_of(text, rest, value_len as usize)?;
    let item = Entry::Item {
        keyspace_id,
        key,
        value,
        value_type,
        compression,
    };
    Ok((item, rest))
}

#[tactic(auto, unfolding(crate::specs::Reading::end_at))]
#[inline(always)]
fn end_of(bytes: &[u8]) -> Result<(Entry, &[u8])>
    ensures { Gives (λ x. (x.0, x.1.now)) result (end_at bytes.now) }
{
    let Some((check, rest)) = bytes_of(bytes, 8) else {
        return Err(SHORT);
    };
    let Some((mark, rest)) = bytes_of(rest, 4) else {
        return Err(SHORT);
    };
    if !mark.starts_with(&MAGIC_BYTES) {
        return Err(Error::InvalidTrailer);
    }
    let mut checksum = [0u8; 8];
    checksum.copy_from_slice(check);
    Ok((Entry::End(checksum), rest))
}

#[tactic(auto, unfolding(crate::specs::Reading::clear_at))]
#[inline(always)]
fn clear_of(bytes: &[u8]) -> Result<(Entry, &[u8])>
    ensures { Gives (λ x. (x.0, x.1.now)) result (clear_at bytes.now) }
{
    let Some((keyspace_id, rest)) = u64_of(bytes) else {
        return Err(SHORT);
    };
    Ok((Entry::Clear { keyspace_id }, rest))
}

#[tactic(auto, unfolding(crate::specs::Reading::entry_at))]
#[inline(always)]
pub(crate) fn entry_of<'a>(text: &Bytes, bytes: &'a [u8]) -> Result<(Entry, &'a [u8])>
    requires { IsRestOf text.now bytes.now }
    ensures { Gives (λ x. (x.0, x.1.now)) result (entry_at bytes.now) }
{
    let Some((tag, rest)) = u8_of(bytes) else {
        return Err(SHORT);
    };
    match Tag::try_from(tag)? {
        Tag::Start => start_of(rest),
        Tag::Item => item_of(text, rest),
        Tag::End => end_of(rest),
        Tag::Clear => clear_of(rest),
    }
}

impl Entry {
    /// The entry at the front of the bytes, and how many of them it takes. The bytes are copied once.
    pub fn decode_from(alloc: Global, bytes: &[u8]) -> Result<(Entry, usize)>
        // What is answered stands at the front.
        ensures found { IfOk result (λ x. StandsFirst bytes.now x.0 x.1) }
        // What stands at the front is answered, unless memory runs out.
        ensures only { (entry : Entry) (len : ℕ) → StandsFirst bytes.now entry len → Gives (λ x. x) result (Ok (entry, len)) }
        // Which fault it is.
        ensures fault { Gives (λ x. (x.0, drop x.1 bytes.now)) result (entry_at bytes.now) }
    {
        let text = Bytes::copy_from_slice(alloc, bytes)?;
        let (entry, rest) = entry_of(&text, text.as_slice())?;
        Ok((entry, bytes.len() - rest.len()))
    }
}
