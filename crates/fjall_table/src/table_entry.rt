//! Versions of keys, as bytes and back.

ghost use Rattle.std.specs.Prelude.{◌≡◌, ◌<◌, ◌++◌, ◌↔◌, ◌^◌, length, Ok, Err, OnOk, OnErr, IsTrue, IsOkUnless, MatchOption};
ghost use Rattle.std.specs.Option.{option_map};
ghost use Rattle.fjall_base.specs.Fields.{ShowsRead};
ghost use Rattle.fjall_base.specs.Limits.{item_refusal};
ghost use Rattle.fjall_table.specs.Blocks.{seen, entry_header, entry_text, IsEntry, IsBefore, refusal, value_of, entry_at};

use crate::keys::compare;
use byteorder::{ByteOrder, LittleEndian};
use fjall_base::{Error, Result, bytes_of, check_item, u8_of, u16_of, u32_of, u64_of};
use std::cmp::Ordering;

/// What a change made of a key. Key and value are parts of the bytes that it was read from.
#[derive(Clone, Copy)]
pub struct TableEntry<'a> {
    /// It has 1 to 65,535 bytes.
    pub key: &'a [u8],
    /// The number of the change.
    pub number: u64,
    /// None where the key was removed. It has at most 4,294,967,295 bytes.
    pub value: Option<&'a [u8]>,
}

fn header_of(key_len: u16, kind: u8, number: u64, value_len: u32) -> [u8; 15]
    ensures { result ≡ entry_header key_len kind number value_len }
{
    let mut header = [0u8; 15];
    LittleEndian::write_u16(&mut header, key_len);
    header[2] = kind;
    LittleEndian::write_u64(&mut header[3..], number);
    LittleEndian::write_u32(&mut header[11..], value_len);
    header
}

fn put_entry(out: &mut Vec<u8>, key: &[u8], kind: u8, number: u64, value: &[u8]) -> Result<()>
    ensures ok { OnOk result (out.new.items ≡ out.old.items ++ (entry_header (length key.now) kind number (length value.now) ++ (key.now ++ value.now))) }
    ensures fits { OnOk result ((0 < length key.now) × (length key.now < 2 ^ 16) × (number < 2 ^ 64) × (length value.now < 2 ^ 32)) }
    ensures err { OnErr result (out.new.items ≡ out.old.items) }
    ensures refused { MatchOption (item_refusal key.now value.now) (IsOkUnless result Error.OutOfMemory) (λ e. result ≡ Err e) }
{
    check_item(key, value)?;
    let header = header_of(key.len() as u16, kind, number, value.len() as u32);
    out.reserve(15 + key.len() + value.len())?;
    out.extend_from_slice(&header)?;
    out.extend_from_slice(key)?;
    out.extend_from_slice(value)?;
    Ok(())
}

fn value_named(kind: u8, value: &[u8]) -> Option<Option<&[u8]>>
    ensures { ShowsRead (λ x. option_map (λ v. v.now) x) result (value_of kind value.now) }
{
    match kind {
        0 => Some(Some(value)),
        1 if value.is_empty() => Some(None),
        _ => None,
    }
}

impl<'a> TableEntry<'a> {
    /// The version at the front of the bytes, and the bytes behind it.
    #[tactic(auto, unfolding(crate::specs::Blocks::entry_at))]
    pub(crate) fn decode(bytes: &'a [u8]) -> Option<(TableEntry<'a>, &'a [u8])>
        ensures { ShowsRead (λ x. (seen x.0, x.1.now)) result (entry_at bytes.now) }
    {
        let Some((key_len, rest)) = u16_of(bytes) else {
            return None;
        };
        let Some((kind, rest)) = u8_of(rest) else {
            return None;
        };
        let Some((number, rest)) = u64_of(rest) else {
            return None;
        };
        let Some((value_len, rest)) = u32_of(rest) else {
            return None;
        };
        let Some((key, rest)) = bytes_of(rest, usize::from(key_len)) else {
            return None;
        };
        let Some((stored, rest)) = bytes_of(rest, value_len as usize) else {
            return None;
        };
        let Some(value) = value_named(kind, stored) else {
            return None;
        };
        if key_len == 0 {
            return None;
        }
        Some((TableEntry { key, number, value }, rest))
    }

    /// Whether it stands before another one: by key ascending, then by number descending.
    #[inline(always)]
    pub fn is_before(&self, other: &TableEntry<'_>) -> bool
        ensures { IsTrue result ↔ IsBefore (seen self.now) (seen other.now) }
    {
        match compare(self.key, other.key) {
            Ordering::Less => true,
            Ordering::Equal => other.number < self.number,
            Ordering::Greater => false,
        }
    }

    /// Refuses what has no text.
    pub(crate) fn check(&self) -> Result<()>
        ensures { MatchOption (refusal (seen self.now)) (result ≡ Ok tt) (λ e. result ≡ Err e) }
    {
        match self.value {
            Some(value) => check_item(self.key, value),
            None => check_item(self.key, &[]),
        }
    }

    /// Adds the text of the version. An `Err` adds nothing: an empty key, one of more than 65,535 bytes, a value of
    /// more than 4,294,967,295, and the first of these that holds.
    #[tactic(auto, unfolding(crate::specs::Blocks::entry_text))]
    pub fn encode_into(&self, out: &mut Vec<u8>) -> Result<()>
        ensures ok { OnOk result (out.new.items ≡ out.old.items ++ entry_text (seen self.now)) }
        ensures fits { OnOk result (IsEntry (seen self.now)) }
        ensures err { OnErr result (out.new.items ≡ out.old.items) }
        ensures refused { MatchOption (refusal (seen self.now)) (IsOkUnless result Error.OutOfMemory) (λ e. result ≡ Err e) }
    {
        match self.value {
            Some(value) => put_entry(out, self.key, 0, self.number, value),
            None => put_entry(out, self.key, 1, self.number, &[]),
        }
    }
}
