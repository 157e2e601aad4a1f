//! Where an entry stands in the text of its block.

ghost use Rattle.std.specs.Prelude.{◌≡◌, ◌+◌, ◌<◌, ◌≤◌, ◌^◌, length, map, IfOk};
ghost use Rattle.std.specs.List.{AllByRecursion};
ghost use Rattle.std.specs.Option.{option_map};
ghost use Rattle.fjall_table.specs.Blocks.{seen, payload_of, IsEntry};
ghost use Rattle.fjall_table_reader.specs.Places.{places_from};

use bytes::Bytes;
use fjall_base::{Slice, UserKey, UserValue};
use fjall_table::TableEntry;
use std::alloc::{AllocError, Global};

/// Where a key begins in a block's text; the value stands right behind it.
#[derive(Clone, Copy, Debug)]
pub(crate) struct EntryPlace {
    pub(crate) at: usize,
    pub(crate) number: u64,
    pub(crate) value_len: u32,
    pub(crate) key_len: u16,
    pub(crate) is_value: bool,
}

/// How many bytes stand before an entry's key: its lengths, its type and its number.
const HEADER_LEN: usize = 2 + 1 + 8 + 4;

impl EntryPlace {
    ghost use Rattle.fjall_table_reader.specs.Places.{place_of, end_of, key_at, value_at};

    /// The place of an entry whose text begins there.
    fn new(at: usize, entry: &TableEntry<'_>) -> EntryPlace
        requires entry { IsEntry (seen entry.now) }
        requires fits { end_of (place_of at (seen entry.now)) < 2 ^ 64 }
        ensures { result ≡ place_of at (seen entry.now) }
    {
        let value_len = match entry.value {
            Some(value) => value.len(),
            None => 0,
        };
        EntryPlace {
            at: at + HEADER_LEN,
            number: entry.number,
            value_len: value_len as u32,
            key_len: entry.key.len() as u16,
            is_value: entry.value.is_some(),
        }
    }

    /// Where its value ends, and the text of the next entry begins.
    fn end(&self) -> usize
        requires { end_of self.now < 2 ^ 64 }
        ensures { result ≡ end_of self.now }
    {
        self.at + self.key_len as usize + self.value_len as usize
    }

    /// The key that stands there.
    #[inline(always)]
    pub(crate) fn key_in<'a>(&self, text: &'a [u8]) -> &'a [u8]
        requires { end_of self.now ≤ length text.now }
        ensures { result.now ≡ key_at text.now self.now }
    {
        &text[self.at..self.at + self.key_len as usize]
    }

    /// The value that stands behind the key.
    #[inline(always)]
    pub(crate) fn value_in<'a>(&self, text: &'a [u8]) -> Option<&'a [u8]>
        requires { end_of self.now ≤ length text.now }
        ensures { option_map (λ v. v.now) result ≡ value_at text.now self.now }
    {
        if !self.is_value {
            return None;
        }
        let start = self.at + self.key_len as usize;
        Some(&text[start..start + self.value_len as usize])
    }

    /// The key as a part of the text (`Slice::part_of`).
    #[inline(always)]
    pub(crate) fn shared_key(&self, text: &Bytes) -> Result<UserKey, AllocError>
        requires { end_of self.now ≤ length text.now }
        ensures { IfOk result (λ k. k ≡ key_at text.now self.now) }
    {
        let key = self.key_in(text.as_slice());
        Slice::part_of(text, self.at..self.at + key.len())
    }

    /// The same of the value that stands behind it.
    #[inline(always)]
    pub(crate) fn shared_value(&self, text: &Bytes) -> Result<Option<UserValue>, AllocError>
        requires { end_of self.now ≤ length text.now }
        ensures { IfOk result (λ v. v ≡ value_at text.now self.now) }
    {
        let Some(value) = self.value_in(text.as_slice()) else {
            return Ok(None);
        };
        let start = self.at + self.key_len as usize;
        Ok(Some(Slice::part_of(text, start..start + value.len())?))
    }
}

/// The places of entries whose texts stand one behind another.
pub(crate) fn places_of(
    alloc: Global,
    at: usize,
    entries: &[TableEntry<'_>],
) -> Result<Vec<EntryPlace>, AllocError>
    requires entries { AllByRecursion IsEntry (map seen entries.now) }
    requires fits { at + length (payload_of (map seen entries.now)) < 2 ^ 64 }
    ensures { IfOk result (λ ps. ps.items ≡ places_from at (map seen entries.now)) }
{
    let mut places = Vec::new(alloc);
    let mut next = at;
    for entry in entries {
        let place = EntryPlace::new(next, entry);
        next = place.end();
        places.push(place)?;
    }
    Ok(places)
}
