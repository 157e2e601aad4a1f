//! Versions of keys in memory.

ghost use Rattle.std.specs.Prelude.{◌≡◌, ◌↔◌, ◌+◌, ◌-◌, ◌<◌, ◌^◌, [], length, slice_get, filter, min, not, IsTrue, IfOk, OnOk, OnErr, Ok, true, false, Some, None, if◌then◌else◌};
ghost use Rattle.std.specs.List.{sum_by};
ghost use Rattle.std.specs.Option.{option_map};
ghost use Rattle.std.specs.BTreeMap.Range.{range_contains};
ghost use Rattle.fjall_table.specs.Blocks.{seen, IsOrdered, value_bytes};
ghost use Rattle.fjall_base.specs.Pairs.{key_range};
ghost use Rattle.fjall_table.specs.Tables.{entries_within, versions_at};
ghost use Rattle.std.proofs.Props.{props};
ghost use Rattle.fjall_memtable.specs.Places.{AreAll};
ghost use Rattle.fjall_memtable.specs.Presence.{has_entry};
ghost use Rattle.fjall_memtable.specs.Ranges.{IsForwardBy};
ghost use Rattle.fjall_memtable.specs.Stamps.{stamp_cmp};

use crate::bounds::{bound_at, run_forward};
use crate::place::Place;
use crate::version_key::VersionKey;
use crate::versions::{Versions, key_in, value_in};
use fjall_base::KeyBounds;
use fjall_table::TableEntry;
use std::alloc::{AllocError, Global};
use std::cmp::Ordering;
use std::collections::BTreeMap;
use std::collections::btree_map::Entry;
use std::ops::Bound;

/// Versions of keys in memory, in the order of a table's entries: by key ascending, byte by byte, then by number
/// descending. Keys and values stand in one text, in the order in which they came.
#[derive(Drop)]
pub struct Memtable {
    pub(crate) alloc: Global,
    pub(crate) text: Vec<u8>,
    pub(crate) map: BTreeMap<VersionKey, Place>,
    ghost all: { AreAll text.items map.entries } by { Prim.hlevel props },
}

impl Memtable {
    ghost use Rattle.fjall_memtable.specs.Entries.{entries_kept, version, inserted, size_of, stamp_of, entries_at, IsAbsent, IsMark, KeepsMarks};

    /// A memtable of no entries. It takes no memory.
    pub fn new(alloc: Global) -> Memtable
        ensures { entries_kept result ≡ [] }
    {
        Memtable {
            alloc,
            text: Vec::new(alloc),
            map: BTreeMap::new(alloc),
        }
    }

    /// How many entries it has.
    pub fn len(&self) -> usize
        ensures len { result ≡ length (entries_kept self.now) }
        ensures ordered { IsOrdered (entries_kept self.now) }
    {
        self.map.len()
    }

    /// Whether it has no entry.
    pub fn is_empty(&self) -> bool
        ensures { IsTrue result ↔ (entries_kept self.now ≡ []) }
    {
        self.map.is_empty()
    }

    /// How many bytes its entries count for: each as many as its key and its value have, and 16 more. It is at most the
    /// greatest u64, at which it stops.
    pub fn size(&self) -> u64
        ensures { result ≡ min (sum_by size_of (entries_kept self.now)) (2 ^ 64 - 1) }
    {
        let text_len = self.text.as_slice().len() as u64;
        (self.map.len() as u64)
            .saturating_mul(16)
            .saturating_add(text_len)
    }

    /// Adds what the change of that number made of a key: a value, or None where it removed the key. The key has 1 to
    /// 65,535 bytes and the value at most 4,294,967,295; no entry has that key and number yet. It is refused for want of
    /// memory alone, and an `Err` leaves all as it was.
    pub fn insert(
        &mut self,
        key: &[u8],
        number: u64,
        value: Option<&[u8]>,
    ) -> Result<(), AllocError>
        requires some { 0 < length key.now }
        requires key { length key.now < 2 ^ 16 }
        requires value { length (value_bytes (option_map (λ v. v.now) value)) < 2 ^ 32 }
        requires absent { IsAbsent key.now number (entries_kept self.old) }
        ensures ok { OnOk result (entries_kept self.new ≡ inserted (version key.now number (option_map (λ v. v.now) value.entry)) (entries_kept self.old)) }
        ensures err { OnErr result (entries_kept self.new ≡ entries_kept self.old) }
        ensures marks { KeepsMarks self.old self.new }
    {
        self.insert_once(key, number, value)?;
        Ok(())
    }

    /// Adds the same where no entry has that key and number yet, by one look-up, and says so; where one has them nothing
    /// changes, and it answers false. It is refused for want of memory alone, and an `Err` leaves all as it was.
    pub fn insert_once(
        &mut self,
        key: &[u8],
        number: u64,
        value: Option<&[u8]>,
    ) -> Result<bool, AllocError>
        requires some { 0 < length key.now }
        requires key { length key.now < 2 ^ 16 }
        requires value { length (value_bytes (option_map (λ v. v.now) value)) < 2 ^ 32 }
        ensures told { IfOk result (λ is_new. is_new ≡ not (has_entry key.now number (entries_kept self.old))) }
        ensures new { result ≡ Ok true → entries_kept self.new ≡ inserted (version key.now number (option_map (λ v. v.now) value.entry)) (entries_kept self.old) }
        ensures there { result ≡ Ok false → entries_kept self.new ≡ entries_kept self.old }
        ensures err { OnErr result (entries_kept self.new ≡ entries_kept self.old) }
        ensures marks { KeepsMarks self.old self.new }
    {
        match value {
            Some(bytes) => self.put(key, number, true, bytes),
            None => self.put(key, number, false, &[]),
        }
    }

    fn put(
        &mut self,
        key: &[u8],
        number: u64,
        is_value: bool,
        bytes: &[u8],
    ) -> Result<bool, AllocError>
        requires some { 0 < length key.now }
        requires key { length key.now < 2 ^ 16 }
        requires value { length bytes.now < 2 ^ 32 }
        requires tombstone { (if is_value then 0 else length bytes.now) ≡ 0 }
        ensures told { IfOk result (λ is_new. is_new ≡ not (has_entry key.now number (entries_kept self.old))) }
        ensures new { result ≡ Ok true → entries_kept self.new ≡ inserted (version key.now number (if is_value then Some bytes.now else None)) (entries_kept self.old) }
        ensures there { result ≡ Ok false → entries_kept self.new ≡ entries_kept self.old }
        ensures err { OnErr result (entries_kept self.new ≡ entries_kept self.old) }
        ensures marks { KeepsMarks self.old self.new }
    {
        self.text.reserve(key.len() + bytes.len())?;
        let version_key = VersionKey::new(self.alloc, key, number)?;
        let place = Place {
            at: self.text.as_slice().len(),
            value_len: bytes.len() as u32,
            key_len: key.len() as u16,
            is_value,
        };
        match self.map.entry(version_key)? {
            Entry::Vacant(vacant) => {
                vacant.insert(place);
            }
            Entry::Occupied(_) => return Ok(false),
        }
        self.text.extend_from_slice(key)?;
        self.text.extend_from_slice(bytes)?;
        Ok(true)
    }

    /// The newest version of a key that is numbered below an instant, by one look-up; None where no version is. It is
    /// refused for want of memory alone, which it takes at a key above 16 bytes where there are entries.
    pub fn get_at(&self, key: &[u8], instant: u64) -> Result<Option<TableEntry<'_>>, AllocError>
        ensures { IfOk result (λ found. option_map seen found ≡ slice_get (versions_at key.now instant (entries_kept self.now)) 0) }
    {
        if self.is_empty() {
            return Ok(None);
        }
        if instant == 0 {
            return Ok(None);
        }
        let from = VersionKey::new(self.alloc, key, instant - 1)?;
        Ok(self.first_from(from))
    }

    fn first_from(&self, from: VersionKey) -> Option<TableEntry<'_>>
        ensures { option_map seen result ≡ slice_get (versions_at from.key (from.number + 1) (entries_kept self.now)) 0 }
    {
        let wanted = &from;
        match self.map.range(wanted..).next() {
            Some((found, place)) => {
                match found.compare_keys(wanted) {
                    Ordering::Equal => Some(TableEntry {
                        key: key_in(self.text.as_slice(), place),
                        number: found.number(),
                        value: value_in(self.text.as_slice(), place),
                    }),
                    _ => None,
                }
            }
            None => None,
        }
    }

    /// All versions, in order, to be read from both ends.
    pub fn versions(&self) -> Versions<'_>
        ensures versions { result ≡ entries_kept self.now }
        ensures ordered { IsOrdered result }
    {
        Versions {
            text: self.text.as_slice(),
            range: self.map.range(..),
        }
    }

    /// The versions whose keys lie between the bounds, in order, to be read from both ends; reversed bounds have none
    /// between them. It is refused for want of memory alone, which a bound at a key above 16 bytes takes.
    pub fn range(&self, range: KeyBounds<'_>) -> Result<Versions<'_>, AllocError>
        ensures versions { IfOk result (λ vs. vs ≡ entries_within (key_range range.entry) (entries_kept self.now)) }
        ensures ordered { IfOk result IsOrdered }
    {
        let (start, end) = run_forward(range);
        let start = bound_at(self.alloc, start, u64::MAX, 0)?;
        let end = bound_at(self.alloc, end, 0, u64::MAX)?;
        Ok(self.part(start, end))
    }

    fn part(&self, start: Bound<VersionKey>, end: Bound<VersionKey>) -> Versions<'_>
        requires { IsForwardBy start end }
        ensures versions { result ≡ filter (λ e. range_contains stamp_cmp start end (stamp_of e)) (entries_kept self.now) }
        ensures ordered { IsOrdered result }
    {
        Versions {
            text: self.text.as_slice(),
            range: self.map.range((start, end)),
        }
    }

    /// A mark of what it holds now, to which `undo` goes back: how many bytes its keys and values have.
    pub fn mark(&self) -> usize
        ensures mark { IsMark self.now result }
        ensures entries { entries_at result self.now ≡ entries_kept self.now }
    {
        self.text.as_slice().len()
    }

    /// Takes back all that was inserted since a mark. It takes no memory and can't fail, and looks at each entry.
    pub fn undo(&mut self, mark: usize)
        requires { IsMark self.old mark }
        ensures { entries_kept self.new ≡ entries_at mark self.old }
    {
        self.map.retain(|_, place| place.ends_by(mark));
        self.text.truncate(mark);
    }
}
