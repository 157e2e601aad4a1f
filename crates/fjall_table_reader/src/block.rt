//! A data block in one buffer, checked and decoded.

ghost use Rattle.std.specs.Prelude.{◌≡◌, ◌-◌, ◌<◌, ◌≤◌, ◌^◌, length, min, option_and_then, slice_get, take, drop, filter, Some, None, map, IfOk, IfErr, IfSome, IsOkUnless};
ghost use Rattle.std.specs.Int.{w128, to_be_bytes};
ghost use Rattle.std.specs.Option.{option_map};
ghost use Rattle.std.specs.Range.Bound.{bound_map};
ghost use Rattle.fjall_base.specs.declared.error.StorageError.TheVariants.{TableDamaged};
ghost use Rattle.fjall_base.specs.Pairs.{byte_order, key_range};
ghost use Rattle.fjall_table.specs.Reading.{DamagedWhere};
ghost use Rattle.fjall_table.specs.Blocks.{seen, IsOrdered};
ghost use Rattle.fjall_table.specs.Padded.{padded};
ghost use Rattle.fjall_table.specs.Tables.{entries_within, versions_at};
ghost use Rattle.fjall_table.specs.TableReading.{IsBlockFrom, IsNoBlockFrom};
ghost use Rattle.fjall_table_reader.specs.Ahead.{before_start, stands_ahead, up_to_end};
ghost use Rattle.fjall_table_reader.specs.Finds.{IsFound, entry_found};
ghost use Rattle.fjall_table_reader.specs.Places.{entries_in, AreFronts, ArePlaced};
ghost use Rattle.fjall_table_reader.specs.Readers.{block_size};

use crate::found::Found;
use crate::place::{EntryPlace, places_of};
use bytes::Bytes;
use fjall_base::{Error, KeyBounds, Result, UserKey, UserValue};
use fjall_table::{BlockHandle, TableEntry, compare_numbers, front_of};
use std::alloc::{AllocError, Global};
use std::cmp::Ordering;
use std::marker::Model;
use std::ops::{Bound, Range};
use std::result;

/// How many bytes stand before a block's first entry: the length of its payload.
const LENGTH_LEN: usize = 8;

/// How many of a key's first bytes its front has.
const FRONT_LEN: usize = 16;

/// For how many bytes an entry counts beside its text: its place, and its key's front.
const ENTRY_BYTES: u64 = 40;

/// A data block that was checked and decoded, in one buffer: reading an entry checks nothing again. Contracts see it as
/// its entries.
#[derive(Drop)]
pub struct Block {
    text: Bytes,
    places: Vec<EntryPlace>,
    /// The fronts of the entries' keys, by which a search passes most entries without a look at the text.
    fronts: Vec<u128>,
}

impl Model for Block {
    ghost use Rattle.std.specs.Prelude.{List};
    ghost use Rattle.fjall_table.specs.Blocks.{Entry};
    ghost use Rattle.fjall_table_reader.specs.Places.{entries_in, ArePlaced};

    ghost Value = { List Entry };

    ghost view = { λ b. entries_in b.text b.places.items };

    ghost invariant = { λ b. ArePlaced b.text b.places.items b.fronts.items };
}

/// How two keys of like fronts compare: by their lengths alone, where the fronts have all of them.
fn compare_like(key: &[u8], other: &[u8]) -> Ordering
    requires { padded 16 key.now ≡ padded 16 other.now }
    ensures { result ≡ byte_order key.now other.now }
{
    if key.len() <= FRONT_LEN && other.len() <= FRONT_LEN {
        return key.len().cmp(&other.len());
    }
    key.cmp(other)
}

impl Block {
    /// Checks and decodes the bytes of a block, and keeps them. Other bytes than a block's whose first key is the handle's
    /// are `Storage(TableDamaged)`.
    pub fn read(alloc: Global, handle: &BlockHandle<'_>, framed: Vec<u8>) -> Result<Block>
        ensures block { IfOk result (IsBlockFrom handle.now.first_key.now framed.items) }
        ensures damaged { IfErr result (DamagedWhere TableDamaged (IsNoBlockFrom handle.now.first_key.now framed.items)) }
    {
        let (places, fronts) = read_places(alloc, handle, &framed)?;
        let text = Bytes::from_vec(framed)?;
        Ok(Block {
            text,
            places,
            fronts,
        })
    }

    /// How many entries it has: one at least.
    pub fn len(&self) -> usize
        ensures len { result ≡ length self.now }
        ensures some { 0 < result }
        ensures ordered { IsOrdered self.now }
    {
        self.places.len()
    }

    /// For how many bytes of memory it counts: those of its text, and 40 for each entry; the greatest u64 where that is too
    /// small.
    pub fn size(&self) -> u64
        ensures { result ≡ min (block_size self.now) (2 ^ 64 - 1) }
    {
        (self.places.len() as u64)
            .saturating_mul(ENTRY_BYTES)
            .saturating_add(self.text.len() as u64)
    }

    /// An entry, counted from 0 on. Key and value are parts of the block's text.
    #[inline(always)]
    pub fn entry(&self, at: usize) -> TableEntry<'_>
        requires { at < length self.now }
        ensures { slice_get self.now at ≡ Some (seen result) }
    {
        let place = &self.places[at];
        TableEntry {
            key: place.key_in(&self.text),
            number: place.number,
            value: place.value_in(&self.text),
        }
    }

    /// An entry without its key. Its value is a part of the block's text, as [`Slice::part_of`](fjall_base::Slice::part_of) answers
    /// one. It is refused for want of memory alone.
    pub fn found(&self, at: usize) -> Result<Found>
        requires { at < length self.now }
        ensures found { IfOk result (λ f. IfSome (slice_get self.now at) (λ e. entry_found e.key f ≡ e)) }
        ensures only { IsOkUnless result Error.OutOfMemory }
    {
        let place = &self.places[at];
        let value = place.shared_value(&self.text)?;
        Ok(Found {
            number: place.number,
            value,
        })
    }

    /// The key of an entry and its value, where it has one: parts of the block's text in the same way.
    #[inline(always)]
    pub fn pair(&self, at: usize) -> result::Result<(UserKey, Option<UserValue>), AllocError>
        requires { at < length self.now }
        ensures { IfOk result (λ pair. option_map (λ e. (e.key, e.value)) (slice_get self.now at) ≡ Some pair) }
    {
        let place = &self.places[at];
        let key = place.shared_key(&self.text)?;
        let value = place.shared_value(&self.text)?;
        Ok((key, value))
    }

    /// Where the newest version of a key stands that is numbered below an instant, by binary search; None where no version
    /// is.
    pub fn newest(&self, key: &[u8], instant: u64) -> Option<usize>
        ensures version { slice_get (versions_at key.now instant self.now) 0 ≡ option_and_then (slice_get self.now) result }
        ensures within { IfSome result (λ at. at < length self.now) }
    {
        let front = front_of(key);
        let at = self.count_ahead(front, key, Some(instant));
        if at >= self.len() {
            return None;
        }
        if self.compare_key(at, front, key).is_ne() {
            return None;
        }
        Some(at)
    }

    /// That version, as `found` gives it.
    pub(crate) fn find(&self, key: &[u8], instant: u64) -> Result<Option<Found>>
        ensures found { IfOk result (λ f. IsFound key.now f (slice_get (versions_at key.now instant self.now) 0)) }
        ensures only { IsOkUnless result Error.OutOfMemory }
    {
        let Some(at) = self.newest(key, instant) else {
            return Ok(None);
        };
        Ok(Some(self.found(at)?))
    }

    /// The numbers of the entries whose keys lie between the bounds, by two binary searches; reversed bounds have none
    /// between them.
    pub fn within(&self, range: KeyBounds<'_>) -> Range<usize>
        ensures entries { take (result.end - result.start) (drop result.start self.now) ≡ entries_within (key_range range.entry) self.now }
        ensures start { result.start ≤ result.end }
        ensures end { result.end ≤ length self.now }
    {
        let start = self.count_before(range.0);
        let end = self.count_up_to(range.1);
        start..end.max(start)
    }

    /// How many entries stand before a range that begins there.
    fn count_before(&self, start: Bound<&[u8]>) -> usize
        ensures { result ≡ length (filter (before_start (bound_map (λ key. key.now) start.entry)) self.now) }
    {
        match start {
            Bound::Included(key) => self.count_ahead(front_of(key), key, None),
            Bound::Excluded(key) => self.count_ahead(front_of(key), key, Some(0)),
            Bound::Unbounded => 0,
        }
    }

    /// How many entries aren't past a range that ends there.
    fn count_up_to(&self, end: Bound<&[u8]>) -> usize
        ensures count { result ≡ length (filter (up_to_end (bound_map (λ key. key.now) end.entry)) self.now) }
        ensures ordered { IsOrdered self.now }
    {
        match end {
            Bound::Included(key) => self.count_ahead(front_of(key), key, Some(0)),
            Bound::Excluded(key) => self.count_ahead(front_of(key), key, None),
            Bound::Unbounded => self.len(),
        }
    }

    /// How the key of an entry compares with one of this front.
    #[inline(always)]
    fn compare_key(&self, at: usize, front: u128, key: &[u8]) -> Ordering
        requires within { at < length self.now }
        requires front { to_be_bytes w128 front ≡ padded 16 key.now }
        ensures { IfSome (slice_get self.now at) (λ e. result ≡ byte_order e.key key.now) }
    {
        let order = compare_numbers(self.fronts[at], front);
        if order.is_ne() {
            return order;
        }
        compare_like(self.entry(at).key, key)
    }

    /// Whether an entry stands before all those of a key with this front that are numbered below an instant; with no instant,
    /// before all of the key.
    #[inline(always)]
    fn is_ahead(&self, at: usize, front: u128, key: &[u8], instant: Option<u64>) -> bool
        requires within { at < length self.now }
        requires front { to_be_bytes w128 front ≡ padded 16 key.now }
        ensures { IfSome (slice_get self.now at) (λ e. result ≡ stands_ahead key.now instant e) }
    {
        let order = self.compare_key(at, front, key);
        match instant {
            Some(instant) => {
                order.is_lt() || (order.is_eq() && self.places[at].number >= instant)
            }
            None => order.is_lt(),
        }
    }

    /// How many entries stand so before those of a key with this front.
    fn count_ahead(&self, front: u128, key: &[u8], instant: Option<u64>) -> usize
        requires { to_be_bytes w128 front ≡ padded 16 key.now }
        ensures count { result ≡ length (filter (stands_ahead key.now instant) self.now) }
        ensures ordered { IsOrdered self.now }
    {
        let mut low = 0;
        let mut high = self.len();
        while low < high {
            let middle = low + (high - low) / 2;
            if self.is_ahead(middle, front, key, instant) {
                low = middle + 1;
            } else {
                high = middle;
            }
        }
        low
    }
}

/// The fronts of the keys of entries.
fn fronts_of(alloc: Global, entries: &[TableEntry<'_>]) -> Result<Vec<u128>>
    ensures fronts { IfOk result (λ fronts. AreFronts fronts.items (map seen entries.now)) }
    ensures only { IsOkUnless result Error.OutOfMemory }
{
    let mut fronts = Vec::with_capacity(alloc, entries.len())?;
    for entry in entries {
        fronts.push(front_of(entry.key))?;
    }
    Ok(fronts)
}

/// Where the entries of a block stand in its bytes, and the fronts of their keys.
fn read_places(
    alloc: Global,
    handle: &BlockHandle<'_>,
    framed: &[u8],
) -> Result<(Vec<EntryPlace>, Vec<u128>)>
    ensures block { IfOk result (λ found. IsBlockFrom handle.now.first_key.now framed.now (entries_in framed.now found.0.items)) }
    ensures placed { IfOk result (λ found. ArePlaced framed.now found.0.items found.1.items) }
    ensures damaged { IfErr result (DamagedWhere TableDamaged (IsNoBlockFrom handle.now.first_key.now framed.now)) }
{
    let entries = handle.read(alloc, framed)?;
    let fronts = fronts_of(alloc, &entries)?;
    let places = places_of(alloc, LENGTH_LEN, &entries)?;
    Ok((places, fronts))
}
