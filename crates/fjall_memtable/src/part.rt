//! A memtable with the clears that came while it was written.

ghost use Rattle.std.specs.Prelude.{◌≡◌, ◌-◌, ◌<◌, ◌≤◌, ◌^◌, length, min, not, IfOk, OnOk, OnErr, Ok, true, false};
ghost use Rattle.std.specs.List.{All, sum_by};
ghost use Rattle.std.specs.Option.{option_map};
ghost use Rattle.fjall_table.specs.Blocks.{seen, value_bytes};
ghost use Rattle.fjall_memtable.specs.Entries.{entries_kept, size_of, version, IsAbsent};
ghost use Rattle.fjall_memtable.specs.Presence.{has_entry};
ghost use Rattle.fjall_memtable.specs.Views.{newest};
ghost use Rattle.fjall_memtable.specs.SortedPages.{barrier};
ghost use Rattle.fjall_memtable.specs.Parts.{Ascends, IsHeld, empty_from, held_prop, holds_nothing, with_clear, with_version};

use crate::mark::Mark;
use crate::memtable::Memtable;
use fjall_table::TableEntry;
use std::alloc::{AllocError, Global};

/// A memtable, and the numbers of the changes that emptied the keyspace while it was written. All its numbers are at least
/// `from` and below `until`; the clears ascend.
#[derive(Drop)]
pub struct Part {
    pub(crate) versions: Memtable,
    pub(crate) clears: Vec<u64>,
    pub(crate) from: u64,
    pub(crate) until: u64,
    ghost held: { IsHeld (record { from = from; until = until; versions = entries_kept versions; clears = clears.items }) } by { held_prop (record { from = from; until = until; versions = entries_kept versions; clears = clears.items }) },
}

// The greatest of ascending numbers that is below an instant, or 0.
fn greatest_below(numbers: &[u64], instant: u64) -> u64
    requires { Ascends numbers.now }
    ensures { result ≡ barrier instant numbers.now }
{
    match numbers.partition_point(|number| *number < instant) {
        0 => 0,
        count => numbers[count - 1],
    }
}

impl Part {
    ghost use Rattle.fjall_memtable.specs.Held.{held_at, held_of, IsMarkOf, KeepsMarksOf};

    pub(crate) fn new(alloc: Global, from: u64) -> Part
        requires { from ≤ 2 ^ 63 }
        ensures { held_of result ≡ empty_from from }
    {
        Part {
            versions: Memtable::new(alloc),
            clears: Vec::new(alloc),
            from,
            until: from,
        }
    }

    /// No number of it is below this one.
    pub fn from(&self) -> u64
        ensures { result ≡ (held_of self.now).from }
    {
        self.from
    }

    /// All its numbers are below this one.
    pub fn until(&self) -> u64
        ensures until { result ≡ (held_of self.now).until }
        ensures held { IsHeld (held_of self.now) }
    {
        self.until
    }

    /// The numbers of its clears, ascending.
    pub fn clears(&self) -> &[u64]
        ensures { result.now ≡ (held_of self.now).clears }
    {
        self.clears.as_slice()
    }

    /// Its versions.
    pub fn versions(&self) -> &Memtable
        ensures { entries_kept result.now ≡ (held_of self.now).versions }
    {
        &self.versions
    }

    /// How many bytes its versions count for, as the memtable says; the greatest u64 where that is too small.
    pub fn size(&self) -> u64
        ensures { result ≡ min (sum_by size_of (held_of self.now).versions) (2 ^ 64 - 1) }
    {
        self.versions.size()
    }

    /// How many versions it has.
    pub fn len(&self) -> usize
        ensures { result ≡ length (held_of self.now).versions }
    {
        self.versions.len()
    }

    /// Whether it has no version and no clear.
    pub fn is_empty(&self) -> bool
        ensures { result ≡ holds_nothing (held_of self.now) }
    {
        self.versions.len() == 0 && self.clears.as_slice().len() == 0
    }

    /// The newest version of a key that is numbered below an instant, by one look-up; None where no version is. It is
    /// refused for want of memory alone.
    pub fn newest(&self, key: &[u8], instant: u64) -> Result<Option<TableEntry<'_>>, AllocError>
        ensures { IfOk result (λ found. option_map seen found ≡ newest key.now instant (held_of self.now).versions) }
    {
        self.versions.get_at(key, instant)
    }

    /// The greatest clear below an instant, or 0 where there is none, by one binary search.
    pub fn barrier(&self, instant: u64) -> u64
        ensures { result ≡ barrier instant (held_of self.now).clears }
    {
        greatest_below(self.clears.as_slice(), instant)
    }

    pub(crate) fn insert(
        &mut self,
        key: &[u8],
        number: u64,
        value: Option<&[u8]>,
    ) -> Result<(), AllocError>
        requires some { 0 < length key.now }
        requires key { length key.now < 2 ^ 16 }
        requires value { length (value_bytes (option_map (λ v. v.now) value)) < 2 ^ 32 }
        requires absent { IsAbsent key.now number (held_of self.old).versions }
        requires from { (held_of self.old).from ≤ number }
        requires small { number < 2 ^ 63 }
        ensures ok { OnOk result (held_of self.new ≡ with_version (version key.now number (option_map (λ v. v.now) value.entry)) (held_of self.old)) }
        ensures err { OnErr result (held_of self.new ≡ held_of self.old) }
        ensures from { (held_of self.new).from ≡ (held_of self.old).from }
        ensures marks { KeepsMarksOf self.old self.new }
    {
        self.versions.insert(key, number, value)?;
        self.until = self.until.max(number + 1);
        Ok(())
    }

    // The same where it has no version of that key and number, and true; else nothing changes, and it answers false.
    pub(crate) fn insert_once(
        &mut self,
        key: &[u8],
        number: u64,
        value: Option<&[u8]>,
    ) -> Result<bool, AllocError>
        requires some { 0 < length key.now }
        requires key { length key.now < 2 ^ 16 }
        requires value { length (value_bytes (option_map (λ v. v.now) value)) < 2 ^ 32 }
        requires from { (held_of self.old).from ≤ number }
        requires small { number < 2 ^ 63 }
        ensures told { IfOk result (λ is_new. is_new ≡ not (has_entry key.now number (held_of self.old).versions)) }
        ensures new { result ≡ Ok true → held_of self.new ≡ with_version (version key.now number (option_map (λ v. v.now) value.entry)) (held_of self.old) }
        ensures there { result ≡ Ok false → held_of self.new ≡ held_of self.old }
        ensures err { OnErr result (held_of self.new ≡ held_of self.old) }
        ensures from { (held_of self.new).from ≡ (held_of self.old).from }
        ensures marks { KeepsMarksOf self.old self.new }
    {
        let is_new = self.versions.insert_once(key, number, value)?;
        if is_new {
            self.until = self.until.max(number + 1);
        }
        Ok(is_new)
    }

    pub(crate) fn clear(&mut self, number: u64) -> Result<(), AllocError>
        requires from { (held_of self.old).from ≤ number }
        requires small { number < 2 ^ 63 }
        requires last { All (λ n. n < number) (held_of self.old).clears }
        ensures ok { OnOk result (held_of self.new ≡ with_clear number (held_of self.old)) }
        ensures err { OnErr result (held_of self.new ≡ held_of self.old) }
        ensures from { (held_of self.new).from ≡ (held_of self.old).from }
        ensures marks { KeepsMarksOf self.old self.new }
    {
        self.clears.push(number)?;
        self.until = self.until.max(number + 1);
        Ok(())
    }

    pub(crate) fn mark(&self) -> Mark
        ensures mark { IsMarkOf self.now result }
        ensures held { held_at result self.now ≡ held_of self.now }
    {
        Mark {
            versions: self.versions.mark(),
            clears: self.clears.as_slice().len(),
            until: self.until,
        }
    }

    pub(crate) fn undo(&mut self, mark: Mark)
        requires { IsMarkOf self.old mark }
        ensures { held_of self.new ≡ held_at mark self.old }
    {
        self.versions.undo(mark.versions);
        self.clears.truncate(mark.clears);
        self.until = mark.until;
    }
}
