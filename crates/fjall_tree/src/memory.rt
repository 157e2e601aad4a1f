//! Writes to memory that are made once, and views of what is in memory alone.

ghost use Rattle.std.specs.Prelude.{◌≡◌, ◌<◌, ◌≤◌, ◌^◌, [], length, nat_le, IfOk, IsOkUnless, OnOk, OnErr};
ghost use Rattle.std.specs.List.{list_any};
ghost use Rattle.std.specs.Option.{option_map};
ghost use Rattle.fjall_base.specs.Pairs.{Pairs, key_range, page, pairs_between};
ghost use Rattle.fjall_table.specs.Blocks.{value_bytes};
ghost use Rattle.fjall_memtable.specs.Entries.{version};
ghost use Rattle.fjall_memtable.specs.Views.{IsView, value_at};
ghost use Rattle.fjall_memtable.specs.Parts.{Ascends};
ghost use Rattle.fjall_tree.specs.Puts.{emptied_once, put};
ghost use Rattle.fjall_tree.specs.Trees.{clears_of, versions_of};

use crate::pages::memory_runs;
use crate::search::value_of;
use crate::tree::Tree;
use fjall_base::{Error, KeyBounds, KvPair, UserValue};
use fjall_cursors::page_of_runs;
use std::alloc::AllocError;

// Whether one of ascending numbers is this one or above it.
fn is_reached(numbers: &[u64], number: u64) -> bool
    requires { Ascends numbers.now }
    ensures { result ≡ list_any (λ n. nat_le number n) numbers.now }
{
    match numbers.last() {
        Some(last) => number <= *last,
        None => false,
    }
}

impl Tree {
    ghost use Rattle.fjall_tree.specs.Shapes.{shape_of, KeepsMarks};

    /// Gives a key a value by the change of that number, or removes it where there is none; where the active part has a
    /// version of that key and number already, nothing changes. The key has 1 to 65,535 bytes and the value at most
    /// 4,294,967,295; the active part begins at the number or before. It is refused for want of memory alone, and an `Err`
    /// leaves all as it was.
    pub fn put(&mut self, key: &[u8], number: u64, value: Option<&[u8]>) -> Result<(), AllocError>
        requires some { 0 < length key.now }
        requires key { length key.now < 2 ^ 16 }
        requires value { length (value_bytes (option_map (λ v. v.now) value)) < 2 ^ 32 }
        requires from { (shape_of self.old).memory.active.from ≤ number }
        requires small { number < 2 ^ 63 }
        ensures ok { OnOk result (shape_of self.new ≡ put (version key.now number (option_map (λ v. v.now) value.entry)) (shape_of self.old)) }
        ensures err { OnErr result (shape_of self.new ≡ shape_of self.old) }
        ensures marks { KeepsMarks self.old self.new }
    {
        self.parts.insert_once(key, number, value)?;
        Ok(())
    }

    /// Empties the keyspace by the change of that number; where the active part has a clear of that number or above
    /// already, nothing changes. The active part begins at the number or before. It is refused for want of memory alone,
    /// and an `Err` leaves all as it was.
    pub fn clear_once(&mut self, number: u64) -> Result<(), AllocError>
        requires from { (shape_of self.old).memory.active.from ≤ number }
        requires small { number < 2 ^ 63 }
        ensures ok { OnOk result (shape_of self.new ≡ emptied_once number (shape_of self.old)) }
        ensures err { OnErr result (shape_of self.new ≡ shape_of self.old) }
        ensures marks { KeepsMarks self.old self.new }
    {
        if is_reached(self.parts.active().clears(), number) {
            return Ok(());
        }
        self.parts.clear(number)
    }

    /// The value of a key in the view at an instant of what is in memory and of the record's clears, as if there were no
    /// tables. None where it has none. It is refused for want of memory alone.
    pub fn get_in_memory(&self, key: &[u8], instant: u64) -> fjall_base::Result<Option<UserValue>>
        ensures found { IfOk result (λ value. value ≡ value_at key.now instant (clears_of (shape_of self.now)) (versions_of (shape_of self.now) [])) }
        ensures only { IsOkUnless result Error.OutOfMemory }
    {
        match self.parts.newest(key, instant)? {
            Some(version) => value_of(self.alloc, &version, self.barrier(instant)),
            None => Ok(None),
        }
    }

    /// A page of that view: of the pairs between the bounds the first ones, or the last ones where `back` holds, and at most
    /// `max` of them; in the order of their keys in both cases. It is refused for want of memory alone.
    pub fn page_in_memory(
        &self,
        range: KeyBounds<'_>,
        instant: u64,
        back: bool,
        max: usize,
    ) -> fjall_base::Result<Vec<KvPair>>
        ensures found { (pairs : Pairs) → IsView instant (clears_of (shape_of self.now)) (versions_of (shape_of self.now) []) pairs
            → IfOk result (λ found. found.items ≡ page back max (pairs_between (key_range range.entry) pairs)) }
        ensures only { IsOkUnless result Error.OutOfMemory }
    {
        let bound = self.barrier(instant);
        let mut runs = memory_runs(self.alloc, &self.parts, range, back)?;
        let pairs = page_of_runs(self.alloc, runs.as_mut_slice(), instant, bound, back, max)?;
        Ok(pairs)
    }
}
