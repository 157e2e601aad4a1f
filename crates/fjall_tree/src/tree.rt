//! The tree of one keyspace.

ghost use Rattle.std.specs.Prelude.{◌≡◌, ◌≢◌, ◌+◌, ◌-◌, ◌<◌, ◌≤◌, ◌^◌, [], List, length, min, not, count_by, ⊤, IsTrue, IfOk, IfErr, IsOkUnless, OnOk, OnErr, Ok, Some, None, true, false};
ghost use Rattle.std.specs.List.{All, sum_by};
ghost use Rattle.fjall_base.specs.Disk.{Meaning};
ghost use Rattle.fjall_table.specs.Blocks.{Entry};
ghost use Rattle.fjall_table_reader.specs.Files.{IsRefused};
ghost use Rattle.fjall_memtable.specs.Views.{newest, value_at};
ghost use Rattle.fjall_memtable.specs.SortedPages.{barrier};
ghost use Rattle.fjall_table_reader.specs.Readers.{LooksOn, SomeTableIsWrongFor, kept_sizes, recent_sizes};
ghost use Rattle.fjall_memtable.specs.Entries.{size_of, version, IsAbsent};
ghost use Rattle.fjall_memtable.specs.Parts.{AreApart, Ascends, IsHeld, empty_from, holds_nothing, parts_of, versions_in};
ghost use Rattle.fjall_memtable.specs.Memories.{memory_of};
ghost use Rattle.fjall_tree.specs.Out.{IsFlushOf, IsMergeOf};
ghost use Rattle.fjall_tree.specs.Trees.{IsSameShape, IsShape, ReadsAll, aged_shape, clears_of, emptied, is_l0, sealed_off, shape_prop, unread_shape, versions_of, written};

use crate::counts::{
    bytes_kept, bytes_on_disk, bytes_recent, count_of_l0, drop_all_blocks, entries_in,
    let_all_older_go,
};
use crate::out::{FlushOut, MergeOut};
use crate::search::{greatest_below, newest_in, value_found, value_of};
use fjall_base::{Disk, Error, UserValue};
use fjall_memtable::{Mark, Parts};
use fjall_table_reader::TableReader;
use std::alloc::{AllocError, Global};

/// What a keyspace holds: tables on a disk, the oldest first, the clears that its record tells, ascending, and what is newer
/// than these, in memory. One flush and one merge of it can be out at a time.
#[derive(Drop)]
pub struct Tree {
    pub(crate) alloc: Global,
    pub(crate) tables: Vec<TableReader>,
    pub(crate) clears: Vec<u64>,
    pub(crate) parts: Parts,
    pub(crate) flush: Option<FlushOut>,
    pub(crate) merge: Option<MergeOut>,
    ghost shape: { IsShape clears.items (memory_of parts) } by { shape_prop clears.items (memory_of parts) },
    ghost flushing: { ∥ IsFlushOf (memory_of parts).sealed flush ∥₁ },
    ghost merging: { ∥ IsMergeOf tables.items clears.items merge ∥₁ },
}

impl Tree {
    ghost use Rattle.fjall_tree.specs.Shapes.{shape_at, shape_of, IsMark, KeepsMarks};

    /// The tree of opened tables, the oldest first, and of the record's clears, with nothing in memory, where numbers begin
    /// from this one on, which is at most 2^63. It takes no memory.
    pub fn new(alloc: Global, tables: Vec<TableReader>, clears: Vec<u64>, from: u64) -> Tree
        requires from { from ≤ 2 ^ 63 }
        requires low { All (λ n. n < from) clears.items }
        requires ascend { Ascends clears.items }
        ensures { shape_of result ≡ record { tables = tables.items; clears = clears.items; memory = record { sealed = []; active = empty_from from }; flush = None; merge = None } }
    {
        Tree {
            alloc,
            tables,
            clears,
            parts: Parts::new(alloc, from),
            flush: None,
            merge: None,
        }
    }

    /// Gives a key a value by the change of that number. The key has 1 to 65,535 bytes and the value at most 4,294,967,295;
    /// the active part begins at the number or before, and has no version of that key and number yet. It is refused for
    /// want of memory alone, and an `Err` leaves all as it was.
    pub fn insert(&mut self, key: &[u8], number: u64, value: &[u8]) -> Result<(), AllocError>
        requires some { 0 < length key.now }
        requires key { length key.now < 2 ^ 16 }
        requires value { length value.now < 2 ^ 32 }
        requires absent { IsAbsent key.now number (shape_of self.old).memory.active.versions }
        requires from { (shape_of self.old).memory.active.from ≤ number }
        requires small { number < 2 ^ 63 }
        ensures ok { OnOk result (shape_of self.new ≡ written (version key.now number (Some value.now)) (shape_of self.old)) }
        ensures err { OnErr result (shape_of self.new ≡ shape_of self.old) }
        ensures marks { KeepsMarks self.old self.new }
    {
        self.parts.insert(key, number, Some(value))
    }

    /// Removes a key by the change of that number. The key has 1 to 65,535 bytes; the active part begins at the number or
    /// before, and has no version of that key and number yet. It is refused for want of memory alone, and an `Err` leaves
    /// all as it was.
    pub fn remove(&mut self, key: &[u8], number: u64) -> Result<(), AllocError>
        requires some { 0 < length key.now }
        requires key { length key.now < 2 ^ 16 }
        requires absent { IsAbsent key.now number (shape_of self.old).memory.active.versions }
        requires from { (shape_of self.old).memory.active.from ≤ number }
        requires small { number < 2 ^ 63 }
        ensures ok { OnOk result (shape_of self.new ≡ written (version key.now number None) (shape_of self.old)) }
        ensures err { OnErr result (shape_of self.new ≡ shape_of self.old) }
        ensures marks { KeepsMarks self.old self.new }
    {
        self.parts.insert(key, number, None)
    }

    /// Empties the keyspace by the change of that number. The active part begins at the number or before, and its clears are
    /// all below it. It is refused for want of memory alone, and an `Err` leaves all as it was.
    pub fn clear(&mut self, number: u64) -> Result<(), AllocError>
        requires from { (shape_of self.old).memory.active.from ≤ number }
        requires small { number < 2 ^ 63 }
        requires last { All (λ n. n < number) (shape_of self.old).memory.active.clears }
        ensures ok { OnOk result (shape_of self.new ≡ emptied number (shape_of self.old)) }
        ensures err { OnErr result (shape_of self.new ≡ shape_of self.old) }
        ensures marks { KeepsMarks self.old self.new }
    {
        self.parts.clear(number)
    }

    /// A mark of what it holds now, to which `undo` goes back.
    pub fn mark(&self) -> Mark
        ensures mark { IsMark self.now result }
        ensures shape { shape_at result self.now ≡ shape_of self.now }
    {
        self.parts.mark()
    }

    /// Takes back all that was inserted, removed and cleared since a mark. It takes no memory and can't fail, and looks at
    /// each version of the active part.
    pub fn undo(&mut self, mark: Mark)
        requires { IsMark self.old mark }
        ensures { shape_of self.new ≡ shape_at mark self.old }
    {
        self.parts.undo(mark);
    }

    /// Seals the active part, and begins an empty one where it ended; false where the active part holds nothing, and then
    /// nothing changes. It is refused for want of memory alone, and an `Err` leaves all as it was.
    pub fn rotate_memtable(&mut self) -> Result<bool, AllocError>
        ensures ok { IfOk result (λ is_sealed. is_sealed ≡ not (holds_nothing (shape_of self.old).memory.active)) }
        ensures sealed { result ≡ Ok true → shape_of self.new ≡ sealed_off (shape_of self.old) }
        ensures empty { result ≡ Ok false → shape_of self.new ≡ shape_of self.old }
        ensures err { OnErr result (shape_of self.new ≡ shape_of self.old) }
    {
        self.parts.rotate()
    }

    /// All numbers in it are below this one.
    pub fn until(&self) -> u64
        ensures until { result ≡ (shape_of self.now).memory.active.until }
        ensures held { All IsHeld (parts_of (shape_of self.now).memory) }
        ensures apart { AreApart (parts_of (shape_of self.now).memory) }
        ensures clears { IsShape (shape_of self.now).clears (shape_of self.now).memory }
    {
        self.parts.until()
    }

    /// The greatest clear below an instant, of the record and in memory, or 0 where there is none.
    pub(crate) fn barrier(&self, instant: u64) -> u64
        ensures { result ≡ barrier instant (clears_of (shape_of self.now)) }
    {
        greatest_below(self.clears.as_slice(), instant).max(self.parts.barrier(instant))
    }

    /// The value of a key in the view at an instant: what the changes numbered below it made. None where it has none. Memory
    /// is asked first, and only where it has no version of the key below the instant are the tables, all of them: of each the
    /// blocks that may hold the key. One of these that is damaged is `Storage(TableDamaged)`. Blocks that were read are kept,
    /// also after an `Err`.
    pub fn get<D: Disk>(
        &mut self,
        disk: &mut D,
        key: &[u8],
        instant: u64,
    ) -> fjall_base::Result<Option<UserValue>>
        ensures found { IsTrue D.honest → (entries : List (List Entry)) → ReadsAll (D.meaning disk.old) (shape_of self.old) entries
            → IfOk result (λ value. value ≡ value_at key.now instant (clears_of (shape_of self.old)) (versions_of (shape_of self.old) entries)) }
        ensures reads { IsTrue D.honest → (entries : List (List Entry)) → ReadsAll (D.meaning disk.old) (shape_of self.old) entries → ReadsAll (D.meaning disk.new) (shape_of self.new) entries }
        ensures shape { IsSameShape (shape_of self.old) (shape_of self.new) }
        ensures refused { IsTrue D.honest → (entries : List (List Entry)) → ReadsAll (D.meaning disk.old) (shape_of self.old) entries
            → IfErr result (IsRefused (SomeTableIsWrongFor key.now (D.meaning disk.old) (shape_of self.old).tables) (D.meaning disk.old).faults (D.meaning disk.new).faults) }
        // Where memory has a version of the key, the disk isn't asked.
        ensures memory { newest key.now instant (versions_in (parts_of (shape_of self.old).memory)) ≢ None
            → (shape_of self.new ≡ shape_of self.old) × (D.meaning disk.new ≡ D.meaning disk.old) × IsOkUnless result Error.OutOfMemory }
        ensures disk { LooksOn D.honest (D.meaning disk.old) (D.meaning disk.new) }
        ensures listed { IfErr result (IsRefused ⊤ (D.meaning disk.old).faults (D.meaning disk.new).faults) }
    {
        let barrier = self.barrier(instant);
        if let Some(version) = self.parts.newest(key, instant)? {
            return value_of(self.alloc, &version, barrier);
        }
        let tables = self.tables.as_mut_slice();
        let found = newest_in(tables, self.alloc, disk, key, instant)?;
        Ok(value_found(found, barrier))
    }

    /// How many versions there are, in all tables and in memory, hidden ones and removals among them; the greatest u64 where
    /// that is too small.
    pub fn approximate_len(&self) -> u64
        ensures { result ≡ min (sum_by (λ t. t.info.entry_count) (shape_of self.now).tables + length (versions_in (parts_of (shape_of self.now).memory))) (2 ^ 64 - 1) }
    {
        entries_in(self.tables.as_slice()).saturating_add(self.parts.len() as u64)
    }

    /// How many tables there are.
    pub fn table_count(&self) -> usize
        ensures { result ≡ length (shape_of self.now).tables }
    {
        self.tables.as_slice().len()
    }

    /// How many tables stand as flushes made them.
    pub fn l0_table_count(&self) -> usize
        ensures { result ≡ count_by (λ t. is_l0 t.info.level) (shape_of self.now).tables }
    {
        count_of_l0(self.tables.as_slice())
    }

    /// How many sealed memtables there are.
    pub fn sealed_memtable_count(&self) -> usize
        ensures { result ≡ length (shape_of self.now).memory.sealed }
    {
        self.parts.sealed_count()
    }

    /// How many bytes the tables' files have, all added up; the greatest u64 where that is too small.
    pub fn disk_space(&self) -> u64
        ensures { result ≡ min (sum_by (λ t. t.info.file_len) (shape_of self.now).tables) (2 ^ 64 - 1) }
    {
        bytes_on_disk(self.tables.as_slice())
    }

    /// How many bytes the active memtable counts for; the greatest u64 where that is too small.
    pub fn active_size(&self) -> u64
        ensures { result ≡ min (sum_by size_of (shape_of self.now).memory.active.versions) (2 ^ 64 - 1) }
    {
        self.parts.active_size()
    }

    /// How many bytes all memtables count for; the greatest u64 where that is too small.
    pub fn memtable_size(&self) -> u64
        ensures { result ≡ min (sum_by size_of (versions_in (parts_of (shape_of self.now).memory))) (2 ^ 64 - 1) }
    {
        self.parts.size()
    }

    /// For how many bytes of memory the kept blocks of all tables count; the greatest u64 where that is too small.
    pub fn kept_bytes(&self) -> u64
        ensures { result ≡ min (kept_sizes (shape_of self.now).tables) (2 ^ 64 - 1) }
    {
        bytes_kept(self.tables.as_slice())
    }

    /// The same of those that were used since `let_older_go`.
    pub fn recent_bytes(&self) -> u64
        ensures { result ≡ min (recent_sizes (shape_of self.now).tables) (2 ^ 64 - 1) }
    {
        bytes_recent(self.tables.as_slice())
    }

    /// Keeps no older block of any table any longer; the recent ones are the older ones from now on.
    pub fn let_older_go(&mut self)
        ensures shape { shape_of self.new ≡ aged_shape (shape_of self.old) }
        ensures reads { (disk : Meaning) (entries : List (List Entry)) → ReadsAll disk (shape_of self.old) entries → ReadsAll disk (shape_of self.new) entries }
    {
        let_all_older_go(self.tables.as_mut_slice());
    }

    /// Keeps no block of any table any longer.
    pub fn drop_blocks(&mut self)
        ensures shape { shape_of self.new ≡ unread_shape (shape_of self.old) }
        ensures reads { (disk : Meaning) (entries : List (List Entry)) → ReadsAll disk (shape_of self.old) entries → ReadsAll disk (shape_of self.new) entries }
    {
        drop_all_blocks(self.tables.as_mut_slice());
    }
}
