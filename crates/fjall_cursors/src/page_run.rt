//! The runs that a page is made of.

ghost use Rattle.std.specs.Prelude.{◌≡◌, ◌↔◌, ◌<◌, ⊤, ℕ, [], List, length, drop, slice_get, position, OnOk, IfErr, IfOk, IsTrue};
ghost use Rattle.std.specs.Option.{option_map};
ghost use Rattle.fjall_base.specs.Pairs.{key_range};
ghost use Rattle.fjall_table.specs.Blocks.{Entry, seen};
ghost use Rattle.fjall_table_reader.specs.Files.{IsRefused, entry_at};
ghost use Rattle.fjall_table_reader.specs.Readers.{HoldsAWrongBlock, IsSameTable, LooksOn, ReadsBlocks};
ghost use Rattle.fjall_cursors.specs.Keyed.{keyed_in};
ghost use Rattle.fjall_cursors.specs.Runs.{ahead_of, is_dry, left_in, to_come};
ghost use Rattle.fjall_cursors.specs.Tables.{EndsWithinBlocks, all_in};

use crate::memtable_run::MemtableRun;
use crate::run::{OwnedVersion, PageVersions, Run};
use crate::table_run::TableRun;
use fjall_base::{Disk, KeyBounds, Result};
use fjall_table::TableEntry;
use fjall_table_reader::TableReader;
use std::alloc::{AllocError, Global};
use std::result;

/// Versions of a memtable or of a part of a table, in order from one end on.
#[derive(Drop)]
pub enum PageRun<'a> {
    Memory(MemtableRun<'a>),
    Table(TableRun),
}

impl<'a> PageRun<'a> {
    /// Whether nothing of it is in memory, but a block is to come.
    pub fn is_dry(&self) -> bool
        ensures { result ≡ is_dry self.now }
    {
        match self {
            PageRun::Memory(_) => false,
            PageRun::Table(run) => run.is_dry(),
        }
    }

    // Reads the next blocks of a table's run that has none in memory.
    pub(crate) fn fill<D: Disk>(
        &mut self,
        alloc: Global,
        disk: &mut D,
        reader: &mut TableReader,
        range: KeyBounds<'_>,
    ) -> Result<()>
        requires { EndsWithinBlocks (length reader.old.handles) (ahead_of self.old) }
        ensures all { IsTrue D.honest → (blocks : List (List Entry)) → ReadsBlocks (D.meaning disk.old) reader.old blocks
            → OnOk result (all_in (key_range range.entry) blocks self.new ≡ all_in (key_range range.entry) blocks self.old) }
        ensures fewer { OnOk result (IsTrue (is_dry self.old) → to_come (ahead_of self.new) < to_come (ahead_of self.old)) }
        ensures end { OnOk result ((count : ℕ) → EndsWithinBlocks count (ahead_of self.old) → EndsWithinBlocks count (ahead_of self.new)) }
        ensures reads { IsTrue D.honest → (blocks : List (List Entry)) → ReadsBlocks (D.meaning disk.old) reader.old blocks → ReadsBlocks (D.meaning disk.new) reader.new blocks }
        ensures refused { IsTrue D.honest → (blocks : List (List Entry)) → ReadsBlocks (D.meaning disk.old) reader.old blocks
            → IfErr result (IsRefused (HoldsAWrongBlock (entry_at (D.meaning disk.old) reader.old.name) reader.old.handles)
            (D.meaning disk.old).faults (D.meaning disk.new).faults) }
        ensures table { IsSameTable reader.old reader.new }
        ensures disk { LooksOn D.honest (D.meaning disk.old) (D.meaning disk.new) }
        ensures listed { IfErr result (IsRefused ⊤ (D.meaning disk.old).faults (D.meaning disk.new).faults) }
    {
        match self {
            PageRun::Memory(_) => Ok(()),
            PageRun::Table(run) => run.fill(alloc, disk, reader, range),
        }
    }

    // Passes the first version over.
    pub(crate) fn skip(&mut self)
        ensures left { left_in self.new ≡ drop 1 (left_in self.old) }
        ensures ahead { ahead_of self.new ≡ ahead_of self.old }
    {
        match self {
            PageRun::Memory(run) => run.pass(),
            PageRun::Table(run) => run.skip(),
        }
    }
}

impl<'a> Run for PageRun<'a> {
    ghost left = { left_in };

    fn first(&self) -> Option<TableEntry<'_>>
        ensures { option_map seen result ≡ slice_get (left_in self.now) 0 }
    {
        match self {
            PageRun::Memory(run) => run.first(),
            PageRun::Table(run) => run.first(),
        }
    }

    fn is_empty(&self) -> bool
        ensures { IsTrue result ↔ (left_in self.now ≡ []) }
    {
        match self {
            PageRun::Memory(run) => run.is_empty(),
            PageRun::Table(run) => run.is_empty(),
        }
    }

    fn pass(&mut self)
        ensures { left_in self.new ≡ drop 1 (left_in self.old) }
    {
        self.skip();
    }
}

impl<'a> PageVersions for PageRun<'a> {
    #[inline(always)]
    fn first_owned(&self, alloc: Global) -> result::Result<Option<OwnedVersion>, AllocError>
        ensures { IfOk result (λ version. version ≡ option_map keyed_in (slice_get (left_in self.now) 0)) }
    {
        match self {
            PageRun::Memory(run) => run.first_owned(alloc),
            PageRun::Table(run) => run.first_owned(alloc),
        }
    }
}

// The first run of which nothing is in memory while a block is to come.
pub(crate) fn first_dry(runs: &[PageRun<'_>]) -> Option<usize>
    ensures { result ≡ position is_dry runs.now }
{
    runs.iter().position(|run| run.is_dry())
}
