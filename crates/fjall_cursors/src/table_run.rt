//! The part of a table between two bounds, as a run.

ghost use Rattle.std.specs.Prelude.{◌≡◌, ◌<◌, ◌≤◌, ◌↔◌, ⊤, [], List, drop, length, slice_get, OnOk, IfErr, IfOk, IsTrue};
ghost use Rattle.std.specs.Option.{option_map};
ghost use Rattle.fjall_base.specs.Pairs.{key_range};
ghost use Rattle.fjall_table.specs.Blocks.{Entry, seen};
ghost use Rattle.fjall_table.specs.Tables.{AreBlocks, entries_of, entries_within, handles_of};
ghost use Rattle.fjall_table_reader.specs.Files.{IsRefused, entry_at};
ghost use Rattle.fjall_table_reader.specs.Readers.{HoldsAWrongBlock, IsSameTable, LooksOn, ReadsBlocks};
ghost use Rattle.fjall_memtable.specs.Sorted.{in_turn};
ghost use Rattle.fjall_cursors.specs.Keyed.{keyed_in};
ghost use Rattle.fjall_cursors.specs.Parts.{Ahead, IsDryPart, blocks_ahead, left_of, next_block, still_to_come, without_next};

use crate::run::{OwnedVersion, PageVersions, Run};
use fjall_base::{Disk, KeyBounds, Result};
use fjall_table::TableEntry;
use fjall_table_reader::{Block, TableReader};
use std::alloc::{AllocError, Global};
use std::marker::Model;
use std::result;
use std::sync::Arc;

/// The part of a table between two bounds, gone through from the start or from behind, with one block in memory at a time.
/// Contracts see which entries are in memory and still to come, and which blocks are.
#[derive(Drop)]
pub struct TableRun {
    block: Option<Arc<Block, Global>>,
    start: usize,
    end: usize,
    next: usize,
    last: usize,
    back: bool,
}

impl Model for TableRun {
    ghost use Rattle.std.specs.Option.{option_map};
    ghost use Rattle.fjall_cursors.specs.Parts.{TablePart, ArePlacesHeld, entries_in, held_in};

    ghost Value = { TablePart };

    ghost view = { λ r. record { held = held_in (entries_in (option_map (λ b. b.value) r.block)) r.start r.end; ahead = record { next = r.next; last = r.last; back = r.back } } };

    ghost invariant = { λ r. ArePlacesHeld (entries_in (option_map (λ b. b.value) r.block)) r.start r.end };
}

impl TableRun {
    /// The part of a table between the bounds, from the start or, where `back` holds, from behind. Nothing of it is in
    /// memory yet.
    pub fn new(reader: &TableReader, range: KeyBounds<'_>, back: bool) -> TableRun
        ensures held { result.held ≡ [] }
        ensures back { result.ahead.back ≡ back }
        ensures end { result.ahead.last ≤ length reader.now.handles }
        ensures all { (blocks : List (List Entry)) → AreBlocks blocks → reader.now.handles ≡ handles_of 0 blocks
            → still_to_come (key_range range.entry) blocks result ≡ in_turn back (entries_within (key_range range.entry) (entries_of blocks)) }
    {
        let span = reader.span(range);
        TableRun {
            block: None,
            start: 0,
            end: 0,
            next: span.start,
            last: span.end,
            back,
        }
    }

    /// Whether nothing is in memory, but a block is to come.
    #[inline(always)]
    pub fn is_dry(&self) -> bool
        ensures { IsTrue result ↔ IsDryPart self.now }
    {
        self.start == self.end && self.next < self.last
    }

    // The number of the block that is to be read next.
    fn next_block(&self) -> usize
        requires { self.now.ahead.next < self.now.ahead.last }
        ensures { result ≡ next_block self.now.ahead }
    {
        if self.back {
            return self.last - 1;
        }
        self.next
    }

    // Takes that block into memory, in place of the one there.
    fn hold(&mut self, block: Arc<Block, Global>, range: KeyBounds<'_>)
        requires { self.old.ahead.next < self.old.ahead.last }
        ensures held { self.new.held ≡ entries_within (key_range range.entry) block.value }
        ensures ahead { self.new.ahead ≡ without_next self.old.ahead }
    {
        let within = block.within(range);
        self.start = within.start;
        self.end = within.end;
        self.block = Some(block);
        if self.back {
            self.last -= 1;
        } else {
            self.next += 1;
        }
    }

    /// Where nothing is in memory, reads the blocks that are to come, one after another, until something is or none is to
    /// come any more. One that is damaged is `Storage(TableDamaged)`; after an `Err` the run is of no more use. The reader
    /// is the table's that the run was made of, and the bounds are the same.
    pub fn fill<D: Disk>(
        &mut self,
        alloc: Global,
        disk: &mut D,
        reader: &mut TableReader,
        range: KeyBounds<'_>,
    ) -> Result<()>
        requires { self.old.ahead.last ≤ length reader.old.handles }
        ensures stands { IsTrue D.honest → (blocks : List (List Entry)) → ReadsBlocks (D.meaning disk.old) reader.old blocks
            → OnOk result (still_to_come (key_range range.entry) blocks self.new ≡ still_to_come (key_range range.entry) blocks self.old) }
        ensures filled { OnOk result (IsDryPart self.new → ⊥) }
        ensures fewer { OnOk result (IsDryPart self.old → blocks_ahead self.new.ahead < blocks_ahead self.old.ahead) }
        ensures end { OnOk result (self.new.ahead.last ≤ self.old.ahead.last) }
        ensures back { OnOk result (self.new.ahead.back ≡ self.old.ahead.back) }
        ensures reads { IsTrue D.honest → (blocks : List (List Entry)) → ReadsBlocks (D.meaning disk.old) reader.old blocks → ReadsBlocks (D.meaning disk.new) reader.new blocks }
        ensures refused { IsTrue D.honest → (blocks : List (List Entry)) → ReadsBlocks (D.meaning disk.old) reader.old blocks
            → IfErr result (IsRefused (HoldsAWrongBlock (entry_at (D.meaning disk.old) reader.old.name) reader.old.handles)
            (D.meaning disk.old).faults (D.meaning disk.new).faults) }
        ensures table { IsSameTable reader.old reader.new }
        ensures disk { LooksOn D.honest (D.meaning disk.old) (D.meaning disk.new) }
        ensures listed { IfErr result (IsRefused ⊤ (D.meaning disk.old).faults (D.meaning disk.new).faults) }
    {
        'reading: while self.is_dry() {
            let block = reader.block(alloc, disk, self.next_block())?;
            self.hold(block, range);
        }
        Ok(())
    }

    // Passes the first version over.
    #[inline(always)]
    pub(crate) fn skip(&mut self)
        ensures left { left_of self.new ≡ drop 1 (left_of self.old) }
        ensures ahead { self.new.ahead ≡ self.old.ahead }
    {
        if self.start < self.end {
            if self.back {
                self.end -= 1;
            } else {
                self.start += 1;
            }
        }
    }
}

impl Run for TableRun {
    ghost left = { left_of };

    #[inline(always)]
    fn first(&self) -> Option<TableEntry<'_>>
        ensures { option_map seen result ≡ slice_get (left_of self.now) 0 }
    {
        let Some(block) = &self.block else {
            return None;
        };
        if self.start == self.end {
            return None;
        }
        if self.back {
            return Some(block.entry(self.end - 1));
        }
        Some(block.entry(self.start))
    }

    #[inline(always)]
    fn is_empty(&self) -> bool
        ensures { IsTrue result ↔ (left_of self.now ≡ []) }
    {
        self.start == self.end
    }

    fn pass(&mut self)
        ensures { left_of self.new ≡ drop 1 (left_of self.old) }
    {
        self.skip();
    }
}

impl PageVersions for TableRun {
    #[inline(always)]
    fn first_owned(&self, _alloc: Global) -> result::Result<Option<OwnedVersion>, AllocError>
        ensures { IfOk result (λ version. version ≡ option_map keyed_in (slice_get (left_of self.now) 0)) }
    {
        let Some(block) = &self.block else {
            return Ok(None);
        };
        if self.start == self.end {
            return Ok(None);
        }
        let at = if self.back { self.end - 1 } else { self.start };
        Ok(Some(block.pair(at)?))
    }
}
