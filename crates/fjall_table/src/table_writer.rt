//! The bytes of a table, from its versions in order.

ghost use Rattle.std.specs.Prelude.{◌≡◌, ◌⊎◌, ◌<◌, ◌++◌, ◌↔◌, [], ◌∷◌, length, IfOk, IfSome, IfNone, OnOk, OnErr, Err, IsTrue, IsOkUnless, MatchOption};
ghost use Rattle.fjall_table.specs.Blocks.{seen, payload_of, IsOrdered, refusal};
ghost use Rattle.fjall_table.specs.Tables.{entries_of, AreFull, IsTable};
ghost use Rattle.fjall_table.specs.Writing.{FollowsEntries, HaveReached};

use crate::closed_blocks::ClosedBlocks;
use crate::open_block::OpenBlock;
use crate::table_entry::TableEntry;
use fjall_base::{Error, Result};
use std::alloc::Global;
use std::marker::Model;
use std::mem::swap;

/// Builds a table in memory, block by block: one is closed as soon as its payload has `BLOCK_BYTES`. Contracts see the
/// writer as the entries written so far.
#[derive(Drop)]
pub struct TableWriter {
    closed_blocks: ClosedBlocks,
    open_block: OpenBlock,
    last_key: Vec<u8>,
    last_number: Option<u64>,
    /// Where the next `last_key` is put, so that an `Err` leaves the old one.
    next_key: Vec<u8>,
}

impl Model for TableWriter {
    ghost use Rattle.std.specs.Prelude.{List, ◌++◌};
    ghost use Rattle.fjall_table.specs.Blocks.{Entry};

    ghost Value = { List Entry };

    ghost use Rattle.fjall_table.specs.Tables.{entries_of};
    ghost use Rattle.fjall_table.specs.Writing.{IsSoFar};

    ghost view = { λ w. entries_of w.closed_blocks ++ w.open_block };

    ghost invariant = { λ w. IsSoFar w.last_key.items w.last_number w.closed_blocks w.open_block };
}

/// Closes the block if it is full, so that it has room for an entry.
fn make_room(closed_blocks: &mut ClosedBlocks, open_block: &mut OpenBlock) -> Result<()>
    requires { IsOrdered open_block.old }
    ensures entries { OnOk result (entries_of closed_blocks.new ++ open_block.new ≡ entries_of closed_blocks.old ++ open_block.old) }
    ensures full { OnOk result (HaveReached closed_blocks.old → HaveReached closed_blocks.new) }
    ensures room { OnOk result (length (payload_of open_block.new) < 4096) }
    ensures closed_blocks { OnErr result (closed_blocks.new ≡ closed_blocks.old) }
    ensures open_block { OnErr result (open_block.new ≡ open_block.old) }
    ensures only { IsOkUnless result Error.OutOfMemory }
{
    if open_block.is_full() {
        closed_blocks.close(open_block)?;
        open_block.clear();
    }
    Ok(())
}

/// Closes the last block, if it has entries.
fn close_last(closed_blocks: &mut ClosedBlocks, open_block: &OpenBlock) -> Result<()>
    requires { IsOrdered open_block.now }
    ensures entries { OnOk result (entries_of closed_blocks.new ≡ entries_of closed_blocks.old ++ open_block.now) }
    ensures full { OnOk result (HaveReached closed_blocks.old → AreFull closed_blocks.new) }
    ensures only { IsOkUnless result Error.OutOfMemory }
{
    if open_block.is_empty() {
        return Ok(());
    }
    closed_blocks.close(open_block)
}

impl TableWriter {
    /// A writer of no entries yet. It takes no memory.
    pub fn new(alloc: Global) -> TableWriter
        ensures { result ≡ [] }
    {
        TableWriter {
            closed_blocks: ClosedBlocks::new(alloc),
            open_block: OpenBlock::new(alloc),
            last_key: Vec::new(alloc),
            last_number: None,
            next_key: Vec::new(alloc),
        }
    }

    /// How many entries were written.
    pub fn entry_count(&self) -> u64
        ensures { result ≡ length self.now }
    {
        self.closed_blocks.entry_count() + self.open_block.entry_count()
    }

    fn is_followed_by(&self, version: &TableEntry<'_>) -> bool
        ensures { IsTrue result ↔ FollowsEntries self.now (seen version.now) }
    {
        match self.last_number {
            Some(number) => {
                let last = TableEntry {
                    key: &self.last_key,
                    number,
                    value: None,
                };
                last.is_before(version)
            }
            None => true,
        }
    }

    fn add(&mut self, version: &TableEntry<'_>) -> Result<()>
        requires { FollowsEntries self.old (seen version.now) }
        ensures ok { OnOk result (self.new ≡ self.old ++ seen version.now ∷ []) }
        ensures err { OnErr result (self.new ≡ self.old) }
        ensures refused { MatchOption (refusal (seen version.now)) (IsOkUnless result Error.OutOfMemory)
            (λ e. (result ≡ Err e) ⊎ (result ≡ Err Error.OutOfMemory)) }
    {
        make_room(&mut self.closed_blocks, &mut self.open_block)?;
        self.next_key.clear();
        self.next_key.extend_from_slice(version.key)?;
        self.open_block.add(version)?;
        swap(&mut self.last_key, &mut self.next_key);
        self.last_number = Some(version.number);
        Ok(())
    }

    /// Adds an entry. Entries come by key ascending, then by number descending. An `Err` adds nothing, and the writer
    /// goes on as if the call had not been made: what `TableEntry::encode_into` refuses is refused alike, and then a
    /// version that doesn't stand behind the last one is `KeyOrder`.
    pub fn write(&mut self, version: &TableEntry<'_>) -> Result<()>
        ensures ok { OnOk result (self.new ≡ self.old ++ seen version.now ∷ []) }
        ensures err { OnErr result (self.new ≡ self.old) }
        ensures fields { IfSome (refusal (seen version.now)) (λ e. result ≡ Err e) }
        ensures order { IfNone (refusal (seen version.now)) ((FollowsEntries self.old (seen version.now) → ⊥) → result ≡ Err Error.KeyOrder) }
        ensures only { IfNone (refusal (seen version.now)) (FollowsEntries self.old (seen version.now) → IsOkUnless result Error.OutOfMemory) }
    {
        version.check()?;
        if !self.is_followed_by(version) {
            return Err(Error::KeyOrder);
        }
        self.add(version)
    }

    /// The bytes of the table, or none where no entry was written: a table has at least one. The formats page has the
    /// layout.
    pub fn finish(self) -> Result<Option<Vec<u8>>>
        ensures table { IfOk result (λ table. MatchOption table (self ≡ []) (λ bytes. IsTable bytes.items self)) }
        ensures only { IsOkUnless result Error.OutOfMemory }
    {
        let TableWriter {
            mut closed_blocks,
            open_block,
            last_number,
            ..
        } = self;
        if last_number.is_none() {
            return Ok(None);
        }
        close_last(&mut closed_blocks, &open_block)?;
        let bytes = closed_blocks.finish()?;
        Ok(Some(bytes))
    }
}
