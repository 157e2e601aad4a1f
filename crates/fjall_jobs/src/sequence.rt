//! Tables, one behind another, of entries that come in order.

ghost use Rattle.std.specs.Prelude.{◌-◌, ◌^◌, min, ◌≡◌, ◌≢◌, ◌⊎◌, ◌↔◌, ◌++◌, ◌∷◌, [], List, IfOk, OnOk, IsTrue, IsOkUnless, Some};
ghost use Rattle.fjall_table.specs.Blocks.{Entry, IsEntry, seen};
ghost use Rattle.fjall_table.specs.Writing.{FollowsEntries};
ghost use Rattle.fjall_memtable.specs.Entries.{size_of};
ghost use Rattle.fjall_memtable.specs.Sorted.{flat};

use crate::made_table::MadeTable;
use fjall_base::{Error, Result};
use fjall_table::{TableEntry, TableWriter};
use std::alloc::Global;
use std::mem::replace;

/// How many bytes an entry counts for: its key, its value and 16 more; the greatest u64 where that is too small.
fn size_of(entry: &TableEntry<'_>) -> u64
    ensures { result ≡ min (size_of (seen entry.now)) (2 ^ 64 - 1) }
{
    let value_len = match entry.value {
        Some(value) => value.len() as u64,
        None => 0,
    };
    (entry.key.len() as u64)
        .saturating_add(value_len)
        .saturating_add(16)
}

/// Tables in the making: those that are closed, and the one that is open. With a target one is closed where the key changes,
/// once the sizes of its entries have reached it; without one all entries go to one table.
#[derive(Drop)]
pub(crate) struct TableSequence {
    alloc: Global,
    target: Option<u64>,
    pub(crate) closed: Vec<MadeTable>,
    pub(crate) writer: TableWriter,
    pub(crate) size: u64,
    pub(crate) last_key: Vec<u8>,
}

impl TableSequence {
    ghost use Rattle.fjall_jobs.specs.Sequences.{AreMadeTables, HasRoomForEntry, IsClosingDue, IsSequence, MakesTables};

    pub(crate) fn new(alloc: Global, target: Option<u64>) -> TableSequence
        ensures begun { IsSequence result [] }
        ensures empty { result.writer ≡ [] }
        ensures target { result.target ≡ target }
    {
        TableSequence {
            alloc,
            target,
            closed: Vec::new(alloc),
            writer: TableWriter::new(alloc),
            size: 0,
            last_key: Vec::new(alloc),
        }
    }

    /// Whether the open table has reached this target and ends before a key.
    fn has_reached(&self, target: u64, key: &[u8]) -> bool
        ensures { (closed : List (List Entry)) → IsSequence self.now closed → IsTrue result ↔ IsClosingDue (Some target) self.now.writer key.now }
    {
        if self.writer.entry_count() == 0 {
            return false;
        }
        if self.size < target {
            return false;
        }
        self.last_key.as_slice() != key
    }

    /// Whether the open table is to be closed before an entry of this key.
    fn is_due(&self, key: &[u8]) -> bool
        ensures { (closed : List (List Entry)) → IsSequence self.now closed → IsTrue result ↔ IsClosingDue self.now.target self.now.writer key.now }
    {
        match self.target {
            Some(target) => self.has_reached(target, key),
            None => false,
        }
    }

    /// Closes the open table, where it holds something.
    fn close(&mut self) -> Result<()>
        ensures closed { (closed : List (List Entry)) → AreMadeTables self.old.closed.items closed → self.old.writer ≢ []
            → OnOk result (AreMadeTables self.new.closed.items (closed ++ self.old.writer ∷ [])) }
        ensures empty { OnOk result (self.new.writer ≡ []) }
        ensures size { OnOk result (self.new.size ≡ 0) }
        ensures target { self.new.target ≡ self.old.target }
        ensures only { IsOkUnless result Error.OutOfMemory }
    {
        let writer = replace(&mut self.writer, TableWriter::new(self.alloc));
        let entry_count = writer.entry_count();
        self.size = 0;
        if let Some(bytes) = writer.finish()? {
            self.closed.push(MadeTable { bytes, entry_count })?;
        }
        Ok(())
    }

    /// Closes the open table where that is due before an entry of this key.
    fn make_room(&mut self, key: &[u8]) -> Result<()>
        ensures room { (closed : List (List Entry)) → IsSequence self.old closed
            → OnOk result ((more : List (List Entry)) × HasRoomForEntry self.new more key.now × (flat more ++ self.new.writer ≡ flat closed ++ self.old.writer)) }
        ensures writer { OnOk result ((self.new.writer ≡ []) ⊎ (self.new.writer ≡ self.old.writer)) }
        ensures target { self.new.target ≡ self.old.target }
        ensures only { IsOkUnless result Error.OutOfMemory }
    {
        if self.is_due(key) {
            return self.close();
        }
        Ok(())
    }

    /// Adds an entry to the open table.
    fn add(&mut self, entry: &TableEntry<'_>) -> Result<()>
        ensures ok { (closed : List (List Entry)) → HasRoomForEntry self.old closed entry.now.key.now → OnOk result (IsSequence self.new closed) }
        ensures writer { OnOk result (self.new.writer ≡ self.old.writer ++ seen entry.now ∷ []) }
        ensures target { self.new.target ≡ self.old.target }
        ensures only { IsEntry (seen entry.now) → FollowsEntries self.old.writer (seen entry.now) → IsOkUnless result Error.OutOfMemory }
    {
        self.writer.write(entry)?;
        self.size = self.size.saturating_add(size_of(entry));
        self.last_key.clear();
        self.last_key.extend_from_slice(entry.key)?;
        Ok(())
    }

    /// Adds an entry, as `TableWriter::write`: what has no text is refused, and what doesn't stand behind those before it is
    /// `KeyOrder`. After an `Err` the sequence is of no more use.
    pub(crate) fn write(&mut self, entry: &TableEntry<'_>) -> Result<()>
        ensures ok { (closed : List (List Entry)) → IsSequence self.old closed
            → OnOk result ((more : List (List Entry)) × IsSequence self.new more × (flat more ++ self.new.writer ≡ (flat closed ++ self.old.writer) ++ seen entry.now ∷ [])) }
        ensures target { self.new.target ≡ self.old.target }
        ensures only { IsEntry (seen entry.now) → FollowsEntries self.old.writer (seen entry.now) → IsOkUnless result Error.OutOfMemory }
    {
        self.make_room(entry.key)?;
        self.add(entry)
    }

    /// The tables, the open one closed too.
    pub(crate) fn finish(mut self) -> Result<Vec<MadeTable>>
        ensures tables { (closed : List (List Entry)) → IsSequence self closed
            → IfOk result (λ tables. MakesTables self.target tables.items (flat closed ++ self.writer)) }
        ensures only { IsOkUnless result Error.OutOfMemory }
    {
        if self.writer.entry_count() > 0 {
            self.close()?;
        }
        Ok(self.closed)
    }
}
