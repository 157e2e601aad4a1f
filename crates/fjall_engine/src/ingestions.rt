//! Ingestions: items of one keyspace, by key ascending, that are one command and need no journal.

ghost use Rattle.std.specs.Prelude.{◌≡◌, ◌+◌, ◌<◌, ◌≤◌, ◌≢◌, ◌-◌, ◌^◌, [], ℕ, List, Some, true, IsTrue, length, vec_capacity};
ghost use Rattle.std.specs.FinMap.{contains_key};
ghost use Rattle.fjall_replay.specs.Known.{last_known};
ghost use Rattle.fjall_tree.specs.Trees.{clears_of};
ghost use Rattle.fjall_meta.specs.declared.living.LivingKeyspace.{LivingKeyspace};
ghost use Rattle.fjall_meta.specs.Keyspaces.{keyspace_at};
ghost use Rattle.fjall_trees.specs.Tables.{shape_in};
ghost use Rattle.fjall_reading.specs.Ingestions.{KeyOp};
ghost use Rattle.fjall_machine.specs.Ingesting.{IsPlanned};
ghost use Rattle.fjall_machine.specs.Shapes.{OfIngestion};
ghost use Rattle.fjall_engine.specs.CallParts.{PutsIngestion, SettlesIngestion, WritesIngestion};
ghost use Rattle.fjall_engine.specs.Standing.{Owes, Serves, is_journal_long, reply_of};

use crate::engine::Engine;
use crate::flushes::LONG_JOURNAL;
use fjall_base::{Disk, Error, Result, UserKey};
use fjall_compaction::{PlannedIngestion, write_ingestion};
use fjall_journal::Op;

impl<D: Disk> Engine<D> {
    // Writes an ingestion that was planned.
    fn write_ingestion(&mut self, planned: &PlannedIngestion) -> Result<()>
        ensures writes { WritesIngestion (IsTrue D.honest) self.old planned.now result self.new }
    {
        if let Err(error) = write_ingestion(&mut self.disk, planned) {
            self.memory.poison();
            return Err(error);
        }
        Ok(())
    }

    // Removes sealed journals that nobody wants any more behind an ingestion that is on the disk, and takes it into memory; where the
    // disk fails memory doesn't know of the ingestion.
    fn settle_ingestion(&mut self, mut planned: PlannedIngestion) -> Result<()>
        requires kept { contains_key self.old.memory.records planned.id ≡ true }
        requires numbered { self.old.memory.next < 2 ^ 63 }
        requires clears { planned.clears.items ≡ clears_of (shape_in planned.id self.old.memory.trees) }
        requires empty { planned.room.items ≡ [] }
        requires room { length (shape_in planned.id self.old.memory.trees).tables + length planned.readers.items ≤ vec_capacity planned.room }
        ensures settles { SettlesIngestion (IsTrue D.honest) self.old planned result self.new }
    {
        self.memory.swap_record(&mut planned);
        if let Err(error) = self.evict() {
            self.memory.swap_record(&mut planned);
            return Err(error);
        }
        self.memory.put_ingestion(planned);
        Ok(())
    }

    // Ingests what was planned: syncs the journal, of which a long one is sealed, writes all that was planned, and takes it into memory.
    fn put_ingestion(&mut self, seals: bool, planned: PlannedIngestion) -> Result<()>
        requires long { seals ≡ is_journal_long self.old.journal }
        requires journal { seals ≡ true → self.old.memory.journals.active < 2 ^ 64 - 2 }
        requires numbered { self.old.memory.next < 2 ^ 63 }
        requires kept { contains_key self.old.memory.records planned.id ≡ true }
        requires planned { (id : ℕ) × (items : List KeyOp) × (k : LivingKeyspace) × (keyspace_at id self.old.memory.keyspaces.living ≡ Some k)
            × IsPlanned self.old.memory id items (last_known self.old.memory.records k) planned }
        ensures puts { PutsIngestion (IsTrue D.honest) self.old planned result self.new }
    {
        if let Err(error) = self.sync_for_flush(seals) {
            self.poison_by(&error);
            return Err(error);
        }
        self.write_ingestion(&planned)?;
        self.settle_ingestion(planned)
    }

    /// Ingests items into a keyspace, by key ascending: all of them under one number, as one command, which needs no journal. What the
    /// keyspace has in memory goes to a table first, and then the items to one of their own; a flush of the keyspace that is out is
    /// stale then. The journal is synced before, and what was accepted by then outlives a crash, and so does the ingestion once it is
    /// done; a crash before leaves it wholly or not at all. At its end sealed journals are removed that no keyspace wants any more. No
    /// items are done at once, whatever the keyspace.
    ///
    /// Refusals, the first that has its cause, over all items: `KeyEmpty`, `KeyTooLong`, `ValueTooLong`, `KeyOrder` where a key is not
    /// above the one before it, `UnknownKeyspace`, `KeyspaceDeleted`, `Poisoned`, `TooManyItems`, `NumbersUsedUp`; and then, the first that
    /// is met, `NumbersUsedUp` where no number of a journal is left, `TooManyItems` where the keyspace's record has no room, `NumbersUsedUp`
    /// where no id of a table is left, `OutOfMemory`; and `Io`, after which the core is poisoned. After each of them no view has changed.
    pub fn ingest(&mut self, id: u64, items: Vec<(UserKey, Op)>) -> Result<()>
        ensures serves { IsTrue D.honest → Serves self.old (OfIngestion id items.items) (reply_of result) self.new }
        ensures owes { Owes self.old (OfIngestion id items.items) (reply_of result) self.new }
    {
        if items.is_empty() {
            return Ok(());
        }
        if let Some(error) = self.memory.ingestion_refusal(id, &items) {
            return Err(error);
        }
        let is_long = self.journal.pos() > LONG_JOURNAL;
        if self.memory.are_journals_used_up(is_long) {
            return Err(Error::NumbersUsedUp);
        }
        let planned = self.memory.plan_ingestion(self.alloc, id, &items)?;
        self.put_ingestion(is_long, planned)
    }
}
