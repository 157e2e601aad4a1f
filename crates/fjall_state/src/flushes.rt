//! Flushes in memory: how they begin, and how they end, on the disk and in memory.

ghost use Rattle.std.specs.Prelude.{◌≡◌, ◌==◌, ◌||◌, ◌&&◌, ◌⊎◌, ◌<◌, ◌≤◌, ◌+◌, ◌-◌, ◌^◌, ℕ, None, false, true, nat_le, length, IfErr, IfOk, IsOk, IsOkUnless, IsTrue, OnErr, OnOk};
ghost use Rattle.std.specs.FinMap.{contains_key, insert};
ghost use Rattle.fjall_base.specs.Disk.{IsNoFolder, LeavesOnly, state_in};
ghost use Rattle.fjall_files.specs.Calls.{AllServed};
ghost use Rattle.fjall_files.specs.Names.{keyspace_folder, table_name};
ghost use Rattle.fjall_files.specs.Regions.{Within};
ghost use Rattle.fjall_files.specs.Tidy.{StaysTidy};
ghost use Rattle.fjall_compaction.specs.Flushes.{flush_of as finished_with};
ghost use Rattle.fjall_compaction.specs.FlushPlans.{HaveFiles, IsFlushPlan, IsFlushPlanRefusal, KeepsTables};
ghost use Rattle.fjall_jobs.specs.Flushes.{flush_task};
ghost use Rattle.fjall_jobs.specs.Made.{flush_tables, flushed_task};
ghost use Rattle.fjall_jobs.specs.Tasks.{Task};
ghost use Rattle.fjall_journal.specs.Writer.{IsIo};
ghost use Rattle.fjall_replay.specs.Known.{last_known};
ghost use Rattle.fjall_tree.specs.Jobs.{IsFlushing, flush_finished, flush_of, is_flush_out};
ghost use Rattle.fjall_tree.specs.Trees.{Flushing};
ghost use Rattle.fjall_trees.specs.Maps.{store_of};
ghost use Rattle.fjall_recovery.specs.Halves.{HasTree};
ghost use Rattle.fjall_recovery.specs.Places.{LiesInTree};
ghost use Rattle.fjall_manifest.specs.Records.{view};
ghost use Rattle.fjall_trees.specs.Forests.{altered_at};
ghost use Rattle.fjall_trees.specs.Tables.{HasRoomAt, shape_in};
ghost use Rattle.fjall_trees.specs.Views.{forest_of};
ghost use Rattle.fjall_machine.specs.Finishing.{AreReadersOf, ForFinishing, ForFlush, IsFinishRefusal, IsFlushFinished, keyspace_of};
ghost use Rattle.fjall_machine.specs.Machine.{begins_flush, flush_with, is_flushing, is_living};
ghost use Rattle.fjall_machine.specs.Remembered.{IsLawful, KnowsTask, Remembered, flush_gone_in_memory, flush_out_in_memory};
ghost use Rattle.fjall_state.specs.Flushes.{IsOfFlush};

use crate::engine_state::EngineState;
use crate::refusals::JOURNAL_LIMIT;
use fjall_base::{Disk, Error, Result};
use fjall_compaction::{FlushPlan, plan_flush, table_readers, write_flush};
use fjall_history::JobId;
use fjall_jobs::{FlushJob, FlushMade};
use fjall_manifest::Record;
use fjall_replay::LastRecords;
use fjall_table_reader::TableReader;
use fjall_trees::Trees;
use std::alloc::Global;

impl EngineState {
    /// Whether a flush of a keyspace begins: it has a sealed memtable, and no flush of it is out.
    pub fn begins_flush(&self, id: u64) -> bool
        ensures { result ≡ begins_flush self.now.trees id }
    {
        self.trees.wants_flush(id)
    }

    /// Begins a flush of all sealed memtables of a keyspace, under the next number of a job and with the watermark of now. After a
    /// refusal, for want of memory alone, nothing has changed.
    pub fn begin_flush(&mut self, id: u64) -> Result<FlushJob>
        requires begins { begins_flush self.old.trees id ≡ true }
        requires numbered { self.old.next_job < 2 ^ 64 - 1 }
        ensures ok { OnOk result (self.new ≡ flush_out_in_memory id self.old) }
        ensures job { IfOk result (λ job. flush_task job ≡ flush_of self.old.next_job id self.old.tickets.watermark (shape_in id self.old.trees).memory.sealed) }
        ensures out { IfOk result (λ job. IsFlushing (shape_in id self.new.trees) (flush_task job)) }
        ensures lawful { IsLawful self.old }
        ensures unchanged { OnErr result (self.new ≡ self.old) }
        ensures only { IsOkUnless result Error.OutOfMemory }
    {
        let watermark = self.tickets.watermark();
        match self.trees.begin_flush(id, self.next_job, watermark)? {
            Some(job) => {
                self.next_job += 1;
                Ok(job)
            }
            None => unreachable!(),
        }
    }

    /// Takes back the flush of a keyspace that was begun last, where that was the last change: its number is free again. It
    /// takes no memory.
    pub fn take_back_flush(&mut self, id: u64)
        requires { (m : Remembered) × IsLawful m × (begins_flush m.trees id ≡ true) × (self.old ≡ flush_out_in_memory id m) }
        ensures { (m : Remembered) → IsLawful m → begins_flush m.trees id ≡ true → self.old ≡ flush_out_in_memory id m → self.new ≡ m }
    {
        self.trees.drop_flush(id);
        self.next_job -= 1;
    }

    /// Whether no number of a job is left or, where the active journal is to be sealed before a flush, none of a journal.
    pub fn are_jobs_used_up(&self, is_long: bool) -> bool
        ensures left { result ≡ false → self.now.next_job < 2 ^ 64 - 1 }
        ensures value { result ≡ ((self.now.next_job == 2 ^ 64 - 1) || (is_long && nat_le (2 ^ 64 - 2) self.now.journals.active)) }
    {
        self.next_job == u64::MAX || (is_long && self.active_journal() >= JOURNAL_LIMIT)
    }

    /// Whether the flush of the job of this name is out.
    pub fn is_out(&self, job: JobId) -> bool
        ensures out { result ≡ is_flushing self.now.trees job }
        ensures lawful { IsLawful self.now }
    {
        self.trees.is_flushing(job.keyspace_id, job.number)
    }

    /// Forgets the flush of a keyspace that is out, where one is: what it was begun with stays in memory. It takes no memory.
    pub fn drop_flush(&mut self, id: u64)
        ensures { self.new ≡ flush_gone_in_memory id self.old }
    {
        self.trees.drop_flush(id);
    }
}

/// All that is written of a flush, and the readers of the tables that it made.
#[derive(Drop)]
struct PlannedFlush {
    writes: FlushPlan,
    readers: Vec<TableReader>,
}

/// Plans a flush that covers all changes of its keyspace up to this number, of which this is the last record.
fn plan(alloc: Global, last: &Record, number: u64, made: &FlushMade) -> Result<PlannedFlush>
    ensures writes { IfOk result (λ p. IsFlushPlan (keyspace_of made.now) (view last.now) (finished_with number made.now) p.writes) }
    ensures readers { IfOk result (λ p. AreReadersOf (keyspace_of made.now) last.now.next_table_id (flush_tables made.now) p.readers.items) }
    ensures cause { IfErr result (IsFlushPlanRefusal (view last.now) (finished_with number made.now)) }
{
    let writes = plan_flush(alloc, made.keyspace_id(), last, number, made)?;
    let readers = table_readers(alloc, &writes.table, last.next_table_id, made.tables())?;
    Ok(PlannedFlush { writes, readers })
}

/// Finishes a flush in memory, where its keyspace's last record is kept. It takes no memory where the tree has room for what was made of
/// the flush that is out; else it is refused for want of memory alone, and an `Err` leaves all as it was.
fn settle(
    trees: &mut Trees,
    records: &mut LastRecords,
    made: &FlushMade,
    planned: PlannedFlush,
) -> Result<()>
    requires out { is_flush_out (flushed_task made.now).id (shape_in (keyspace_of made.now) (forest_of trees.old)).flush ≡ true }
    requires kept { contains_key records.old (keyspace_of made.now) ≡ true }
    ensures trees { (out : Flushing) → (shape_in (keyspace_of made.now) (forest_of trees.old)).flush ≡ Some out
        → OnOk result (forest_of trees.new ≡ altered_at (keyspace_of made.now) (flush_finished planned.readers.items out) (forest_of trees.old)) }
    ensures records { OnOk result (records.new ≡ insert records.old (keyspace_of made.now) (view planned.writes.record)) }
    ensures same_trees { OnErr result (forest_of trees.new ≡ forest_of trees.old) }
    ensures same_records { OnErr result (records.new ≡ records.old) }
    ensures only { IsOkUnless result Error.OutOfMemory }
    ensures ready { HasRoomAt (keyspace_of made.now) trees.old (length planned.readers.items) (length (flushed_task made.now).clears)
        → IsFlushing (shape_in (keyspace_of made.now) (forest_of trees.old)) (flushed_task made.now) → IsOk result }
{
    let PlannedFlush { writes, readers } = planned;
    match trees.finish_flush(made, readers) {
        Ok(true) => {
            records.replace(made.keyspace_id(), writes.record);
            Ok(())
        }
        Ok(false) => unreachable!(),
        Err(error) => Err(error),
    }
}

impl EngineState {
    /// Finishes the flush of a job of this number, which is out of a keyspace that lives: writes its table and the keyspace's record,
    /// and then puts the table in the place of the memtables that the flush was begun with. It covers all changes below where the
    /// memtables begin that stay. A file that nothing names, under the new table's id, is taken away first. All memory is got before the
    /// disk is changed.
    ///
    /// Refusals: `TooManyItems` where the record has no room for the table and the clears, else `NumbersUsedUp` where a table was
    /// made and no id is left for it, else `OutOfMemory`: these leave the disk as it was. Where the disk fails, the flush may have reached it
    /// or not. After each of them what is held in memory is as before.
    ///
    /// What a job of another engine made under the number isn't told from what this flush's job made: it stands in the memtables' place
    /// then, or, where memory has no room for it once it is written, is refused with `OutOfMemory`, and this engine is poisoned.
    pub fn finish_flush<D: Disk>(
        &mut self,
        alloc: Global,
        disk: &mut D,
        made: &FlushMade,
    ) -> Result<()>
        requires living { is_living (store_of self.old.keyspaces self.old.trees) (keyspace_of made.now) ≡ true }
        requires out { is_flush_out (flushed_task made.now).id (shape_in (keyspace_of made.now) self.old.trees).flush ≡ true }
        ensures ok { IsOfFlush self.old made.now → ForFlush self.old (keyspace_of made.now) (λ k out. OnOk result (IsFlushFinished self.old (keyspace_of made.now) (last_known self.old.records k) out (flush_tables made.now) self.new)) }
        ensures lawful { IsLawful self.old }
        ensures unchanged { IsOfFlush self.old made.now → OnErr result (self.new ≡ self.old) }
        ensures untouched { IsOfFlush self.old made.now → IfErr result (λ e. (IsIo e → ⊥) → D.meaning disk.new ≡ D.meaning disk.old) }
        ensures later { (D.meaning disk.old).faults ≤ (D.meaning disk.new).faults }
        // Whatever was made, a refusal leaves the disk as it was, or it is of the disk, or this is poisoned; and what is known of flushes
        // stays known.
        ensures poisons { IfErr result (λ e. (IsIo e → ⊥) → (D.meaning disk.new ≡ D.meaning disk.old) ⊎ (self.new.poisoned ≡ true)) }
        ensures keeps { (task : Task) → KnowsTask self.old task → KnowsTask self.new task }
        ensures cause { IsOfFlush self.old made.now → ForFlush self.old (keyspace_of made.now) (λ k out. IfErr result
            (IsFinishRefusal (last_known self.old.records k) (flush_with (shape_in (keyspace_of made.now) self.old.trees) out (flush_tables made.now))
            (D.meaning disk.old).faults (D.meaning disk.new).faults)) }
        // Nothing outside the keyspace's folder changes.
        ensures within { IsTrue D.honest → Within (keyspace_folder (keyspace_of made.now)) (D.meaning disk.old) (D.meaning disk.new) }
        // A crash at any moment, also at the last one of a call that fails, leaves the tree before or the one after, whole.
        ensures any_moment { IsTrue D.honest → IsOfFlush self.old made.now → ForFinishing (D.meaning disk.old) self.old made.now (λ id records t h next.
            LeavesOnly (D.meaning disk.old) (D.meaning disk.new) (λ image. HasTree image t ⊎ HasTree image next)) }
        ensures lies { IsTrue D.honest → IsOfFlush self.old made.now → ForFinishing (D.meaning disk.old) self.old made.now (λ id records t h next.
            OnOk result (LiesInTree (state_in (D.meaning disk.new)) records next)) }
        // Where no folder has the table's name, each call was one that a disk can serve.
        ensures served { IsTrue D.honest → IsOfFlush self.old made.now → ForFinishing (D.meaning disk.old) self.old made.now (λ id records t h next.
            IsNoFolder (state_in (D.meaning disk.old) (table_name id h.last.next_table_id)).now → AllServed (D.meaning disk.old) (D.meaning disk.new)) }
        ensures kinds { IsTrue D.honest → StaysTidy (D.meaning disk.old) (D.meaning disk.new) }
        // Whatever lies on the disk, each table of the keyspace but the new one stands in sight as it did.
        ensures beside { IsTrue D.honest → IsOfFlush self.old made.now → ForFlush self.old (keyspace_of made.now) (λ k out.
            KeepsTables (keyspace_of made.now) (last_known self.old.records k).next_table_id (D.meaning disk.old) (D.meaning disk.new)) }
        // At Ok the table's file has its bytes.
        ensures files { IsTrue D.honest → IsOfFlush self.old made.now → ForFlush self.old (keyspace_of made.now) (λ k out.
            OnOk result (HaveFiles (D.meaning disk.new) (keyspace_of made.now) (last_known self.old.records k).next_table_id (flush_tables made.now))) }
        // Its id, and those that were given out before it, have their place.
        ensures fits { IsOfFlush self.old made.now → ForFlush self.old (keyspace_of made.now) (λ k out. OnOk result ((last_known self.old.records k).next_table_id + length (flush_tables made.now) < 2 ^ 64)) }
    {
        let id = made.keyspace_id();
        let Some(last) = self.records.get(id) else {
            unreachable!()
        };
        let number = self.trees.flush_end(id).saturating_sub(1);
        let planned = plan(alloc, last, number, made)?;
        self.trees
            .reserve(id, planned.readers.len(), made.clears().len())?;
        write_flush(disk, &planned.writes, made)?;
        if let Err(error) = settle(&mut self.trees, &mut self.records, made, planned) {
            self.poison();
            return Err(error);
        }
        Ok(())
    }
}
