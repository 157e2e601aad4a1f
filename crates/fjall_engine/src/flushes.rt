//! Flushes: memtables that are brought to tables, and journals that nobody wants any more.

ghost use Rattle.std.specs.Prelude.{◌≡◌, ◌⊎◌, ◌<◌, ◌≤◌, ◌-◌, ◌^◌, false, None, Ok, Some, IfErr, IfNone, IfOk, IfSome, IsTrue, OnErr, true};
ghost use Rattle.fjall_jobs.specs.Flushes.{flush_task};
ghost use Rattle.fjall_jobs.specs.Made.{flushed_task};
ghost use Rattle.fjall_jobs.specs.Tasks.{Task};
ghost use Rattle.fjall_machine.specs.Finishing.{keyspace_of};
ghost use Rattle.fjall_machine.specs.Machine.{begins_flush, is_flushing, is_living};
ghost use Rattle.fjall_machine.specs.Remembered.{KnowsTask};
ghost use Rattle.fjall_machine.specs.Shapes.{OfCount, OfFlushBegin, OfFlushFinish, OfMaintenance, ToFlush};
ghost use Rattle.fjall_state.specs.Flushes.{IsOfFlush};
ghost use Rattle.fjall_engine.specs.CallParts.{Begins, Evicts, Finishes, Puts, SyncsAll};
ghost use Rattle.fjall_engine.specs.Standing.{IsDueToFinishIn, KnowsIfDue, Owes, Serves, finish_reply, flag_reply, held_due, ids_reply, is_journal_long, job_of, job_reply, no_job_reply, reply_of, store_in};

use crate::engine::Engine;
use fjall_base::{Disk, Error, Refused, Result};
use fjall_changes::sync_journal;
use fjall_history::JobId;
use fjall_jobs::{FlushJob, FlushMade};
use fjall_journal::PersistMode;

/// Where the active journal is longer, a flush begins, and an ingestion is made, behind a rotation of it.
pub(crate) const LONG_JOURNAL: u64 = 64_000_000;

impl<D: Disk> Engine<D> {
    // Syncs the journal before a flush or an ingestion; a long one is sealed.
    pub(crate) fn sync_for_flush(&mut self, seals: bool) -> Result<()>
        requires long { seals ≡ is_journal_long self.old.journal }
        requires numbered { seals ≡ true → self.old.memory.journals.active < 2 ^ 64 - 2 }
        ensures synced { SyncsAll (IsTrue D.honest) self.old result self.new }
    {
        if seals {
            return self
                .memory
                .rotate_journal(self.alloc, &mut self.journal, &mut self.disk);
        }
        sync_journal(&mut self.journal, &mut self.disk, PersistMode::SyncAll)
    }

    // Begins a flush of a keyspace that has a sealed memtable and no flush that is out.
    fn begin(&mut self, id: u64) -> Result<FlushJob>
        requires due { held_due self.old (OfFlushBegin id) ≡ None }
        requires begins { begins_flush self.old.memory.trees id ≡ true }
        ensures begun { Begins (IsTrue D.honest) self.old id result self.new }
    {
        let is_long = self.journal.pos() > LONG_JOURNAL;
        if self.memory.are_jobs_used_up(is_long) {
            return Err(Error::NumbersUsedUp);
        }
        let job = self.memory.begin_flush(id)?;
        if let Err(error) = self.sync_for_flush(is_long) {
            drop(job);
            self.memory.take_back_flush(id);
            self.poison_by(&error);
            return Err(error);
        }
        Ok(job)
    }

    /// Begins a flush of all sealed memtables of a keyspace, and gives the job away, to be run anywhere and then finished by
    /// [`flush_finish`](Engine::flush_finish). None where no memtable is sealed, or where a flush of the keyspace is out: then
    /// nothing changes. The journal is synced before, and what was accepted by then outlives a crash; where it is longer than
    /// 64,000,000 bytes it is sealed, and the next one begins. No view changes.
    ///
    /// Refusals, the first that has its cause: `UnknownKeyspace`, `KeyspaceDeleted`, `Poisoned`; and where there is a flush to
    /// begin `NumbersUsedUp`, `OutOfMemory`, and `Io`, after which the core is poisoned. After each of the others nothing has
    /// changed. A job that is lost counts as out until the database is opened again.
    pub fn flush_begin(&mut self, id: u64) -> Result<Option<FlushJob>>
        ensures serves { IsTrue D.honest → Serves self.old (OfFlushBegin id) (job_reply result) self.new }
        ensures owes { Owes self.old (OfFlushBegin id) (job_reply result) self.new }
        // The core knows what the job was begun with.
        ensures knows { IfOk result (λ job. IfSome job (λ job. KnowsTask self.new.memory (flush_task job))) }
    {
        if let Some(error) = self.memory.rotation_refusal(id) {
            return Err(error);
        }
        if !self.memory.begins_flush(id) {
            return Ok(None);
        }
        match self.begin(id) {
            Ok(job) => Ok(Some(job)),
            Err(error) => Err(error),
        }
    }

    /// What [`flush_begin`](Engine::flush_begin) comes to where memory is used up: none begins, or it is refused. Nothing changes.
    /// Who needs memory of its own for a flush that begins asks so, where it finds none.
    pub fn flush_begin_without_memory(&self, id: u64) -> Result<()>
        ensures serves { IsTrue D.honest → Serves self.now (OfFlushBegin id) (no_job_reply result) self.now }
        ensures owes { Owes self.now (OfFlushBegin id) (no_job_reply result) self.now }
    {
        if let Some(error) = self.memory.rotation_refusal(id) {
            return Err(error);
        }
        if !self.memory.begins_flush(id) {
            return Ok(());
        }
        let is_long = self.journal.pos() > LONG_JOURNAL;
        if self.memory.are_jobs_used_up(is_long) {
            return Err(Error::NumbersUsedUp);
        }
        Err(Error::OutOfMemory)
    }

    // Removes sealed journals that nobody wants any more, after a flush or an ingestion, or by itself.
    pub(crate) fn evict(&mut self) -> Result<()>
        ensures evicts { Evicts (IsTrue D.honest) self.old result self.new }
    {
        if let Err(error) = self.memory.evict(&mut self.disk) {
            self.memory.poison();
            return Err(error);
        }
        Ok(())
    }

    // Finishes a flush that is out of a keyspace that lives: on the disk, and then in memory.
    fn put_flush(&mut self, made: &FlushMade) -> Result<()>
        requires living { is_living (store_in self.old) (keyspace_of made.now) ≡ true }
        requires out { is_flushing self.old.memory.trees (job_of (flushed_task made.now)) ≡ true }
        ensures puts { IsOfFlush self.old.memory made.now → Puts (IsTrue D.honest) self.old made.now result self.new }
        ensures later { self.old.disk.faults ≤ self.new.disk.faults }
        ensures poisons { OnErr result ((self.new.disk ≡ self.old.disk) ⊎ (self.new.memory.poisoned ≡ true)) }
        ensures keeps { (task : Task) → KnowsTask self.old.memory task → KnowsTask self.new.memory task }
    {
        if let Err(error) = self.memory.finish_flush(self.alloc, &mut self.disk, made) {
            self.poison_by(&error);
            return Err(error);
        }
        Ok(())
    }

    // Finishes a flush that isn't stale, and removes the journals that nobody wants any more.
    fn finish(&mut self, made: &FlushMade) -> Result<()>
        requires living { is_living (store_in self.old) (keyspace_of made.now) ≡ true }
        requires out { is_flushing self.old.memory.trees (job_of (flushed_task made.now)) ≡ true }
        ensures finishes { IsOfFlush self.old.memory made.now → Finishes (IsTrue D.honest) self.old made.now result self.new }
        ensures later { self.old.disk.faults ≤ self.new.disk.faults }
        ensures poisons { OnErr result ((self.new.disk ≡ self.old.disk) ⊎ (self.new.memory.poisoned ≡ true)) }
        ensures keeps { (task : Task) → KnowsTask self.old.memory task → KnowsTask self.new.memory task }
    {
        self.put_flush(made)?;
        self.evict()
    }

    // What a finish of this flush comes to before what its job made is looked at: false where it is stale, and then it is out no more; and
    // refused in a poisoned core. None where it is to be finished, and then nothing has changed.
    pub(crate) fn settle_early(&mut self, job: JobId) -> Option<Result<bool>>
        ensures serves { IsTrue D.honest → IfSome result (λ early. Serves self.old (OfFlushFinish job) (flag_reply early) self.new) }
        ensures owes { IfSome result (λ early. Owes self.old (OfFlushFinish job) (flag_reply early) self.new) }
        ensures due { IfNone result (IsDueToFinishIn self.old job × (self.old.memory.poisoned ≡ false) × (self.new ≡ self.old)) }
        ensures stale { is_flushing self.old.memory.trees job ≡ false → (result ≡ Some (Ok false)) × (self.new ≡ self.old) }
        ensures disk { self.new.disk ≡ self.old.disk }
    {
        if !self.memory.is_out(job) {
            return Some(Ok(false));
        }
        let id = job.keyspace_id;
        if !self.memory.is_living(id) || !self.memory.is_flush_due(job) {
            self.memory.drop_flush(id);
            return Some(Ok(false));
        }
        if self.memory.is_poisoned() {
            return Some(Err(Error::Poisoned));
        }
        None
    }

    // Whether the flush was finished, where it isn't stale.
    fn settle(&mut self, made: &FlushMade) -> Result<bool>
        ensures serves { IsTrue D.honest → KnowsIfDue self.old (flushed_task made.now)
            → Serves self.old (OfFlushFinish (job_of (flushed_task made.now))) (flag_reply result) self.new }
        ensures owes { KnowsIfDue self.old (flushed_task made.now)
            → Owes self.old (OfFlushFinish (job_of (flushed_task made.now))) (flag_reply result) self.new }
        ensures stale { is_flushing self.old.memory.trees (job_of (flushed_task made.now)) ≡ false → (result ≡ Ok false) × (self.new ≡ self.old) }
        ensures later { self.old.disk.faults ≤ self.new.disk.faults }
        ensures poisons { OnErr result ((self.new.disk ≡ self.old.disk) ⊎ (self.new.memory.poisoned ≡ true)) }
        ensures keeps { (task : Task) → KnowsTask self.old.memory task → KnowsTask self.new.memory task }
    {
        let job = JobId {
            number: made.id(),
            keyspace_id: made.keyspace_id(),
        };
        if let Some(early) = self.settle_early(job) {
            return early;
        }
        self.finish(made)?;
        Ok(true)
    }

    /// Finishes a flush by what its job made: the new table stands behind the keyspace's others, at level 0, and the memtables
    /// that the flush was begun with are gone. First the table is written and synced, then the record that makes it count, and
    /// then sealed journals are removed that no keyspace wants any more. No view changes.
    ///
    /// False where the flush is stale, since it isn't out any more, its keyspace was deleted, or an ingestion took its memtables:
    /// then nothing changes but that it is out no more. Refusals hand back what was made: `Poisoned`; and then, the first that is met,
    /// `TooManyItems` where the keyspace's record has no room, `NumbersUsedUp` where no id of a table is left, `OutOfMemory`; and `Io`,
    /// after which the core is poisoned. After each of the others nothing has changed.
    ///
    /// A flush is told by its job's number and keyspace, so bring to each core only what its own jobs made: what another core's job made under
    /// those of a flush that is out is put in its place, and `serves` and `owes` say nothing of that.
    pub fn flush_finish(&mut self, made: FlushMade) -> std::result::Result<bool, Refused<FlushMade>>
        // Where memory knows the flush, if it would take effect, the call is a step.
        ensures serves { IsTrue D.honest → KnowsIfDue self.old (flushed_task made)
            → Serves self.old (OfFlushFinish (job_of (flushed_task made))) (finish_reply result) self.new }
        ensures owes { KnowsIfDue self.old (flushed_task made)
            → Owes self.old (OfFlushFinish (job_of (flushed_task made))) (finish_reply result) self.new }
        // Whatever was made, one that isn't out changes nothing; after a refusal that came behind a change of the disk the core is poisoned;
        // and what is known of flushes stays known.
        ensures stale { is_flushing self.old.memory.trees (job_of (flushed_task made)) ≡ false → (result ≡ Ok false) × (self.new ≡ self.old) }
        ensures back { IfErr result (λ refused. refused.value ≡ made) }
        ensures later { self.old.disk.faults ≤ self.new.disk.faults }
        ensures poisons { OnErr result ((self.new.disk ≡ self.old.disk) ⊎ (self.new.memory.poisoned ≡ true)) }
        ensures keeps { (task : Task) → KnowsTask self.old.memory task → KnowsTask self.new.memory task }
    {
        match self.settle(&made) {
            Ok(done) => Ok(done),
            Err(error) => Err(Refused { error, value: made }),
        }
    }

    /// Removes the oldest sealed journals, up to the first that a keyspace that lives hasn't flushed, which has changes in it that
    /// stand in no table yet. The calls that flush and ingest do so too.
    ///
    /// Refusals: `Poisoned`, and `Io`, after which the core is poisoned.
    pub fn maintenance(&mut self) -> Result<()>
        ensures serves { IsTrue D.honest → Serves self.old OfMaintenance (reply_of result) self.new }
        ensures owes { Owes self.old OfMaintenance (reply_of result) self.new }
    {
        if self.memory.is_poisoned() {
            return Err(Error::Poisoned);
        }
        self.evict()
    }

    /// The ids of the keyspaces that live and haven't flushed what they have in the oldest sealed journal, ascending; none where
    /// no journal is sealed. Refuses for want of memory alone.
    pub fn get_keyspaces_to_flush_for_oldest_journal_eviction(&mut self) -> Result<Vec<u64>>
        ensures serves { IsTrue D.honest → Serves self.old (OfCount ToFlush) (ids_reply result) self.new }
        ensures owes { Owes self.old (OfCount ToFlush) (ids_reply result) self.new }
        ensures same { self.new ≡ self.old }
    {
        self.memory.keyspaces_to_flush(self.alloc)
    }
}
