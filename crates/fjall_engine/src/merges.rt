//! Merges: tables that become others, at level 1, without the versions that nobody reads any more.

ghost use Rattle.std.specs.Prelude.{◌≡◌, false, IfErr, IfNone, IfOk, IfSome, IsTrue, Ok, Some, true};
ghost use Rattle.fjall_jobs.specs.Made.{merged_target, merged_task};
ghost use Rattle.fjall_jobs.specs.Merges.{merge_target, merge_task};
ghost use Rattle.fjall_tree.specs.Jobs.{is_merge_out};
ghost use Rattle.fjall_machine.specs.declared.merge_kind.MergeKind.TheVariants.{Due, Major};
ghost use Rattle.fjall_machine.specs.Machine.{State, is_living, is_merging, merge_count, merge_out};
ghost use Rattle.fjall_machine.specs.Merging.{KnowsMerge, keyspace_of};
ghost use Rattle.fjall_machine.specs.Shapes.{OfMergeBegin, OfMergeFinish};
ghost use Rattle.fjall_trees.specs.Tables.{shape_in};
ghost use Rattle.fjall_engine.specs.CallParts.{Merges, PutsMerge, TakesAway};
ghost use Rattle.fjall_engine.specs.Standing.{IsDueToMergeIn, KnowsMergeIfDue, Owes, ReadsOn, Serves, ServesWhere, StandsFor, flag_reply, job_of, merge_job_reply, merge_reply, no_job_reply, store_in};

use crate::engine::Engine;
use fjall_base::{Disk, Error, Refused, Result};
use fjall_compaction::remove_taken;
use fjall_history::JobId;
use fjall_jobs::{MergeJob, MergeMade};
use fjall_machine::MergeKind;

impl<D: Disk> Engine<D> {
    // Begins a merge of a keyspace, where one begins.
    fn begin_merge(&mut self, kind: MergeKind, id: u64) -> Result<Option<MergeJob>>
        ensures serves { IsTrue D.honest → Serves self.old (OfMergeBegin kind id) (merge_job_reply result) self.new }
        ensures owes { Owes self.old (OfMergeBegin kind id) (merge_job_reply result) self.new }
        ensures knows { IsTrue D.honest → (s : State) → StandsFor self.old s → ReadsOn self.old s
            → IfOk result (λ job. IfSome job (λ job. KnowsMerge (merge_out s id) (merge_target job) (merge_task job))) }
    {
        if let Some(error) = self.memory.rotation_refusal(id) {
            return Err(error);
        }
        if !self.memory.begins_merge(kind, id) {
            return Ok(None);
        }
        if self.memory.are_job_numbers_used_up() {
            return Err(Error::NumbersUsedUp);
        }
        match self.memory.begin_merge(&mut self.disk, kind, id) {
            Ok(job) => Ok(Some(job)),
            Err(error) => Err(error),
        }
    }

    /// Begins a merge of all tables of a keyspace, where as many of them stand at level 0 as its settings say, and gives the job away,
    /// to be run anywhere and then finished by [`merge_finish`](Engine::merge_finish). None where fewer stand there, or where a merge of the
    /// keyspace is out: then nothing changes. All blocks of its tables are read, and the watermark is that of now. No view changes.
    ///
    /// Refusals, the first that has its cause: `UnknownKeyspace`, `KeyspaceDeleted`, `Poisoned`; and where there is a merge to begin
    /// `NumbersUsedUp`, and then, in the order in which they are met, `Io` where the disk fails, which poisons nothing,
    /// `Storage(TableDamaged)` where a block is wrong, `OutOfMemory`. After each of them nothing has changed. A job that is lost counts as
    /// out until the database is opened again.
    pub fn merge_begin(&mut self, id: u64) -> Result<Option<MergeJob>>
        ensures serves { IsTrue D.honest → Serves self.old (OfMergeBegin Due id) (merge_job_reply result) self.new }
        ensures owes { Owes self.old (OfMergeBegin Due id) (merge_job_reply result) self.new }
        // Each state that the core stood for knows the merge, once it is out.
        ensures knows { IsTrue D.honest → (s : State) → StandsFor self.old s → ReadsOn self.old s
            → IfOk result (λ job. IfSome job (λ job. KnowsMerge (merge_out s id) (merge_target job) (merge_task job))) }
    {
        self.begin_merge(MergeKind::Due, id)
    }

    /// The same wherever the keyspace has a table: a merge that is asked for.
    ///
    /// It is refused as [`merge_begin`](Engine::merge_begin).
    pub fn major_begin(&mut self, id: u64) -> Result<Option<MergeJob>>
        ensures serves { IsTrue D.honest → Serves self.old (OfMergeBegin Major id) (merge_job_reply result) self.new }
        ensures owes { Owes self.old (OfMergeBegin Major id) (merge_job_reply result) self.new }
        ensures knows { IsTrue D.honest → (s : State) → StandsFor self.old s → ReadsOn self.old s
            → IfOk result (λ job. IfSome job (λ job. KnowsMerge (merge_out s id) (merge_target job) (merge_task job))) }
    {
        self.begin_merge(MergeKind::Major, id)
    }

    /// What [`merge_begin`](Engine::merge_begin) or [`major_begin`](Engine::major_begin) comes to where memory is used up: none begins, or
    /// it is refused. Nothing changes, and the disk isn't looked at.
    pub fn merge_begin_without_memory(&self, kind: MergeKind, id: u64) -> Result<()>
        ensures serves { IsTrue D.honest → Serves self.now (OfMergeBegin kind id) (no_job_reply result) self.now }
        ensures owes { Owes self.now (OfMergeBegin kind id) (no_job_reply result) self.now }
    {
        if let Some(error) = self.memory.rotation_refusal(id) {
            return Err(error);
        }
        if !self.memory.begins_merge(kind, id) {
            return Ok(());
        }
        if self.memory.are_job_numbers_used_up() {
            return Err(Error::NumbersUsedUp);
        }
        Err(Error::OutOfMemory)
    }

    // Finishes a merge that is out of a keyspace that lives: on the disk, and then in memory. The tables that it took stand still.
    fn put_merge(&mut self, made: &MergeMade) -> Result<Vec<String>>
        requires living { is_living (store_in self.old) (keyspace_of made.now) ≡ true }
        requires out { is_merge_out (merged_task made.now).id (shape_in (keyspace_of made.now) self.old.memory.trees).merge ≡ true }
        ensures puts { PutsMerge (IsTrue D.honest) self.old made.now result self.new }
    {
        match self.memory.finish_merge(self.alloc, &mut self.disk, made) {
            Ok(taken) => Ok(taken),
            Err(error) => {
                self.poison_by(&error);
                Err(error)
            }
        }
    }

    // Removes the tables that a merge took.
    fn take_away(&mut self, taken: &[String]) -> Result<()>
        ensures takes { TakesAway (IsTrue D.honest) self.old taken.now result self.new }
    {
        if let Err(error) = remove_taken(&mut self.disk, taken) {
            self.memory.poison();
            return Err(error);
        }
        Ok(())
    }

    // Finishes a merge that isn't stale, counts it, and removes the tables that it took.
    fn merge(&mut self, made: &MergeMade) -> Result<()>
        requires living { is_living (store_in self.old) (keyspace_of made.now) ≡ true }
        requires out { is_merge_out (merged_task made.now).id (shape_in (keyspace_of made.now) self.old.memory.trees).merge ≡ true }
        ensures merges { Merges (IsTrue D.honest) self.old made.now result self.new }
    {
        let taken = self.put_merge(made)?;
        self.take_away(&taken)?;
        self.memory.count_merge();
        Ok(())
    }

    // What a finish of this merge comes to before what its job made is looked at: false where it is stale, and then it is out no more; and
    // refused in a poisoned core. None where it is to be finished, and then nothing has changed.
    pub(crate) fn settle_merge_early(&mut self, job: JobId) -> Option<Result<bool>>
        ensures serves { IsTrue D.honest → IfSome result (λ early. Serves self.old (OfMergeFinish job) (flag_reply early) self.new) }
        ensures owes { IfSome result (λ early. Owes self.old (OfMergeFinish job) (flag_reply early) self.new) }
        ensures due { IfNone result (IsDueToMergeIn self.old job × (self.old.memory.poisoned ≡ false) × (self.new ≡ self.old)) }
        ensures stale { is_merging self.old.memory.trees job ≡ false → (result ≡ Some (Ok false)) × (self.new ≡ self.old) }
    {
        if !self.memory.is_merge_out(job) {
            return Some(Ok(false));
        }
        let id = job.keyspace_id;
        if !self.memory.is_living(id) {
            self.memory.drop_merge(id);
            return Some(Ok(false));
        }
        if self.memory.is_poisoned() {
            return Some(Err(Error::Poisoned));
        }
        None
    }

    // Whether the merge was finished, where it isn't stale.
    fn settle_merge(&mut self, made: &MergeMade) -> Result<bool>
        ensures serves { IsTrue D.honest → ServesWhere (KnowsMergeIfDue self.old (merged_target made.now) (merged_task made.now))
            self.old (OfMergeFinish (job_of (merged_task made.now))) (flag_reply result) self.new }
        ensures owes { Owes self.old (OfMergeFinish (job_of (merged_task made.now))) (flag_reply result) self.new }
        ensures stale { is_merging self.old.memory.trees (job_of (merged_task made.now)) ≡ false → (result ≡ Ok false) × (self.new ≡ self.old) }
    {
        let job = JobId {
            number: made.id(),
            keyspace_id: made.keyspace_id(),
        };
        if let Some(early) = self.settle_merge_early(job) {
            return early;
        }
        self.merge(made)?;
        Ok(true)
    }

    /// Finishes a merge by what its job made: the new tables stand at level 1, in the place of exactly those that the merge was begun
    /// with, and of the clears that it was begun with those stay that its watermark doesn't reach; what came since stays. First the tables
    /// are written and synced, then the record that makes them count, and then the files of the tables that they take the place of are
    /// removed. No view changes that is open, or that may be opened.
    ///
    /// False where the merge is stale, since it isn't out any more, or its keyspace was deleted: then nothing changes but that it is out no
    /// more. Refusals hand back what was made: `Poisoned`; and then, the first that is met, `TooManyItems` where the keyspace's record has
    /// no room, `NumbersUsedUp` where too few ids of tables are left, `OutOfMemory`; and `Io`, after which the core is poisoned. After each of
    /// the others nothing has changed.
    pub fn merge_finish(&mut self, made: MergeMade) -> std::result::Result<bool, Refused<MergeMade>>
        // Whichever state the core stood for that knows the merge, if it would take effect, the call steps on from it.
        ensures serves { IsTrue D.honest → ServesWhere (KnowsMergeIfDue self.old (merged_target made) (merged_task made))
            self.old (OfMergeFinish (job_of (merged_task made))) (merge_reply result) self.new }
        ensures owes { Owes self.old (OfMergeFinish (job_of (merged_task made))) (merge_reply result) self.new }
        // One that isn't out changes nothing, whatever was made.
        ensures stale { is_merging self.old.memory.trees (job_of (merged_task made)) ≡ false → (result ≡ Ok false) × (self.new ≡ self.old) }
        ensures back { IfErr result (λ refused. refused.value ≡ made) }
    {
        match self.settle_merge(&made) {
            Ok(done) => Ok(done),
            Err(error) => Err(Refused { error, value: made }),
        }
    }

    /// How many merges were begun and are not finished; a lost job's is among them.
    pub fn active_compactions(&self) -> usize
        ensures held { result ≡ merge_count self.now.memory.trees }
        ensures parts { (s : State) → StandsFor self.now s → result ≡ merge_count s.parts.trees }
    {
        self.memory.active_compactions()
    }

    /// How many merges took effect since the database was opened. It stops at the greatest `u64`.
    pub fn compactions_completed(&self) -> u64
        ensures held { result ≡ self.now.memory.merges_done }
        ensures state { (s : State) → StandsFor self.now s → result ≡ s.merges_done }
    {
        self.memory.compactions_completed()
    }
}
