//! Merges in memory: how they begin, and how they end, on the disk and in memory.

ghost use Rattle.std.specs.Prelude.{◌≡◌, ◌⊎◌, ◌<◌, ◌≤◌, ◌+◌, ◌-◌, ◌^◌, ℕ, List, Some, false, true, ⊤, length, IfErr, IfOk, IfSome, IsTrue, OnErr, OnOk, vec_capacity, vec_len};
ghost use Rattle.std.specs.FinMap.{contains_key, insert};
ghost use Rattle.fjall_base.specs.Disk.{LeavesOnly, state_in};
ghost use Rattle.fjall_table_reader.specs.Readers.{LooksOn, SomeTableIsWrong};
ghost use Rattle.fjall_files.specs.Calls.{AllServed};
ghost use Rattle.fjall_files.specs.Names.{keyspace_folder};
ghost use Rattle.fjall_files.specs.Regions.{Within};
ghost use Rattle.fjall_files.specs.Tidy.{StaysTidy};
ghost use Rattle.fjall_compaction.specs.FlushPlans.{HaveFiles};
ghost use Rattle.fjall_jobs.specs.Made.{merge_tables, merged_task};
ghost use Rattle.fjall_jobs.specs.Merges.{merge_target, merge_task};
ghost use Rattle.fjall_journal.specs.Writer.{IsIo};
ghost use Rattle.fjall_replay.specs.Known.{last_known};
ghost use Rattle.fjall_tree.specs.Jobs.{IsMerging, is_merge_out, merge_finished};
ghost use Rattle.fjall_tree.specs.Trees.{Merging};
ghost use Rattle.fjall_trees.specs.Maps.{store_of};
ghost use Rattle.fjall_compaction.specs.Merges.{merge_of};
ghost use Rattle.fjall_compaction.specs.MergePlans.{HasNoTableFolder, IsMergePlan, IsMergePlanRefusal, MergeKeepsTables};
ghost use Rattle.fjall_recovery.specs.Halves.{HasTree};
ghost use Rattle.fjall_recovery.specs.Places.{LiesInTree};
ghost use Rattle.fjall_table.specs.Blocks.{Entry};
ghost use Rattle.fjall_table_reader.specs.Files.{IsRefused};
ghost use Rattle.fjall_manifest.specs.Records.{view};
ghost use Rattle.fjall_trees.specs.Forests.{altered_at};
ghost use Rattle.fjall_trees.specs.Tables.{AreReadOn, AreSameTrees, shape_in};
ghost use Rattle.fjall_trees.specs.Views.{forest_of};
ghost use Rattle.fjall_machine.specs.Machine.{begins_merge, is_living, is_merging, least_of, merge_count, options_in, target_size};
ghost use Rattle.fjall_machine.specs.Merging.{AreMergeReaders, AreTaken, ForMerge, ForMerging, IsMergeFinished, IsMergeRefusal, counted_as, keyspace_of};
ghost use Rattle.fjall_machine.specs.Remembered.{IsLawful, merge_gone_in_memory, merge_out_in_memory, with_merge_done, with_trees};

use crate::engine_state::EngineState;
use fjall_base::{Disk, Error, Result};
use fjall_compaction::{MergePlan, merged_readers, plan_merge, write_merge};
use fjall_history::JobId;
use fjall_jobs::{MergeJob, MergeMade};
use fjall_machine::MergeKind;
use fjall_manifest::Record;
use fjall_replay::LastRecords;
use fjall_table_reader::TableReader;
use fjall_trees::Trees;
use std::alloc::Global;

impl EngineState {
    // How many tables at level 0 a merge of a keyspace wants.
    fn least_of(&self, kind: MergeKind, id: u64) -> usize
        ensures { result ≡ least_of kind (options_in (store_of self.now.keyspaces self.now.trees) id) }
    {
        match (kind, self.keyspaces.options_of(id)) {
            (MergeKind::Due, Some(options)) => options.effective().l0_threshold as usize,
            _ => 0,
        }
    }

    // The size at which a merge of a keyspace closes its tables.
    fn target_size(&self, id: u64) -> u64
        ensures { result ≡ target_size (options_in (store_of self.now.keyspaces self.now.trees) id) }
    {
        match self.keyspaces.options_of(id) {
            Some(options) => options.effective().target_size,
            None => 0,
        }
    }

    /// Whether a merge of a keyspace begins: it has a table, as many at level 0 as the merge wants, and no merge of it is out.
    pub fn begins_merge(&self, kind: MergeKind, id: u64) -> bool
        ensures { result ≡ begins_merge (store_of self.now.keyspaces self.now.trees) self.now.trees kind id }
    {
        self.trees.table_count(id) > 0
            && self.trees.l0_table_count(id) >= self.least_of(kind, id)
            && !self.trees.is_merging(id)
    }

    /// Whether no number of a job is left.
    pub fn are_job_numbers_used_up(&self) -> bool
        ensures left { result ≡ false → self.now.next_job < 2 ^ 64 - 1 }
        ensures used { result ≡ true → self.now.next_job ≡ 2 ^ 64 - 1 }
    {
        self.next_job == u64::MAX
    }

    /// Begins a merge of all tables of a keyspace, and of all clears of its record, under the next number of a job and with the watermark
    /// of now; the tables that it makes are closed at the target size of the keyspace's settings. All blocks of its tables are read, and
    /// kept. After a refusal nothing has changed but which blocks are kept.
    ///
    /// Refusals: `Io` where the disk fails, `Storage(TableDamaged)` where a block is wrong, `OutOfMemory`.
    pub fn begin_merge<D: Disk>(
        &mut self,
        disk: &mut D,
        kind: MergeKind,
        id: u64,
    ) -> Result<MergeJob>
        requires begins { begins_merge (store_of self.old.keyspaces self.old.trees) self.old.trees kind id ≡ true }
        requires numbered { self.old.next_job < 2 ^ 64 - 1 }
        ensures begun { OnOk result (self.new ≡ with_trees self.new.trees (merge_out_in_memory id self.old)) }
        ensures trees { OnOk result (AreSameTrees (merge_out_in_memory id self.old).trees self.new.trees) }
        ensures named { IfOk result (λ job. ((merge_task job).id ≡ self.old.next_job) × ((merge_task job).keyspace ≡ id)) }
        ensures target { IfOk result (λ job. merge_target job ≡ target_size (options_in (store_of self.old.keyspaces self.old.trees) id)) }
        ensures out { IsTrue D.honest → (entries : ℕ → List (List Entry)) → AreReadOn (D.meaning disk.old) self.old.trees entries
            → IfOk result (λ job. IsMerging (shape_in id self.new.trees) (entries id) (merge_task job)) }
        ensures unchanged { OnErr result (self.new ≡ with_trees self.new.trees self.old) }
        ensures same { OnErr result (AreSameTrees self.old.trees self.new.trees) }
        ensures lawful { IsLawful self.old }
        ensures reads { IsTrue D.honest → (entries : ℕ → List (List Entry)) → AreReadOn (D.meaning disk.old) self.old.trees entries
            → AreReadOn (D.meaning disk.new) self.new.trees entries }
        ensures refused { IsTrue D.honest → (entries : ℕ → List (List Entry)) → AreReadOn (D.meaning disk.old) self.old.trees entries
            → IfErr result (IsRefused (SomeTableIsWrong (D.meaning disk.old) (shape_in id self.old.trees).tables) (D.meaning disk.old).faults (D.meaning disk.new).faults) }
        ensures cause { IfErr result (IsRefused ⊤ (D.meaning disk.old).faults (D.meaning disk.new).faults) }
        ensures disk { LooksOn D.honest (D.meaning disk.old) (D.meaning disk.new) }
    {
        let least = self.least_of(kind, id);
        let target = self.target_size(id);
        let watermark = self.tickets.watermark();
        match self
            .trees
            .begin_merge(disk, id, self.next_job, watermark, least, target)?
        {
            Some(job) => {
                self.next_job += 1;
                Ok(job)
            }
            None => unreachable!(),
        }
    }

    /// Whether the merge of the job of this name is out.
    pub fn is_merge_out(&self, job: JobId) -> bool
        ensures out { result ≡ is_merging self.now.trees job }
        ensures lawful { IsLawful self.now }
    {
        self.trees.is_merge_out(job.keyspace_id, job.number)
    }

    /// Forgets the merge of a keyspace that is out, where one is: what it was begun with stays. It takes no memory.
    pub fn drop_merge(&mut self, id: u64)
        ensures { self.new ≡ merge_gone_in_memory id self.old }
    {
        self.trees.drop_merge(id);
    }

    /// Counts a merge that took effect. It takes no memory.
    pub fn count_merge(&mut self)
        ensures { self.new ≡ with_merge_done self.old }
    {
        self.merges_done = self.merges_done.saturating_add(1);
    }

    /// How many merges were finished and took effect, at most the greatest `u64`.
    pub fn compactions_completed(&self) -> u64
        ensures { result ≡ self.now.merges_done }
    {
        self.merges_done
    }

    /// How many merges are out.
    pub fn active_compactions(&self) -> usize
        ensures { result ≡ merge_count self.now.trees }
    {
        self.trees.merge_count()
    }
}

/// All that is written of a merge, and the readers of the tables that it made, in a list with room for those that stay.
#[derive(Drop)]
struct PlannedMerge {
    writes: MergePlan,
    readers: Vec<TableReader>,
}

/// Plans a merge that takes so many tables and clears of its keyspace, of which this is the last record, and behind which so many tables
/// stay.
fn plan(
    alloc: Global,
    last: &Record,
    input: (usize, usize),
    staying: usize,
    made: &MergeMade,
) -> Result<PlannedMerge>
    ensures writes { IfOk result (λ p. IsMergePlan (keyspace_of made.now) (view last.now) (merge_of input made.now) p.writes) }
    ensures readers { IfOk result (λ p. AreMergeReaders (keyspace_of made.now) last.now.next_table_id (merge_tables made.now) p.readers.items) }
    ensures room { IfOk result (λ p. vec_len p.readers + staying ≤ vec_capacity p.readers) }
    ensures cause { IfErr result (IsMergePlanRefusal (view last.now) (merge_of input made.now)) }
{
    let writes = plan_merge(alloc, made.keyspace_id(), last, input, made)?;
    let Ok(readers) = merged_readers(
        alloc,
        &writes.files,
        last.next_table_id,
        made.tables(),
        staying,
    ) else {
        return Err(Error::OutOfMemory);
    };
    Ok(PlannedMerge { writes, readers })
}

/// Finishes a merge in memory, where there is room in the list of its readers for the tables that stay, and its keyspace's last record is
/// kept; answers the names of the tables that it took. It takes no memory.
fn settle(
    trees: &mut Trees,
    records: &mut LastRecords,
    made: &MergeMade,
    planned: PlannedMerge,
) -> Vec<String>
    requires room { IfSome (shape_in (keyspace_of made.now) (forest_of trees.old)).merge
        (λ out. vec_len planned.readers + (length (shape_in (keyspace_of made.now) (forest_of trees.old)).tables - out.tables) ≤ vec_capacity planned.readers) }
    requires out { is_merge_out (merged_task made.now).id (shape_in (keyspace_of made.now) (forest_of trees.old)).merge ≡ true }
    requires kept { contains_key records.old (keyspace_of made.now) ≡ true }
    ensures trees { (out : Merging) → (shape_in (keyspace_of made.now) (forest_of trees.old)).merge ≡ Some out
        → forest_of trees.new ≡ altered_at (keyspace_of made.now) (merge_finished planned.readers.items out) (forest_of trees.old) }
    ensures records { records.new ≡ insert records.old (keyspace_of made.now) (view planned.writes.record) }
    ensures taken { result ≡ planned.writes.taken }
{
    let PlannedMerge { writes, readers } = planned;
    let MergePlan { record, taken, .. } = writes;
    match trees.finish_merge(made, readers) {
        Ok(true) => records.replace(made.keyspace_id(), record),
        _ => unreachable!(),
    }
    taken
}

impl EngineState {
    /// Finishes the merge of this job, which is out of a keyspace that lives: writes its tables and the keyspace's record, and then puts
    /// the tables in the place of those that the merge was begun with, in memory. Files that nothing names, under the new tables' ids,
    /// are taken away first. All memory is got before the disk is changed. It answers the names of the tables that it took, which nothing
    /// names any more, and whose files stand still.
    ///
    /// Refusals: `TooManyItems` where the record has no room for the tables and the clears, else `NumbersUsedUp` where too few ids are left
    /// for the tables that were made, else `OutOfMemory`: these leave the disk as it was. Where the disk fails, the merge may have reached it or
    /// not. After each of them what is held in memory is as before.
    pub fn finish_merge<D: Disk>(
        &mut self,
        alloc: Global,
        disk: &mut D,
        made: &MergeMade,
    ) -> Result<Vec<String>>
        requires living { is_living (store_of self.old.keyspaces self.old.trees) (keyspace_of made.now) ≡ true }
        requires out { is_merge_out (merged_task made.now).id (shape_in (keyspace_of made.now) self.old.trees).merge ≡ true }
        ensures ok { ForMerge self.old (keyspace_of made.now) (λ k out. OnOk result
            (IsMergeFinished self.old (keyspace_of made.now) (last_known self.old.records k) out (counted_as out made.now) self.new)) }
        ensures taken { ForMerge self.old (keyspace_of made.now) (λ k out. IfOk result
            (λ taken. AreTaken (keyspace_of made.now) (last_known self.old.records k) out taken.items)) }
        ensures lawful { IsLawful self.old }
        ensures unchanged { OnErr result (self.new ≡ self.old) }
        ensures untouched { IfErr result (λ e. (IsIo e → ⊥) → D.meaning disk.new ≡ D.meaning disk.old) }
        ensures later { (D.meaning disk.old).faults ≤ (D.meaning disk.new).faults }
        ensures cause { ForMerge self.old (keyspace_of made.now) (λ k out. IfErr result
            (IsMergeRefusal (last_known self.old.records k) (counted_as out made.now) (D.meaning disk.old).faults (D.meaning disk.new).faults)) }
        // Nothing outside the keyspace's folder changes.
        ensures within { IsTrue D.honest → Within (keyspace_folder (keyspace_of made.now)) (D.meaning disk.old) (D.meaning disk.new) }
        // A crash at any moment, also at the last one of a call that fails, leaves the tree before or the one after, whole.
        ensures any_moment { IsTrue D.honest → ForMerging (D.meaning disk.old) self.old made.now (λ id records t h does next.
            LeavesOnly (D.meaning disk.old) (D.meaning disk.new) (λ image. HasTree image t ⊎ HasTree image next)) }
        ensures lies { IsTrue D.honest → ForMerging (D.meaning disk.old) self.old made.now (λ id records t h does next.
            OnOk result (LiesInTree (state_in (D.meaning disk.new)) records next)) }
        // Where no folder has the name of a table, each call was one that a disk can serve.
        ensures served { IsTrue D.honest → ForMerging (D.meaning disk.old) self.old made.now (λ id records t h does next.
            HasNoTableFolder (D.meaning disk.old) id → AllServed (D.meaning disk.old) (D.meaning disk.new)) }
        ensures kinds { IsTrue D.honest → StaysTidy (D.meaning disk.old) (D.meaning disk.new) }
        // Whatever lies on the disk, each table of the keyspace but the new ones stands in sight as it did.
        ensures beside { IsTrue D.honest → ForMerge self.old (keyspace_of made.now) (λ k out.
            MergeKeepsTables (keyspace_of made.now) (last_known self.old.records k).next_table_id (length (merge_tables made.now)) (D.meaning disk.old) (D.meaning disk.new)) }
        // At Ok the tables' files have their bytes.
        ensures files { IsTrue D.honest → ForMerge self.old (keyspace_of made.now) (λ k out.
            OnOk result (HaveFiles (D.meaning disk.new) (keyspace_of made.now) (last_known self.old.records k).next_table_id (merge_tables made.now))) }
        // Their ids, and those that were given out before them, have their place.
        ensures fits { ForMerge self.old (keyspace_of made.now) (λ k out. OnOk result ((last_known self.old.records k).next_table_id + length (merge_tables made.now) < 2 ^ 64)) }
    {
        let id = made.keyspace_id();
        let Some(last) = self.records.get(id) else {
            unreachable!()
        };
        let Some(input) = self.trees.merge_input(id) else {
            unreachable!()
        };
        let staying = self.trees.table_count(id) - input.0;
        let planned = plan(alloc, last, input, staying, made)?;
        write_merge(disk, &planned.writes, made.tables())?;
        Ok(settle(&mut self.trees, &mut self.records, made, planned))
    }
}
