//! Jobs of the trees: flushes and merges of one keyspace each, begun, and finished by the readers of what they made.

ghost use Rattle.std.specs.Prelude.{◌≡◌, ◌≢◌, ◌+◌, ◌-◌, ◌<◌, ◌≤◌, ◌^◌, ◌⊎◌, ◌↔◌, [], ℕ, List, length, ⊤, IsTrue, IfOk, IfErr, IfSome, IsOkUnless, OnOk, OnErr, IsOk, nat_lt, vec_len, vec_capacity, Ok, Some, None, true, false};
ghost use Rattle.std.specs.Option.{option_map};
ghost use Rattle.fjall_table.specs.Blocks.{Entry};
ghost use Rattle.fjall_table_reader.specs.Files.{IsRefused};
ghost use Rattle.fjall_table_reader.specs.Readers.{LooksOn, SomeTableIsWrong};
ghost use Rattle.fjall_jobs.specs.Flushes.{flush_task};
ghost use Rattle.fjall_jobs.specs.Made.{flushed_task, merged_task};
ghost use Rattle.fjall_jobs.specs.Merges.{merge_target, merge_task};
ghost use Rattle.fjall_tree.specs.Jobs.{IsFlushing, IsMerging, MergesNothing, count_out, flush_begun, flush_dropped, flush_end, flush_finished};
ghost use Rattle.fjall_tree.specs.Jobs.{flush_of, input_of, is_flush_out, is_merge_out, merge_begun, merge_dropped, merge_finished, merge_of};
ghost use Rattle.fjall_trees.specs.Forests.{altered_at};
ghost use Rattle.fjall_trees.specs.Kept.{kept_bytes};
ghost use Rattle.fjall_trees.specs.Tables.{AreReadOn, AreSameTrees, HasRoomAt, shape_in};

use crate::trees::{Trees, place_of};
use fjall_base::{Disk, Error, Result};
use fjall_jobs::{FlushJob, FlushMade, MergeJob, MergeMade};
use fjall_table_reader::TableReader;

impl Trees {
    ghost use Rattle.fjall_trees.specs.Views.{forest_of};

    /// Whether a keyspace has a sealed memtable that no flush that is out was begun with.
    pub fn wants_flush(&self, id: u64) -> bool
        ensures { IsTrue result ↔ ((shape_in id (forest_of self.now)).memory.sealed ≢ []) × ((shape_in id (forest_of self.now)).flush ≡ None) }
    {
        match self.tree(id) {
            Some(tree) => tree.wants_flush(),
            None => false,
        }
    }

    /// Whether the flush of this number is out of a keyspace.
    pub fn is_flushing(&self, id: u64, job: u64) -> bool
        ensures { result ≡ is_flush_out job (shape_in id (forest_of self.now)).flush }
    {
        match self.tree(id) {
            Some(tree) => tree.is_flushing(job),
            None => false,
        }
    }

    /// Whether a keyspace has a sealed memtable that no flush that is out takes.
    pub fn waits_for_flush(&self, id: u64) -> bool
        ensures { result ≡ nat_lt (count_out (shape_in id (forest_of self.now)).flush) (length (shape_in id (forest_of self.now)).memory.sealed) }
    {
        match self.tree(id) {
            Some(tree) => tree.waits_for_flush(),
            None => false,
        }
    }

    /// Whether a merge of a keyspace is out.
    pub fn is_merging(&self, id: u64) -> bool
        ensures { IsTrue result ↔ ((shape_in id (forest_of self.now)).merge ≢ None) }
    {
        match self.tree(id) {
            Some(tree) => tree.is_merging(),
            None => false,
        }
    }

    /// Whether the merge of this number is out of a keyspace.
    pub fn is_merge_out(&self, id: u64, job: u64) -> bool
        ensures { result ≡ is_merge_out job (shape_in id (forest_of self.now)).merge }
    {
        match self.tree(id) {
            Some(tree) => tree.is_merge_out(job),
            None => false,
        }
    }

    /// How many of its oldest tables, and of its record's first clears, the merge of a keyspace that is out was begun with; none
    /// where none is out. All of these are there still.
    pub fn merge_input(&self, id: u64) -> Option<(usize, usize)>
        ensures input { result ≡ option_map input_of (shape_in id (forest_of self.now)).merge }
        ensures within { IfSome result (λ input. (input.0 ≤ length (shape_in id (forest_of self.now)).tables) × (input.1 ≤ length (shape_in id (forest_of self.now)).clears)) }
    {
        match self.tree(id) {
            Some(tree) => tree.merge_input(),
            None => None,
        }
    }

    /// Forgets the merge of a keyspace that is out, where one is: what it was begun with stays, and its finish is stale. It takes no
    /// memory.
    pub fn drop_merge(&mut self, id: u64)
        ensures { forest_of self.new ≡ altered_at id merge_dropped (forest_of self.old) }
    {
        if let Some(place) = place_of(self.trees.as_slice(), id) {
            self.trees[place].tree.drop_merge();
        }
    }

    /// Begins a flush of all sealed memtables of a keyspace under a number that no other job has. None where there is none,
    /// where a flush of it is out, or where the keyspace has no tree. The watermark is below 2^63. It is refused for want of
    /// memory alone, and an `Err` leaves all as it was.
    pub fn begin_flush(&mut self, id: u64, job: u64, watermark: u64) -> Result<Option<FlushJob>>
        requires { watermark < 2 ^ 63 }
        ensures none { IfOk result (λ made. (made ≡ None) ↔ (((shape_in id (forest_of self.old)).memory.sealed ≡ []) ⊎ ((shape_in id (forest_of self.old)).flush ≢ None))) }
        ensures job { IfOk result (λ made. IfSome made (λ made. flush_task made ≡ flush_of job id watermark (shape_in id (forest_of self.old)).memory.sealed)) }
        ensures begun { IfOk result (λ made. IfSome made (λ _. forest_of self.new ≡ altered_at id (flush_begun job watermark) (forest_of self.old))) }
        ensures out { IfOk result (λ made. IfSome made (λ made. IsFlushing (shape_in id (forest_of self.new)) (flush_task made))) }
        ensures same { IfOk result (λ made. made ≡ None → forest_of self.new ≡ forest_of self.old) }
        ensures err { OnErr result (forest_of self.new ≡ forest_of self.old) }
        ensures only { IsOkUnless result Error.OutOfMemory }
    {
        match place_of(self.trees.as_slice(), id) {
            Some(place) => self.trees[place].tree.begin_flush(job, id, watermark),
            None => Ok(None),
        }
    }

    /// Where the memtables of a keyspace begin that a flush that is out leaves: all that it takes is numbered below. Where none is
    /// out it is where the keyspace's memory begins, and 0 where it has no tree.
    pub fn flush_end(&self, id: u64) -> u64
        ensures { result ≡ flush_end (shape_in id (forest_of self.now)) }
    {
        match self.tree(id) {
            Some(tree) => tree.flush_end(),
            None => 0,
        }
    }

    /// Forgets the flush of a keyspace that is out, where one is: what it was begun with stays in memory, and its finish is
    /// stale. It takes no memory.
    pub fn drop_flush(&mut self, id: u64)
        ensures { forest_of self.new ≡ altered_at id flush_dropped (forest_of self.old) }
    {
        if let Some(place) = place_of(self.trees.as_slice(), id) {
            self.trees[place].tree.drop_flush();
        }
    }

    /// Makes room for so many tables and clears more in a keyspace's tree, so that a flush that adds no more of them is
    /// finished without memory. It is refused for want of memory alone, and changes nothing that the trees hold.
    pub fn reserve(&mut self, id: u64, tables: usize, clears: usize) -> Result<()>
        ensures room { OnOk result (HasRoomAt id self.new tables clears) }
        ensures trees { forest_of self.new ≡ forest_of self.old }
        ensures only { IsOkUnless result Error.OutOfMemory }
    {
        match place_of(self.trees.as_slice(), id) {
            Some(place) => self.trees[place].tree.reserve(tables, clears),
            None => Ok(()),
        }
    }

    /// Finishes the flush of the job's keyspace that is out, by the readers of the tables that it made: they stand behind all
    /// its other tables, its clears in the record, and the memtables that it was begun with are gone. False, and nothing
    /// changes, where no flush of this job's number is out there. It is refused for want of memory alone, which `reserve`
    /// rules out, and an `Err` leaves all as it was.
    pub fn finish_flush(&mut self, made: &FlushMade, tables: Vec<TableReader>) -> Result<bool>
        ensures ok { IfOk result (λ done. done ≡ is_flush_out (flushed_task made.now).id (shape_in (flushed_task made.now).keyspace (forest_of self.old)).flush) }
        ensures finished { result ≡ Ok true → IfSome (shape_in (flushed_task made.now).keyspace (forest_of self.old)).flush
            (λ out. forest_of self.new ≡ altered_at (flushed_task made.now).keyspace (flush_finished tables.items out) (forest_of self.old)) }
        ensures stale { result ≡ Ok false → forest_of self.new ≡ forest_of self.old }
        ensures err { OnErr result (forest_of self.new ≡ forest_of self.old) }
        ensures only { IsOkUnless result Error.OutOfMemory }
        ensures ready { HasRoomAt (flushed_task made.now).keyspace self.old (length tables.items) (length (flushed_task made.now).clears)
            → IsFlushing (shape_in (flushed_task made.now).keyspace (forest_of self.old)) (flushed_task made.now) → IsOk result }
    {
        match place_of(self.trees.as_slice(), made.keyspace_id()) {
            Some(place) => self.trees[place].tree.finish_flush(made, tables),
            None => Ok(false),
        }
    }

    /// Begins a merge of all tables of a keyspace and of its record's clears under a number that no other job has, whose
    /// tables are closed at the target size. None where fewer of them stand at level 0 than `least`, or none at all, where a
    /// merge of it is out, or where the keyspace has no tree. The watermark is below 2^63. All blocks of the tables are read;
    /// a damaged one is `Storage(TableDamaged)`, and an `Err` begins nothing. The trees keep these up to their bound, the job
    /// while it is out.
    pub fn begin_merge<D: Disk>(
        &mut self,
        disk: &mut D,
        id: u64,
        job: u64,
        watermark: u64,
        least: usize,
        target: u64,
    ) -> Result<Option<MergeJob>>
        requires { watermark < 2 ^ 63 }
        ensures none { IfOk result (λ made. (made ≡ None) ↔ MergesNothing least (shape_in id (forest_of self.old))) }
        ensures job { IsTrue D.honest → (entries : ℕ → List (List Entry)) → AreReadOn (D.meaning disk.old) (forest_of self.old) entries
            → IfOk result (λ made. IfSome made (λ made. merge_task made ≡ merge_of job id watermark (entries id) (shape_in id (forest_of self.old)).clears)) }
        // What the job is told over any disk, but for what the tables hold.
        ensures named { IfOk result (λ made. IfSome made (λ made. merge_task made ≡ merge_of job id watermark (merge_task made).runs (shape_in id (forest_of self.old)).clears)) }
        ensures target { IfOk result (λ made. IfSome made (λ made. merge_target made ≡ target)) }
        ensures begun { IfOk result (λ made. IfSome made (λ _. AreSameTrees (altered_at id (merge_begun job watermark) (forest_of self.old)) (forest_of self.new))) }
        ensures out { IsTrue D.honest → (entries : ℕ → List (List Entry)) → AreReadOn (D.meaning disk.old) (forest_of self.old) entries
            → IfOk result (λ made. IfSome made (λ made. IsMerging (shape_in id (forest_of self.new)) (entries id) (merge_task made))) }
        ensures same { IfOk result (λ made. made ≡ None → AreSameTrees (forest_of self.old) (forest_of self.new)) }
        ensures err { OnErr result (AreSameTrees (forest_of self.old) (forest_of self.new)) }
        ensures reads { IsTrue D.honest → (entries : ℕ → List (List Entry)) → AreReadOn (D.meaning disk.old) (forest_of self.old) entries
            → AreReadOn (D.meaning disk.new) (forest_of self.new) entries }
        ensures refused { IsTrue D.honest → (entries : ℕ → List (List Entry)) → AreReadOn (D.meaning disk.old) (forest_of self.old) entries
            → IfErr result (IsRefused (SomeTableIsWrong (D.meaning disk.old) (shape_in id (forest_of self.old)).tables) (D.meaning disk.old).faults (D.meaning disk.new).faults) }
        ensures disk { LooksOn D.honest (D.meaning disk.old) (D.meaning disk.new) }
        ensures listed { IfErr result (IsRefused ⊤ (D.meaning disk.old).faults (D.meaning disk.new).faults) }
        ensures kept { kept_bytes (forest_of self.new) ≤ self.old.kept_bound }
        ensures bound { self.new.kept_bound ≡ self.old.kept_bound }
    {
        match place_of(self.trees.as_slice(), id) {
            Some(place) => {
                let begun = self.trees[place]
                    .tree
                    .begin_merge(disk, job, id, watermark, least, target);
                self.keep_to_bound();
                begun
            }
            None => {
                self.keep_to_bound();
                Ok(None)
            }
        }
    }

    /// Finishes the merge of the job's keyspace that is out, by the readers of the tables that it made: they stand in the
    /// place of exactly the tables that it was begun with, and of the clears that it was begun with those go that its
    /// watermark reaches. What came since stays. False, and nothing changes, where no merge of this job's number is out
    /// there. It is refused for want of memory alone, which room in `tables` for those that stay rules out, and an `Err`
    /// leaves all as it was.
    pub fn finish_merge(&mut self, made: &MergeMade, tables: Vec<TableReader>) -> Result<bool>
        ensures ok { IfOk result (λ done. done ≡ is_merge_out (merged_task made.now).id (shape_in (merged_task made.now).keyspace (forest_of self.old)).merge) }
        ensures finished { result ≡ Ok true → IfSome (shape_in (merged_task made.now).keyspace (forest_of self.old)).merge
            (λ out. forest_of self.new ≡ altered_at (merged_task made.now).keyspace (merge_finished tables.items out) (forest_of self.old)) }
        ensures stale { result ≡ Ok false → forest_of self.new ≡ forest_of self.old }
        ensures err { OnErr result (forest_of self.new ≡ forest_of self.old) }
        ensures only { IsOkUnless result Error.OutOfMemory }
        ensures ready { IfSome (shape_in (merged_task made.now).keyspace (forest_of self.old)).merge
            (λ out. vec_len tables + (length (shape_in (merged_task made.now).keyspace (forest_of self.old)).tables - out.tables) ≤ vec_capacity tables) → IsOk result }
    {
        match place_of(self.trees.as_slice(), made.keyspace_id()) {
            Some(place) => self.trees[place].tree.finish_merge(made, tables),
            None => Ok(false),
        }
    }
}
