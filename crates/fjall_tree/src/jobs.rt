//! Jobs of a tree: begun, and finished without memory.

ghost use Rattle.std.specs.Prelude.{◌≡◌, ◌≢◌, ◌+◌, ◌-◌, ◌++◌, ◌<◌, ◌≤◌, ◌^◌, ◌⊎◌, ◌↔◌, [], List, length, drop, take, nat_le, nat_lt, ⊤, true};
ghost use Rattle.std.specs.Prelude.{false, IsTrue, IfOk, IfErr, IfSome, IsOkUnless, OnOk, OnErr, IsOk, vec_len, vec_capacity, Ok, Some, None};
ghost use Rattle.fjall_table.specs.Blocks.{Entry};
ghost use Rattle.fjall_table_reader.specs.Files.{IsRefused};
ghost use Rattle.fjall_table_reader.specs.Readers.{LooksOn, SomeTableIsWrong};
ghost use Rattle.fjall_memtable.specs.Jobs.{merged_clears};
ghost use Rattle.fjall_memtable.specs.Parts.{Ascends, clears_in};
ghost use Rattle.fjall_jobs.specs.Flushes.{flush_task};
ghost use Rattle.fjall_jobs.specs.Made.{flushed_task, merged_task};
ghost use Rattle.fjall_jobs.specs.Merges.{merge_target, merge_task};
ghost use Rattle.fjall_tree.specs.Trees.{IsSameShape, ReadsAll, floor_of};
ghost use Rattle.std.specs.Option.{option_map};
ghost use Rattle.fjall_tree.specs.Jobs.{HasRoomForTables, count_out, input_of, IsFlushing, IsMerging, MergesNothing, flush_begun, flush_dropped, flush_end};
ghost use Rattle.fjall_tree.specs.Jobs.{flush_finished, flush_of, is_flush_out, is_merge_out, merge_begun, merge_dropped, merge_finished, merge_of};

use crate::input::all_blocks;
use crate::out::{FlushOut, MergeOut};
use crate::tree::Tree;
use fjall_base::{Disk, Error, Result};
use fjall_jobs::{FlushJob, FlushMade, MergeJob, MergeMade};
use fjall_table_reader::TableReader;

impl Tree {
    ghost use Rattle.fjall_tree.specs.Shapes.{shape_of};

    /// Whether a sealed memtable stands that no flush that is out was begun with.
    pub fn wants_flush(&self) -> bool
        ensures { IsTrue result ↔ ((shape_of self.now).memory.sealed ≢ []) × ((shape_of self.now).flush ≡ None) }
    {
        self.parts.sealed_count() > 0 && self.flush.is_none()
    }

    /// Whether the flush of this number is out.
    pub fn is_flushing(&self, id: u64) -> bool
        ensures { result ≡ is_flush_out id (shape_of self.now).flush }
    {
        match &self.flush {
            Some(out) => id == out.id,
            None => false,
        }
    }

    /// Whether a sealed memtable stands that no flush that is out takes.
    pub fn waits_for_flush(&self) -> bool
        ensures { result ≡ nat_lt (count_out (shape_of self.now).flush) (length (shape_of self.now).memory.sealed) }
    {
        let taken = match &self.flush {
            Some(out) => out.count,
            None => 0,
        };
        taken < self.parts.sealed_count()
    }

    /// Whether a merge is out.
    pub fn is_merging(&self) -> bool
        ensures { IsTrue result ↔ ((shape_of self.now).merge ≢ None) }
    {
        self.merge.is_some()
    }

    /// Whether the merge of this number is out.
    pub fn is_merge_out(&self, id: u64) -> bool
        ensures { result ≡ is_merge_out id (shape_of self.now).merge }
    {
        match &self.merge {
            Some(out) => id == out.id,
            None => false,
        }
    }

    /// How many of the oldest tables, and of the record's first clears, the merge that is out was begun with; none where none is
    /// out. All of these are there still.
    pub fn merge_input(&self) -> Option<(usize, usize)>
        ensures input { result ≡ option_map input_of (shape_of self.now).merge }
        ensures within { IfSome result (λ input. (input.0 ≤ length (shape_of self.now).tables) × (input.1 ≤ length (shape_of self.now).clears)) }
    {
        match &self.merge {
            Some(out) => Some((out.tables, out.clears)),
            None => None,
        }
    }

    /// Forgets the merge that is out, where one is: what it was begun with stays, and its finish is stale. It takes no memory.
    pub fn drop_merge(&mut self)
        ensures { shape_of self.new ≡ merge_dropped (shape_of self.old) }
    {
        self.merge = None;
    }

    /// Begins a flush of all sealed memtables under a number that no other job has. None where there is none, or where a
    /// flush is out. The watermark is below 2^63. It is refused for want of memory alone, and an `Err` leaves all as it
    /// was.
    pub fn begin_flush(
        &mut self,
        id: u64,
        keyspace_id: u64,
        watermark: u64,
    ) -> Result<Option<FlushJob>>
        requires { watermark < 2 ^ 63 }
        ensures none { IfOk result (λ job. (job ≡ None) ↔ (((shape_of self.old).memory.sealed ≡ []) ⊎ ((shape_of self.old).flush ≢ None))) }
        ensures job { IfOk result (λ job. IfSome job (λ job. flush_task job ≡ flush_of id keyspace_id watermark (shape_of self.old).memory.sealed)) }
        ensures begun { IfOk result (λ job. IfSome job (λ _. shape_of self.new ≡ flush_begun id watermark (shape_of self.old))) }
        ensures out { IfOk result (λ job. IfSome job (λ job. IsFlushing (shape_of self.new) (flush_task job))) }
        ensures same { IfOk result (λ job. job ≡ None → shape_of self.new ≡ shape_of self.old) }
        ensures err { OnErr result (shape_of self.new ≡ shape_of self.old) }
        ensures only { IsOkUnless result Error.OutOfMemory }
    {
        let count = self.parts.sealed_count();
        if count == 0 || self.flush.is_some() {
            return Ok(None);
        }
        let job = FlushJob::new(id, keyspace_id, watermark, self.parts.share(count)?);
        self.flush = Some(FlushOut {
            id,
            watermark,
            count,
            clears: job.clears(self.alloc)?,
        });
        Ok(Some(job))
    }

    /// Where the memtables begin that a flush that is out leaves, or where memory begins where none is out: all that the flush
    /// takes is numbered below.
    pub fn flush_end(&self) -> u64
        ensures { result ≡ flush_end (shape_of self.now) }
    {
        let count = match &self.flush {
            Some(out) => out.count,
            None => 0,
        };
        match self.parts.sealed().get(count) {
            Some(part) => part.from(),
            None => self.parts.active().from(),
        }
    }

    /// Forgets the flush that is out, where one is: what it was begun with stays in memory, and its finish is stale. It takes no
    /// memory.
    pub fn drop_flush(&mut self)
        ensures { shape_of self.new ≡ flush_dropped (shape_of self.old) }
    {
        self.flush.take();
    }

    /// Makes room for so many tables and clears more, so that a flush that adds no more of them is finished without memory.
    /// It is refused for want of memory alone, and changes nothing that the tree holds.
    pub fn reserve(&mut self, tables: usize, clears: usize) -> Result<()>
        ensures room { OnOk result (HasRoomForTables self.new tables clears) }
        ensures shape { shape_of self.new ≡ shape_of self.old }
        ensures only { IsOkUnless result Error.OutOfMemory }
    {
        self.tables.reserve(tables)?;
        self.clears.reserve(clears)?;
        Ok(())
    }

    /// Finishes the flush that is out, by the readers of the tables that it made: they stand behind all other tables, its
    /// clears in the record, and the memtables that it was begun with are gone. False, and nothing changes, where no flush
    /// of this job's number is out. It is refused for want of memory alone, which `reserve` rules out, and an `Err` leaves
    /// all as it was.
    pub fn finish_flush(&mut self, made: &FlushMade, tables: Vec<TableReader>) -> Result<bool>
        ensures ok { IfOk result (λ done. done ≡ is_flush_out (flushed_task made.now).id (shape_of self.old).flush) }
        ensures finished { result ≡ Ok true → IfSome (shape_of self.old).flush (λ out. shape_of self.new ≡ flush_finished tables.items out (shape_of self.old)) }
        ensures stale { result ≡ Ok false → shape_of self.new ≡ shape_of self.old }
        ensures err { OnErr result (shape_of self.new ≡ shape_of self.old) }
        ensures only { IsOkUnless result Error.OutOfMemory }
        ensures ready { HasRoomForTables self.old (length tables.items) (length (flushed_task made.now).clears) → IsFlushing (shape_of self.old) (flushed_task made.now) → IsOk result }
    {
        let Some(out) = &self.flush else {
            return Ok(false);
        };
        if made.id() != out.id {
            return Ok(false);
        }
        let count = out.count;
        put_behind(
            &mut self.tables,
            &mut self.clears,
            tables,
            out.clears.as_slice(),
        )?;
        self.parts.remove_sealed(count);
        self.flush.take();
        Ok(true)
    }

    /// The number at which memory begins: all that the tables hold lies below it.
    fn floor(&self) -> u64
        ensures { result ≡ floor_of (shape_of self.now).memory }
    {
        match self.parts.sealed().first() {
            Some(part) => part.from(),
            None => self.parts.active().from(),
        }
    }

    /// Begins a merge of all tables and of the record's clears under a number that no other job has, whose tables are closed
    /// at the target size. None where fewer tables stand at level 0 than `least`, or none at all, or where a merge is out.
    /// The watermark is below 2^63. All blocks of the tables are read; a damaged one is `Storage(TableDamaged)`, and an `Err`
    /// begins nothing.
    pub fn begin_merge<D: Disk>(
        &mut self,
        disk: &mut D,
        id: u64,
        keyspace_id: u64,
        watermark: u64,
        least: usize,
        target: u64,
    ) -> Result<Option<MergeJob>>
        requires { watermark < 2 ^ 63 }
        ensures none { IfOk result (λ job. (job ≡ None) ↔ MergesNothing least (shape_of self.old)) }
        ensures job { IsTrue D.honest → (entries : List (List Entry)) → ReadsAll (D.meaning disk.old) (shape_of self.old) entries
            → IfOk result (λ job. IfSome job (λ job. merge_task job ≡ merge_of id keyspace_id watermark entries (shape_of self.old).clears)) }
        // What the job is told over any disk, but for what the tables hold.
        ensures named { IfOk result (λ job. IfSome job (λ job. merge_task job ≡ merge_of id keyspace_id watermark (merge_task job).runs (shape_of self.old).clears)) }
        ensures target { IfOk result (λ job. IfSome job (λ job. merge_target job ≡ target)) }
        ensures begun { IfOk result (λ job. IfSome job (λ _. IsSameShape (merge_begun id watermark (shape_of self.old)) (shape_of self.new))) }
        ensures out { IsTrue D.honest → (entries : List (List Entry)) → ReadsAll (D.meaning disk.old) (shape_of self.old) entries
            → IfOk result (λ job. IfSome job (λ job. IsMerging (shape_of self.new) entries (merge_task job))) }
        ensures same { IfOk result (λ job. job ≡ None → IsSameShape (shape_of self.old) (shape_of self.new)) }
        ensures err { OnErr result (IsSameShape (shape_of self.old) (shape_of self.new)) }
        ensures reads { IsTrue D.honest → (entries : List (List Entry)) → ReadsAll (D.meaning disk.old) (shape_of self.old) entries → ReadsAll (D.meaning disk.new) (shape_of self.new) entries }
        ensures refused { IsTrue D.honest → (entries : List (List Entry)) → ReadsAll (D.meaning disk.old) (shape_of self.old) entries
            → IfErr result (IsRefused (SomeTableIsWrong (D.meaning disk.old) (shape_of self.old).tables) (D.meaning disk.old).faults (D.meaning disk.new).faults) }
        ensures disk { LooksOn D.honest (D.meaning disk.old) (D.meaning disk.new) }
        ensures listed { IfErr result (IsRefused ⊤ (D.meaning disk.old).faults (D.meaning disk.new).faults) }
    {
        let tables = self.table_count();
        if tables == 0 || self.l0_table_count() < least || self.merge.is_some() {
            return Ok(None);
        }
        let mut clears = Vec::new(self.alloc);
        clears.extend_from_slice(self.clears.as_slice())?;
        let bound = self.floor();
        let input = all_blocks(self.tables.as_mut_slice(), self.alloc, disk)?;
        self.merge = Some(MergeOut {
            id,
            watermark,
            tables,
            clears: clears.len(),
            bound,
        });
        Ok(Some(MergeJob::new(id, keyspace_id, watermark, target, input, clears)))
    }

    /// Finishes the merge that is out, by the readers of the tables that it made: they stand in the place of exactly the
    /// tables that it was begun with, and of the clears that it was begun with those go that its watermark reaches. What
    /// came since stays. False, and nothing changes, where no merge of this job's number is out. It is refused for want of
    /// memory alone, which room in `tables` for those that stay rules out, and an `Err` leaves all as it was.
    pub fn finish_merge(&mut self, made: &MergeMade, tables: Vec<TableReader>) -> Result<bool>
        ensures ok { IfOk result (λ done. done ≡ is_merge_out (merged_task made.now).id (shape_of self.old).merge) }
        ensures finished { result ≡ Ok true → IfSome (shape_of self.old).merge (λ out. shape_of self.new ≡ merge_finished tables.items out (shape_of self.old)) }
        ensures stale { result ≡ Ok false → shape_of self.new ≡ shape_of self.old }
        ensures err { OnErr result (shape_of self.new ≡ shape_of self.old) }
        ensures only { IsOkUnless result Error.OutOfMemory }
        ensures ready { IfSome (shape_of self.old).merge (λ out. vec_len tables + (length (shape_of self.old).tables - out.tables) ≤ vec_capacity tables) → IsOk result }
    {
        let Some(out) = self.merge else {
            return Ok(false);
        };
        if made.id() != out.id {
            return Ok(false);
        }
        put_in_place(&mut self.tables, out.tables, tables)?;
        let reached = count_reached(self.clears.as_slice(), out.clears, out.watermark);
        self.clears.drain(..reached);
        self.merge = None;
        Ok(true)
    }
}

// Puts tables in the place of the first ones, so many; where memory runs out, nothing changes.
fn put_in_place(
    tables: &mut Vec<TableReader>,
    count: usize,
    mut made: Vec<TableReader>,
) -> Result<()>
    requires { count ≤ length tables.old.items }
    ensures ok { OnOk result (tables.new.items ≡ made.items ++ drop count tables.old.items) }
    ensures err { OnErr result (tables.new.items ≡ tables.old.items) }
    ensures only { IsOkUnless result Error.OutOfMemory }
    ensures ready { vec_len made + (length tables.old.items - count) ≤ vec_capacity made → IsOk result }
{
    made.reserve(tables.len() - count)?;
    tables.drain(..count);
    made.append(tables)?;
    *tables = made;
    Ok(())
}

// How many of the first ascending numbers, so many, a watermark reaches.
fn count_reached(numbers: &[u64], count: usize, watermark: u64) -> usize
    requires count { count ≤ length numbers.now }
    requires ascend { Ascends numbers.now }
    ensures reached { drop result numbers.now ≡ merged_clears watermark (take count numbers.now) ++ drop count numbers.now }
    ensures within { result ≤ length numbers.now }
{
    numbers[..count].partition_point(|number| *number <= watermark)
}

// Puts tables and clears behind those that are there; where memory runs out, nothing changes but what there is room for.
fn put_behind(
    tables: &mut Vec<TableReader>,
    clears: &mut Vec<u64>,
    mut made: Vec<TableReader>,
    more: &[u64],
) -> Result<()>
    ensures tables { OnOk result (tables.new.items ≡ tables.old.items ++ made.items) }
    ensures clears { OnOk result (clears.new.items ≡ clears.old.items ++ more.now) }
    ensures err { OnErr result (tables.new.items ≡ tables.old.items) }
    ensures err_clears { OnErr result (clears.new.items ≡ clears.old.items) }
    ensures only { IsOkUnless result Error.OutOfMemory }
    ensures ready { vec_len tables.old + length made.items ≤ vec_capacity tables.old → vec_len clears.old + length more.now ≤ vec_capacity clears.old → IsOk result }
{
    tables.reserve(made.len())?;
    clears.extend_from_slice(more)?;
    tables.append(&mut made)?;
    Ok(())
}
