//! A whole ingestion on the disk: the flush of all that its keyspace has in memory, and behind it the ingestion's own table and
//! record. All of it is planned, with all memory, before the disk is changed.

ghost use Rattle.std.specs.Prelude.{◌≡◌, ◌⊎◌, ◌++◌, ◌<◌, ◌≤◌, ◌^◌, [], ℕ, Bool, List, false, true, if◌then◌else◌, length, min, IfErr, IfOk, IsOkUnless, IsTrue, OnOk};
ghost use Rattle.fjall_base.specs.Disk.{IsNoFolder, LeavesOnly, OnlyFaults, state_in};
ghost use Rattle.fjall_files.specs.Calls.{AllServed};
ghost use Rattle.fjall_files.specs.Names.{keyspace_folder, table_name};
ghost use Rattle.fjall_files.specs.Regions.{Within};
ghost use Rattle.fjall_files.specs.Tidy.{StaysTidy};
ghost use Rattle.fjall_compaction.specs.Flushes.{Flush, record_after_flush};
ghost use Rattle.fjall_compaction.specs.FlushPlans.{AreReadersOf, HaveFiles, KeepsBeside};
ghost use Rattle.fjall_compaction.specs.IngestionPlans.{ForIngest, ForIngestNext, ForIngestOn};
ghost use Rattle.fjall_jobs.specs.Sequences.{AreMadeTables};
ghost use Rattle.fjall_jobs.specs.Tasks.{IsFlushed};
ghost use Rattle.fjall_tree.specs.Ingestions.{has_memory, memory_task};
ghost use Rattle.fjall_tree.specs.Shapes.{shape_of};
ghost use Rattle.fjall_memtable.specs.Parts.{clears_in, parts_of};
ghost use Rattle.fjall_recovery.specs.Halves.{HasTree};
ghost use Rattle.fjall_recovery.specs.Places.{LiesInTree};
ghost use Rattle.fjall_table.specs.Blocks.{Entry};
ghost use Rattle.fjall_manifest.specs.Records.{Fields, view};
ghost use Rattle.fjall_reading.specs.Ingestions.{AreWritable, KeyOp, KeysAscend};
ghost use Rattle.fjall_compaction.specs.Planned.{ForIngestion, ForIngestionOn, ForMemory, ForMemoryOn, HasNoTableFolder, IsIngestionPlan, IsIngestionRefusal, IsMemoryPlan, KeepsGiven};
ghost use Rattle.fjall_compaction.specs.Whole.{memory_flush};

use crate::flush::{FlushPlan, plan_in_place, write_tables};
use crate::ingestion::plan::{IngestPlan, plan_ingest};
use crate::place::{Counts, find_place};
use crate::readers::table_readers;
use fjall_base::{Disk, Error, Result, UserKey};
use fjall_jobs::MadeTable;
use fjall_journal::Op;
use fjall_manifest::Record;
use fjall_table_reader::TableReader;
use fjall_tree::Tree;
use std::alloc::Global;

/// What a flush of all that a keyspace has in memory makes, and all that is written of it.
#[derive(Drop)]
pub struct MemoryPlan {
    /// The table that was made; none where no version is left.
    pub tables: Vec<MadeTable>,
    /// The clears of memory, ascending.
    pub clears: Vec<u64>,
    /// What is written; nothing where memory holds nothing.
    pub writes: Option<FlushPlan>,
}

/// All that is written of an ingestion, and what memory takes of it then: got before the disk is changed.
#[derive(Drop)]
pub struct PlannedIngestion {
    /// The keyspace's id.
    pub id: u64,
    /// The flush of the keyspace's memory.
    pub memory: MemoryPlan,
    /// The ingestion behind it.
    pub own: IngestPlan,
    /// The readers of both tables.
    pub readers: Vec<TableReader>,
    /// An empty list that has room for all tables of the keyspace.
    pub room: Vec<TableReader>,
    /// All clears of the keyspace.
    pub clears: Vec<u64>,
}

// Plans the flush of all that a keyspace has in memory, of which this is the last record, behind which so many tables are to come.
fn plan_memory(
    alloc: Global,
    id: u64,
    tree: &Tree,
    last: &Record,
    watermark: u64,
    coming: usize,
) -> Result<MemoryPlan>
    requires low { watermark < 2 ^ 63 }
    requires few { coming ≤ 1 }
    ensures made { IfOk result (λ p. IsFlushed (memory_task id watermark (shape_of tree.now).memory) p.tables.items (clears_in (parts_of (shape_of tree.now).memory))) }
    ensures clears { IfOk result (λ p. p.clears.items ≡ clears_in (parts_of (shape_of tree.now).memory)) }
    ensures writes { IfOk result (λ p. IsMemoryPlan (has_memory (shape_of tree.now).memory) id (view last.now) (memory_flush (shape_of tree.now) p.tables.items) p.writes) }
    ensures nothing { IfOk result (λ p. has_memory (shape_of tree.now).memory ≡ false → p.tables.items ≡ []) }
    ensures cause { (n : ℕ) (items : List KeyOp) → coming ≡ min (length items) 1
        → IfErr result (IsIngestionRefusal (shape_of tree.now) id watermark n items (view last.now)) }
{
    if !tree.has_memory() {
        return Ok(MemoryPlan {
            tables: Vec::new(alloc),
            clears: Vec::new(alloc),
            writes: None,
        });
    }
    let (tables, clears) = tree.flush_memory(watermark)?;
    let table_counts = Counts {
        staying: last.tables.len(),
        made: tables.len() + coming,
    };
    let clear_counts = Counts {
        staying: last.clears.len(),
        made: clears.len(),
    };
    find_place(last.next_table_id, table_counts, clear_counts)?;
    let number = tree.until().saturating_sub(1);
    let writes = plan_in_place(alloc, id, last, number, &tables, &clears)?;
    Ok(MemoryPlan {
        tables,
        clears,
        writes: Some(writes),
    })
}

// The keyspace's record once its memory is flushed.
fn flushed_record<'a>(memory: &'a MemoryPlan, last: &'a Record) -> &'a Record
    ensures { (flushes : Bool) (id : ℕ) (f : Flush) → IsMemoryPlan flushes id (view last.now) f memory.now.writes
        → view result.now ≡ (if flushes then record_after_flush f (view last.now) else view last.now) }
{
    match &memory.writes {
        Some(writes) => &writes.record,
        None => last,
    }
}

// The readers of the tables that the flush of memory made.
fn memory_readers(alloc: Global, memory: &MemoryPlan, next: u64) -> Result<Vec<TableReader>>
    ensures readers { (flushes : Bool) (id : ℕ) (last : Fields) (f : Flush) → last.next_table_id ≡ next → f.tables ≡ memory.now.tables.items → (flushes ≡ false → memory.now.tables.items ≡ [])
        → IsMemoryPlan flushes id last f memory.now.writes → IfOk result (λ readers. AreReadersOf id next memory.now.tables.items readers.items) }
    ensures only { (lists : List (List Entry)) → AreMadeTables memory.now.tables.items lists → IsOkUnless result Error.OutOfMemory }
{
    match &memory.writes {
        Some(writes) => table_readers(alloc, &writes.table, next, &memory.tables),
        None => Ok(Vec::new(alloc)),
    }
}

/// Plans an ingestion of these items, by key ascending, of which none is refused for its length, under this number into the keyspace of
/// this id: of its tree what memory holds goes to a table first, by this watermark, and `last` is its last record. It changes nothing,
/// and takes all the memory that the ingestion needs.
///
/// Refusals: `TooManyItems` where the keyspace's record has no room for its tables, else `NumbersUsedUp` where no id is left for them, and
/// else `OutOfMemory`; but what is in memory takes memory to flush before it is known whether a table is made of it.
pub fn plan_ingestion(
    alloc: Global,
    id: u64,
    tree: &Tree,
    last: &Record,
    watermark: u64,
    number: u64,
    items: &[(UserKey, Op)],
) -> Result<PlannedIngestion>
    requires low { watermark < 2 ^ 63 }
    requires ascend { KeysAscend items.now }
    requires writable { AreWritable items.now }
    ensures planned { IfOk result (IsIngestionPlan (shape_of tree.now) id watermark number items.now (view last.now)) }
    ensures cause { IfErr result (IsIngestionRefusal (shape_of tree.now) id watermark number items.now (view last.now)) }
{
    let memory = plan_memory(alloc, id, tree, last, watermark, items.len().min(1))?;
    let flushed = flushed_record(&memory, last);
    let own = plan_ingest(alloc, id, flushed, number, items)?;
    let mut readers = memory_readers(alloc, &memory, last.next_table_id)?;
    let mut behind = table_readers(alloc, &own.writes.table, flushed.next_table_id, &own.tables)?;
    readers.append(&mut behind)?;
    let room = tree.room_for(readers.len())?;
    let clears = tree.clears_with(&memory.clears)?;
    Ok(PlannedIngestion {
        id,
        memory,
        own,
        readers,
        room,
        clears,
    })
}

/// Writes an ingestion as it was planned: its table, which is synced with its name, and then the record, which is appended and
/// synced: from then on all of it counts. A file that nothing names, under the new table's id, is taken away first. It takes no
/// memory.
///
/// A call that fails may have done all of it.
pub fn write_ingest<D: Disk>(disk: &mut D, plan: &IngestPlan) -> Result<()>
    // Nothing outside the keyspace's folder changes.
    ensures within { IsTrue D.honest → ForIngest plan.now (λ id. Within (keyspace_folder id) (D.meaning disk.old) (D.meaning disk.new)) }
    // A crash at any moment of the call leaves the tree before or the one after, whole.
    ensures any_moment { IsTrue D.honest → ForIngestOn (D.meaning disk.old) plan.now (λ records t id h next.
        LeavesOnly (D.meaning disk.old) (D.meaning disk.new) (λ image. HasTree image t ⊎ HasTree image next)) }
    // At Ok the one after lies there.
    ensures ok { IsTrue D.honest → ForIngestOn (D.meaning disk.old) plan.now (λ records t id h next.
        OnOk result (LiesInTree (state_in (D.meaning disk.new)) records next)) }
    // Where no folder has the table's name, each call was one that a disk can serve.
    ensures served { IsTrue D.honest → ForIngestOn (D.meaning disk.old) plan.now (λ records t id h next.
        IsNoFolder (state_in (D.meaning disk.old) (table_name id h.last.next_table_id)).now → AllServed (D.meaning disk.old) (D.meaning disk.new)) }
    ensures cause { OnlyFaults (D.meaning disk.old) (D.meaning disk.new) result }
    ensures kinds { IsTrue D.honest → ForIngest plan.now (λ id. StaysTidy (D.meaning disk.old) (D.meaning disk.new)) }
    // In sight nothing changes but the keyspace's file of records and the new table's, whatever lies on the disk.
    ensures beside { IsTrue D.honest → ForIngestNext plan.now (λ id next. KeepsBeside id next (D.meaning disk.old) (D.meaning disk.new)) }
    // At Ok the table's file has its bytes.
    ensures files { IsTrue D.honest → ForIngestNext plan.now (λ id next. OnOk result (HaveFiles (D.meaning disk.new) id next plan.now.tables.items)) }
{
    write_tables(disk, &plan.writes, &plan.tables)
}

// Writes the flush of memory as it was planned; nothing where memory holds nothing.
fn write_memory<D: Disk>(disk: &mut D, memory: &MemoryPlan) -> Result<()>
    ensures within { IsTrue D.honest → ForMemory memory.now (λ id last. Within (keyspace_folder id) (D.meaning disk.old) (D.meaning disk.new)) }
    ensures any_moment { IsTrue D.honest → ForMemoryOn (D.meaning disk.old) memory.now (λ records t id h mid.
        LeavesOnly (D.meaning disk.old) (D.meaning disk.new) (λ image. HasTree image t ⊎ HasTree image mid)) }
    ensures ok { IsTrue D.honest → ForMemoryOn (D.meaning disk.old) memory.now (λ records t id h mid.
        OnOk result (LiesInTree (state_in (D.meaning disk.new)) records mid)) }
    ensures served { IsTrue D.honest → ForMemoryOn (D.meaning disk.old) memory.now (λ records t id h mid.
        HasNoTableFolder (D.meaning disk.old) id → AllServed (D.meaning disk.old) (D.meaning disk.new)) }
    ensures cause { OnlyFaults (D.meaning disk.old) (D.meaning disk.new) result }
    ensures kinds { IsTrue D.honest → ForMemory memory.now (λ id last. StaysTidy (D.meaning disk.old) (D.meaning disk.new)) }
    ensures beside { IsTrue D.honest → ForMemory memory.now (λ id last. KeepsGiven id last.next_table_id (D.meaning disk.old) (D.meaning disk.new)) }
    ensures files { IsTrue D.honest → ForMemory memory.now (λ id last. OnOk result (HaveFiles (D.meaning disk.new) id last.next_table_id memory.now.tables.items)) }
{
    match &memory.writes {
        Some(writes) => write_tables(disk, writes, &memory.tables),
        None => Ok(()),
    }
}

/// Writes an ingestion as it was planned: the table of what its keyspace had in memory and the record that makes it count, where there
/// was something; and then the ingestion's own table and its record, from which on all of it counts. Each table is synced with its name
/// before its record, which is synced too. Files that nothing names, under the new tables' ids, are taken away first. It takes no memory.
///
/// A call that fails may have done all of it, or the flush of memory alone.
pub fn write_ingestion<D: Disk>(disk: &mut D, planned: &PlannedIngestion) -> Result<()>
    // Nothing outside the keyspace's folder changes.
    ensures within { IsTrue D.honest → ForIngestion planned.now (λ id last tree n items. Within (keyspace_folder id) (D.meaning disk.old) (D.meaning disk.new)) }
    // A crash at any moment, also at the last one of a call that fails, leaves the tree before, the one behind the flush of memory, or
    // the one behind the ingestion, whole.
    ensures any_moment { IsTrue D.honest → ForIngestionOn (D.meaning disk.old) planned.now (λ id records t h mid next.
        LeavesOnly (D.meaning disk.old) (D.meaning disk.new) (λ image. HasTree image t ⊎ (HasTree image mid ⊎ HasTree image next))) }
    // At Ok the last one lies there.
    ensures ok { IsTrue D.honest → ForIngestionOn (D.meaning disk.old) planned.now (λ id records t h mid next.
        OnOk result (LiesInTree (state_in (D.meaning disk.new)) records next)) }
    // Where no folder has the name of a table, each call was one that a disk can serve.
    ensures served { IsTrue D.honest → ForIngestionOn (D.meaning disk.old) planned.now (λ id records t h mid next.
        HasNoTableFolder (D.meaning disk.old) id → AllServed (D.meaning disk.old) (D.meaning disk.new)) }
    ensures cause { OnlyFaults (D.meaning disk.old) (D.meaning disk.new) result }
    ensures kinds { IsTrue D.honest → ForIngestion planned.now (λ id last tree n items. StaysTidy (D.meaning disk.old) (D.meaning disk.new)) }
    // Whatever lies on the disk, each table of the keyspace that was there before stands in sight as it did.
    ensures beside { IsTrue D.honest → ForIngestion planned.now (λ id last tree n items. KeepsGiven id last.next_table_id (D.meaning disk.old) (D.meaning disk.new)) }
    // At Ok the files of the new tables have their bytes.
    ensures files { IsTrue D.honest → ForIngestion planned.now (λ id last tree n items.
        OnOk result (HaveFiles (D.meaning disk.new) id last.next_table_id (planned.now.memory.tables.items ++ planned.now.own.tables.items))) }
{
    write_memory(disk, &planned.memory)?;
    write_ingest(disk, &planned.own)
}
