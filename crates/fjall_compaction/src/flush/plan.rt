//! What a flush writes, all of it in memory before the disk is changed.

ghost use Rattle.std.specs.Prelude.{◌≡◌, ◌+◌, ◌≤◌, ◌<◌, ◌^◌, Err, IfErr, IfOk, IsOkUnless, length};
ghost use Rattle.fjall_manifest.specs.Records.{view};
ghost use Rattle.fjall_compaction.specs.Flushes.{Flush, flush_of, raised, record_after_flush};
ghost use Rattle.fjall_compaction.specs.FlushPlans.{IsFlushPlan, IsFlushPlanRefusal, IsNamed};
ghost use Rattle.fjall_compaction.specs.Room.{HasPlace, LacksNextId};

use crate::place::{Counts, find_place};
use fjall_base::{Error, Result};
use fjall_files::{current_name, keyspace_folder, table_name};
use fjall_jobs::{FlushMade, MadeTable};
use fjall_manifest::Record;
use fjall_table::Level;
use std::alloc::Global;

/// All that a flush writes beside the bytes of its table.
#[derive(Debug, Drop)]
pub struct FlushPlan {
    /// The keyspace's record after the flush.
    pub record: Record,
    /// Its text.
    pub record_text: Vec<u8>,
    /// The name of the keyspace's folder, from the root on.
    pub folder: String,
    /// The name of the file of its records, from the root on.
    pub current: String,
    /// The name of the new table's file, from the root on; none where no table was made.
    pub table: Option<String>,
}

/// The greater of a number and of one that there may be.
fn raised(other: Option<u64>, number: u64) -> u64
    ensures { result ≡ raised other number }
{
    match other {
        Some(other) => other.max(number),
        None => number,
    }
}

/// The name of the file of the table that was made, under the next id, which isn't the greatest; none where none was made.
fn table_file(alloc: Global, id: u64, next: u64, tables: &[MadeTable]) -> Result<Option<String>>
    requires few { length tables.now ≤ 1 }
    requires room { next + length tables.now < 2 ^ 64 }
    ensures named { IfOk result (IsNamed id next tables.now) }
    ensures only { IsOkUnless result Error.OutOfMemory }
{
    if tables.is_empty() {
        return Ok(None);
    }
    Ok(Some(table_name(alloc, id, next)?))
}

/// The record after a flush that made at most one table.
fn next_record(
    alloc: Global,
    last: &Record,
    number: u64,
    tables: &[MadeTable],
    clears: &[u64],
) -> Result<Record>
    requires few { length tables.now ≤ 1 }
    requires room { last.now.next_table_id + length tables.now < 2 ^ 64 }
    ensures says { IfOk result (λ r. view r ≡ record_after_flush (record { number = number; tables = tables.now; clears = clears.now }) (view last.now)) }
    ensures only { IsOkUnless result Error.OutOfMemory }
{
    let mut all_tables = Vec::new(alloc);
    all_tables.extend_from_slice(&last.tables)?;
    if let Some(table) = tables.first() {
        all_tables.push(table.info(last.next_table_id, Level::L0))?;
    }
    let mut all_clears = Vec::new(alloc);
    all_clears.extend_from_slice(&last.clears)?;
    all_clears.extend_from_slice(clears)?;
    Ok(Record {
        persisted: Some(raised(last.persisted, number)),
        highest: Some(raised(last.highest, number)),
        next_table_id: last.next_table_id + tables.len() as u64,
        next_keyspace_id: last.next_keyspace_id,
        tables: all_tables,
        clears: all_clears,
    })
}

/// Plans what [`plan_flush`] does of tables and clears, where the record after it has a place: it is refused for want of memory alone.
pub(crate) fn plan_in_place(
    alloc: Global,
    keyspace_id: u64,
    last: &Record,
    number: u64,
    tables: &[MadeTable],
    clears: &[u64],
) -> Result<FlushPlan>
    requires few { length tables.now ≤ 1 }
    requires place { HasPlace (record_after_flush (record { number = number; tables = tables.now; clears = clears.now }) (view last.now)) }
    ensures ok { IfOk result (IsFlushPlan keyspace_id (view last.now) (record { number = number; tables = tables.now; clears = clears.now })) }
    ensures only { IsOkUnless result Error.OutOfMemory }
{
    let table = table_file(alloc, keyspace_id, last.next_table_id, tables)?;
    let record = next_record(alloc, last, number, tables, clears)?;
    let mut record_text = Vec::new(alloc);
    record.encode_into(&mut record_text)?;
    Ok(FlushPlan {
        record,
        record_text,
        folder: keyspace_folder(alloc, keyspace_id)?,
        current: current_name(alloc, keyspace_id)?,
        table,
    })
}

/// Plans how a flush of the keyspace of this id reaches the disk: `last` is the keyspace's last record, and the flush covers
/// all changes of the keyspace up to this number. It changes nothing on the disk, and takes all the memory that
/// [`write_flush`](crate::write_flush) needs.
///
/// Refuses with `TooManyItems` where the record has no room for all tables and clears, else with `NumbersUsedUp` where a table was
/// made and the next id is the greatest `u64`, and else with `OutOfMemory`.
pub fn plan_flush(
    alloc: Global,
    keyspace_id: u64,
    last: &Record,
    number: u64,
    made: &FlushMade,
) -> Result<FlushPlan>
    ensures ok { IfOk result (IsFlushPlan keyspace_id (view last.now) (flush_of number made.now)) }
    ensures used_up { LacksNextId (record_after_flush (flush_of number made.now) (view last.now)) → result ≡ Err Error.NumbersUsedUp }
    ensures cause { IfErr result (IsFlushPlanRefusal (view last.now) (flush_of number made.now)) }
{
    let (tables, clears) = (made.tables(), made.clears());
    let table_counts = Counts {
        staying: last.tables.len(),
        made: tables.len(),
    };
    let clear_counts = Counts {
        staying: last.clears.len(),
        made: clears.len(),
    };
    find_place(last.next_table_id, table_counts, clear_counts)?;
    plan_in_place(alloc, keyspace_id, last, number, tables, clears)
}
