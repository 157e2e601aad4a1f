//! What a merge writes, all of it in memory before the disk is changed.

ghost use Rattle.std.specs.Prelude.{◌≡◌, ◌+◌, ◌++◌, ◌<◌, ◌^◌, IfErr, IfOk, IsOkUnless, drop, length, map, string_bytes, take};
ghost use Rattle.fjall_files.specs.Names.{table_name};
ghost use Rattle.fjall_manifest.specs.Records.{view};
ghost use Rattle.fjall_compaction.specs.Merges.{merged_infos, merge_of, record_after_merge};
ghost use Rattle.fjall_compaction.specs.MergePlans.{AreNamed, IsMergePlan, IsMergePlanRefusal};
ghost use Rattle.fjall_compaction.specs.Room.{HasPlace};

use crate::place::{Counts, find_place};
use fjall_base::{Error, Result};
use fjall_files::{current_name, keyspace_folder, table_name};
use fjall_jobs::{MadeTable, MergeMade};
use fjall_manifest::Record;
use fjall_table::{Level, TableInfo};
use std::alloc::Global;

/// All that a merge writes beside the bytes of its tables, and what it removes then.
#[derive(Debug, Drop)]
pub struct MergePlan {
    /// The keyspace's record after the merge.
    pub record: Record,
    /// Its text.
    pub record_text: Vec<u8>,
    /// The name of the keyspace's folder, from the root on.
    pub folder: String,
    /// The name of the file of its records, from the root on.
    pub current: String,
    /// The names of the new tables' files, from the root on, in their order.
    pub files: Vec<String>,
    /// The names of the files of the tables that the merge takes, from the root on.
    pub taken: Vec<String>,
}

/// The first of these, so many, or all.
fn first<T>(items: &[T], count: usize) -> &[T]
    ensures { result.now ≡ take count items.now }
{
    &items[..count.min(items.len())]
}

/// Those behind the first ones, so many; none where there are no more.
fn behind<T>(items: &[T], count: usize) -> &[T]
    ensures { result.now ≡ drop count items.now }
{
    &items[count.min(items.len())..]
}

/// The names of the files of tables that were made, under ids that follow one another from this one on.
fn new_files(alloc: Global, id: u64, next: u64, tables: &[MadeTable]) -> Result<Vec<String>>
    requires { next + length tables.now < 2 ^ 64 }
    ensures named { IfOk result (λ files. AreNamed id next tables.now files.items) }
    ensures only { IsOkUnless result Error.OutOfMemory }
{
    let mut files = Vec::new(alloc);
    for at in 0..tables.len() {
        files.push(table_name(alloc, id, next + at as u64)?)?;
    }
    Ok(files)
}

/// The names of the files of these tables.
fn table_files(alloc: Global, id: u64, tables: &[TableInfo]) -> Result<Vec<String>>
    ensures named { IfOk result (λ files. map string_bytes files.items ≡ map (λ t. table_name id t.id) tables.now) }
    ensures only { IsOkUnless result Error.OutOfMemory }
{
    let mut files = Vec::new(alloc);
    for table in tables {
        files.push(table_name(alloc, id, table.id)?)?;
    }
    Ok(files)
}

/// What the record says of the tables after a merge that made these in the place of the first ones, so many.
fn next_tables(
    alloc: Global,
    last: &Record,
    count: usize,
    tables: &[MadeTable],
) -> Result<Vec<TableInfo>>
    requires { last.now.next_table_id + length tables.now < 2 ^ 64 }
    ensures tables { IfOk result (λ infos. infos.items ≡ merged_infos last.now.next_table_id tables.now ++ drop count last.now.tables.items) }
    ensures only { IsOkUnless result Error.OutOfMemory }
{
    let mut infos = Vec::new(alloc);
    for at in 0..tables.len() {
        infos.push(tables[at].info(last.next_table_id + at as u64, Level::L1))?;
    }
    infos.extend_from_slice(behind(&last.tables, count))?;
    Ok(infos)
}

/// Plans what [`plan_merge`] does, where the record after it has a place: it is refused for want of memory alone.
fn plan_in_place(
    alloc: Global,
    keyspace_id: u64,
    last: &Record,
    input: (usize, usize),
    made: &MergeMade,
) -> Result<MergePlan>
    requires { HasPlace (record_after_merge (merge_of input made.now) (view last.now)) }
    ensures ok { IfOk result (IsMergePlan keyspace_id (view last.now) (merge_of input made.now)) }
    ensures only { IsOkUnless result Error.OutOfMemory }
{
    let tables = made.tables();
    let mut clears = Vec::new(alloc);
    clears.extend_from_slice(made.clears())?;
    clears.extend_from_slice(behind(&last.clears, input.1))?;
    let record = Record {
        persisted: last.persisted,
        highest: last.highest,
        next_table_id: last.next_table_id + tables.len() as u64,
        next_keyspace_id: last.next_keyspace_id,
        tables: next_tables(alloc, last, input.0, tables)?,
        clears,
    };
    let mut record_text = Vec::new(alloc);
    record.encode_into(&mut record_text)?;
    Ok(MergePlan {
        record,
        record_text,
        folder: keyspace_folder(alloc, keyspace_id)?,
        current: current_name(alloc, keyspace_id)?,
        files: new_files(alloc, keyspace_id, last.next_table_id, tables)?,
        taken: table_files(alloc, keyspace_id, first(&last.tables, input.0))?,
    })
}

/// Plans how a merge of the keyspace of this id reaches the disk, of which this is the last record, and of which the merge takes so many
/// tables and clears. It changes nothing on the disk, and takes all the memory that [`write_merge`](crate::write_merge) and
/// [`remove_taken`](crate::remove_taken) need.
///
/// Refuses with `TooManyItems` where the record has no room for all tables and clears, else with `NumbersUsedUp` where too few ids below
/// the greatest `u64` are left for the new tables, and else with `OutOfMemory`.
pub fn plan_merge(
    alloc: Global,
    keyspace_id: u64,
    last: &Record,
    input: (usize, usize),
    made: &MergeMade,
) -> Result<MergePlan>
    ensures ok { IfOk result (IsMergePlan keyspace_id (view last.now) (merge_of input made.now)) }
    ensures cause { IfErr result (IsMergePlanRefusal (view last.now) (merge_of input made.now)) }
{
    let table_counts = Counts {
        staying: behind(&last.tables, input.0).len(),
        made: made.tables().len(),
    };
    let clear_counts = Counts {
        staying: behind(&last.clears, input.1).len(),
        made: made.clears().len(),
    };
    find_place(last.next_table_id, table_counts, clear_counts)?;
    plan_in_place(alloc, keyspace_id, last, input, made)
}
