//! The readers of tables that were made: they are had before the files are written.

ghost use Rattle.std.specs.Prelude.{ℕ, ◌+◌, ◌≤◌, List, IfOk, IsOkUnless, vec_capacity, vec_len};
ghost use Rattle.fjall_jobs.specs.Sequences.{AreMadeTables};
ghost use Rattle.fjall_table.specs.Blocks.{Entry};
ghost use Rattle.fjall_compaction.specs.FlushPlans.{AreReadersOf, IsNamed};
ghost use Rattle.fjall_compaction.specs.MergePlans.{AreMergeReaders, AreNamed};

use fjall_base::{Error, Result};
use fjall_jobs::MadeTable;
use fjall_table::Level;
use fjall_table_reader::TableReader;
use std::alloc::Global;

/// The reader of the table that was made, under this id and by the name that is planned; none where none was made. Where a job made
/// it, it is refused for want of memory alone.
pub fn table_readers(
    alloc: Global,
    name: &Option<String>,
    next: u64,
    tables: &[MadeTable],
) -> Result<Vec<TableReader>>
    ensures readers { (id : ℕ) → IsNamed id next tables.now name.now → IfOk result (λ readers. AreReadersOf id next tables.now readers.items) }
    ensures only { (lists : List (List Entry)) → AreMadeTables tables.now lists → IsOkUnless result Error.OutOfMemory }
{
    let mut readers = Vec::new(alloc);
    let Some(name) = name else {
        return Ok(readers);
    };
    let Some(table) = tables.first() else {
        return Ok(readers);
    };
    readers.push(table.reader(alloc, name.as_str(), next, Level::L0)?)?;
    Ok(readers)
}

/// The readers of tables that were made, under ids that follow one another from this one on and by the names that are planned, in a list
/// that has room for so many more. Where a job made them, it is refused for want of memory alone.
pub fn merged_readers(
    alloc: Global,
    files: &[String],
    next: u64,
    tables: &[MadeTable],
    more: usize,
) -> Result<Vec<TableReader>>
    ensures readers { (id : ℕ) → AreNamed id next tables.now files.now → IfOk result (λ readers. AreMergeReaders id next tables.now readers.items) }
    ensures room { IfOk result (λ readers. vec_len readers + more ≤ vec_capacity readers) }
    ensures only { (lists : List (List Entry)) → AreMadeTables tables.now lists → IsOkUnless result Error.OutOfMemory }
{
    let Some(count) = tables.len().checked_add(more) else {
        return Err(Error::OutOfMemory);
    };
    let mut readers = Vec::with_capacity(alloc, count)?;
    for at in 0..tables.len() {
        let Some(file) = files.get(at) else {
            return Ok(readers);
        };
        let id = next.wrapping_add(at as u64);
        readers.push(tables[at].reader(alloc, file.as_str(), id, Level::L1)?)?;
    }
    Ok(readers)
}
