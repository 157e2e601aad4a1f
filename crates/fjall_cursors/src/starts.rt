//! The runs that a page begins with.

ghost use Rattle.std.specs.Prelude.{IfOk};
ghost use Rattle.fjall_base.specs.Pairs.{key_range};
ghost use Rattle.fjall_cursors.specs.Tables.{AllBegin, StartsAt};

use crate::memtable_run::MemtableRun;
use crate::page_run::PageRun;
use crate::table_run::TableRun;
use fjall_base::KeyBounds;
use fjall_table_reader::TableReader;
use std::alloc::{AllocError, Global};

// The parts of the tables between the bounds.
fn table_runs<'a>(
    alloc: Global,
    tables: &[TableReader],
    range: KeyBounds<'_>,
    back: bool,
) -> Result<Vec<PageRun<'a>>, AllocError>
    ensures { IfOk result (λ runs. AllBegin (key_range range.entry) back tables.now runs.items) }
{
    let mut runs = Vec::new(alloc);
    for reader in tables {
        runs.push(PageRun::Table(TableRun::new(reader, range, back)))?;
    }
    Ok(runs)
}

// These, and behind them the runs in memory.
pub(crate) fn page_runs<'a>(
    alloc: Global,
    tables: &[TableReader],
    memory: Vec<MemtableRun<'a>>,
    range: KeyBounds<'_>,
    back: bool,
) -> Result<Vec<PageRun<'a>>, AllocError>
    ensures { IfOk result (λ runs. StartsAt (key_range range.entry) back tables.now memory.entry.items runs.items) }
{
    let mut runs = table_runs(alloc, tables, range, back)?;
    for run in memory {
        runs.push(PageRun::Memory(run))?;
    }
    Ok(runs)
}
