//! What an opening cuts off and removes.

ghost use Rattle.std.specs.Prelude.{◌≡◌, IfOk, IsOkUnless, map, string_bytes};
ghost use Rattle.fjall_manifest.specs.Catalog.{listed};
ghost use Rattle.fjall_repair.specs.Steps.{end_of};
ghost use Rattle.fjall_repair.specs.Sweeps.{planned};
ghost use Rattle.fjall_inspect.specs.Checks.{cut_of, cuts_at};

use crate::report::Cut;
use fjall_base::{Error, Result};
use fjall_files::OwnFiles;
use fjall_manifest::Catalog;
use fjall_repair::{FileEnd, SweepPlan};
use fjall_table::TableInfo;
use std::alloc::Global;
use std::slice;

/// The table that tree 0's last record names, where it names one.
pub(crate) fn tree_tables(catalog: &Catalog) -> &[TableInfo]
    ensures { result.now ≡ listed catalog.now.table }
{
    match &catalog.table {
        Some(table) => slice::from_ref(table),
        None => &[],
    }
}

/// What is cut off of these files.
pub(crate) fn cuts_of(alloc: Global, ends: Vec<FileEnd>) -> Result<Vec<Cut>>
    ensures cuts { IfOk result (λ cuts. map cut_of cuts.items ≡ cuts_at (map end_of ends.items)) }
    ensures only { IsOkUnless result Error.OutOfMemory }
{
    let mut cuts = Vec::new(alloc);
    for end in ends {
        if end.cut {
            cuts.push(Cut {
                file: end.name,
                offset: end.len as u64,
            })?;
        }
    }
    Ok(cuts)
}

/// The names of all that a plan removes: tables, and then of each folder the files in it, and its own.
pub(crate) fn removals_of(plan: SweepPlan) -> Result<Vec<String>>
    ensures names { IfOk result (λ names. map string_bytes names.items ≡ planned plan) }
    ensures only { IsOkUnless result Error.OutOfMemory }
{
    let SweepPlan { tables, homes } = plan;
    let mut names = tables;
    for home in homes {
        let OwnFiles { folder, mut files } = home;
        names.append(&mut files)?;
        names.push(folder)?;
    }
    Ok(names)
}
