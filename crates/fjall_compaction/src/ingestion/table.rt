//! The table of an ingestion.

ghost use Rattle.std.specs.Prelude.{◌≡◌, IfOk, IsOkUnless};
ghost use Rattle.std.specs.Option.{option_map};
ghost use Rattle.fjall_journal.specs.Ops.{value_in};
ghost use Rattle.fjall_table.specs.Blocks.{seen};
ghost use Rattle.fjall_reading.specs.Ingestions.{AreWritable, KeysAscend};
ghost use Rattle.fjall_compaction.specs.Ingests.{version_of, versions_made};
ghost use Rattle.fjall_compaction.specs.IngestionPlans.{AreIngestionTables};

use fjall_base::{Error, Result, UserKey};
use fjall_jobs::MadeTable;
use fjall_journal::Op;
use fjall_table::{TableEntry, TableWriter};
use std::alloc::Global;

/// The value that the key has afterwards.
fn value_of(op: &Op) -> Option<&[u8]>
    ensures { option_map (λ value. value.now) result ≡ value_in op.now }
{
    match op {
        Op::Put(value) => Some(value.as_slice()),
        Op::Remove | Op::RemoveWeak => None,
    }
}

/// What an item makes of its key.
fn entry_of(item: &(UserKey, Op), number: u64) -> TableEntry<'_>
    ensures { seen result ≡ version_of number item.now }
{
    TableEntry {
        key: item.0.as_slice(),
        number,
        value: value_of(&item.1),
    }
}

/// A writer with the versions of all items.
fn write_items(alloc: Global, number: u64, items: &[(UserKey, Op)]) -> Result<TableWriter>
    requires ascend { KeysAscend items.now }
    requires writable { AreWritable items.now }
    ensures written { IfOk result (λ writer. writer ≡ versions_made number items.now) }
    ensures only { IsOkUnless result Error.OutOfMemory }
{
    let mut writer = TableWriter::new(alloc);
    for item in items {
        writer.write(&entry_of(item, number))?;
    }
    Ok(writer)
}

/// The table of these items, whose keys ascend and of which none is refused for its length; none where there is no item. It is
/// refused for want of memory alone.
pub(crate) fn make_tables(
    alloc: Global,
    number: u64,
    items: &[(UserKey, Op)],
) -> Result<Vec<MadeTable>>
    requires ascend { KeysAscend items.now }
    requires writable { AreWritable items.now }
    ensures made { IfOk result (λ tables. AreIngestionTables number items.now tables.items) }
    ensures only { IsOkUnless result Error.OutOfMemory }
{
    let writer = write_items(alloc, number, items)?;
    let entry_count = writer.entry_count();
    let Some(bytes) = writer.finish()? else {
        return Ok(Vec::new(alloc));
    };
    let mut tables = Vec::new(alloc);
    tables.push(MadeTable { bytes, entry_count })?;
    Ok(tables)
}
