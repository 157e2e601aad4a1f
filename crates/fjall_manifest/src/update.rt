//! What a change of the keyspaces writes to the catalog, all of it in memory before the disk is changed.

ghost use Rattle.std.specs.Prelude.{◌≡◌, ◌++◌, [], IfOk, IfErr, IsOkUnless, MatchOption, string_bytes};
ghost use Rattle.std.specs.Option.{option_map};
ghost use Rattle.fjall_files.specs.Names.{table_name};
ghost use Rattle.fjall_meta.specs.Keyspaces.{without_keyspace};
ghost use Rattle.fjall_meta.specs.Entries.{IsAscending, entries_of};
ghost use Rattle.fjall_manifest.specs.Updates.{IsTableWritten, IsTableRefusal, IsUpdate, IsPreparingRefusal};

use crate::catalog::Catalog;
use crate::table::write_keyspaces;
use crate::writing::TableFile;
use fjall_base::{Error, Result};
use fjall_files::table_name;
use fjall_meta::{LivingKeyspace, MetaKeyspace};
use fjall_table::{Level, TableInfo};
use std::alloc::Global;

/// Numbers of changes end here.
const NUMBER_LIMIT: u64 = 1 << 63;

/// A change of the catalog.
#[derive(Debug, Drop)]
pub struct Update {
    /// The catalog after it.
    pub catalog: Catalog,
    /// The new table; none where no keyspace lives.
    pub table: Option<TableFile>,
    /// The text of the new record.
    pub record_text: Vec<u8>,
    /// The name of the old table's file, where there was one.
    pub old_table: Option<String>,
}

/// A table of the pairs of the keyspaces in front and of those behind them, under this id, at level 1; none where there
/// are no pairs.
fn new_table(
    alloc: Global,
    id: u64,
    front: &[LivingKeyspace],
    behind: &[LivingKeyspace],
) -> Result<Option<(TableInfo, TableFile)>>
    requires { IsAscending (entries_of (front.now ++ behind.now)) }
    ensures ok { let entries = entries_of (front.now ++ behind.now) in IfOk result (λ table. MatchOption table (entries ≡ []) (λ t. IsTableWritten id entries t.0 t.1)) }
    ensures cause { IfErr result (IsTableRefusal id (entries_of (front.now ++ behind.now))) }
{
    let writer = write_keyspaces(alloc, front, behind)?;
    let entry_count = writer.entry_count();
    let Some(bytes) = writer.finish()? else {
        return Ok(None);
    };
    if id == u64::MAX {
        return Err(Error::NumbersUsedUp);
    }
    let info = TableInfo {
        id,
        level: Level::L1,
        file_len: bytes.len() as u64,
        entry_count,
    };
    let name = table_name(alloc, 0, id)?;
    Ok(Some((info, TableFile { name, bytes })))
}

/// The name of the catalog's table.
fn name_of_table(alloc: Global, catalog: &Catalog) -> Result<Option<String>>
    ensures name { IfOk result (λ name. option_map string_bytes name ≡ option_map (λ t. table_name 0 t.id) catalog.now.table) }
    ensures only { IsOkUnless result Error.OutOfMemory }
{
    let Some(table) = catalog.table else {
        return Ok(None);
    };
    Ok(Some(table_name(alloc, 0, table.id)?))
}

/// The change of this number from a catalog to one of the keyspaces in front and of those behind them, and this next id.
fn prepare_keyspaces(
    alloc: Global,
    catalog: &Catalog,
    front: &[LivingKeyspace],
    behind: &[LivingKeyspace],
    next_id: u64,
    number: u64,
) -> Result<Update>
    requires { IsAscending (entries_of (front.now ++ behind.now)) }
    ensures ok { IfOk result (IsUpdate catalog.now (record { living = front.now ++ behind.now; next = next_id }) number) }
    ensures cause { IfErr result (IsPreparingRefusal catalog.now (record { living = front.now ++ behind.now; next = next_id }) number) }
{
    if number >= NUMBER_LIMIT {
        return Err(Error::NumbersUsedUp);
    }
    let old_table = name_of_table(alloc, catalog)?;
    let mut next = Catalog {
        persisted: Some(number),
        highest: Some(number),
        next_table_id: catalog.next_table_id,
        next_keyspace_id: next_id,
        table: None,
    };
    let mut table = None;
    if let Some((info, file)) = new_table(alloc, catalog.next_table_id, front, behind)? {
        next.next_table_id = info.id + 1;
        next.table = Some(info);
        table = Some(file);
    }
    Ok(Update {
        catalog: next,
        table,
        record_text: next.encode(alloc)?,
        old_table,
    })
}

/// Prepares the change of this number from a catalog to one of these keyspaces: a table of the pairs of all of them,
/// under the next id, where any lives, and the record that names it. It changes nothing on the disk, and takes all the
/// memory that the change needs.
///
/// Refuses with `NumbersUsedUp` a number that isn't below 2^63, and a table where the next id is the greatest `u64`;
/// with `ValueTooLong` a stored option of more than 4,294,967,295 bytes; and with `OutOfMemory`.
pub fn prepare(
    alloc: Global,
    catalog: &Catalog,
    keyspaces: &MetaKeyspace,
    number: u64,
) -> Result<Update>
    ensures ok { IfOk result (IsUpdate catalog.now keyspaces.now number) }
    ensures cause { IfErr result (IsPreparingRefusal catalog.now keyspaces.now number) }
{
    prepare_keyspaces(
        alloc,
        catalog,
        keyspaces.living(),
        &[],
        keyspaces.next_id(),
        number,
    )
}

/// Prepares the change of this number from a catalog to one of these keyspaces without that of this id, as [`prepare`]
/// does.
pub fn prepare_deletion(
    alloc: Global,
    catalog: &Catalog,
    keyspaces: &MetaKeyspace,
    id: u64,
    number: u64,
) -> Result<Update>
    ensures ok { IfOk result (IsUpdate catalog.now (without_keyspace id keyspaces.now) number) }
    ensures cause { IfErr result (IsPreparingRefusal catalog.now (without_keyspace id keyspaces.now) number) }
{
    let (front, behind) = keyspaces.living_without(id);
    prepare_keyspaces(alloc, catalog, front, behind, keyspaces.next_id(), number)
}
