//! Tables, looked at down to their blocks.

ghost use Rattle.std.specs.Prelude.{◌≡◌, ◌≢◌, ◌<◌, ◌≤◌, [], IfErr, IfOk, IfSome, IsOkUnless, IsTrue, length, map, slice_get};
ghost use Rattle.fjall_base.specs.declared.error.Error.TheVariants.{Storage};
ghost use Rattle.fjall_base.specs.declared.error.StorageError.TheVariants.{TableDamaged};
ghost use Rattle.fjall_base.specs.Disk.{Took};
ghost use Rattle.fjall_files.specs.Calls.{seen, AllServed};
ghost use Rattle.fjall_table.specs.TableReading.{IsNoTable, handle_of};
ghost use Rattle.fjall_table_reader.specs.Files.{IsIndexed};
ghost use Rattle.fjall_recovery.specs.Refusals.{HasRisen, IsDue};
ghost use Rattle.fjall_inspect.specs.Faults.{AreToldOf, BlockTells, FileTells, HomeTells, IsOneFault, TableTells};

use crate::report::{Fault, is_fault};
use fjall_base::{Disk, Error, Result, StorageError};
use fjall_files::table_name;
use fjall_manifest::LoadedHome;
use fjall_recovery::read_text;
use fjall_table::{Table, TableInfo};
use std::alloc::Global;

const DAMAGED: Error = Error::Storage(StorageError::TableDamaged);

/// One fault of a table in this file, from this place on.
fn one_fault(alloc: Global, file: &str, offset: Option<u64>) -> Result<Vec<Fault>>
    ensures one { IfOk result (λ faults. IsOneFault file.now offset faults.items) }
    ensures only { IsOkUnless result Error.OutOfMemory }
{
    let mut faults = Vec::new(alloc);
    faults.push(Fault::new(alloc, file, offset, DAMAGED)?)?;
    Ok(faults)
}

/// What is wrong with a block of a table by itself, counted from 0 on.
fn look_at_block(alloc: Global, file: &str, table: &Table<'_>, at: usize) -> Result<Vec<Fault>>
    requires { at < length table.now.index.handles.items }
    ensures tells { IfOk result (λ faults. IfSome (slice_get table.now.index.handles.items at) (λ h. BlockTells file.now table.now.bytes.now (handle_of h) faults.items)) }
    ensures only { IsOkUnless result Error.OutOfMemory }
{
    let handle = table.index.handles()[at];
    match table.block(at) {
        Ok(_) => Ok(Vec::new(alloc)),
        Err(error) if is_fault(error) => one_fault(alloc, file, Some(handle.offset)),
        Err(error) => Err(error),
    }
}

/// What is wrong with the blocks of a table by themselves.
fn look_at_blocks(alloc: Global, file: &str, table: &Table<'_>) -> Result<Vec<Fault>>
    ensures tells { IfOk result (λ faults. AreToldOf (BlockTells file.now table.now.bytes.now) (map handle_of table.now.index.handles.items) faults.items) }
    ensures only { IsOkUnless result Error.OutOfMemory }
{
    let mut faults = Vec::new(alloc);
    for at in 0..table.block_count() {
        let mut more = look_at_block(alloc, file, table, at)?;
        faults.append(&mut more)?;
    }
    Ok(faults)
}

/// What is wrong in a table that is damaged. Where each block is right by itself, no place is known: they are out of order, or
/// one was closed early, or they have another count of entries.
fn tell_damage(alloc: Global, file: &str, table: &Table<'_>) -> Result<Vec<Fault>>
    requires { IsNoTable table.now.bytes.now }
    ensures tells { (info : TableInfo) → IsIndexed info table.now.bytes.now (map handle_of table.now.index.handles.items)
        → IfOk result (λ faults. FileTells file.now info table.now.bytes.now faults.items) }
    ensures only { IsOkUnless result Error.OutOfMemory }
{
    let faults = look_at_blocks(alloc, file, table)?;
    if faults.is_empty() {
        return one_fault(alloc, file, None);
    }
    Ok(faults)
}

/// What is wrong in a table whose end was read.
fn look_inside(alloc: Global, file: &str, table: &Table<'_>) -> Result<Vec<Fault>>
    ensures tells { (info : TableInfo) → IsIndexed info table.now.bytes.now (map handle_of table.now.index.handles.items)
        → IfOk result (λ faults. FileTells file.now info table.now.bytes.now faults.items) }
    ensures only { IsOkUnless result Error.OutOfMemory }
{
    match table.versions() {
        Ok(_) => Ok(Vec::new(alloc)),
        Err(error) if is_fault(error) => tell_damage(alloc, file, table),
        Err(error) => Err(error),
    }
}

/// What is wrong in the bytes of a table's file, of which the record says this.
fn look_at_file(alloc: Global, file: &str, bytes: &[u8], info: TableInfo) -> Result<Vec<Fault>>
    ensures tells { IfOk result (λ faults. FileTells file.now info bytes.now faults.items) }
    ensures only { IsOkUnless result Error.OutOfMemory }
{
    match Table::open(alloc, bytes, info) {
        Ok(table) => look_inside(alloc, file, &table),
        Err(error) if is_fault(error) => one_fault(alloc, file, None),
        Err(error) => Err(error),
    }
}

/// What is wrong in a table of the keyspace of this id. Its file is read whole; one that is missing counts as empty.
fn look_at_table<D: Disk>(
    alloc: Global,
    disk: &mut D,
    id: u64,
    info: TableInfo,
) -> Result<Vec<Fault>>
    ensures tells { IsTrue D.honest → IfOk result (λ faults. TableTells (seen (D.meaning disk.old)) id info faults.items) }
    ensures same { IsTrue D.honest → Took (D.meaning disk.old) (D.meaning disk.new) [] }
    ensures served { IsTrue D.honest → AllServed (D.meaning disk.old) (D.meaning disk.new) }
    ensures later { (D.meaning disk.old).faults ≤ (D.meaning disk.new).faults }
    ensures risen { IfErr result (HasRisen (D.meaning disk.old).faults (D.meaning disk.new).faults) }
    ensures only { IfErr result (IsDue (λ error. ⊥)) }
{
    let name = table_name(alloc, id, info.id)?;
    let bytes = read_text(alloc, disk, name.as_str())?;
    look_at_file(alloc, name.as_str(), &bytes, info)
}

/// What is wrong in these tables of the keyspace of this id. One table at a time is in memory.
pub(crate) fn look_at_tables<D: Disk>(
    alloc: Global,
    disk: &mut D,
    id: u64,
    tables: &[TableInfo],
) -> Result<Vec<Fault>>
    ensures tells { IsTrue D.honest → IfOk result (λ faults. AreToldOf (TableTells (seen (D.meaning disk.old)) id) tables.now faults.items) }
    ensures same { IsTrue D.honest → Took (D.meaning disk.old) (D.meaning disk.new) [] }
    ensures served { IsTrue D.honest → AllServed (D.meaning disk.old) (D.meaning disk.new) }
    ensures later { (D.meaning disk.old).faults ≤ (D.meaning disk.new).faults }
    ensures risen { IfErr result (HasRisen (D.meaning disk.old).faults (D.meaning disk.new).faults) }
    ensures only { IfErr result (IsDue (λ error. ⊥)) }
{
    let mut faults = Vec::new(alloc);
    for info in tables {
        let mut more = look_at_table(alloc, disk, id, *info)?;
        faults.append(&mut more)?;
    }
    Ok(faults)
}

/// What is wrong in the tables that the last records of these homes name.
pub(crate) fn look_at_homes<D: Disk>(
    alloc: Global,
    disk: &mut D,
    homes: &[LoadedHome],
) -> Result<Vec<Fault>>
    ensures tells { IsTrue D.honest → IfOk result (λ faults. AreToldOf (HomeTells (seen (D.meaning disk.old))) homes.now faults.items) }
    ensures same { IsTrue D.honest → Took (D.meaning disk.old) (D.meaning disk.new) [] }
    ensures served { IsTrue D.honest → AllServed (D.meaning disk.old) (D.meaning disk.new) }
    ensures later { (D.meaning disk.old).faults ≤ (D.meaning disk.new).faults }
    ensures risen { IfErr result (HasRisen (D.meaning disk.old).faults (D.meaning disk.new).faults) }
    ensures only { IfErr result (IsDue (λ error. ⊥)) }
{
    let mut faults = Vec::new(alloc);
    for home in homes {
        let mut more = look_at_tables(alloc, disk, home.id, &home.record.tables)?;
        faults.append(&mut more)?;
    }
    Ok(faults)
}
