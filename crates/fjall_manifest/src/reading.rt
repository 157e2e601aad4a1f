//! A home as it is read: its last record and the ends of its tables.

ghost use Rattle.std.specs.Prelude.{Any, ⊤, ◌≤◌, [], IfOk, IfErr, IsTrue};
ghost use Rattle.fjall_base.specs.Disk.{Took};
ghost use Rattle.fjall_files.specs.Calls.{seen, AllServed};
ghost use Rattle.fjall_table_reader.specs.Files.{IsRefused};
ghost use Rattle.fjall_manifest.specs.Reading.{AreHeld, IsHomeRefusal, IsLast, IsLoaded, IsRefusal, LacksTable};

use crate::current::{Current, read_current};
use crate::record::Record;
use fjall_base::{Disk, Error, Result, StorageError};
use fjall_files::{current_name, table_name};
use fjall_table::TableInfo;
use fjall_table_reader::TableFile;
use std::alloc::Global;

const NO_RECORD: Error = Error::Storage(StorageError::RecordDamaged);

/// What a keyspace's folder holds.
#[derive(Drop)]
pub struct LoadedHome {
    /// The keyspace's id.
    pub id: u64,
    /// The last whole record, which counts.
    pub record: Record,
    /// Where the whole records end.
    pub end: usize,
    /// How many bytes the file of the records has.
    pub len: usize,
    /// The tables that the record names, in its order.
    pub tables: Vec<TableFile>,
}

/// What the file of a keyspace's records holds.
#[derive(Drop)]
struct Last {
    record: Record,
    end: usize,
    len: usize,
}

/// Reads the records of the keyspace of this id. Where no whole record stands, or a whole one contradicts itself, it is
/// `Storage(RecordDamaged)`.
fn read_last<D: Disk>(alloc: Global, disk: &mut D, id: u64) -> Result<Last>
    ensures last { IsTrue D.honest → IfOk result (IsLast (seen (D.meaning disk.old)) id) }
    ensures refused { IsTrue D.honest
        → IfErr result (IsRefusal (seen (D.meaning disk.old)) id (D.meaning disk.old).faults (D.meaning disk.new).faults) }
    ensures same { IsTrue D.honest → Took (D.meaning disk.old) (D.meaning disk.new) [] }
    ensures served { IsTrue D.honest → AllServed (D.meaning disk.old) (D.meaning disk.new) }
    ensures later { (D.meaning disk.old).faults ≤ (D.meaning disk.new).faults }
    ensures listed { IfErr result (IsHomeRefusal (D.meaning disk.old).faults (D.meaning disk.new).faults) }
{
    let name = current_name(alloc, id)?;
    let Some(text) = disk.read(alloc, name.as_str())? else {
        return Err(NO_RECORD);
    };
    let Current { record, end } = read_current(alloc, &text)?;
    let Some(record) = record else {
        return Err(NO_RECORD);
    };
    Ok(Last {
        record,
        end,
        len: text.len(),
    })
}

/// Opens these tables of the keyspace of this id, one after another. The first that isn't there, or isn't right at its
/// end, is `Storage(TableDamaged)`.
fn open_tables<D: Disk>(
    alloc: Global,
    disk: &mut D,
    id: u64,
    tables: &[TableInfo],
) -> Result<Vec<TableFile>>
    ensures held { IsTrue D.honest → IfOk result (λ files. AreHeld (seen (D.meaning disk.old)) id tables.now files.items) }
    ensures refused { IsTrue D.honest
        → IfErr result (IsRefused (Any (LacksTable (seen (D.meaning disk.old)) id) tables.now) (D.meaning disk.old).faults (D.meaning disk.new).faults) }
    ensures same { IsTrue D.honest → Took (D.meaning disk.old) (D.meaning disk.new) [] }
    ensures served { IsTrue D.honest → AllServed (D.meaning disk.old) (D.meaning disk.new) }
    ensures later { (D.meaning disk.old).faults ≤ (D.meaning disk.new).faults }
    ensures listed { IfErr result (IsRefused ⊤ (D.meaning disk.old).faults (D.meaning disk.new).faults) }
{
    let mut files = Vec::new(alloc);
    for table in tables {
        let name = table_name(alloc, id, table.id)?;
        let file = TableFile::open(alloc, disk, name.as_str(), *table)?;
        files.push(file)?;
    }
    Ok(files)
}

/// Reads the home of the keyspace of this id: its records, and the ends of the tables that the last of them names. No
/// block is read, and nothing on the disk is changed.
///
/// Refuses with `Storage(RecordDamaged)` where no whole record stands, or a whole one contradicts itself; with
/// `Storage(TableDamaged)` where a table that the last record names is missing, has another length or count than this
/// says, or a wrong footer or index; with `OutOfMemory`; and with `Io` for a fault of the disk.
pub fn read_home<D: Disk>(alloc: Global, disk: &mut D, id: u64) -> Result<LoadedHome>
    // What it answers is the home that is there.
    ensures loaded { IsTrue D.honest → IfOk result (IsLoaded (seen (D.meaning disk.old)) id) }
    // It refuses one that isn't right, or for a fault, or for want of memory, and nothing else.
    ensures refused { IsTrue D.honest
        → IfErr result (IsRefusal (seen (D.meaning disk.old)) id (D.meaning disk.old).faults (D.meaning disk.new).faults) }
    ensures same { IsTrue D.honest → Took (D.meaning disk.old) (D.meaning disk.new) [] }
    ensures served { IsTrue D.honest → AllServed (D.meaning disk.old) (D.meaning disk.new) }
    ensures later { (D.meaning disk.old).faults ≤ (D.meaning disk.new).faults }
    ensures listed { IfErr result (IsHomeRefusal (D.meaning disk.old).faults (D.meaning disk.new).faults) }
{
    let Last { record, end, len } = read_last(alloc, disk, id)?;
    let tables = open_tables(alloc, disk, id, &record.tables)?;
    Ok(LoadedHome {
        id,
        record,
        end,
        len,
        tables,
    })
}
