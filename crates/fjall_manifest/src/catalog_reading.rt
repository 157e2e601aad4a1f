//! The catalog as it stands on the disk.

ghost use Rattle.std.specs.Prelude.{◌≡◌, ◌<◌, ◌≤◌, ◌↔◌, [], List, IfOk, IfErr, IsTrue, MatchResult, length};
ghost use Rattle.fjall_base.specs.declared.error.StorageError.TheVariants.{RecordDamaged};
ghost use Rattle.fjall_base.specs.Errors.{IsFaultOrMemory};
ghost use Rattle.fjall_base.specs.Disk.{Took};
ghost use Rattle.fjall_table.specs.Reading.{DamagedWhere};
ghost use Rattle.fjall_manifest.specs.Records.{Fields, IsRecords};
ghost use Rattle.fjall_meta.specs.Keyspaces.{Keyspaces};
ghost use Rattle.fjall_manifest.specs.Catalog.{records_in, HoldsEntries, Says, IsAtLevel1};
ghost use Rattle.fjall_manifest.specs.Refusals.{HasLast, HasNoLast, IsRefusal, IsTableRefused, IsFaultIfIo, IsCatalogRefusal};
ghost use Rattle.fjall_files.specs.Calls.{seen, AllServed};

use crate::catalog::{Catalog, catalog_of};
use crate::current::{Current, read_current};
use crate::table::decode_entries;
use fjall_base::{Disk, Error, Result, StorageError};
use fjall_files::{TREE_RECORDS, table_name};
use fjall_meta::{MetaEntry, MetaKeyspace};
use fjall_table::TableInfo;
use std::alloc::Global;

/// What tree 0 says.
#[derive(Drop)]
pub struct LoadedCatalog {
    pub catalog: Catalog,
    /// The keyspaces that live.
    pub keyspaces: MetaKeyspace,
    /// Where the whole records end.
    pub end: usize,
    /// Whether bytes stand behind them, which an append left that was cut short.
    pub is_torn: bool,
}

/// The last record of tree 0 and where the whole records end.
#[derive(Drop)]
struct Last {
    catalog: Catalog,
    end: usize,
    is_torn: bool,
}

/// The last of the records in these bytes. Where no whole record stands there, or one contradicts itself, it is
/// `Storage(RecordDamaged)`.
fn last_record(alloc: Global, bytes: &[u8]) -> Result<Last>
    ensures last { IfOk result (λ last. HasLast bytes.now last.catalog) }
    ensures end { IfOk result (λ last. (records : List Fields) × IsRecords bytes.now records last.end) }
    ensures torn { IfOk result (λ last. IsTrue last.is_torn ↔ (last.end < length bytes.now)) }
    ensures damaged { IfErr result (DamagedWhere RecordDamaged (HasNoLast bytes.now)) }
{
    let Current { record, end } = read_current(alloc, bytes)?;
    let Some(record) = record else {
        return Err(Error::Storage(StorageError::RecordDamaged));
    };
    Ok(Last {
        catalog: catalog_of(&record)?,
        end,
        is_torn: end < bytes.len(),
    })
}

/// The pairs of the table that the record names, and none where it names none.
fn read_entries<D: Disk>(
    alloc: Global,
    disk: &mut D,
    table: Option<TableInfo>,
) -> Result<Vec<MetaEntry>>
    requires { IsAtLevel1 table }
    ensures ok { IsTrue D.honest → IfOk result (λ entries. HoldsEntries (seen (D.meaning disk.old)) table entries.items) }
    ensures same { IsTrue D.honest → Took (D.meaning disk.old) (D.meaning disk.new) [] }
    ensures served { IsTrue D.honest → AllServed (D.meaning disk.old) (D.meaning disk.new) }
    ensures refused { IsTrue D.honest
        → IfErr result (IsTableRefused (seen (D.meaning disk.old)) table (D.meaning disk.old).faults (D.meaning disk.new).faults) }
    ensures later { (D.meaning disk.old).faults ≤ (D.meaning disk.new).faults }
    ensures fault { IfErr result (IsFaultIfIo (D.meaning disk.old).faults (D.meaning disk.new).faults) }
    ensures listed { IfErr result IsCatalogRefusal }
{
    let Some(info) = table else {
        return Ok(Vec::new(alloc));
    };
    let name = table_name(alloc, 0, info.id)?;
    let Some(bytes) = disk.read(alloc, name.as_str())? else {
        return Err(Error::Storage(StorageError::TableDamaged));
    };
    decode_entries(alloc, &bytes, info)
}

/// Reads the catalog: the last record of tree 0, the table that it names, and the keyspaces that this stores. It changes
/// nothing on the disk.
///
/// Refuses with `Storage(RecordDamaged)` where no whole record stands, or a whole one contradicts itself or names two
/// tables, one at level 0 or any clear; with `Storage(TableDamaged)` where the table is missing, has another length or
/// count than the record says, is no table or holds a tombstone; with `Storage(OptionMissing)` and
/// `Storage(OptionInvalid)` as `MetaKeyspace::from_entries`; with `OutOfMemory`; and with `Io` for a fault of the disk.
pub fn read_catalog<D: Disk>(alloc: Global, disk: &mut D) -> Result<LoadedCatalog>
    // What it answers is what the disk says.
    ensures says { IsTrue D.honest → IfOk result (λ found. (records : List Fields) × Says (seen (D.meaning disk.old)) records found.catalog found.keyspaces) }
    // What the disk says is answered, unless the disk fails or memory runs out.
    ensures all { IsTrue D.honest → (records : List Fields) (last : Catalog) (s : Keyspaces) → Says (seen (D.meaning disk.old)) records last s
        → MatchResult result (λ found. (found.catalog ≡ last) × (found.keyspaces ≡ s))
        (IsFaultOrMemory (D.meaning disk.old).faults (D.meaning disk.new).faults) }
    ensures end { IsTrue D.honest → IfOk result (λ found. (records : List Fields) × IsRecords (records_in (seen (D.meaning disk.old))) records found.end) }
    ensures torn { IsTrue D.honest → IfOk result (λ found. IsTrue found.is_torn ↔ (found.end < length (records_in (seen (D.meaning disk.old))))) }
    ensures same { IsTrue D.honest → Took (D.meaning disk.old) (D.meaning disk.new) [] }
    ensures served { IsTrue D.honest → AllServed (D.meaning disk.old) (D.meaning disk.new) }
    ensures refused { IsTrue D.honest → IfErr result (IsRefusal (seen (D.meaning disk.old)) (D.meaning disk.old).faults (D.meaning disk.new).faults) }
    ensures later { (D.meaning disk.old).faults ≤ (D.meaning disk.new).faults }
    ensures fault { IfErr result (IsFaultIfIo (D.meaning disk.old).faults (D.meaning disk.new).faults) }
    ensures listed { IfErr result IsCatalogRefusal }
{
    let Some(bytes) = disk.read(alloc, TREE_RECORDS)? else {
        return Err(Error::Storage(StorageError::RecordDamaged));
    };
    let Last {
        catalog,
        end,
        is_torn,
    } = last_record(alloc, &bytes)?;
    let entries = read_entries(alloc, disk, catalog.table)?;
    let keyspaces = MetaKeyspace::from_entries(alloc, &entries, catalog.next_keyspace_id)?;
    Ok(LoadedCatalog {
        catalog,
        keyspaces,
        end,
        is_torn,
    })
}
