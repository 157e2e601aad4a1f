//! What the last record of tree 0 says.

ghost use Rattle.std.specs.Prelude.{◌≡◌, ◌<◌, ◌^◌, IfOk, OnOk, IfErr, IsOkUnless, Option, length};
ghost use Rattle.fjall_base.specs.declared.error.Error.TheVariants.{Storage};
ghost use Rattle.fjall_base.specs.declared.error.StorageError.TheVariants.{RecordDamaged};
ghost use Rattle.fjall_manifest.specs.Records.{view, record_text, Fits, IsRecord};
ghost use Rattle.fjall_manifest.specs.Catalog.{fields, listed, first_catalog, first_of, IsAtLevel1};

use crate::record::Record;
use fjall_base::{Error, Result, StorageError};
use fjall_table::{Level, TableInfo};
use std::alloc::Global;

/// What the last record of tree 0 says, but for its clears, of which it has none.
#[derive(Clone, Copy, Debug, PartialEq, Eq)]
pub struct Catalog {
    /// The number of the last change of the keyspaces, which need not be replayed.
    pub persisted: Option<u64>,
    /// The same number.
    pub highest: Option<u64>,
    /// The id that the next table of tree 0 gets. Ids are never used again.
    pub next_table_id: u64,
    /// The id that the next keyspace gets.
    pub next_keyspace_id: u64,
    /// The one table, at level 1, which has the pairs of all keyspaces; none where no keyspace lives.
    pub table: Option<TableInfo>,
}

impl Catalog {
    /// The catalog of a folder that is new: no keyspace lives, and none has lived.
    pub fn new() -> Catalog
        ensures { result ≡ first_catalog }
    {
        Catalog {
            persisted: None,
            highest: None,
            next_table_id: 1,
            next_keyspace_id: 1,
            table: None,
        }
    }

    fn to_record(&self, alloc: Global) -> Result<Record>
        ensures says { IfOk result (λ r. view r ≡ fields self.now) }
        ensures only { IsOkUnless result Error.OutOfMemory }
    {
        let mut tables = Vec::new(alloc);
        if let Some(table) = self.table {
            tables.push(table)?;
        }
        Ok(Record {
            persisted: self.persisted,
            highest: self.highest,
            next_table_id: self.next_table_id,
            next_keyspace_id: self.next_keyspace_id,
            tables,
            clears: Vec::new(alloc),
        })
    }

    /// The text of its record. It allocates, and fails where memory is used up. The formats page has the layout.
    pub fn encode(&self, alloc: Global) -> Result<Vec<u8>>
        ensures text { IfOk result (λ bytes. bytes.items ≡ record_text (fields self.now)) }
        ensures fits { OnOk result (Fits (fields self.now)) }
        ensures only { IsOkUnless result Error.OutOfMemory }
    {
        let record = self.to_record(alloc)?;
        let mut bytes = Vec::new(alloc);
        record.encode_into(&mut bytes)?;
        Ok(bytes)
    }
}

/// The one table of a list, at level 1, or none. Another list is `Storage(RecordDamaged)`.
fn only_table(tables: &[TableInfo]) -> Result<Option<TableInfo>>
    ensures ok { IfOk result (λ table. (listed table ≡ tables.now) × IsAtLevel1 table) }
    ensures damaged { IfErr result (λ e. (e ≡ Storage RecordDamaged) × ((table : Option TableInfo) → listed table ≡ tables.now → IsAtLevel1 table → ⊥)) }
{
    match tables {
        [] => Ok(None),
        [table] if table.level == Level::L1 => Ok(Some(*table)),
        _ => Err(Error::Storage(StorageError::RecordDamaged)),
    }
}

/// The catalog that a record is of. More than one table, one at level 0, or any clear is `Storage(RecordDamaged)`.
pub(crate) fn catalog_of(last: &Record) -> Result<Catalog>
    ensures ok { IfOk result (λ c. (fields c ≡ view last.now) × IsAtLevel1 c.table) }
    ensures damaged { IfErr result (λ e. (e ≡ Storage RecordDamaged) × ((c : Catalog) → fields c ≡ view last.now → IsAtLevel1 c.table → ⊥)) }
{
    let table = only_table(&last.tables)?;
    if !last.clears.is_empty() {
        return Err(Error::Storage(StorageError::RecordDamaged));
    }
    Ok(Catalog {
        persisted: last.persisted,
        highest: last.highest,
        next_table_id: last.next_table_id,
        next_keyspace_id: last.next_keyspace_id,
        table,
    })
}

/// The text of tree 0's first record, 55 bytes. It allocates, and fails where memory is used up.
pub fn first_record(alloc: Global) -> Result<Vec<u8>>
    ensures text { IfOk result (λ bytes. bytes.items ≡ record_text (fields first_catalog)) }
    ensures len { IfOk result (λ bytes. length bytes.items ≡ 55) }
    ensures is { IsRecord (fields first_catalog) }
    ensures only { IsOkUnless result Error.OutOfMemory }
{
    Catalog::new().encode(alloc)
}

/// The text of the first record of a keyspace that the change of this number made, 55 bytes. It allocates, and fails
/// where memory is used up.
pub fn first_record_of(alloc: Global, number: u64) -> Result<Vec<u8>>
    ensures text { IfOk result (λ bytes. bytes.items ≡ record_text (fields (first_of number))) }
    ensures len { IfOk result (λ bytes. length bytes.items ≡ 55) }
    ensures is { number < 2 ^ 63 → IsRecord (fields (first_of number)) }
    ensures only { IsOkUnless result Error.OutOfMemory }
{
    let first = Catalog {
        persisted: None,
        highest: Some(number),
        next_table_id: 1,
        next_keyspace_id: 0,
        table: None,
    };
    first.encode(alloc)
}
