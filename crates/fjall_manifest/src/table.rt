//! The pairs of the meta keyspace as a table, and back.

ghost use Rattle.std.specs.Prelude.{◌≡◌, ◌++◌, [], ◌∷◌, List, map, IfOk, IfErr, OnOk};
ghost use Rattle.std.specs.List.{flat_map};
ghost use Rattle.fjall_base.specs.declared.error.StorageError.TheVariants.{TableDamaged};
ghost use Rattle.fjall_table.specs.declared.level.Level.TheVariants.{L1};
ghost use Rattle.fjall_table.specs.Reading.{DamagedWhere};
ghost use Rattle.fjall_table.specs.Blocks.{seen, IsOrdered};
ghost use Rattle.fjall_table.specs.Writing.{FollowsEntries};
ghost use Rattle.fjall_meta.specs.Entries.{entries_of, option_entry, option_entries, name_entry, IsAscending};
ghost use Rattle.fjall_manifest.specs.Catalog.{table_entry, IsCatalogTable};
ghost use Rattle.fjall_manifest.specs.Updates.{IsWritingRefusal};

use fjall_base::{Error, Result, Slice, StorageError};
use fjall_meta::{LivingKeyspace, MetaEntry};
use fjall_options::{OPTIONS_BY_NAME, StoredOption, name_key_bytes, put_config_key};
use fjall_table::{Table, TableEntry, TableInfo, TableWriter};
use std::alloc::Global;

/// Adds the pair of an option of the keyspace to a table. Its key is made in the buffer.
fn write_option(
    writer: &mut TableWriter,
    key: &mut Vec<u8>,
    keyspace: &LivingKeyspace,
    option: StoredOption,
) -> Result<()>
    requires { FollowsEntries writer.old (table_entry (option_entry keyspace.now option)) }
    ensures ok { OnOk result (writer.new ≡ writer.old ++ table_entry (option_entry keyspace.now option) ∷ []) }
    ensures cause { IfErr result (IsWritingRefusal (option_entry keyspace.now option ∷ [])) }
{
    key.clear();
    put_config_key(key, keyspace.id, option.name())?;
    writer.write(&TableEntry {
        key,
        number: keyspace.number,
        value: Some(keyspace.options.value(option)),
    })
}

/// Adds the pairs of the keyspace's options to a table.
fn write_options(
    writer: &mut TableWriter,
    key: &mut Vec<u8>,
    keyspace: &LivingKeyspace,
) -> Result<()>
    requires { IsOrdered (writer.old ++ map table_entry (option_entries keyspace.now)) }
    ensures ok { OnOk result (writer.new ≡ writer.old ++ map table_entry (option_entries keyspace.now)) }
    ensures cause { IfErr result (IsWritingRefusal (option_entries keyspace.now)) }
{
    for option in &OPTIONS_BY_NAME {
        write_option(writer, key, keyspace, *option)?;
    }
    Ok(())
}

/// Adds the pairs of the options of all these keyspaces to a table.
fn write_all_options(
    writer: &mut TableWriter,
    key: &mut Vec<u8>,
    keyspaces: &[LivingKeyspace],
) -> Result<()>
    requires { IsOrdered (writer.old ++ map table_entry (flat_map option_entries keyspaces.now)) }
    ensures ok { OnOk result (writer.new ≡ writer.old ++ map table_entry (flat_map option_entries keyspaces.now)) }
    ensures cause { IfErr result (IsWritingRefusal (flat_map option_entries keyspaces.now)) }
{
    for keyspace in keyspaces {
        write_options(writer, key, keyspace)?;
    }
    Ok(())
}

/// Adds the pair of the keyspace's name to a table.
fn write_name(writer: &mut TableWriter, keyspace: &LivingKeyspace) -> Result<()>
    requires { FollowsEntries writer.old (table_entry (name_entry keyspace.now)) }
    ensures ok { OnOk result (writer.new ≡ writer.old ++ table_entry (name_entry keyspace.now) ∷ []) }
    ensures cause { IfErr result (IsWritingRefusal (name_entry keyspace.now ∷ [])) }
{
    writer.write(&TableEntry {
        key: &name_key_bytes(keyspace.id),
        number: keyspace.number,
        value: Some(&keyspace.name),
    })
}

/// Adds the pairs of the names of all these keyspaces to a table.
fn write_all_names(writer: &mut TableWriter, keyspaces: &[LivingKeyspace]) -> Result<()>
    requires { IsOrdered (writer.old ++ map table_entry (map name_entry keyspaces.now)) }
    ensures ok { OnOk result (writer.new ≡ writer.old ++ map table_entry (map name_entry keyspaces.now)) }
    ensures cause { IfErr result (IsWritingRefusal (map name_entry keyspaces.now)) }
{
    for keyspace in keyspaces {
        write_name(writer, keyspace)?;
    }
    Ok(())
}

/// A table in the making that has the pairs of the keyspaces in front and of those behind them, which are by id
/// ascending. A value of more than 4,294,967,295 bytes is `ValueTooLong`.
pub(crate) fn write_keyspaces(
    alloc: Global,
    front: &[LivingKeyspace],
    behind: &[LivingKeyspace],
) -> Result<TableWriter>
    requires { IsAscending (entries_of (front.now ++ behind.now)) }
    ensures ok { IfOk result (λ writer. writer ≡ map table_entry (entries_of (front.now ++ behind.now))) }
    ensures cause { IfErr result (IsWritingRefusal (entries_of (front.now ++ behind.now))) }
{
    let mut writer = TableWriter::new(alloc);
    let mut key = Vec::new(alloc);
    write_all_options(&mut writer, &mut key, front)?;
    write_all_options(&mut writer, &mut key, behind)?;
    write_all_names(&mut writer, front)?;
    write_all_names(&mut writer, behind)?;
    Ok(writer)
}

/// The pair that an entry of a table is. A tombstone is `Storage(TableDamaged)`.
fn entry_of(alloc: Global, version: &TableEntry<'_>) -> Result<MetaEntry>
    ensures ok { IfOk result (λ entry. table_entry entry ≡ seen version.now) }
    ensures damaged { IfErr result (DamagedWhere TableDamaged ((entry : MetaEntry) → table_entry entry ≡ seen version.now → ⊥)) }
{
    let Some(value) = version.value else {
        return Err(Error::Storage(StorageError::TableDamaged));
    };
    Ok(MetaEntry {
        key: Slice::new(alloc, version.key)?,
        value: Slice::new(alloc, value)?,
        number: version.number,
    })
}

/// The pairs that entries of a table are.
fn entries_of(alloc: Global, versions: &[TableEntry<'_>]) -> Result<Vec<MetaEntry>>
    ensures ok { IfOk result (λ entries. map table_entry entries.items ≡ map seen versions.now) }
    ensures damaged { IfErr result (DamagedWhere TableDamaged ((entries : List MetaEntry) → map table_entry entries ≡ map seen versions.now → ⊥)) }
{
    let mut entries = Vec::new(alloc);
    for version in versions {
        entries.push(entry_of(alloc, version)?)?;
    }
    Ok(entries)
}

/// The pairs of the table that a record names, from the bytes of its file. Another length or count of entries than the
/// record says, bytes that are no table, and one that holds a tombstone are `Storage(TableDamaged)`.
pub(crate) fn decode_entries(alloc: Global, bytes: &[u8], info: TableInfo) -> Result<Vec<MetaEntry>>
    requires { info.level ≡ L1 }
    ensures ok { IfOk result (λ entries. IsCatalogTable info bytes.now entries.items) }
    ensures damaged { IfErr result (DamagedWhere TableDamaged ((entries : List MetaEntry) → IsCatalogTable info bytes.now entries → ⊥)) }
{
    let table = Table::open(alloc, bytes, info)?;
    let versions = table.versions()?;
    entries_of(alloc, &versions)
}
