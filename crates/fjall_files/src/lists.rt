//! What the list of a folder tells of journals, keyspaces and tables.

ghost use Rattle.std.specs.Prelude.{◌≡◌, ◌↔◌, ◌⊎◌, ℕ, Any, Contains, Err, IfErr, IfOk, IfSome, IsOkUnless, Ok, Some};
ghost use Rattle.fjall_base.specs.declared.error.Error.{Error};
ghost use Rattle.fjall_files.specs.Lists.{AreIds, IsJournal, IsKeyspace, IsMisnamedFile, IsStrayFolder, IsTableIn};
ghost use Rattle.fjall_files.specs.Names.{keyspace_folder as folder_of};
ghost use Rattle.fjall_files.specs.Sought.{AnyRefuses, Is, RefusesList};

use crate::names::{keyspace_folder, parse_journal_name, parse_keyspace_folder, parse_table_name};
use fjall_base::{DirEntry, Error, JournalRecoveryError, Result};
use std::alloc::Global;

// What a list is looked through for.
#[derive(Clone, Copy)]
enum Sought<'a> {
    Journals,
    Keyspaces,
    // by the name of their folder
    TablesIn(&'a str),
}

// The id of an entry, where it is one of those that are sought.
fn id_of(entry: &DirEntry, sought: Sought) -> Result<Option<u64>>
    ensures spelled { IfOk result (λ found. IfSome found (Is sought.entry entry.now)) }
    ensures all_found { (id : ℕ) → Is sought.entry entry.now id → result ≡ Ok (Some id) }
    ensures refused { IfErr result (RefusesList sought.entry entry.now) }
    ensures all_refused { (error : Error) → RefusesList sought.entry entry.now error → result ≡ Err error }
{
    let name = entry.name.as_str();
    match (sought, entry.is_folder) {
        (Sought::Journals, false) => parse_journal_name(name),
        (Sought::Keyspaces, true) => match parse_keyspace_folder(name) {
            Some(id) => Ok(Some(id)),
            None => Err(Error::Unrecoverable),
        },
        (Sought::TablesIn(folder), false) => Ok(parse_table_name(folder, name)),
        _ => Ok(None),
    }
}

// Refuses a list with an entry that is to be refused. This comes before memory is asked for.
fn check_all(listed: &[DirEntry], sought: Sought) -> Result<()>
    ensures refused { IfErr result (AnyRefuses sought.entry listed.now) }
    ensures all_refused { (error : Error) → AnyRefuses sought.entry listed.now error → result ≡ Err error }
{
    for entry in listed {
        id_of(entry, sought)?;
    }
    Ok(())
}

// The ids in the order of the list.
fn collect(alloc: Global, listed: &[DirEntry], sought: Sought) -> Result<Vec<u64>>
    ensures ids { IfOk result (λ ids. (id : ℕ) → Contains ids.items id ↔ Any (λ entry. Is sought.entry entry id) listed.now) }
    ensures only { IfErr result (λ error. (error ≡ Error.OutOfMemory) ⊎ AnyRefuses sought.entry listed.now error) }
{
    let mut ids = Vec::new(alloc);
    for entry in listed {
        if let Some(id) = id_of(entry, sought)? {
            ids.push(id)?;
        }
    }
    Ok(ids)
}

// The ids of all that is sought, ascending.
fn ids_of(alloc: Global, listed: &[DirEntry], sought: Sought) -> Result<Vec<u64>>
    ensures ids { IfOk result (λ ids. AreIds (Is sought.entry) listed.now ids.items) }
    ensures only { IfErr result (λ error. (error ≡ Error.OutOfMemory) ⊎ AnyRefuses sought.entry listed.now error) }
    ensures all_refused { (error : Error) → AnyRefuses sought.entry listed.now error → result ≡ Err error }
{
    check_all(listed, sought)?;
    let mut ids = collect(alloc, listed, sought)?;
    ids.sort_unstable();
    ids.dedup();
    Ok(ids)
}

/// The ids of the journals in the root, by its list: ascending, each once. Folders are passed over.
///
/// A file whose extension is `jnl`, in whatever case, and that isn't named like a journal has the whole
/// list refused, with `InvalidFileName`.
pub fn journals(alloc: Global, listed: &[DirEntry]) -> Result<Vec<u64>>
    ensures ids { IfOk result (λ ids. AreIds IsJournal listed.now ids.items) }
    ensures refused { result ≡ Err (Error.JournalRecovery JournalRecoveryError.InvalidFileName) ↔ Any IsMisnamedFile listed.now }
    ensures only { IfErr result (λ error. (error ≡ Error.JournalRecovery JournalRecoveryError.InvalidFileName) ⊎ (error ≡ Error.OutOfMemory)) }
{
    ids_of(alloc, listed, Sought::Journals)
}

/// The ids of the keyspaces that have a folder, by the list of `keyspaces`: ascending, each once. Files
/// are passed over.
///
/// A folder that isn't named by an id has the whole list refused, with `Unrecoverable`.
pub fn keyspaces(alloc: Global, listed: &[DirEntry]) -> Result<Vec<u64>>
    ensures ids { IfOk result (λ ids. AreIds IsKeyspace listed.now ids.items) }
    ensures refused { result ≡ Err Error.Unrecoverable ↔ Any IsStrayFolder listed.now }
    ensures only { IfErr result (λ error. (error ≡ Error.Unrecoverable) ⊎ (error ≡ Error.OutOfMemory)) }
{
    ids_of(alloc, listed, Sought::Keyspaces)
}

/// The ids of a keyspace's tables, by the list of its folder: ascending, each once. Folders, and files
/// that aren't named like a table, are passed over.
pub fn tables(alloc: Global, id: u64, listed: &[DirEntry]) -> Result<Vec<u64>>
    ensures ids { IfOk result (λ tables. AreIds (IsTableIn (folder_of id)) listed.now tables.items) }
    ensures only { IsOkUnless result Error.OutOfMemory }
{
    let folder = keyspace_folder(alloc, id)?;
    ids_of(alloc, listed, Sought::TablesIn(folder.as_str()))
}
