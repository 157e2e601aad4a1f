//! The engine's own files in a keyspace's folder, and whether anything else stands there.

ghost use Rattle.std.specs.Prelude.{◌≡◌, ◌↔◌, ◌<◌, ◌^◌, [], All, IfOk, IfSome, IsOkUnless, IsSome, IsTrue, map, string_bytes};
ghost use Rattle.fjall_base.specs.Disk.{HasCause, Lists, Took, state_in};
ghost use Rattle.fjall_files.specs.Calls.{AllServed};
ghost use Rattle.fjall_files.specs.Names.{keyspace_folder as folder_at};
ghost use Rattle.fjall_files.specs.Own.{AreOwnFiles, HoldsOnlyOwn, IsOwnFile, IsOwnFileName};

use crate::names::keyspace_folder;
use crate::number::parse_number;
use fjall_base::{DirEntry, Disk, Error, Result};
use std::alloc::Global;

/// A keyspace's folder.
#[derive(Drop)]
pub struct ListedFolder {
    /// Its name, as `keyspaces/7`.
    pub name: String,
    /// What stands in it.
    pub entries: Vec<DirEntry>,
}

/// A keyspace's folder in which nothing but the engine's own files stands.
#[derive(Drop)]
pub struct OwnFiles {
    /// Its name, as `keyspaces/7`.
    pub folder: String,
    /// The names of all that stands in it, as `keyspaces/7/current`.
    pub files: Vec<String>,
}

/// Lists the folder of the keyspace of this id. Nothing of the disk changes.
pub fn list_folder<D: Disk>(alloc: Global, disk: &mut D, id: u64) -> Result<ListedFolder>
    ensures name { IfOk result (λ l. string_bytes l.name ≡ folder_at id) }
    ensures found { IsTrue D.honest → IfOk result (λ l. Lists (state_in (D.meaning disk.old)) (folder_at id) l.entries.items) }
    ensures fits { id < 2 ^ 64 }
    ensures same { IsTrue D.honest → Took (D.meaning disk.old) (D.meaning disk.new) [] }
    ensures served { IsTrue D.honest → AllServed (D.meaning disk.old) (D.meaning disk.new) }
    ensures cause { HasCause (D.meaning disk.old) (D.meaning disk.new) result }
{
    let name = keyspace_folder(alloc, id)?;
    let entries = disk.list(alloc, name.as_str())?;
    Ok(ListedFolder { name, entries })
}

/// The names of these entries.
fn names_of(alloc: Global, listed: Vec<DirEntry>) -> Result<Vec<String>>
    ensures names { IfOk result (λ names. names.items ≡ map (λ entry. entry.name) listed.items) }
    ensures only { IsOkUnless result Error.OutOfMemory }
{
    let names = listed.into_iter().map(|entry| entry.name);
    Ok(names.collect(alloc)?)
}

/// Whether the engine calls a file so in a keyspace's folder: the one of its records, or a table.
fn is_own_name(file: &str) -> bool
    ensures { IsTrue result ↔ IsOwnFileName file.now }
{
    let table = file.strip_suffix(".table");
    file == "current" || table.is_some_and(|id| parse_number(id).is_some())
}

/// Whether this entry of a keyspace's folder is one of the engine's own files.
fn is_own(folder: &str, entry: &DirEntry) -> bool
    ensures { IsTrue result ↔ IsOwnFile folder.now entry.now }
{
    let Some(inside) = entry.name.strip_prefix(folder) else {
        return false;
    };
    match inside.strip_prefix('/') {
        Some(file) => !entry.is_folder && is_own_name(file),
        None => false,
    }
}

/// Whether all that stands in a keyspace's folder are the engine's own files.
fn holds_only_own(folder: &ListedFolder) -> bool
    ensures { IsTrue result ↔ All (IsOwnFile (string_bytes folder.now.name)) folder.now.entries.items }
{
    folder
        .entries
        .iter()
        .all(|entry| is_own(&folder.name, entry))
}

/// The folder of this id, with the names of all that stands in it, where these are files with the engine's own names:
/// `current`, or a table's. `None` where anything else stands there, as `keyspaces/7/notes`.
///
/// Nothing of the disk changes. A folder that isn't there holds nothing. `OutOfMemory` and `Io` come as ever.
pub fn list_own_files<D: Disk>(alloc: Global, disk: &mut D, id: u64) -> Result<Option<OwnFiles>>
    ensures own { IsTrue D.honest → IfOk result (λ found. IfSome found (AreOwnFiles (state_in (D.meaning disk.old)) id)) }
    ensures exact { IsTrue D.honest → IfOk result (λ found. IsSome found ↔ HoldsOnlyOwn (state_in (D.meaning disk.old)) id) }
    ensures fits { id < 2 ^ 64 }
    ensures same { IsTrue D.honest → Took (D.meaning disk.old) (D.meaning disk.new) [] }
    ensures served { IsTrue D.honest → AllServed (D.meaning disk.old) (D.meaning disk.new) }
    ensures cause { HasCause (D.meaning disk.old) (D.meaning disk.new) result }
{
    let folder = list_folder(alloc, disk, id)?;
    if !holds_only_own(&folder) {
        return Ok(None);
    }
    let files = names_of(alloc, folder.entries)?;
    Ok(Some(OwnFiles {
        folder: folder.name,
        files,
    }))
}
