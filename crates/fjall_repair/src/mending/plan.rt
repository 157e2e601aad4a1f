//! What is to be done to a folder, by name, all of it in memory before the disk is changed.

ghost use Rattle.std.specs.Prelude.{◌≡◌, ◌∷◌, IfOk, IsOkUnless, map, string_bytes};
ghost use Rattle.fjall_repair.specs.Steps.{IsMendPlan, active_of, end_of, folder_names, home_end, tree_end, whole_names};

use fjall_base::{Error, Result};
use fjall_files::{KEYSPACES_FOLDER, MARKER_FILE, current_name, journal_name, keyspace_folder};
use fjall_manifest::{LoadedCatalog, LoadedHome};
use fjall_recovery::RecoveredFolder;
use std::alloc::Global;

/// A file, and where it is to end.
#[derive(Drop)]
pub struct FileEnd {
    /// Its name.
    pub name: String,
    /// Whether bytes stand behind the end, which are to be cut.
    pub cut: bool,
    /// Where all that counts ends.
    pub len: usize,
}

/// What is to be done to a folder. The root isn't named.
#[derive(Drop)]
pub struct MendPlan {
    /// The file of the active journal.
    pub active: String,
    /// The folders whose names are to be synced.
    pub folders: Vec<String>,
    /// The files that are whole, and are to be synced.
    pub whole: Vec<String>,
    /// The files at whose end something may be unfinished.
    pub ends: Vec<FileEnd>,
}

/// The id of the active journal: the last one, and 1 where there is no journal.
pub fn active_id(ids: &[u64]) -> u64
    ensures { result ≡ active_of ids.now }
{
    match ids {
        [.., active] => *active,
        [] => 1,
    }
}

/// The folders of all keyspaces, of tree 0 and of these keyspaces.
fn folders_of(alloc: Global, homes: &[LoadedHome]) -> Result<Vec<String>>
    ensures names { IfOk result (λ folders. map string_bytes folders.items ≡ folder_names (map (λ h. h.id) homes.now)) }
    ensures only { IsOkUnless result Error.OutOfMemory }
{
    let mut folders = Vec::new(alloc);
    folders.push(String::from_str(alloc, KEYSPACES_FOLDER)?)?;
    folders.push(keyspace_folder(alloc, 0)?)?;
    for home in homes {
        folders.push(keyspace_folder(alloc, home.id)?)?;
    }
    Ok(folders)
}

/// The marker, and the sealed ones of these journals.
fn whole_files(alloc: Global, ids: &[u64]) -> Result<Vec<String>>
    ensures names { IfOk result (λ files. map string_bytes files.items ≡ whole_names ids.now) }
    ensures only { IsOkUnless result Error.OutOfMemory }
{
    let mut files = Vec::new(alloc);
    files.push(String::from_str(alloc, MARKER_FILE)?)?;
    if let [sealed @ .., _] = ids {
        for id in sealed {
            files.push(journal_name(alloc, *id)?)?;
        }
    }
    Ok(files)
}

/// The end of the records of this keyspace.
fn end_of_home(alloc: Global, home: &LoadedHome) -> Result<FileEnd>
    ensures end { IfOk result (λ end. end_of end ≡ home_end home.now) }
    ensures only { IsOkUnless result Error.OutOfMemory }
{
    Ok(FileEnd {
        name: current_name(alloc, home.id)?,
        cut: home.end < home.len,
        len: home.end,
    })
}

/// These two ends, and those of the records of these keyspaces.
fn ends_of(
    alloc: Global,
    journal: FileEnd,
    tree: FileEnd,
    homes: &[LoadedHome],
) -> Result<Vec<FileEnd>>
    ensures ends { IfOk result (λ ends. map end_of ends.items ≡ end_of journal ∷ end_of tree ∷ map home_end homes.now) }
    ensures only { IsOkUnless result Error.OutOfMemory }
{
    let mut ends = Vec::new(alloc);
    ends.push(journal)?;
    ends.push(tree)?;
    for home in homes {
        ends.push(end_of_home(alloc, home)?)?;
    }
    Ok(ends)
}

/// The end of tree 0's records.
fn end_of_tree(alloc: Global, catalog: &LoadedCatalog) -> Result<FileEnd>
    ensures end { IfOk result (λ end. end_of end ≡ tree_end catalog.now) }
    ensures only { IsOkUnless result Error.OutOfMemory }
{
    Ok(FileEnd {
        name: current_name(alloc, 0)?,
        cut: catalog.is_torn,
        len: catalog.end,
    })
}

/// What is to be done to the folder that was read.
pub fn plan_of(alloc: Global, found: &RecoveredFolder) -> Result<MendPlan>
    ensures plan { IfOk result (IsMendPlan found.now (tree_end found.now.catalog)) }
    ensures only { IsOkUnless result Error.OutOfMemory }
{
    let active = active_id(&found.journal_ids);
    let journal = FileEnd {
        name: journal_name(alloc, active)?,
        cut: found.journals.torn,
        len: found.journals.end,
    };
    let tree = end_of_tree(alloc, &found.catalog)?;
    Ok(MendPlan {
        active: journal_name(alloc, active)?,
        folders: folders_of(alloc, &found.homes)?,
        whole: whole_files(alloc, &found.journal_ids)?,
        ends: ends_of(alloc, journal, tree, &found.homes)?,
    })
}
