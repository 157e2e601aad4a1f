//! Where something is wrong in a folder that an opening refuses: its parts, looked at one by one. What is told here is for people;
//! why the folder is refused, the report's refusal says.

ghost use Rattle.std.specs.Prelude.{◌≡◌, ◌≤◌, [], IfErr, IsOkUnless, IsTrue};
ghost use Rattle.fjall_base.specs.Disk.{Took};
ghost use Rattle.fjall_files.specs.Calls.{AllServed};
ghost use Rattle.fjall_recovery.specs.Refusals.{HasRisen, IsDue};

use crate::journals::look_at_journal;
use crate::report::{Fault, add_fault, is_fault};
use crate::tables::look_at_tables;
use bytes::Bytes;
use fjall_base::{DirEntry, Disk, Error, Result, StorageError};
use fjall_files::{
    KEYSPACES_FOLDER, MARKER_FILE, Marker, TREE_FOLDER, current_name, journal_name, journals,
    keyspace_folder, keyspaces, read_marker,
};
use fjall_manifest::{LoadedCatalog, Record, read_catalog, read_current};
use fjall_recovery::{is_beyond, read_text};
use std::alloc::Global;
use std::slice;

const RECORD_DAMAGED: Error = Error::Storage(StorageError::RecordDamaged);

/// Looks at the marker. Answers whether the folder is to be looked at as one that was made to its end: a folder without its marker
/// that is refused was written into.
fn look_at_marker<D: Disk>(alloc: Global, disk: &mut D, faults: &mut Vec<Fault>) -> Result<bool>
    ensures same { IsTrue D.honest → Took (D.meaning disk.old) (D.meaning disk.new) [] }
    ensures served { IsTrue D.honest → AllServed (D.meaning disk.old) (D.meaning disk.new) }
    ensures later { (D.meaning disk.old).faults ≤ (D.meaning disk.new).faults }
    ensures risen { IfErr result (HasRisen (D.meaning disk.old).faults (D.meaning disk.new).faults) }
    ensures only { IfErr result (IsDue (λ error. ⊥)) }
{
    let found = disk.read(alloc, MARKER_FILE)?;
    let told = match &found {
        Some(bytes) => read_marker(Some(bytes.as_slice())),
        None => read_marker(None),
    };
    match told {
        Ok(Marker::Whole) => Ok(true),
        Ok(Marker::Unfinished) => {
            add_fault(alloc, faults, MARKER_FILE, None, Error::Unrecoverable)?;
            Ok(false)
        }
        Err(error) => {
            add_fault(alloc, faults, MARKER_FILE, None, error)?;
            Ok(true)
        }
    }
}

/// The ids of the journals in this list of the root, ascending; a file that is named nearly like one is a fault.
fn journal_ids(alloc: Global, listed: &[DirEntry], faults: &mut Vec<Fault>) -> Result<Vec<u64>>
    ensures only { IsOkUnless result Error.OutOfMemory }
{
    let mut ids = Vec::new(alloc);
    for entry in listed {
        match journals(alloc, slice::from_ref(entry)) {
            Ok(mut found) => ids.append(&mut found)?,
            Err(Error::OutOfMemory) => return Err(Error::OutOfMemory),
            Err(error) => add_fault(alloc, faults, entry.name.as_str(), None, error)?,
        }
    }
    ids.sort_unstable();
    Ok(ids)
}

/// Looks at the names in the root, and through its journals, of which the last is active.
fn look_at_root<D: Disk>(alloc: Global, disk: &mut D, faults: &mut Vec<Fault>) -> Result<()>
    ensures same { IsTrue D.honest → Took (D.meaning disk.old) (D.meaning disk.new) [] }
    ensures served { IsTrue D.honest → AllServed (D.meaning disk.old) (D.meaning disk.new) }
    ensures later { (D.meaning disk.old).faults ≤ (D.meaning disk.new).faults }
    ensures risen { IfErr result (HasRisen (D.meaning disk.old).faults (D.meaning disk.new).faults) }
    ensures only { IfErr result (IsDue (λ error. ⊥)) }
{
    let listed = disk.list(alloc, "")?;
    let ids = journal_ids(alloc, &listed, faults)?;
    let mut least = 0;
    for id in &ids {
        let name = journal_name(alloc, *id)?;
        let text = Bytes::from_vec(read_text(alloc, disk, name.as_str())?)?;
        let is_active = ids.last() == Some(id);
        least = look_at_journal(alloc, name.as_str(), &text, is_active, least, faults)?;
    }
    Ok(())
}

/// The ids of the keyspaces that have a folder; a folder that isn't named by an id is a fault.
fn look_at_folders<D: Disk>(
    alloc: Global,
    disk: &mut D,
    faults: &mut Vec<Fault>,
) -> Result<Vec<u64>>
    ensures same { IsTrue D.honest → Took (D.meaning disk.old) (D.meaning disk.new) [] }
    ensures served { IsTrue D.honest → AllServed (D.meaning disk.old) (D.meaning disk.new) }
    ensures later { (D.meaning disk.old).faults ≤ (D.meaning disk.new).faults }
    ensures risen { IfErr result (HasRisen (D.meaning disk.old).faults (D.meaning disk.new).faults) }
    ensures only { IfErr result (IsDue (λ error. ⊥)) }
{
    let listed = disk.list(alloc, KEYSPACES_FOLDER)?;
    folder_ids(alloc, &listed, faults)
}

/// The ids of the keyspaces in this list of `keyspaces`.
fn folder_ids(alloc: Global, listed: &[DirEntry], faults: &mut Vec<Fault>) -> Result<Vec<u64>>
    ensures only { IsOkUnless result Error.OutOfMemory }
{
    let mut ids = Vec::new(alloc);
    for entry in listed {
        match keyspaces(alloc, slice::from_ref(entry)) {
            Ok(mut found) => ids.append(&mut found)?,
            Err(Error::OutOfMemory) => return Err(Error::OutOfMemory),
            Err(error) => add_fault(alloc, faults, entry.name.as_str(), None, error)?,
        }
    }
    Ok(ids)
}

/// Looks at the clears of a keyspace's last record: one beyond the persisted number is a fault.
fn look_at_clears(alloc: Global, file: &str, last: &Record, faults: &mut Vec<Fault>) -> Result<()>
    ensures only { IsOkUnless result Error.OutOfMemory }
{
    let mut clears = last.clears.iter();
    if clears.any(|number| is_beyond(last.persisted, *number)) {
        add_fault(alloc, faults, file, None, RECORD_DAMAGED)?;
    }
    Ok(())
}

/// The last record in a keyspace's `current`, none where there is no whole one or one contradicts itself, which is a fault.
fn last_record(
    alloc: Global,
    file: &str,
    text: &[u8],
    faults: &mut Vec<Fault>,
) -> Result<Option<Record>>
    ensures only { IsOkUnless result Error.OutOfMemory }
{
    match read_current(alloc, text) {
        Ok(current) => {
            if current.record.is_none() {
                add_fault(alloc, faults, file, Some(0), RECORD_DAMAGED)?;
            }
            Ok(current.record)
        }
        Err(error) if is_fault(error) => {
            add_fault(alloc, faults, file, None, error)?;
            Ok(None)
        }
        Err(error) => Err(error),
    }
}

/// Looks at the records of the keyspace of this id, and at the tables that the last of them names.
fn look_at_keyspace<D: Disk>(
    alloc: Global,
    disk: &mut D,
    id: u64,
    faults: &mut Vec<Fault>,
) -> Result<()>
    ensures same { IsTrue D.honest → Took (D.meaning disk.old) (D.meaning disk.new) [] }
    ensures served { IsTrue D.honest → AllServed (D.meaning disk.old) (D.meaning disk.new) }
    ensures later { (D.meaning disk.old).faults ≤ (D.meaning disk.new).faults }
    ensures risen { IfErr result (HasRisen (D.meaning disk.old).faults (D.meaning disk.new).faults) }
    ensures only { IfErr result (IsDue (λ error. ⊥)) }
{
    let name = current_name(alloc, id)?;
    let text = read_text(alloc, disk, name.as_str())?;
    let Some(last) = last_record(alloc, name.as_str(), &text, faults)? else {
        return Ok(());
    };
    look_at_clears(alloc, name.as_str(), &last, faults)?;
    let mut more = look_at_tables(alloc, disk, id, &last.tables)?;
    faults.append(&mut more)?;
    Ok(())
}

/// Looks at tree 0: a keyspace made under a number that its last record doesn't know is a fault, and so is a tree that isn't read.
fn look_at_tree<D: Disk>(
    alloc: Global,
    disk: &mut D,
    faults: &mut Vec<Fault>,
) -> Result<Option<LoadedCatalog>>
    ensures same { IsTrue D.honest → Took (D.meaning disk.old) (D.meaning disk.new) [] }
    ensures served { IsTrue D.honest → AllServed (D.meaning disk.old) (D.meaning disk.new) }
    ensures later { (D.meaning disk.old).faults ≤ (D.meaning disk.new).faults }
    ensures risen { IfErr result (HasRisen (D.meaning disk.old).faults (D.meaning disk.new).faults) }
    ensures only { IfErr result (IsDue (λ error. ⊥)) }
{
    match read_catalog(alloc, disk) {
        Ok(tree) => Ok(Some(tree)),
        Err(error) if is_fault(error) => {
            add_fault(alloc, faults, TREE_FOLDER, None, error)?;
            Ok(None)
        }
        Err(error) => Err(error),
    }
}

/// Looks at tree 0, and at each keyspace that it says lives. The folders that there are have these ids.
fn look_at_keyspaces<D: Disk>(
    alloc: Global,
    disk: &mut D,
    folders: &[u64],
    faults: &mut Vec<Fault>,
) -> Result<()>
    ensures same { IsTrue D.honest → Took (D.meaning disk.old) (D.meaning disk.new) [] }
    ensures served { IsTrue D.honest → AllServed (D.meaning disk.old) (D.meaning disk.new) }
    ensures later { (D.meaning disk.old).faults ≤ (D.meaning disk.new).faults }
    ensures risen { IfErr result (HasRisen (D.meaning disk.old).faults (D.meaning disk.new).faults) }
    ensures only { IfErr result (IsDue (λ error. ⊥)) }
{
    let Some(tree) = look_at_tree(alloc, disk, faults)? else {
        return Ok(());
    };
    for keyspace in tree.keyspaces.living() {
        if folders.contains(&keyspace.id) {
            look_at_keyspace(alloc, disk, keyspace.id, faults)?;
        } else {
            let folder = keyspace_folder(alloc, keyspace.id)?;
            add_fault(alloc, faults, folder.as_str(), None, Error::Unrecoverable)?;
        }
    }
    Ok(())
}

/// Looks for what is wrong in a folder that an opening refuses, part by part: the marker, the names in the root, the journals, the
/// names in `keyspaces`, tree 0, and each keyspace that lives with its tables. Of a folder without its marker the last two aren't
/// looked at.
pub(crate) fn look_for_places<D: Disk>(alloc: Global, disk: &mut D) -> Result<Vec<Fault>>
    ensures same { IsTrue D.honest → Took (D.meaning disk.old) (D.meaning disk.new) [] }
    ensures served { IsTrue D.honest → AllServed (D.meaning disk.old) (D.meaning disk.new) }
    ensures later { (D.meaning disk.old).faults ≤ (D.meaning disk.new).faults }
    ensures risen { IfErr result (HasRisen (D.meaning disk.old).faults (D.meaning disk.new).faults) }
    ensures only { IfErr result (IsDue (λ error. ⊥)) }
{
    let mut faults = Vec::new(alloc);
    let is_whole = look_at_marker(alloc, disk, &mut faults)?;
    look_at_root(alloc, disk, &mut faults)?;
    let folders = look_at_folders(alloc, disk, &mut faults)?;
    if is_whole {
        look_at_keyspaces(alloc, disk, &folders, &mut faults)?;
    }
    Ok(faults)
}
