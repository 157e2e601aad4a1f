//! Databases that leave nothing.

ghost use Rattle.std.specs.Prelude.{[], IsTrue, OnOk};
ghost use Rattle.fjall_base.specs.Disk.{IsEmpty, state_in};

use fjall_base::{Disk, Error, Result};
use std::alloc::Global;
use std::io::ErrorKind;

// Removes the files of a folder; answers the folders in it.
fn remove_files<D: Disk>(alloc: Global, disk: &mut D, folder: &str) -> Result<Vec<String>> {
    let mut folders = Vec::new(alloc);
    for entry in disk.list(alloc, folder)? {
        if entry.is_folder {
            folders.push(entry.name)?;
        } else {
            disk.remove(entry.name.as_str())?;
        }
    }
    Ok(folders)
}

// Refuses a disk on which anything stands.
fn refuse_rest<D: Disk>(alloc: Global, disk: &mut D) -> Result<()>
    ensures { IsTrue D.honest → OnOk result (IsEmpty (state_in (D.meaning disk.new)) []) }
{
    let left = disk.list(alloc, "")?;
    if left.is_empty() {
        return Ok(());
    }
    Err(Error::Io(ErrorKind::DirectoryNotEmpty))
}

/// Removes all files and folders of a disk, of which an engine makes two levels. Where anything is left it is refused: `Io(DirectoryNotEmpty)`.
pub(crate) fn remove_all<D: Disk>(alloc: Global, disk: &mut D) -> Result<()>
    ensures { IsTrue D.honest → OnOk result (IsEmpty (state_in (D.meaning disk.new)) []) }
{
    for outer in remove_files(alloc, disk, "")? {
        for inner in remove_files(alloc, disk, outer.as_str())? {
            let _ = remove_files(alloc, disk, inner.as_str())?;
            disk.remove_folder(inner.as_str())?;
        }
        disk.remove_folder(outer.as_str())?;
    }
    disk.sync_folder("")?;
    refuse_rest(alloc, disk)
}
