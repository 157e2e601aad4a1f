//! Folders of the file system by their paths: made, listed, synced, and told from links.

use std::fs::{self, File, OpenOptions, ReadDir};
use std::io::{self, ErrorKind};
use std::os::fd::AsRawFd;
use std::path::{Path, PathBuf};

// How often a call that signals interrupt is made at most.
const TRIES: u32 = 1000;

/// Opens a file. What is meant for a standard stream that was closed must not land in it, so it gets none
/// of their descriptors.
pub(crate) fn open_file(
    rt: &HostRuntime,
    options: &OpenOptions,
    path: Path<'_>,
) -> io::Result<File> {
    let file = options.open(rt, path)?;
    if file.as_raw_fd() <= 2 {
        return file.try_clone();
    }
    Ok(file)
}

/// Opens a folder to be listed. A signal that comes meanwhile is passed over.
pub(crate) fn read_folder(rt: &HostRuntime, path: Path<'_>) -> io::Result<ReadDir<HostRuntime>> {
    for _ in 0..TRIES {
        match fs::read_dir(rt, path) {
            Err(error) if error.kind() == ErrorKind::Interrupted => {}
            answer => return answer,
        }
    }
    Err(ErrorKind::Interrupted.into())
}

// Opens a folder, so that the names right in it can be synced.
fn open_folder(rt: &HostRuntime, path: Path<'_>) -> io::Result<File> {
    let folder = File::open(rt, path)?;
    if !folder.metadata()?.is_dir() {
        return Err(ErrorKind::NotADirectory.into());
    }
    Ok(folder)
}

/// Syncs the names right in a folder.
pub(crate) fn sync_folder(rt: &HostRuntime, path: Path<'_>) -> io::Result<()> {
    open_folder(rt, path)?.sync_all()
}

/// Makes a folder where none is.
pub(crate) fn make_folder(rt: &HostRuntime, path: Path<'_>) -> io::Result<()> {
    match fs::create_dir(rt, path) {
        Err(error) if error.kind() == ErrorKind::AlreadyExists && is_folder(rt, path) => Ok(()),
        answer => answer,
    }
}

// The folder that stands so many levels above the end of a path: that of the working directory is `.`.
fn folder_above(path: &str, levels: usize) -> Path<'_> {
    let mut at = Path::new(path);
    for _ in 0..levels {
        let Some(above) = at.parent() else {
            return at;
        };
        at = above;
    }
    if levels > 0 && at.as_str().is_empty() {
        return Path::new(".");
    }
    at
}

// How many folders of a path are missing, from its end on.
fn missing_folders(rt: &HostRuntime, path: &str) -> io::Result<usize> {
    for levels in 0..path.len() {
        if folder_above(path, levels).try_exists(rt)? {
            return Ok(levels);
        }
    }
    Ok(path.len())
}

// Syncs the name of a folder that is there, given from the root on, where the folder is empty: an opening that was cut
// off may have made it. It made none right in a folder that mustn't be opened.
fn settle_folder(rt: &HostRuntime, folder: Path<'_>) -> io::Result<()> {
    let Some(above) = folder.parent() else {
        return Ok(());
    };
    if read_folder(rt, folder)?.next().is_some() {
        return Ok(());
    }
    match open_folder(rt, above) {
        Ok(above) => above.sync_all(),
        Err(error) if error.kind() == ErrorKind::PermissionDenied => Ok(()),
        Err(error) => Err(error),
    }
}

/// Makes a folder, and those above it, where they are missing. It answers the path without links and from
/// the root of the file system on.
///
/// Each folder's name is synced before the next one is made, and that of an empty one that is there already, so that a
/// crash leaves the folder, also where an earlier call was cut off. Nothing is made where the path from the root on
/// can't be told, nor in a folder that mustn't be opened, whose names no sync could follow.
pub(crate) fn make_folders(rt: &HostRuntime, path: &str) -> io::Result<PathBuf> {
    let missing = missing_folders(rt, path)?;
    let there = fs::canonicalize(rt, folder_above(path, missing))?;
    settle_folder(rt, there.as_path())?;
    for levels in (0..missing).rev() {
        let above = open_folder(rt, folder_above(path, levels + 1))?;
        make_folder(rt, folder_above(path, levels))?;
        above.sync_all()?;
    }
    fs::canonicalize(rt, path)
}

/// The path without links and from the root of the file system on of a folder that is there. Nothing is made.
pub(crate) fn find_folder(rt: &HostRuntime, path: &str) -> io::Result<PathBuf> {
    let found = fs::canonicalize(rt, path)?;
    if !is_folder(rt, found.as_path()) {
        return Err(ErrorKind::NotADirectory.into());
    }
    Ok(found)
}

/// Whether a folder stands at a path.
pub(crate) fn is_folder(rt: &HostRuntime, path: Path<'_>) -> bool {
    match fs::symlink_metadata(rt, path) {
        Ok(found) => found.is_dir(),
        Err(_) => false,
    }
}

/// Refuses a path at which something else than a file or a folder stands, before the system would wait for it: a link with
/// `FilesystemLoop`, as the system refuses one that isn't to be followed, and a pipe, a socket or a device with `Unsupported`.
pub(crate) fn refuse_special(rt: &HostRuntime, path: Path<'_>) -> io::Result<()> {
    match fs::symlink_metadata(rt, path) {
        Ok(found) if found.is_symlink() => Err(ErrorKind::FilesystemLoop.into()),
        Ok(found) if !found.is_file() && !found.is_dir() => Err(ErrorKind::Unsupported.into()),
        Err(error) if !is_missing(&error) => Err(error),
        _ => Ok(()),
    }
}

/// Whether an error says that nothing stands at a path.
pub(crate) fn is_missing(error: &io::Error) -> bool {
    matches!(error.kind(), ErrorKind::NotFound | ErrorKind::NotADirectory)
}
