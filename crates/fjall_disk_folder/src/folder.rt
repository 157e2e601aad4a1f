//! What is asked of the system for each call of a disk.

ghost use Rattle.std.specs.Prelude.{◌≡◌, ◌<◌, IfOk, IfSome, string_bytes, vec_len};
ghost use Rattle.std.specs.Path.{path_buf_bytes, path_join};
ghost use Rattle.fjall_disk_folder.specs.Names.{AreEntries, entry_name, is_usable, is_usable_folder};
ghost use Rattle.fjall_disk_folder.specs.Refusals.{FailsUnless};

use crate::kept::{KeptFile, KeptFiles};
use crate::names::{check_name, is_usable};
use crate::paths::{is_missing, make_folder, open_file, read_folder, refuse_special, sync_folder};
use fjall_base::DirEntry;
use std::alloc::{AllocError, Global};
use std::fs::{self, File, OpenOptions};
use std::io::{self, ErrorKind, Read};
use std::os::unix::fs::FileExt;
use std::path::PathBuf;

// So many files are kept open at most of those that are written, and of those that are read alone.
const MOST_WRITTEN: usize = 16;

const MOST_READ: usize = 64;

// What was read, or `None` where the system says that no file has the name.
fn found<T: Drop>(answer: io::Result<T>) -> io::Result<Option<T>> {
    match answer {
        Ok(value) => Ok(Some(value)),
        Err(error) if is_missing(&error) || error.kind() == ErrorKind::IsADirectory => Ok(None),
        Err(error) => Err(error),
    }
}

// A change that a missing name leaves out.
fn unless_missing(answer: io::Result<()>) -> io::Result<()> {
    match answer {
        Err(error) if is_missing(&error) => Ok(()),
        answer => answer,
    }
}

// The name, from the root on, of what stands in a folder.
fn entry_name(alloc: Global, folder: &str, entry: &str) -> Result<String, AllocError>
    ensures { IfOk result (λ name. string_bytes name ≡ entry_name folder.now entry.now) }
{
    if folder.is_empty() {
        return String::from_str(alloc, entry);
    }
    let mut name = String::from_str(alloc, folder)?;
    name.push('/')?;
    name.push_str(entry)?;
    Ok(name)
}

// Some bytes of a file; `None` where it ends before.
fn read_part(alloc: Global, file: &File, at: usize, len: usize) -> io::Result<Option<Vec<u8>>> {
    let (size, at) = (file.metadata()?.len(), at as u64);
    if size < at || size - at < len as u64 {
        return Ok(None);
    }
    let mut bytes = vec![in alloc; 0; len]?;
    match file.read_exact_at(bytes.as_mut_slice(), at) {
        Ok(()) => Ok(Some(bytes)),
        Err(error) if error.kind() == ErrorKind::UnexpectedEof => Ok(None),
        Err(error) => Err(error),
    }
}

/// A folder of the file system, by its whole path, with the files that are kept open.
///
/// It uses the system's files alone, of all that the runtime has.
#[derive(Drop)]
pub(crate) struct Folder {
    rt: HostRuntime,
    alloc: Global,
    path: PathBuf,
    // those that are open for changes
    written: KeptFiles,
    // those that are open for reading alone: to close one loses nothing, so that no read has to sync
    read: KeptFiles,
}

impl Folder {
    /// The folder of this whole path, with no file open.
    pub(crate) fn new(rt: HostRuntime, alloc: Global, path: PathBuf) -> Result<Folder, AllocError> {
        Ok(Folder {
            rt,
            alloc,
            path,
            written: KeptFiles::new(alloc, MOST_WRITTEN)?,
            read: KeptFiles::new(alloc, MOST_READ)?,
        })
    }

    // Refuses a name that leads over something else than folders and files below the root: what stands behind a link isn't the folder's.
    fn check_parts(&self, name: &str) -> io::Result<()> {
        let mut at = self.path.to_path_buf(self.alloc)?;
        for part in name.split('/') {
            at.push(part)?;
            refuse_special(&self.rt, at.as_path())?;
        }
        Ok(())
    }

    // The path of a file or folder below the root.
    fn path(&self, name: &str) -> io::Result<PathBuf>
        ensures refused { FailsUnless (is_usable name.now) result }
        ensures path { IfOk result (λ path. path_buf_bytes path ≡ path_join (path_buf_bytes self.now.path) name.now) }
    {
        check_name(name)?;
        self.check_parts(name)?;
        Ok(self.path.join(self.alloc, name)?)
    }

    // The path of a folder, which may be the root.
    fn folder_path(&self, name: &str) -> io::Result<PathBuf>
        ensures refused { FailsUnless (is_usable_folder name.now) result }
    {
        if name.is_empty() {
            return Ok(self.path.to_path_buf(self.alloc)?);
        }
        self.path(name)
    }

    // The place among the written files of one that is open for changes; it is made where that is asked for.
    fn open(&mut self, name: &str, makes: bool) -> io::Result<usize>
        ensures refused { FailsUnless (is_usable name.now) result }
        ensures place { IfOk result (λ i. i < vec_len self.new.written.files) }
    {
        check_name(name)?;
        if let Some(i) = self.written.reuse(name) {
            return Ok(i);
        }
        self.written.make_room()?;
        let path = self.path(name)?;
        let name = String::from_str(self.alloc, name)?;
        let mut options = OpenOptions::new();
        options.read(true).append(true).create(makes);
        let file = open_file(&self.rt, &options, path.as_path())?;
        self.written.keep(KeptFile {
            name,
            file,
            is_synced: true,
        })
    }

    // A file that is there, opened for reading.
    fn find_file(&self, name: &str) -> io::Result<Option<File>>
        ensures refused { FailsUnless (is_usable name.now) result }
    {
        let path = self.path(name)?;
        match found(File::open(&self.rt, path))? {
            Some(file) if file.metadata()?.is_file() => Ok(Some(file)),
            _ => Ok(None),
        }
    }

    // The place among the files that are read of one that is there.
    fn open_read(&mut self, name: &str) -> io::Result<Option<usize>>
        ensures refused { FailsUnless (is_usable name.now) result }
        ensures place { IfOk result (λ found. IfSome found (λ i. i < vec_len self.new.read.files)) }
    {
        check_name(name)?;
        if let Some(i) = self.read.reuse(name) {
            return Ok(Some(i));
        }
        self.read.make_room()?;
        let Some(file) = self.find_file(name)? else {
            return Ok(None);
        };
        let name = String::from_str(self.alloc, name)?;
        let place = self.read.keep(KeptFile {
            name,
            file,
            is_synced: true,
        })?;
        Ok(Some(place))
    }

    pub(crate) fn read(&mut self, alloc: Global, name: &str) -> io::Result<Option<Vec<u8>>>
        ensures refused { FailsUnless (is_usable name.now) result }
    {
        let path = self.path(name)?;
        found(fs::read(&(self.rt, alloc), path))
    }

    pub(crate) fn read_at(
        &mut self,
        alloc: Global,
        name: &str,
        at: usize,
        len: usize,
    ) -> io::Result<Option<Vec<u8>>>
        ensures refused { FailsUnless (is_usable name.now) result }
    {
        check_name(name)?;
        if let Some(i) = self.written.reuse(name) {
            return read_part(alloc, &self.written.files[i].file, at, len);
        }
        match self.open_read(name)? {
            Some(i) => read_part(alloc, &self.read.files[i].file, at, len),
            None => Ok(None),
        }
    }

    pub(crate) fn list(&mut self, alloc: Global, name: &str) -> io::Result<Vec<DirEntry>>
        ensures refused { FailsUnless (is_usable_folder name.now) result }
        ensures listed { IfOk result (λ listed. AreEntries name.now listed.items) }
    {
        let mut listed = Vec::new(alloc);
        let Some(entries) = found(read_folder(&self.rt, self.folder_path(name)?.as_path()))? else {
            return Ok(listed);
        };
        for entry in entries {
            let entry = match entry {
                Ok(entry) => entry,
                Err(error) if error.kind() == ErrorKind::InvalidFilename => continue,
                Err(error) => return Err(error),
            };
            let full = entry_name(alloc, name, entry.file_name())?;
            if is_usable(full.as_str()) {
                let is_folder = entry.file_type()?.is_dir();
                listed.push(DirEntry {
                    name: full,
                    is_folder,
                })?;
            }
        }
        Ok(listed)
    }

    pub(crate) fn create(&mut self, name: &str) -> io::Result<()>
        ensures refused { FailsUnless (is_usable name.now) result }
    {
        self.open(name, true)?;
        Ok(())
    }

    pub(crate) fn append(&mut self, name: &str, bytes: &[u8]) -> io::Result<()>
        ensures refused { FailsUnless (is_usable name.now) result }
    {
        let i = self.open(name, false)?;
        self.written.files[i].append(bytes)
    }

    pub(crate) fn sync(&mut self, name: &str) -> io::Result<()>
        ensures refused { FailsUnless (is_usable name.now) result }
    {
        let i = self.open(name, false)?;
        self.written.files[i].sync()
    }

    pub(crate) fn cut_sync(&mut self, name: &str, len: usize) -> io::Result<()>
        ensures refused { FailsUnless (is_usable name.now) result }
    {
        let i = self.open(name, false)?;
        self.written.files[i].cut_sync(len)
    }

    pub(crate) fn remove(&mut self, name: &str) -> io::Result<()>
        ensures refused { FailsUnless (is_usable name.now) result }
    {
        unless_missing(fs::remove_file(&self.rt, self.path(name)?))?;
        self.written.forget(name);
        self.read.forget(name);
        Ok(())
    }

    /// What has no name for a list stays, and the folder with it: for the disk nothing is there.
    pub(crate) fn remove_folder(&mut self, name: &str) -> io::Result<()>
        ensures refused { FailsUnless (is_usable name.now) result }
    {
        let path = self.path(name)?;
        let Err(error) = fs::remove_dir(&self.rt, path.as_str()) else {
            return Ok(());
        };
        match error.kind() {
            ErrorKind::NotFound => Ok(()),
            // a file that has the name, and a file in place of a folder above it, are told apart
            ErrorKind::NotADirectory if !path.exists(&self.rt) => Ok(()),
            ErrorKind::DirectoryNotEmpty if self.list(self.alloc, name)?.is_empty() => Ok(()),
            _ => Err(error),
        }
    }

    pub(crate) fn make_folder(&mut self, name: &str) -> io::Result<()>
        ensures refused { FailsUnless (is_usable name.now) result }
    {
        make_folder(&self.rt, self.path(name)?.as_path())
    }

    pub(crate) fn sync_folder(&mut self, name: &str) -> io::Result<()>
        ensures refused { FailsUnless (is_usable_folder name.now) result }
    {
        sync_folder(&self.rt, self.folder_path(name)?.as_path())
    }
}
