//! The disk over a folder that is there, to be read alone.

ghost use Rattle.std.specs.Prelude.{◌≡◌, false, refl, IfErr, IfOk, Err};
ghost use Rattle.std.specs.declared.io.ErrorKind.TheVariants.{ReadOnlyFilesystem};
ghost use Rattle.fjall_base.specs.declared.error.Error.TheVariants.{Io};
ghost use Rattle.fjall_base.specs.Disk.{HasCause, OnlyFaults};
ghost use Rattle.fjall_disk_folder.specs.Names.{AreEntries, is_usable, is_usable_folder};
ghost use Rattle.fjall_disk_folder.specs.Refusals.{CountsRead, IsFolderRefusal, RefusesUnless, count_after, meaning_of};

use crate::faults::{Faults, refusal};
use crate::folder::Folder;
use crate::lock::LockedFileGuard;
use crate::names::LOCK;
use crate::paths::find_folder;
use fjall_base::{DirEntry, Disk, Result};
use std::alloc::Global;
use std::io::ErrorKind;

/// A disk over a folder that is there, of which not a byte changes: each change is refused with
/// `Error::Io(ReadOnlyFilesystem)`, and the system isn't asked. It reads and lists as a `FolderDisk` does.
#[derive(Drop)]
pub struct FolderReader {
    folder: Folder,
    faults: Faults,
    lock: Option<LockedFileGuard>,
}

impl FolderReader {
    /// Opens a folder that is there, and makes nothing in it, nor above it. It shares the lock of the file `lock` with other
    /// readers, where that file stands; a copy of a folder may have none. A link to the folder is followed.
    ///
    /// It fails with `Error::Locked` where a `FolderDisk` has the folder, here or in another process, with
    /// `Error::Io(NotFound)` where nothing stands at the path and `Error::Io(NotADirectory)` where no folder does, with
    /// `Error::Io` where the system fails, and with `Error::OutOfMemory`.
    pub fn open(rt: &HostRuntime, alloc: Global, path: &str) -> Result<FolderReader>
        ensures cause { IfErr result IsFolderRefusal }
        ensures faults { IfOk result (λ disk. disk.faults.count ≡ 0) }
    {
        let path = find_folder(rt, path).map_err(refusal)?;
        let lock_path = path.join(alloc, LOCK)?;
        let lock = LockedFileGuard::lock_shared(rt, lock_path.as_path())?;
        Ok(FolderReader {
            folder: Folder::new(*rt, alloc, path)?,
            faults: Faults { count: 0 },
            lock,
        })
    }
}

impl Disk for FolderReader {
    ghost honest = { false };

    ghost meaning = { λ disk. meaning_of disk.faults.count };

    fn faults(&self) -> u64 {
        self.faults.count
    }

    fn read(&mut self, alloc: Global, name: &str) -> Result<Option<Vec<u8>>>
        ensures refused { RefusesUnless (is_usable name.now) result }
        ensures counted { CountsRead self.old.faults.count self.new.faults.count result }
        ensures cause { HasCause (meaning_of self.old.faults.count) (meaning_of self.new.faults.count) result }
    {
        let answer = self.folder.read(alloc, name);
        self.faults.of_read(answer)
    }

    fn read_at(
        &mut self,
        alloc: Global,
        name: &str,
        at: usize,
        len: usize,
    ) -> Result<Option<Vec<u8>>>
        ensures refused { RefusesUnless (is_usable name.now) result }
        ensures counted { CountsRead self.old.faults.count self.new.faults.count result }
        ensures cause { HasCause (meaning_of self.old.faults.count) (meaning_of self.new.faults.count) result }
    {
        let answer = self.folder.read_at(alloc, name, at, len);
        self.faults.of_read(answer)
    }

    fn list(&mut self, alloc: Global, folder: &str) -> Result<Vec<DirEntry>>
        ensures refused { RefusesUnless (is_usable_folder folder.now) result }
        ensures listed { IfOk result (λ listed. AreEntries folder.now listed.items) }
        ensures counted { CountsRead self.old.faults.count self.new.faults.count result }
        ensures cause { HasCause (meaning_of self.old.faults.count) (meaning_of self.new.faults.count) result }
    {
        let answer = self.folder.list(alloc, folder);
        self.faults.of_read(answer)
    }

    fn create(&mut self, _name: &str) -> Result<()>
        ensures refused { result ≡ Err (Io ReadOnlyFilesystem) }
        ensures counted { self.new.faults.count ≡ count_after self.old.faults.count }
        ensures cause { OnlyFaults (meaning_of self.old.faults.count) (meaning_of self.new.faults.count) result }
    {
        self.faults
            .of_change(Err(ErrorKind::ReadOnlyFilesystem.into()))
    }

    fn append(&mut self, _name: &str, _bytes: &[u8]) -> Result<()>
        ensures refused { result ≡ Err (Io ReadOnlyFilesystem) }
        ensures counted { self.new.faults.count ≡ count_after self.old.faults.count }
        ensures cause { OnlyFaults (meaning_of self.old.faults.count) (meaning_of self.new.faults.count) result }
    {
        self.faults
            .of_change(Err(ErrorKind::ReadOnlyFilesystem.into()))
    }

    fn sync(&mut self, _name: &str) -> Result<()>
        ensures refused { result ≡ Err (Io ReadOnlyFilesystem) }
        ensures counted { self.new.faults.count ≡ count_after self.old.faults.count }
        ensures cause { OnlyFaults (meaning_of self.old.faults.count) (meaning_of self.new.faults.count) result }
    {
        self.faults
            .of_change(Err(ErrorKind::ReadOnlyFilesystem.into()))
    }

    fn cut_sync(&mut self, _name: &str, _len: usize) -> Result<()>
        ensures refused { result ≡ Err (Io ReadOnlyFilesystem) }
        ensures counted { self.new.faults.count ≡ count_after self.old.faults.count }
        ensures cause { OnlyFaults (meaning_of self.old.faults.count) (meaning_of self.new.faults.count) result }
    {
        self.faults
            .of_change(Err(ErrorKind::ReadOnlyFilesystem.into()))
    }

    fn remove(&mut self, _name: &str) -> Result<()>
        ensures refused { result ≡ Err (Io ReadOnlyFilesystem) }
        ensures counted { self.new.faults.count ≡ count_after self.old.faults.count }
        ensures cause { OnlyFaults (meaning_of self.old.faults.count) (meaning_of self.new.faults.count) result }
    {
        self.faults
            .of_change(Err(ErrorKind::ReadOnlyFilesystem.into()))
    }

    fn remove_folder(&mut self, _name: &str) -> Result<()>
        ensures refused { result ≡ Err (Io ReadOnlyFilesystem) }
        ensures counted { self.new.faults.count ≡ count_after self.old.faults.count }
        ensures cause { OnlyFaults (meaning_of self.old.faults.count) (meaning_of self.new.faults.count) result }
    {
        self.faults
            .of_change(Err(ErrorKind::ReadOnlyFilesystem.into()))
    }

    fn make_folder(&mut self, _name: &str) -> Result<()>
        ensures refused { result ≡ Err (Io ReadOnlyFilesystem) }
        ensures counted { self.new.faults.count ≡ count_after self.old.faults.count }
        ensures cause { OnlyFaults (meaning_of self.old.faults.count) (meaning_of self.new.faults.count) result }
    {
        self.faults
            .of_change(Err(ErrorKind::ReadOnlyFilesystem.into()))
    }

    fn sync_folder(&mut self, _name: &str) -> Result<()>
        ensures refused { result ≡ Err (Io ReadOnlyFilesystem) }
        ensures counted { self.new.faults.count ≡ count_after self.old.faults.count }
        ensures cause { OnlyFaults (meaning_of self.old.faults.count) (meaning_of self.new.faults.count) result }
    {
        self.faults
            .of_change(Err(ErrorKind::ReadOnlyFilesystem.into()))
    }

    ghost housed = { λ disk honest. record { each = λ name some inside. absurd (some refl) } };
}
