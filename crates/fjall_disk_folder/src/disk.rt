//! The disk over a folder of the file system.

ghost use Rattle.std.specs.Prelude.{◌≡◌, false, refl, IfErr, IfOk};
ghost use Rattle.fjall_base.specs.Disk.{HasCause, OnlyFaults};
ghost use Rattle.fjall_disk_folder.specs.Names.{AreEntries, is_usable, is_usable_folder};
ghost use Rattle.fjall_disk_folder.specs.Refusals.{CountsChange, CountsRead, IsFolderRefusal, RefusesUnless, meaning_of};

use crate::faults::{Faults, refusal};
use crate::folder::Folder;
use crate::lock::LockedFileGuard;
use crate::names::LOCK;
use crate::paths::make_folders;
use fjall_base::{DirEntry, Disk, Error, Result};
use std::alloc::Global;

/// A disk over a folder of the file system, which it has to itself while it lives.
///
/// Contracts know of it which names it refuses, its faults and their count, and nothing of what it holds:
/// that it holds what it was given is up to the system.
///
/// A name that leads to nothing below the folder is a fault, `Error::Io(InvalidInput)`, and the system isn't
/// asked: one with a part that is empty, `.` or `..`. So is `lock`, the disk's own file, which no list tells
/// of. A name that leads over a link below the folder is a fault too, `Error::Io(FilesystemLoop)`: what the
/// link leads to isn't the folder's. So is that of a pipe, a socket or a device, `Error::Io(Unsupported)`. Lists
/// tell all of these as files, and pass over names that aren't UTF-8: what has such a name stays where it is,
/// and a folder that holds nothing else counts as empty, and stays too where it is removed.
///
/// A file that was made or appended to stays open, 16 at most, so that an append is one `write` and a sync
/// one `fdatasync`; so does one of which parts are read, 64 at most, so that a part is one `pread` after a look
/// at the file's length. The folder's path is found once: a later change of the working directory doesn't matter.
///
/// Want of memory is a fault in a call that changes something, as its trait wants it.
pub struct FolderDisk {
    folder: Folder,
    faults: Faults,
    // dropped last, so that no file is open any more when another owner gets the folder
    lock: LockedFileGuard,
}

// Written out, so that no crate above proves the drop of what it owns anew.
impl Drop for FolderDisk {
    fn drop(self) {
        let FolderDisk {
            folder: _,
            faults: _,
            lock: _,
        } = self;
    }
}

impl FolderDisk {
    /// Makes the folder where it is missing, with those above it, and takes its lock, which is that of the
    /// file `lock` in it and is given back where the disk is dropped. A link to the folder is followed.
    ///
    /// Each folder's name is synced before the next one is made, so the folder above the first missing one must
    /// be readable. Where the last that is there is empty, its own name is synced too: an opening that was cut
    /// off may have made it.
    ///
    /// It fails with `Error::Locked` where the folder is open already, here or in another process, the lock
    /// having been asked for three times, with `Error::Io` where the system fails, as for an empty path or
    /// that of a file, and with `Error::OutOfMemory`.
    pub fn open(rt: &HostRuntime, alloc: Global, path: &str) -> Result<FolderDisk>
        ensures cause { IfErr result IsFolderRefusal }
        ensures faults { IfOk result (λ disk. disk.faults.count ≡ 0) }
    {
        let path = make_folders(rt, path).map_err(refusal)?;
        let lock_path = path.join(alloc, LOCK)?;
        let lock = LockedFileGuard::lock(rt, lock_path.as_path())?;
        Ok(FolderDisk {
            folder: Folder::new(*rt, alloc, path)?,
            faults: Faults { count: 0 },
            lock,
        })
    }
}

impl Disk for FolderDisk {
    ghost honest = { false };

    ghost meaning = { λ disk. meaning_of disk.faults.count };

    fn faults(&self) -> u64 {
        self.faults.count
    }

    fn read(&mut self, alloc: Global, name: &str) -> Result<Option<Vec<u8>>>
        ensures refused { RefusesUnless (is_usable name.now) result }
        ensures counted { CountsRead self.old.faults.count self.new.faults.count result }
        ensures cause { HasCause (meaning_of self.old.faults.count) (meaning_of self.new.faults.count) result }
    {
        let answer = self.folder.read(alloc, name);
        self.faults.of_read(answer)
    }

    fn read_at(
        &mut self,
        alloc: Global,
        name: &str,
        at: usize,
        len: usize,
    ) -> Result<Option<Vec<u8>>>
        ensures refused { RefusesUnless (is_usable name.now) result }
        ensures counted { CountsRead self.old.faults.count self.new.faults.count result }
        ensures cause { HasCause (meaning_of self.old.faults.count) (meaning_of self.new.faults.count) result }
    {
        let answer = self.folder.read_at(alloc, name, at, len);
        self.faults.of_read(answer)
    }

    fn list(&mut self, alloc: Global, folder: &str) -> Result<Vec<DirEntry>>
        ensures refused { RefusesUnless (is_usable_folder folder.now) result }
        ensures listed { IfOk result (λ listed. AreEntries folder.now listed.items) }
        ensures counted { CountsRead self.old.faults.count self.new.faults.count result }
        ensures cause { HasCause (meaning_of self.old.faults.count) (meaning_of self.new.faults.count) result }
    {
        let answer = self.folder.list(alloc, folder);
        self.faults.of_read(answer)
    }

    fn create(&mut self, name: &str) -> Result<()>
        ensures refused { RefusesUnless (is_usable name.now) result }
        ensures counted { CountsChange self.old.faults.count self.new.faults.count result }
        ensures cause { OnlyFaults (meaning_of self.old.faults.count) (meaning_of self.new.faults.count) result }
    {
        let answer = self.folder.create(name);
        self.faults.of_change(answer)
    }

    fn append(&mut self, name: &str, bytes: &[u8]) -> Result<()>
        ensures refused { RefusesUnless (is_usable name.now) result }
        ensures counted { CountsChange self.old.faults.count self.new.faults.count result }
        ensures cause { OnlyFaults (meaning_of self.old.faults.count) (meaning_of self.new.faults.count) result }
    {
        let answer = self.folder.append(name, bytes);
        self.faults.of_change(answer)
    }

    fn sync(&mut self, name: &str) -> Result<()>
        ensures refused { RefusesUnless (is_usable name.now) result }
        ensures counted { CountsChange self.old.faults.count self.new.faults.count result }
        ensures cause { OnlyFaults (meaning_of self.old.faults.count) (meaning_of self.new.faults.count) result }
    {
        let answer = self.folder.sync(name);
        self.faults.of_change(answer)
    }

    fn cut_sync(&mut self, name: &str, len: usize) -> Result<()>
        ensures refused { RefusesUnless (is_usable name.now) result }
        ensures counted { CountsChange self.old.faults.count self.new.faults.count result }
        ensures cause { OnlyFaults (meaning_of self.old.faults.count) (meaning_of self.new.faults.count) result }
    {
        let answer = self.folder.cut_sync(name, len);
        self.faults.of_change(answer)
    }

    fn remove(&mut self, name: &str) -> Result<()>
        ensures refused { RefusesUnless (is_usable name.now) result }
        ensures counted { CountsChange self.old.faults.count self.new.faults.count result }
        ensures cause { OnlyFaults (meaning_of self.old.faults.count) (meaning_of self.new.faults.count) result }
    {
        let answer = self.folder.remove(name);
        self.faults.of_change(answer)
    }

    fn remove_folder(&mut self, name: &str) -> Result<()>
        ensures refused { RefusesUnless (is_usable name.now) result }
        ensures counted { CountsChange self.old.faults.count self.new.faults.count result }
        ensures cause { OnlyFaults (meaning_of self.old.faults.count) (meaning_of self.new.faults.count) result }
    {
        let answer = self.folder.remove_folder(name);
        self.faults.of_change(answer)
    }

    fn make_folder(&mut self, name: &str) -> Result<()>
        ensures refused { RefusesUnless (is_usable name.now) result }
        ensures counted { CountsChange self.old.faults.count self.new.faults.count result }
        ensures cause { OnlyFaults (meaning_of self.old.faults.count) (meaning_of self.new.faults.count) result }
    {
        let answer = self.folder.make_folder(name);
        self.faults.of_change(answer)
    }

    fn sync_folder(&mut self, name: &str) -> Result<()>
        ensures refused { RefusesUnless (is_usable_folder name.now) result }
        ensures counted { CountsChange self.old.faults.count self.new.faults.count result }
        ensures cause { OnlyFaults (meaning_of self.old.faults.count) (meaning_of self.new.faults.count) result }
    {
        let answer = self.folder.sync_folder(name);
        self.faults.of_change(answer)
    }

    ghost housed = { λ disk honest. record { each = λ name some inside. absurd (some refl) } };
}
