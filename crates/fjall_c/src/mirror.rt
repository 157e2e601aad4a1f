//! A disk in memory, whose caller carries out what the disk took: a log keeps each change until it is handed out.

ghost use Rattle.std.specs.Prelude.{◌≡◌, true, IsFalse};
ghost use Rattle.fjall_disk_memory.specs.MemoryDisk.{meaning_in};

pub(crate) mod change;
pub(crate) mod log;

use crate::mirror::change::{Change, ChangeKind};
use crate::mirror::log::Log;
use fjall_base::{DirEntry, Disk, Result};
use fjall_disk_memory::MemoryDisk;
use std::alloc::Global;

/// A disk in memory, whose log keeps each change that it took until its owner has it.
///
/// It is honest: contracts know all that it holds. A folder of the file system holds the same once all that was handed out is
/// carried out there in its order.
///
/// A change for whose keeping memory is wanted fails as a fault, and is not made.
#[derive(Drop)]
pub struct MirrorDisk {
    alloc: Global,
    files: MemoryDisk,
    log: Log,
}

impl MirrorDisk {
    /// A disk that holds what this one does. What it takes from then on is kept in this log.
    pub fn new(alloc: Global, files: MemoryDisk, log: Log) -> MirrorDisk
        ensures { meaning_in result.files ≡ meaning_in files }
    {
        MirrorDisk { alloc, files, log }
    }

    // Keeps a change that is about to be made. Where memory is wanted for that, the call that makes it is to fail.
    fn keep(&mut self, kind: ChangeKind, name: &str, bytes: &[u8], len: usize) -> bool
        ensures fails { IsFalse result → self.new.files.failing.call ≡ 1 }
        ensures same { meaning_in self.new.files ≡ meaning_in self.old.files }
    {
        if let Ok(change) = Change::new(self.alloc, kind, name, bytes, len) {
            if self.log.keep(change) {
                return true;
            }
        }
        self.files.fail_at(1, 0);
        false
    }

    // A change that was kept and then failed is forgotten.
    fn settle(&self, is_kept: bool, done: &Result<()>) {
        if is_kept && done.is_err() {
            self.log.forget_last();
        }
    }
}

impl Disk for MirrorDisk {
    ghost honest = { true };

    ghost meaning = { λ disk. meaning_in disk.files };

    fn faults(&self) -> u64 {
        self.files.faults()
    }

    fn read(&mut self, alloc: Global, name: &str) -> Result<Option<Vec<u8>>> {
        self.files.read(alloc, name)
    }

    fn read_at(
        &mut self,
        alloc: Global,
        name: &str,
        at: usize,
        len: usize,
    ) -> Result<Option<Vec<u8>>> {
        self.files.read_at(alloc, name, at, len)
    }

    fn list(&mut self, alloc: Global, folder: &str) -> Result<Vec<DirEntry>> {
        self.files.list(alloc, folder)
    }

    fn create(&mut self, name: &str) -> Result<()> {
        let is_kept = self.keep(ChangeKind::Create, name, b"", 0);
        let done = self.files.create(name);
        self.settle(is_kept, &done);
        done
    }

    fn append(&mut self, name: &str, bytes: &[u8]) -> Result<()> {
        let is_kept = self.keep(ChangeKind::Append, name, bytes, 0);
        let done = self.files.append(name, bytes);
        self.settle(is_kept, &done);
        done
    }

    fn sync(&mut self, name: &str) -> Result<()> {
        let is_kept = self.keep(ChangeKind::Sync, name, b"", 0);
        let done = self.files.sync(name);
        self.settle(is_kept, &done);
        done
    }

    fn cut_sync(&mut self, name: &str, len: usize) -> Result<()> {
        let is_kept = self.keep(ChangeKind::Cut, name, b"", len);
        let done = self.files.cut_sync(name, len);
        self.settle(is_kept, &done);
        done
    }

    fn remove(&mut self, name: &str) -> Result<()> {
        let is_kept = self.keep(ChangeKind::Remove, name, b"", 0);
        let done = self.files.remove(name);
        self.settle(is_kept, &done);
        done
    }

    fn remove_folder(&mut self, name: &str) -> Result<()> {
        let is_kept = self.keep(ChangeKind::RemoveFolder, name, b"", 0);
        let done = self.files.remove_folder(name);
        self.settle(is_kept, &done);
        done
    }

    fn make_folder(&mut self, name: &str) -> Result<()> {
        let is_kept = self.keep(ChangeKind::MakeFolder, name, b"", 0);
        let done = self.files.make_folder(name);
        self.settle(is_kept, &done);
        done
    }

    fn sync_folder(&mut self, name: &str) -> Result<()> {
        let is_kept = self.keep(ChangeKind::SyncFolder, name, b"", 0);
        let done = self.files.sync_folder(name);
        self.settle(is_kept, &done);
        done
    }

    ghost housed = { λ disk honest. disk.files.files.housed };
}
