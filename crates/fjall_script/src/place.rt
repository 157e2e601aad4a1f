//! Where a session keeps its files: in memory, or in a folder.

ghost use Rattle.std.specs.Prelude.{◌≡◌, IsTrue, IfErr, IfOk};
ghost use Rattle.fjall_disk_memory.specs.Wild.{fills_of};
ghost use Rattle.fjall_script.specs.Machine.{IsNew, IsNoDisk};
ghost use Rattle.fjall_script.specs.Sessions.{RestartLeaves};

use fjall_base::{Disk, Result};
use fjall_disk_folder::FolderDisk;
use fjall_disk_memory::MemoryDisk;
use fjall_lines::{Command, Fills};
use std::alloc::{AllocError, Global};

/// Gives a session its disk, and gives it again after each crash and reopening.
pub trait Place {
    type Disk: Disk + Drop;

    /// Whether a crash can be asked for.
    fn hears_crashes(&self) -> bool
        ensures { result ≡ Self.Disk.honest };

    /// The disk at the beginning of a session. In memory it is empty.
    fn disk(&self) -> Result<Self::Disk>
        ensures ok { IsTrue Self.Disk.honest → IfOk result (λ disk. IsNew (Self.Disk.meaning disk)) }
        ensures err { IfErr result (IsNoDisk Self.Disk.honest) };

    /// The disk after a crash, or the same disk at a reopening.
    fn restart(&self, disk: Self::Disk, stop: &Option<Command>) -> Result<Self::Disk>
        ensures ok { IsTrue Self.Disk.honest → IfOk result (λ after. RestartLeaves stop.now (Self.Disk.meaning disk) (Self.Disk.meaning after)) }
        ensures err { IfErr result (IsNoDisk Self.Disk.honest) };
}

/// A disk in memory. A crash leaves so many unsynced bytes of each file, a wild one what it is given behind the synced ones.
#[derive(Clone, Copy)]
pub struct Memory {
    pub alloc: Global,
}

// What a wild crash leaves behind the synced bytes of files, as the disk takes it.
fn lent(alloc: Global, fills: &Fills) -> std::result::Result<Vec<(&str, &[u8])>, AllocError>
    ensures { IfOk result (λ lent. fills_of lent.items ≡ fills.now) }
{
    let mut lent = Vec::new(alloc);
    let kept = fills.as_slice();
    for (path, bytes) in kept {
        lent.push((path.as_str(), bytes.as_slice()))?;
    }
    Ok(lent)
}

impl Place for Memory {
    type Disk = MemoryDisk;

    fn hears_crashes(&self) -> bool {
        true
    }

    fn disk(&self) -> Result<MemoryDisk> {
        Ok(MemoryDisk::new(self.alloc))
    }

    fn restart(&self, disk: MemoryDisk, stop: &Option<Command>) -> Result<MemoryDisk> {
        match stop {
            Some(Command::Crash(keep)) => disk.crash(*keep as usize),
            Some(Command::CrashWild(fills)) => {
                let given = lent(self.alloc, fills)?;
                disk.crash_wild(given.as_slice())
            }
            _ => Ok(disk),
        }
    }
}

/// A folder of the file system, which is let go of and taken again at each reopening.
#[derive(Clone, Copy)]
pub struct Folder<'a> {
    pub rt: &'a HostRuntime,
    pub alloc: Global,
    pub path: &'a str,
}

impl Place for Folder<'_> {
    type Disk = FolderDisk;

    fn hears_crashes(&self) -> bool {
        false
    }

    fn disk(&self) -> Result<FolderDisk> {
        FolderDisk::open(self.rt, self.alloc, self.path)
    }

    fn restart(&self, disk: FolderDisk, _stop: &Option<Command>) -> Result<FolderDisk> {
        drop(disk);
        self.disk()
    }
}
