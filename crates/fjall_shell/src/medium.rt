//! The disks over which the program opens databases.

ghost use Rattle.std.specs.Prelude.{IfOk, IsTrue};
ghost use Rattle.fjall_shared.specs.Openings.{IsLeftByEngine};

use fjall::{Disk, FolderDisk, Host, Result};
use fjall_disk_memory::MemoryDisk;
use log::Log;
use std::alloc::Global;
use std::sync::Wait;
use std::thread::Threads;

/// A runtime over which the program opens databases.
pub trait Machine: Threads + Wait + Log + Host + Copy + Drop {}

impl<R: Threads + Wait + Log + Host + Copy + Drop> Machine for R {}

/// A disk over which the program opens a database.
pub trait Medium: Disk + Drop {
    /// Whether what a database left there can be opened again.
    fn is_kept() -> bool;

    /// The disk of a folder. Where it returns what it holds, an engine may have left it.
    fn open_disk(host: &HostRuntime, alloc: Global, folder: &str) -> Result<Self>
        ensures { IfOk result (λ disk. IsTrue Self.honest → IsLeftByEngine (Self.meaning disk)) };
}

impl Medium for MemoryDisk {
    fn is_kept() -> bool {
        false
    }

    fn open_disk(_host: &HostRuntime, alloc: Global, _folder: &str) -> Result<MemoryDisk> {
        Ok(MemoryDisk::new(alloc))
    }
}

impl Medium for FolderDisk {
    fn is_kept() -> bool {
        true
    }

    fn open_disk(host: &HostRuntime, alloc: Global, folder: &str) -> Result<FolderDisk> {
        FolderDisk::open(host, alloc, folder)
    }
}
