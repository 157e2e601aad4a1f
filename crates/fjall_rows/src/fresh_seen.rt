//! A database in memory, on which nothing stands yet.

ghost use Rattle.std.specs.Prelude.{◌≡◌, Some};

use anyhow::{Context, Result};
use fjall_disk_memory::MemoryDisk;
use fjall_options::KeyspaceCreateOptions;
use fjall_seen::{Config, Naming, Opened, Seen};
use std::alloc::Global;
use std::sync::Wait;

/// A caller of a database in memory.
pub type Caller<J> = Seen<MemoryDisk, J>;

/// Opens a database on a new disk.
pub fn open(alloc: Global) -> Result<Opened<MemoryDisk>> {
    let config = Config::new(alloc, "threads")?;
    let disk = MemoryDisk::new(alloc);
    match Opened::open(alloc, config, disk) {
        Ok(opened) => Ok(opened),
        Err(refused) => Err(refused.error.into()),
    }
}

/// Gives it a name, and makes its one keyspace.
pub fn first_caller<J: Naming, R: Wait>(
    rt: &R,
    alloc: Global,
    opened: Opened<MemoryDisk>,
) -> Result<(Caller<J>, u64)>
    requires { J.table ≡ Some opened.table }
{
    let mut caller = opened.named::<J, R>(rt, alloc).ok().context("memory")?;
    let id = caller.keyspace_as(rt, b"items", KeyspaceCreateOptions::default(alloc)?)?;
    Ok((caller, id))
}
