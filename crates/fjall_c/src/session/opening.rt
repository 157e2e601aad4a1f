//! How a database is opened over files in memory.

ghost use Rattle.std.specs.Prelude.{◌≡◌, [], IfErr, IfOk, OnOk};
ghost use Rattle.fjall_disk_memory.specs.MemoryDisk.{meaning_in};
ghost use Rattle.fjall_c.specs.Openings.{IsOpenedOver, IsRefusedOver, PutsSynced};

use crate::mirror::MirrorDisk;
use crate::mirror::log::Log;
use crate::session::opened::Opened;
use fjall_base::{Disk, Result};
use fjall_core::{Config, Core};
use fjall_disk_memory::MemoryDisk;
use std::alloc::Global;

/// Puts a file on a disk, synced, with its name.
pub(crate) fn put_synced(disk: &mut MemoryDisk, name: &str, bytes: &[u8]) -> Result<()>
    ensures { OnOk result (PutsSynced name.now bytes.now (meaning_in disk.old) (meaning_in disk.new)) }
{
    disk.create(name)?;
    disk.append(name, bytes)?;
    disk.sync(name)
}

// Opens a core over files, whose changes are kept in a log.
fn open_core(alloc: Global, files: MemoryDisk, log: &Log) -> Result<Core<MirrorDisk>>
    ensures opened { IfOk result (λ core. IsOpenedOver (meaning_in files) core.engine core.transactions) }
    ensures refused { IfErr result (IsRefusedOver (meaning_in files)) }
{
    let config = Config::new(alloc, "")?;
    let disk = MirrorDisk::new(alloc, files, log.share()?);
    match Core::open(alloc, config, disk) {
        Ok(core) => Ok(core),
        Err(refused) => Err(refused.error),
    }
}

/// Opens a database over files, whose changes are kept in a log.
pub(crate) fn opened_over(alloc: Global, files: MemoryDisk, log: &Log) -> Result<Box<Opened>>
    ensures opened { IfOk result (λ opened. IsOpenedOver (meaning_in files) opened.value.core.engine opened.value.core.transactions) }
    ensures none { IfOk result (λ opened. opened.value.going.items ≡ []) }
    ensures refused { IfErr result (IsRefusedOver (meaning_in files)) }
{
    let core = open_core(alloc, files, log)?;
    let going = Vec::new(alloc);
    Ok(Box::new(alloc, Opened { core, going })?)
}
