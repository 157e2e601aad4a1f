//! Brings a bulk write into a keyspace of a database.

use fjall_base::{Disk, Result};
use fjall_disk_folder::FolderDisk;
use fjall_options::KeyspaceCreateOptions;
use fjall_reading::Ingestion;
use fjall_script::{Config, Engine};
use std::alloc::Global;

// Opens the database on a disk.
fn opened<D: Disk + Drop>(alloc: Global, config: Config, disk: D) -> Result<Box<Engine<D>>> {
    match Engine::open(alloc, config, disk) {
        Ok(core) => Ok(Box::new(alloc, core)?),
        Err(refused) => Err(refused.error),
    }
}

// Brings a bulk write into the keyspace of this name of the database on a disk, and closes it. Where the write is refused, a
// keyspace that was made for it stays, and is empty.
fn ingest_on<D: Disk + Drop>(
    alloc: Global,
    disk: D,
    name: &str,
    ingestion: Ingestion<()>,
) -> Result<()> {
    let mut core = opened(alloc, Config::new(alloc, "")?, disk)?;
    let options = KeyspaceCreateOptions::default(alloc)?;
    let id = core.keyspace(name.as_bytes(), options)?;
    core.ingest(id, ingestion.into_items())?;
    Box::into_inner(core).close().1
}

/// Opens the database in a folder, which is made where it is missing, and brings a bulk write into the keyspace of this name, which
/// is made, with the default options, where none has it: all of it as one command, which outlives a crash once this is done.
///
/// Refusals: those of the opening, `Locked` and `InvalidName` among them; of the ingestion; and `Io`.
pub fn ingest(
    rt: &HostRuntime,
    alloc: Global,
    folder: &str,
    name: &str,
    ingestion: Ingestion<()>,
) -> Result<()> {
    ingest_on(alloc, FolderDisk::open(rt, alloc, folder)?, name, ingestion)
}
