//! Opening, closing, flushing and merging a database.

use fjall_base::{Disk, Result};
use fjall_engine::{Call, Config, Engine, JobId, Reply};
use std::alloc::Global;

/// Opens the database on a disk.
pub fn opened<D: Disk + Drop>(alloc: Global, disk: D) -> Result<Box<Engine<D>>> {
    let config = Config::new(alloc, "")?;
    match Engine::open(alloc, config, disk) {
        Ok(core) => Ok(Box::new(alloc, core)?),
        Err(refused) => Err(refused.error),
    }
}

/// Closes a database, and gives back the disk that holds it.
pub fn closed<D: Disk + Drop>(core: Box<Engine<D>>) -> Result<D> {
    let (disk, closed) = Box::into_inner(core).close();
    closed?;
    Ok(disk)
}

// Serves calls, and answers the first refusal.
fn serve<D: Disk>(core: &mut Engine<D>, calls: Vec<Call>) -> Result<()> {
    for reply in core.run(calls)? {
        if let Reply::Refused(error) = reply {
            return Err(error);
        }
    }
    Ok(())
}

/// Moves what a keyspace has in memory to a table, puts its tables together where that is due, and lets go of the journals that
/// nobody wants then.
pub fn flush<D: Disk>(alloc: Global, core: &mut Engine<D>, id: u64) -> Result<()> {
    // A job is named by the place of the call that begins it.
    let calls = vec![in alloc;
        Call::RotateMemtable(id),
        Call::FlushBegin(id),
        Call::FlushFinish(JobId::of_call(1)),
        Call::MergeBegin(id),
        Call::MergeFinish(JobId::of_call(3)),
        Call::Maintenance,
    ]?;
    serve(core, calls)
}

/// Flushes a keyspace, and puts all its tables together.
pub fn merge<D: Disk>(alloc: Global, core: &mut Engine<D>, id: u64) -> Result<()> {
    flush(alloc, core, id)?;
    let calls = vec![in alloc;
        Call::Gc,
        Call::MajorBegin(id),
        Call::MergeFinish(JobId::of_call(1)),
    ]?;
    serve(core, calls)
}
