//! Workloads that write.

use crate::data::{key_of, value_of};
use crate::database::flush;
use crate::rows::{Action, PAIRS_TOGETHER};
use fjall_base::{Disk, Result};
use fjall_engine::{BatchItem, Engine, PersistMode};
use fjall_reading::OwnedWriteBatch;
use std::alloc::Global;

// Flushes a keyspace whose memtable is full.
fn flush_full<D: Disk>(alloc: Global, core: &mut Engine<D>, id: u64) -> Result<()> {
    if core.wants_rotation(id) {
        return flush(alloc, core, id);
    }
    Ok(())
}

// Inserts the pair of a number into a keyspace, or deletes it there.
fn write<D: Disk>(core: &mut Engine<D>, id: u64, action: Action, number: u64) -> Result<()> {
    let key = key_of(number);
    match action {
        Action::Remove => core.remove(id, &key),
        Action::InsertSynced => {
            core.insert(id, &key, &value_of(number))?;
            core.persist(PersistMode::SyncAll)
        }
        _ => core.insert(id, &key, &value_of(number)),
    }
}

/// Writes each number's pair into a keyspace, which is flushed whenever its memtable is full, and hands all of it to the system.
pub fn write_each<D: Disk>(
    alloc: Global,
    core: &mut Engine<D>,
    id: u64,
    action: Action,
    numbers: &[u64],
) -> Result<()> {
    for number in numbers {
        write(core, id, action, *number)?;
        flush_full(alloc, core, id)?;
    }
    core.persist(PersistMode::Buffer)
}

// A batch of numbers' pairs.
fn batch(alloc: Global, id: u64, numbers: &[u64]) -> Result<Vec<BatchItem>> {
    let mut writes = OwnedWriteBatch::with_capacity(alloc, (), numbers.len())?;
    for number in numbers {
        writes.insert_copied(&id, &key_of(*number), &value_of(*number))?;
    }
    Ok(writes.into_items())
}

/// Writes the numbers' pairs in batches, each handed to the system, into a keyspace that is flushed whenever its memtable is full.
pub fn write_batches<D: Disk>(
    alloc: Global,
    core: &mut Engine<D>,
    id: u64,
    numbers: &[u64],
) -> Result<()> {
    for together in numbers.chunks(PAIRS_TOGETHER) {
        core.commit_batch(batch(alloc, id, together)?, Some(PersistMode::Buffer))?;
        flush_full(alloc, core, id)?;
    }
    Ok(())
}
