//! What ends: transactions that are dropped, and temporary databases.

use crate::fresh_handles::{Machine, Plain, close, keyspace, open, open_on_new};
use fjall::{Database, Disk, Error, KeyspaceCreateOptions, OpenGate, OptimisticTxDatabase, Result};
use fjall_disk_memory::MemoryDisk;
use std::alloc::Global;

/// Of two transactions that are open the first commits, and the second is dropped. A drop takes no lock; who counts what is open closes what was
/// dropped first.
pub fn dropped_transactions_are_collected<R: Machine>(rt: &R, alloc: Global) -> Result<()> {
    let database: OptimisticTxDatabase<MemoryDisk> = open(rt, alloc, 0)?;
    let items = database.keyspace(rt, "items", KeyspaceCreateOptions::default(alloc)?)?;
    let plain = database.inner();
    let mut first = database.write_tx(rt)?;
    let second = database.write_tx(rt)?;
    let begun = plain.open_snapshots(rt)?;
    first.insert(&items, b"key", b"value")?;
    let is_made = first.try_commit(rt)?;
    let committed = plain.open_snapshots(rt)?;
    drop(second);
    let dropped = plain.open_snapshots(rt)?;
    let third = database.write_tx(rt)?;
    let collected = plain.open_snapshots(rt)?;
    third.rollback(rt)?;
    let ended = plain.open_snapshots(rt)?;
    println!(rt;
        "open: {begun}, behind a commit ({is_made}) {committed}, behind a drop {dropped}, behind a begin {collected}, behind a rollback {ended}"
    )?;
    close(rt, plain.clone()?)
}

// How many files and folders a disk has at its top.
fn count_entries(alloc: Global, disk: Option<MemoryDisk>) -> Result<usize> {
    match disk {
        Some(mut disk) => Ok(disk.list(alloc, "")?.len()),
        None => Err(Error::Poisoned),
    }
}

/// What its close gives back has no entry; a second close, over another handle, is refused.
pub fn a_temporary_database_leaves_nothing<R: Machine>(rt: &R, alloc: Global) -> Result<()> {
    let builder = Database::builder(alloc, "rows")?.temporary(true);
    let database: Plain = open_on_new(rt, alloc, builder, OpenGate)?;
    let other = database.clone()?;
    let items = keyspace(rt, alloc, &database, "items")?;
    items.insert(rt, b"key", b"value")?;
    items.rotate_memtable_and_wait(rt)?;
    let tables = items.table_count(rt)?;
    let (disk, closed) = database.close(rt);
    closed?;
    let left = count_entries(alloc, disk)?;
    let (disk, again) = other.close(rt);
    let has_disk = disk.is_some();
    println!(rt;
        "temporary: {tables} table, then {left} entries; closed again: a disk {has_disk}, {again:?}"
    )?;
    Ok(())
}
