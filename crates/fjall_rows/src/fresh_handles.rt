//! Databases in memory, on which nothing stands yet, by their handles, and an index over the handles of one.

use fjall::{
    Database, DatabaseBuilder, Gate, IndexResult, IndexedKeyspace, Keyspace, KeyspaceCreateOptions,
    KvPair, OpenGate, OptimisticTxDatabase, Result, Slot,
};
use fjall_disk_memory::MemoryDisk;
use log::Log;
use std::alloc::Global;
use std::sync::Wait;
use std::thread::Threads;

/// A runtime with threads, which prints. Over one that threads share a database with workers is opened.
pub trait Machine: Threads
    + Wait
    + Log
    + Print
    + AllocGlobal
    + Copy
    + Drop
    + Send
    + Sync
    + 'static {}

impl<R: Threads + Wait + Log + Print + AllocGlobal + Copy + Drop + Send + Sync + 'static> Machine
    for R {}

/// A database in memory, whose writes are no transactions.
pub type Plain = Database<MemoryDisk>;

/// A keyspace of it.
pub type Items = Keyspace<MemoryDisk>;

/// A database in memory, over which an index stands.
pub type Data = OptimisticTxDatabase<MemoryDisk>;

/// An index over handles of it.
pub type Handles = IndexedKeyspace<Slot, MemoryDisk>;

/// The field by which pairs are found: the first two bytes of a value.
pub const FIELD: Slot = Slot { at: 0, len: 2 };

/// Opens a database on a new disk, whose jobs pass a gate.
pub fn open_on_new<
    O: From<Database<MemoryDisk>>,
    R: Machine,
    G: Gate + Drop + Send + Sync + 'static,
>(rt: &R, alloc: Global, builder: DatabaseBuilder<O>, gate: G) -> Result<O> {
    let disk = MemoryDisk::new(alloc);
    Ok(builder.open_with_gate(rt, disk, gate)?)
}

/// The same, with so many workers.
pub fn open_gated<
    O: From<Database<MemoryDisk>>,
    R: Machine,
    G: Gate + Drop + Send + Sync + 'static,
>(rt: &R, alloc: Global, workers: usize, gate: G) -> Result<O> {
    let builder = DatabaseBuilder::new(alloc, "rows")?.worker_threads_unchecked(workers);
    open_on_new(rt, alloc, builder, gate)
}

/// The same, whose jobs nothing holds.
pub fn open<O: From<Database<MemoryDisk>>, R: Machine>(
    rt: &R,
    alloc: Global,
    workers: usize,
) -> Result<O> {
    open_gated(rt, alloc, workers, OpenGate)
}

/// The keyspace of this name, which is made where it is missing.
pub fn keyspace<R: Machine>(rt: &R, alloc: Global, database: &Plain, name: &str) -> Result<Items> {
    database.keyspace(rt, name, KeyspaceCreateOptions::default(alloc)?)
}

/// Closes a database, and drops its disk.
pub fn close<R: Machine>(rt: &R, database: Plain) -> Result<()> {
    let (disk, closed) = database.close(rt);
    drop(disk);
    closed
}

/// Opens an index over the keyspace `main`.
pub fn index_of<R: Machine>(rt: &R, data: &Data, name: &str) -> IndexResult<Handles> {
    IndexedKeyspace::open(rt, rt.alloc(), data, "main", name, FIELD)
}

/// All pairs of both keyspaces of an index.
pub fn pairs_of<R: Machine>(rt: &R, indexed: &Handles) -> Result<[Vec<KvPair>; 2]> {
    let (mut main, mut index) = (Vec::new(rt.alloc()), Vec::new(rt.alloc()));
    for guard in indexed.main().inner().iter(rt) {
        main.push(guard.into_inner()?)?;
    }
    for guard in indexed.index().inner().iter(rt) {
        index.push(guard.into_inner()?)?;
    }
    Ok([main, index])
}
