//! Four threads raise one counter by optimistic transactions, which are tried again where they conflict.

use crate::fresh_handles::{Machine, close, open};
use fjall::{
    KeyspaceCreateOptions, OptimisticTxDatabase, OptimisticTxKeyspace, OptimisticWriteTx, Readable,
    Result,
};
use fjall_disk_memory::MemoryDisk;
use std::alloc::Global;
use std::thread;

/// How many threads there are, and how often each raises the counter.
const THREADS: u8 = 4;

const RAISES: u8 = 25;

/// A thread tries so often at most.
const MOST_TRIES: usize = 100_000;

/// How often it is done over, each time with a database of its own.
const TIMES: u8 = 10;

/// The counter's key.
const COUNTER: &[u8] = b"counter";

// A thread's own handles.
#[derive(Drop)]
struct Part {
    database: OptimisticTxDatabase<MemoryDisk>,
    items: OptimisticTxKeyspace<MemoryDisk>,
}

// Raises the counter by one within a transaction.
fn raise<R: Machine>(
    rt: &R,
    transaction: &mut OptimisticWriteTx<MemoryDisk>,
    items: &OptimisticTxKeyspace<MemoryDisk>,
) -> Result<()> {
    let found = transaction.at(rt).get(items, COUNTER)?;
    let count = found.map_or(0, |value| value.first().copied().unwrap_or(0));
    transaction.insert(items, COUNTER, &[count.wrapping_add(1)])
}

// Raises the counter as often as a thread is to; answers how often that took place.
fn raise_all<R: Machine>(rt: &R, part: Part) -> Result<u64> {
    let Part { database, items } = part;
    let mut raised: u64 = 0;
    for _ in 0..RAISES {
        for _ in 0..MOST_TRIES {
            let mut transaction = database.write_tx(rt)?;
            raise(rt, &mut transaction, &items)?;
            if transaction.try_commit(rt)? {
                raised = raised.saturating_add(1);
                break;
            }
        }
    }
    Ok(raised)
}

// All four threads, over a database of their own with so many workers: how many raises took place, and what the counter is.
fn turn<R: Machine>(rt: &R, alloc: Global, workers: usize) -> Result<(u64, u8)> {
    let database: OptimisticTxDatabase<MemoryDisk> = open(rt, alloc, workers)?;
    let items = database.keyspace(rt, "items", KeyspaceCreateOptions::default(alloc)?)?;
    let mut parts = Vec::with_capacity(alloc, THREADS.into())?;
    for _ in 0..THREADS {
        parts.push(Part {
            database: database.clone()?,
            items: items.clone()?,
        })?;
    }
    let done = thread::map_vec(rt, parts, &|part| raise_all(rt, part))?;
    let mut raised: u64 = 0;
    for one in done {
        raised = raised.saturating_add(one?);
    }
    let found = items.get(rt, COUNTER)?;
    let count = found.map_or(0, |value| value.first().copied().unwrap_or(0));
    close(rt, database.inner().clone()?)?;
    Ok((raised, count))
}

/// With four workers and without any, ten times each: how often a hundred raises made a hundred.
pub fn four_threads_count<R: Machine>(rt: &R, alloc: Global) -> Result<()> {
    for workers in [4, 0] {
        let mut hundreds: u64 = 0;
        for _ in 0..TIMES {
            if turn(rt, alloc, workers)? == (100, 100) {
                hundreds = hundreds.saturating_add(1);
            }
        }
        println!(rt; "four threads, {workers} workers: the counter is 100, {hundreds} times")?;
    }
    Ok(())
}
