//! Four threads share a database by clones of its handle, and insert a hundred keys each.

use crate::fresh_handles::{Machine, Plain, close, keyspace, open};
use fjall::Result;
use std::alloc::Global;
use std::thread;

/// How many threads there are, and how many keys each inserts.
const THREADS: u8 = 4;

const KEYS: u8 = 100;

/// How often it is done over, each time with a database of its own.
const TIMES: u8 = 10;

// A thread's own part: its handle of the database, and its number.
#[derive(Drop)]
struct Part {
    database: Plain,
    number: u8,
}

// What one turn came to.
#[derive(Clone, Copy, Debug, PartialEq, Eq)]
struct Told {
    right: u64,
    keys: usize,
    visible: u64,
}

// Inserts each key of a thread and reads it back; answers how many were read back with the value that was inserted.
fn insert_all<R: Machine>(rt: &R, alloc: Global, part: Part) -> Result<u64> {
    let items = keyspace(rt, alloc, &part.database, "items")?;
    let mut right: u64 = 0;
    for key in 0..KEYS {
        let name = [part.number, key];
        items.insert(rt, &name, &[key])?;
        let found = items.get(rt, &name)?;
        if found.is_some_and(|value| value.as_slice() == [key].as_slice()) {
            right = right.saturating_add(1);
        }
    }
    Ok(right)
}

// All four threads, over a database of their own with so many workers.
fn turn<R: Machine>(rt: &R, alloc: Global, workers: usize) -> Result<Told> {
    let database: Plain = open(rt, alloc, workers)?;
    let items = keyspace(rt, alloc, &database, "items")?;
    let mut parts = Vec::with_capacity(alloc, THREADS.into())?;
    for number in 0..THREADS {
        parts.push(Part {
            database: database.clone()?,
            number,
        })?;
    }
    let inserted = thread::map_vec(rt, parts, &|part| insert_all(rt, alloc, part))?;
    let mut right: u64 = 0;
    for one in inserted {
        right = right.saturating_add(one?);
    }
    let told = Told {
        right,
        keys: items.len(rt)?,
        visible: database.visible_seqno(rt)?,
    };
    close(rt, database)?;
    Ok(told)
}

/// With four workers and without any, ten times each: the first time's numbers, and how often they came.
pub fn four_threads_share_a_database<R: Machine>(rt: &R, alloc: Global) -> Result<()> {
    for workers in [4, 0] {
        let told = turn(rt, alloc, workers)?;
        let Told {
            right,
            keys,
            visible,
        } = told;
        let mut same: u64 = 1;
        for _ in 1..TIMES {
            if turn(rt, alloc, workers)? == told {
                same = same.saturating_add(1);
            }
        }
        println!(rt;
            "four threads, {workers} workers: {right} read back, {keys} keys, visible number {visible}, {same} times"
        )?;
    }
    Ok(())
}
