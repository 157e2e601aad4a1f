//! Four threads write into memtables that are full after a few writes, while workers flush and merge.

use crate::fresh_handles::{Items, Machine, Plain, close, open};
use fjall::{KeyspaceCreateOptions, Result};
use std::alloc::Global;
use std::thread;

/// How many threads there are, and how many keys each inserts.
const WRITERS: u8 = 4;

const KEYS: u16 = 1_000;

/// The bytes above which a memtable is sealed.
const MEMTABLE_BYTES: u64 = 900;

/// So many flushes in a row make a merge due, whatever was flushed before.
const LAST_FLUSHES: u8 = 8;

/// So often it looks at most whether workers are done.
const MOST_TURNS: u64 = 10_000_000;

// A writer's own part: its handle of the keyspace, and its number.
#[derive(Drop)]
struct Part {
    items: Items,
    writer: u8,
}

fn key_of(writer: u8, number: u16) -> [u8; 3] {
    let [high, low] = number.to_be_bytes();
    [writer, high, low]
}

// Inserts all keys of a writer.
fn insert_all<R: Machine>(rt: &R, part: Part) -> Result<()> {
    for number in 0..KEYS {
        let key = key_of(part.writer, number);
        part.items.insert(rt, &key, &number.to_be_bytes())?;
    }
    Ok(())
}

// All four writers at once.
fn write_all<R: Machine>(rt: &R, alloc: Global, items: &Items) -> Result<()> {
    let mut parts = Vec::with_capacity(alloc, WRITERS.into())?;
    for writer in 0..WRITERS {
        parts.push(Part {
            items: items.clone()?,
            writer,
        })?;
    }
    for written in thread::map_vec(rt, parts, &|part| insert_all(rt, part))? {
        written?;
    }
    Ok(())
}

// How many keys have the value that was inserted.
fn count_right<R: Machine>(rt: &R, items: &Items) -> Result<u64> {
    let mut right: u64 = 0;
    for writer in 0..WRITERS {
        for number in 0..KEYS {
            let found = items.get(rt, &key_of(writer, number))?;
            let wanted = number.to_be_bytes();
            if found.is_some_and(|value| value.as_slice() == wanted.as_slice()) {
                right = right.saturating_add(1);
            }
        }
    }
    Ok(right)
}

// Flushes one key more, again and again, until no memtable is left that is sealed, and a merge took effect.
fn settle<R: Machine>(rt: &R, database: &Plain, items: &Items) -> Result<()> {
    for last in 0..LAST_FLUSHES {
        items.insert(rt, &[u8::MAX, last], b"last")?;
        items.rotate_memtable_and_wait(rt)?;
    }
    for _ in 0..MOST_TURNS {
        let sealed = items.sealed_memtable_count(rt)?;
        if sealed == 0 && database.compactions_completed(rt)? > 0 {
            break;
        }
        thread::yield_now();
    }
    Ok(())
}

/// Four thousand inserts are all read back; then nothing waits for a flush, and tables were merged.
pub fn many_memtables_are_flushed_and_merged<R: Machine>(rt: &R, alloc: Global) -> Result<()> {
    let database: Plain = open(rt, alloc, 4)?;
    let options = KeyspaceCreateOptions::default(alloc)?.max_memtable_size(MEMTABLE_BYTES);
    let items = database.keyspace(rt, "items", options)?;
    write_all(rt, alloc, &items)?;
    let right = count_right(rt, &items)?;
    settle(rt, &database, &items)?;
    let (keys, sealed) = (items.len(rt)?, items.sealed_memtable_count(rt)?);
    let again = count_right(rt, &items)?;
    let has_merged = database.compactions_completed(rt)? > 0;
    close(rt, database)?;
    println!(rt;
        "small memtables: {right} read back, {keys} keys, {sealed} sealed, {again} read back again, merges {has_merged}"
    )?;
    Ok(())
}
