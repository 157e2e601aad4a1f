//! What workers do: how they are started, jobs that run at once, that end in either order, and one that comes too late.

use crate::fresh_handles::{Items, Machine, Plain, close, keyspace, open_gated};
use crate::gates::{Barrier, BarrierGate, Meeting, MeetingGate};
use fjall::{Identified, Readable, Result, Snapshot};
use fjall_disk_memory::MemoryDisk;
use fjall_workers::claim_and_spawn;
use std::alloc::Global;
use std::thread::{JoinHandle, Threads};
use std::{result, thread};

/// How many are to be started, and which of them is refused.
const ASKED: usize = 4;

const REFUSED: usize = 2;

// Starts a thread that answers its index, unless it is the one that is refused.
fn start_one<R: Threads>(rt: &R, index: usize) -> result::Result<JoinHandle<usize>, usize> {
    if index == REFUSED {
        return Err(index);
    }
    match thread::spawn(rt, move || index) {
        Ok(handle) => Ok(handle),
        Err(_refused) => Err(index),
    }
}

/// Of four the third can't be started: the two before it are.
pub fn a_start_ends_at_a_refusal<R: Machine>(rt: &R, alloc: Global) -> Result<()> {
    let mut started = Vec::with_capacity(alloc, ASKED)?;
    let done = claim_and_spawn(&mut started, ASKED, |index| start_one(rt, index));
    let mut answers = Vec::with_capacity(alloc, ASKED)?;
    for handle in started {
        answers.push(handle.join(rt))?;
    }
    println!(rt; "{ASKED} asked for: {done:?}, started {answers:?}")?;
    Ok(())
}

// A keyspace with one pair in memory.
fn with_one_pair<R: Machine>(rt: &R, alloc: Global, database: &Plain, name: &str) -> Result<Items> {
    let items = keyspace(rt, alloc, database, name)?;
    items.insert(rt, b"key", b"value")?;
    Ok(items)
}

/// Two keyspaces are flushed by two workers: the first job goes on only once the second one has come as far.
pub fn two_jobs_run_at_once<R: Machine>(rt: &R, alloc: Global) -> Result<()> {
    let meeting = Meeting::new(alloc)?;
    let database: Plain = open_gated(rt, alloc, 2, MeetingGate::new(&meeting)?)?;
    let a = with_one_pair(rt, alloc, &database, "a")?;
    let b = with_one_pair(rt, alloc, &database, "b")?;
    let (one, two) = thread::join(
        rt,
        || a.rotate_memtable_and_wait(rt),
        || b.rotate_memtable_and_wait(rt),
    );
    one?;
    two?;
    let (in_a, in_b) = (a.table_count(rt)?, b.table_count(rt)?);
    close(rt, database)?;
    let has_met = meeting.has_met();
    println!(rt; "two jobs ran at once: {has_met}, tables {in_a} and {in_b}")?;
    Ok(())
}

/// How many keys each of the two keyspaces has at first.
const KEYS: u8 = 60;

// The pairs of both keyspaces, at the present and in a snapshot: how many there are, and all their bytes.
#[derive(Drop)]
struct Views {
    pairs: u64,
    bytes: Vec<u8>,
}

impl Views {
    // Goes over what a reader shows of a keyspace.
    fn add<S: Readable + Drop>(&mut self, mut reader: S, keyspace: &Items) -> Result<()> {
        let mut pairs = reader.iter(keyspace);
        for _ in 0..u64::MAX {
            let Some(guard) = pairs.next() else {
                break;
            };
            let (key, value) = guard.into_inner()?;
            self.bytes.extend_from_slice(key.as_slice())?;
            self.bytes.extend_from_slice(value.as_slice())?;
            self.pairs = self.pairs.saturating_add(1);
        }
        Ok(())
    }
}

// A keyspace with its first keys.
fn filled<R: Machine>(rt: &R, alloc: Global, database: &Plain, name: &str) -> Result<Items> {
    let items = keyspace(rt, alloc, database, name)?;
    for key in 0..KEYS {
        items.insert(rt, &[key], name.as_bytes())?;
    }
    Ok(items)
}

// Of three keys one is written over, one is taken away, and one stays.
fn change<R: Machine>(rt: &R, items: &Items) -> Result<()> {
    for key in 0..KEYS {
        match key % 3 {
            0 => items.insert(rt, &[key], &[key, key])?,
            1 => items.remove(rt, &[key])?,
            _ => (),
        }
    }
    Ok(())
}

// Flushes a keyspace while the job of another one is held, and then lets that go on.
fn pass<R: Machine>(rt: &R, barrier: &Barrier, items: &Items) -> Result<()> {
    let _ = barrier.wait_for_job();
    let passed = items.rotate_memtable_and_wait(rt);
    barrier.open();
    passed
}

// The pairs of both, at the present and in a snapshot.
fn views_of<R: Machine>(
    rt: &R,
    alloc: Global,
    both: [&Items; 2],
    snapshot: &Snapshot<MemoryDisk>,
) -> Result<Views> {
    let mut views = Views {
        pairs: 0,
        bytes: Vec::new(alloc),
    };
    for items in both {
        views.add(items.at(rt), items)?;
        views.add(snapshot.at(rt), items)?;
    }
    Ok(views)
}

// Flushes both: the job of the one begins first, and ends last. Answers what is read then, and whether it was so.
fn turn<R: Machine>(rt: &R, alloc: Global, is_first_held: bool) -> Result<(Views, bool)> {
    let barrier = Barrier::new(alloc)?;
    let database: Plain = open_gated(rt, alloc, 2, BarrierGate::new(&barrier)?)?;
    let first = filled(rt, alloc, &database, "first")?;
    let second = filled(rt, alloc, &database, "second")?;
    let snapshot = database.snapshot(rt)?;
    change(rt, &first)?;
    change(rt, &second)?;
    let (held, other) = if is_first_held {
        (&first, &second)
    } else {
        (&second, &first)
    };
    barrier.hold(held.id());
    let (slow, fast) = thread::join(
        rt,
        || held.rotate_memtable_and_wait(rt),
        || pass(rt, &barrier, other),
    );
    slow?;
    fast?;
    let views = views_of(rt, alloc, [&first, &second], &snapshot)?;
    close(rt, database)?;
    Ok((views, barrier.has_other_passed()))
}

/// Two keyspaces are flushed, and the job that begins later ends first: once that of the one, once that of the other.
pub fn jobs_end_in_either_order<R: Machine>(rt: &R, alloc: Global) -> Result<()> {
    let (one, is_second_first) = turn(rt, alloc, true)?;
    let (two, is_first_first) = turn(rt, alloc, false)?;
    let is_same = one.bytes.as_slice() == two.bytes.as_slice();
    let (before, after) = (one.pairs, two.pairs);
    println!(rt;
        "the later job ended first: {is_second_first} and {is_first_first}; {before} and {after} pairs, the same {is_same}"
    )?;
    Ok(())
}

/// The keys below this one are inserted.
const INSERTED: u8 = 100;

/// The keys from the first of these on, and below the second one, are ingested.
const INGESTED: (u8, u8) = (50, 150);

fn insert_all<R: Machine>(rt: &R, items: &Items) -> Result<()> {
    for key in 0..INSERTED {
        items.insert(rt, &[key], b"inserted")?;
    }
    Ok(())
}

fn ingest_all<R: Machine>(rt: &R, items: &Items) -> Result<()> {
    let mut ingestion = items.start_ingestion();
    for key in INGESTED.0..INGESTED.1 {
        ingestion.write(&[key], b"ingested")?;
    }
    ingestion.finish(rt)
}

// How many keys have the value that they got last.
fn count_right<R: Machine>(rt: &R, items: &Items) -> Result<u64> {
    let mut right: u64 = 0;
    for key in 0..INGESTED.1 {
        let wanted: &[u8] = if key < INGESTED.0 {
            b"inserted"
        } else {
            b"ingested"
        };
        let found = items.get(rt, &[key])?;
        if found.is_some_and(|value| value.as_slice() == wanted) {
            right = right.saturating_add(1);
        }
    }
    Ok(right)
}

/// The one worker holds a flush until the keyspace was ingested into; behind it, it flushes another keyspace, for which this thread waits.
pub fn an_ingestion_makes_a_flush_stale<R: Machine>(rt: &R, alloc: Global) -> Result<()> {
    let barrier = Barrier::new(alloc)?;
    let database: Plain = open_gated(rt, alloc, 1, BarrierGate::new(&barrier)?)?;
    let items = keyspace(rt, alloc, &database, "items")?;
    let others = keyspace(rt, alloc, &database, "others")?;
    others.insert(rt, b"key", b"value")?;
    insert_all(rt, &items)?;
    barrier.hold(items.id());
    let is_sealed = items.rotate_memtable(rt)?;
    let is_out = barrier.wait_for_job();
    let ingested = ingest_all(rt, &items);
    let before = items.table_count(rt)?;
    barrier.open();
    ingested?;
    others.rotate_memtable_and_wait(rt)?;
    let after = items.table_count(rt)?;
    let (keys, right) = (items.len(rt)?, count_right(rt, &items)?);
    close(rt, database)?;
    println!(rt;
        "sealed {is_sealed}, a flush is out {is_out}: {before} tables behind the ingestion, {after} behind the flush, {keys} keys, {right} right"
    )?;
    Ok(())
}
