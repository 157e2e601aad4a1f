//! A database that threads share: filled and read by many, with workers beside them.

use crate::clock::{Spent, Stopwatch};
use crate::data::{is_value_of, key_of, value_of};
use crate::report::{HEAD, Row};
use crate::rows::Choice;
use anyhow::{Result, bail};
use fjall::{Database, Host, Keyspace, KeyspaceCreateOptions, PersistMode};
use log::Log;
use std::alloc::Global;
use std::sync::Wait;
use std::thread::Threads;
use std::{fs, thread};

/// A runtime over which a database with workers is opened, and measured.
pub trait Machine: Threads + Wait + Log + Host + Copy + Drop {}

impl<R: Threads + Wait + Log + Host + Copy + Drop> Machine for R {}

/// What is to be measured: so many pairs, written and read by so many threads, over a database in this folder with so many workers.
#[derive(Clone, Copy)]
pub struct Sharing<'a> {
    pub folder: &'a str,
    pub pairs: u64,
    pub threads: usize,
    pub workers: usize,
}

// What a thread does with its share of the pairs.
#[derive(Clone, Copy)]
enum Task {
    Write,
    Read,
}

impl Task {
    fn name(self) -> &'static str {
        match self {
            Task::Write => "fill at random",
            Task::Read => "read hit",
        }
    }

    fn choice(self) -> Choice {
        match self {
            Task::Write => Choice::Shuffled,
            Task::Read => Choice::Others,
        }
    }
}

// A thread's own part: its handle of the keyspace, and its place among the threads.
#[derive(Drop)]
struct Part {
    items: Keyspace,
    place: usize,
}

/// Fills a new database and reads it. What was done is told on standard output, and the table of times on standard error. A folder that
/// is there already is refused.
pub fn run_shared<R: Machine + Send + Sync + 'static>(
    rt: &R,
    alloc: Global,
    sharing: Sharing<'_>,
) -> Result<()> {
    let folder = sharing.folder;
    if fs::exists(rt.host(), folder)? {
        bail!("{folder} is there already: each run wants a folder of its own");
    }
    let builder = Database::builder(alloc, folder)?.worker_threads_unchecked(sharing.workers);
    let database = builder.open(rt)?;
    let items = database.keyspace(rt, "pairs", KeyspaceCreateOptions::default(alloc)?)?;
    eprintln!(rt.host(); "{HEAD}")?;
    for task in [Task::Write, Task::Read] {
        let numbers = task.choice().numbers(alloc, sharing.pairs)?;
        let watch = Stopwatch::start(rt.host())?;
        let done = share_out(rt, alloc, &items, &numbers, sharing.threads, task)?;
        database.persist(rt, PersistMode::Buffer)?;
        tell(rt.host(), sharing, task, watch.spent(rt.host())?)?;
        say(rt, &database, &items, sharing, task, done)?;
    }
    let (_disk, closed) = database.close(rt);
    Ok(closed?)
}

// Has threads do a task with all pairs, each with a share of its own; answers with how many it was done.
fn share_out<R: Machine + Sync>(
    rt: &R,
    alloc: Global,
    items: &Keyspace,
    numbers: &[u64],
    threads: usize,
    task: Task,
) -> fjall::Result<u64> {
    let mut parts = Vec::with_capacity(alloc, threads)?;
    for place in 0..threads {
        parts.push(Part {
            items: items.clone()?,
            place,
        })?;
    }
    let done = thread::map_vec(rt, parts, &|part| work_at(rt, part, numbers, threads, task))?;
    let mut all: u64 = 0;
    for one in done {
        all = all.saturating_add(one?);
    }
    Ok(all)
}

// Does a thread's task with the pairs that stand at its place in each row of as many pairs as there are threads.
fn work_at<R: Wait>(
    rt: &R,
    part: Part,
    numbers: &[u64],
    threads: usize,
    task: Task,
) -> fjall::Result<u64> {
    let mut done: u64 = 0;
    for row in numbers.chunks(threads.max(1)) {
        let Some(number) = row.get(part.place) else {
            break;
        };
        if is_done(rt, &part.items, *number, task)? {
            done = done.saturating_add(1);
        }
    }
    Ok(done)
}

// Writes a pair, or reads it and looks whether it is the one that was written.
fn is_done<R: Wait>(rt: &R, items: &Keyspace, number: u64, task: Task) -> fjall::Result<bool> {
    let key = key_of(number);
    match task {
        Task::Write => {
            items.insert(rt, &key, &value_of(number))?;
            Ok(true)
        }
        Task::Read => {
            let found = items.get(rt, &key)?;
            Ok(found.is_some_and(|value| is_value_of(value.as_slice(), number)))
        }
    }
}

// Prints a row of the table.
fn tell(rt: &HostRuntime, sharing: Sharing<'_>, task: Task, spent: Spent) -> Result<()> {
    let row = Row {
        engine: "pothvilai",
        workload: task.name(),
        count: sharing.pairs,
        spent,
    };
    eprintln!(rt; "{row}")?;
    Ok(())
}

// Says what was done, and what stands then.
fn say<R: Machine>(
    rt: &R,
    database: &Database,
    items: &Keyspace,
    sharing: Sharing<'_>,
    task: Task,
    done: u64,
) -> Result<()> {
    let (name, threads) = (task.name(), sharing.threads);
    let (journals, journal) = (
        database.journal_count(rt)?,
        database.journal_disk_space(rt)?,
    );
    let (buffer, sealed) = (
        database.write_buffer_size(rt)?,
        items.sealed_memtable_count(rt)?,
    );
    let (tables, space) = (items.table_count(rt)?, items.disk_space(rt)?);
    let merges = database.compactions_completed(rt)?;
    println!(rt.host();
        "{name}: {done} by {threads} threads, {journals} journals of {journal} bytes, memtables {buffer} bytes, {sealed} sealed, {tables} tables of {space} bytes, {merges} merges"
    )?;
    Ok(())
}
