//! All workloads, one after another.

use crate::clock::{Spent, Stopwatch};
use crate::data::count_digests;
use crate::database::{closed, flush, merge, opened};
use crate::limits::{append_each, fill_memtable, make_pairs};
use crate::reads::{count_hits, count_misses, count_ranges, scan};
use crate::report::{HEAD, Row};
use crate::rows::{Action, GROUPS, Group, Workload};
use crate::writes::{write_batches, write_each};
use anyhow::{Result, bail};
use fjall_base::Disk;
use fjall_disk_folder::FolderDisk;
use fjall_disk_memory::MemoryDisk;
use fjall_engine::Engine;
use fjall_options::KeyspaceCreateOptions;
use std::alloc::Global;
use std::fs;

/// What is to be measured: over `memory` or a folder, with so many pairs, and by one group of workloads or all usual ones.
#[derive(Clone, Copy)]
pub struct Measuring<'a> {
    pub place: &'a str,
    pub count: u64,
    pub group: Option<&'a str>,
}

impl Measuring<'_> {
    fn has(&self, group: &Group) -> bool {
        match self.group {
            Some(name) => group.name == name,
            None => group.is_usual,
        }
    }
}

/// Runs groups of workloads, each over a database of its own. What was done is told on standard output, the same in each run,
/// and the table of times on standard error. A folder that has one of these databases already is refused.
pub fn run(rt: &HostRuntime, measuring: Measuring<'_>) -> Result<()> {
    refuse_old(rt, measuring)?;
    eprintln!(rt; "{HEAD}")?;
    for group in &GROUPS {
        if measuring.has(group) {
            run_in(rt, measuring, group)?;
        }
    }
    Ok(())
}

// The folder of a group's database.
fn folder_of(alloc: Global, place: &str, group: &Group) -> Result<String> {
    Ok(format!(in alloc; "{place}/{}", group.name)?)
}

// Refuses a folder in which an earlier run left a database, which would be gone on with.
fn refuse_old(rt: &HostRuntime, measuring: Measuring<'_>) -> Result<()> {
    if measuring.place == "memory" {
        return Ok(());
    }
    for group in &GROUPS {
        let folder = folder_of(rt.alloc(), measuring.place, group)?;
        if measuring.has(group) && fs::exists(rt, folder.as_str())? {
            bail!(
                "{} is there already: each run wants folders of its own",
                folder.as_str()
            );
        }
    }
    Ok(())
}

// Runs a group's workloads in memory or in its folder.
fn run_in(rt: &HostRuntime, measuring: Measuring<'_>, group: &Group) -> Result<()> {
    let alloc = rt.alloc();
    let count = measuring.count;
    if measuring.place == "memory" {
        return run_group(rt, alloc, MemoryDisk::new(alloc), group, count);
    }
    let folder = folder_of(alloc, measuring.place, group)?;
    let disk = FolderDisk::open(rt, alloc, folder.as_str())?;
    run_group(rt, alloc, disk, group, count)
}

// Runs a group's workloads over a database on its disk.
fn run_group<D: Disk + Drop>(
    rt: &HostRuntime,
    alloc: Global,
    disk: D,
    group: &Group,
    count: u64,
) -> Result<()> {
    let mut core = opened(alloc, disk)?;
    let id = core.keyspace(b"pairs", KeyspaceCreateOptions::default(alloc)?)?;
    for workload in group.workloads {
        let numbers = workload.2.numbers(alloc, count)?;
        core = run_workload(rt, alloc, core, id, workload, &numbers)?;
    }
    Ok(())
}

// Runs a workload over a database, and says what it holds then.
fn run_workload<D: Disk + Drop>(
    rt: &HostRuntime,
    alloc: Global,
    core: Box<Engine<D>>,
    id: u64,
    workload: &Workload,
    numbers: &[u64],
) -> Result<Box<Engine<D>>> {
    let Workload(name, action, _) = *workload;
    let count = numbers.len() as u64;
    let mut core = core;
    let mut done = count;
    if matches!(action, Action::Close | Action::Reopen | Action::Append) {
        core = restart(rt, alloc, core, workload, numbers)?;
    } else {
        let watch = Stopwatch::start(rt)?;
        done = serve(alloc, &mut core, id, action, numbers)?;
        tell(rt, workload, count, watch.spent(rt)?)?;
    }
    if done < count {
        bail!("{name}: a pair is missing");
    }
    say(rt, &core, id, name, done)?;
    Ok(core)
}

// Closes a database, goes on with its disk, and opens it again, one of which is measured.
fn restart<D: Disk + Drop>(
    rt: &HostRuntime,
    alloc: Global,
    core: Box<Engine<D>>,
    workload: &Workload,
    numbers: &[u64],
) -> Result<Box<Engine<D>>> {
    let watch = Stopwatch::start(rt)?;
    let mut disk = closed(core)?;
    let closing = watch.spent(rt)?;
    let watch = Stopwatch::start(rt)?;
    if let Action::Append = workload.1 {
        append_each(&mut disk, numbers)?;
    }
    let appending = watch.spent(rt)?;
    let watch = Stopwatch::start(rt)?;
    let core = opened(alloc, disk)?;
    let spent = match workload.1 {
        Action::Close => closing,
        Action::Append => appending,
        _ => watch.spent(rt)?,
    };
    tell(rt, workload, numbers.len() as u64, spent)?;
    Ok(core)
}

// Does something with each number, and says how many operations were done, or how many pairs were found.
fn serve<D: Disk>(
    alloc: Global,
    core: &mut Engine<D>,
    id: u64,
    action: Action,
    numbers: &[u64],
) -> fjall_base::Result<u64> {
    match action {
        Action::ReadHit => return count_hits(core, id, numbers),
        Action::ReadMiss => return count_misses(core, id, numbers),
        Action::ScanForward => return scan(core, id, false),
        Action::ScanBack => return scan(core, id, true),
        Action::ReadRanges => return count_ranges(alloc, core, id, numbers),
        Action::Digest(digested) => return Ok(count_digests(numbers, digested)),
        Action::FillMemtable => return fill_memtable(alloc, numbers),
        Action::MakePairs => return make_pairs(alloc, numbers),
        Action::InsertBatches => write_batches(alloc, core, id, numbers)?,
        Action::Flush => flush(alloc, core, id)?,
        Action::Merge => merge(alloc, core, id)?,
        _ => write_each(alloc, core, id, action, numbers)?,
    }
    Ok(numbers.len() as u64)
}

// Prints a row of the table.
fn tell(rt: &HostRuntime, workload: &Workload, count: u64, spent: Spent) -> Result<()> {
    let row = Row {
        engine: match workload.1 {
            Action::Digest(_) => "sha2 alone",
            Action::Append => "disk alone",
            Action::FillMemtable => "memtable alone",
            Action::MakePairs => "pairs alone",
            _ => "pothvilai",
        },
        workload: workload.0,
        count,
        spent,
    };
    eprintln!(rt; "{row}")?;
    Ok(())
}

// Says what a workload did and what the database holds then.
fn say<D: Disk>(rt: &HostRuntime, core: &Engine<D>, id: u64, name: &str, done: u64) -> Result<()> {
    let (seqno, versions) = (core.visible_seqno(), core.approximate_len(id));
    let (journal, tables) = (core.journal_disk_space(), core.disk_space(Some(id)));
    println!(rt;
        "{name}: {done}, visible number {seqno}, {versions} versions, journal {journal} bytes, tables {tables} bytes"
    )?;
    Ok(())
}
