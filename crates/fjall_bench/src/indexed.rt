//! A main keyspace with its index: pairs loaded, found by a field of theirs, checked, and their index made anew.

use crate::clock::Stopwatch;
use crate::data::{VALUE_LEN, at_random, key_of};
use crate::report::{HEAD, Row};
use anyhow::{Result, bail};
use fjall_base::{Disk, KvPair, Slice};
use fjall_core::{Config, Core, View};
use fjall_disk_folder::FolderDisk;
use fjall_disk_memory::MemoryDisk;
use fjall_index::{Indexed, Slot};
use fjall_options::KeyspaceCreateOptions;
use std::alloc::Global;
use std::fs;

// So many pairs are loaded in one transaction.
const LOADED: usize = 10_000;

// So many pairs have one field.
const ALIKE: u64 = 10;

// Where a value has its field.
const FIELD: Slot = Slot { at: 0, len: 8 };

/// Measures an index over so many pairs, in memory or in a folder, which isn't there yet. What was done is told on standard output,
/// and the table of times on standard error.
pub fn run_indexed(rt: &HostRuntime, place: &str, count: u64) -> Result<()> {
    let alloc = rt.alloc();
    eprintln!(rt; "{HEAD}")?;
    if place == "memory" {
        return measure(rt, alloc, MemoryDisk::new(alloc), count);
    }
    if fs::exists(rt, place)? {
        bail!("{place} is there already: each run wants a folder of its own");
    }
    measure(rt, alloc, FolderDisk::open(rt, alloc, place)?, count)
}

// Opens a core on a disk.
fn opened<D: Disk + Drop>(alloc: Global, disk: D) -> fjall_base::Result<Core<D>> {
    let config = Config::new(alloc, "")?;
    match Core::open(alloc, config, disk) {
        Ok(core) => Ok(core),
        Err(refused) => Err(refused.error),
    }
}

// The value of a number: its field, which the numbers of a group have in common, and bytes that are always the same.
fn value_of(number: u64, groups: u64) -> [u8; VALUE_LEN] {
    let mut value = [0x76; VALUE_LEN];
    value[..8].copy_from_slice(&(number % groups.max(1)).to_be_bytes());
    value
}

// Loads the pairs of these numbers in one transaction.
fn load<D: Disk>(
    alloc: Global,
    core: &mut Core<D>,
    index: &Indexed<Slot>,
    numbers: &[u64],
    groups: u64,
) -> Result<()> {
    let mut pairs: Vec<KvPair> = Vec::with_capacity(alloc, numbers.len())?;
    for number in numbers {
        let key = Slice::new(alloc, &key_of(*number))?;
        let value = Slice::new(alloc, &value_of(*number, groups))?;
        pairs.push((key, value))?;
    }
    index.load(core, pairs)?;
    Ok(())
}

// Finds the pairs of each group, and says how many there are.
fn find_all<D: Disk>(
    alloc: Global,
    core: &mut Core<D>,
    index: &Indexed<Slot>,
    groups: u64,
) -> Result<u64> {
    let mut found = 0u64;
    for group in at_random(alloc, groups, 2)? {
        let pairs = index.find(core, View::Present, &group.to_be_bytes())?;
        found = found.saturating_add(pairs.len() as u64);
    }
    Ok(found)
}

// Prints a row of the table.
fn tell(rt: &HostRuntime, workload: &'static str, count: u64, watch: &Stopwatch) -> Result<()> {
    let row = Row {
        engine: "pothvilai",
        workload,
        count,
        spent: watch.spent(rt)?,
    };
    eprintln!(rt; "{row}")?;
    Ok(())
}

// Loads, finds, checks and makes the index anew over a disk.
fn measure<D: Disk + Drop>(rt: &HostRuntime, alloc: Global, disk: D, count: u64) -> Result<()> {
    let groups = count.div_ceil(ALIKE);
    let mut core = opened(alloc, disk)?;
    let index = Indexed::open(alloc, &mut core, b"pairs", b"by_group", FIELD)?;
    let numbers = at_random(alloc, count, 1)?;
    let watch = Stopwatch::start(rt)?;
    for chunk in numbers.chunks(LOADED) {
        load(alloc, &mut core, &index, chunk, groups)?;
    }
    tell(rt, "index: load", count, &watch)?;
    let watch = Stopwatch::start(rt)?;
    let found = find_all(alloc, &mut core, &index, groups)?;
    tell(rt, "index: find", found, &watch)?;
    let watch = Stopwatch::start(rt)?;
    index.check(&mut core)?;
    tell(rt, "index: check", count, &watch)?;
    let old = core.keyspace(b"by_nothing", KeyspaceCreateOptions::default(alloc)?)?;
    let watch = Stopwatch::start(rt)?;
    Indexed::rebuilt(alloc, &mut core, index.main(), old, FIELD)?;
    tell(rt, "index: rebuild", count, &watch)?;
    println!(rt; "index: {count} pairs loaded, {found} found")?;
    Ok(())
}
