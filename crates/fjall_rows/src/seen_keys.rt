//! Four threads, each with what it has seen, insert a hundred keys each, and read each one back.

ghost use Rattle.std.specs.Prelude.{◌≡◌, Some};

use crate::fresh_seen::{Caller, first_caller, open};
use anyhow::Result;
use fjall_disk_memory::MemoryDisk;
use fjall_seen::{Naming, Opened};
use std::alloc::Global;
use std::marker::Brand;
use std::sync::Wait;
use std::thread;
use std::thread::Threads;

/// How many threads there are, and how many keys each inserts.
const THREADS: u8 = 4;

const KEYS: u8 = 100;

// A thread's own part: what it has seen, and its number.
#[derive(Drop)]
struct Part<J: Naming> {
    caller: Caller<J>,
    number: u8,
}

// Inserts each key of a thread and reads it back; answers how many were read back with the value that was inserted.
fn insert_all<J: Naming, R: Wait>(rt: &R, id: u64, part: Part<J>) -> fjall_base::Result<u64> {
    let Part { mut caller, number } = part;
    let mut right: u64 = 0;
    for key in 0..KEYS {
        let name = [number, key];
        caller.insert_as(rt, id, &name, &[key])?;
        let found = caller.get_as(rt, id, &name)?;
        if found.is_some_and(|value| value.as_slice() == [key].as_slice()) {
            right = right.saturating_add(1);
        }
    }
    Ok(right)
}

// How many of all keys there are.
fn count<J: Naming, R: Wait>(rt: &R, caller: &mut Caller<J>, id: u64) -> fjall_base::Result<u64> {
    let mut found: u64 = 0;
    for number in 0..THREADS {
        for key in 0..KEYS {
            if caller.get_as(rt, id, &[number, key])?.is_some() {
                found = found.saturating_add(1);
            }
        }
    }
    Ok(found)
}

fn run<J: Naming + Send, R: Threads + Wait + Sync + Print>(
    rt: &R,
    alloc: Global,
    opened: Opened<MemoryDisk>,
) -> Result<()>
    requires { J.table ≡ Some opened.table }
{
    let (mut caller, id) = first_caller::<J, R>(rt, alloc, opened)?;
    let mut parts = Vec::with_capacity(alloc, THREADS.into())?;
    for number in 0..THREADS {
        parts.push(Part {
            caller: caller.split()?,
            number,
        })?;
    }
    let read = thread::map_vec(rt, parts, &|part| insert_all(rt, id, part))?;
    let mut right: u64 = 0;
    for one in read {
        right = right.saturating_add(one?);
    }
    let found = count(rt, &mut caller, id)?;
    let visible = caller.visible_seqno();
    println!(rt; "four threads: {right} read back, {found} keys, visible number {visible}")?;
    Ok(())
}

/// Four threads insert a hundred keys each.
pub fn four_threads_insert<R: Threads + Wait + Sync + Print>(rt: &R, alloc: Global) -> Result<()> {
    run::<Brand, R>(rt, alloc, open(alloc)?)
}
