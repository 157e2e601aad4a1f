//! Four threads raise one counter by optimistic transactions, which are tried again where they conflict.

ghost use Rattle.std.specs.Prelude.{◌≡◌, Some};

use crate::fresh_seen::{Caller, first_caller, open};
use anyhow::Result;
use fjall_base::Slice;
use fjall_disk_memory::MemoryDisk;
use fjall_seen::{CommitOutcome, Naming, Opened};
use std::alloc::Global;
use std::marker::Brand;
use std::sync::Wait;
use std::thread;
use std::thread::Threads;

/// How many threads there are, and how often each raises the counter.
const THREADS: usize = 4;

const TURNS: u8 = 25;

/// The counter's key.
const COUNTER: &[u8] = b"counter";

// Raises the counter by one, unless another thread did so meanwhile: answers whether it took place.
fn raise<J: Naming, R: Wait>(
    rt: &R,
    alloc: Global,
    id: u64,
    caller: &mut Caller<J>,
) -> fjall_base::Result<bool> {
    let mut write = caller.begin_as(rt, alloc)?;
    let found = caller.get_within_as(rt, &mut write, id, COUNTER)?;
    let count = found.map_or(0, |value| value.first().copied().unwrap_or(0));
    let next = Slice::new(alloc, &[count.wrapping_add(1)])?;
    write
        .transaction
        .insert(id, Slice::new(alloc, COUNTER)?, next)?;
    match caller.commit_as(rt, write)? {
        CommitOutcome::Ok => Ok(true),
        CommitOutcome::Conflicted => Ok(false),
        CommitOutcome::Aborted(error) => Err(error),
    }
}

// Raises the counter as often as a thread is to.
fn raise_all<J: Naming, R: Wait>(
    rt: &R,
    alloc: Global,
    id: u64,
    mut caller: Caller<J>,
) -> fjall_base::Result<()> {
    for _ in 0..TURNS {
        for _ in rt.forever() {
            if raise(rt, alloc, id, &mut caller)? {
                break;
            }
        }
    }
    Ok(())
}

fn run<J: Naming + Send, R: Threads + Wait + Sync + Print>(
    rt: &R,
    alloc: Global,
    opened: Opened<MemoryDisk>,
) -> Result<()>
    requires { J.table ≡ Some opened.table }
{
    let (mut caller, id) = first_caller::<J, R>(rt, alloc, opened)?;
    let mut callers = Vec::with_capacity(alloc, THREADS)?;
    for _ in 0..THREADS {
        callers.push(caller.split()?)?;
    }
    let raised = thread::map_vec(rt, callers, &|one| raise_all(rt, alloc, id, one))?;
    for one in raised {
        one?;
    }
    let found = caller.get_as(rt, id, COUNTER)?;
    let count = found.map_or(0, |value| value.first().copied().unwrap_or(0));
    println!(rt; "four threads: the counter is {count}")?;
    Ok(())
}

/// Four threads raise one counter to a hundred.
pub fn four_threads_count<R: Threads + Wait + Sync + Print>(rt: &R, alloc: Global) -> Result<()> {
    run::<Brand, R>(rt, alloc, open(alloc)?)
}
