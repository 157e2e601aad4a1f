//! Two threads, each with a key of its own: it reads its write back, and behind a removal a snapshot has the value still.

ghost use Rattle.std.specs.Prelude.{◌≡◌, Some};

use crate::fresh_seen::{Caller, first_caller, open};
use anyhow::Result;
use fjall_disk_memory::MemoryDisk;
use fjall_seen::{Naming, Opened};
use std::alloc::Global;
use std::marker::Brand;
use std::sync::Wait;
use std::thread;
use std::thread::Threads;

// What a thread read: its write, the key once it is removed, and the key in a snapshot of before.
#[derive(Debug, Drop)]
struct Told {
    written: bool,
    removed: bool,
    kept: bool,
}

fn turn<J: Naming, R: Wait>(
    rt: &R,
    alloc: Global,
    id: u64,
    mut caller: Caller<J>,
    key: &[u8],
) -> fjall_base::Result<Told> {
    caller.insert_as(rt, id, key, b"value")?;
    let written = caller.get_as(rt, id, key)?.is_some();
    let snapshot = caller.snapshot_as(rt, alloc)?;
    caller.remove_as(rt, id, key)?;
    let removed = caller.get_as(rt, id, key)?.is_none();
    let kept = caller.read_as(rt, &snapshot, id, key)?.is_some();
    Ok(Told {
        written,
        removed,
        kept,
    })
}

fn run<J: Naming + Send, R: Threads + Wait + Sync + Print>(
    rt: &R,
    alloc: Global,
    opened: Opened<MemoryDisk>,
) -> Result<()>
    requires { J.table ≡ Some opened.table }
{
    let (mut caller, id) = first_caller::<J, R>(rt, alloc, opened)?;
    let (one, two) = (caller.split()?, caller.split()?);
    let (a, b) = thread::join(
        rt,
        || turn(rt, alloc, id, one, b"a"),
        || turn(rt, alloc, id, two, b"b"),
    );
    let (a, b) = (a?, b?);
    println!(rt; "a: {a:?}")?;
    println!(rt; "b: {b:?}")?;
    Ok(())
}

/// Two threads have keys of their own.
pub fn two_threads_have_keys_of_their_own<R: Threads + Wait + Sync + Print>(
    rt: &R,
    alloc: Global,
) -> Result<()> {
    run::<Brand, R>(rt, alloc, open(alloc)?)
}
