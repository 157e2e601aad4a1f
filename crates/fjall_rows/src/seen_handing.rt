//! A thread is handed what another one has seen, and reads its last write.

ghost use Rattle.std.specs.Prelude.{◌≡◌, Some};

use crate::fresh_seen::{Caller, first_caller, open};
use anyhow::Result;
use fjall_disk_memory::MemoryDisk;
use fjall_seen::{Naming, Opened};
use std::alloc::Global;
use std::marker::Brand;
use std::sync::Wait;
use std::thread;
use std::thread::Threads;

// Writes a key a hundred times, and hands out what it has seen then.
fn write_all<J: Naming, R: Wait>(
    rt: &R,
    id: u64,
    mut caller: Caller<J>,
) -> fjall_base::Result<Caller<J>> {
    for count in 1..101u8 {
        caller.insert_as(rt, id, b"last", &[count])?;
    }
    Ok(caller)
}

// Reads the key.
fn read_last<J: Naming, R: Wait>(rt: &R, id: u64, mut caller: Caller<J>) -> fjall_base::Result<u8> {
    let found = caller.get_as(rt, id, b"last")?;
    Ok(found.map_or(0, |value| value.first().copied().unwrap_or(0)))
}

fn run<J: Naming + Send, R: Threads + Wait + Sync + Print>(
    rt: &R,
    alloc: Global,
    opened: Opened<MemoryDisk>,
) -> Result<()>
    requires { J.table ≡ Some opened.table }
{
    let (mut caller, id) = first_caller::<J, R>(rt, alloc, opened)?;
    let first = caller.split()?;
    let (handed, ()) = thread::join(rt, || write_all(rt, id, first), || ());
    let handed = handed?;
    let (read, ()) = thread::join(rt, || read_last(rt, id, handed), || ());
    let read = read?;
    println!(rt; "one is handed what another saw, and reads {read}")?;
    Ok(())
}

/// One thread writes, and another that is handed what it has seen reads its last write.
pub fn one_is_handed_what_another_saw<R: Threads + Wait + Sync + Print>(
    rt: &R,
    alloc: Global,
) -> Result<()> {
    run::<Brand, R>(rt, alloc, open(alloc)?)
}
