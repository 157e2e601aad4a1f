//! Keeps jobs in a folder, which workers claim by optimistic transactions: no two of them get the same job.

mod queue;

use crate::machine::Machine;
use anyhow::{Context, Result};
use fjall::{KeyspaceCreateOptions, OptimisticTxDatabase, OptimisticTxKeyspace};
use queue::{Queue, read_number};
use std::sync::Wait;
use std::{str, thread};

// Prints the jobs of a kind.
fn show<R: Wait + Print>(rt: &R, kind: &str, jobs: &OptimisticTxKeyspace) -> Result<()> {
    print!(rt; "  {kind}:")?;
    for pair in jobs.inner().iter(rt) {
        let (key, text) = pair.into_inner()?;
        let (number, text) = (read_number(&key)?, str::from_utf8(text.as_slice())?);
        print!(rt; " [{number} {text}]")?;
    }
    println!(rt; "")?;
    Ok(())
}

// Two workers claim at once: both see the same first job, and one of them gets it.
fn claim_at_once<R: Wait + Print>(rt: &R, queue: &Queue) -> Result<()> {
    let (mut for_ann, mut for_bob) = (queue.db.write_tx(rt)?, queue.db.write_tx(rt)?);
    let seen_by_ann = queue.claim(rt, &mut for_ann)?.context("no job waits")?;
    let seen_by_bob = queue.claim(rt, &mut for_bob)?.context("no job waits")?;
    let bobs = for_bob.commit(rt)?;
    println!(rt; "Bob claims job {}: {bobs:?}", read_number(&seen_by_bob)?)?;
    let anns = for_ann.commit(rt)?;
    println!(rt; "Ann claims job {}: {anns:?}", read_number(&seen_by_ann)?)?;
    Ok(())
}

/// Runs the example in a folder.
pub fn run<R: Machine>(rt: &R, folder: &str) -> Result<()> {
    let alloc = rt.alloc();
    let db = OptimisticTxDatabase::builder(alloc, folder)?.open(rt)?;
    let queue = Queue {
        waiting: db.keyspace(rt, "waiting", KeyspaceCreateOptions::default(alloc)?)?,
        claimed: db.keyspace(rt, "claimed", KeyspaceCreateOptions::default(alloc)?)?,
        numbers: db.keyspace(rt, "numbers", KeyspaceCreateOptions::default(alloc)?)?,
        db,
    };
    for text in ["sweep the hall", "mend the roof", "feed the cat"] {
        queue.enqueue(rt, text)?;
    }
    claim_at_once(rt, &queue)?;
    show(rt, "waiting", &queue.waiting)?;
    show(rt, "claimed", &queue.claimed)?;
    let (anns, bobs) = thread::join(rt, || queue.work_off(rt), || queue.work_off(rt));
    let finished = anns?.saturating_add(bobs?);
    println!(rt; "both work in threads of their own: {finished} jobs are finished")?;
    show(rt, "waiting", &queue.waiting)?;
    let (_disk, closed) = queue.db.close(rt);
    Ok(closed?)
}
