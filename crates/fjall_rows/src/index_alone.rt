//! What an index over handles does by itself: a stale one is made right, pairs are loaded, and threads share one.

use crate::fresh_handles::{Data, FIELD, Handles, Machine, index_of, open, pairs_of};
use fjall::{IndexResult, IndexedKeyspace, KeyspaceCreateOptions, Slice};
use std::{fmt, thread};

// Prints a line.
fn say<R: Machine, T: fmt::Debug>(rt: &R, what: &str, told: &T) -> fjall::Result<()> {
    println!(rt; "{what}: {told:?}")?;
    Ok(())
}

// How many pairs and entries an index has, and what a check of it answers.
fn show<R: Machine>(rt: &R, what: &str, indexed: &Handles) -> IndexResult<()> {
    let [pairs, entries] = pairs_of(rt, indexed)?;
    let told = (pairs.len(), entries.len(), indexed.check(rt));
    Ok(say(rt, what, &told)?)
}

/// Pairs were written without the index: it is refused as stale, then made right, and loaded.
pub fn a_stale_index_is_made_right<R: Machine>(rt: &R) -> IndexResult<()> {
    let alloc = rt.alloc();
    let data: Data = open(rt, alloc, 0)?;
    for (name, key) in [("main", "a"), ("main", "b"), ("index", "c")] {
        let items = data.keyspace(rt, name, KeyspaceCreateOptions::default(alloc)?)?;
        items.insert(rt, key.as_bytes(), b"xx1")?;
    }
    say(rt, "one keyspace", &index_of(rt, &data, "main").err())?;
    say(rt, "stale", &index_of(rt, &data, "index").err())?;
    let rebuilt = IndexedKeyspace::rebuilt(rt, alloc, &data, "main", "index", FIELD)?;
    if let Ok(indexed) = rebuilt {
        show(rt, "rebuilt", &indexed)?;
        let pair = (Slice::new(alloc, b"d")?, Slice::new(alloc, b"yy1")?);
        say(rt, "loaded", &indexed.load(rt, &[pair])?)?;
        say(rt, "found", &indexed.find(rt, b"yy")?)?;
        show(rt, "behind it", &indexed)?;
    }
    Ok(data.close(rt).1?)
}

// Gives eight keys values over and over, whose field is the thread's and the key's.
fn put_all<R: Machine>(rt: &R, indexed: &Handles, thread: u8) -> IndexResult<()> {
    for number in 0..100u8 {
        indexed.put(rt, &[number % 8], &[thread, number % 8, number])?;
    }
    Ok(())
}

/// Two threads put over the same keys.
pub fn two_threads_put_at_once<R: Machine>(rt: &R) -> IndexResult<()> {
    let data: Data = open(rt, rt.alloc(), 0)?;
    let indexed = index_of(rt, &data, "index")?;
    let (one, two) = thread::join(rt, || put_all(rt, &indexed, 1), || put_all(rt, &indexed, 2));
    one?;
    two?;
    show(rt, "two threads over eight keys", &indexed)?;
    Ok(data.close(rt).1?)
}
