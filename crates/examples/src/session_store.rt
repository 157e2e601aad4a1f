//! Keeps sessions of users in a folder; transactions of the single writer change both of its keyspaces together.

mod store;

use crate::machine::Machine;
use anyhow::Result;
use fjall::{KeyspaceCreateOptions, PersistMode, SingleWriterTxDatabase};
use std::alloc::Global;
use std::str;
use std::sync::Wait;
use store::{Store, read_stamped};

// The store that a database has.
fn store_of<R: Wait>(rt: &R, alloc: Global, db: SingleWriterTxDatabase) -> Result<Store> {
    Ok(Store {
        alloc,
        sessions: db.keyspace(rt, "sessions", KeyspaceCreateOptions::default(alloc)?)?,
        ends: db.keyspace(rt, "ends", KeyspaceCreateOptions::default(alloc)?)?,
        db,
    })
}

// A user logs in.
fn log_in<R: Wait + Print>(rt: &R, store: &Store, token: &str, user: &str, now: u64) -> Result<()> {
    let end = store.log_in(rt, token, user, now)?;
    println!(rt; "at {now} {user} logs in under {token}: {end:?}")?;
    Ok(())
}

// Removes the sessions that have ended, and prints those that are left.
fn expire<R: Wait + Print>(rt: &R, store: &Store, now: u64) -> Result<()> {
    let count = store.expire(rt, now)?;
    println!(rt; "at {now} sessions that have ended are removed: {count}")?;
    for pair in store.sessions.inner().iter(rt) {
        let (token, session) = pair.into_inner()?;
        let (end, user) = read_stamped(session.as_slice())?;
        let (token, user) = (str::from_utf8(token.as_slice())?, str::from_utf8(user)?);
        println!(rt; "  {token}: {user} until {end}")?;
    }
    Ok(())
}

/// Runs the example in a folder.
pub fn run<R: Machine>(rt: &R, folder: &str) -> Result<()> {
    let alloc = rt.alloc();
    let db = SingleWriterTxDatabase::builder(alloc, folder)?.open(rt)?;
    let morning = store_of(rt, alloc, db)?;
    log_in(rt, &morning, "amber", "Ada", 0)?;
    log_in(rt, &morning, "beryl", "Ben", 10)?;
    log_in(rt, &morning, "beryl", "Cleo", 15)?;
    log_in(rt, &morning, "coral", "Cleo", 15)?;
    log_in(rt, &morning, "amber", "Ada", 20)?;
    expire(rt, &morning, 40)?;
    morning.db.persist(rt, PersistMode::SyncAll)?;
    let (disk, closed) = morning.db.close(rt);
    drop(disk);
    closed?;
    println!(rt; "\nThe store is closed, and opened again")?;
    let db = SingleWriterTxDatabase::builder(alloc, folder)?.open(rt)?;
    let evening = store_of(rt, alloc, db)?;
    expire(rt, &evening, 49)?;
    expire(rt, &evening, 50)?;
    let (_disk, closed) = evening.db.close(rt);
    Ok(closed?)
}
