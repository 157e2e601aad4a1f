//! The database of a folder, opened for one command.

use anyhow::{Context, Result, bail};
use fjall::{Database, Host, Keyspace, KeyspaceCreateOptions};
use fjall_files::MARKER_FILE;
use fjall_script::Status;
use log::Log;
use std::path::Path;
use std::sync::Wait;
use std::thread::Threads;

/// A runtime over which the program opens databases.
pub trait Machine: Threads + Wait + Log + Host + Copy + Drop {}

impl<R: Threads + Wait + Log + Host + Copy + Drop> Machine for R {}

/// Opens the database of a folder, which is made where it is missing.
pub fn open_or_make<R: Machine + Send + 'static>(rt: &R, folder: &str) -> Result<Database> {
    let opened = Database::builder(rt.host().alloc(), folder)?.open(rt);
    opened.context(format_args!("{folder}"))
}

/// Opens the database that stands in a folder. Where none does that is told, and nothing is made.
pub fn open<R: Machine + Send + 'static>(rt: &R, folder: &str) -> Result<Database> {
    let marker = Path::new(folder).join(rt.host().alloc(), MARKER_FILE)?;
    if !marker.exists(rt.host()) {
        bail!("{folder}: no database stands there");
    }
    open_or_make(rt, folder)
}

/// The keyspace of a name, which is made with the default options where none has it.
pub fn keyspace_or_make<R: Machine>(rt: &R, db: &Database, name: &str) -> Result<Keyspace> {
    let options = KeyspaceCreateOptions::default(rt.host().alloc())?;
    let made = db.keyspace(rt, name, options);
    made.context(format_args!("keyspace {name}"))
}

/// The keyspace of a name. Where none has it that is told, and none is made.
pub fn keyspace<R: Machine>(rt: &R, db: &Database, name: &str) -> Result<Keyspace> {
    if !db.keyspace_exists(rt, name)? {
        bail!("{name}: no keyspace has that name");
    }
    keyspace_or_make(rt, db, name)
}

/// Closes a database behind a command, whose own refusal comes first.
pub fn close<R: Machine>(rt: &R, db: Database, done: Result<Status>) -> Result<Status> {
    let (_disk, closed) = db.close(rt);
    let status = done?;
    closed.context("at the closing")?;
    Ok(status)
}
