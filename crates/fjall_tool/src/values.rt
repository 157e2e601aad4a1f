//! The commands about one pair, one keyspace or the keyspaces' names.

use crate::database::{self, Machine};
use crate::spelling::{bytes_of, word_of};
use anyhow::{Context, Result};
use fjall::{Database, PersistMode};
use fjall_script::Status;

// Prints the value of a key; where it has none that is status 1, and nothing is printed.
fn show_value<R: Machine>(rt: &R, db: &Database, name: &str, key: &str) -> Result<Status> {
    let keyspace = database::keyspace(rt, db, name)?;
    let key = bytes_of(rt.host().alloc(), key)?;
    let Some(value) = keyspace.get(rt, &key)? else {
        return Ok(Status::Failure);
    };
    println!(rt.host(); "{}", word_of(rt.host().alloc(), &value)?.as_str())?;
    Ok(Status::Success)
}

/// `get FOLDER NAME KEY` prints the value of a key.
pub fn get<R: Machine + Send + 'static>(rt: &R, arguments: &[String]) -> Result<Status> {
    let [folder, name, key] = arguments else {
        return Ok(Status::Usage);
    };
    let db = database::open(rt, folder)?;
    let done = show_value(rt, &db, name, key);
    database::close(rt, db, done)
}

// Gives a key a value, and syncs it.
fn put_value<R: Machine>(
    rt: &R,
    db: &Database,
    name: &str,
    key: &str,
    value: &str,
) -> Result<Status> {
    let keyspace = database::keyspace_or_make(rt, db, name)?;
    let (key, value) = (
        bytes_of(rt.host().alloc(), key)?,
        bytes_of(rt.host().alloc(), value)?,
    );
    keyspace.insert(rt, &key, &value)?;
    db.persist(rt, PersistMode::SyncAll)?;
    Ok(Status::Success)
}

/// `put FOLDER NAME KEY VALUE` gives a key a value. Folder and keyspace are made where they are missing.
pub fn put<R: Machine + Send + 'static>(rt: &R, arguments: &[String]) -> Result<Status> {
    let [folder, name, key, value] = arguments else {
        return Ok(Status::Usage);
    };
    let db = database::open_or_make(rt, folder)?;
    let done = put_value(rt, &db, name, key, value);
    database::close(rt, db, done)
}

// Removes a key, and syncs that.
fn remove_key<R: Machine>(rt: &R, db: &Database, name: &str, key: &str) -> Result<Status> {
    let keyspace = database::keyspace(rt, db, name)?;
    let key = bytes_of(rt.host().alloc(), key)?;
    keyspace.remove(rt, &key)?;
    db.persist(rt, PersistMode::SyncAll)?;
    Ok(Status::Success)
}

/// `del FOLDER NAME KEY` removes a key, whether it has a value or not.
pub fn del<R: Machine + Send + 'static>(rt: &R, arguments: &[String]) -> Result<Status> {
    let [folder, name, key] = arguments else {
        return Ok(Status::Usage);
    };
    let db = database::open(rt, folder)?;
    let done = remove_key(rt, &db, name, key);
    database::close(rt, db, done)
}

// Prints the names of the keyspaces, a line each.
fn show_names<R: Machine>(rt: &R, db: &Database) -> Result<Status> {
    for name in &db.list_keyspace_names(rt)? {
        println!(rt.host(); "{}", word_of(rt.host().alloc(), name.as_bytes())?.as_str())?;
    }
    Ok(Status::Success)
}

/// `keyspaces FOLDER` prints the keyspaces' names, sorted.
pub fn keyspaces<R: Machine + Send + 'static>(rt: &R, arguments: &[String]) -> Result<Status> {
    let [folder] = arguments else {
        return Ok(Status::Usage);
    };
    let db = database::open(rt, folder)?;
    let done = show_names(rt, &db);
    database::close(rt, db, done)
}

// Flushes what a keyspace has in memory, and merges all of its tables.
fn merge_tables<R: Machine>(rt: &R, db: &Database, name: &str) -> Result<Status> {
    let keyspace = database::keyspace(rt, db, name)?;
    keyspace.rotate_memtable_and_wait(rt).context("flushing")?;
    keyspace.major_compact(rt).context("merging")?;
    Ok(Status::Success)
}

/// `merge FOLDER NAME` merges all tables of a keyspace into one level.
pub fn merge<R: Machine + Send + 'static>(rt: &R, arguments: &[String]) -> Result<Status> {
    let [folder, name] = arguments else {
        return Ok(Status::Usage);
    };
    let db = database::open(rt, folder)?;
    let done = merge_tables(rt, &db, name);
    database::close(rt, db, done)
}
