//! The command `load`: pairs are brought into a keyspace as they are read, some at a time.

use crate::database::{self, Machine};
use crate::pairs::{Pair, pair};
use crate::spelling::bytes_of;
use anyhow::{Context, Result, bail};
use fjall::{Database, Keyspace, OwnedWriteBatch, PersistMode};
use fjall_script::Status;
use std::io::{BufRead, BufReader, IsTerminal, Write};

/// So many pairs are one command at most, and so many bytes of lines, but for the last line.
const MOST_PAIRS: usize = 1000;

const MOST_BYTES: usize = 1 << 20;

// A load that goes on.
#[derive(Drop)]
struct Load<'a, R: Machine> {
    rt: &'a R,
    db: &'a Database,
    // the one that the last line `keyspace NAME` chose, or the one that was asked for
    keyspace: Option<Keyspace>,
    batch: OwnedWriteBatch,
    // how many bytes of lines the batch has
    bytes: usize,
    pairs: u64,
    // whether somebody looks on
    is_watched: bool,
}

impl<R: Machine> Load<'_, R> {
    // Commits what was read and isn't yet in the keyspace, and tells how far it came.
    fn commit(&mut self) -> Result<()> {
        let next = self.db.batch()?;
        let batch = std::mem::replace(&mut self.batch, next);
        self.bytes = 0;
        batch.commit(self.rt)?;
        if self.is_watched {
            eprint!(self.rt.host(); "\r{} pairs", self.pairs)?;
        }
        Ok(())
    }

    // Adds a pair to the batch.
    fn add(&mut self, (key, value): &Pair) -> Result<()> {
        let Some(keyspace) = &self.keyspace else {
            bail!("no line `keyspace NAME` stands ahead of it");
        };
        match value {
            Some(value) => self.batch.insert(keyspace, key, value)?,
            None => self.batch.remove(keyspace, key)?,
        }
        Ok(())
    }

    // Takes a line: a pair, or `keyspace NAME`, behind which those of another keyspace come.
    fn take(&mut self, line: &[u8]) -> Result<()> {
        let alloc = self.rt.host().alloc();
        if let Some(word) = line.strip_prefix(b"keyspace ") {
            let name = bytes_of(alloc, str::from_utf8(word)?)?;
            let keyspace = database::keyspace_or_make(self.rt, self.db, str::from_utf8(&name)?)?;
            self.keyspace = Some(keyspace);
            return Ok(());
        }
        let Some(pair) = pair(alloc, line)? else {
            bail!("it is no pair");
        };
        self.add(&pair)?;
        self.pairs = self.pairs.saturating_add(1);
        self.bytes = self.bytes.saturating_add(line.len());
        if self.batch.len() >= MOST_PAIRS || self.bytes >= MOST_BYTES {
            self.commit()?;
        }
        Ok(())
    }
}

// Loads all lines of standard input.
fn load_lines<R: Machine>(rt: &R, load: &mut Load<'_, R>) -> Result<()> {
    let alloc = rt.host().alloc();
    let mut number = 0u64;
    for line in BufReader::new(alloc, rt.host().stdin())?.split(alloc, b'\n') {
        let line = line.context("standard input")?;
        number = number.saturating_add(1);
        load.take(&line).context(format_args!("line {number}"))?;
    }
    load.commit()
}

// Loads all lines, those ahead of any line `keyspace NAME` into the keyspace of the name that is given, syncs them, and prints how many
// pairs they are.
fn load_into<R: Machine>(rt: &R, db: &Database, name: Option<&String>) -> Result<Status> {
    let keyspace = match name {
        Some(name) => Some(database::keyspace_or_make(rt, db, name)?),
        None => None,
    };
    let mut load = Load {
        rt,
        db,
        keyspace,
        batch: db.batch()?,
        bytes: 0,
        pairs: 0,
        is_watched: rt.host().stderr().is_terminal(),
    };
    let loaded = load_lines(rt, &mut load);
    if load.is_watched {
        eprintln!(rt.host(); "")?;
    }
    loaded?;
    db.persist(rt, PersistMode::SyncAll)?;
    println!(rt.host(); "loaded {}", load.pairs)?;
    Ok(Status::Success)
}

/// `load FOLDER [NAME]` brings the pairs of standard input into the keyspaces that its lines name, or into that of NAME. Folder and keyspaces
/// are made where they are missing. What was read before a line that is refused stays loaded, but for the last pairs.
pub fn run<R: Machine + Send + 'static>(rt: &R, arguments: &[String]) -> Result<Status> {
    let [folder, names @ ..] = arguments else {
        return Ok(Status::Usage);
    };
    if names.len() > 1 {
        return Ok(Status::Usage);
    }
    let db = database::open_or_make(rt, folder)?;
    let done = load_into(rt, &db, names.first());
    database::close(rt, db, done)
}
