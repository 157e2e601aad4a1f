//! A session: a database, the handles of its keyspaces, and the snapshots and transactions that lines opened.

use crate::answers::{Answer, Done};
use crate::kinds::{AnyDatabase, AnyKeyspace, AnyTransaction, Settings, of_each, of_either};
use crate::lines::{Change, Command, Query, Step, Work, parse};
use crate::medium::{Machine, Medium};
use crate::reads::{ends, read_shown};
use crate::words::{Item, Pair, Wishes};
use fjall::{Disk, Error, Identified, Keyspace, OwnedWriteBatch, PersistMode, Result, Snapshot};
use fjall_recorder::LineError;
use std::alloc::Global;
use std::sync::Wait;
use std::thread::Threads;
use std::{mem, thread};

/// How often is looked whether workers are done.
const MOST_LOOKS: usize = 10_000_000;

// What a line opened that has a number.
#[derive(Drop)]
enum Opened<D: Disk + Drop> {
    // It was refused, or isn't open any more.
    Nothing,
    Snapshot(Snapshot<D>),
    Transaction(AnyTransaction<D>),
}

/// A database and what lines opened of it.
#[derive(Drop)]
pub struct Session<D: Disk + Drop> {
    pub alloc: Global,
    settings: Settings,
    // none where an opening was refused
    database: Option<AnyDatabase<D>>,
    is_open: bool,
    // by the ids of their keyspaces
    handles: Vec<(u64, AnyKeyspace<D>)>,
    // by the numbers of their lines, from 1
    opened: Vec<Opened<D>>,
}

// The handle of a keyspace by its id.
fn handle_of<D: Disk + Drop>(
    handles: &[(u64, AnyKeyspace<D>)],
    id: u64,
) -> Result<&AnyKeyspace<D>> {
    for (own, handle) in handles {
        if *own == id {
            return Ok(handle);
        }
    }
    Err(Error::UnknownKeyspace)
}

// The transaction of a line by its number.
fn transaction_of<D: Disk + Drop>(
    opened: &mut [Opened<D>],
    number: usize,
) -> Result<&mut AnyTransaction<D>> {
    match opened.get_mut(number.wrapping_sub(1)) {
        Some(Opened::Transaction(transaction)) => Ok(transaction),
        _ => Err(Error::SnapshotClosed),
    }
}

// Adds items to a batch, and looks whether there are handles of their keyspaces.
fn fill<D: Disk + Drop>(
    batch: &mut OwnedWriteBatch<D>,
    handles: &[(u64, AnyKeyspace<D>)],
    items: &[Item],
) -> Result<()> {
    let mut known = Ok(());
    for (id, key, value) in items {
        match value {
            Some(value) => batch.insert(id, key, value)?,
            None => batch.remove(id, key)?,
        }
        if handle_of(handles, *id).is_err() {
            known = Err(Error::UnknownKeyspace);
        }
    }
    known
}

// Brings pairs into a keyspace as one bulk write.
fn ingest<R: Wait, D: Disk + Drop>(rt: &R, keyspace: &Keyspace<D>, pairs: &[Pair]) -> Result<()> {
    let mut ingestion = keyspace.start_ingestion();
    for (key, value) in pairs {
        match value {
            Some(value) => ingestion.write(key, value)?,
            None => ingestion.write_tombstone(key)?,
        }
    }
    ingestion.finish(rt)
}

impl<D: Medium + Send + 'static> Session<D> {
    /// Opens a database.
    pub fn open<R: Machine + Send + 'static>(
        rt: &R,
        alloc: Global,
        settings: Settings,
    ) -> Result<Session<D>> {
        let database = AnyDatabase::open(rt, alloc, &settings)?;
        Ok(Session {
            alloc,
            settings,
            database: Some(database),
            is_open: true,
            handles: Vec::new(alloc),
            opened: Vec::new(alloc),
        })
    }

    // Opens the database again; what was opened of it before is dropped.
    fn reopen<R: Machine + Send + 'static>(&mut self, rt: &R) -> Done {
        if self.is_open {
            return Ok(Answer::Open);
        }
        self.handles.clear();
        for opened in self.opened.iter_mut() {
            *opened = Opened::Nothing;
        }
        self.database = None;
        self.database = Some(AnyDatabase::open(rt, self.alloc, &self.settings)?);
        self.is_open = true;
        Ok(Answer::Done)
    }

    // Opens it again, if what it left is kept.
    fn open_again<R: Machine + Send + 'static>(&mut self, rt: &R, closes: bool) -> Done {
        if !D::is_kept() {
            return Err(LineError::BadLine);
        }
        if closes {
            // the opening alone is told
            let _ = self.close(rt);
        }
        self.reopen(rt)
    }

    /// What a line is answered.
    pub fn take<R: Machine + Send + 'static>(&mut self, rt: &R, line: &str) -> Done {
        let command = parse(self.alloc, line)?;
        if !command.is_of(self.settings.kind) {
            return Err(LineError::BadLine);
        }
        match &command {
            Command::Open => self.open_again(rt, false),
            Command::Reopen => self.open_again(rt, true),
            _ => self.run(rt, &command),
        }
    }
}

impl<D: Disk + Drop> Session<D> {
    // The database, where an opening wasn't refused.
    fn database(&self) -> Result<&AnyDatabase<D>> {
        match &self.database {
            Some(database) => Ok(database),
            None => Err(Error::Poisoned),
        }
    }

    // Closes the database by another handle of it.
    fn close<R: Threads + Wait>(&mut self, rt: &R) -> Result<()> {
        self.is_open = false;
        let database = self.database()?;
        let (disk, closed) = of_each!(AnyDatabase, database, it => it.clone()?.close(rt));
        drop(disk);
        closed
    }

    /// Closes the database at the end, where it is open.
    pub fn end<R: Threads + Wait>(&mut self, rt: &R) -> Result<()> {
        if !self.is_open {
            return Ok(());
        }
        self.close(rt)
    }

    // Does what a command asks for.
    fn run<R: Threads + Wait>(&mut self, rt: &R, command: &Command) -> Done {
        match command {
            Command::Keyspace(name, wishes) => self.keyspace(rt, name.as_str(), *wishes),
            Command::Work(id, Work::Drop) => self.drop_handle(*id),
            Command::Work(id, work) => self.work(rt, *id, work),
            Command::ReadAt(number, id, query) => self.read_at(rt, *number, *id, query),
            Command::ReadWithin(number, id, query) => self.read_within(rt, *number, *id, query),
            Command::ChangeWithin(number, id, change) => {
                self.change_within(rt, *number, *id, change)
            }
            Command::Batch(items) => self.batch(rt, None, items),
            Command::CommitBatch(how, items) => self.batch(rt, Some(*how), items),
            Command::Snapshot => self.snapshot(rt, None),
            Command::CloneSnapshot(number) => self.snapshot(rt, Some(*number)),
            Command::CloseSnapshot(number) => self.close_snapshot(*number),
            Command::Begin(_) => self.begin(rt),
            Command::Step(number, step) => self.step(rt, *number, step),
            Command::Close => {
                self.close(rt)?;
                Ok(Answer::Done)
            }
            _ => self.ask(rt, command),
        }
    }

    // Asks something of the database.
    fn ask<R: Wait>(&self, rt: &R, command: &Command) -> Done {
        let database = self.database()?;
        Ok(match command {
            Command::Persist(mode) => {
                of_each!(AnyDatabase, database, it => it.persist(rt, *mode))?;
                Answer::Done
            }
            Command::Count(what) => Answer::Count(database.count(rt, *what)?),
            Command::Exists(name) => {
                let name = name.as_str();
                Answer::Flag(of_each!(AnyDatabase, database, it => it.keyspace_exists(rt, name))?)
            }
            Command::Names => {
                Answer::Names(of_each!(AnyDatabase, database, it => it.list_keyspace_names(rt))?)
            }
            Command::Settle => return self.settle(rt),
            _ => return Err(LineError::BadLine),
        })
    }

    // Whether workers have nothing to do.
    fn is_settled<R: Wait>(&self, rt: &R) -> Result<bool> {
        for (_, handle) in &self.handles {
            if handle.inner().sealed_memtable_count(rt)? > 0 {
                return Ok(false);
            }
        }
        Ok(self.database()?.inner().active_compactions(rt)? == 0)
    }

    // Waits until workers have nothing to do. Without workers nothing comes about by itself.
    fn settle<R: Wait>(&self, rt: &R) -> Done {
        let most = if self.settings.workers == 0 {
            1
        } else {
            MOST_LOOKS
        };
        for _ in 0..most {
            if self.is_settled(rt)? {
                return Ok(Answer::Done);
            }
            thread::yield_now();
        }
        Ok(Answer::Busy)
    }
}

// Keyspaces.
impl<D: Disk + Drop> Session<D> {
    // Makes a handle of the keyspace of a name, which takes the place of an earlier one.
    fn keyspace<R: Wait>(&mut self, rt: &R, name: &str, wishes: Wishes) -> Done {
        let options = wishes.options(self.alloc)?;
        self.handles.reserve(1)?;
        let handle = self.database()?.keyspace(rt, name, options)?;
        let id = of_each!(AnyKeyspace, &handle, it => it.id());
        self.handles.retain(|one| one.0 != id);
        self.handles.push((id, handle))?;
        Ok(Answer::Keyspace(id))
    }

    // Drops the handle of a keyspace.
    fn drop_handle(&mut self, id: u64) -> Done {
        let _ = handle_of(&self.handles, id)?;
        self.handles.retain(|one| one.0 != id);
        Ok(Answer::Done)
    }

    // Does something with a keyspace, but for dropping its handle.
    fn work<R: Wait>(&mut self, rt: &R, id: u64, work: &Work) -> Done {
        let alloc = self.alloc;
        let handle = handle_of(&self.handles, id)?;
        let keyspace = handle.inner();
        match work {
            Work::Read(query) => return handle.read(rt, alloc, query),
            Work::Change(change) => return handle.change(rt, change),
            Work::Ends(letters) => return ends(alloc, letters, keyspace.iter(rt)),
            Work::Measure(what) => return Ok(Answer::Count(handle.measure(rt, *what)?)),
            Work::Name => return Ok(Answer::Name(String::from_str(alloc, keyspace.name())?)),
            Work::Path => {
                let path = of_each!(AnyKeyspace, handle, it => it.path());
                return Ok(Answer::Path(String::from_str(alloc, path)?));
            }
            Work::Rotate => return Ok(Answer::Flag(keyspace.rotate_memtable(rt)?)),
            Work::InsertMany(pairs) => handle.insert_many(rt, pairs)?,
            Work::Ingest(pairs) => ingest(rt, keyspace, pairs)?,
            Work::Clear => keyspace.clear(rt)?,
            Work::RotateAndWait => keyspace.rotate_memtable_and_wait(rt)?,
            Work::Compact => keyspace.major_compact(rt)?,
            Work::Delete => {
                let database = self.database()?.inner();
                database.delete_keyspace(rt, keyspace.clone()?)?
            }
            Work::Drop => {}
        }
        Ok(Answer::Done)
    }

    // Commits a batch, which has this mode or is persisted as the database is.
    fn batch<R: Wait>(&self, rt: &R, how: Option<Option<PersistMode>>, items: &[Item]) -> Done {
        let database = self.database()?.inner();
        let mut batch = match how {
            Some(mode) => database.batch_with_capacity(items.len())?.durability(mode),
            None => database.batch()?,
        };
        fill(&mut batch, &self.handles, items)?;
        batch.commit(rt)?;
        Ok(Answer::Done)
    }
}

// Snapshots and transactions.
impl<D: Disk + Drop> Session<D> {
    // The snapshot of a line by its number.
    fn snapshot_of(&self, number: usize) -> Result<&Snapshot<D>> {
        match self.opened.get(number.wrapping_sub(1)) {
            Some(Opened::Snapshot(snapshot)) => Ok(snapshot),
            _ => Err(Error::SnapshotClosed),
        }
    }

    // Puts something in the place of a line by its number, and gives what was there.
    fn put(&mut self, number: usize, opened: Opened<D>) -> Opened<D> {
        match self.opened.get_mut(number.wrapping_sub(1)) {
            Some(place) => mem::replace(place, opened),
            None => Opened::Nothing,
        }
    }

    // Opens a snapshot, or another one that shows what that of a number does.
    fn snapshot<R: Wait>(&mut self, rt: &R, like: Option<usize>) -> Done {
        self.opened.push(Opened::Nothing)?;
        let snapshot = match (like, self.database()?) {
            (Some(number), _) => self.snapshot_of(number)?.clone(rt)?,
            (None, AnyDatabase::Plain(database)) => database.snapshot(rt)?,
            (None, AnyDatabase::Optimistic(database)) => database.read_tx(rt)?,
            (None, AnyDatabase::Single(database)) => database.read_tx(rt)?,
        };
        let number = self.opened.len();
        let _ = self.put(number, Opened::Snapshot(snapshot));
        Ok(Answer::Snapshot(number))
    }

    // Drops a snapshot.
    fn close_snapshot(&mut self, number: usize) -> Done {
        let _ = self.snapshot_of(number)?;
        let _ = self.put(number, Opened::Nothing);
        Ok(Answer::Done)
    }

    // Begins a transaction.
    fn begin<R: Wait>(&mut self, rt: &R) -> Done {
        self.opened.push(Opened::Nothing)?;
        let transaction = self.database()?.begin(rt)?;
        let number = self.opened.len();
        let _ = self.put(number, Opened::Transaction(transaction));
        Ok(Answer::Transaction(number))
    }

    // Reads a keyspace in a snapshot.
    fn read_at<R: Wait>(&self, rt: &R, number: usize, id: u64, query: &Query) -> Done {
        let snapshot = self.snapshot_of(number)?;
        let keyspace = handle_of(&self.handles, id)?.inner();
        read_shown(self.alloc, &mut snapshot.at(rt), keyspace, query)
    }

    // Reads a keyspace within a transaction.
    fn read_within<R: Wait>(&mut self, rt: &R, number: usize, id: u64, query: &Query) -> Done {
        let transaction = transaction_of(&mut self.opened, number)?;
        let keyspace = handle_of(&self.handles, id)?.inner();
        read_shown(self.alloc, &mut transaction.at(rt), keyspace, query)
    }

    // Changes a key within a transaction.
    fn change_within<R: Wait>(&mut self, rt: &R, number: usize, id: u64, change: &Change) -> Done {
        let transaction = transaction_of(&mut self.opened, number)?;
        let keyspace = handle_of(&self.handles, id)?.inner();
        transaction.change(rt, keyspace, change)
    }

    // Takes a transaction, which isn't open any more.
    fn take_transaction(&mut self, number: usize) -> Result<AnyTransaction<D>> {
        let _ = transaction_of(&mut self.opened, number)?;
        match self.put(number, Opened::Nothing) {
            Opened::Transaction(transaction) => Ok(transaction),
            _ => Err(Error::SnapshotClosed),
        }
    }

    // Does something with a transaction.
    fn step<R: Wait>(&mut self, rt: &R, number: usize, step: &Step) -> Done {
        let transaction = self.take_transaction(number)?;
        match step {
            Step::Durability(mode) => {
                let _ = self.put(number, Opened::Transaction(transaction.durability(*mode)));
            }
            Step::Commit(_) => return transaction.commit(rt),
            Step::Rollback => of_either!(transaction, it => it.rollback(rt))?,
            Step::Drop => drop(transaction),
        }
        Ok(Answer::Done)
    }
}
