//! Databases of each of the three kinds, handles of their keyspaces, and their transactions.

use crate::answers::{Answer, Done};
use crate::lines::{Change, Count, Kind, Measure, Query};
use crate::medium::{Machine, Medium};
use crate::reads::{one, pairs};
use crate::words::Pair;
use fjall::{
    Config, Database, DatabaseBuilder, Disk, Keyspace, KeyspaceCreateOptions, Made,
    OptimisticTxDatabase, OptimisticTxKeyspace, OptimisticWriteTx, PersistMode, Result,
    SingleWriterTxDatabase, SingleWriterTxKeyspace, SingleWriterWriteTx, Slice, TransactionReader,
};
use fjall_recorder::{LineError, Parsed};
use std::alloc::Global;
use std::sync::Wait;

/// Makes the same call of each kind.
macro_rules! of_each {
    ($all:ident, $value:expr, $one:ident => $call:expr) => {
        match $value {
            $all::Plain($one) => $call,
            $all::Optimistic($one) => $call,
            $all::Single($one) => $call,
        }
    };
}

/// Makes the same call of both kinds with transactions; lines of the other kind are none.
macro_rules! of_both {
    ($all:ident, $value:expr, $one:ident => $call:expr) => {
        match $value {
            $all::Plain(_) => return Err(LineError::BadLine),
            $all::Optimistic($one) => $call,
            $all::Single($one) => $call,
        }
    };
}

/// Makes the same call of both kinds of transactions.
macro_rules! of_either {
    ($value:expr, $one:ident => $call:expr) => {
        match $value {
            AnyTransaction::Optimistic($one) => $call,
            AnyTransaction::Single($one) => $call,
        }
    };
}

pub(crate) use of_each;
pub(crate) use of_either;

/// How a database is opened.
#[derive(Drop)]
pub struct Settings {
    pub kind: Kind,
    pub path: String,
    pub workers: usize,
}

/// A database.
#[derive(Drop)]
pub enum AnyDatabase<D: Disk + Drop> {
    Plain(Database<D>),
    Optimistic(OptimisticTxDatabase<D>),
    Single(SingleWriterTxDatabase<D>),
}

/// A handle of a keyspace.
#[derive(Drop)]
pub enum AnyKeyspace<D: Disk + Drop> {
    Plain(Keyspace<D>),
    Optimistic(OptimisticTxKeyspace<D>),
    Single(SingleWriterTxKeyspace<D>),
}

/// A transaction.
#[derive(Drop)]
pub enum AnyTransaction<D: Disk + Drop> {
    Optimistic(OptimisticWriteTx<D>),
    Single(SingleWriterWriteTx<D>),
}

impl<D: Medium + Send + 'static> AnyDatabase<D> {
    /// Opens a database.
    pub fn open<R: Machine + Send + 'static>(
        rt: &R,
        alloc: Global,
        settings: &Settings,
    ) -> Result<AnyDatabase<D>> {
        let mut config = Config::new(alloc, settings.path.as_str())?;
        config.worker_threads = settings.workers;
        let disk = D::open_disk(rt.host(), alloc, settings.path.as_str())?;
        Ok(match settings.kind {
            Kind::Plain => {
                let builder = DatabaseBuilder::from_config(alloc, config);
                AnyDatabase::Plain(builder.open_on(rt, disk)?)
            }
            Kind::Optimistic => {
                let builder = DatabaseBuilder::from_config(alloc, config);
                AnyDatabase::Optimistic(builder.open_on(rt, disk)?)
            }
            Kind::Single => {
                let builder = DatabaseBuilder::from_config(alloc, config);
                AnyDatabase::Single(builder.open_on(rt, disk)?)
            }
        })
    }
}

impl<D: Disk + Drop> AnyDatabase<D> {
    /// The database, whose writes are no transactions.
    pub fn inner(&self) -> &Database<D> {
        match self {
            AnyDatabase::Plain(database) => database,
            AnyDatabase::Optimistic(database) => database.inner(),
            AnyDatabase::Single(database) => database.inner(),
        }
    }

    /// A handle of the keyspace of this name.
    pub fn keyspace<R: Wait>(
        &self,
        rt: &R,
        name: &str,
        options: KeyspaceCreateOptions,
    ) -> Result<AnyKeyspace<D>> {
        Ok(match self {
            AnyDatabase::Plain(database) => AnyKeyspace::Plain(database.keyspace(
                rt, name, options,
            )?),
            AnyDatabase::Optimistic(database) => {
                AnyKeyspace::Optimistic(database.keyspace(rt, name, options)?)
            }
            AnyDatabase::Single(database) => {
                AnyKeyspace::Single(database.keyspace(rt, name, options)?)
            }
        })
    }

    /// Begins a transaction, where it has any.
    pub fn begin<R: Wait>(&self, rt: &R) -> Parsed<AnyTransaction<D>> {
        Ok(match self {
            AnyDatabase::Plain(_) => return Err(LineError::BadLine),
            AnyDatabase::Optimistic(database) => AnyTransaction::Optimistic(database.write_tx(rt)?),
            AnyDatabase::Single(database) => AnyTransaction::Single(database.write_tx(rt)?),
        })
    }

    /// A number that it tells of itself.
    pub fn count<R: Wait>(&self, rt: &R, what: Count) -> Result<u64> {
        let inner = self.inner();
        let count = match what {
            Count::Seqno => return inner.seqno(rt),
            Count::Visible => return inner.visible_seqno(rt),
            Count::JournalSpace => return inner.journal_disk_space(rt),
            Count::Snapshots => return inner.open_snapshots(rt),
            Count::WriteBuffer =>
                return of_each!(AnyDatabase, self, it => it.write_buffer_size(rt)),
            Count::Space => return of_each!(AnyDatabase, self, it => it.disk_space(rt)),
            Count::Merged => return inner.compactions_completed(rt),
            Count::Keyspaces => of_each!(AnyDatabase, self, it => it.keyspace_count(rt))?,
            Count::Journals => of_each!(AnyDatabase, self, it => it.journal_count(rt))?,
            Count::Outstanding => inner.outstanding_flushes(rt)?,
            Count::Merging => inner.active_compactions(rt)?,
        };
        Ok(count as u64)
    }
}

// A copy of what a key becomes.
fn copied(new: &Option<Slice>) -> Made {
    match new {
        Some(value) => Ok(Some(value.clone()?)),
        None => Ok(None),
    }
}

impl<D: Disk + Drop> AnyKeyspace<D> {
    /// The keyspace, whose writes are no transactions.
    pub fn inner(&self) -> &Keyspace<D> {
        match self {
            AnyKeyspace::Plain(keyspace) => keyspace,
            AnyKeyspace::Optimistic(keyspace) => keyspace.inner(),
            AnyKeyspace::Single(keyspace) => keyspace.inner(),
        }
    }

    /// Inserts all of these pairs one by one; answers the first refusal.
    pub fn insert_many<R: Wait>(&self, rt: &R, pairs: &[Pair]) -> Result<()> {
        let mut first = Ok(());
        for (key, value) in pairs {
            if let Some(value) = value {
                let done = of_each!(AnyKeyspace, self, it => it.insert(rt, key, value));
                first = first.and(done);
            }
        }
        first
    }

    /// Changes a key.
    pub fn change<R: Wait>(&self, rt: &R, change: &Change) -> Done {
        let found = match change {
            Change::Insert(key, value) => {
                of_each!(AnyKeyspace, self, it => it.insert(rt, key, value))?;
                return Ok(Answer::Done);
            }
            Change::Remove(key) => {
                of_each!(AnyKeyspace, self, it => it.remove(rt, key))?;
                return Ok(Answer::Done);
            }
            Change::RemoveWeak(key) => {
                of_each!(AnyKeyspace, self, it => it.remove_weak(rt, key))?;
                return Ok(Answer::Done);
            }
            Change::Take(key) => of_both!(AnyKeyspace, self, it => it.take(rt, key))?,
            Change::FetchUpdate(key, new) => {
                of_both!(AnyKeyspace, self, it => it.fetch_update(rt, key, |_| copied(new)))?
            }
            Change::UpdateFetch(key, new) => {
                of_both!(AnyKeyspace, self, it => it.update_fetch(rt, key, |_| copied(new)))?
            }
        };
        Ok(Answer::Value(found))
    }

    /// Reads it at its present.
    pub fn read<R: Wait>(&self, rt: &R, alloc: Global, query: &Query) -> Done {
        Ok(match query {
            Query::Get(key) => Answer::Value(of_each!(AnyKeyspace, self, it => it.get(rt, key))?),
            Query::Contains(key) => Answer::Flag(
                of_each!(AnyKeyspace, self, it => it.contains_key(rt, key))?,
            ),
            Query::Size(key) => Answer::Size(
                of_each!(AnyKeyspace, self, it => it.size_of(rt, key))?,
            ),
            Query::Len => Answer::Count(self.inner().len(rt)? as u64),
            Query::IsEmpty => Answer::Flag(self.inner().is_empty(rt)?),
            Query::First => return one(
                alloc,
                of_each!(AnyKeyspace, self, it => it.first_key_value(rt)),
            ),
            Query::Last => return one(
                alloc,
                of_each!(AnyKeyspace, self, it => it.last_key_value(rt)),
            ),
            _ => return pairs(rt, alloc, self.inner(), query),
        })
    }

    /// A number that it tells of itself.
    pub fn measure<R: Wait>(&self, rt: &R, what: Measure) -> Result<u64> {
        let count = match what {
            Measure::Versions => return of_each!(AnyKeyspace, self, it => it.approximate_len(rt)),
            Measure::Space => return self.inner().disk_space(rt),
            Measure::Sealed => self.inner().sealed_memtable_count(rt)?,
            Measure::Tables => self.inner().table_count(rt)?,
            Measure::Level0 => self.inner().l0_table_count(rt)?,
        };
        Ok(count as u64)
    }
}

impl<D: Disk + Drop> AnyTransaction<D> {
    /// What it sees.
    pub fn at<'a, R: Wait>(&'a mut self, rt: &'a R) -> TransactionReader<'a, R, D> {
        of_either!(self, it => it.at(rt))
    }

    /// With this mode, or with none.
    pub fn durability(self, mode: Option<PersistMode>) -> AnyTransaction<D> {
        match self {
            AnyTransaction::Optimistic(it) => AnyTransaction::Optimistic(it.durability(mode)),
            AnyTransaction::Single(it) => AnyTransaction::Single(it.durability(mode)),
        }
    }

    /// Changes a key of a keyspace.
    pub fn change<R: Wait>(&mut self, rt: &R, keyspace: &Keyspace<D>, change: &Change) -> Done {
        let found = match change {
            Change::Insert(key, value) => {
                of_either!(self, it => it.insert(keyspace, key, value))?;
                return Ok(Answer::Done);
            }
            Change::Remove(key) => {
                of_either!(self, it => it.remove(keyspace, key))?;
                return Ok(Answer::Done);
            }
            Change::RemoveWeak(key) => {
                of_either!(self, it => it.remove_weak(keyspace, key))?;
                return Ok(Answer::Done);
            }
            Change::Take(key) => of_either!(self, it => it.take(rt, keyspace, key))?,
            Change::FetchUpdate(key, new) => {
                of_either!(self, it => it.fetch_update(rt, keyspace, key, |_| copied(new)))?
            }
            Change::UpdateFetch(key, new) => {
                of_either!(self, it => it.update_fetch(rt, keyspace, key, |_| copied(new)))?
            }
        };
        Ok(Answer::Value(found))
    }

    /// Commits it.
    pub fn commit<R: Wait>(self, rt: &R) -> Done {
        match self {
            AnyTransaction::Optimistic(transaction) => match transaction.commit(rt)? {
                Ok(()) => Ok(Answer::Done),
                Err(_) => Ok(Answer::Conflict),
            },
            AnyTransaction::Single(transaction) => {
                transaction.commit(rt)?;
                Ok(Answer::Done)
            }
        }
    }
}
