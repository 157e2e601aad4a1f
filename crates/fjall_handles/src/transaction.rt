//! Transactions of a database that threads share.

use crate::inner::Inner;
use crate::snapshot::watch;
use crate::tx_reader::TransactionReader;
use fjall_base::{Disk, Error, Result, Slice, UserValue, check_item};
use fjall_disk_folder::FolderDisk;
use fjall_reading::Identified;
use fjall_shared::{CommitOutcome, Conflict, Flag, Made, PersistMode, Raiser, Shared, Transaction};
use std::alloc::Global;
use std::marker::PhantomData;
use std::result;
use std::sync::{Arc, Wait};

/// How transactions of a database begin.
pub trait Kind {
    /// Begins one under the lock; what dropped handles left open is closed before.
    fn begin<D: Disk>(shared: &mut Shared<D>) -> Result<Transaction>;
}

/// Many transactions are open at a time, and a commit may conflict.
pub struct Optimistic;

/// One transaction is open at a time, the single writer's.
pub struct Single;

impl Kind for Optimistic {
    fn begin<D: Disk>(shared: &mut Shared<D>) -> Result<Transaction> {
        shared.collect_tickets();
        shared.begin_optimistic()
    }
}

impl Kind for Single {
    fn begin<D: Disk>(shared: &mut Shared<D>) -> Result<Transaction> {
        shared.collect();
        shared.begin_single()
    }
}

/// A transaction that is open: it reads at the instant at which it began, with its own writes, which nobody else sees until it commits. Its own
/// writes take no lock. Neither does its drop, which rolls it back: it raises a flag, and the next who begins or collects ends it.
pub struct WriteTransaction<D: Disk + Drop, K: Kind> {
    inner: Arc<Inner<D>, Global>,
    transaction: Transaction,
    // The keyspaces that it wrote.
    written: Vec<u64>,
    raiser: Raiser,
    kind: PhantomData<K>,
}

// Written out, so that no crate above proves the drop of what it owns anew.
impl<D: Disk + Drop, K: Kind> Drop for WriteTransaction<D, K> {
    fn drop(self) {
        let WriteTransaction {
            inner: _,
            transaction: _,
            written: _,
            raiser: _,
            kind: _,
        } = self;
    }
}

/// Begins a transaction of a database.
pub(crate) fn begin<R: Wait, D: Disk + Drop, K: Kind>(
    rt: &R,
    inner: &Arc<Inner<D>, Global>,
) -> Result<WriteTransaction<D, K>> {
    let other = Arc::try_clone(inner)?;
    let (flag, raiser) = Flag::new(inner.alloc)?;
    let transaction = {
        let mut guard = inner.lock.lock(rt);
        let Some(shared) = &mut *guard else {
            return Err(Error::Poisoned);
        };
        let transaction = K::begin(shared)?;
        watch(shared, transaction.ticket(), flag)?;
        transaction
    };
    let transaction = if inner.settings.manual_journal_persist {
        transaction.durability(None)
    } else {
        transaction
    };
    Ok(WriteTransaction {
        written: Vec::new(inner.alloc),
        inner: other,
        transaction,
        raiser,
        kind: PhantomData,
    })
}

impl<D: Disk + Drop, K: Kind> WriteTransaction<D, K> {
    /// With this mode, or with none: how far what it writes is brought before its commit returns.
    pub fn durability(self, mode: Option<PersistMode>) -> WriteTransaction<D, K> {
        let WriteTransaction {
            inner,
            transaction,
            written,
            raiser,
            kind,
        } = self;
        WriteTransaction {
            inner,
            transaction: transaction.durability(mode),
            written,
            raiser,
            kind,
        }
    }

    // Takes note that it writes a keyspace.
    fn note(&mut self, id: u64) -> Result<()> {
        if !self.written.contains(&id) {
            self.written.push(id)?;
        }
        Ok(())
    }

    /// Gives a key of a keyspace a value. That there is such a keyspace is looked at by the commit.
    ///
    /// Refusals, after which all is as before: `KeyEmpty`, `KeyTooLong` above 65,535 bytes, `ValueTooLong` above 4,294,967,295,
    /// `OutOfMemory`.
    pub fn insert<I: Identified>(&mut self, keyspace: &I, key: &[u8], value: &[u8]) -> Result<()> {
        check_item(key, value)?;
        let alloc = self.inner.alloc;
        let (key, value) = (Slice::new(alloc, key)?, Slice::new(alloc, value)?);
        let id = keyspace.id();
        self.note(id)?;
        self.transaction.insert(id, key, value)
    }

    /// Takes a key of a keyspace and its value away. It is refused as [`insert`](WriteTransaction::insert) is.
    pub fn remove<I: Identified>(&mut self, keyspace: &I, key: &[u8]) -> Result<()> {
        check_item(key, &[])?;
        let key = Slice::new(self.inner.alloc, key)?;
        let id = keyspace.id();
        self.note(id)?;
        self.transaction.remove(id, key)
    }

    /// Acts as [`remove`](WriteTransaction::remove); the journal alone tells the two apart.
    pub fn remove_weak<I: Identified>(&mut self, keyspace: &I, key: &[u8]) -> Result<()> {
        check_item(key, &[])?;
        let key = Slice::new(self.inner.alloc, key)?;
        let id = keyspace.id();
        self.note(id)?;
        self.transaction.remove_weak(id, key)
    }

    /// What it sees, to be read: see [`Readable`](fjall_reading::Readable). An optimistic one marks what is read.
    pub fn at<'a, R: Wait>(&'a mut self, rt: &'a R) -> TransactionReader<'a, R, D> {
        TransactionReader::new(rt, &*self.inner, &mut self.transaction)
    }

    /// Takes a key of a keyspace away, and answers the value that it had.
    pub fn take<R: Wait, I: Identified>(
        &mut self,
        rt: &R,
        keyspace: &I,
        key: &[u8],
    ) -> Result<Option<UserValue>> {
        self.fetch_update(rt, keyspace, key, |_| Ok(None))
    }

    /// Gives a key what the function makes of the value that it has, or of none, and answers the value that it had. Where it stays the same
    /// nothing is written, and the key is marked as written all the same.
    ///
    /// Refusals: those of a read of the key, and then those of [`insert`](WriteTransaction::insert) where what the function makes differs.
    /// After each of them the transaction is as before, and so are its marks.
    pub fn fetch_update<R: Wait, I: Identified, F: FnOnce(Option<&UserValue>) -> Made>(
        &mut self,
        rt: &R,
        keyspace: &I,
        key: &[u8],
        f: F,
    ) -> Result<Option<UserValue>>
        requires { F.IsAlwaysCallable f }
    {
        let id = keyspace.id();
        let found = self.at(rt).read_key(id, key)?;
        let new = match f(found.as_ref()) {
            Ok(new) => new,
            Err(_) => return self.taken_back(Error::OutOfMemory),
        };
        if let Err(error) = self.replace(keyspace, key, &found, new) {
            return self.taken_back(error);
        }
        Ok(found)
    }

    /// Acts as [`fetch_update`](WriteTransaction::fetch_update), and answers the value that the key has then.
    pub fn update_fetch<R: Wait, I: Identified, F: FnOnce(Option<&UserValue>) -> Made>(
        &mut self,
        rt: &R,
        keyspace: &I,
        key: &[u8],
        f: F,
    ) -> Result<Option<UserValue>>
        requires { F.IsAlwaysCallable f }
    {
        let id = keyspace.id();
        let found = self.at(rt).read_key(id, key)?;
        let new = match f(found.as_ref()) {
            Ok(new) => new,
            Err(_) => return self.taken_back(Error::OutOfMemory),
        };
        let answer = match new.clone() {
            Ok(answer) => answer,
            Err(_) => return self.taken_back(Error::OutOfMemory),
        };
        if let Err(error) = self.replace(keyspace, key, &found, new) {
            return self.taken_back(error);
        }
        Ok(answer)
    }

    /// Writes what a key becomes, a value or none, where it has had this one, as the transaction saw it. Where the two are the same nothing is
    /// written, and the key is marked as written all the same. It is refused as [`insert`](WriteTransaction::insert) is.
    pub fn replace<I: Identified>(
        &mut self,
        keyspace: &I,
        key: &[u8],
        found: &Option<UserValue>,
        new: Option<UserValue>,
    ) -> Result<()> {
        let key = Slice::new(self.inner.alloc, key)?;
        let id = keyspace.id();
        self.note(id)?;
        self.transaction.replace(id, key, found, new)
    }

    // An update that was refused leaves no mark of its read.
    fn taken_back<T>(&mut self, error: Error) -> Result<T> {
        self.transaction.take_back_read();
        Err(error)
    }

    /// Commits it, which ends it whatever it answers: true where its own writes are made, as one command, and false where it met a transaction
    /// that committed since it began, and wrote what it had read.
    ///
    /// Refusals: `SnapshotClosed`, `UnknownKeyspace`, `KeyspaceDeleted`, `Poisoned`, `NumbersUsedUp`, `OutOfMemory`, `Io`.
    pub fn try_commit<R: Wait>(self, rt: &R) -> Result<bool> {
        let WriteTransaction {
            inner,
            transaction,
            written,
            raiser,
            kind: _,
        } = self;
        let outcome = {
            let mut guard = inner.lock.lock(rt);
            let Some(shared) = &mut *guard else {
                return Err(Error::Poisoned);
            };
            // (only now, since who collects would close the ticket before)
            drop(raiser);
            shared.commit(transaction)
        };
        match outcome {
            CommitOutcome::Ok => {
                inner.settle_all(rt, &written);
                Ok(true)
            }
            CommitOutcome::Conflicted => Ok(false),
            CommitOutcome::Aborted(error) => Err(error),
        }
    }

    /// Ends it without its own writes.
    pub fn rollback<R: Wait>(self, rt: &R) -> Result<()> {
        let WriteTransaction {
            inner,
            transaction,
            written: _,
            raiser,
            kind: _,
        } = self;
        let mut guard = inner.lock.lock(rt);
        let Some(shared) = &mut *guard else {
            return Err(Error::Poisoned);
        };
        drop(raiser);
        shared.rollback(transaction)
    }
}

impl<D: Disk + Drop> WriteTransaction<D, Optimistic> {
    /// Commits it, as [`try_commit`](WriteTransaction::try_commit) does.
    pub fn commit<R: Wait>(self, rt: &R) -> Result<result::Result<(), Conflict>> {
        if self.try_commit(rt)? {
            Ok(Ok(()))
        } else {
            Ok(Err(Conflict))
        }
    }
}

impl<D: Disk + Drop> WriteTransaction<D, Single> {
    /// Commits it, as [`try_commit`](WriteTransaction::try_commit) does. It marks nothing that it reads, and so meets nobody.
    pub fn commit<R: Wait>(self, rt: &R) -> Result<()> {
        let _ = self.try_commit(rt)?;
        Ok(())
    }
}
