//! Keyspaces that are changed by transactions.

use fjall_handles::{
    Database, Disk, FolderDisk, Guard, Identified, Keyspace, Kind, Made, Optimistic, Readable,
    Result, Single, UserValue,
};
use std::alloc::AllocError;
use std::marker::PhantomData;
use std::result;
use std::sync::Wait;

/// A handle of a keyspace, each of whose changes is one transaction. Threads share it by clones.
pub struct TxKeyspace<D: Disk + Drop, K: Kind> {
    database: Database<D>,
    inner: Keyspace<D>,
    kind: PhantomData<K>,
}

// Written out, so that no crate above proves the drop of what it owns anew.
impl<D: Disk + Drop, K: Kind> Drop for TxKeyspace<D, K> {
    fn drop(self) {
        let TxKeyspace {
            database: _,
            inner: _,
            kind: _,
        } = self;
    }
}

/// Of an optimistic database: a change that conflicts is made anew until it doesn't.
pub type OptimisticTxKeyspace<D = FolderDisk> = TxKeyspace<D, Optimistic>;

/// Of a single writer's database: a change is refused with `TransactionOpen` while a transaction is open.
pub type SingleWriterTxKeyspace<D = FolderDisk> = TxKeyspace<D, Single>;

impl<D: Disk + Drop, K: Kind> Identified for TxKeyspace<D, K> {
    ghost identity = { λ keyspace. ⟦<Keyspace<D> as Identified>⟧.identity keyspace.inner };

    fn id(&self) -> u64 {
        self.inner.id()
    }
}

impl<D: Disk + Drop, K: Kind> TxKeyspace<D, K> {
    pub(crate) fn new(database: Database<D>, inner: Keyspace<D>) -> TxKeyspace<D, K> {
        TxKeyspace {
            database,
            inner,
            kind: PhantomData,
        }
    }

    /// The keyspace below, whose writes are no transactions.
    pub fn inner(&self) -> &Keyspace<D> {
        &self.inner
    }

    /// Another handle of the keyspace.
    pub fn clone(&self) -> result::Result<TxKeyspace<D, K>, AllocError> {
        Ok(TxKeyspace {
            database: self.database.clone()?,
            inner: self.inner.clone()?,
            kind: PhantomData,
        })
    }

    /// The keyspace's folder, below that of the database.
    pub fn path(&self) -> &str {
        self.inner.path()
    }

    /// How many versions its memtables and tables have.
    pub fn approximate_len<R: Wait>(&self, rt: &R) -> Result<u64> {
        self.inner.approximate_len(rt)
    }

    /// The value of a key, where it has one.
    pub fn get<R: Wait>(&self, rt: &R, key: &[u8]) -> Result<Option<UserValue>> {
        self.inner.get(rt, key)
    }

    /// Whether a key has a value.
    pub fn contains_key<R: Wait>(&self, rt: &R, key: &[u8]) -> Result<bool> {
        self.inner.contains_key(rt, key)
    }

    /// How many bytes the value of a key has, where it has one.
    pub fn size_of<R: Wait>(&self, rt: &R, key: &[u8]) -> Result<Option<u32>> {
        self.inner.size_of(rt, key)
    }

    /// The pair with the first key, or the fault that the read met.
    pub fn first_key_value<R: Wait>(&self, rt: &R) -> Option<Guard> {
        self.inner.first_key_value(rt)
    }

    /// The pair with the last key, or the fault that the read met.
    pub fn last_key_value<R: Wait>(&self, rt: &R) -> Option<Guard> {
        self.inner.last_key_value(rt)
    }

    /// Gives a key a value.
    pub fn insert<R: Wait>(&self, rt: &R, key: &[u8], value: &[u8]) -> Result<()> {
        for _ in rt.forever() {
            let mut transaction = self.database.begin::<R, K>(rt)?;
            transaction.insert(&self.inner, key, value)?;
            if transaction.try_commit(rt)? {
                return Ok(());
            }
        }
        unreachable!()
    }

    /// Takes a key and its value away.
    pub fn remove<R: Wait>(&self, rt: &R, key: &[u8]) -> Result<()> {
        for _ in rt.forever() {
            let mut transaction = self.database.begin::<R, K>(rt)?;
            transaction.remove(&self.inner, key)?;
            if transaction.try_commit(rt)? {
                return Ok(());
            }
        }
        unreachable!()
    }

    /// Acts as [`remove`](TxKeyspace::remove); the journal alone tells the two apart.
    pub fn remove_weak<R: Wait>(&self, rt: &R, key: &[u8]) -> Result<()> {
        for _ in rt.forever() {
            let mut transaction = self.database.begin::<R, K>(rt)?;
            transaction.remove_weak(&self.inner, key)?;
            if transaction.try_commit(rt)? {
                return Ok(());
            }
        }
        unreachable!()
    }

    /// Takes a key away, and answers the value that it had.
    pub fn take<R: Wait>(&self, rt: &R, key: &[u8]) -> Result<Option<UserValue>> {
        for _ in rt.forever() {
            let mut transaction = self.database.begin::<R, K>(rt)?;
            let answer = transaction.take(rt, &self.inner, key)?;
            if transaction.try_commit(rt)? {
                return Ok(answer);
            }
        }
        unreachable!()
    }

    /// Gives a key what the function makes of the value that it has, or of none, and answers the value that it had.
    pub fn fetch_update<R: Wait, F: FnMut(Option<&UserValue>) -> Made>(
        &self,
        rt: &R,
        key: &[u8],
        mut f: F,
    ) -> Result<Option<UserValue>>
        requires { F.IsAlwaysCallable f }
    {
        for _ in rt.forever() {
            let mut transaction = self.database.begin::<R, K>(rt)?;
            let found = transaction.at(rt).get(&self.inner, key)?;
            let new = f(found.as_ref())?;
            transaction.replace(&self.inner, key, &found, new)?;
            if transaction.try_commit(rt)? {
                return Ok(found);
            }
        }
        unreachable!()
    }

    /// Acts as [`fetch_update`](TxKeyspace::fetch_update), and answers the value that the key has then.
    pub fn update_fetch<R: Wait, F: FnMut(Option<&UserValue>) -> Made>(
        &self,
        rt: &R,
        key: &[u8],
        mut f: F,
    ) -> Result<Option<UserValue>>
        requires { F.IsAlwaysCallable f }
    {
        for _ in rt.forever() {
            let mut transaction = self.database.begin::<R, K>(rt)?;
            let found = transaction.at(rt).get(&self.inner, key)?;
            let new = f(found.as_ref())?;
            let answer = new.clone()?;
            transaction.replace(&self.inner, key, &found, new)?;
            if transaction.try_commit(rt)? {
                return Ok(answer);
            }
        }
        unreachable!()
    }
}
