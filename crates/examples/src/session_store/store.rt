//! The store: sessions by token, and in a second keyspace the same sessions by the time of their end.

use fjall::{
    Readable, Result, SingleWriterTxDatabase, SingleWriterTxKeyspace, Slice, StorageError,
};
use std::alloc::Global;
use std::ops::Bound;
use std::sync::Wait;

/// How long a session lasts, from its last log-in on.
const LIFETIME: u64 = 30;

/// Sessions that end by themselves.
#[derive(Drop)]
pub struct Store {
    pub alloc: Global,
    pub db: SingleWriterTxDatabase,
    /// By token: the session's end, and its user's name behind it.
    pub sessions: SingleWriterTxKeyspace,
    /// Keys alone: the session's end, and its token behind it.
    pub ends: SingleWriterTxKeyspace,
}

// A time as eight bytes, the highest first, so that they ascend as times do, and other bytes behind it.
fn stamped(alloc: Global, time: u64, bytes: &[u8]) -> Result<Slice> {
    let mut joined = Vec::new(alloc);
    joined.extend_from_slice(&time.to_be_bytes())?;
    joined.extend_from_slice(bytes)?;
    Ok(Slice::new(alloc, &joined)?)
}

/// The time that these bytes begin with, and those behind it.
pub fn read_stamped(bytes: &[u8]) -> Result<(u64, &[u8])> {
    match bytes.split_first_chunk::<8>() {
        Some((time, rest)) => Ok((u64::from_be_bytes(*time), rest)),
        None => Err(StorageError::RecordDamaged.into()),
    }
}

impl Store {
    /// Begins a session of a user under a token, or lets it last anew. Answers its end, or none where the token is another user's: a
    /// transaction that is dropped changes nothing.
    pub fn log_in<R: Wait>(
        &self,
        rt: &R,
        token: &str,
        user: &str,
        now: u64,
    ) -> Result<Option<u64>> {
        let (token, user) = (token.as_bytes(), user.as_bytes());
        let end = now.saturating_add(LIFETIME);
        let mut transaction = self.db.write_tx(rt)?;
        if let Some(session) = transaction.at(rt).get(&self.sessions, token)? {
            let (old_end, owner) = read_stamped(session.as_slice())?;
            if owner != user {
                return Ok(None);
            }
            let old_key = stamped(self.alloc, old_end, token)?;
            transaction.remove(&self.ends, old_key.as_slice())?;
        }
        let session = stamped(self.alloc, end, user)?;
        transaction.insert(&self.sessions, token, session.as_slice())?;
        let key = stamped(self.alloc, end, token)?;
        transaction.insert(&self.ends, key.as_slice(), b"")?;
        transaction.commit(rt)?;
        Ok(Some(end))
    }

    /// Removes all sessions that have ended, and answers how many they were.
    pub fn expire<R: Wait>(&self, rt: &R, now: u64) -> Result<usize> {
        let mut transaction = self.db.write_tx(rt)?;
        let next = now.saturating_add(1).to_be_bytes();
        let ended = (Bound::Unbounded, Bound::Excluded(next.as_slice()));
        let mut count: usize = 0;
        for pair in self.ends.inner().range(rt, ended) {
            let key = pair.key()?;
            transaction.remove(&self.sessions, read_stamped(key.as_slice())?.1)?;
            transaction.remove(&self.ends, key.as_slice())?;
            count = count.saturating_add(1);
        }
        transaction.commit(rt)?;
        Ok(count)
    }
}
