//! What a transaction sees, with the lock for each read.

ghost use Rattle.std.specs.Prelude.{◌≡◌, ⊤};

use crate::inner::Inner;
use fjall_base::{Disk, Error, KeyBounds, KvPair, Result, UserValue};
use fjall_reading::{
    Guard, Identified, KeyRange, Pages, ReadIter, Readable, bounds_of, pair_count, prefix_to_range,
    range_of,
};
use fjall_shared::{Transaction, View};
use std::alloc::Global;
use std::mem;
use std::ops::Bound;
use std::sync::Wait;

/// What a transaction sees: the database at the instant at which it began, with its own writes applied. An optimistic one marks what is read; a
/// read that is refused marks nothing. Its refusals are those of [`Reader`](crate::Reader).
#[derive(Drop)]
pub struct TransactionReader<'a, R: Wait, D: Disk + Drop> {
    rt: &'a R,
    inner: &'a Inner<D>,
    transaction: &'a mut Transaction,
    // A mark found no memory as an iterator was made, which its first page answers.
    short: bool,
}

impl<'a, R: Wait, D: Disk + Drop> TransactionReader<'a, R, D> {
    pub(crate) fn new(
        rt: &'a R,
        inner: &'a Inner<D>,
        transaction: &'a mut Transaction,
    ) -> TransactionReader<'a, R, D> {
        TransactionReader {
            rt,
            inner,
            transaction,
            short: false,
        }
    }

    // The value of a key, which it marks.
    pub(crate) fn read_key(&mut self, id: u64, key: &[u8]) -> Result<Option<UserValue>> {
        let transaction = &mut *self.transaction;
        let mut guard = self.inner.lock.lock(self.rt);
        let Some(shared) = &mut *guard else {
            return Err(Error::Poisoned);
        };
        shared.get_within(transaction, id, key)
    }

    // A page of a keyspace, which it doesn't mark.
    fn laid_page(
        &mut self,
        id: u64,
        range: &KeyRange,
        back: bool,
        max: usize,
    ) -> Result<Vec<KvPair>> {
        let view = View::At(self.transaction.ticket());
        let wanted = self.transaction.own().wanted(id, range, max);
        let most = wanted.unwrap_or(0);
        let found = {
            let mut guard = self.inner.lock.lock(self.rt);
            let Some(shared) = &mut *guard else {
                return Err(Error::Poisoned);
            };
            shared.page_at(view, id, range, back, most)?
        };
        if wanted.is_err() {
            return Err(Error::OutOfMemory);
        }
        self.transaction.own().lay_over(id, range, back, max, found)
    }

    // The first pair of a keyspace or its last one, which marks the keyspace.
    fn read_end(&mut self, id: u64, back: bool) -> Result<Option<KvPair>> {
        let mut found = self.laid_page(id, &(Bound::Unbounded, Bound::Unbounded), back, 1)?;
        self.mark_whole(id)?;
        Ok(found.pop())
    }

    fn mark_whole(&mut self, id: u64) -> Result<()> {
        self.transaction
            .mark_range(id, (Bound::Unbounded, Bound::Unbounded))
    }

    // The pairs of a range, which it marks as the iterator is made.
    fn marked(&mut self, id: u64, range: Result<KeyRange>) -> ReadIter<'_, Self>
        ensures keyspace { result.cursor.id ≡ id }
        ensures same_reader { result.reader.ghost_name ≡ self.entry.ghost_name }
    {
        let Ok(range) = range else {
            return ReadIter::out_of_memory(self, id);
        };
        if self.transaction.mark_range(id, bounds_of(&range)).is_err() {
            return ReadIter::out_of_memory(self, id);
        }
        ReadIter::new(self, id, range)
    }
}

// A pair that was found, or the fault that was met.
fn guarded(found: Result<Option<KvPair>>) -> Option<Guard> {
    match found {
        Ok(Some(pair)) => Some(Guard::new(Ok(pair))),
        Ok(None) => None,
        Err(error) => Some(Guard::new(Err(error))),
    }
}

impl<'a, R: Wait, D: Disk + Drop> Pages for TransactionReader<'a, R, D> {
    // Of what lies under a lock a proof knows nothing.
    ghost shows = { λ reader id map. ⊥ };

    ghost reads = { λ old id error new. ⊤ };

    ghost paging = { λ old id error new. ⊤ };

    fn alloc(&self) -> Global {
        self.inner.alloc
    }

    fn page(&mut self, id: u64, range: &KeyRange, back: bool, max: usize) -> Result<Vec<KvPair>> {
        if mem::take(&mut self.short) {
            return Err(Error::OutOfMemory);
        }
        self.laid_page(id, range, back, max)
    }

    ghost reads_none = { λ reader id. tt };

    ghost reads_on = { λ old mid new first id error before then. tt };

    ghost reads_short = { λ old new id reads. tt };

    ghost paging_none = { λ reader id. tt };

    ghost paging_on = { λ old mid new first id error before then. tt };

    ghost paging_short = { λ old new id pages. tt };

    ghost paging_reads = { λ old new id error pages. tt };
}

impl<'a, R: Wait, D: Disk + Drop> Readable for TransactionReader<'a, R, D> {
    fn get<K: Identified>(&mut self, keyspace: &K, key: &[u8]) -> Result<Option<UserValue>> {
        self.read_key(keyspace.id(), key)
    }

    fn first_key_value<K: Identified>(&mut self, keyspace: &K) -> Option<Guard> {
        guarded(self.read_end(keyspace.id(), false))
    }

    fn last_key_value<K: Identified>(&mut self, keyspace: &K) -> Option<Guard> {
        guarded(self.read_end(keyspace.id(), true))
    }

    fn len<K: Identified>(&mut self, keyspace: &K) -> Result<usize> {
        let count = pair_count(self, keyspace.id())?;
        self.mark_whole(keyspace.id())?;
        Ok(count)
    }

    fn is_empty<K: Identified>(&mut self, keyspace: &K) -> Result<bool> {
        Ok(self.read_end(keyspace.id(), false)?.is_none())
    }

    fn iter<K: Identified>(&mut self, keyspace: &K) -> ReadIter<'_, Self> {
        self.short = self.mark_whole(keyspace.id()).is_err();
        ReadIter::new(self, keyspace.id(), (Bound::Unbounded, Bound::Unbounded))
    }

    fn range<K: Identified>(&mut self, keyspace: &K, range: KeyBounds<'_>) -> ReadIter<'_, Self> {
        let range = range_of(self.inner.alloc, range);
        self.marked(keyspace.id(), range)
    }

    fn prefix<K: Identified>(&mut self, keyspace: &K, prefix: &[u8]) -> ReadIter<'_, Self> {
        let range = prefix_to_range(self.inner.alloc, prefix);
        self.marked(keyspace.id(), range)
    }
}
