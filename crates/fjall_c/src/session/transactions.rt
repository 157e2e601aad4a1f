//! Optimistic transactions of a database, each by its ticket's id.

ghost use Rattle.std.specs.Prelude.{◌≡◌};
ghost use Rattle.fjall_journal.specs.declared.op.Op.TheVariants as ops;
ghost use Rattle.fjall_c.specs.Live.{live_of};
ghost use Rattle.fjall_c.specs.Transactions.{Begins, Commits, Gets, Pages, RollsBack, WithinOne, Writes};

use crate::session::Session;
use crate::session::place::Place;
use fjall_base::{Error, KvPair, Result, UserValue};
use fjall_core::{CommitOutcome, Ticket};
use fjall_reading::KeyRange;

impl Session {
    /// Begins an optimistic transaction, which reads what was accepted so far; refused as `Core::begin_optimistic` is. Its ticket's id
    /// is its own.
    pub fn begin(&mut self) -> Result<Ticket>
        ensures answers { Begins (live_of self.old) (live_of self.new) result }
        ensures batch { self.new.batch ≡ self.old.batch }
    {
        match &mut self.place {
            Place::Open(opened) => opened.begin(),
            _ => Err(Error::Poisoned),
        }
    }

    /// Gives a key a value within the transaction of this id; refused as `Transaction::insert` is.
    pub fn insert_in(&mut self, id: u64, keyspace: u64, key: &[u8], value: &[u8]) -> Result<()>
        ensures answers { WithinOne id (Writes keyspace key.now (ops.Put value.now) result) result (live_of self.old) (live_of self.new) }
        ensures batch { self.new.batch ≡ self.old.batch }
    {
        match &mut self.place {
            Place::Open(opened) => opened.insert(self.alloc, id, keyspace, key, value),
            _ => Err(Error::Poisoned),
        }
    }

    /// Takes a key and its value away within the transaction of this id; refused as `Transaction::remove` is.
    pub fn remove_in(&mut self, id: u64, keyspace: u64, key: &[u8]) -> Result<()>
        ensures answers { WithinOne id (Writes keyspace key.now ops.Remove result) result (live_of self.old) (live_of self.new) }
        ensures batch { self.new.batch ≡ self.old.batch }
    {
        match &mut self.place {
            Place::Open(opened) => opened.remove(self.alloc, id, keyspace, key),
            _ => Err(Error::Poisoned),
        }
    }

    /// The value that a key has within the transaction of this id, which marks it.
    pub fn get_in(&mut self, id: u64, keyspace: u64, key: &[u8]) -> Result<Option<UserValue>>
        ensures answers { WithinOne id (Gets keyspace key.now result) result (live_of self.old) (live_of self.new) }
        ensures batch { self.new.batch ≡ self.old.batch }
    {
        match &mut self.place {
            Place::Open(opened) => opened.get(self.alloc, id, keyspace, key),
            _ => Err(Error::Poisoned),
        }
    }

    /// The first pairs of a range within the transaction of this id, or the last ones where `back`. It marks the range.
    pub fn page_in(
        &mut self,
        id: u64,
        keyspace: u64,
        range: &KeyRange,
        back: bool,
        max: usize,
    ) -> Result<Vec<KvPair>>
        ensures answers { WithinOne id (Pages keyspace range.now back max result) result (live_of self.old) (live_of self.new) }
        ensures batch { self.new.batch ≡ self.old.batch }
    {
        match &mut self.place {
            Place::Open(opened) => opened.page(self.alloc, id, keyspace, range, back, max),
            _ => Err(Error::Poisoned),
        }
    }

    /// Commits the transaction of this id, as `Core::commit` does. It ends it, whatever it answers.
    pub fn commit(&mut self, id: u64) -> CommitOutcome<Error>
        ensures answers { Commits id result (live_of self.old) (live_of self.new) }
        ensures batch { self.new.batch ≡ self.old.batch }
    {
        match &mut self.place {
            Place::Open(opened) => opened.commit(id),
            _ => CommitOutcome::Aborted(Error::Poisoned),
        }
    }

    /// Ends the transaction of this id without its own writes.
    pub fn rollback(&mut self, id: u64) -> Result<()>
        ensures answers { RollsBack id result (live_of self.old) (live_of self.new) }
        ensures batch { self.new.batch ≡ self.old.batch }
    {
        match &mut self.place {
            Place::Open(opened) => opened.rollback(id),
            _ => Err(Error::Poisoned),
        }
    }
}
