//! A database that is open, and its transactions.

ghost use Rattle.std.specs.Prelude.{◌≡◌, ◌==◌, ◌<◌, IfSome, Err, length};
ghost use Rattle.fjall_journal.specs.declared.op.Op.TheVariants as ops;
ghost use Rattle.fjall_tx.specs.declared.outcome.CommitOutcome.TheVariants.{Aborted};
ghost use Rattle.fjall_c.specs.Live.{live};
ghost use Rattle.fjall_c.specs.Openings.{ClosesEngine};
ghost use Rattle.fjall_c.specs.Transactions.{BeginsIn, CommitsOne, Gets, OfOne, Pages, RollsOneBack, Within, Writes, place_of};

use crate::mirror::MirrorDisk;
use crate::session::within::{get_in, insert_in, page_in, remove_in};
use fjall_base::{Error, KvPair, Result, UserValue};
use fjall_core::{CommitOutcome, Core, Ticket, Transaction};
use fjall_reading::KeyRange;
use std::alloc::Global;

/// A database that is open: its core, and the transactions that its caller began and hasn't ended.
#[derive(Drop)]
pub(crate) struct Opened {
    pub(crate) core: Core<MirrorDisk>,
    pub(crate) going: Vec<Transaction>,
}

// Whether it is the transaction of this id.
fn is_of(transaction: &Transaction, id: u64) -> bool
    ensures { result ≡ (transaction.now.ticket.id == id) }
{
    transaction.ticket().id == id
}

// Where the transaction of this id stands among these, if it is one of them.
fn place_of(going: &[Transaction], id: u64) -> Option<usize>
    ensures place { result ≡ place_of id going.now }
    ensures within { IfSome result (λ place. place < length going.now) }
{
    going.iter().position(|transaction| is_of(transaction, id))
}

impl Opened {
    /// Begins an optimistic transaction, and gives its ticket, whose id is the transaction's.
    pub(crate) fn begin(&mut self) -> Result<Ticket>
        ensures { BeginsIn (live self.old) (live self.new) result }
    {
        self.going.reserve(1)?;
        let transaction = self.core.begin_optimistic()?;
        let ticket = transaction.ticket();
        self.going.push_reserved(transaction);
        Ok(ticket)
    }

    /// Gives a key a value within the transaction of this id.
    pub(crate) fn insert(
        &mut self,
        alloc: Global,
        id: u64,
        keyspace: u64,
        key: &[u8],
        value: &[u8],
    ) -> Result<()>
        ensures { OfOne id (λ error. result ≡ Err error) (Within (Writes keyspace key.now (ops.Put value.now) result)) (live self.old) (live self.new) }
    {
        let Some(place) = place_of(&self.going, id) else {
            return Err(Error::SnapshotClosed);
        };
        insert_in(alloc, &mut self.going[place], keyspace, key, value)
    }

    /// Takes a key and its value away within the transaction of this id.
    pub(crate) fn remove(&mut self, alloc: Global, id: u64, keyspace: u64, key: &[u8]) -> Result<()>
        ensures { OfOne id (λ error. result ≡ Err error) (Within (Writes keyspace key.now ops.Remove result)) (live self.old) (live self.new) }
    {
        let Some(place) = place_of(&self.going, id) else {
            return Err(Error::SnapshotClosed);
        };
        remove_in(alloc, &mut self.going[place], keyspace, key)
    }

    /// The value that a key has within the transaction of this id.
    pub(crate) fn get(
        &mut self,
        alloc: Global,
        id: u64,
        keyspace: u64,
        key: &[u8],
    ) -> Result<Option<UserValue>>
        ensures { OfOne id (λ error. result ≡ Err error) (Within (Gets keyspace key.now result)) (live self.old) (live self.new) }
    {
        let Some(place) = place_of(&self.going, id) else {
            return Err(Error::SnapshotClosed);
        };
        get_in(alloc, &mut self.core, &mut self.going[place], keyspace, key)
    }

    /// The first pairs of a range within the transaction of this id, or the last ones.
    pub(crate) fn page(
        &mut self,
        alloc: Global,
        id: u64,
        keyspace: u64,
        range: &KeyRange,
        back: bool,
        max: usize,
    ) -> Result<Vec<KvPair>>
        ensures { OfOne id (λ error. result ≡ Err error) (Within (Pages keyspace range.now back max result)) (live self.old) (live self.new) }
    {
        let Some(place) = place_of(&self.going, id) else {
            return Err(Error::SnapshotClosed);
        };
        let transaction = &mut self.going[place];
        page_in(
            alloc,
            &mut self.core,
            transaction,
            keyspace,
            range,
            back,
            max,
        )
    }

    /// Commits the transaction of this id.
    pub(crate) fn commit(&mut self, id: u64) -> CommitOutcome<Error>
        ensures { OfOne id (λ error. result ≡ Aborted error) (CommitsOne result) (live self.old) (live self.new) }
    {
        let Some(place) = place_of(&self.going, id) else {
            return CommitOutcome::Aborted(Error::SnapshotClosed);
        };
        let transaction = self.going.remove(place);
        self.core.commit(transaction)
    }

    /// Ends the transaction of this id without its own writes.
    pub(crate) fn rollback(&mut self, id: u64) -> Result<()>
        ensures { OfOne id (λ error. result ≡ Err error) (RollsOneBack result) (live self.old) (live self.new) }
    {
        let Some(place) = place_of(&self.going, id) else {
            return Err(Error::SnapshotClosed);
        };
        let transaction = self.going.remove(place);
        self.core.rollback(transaction)
    }

    /// Syncs the journal, and closes the core.
    pub(crate) fn close(self) -> Result<()>
        ensures { ClosesEngine self.core.engine result }
    {
        let Opened { core, going } = self;
        drop(going);
        let (disk, closed) = core.close();
        drop(disk);
        closed
    }
}
