//! What lies under the lock of a named database, and its calls that show a caller the list.

ghost use Rattle.std.specs.Prelude.{◌≡◌, Some, IfErr, IfOk, IsTrue, OnErr, OnOk, [], ◌∷◌};
ghost use Rattle.fjall_base.specs.Pairs.{lookup};
ghost use Rattle.fjall_base.specs.Store.{map_at};
ghost use Rattle.fjall_journal.specs.declared.op.Op.TheVariants as ops;
ghost use Rattle.fjall_tx.specs.Marks.{OfKey};
ghost use Rattle.fjall_tx.specs.Owns.{own_written};
ghost use Rattle.fjall_history.specs.Histories.{latest, number, view};
ghost use Rattle.fjall_history.specs.Moves.{HasGrown};
ghost use Rattle.fjall_shared.specs.CoreStanding.{reply_of};
ghost use Rattle.fjall_machine.specs.Shapes.{of_write};
ghost use Rattle.fjall_shared.specs.Transactions.{transaction_begun, having_read, no_marks};
ghost use Rattle.fjall_shared.specs.Locked.{list_of};
ghost use Rattle.fjall_shared.specs.Takings.{Lists, taking};
ghost use Rattle.fjall_seen.specs.Told.{CommitTold, EndsWithWrite, HasName, IsChangeCause, IsReadCause};

use crate::naming::Naming;
use fjall_base::{Disk, Error, Result, UserValue};
use fjall_history::SeenSeat;
use fjall_options::KeyspaceCreateOptions;
use fjall_shared::{CommitOutcome, Flag, Shared, Ticket, Transaction, View};
use std::marker::{Model, PhantomData};

// A locked state at the word of this name.
#[derive(Drop)]
pub(crate) struct Named<D: Disk, J: Naming> {
    pub(crate) shared: Shared<D>,
    pub(crate) of: PhantomData<J>,
}

impl<D: Disk, J: Naming> Model for Named<D, J> {
    ghost use Rattle.std.specs.Coded.{codes};
    ghost use Rattle.fjall_replay.specs.Known.{records_code};
    ghost use Rattle.fjall_tx.specs.Places.{places_code};
    ghost use Rattle.fjall_machine.specs.Remembered.{handles_code};
    ghost use Rattle.fjall_history.specs.Codes.{history_code};
    ghost use Rattle.fjall_shared.specs.Locked.{Locked};
    ghost use Rattle.fjall_seen.specs.Naming.{IsNamed};

    ghost Value = { Locked };

    ghost coded = { Prim.hlevel (codes, handles_code, records_code, places_code, history_code) };

    ghost view = { λ n. n.shared };

    ghost invariant = { λ n. IsNamed J.table n.shared.seat.table };
}

impl<D: Disk, J: Naming> Named<D, J> {
    pub(crate) fn insert_as(
        &mut self,
        seat: &mut SeenSeat,
        id: u64,
        key: &[u8],
        value: &[u8],
    ) -> Result<()>
        requires { J.table ≡ Some seat.old.table }
        ensures table { seat.new.table ≡ seat.old.table }
        ensures later { HasGrown seat.old.list seat.new.list }
        // It is written once.
        ensures once { Lists (taking (of_write (id, key.now, ops.Put value.now))) (reply_of result) (list_of self.old) (list_of self.new) }
        ensures last { OnOk result (EndsWithWrite seat.new.list (id, key.now, ops.Put value.now)) }
        ensures cause { IsTrue D.honest → IfErr result (IsChangeCause (latest seat.new.list) ((id, key.now, ops.Put value.now) ∷ [])) }
    {
        let result = self.shared.insert(id, key, value);
        self.shared.show(seat);
        result
    }

    pub(crate) fn remove_as(&mut self, seat: &mut SeenSeat, id: u64, key: &[u8]) -> Result<()>
        requires { J.table ≡ Some seat.old.table }
        ensures table { seat.new.table ≡ seat.old.table }
        ensures later { HasGrown seat.old.list seat.new.list }
        ensures once { Lists (taking (of_write (id, key.now, ops.Remove))) (reply_of result) (list_of self.old) (list_of self.new) }
        ensures last { OnOk result (EndsWithWrite seat.new.list (id, key.now, ops.Remove)) }
        ensures cause { IsTrue D.honest → IfErr result (IsChangeCause (latest seat.new.list) ((id, key.now, ops.Remove) ∷ [])) }
    {
        let result = self.shared.remove(id, key);
        self.shared.show(seat);
        result
    }

    pub(crate) fn get_as(
        &mut self,
        seat: &mut SeenSeat,
        id: u64,
        key: &[u8],
    ) -> Result<Option<UserValue>>
        requires { J.table ≡ Some seat.old.table }
        ensures table { seat.new.table ≡ seat.old.table }
        ensures later { HasGrown seat.old.list seat.new.list }
        ensures value { IsTrue D.honest → IfOk result (λ found. found ≡ lookup (map_at (latest seat.new.list).maps id) key.now) }
        ensures cause { IsTrue D.honest → IfErr result (IsReadCause (latest seat.new.list) id) }
    {
        let result = self.shared.get_at(View::Present, id, key);
        self.shared.show(seat);
        result
    }

    // Closes what handles that were dropped left open, which takes no number.
    fn close_dropped(&mut self)
        ensures { self.new.seat ≡ self.old.seat }
    {
        self.shared.collect_tickets();
    }

    // The ticket is closed once the flag is raised. What handles that were dropped left open is closed first.
    pub(crate) fn snapshot_as(&mut self, seat: &mut SeenSeat, flag: Flag) -> Result<Ticket>
        requires { J.table ≡ Some seat.old.table }
        ensures table { seat.new.table ≡ seat.old.table }
        ensures later { HasGrown seat.old.list seat.new.list }
        ensures instant { IfOk result (λ ticket. ticket.instant ≡ number seat.new.list) }
    {
        self.close_dropped();
        let result = self.shared.snapshot();
        self.shared.show(seat);
        let ticket = result?;
        if self.shared.watch_ticket(ticket, flag).is_err() {
            let _ = self.shared.close_snapshot(ticket);
            return Err(Error::OutOfMemory);
        }
        Ok(ticket)
    }

    pub(crate) fn commit_as(
        &mut self,
        seat: &mut SeenSeat,
        transaction: Transaction,
    ) -> CommitOutcome<Error>
        requires { J.table ≡ Some seat.old.table }
        ensures table { seat.new.table ≡ seat.old.table }
        ensures later { HasGrown seat.old.list seat.new.list }
        ensures told { IsTrue D.honest → CommitTold transaction result seat.new.list }
    {
        let ticket = transaction.ticket();
        // (a ticket of another database may have the number of one that is open here)
        if self.shared.instant_of(ticket) != Some(ticket.instant) {
            self.shared.show(seat);
            return CommitOutcome::Aborted(Error::SnapshotClosed);
        }
        let outcome = self.shared.commit(transaction);
        self.shared.show(seat);
        outcome
    }

    pub(crate) fn keyspace_as(
        &mut self,
        seat: &mut SeenSeat,
        name: &[u8],
        options: KeyspaceCreateOptions,
    ) -> Result<u64>
        requires { J.table ≡ Some seat.old.table }
        ensures table { seat.new.table ≡ seat.old.table }
        ensures later { HasGrown seat.old.list seat.new.list }
        ensures named { IsTrue D.honest → IfOk result (HasName (latest seat.new.list) name.now) }
    {
        let result = self.shared.keyspace(name, options);
        self.shared.show(seat);
        result
    }

    // The value that a key has in a snapshot.
    pub(crate) fn read_as(
        &mut self,
        seat: &mut SeenSeat,
        ticket: Ticket,
        id: u64,
        key: &[u8],
    ) -> Result<Option<UserValue>>
        requires { J.table ≡ Some seat.old.table }
        ensures table { seat.new.table ≡ seat.old.table }
        ensures later { HasGrown seat.old.list seat.new.list }
        ensures value { IsTrue D.honest → IfOk result (λ found. found ≡ lookup (map_at (view seat.new.list ticket.instant).maps id) key.now) }
    {
        let result = if self.shared.instant_of(ticket) == Some(ticket.instant) {
            self.shared.get_at(View::At(ticket), id, key)
        } else {
            Err(Error::SnapshotClosed)
        };
        self.shared.show(seat);
        result
    }

    // The transaction is ended once the flag is raised. What handles that were dropped left open is closed first.
    pub(crate) fn begin_as(&mut self, seat: &mut SeenSeat, flag: Flag) -> Result<Transaction>
        requires { J.table ≡ Some seat.old.table }
        ensures table { seat.new.table ≡ seat.old.table }
        ensures later { HasGrown seat.old.list seat.new.list }
        ensures begun { IfOk result (λ tx. (tx ≡ transaction_begun (Some no_marks) tx.ticket) × (tx.ticket.instant ≡ number seat.new.list)) }
    {
        self.close_dropped();
        let result = self.shared.begin_optimistic();
        self.shared.show(seat);
        let transaction = result?;
        if self
            .shared
            .watch_ticket(transaction.ticket(), flag)
            .is_err()
        {
            let _ = self.shared.rollback(transaction);
            return Err(Error::OutOfMemory);
        }
        Ok(transaction)
    }

    // The value of a key as a transaction sees it, which marks it.
    pub(crate) fn get_within_as(
        &mut self,
        seat: &mut SeenSeat,
        transaction: &mut Transaction,
        id: u64,
        key: &[u8],
    ) -> Result<Option<UserValue>>
        requires { J.table ≡ Some seat.old.table }
        ensures table { seat.new.table ≡ seat.old.table }
        ensures later { HasGrown seat.old.list seat.new.list }
        ensures value { IsTrue D.honest
            → IfOk result (λ found. found ≡ lookup (map_at (own_written (view seat.new.list transaction.old.ticket.instant).maps transaction.old.own) id) key.now) }
        ensures marked { OnOk result (transaction.new ≡ having_read transaction.old (OfKey id key.now)) }
        ensures unmarked { OnErr result (transaction.new ≡ transaction.old) }
    {
        let ticket = transaction.ticket();
        let result = if self.shared.instant_of(ticket) == Some(ticket.instant) {
            self.shared.get_within(transaction, id, key)
        } else {
            Err(Error::SnapshotClosed)
        };
        self.shared.show(seat);
        result
    }
}
