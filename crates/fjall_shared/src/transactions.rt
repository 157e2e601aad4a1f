//! Transactions of both kinds: how they begin and end.

ghost use Rattle.std.specs.Prelude.{◌≡◌, Err, None, Some, false, true, IfOk, OnErr, OnOk};
ghost use Rattle.fjall_base.specs.declared.error.Error.TheVariants.{TransactionOpen};
ghost use Rattle.fjall_tx.specs.Oracles.{pruned};
ghost use Rattle.fjall_machine.specs.Shapes.{Close, OfTickets, Open};
ghost use Rattle.fjall_core.specs.CoreStanding.{reply_of};
ghost use Rattle.fjall_core.specs.Commits.{begun_reply, is_writing};
ghost use Rattle.fjall_core.specs.Transactions.{transaction_begun, no_marks};
ghost use Rattle.fjall_shared.specs.Does.{Does, DoesCommit, MakesCall};

use crate::shared::Shared;
use crate::telling::tell;
use fjall_base::{Disk, Error, Result};
use fjall_core::{CommitOutcome, Transaction};
use std::marker::Brand;
use std::snapshot::Snapshot;

impl<D: Disk> Shared<D> {
    /// Begins an optimistic transaction, which reads at the visible number, as
    /// [`Core::begin_optimistic`](fjall_core::Core::begin_optimistic) does.
    pub fn begin_optimistic(&mut self) -> Result<Transaction>
        ensures does { Does D.honest self.old (OfTickets Open) (begun_reply result) self.new }
        ensures begun { IfOk result (λ tx. tx ≡ transaction_begun (Some no_marks) tx.ticket) }
    {
        self.core.begin_optimistic()
    }

    /// Begins the single writer's transaction, which reads at the visible number. One alone is open at a time.
    ///
    /// Refusals: `TransactionOpen` while one is open, `NumbersUsedUp`, `OutOfMemory`. After each of them nothing has changed.
    pub fn begin_single(&mut self) -> Result<Transaction>
        ensures due { is_writing self.old.core self.old.kept.writer ≡ true → (result ≡ Err TransactionOpen) × (self.new ≡ self.old) }
        ensures makes { is_writing self.old.core self.old.kept.writer ≡ false → MakesCall D.honest self.old (OfTickets Open) (begun_reply result) self.new }
        ensures begun { IfOk result (λ tx. (tx ≡ transaction_begun None tx.ticket) × (self.new.kept ≡ record self.old.kept { writer = Some tx.ticket })) }
        ensures unchanged { OnErr result (self.new.kept ≡ self.old.kept) }
        ensures stays { self.new ≡ record self.old { core = self.new.core; kept = self.new.kept } }
    {
        self.core.begin_single()
    }

    /// Commits a transaction, which ends it whatever it answers, as [`Core::commit`](fjall_core::Core::commit) does. It conflicts
    /// exactly where an entry of the list, numbered at or above the instant at which it began, meets its reads.
    pub fn commit(&mut self, transaction: Transaction) -> CommitOutcome<Error>
        ensures { DoesCommit D.honest self.old transaction result self.new }
    {
        let ticket = transaction.ticket();
        let instant = self.core.instant_of(ticket).unwrap_or(0);
        let call = (instant, transaction);
        let said = Snapshot::of(&call);
        let (_, transaction) = call;
        let before = self.core.visible_seqno();
        let outcome = self.core.commit(transaction);
        let after = self.core.visible_seqno();
        tell::<Brand, (u64, Transaction)>(&self.word, &mut self.seat, before, after, &said);
        outcome
    }

    /// Ends a transaction without its own writes. It takes no memory.
    ///
    /// Refuses with `SnapshotClosed` where its ticket isn't open, after which nothing has changed.
    pub fn rollback(&mut self, transaction: Transaction) -> Result<()>
        ensures makes { MakesCall D.honest self.old (OfTickets (Close transaction.ticket.id)) (reply_of result) self.new }
        ensures ok { OnOk result (self.new.kept ≡ record self.old.kept { commits = pruned self.old.kept.commits self.new.core.memory.tickets.watermark }) }
        ensures err { OnErr result (self.new.kept ≡ self.old.kept) }
        ensures stays { self.new ≡ record self.old { core = self.new.core; kept = self.new.kept } }
    {
        self.core.rollback(transaction)
    }
}
