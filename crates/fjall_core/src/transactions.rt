//! The transactions of a core: what is kept of them, and how they begin and end.

ghost use Rattle.std.specs.Prelude.{◌≡◌, ◌<◌, ◌≢◌, [], ◌==◌, length, false, true, Err, IfOk, IsOkUnless, IsTrue, MatchResult, None, OnErr, OnOk, Some};
ghost use Rattle.std.specs.FinMap.{empty};
ghost use Rattle.fjall_base.specs.declared.error.Error.TheVariants.{OutOfMemory, TransactionOpen};
ghost use Rattle.fjall_journal.specs.Changes.{Items};
ghost use Rattle.fjall_machine.specs.Shapes.{ByMode, Close, OfChange, OfTickets, Open};
ghost use Rattle.fjall_engine.specs.Standing.{Owes, ReadsOn, Serves, held_due, reply_of};
ghost use Rattle.fjall_tx.specs.Oracles.{pruned};
ghost use Rattle.fjall_core.specs.Transactions.{AreCommitsOf, MeetsSome, transaction_begun, committed, no_marks, none_kept, marks_of_items};
ghost use Rattle.fjall_machine.specs.Machine.{State, StepOf};
ghost use Rattle.fjall_core.specs.Standing.{CommitGoesOn, CommitStep, GoesOn, StandFor, CoreState, gone_on};
ghost use Rattle.fjall_core.specs.Commits.{AsksFor, Comes, Ends, begun_reply, is_writing};

use crate::cores::Core;
use crate::transaction::Transaction;
use fjall_base::{Disk, Error, Refused, Result};
use fjall_engine::{BatchItem, PersistMode, Ticket};
use fjall_tx::{CommitOutcome, ConflictManager, Oracle, OwnWrites};
use std::alloc::Global;

/// What a core keeps of its transactions: what optimistic ones that committed wrote, as long as an open one can meet them, and the
/// ticket of the single writer's that was begun last.
#[derive(Drop)]
pub struct Transactions {
    pub(crate) commits: Oracle,
    pub(crate) writer: Option<Ticket>,
}

// Marks each key of these items as written.
fn mark_items(mut marks: ConflictManager, items: &[BatchItem]) -> Result<ConflictManager>
    ensures ok { IfOk result (λ marked. marked ≡ marks_of_items marks items.now) }
    ensures only { IsOkUnless result OutOfMemory }
{
    for item in items {
        marks.mark_conflict(item.0, item.1.as_slice())?;
    }
    Ok(marks)
}

impl Transactions {
    /// None has begun. It takes no memory.
    pub(crate) fn new(alloc: Global) -> Transactions
        ensures { result ≡ none_kept }
    {
        Transactions {
            commits: Oracle::new(alloc),
            writer: None,
        }
    }

    // Whether a transaction with these marks, which began at this instant, meets one that committed since.
    fn meets(&self, instant: u64, marks: &Option<ConflictManager>) -> bool
        ensures yes { result ≡ true → MeetsSome instant marks.now self.now.commits }
        ensures no { result ≡ false → MeetsSome instant marks.now self.now.commits → ⊥ }
    {
        match marks {
            Some(marks) => self.commits.has_conflict(instant, marks),
            None => false,
        }
    }
}

impl<D: Disk> Core<D> {
    /// How many transactions that committed are kept, since one that is open may meet them.
    pub fn kept_commits(&self) -> usize
        ensures { result ≡ length self.now.transactions.commits }
    {
        self.transactions.commits.len()
    }

    // Begins a transaction, at the visible number.
    fn begin(&mut self, marks: Option<ConflictManager>) -> Result<Transaction>
        ensures serves { IsTrue D.honest → Serves self.old.engine (OfTickets Open) (begun_reply result) self.new.engine }
        ensures owes { Owes self.old.engine (OfTickets Open) (begun_reply result) self.new.engine }
        ensures begun { IfOk result (λ tx. tx ≡ transaction_begun marks tx.ticket) }
        ensures kept { self.new.transactions ≡ self.old.transactions }
    {
        let ticket = self.engine.snapshot()?;
        Ok(Transaction {
            ticket,
            own: OwnWrites::new(self.alloc),
            marks,
            mode: Some(PersistMode::Buffer),
        })
    }

    /// Begins an optimistic transaction, which reads at the visible number.
    ///
    /// Refusals: `NumbersUsedUp` where no id is left for its ticket, `OutOfMemory`. After each of them nothing has changed.
    pub fn begin_optimistic(&mut self) -> Result<Transaction>
        ensures serves { IsTrue D.honest → Serves self.old.engine (OfTickets Open) (begun_reply result) self.new.engine }
        ensures owes { Owes self.old.engine (OfTickets Open) (begun_reply result) self.new.engine }
        ensures begun { IfOk result (λ tx. tx ≡ transaction_begun (Some no_marks) tx.ticket) }
        ensures kept { self.new.transactions ≡ self.old.transactions }
        // So it is a step from whichever state the core stood for.
        ensures stands { (t : CoreState) → StandFor self.old.engine self.old.transactions t
            → (s : State) × StandFor self.new.engine self.new.transactions (gone_on t s) × StepOf t.state (OfTickets Open) (begun_reply result) s }
        ensures steps { IsTrue D.honest → (t : CoreState) → StandFor self.old.engine self.old.transactions t → ReadsOn self.old.engine t.state
            → GoesOn self.old.engine t (OfTickets Open) (begun_reply result) self.new.engine self.new.transactions }
    {
        let marks = ConflictManager::new(self.alloc);
        self.begin(Some(marks))
    }

    // Whether the single writer's transaction is open.
    fn is_writing(&self) -> bool
        ensures { result ≡ is_writing self.now.engine self.now.transactions.writer }
    {
        match self.transactions.writer {
            Some(ticket) => self.engine.instant_of(ticket).is_some(),
            None => false,
        }
    }

    /// Begins the single writer's transaction, which reads at the visible number. One alone is open at a time.
    ///
    /// Refusals: `TransactionOpen` while one is open, `NumbersUsedUp` where no id is left for its ticket, `OutOfMemory`. After
    /// each of them nothing has changed.
    pub fn begin_single(&mut self) -> Result<Transaction>
        ensures due { is_writing self.old.engine self.old.transactions.writer ≡ true → (result ≡ Err TransactionOpen) × (self.new.engine ≡ self.old.engine) }
        ensures serves { is_writing self.old.engine self.old.transactions.writer ≡ false → IsTrue D.honest → Serves self.old.engine (OfTickets Open) (begun_reply result) self.new.engine }
        ensures owes { is_writing self.old.engine self.old.transactions.writer ≡ false → Owes self.old.engine (OfTickets Open) (begun_reply result) self.new.engine }
        ensures begun { IfOk result (λ tx. (tx ≡ transaction_begun None tx.ticket) × (self.new.transactions ≡ record self.old.transactions { writer = Some tx.ticket })) }
        ensures unchanged { OnErr result (self.new.transactions ≡ self.old.transactions) }
        // So it is a step from whichever state the core stood for.
        ensures stands { is_writing self.old.engine self.old.transactions.writer ≡ false → (t : CoreState) → StandFor self.old.engine self.old.transactions t
            → (s : State) × StandFor self.new.engine self.new.transactions (gone_on t s) × StepOf t.state (OfTickets Open) (begun_reply result) s }
        ensures steps { is_writing self.old.engine self.old.transactions.writer ≡ false → IsTrue D.honest → (t : CoreState) → StandFor self.old.engine self.old.transactions t → ReadsOn self.old.engine t.state
            → GoesOn self.old.engine t (OfTickets Open) (begun_reply result) self.new.engine self.new.transactions }
    {
        if self.is_writing() {
            return Err(Error::TransactionOpen);
        }
        let transaction = self.begin(None)?;
        self.transactions.writer = Some(transaction.ticket);
        Ok(transaction)
    }

    // Writes the items of an optimistic transaction, of which nothing is refused but for want of memory or by the disk.
    fn write_marked(
        &mut self,
        items: Vec<BatchItem>,
        marks: ConflictManager,
        mode: Option<PersistMode>,
    ) -> Result<()>
        requires some { (length items.items == 0) ≡ false }
        requires free { held_due self.old.engine (OfChange (Items items.items) (ByMode mode)) ≡ None }
        ensures serves { IsTrue D.honest → AsksFor Serves self.old.engine (OfChange (Items items.items) (ByMode mode)) result self.new.engine }
        ensures owes { AsksFor Owes self.old.engine (OfChange (Items items.items) (ByMode mode)) result self.new.engine }
        ensures ok { AreCommitsOf self.old.engine self.old.transactions.commits
            → OnOk result (self.new.transactions ≡ record self.old.transactions { commits = committed self.old.engine.memory.next (Some marks) items.items self.old.transactions.commits }) }
        ensures err { AreCommitsOf self.old.engine self.old.transactions.commits → OnErr result (self.new.transactions ≡ self.old.transactions) }
        ensures writer { self.new.transactions ≡ record self.old.transactions { commits = self.new.transactions.commits } }
    {
        let marks = mark_items(marks, &items)?;
        if let Err(refused) = self.transactions.commits.push(self.engine.seqno(), marks) {
            let Refused { error, value: _ } = refused;
            return Err(error);
        }
        let written = self.engine.commit_batch(items, mode);
        if written.is_err() {
            self.transactions.commits.take_back();
        }
        written
    }

    // Writes the items of a transaction that meets none.
    fn write(
        &mut self,
        items: Vec<BatchItem>,
        marks: Option<ConflictManager>,
        mode: Option<PersistMode>,
    ) -> Result<()>
        requires some { (length items.items == 0) ≡ false }
        ensures serves { IsTrue D.honest → AsksFor Serves self.old.engine (OfChange (Items items.items) (ByMode mode)) result self.new.engine }
        ensures owes { AsksFor Owes self.old.engine (OfChange (Items items.items) (ByMode mode)) result self.new.engine }
        ensures ok { AreCommitsOf self.old.engine self.old.transactions.commits
            → OnOk result (self.new.transactions ≡ record self.old.transactions { commits = committed self.old.engine.memory.next marks items.items self.old.transactions.commits }) }
        ensures err { AreCommitsOf self.old.engine self.old.transactions.commits → OnErr result (self.new.transactions ≡ self.old.transactions) }
        ensures writer { self.new.transactions ≡ record self.old.transactions { commits = self.new.transactions.commits } }
    {
        if let Some(error) = self.engine.batch_refusal(&items) {
            return Err(error);
        }
        match marks {
            Some(marks) => self.write_marked(items, marks, mode),
            None => self.engine.commit_batch(items, mode),
        }
    }

    // Closes the ticket of a transaction, and forgets what none that is open can meet.
    fn close_ticket(&mut self, ticket: Ticket) -> Result<()>
        ensures serves { IsTrue D.honest → Serves self.old.engine (OfTickets (Close ticket.id)) (reply_of result) self.new.engine }
        ensures owes { Owes self.old.engine (OfTickets (Close ticket.id)) (reply_of result) self.new.engine }
        ensures ok { OnOk result (self.new.transactions ≡ record self.old.transactions { commits = pruned self.old.transactions.commits self.new.engine.memory.tickets.watermark }) }
        ensures err { OnErr result (self.new.transactions ≡ self.old.transactions) }
    {
        self.engine.close_snapshot(ticket)?;
        self.transactions.commits.prune(self.engine.watermark());
        Ok(())
    }

    // What comes of a transaction that reads at this instant, before its ticket is closed.
    fn end(&mut self, instant: u64, transaction: Transaction) -> CommitOutcome<Error>
        ensures serves { IsTrue D.honest → Comes Serves self.old.transactions.commits self.old.engine instant transaction result self.new.transactions.commits self.new.engine }
        ensures owes { Comes Owes self.old.transactions.commits self.old.engine instant transaction result self.new.transactions.commits self.new.engine }
        ensures writer { self.new.transactions ≡ record self.old.transactions { commits = self.new.transactions.commits } }
        ensures tickets { self.new.engine.memory.tickets ≡ self.old.engine.memory.tickets }
    {
        let Transaction {
            ticket: _,
            own,
            marks,
            mode,
        } = transaction;
        if own.is_empty() {
            return CommitOutcome::Ok;
        }
        if self.transactions.meets(instant, &marks) {
            return CommitOutcome::Conflicted;
        }
        match self.write(own.into_items(), marks, mode) {
            Ok(()) => CommitOutcome::Ok,
            Err(error) => CommitOutcome::Aborted(error),
        }
    }

    /// Commits a transaction: its own writes are one batch, each key once with the last that was written there, accepted under
    /// the next number or refused as a whole. It ends the transaction and closes its ticket, whatever it answers.
    ///
    /// Answers, the first that has its cause: `Aborted(SnapshotClosed)` where its ticket isn't open, and then nothing has
    /// changed; `Ok` without own writes, unchecked, also in a poisoned core; `Conflicted` exactly where an optimistic
    /// transaction that committed at or above its instant wrote a key that its reads cover; and else as
    /// [`commit_batch`](Engine::commit_batch) answers. A single writer's meets none.
    pub fn commit(&mut self, transaction: Transaction) -> CommitOutcome<Error>
        ensures serves { IsTrue D.honest → Ends Serves self.old.transactions self.old.engine transaction result self.new.transactions self.new.engine }
        ensures owes { Ends Owes self.old.transactions self.old.engine transaction result self.new.transactions self.new.engine }
        // So it is a step from whichever state the core stood for, in which it conflicts exactly where it meets one of all that ever
        // committed.
        ensures stands { (t : CoreState) → StandFor self.old.engine self.old.transactions t
            → (after : CoreState) × StandFor self.new.engine self.new.transactions after × CommitStep t transaction result after }
        ensures steps { IsTrue D.honest → (t : CoreState) → StandFor self.old.engine self.old.transactions t → ReadsOn self.old.engine t.state
            → CommitGoesOn self.old.engine t transaction result self.new.engine self.new.transactions }
    {
        let ticket = transaction.ticket;
        let Some(instant) = self.engine.instant_of(ticket) else {
            return CommitOutcome::Aborted(Error::SnapshotClosed);
        };
        let outcome = self.end(instant, transaction);
        let Ok(()) = self.close_ticket(ticket) else {
            unreachable!()
        };
        outcome
    }

    /// Ends a transaction without its own writes, and closes its ticket.
    ///
    /// Refuses with `SnapshotClosed` where its ticket isn't open, after which nothing has changed.
    pub fn rollback(&mut self, transaction: Transaction) -> Result<()>
        ensures serves { IsTrue D.honest → Serves self.old.engine (OfTickets (Close transaction.ticket.id)) (reply_of result) self.new.engine }
        ensures owes { Owes self.old.engine (OfTickets (Close transaction.ticket.id)) (reply_of result) self.new.engine }
        ensures ok { OnOk result (self.new.transactions ≡ record self.old.transactions { commits = pruned self.old.transactions.commits self.new.engine.memory.tickets.watermark }) }
        ensures err { OnErr result (self.new.transactions ≡ self.old.transactions) }
        // So it is a step from whichever state the core stood for.
        ensures stands { (t : CoreState) → StandFor self.old.engine self.old.transactions t
            → (s : State) × StandFor self.new.engine self.new.transactions (gone_on t s) × StepOf t.state (OfTickets (Close transaction.ticket.id)) (reply_of result) s }
        ensures steps { IsTrue D.honest → (t : CoreState) → StandFor self.old.engine self.old.transactions t → ReadsOn self.old.engine t.state
            → GoesOn self.old.engine t (OfTickets (Close transaction.ticket.id)) (reply_of result) self.new.engine self.new.transactions }
    {
        self.close_ticket(transaction.ticket)
    }
}
