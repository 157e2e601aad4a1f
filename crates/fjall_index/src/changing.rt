//! Changes of one key, and transactions.

ghost use Rattle.std.specs.Prelude.{IfErr, IfOk, IsTrue, None, OnErr, OnOk, Option, Some, [], ℕ, ◌≡◌, ◌⊎◌};
ghost use Rattle.std.specs.Result.{IsErr};
ghost use Rattle.fjall_base.specs.Pairs.{Pairs, lookup};
ghost use Rattle.fjall_base.specs.Store.{map_at};
ghost use Rattle.fjall_history.specs.declared.ticket.View.TheVariants.{At};
ghost use Rattle.fjall_machine.specs.Machine.{maps_in};
ghost use Rattle.fjall_core.specs.CoreStanding.{ReadsOn};
ghost use Rattle.fjall_core.specs.Durables.{Durable};
ghost use Rattle.fjall_core.specs.Leaving.{LeavesStanding};
ghost use Rattle.fjall_core.specs.Shown.{Shows};
ghost use Rattle.fjall_core.specs.Standing.{StandFor, CoreState};
ghost use Rattle.fjall_index_entries.specs.Putting.{put_items};
ghost use Rattle.fjall_index.specs.Changes.{HasKept, IsIndexedTx, IsOutcomeOf, IsSameTx, items_in, where_committed};
ghost use Rattle.fjall_index.specs.Changing.{EndsAnswered, EndsIndexed, HasWritten, IsAnswerOf, RollsBack};
ghost use Rattle.fjall_index.specs.KeptChanges.{KeepsChange};
ghost use Rattle.fjall_index.specs.Refusing.{BeginsSo, IsChangeRefusal, IsCommitAnswer, IsEndRefusal, IsItemRefusal, IsPutRefusal, IsWriteRefusal, OfEngine};
ghost use Rattle.fjall_index.specs.Standing.{GoesOnIndexed, KeepsIndexed, StandsIndexed, nothing, putting, where_done};

use crate::indexed::Indexed;
use crate::indexed_tx::{IndexedTx, write_kept};
use crate::reading::value_in;
use fjall_base::{Disk, Error, UserKey, UserValue, check_item};
use fjall_core::{CommitOutcome, Core, Engine, Transaction, View};
use fjall_index_entries::{Extract, IndexError, Result, own_writes_keep_the_index, put_items};
use fjall_tx::own_writes_grow;

// What a call answers that is one transaction. One that began at the present meets none.
fn answer_of(outcome: CommitOutcome<Error>) -> fjall_base::Result<()>
    ensures { IsAnswerOf outcome result }
{
    match outcome {
        CommitOutcome::Ok => Ok(()),
        CommitOutcome::Conflicted => Err(Error::TransactionOpen),
        CommitOutcome::Aborted(error) => Err(error),
    }
}

// Ends a transaction: commits it where its own writes are done, and rolls it back where they were refused.
pub(crate) fn end<D: Disk>(
    core: &mut Core<D>,
    transaction: Transaction,
    done: fjall_base::Result<()>,
) -> fjall_base::Result<()>
    ensures keeps { IsTrue D.honest → EndsIndexed core.old.engine core.old.transactions transaction done result core.new.engine core.new.transactions }
    ensures ends { IsTrue D.honest → EndsAnswered core.old.engine core.old.transactions transaction done result core.new.engine core.new.transactions }
    ensures refused { OnErr done (IsErr result) }
    ensures cause { (t : CoreState) → StandFor core.old.engine core.old.transactions t → IfErr result (IsEndRefusal t transaction done) }
{
    if let Err(error) = done {
        core.rollback(transaction)?;
        return Err(error);
    }
    answer_of(core.commit(transaction))
}

impl<E: Extract> Indexed<E> {
    // Writes into a transaction what a key's new value, or none, changes in both keyspaces, and marks the key as read.
    fn write_in<D: Disk>(
        &self,
        engine: &mut Engine<D>,
        transaction: &mut Transaction,
        key: UserKey,
        new: Option<UserValue>,
    ) -> fjall_base::Result<()>
        ensures written { (map : Pairs) → Shows D.honest engine.old (At transaction.old.ticket) self.now.main map
            → OnOk result (HasWritten transaction.old self.now.main key (put_items (E.field_of self.now.extract) self.now.main self.now.index key (lookup map key) new) transaction.new) }
        ensures cause { IfErr result (IsWriteRefusal D.honest (E.field_of self.now.extract) self.now.main self.now.index engine.old transaction.old.ticket key new engine.new) }
        ensures ticket { transaction.new.ticket ≡ transaction.old.ticket }
        ensures stand { LeavesStanding D.honest engine.old engine.new }
    {
        let view = View::At(transaction.ticket());
        let old = value_in(self.alloc, engine, view, self.main, key.as_slice())?;
        transaction.mark_read(self.main, key.as_slice())?;
        let items = put_items(
            self.alloc,
            &self.extract,
            self.main,
            self.index,
            key,
            &old,
            new,
        )?;
        transaction.write_all(items)
    }

    // Gives a key a value, or none, as one transaction.
    fn change<D: Disk>(
        &self,
        core: &mut Core<D>,
        key: UserKey,
        new: Option<UserValue>,
    ) -> Result<()>
        ensures keeps { IsTrue D.honest → KeepsIndexed (E.field_of self.now.extract) self.now.main self.now.index
            (where_done result (putting (E.field_of self.now.extract) self.now.main self.now.index key new))
            core.old.engine core.old.transactions core.new.engine core.new.transactions }
        ensures cause { IsTrue D.honest → (t : CoreState) → StandFor core.old.engine core.old.transactions t → ReadsOn core.old.engine t.state
            → IfErr result (OfEngine (IsPutRefusal D.honest (E.field_of self.now.extract) self.now.main self.now.index core.old.engine t key new)) }
    {
        own_writes_keep_the_index();
        own_writes_grow();
        let mut transaction = core.begin_optimistic()?;
        let done = self.write_in(core, &mut transaction, key, new);
        end(core, transaction, done)?;
        Ok(())
    }

    /// Gives a key a value.
    ///
    /// Refusals, after which nothing is written: `KeyEmpty`, `KeyTooLong` where the key or an entry that goes or comes has more
    /// than 65,535 bytes, `ValueTooLong`, and those of a read of the main keyspace and of a commit.
    pub fn put<D: Disk>(&self, core: &mut Core<D>, key: UserKey, value: UserValue) -> Result<()>
        ensures keeps { IsTrue D.honest → KeepsIndexed (E.field_of self.now.extract) self.now.main self.now.index
            (where_done result (putting (E.field_of self.now.extract) self.now.main self.now.index key (Some value)))
            core.old.engine core.old.transactions core.new.engine core.new.transactions }
        // It meets no other transaction: why it is refused is told whole.
        ensures cause { IsTrue D.honest → (t : CoreState) → StandFor core.old.engine core.old.transactions t → ReadsOn core.old.engine t.state
            → IfErr result (OfEngine (λ e. IsItemRefusal key (Some value) e ⊎ IsPutRefusal D.honest (E.field_of self.now.extract) self.now.main self.now.index core.old.engine t key (Some value) e)) }
    {
        check_item(key.as_slice(), value.as_slice())?;
        self.change(core, key, Some(value))
    }

    /// Takes a key and its value away. It is refused as [`put`](Indexed::put) is.
    pub fn del<D: Disk>(&self, core: &mut Core<D>, key: UserKey) -> Result<()>
        ensures keeps { IsTrue D.honest → KeepsIndexed (E.field_of self.now.extract) self.now.main self.now.index
            (where_done result (putting (E.field_of self.now.extract) self.now.main self.now.index key None))
            core.old.engine core.old.transactions core.new.engine core.new.transactions }
        // It meets no other transaction: why it is refused is told whole.
        ensures cause { IsTrue D.honest → (t : CoreState) → StandFor core.old.engine core.old.transactions t → ReadsOn core.old.engine t.state
            → IfErr result (OfEngine (λ e. IsItemRefusal key None e ⊎ IsPutRefusal D.honest (E.field_of self.now.extract) self.now.main self.now.index core.old.engine t key None e)) }
    {
        check_item(key.as_slice(), &[])?;
        self.change(core, key, None)
    }
}

// The outcome of a commit of the engine, as the index tells it.
fn outcome_of(outcome: CommitOutcome<Error>) -> CommitOutcome<IndexError>
    ensures { IsOutcomeOf outcome result }
{
    match outcome {
        CommitOutcome::Ok => CommitOutcome::Ok,
        CommitOutcome::Conflicted => CommitOutcome::Conflicted,
        CommitOutcome::Aborted(error) => CommitOutcome::Aborted(IndexError::Engine(error)),
    }
}

impl<E: Extract> Indexed<E> {
    /// Begins a transaction, which reads at the visible number. It is optimistic.
    ///
    /// Refusals, after which nothing has changed: `NumbersUsedUp` where no id is left for its ticket, `OutOfMemory`.
    pub fn begin<D: Disk>(&self, core: &mut Core<D>) -> Result<IndexedTx>
        ensures keeps { IsTrue D.honest → (since : ℕ) (t : CoreState) (d : Durable)
            → StandsIndexed (E.field_of self.now.extract) self.now.main self.now.index since core.old.engine core.old.transactions t d
            → (next : CoreState) × (e : Durable) × GoesOnIndexed (E.field_of self.now.extract) self.now.main self.now.index since [] t d next e core.new.engine core.new.transactions
            × IfOk result (IsIndexedTx (E.field_of self.now.extract) self.now.main self.now.index next) }
        ensures none { IfOk result (λ tx. tx.changes.entries ≡ []) }
        ensures told { BeginsSo core.old.engine result core.new.engine }
    {
        let transaction = core.begin_optimistic()?;
        Ok(IndexedTx::new(self.alloc, transaction))
    }

    // Keeps what a key's new value, or none, writes to both keyspaces, where it has had the one of the transaction's view.
    fn keep_in<D: Disk>(
        &self,
        engine: &mut Engine<D>,
        tx: &mut IndexedTx,
        key: UserKey,
        new: Option<UserValue>,
    ) -> Result<()>
        ensures kept { (map : Pairs) → Shows D.honest engine.old (At tx.old.transaction.ticket) self.now.main map
            → OnOk result (HasKept tx.old self.now.main key (put_items (E.field_of self.now.extract) self.now.main self.now.index key (lookup map key) new) tx.new) }
        ensures cause { IfErr result (OfEngine (IsChangeRefusal D.honest (E.field_of self.now.extract) self.now.main engine.old tx.old.transaction.ticket key new engine.new)) }
        ensures unchanged { OnErr result (IsSameTx tx.old tx.new) }
        ensures stand { LeavesStanding D.honest engine.old engine.new }
    {
        let view = View::At(tx.transaction.ticket());
        let old = value_in(self.alloc, engine, view, self.main, key.as_slice())?;
        let written = key.clone()?;
        let items = put_items(
            self.alloc,
            &self.extract,
            self.main,
            self.index,
            written,
            &old,
            new,
        )?;
        tx.keep(self.main, key, items)?;
        Ok(())
    }

    /// Gives a key a value within a transaction.
    ///
    /// Refusals, after which the transaction is as before: `KeyEmpty`, `KeyTooLong` where the key or an entry that goes or comes has
    /// more than 65,535 bytes, `ValueTooLong`, those of a read of the main keyspace in the transaction's view, and `OutOfMemory`.
    pub fn put_in<D: Disk>(
        &self,
        core: &mut Core<D>,
        tx: &mut IndexedTx,
        key: UserKey,
        value: UserValue,
    ) -> Result<()>
        ensures keeps { IsTrue D.honest → KeepsChange (E.field_of self.now.extract) self.now.main self.now.index key (Some value) tx.old result tx.new
            core.old.engine core.old.transactions core.new.engine core.new.transactions }
        ensures cause { IfErr result (OfEngine (IsChangeRefusal D.honest (E.field_of self.now.extract) self.now.main core.old.engine tx.old.transaction.ticket key (Some value) core.new.engine)) }
        ensures same { core.new.transactions ≡ core.old.transactions }
        ensures unchanged { OnErr result (IsSameTx tx.old tx.new) }
    {
        check_item(key.as_slice(), value.as_slice())?;
        self.keep_in(core, tx, key, Some(value))
    }

    /// Takes a key and its value away within a transaction. It is refused as [`put_in`](Indexed::put_in) is.
    pub fn del_in<D: Disk>(
        &self,
        core: &mut Core<D>,
        tx: &mut IndexedTx,
        key: UserKey,
    ) -> Result<()>
        ensures keeps { IsTrue D.honest → KeepsChange (E.field_of self.now.extract) self.now.main self.now.index key None tx.old result tx.new
            core.old.engine core.old.transactions core.new.engine core.new.transactions }
        ensures cause { IfErr result (OfEngine (IsChangeRefusal D.honest (E.field_of self.now.extract) self.now.main core.old.engine tx.old.transaction.ticket key None core.new.engine)) }
        ensures same { core.new.transactions ≡ core.old.transactions }
        ensures unchanged { OnErr result (IsSameTx tx.old tx.new) }
    {
        check_item(key.as_slice(), &[])?;
        self.keep_in(core, tx, key, None)
    }

    /// Commits a transaction: all that it changed is one batch, which is accepted or refused as a whole. It ends the transaction,
    /// whatever it answers, as [`Core::commit`] does.
    pub fn commit<D: Disk>(&self, core: &mut Core<D>, tx: IndexedTx) -> CommitOutcome<IndexError>
        ensures keeps { IsTrue D.honest → (since : ℕ) (t : CoreState) (d : Durable)
            → StandsIndexed (E.field_of self.now.extract) self.now.main self.now.index since core.old.engine core.old.transactions t d
            → IsIndexedTx (E.field_of self.now.extract) self.now.main self.now.index t tx
            → (next : CoreState) × (e : Durable) × GoesOnIndexed (E.field_of self.now.extract) self.now.main self.now.index since (where_committed result (items_in tx.changes.entries))
            t d next e core.new.engine core.new.transactions }
        ensures told { (t : CoreState) → StandFor core.old.engine core.old.transactions t → IsCommitAnswer t tx result core.new.engine core.new.transactions }
    {
        own_writes_keep_the_index();
        own_writes_grow();
        let IndexedTx {
            mut transaction,
            changes,
        } = tx;
        if let Err(error) = write_kept(self.alloc, &mut transaction, changes) {
            return match core.rollback(transaction) {
                Ok(()) => CommitOutcome::Aborted(IndexError::Engine(error)),
                Err(gone) => CommitOutcome::Aborted(IndexError::Engine(gone)),
            };
        }
        outcome_of(core.commit(transaction))
    }

    /// Ends a transaction, and nothing of what it changed is written.
    ///
    /// Refuses with `SnapshotClosed` where its ticket isn't open, after which nothing has changed.
    pub fn rollback<D: Disk>(&self, core: &mut Core<D>, tx: IndexedTx) -> Result<()>
        ensures keeps { IsTrue D.honest → KeepsIndexed (E.field_of self.now.extract) self.now.main self.now.index nothing
            core.old.engine core.old.transactions core.new.engine core.new.transactions }
        ensures told { RollsBack core.old.engine tx.transaction.ticket.id result core.new.engine }
    {
        let IndexedTx {
            transaction,
            changes: _changes,
        } = tx;
        match core.rollback(transaction) {
            Ok(()) => Ok(()),
            Err(error) => Err(IndexError::Engine(error)),
        }
    }
}
