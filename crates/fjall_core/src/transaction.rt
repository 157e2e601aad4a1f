//! A transaction that is open.

ghost use Rattle.std.specs.Prelude.{◌≡◌, Err, MatchOption, IsOkUnless, OnErr, OnOk, is_none};
ghost use Rattle.fjall_base.specs.Limits.{item_refusal};
ghost use Rattle.fjall_base.specs.declared.error.Error.TheVariants.{OutOfMemory};
ghost use Rattle.fjall_journal.specs.Ops.{bytes_in, items_refusal};
ghost use Rattle.fjall_journal.specs.declared.op.Op.TheVariants.{Put, Remove, RemoveWeak};
ghost use Rattle.fjall_tx.specs.Marks.{Mark, OfKey, OfRange, key_bound};
ghost use Rattle.fjall_core.specs.Transactions.{HasNoReads, Tx, having_read, having_touched, op_of, replace_refusal, replacing, with_own, with_own_items};

use fjall_base::{KeyBounds, Result, UserKey, UserValue};
use fjall_engine::{BatchItem, Op, PersistMode, Ticket};
use fjall_tx::{ConflictManager, OwnWrites};
use std::marker::Model;

/// A transaction that is open: it reads at the instant at which it began, with its own writes, which nobody else sees until it
/// commits. It is open as long as its ticket is.
#[derive(Drop)]
pub struct Transaction {
    pub(crate) ticket: Ticket,
    pub(crate) own: OwnWrites,
    pub(crate) marks: Option<ConflictManager>,
    pub(crate) mode: Option<PersistMode>,
}

impl Model for Transaction {
    ghost use Rattle.std.specs.Coded.{codes};
    ghost use Rattle.fjall_tx.specs.Places.{places_code};
    ghost use Rattle.fjall_tx.specs.Owns.{own_code};
    ghost use Rattle.fjall_core.specs.Transactions.{Tx};

    ghost Value = { Tx };

    ghost coded = { Prim.hlevel (codes, places_code, own_code) };

    ghost view = { λ tx. record { ticket = tx.ticket; own = tx.own; marks = tx.marks; mode = tx.mode } };
}

// The write that gives a key this value, or none.
fn op_for(value: Option<UserValue>) -> Op
    ensures { result ≡ op_of value }
{
    match value {
        Some(value) => Op::Put(value),
        None => Op::Remove,
    }
}

impl Transaction {
    /// The ticket at whose instant it reads.
    pub fn ticket(&self) -> Ticket
        ensures { result ≡ self.now.ticket }
    {
        self.ticket
    }

    /// Whether it is the single writer's, which marks nothing.
    pub fn is_single(&self) -> bool
        ensures { result ≡ is_none self.now.marks }
    {
        self.marks.is_none()
    }

    /// The transaction, persisted by this mode or none when it commits.
    pub fn durability(self, mode: Option<PersistMode>) -> Transaction
        ensures { result ≡ record self { mode = mode } }
    {
        Transaction { mode, ..self }
    }

    // Writes a key of a keyspace.
    fn write(&mut self, id: u64, key: UserKey, op: Op) -> Result<()>
        ensures ok { OnOk result (self.new ≡ with_own self.old id key op) }
        ensures unchanged { OnErr result (self.new ≡ self.old) }
        ensures refused { MatchOption (item_refusal key (bytes_in op)) (IsOkUnless result OutOfMemory) (λ e. result ≡ Err e) }
    {
        self.own.write(id, key, op)
    }

    /// Gives a key of a keyspace a value. That there is such a keyspace is looked at by the commit.
    ///
    /// Refusals, after which all is as before: `KeyEmpty`, `KeyTooLong` above 65,535 bytes, `ValueTooLong` above
    /// 4,294,967,295, `OutOfMemory`.
    pub fn insert(&mut self, id: u64, key: UserKey, value: UserValue) -> Result<()>
        ensures ok { OnOk result (self.new ≡ with_own self.old id key (Put value)) }
        ensures unchanged { OnErr result (self.new ≡ self.old) }
        ensures refused { MatchOption (item_refusal key (bytes_in (Put value))) (IsOkUnless result OutOfMemory) (λ e. result ≡ Err e) }
    {
        self.write(id, key, Op::Put(value))
    }

    /// Takes a key of a keyspace and its value away. It is refused as [`insert`](Transaction::insert) is.
    pub fn remove(&mut self, id: u64, key: UserKey) -> Result<()>
        ensures ok { OnOk result (self.new ≡ with_own self.old id key Remove) }
        ensures unchanged { OnErr result (self.new ≡ self.old) }
        ensures refused { MatchOption (item_refusal key (bytes_in Remove)) (IsOkUnless result OutOfMemory) (λ e. result ≡ Err e) }
    {
        self.write(id, key, Op::Remove)
    }

    /// Acts as [`remove`](Transaction::remove); the journal alone tells the two apart.
    pub fn remove_weak(&mut self, id: u64, key: UserKey) -> Result<()>
        ensures ok { OnOk result (self.new ≡ with_own self.old id key RemoveWeak) }
        ensures unchanged { OnErr result (self.new ≡ self.old) }
        ensures refused { MatchOption (item_refusal key (bytes_in RemoveWeak)) (IsOkUnless result OutOfMemory) (λ e. result ≡ Err e) }
    {
        self.write(id, key, Op::RemoveWeak)
    }

    /// Writes these items, one behind another, all of them or none: where one key has several the last one counts. That there are
    /// such keyspaces is looked at by the commit.
    ///
    /// Refusals, after which all is as before, each looked for in all items before the next: `KeyEmpty`, `KeyTooLong` above 65,535
    /// bytes, `ValueTooLong` above 4,294,967,295; `TooManyItems`, above 4,294,967,295; `OutOfMemory`.
    pub fn write_all(&mut self, items: Vec<BatchItem>) -> Result<()>
        ensures ok { OnOk result (self.new ≡ with_own_items self.old items.items) }
        ensures unchanged { OnErr result (self.new ≡ self.old) }
        ensures refused { MatchOption (items_refusal items.items) (IsOkUnless result OutOfMemory) (λ e. result ≡ Err e) }
    {
        self.own.write_all(items)
    }

    /// Writes what a key of a keyspace becomes, a value or none, where it has had this one, as the transaction saw it. Where the
    /// two are the same nothing is written, and the key is marked as written all the same.
    ///
    /// Refusals, after which all is as before: where it writes those of [`insert`](Transaction::insert), and else `OutOfMemory`.
    pub fn replace(
        &mut self,
        id: u64,
        key: UserKey,
        old: &Option<UserValue>,
        new: Option<UserValue>,
    ) -> Result<()>
        ensures ok { OnOk result (self.new ≡ replacing self.old id key old.now new) }
        ensures unchanged { OnErr result (self.new ≡ self.old) }
        ensures refused { MatchOption (replace_refusal key old.now new) (IsOkUnless result OutOfMemory) (λ e. result ≡ Err e) }
    {
        if *old == new {
            return self.mark_written(id, key.as_slice());
        }
        self.write(id, key, op_for(new))
    }

    /// Its own writes.
    pub fn own(&self) -> &OwnWrites
        ensures { result.now ≡ self.now.own }
    {
        &self.own
    }

    /// Marks a key of a keyspace as read, where it is optimistic. It fails where memory is used up.
    pub fn mark_read(&mut self, id: u64, key: &[u8]) -> Result<()>
        ensures ok { OnOk result (self.new ≡ having_read self.old (OfKey id key.now)) }
        ensures unchanged { OnErr result (self.new ≡ self.old) }
        ensures only { IsOkUnless result OutOfMemory }
    {
        match &mut self.marks {
            Some(marks) => marks.mark_read(id, key),
            None => Ok(()),
        }
    }

    /// Marks the keys of a keyspace between two bounds as read, where it is optimistic. It fails where memory is used up.
    pub fn mark_range(&mut self, id: u64, range: KeyBounds<'_>) -> Result<()>
        ensures ok { OnOk result (self.new ≡ having_read self.old (OfRange id (key_bound range.entry.0) (key_bound range.entry.1))) }
        ensures unchanged { OnErr result (self.new ≡ self.old) }
        ensures only { IsOkUnless result OutOfMemory }
    {
        match &mut self.marks {
            Some(marks) => marks.mark_range(id, range),
            None => Ok(()),
        }
    }

    /// Marks a key of a keyspace as written, where it is optimistic, though nothing is written there. It fails where memory is used
    /// up.
    pub fn mark_written(&mut self, id: u64, key: &[u8]) -> Result<()>
        ensures ok { OnOk result (self.new ≡ having_touched self.old id key.now) }
        ensures unchanged { OnErr result (self.new ≡ self.old) }
        ensures only { IsOkUnless result OutOfMemory }
    {
        match &mut self.marks {
            Some(marks) => marks.mark_conflict(id, key),
            None => Ok(()),
        }
    }

    /// Takes back the read mark that was made last. Without any all stays as it was.
    pub fn take_back_read(&mut self)
        ensures taken { (tx : Tx) (mark : Mark) → self.old ≡ having_read tx mark → self.new ≡ tx }
        ensures none { HasNoReads self.old → self.new ≡ self.old }
    {
        if let Some(marks) = &mut self.marks {
            marks.take_back_read();
        }
    }
}
