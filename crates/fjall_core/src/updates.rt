//! A key of a core, read and written within a transaction in one call.

ghost use Rattle.std.specs.Prelude.{◌≡◌, ℕ, None, IfErr, IfOk, OnErr, OnOk};
ghost use Rattle.fjall_base.specs.Pairs.{Pairs, lookup};
ghost use Rattle.fjall_tx.specs.Owns.{Own};
ghost use Rattle.fjall_core.specs.Shown.{ReadsKeyspace};
ghost use Rattle.fjall_tx.specs.Marks.{Mark};
ghost use Rattle.fjall_core.specs.Transactions.{Tx, having_read};
ghost use Rattle.fjall_core.specs.Seeing.{Sees};
ghost use Rattle.fjall_core.specs.Updating.{HasMade, IsMadeRefusal, IsUpdateRefusal, MakesValue, Updated, makes_none};

use crate::transaction::Transaction;
use crate::transaction_reader::TransactionReader;
use fjall_base::{Disk, Result, UserKey, UserValue};
use std::alloc::AllocError;
use std::result;

/// What a function makes of a value, or of none: a value or none, unless it finds no memory.
pub type Made = result::Result<Option<UserValue>, AllocError>;

// Writes what the function makes of what a key has.
fn make<F: FnOnce(Option<&UserValue>) -> Made>(
    transaction: &mut Transaction,
    id: u64,
    key: UserKey,
    found: &Option<UserValue>,
    f: F,
) -> Result<()>
    requires { F.IsAlwaysCallable f }
    ensures ok { OnOk result ((new : _) × HasMade (MakesValue F.FnOnce f) transaction.old id key found.now new transaction.new) }
    ensures unchanged { OnErr result (transaction.new ≡ transaction.old) }
    ensures refused { IfErr result (IsMadeRefusal (MakesValue F.FnOnce f) key found.now) }
{
    let new = f(found.as_ref())?;
    transaction.replace(id, key, found, new)
}

// Writes what the function makes of what a key has, and answers it.
fn make_copied<F: FnOnce(Option<&UserValue>) -> Made>(
    transaction: &mut Transaction,
    id: u64,
    key: UserKey,
    found: &Option<UserValue>,
    f: F,
) -> Result<Option<UserValue>>
    requires { F.IsAlwaysCallable f }
    ensures ok { IfOk result (λ new. HasMade (MakesValue F.FnOnce f) transaction.old id key found.now new transaction.new) }
    ensures unchanged { OnErr result (transaction.new ≡ transaction.old) }
    ensures refused { IfErr result (IsMadeRefusal (MakesValue F.FnOnce f) key found.now) }
{
    let new = f(found.as_ref())?;
    let answer = new.clone()?;
    transaction.replace(id, key, found, new)?;
    Ok(answer)
}

// What became of an update, after which the mark of its read is taken back where it was refused.
fn settled<T>(transaction: &mut Transaction, done: Result<T>) -> Result<T>
    ensures same { result ≡ done }
    ensures ok { OnOk result (transaction.new ≡ transaction.old) }
    ensures taken_back { OnErr result ((tx : Tx) (mark : Mark) → transaction.old ≡ having_read tx mark → transaction.new ≡ tx) }
{
    if done.is_err() {
        transaction.take_back_read();
    }
    done
}

impl<'a, D: Disk> TransactionReader<'a, D> {
    /// Takes a key of a keyspace and its value away, and answers the value that it had. The key is marked as read; where it had
    /// no value nothing is written, and it is marked as written all the same.
    ///
    /// Refusals: those of a read of the key, and then those of [`Transaction::remove`] where it had a value, and `OutOfMemory`.
    /// After each of them the transaction is as before, and so are its marks.
    pub fn take(&mut self, id: u64, key: UserKey) -> Result<Option<UserValue>>
        ensures ok { (map : Pairs) → Sees D.honest self.old.reader.core.now self.old.reader.view self.old.transaction.now.own id map → IfOk result (λ found. found ≡ lookup map key) }
        ensures updated { IfOk result (λ found. Updated makes_none D.honest self.old.reader.core.now self.old.reader.view self.old.transaction.now id key found None
            self.new.reader.core.now self.new.reader.view self.new.transaction.now) }
        ensures unchanged { OnErr result (self.new.transaction.now ≡ self.old.transaction.now) }
        ensures refused { IfErr result (IsUpdateRefusal makes_none D.honest self.old.reader.core.now self.old.reader.view self.old.transaction.now.own id key self.new.reader.core.now) }
        // What was seen with whichever own writes is seen with them still.
        ensures same { (own : Own) (i : ℕ) (map : Pairs) → Sees D.honest self.old.reader.core.now self.old.reader.view own i map
            → Sees D.honest self.new.reader.core.now self.new.reader.view own i map }
        ensures reads { ReadsKeyspace D.honest self.old.reader.core self.old.reader.view id None self.new.reader.core self.new.reader.view }
        ensures lent { self.new.transaction.ghost_name ≡ self.old.transaction.ghost_name }
    {
        self.fetch_update(id, key, |_| Ok(None))
    }

    /// Gives a key of a keyspace what the function makes of the value that it has, or of none, and answers the value that it had.
    /// The key is marked as read; where it stays the same nothing is written, and it is marked as written all the same.
    ///
    /// Refusals: those of a read of the key, and then those of [`Transaction::insert`] where what the function makes differs, and
    /// `OutOfMemory`, also where the function finds no memory. After each of them the transaction is as before, and so are its marks.
    pub fn fetch_update<F: FnOnce(Option<&UserValue>) -> Made>(
        &mut self,
        id: u64,
        key: UserKey,
        f: F,
    ) -> Result<Option<UserValue>>
        requires { F.IsAlwaysCallable f }
        ensures ok { (map : Pairs) → Sees D.honest self.old.reader.core.now self.old.reader.view self.old.transaction.now.own id map → IfOk result (λ found. found ≡ lookup map key) }
        ensures updated { IfOk result (λ found. (new : _) × Updated (MakesValue F.FnOnce f) D.honest self.old.reader.core.now self.old.reader.view self.old.transaction.now id key found new
            self.new.reader.core.now self.new.reader.view self.new.transaction.now) }
        ensures unchanged { OnErr result (self.new.transaction.now ≡ self.old.transaction.now) }
        ensures refused { IfErr result (IsUpdateRefusal (MakesValue F.FnOnce f) D.honest self.old.reader.core.now self.old.reader.view self.old.transaction.now.own id key self.new.reader.core.now) }
        ensures same { (own : Own) (i : ℕ) (map : Pairs) → Sees D.honest self.old.reader.core.now self.old.reader.view own i map
            → Sees D.honest self.new.reader.core.now self.new.reader.view own i map }
        ensures reads { ReadsKeyspace D.honest self.old.reader.core self.old.reader.view id None self.new.reader.core self.new.reader.view }
        ensures lent { self.new.transaction.ghost_name ≡ self.old.transaction.ghost_name }
    {
        let found = self.read_key(id, key.as_slice())?;
        let done = make(self.transaction, id, key, &found, f);
        settled(self.transaction, done)?;
        Ok(found)
    }

    /// Acts as [`fetch_update`](TransactionReader::fetch_update), and answers the value that the key has then.
    pub fn update_fetch<F: FnOnce(Option<&UserValue>) -> Made>(
        &mut self,
        id: u64,
        key: UserKey,
        f: F,
    ) -> Result<Option<UserValue>>
        requires { F.IsAlwaysCallable f }
        ensures updated { IfOk result (λ new. (found : _) × Updated (MakesValue F.FnOnce f) D.honest self.old.reader.core.now self.old.reader.view self.old.transaction.now id key found new
            self.new.reader.core.now self.new.reader.view self.new.transaction.now) }
        ensures unchanged { OnErr result (self.new.transaction.now ≡ self.old.transaction.now) }
        ensures refused { IfErr result (IsUpdateRefusal (MakesValue F.FnOnce f) D.honest self.old.reader.core.now self.old.reader.view self.old.transaction.now.own id key self.new.reader.core.now) }
        ensures same { (own : Own) (i : ℕ) (map : Pairs) → Sees D.honest self.old.reader.core.now self.old.reader.view own i map
            → Sees D.honest self.new.reader.core.now self.new.reader.view own i map }
        ensures reads { ReadsKeyspace D.honest self.old.reader.core self.old.reader.view id None self.new.reader.core self.new.reader.view }
        ensures lent { self.new.transaction.ghost_name ≡ self.old.transaction.ghost_name }
    {
        let found = self.read_key(id, key.as_slice())?;
        let done = make_copied(self.transaction, id, key, &found, f);
        settled(self.transaction, done)
    }
}
