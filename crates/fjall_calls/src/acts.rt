//! Calls within a transaction, each with at most one call of its core.

ghost use Rattle.std.specs.Prelude.{◌≡◌, ◌⊎◌, Err, IfErr, IfOk, IsOkUnless, MatchOption, None, OnErr, OnOk, Option, Some};
ghost use Rattle.std.specs.FinMap.{FinMap};
ghost use Rattle.std.specs.Ordering.{nat_cmp};
ghost use Rattle.fjall_base.specs.Limits.{item_refusal};
ghost use Rattle.fjall_base.specs.Pairs.{Pairs, lookup, page, pairs_between};
ghost use Rattle.fjall_base.specs.Store.{map_at};
ghost use Rattle.fjall_base.specs.declared.error.Error.TheVariants.{OutOfMemory};
ghost use Rattle.fjall_journal.specs.Ops.{bytes_in};
ghost use Rattle.fjall_journal.specs.declared.persist_mode.PersistMode.{PersistMode};
ghost use Rattle.fjall_tx.specs.Marks.{OfKey, OfRange};
ghost use Rattle.fjall_tx.specs.Owns.{own_written, wanted};
ghost use Rattle.fjall_core.specs.CoreStanding.{pairs_reply, value_reply};
ghost use Rattle.fjall_core.specs.Transactions.{having_read, replace_refusal, replacing, with_own};
ghost use Rattle.fjall_calls.specs.Serving.{ActsOn, Fetches, LooksWithin};
ghost use Rattle.fjall_calls.specs.declared.call.Within.{Within as Call};
ghost use Rattle.fjall_calls.specs.declared.call.Within.TheVariants as calls;

use crate::call::Within;
use fjall_base::{Disk, KvPair, Result, UserKey, UserValue};
use fjall_core::{Engine, Op, Reply, Transaction, View, pairs_reply, reply_of, value_reply};
use fjall_reading::{KeyRange, bounds_of};

// What the transaction sees at a key, where its view has this there.
fn seen(
    transaction: &Transaction,
    id: u64,
    key: &UserKey,
    found: Option<UserValue>,
) -> Result<Option<UserValue>>
    ensures ok { (maps : FinMap nat_cmp Pairs) → found ≡ lookup (map_at maps id) key.now
        → IfOk result (λ seen. seen ≡ lookup (map_at (own_written maps transaction.now.own) id) key.now) }
    ensures only { IsOkUnless result OutOfMemory }
{
    transaction.own().seen(id, key.clone()?, found)
}

// The value of a key as the transaction sees it, and no mark yet.
fn look<D: Disk>(
    core: &mut Engine<D>,
    transaction: &Transaction,
    id: u64,
    key: &UserKey,
) -> Result<Option<UserValue>>
    ensures { LooksWithin D.honest core.old transaction.now id key.now result core.new }
{
    match core.get_at(View::At(transaction.ticket()), id, key) {
        Ok(found) => seen(transaction, id, key, found),
        Err(error) => Err(error),
    }
}

// The value of a key.
fn get<D: Disk>(
    core: &mut Engine<D>,
    transaction: &mut Transaction,
    id: u64,
    key: UserKey,
) -> Result<Option<UserValue>>
    ensures { ActsOn D.honest core.old transaction.old (calls.Get id key) (value_reply result) core.new transaction.new }
{
    match look(core, transaction, id, &key) {
        Ok(found) => match transaction.mark_read(id, &key) {
            Ok(()) => Ok(found),
            Err(error) => Err(error),
        },
        Err(error) => Err(error),
    }
}

// The first or last pairs of a range that the transaction sees, where its view has these there; marks the range.
fn seen_page(
    transaction: &mut Transaction,
    id: u64,
    range: &KeyRange,
    back: bool,
    max: usize,
    found: Vec<KvPair>,
) -> Result<Vec<KvPair>>
    ensures ok { (maps : FinMap nat_cmp Pairs)
        → found.items ≡ page back (wanted transaction.old.own id range.now max) (pairs_between range.now (map_at maps id))
        → IfOk result (λ seen. seen.items ≡ page back max (pairs_between range.now (map_at (own_written maps transaction.old.own) id))) }
    ensures marked { OnOk result (transaction.new ≡ having_read transaction.old (OfRange id range.now.0 range.now.1)) }
    ensures unmarked { OnErr result (transaction.new ≡ transaction.old) }
    ensures only { IsOkUnless result OutOfMemory }
{
    let seen = transaction.own().lay_over(id, range, back, max, found)?;
    transaction.mark_range(id, bounds_of(range))?;
    Ok(seen)
}

// The first or last pairs of a range.
fn page<D: Disk>(
    core: &mut Engine<D>,
    transaction: &mut Transaction,
    id: u64,
    range: KeyRange,
    back: bool,
    max: usize,
) -> Result<Vec<KvPair>>
    ensures { ActsOn D.honest core.old transaction.old (calls.Page id range back max) (pairs_reply result) core.new transaction.new }
{
    match transaction.own().wanted(id, &range, max) {
        Ok(wanted) => {
            match core.page_at(View::At(transaction.ticket()), id, &range, back, wanted) {
                Ok(found) => seen_page(transaction, id, &range, back, max, found),
                Err(error) => Err(error),
            }
        }
        Err(error) => Err(error),
    }
}

// Marks a key that was looked for, and writes what it becomes.
fn put_back(
    transaction: &mut Transaction,
    id: u64,
    key: UserKey,
    found: &Option<UserValue>,
    new: Option<UserValue>,
) -> Result<()>
    ensures ok { OnOk result (transaction.new ≡ replacing (having_read transaction.old (OfKey id key)) id key found.now new) }
    ensures unchanged { OnErr result (transaction.new ≡ transaction.old) }
    ensures fits { OnOk result (replace_refusal key found.now new ≡ None) }
    ensures cause { IfErr result (λ error. (error ≡ OutOfMemory) ⊎ (replace_refusal key found.now new ≡ Some error)) }
{
    match transaction.mark_read(id, &key) {
        Ok(()) => match transaction.replace(id, key, found, new) {
            Ok(()) => Ok(()),
            Err(error) => {
                transaction.take_back_read();
                Err(error)
            }
        },
        Err(error) => Err(error),
    }
}

// Gives a key this value or none, and answers the one of before: `fetch_update`, or `take` where it is none.
fn fetch_update<D: Disk>(
    core: &mut Engine<D>,
    transaction: &mut Transaction,
    id: u64,
    key: UserKey,
    new: Option<UserValue>,
) -> Result<Option<UserValue>>
    ensures { (call : Call) → Fetches call id key new → ActsOn D.honest core.old transaction.old call (value_reply result) core.new transaction.new }
{
    match look(core, transaction, id, &key) {
        Ok(found) => match put_back(transaction, id, key, &found, new) {
            Ok(()) => Ok(found),
            Err(error) => Err(error),
        },
        Err(error) => Err(error),
    }
}

// A value once more.
fn copied(value: &Option<UserValue>) -> Result<Option<UserValue>>
    ensures ok { IfOk result (λ copy. copy ≡ value.now) }
    ensures only { IsOkUnless result OutOfMemory }
{
    match value {
        Some(value) => Ok(Some(value.clone()?)),
        None => Ok(None),
    }
}

// The same as [`put_back`], and answers what the key becomes.
fn put_new(
    transaction: &mut Transaction,
    id: u64,
    key: UserKey,
    found: &Option<UserValue>,
    new: Option<UserValue>,
) -> Result<Option<UserValue>>
    ensures answer { IfOk result (λ answer. answer ≡ new) }
    ensures ok { OnOk result (transaction.new ≡ replacing (having_read transaction.old (OfKey id key)) id key found.now new) }
    ensures unchanged { OnErr result (transaction.new ≡ transaction.old) }
    ensures fits { OnOk result (replace_refusal key found.now new ≡ None) }
    ensures cause { IfErr result (λ error. (error ≡ OutOfMemory) ⊎ (replace_refusal key found.now new ≡ Some error)) }
{
    match copied(&new) {
        Ok(answer) => match put_back(transaction, id, key, found, new) {
            Ok(()) => Ok(answer),
            Err(error) => Err(error),
        },
        Err(error) => Err(error),
    }
}

// Gives a key this value or none, and answers it.
fn update_fetch<D: Disk>(
    core: &mut Engine<D>,
    transaction: &mut Transaction,
    id: u64,
    key: UserKey,
    new: Option<UserValue>,
) -> Result<Option<UserValue>>
    ensures { ActsOn D.honest core.old transaction.old (calls.UpdateFetch id key new) (value_reply result) core.new transaction.new }
{
    match look(core, transaction, id, &key) {
        Ok(found) => put_new(transaction, id, key, &found, new),
        Err(error) => Err(error),
    }
}

// Writes a key.
fn write(transaction: &mut Transaction, id: u64, key: UserKey, op: Op) -> Result<()>
    ensures ok { OnOk result (transaction.new ≡ with_own transaction.old id key op) }
    ensures unchanged { OnErr result (transaction.new ≡ transaction.old) }
    ensures refused { MatchOption (item_refusal key (bytes_in op)) (IsOkUnless result OutOfMemory) (λ error. result ≡ Err error) }
{
    match op {
        Op::Put(value) => transaction.insert(id, key, value),
        Op::Remove => transaction.remove(id, key),
        Op::RemoveWeak => transaction.remove_weak(id, key),
    }
}

// Makes a call within a transaction that leaves it where it is.
fn make<D: Disk>(core: &mut Engine<D>, transaction: &mut Transaction, call: Within) -> Reply
    requires { (mode : Option PersistMode) → call ≡ calls.Durability mode → ⊥ }
    ensures { ActsOn D.honest core.old transaction.old call result core.new transaction.new }
{
    match call {
        Within::Get(id, key) => value_reply(get(core, transaction, id, key)),
        Within::Page(id, range, back, max) => {
            pairs_reply(page(core, transaction, id, range, back, max))
        }
        Within::Write(id, key, op) => reply_of(write(transaction, id, key, op)),
        Within::Take(id, key) => value_reply(fetch_update(core, transaction, id, key, None)),
        Within::FetchUpdate(id, key, new) => {
            value_reply(fetch_update(core, transaction, id, key, new))
        }
        Within::UpdateFetch(id, key, new) => {
            value_reply(update_fetch(core, transaction, id, key, new))
        }
        Within::Durability(_) => unreachable!(),
    }
}

/// Makes a call within a transaction.
pub(crate) fn act<D: Disk>(
    core: &mut Engine<D>,
    mut transaction: Transaction,
    call: Within,
) -> (Reply, Transaction)
    ensures { ActsOn D.honest core.old transaction call result.0 core.new result.1 }
{
    match call {
        Within::Durability(mode) => (Reply::Done, transaction.durability(mode)),
        call => {
            let reply = make(core, &mut transaction, call);
            (reply, transaction)
        }
    }
}
