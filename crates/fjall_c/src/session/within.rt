//! Reads and own writes within one transaction.

ghost use Rattle.std.specs.Prelude.{◌≡◌, [], Err, IfOk, IsOkUnless, MatchOption, OnErr, OnOk};
ghost use Rattle.std.specs.FinMap.{FinMap};
ghost use Rattle.std.specs.Ordering.{nat_cmp};
ghost use Rattle.fjall_base.specs.Limits.{item_refusal};
ghost use Rattle.fjall_base.specs.Pairs.{Pairs, lookup, page, pairs_between};
ghost use Rattle.fjall_base.specs.Store.{map_at};
ghost use Rattle.fjall_base.specs.declared.error.Error.TheVariants.{OutOfMemory};
ghost use Rattle.fjall_history.specs.declared.ticket.View.TheVariants.{At};
ghost use Rattle.fjall_journal.specs.declared.op.Op.TheVariants as ops;
ghost use Rattle.fjall_tx.specs.Marks.{OfKey, OfRange};
ghost use Rattle.fjall_tx.specs.Owns.{own_written, wanted};
ghost use Rattle.fjall_core.specs.Transactions.{having_read, with_own};
ghost use Rattle.fjall_c.specs.Transactions.{Gets, IsUnshown, Pages as PagesIn, ShowsIn, TellsPage, TellsValue};

use crate::mirror::MirrorDisk;
use fjall_base::{Error, KvPair, Result, Slice, UserValue, check_item};
use fjall_core::{Engine, Reader, Transaction, View};
use fjall_reading::{KeyRange, Pages, Readable, bounds_of};
use std::alloc::Global;

/// Gives a key a value.
pub(crate) fn insert_in(
    alloc: Global,
    transaction: &mut Transaction,
    keyspace: u64,
    key: &[u8],
    value: &[u8],
) -> Result<()>
    ensures ok { OnOk result (transaction.new ≡ with_own transaction.old keyspace key.now (ops.Put value.now)) }
    ensures unchanged { OnErr result (transaction.new ≡ transaction.old) }
    ensures refused { MatchOption (item_refusal key.now value.now) (IsOkUnless result OutOfMemory) (λ error. result ≡ Err error) }
{
    check_item(key, value)?;
    let (key, value) = (Slice::new(alloc, key)?, Slice::new(alloc, value)?);
    transaction.insert(keyspace, key, value)
}

/// Takes a key and its value away.
pub(crate) fn remove_in(
    alloc: Global,
    transaction: &mut Transaction,
    keyspace: u64,
    key: &[u8],
) -> Result<()>
    ensures ok { OnOk result (transaction.new ≡ with_own transaction.old keyspace key.now ops.Remove) }
    ensures unchanged { OnErr result (transaction.new ≡ transaction.old) }
    ensures refused { MatchOption (item_refusal key.now []) (IsOkUnless result OutOfMemory) (λ error. result ≡ Err error) }
{
    check_item(key, &[])?;
    let key = Slice::new(alloc, key)?;
    transaction.remove(keyspace, key)
}

// The value that a reader shows of a key. The engine stays lent.
fn value_by(
    reader: &mut Reader<'_, MirrorDisk>,
    keyspace: u64,
    key: &[u8],
) -> Result<Option<UserValue>>
    ensures shows { ShowsIn keyspace (TellsValue key.now) result reader.old.core.now reader.old.view reader.new.core.now }
    ensures lent { reader.new.core.ghost_name ≡ reader.old.core.ghost_name }
{
    reader.get(&keyspace, key)
}

// The value that an engine shows of a key in a view.
fn value_in(
    alloc: Global,
    engine: &mut Engine<MirrorDisk>,
    view: View,
    keyspace: u64,
    key: &[u8],
) -> Result<Option<UserValue>>
    ensures { ShowsIn keyspace (TellsValue key.now) result engine.old view engine.new }
{
    let mut reader = Reader::new(alloc, engine, view);
    let found = value_by(&mut reader, keyspace, key);
    reader.into_core();
    found
}

// What a transaction sees at a key, where its view has this there; marks the key.
fn see(
    alloc: Global,
    transaction: &mut Transaction,
    keyspace: u64,
    key: &[u8],
    found: Option<UserValue>,
) -> Result<Option<UserValue>>
    ensures ok { (maps : FinMap nat_cmp Pairs) → found ≡ lookup (map_at maps keyspace) key.now
        → IfOk result (λ seen. seen ≡ lookup (map_at (own_written maps transaction.old.own) keyspace) key.now) }
    ensures marked { OnOk result (transaction.new ≡ having_read transaction.old (OfKey keyspace key.now)) }
    ensures unmarked { OnErr result (transaction.new ≡ transaction.old) }
    ensures only { IsOkUnless result OutOfMemory }
{
    let name = Slice::new(alloc, key)?;
    let seen = transaction.own().seen(keyspace, name, found)?;
    transaction.mark_read(keyspace, key)?;
    Ok(seen)
}

/// The value that a key has.
pub(crate) fn get_in(
    alloc: Global,
    engine: &mut Engine<MirrorDisk>,
    transaction: &mut Transaction,
    keyspace: u64,
    key: &[u8],
) -> Result<Option<UserValue>>
    ensures { Gets keyspace key.now result engine.old transaction.old engine.new transaction.new }
{
    let view = View::At(transaction.ticket());
    match value_in(alloc, engine, view, keyspace, key) {
        Ok(found) => see(alloc, transaction, keyspace, key, found),
        Err(error) => Err(error),
    }
}

// The pairs that a reader shows. The engine stays lent.
fn page_by(
    reader: &mut Reader<'_, MirrorDisk>,
    keyspace: u64,
    range: &KeyRange,
    back: bool,
    max: usize,
) -> Result<Vec<KvPair>>
    ensures shows { ShowsIn keyspace (TellsPage range.now back max) result reader.old.core.now reader.old.view reader.new.core.now }
    ensures lent { reader.new.core.ghost_name ≡ reader.old.core.ghost_name }
{
    reader.page(keyspace, range, back, max)
}

// The pairs that an engine shows in a view.
fn page_shown(
    alloc: Global,
    engine: &mut Engine<MirrorDisk>,
    view: View,
    keyspace: u64,
    range: &KeyRange,
    back: bool,
    max: usize,
) -> Result<Vec<KvPair>>
    ensures { ShowsIn keyspace (TellsPage range.now back max) result engine.old view engine.new }
{
    let mut reader = Reader::new(alloc, engine, view);
    let found = page_by(&mut reader, keyspace, range, back, max);
    reader.into_core();
    found
}

// The pairs that a transaction sees, where its view has these there; marks the range.
fn see_page(
    transaction: &mut Transaction,
    keyspace: u64,
    range: &KeyRange,
    back: bool,
    max: usize,
    found: Vec<KvPair>,
) -> Result<Vec<KvPair>>
    ensures ok { (maps : FinMap nat_cmp Pairs)
        → found.items ≡ page back (wanted transaction.old.own keyspace range.now max) (pairs_between range.now (map_at maps keyspace))
        → IfOk result (λ seen. seen.items ≡ page back max (pairs_between range.now (map_at (own_written maps transaction.old.own) keyspace))) }
    ensures marked { OnOk result (transaction.new ≡ having_read transaction.old (OfRange keyspace range.now.0 range.now.1)) }
    ensures unmarked { OnErr result (transaction.new ≡ transaction.old) }
    ensures only { IsOkUnless result OutOfMemory }
{
    let seen = transaction
        .own()
        .lay_over(keyspace, range, back, max, found)?;
    transaction.mark_range(keyspace, bounds_of(range))?;
    Ok(seen)
}

// The pairs that a transaction sees, for which so many are wanted of its view.
fn page_of(
    alloc: Global,
    engine: &mut Engine<MirrorDisk>,
    transaction: &mut Transaction,
    keyspace: u64,
    range: &KeyRange,
    back: bool,
    max: usize,
    count: usize,
) -> Result<Vec<KvPair>>
    requires { count ≡ wanted transaction.old.own keyspace range.now max }
    ensures { PagesIn keyspace range.now back max result engine.old transaction.old engine.new transaction.new }
{
    let view = View::At(transaction.ticket());
    match page_shown(alloc, engine, view, keyspace, range, back, count) {
        Ok(found) => see_page(transaction, keyspace, range, back, max, found),
        Err(error) => Err(error),
    }
}

// Why a read is refused for which memory ran out before: for that, where nothing else refuses it.
fn short_of(
    alloc: Global,
    engine: &mut Engine<MirrorDisk>,
    view: View,
    keyspace: u64,
    range: &KeyRange,
) -> Error
    ensures { IsUnshown keyspace result engine.old view engine.new }
{
    if let Err(error) = page_shown(alloc, engine, view, keyspace, range, false, 0) {
        return error;
    }
    Error::OutOfMemory
}

/// The first pairs of a range, or the last ones.
pub(crate) fn page_in(
    alloc: Global,
    engine: &mut Engine<MirrorDisk>,
    transaction: &mut Transaction,
    keyspace: u64,
    range: &KeyRange,
    back: bool,
    max: usize,
) -> Result<Vec<KvPair>>
    ensures { PagesIn keyspace range.now back max result engine.old transaction.old engine.new transaction.new }
{
    match transaction.own().wanted(keyspace, range, max) {
        Ok(count) => page_of(
            alloc,
            engine,
            transaction,
            keyspace,
            range,
            back,
            max,
            count,
        ),
        Err(_) => {
            let view = View::At(transaction.ticket());
            Err(short_of(alloc, engine, view, keyspace, range))
        }
    }
}
