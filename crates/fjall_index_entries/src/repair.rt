//! What an index keyspace lacks of the index of the main keyspace, and has besides.

ghost use Rattle.std.specs.Prelude.{◌≡◌, ◌++◌, ℕ, IfErr, IfOk, OnOk, false, map, true};
ghost use Rattle.std.specs.Result.{result_err};
ghost use Rattle.fjall_base.specs.Pairs.{Pairs};
ghost use Rattle.fjall_base.specs.declared.error.Error.TheVariants.{KeyTooLong};
ghost use Rattle.fjall_journal.specs.Ops.{item_in};
ghost use Rattle.fjall_reading.specs.Cursors.{left};
ghost use Rattle.fjall_reading.specs.Readers.{all_of};
ghost use Rattle.fjall_index_entries.specs.Finding.{ReadsEither};
ghost use Rattle.fjall_index_entries.specs.Putting.{is_long};
ghost use Rattle.fjall_index_entries.specs.Repairs.{AreRepairs, ReadsOrLong, additions, is_entry_in, lacking_of, lacks_long, removals, stale, with_pair};

use crate::entry::{as_key, entry_of, key_behind};
use crate::extract::Extract;
use crate::put::add_entry;
use fjall_base::{Error, KvPair, Result, Slice, UserKey};
use fjall_journal::{BatchItem, Op};
use fjall_reading::{Cursor, Readable};
use std::ops::Bound;

// The next pair that a cursor has left, where there is one.
fn next_pair<R: Readable>(reader: &mut R, pairs: &mut Cursor) -> Result<Option<KvPair>>
    ensures taken { (map : Pairs) → R.shows reader.old pairs.old.id map → IfOk result (λ next. left pairs.old map ≡ with_pair next (left pairs.new map)) }
    ensures same { (i : ℕ) (map : Pairs) → R.shows reader.old i map → R.shows reader.new i map }
    ensures reads { R.reads reader.old pairs.old.id (result_err result) reader.new }
    ensures id { pairs.new.id ≡ pairs.old.id }
{
    match pairs.next(reader) {
        Some(pair) => Ok(Some(pair?)),
        None => Ok(None),
    }
}

// Whether these bytes are the entry of a pair of the main keyspace.
fn is_entry<R: Readable, E: Extract>(
    reader: &mut R,
    extract: &E,
    main: u64,
    bytes: &[u8],
) -> Result<bool>
    ensures ok { (pairs : Pairs) → R.shows reader.old main pairs → IfOk result (λ yes. yes ≡ is_entry_in (E.field_of extract.now) pairs bytes.now) }
    ensures same { (i : ℕ) (map : Pairs) → R.shows reader.old i map → R.shows reader.new i map }
    ensures reads { R.reads reader.old main (result_err result) reader.new }
{
    let alloc = reader.alloc();
    let Some(key) = key_behind(bytes) else {
        return Ok(false);
    };
    let Some(value) = reader.get(&main, key)? else {
        return Ok(false);
    };
    let Some(field) = extract.field(alloc, key, value.as_slice())? else {
        return Ok(false);
    };
    let entry = entry_of(alloc, &field, key)?;
    Ok(entry.as_slice() == bytes)
}

// A key of the index keyspace, unless it is the entry of a pair of the main one.
fn stale<R: Readable, E: Extract>(
    reader: &mut R,
    extract: &E,
    main: u64,
    bytes: UserKey,
) -> Result<Option<UserKey>>
    ensures ok { (pairs : Pairs) → R.shows reader.old main pairs → IfOk result (λ goes. goes ≡ stale (E.field_of extract.now) pairs bytes) }
    ensures same { (i : ℕ) (map : Pairs) → R.shows reader.old i map → R.shows reader.new i map }
    ensures reads { R.reads reader.old main (result_err result) reader.new }
{
    if is_entry(reader, extract, main, bytes.as_slice())? {
        return Ok(None);
    }
    Ok(Some(bytes))
}

// Adds a removal for each pair of the index keyspace whose key isn't the entry of a pair of the main one.
fn add_removals<R: Readable, E: Extract>(
    reader: &mut R,
    extract: &E,
    main: u64,
    index: u64,
    items: &mut Vec<BatchItem>,
) -> Result<()>
    ensures ok { (pairs found : Pairs) → R.shows reader.old main pairs → R.shows reader.old index found
        → OnOk result (map item_in items.new.items ≡ map item_in items.old.items ++ removals (E.field_of extract.now) index pairs (all_of found)) }
    ensures same { (i : ℕ) (map : Pairs) → R.shows reader.old i map → R.shows reader.new i map }
    ensures reads { ReadsEither R.reads reader.old main index (result_err result) reader.new }
{
    let mut stood = Cursor::new(reader.alloc(), index, (Bound::Unbounded, Bound::Unbounded));
    for _ in 0..u64::MAX {
        let Some(pair) = next_pair(reader, &mut stood)? else {
            return Ok(());
        };
        let going = stale(reader, extract, main, pair.0)?;
        add_entry(items, index, going, Op::Remove)?;
    }
    // So many fit into no keyspace.
    Err(Error::OutOfMemory)
}

// The entry of a pair of the main keyspace, unless it stands in the index keyspace with an empty value.
fn lacking_of<R: Readable, E: Extract>(
    reader: &mut R,
    extract: &E,
    index: u64,
    pair: &KvPair,
) -> Result<Option<UserKey>>
    ensures ok { (found : Pairs) → R.shows reader.old index found → IfOk result (λ lacks. lacks ≡ lacking_of (E.field_of extract.now) found pair.now) }
    ensures same { (i : ℕ) (map : Pairs) → R.shows reader.old i map → R.shows reader.new i map }
    ensures reads { R.reads reader.old index (result_err result) reader.new }
{
    let alloc = reader.alloc();
    let (key, value) = (pair.0.as_slice(), pair.1.as_slice());
    let Some(field) = extract.field(alloc, key, value)? else {
        return Ok(None);
    };
    let entry = entry_of(alloc, &field, key)?;
    match reader.get(&index, entry.as_slice())? {
        Some(stands) if stands.is_empty() => Ok(None),
        _ => Ok(Some(entry)),
    }
}

// An entry that is to be put, where there is one. One of more than 65,535 bytes is refused.
fn fitting(entry: Option<UserKey>) -> Result<Option<UserKey>>
    ensures ok { IfOk result (λ found. (found ≡ entry) × (is_long entry ≡ false)) }
    ensures cause { IfErr result (λ e. (e ≡ KeyTooLong) × (is_long entry ≡ true)) }
{
    match entry {
        Some(entry) => Ok(Some(as_key(entry)?)),
        None => Ok(None),
    }
}

// Adds a put for each entry of a pair of the main keyspace that doesn't stand in the index keyspace with an empty value.
fn add_additions<R: Readable, E: Extract>(
    reader: &mut R,
    extract: &E,
    main: u64,
    index: u64,
    items: &mut Vec<BatchItem>,
) -> Result<()>
    ensures ok { (pairs found : Pairs) → R.shows reader.old main pairs → R.shows reader.old index found
        → OnOk result (map item_in items.new.items ≡ map item_in items.old.items ++ additions (E.field_of extract.now) index found (all_of pairs)) }
    ensures fits { (pairs found : Pairs) → R.shows reader.old main pairs → R.shows reader.old index found
        → OnOk result (lacks_long (E.field_of extract.now) found (all_of pairs) ≡ false) }
    ensures same { (i : ℕ) (map : Pairs) → R.shows reader.old i map → R.shows reader.new i map }
    ensures reads { ReadsOrLong R.reads ((pairs found : Pairs) → R.shows reader.old main pairs → R.shows reader.old index found
        → lacks_long (E.field_of extract.now) found (all_of pairs) ≡ true) reader.old main index (result_err result) reader.new }
{
    let mut pairs = Cursor::new(reader.alloc(), main, (Bound::Unbounded, Bound::Unbounded));
    for _ in 0..u64::MAX {
        let Some(pair) = next_pair(reader, &mut pairs)? else {
            return Ok(());
        };
        let lacks = lacking_of(reader, extract, index, &pair)?;
        let coming = fitting(lacks)?;
        add_entry(items, index, coming, Op::Put(Slice::empty()))?;
    }
    // So many fit into no keyspace.
    Err(Error::OutOfMemory)
}

/// What is to be written to the index keyspace so that its map is the index of the main keyspace's map, whatever stands there:
/// a removal for each pair whose key is the entry of no pair of the main keyspace, and an empty value for each entry that is
/// missing or has another one. An entry that stays isn't written.
///
/// It reads both keyspaces whole, page by page, and holds a page and the items. It is refused as reads of the two are, or with
/// `KeyTooLong` where an entry that is to be put has more than 65,535 bytes.
pub fn repairs<R: Readable, E: Extract>(
    reader: &mut R,
    extract: &E,
    main: u64,
    index: u64,
) -> Result<Vec<BatchItem>>
    ensures ok { (pairs found : Pairs) → R.shows reader.old main pairs → R.shows reader.old index found
        → IfOk result (λ items. AreRepairs (E.field_of extract.now) index pairs found (map item_in items.items)) }
    ensures fits { (pairs found : Pairs) → R.shows reader.old main pairs → R.shows reader.old index found
        → IfOk result (λ _. lacks_long (E.field_of extract.now) found (all_of pairs) ≡ false) }
    ensures same { (i : ℕ) (map : Pairs) → R.shows reader.old i map → R.shows reader.new i map }
    ensures reads { ReadsOrLong R.reads ((pairs found : Pairs) → R.shows reader.old main pairs → R.shows reader.old index found
        → lacks_long (E.field_of extract.now) found (all_of pairs) ≡ true) reader.old main index (result_err result) reader.new }
{
    let mut items = Vec::new(reader.alloc());
    add_removals(reader, extract, main, index, &mut items)?;
    add_additions(reader, extract, main, index, &mut items)?;
    Ok(items)
}
