//! Whether an index keyspace has the index of a main keyspace.

ghost use Rattle.std.specs.Prelude.{IfOk, IsTrue, ℕ, ◌↔◌, ◌≡◌, ◌≤◌};
ghost use Rattle.std.specs.Result.{result_err};
ghost use Rattle.fjall_base.specs.Pairs.{Pairs};
ghost use Rattle.fjall_index_entries.specs.Checking.{one_if, told_of};
ghost use Rattle.fjall_index_entries.specs.Finding.{ReadsEither};
ghost use Rattle.fjall_index_entries.specs.Index.{index_of};

use crate::entry::entry_of;
use crate::extract::Extract;
use fjall_base::{Error, KvPair, Result};
use fjall_reading::{Cursor, Readable};
use std::ops::Bound;

// Whether a pair has a field, where its entry stands in the index keyspace with an empty value if it has; else none.
fn told_by<R: Readable, E: Extract>(
    reader: &mut R,
    extract: &E,
    index: u64,
    pair: &KvPair,
) -> Result<Option<bool>>
    ensures ok { (found : Pairs) → R.shows reader.old index found → IfOk result (λ told. told ≡ told_of (E.field_of extract.now) found pair.now) }
    ensures same { (i : ℕ) (map : Pairs) → R.shows reader.old i map → R.shows reader.new i map }
    ensures reads { R.reads reader.old index (result_err result) reader.new }
{
    let alloc = reader.alloc();
    let (key, value) = (pair.0.as_slice(), pair.1.as_slice());
    let Some(field) = extract.field(alloc, key, value)? else {
        return Ok(Some(false));
    };
    let entry = entry_of(alloc, &field, key)?;
    match reader.get(&index, entry.as_slice())? {
        Some(found) if found.is_empty() => Ok(Some(true)),
        _ => Ok(None),
    }
}

// One of those, or none.
fn one_if(has: bool) -> usize
    ensures is { result ≡ one_if has }
    ensures most { result ≤ 1 }
{
    if has {
        return 1;
    }
    0
}

/// Whether the index keyspace's map is the index of the main one's. It reads both whole, page by page, and holds one page.
pub fn is_index<R: Readable, E: Extract>(
    reader: &mut R,
    extract: &E,
    main: u64,
    index: u64,
) -> Result<bool>
    ensures ok { (map found : Pairs) → R.shows reader.old main map → R.shows reader.old index found
        → IfOk result (λ yes. IsTrue yes ↔ (found ≡ index_of (E.field_of extract.now) map)) }
    ensures reads { ReadsEither R.reads reader.old main index (result_err result) reader.new }
{
    let alloc = reader.alloc();
    let mut pairs = Cursor::new(alloc, main, (Bound::Unbounded, Bound::Unbounded));
    let mut count = 0;
    for _ in 0..usize::MAX {
        let Some(pair) = pairs.next(reader) else {
            return Ok(reader.len(&index)? == count);
        };
        let pair = pair?;
        let Some(has) = told_by(reader, extract, index, &pair)? else {
            return Ok(false);
        };
        count += one_if(has);
    }
    // So many fit into no keyspace.
    Err(Error::OutOfMemory)
}
