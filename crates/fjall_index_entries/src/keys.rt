//! The keys of a range of a keyspace.

ghost use Rattle.std.specs.Prelude.{◌≡◌, ℕ, Err, IfOk, true};
ghost use Rattle.std.specs.Result.{result_err};
ghost use Rattle.fjall_base.specs.Pairs.{Pairs, pairs_between};
ghost use Rattle.fjall_base.specs.declared.error.Error.TheVariants.{OutOfMemory};
ghost use Rattle.fjall_reading.specs.ReadIters.{IsShown, left_of};
ghost use Rattle.fjall_index_entries.specs.Finding.{keys_in};

use fjall_base::{Error, Result, UserKey};
use fjall_reading::{Identified, KeyRange, Pages, ReadIter, Readable, bounds_of};
use std::alloc::Global;

// Takes all pairs that are left, and answers their keys.
fn take_keys<R: Pages>(alloc: Global, pairs: &mut ReadIter<'_, R>) -> Result<Vec<UserKey>>
    ensures keys { (map : Pairs) → IsShown R.shows pairs.old map → IfOk result (λ keys. keys.items ≡ keys_in (left_of map pairs.old)) }
    ensures short { pairs.old.short ≡ true → result ≡ Err OutOfMemory }
    ensures same { (i : ℕ) (map : Pairs) → R.shows pairs.old.reader.now i map → R.shows pairs.new.reader.now i map }
    ensures reads { R.reads pairs.old.reader.now pairs.old.cursor.id (result_err result) pairs.new.reader.now }
    ensures same_reader { pairs.new.reader.ghost_name ≡ pairs.old.reader.ghost_name }
{
    let mut keys = Vec::new(alloc);
    for _ in 0..u64::MAX {
        let Some(pair) = pairs.next() else {
            return Ok(keys);
        };
        keys.push(pair.key()?)?;
    }
    // So many fit into no memory.
    Err(Error::OutOfMemory)
}

/// The keys of a range of a keyspace, in their order, as a reader shows them.
pub(crate) fn read_keys<R: Readable, K: Identified>(
    reader: &mut R,
    keyspace: &K,
    range: &KeyRange,
) -> Result<Vec<UserKey>>
    ensures keys { (map : Pairs) → R.shows reader.old (K.identity keyspace.now) map → IfOk result (λ keys. keys.items ≡ keys_in (pairs_between range.now map)) }
    ensures same { (i : ℕ) (map : Pairs) → R.shows reader.old i map → R.shows reader.new i map }
    ensures reads { R.reads reader.old (K.identity keyspace.now) (result_err result) reader.new }
{
    let alloc = reader.alloc();
    let mut pairs = reader.range(keyspace, bounds_of(range));
    let keys = take_keys(alloc, &mut pairs);
    pairs.into_reader();
    keys
}
