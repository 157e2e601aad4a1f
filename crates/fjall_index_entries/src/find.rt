//! The pairs that have a field.

ghost use Rattle.std.specs.Prelude.{◌≡◌, All, ℕ, Some, drop, IfOk};
ghost use Rattle.std.specs.Result.{result_err};
ghost use Rattle.fjall_base.specs.Pairs.{Pairs, lookup};
ghost use Rattle.fjall_index_entries.specs.Finding.{ReadsEither, behind_all, valued};
ghost use Rattle.fjall_index_entries.specs.Index.{FieldOf, found_in, index_of};

use crate::entry::{entry_of, range_of};
use crate::keys::read_keys;
use crate::laws::a_range_finds_the_field;
use fjall_base::{KvPair, Result, Slice, UserKey};
use fjall_reading::{Identified, Readable};

// What stands behind so many bytes.
fn behind(bytes: &[u8], front: usize) -> &[u8]
    ensures { result.now ≡ drop front bytes.now }
{
    if bytes.len() < front {
        return &[];
    }
    &bytes[front..]
}

// The pairs of the keys that stand behind the fronts of these entries.
fn values_of<R: Readable, K: Identified>(
    reader: &mut R,
    main: &K,
    entries: &[UserKey],
    front: usize,
) -> Result<Vec<KvPair>>
    ensures ok { (map : Pairs) → R.shows reader.old (K.identity main.now) map → IfOk result (λ found. found.items ≡ valued map (behind_all front entries.now)) }
    ensures same { (i : ℕ) (map : Pairs) → R.shows reader.old i map → R.shows reader.new i map }
    ensures reads { R.reads reader.old (K.identity main.now) (result_err result) reader.new }
{
    let alloc = reader.alloc();
    let mut found = Vec::new(alloc);
    for entry in entries {
        let key = Slice::new(alloc, behind(entry.as_slice(), front))?;
        if let Some(value) = reader.get(main, key.as_slice())? {
            found.push((key, value))?;
        }
    }
    Ok(found)
}

/// The pairs of the main keyspace that have this field, in the order of their keys, where the index keyspace's map is the
/// index of the main one's. It is refused as reads of the two keyspaces are, and has all that it finds in memory.
pub fn find_pairs<R: Readable, K: Identified>(
    reader: &mut R,
    main: &K,
    index: &K,
    field: &[u8],
) -> Result<Vec<KvPair>>
    ensures found { (of : FieldOf) (map : Pairs) → R.shows reader.old (K.identity main.now) map → R.shows reader.old (K.identity index.now) (index_of of map)
        → IfOk result (λ found. found.items ≡ found_in of field.now map) }
    // Each pair that is found stands in the main keyspace, whatever the index keyspace has.
    ensures stand { (map : Pairs) → R.shows reader.old (K.identity main.now) map → IfOk result (λ found. All (λ pair. lookup map pair.0 ≡ Some pair.1) found.items) }
    ensures same { (i : ℕ) (map : Pairs) → R.shows reader.old i map → R.shows reader.new i map }
    ensures reads { ReadsEither R.reads reader.old (K.identity main.now) (K.identity index.now) (result_err result) reader.new }
{
    a_range_finds_the_field();
    let alloc = reader.alloc();
    let range = range_of(alloc, field)?;
    let front = entry_of(alloc, field, &[])?.len();
    let entries = read_keys(reader, index, &range)?;
    values_of(reader, main, &entries, front)
}
