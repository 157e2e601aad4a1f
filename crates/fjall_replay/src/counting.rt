//! What of a batch counts.

ghost use Rattle.std.specs.Prelude.{◌≡◌};
ghost use Rattle.fjall_meta.specs.Replays.{counts, counts_unpersisted, persisted_at, reaches};

use fjall_meta::{MetaKeyspace, PersistedNumbers};

/// Whether what a batch of that number says of an id counts: its keyspace lives, and was made under a lesser
/// number.
fn counts(keyspaces: &MetaKeyspace, number: u64, id: u64) -> bool
    ensures { result ≡ counts keyspaces.now number id }
{
    match keyspaces.get(id) {
        Some(keyspace) => keyspace.number < number,
        None => false,
    }
}

/// Whether what a batch of that number says of an id is persisted.
fn is_persisted(persisted: &PersistedNumbers, number: u64, id: u64) -> bool
    ensures { result ≡ reaches (persisted_at id persisted.now) number }
{
    match persisted.get(id) {
        Some(last) => number <= last,
        None => false,
    }
}

/// Whether what a batch of that number says of an id counts, and isn't persisted.
pub(crate) fn counts_unpersisted(
    keyspaces: &MetaKeyspace,
    persisted: &PersistedNumbers,
    number: u64,
    id: u64,
) -> bool
    ensures { result ≡ counts_unpersisted keyspaces.now persisted.now number id }
{
    counts(keyspaces, number, id) && !is_persisted(persisted, number, id)
}
