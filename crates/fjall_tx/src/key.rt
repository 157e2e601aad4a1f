//! Keys of keyspaces, in the order of the keyspaces' ids, then of the keys.

ghost use Rattle.std.specs.Prelude.{◌≡◌, ◌==◌, ◌&&◌, IfOk, IsOkUnless, not};
ghost use Rattle.std.specs.BTreeMap.Range.{is_past_end};
ghost use Rattle.fjall_base.specs.Pairs.{byte_order};
ghost use Rattle.fjall_base.specs.declared.error.Error.TheVariants.{OutOfMemory};
ghost use Rattle.fjall_tx.specs.Owns.{start_at};

use fjall_base::{Result, UserKey};
use std::ops::Bound;

/// A key of a keyspace.
#[derive(Debug, PartialEq, Eq, PartialOrd, Ord, Drop)]
pub struct Key {
    /// The keyspace's id.
    pub keyspace_id: u64,
    /// The key.
    pub key: UserKey,
}

impl Key {
    // Whether it is of this keyspace, and not past a range's end.
    pub(crate) fn is_up_to(&self, id: u64, end: &Bound<UserKey>) -> bool
        ensures { result ≡ ((self.now.keyspace_id == id) && not (is_past_end byte_order end.now self.now.key)) }
    {
        let is_past_end = match end {
            Bound::Included(end) => end.cmp(&self.key).is_lt(),
            Bound::Excluded(end) => end.cmp(&self.key).is_le(),
            Bound::Unbounded => false,
        };
        self.keyspace_id == id && !is_past_end
    }
}

/// Where the keys of a keyspace begin, from where a range begins on. It is refused for want of memory alone.
pub(crate) fn start_of(id: u64, start: &Bound<UserKey>) -> Result<Bound<Key>>
    ensures ok { IfOk result (λ bound. bound ≡ start_at id start.now) }
    ensures only { IsOkUnless result OutOfMemory }
{
    let place = |key: UserKey| Key {
        keyspace_id: id,
        key,
    };
    Ok(match start {
        Bound::Included(key) => Bound::Included(place(key.clone()?)),
        Bound::Excluded(key) => Bound::Excluded(place(key.clone()?)),
        Bound::Unbounded => Bound::Included(place(UserKey::empty())),
    })
}
