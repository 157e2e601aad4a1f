//! Bounds on keys, as bounds on keys with numbers.

ghost use Rattle.std.specs.Prelude.{◌≡◌, IfOk};
ghost use Rattle.std.specs.Range.Bound.{bound_map};
ghost use Rattle.fjall_base.specs.Pairs.{Bytes, key_range, is_within};
ghost use Rattle.fjall_memtable.specs.Ranges.{is_reversed, stamp_bound, start_of, end_of, IsForwardBy};

use crate::version_key::VersionKey;
use fjall_base::KeyBounds;
use std::alloc::{AllocError, Global};
use std::ops::Bound;

fn are_reversed(range: KeyBounds<'_>) -> bool
    ensures { result ≡ is_reversed (key_range range.entry) }
{
    match range {
        (Bound::Included(start), Bound::Included(end)) => start.cmp(end).is_gt(),
        (
            Bound::Included(start) | Bound::Excluded(start),
            Bound::Included(end) | Bound::Excluded(end),
        ) => start.cmp(end).is_ge(),
        _ => false,
    }
}

// A range of the same keys that isn't reversed.
pub(crate) fn run_forward(range: KeyBounds<'_>) -> KeyBounds<'_>
    ensures same { (key : Bytes) → is_within (key_range result) key ≡ is_within (key_range range.entry) key }
    ensures forward { IsForwardBy (start_of (key_range result)) (end_of (key_range result)) }
{
    if are_reversed(range) {
        return (Bound::Included(&[]), Bound::Excluded(&[]));
    }
    range
}

// A bound at a key with a number, which is one where the bound on the key is included and another where it isn't.
pub(crate) fn bound_at(
    alloc: Global,
    bound: Bound<&[u8]>,
    included: u64,
    excluded: u64,
) -> Result<Bound<VersionKey>, AllocError>
    ensures { IfOk result (λ b. b ≡ stamp_bound included excluded (bound_map (λ key. key.now) bound.entry)) }
{
    Ok(match bound {
        Bound::Included(key) => Bound::Included(VersionKey::new(alloc, key, included)?),
        Bound::Excluded(key) => Bound::Excluded(VersionKey::new(alloc, key, excluded)?),
        Bound::Unbounded => Bound::Unbounded,
    })
}
