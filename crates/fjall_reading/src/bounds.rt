//! Ranges whose bounds are owned, and whose bounds are lent.

ghost use Rattle.std.specs.Prelude.{◌≡◌, IfOk, IsOkUnless};
ghost use Rattle.std.specs.Range.Bound.{bound_map};
ghost use Rattle.fjall_base.specs.Pairs.{key_range};
ghost use Rattle.fjall_base.specs.declared.error.Error.TheVariants.{OutOfMemory};

use crate::pages::KeyRange;
use fjall_base::{KeyBounds, Result, Slice, UserKey};
use std::alloc::Global;
use std::ops::Bound;

// A bound at a key that is lent.
fn lent(bound: &Bound<UserKey>) -> Bound<&[u8]>
    ensures { bound_map (λ key. key.now) result ≡ bound.now }
{
    match bound {
        Bound::Included(key) => Bound::Included(key.as_slice()),
        Bound::Excluded(key) => Bound::Excluded(key.as_slice()),
        Bound::Unbounded => Bound::Unbounded,
    }
}

/// The same range, with bounds that are lent.
pub fn bounds_of(range: &KeyRange) -> KeyBounds<'_>
    ensures { key_range result ≡ range.now }
{
    (lent(&range.0), lent(&range.1))
}

// A bound at a copy of the key.
fn owned(alloc: Global, bound: Bound<&[u8]>) -> Result<Bound<UserKey>>
    ensures ok { IfOk result (λ copy. copy ≡ bound_map (λ key. key.now) bound.entry) }
    ensures only { IsOkUnless result OutOfMemory }
{
    match bound {
        Bound::Included(key) => Ok(Bound::Included(Slice::new(alloc, key)?)),
        Bound::Excluded(key) => Ok(Bound::Excluded(Slice::new(alloc, key)?)),
        Bound::Unbounded => Ok(Bound::Unbounded),
    }
}

/// The same range, with bounds of its own. It fails where memory is used up.
pub fn range_of(alloc: Global, bounds: KeyBounds<'_>) -> Result<KeyRange>
    ensures ok { IfOk result (λ range. range ≡ key_range bounds.entry) }
    ensures only { IsOkUnless result OutOfMemory }
{
    let (start, end) = bounds;
    Ok((owned(alloc, start)?, owned(alloc, end)?))
}
