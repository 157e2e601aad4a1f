//! The keys that begin with a prefix, as a range.

ghost use Rattle.std.specs.Prelude.{◌≡◌, ◌<◌, ◌&&◌, ◌++◌, length, drop, All, IfOk, IsOkUnless};
ghost use Rattle.std.specs.Range.Bound.{bound_map};
ghost use Rattle.fjall_base.specs.Pairs.{Bytes, is_within, key_range};
ghost use Rattle.fjall_base.specs.declared.error.Error.TheVariants.{OutOfMemory};
ghost use Rattle.fjall_reading.specs.Prefixes.{begins_with, bound_behind, from_prefix, prefix_range, raised, range_behind, up_to};

use crate::pages::KeyRange;
use fjall_base::{KeyBounds, Result, Slice, UserKey};
use std::alloc::Global;
use std::ops::Bound;

// The bound from which on keys begin with a prefix. There is none where it is empty.
fn bound_from(alloc: Global, prefix: &[u8]) -> Result<Bound<UserKey>>
    ensures ok { IfOk result (λ bound. bound ≡ from_prefix prefix.now) }
    ensures only { IsOkUnless result OutOfMemory }
{
    if prefix.is_empty() {
        return Ok(Bound::Unbounded);
    }
    Ok(Bound::Included(Slice::new(alloc, prefix)?))
}

// The bound behind all keys that begin with a prefix: its last byte that isn't ff is raised by one, and those behind it are
// left out. There is none where each byte is ff.
fn bound_past(alloc: Global, prefix: &[u8]) -> Result<Bound<UserKey>>
    ensures ok { IfOk result (λ bound. bound ≡ up_to (raised prefix.now)) }
    ensures only { IsOkUnless result OutOfMemory }
{
    let mut rest = prefix;
    while let Some((last, front)) = rest.split_last() {
        if *last != 255 {
            let mut end = front.to_vec(alloc)?;
            end.push(*last + 1)?;
            return Ok(Bound::Excluded(Slice::new(alloc, &end)?));
        }
        rest = front;
    }
    Ok(Bound::Unbounded)
}

/// The range of the keys that begin with a prefix: from the prefix on, up to the prefix without its trailing bytes ff and
/// with its last byte raised by one, which is excluded. Where nothing is left it has no upper bound, and that of the empty
/// prefix has no bound at either end. It fails where memory is used up.
///
/// `[0x61, 0xff]` gives `Included([0x61, 0xff])` to `Excluded([0x62])`.
pub fn prefix_to_range(alloc: Global, prefix: &[u8]) -> Result<KeyRange>
    ensures ok { IfOk result (λ range. range ≡ prefix_range prefix.now) }
    ensures keys { IfOk result (λ range. (key : Bytes) → All (λ byte. byte < 256) key → is_within range key ≡ begins_with prefix.now key) }
    ensures only { IsOkUnless result OutOfMemory }
{
    let start = bound_from(alloc, prefix)?;
    let end = bound_past(alloc, prefix)?;
    Ok((start, end))
}

// A key behind a prefix.
fn key_behind(alloc: Global, prefix: &[u8], key: &[u8]) -> Result<UserKey>
    ensures ok { IfOk result (λ joined. joined ≡ prefix.now ++ key.now) }
    ensures only { IsOkUnless result OutOfMemory }
{
    let mut joined = prefix.to_vec(alloc)?;
    joined.extend_from_slice(key)?;
    Ok(Slice::new(alloc, &joined)?)
}

// A lower bound behind a prefix.
fn start_behind(alloc: Global, prefix: &[u8], start: Bound<&[u8]>) -> Result<Bound<UserKey>>
    ensures ok { IfOk result (λ bound. bound ≡ bound_behind prefix.now (from_prefix prefix.now) (bound_map (λ key. key.now) start.entry)) }
    ensures only { IsOkUnless result OutOfMemory }
{
    match start {
        Bound::Included(key) => Ok(Bound::Included(key_behind(alloc, prefix, key)?)),
        Bound::Excluded(key) => Ok(Bound::Excluded(key_behind(alloc, prefix, key)?)),
        Bound::Unbounded => bound_from(alloc, prefix),
    }
}

// An upper bound behind a prefix.
fn end_behind(alloc: Global, prefix: &[u8], end: Bound<&[u8]>) -> Result<Bound<UserKey>>
    ensures ok { IfOk result (λ bound. bound ≡ bound_behind prefix.now (up_to (raised prefix.now)) (bound_map (λ key. key.now) end.entry)) }
    ensures only { IsOkUnless result OutOfMemory }
{
    match end {
        Bound::Included(key) => Ok(Bound::Included(key_behind(alloc, prefix, key)?)),
        Bound::Excluded(key) => Ok(Bound::Excluded(key_behind(alloc, prefix, key)?)),
        Bound::Unbounded => bound_past(alloc, prefix),
    }
}

/// The range of the keys of another range, each behind a prefix: the prefix stands before both bounds, and where one is open
/// stands that of `prefix_to_range`. It fails where memory is used up.
pub fn prefixed_range(alloc: Global, prefix: &[u8], range: KeyBounds<'_>) -> Result<KeyRange>
    ensures ok { IfOk result (λ found. found ≡ range_behind prefix.now (key_range range.entry)) }
    ensures keys { IfOk result (λ found. (key : Bytes) → All (λ byte. byte < 256) key
        → is_within found key ≡ begins_with prefix.now key && is_within (key_range range.entry) (drop (length prefix.now) key)) }
    ensures only { IsOkUnless result OutOfMemory }
{
    let (start, end) = range;
    let start = start_behind(alloc, prefix, start)?;
    let end = end_behind(alloc, prefix, end)?;
    Ok((start, end))
}
