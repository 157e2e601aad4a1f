//! Ranges of keys, as callers in C give them.

ghost use Rattle.fjall_c.specs.Answers.{IsMeant, bound_at, range_at};

use fjall_base::{Error, Result, Slice, UserKey};
use fjall_reading::KeyRange;
use std::alloc::Global;
use std::ops::Bound;

// A bound by its number: 0 for none, 1 for one that counts as within, 2 for one that doesn't.
fn bound_of(alloc: Global, number: u8, key: &[u8]) -> Result<Bound<UserKey>>
    ensures { IsMeant (bound_at number key.now) result }
{
    match number {
        0 => Ok(Bound::Unbounded),
        1 => Ok(Bound::Included(Slice::new(alloc, key)?)),
        2 => Ok(Bound::Excluded(Slice::new(alloc, key)?)),
        _ => Err(Error::InvalidTag(("Bound", number))),
    }
}

/// The range between two bounds by their numbers and keys.
pub(crate) fn range_of(
    alloc: Global,
    start_bound: u8,
    start: &[u8],
    end_bound: u8,
    end: &[u8],
) -> Result<KeyRange>
    ensures { IsMeant (range_at start_bound start.now end_bound end.now) result }
{
    let start = bound_of(alloc, start_bound, start)?;
    let end = bound_of(alloc, end_bound, end)?;
    Ok((start, end))
}
