//! Reads of a whole keyspace that take a page at a time.

ghost use Rattle.std.specs.Prelude.{◌≡◌, ℕ, IfOk};
ghost use Rattle.std.specs.Result.{result_err};
ghost use Rattle.fjall_base.specs.Pairs.{Pairs};
ghost use Rattle.fjall_reading.specs.Rests.{error_in};
ghost use Rattle.fjall_reading.specs.Readers.{FindsOf, all_of, count_of, first_of, is_none_of, last_of};

use crate::cursor::behind_page;
use crate::guard::Guard;
use crate::pages::{LARGEST_PAGE, Pages};
use fjall_base::Result;
use std::ops::Bound;

/// The first pair of a keyspace, or the fault that the read met; nothing where the keyspace has no pair.
pub fn first_pair<P: Pages>(pages: &mut P, id: u64) -> Option<Guard>
    ensures found { (map : Pairs) → P.shows pages.old id map → FindsOf (first_of (all_of map)) result }
    ensures same { (i : ℕ) (map : Pairs) → P.shows pages.old i map → P.shows pages.new i map }
    ensures paging { P.paging pages.old id (error_in result) pages.new }
{
    match pages.page(id, &(Bound::Unbounded, Bound::Unbounded), false, 1) {
        Ok(mut found) => found.pop().map(|pair| Guard::new(Ok(pair))),
        Err(error) => Some(Guard::new(Err(error))),
    }
}

/// The last pair of a keyspace, or the fault that the read met; nothing where the keyspace has no pair.
pub fn last_pair<P: Pages>(pages: &mut P, id: u64) -> Option<Guard>
    ensures found { (map : Pairs) → P.shows pages.old id map → FindsOf (last_of (all_of map)) result }
    ensures same { (i : ℕ) (map : Pairs) → P.shows pages.old i map → P.shows pages.new i map }
    ensures paging { P.paging pages.old id (error_in result) pages.new }
{
    match pages.page(id, &(Bound::Unbounded, Bound::Unbounded), true, 1) {
        Ok(mut found) => found.pop().map(|pair| Guard::new(Ok(pair))),
        Err(error) => Some(Guard::new(Err(error))),
    }
}

/// Whether a keyspace has no pair.
pub fn has_no_pair<P: Pages>(pages: &mut P, id: u64) -> Result<bool>
    ensures ok { (map : Pairs) → P.shows pages.old id map → IfOk result (λ empty. empty ≡ is_none_of (all_of map)) }
    ensures same { (i : ℕ) (map : Pairs) → P.shows pages.old i map → P.shows pages.new i map }
    ensures paging { P.paging pages.old id (result_err result) pages.new }
{
    let found = pages.page(id, &(Bound::Unbounded, Bound::Unbounded), false, 1)?;
    Ok(found.is_empty())
}

/// How many pairs a keyspace has. It reads all of them, and has one page of them in memory at a time. More than `usize::MAX`
/// pairs count as so many.
pub fn pair_count<P: Pages>(pages: &mut P, id: u64) -> Result<usize>
    ensures ok { (map : Pairs) → P.shows pages.old id map → IfOk result (λ count. count ≡ count_of map) }
    ensures same { (i : ℕ) (map : Pairs) → P.shows pages.old i map → P.shows pages.new i map }
    ensures paging { P.paging pages.old id (result_err result) pages.new }
{
    let mut count: usize = 0;
    let mut rest = Some((Bound::Unbounded, Bound::Unbounded));
    while let Some(range) = rest {
        if count == usize::MAX {
            return Ok(count);
        }
        let found = pages.page(id, &range, false, LARGEST_PAGE)?;
        count = count.saturating_add(found.len());
        rest = behind_page(&found, range, LARGEST_PAGE)?;
    }
    Ok(count)
}
