//! Pages over runs in memory.

ghost use Rattle.std.specs.Prelude.{◌≡◌, ◌≤◌, ◌<◌, ◌+◌, ◌∷◌, Bool, false, true, List, None, length, map, reverse, take, IfOk, OnOk, IsTrue, IsFalse};
ghost use Rattle.std.specs.List.{All};
ghost use Rattle.fjall_table.specs.Blocks.{Entry};
ghost use Rattle.fjall_memtable.specs.Jobs.{OnceEach};
ghost use Rattle.fjall_memtable.specs.SortedPages.{pairs_back, pairs_of};
ghost use Rattle.fjall_memtable.specs.Sorted.{IsInTurn, flat, sorted};
ghost use Rattle.fjall_cursors.specs.RunPages.{back_pairs, back_with, front_pairs, front_with};

use crate::back_page::BackPage;
use crate::front_page::FrontPage;
use crate::run::{PageVersions, first_of};
use fjall_base::KvPair;
use std::alloc::{AllocError, Global};

// Looks at the first version of a run, and passes it over.
fn look_from_front<R: PageVersions>(page: &mut FrontPage, run: &mut R) -> Result<(), AllocError>
    ensures left { OnOk result ((v : Entry) (rest : List Entry) → R.left run.old ≡ v ∷ rest → R.left run.new ≡ rest) }
    ensures all { OnOk result ((v : Entry) (rest versions : List Entry) → R.left run.old ≡ v ∷ rest → front_with page.new versions ≡ front_with page.old (v ∷ versions)) }
    ensures few { OnOk result (length (front_pairs page.new) ≤ length (front_pairs page.old) + 1) }
{
    page.look(run)?;
    run.pass();
    Ok(())
}

fn page_from_front<R: PageVersions>(
    alloc: Global,
    runs: &mut [R],
    instant: u64,
    bound: u64,
    max: usize,
) -> Result<Vec<KvPair>, AllocError>
    requires ordered { All (IsInTurn false) (map R.left runs.old) }
    requires once { OnceEach (flat (map R.left runs.old)) }
    ensures { IfOk result (λ pairs. pairs.items ≡ take max (pairs_of instant bound None (sorted (flat (map R.left runs.old))))) }
{
    let mut page = FrontPage::new(alloc, instant, bound);
    while page.len() < max {
        let Some(at) = first_of(runs, false) else {
            return Ok(page.finish());
        };
        look_from_front(&mut page, &mut runs[at])?;
    }
    Ok(page.finish())
}

// Looks at the first version of a run that is gone through from behind, and passes it over.
fn look_from_behind<R: PageVersions>(page: &mut BackPage, run: &mut R) -> Result<(), AllocError>
    ensures left { OnOk result ((v : Entry) (rest : List Entry) → R.left run.old ≡ v ∷ rest → R.left run.new ≡ rest) }
    ensures all { OnOk result ((v : Entry) (rest versions : List Entry) → R.left run.old ≡ v ∷ rest → back_with page.new versions ≡ back_with page.old (v ∷ versions)) }
    ensures few { OnOk result (length (back_pairs page.new) ≤ length (back_pairs page.old) + 1) }
{
    page.look(run)?;
    run.pass();
    Ok(())
}

fn page_from_behind<R: PageVersions>(
    alloc: Global,
    runs: &mut [R],
    instant: u64,
    bound: u64,
    max: usize,
) -> Result<Vec<KvPair>, AllocError>
    requires ordered { All (IsInTurn true) (map R.left runs.old) }
    requires once { OnceEach (flat (map R.left runs.old)) }
    ensures { IfOk result (λ pairs. pairs.items ≡ reverse (take max (pairs_back instant bound None (reverse (sorted (flat (map R.left runs.old))))))) }
{
    let mut page = BackPage::new(alloc, instant, bound);
    while page.len() < max {
        let Some(at) = first_of(runs, true) else {
            return page.finish(max);
        };
        look_from_behind(&mut page, &mut runs[at])?;
    }
    page.finish(max)
}

/// The pairs that the runs' versions make at an instant, where all that is numbered below the bound is cleared: the first
/// `max` of them, or the last `max` where `back` holds and the runs are gone through from behind; in the order of their
/// keys in both cases. It is refused for want of memory alone.
pub fn page_of_runs<R: PageVersions>(
    alloc: Global,
    runs: &mut [R],
    instant: u64,
    bound: u64,
    back: bool,
    max: usize,
) -> Result<Vec<KvPair>, AllocError>
    requires ordered { All (IsInTurn back) (map R.left runs.old) }
    requires once { OnceEach (flat (map R.left runs.old)) }
    ensures forward { IsFalse back → IfOk result (λ pairs. pairs.items ≡ take max (pairs_of instant bound None (sorted (flat (map R.left runs.old))))) }
    ensures back { IsTrue back → IfOk result (λ pairs. pairs.items ≡ reverse (take max (pairs_back instant bound None (reverse (sorted (flat (map R.left runs.old))))))) }
{
    if back {
        return page_from_behind(alloc, runs, instant, bound, max);
    }
    page_from_front(alloc, runs, instant, bound, max)
}
