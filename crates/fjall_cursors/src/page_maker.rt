//! A page in the making, from the start or from behind.

ghost use Rattle.std.specs.Prelude.{◌≡◌, ◌≤◌, ◌<◌, ◌+◌, ◌∷◌, [], List, None, Some, length, map, position, slice_set, take, IfOk, IfSome, OnOk};
ghost use Rattle.fjall_base.specs.Pairs.{Bytes, KeyRange};
ghost use Rattle.fjall_table.specs.Blocks.{Entry};
ghost use Rattle.fjall_memtable.specs.Sorted.{IsFirst, in_turn};
ghost use Rattle.fjall_cursors.specs.Runs.{ahead_of, all_of, is_dry, left_in};
ghost use Rattle.fjall_cursors.specs.Pages.{IsMade, goes_back, made, made_with, page_of};
ghost use Rattle.fjall_cursors.specs.RunPages.{LooksOver};
ghost use Rattle.fjall_cursors.specs.Leads.{Leading, UndryBut};

use crate::back_page::BackPage;
use crate::front_page::FrontPage;
use crate::page_run::{PageRun, first_dry};
use crate::run::{first_two_of, next_two_of};
use fjall_base::KvPair;
use std::alloc::{AllocError, Global};

/// A page that is made of versions in order, from the start or from behind, by one look at each.
#[derive(Drop)]
pub(crate) enum PageMaker {
    Front(FrontPage),
    Back(BackPage),
}

impl PageMaker {
    /// A page at an instant, where all that is numbered below the bound is cleared.
    pub(crate) fn new(alloc: Global, instant: u64, bound: u64, back: bool) -> PageMaker
        ensures back { goes_back result ≡ back }
        ensures none { made result ≡ [] }
        ensures all { (versions : List Entry) → made_with result versions ≡ page_of back instant bound versions }
    {
        if back {
            return PageMaker::Back(BackPage::new(alloc, instant, bound));
        }
        PageMaker::Front(FrontPage::new(alloc, instant, bound))
    }

    /// How many pairs there are.
    fn len(&self) -> usize
        ensures { result ≡ length (made self.now) }
    {
        match self {
            PageMaker::Front(page) => page.len(),
            PageMaker::Back(page) => page.len(),
        }
    }

    /// Looks at the first version of a run.
    #[inline(always)]
    fn look(&mut self, run: &PageRun<'_>) -> Result<(), AllocError>
        ensures back { goes_back self.new ≡ goes_back self.old }
        ensures all { OnOk result ((v : Entry) (rest versions : List Entry) → left_in run.now ≡ v ∷ rest → made_with self.new versions ≡ made_with self.old (v ∷ versions)) }
        ensures few { OnOk result (length (made self.new) ≤ length (made self.old) + 1) }
    {
        match self {
            PageMaker::Front(page) => page.look(run),
            PageMaker::Back(page) => page.look(run),
        }
    }

    /// Looks at the first version of a run, and passes it over.
    #[inline(always)]
    fn look_at(&mut self, run: &mut PageRun<'_>) -> Result<(), AllocError>
        ensures ahead { ahead_of run.new ≡ ahead_of run.old }
        ensures back { goes_back self.new ≡ goes_back self.old }
        ensures left { OnOk result ((v : Entry) (rest : List Entry) → left_in run.old ≡ v ∷ rest → left_in run.new ≡ rest) }
        ensures all { OnOk result ((v : Entry) (rest versions : List Entry) → left_in run.old ≡ v ∷ rest → made_with self.new versions ≡ made_with self.old (v ∷ versions)) }
        ensures few { OnOk result (length (made self.new) ≤ length (made self.old) + 1) }
    {
        self.look(run)?;
        run.skip();
        Ok(())
    }

    // Looks at versions of a run: of a table's run one after another, until the page is full or none is in memory, and of a memtable's
    // run at one.
    fn look_on(&mut self, run: &mut PageRun<'_>, max: usize) -> Result<(), AllocError>
        requires some { left_in run.old ≡ [] → ⊥ }
        requires room { length (made self.old) < max }
        ensures ahead { ahead_of run.new ≡ ahead_of run.old }
        ensures back { goes_back self.new ≡ goes_back self.old }
        ensures looked { OnOk result (LooksOver (left_in run.old) (left_in run.new) (made_with self.old) (made_with self.new)) }
        ensures fewer { OnOk result (length (left_in run.new) < length (left_in run.old)) }
        ensures few { OnOk result (length (made self.new) ≤ max) }
    {
        match run {
            PageRun::Memory(_) => self.look_at(run),
            PageRun::Table(run) => match self {
                PageMaker::Front(page) => page.look_on(run, max),
                PageMaker::Back(page) => page.look_on(run, max),
            },
        }
    }

    // Where a page goes on that isn't full, once versions of the first of two runs were passed over. It is None also where
    // these two alone don't tell.
    fn next_two(
        &self,
        runs: &[PageRun<'_>],
        at: usize,
        other: Option<usize>,
        back: bool,
        max: usize,
    ) -> Option<(usize, Option<usize>)>
        requires within { at < length runs.now }
        requires other { IfSome other (λ other. other < length runs.now) }
        ensures room { IfSome result (λ _. length (made self.now) < max) }
        ensures next { UndryBut at runs.now → IsFirst back (slice_set (map left_in runs.now) at []) other → IfSome result (λ two. Leading back runs.now two.0 two.1) }
    {
        if self.len() >= max {
            return None;
        }
        next_two_of(runs, at, other, back)
    }

    /// Looks at the versions of the runs as they come, until the page is full, a run has to be filled, or no version is
    /// left. It answers which run has to be filled.
    pub(crate) fn go_on(
        &mut self,
        runs: &mut [PageRun<'_>],
        back: bool,
        max: usize,
    ) -> Result<Option<usize>, AllocError>
        requires { goes_back self.old ≡ back }
        ensures back { goes_back self.new ≡ back }
        ensures ahead { map ahead_of runs.new ≡ map ahead_of runs.old }
        ensures dry { IfOk result (λ at. IfSome at (λ at. position is_dry runs.new ≡ Some at)) }
        ensures all { (range : KeyRange) (tables : List (List (List Entry))) (whole : List (Bytes × Bytes)) → IsMade back (all_of range tables runs.old) whole (made_with self.old) (made self.old) max
            → OnOk result (IsMade back (all_of range tables runs.new) whole (made_with self.new) (made self.new) max) }
        ensures few { length (made self.old) ≤ max → OnOk result (length (made self.new) ≤ max) }
        ensures done { (range : KeyRange) (tables : List (List (List Entry))) (whole : List (Bytes × Bytes)) → IsMade back (all_of range tables runs.old) whole (made_with self.old) (made self.old) max
            → IfOk result (λ at. at ≡ None → take max (made_with self.new []) ≡ take max whole) }
    {
        'versions: while self.len() < max {
            if let Some(at) = first_dry(runs) {
                return Ok(Some(at));
            }
            let Some(two) = first_two_of(runs, back) else {
                return Ok(None);
            };
            if two.1.is_none() {
                self.look_on(&mut runs[two.0], max)?;
            } else {
                let mut next = Some(two);
                'ahead: while let Some((at, other)) = next {
                    self.look_at(&mut runs[at])?;
                    next = self.next_two(runs, at, other, back, max);
                }
            }
        }
        Ok(None)
    }

    /// The pairs, in the order of their keys.
    pub(crate) fn finish(self, max: usize) -> Result<Vec<KvPair>, AllocError>
        requires { length (made self) ≤ max }
        ensures { IfOk result (λ pairs. pairs.items ≡ in_turn (goes_back self) (take max (made_with self []))) }
    {
        match self {
            PageMaker::Front(page) => Ok(page.finish()),
            PageMaker::Back(page) => page.finish(max),
        }
    }
}
