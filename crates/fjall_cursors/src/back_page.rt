//! Pages from behind.

ghost use Rattle.std.specs.Prelude.{◌≡◌, ◌<◌, ◌≤◌, ◌+◌, ◌∷◌, [], List, None, false, length, reverse, take, IfOk, OnOk, IsTrue, ◌↔◌};
ghost use Rattle.fjall_table.specs.Blocks.{Entry, seen};
ghost use Rattle.fjall_memtable.specs.SortedPages.{is_another, pairs_back};
ghost use Rattle.fjall_cursors.specs.Keyed.{found_in};

use crate::front_page::value_shown;
use crate::keyed_pairs::KeyedPairs;
use crate::keys::is_same;
use crate::run::{PageVersions, Run};
use crate::table_run::TableRun;
use fjall_base::KvPair;
use fjall_table::TableEntry;
use std::alloc::{AllocError, Global};

/// A page that is made of versions in order, from behind, by one look at each.
#[derive(Drop)]
pub struct BackPage {
    alloc: Global,
    instant: u64,
    bound: u64,
    pairs: KeyedPairs,
}

// Whether there is a last key, and the version is of another one.
#[inline(always)]
fn is_of_another(pairs: &KeyedPairs, version: &TableEntry<'_>, bound: u64) -> bool
    ensures { result ≡ is_another (found_in bound pairs.now.last) (seen version.now) }
{
    match pairs.last_key() {
        Some(key) => !is_same(version.key, key),
        None => false,
    }
}

impl BackPage {
    ghost use Rattle.fjall_cursors.specs.Parts.{left_of};
    ghost use Rattle.fjall_cursors.specs.RunPages.{LooksOver, back_pairs, back_with};

    /// A page with no pair yet, of what is numbered below the instant; all that is numbered below the bound is cleared. It
    /// takes no memory.
    pub fn new(alloc: Global, instant: u64, bound: u64) -> BackPage
        ensures none { back_pairs result ≡ [] }
        ensures all { (versions : List Entry) → back_with result versions ≡ pairs_back instant bound None versions }
    {
        BackPage {
            alloc,
            instant,
            bound,
            pairs: KeyedPairs::new(alloc),
        }
    }

    /// How many pairs it has.
    pub fn len(&self) -> usize
        ensures { result ≡ length (back_pairs self.now) }
    {
        self.pairs.count_before()
    }

    /// Whether it has no pair yet.
    pub fn is_empty(&self) -> bool
        ensures { IsTrue result ↔ (back_pairs self.now ≡ []) }
    {
        self.len() == 0
    }

    // Settles the key whose newest version was found last, where a version is of another key.
    #[inline(always)]
    fn settle_before(&mut self, version: &TableEntry<'_>) -> Result<(), AllocError>
        ensures all { OnOk result ((versions : List Entry) → back_with self.new (seen version.now ∷ versions) ≡ back_with self.old (seen version.now ∷ versions)) }
        ensures same { OnOk result (is_another (found_in self.new.bound self.new.pairs.last) (seen version.now) ≡ false) }
        ensures few { OnOk result (length (back_pairs self.new) ≤ length (back_pairs self.old) + 1) }
    {
        if !is_of_another(&self.pairs, version, self.bound) {
            return Ok(());
        }
        self.pairs.settle()
    }

    /// Looks at the first version of a run, which is the next one from behind, and adds the pair of the key that it settles; where the run
    /// has none, the page stays as it is. It is refused for want of memory alone; the page is of no more use then.
    #[inline(always)]
    pub fn look<R: PageVersions>(&mut self, run: &R) -> Result<(), AllocError>
        ensures all { OnOk result ((v : Entry) (rest versions : List Entry) → R.left run.now ≡ v ∷ rest → back_with self.new versions ≡ back_with self.old (v ∷ versions)) }
        ensures none { R.left run.now ≡ [] → self.new ≡ self.old }
        ensures few { OnOk result (length (back_pairs self.new) ≤ length (back_pairs self.old) + 1) }
    {
        let Some(version) = run.first() else {
            return Ok(());
        };
        let number = version.number;
        self.settle_before(&version)?;
        if number >= self.instant {
            return Ok(());
        }
        if let Some((key, value)) = run.first_owned(self.alloc)? {
            self.pairs
                .set_last(key, value_shown(value, number, self.bound));
        }
        Ok(())
    }

    /// Looks at the versions that a table's run has in memory, one behind another, until there are `max` pairs or none is left. It is
    /// refused for want of memory alone; the page is of no more use then.
    pub(crate) fn look_on(&mut self, run: &mut TableRun, max: usize) -> Result<(), AllocError>
        ensures ahead { run.new.ahead ≡ run.old.ahead }
        ensures looked { OnOk result (LooksOver (left_of run.old) (left_of run.new) (back_with self.old) (back_with self.new)) }
        ensures few { OnOk result (length (back_pairs self.old) ≤ max → length (back_pairs self.new) ≤ max) }
        ensures fewer { OnOk result (length (back_pairs self.old) < max → (left_of run.old ≡ [] → ⊥) → length (left_of run.new) < length (left_of run.old)) }
    {
        'versions: while self.len() < max && !run.is_empty() {
            self.look(run)?;
            run.skip();
        }
        Ok(())
    }

    /// The pairs where no version is left to be looked at, in the order of their keys, and at most `max` of them. It is
    /// refused for want of memory alone.
    pub fn finish(self, max: usize) -> Result<Vec<KvPair>, AllocError>
        requires { length (back_pairs self) ≤ max }
        ensures { IfOk result (λ pairs. pairs.items ≡ reverse (take max (back_with self []))) }
    {
        let BackPage { mut pairs, .. } = self;
        if pairs.count_before() >= max {
            return Ok(pairs.finish());
        }
        pairs.settle()?;
        Ok(pairs.finish())
    }
}
