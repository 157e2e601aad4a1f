//! Pages from the start.

ghost use Rattle.std.specs.Prelude.{◌≡◌, ◌<◌, ◌≤◌, ◌+◌, ◌++◌, ◌∷◌, [], List, None, Some, length, OnOk, IsTrue, ◌↔◌};
ghost use Rattle.std.specs.Option.{option_map};
ghost use Rattle.fjall_base.specs.Pairs.{Bytes};
ghost use Rattle.fjall_table.specs.Blocks.{Entry, seen};
ghost use Rattle.fjall_memtable.specs.SortedPages.{is_settled, pair_in, pair_of, pairs_of};

use crate::keys::is_same;
use crate::run::{PageVersions, Run};
use crate::table_run::TableRun;
use fjall_base::{KvPair, UserKey, UserValue};
use fjall_table::TableEntry;
use std::alloc::{AllocError, Global};

// Room for so many pairs is made with the first one.
pub(crate) const FIRST_PAIRS: usize = 64;

/// A page that is made of versions in order, from the start, by one look at each.
#[derive(Drop)]
pub struct FrontPage {
    alloc: Global,
    instant: u64,
    bound: u64,
    pairs: Vec<KvPair>,
    /// The key that was settled last, where it has no pair.
    bare: Option<UserKey>,
}

// What the newest version of a key shows of its value: none of it where the version is cleared.
#[inline(always)]
pub(crate) fn value_shown(value: Option<UserValue>, number: u64, bound: u64) -> Option<UserValue>
    ensures { (key : Bytes) → pair_in key result ≡ pair_of bound (record { key = key; number = number; value = value }) }
{
    if number < bound {
        return None;
    }
    value
}

impl FrontPage {
    ghost use Rattle.fjall_cursors.specs.Parts.{left_of};
    ghost use Rattle.fjall_cursors.specs.RunPages.{LooksOver, front_pairs, front_with, settled_key};

    /// A page with no pair yet, of what is numbered below the instant; all that is numbered below the bound is cleared. It
    /// takes no memory.
    pub fn new(alloc: Global, instant: u64, bound: u64) -> FrontPage
        ensures none { front_pairs result ≡ [] }
        ensures all { (versions : List Entry) → front_with result versions ≡ pairs_of instant bound None versions }
    {
        FrontPage {
            alloc,
            instant,
            bound,
            pairs: Vec::new(alloc),
            bare: None,
        }
    }

    /// How many pairs it has.
    pub fn len(&self) -> usize
        ensures { result ≡ length (front_pairs self.now) }
    {
        self.pairs.len()
    }

    /// Whether it has no pair yet.
    pub fn is_empty(&self) -> bool
        ensures { IsTrue result ↔ (front_pairs self.now ≡ []) }
    {
        self.pairs.is_empty()
    }

    // The key that was settled last.
    #[inline(always)]
    fn settled_key(&self) -> Option<&[u8]>
        ensures { option_map (λ key. key.now) result ≡ settled_key self.now.bare self.now.pairs.items }
    {
        if let Some(key) = &self.bare {
            return Some(key.as_slice());
        }
        match self.pairs.last() {
            Some((key, _)) => Some(key.as_slice()),
            None => None,
        }
    }

    // Whether the version is of that key.
    #[inline(always)]
    fn is_settled(&self, version: &TableEntry<'_>) -> bool
        ensures { result ≡ is_settled (settled_key self.now.bare self.now.pairs.items) (seen version.now) }
    {
        match self.settled_key() {
            Some(key) => is_same(version.key, key),
            None => false,
        }
    }

    // Settles a key by the value that its newest version shows, if it shows one.
    #[inline(always)]
    fn settle(&mut self, key: UserKey, value: Option<UserValue>) -> Result<(), AllocError>
        ensures instant { self.new.instant ≡ self.old.instant }
        ensures bound { self.new.bound ≡ self.old.bound }
        ensures pairs { OnOk result (front_pairs self.new ≡ front_pairs self.old ++ pair_in key value) }
        ensures key { OnOk result (settled_key self.new.bare self.new.pairs.items ≡ Some key) }
    {
        let Some(value) = value else {
            self.bare = Some(key);
            return Ok(());
        };
        if self.pairs.is_empty() {
            self.pairs.reserve(FIRST_PAIRS)?;
        }
        self.pairs.push((key, value))?;
        self.bare = None;
        Ok(())
    }

    /// Looks at the first version of a run, which is the next one, and adds the pair that it makes; where the run has none, the page
    /// stays as it is. It is refused for want of memory alone; the page is of no more use then.
    #[inline(always)]
    pub fn look<R: PageVersions>(&mut self, run: &R) -> Result<(), AllocError>
        ensures all { OnOk result ((v : Entry) (rest versions : List Entry) → R.left run.now ≡ v ∷ rest → front_with self.new versions ≡ front_with self.old (v ∷ versions)) }
        ensures none { R.left run.now ≡ [] → self.new ≡ self.old }
        ensures few { OnOk result (length (front_pairs self.new) ≤ length (front_pairs self.old) + 1) }
    {
        let Some(version) = run.first() else {
            return Ok(());
        };
        let number = version.number;
        if number >= self.instant || self.is_settled(&version) {
            return Ok(());
        }
        let Some((key, value)) = run.first_owned(self.alloc)? else {
            return Ok(());
        };
        self.settle(key, value_shown(value, number, self.bound))
    }

    /// Looks at the versions that a table's run has in memory, one behind another, until there are `max` pairs or none is left. It is
    /// refused for want of memory alone; the page is of no more use then.
    pub(crate) fn look_on(&mut self, run: &mut TableRun, max: usize) -> Result<(), AllocError>
        ensures ahead { run.new.ahead ≡ run.old.ahead }
        ensures looked { OnOk result (LooksOver (left_of run.old) (left_of run.new) (front_with self.old) (front_with self.new)) }
        ensures few { OnOk result (length (front_pairs self.old) ≤ max → length (front_pairs self.new) ≤ max) }
        ensures fewer { OnOk result (length (front_pairs self.old) < max → (left_of run.old ≡ [] → ⊥) → length (left_of run.new) < length (left_of run.old)) }
    {
        'versions: while self.len() < max && !run.is_empty() {
            self.look(run)?;
            run.skip();
        }
        Ok(())
    }

    /// The pairs in order.
    pub fn finish(self) -> Vec<KvPair>
        ensures { result.items ≡ front_pairs self }
    {
        self.pairs
    }
}
