//! Pairs from both ends of a range, page by page.

ghost use Rattle.std.specs.Prelude.{◌≡◌, ◌<◌, ◌++◌, [], ◌∷◌, ℕ, IfOk, IsOkUnless, OnOk, None, MatchOption, IfNone, IfSome, true, false};
ghost use Rattle.std.specs.Result.{result_err};
ghost use Rattle.fjall_base.specs.Pairs.{Bytes, Pairs, page, pairs_between};
ghost use Rattle.fjall_base.specs.declared.error.Error.TheVariants.{OutOfMemory};
ghost use Rattle.fjall_reading.specs.Rests.{IsLeftAhead, IsLeftBehind, TakesFirst, TakesLast, error_in};
ghost use Rattle.fjall_reading.specs.Cursors.{IsOver, left};

use crate::pages::{FIRST_PAGE, KeyRange, LARGEST_PAGE, Pages};
use fjall_base::{KvPair, Result};
use std::alloc::Global;
use std::mem;
use std::ops::Bound;

/// What is left of a range of a keyspace: pairs that were fetched from its front, the last of them first; a range that
/// wasn't fetched; and pairs that were fetched from its back.
pub struct Cursor {
    id: u64,
    middle: Option<KeyRange>,
    front: Vec<KvPair>,
    back: Vec<KvPair>,
    /// How many pairs the last page was to have.
    page_len: usize,
}

impl Drop for Cursor {
    fn drop(self) {
        let Cursor {
            id: _,
            middle: _middle,
            front: _front,
            back: _back,
            page_len: _,
        } = self;
    }
}

impl Cursor {
    /// All of a range.
    pub fn new(alloc: Global, id: u64, range: KeyRange) -> Cursor
        ensures left { (pairs : Pairs) → left result pairs ≡ pairs_between range pairs }
        ensures id { result.id ≡ id }
    {
        Cursor {
            id,
            middle: Some(range),
            front: Vec::new(alloc),
            back: Vec::new(alloc),
            page_len: 0,
        }
    }

    // Nothing of a keyspace.
    pub(crate) fn ended(alloc: Global, id: u64) -> Cursor
        ensures left { (pairs : Pairs) → left result pairs ≡ [] }
        ensures id { result.id ≡ id }
    {
        Cursor {
            id,
            middle: None,
            front: Vec::new(alloc),
            back: Vec::new(alloc),
            page_len: 0,
        }
    }

    // Whether it gives no pair more, and asks for no page more.
    fn is_over(&self) -> bool
        ensures yes { result ≡ true → IsOver self.now }
        ensures no { result ≡ false → IsOver self.now → ⊥ }
    {
        self.middle.is_none() && self.front.is_empty() && self.back.is_empty()
    }

    // Nothing is left.
    pub(crate) fn end(&mut self)
        ensures left { (pairs : Pairs) → left self.new pairs ≡ [] }
        ensures over { IsOver self.new }
        ensures id { self.new.id ≡ self.old.id }
    {
        self.middle = None;
        self.front.clear();
        self.back.clear();
    }

    // Fetches a page from the front, where none of the last one is left.
    fn fetch<P: Pages>(&mut self, pages: &mut P) -> Result<()>
        requires { self.old.front.items ≡ [] }
        ensures left { (map : Pairs) → P.shows pages.old self.old.id map → OnOk result (left self.new map ≡ left self.old map) }
        ensures fetched { OnOk result (self.new.front.items ≡ [] → self.new.middle ≡ None) }
        ensures same { (i : ℕ) (map : Pairs) → P.shows pages.old i map → P.shows pages.new i map }
        ensures paging { P.paging pages.old self.old.id (result_err result) pages.new }
        ensures id { self.new.id ≡ self.old.id }
    {
        let Some(range) = self.middle.take() else {
            return Ok(());
        };
        self.page_len = len_after(self.page_len);
        let mut found = pages.page(self.id, &range, false, self.page_len)?;
        self.middle = behind_page(&found, range, self.page_len)?;
        found.reverse();
        self.front = found;
        Ok(())
    }

    // Goes on with what was fetched from the back, where that alone is left.
    fn turn(&mut self)
        requires { self.old.front.items ≡ [] → self.old.middle ≡ None }
        ensures left { (pairs : Pairs) → left self.new pairs ≡ left self.old pairs }
        ensures ended { self.new.front.items ≡ [] → (pairs : Pairs) → left self.new pairs ≡ [] }
        ensures id { self.new.id ≡ self.old.id }
    {
        if self.front.is_empty() {
            mem::swap(&mut self.front, &mut self.back);
            self.front.reverse();
        }
    }

    // Takes the first of what was fetched.
    fn take_first(&mut self) -> Option<KvPair>
        requires { self.old.front.items ≡ [] → (pairs : Pairs) → left self.old pairs ≡ [] }
        ensures taken { MatchOption result ((pairs : Pairs) → left self.old pairs ≡ []) (λ pair. (pairs : Pairs) → left self.old pairs ≡ pair ∷ left self.new pairs) }
        ensures none { IfNone result ((pairs : Pairs) → left self.new pairs ≡ []) }
        ensures id { self.new.id ≡ self.old.id }
    {
        self.front.pop()
    }

    /// The first pair that is left. After the last one, and after a fault, there is none.
    pub fn next<P: Pages>(&mut self, pages: &mut P) -> Option<Result<KvPair>>
        ensures taken { (map : Pairs) → P.shows pages.old self.old.id map → TakesFirst (left self.old map) result (left self.new map) }
        ensures same { (i : ℕ) (map : Pairs) → P.shows pages.old i map → P.shows pages.new i map }
        ensures paging { P.paging pages.old self.old.id (error_in result) pages.new }
        ensures id { self.new.id ≡ self.old.id }
        // Behind the last pair, and behind a fault, there is none, and no page is asked for.
        ensures ends { IfNone result (IsOver self.new) }
        ensures fails { IfSome (error_in result) (λ _. IsOver self.new) }
        ensures over { IsOver self.old → (result ≡ None) × (self.new ≡ self.old) × (pages.new ≡ pages.old) }
    {
        if self.is_over() {
            return None;
        }
        if self.front.is_empty() {
            if let Err(error) = self.fetch(pages) {
                self.end();
                return Some(Err(error));
            }
        }
        self.turn();
        match self.take_first() {
            Some(pair) => Some(Ok(pair)),
            None => {
                self.end();
                None
            }
        }
    }
}

impl Cursor {
    // Fetches a page from the back, where none of the last one is left.
    fn fetch_back<P: Pages>(&mut self, pages: &mut P) -> Result<()>
        requires { self.old.back.items ≡ [] }
        ensures left { (map : Pairs) → P.shows pages.old self.old.id map → OnOk result (left self.new map ≡ left self.old map) }
        ensures fetched { OnOk result (self.new.back.items ≡ [] → self.new.middle ≡ None) }
        ensures same { (i : ℕ) (map : Pairs) → P.shows pages.old i map → P.shows pages.new i map }
        ensures paging { P.paging pages.old self.old.id (result_err result) pages.new }
        ensures id { self.new.id ≡ self.old.id }
    {
        let Some(range) = self.middle.take() else {
            return Ok(());
        };
        self.page_len = len_after(self.page_len);
        let found = pages.page(self.id, &range, true, self.page_len)?;
        self.middle = ahead_of_page(&found, range, self.page_len)?;
        self.back = found;
        Ok(())
    }

    // Goes on with what was fetched from the front, where that alone is left.
    fn turn_back(&mut self)
        requires { self.old.back.items ≡ [] → self.old.middle ≡ None }
        ensures left { (pairs : Pairs) → left self.new pairs ≡ left self.old pairs }
        ensures ended { self.new.back.items ≡ [] → (pairs : Pairs) → left self.new pairs ≡ [] }
        ensures id { self.new.id ≡ self.old.id }
    {
        if self.back.is_empty() {
            mem::swap(&mut self.front, &mut self.back);
            self.back.reverse();
        }
    }

    // Takes the last of what was fetched.
    fn take_last(&mut self) -> Option<KvPair>
        requires { self.old.back.items ≡ [] → (pairs : Pairs) → left self.old pairs ≡ [] }
        ensures taken { MatchOption result ((pairs : Pairs) → left self.old pairs ≡ []) (λ pair. (pairs : Pairs) → left self.old pairs ≡ left self.new pairs ++ pair ∷ []) }
        ensures none { IfNone result ((pairs : Pairs) → left self.new pairs ≡ []) }
        ensures id { self.new.id ≡ self.old.id }
    {
        self.back.pop()
    }

    /// The last pair that is left. After the first one, and after a fault, there is none.
    pub fn next_back<P: Pages>(&mut self, pages: &mut P) -> Option<Result<KvPair>>
        ensures taken { (map : Pairs) → P.shows pages.old self.old.id map → TakesLast (left self.old map) result (left self.new map) }
        ensures same { (i : ℕ) (map : Pairs) → P.shows pages.old i map → P.shows pages.new i map }
        ensures paging { P.paging pages.old self.old.id (error_in result) pages.new }
        ensures id { self.new.id ≡ self.old.id }
        // Behind the last pair, and behind a fault, there is none, and no page is asked for.
        ensures ends { IfNone result (IsOver self.new) }
        ensures fails { IfSome (error_in result) (λ _. IsOver self.new) }
        ensures over { IsOver self.old → (result ≡ None) × (self.new ≡ self.old) × (pages.new ≡ pages.old) }
    {
        if self.is_over() {
            return None;
        }
        if self.back.is_empty() {
            if let Err(error) = self.fetch_back(pages) {
                self.end();
                return Some(Err(error));
            }
        }
        self.turn_back();
        match self.take_last() {
            Some(pair) => Some(Ok(pair)),
            None => {
                self.end();
                None
            }
        }
    }
}

// How many pairs a page has behind one of so many, or where that is 0 the first one.
fn len_after(len: usize) -> usize
    ensures { 0 < result }
{
    len.saturating_mul(2).max(FIRST_PAGE).min(LARGEST_PAGE)
}

// What is left of a range ahead of its last page, which was to have so many pairs.
fn ahead_of_page(found: &[KvPair], range: KeyRange, len: usize) -> Result<Option<KeyRange>>
    requires { 0 < len }
    ensures left { IfOk result (λ rest. IsLeftAhead len found.now range rest) }
    ensures none { IfOk result (λ rest. found.now ≡ [] → rest ≡ None) }
    ensures only { IsOkUnless result OutOfMemory }
{
    if found.len() != len {
        return Ok(None);
    }
    match found.first() {
        Some(first) => Ok(Some((range.0, Bound::Excluded(first.0.clone()?)))),
        None => Ok(None),
    }
}

// What is left of a range behind its first page, which was to have so many pairs.
pub(crate) fn behind_page(found: &[KvPair], range: KeyRange, len: usize) -> Result<Option<KeyRange>>
    requires { 0 < len }
    ensures left { IfOk result (λ rest. IsLeftBehind len found.now range rest) }
    ensures none { IfOk result (λ rest. found.now ≡ [] → rest ≡ None) }
    ensures only { IsOkUnless result OutOfMemory }
{
    if found.len() != len {
        return Ok(None);
    }
    match found.last() {
        Some(last) => Ok(Some((Bound::Excluded(last.0.clone()?), range.1))),
        None => Ok(None),
    }
}
