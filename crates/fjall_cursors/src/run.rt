//! Runs of versions, and which of several comes first.

ghost use Rattle.std.specs.Prelude.{◌≡◌, ◌↔◌, ◌<◌, ◌+◌, ◌++◌, ◌∷◌, [], ℕ, List, length, map, drop, slice_get, slice_set, Some, IfOk, IfSome, IsTrue};
ghost use Rattle.std.specs.Option.{option_map};
ghost use Rattle.fjall_table.specs.Blocks.{Entry, seen};
ghost use Rattle.fjall_cursors.specs.Heads.{ComesBefore, HasFirst, HasTwo};
ghost use Rattle.fjall_cursors.specs.Keyed.{keyed_in};
ghost use Rattle.fjall_memtable.specs.Sorted.{IsFirst};

use fjall_base::{UserKey, UserValue};
use fjall_table::TableEntry;
use std::alloc::{AllocError, Global};

/// A version's key, and its value, or None where it removed the key.
pub type OwnedVersion = (UserKey, Option<UserValue>);

/// Versions in order, from one end on.
pub trait Run {
    ghost left: { Self → List Entry };

    /// The version that comes first, or None where none is left.
    fn first(&self) -> Option<TableEntry<'_>>
        ensures { option_map seen result ≡ slice_get (left self.now) 0 };

    /// Whether none is left.
    fn is_empty(&self) -> bool
        ensures { IsTrue result ↔ (left self.now ≡ []) };

    /// Passes the first one over.
    fn pass(&mut self)
        ensures { left self.new ≡ drop 1 (left self.old) };
}

/// Runs of which pages are made.
pub trait PageVersions: Run {
    /// The version that comes first, owned: as parts of its block's text (`Slice::part_of`), where it stands in one, and else as copies.
    fn first_owned(&self, alloc: Global) -> Result<Option<OwnedVersion>, AllocError>
        ensures { IfOk result (λ version. version ≡ option_map keyed_in (slice_get (Self.left self.now) 0)) };
}

#[inline(always)]
fn comes_before(version: &TableEntry<'_>, other: &TableEntry<'_>, back: bool) -> bool
    ensures { IsTrue result ↔ ComesBefore back (seen version.now) (seen other.now) }
{
    if back {
        return other.is_before(version);
    }
    version.is_before(other)
}

// The first of some runs and one more, whose first version is the head.
fn first_with<'a>(
    best: Option<(usize, TableEntry<'a>)>,
    at: usize,
    head: Option<TableEntry<'a>>,
    back: bool,
) -> Option<(usize, TableEntry<'a>)>
    ensures first { (runs : List (List Entry)) (run : List Entry) → at ≡ length runs → option_map seen head.entry ≡ slice_get run 0 → HasFirst back runs best.entry → HasFirst back (runs ++ run ∷ []) result }
    ensures within { IfSome best.entry (λ first. first.0 < at) → IfSome result (λ first. first.0 < at + 1) }
{
    let Some(version) = head else {
        return best;
    };
    let Some((_, first)) = &best else {
        return Some((at, version));
    };
    if comes_before(&version, first, back) {
        return Some((at, version));
    }
    best
}

// The first two of some runs and one more, whose first version is the head: the first of all, and the first of the others.
fn two_with<'a>(
    best: Option<(usize, TableEntry<'a>)>,
    second: Option<(usize, TableEntry<'a>)>,
    at: usize,
    head: Option<TableEntry<'a>>,
    back: bool,
) -> (
    Option<(usize, TableEntry<'a>)>,
    Option<(usize, TableEntry<'a>)>,
)
    ensures two { (runs : List (List Entry)) (run : List Entry) → at ≡ length runs → option_map seen head.entry ≡ slice_get run 0 → HasTwo back runs best.entry second.entry → HasTwo back (runs ++ run ∷ []) result.0 result.1 }
{
    let Some(version) = head else {
        return (best, second);
    };
    let Some((_, first)) = &best else {
        return (Some((at, version)), None);
    };
    if comes_before(&version, first, back) {
        return (Some((at, version)), best);
    }
    (best, first_with(second, at, head, back))
}

/// Which of the runs begins with what comes first of all: from the start, or from behind where they are gone through so.
/// None where no run has a version. It takes no memory, and looks at the first version of each run once.
pub fn first_of<R: Run>(runs: &[R], back: bool) -> Option<usize>
    ensures first { IsFirst back (map R.left runs.now) result }
    ensures within { IfSome result (λ at. at < length runs.now) }
{
    let mut best: Option<(usize, TableEntry<'_>)> = None;
    for (at, run) in runs.iter().enumerate() {
        best = first_with(best, at, run.first(), back);
    }
    let (at, _) = best?;
    Some(at)
}

/// The same, and which of the other runs begins with what comes first of all of these.
pub fn first_two_of<R: Run>(runs: &[R], back: bool) -> Option<(usize, Option<usize>)>
    ensures first { IsFirst back (map R.left runs.now) (option_map (λ two. two.0) result) }
    ensures second { IfSome result (λ two. IsFirst back (slice_set (map R.left runs.now) two.0 []) two.1) }
    ensures within { IfSome result (λ two. two.0 < length runs.now) }
    ensures other { IfSome result (λ two. IfSome two.1 (λ at. at < length runs.now)) }
{
    let mut best: Option<(usize, TableEntry<'_>)> = None;
    let mut second: Option<(usize, TableEntry<'_>)> = None;
    for (at, run) in runs.iter().enumerate() {
        let (first, next) = two_with(best, second, at, run.first(), back);
        best = first;
        second = next;
    }
    let (at, _) = best?;
    match second {
        Some((other, _)) => Some((at, Some(other))),
        None => Some((at, None)),
    }
}

/// The same two once more, where versions of the first of them were passed over. It looks at these two runs alone, and is
/// None also where that isn't enough.
#[inline(always)]
pub fn next_two_of<R: Run>(
    runs: &[R],
    at: usize,
    other: Option<usize>,
    back: bool,
) -> Option<(usize, Option<usize>)>
    requires within { at < length runs.now }
    requires other { IfSome other (λ other. other < length runs.now) }
    ensures first { IsFirst back (slice_set (map R.left runs.now) at []) other → IfSome result (λ two. IsFirst back (map R.left runs.now) (Some two.0)) }
    ensures second { IsFirst back (slice_set (map R.left runs.now) at []) other → IfSome result (λ two. IsFirst back (slice_set (map R.left runs.now) two.0 []) two.1) }
    ensures within { IfSome result (λ two. two.0 < length runs.now) }
    ensures other { IfSome result (λ two. IfSome two.1 (λ at. at < length runs.now)) }
    ensures left { IfSome result (λ _. (v : Entry) × (rest : List Entry) × (slice_get (map R.left runs.now) at ≡ Some (v ∷ rest))) }
{
    if runs[at].is_empty() {
        return None;
    }
    let Some(next) = other else {
        return Some((at, None));
    };
    let version = runs[at].first()?;
    let head = runs[next].first()?;
    if comes_before(&version, &head, back) {
        return Some((at, Some(next)));
    }
    if runs.len() == 2 {
        return Some((next, Some(at)));
    }
    None
}
