//! What holds of versions in order.

ghost use Rattle.std.specs.Prelude.{◌≡◌, ◌+◌, ◌-◌, ◌<◌, ◌++◌, ◌∷◌, [], ℕ, Bool, false, true, nat_lt, List, None, reverse, length, take, drop, slice_get, slice_set};
ghost use Rattle.std.specs.List.{All};
ghost use Rattle.fjall_base.specs.Pairs.{Bytes, KeyRange, Pairs, pairs_between};
ghost use Rattle.fjall_table.specs.Blocks.{Entry, IsOrdered};
ghost use Rattle.fjall_table.specs.Tables.{entries_within, versions_at};
ghost use Rattle.fjall_memtable.specs.Jobs.{OnceEach, Same, flushed, merged};
ghost use Rattle.fjall_memtable.specs.Views.{IsView, is_cleared, newest};
ghost use Rattle.fjall_memtable.specs.Kept.{kept_of};
ghost use Rattle.fjall_memtable.specs.SortedPages.{barrier, pairs_back, pairs_of};
ghost use Rattle.fjall_memtable.specs.Sorted.{IsFirstOf, IsInTurn, flat, in_turn, sorted};

/// Versions in order: they are the same versions, and no two of one key and number where there were none.
pub fn sorting_keeps_versions()
    ensures ordered { (versions : List Entry) → IsOrdered (sorted versions) }
    ensures same { (versions : List Entry) → OnceEach versions → Same (sorted versions) versions }
    ensures already { (versions : List Entry) → IsOrdered versions → sorted versions ≡ versions }
{}

/// Where one of several runs begins with what comes first of all, that version is the first of all in order, and the others
/// are those of the runs without it.
pub fn one_version_is_taken()
    ensures first { (back : Bool) (runs : List (List Entry)) (at : ℕ) (v : Entry) (rest : List Entry)
        → All (IsInTurn back) runs → OnceEach (flat runs) → IsFirstOf back runs at v rest
        → in_turn back (sorted (flat runs)) ≡ v ∷ in_turn back (sorted (flat (slice_set runs at rest))) }
    ensures runs { (back : Bool) (runs : List (List Entry)) (at : ℕ) (v : Entry) (rest : List Entry)
        → All (IsInTurn back) runs → IsFirstOf back runs at v rest → All (IsInTurn back) (slice_set runs at rest) }
    ensures once { (back : Bool) (runs : List (List Entry)) (at : ℕ) (v : Entry) (rest : List Entry)
        → OnceEach (flat runs) → IsFirstOf back runs at v rest → OnceEach (flat (slice_set runs at rest)) }
{}

/// Where no run has a version, there is none.
pub fn runs_are_used_up()
    ensures { (runs : List (List Entry)) → All (λ run. run ≡ []) runs → flat runs ≡ [] }
{}

/// Versions outside of bounds may be left out before all are put in order.
pub fn bounds_may_be_applied_first()
    ensures { (range : KeyRange) (versions : List Entry) → sorted (entries_within range versions) ≡ entries_within range (sorted versions) }
{}

/// A clear hides what is numbered below it, so the greatest one below an instant tells what all do.
pub fn a_barrier_stands_for_clears()
    ensures { (instant : ℕ) (clears : List ℕ) (number : ℕ) → is_cleared instant clears number ≡ nat_lt number (barrier instant clears) }
{}

/// Among versions in order the newest of a key below an instant is the first that is found of it.
pub fn the_newest_stands_first()
    ensures { (key : Bytes) (instant : ℕ) (versions : List Entry) → IsOrdered versions
        → newest key instant versions ≡ slice_get (versions_at key instant versions) 0 }
{}

/// What a page makes of all versions between bounds are the view's pairs between them, from either end.
pub fn a_page_is_of_the_view()
    ensures forward { (instant : ℕ) (clears : List ℕ) (range : KeyRange) (versions : List Entry) (pairs : Pairs) → OnceEach versions
        → IsView instant clears versions pairs
        → pairs_of instant (barrier instant clears) None (entries_within range (sorted versions)) ≡ pairs_between range pairs }
    ensures back { (instant : ℕ) (clears : List ℕ) (range : KeyRange) (versions : List Entry) (pairs : Pairs) → OnceEach versions
        → IsView instant clears versions pairs
        → pairs_back instant (barrier instant clears) None (reverse (entries_within range (sorted versions))) ≡ reverse (pairs_between range pairs) }
{}

/// What a job keeps of its input in order is what its input doesn't hide, and for a merge what isn't spent either.
pub fn what_is_kept_is_not_hidden()
    ensures flushed { (watermark : ℕ) (clears : List ℕ) (versions : List Entry) → OnceEach versions
        → Same (kept_of false watermark (barrier (watermark + 1) clears) None (sorted versions)) (flushed watermark clears versions) }
    ensures merged { (watermark : ℕ) (clears : List ℕ) (versions : List Entry) → OnceEach versions
        → Same (kept_of true watermark (barrier (watermark + 1) clears) None (sorted versions)) (merged watermark clears versions) }
    ensures ordered { (spends : Bool) (watermark bound : ℕ) (versions : List Entry) → IsOrdered (kept_of spends watermark bound None (sorted versions)) }
{}
