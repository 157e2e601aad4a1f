//! What holds of the definitions.

ghost use Rattle.std.specs.Prelude.{◌≡◌, ◌≢◌, ◌⊎◌, ◌<◌, ◌≤◌, ◌++◌, ◌∷◌, [], ℕ, true, not, List, None, Some, filter, is_some, nat_le};
ghost use Rattle.std.specs.List.{All};
ghost use Rattle.std.specs.List.Sorted.{IsPermutation};
ghost use Rattle.fjall_base.specs.Pairs.{Bytes, Pairs, altered};
ghost use Rattle.fjall_table.specs.Blocks.{Entry};
ghost use Rattle.fjall_memtable.specs.Examples.{a_key, a_value, given_under, removed_under};
ghost use Rattle.fjall_memtable.specs.Jobs.{AreBelow, AreFrom, IsAbove, OnceEach, Same, ShowsAbove, flushed, is_at, merged, merged_clears};
ghost use Rattle.fjall_memtable.specs.Views.{IsView, later, newest, value_at, value_left, view_of};

/// At each instant there is one view.
pub fn views_are_one()
    ensures made { (instant : ℕ) (clears : List ℕ) (versions : List Entry) → IsView instant clears versions (view_of instant clears versions) }
    ensures some { (instant : ℕ) (clears : List ℕ) (versions : List Entry) → (pairs : Pairs) × IsView instant clears versions pairs }
    ensures one { (instant : ℕ) (clears : List ℕ) (versions : List Entry) (pairs others : Pairs)
        → IsView instant clears versions pairs → IsView instant clears versions others → pairs ≡ others }
{}

/// Neither the order of the versions nor that of the clears matters.
pub fn the_order_does_not_matter()
    ensures versions { (key : Bytes) (instant : ℕ) (clears : List ℕ) (versions others : List Entry) → OnceEach versions → Same versions others
        → value_at key instant clears versions ≡ value_at key instant clears others }
    ensures clears { (key : Bytes) (instant : ℕ) (clears others : List ℕ) (versions : List Entry) → Same clears others
        → value_at key instant clears versions ≡ value_at key instant others versions }
    ensures permuted { (versions others : List Entry) → IsPermutation versions others → Same versions others }
{}

/// The newest version of a key decides: where a clear hides it, no older one shows.
pub fn the_newest_decides()
    ensures { (key : Bytes) (instant : ℕ) (clears : List ℕ) (versions : List Entry)
        → value_at key instant clears versions ≡ value_left instant clears (newest key instant versions) }
{}

/// The newest of two parts is the later one of theirs. So where all of the one behind is numbered from a bound on, and all of
/// the one before it below that bound, what is found behind decides.
pub fn parts_are_read_one_by_one()
    ensures parts { (key : Bytes) (instant : ℕ) (front behind : List Entry)
        → newest key instant (front ++ behind) ≡ later (newest key instant front) (newest key instant behind) }
    ensures first { (key : Bytes) (instant bound : ℕ) (front behind : List Entry) (v : Entry) → AreBelow bound front → AreFrom bound behind
        → newest key instant behind ≡ Some v → newest key instant (front ++ behind) ≡ Some v }
{}

/// A version that stands last, and whose number no other and no clear exceeds, is what each view above it shows of its key.
/// No other key and no view up to it is touched. Those of its key and number before it might as well be gone.
pub fn a_write_is_one_version_more()
    ensures shows { (instant : ℕ) (clears : List ℕ) (versions : List Entry) (v : Entry) → v.number < instant
        → All (λ w. w.number ≤ v.number) versions → All (λ n. n ≤ v.number) clears
        → value_at v.key instant clears (versions ++ v ∷ []) ≡ v.value }
    ensures keeps { (key : Bytes) (instant : ℕ) (clears : List ℕ) (versions : List Entry) (v : Entry) → (v.key ≢ key) ⊎ (instant ≤ v.number)
        → value_at key instant clears (versions ++ v ∷ []) ≡ value_at key instant clears versions }
    ensures alters { (instant : ℕ) (clears : List ℕ) (versions : List Entry) (v : Entry) (pairs : Pairs) → v.number < instant
        → All (λ w. w.number ≤ v.number) versions → All (λ n. n ≤ v.number) clears
        → IsView instant clears versions pairs → IsView instant clears (versions ++ v ∷ []) (altered pairs v.key v.value) }
    ensures replaces { (key : Bytes) (instant : ℕ) (clears : List ℕ) (versions : List Entry) (v : Entry)
        → value_at key instant clears (filter (λ w. not (is_at v w)) versions ++ v ∷ []) ≡ value_at key instant clears (versions ++ v ∷ []) }
{}

/// Each view above a clear shows what is numbered from it on, and nothing that was numbered below it. No view up to it is
/// touched.
pub fn a_clear_is_one_clear_more()
    ensures empties { (key : Bytes) (instant : ℕ) (clears : List ℕ) (n : ℕ) (versions : List Entry) → n < instant → AreBelow n versions
        → value_at key instant (clears ++ n ∷ []) versions ≡ None }
    ensures leaves { (key : Bytes) (instant : ℕ) (clears : List ℕ) (n : ℕ) (versions : List Entry) → n < instant
        → value_at key instant (clears ++ n ∷ []) versions ≡ value_at key instant clears (filter (λ v. nat_le n v.number) versions) }
    ensures keeps { (key : Bytes) (instant : ℕ) (clears : List ℕ) (n : ℕ) (versions : List Entry) → instant ≤ n
        → value_at key instant (clears ++ n ∷ []) versions ≡ value_at key instant clears versions }
{}

/// Where no key has two versions of one number, it stays so: under writes that take the place of those of their key and
/// number, in parts whose numbers a bound tells apart, and after jobs.
pub fn each_stays_once()
    ensures write { (versions : List Entry) (v : Entry) → OnceEach versions → OnceEach (filter (λ w. not (is_at v w)) versions ++ v ∷ []) }
    ensures parts { (bound : ℕ) (front behind : List Entry) → AreBelow bound front → AreFrom bound behind
        → OnceEach front → OnceEach behind → OnceEach (front ++ behind) }
    ensures flush { (watermark : ℕ) (clears : List ℕ) (versions : List Entry) → OnceEach versions → OnceEach (flushed watermark clears versions) }
    ensures merge { (watermark : ℕ) (clears : List ℕ) (versions : List Entry) → OnceEach versions → OnceEach (merged watermark clears versions) }
{}

/// A flush keeps each view above its watermark, whatever stands beside its input, and in whatever order it writes what it
/// keeps.
pub fn a_flush_keeps_views()
    ensures { (key : Bytes) (instant watermark : ℕ) → IsAbove watermark instant
        → (before clears after : List ℕ) (below versions made above : List Entry) → OnceEach versions → Same made (flushed watermark clears versions)
        → value_at key instant (before ++ (clears ++ after)) (below ++ (made ++ above))
        ≡ value_at key instant (before ++ (clears ++ after)) (below ++ (versions ++ above)) }
{}

/// A merge keeps each view above its watermark, where its input is all that is numbered below a bound, and all else,
/// which came since, is numbered from that bound on.
pub fn a_merge_keeps_views()
    ensures { (key : Bytes) (instant watermark bound : ℕ) → IsAbove watermark instant → (clears rest : List ℕ) (versions made above : List Entry)
        → OnceEach versions → Same made (merged watermark clears versions)
        → AreBelow bound versions → All (λ n. n ≤ bound) clears → AreFrom bound above
        → value_at key instant (merged_clears watermark clears ++ rest) (made ++ above) ≡ value_at key instant (clears ++ rest) (versions ++ above) }
{}

/// Jobs keep nothing that no view above the watermark shows. Where the watermark reaches all that a merge reads, it keeps no
/// removal.
pub fn jobs_keep_what_views_show()
    ensures flush { (watermark : ℕ) (clears : List ℕ) (versions : List Entry) → OnceEach versions
        → All (ShowsAbove watermark clears versions) (flushed watermark clears versions) }
    ensures merge { (watermark : ℕ) (clears : List ℕ) (versions : List Entry) → OnceEach versions
        → All (ShowsAbove watermark clears versions) (merged watermark clears versions) }
    ensures removals { (watermark : ℕ) (clears : List ℕ) (versions : List Entry) → All (λ v. v.number ≤ watermark) versions
        → All (λ v. is_some v.value ≡ true) (merged watermark clears versions) }
{}

/// A merge whose input has a removal that the watermark reaches, while an older version stands outside of it, as it would
/// where a table was added below a memtable that isn't flushed: the version comes back.
pub fn a_merge_below_older_versions_loses_a_removal()
    ensures before { value_at a_key 7 [] (removed_under 5 ∷ given_under 3 ∷ []) ≡ None }
    ensures after { value_at a_key 7 [] (merged 6 [] (removed_under 5 ∷ []) ++ (given_under 3 ∷ [])) ≡ Some a_value }
{}

/// A merge that takes away all clears up to the watermark, also one that a flush brought after the merge began: what that
/// one hid comes back.
pub fn a_merge_that_takes_later_clears_loses_a_clear()
    ensures before { value_at a_key 7 (5 ∷ []) (given_under 3 ∷ []) ≡ None }
    ensures after { value_at a_key 7 (merged_clears 6 (5 ∷ [])) (merged 6 [] (given_under 3 ∷ [])) ≡ Some a_value }
{}

/// A flush at a watermark that an open instant isn't above: the older version, which that instant sees, is gone.
pub fn a_flush_at_an_open_instant_loses_a_version()
    ensures before { value_at a_key 2 [] (given_under 1 ∷ removed_under 2 ∷ []) ≡ Some a_value }
    ensures after { value_at a_key 2 [] (flushed 2 [] (given_under 1 ∷ removed_under 2 ∷ [])) ≡ None }
{}
