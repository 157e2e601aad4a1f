//! Laws of ranges and of what lies within them.

ghost use Rattle.std.specs.Prelude.{◌≡◌, ◌≢◌, ◌∷◌, ◌++◌, ◌+◌, ◌<◌, ◌&&◌, [], ℕ, List, All, replicate, length, drop};
ghost use Rattle.std.specs.declared.ops.Bound.TheVariants.{Excluded, Included, Unbounded};
ghost use Rattle.std.specs.FinMap.{entries, retain_keys};
ghost use Rattle.fjall_base.specs.Pairs.{Bytes, KeyRange, Pairs, is_within, pairs_between};
ghost use Rattle.fjall_reading.specs.Prefixes.{HasByteKeys, begins_with, prefix_range, range_behind};
ghost use Rattle.fjall_reading.specs.Rests.{ahead_of, behind};

/// The pairs behind one of a range are those of the range behind its key, and those ahead of it those up to its key.
pub fn pairs_go_on()
    ensures ahead { (pairs : Pairs) (range : KeyRange) (front : List (Bytes × Bytes)) (pair : Bytes × Bytes) (rest : List (Bytes × Bytes))
        → pairs_between range pairs ≡ front ++ pair ∷ rest → pairs_between (ahead_of pair.0 range) pairs ≡ front }
    ensures behind { (pairs : Pairs) (range : KeyRange) (front : List (Bytes × Bytes)) (pair : Bytes × Bytes) (rest : List (Bytes × Bytes))
        → pairs_between range pairs ≡ front ++ pair ∷ rest → pairs_between (behind pair.0 range) pairs ≡ rest }
{}

/// The range of a prefix ends at the prefix without its trailing bytes ff and with its last byte raised by one; it has no end
/// where each byte is ff, and no start either where the prefix is empty.
pub fn prefix_ranges_end()
    ensures raised { (front : Bytes) (last count : ℕ) → last ≢ 255 → prefix_range (front ++ last ∷ replicate count 255)
        ≡ (Included (front ++ last ∷ replicate count 255), Excluded (front ++ (last + 1) ∷ [])) }
    ensures endless { (count : ℕ) → 0 < count → prefix_range (replicate count 255) ≡ (Included (replicate count 255), Unbounded) }
    ensures empty { prefix_range [] ≡ (Unbounded, Unbounded) }
{}

/// Within the range of a prefix are exactly the keys that begin with it, and within a range behind a prefix exactly those of
/// the range, each behind it.
pub fn keys_lie_behind_prefixes()
    ensures prefix { (prefix key : Bytes) → All (λ byte. byte < 256) key → is_within (prefix_range prefix) key ≡ begins_with prefix key }
    ensures behind { (prefix key : Bytes) (range : KeyRange) → All (λ byte. byte < 256) key
        → is_within (range_behind prefix range) key ≡ begins_with prefix key && is_within range (drop (length prefix) key) }
    ensures joined { (prefix key : Bytes) (range : KeyRange) → All (λ byte. byte < 256) (prefix ++ key)
        → is_within (range_behind prefix range) (prefix ++ key) ≡ is_within range key }
{}

/// The pairs between the bounds of a prefix are exactly those of the map whose keys begin with it.
pub fn pairs_lie_behind_prefixes()
    ensures { (prefix : Bytes) (pairs : Pairs) → HasByteKeys pairs
        → pairs_between (prefix_range prefix) pairs ≡ entries (retain_keys pairs (begins_with prefix)) }
{}
