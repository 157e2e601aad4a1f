//! What holds of parts that stand apart.

ghost use Rattle.std.specs.Prelude.{◌<◌, ◌≤◌, ◌++◌, ◌∷◌, ℕ, List};
ghost use Rattle.std.specs.List.{All};
ghost use Rattle.fjall_memtable.specs.Parts.{AreApart, HeldPart, IsHeld, clears_in, versions_in};
ghost use Rattle.fjall_memtable.specs.Jobs.{AreBelow, AreFrom, OnceEach};

/// Where a part begins, the numbers of all parts before it end, and those of all parts from it on begin.
pub fn parts_stand_apart()
    ensures below { (front behind : List HeldPart) (h : HeldPart) → All IsHeld (front ++ h ∷ behind) → AreApart (front ++ h ∷ behind)
        → AreBelow h.from (versions_in front) }
    ensures from { (front behind : List HeldPart) (h : HeldPart) → All IsHeld (front ++ h ∷ behind) → AreApart (front ++ h ∷ behind)
        → AreFrom h.from (versions_in (h ∷ behind)) }
    ensures clears_below { (front behind : List HeldPart) (h : HeldPart) → All IsHeld (front ++ h ∷ behind) → AreApart (front ++ h ∷ behind)
        → All (λ n. n < h.from) (clears_in front) }
    ensures clears_from { (front behind : List HeldPart) (h : HeldPart) → All IsHeld (front ++ h ∷ behind) → AreApart (front ++ h ∷ behind)
        → All (λ n. h.from ≤ n) (clears_in (h ∷ behind)) }
{}

/// No key has two versions of one number in them.
pub fn parts_have_each_version_once()
    ensures { (parts : List HeldPart) → All IsHeld parts → AreApart parts → OnceEach (versions_in parts) }
{}
