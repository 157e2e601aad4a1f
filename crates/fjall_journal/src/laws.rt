//! What holds of the definitions.

ghost use Rattle.std.specs.Prelude.{◌≡◌, ◌<◌, ℕ, List, [], ◌∷◌, ◌++◌, ◌+◌, length, slice_index};
ghost use Rattle.std.specs.List.{flat_map, AllByRecursion};
ghost use Rattle.fjall_journal.specs.declared.entry.Entry.{Entry};
ghost use Rattle.fjall_journal.specs.declared.batch.Tail.{Tail};
ghost use Rattle.fjall_journal.specs.Spelling.{IsSpelling};
ghost use Rattle.fjall_journal.specs.Batches.{Written, IsWritten, batch_text, IsWhole, IsAll, IsTail, NoneAt, KeptBatches};

/// No spelling begins another, and none is of two entries.
pub fn one_spelling()
    ensures { (a b : Entry) (s t x y : List ℕ) → IsSpelling s a → IsSpelling t b → s ++ x ≡ t ++ y → (a ≡ b) × (s ≡ t) }
{}

/// Where no batch stands there is one tail.
pub fn one_tail()
    ensures { (bytes : List ℕ) (t u : Tail) → ((i : ℕ) → slice_index bytes i < 256) → NoneAt bytes → IsTail bytes t → IsTail bytes u → t ≡ u }
{}

/// A text holds one list of batches, with one end.
pub fn one_reading()
    ensures { (text : List ℕ) (bs others : List Written) (end other : ℕ) → IsWhole text bs end → IsWhole text others other → (bs ≡ others) × (end ≡ other) }
{}

/// The text of batches is whole.
pub fn texts_are_whole()
    ensures { (bs : List Written) → AllByRecursion IsWritten bs → IsAll (flat_map batch_text bs) bs }
{}

/// A text that is whole to its end, and one more batch's text, is whole to its end with that batch more.
pub fn whole_grows()
    ensures { (text : List ℕ) (bs : List Written) (b : Written) → IsAll text bs → IsWritten b → IsAll (text ++ batch_text b) (bs ++ b ∷ []) }
{}

/// A text that stands behind whole batches keeps its own.
pub fn whole_behind()
    ensures { (first bs : List Written) (text : List ℕ) (end : ℕ) → AllByRecursion IsWritten first → IsWhole text bs end
        → IsWhole (flat_map batch_text first ++ text) (first ++ bs) (length (flat_map batch_text first) + end) }
{}

/// A text of batches that is cut anywhere reads as the first of them, with a clean or a torn tail.
pub fn cut_reads()
    ensures { (bs : List Written) (text lost : List ℕ) → AllByRecursion IsWritten bs → text ++ lost ≡ flat_map batch_text bs → KeptBatches bs text }
{}
