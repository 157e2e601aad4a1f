//! What holds of watermarks.

ghost use Rattle.std.specs.Prelude.{◌∷◌, ◌++◌, [], List, ℕ, map};
ghost use Rattle.fjall_journal.specs.Batches.{Shown, Written, shown};
ghost use Rattle.fjall_journal.specs.Changes.{Change, of_change};
ghost use Rattle.fjall_files.specs.Marks.{JournalMarks, lsn_of};
ghost use Rattle.fjall_files.specs.Places.{marked};
ghost use Rattle.fjall_files.specs.Telling.{AreMarksOf, IsGreatest};

/// A watermark of batches is the number of one that changes the keyspace, and none that does has a greater one; there is
/// none where no batch changes it.
pub fn a_watermark_is_the_greatest_number()
    ensures { (batches : List Shown) (marks : JournalMarks) → AreMarksOf batches marks → (id : ℕ) → IsGreatest batches id (lsn_of marks id) }
{}

/// Watermarks that tell of some batches tell of that of a change too, once those of the keyspaces that it changes are raised to
/// its number.
pub fn a_change_raises_its_watermarks()
    ensures { (batches : List Written) (change : Change) (number : ℕ) (marks : JournalMarks) → AreMarksOf (map shown batches) marks
        → AreMarksOf (map shown (batches ++ of_change change number ∷ [])) (marked number change marks) }
{}
