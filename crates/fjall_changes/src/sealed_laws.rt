//! What holds of the journals across a rotation and an eviction.

ghost use Rattle.std.specs.Prelude.{◌≡◌, ◌≤◌, ◌<◌, ◌^◌, ◌∷◌, ◌++◌, ℕ, Bool, List, [], None, codes, length, map, take, true};
ghost use Rattle.std.specs.List.{AllByRecursion};
ghost use Rattle.fjall_base.specs.Disk.{DiskState, Image, IsNoFolder};
ghost use Rattle.fjall_base.specs.Store.{Store, fold, kept};
ghost use Rattle.fjall_manifest.specs.Catalog.{fields};
ghost use Rattle.fjall_meta.specs.Contents.{journal_beyond};
ghost use Rattle.fjall_files.specs.Names.{journal_name};
ghost use Rattle.fjall_files.specs.Tidy.{IsTidy};
ghost use Rattle.fjall_journal.specs.Batches.{Shown, Written, shown};
ghost use Rattle.fjall_journal.specs.Writer as writers;
ghost use Rattle.fjall_files.specs.Journals.{Sealed, going, may_go, staying};
ghost use Rattle.fjall_files.specs.Marks.{IsRaised, JournalMarks};
ghost use Rattle.fjall_files.specs.Rotations.{sealed_of};
ghost use Rattle.fjall_recovery.specs.Amid.{StandsAmid};
ghost use Rattle.fjall_recovery.specs.Folders.{number_of_contents, past_records, store_of_contents};
ghost use Rattle.fjall_recovery.specs.Halves.{Tree};
ghost use Rattle.fjall_recovery.specs.Homes.{HaveVersions, lasts, stored_in};
ghost use Rattle.fjall_recovery.specs.Journals.{WholeJournal, batches_in};
ghost use Rattle.fjall_recovery.specs.Places.{Journaling, RestsInTree, contents_with, journals_with};
ghost use Rattle.fjall_manifest.specs.Records.{Fields};
ghost use Rattle.fjall_meta.specs.Replays.{first_fault};
ghost use Rattle.fjall_changes.specs.Evictions.{LeavesEviction, evicted};
ghost use Rattle.fjall_changes.specs.Journaling.{CanFollow, next_number};
ghost use Rattle.fjall_changes.specs.Rotations.{LeavesRotation, ListsSealed, rotated};
ghost use Rattle.fjall_changes.specs.Watermarks.{AreMarked, AreMarksOf, AreRaised, AreStored, TellsTrue, changed_by};

/// A rotation leaves the batches that the journals hold, the number of the next one, and the store and the greatest number of
/// the folder. What was pending on a base is in the store then.
pub fn a_rotation_keeps_all()
    ensures batches { (j : Journaling) → batches_in (journals_with (rotated j) []) ≡ batches_in (journals_with j j.later) }
    ensures next { (j : Journaling) → next_number (rotated j) ≡ next_number j }
    ensures store { (j : Journaling) (t : Tree) → store_of_contents (contents_with (rotated j) t []) ≡ store_of_contents (contents_with j t j.later) }
    ensures number { (j : Journaling) (t : Tree) → number_of_contents (contents_with (rotated j) t []) ≡ number_of_contents (contents_with j t j.later) }
    ensures pending { (j : Journaling) (t : Tree) (base : Store) → HaveVersions t.homes t.versions
        → first_fault 0 (map shown (batches_in (journals_with j j.later))) ≡ None → kept base ≡ store_of_contents (contents_with j t [])
        → kept (fold base (journal_beyond t.keyspaces (stored_in t.homes t.versions) (map shown j.later))) ≡ store_of_contents (contents_with (rotated j) t []) }
{}

/// The oldest journals may go where none of their items and clears counts beyond what is stored: the store stays, whatever
/// stands behind the synced batches, and so does what is still pending. The greatest number of the folder stays where a record
/// knows a number as great as those of the batches that go. The batches that stay have no fault, and what could follow all of
/// them can follow these.
pub fn stored_journals_may_go()
    ensures store { (j : Journaling) (t : Tree) (n : ℕ) (behind : List Written) → AreStored t (batches_in (take n j.sealed))
        → store_of_contents (contents_with (evicted n j) t behind) ≡ store_of_contents (contents_with j t behind) }
    ensures number { (j : Journaling) (t : Tree) (n : ℕ) (behind : List Written)
        → AllByRecursion (λ b. b.number < past_records (fields t.last ∷ lasts t.keyspaces.living t.homes)) (batches_in (take n j.sealed))
        → number_of_contents (contents_with (evicted n j) t behind) ≡ number_of_contents (contents_with j t behind) }
    ensures sound { (j : Journaling) (n : ℕ) (behind : List Written) → first_fault 0 (map shown (batches_in (journals_with j behind))) ≡ None
        → first_fault 0 (map shown (batches_in (journals_with (evicted n j) behind))) ≡ None }
    ensures next { (j : Journaling) (n seqno : ℕ) → CanFollow j seqno → CanFollow (evicted n j) seqno }
    ensures pending { (j : Journaling) (t : Tree) (n : ℕ)
        → journal_beyond t.keyspaces (stored_in t.homes t.versions) (map shown (evicted n j).later)
        ≡ journal_beyond t.keyspaces (stored_in t.homes t.versions) (map shown j.later) }
{}

/// Where watermarks tell of each id the greatest number of a batch that changes it, and the answers of what is flushed are true,
/// nothing of a journal that may go counts beyond what is stored; so neither does anything of the journals that an eviction
/// removes, nor of those that it has removed so far.
pub fn watermarks_tell_what_may_go()
    ensures one { (flushed : ℕ → ℕ → Bool) (t : Tree) (sealed : Sealed) (journal : WholeJournal) → TellsTrue flushed t
        → AreMarksOf (map shown journal.batches) sealed.watermarks → may_go flushed sealed ≡ true → AreStored t journal.batches }
    ensures all { (flushed : ℕ → ℕ → Bool) (t : Tree) (sealed : List Sealed) (j : Journaling) (n : ℕ) → TellsTrue flushed t
        → AreMarked sealed j.sealed → n ≤ length (going flushed sealed) → AreStored t (batches_in (take n j.sealed)) }
{}

/// Watermarks that tell of the sealed journals do so after a rotation, where those of the active journal tell of its batches, and
/// after an eviction; and they tell which journals are sealed.
pub fn watermarks_go_with_their_journals()
    ensures told { (sealed : List Sealed) (j : Journaling) → AreMarked sealed j.sealed → ListsSealed sealed j }
    ensures rotation { (sealed : List Sealed) (j : Journaling) (writer : writers.Journal) (marks : JournalMarks) → AreMarked sealed j.sealed
        → AreMarksOf (map shown (j.whole ++ j.later)) marks
        → AreMarked (sealed ++ sealed_of j.active writer marks ∷ []) (rotated j).sealed }
    ensures eviction { (flushed : ℕ → ℕ → Bool) (sealed : List Sealed) (j : Journaling) → AreMarked sealed j.sealed
        → AreMarked (staying flushed sealed) (evicted (length (going flushed sealed)) j).sealed }
{}

/// Over keyspaces that rest, whatever a crash during a rotation or an eviction leaves stands for a base that keeps the store of
/// the synced batches, with a beginning of what the later ones command: nothing that was synced is lost.
pub fn crashes_keep_what_was_synced()
    ensures rotation { (state : DiskState) (j : Journaling) (records : List Fields) (t : Tree) (base : Store) (image : Image) → RestsInTree state records t
        → kept base ≡ store_of_contents (contents_with j t []) → LeavesRotation state j image
        → StandsAmid base [] (journal_beyond t.keyspaces (stored_in t.homes t.versions) (map shown j.later)) image }
    ensures eviction { (state : DiskState) (j : Journaling) (most : ℕ) (records : List Fields) (t : Tree) (base : Store) (image : Image) → RestsInTree state records t
        → kept base ≡ store_of_contents (contents_with j t []) → AreStored t (batches_in (take most j.sealed)) → LeavesEviction state j most image
        → StandsAmid base [] (journal_beyond t.keyspaces (stored_in t.homes t.versions) (map shown j.later)) image }
{}

/// Where only what fits stands at each name, no folder stands in the place of a journal; and where the keyspaces rest, the name
/// of their folder is synced, so that a rotation and an eviction leave all in it as it stands.
pub fn a_rotation_finds_room()
    ensures journal { (state : DiskState) (id : ℕ) → IsTidy state → id < 2 ^ 64 → IsNoFolder (state (journal_name id)).now }
    ensures keyspaces { (state : DiskState) (records : List Fields) (t : Tree) → RestsInTree state records t → (state (codes "keyspaces")).older ≡ [] }
{}

/// An empty journal has no watermarks. With each batch those of the keyspaces that it changes are raised to its number, one
/// after another: then they are the watermarks of the journal with it.
pub fn watermarks_are_raised()
    ensures none { AreMarksOf [] [] }
    ensures first { (number : ℕ) (marks : JournalMarks) → AreRaised [] number marks marks }
    ensures another { (ids : List ℕ) (id number : ℕ) (old mid new : JournalMarks) → AreRaised ids number old mid → IsRaised id number mid new
        → AreRaised (ids ++ id ∷ []) number old new }
    ensures batch { (batches : List Shown) (b : Shown) (old new : JournalMarks) → AreMarksOf batches old → AreRaised (changed_by b) b.number old new
        → AreMarksOf (batches ++ b ∷ []) new }
{}
