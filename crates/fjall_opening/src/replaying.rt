//! The journals of a folder, replayed one after another, batch by batch.

ghost use Rattle.std.specs.Prelude.{◌≡◌, ◌<◌, ◌≤◌, ◌+◌, ◌++◌, ◌∷◌, Bool, [], false, true, not, ℕ, List, IfErr, IfOk, IsOkUnless, IsTrue, MatchOption, None, OnOk, Some, drop, length, map, slice_get, take};
ghost use Rattle.std.specs.List.{AllByRecursion, flat_map};
ghost use Rattle.fjall_base.specs.declared.error.Error.{Error};
ghost use Rattle.fjall_base.specs.Disk.{Took};
ghost use Rattle.fjall_files.specs.Calls.{seen, AllServed};
ghost use Rattle.fjall_journal.specs.Batches.{Shown, Written, IsWritten, batch_text, shown, view};
ghost use Rattle.fjall_meta.specs.Replays.{counts_unpersisted};
ghost use Rattle.fjall_files.specs.Journals.{Sealed};
ghost use Rattle.fjall_files.specs.Marks.{JournalMarks};
ghost use Rattle.fjall_files.specs.Reaching.{reaches, some_reaches};
ghost use Rattle.fjall_recovery.specs.Journals.{IsSealed, WholeJournal, batches_in, journal_text};
ghost use Rattle.fjall_recovery.specs.Refusals.{HasRisen, IsDue, IsOpeningRefusal};
ghost use Rattle.fjall_replay.specs.Beside.{AreEndedBy};
ghost use Rattle.fjall_replay.specs.Parted.{ArePartedBy, AreUnwritten, with_journals};
ghost use Rattle.fjall_recovery.specs.Told.{TellOf};
ghost use Rattle.fjall_trees.specs.Forests.{AreBefore, Forest};
ghost use Rattle.fjall_trees.specs.Sealing.{all_sealed};
ghost use Rattle.fjall_trees.specs.Views.{forest_of};
ghost use Rattle.fjall_opening.specs.Replaying.{AreAt, ArePast, IsHeldBy, IsReplayed, IsTextOf, IsUnderway, MayGoOn, MayTake, made_of, tell_up_to};

use crate::sizes::is_fit;
use bytes::Bytes;
use fjall_base::{Disk, Error, Result};
use fjall_files::{JournalManager, journal_name};
use fjall_journal::{Batch, KnownBatches};
use fjall_meta::{MetaKeyspace, PersistedNumbers, check_batches};
use fjall_recovery::read_text;
use fjall_replay::{replay_journal, seal_all};
use fjall_trees::Trees;
use std::alloc::Global;
use std::slice;

/// What a replay goes by.
#[derive(Drop)]
pub(crate) struct Replay<'a> {
    /// The keyspaces that live.
    pub keyspaces: &'a MetaKeyspace,
    /// Up to which number each of them is persisted.
    pub persisted: &'a PersistedNumbers,
    /// The sealed journals, the oldest first.
    pub sealed: &'a JournalManager,
    /// The batches are numbered below it.
    pub bound: u64,
}

/// How far a replay is.
#[derive(Drop)]
pub(crate) struct Progress {
    /// The trees, with all that was replayed.
    pub trees: Trees,
    /// So many of the sealed journals are behind it: what they made is sealed.
    pub place: usize,
    /// The least number that the next batch may have.
    pub least: u64,
}

// The first bytes of a text, up to an end, where there is one.
fn whole_part(text: Bytes, end: Option<usize>) -> Bytes
    ensures { MatchOption end (result ≡ text) (λ n. result ≡ take n text) }
{
    let mut part = text;
    if let Some(end) = end {
        part.truncate(end);
    }
    part
}

impl<'a> Replay<'a> {
    // Whether the sealed journal at this place has no watermark that reaches the number, so that it ends before it.
    fn ends_before(&self, place: usize, number: u64) -> bool
        ensures left { IsTrue result → (journal : Sealed) × (slice_get self.now.sealed.now place ≡ Some journal) × (reaches journal.watermarks number ≡ false) }
        ensures here { (journal : Sealed) → slice_get self.now.sealed.now place ≡ Some journal → reaches journal.watermarks number ≡ false → IsTrue result }
        ensures told { (journal : Sealed) → slice_get self.now.sealed.now place ≡ Some journal → tell_up_to journal.watermarks number ≡ not result }
    {
        match self.sealed.journals().get(place) {
            Some(journal) => !journal.watermarks().reaches(number),
            None => false,
        }
    }

    // Seals what the next sealed journal made.
    fn seal_next(&self, progress: &mut Progress) -> Result<()>
        requires { progress.old.place < length self.now.sealed.now }
        ensures ok { (loaded : Forest) (front : List Shown) → AreAt self.now loaded front progress.old.place (forest_of progress.old.trees)
            → OnOk result (AreAt self.now loaded front progress.new.place (forest_of progress.new.trees)) }
        ensures sealed { OnOk result (forest_of progress.new.trees ≡ all_sealed (forest_of progress.old.trees)) }
        ensures place { OnOk result (progress.new.place ≡ progress.old.place + 1) }
        ensures least { progress.new.least ≡ progress.old.least }
        ensures ended { MayGoOn self.now progress.old → OnOk result (MayGoOn self.now progress.new) }
        ensures only { IsOkUnless result Error.OutOfMemory }
    {
        let count = self.sealed.journals().len();
        prove!(progress.place < count);
        seal_all(&mut progress.trees)?;
        progress.place += 1;
        Ok(())
    }

    // Seals what those made that end before a number, from which on none of the journals behind reaches one.
    fn seal_before(&self, progress: &mut Progress, number: u64) -> Result<()>
        ensures ok { (loaded : Forest) (front : List Shown) → AreAt self.now loaded front progress.old.place (forest_of progress.old.trees)
            → OnOk result (AreAt self.now loaded front progress.new.place (forest_of progress.new.trees)) }
        ensures past { ArePast self.now progress.old.place number → OnOk result (ArePast self.now progress.new.place number) }
        ensures here { (journal : Sealed) → OnOk result (slice_get self.now.sealed.now progress.new.place ≡ Some journal → reaches journal.watermarks number ≡ true) }
        // Each of them is one that has no batch of that number any more, and for each all is sealed once.
        ensures told { (journal : Sealed) → OnOk result (slice_get self.now.sealed.now progress.new.place ≡ Some journal → tell_up_to journal.watermarks number ≡ true) }
        ensures made { (counted : ℕ → ℕ → Bool) (batch : Shown) (rest : List Shown) → batch.number ≡ number
            → OnOk result (made_of counted (drop progress.new.place self.now.sealed.now) (batch ∷ rest) (forest_of progress.new.trees)
            ≡ made_of counted (drop progress.old.place self.now.sealed.now) (batch ∷ rest) (forest_of progress.old.trees)) }
        ensures least { progress.new.least ≡ progress.old.least }
        ensures ended { MayGoOn self.now progress.old → OnOk result (MayGoOn self.now progress.new) }
        ensures only { IsOkUnless result Error.OutOfMemory }
    {
        'sealing: while self.ends_before(progress.place, number) {
            self.seal_next(progress)?;
        }
        Ok(())
    }

    // Takes the next batch. Of what an honest disk holds none is refused.
    fn take(&self, progress: &mut Progress, batch: &Batch) -> Result<()>
        requires { MayGoOn self.now progress.old }
        ensures ok { (loaded : Forest) (front : List Shown) → IsUnderway self.now loaded front progress.old
            → OnOk result (IsUnderway self.now loaded (front ++ view batch.now ∷ []) progress.new) }
        ensures ended { OnOk result (MayGoOn self.now progress.new) }
        ensures least { OnOk result (progress.new.least ≡ batch.now.seqno + 1) }
        ensures only { MayTake self.now progress.old.least (view batch.now ∷ []) → IsOkUnless result Error.OutOfMemory }
        ensures risen { (faults : ℕ) → IfErr result (HasRisen faults faults) }
        ensures listed { IfErr result IsOpeningRefusal }
    {
        let one = slice::from_ref(batch);
        if batch.seqno >= self.bound || !is_fit(batch) {
            return Err(Error::Unrecoverable);
        }
        let least = check_batches(one, progress.least)?;
        self.seal_before(progress, batch.seqno)?;
        replay_journal(self.keyspaces, self.persisted, one, &mut progress.trees)?;
        progress.least = least;
        Ok(())
    }

    // Takes the batches of a text that was read before. Of another text some batches or none.
    fn replay_text(&self, alloc: Global, progress: &mut Progress, text: &Bytes) -> Result<()>
        requires { MayGoOn self.now progress.old }
        ensures ok { (batches : List Written) (loaded : Forest) (front : List Shown) → AllByRecursion IsWritten batches → text.now ≡ flat_map batch_text batches
            → IsUnderway self.now loaded front progress.old → OnOk result (IsUnderway self.now loaded (front ++ map shown batches) progress.new) }
        ensures some { (loaded : Forest) (front : List Shown) → IsUnderway self.now loaded front progress.old
            → OnOk result ((more : List Shown) × IsUnderway self.now loaded (front ++ more) progress.new) }
        ensures ended { OnOk result (MayGoOn self.now progress.new) }
        ensures only { (batches : List Written) → AllByRecursion IsWritten batches → text.now ≡ flat_map batch_text batches
            → MayTake self.now progress.old.least (map shown batches) → IsOkUnless result Error.OutOfMemory }
        ensures risen { (faults : ℕ) → IfErr result (HasRisen faults faults) }
        ensures listed { IfErr result IsOpeningRefusal }
    {
        let mut reader = KnownBatches::new(alloc, text);
        'batches: while let Some(batch) = reader.next_batch()? {
            self.take(progress, &batch)?;
        }
        Ok(())
    }

    // Takes the batches of a journal that was read before, up to the end of its whole batches, where something stands behind it.
    fn replay_file<D: Disk>(
        &self,
        alloc: Global,
        disk: &mut D,
        progress: &mut Progress,
        id: u64,
        end: Option<usize>,
    ) -> Result<()>
        requires { MayGoOn self.now progress.old }
        ensures ok { IsTrue D.honest → (batches : List Written) (loaded : Forest) (front : List Shown) → AllByRecursion IsWritten batches
            → IsTextOf batches end (journal_text (seen (D.meaning disk.old)) id)
            → IsUnderway self.now loaded front progress.old → OnOk result (IsUnderway self.now loaded (front ++ map shown batches) progress.new) }
        ensures some { (loaded : Forest) (front : List Shown) → IsUnderway self.now loaded front progress.old
            → OnOk result ((more : List Shown) × IsUnderway self.now loaded (front ++ more) progress.new) }
        ensures ended { OnOk result (MayGoOn self.now progress.new) }
        ensures due { IsTrue D.honest → (batches : List Written) → AllByRecursion IsWritten batches
            → IsTextOf batches end (journal_text (seen (D.meaning disk.old)) id)
            → MayTake self.now progress.old.least (map shown batches) → IfErr result (IsDue (λ error. ⊥)) }
        ensures same { IsTrue D.honest → Took (D.meaning disk.old) (D.meaning disk.new) [] }
        ensures served { IsTrue D.honest → AllServed (D.meaning disk.old) (D.meaning disk.new) }
        ensures later { (D.meaning disk.old).faults ≤ (D.meaning disk.new).faults }
        ensures risen { IfErr result (HasRisen (D.meaning disk.old).faults (D.meaning disk.new).faults) }
        ensures listed { IfErr result IsOpeningRefusal }
    {
        let name = journal_name(alloc, id)?;
        let text = Bytes::from_vec(read_text(alloc, disk, &name)?)?;
        let batches = whole_part(text, end);
        self.replay_text(alloc, progress, &batches)
    }

    // Takes the batches of sealed journals, one after another.
    fn replay_sealed<D: Disk>(
        &self,
        alloc: Global,
        disk: &mut D,
        progress: &mut Progress,
        ids: &[u64],
    ) -> Result<()>
        requires { MayGoOn self.now progress.old }
        ensures ok { IsTrue D.honest → (journals : List WholeJournal) (loaded : Forest) (front : List Shown) → map (λ j. j.id) journals ≡ ids.now
            → AllByRecursion (IsSealed (seen (D.meaning disk.old))) journals → IsUnderway self.now loaded front progress.old
            → OnOk result (IsUnderway self.now loaded (front ++ map shown (batches_in journals)) progress.new) }
        ensures some { (loaded : Forest) (front : List Shown) → IsUnderway self.now loaded front progress.old
            → OnOk result ((more : List Shown) × IsUnderway self.now loaded (front ++ more) progress.new) }
        ensures ended { OnOk result (MayGoOn self.now progress.new) }
        ensures due { IsTrue D.honest → (journals : List WholeJournal) (loaded : Forest) (front : List Shown) → map (λ j. j.id) journals ≡ ids.now
            → AllByRecursion (IsSealed (seen (D.meaning disk.old))) journals → IsUnderway self.now loaded front progress.old
            → MayTake self.now progress.old.least (map shown (batches_in journals)) → IfErr result (IsDue (λ error. ⊥)) }
        ensures same { IsTrue D.honest → Took (D.meaning disk.old) (D.meaning disk.new) [] }
        ensures served { IsTrue D.honest → AllServed (D.meaning disk.old) (D.meaning disk.new) }
        ensures later { (D.meaning disk.old).faults ≤ (D.meaning disk.new).faults }
        ensures risen { IfErr result (HasRisen (D.meaning disk.old).faults (D.meaning disk.new).faults) }
        ensures listed { IfErr result IsOpeningRefusal }
    {
        for id in ids {
            self.replay_file(alloc, disk, progress, *id, None)?;
        }
        Ok(())
    }

    // Seals what the sealed journals made that aren't behind yet.
    fn finish(&self, progress: Progress) -> Result<Trees>
        ensures ok { (loaded : Forest) (front : List Shown) → AreAt self.now loaded front progress.place (forest_of progress.trees)
            → IfOk result (λ trees. IsReplayed self.now.keyspaces.now self.now.persisted.now loaded front (forest_of trees)) }
        ensures before { (loaded : Forest) (front : List Shown) → AreAt self.now loaded front progress.place (forest_of progress.trees)
            → IfOk result (λ trees. AreBefore self.now.bound loaded → AreBefore self.now.bound (forest_of trees)) }
        ensures parted { (loaded : Forest) (front : List Shown) → AreAt self.now loaded front progress.place (forest_of progress.trees)
            → IfOk result (λ trees. ArePartedBy (some_reaches self.now.sealed.now) (forest_of trees)) }
        ensures made { (counted : ℕ → ℕ → Bool)
            → IfOk result (λ trees. forest_of trees ≡ made_of counted (drop progress.place self.now.sealed.now) [] (forest_of progress.trees)) }
        ensures only { IsOkUnless result Error.OutOfMemory }
    {
        let mut rest = progress;
        'sealing: while rest.place < self.sealed.journals().len() {
            self.seal_next(&mut rest)?;
        }
        Ok(rest.trees)
    }

    /// Replays the journals of these ids, which were read before, into these trees of the keyspaces that live, each batch beyond its
    /// keyspace's persisted number. The last one is active, and its whole batches end there. Behind each of the sealed ones what it
    /// made is sealed, so that a flush takes it; what the active one made isn't.
    ///
    /// One journal's text at a time is in memory, and one of its batches, whose keys and values are parts of it: the trees copy
    /// them. The checks of the batches are passed over: they were taken when the journals were read.
    pub(crate) fn replay_journals<D: Disk>(
        &self,
        alloc: Global,
        disk: &mut D,
        ids: &[u64],
        end: usize,
        loaded: Trees,
    ) -> Result<Trees>
        requires ended { AreEndedBy self.now.persisted.now 0 (forest_of loaded) }
        requires unwritten { AreUnwritten (forest_of loaded) }
        ensures ok { IsTrue D.honest → (journals : List WholeJournal) (torn : Bool) → IsHeldBy (seen (D.meaning disk.old)) ids.now end torn journals
            → IfOk result (λ trees. IsReplayed self.now.keyspaces.now self.now.persisted.now (forest_of loaded) (map shown (batches_in journals)) (forest_of trees)) }
        ensures some { IfOk result (λ trees. (front : List Shown) × IsReplayed self.now.keyspaces.now self.now.persisted.now (forest_of loaded) front (forest_of trees)) }
        // What is numbered up to a watermark of a sealed journal is in sealed memtables, and all else in active ones.
        ensures parted { IfOk result (λ trees. ArePartedBy (some_reaches self.now.sealed.now) (forest_of trees)) }
        // They are what one journal after another makes of those that were loaded: all is sealed once behind each sealed one, and never
        // within one.
        ensures made { IsTrue D.honest → (journals : List WholeJournal) (torn : Bool) (marks : JournalMarks) → IsHeldBy (seen (D.meaning disk.old)) ids.now end torn journals
            → TellOf journals self.now.sealed.now marks
            → IfOk result (λ trees. forest_of trees ≡ with_journals (counts_unpersisted self.now.keyspaces.now self.now.persisted.now) journals (forest_of loaded)) }
        ensures below { AreBefore self.now.bound (forest_of loaded) → IfOk result (λ trees. AreBefore self.now.bound (forest_of trees)) }
        ensures due { IsTrue D.honest → (journals : List WholeJournal) (torn : Bool) → IsHeldBy (seen (D.meaning disk.old)) ids.now end torn journals
            → MayTake self.now 0 (map shown (batches_in journals)) → IfErr result (IsDue (λ error. ⊥)) }
        ensures same { IsTrue D.honest → Took (D.meaning disk.old) (D.meaning disk.new) [] }
        ensures served { IsTrue D.honest → AllServed (D.meaning disk.old) (D.meaning disk.new) }
        ensures later { (D.meaning disk.old).faults ≤ (D.meaning disk.new).faults }
        ensures risen { IfErr result (HasRisen (D.meaning disk.old).faults (D.meaning disk.new).faults) }
        ensures listed { IfErr result IsOpeningRefusal }
    {
        let mut progress = Progress {
            trees: loaded,
            place: 0,
            least: 0,
        };
        if let [sealed @ .., active] = ids {
            self.replay_sealed(alloc, disk, &mut progress, sealed)?;
            self.replay_file(alloc, disk, &mut progress, *active, Some(end))?;
        }
        self.finish(progress)
    }
}
