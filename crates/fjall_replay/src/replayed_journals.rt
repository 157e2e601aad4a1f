//! Journals replayed one after another into trees over tables.

ghost use Rattle.std.specs.Prelude.{◌≡◌, ◌++◌, ◌<◌, ℕ, Bool, true, List, All, IsTrue, None, map, OnErr, OnOk, IsOkUnless};
ghost use Rattle.fjall_base.specs.Disk.{Meaning};
ghost use Rattle.fjall_meta.specs.Contents.{AreWithin, Stored};
ghost use Rattle.fjall_meta.specs.declared.recovery.Persisted.{Persisted};
ghost use Rattle.fjall_journal.specs.Batches.{Shown, view};
ghost use Rattle.fjall_meta.specs.Keyspaces.{Keyspaces};
ghost use Rattle.fjall_memtable.specs.Parts.{holds_nothing};
ghost use Rattle.fjall_replay.specs.Beside.{AreEndedBy, AreReplayedWith, MayFollow, all_at_rest};
ghost use Rattle.fjall_replay.specs.Parted.{ActivesPass};
ghost use Rattle.fjall_replay.specs.Replayed.{AreTold, MayReplay, ids_of};
ghost use Rattle.fjall_replay.specs.Steps.{with_batches};
ghost use Rattle.fjall_table.specs.Blocks.{Entry};
ghost use Rattle.fjall_trees.specs.Forests.{AreBefore};
ghost use Rattle.fjall_trees.specs.Sealing.{all_sealed, first_sealed};
ghost use Rattle.fjall_trees.specs.Tables.{AreReadOn};
ghost use Rattle.fjall_trees.specs.Views.{forest_of};
ghost use Rattle.fjall_meta.specs.Replays.{counts_unpersisted, first_fault, least_after};

use crate::replaying::take;
use fjall_base::{Error, Result};
use fjall_journal::Batch;
use fjall_meta::{MetaKeyspace, PersistedNumbers};
use fjall_trees::Trees;

/// Replays the batches of one journal, in order, behind those of the journals before it, into the trees of the keyspaces that
/// live, beyond what their files hold: `persisted` tells of each living keyspace up to which number that is. Where it doesn't,
/// nothing of it is held. Of each batch first its clears are taken and then its items, each under the batch's number.
///
/// Refuses for want of memory alone, and then doesn't tell what the active memtables hold.
pub fn replay_journal(
    keyspaces: &MetaKeyspace,
    persisted: &PersistedNumbers,
    batches: &[Batch],
    trees: &mut Trees,
) -> Result<()>
    requires fits { All (λ b. MayReplay (view b)) batches.now }
    requires behind { MayFollow persisted.now (map view batches.now) (forest_of trees.old) }
    ensures ok { (entries : ℕ → List (List Entry)) (stored : ℕ → Stored) (before : List Shown) → AreTold keyspaces.now stored persisted.now → AreWithin keyspaces.now stored
        → (least : ℕ) → first_fault least (before ++ map view batches.now) ≡ None → AreReplayedWith entries keyspaces.now stored before (forest_of trees.old)
        → OnOk result (AreReplayedWith entries keyspaces.now stored (before ++ map view batches.now) (forest_of trees.new)) }
    // Each batch is taken by itself, in the batches' order.
    ensures made { OnOk result (forest_of trees.new ≡ with_batches (counts_unpersisted keyspaces.now persisted.now) (map view batches.now) (forest_of trees.old)) }
    // Nothing of the trees changes but what is in their active memtables, which begin where they did.
    ensures rest { OnOk result (all_at_rest (forest_of trees.new) ≡ all_at_rest (forest_of trees.old)) }
    ensures ids { OnOk result (ids_of (forest_of trees.new) ≡ ids_of (forest_of trees.old)) }
    ensures reads { (disk : Meaning) (entries : ℕ → List (List Entry)) → AreReadOn disk (forest_of trees.old) entries
        → OnOk result (AreReadOn disk (forest_of trees.new) entries) }
    // All that comes into active memtables has a batch's number.
    ensures numbered { (test : ℕ → Bool) → ActivesPass test (forest_of trees.old) → All (λ b. test b.seqno ≡ true) batches.now
        → OnOk result (ActivesPass test (forest_of trees.new)) }
    // The next journal's batches go on behind these.
    ensures ended { (least : ℕ) → AreEndedBy persisted.now least (forest_of trees.old) → first_fault least (map view batches.now) ≡ None
        → OnOk result (AreEndedBy persisted.now (least_after least (map view batches.now)) (forest_of trees.new)) }
    ensures before { (bound : ℕ) → AreBefore bound (forest_of trees.old) → All (λ b. b.seqno < bound) batches.now
        → OnOk result (AreBefore bound (forest_of trees.new)) }
    ensures only { IsOkUnless result Error.OutOfMemory }
{
    for batch in batches {
        take(keyspaces, persisted, batch, trees)?;
    }
    Ok(())
}

/// Seals the active memtable of each tree where it holds something, so that what was replayed of a journal that is sealed stands
/// in memtables that are sealed.
///
/// Refuses for want of memory alone, and then those of the first trees are sealed, and the others are as they were.
pub fn seal_all(trees: &mut Trees) -> Result<()>
    ensures ok { OnOk result (forest_of trees.new ≡ all_sealed (forest_of trees.old)) }
    ensures err { OnErr result ((count : ℕ) × (forest_of trees.new ≡ first_sealed count (forest_of trees.old))) }
    ensures empty { OnOk result (All (λ k. IsTrue (holds_nothing k.shape.memory.active)) (forest_of trees.new)) }
    ensures ids { OnOk result (ids_of (forest_of trees.new) ≡ ids_of (forest_of trees.old)) }
    // What they show stays, what their tables hold, and where memory ends.
    ensures shows { (entries : ℕ → List (List Entry)) (s : Keyspaces) (stored : ℕ → Stored) (batches : List Shown) → AreReplayedWith entries s stored batches (forest_of trees.old)
        → OnOk result (AreReplayedWith entries s stored batches (forest_of trees.new)) }
    ensures reads { (disk : Meaning) (entries : ℕ → List (List Entry)) → AreReadOn disk (forest_of trees.old) entries
        → OnOk result (AreReadOn disk (forest_of trees.new) entries) }
    ensures ended { (persisted : List Persisted) (least : ℕ) → AreEndedBy persisted least (forest_of trees.old)
        → OnOk result (AreEndedBy persisted least (forest_of trees.new)) }
    ensures before { (bound : ℕ) → AreBefore bound (forest_of trees.old) → OnOk result (AreBefore bound (forest_of trees.new)) }
    ensures only { IsOkUnless result Error.OutOfMemory }
{
    trees.rotate_memtables()?;
    Ok(())
}
