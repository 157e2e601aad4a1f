//! A folder mended: a crash at any moment of it leaves the same store.

ghost use Rattle.std.specs.Prelude.{◌≡◌, ℕ, IfOk, IsOkUnless, IsTrue, OnOk, Some, string_bytes, ◌<◌, ◌^◌};
ghost use Rattle.fjall_base.specs.Disk.{Image, LeavesOnly, OnlyFaults, state_in};
ghost use Rattle.fjall_files.specs.Calls.{seen, AllServed};
ghost use Rattle.fjall_files.specs.Names.{current_name, table_name};
ghost use Rattle.fjall_files.specs.Tidy.{IsTidy, StaysTidy};
ghost use Rattle.fjall_recovery.specs.Amid.{LeavesAmid, KeepsAmid, WhereAmid};
ghost use Rattle.fjall_recovery.specs.declared.folder.RecoveredFolder.{RecoveredFolder};
ghost use Rattle.fjall_recovery.specs.Folders.{ImageStandsFor, IsFinished, store_of_contents};
ghost use Rattle.fjall_recovery.specs.Held.{Holds};
ghost use Rattle.fjall_repair.specs.Sweeps.{KeyspaceLives};
ghost use Rattle.fjall_opening.specs.Readings.{WhereOpenable, WhereRead, WhereSound};
ghost use Rattle.fjall_repair.specs.Mended.{IsMended, IsMendingOf};

use fjall_base::{Disk, Error, Result};
use fjall_recovery::RecoveredFolder;
use fjall_repair::{MendPlan, carry_out, plan_of};
use std::alloc::Global;

/// Finds out what is to be done to a folder that was read, and gets all memory for it. It refuses with `OutOfMemory` alone.
pub fn plan_mending(alloc: Global, found: &RecoveredFolder) -> Result<MendPlan>
    ensures plan { (image : Image) → IsFinished image found.now → IfOk result (IsMendingOf image found.now) }
    ensures only { IsOkUnless result Error.OutOfMemory }
{
    plan_of(alloc, found)
}

/// Mends a folder by the plan that was made of it, so that all that counts lies whole and synced.
///
/// The torn tail of the active journal and unfinished records are cut; where there is no journal, `1.jnl` is made; each
/// file and folder that counts is synced, the folders first. Whatever a crash leaves at any moment of the call, also of
/// one that fails, stands for the store that the folder stood for. Tables stay as they are.
///
/// It refuses with `Io` alone, for a fault of the disk, after which the folder is to be read anew.
pub fn mend<D: Disk>(disk: &mut D, plan: &MendPlan) -> Result<()>
    ensures any_moment { IsTrue D.honest → (found : RecoveredFolder)
        → WhereRead (D.meaning disk.old) found (λ c. IsMendingOf (seen (D.meaning disk.old)) found plan.now
        → Holds (state_in (D.meaning disk.old)) (Some c) → LeavesOnly (D.meaning disk.old) (D.meaning disk.new) (λ image. ImageStandsFor image (store_of_contents c))) }
    ensures ok { IsTrue D.honest → (found : RecoveredFolder) → WhereRead (D.meaning disk.old) found (λ c. IsMendingOf (seen (D.meaning disk.old)) found plan.now
        → Holds (state_in (D.meaning disk.old)) (Some c) → OnOk result (IsMended (state_in (D.meaning disk.new)) found c (string_bytes plan.now.active))) }
    ensures tables { IsTrue D.honest → (image : Image) (found : RecoveredFolder) → IsMendingOf image found plan.now
        → (id n : ℕ) → (state_in (D.meaning disk.new) (table_name id n)).now ≡ (state_in (D.meaning disk.old) (table_name id n)).now }
    ensures cause { OnlyFaults (D.meaning disk.old) (D.meaning disk.new) result }
    // The same where a crash of the disk leaves different stores: the base with a beginning of the pending commands.
    ensures amid { IsTrue D.honest → (found : RecoveredFolder)
        → WhereOpenable (D.meaning disk.old) found (λ c. IsMendingOf (seen (D.meaning disk.old)) found plan.now
        → LeavesAmid (D.meaning disk.old) (D.meaning disk.new)) }
    ensures mended { IsTrue D.honest → (found : RecoveredFolder)
        → WhereSound (D.meaning disk.old) found (λ c. IsMendingOf (seen (D.meaning disk.old)) found plan.now
        → WhereAmid (D.meaning disk.old) (OnOk result (IsMended (state_in (D.meaning disk.new)) found c (string_bytes plan.now.active)))) }
    // Then it holds them still, also where the call fails.
    ensures held { IsTrue D.honest → (found : RecoveredFolder)
        → WhereOpenable (D.meaning disk.old) found (λ c. IsMendingOf (seen (D.meaning disk.old)) found plan.now
        → KeepsAmid (D.meaning disk.old) (D.meaning disk.new)) }
    ensures kinds { IsTrue D.honest → (found : RecoveredFolder) → IsFinished (seen (D.meaning disk.old)) found
        → IsMendingOf (seen (D.meaning disk.old)) found plan.now → StaysTidy (D.meaning disk.old) (D.meaning disk.new) }
    // The records of a keyspace that doesn't live stay as they are.
    ensures homes { IsTrue D.honest → (image : Image) (found : RecoveredFolder) → IsFinished image found → IsMendingOf image found plan.now
        → (id : ℕ) → 0 < id → id < 2 ^ 64 → (KeyspaceLives found.catalog.keyspaces.living id → ⊥)
        → (state_in (D.meaning disk.new) (current_name id)).now ≡ (state_in (D.meaning disk.old) (current_name id)).now }
    ensures served { IsTrue D.honest → IsTidy (state_in (D.meaning disk.old)) → (found : RecoveredFolder)
        → WhereOpenable (D.meaning disk.old) found (λ c. IsMendingOf (seen (D.meaning disk.old)) found plan.now
        → AllServed (D.meaning disk.old) (D.meaning disk.new)) }
{
    carry_out(disk, plan)
}
