//! A folder repaired: begun or mended, and then swept. A crash at any moment of it leaves the same store.

ghost use Rattle.std.specs.Prelude.{[], IsTrue, None, OnOk, Some, map, string_bytes, All};
ghost use Rattle.fjall_base.specs.Disk.{LeavesOnly, OnlyFaults, state_in};
ghost use Rattle.fjall_meta.specs.Keyspaces.{no_keyspaces};
ghost use Rattle.fjall_files.specs.Calls.{seen, AllServed};
ghost use Rattle.fjall_files.specs.Names.{journal_name};
ghost use Rattle.fjall_files.specs.Tidy.{IsTidy, StaysTidy};
ghost use Rattle.fjall_meta.specs.Replays.{bare};
ghost use Rattle.fjall_recovery.specs.Amid.{LeavesAmid, KeepsAmid, WhereAmid};
ghost use Rattle.fjall_recovery.specs.declared.folder.RecoveredFolder.{RecoveredFolder};
ghost use Rattle.fjall_recovery.specs.Folders.{ImageStandsFor, IsFinished, IsUnfinished, store_of_contents};
ghost use Rattle.fjall_recovery.specs.Held.{Holds};
ghost use Rattle.fjall_opening.specs.Readings.{WhereOpenable, WhereRead, WhereSound, IsSweepOf, FindsNamed};
ghost use Rattle.fjall_repair.specs.Making.{ComesBackUnfinished};
ghost use Rattle.fjall_repair.specs.Plans.{IsBeginPlan as IsMakingOf, journals_begun};
ghost use Rattle.fjall_repair.specs.Mended.{IsMendingOf};
ghost use Rattle.fjall_opening.specs.Opened.{IsRepaired, KeepsNamed, nothing};
ghost use Rattle.fjall_repair.specs.Steps.{opened};
ghost use Rattle.fjall_repair.specs.Sweeps.{NamesAreGone, BringsNoTable, FindsTables, IsSweepPlan, planned, no_names, HasAll};

use crate::mending::mend;
use fjall_base::{Disk, Result};
use fjall_repair::{BeginPlan, MendPlan, SweepPlan, begin, sweep};

/// Mends a folder and then sweeps it, by plans that were made of it.
pub(crate) fn mend_and_sweep<D: Disk>(
    disk: &mut D,
    mending: &MendPlan,
    plan: &SweepPlan,
) -> Result<()>
    ensures any_moment { IsTrue D.honest → (found : RecoveredFolder)
        → WhereRead (D.meaning disk.old) found (λ contents. Holds (state_in (D.meaning disk.old)) (Some contents)
        → IsMendingOf (seen (D.meaning disk.old)) found mending.now → IsSweepOf found plan.now
        → LeavesOnly (D.meaning disk.old) (D.meaning disk.new) (λ image. ImageStandsFor image (store_of_contents contents))) }
    ensures ok { IsTrue D.honest → (found : RecoveredFolder)
        → WhereRead (D.meaning disk.old) found (λ contents. Holds (state_in (D.meaning disk.old)) (Some contents)
        → IsMendingOf (seen (D.meaning disk.old)) found mending.now → IsSweepOf found plan.now → FindsNamed (state_in (D.meaning disk.old)) found plan.now
        → OnOk result (IsRepaired (state_in (D.meaning disk.new)) contents (opened contents.journals) (string_bytes mending.now.active) found.journals.end)) }
    ensures gone { IsTrue D.honest → OnOk result (NamesAreGone (state_in (D.meaning disk.new)) (planned plan.now)) }
    ensures cause { OnlyFaults (D.meaning disk.old) (D.meaning disk.new) result }
    // Each table that a record names stands as it did, also where the call fails.
    ensures spared { IsTrue D.honest → (found : RecoveredFolder)
        → WhereOpenable (D.meaning disk.old) found (λ contents. IsMendingOf (seen (D.meaning disk.old)) found mending.now → IsSweepOf found plan.now
        → KeepsNamed (D.meaning disk.old) (D.meaning disk.new) contents.homes) }
    ensures tables { IsTrue D.honest → (found : RecoveredFolder) → IsMendingOf (seen (D.meaning disk.old)) found mending.now
        → BringsNoTable (state_in (D.meaning disk.old)) (state_in (D.meaning disk.new)) }
    // The same where a crash of the disk leaves different stores.
    ensures amid { IsTrue D.honest → (found : RecoveredFolder)
        → WhereOpenable (D.meaning disk.old) found (λ contents. IsMendingOf (seen (D.meaning disk.old)) found mending.now
        → IsSweepOf found plan.now → LeavesAmid (D.meaning disk.old) (D.meaning disk.new)) }
    ensures repaired { IsTrue D.honest → (found : RecoveredFolder)
        → WhereSound (D.meaning disk.old) found (λ contents. IsMendingOf (seen (D.meaning disk.old)) found mending.now → IsSweepOf found plan.now
        → WhereAmid (D.meaning disk.old) (FindsNamed (state_in (D.meaning disk.old)) found plan.now
        → OnOk result (IsRepaired (state_in (D.meaning disk.new)) contents (opened contents.journals) (string_bytes mending.now.active) found.journals.end))) }
    ensures held { IsTrue D.honest → (found : RecoveredFolder)
        → WhereOpenable (D.meaning disk.old) found (λ contents. IsMendingOf (seen (D.meaning disk.old)) found mending.now
        → IsSweepOf found plan.now → KeepsAmid (D.meaning disk.old) (D.meaning disk.new)) }
    ensures kinds { IsTrue D.honest → (found : RecoveredFolder) → IsFinished (seen (D.meaning disk.old)) found
        → IsMendingOf (seen (D.meaning disk.old)) found mending.now → StaysTidy (D.meaning disk.old) (D.meaning disk.new) }
    ensures served { IsTrue D.honest → IsTidy (state_in (D.meaning disk.old)) → (found : RecoveredFolder)
        → WhereOpenable (D.meaning disk.old) found (λ contents. IsMendingOf (seen (D.meaning disk.old)) found mending.now
        → IsSweepOf found plan.now → All (HasAll (state_in (D.meaning disk.old))) plan.now.homes.items → AllServed (D.meaning disk.old) (D.meaning disk.new)) }
{
    mend(disk, mending)?;
    sweep(disk, plan)
}

/// Begins a database, or goes on with one whose making was cut short, and sweeps its folder, by plans that were made of it.
pub(crate) fn begin_and_sweep<D: Disk>(
    disk: &mut D,
    making: &BeginPlan,
    plan: &SweepPlan,
) -> Result<()>
    ensures any_moment { IsTrue D.honest → Holds (state_in (D.meaning disk.old)) None → ComesBackUnfinished (state_in (D.meaning disk.old))
        → IsMakingOf (seen (D.meaning disk.old)) making.now → IsSweepPlan no_names [] plan.now
        → LeavesOnly (D.meaning disk.old) (D.meaning disk.new) (λ image. ImageStandsFor image (bare no_keyspaces)) }
    ensures ok { IsTrue D.honest → Holds (state_in (D.meaning disk.old)) None → IsMakingOf (seen (D.meaning disk.old)) making.now → IsSweepPlan no_names [] plan.now
        → FindsTables (state_in (D.meaning disk.old)) no_names (map string_bytes plan.now.tables.items)
        → OnOk result (IsRepaired (state_in (D.meaning disk.new)) nothing (journals_begun making.now) (journal_name making.now.active) 0) }
    ensures gone { IsTrue D.honest → OnOk result (NamesAreGone (state_in (D.meaning disk.new)) (planned plan.now)) }
    ensures cause { OnlyFaults (D.meaning disk.old) (D.meaning disk.new) result }
    ensures tables { IsTrue D.honest → IsMakingOf (seen (D.meaning disk.old)) making.now
        → BringsNoTable (state_in (D.meaning disk.old)) (state_in (D.meaning disk.new)) }
    // The same where a crash of the disk leaves different stores.
    ensures amid { IsTrue D.honest → IsUnfinished (seen (D.meaning disk.old)) → IsMakingOf (seen (D.meaning disk.old)) making.now → IsSweepPlan no_names [] plan.now
        → LeavesAmid (D.meaning disk.old) (D.meaning disk.new) }
    ensures repaired { IsTrue D.honest → IsUnfinished (seen (D.meaning disk.old)) → IsMakingOf (seen (D.meaning disk.old)) making.now → IsSweepPlan no_names [] plan.now
        → FindsTables (state_in (D.meaning disk.old)) no_names (map string_bytes plan.now.tables.items)
        → OnOk result (IsRepaired (state_in (D.meaning disk.new)) nothing (journals_begun making.now) (journal_name making.now.active) 0) }
    ensures held { IsTrue D.honest → IsUnfinished (seen (D.meaning disk.old)) → IsMakingOf (seen (D.meaning disk.old)) making.now → IsSweepPlan no_names [] plan.now
        → KeepsAmid (D.meaning disk.old) (D.meaning disk.new) }
    ensures kinds { IsTrue D.honest → IsMakingOf (seen (D.meaning disk.old)) making.now → StaysTidy (D.meaning disk.old) (D.meaning disk.new) }
    ensures served { IsTrue D.honest → IsTidy (state_in (D.meaning disk.old)) → IsMakingOf (seen (D.meaning disk.old)) making.now
        → IsSweepPlan no_names [] plan.now → All (HasAll (state_in (D.meaning disk.old))) plan.now.homes.items → AllServed (D.meaning disk.old) (D.meaning disk.new) }
{
    begin(disk, making)?;
    sweep(disk, plan)
}
