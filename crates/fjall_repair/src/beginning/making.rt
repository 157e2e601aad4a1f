//! A database begun, or its making gone on with.

ghost use Rattle.std.specs.Prelude.{◌≡◌, [], false, IsTrue, OnOk};
ghost use Rattle.fjall_base.specs.Disk.{LeavesOnly, OnlyFaults, state_in};
ghost use Rattle.fjall_meta.specs.Keyspaces.{no_keyspaces};
ghost use Rattle.fjall_files.specs.Calls.{seen, AllServed};
ghost use Rattle.fjall_files.specs.Tidy.{IsTidy, StaysTidy};
ghost use Rattle.fjall_meta.specs.Replays.{bare};
ghost use Rattle.fjall_recovery.specs.Folders.{Contents, ImageStandsFor, IsOpenable, IsUnfinished};
ghost use Rattle.fjall_repair.specs.Begun.{IsBegunOn};
ghost use Rattle.fjall_repair.specs.Making.{ComesBackUnfinished, IsMaking, KeepsAllTables, KeepsHomeRecords, MakingGoesOn};
ghost use Rattle.fjall_repair.specs.Plans.{AwaitsMarker, IsBeginPlan, KeepsMarker};

use crate::beginning::journals::empty_journals;
use crate::beginning::marker::mark;
use crate::beginning::plan::BeginPlan;
use crate::beginning::tree::make_tree;
use fjall_base::{Disk, Result};

/// Makes all but the marker: tree 0 and the journals.
fn prepare<D: Disk>(disk: &mut D, plan: &BeginPlan) -> Result<()>
    ensures goes { IsTrue D.honest → IsBeginPlan (seen (D.meaning disk.old)) plan.now → MakingGoesOn false (D.meaning disk.old) (D.meaning disk.new) }
    ensures awaits { IsTrue D.honest → IsBeginPlan (seen (D.meaning disk.old)) plan.now → IsMaking false (seen (D.meaning disk.old))
        → OnOk result (AwaitsMarker (state_in (D.meaning disk.new)) plan.now.sealed.items plan.now.active) }
    ensures marker { IsTrue D.honest → IsBeginPlan (seen (D.meaning disk.old)) plan.now → OnOk result (KeepsMarker (D.meaning disk.old) (D.meaning disk.new)) }
    ensures cause { OnlyFaults (D.meaning disk.old) (D.meaning disk.new) result }
    ensures kinds { IsTrue D.honest → IsBeginPlan (seen (D.meaning disk.old)) plan.now → StaysTidy (D.meaning disk.old) (D.meaning disk.new) }
    ensures homes { IsTrue D.honest → IsBeginPlan (seen (D.meaning disk.old)) plan.now → KeepsHomeRecords (state_in (D.meaning disk.old)) (state_in (D.meaning disk.new)) }
    ensures served { IsTrue D.honest → IsTidy (state_in (D.meaning disk.old)) → IsBeginPlan (seen (D.meaning disk.old)) plan.now
        → AllServed (D.meaning disk.old) (D.meaning disk.new) }
{
    make_tree(disk, plan.records, &plan.first)?;
    empty_journals(disk, &plan.journals)?;
    disk.sync_folder("")
}

/// Makes a database without keyspaces, or goes on with one whose making was cut short, by the plan that was made of its
/// folder.
///
/// It refuses with `Io` alone, for a fault of the disk; whatever a crash then leaves is gone on with by the next plan.
pub fn begin<D: Disk>(disk: &mut D, plan: &BeginPlan) -> Result<()>
    // A crash at any moment of the call leaves a database without keyspaces, made or still to be gone on with. What a
    // crash may bring back in a folder that isn't there comes back once the folder is made: it must be unfinished too.
    ensures any_moment { IsTrue D.honest → IsBeginPlan (seen (D.meaning disk.old)) plan.now → ComesBackUnfinished (state_in (D.meaning disk.old))
        → LeavesOnly (D.meaning disk.old) (D.meaning disk.new) (λ image. ImageStandsFor image (bare no_keyspaces)) }
    ensures ok { IsTrue D.honest → IsBeginPlan (seen (D.meaning disk.old)) plan.now → IsUnfinished (seen (D.meaning disk.old))
        → OnOk result (IsBegunOn (state_in (D.meaning disk.new)) plan.now.sealed.items plan.now.active) }
    // No table comes or goes, whatever the answer.
    ensures tables { IsTrue D.honest → IsBeginPlan (seen (D.meaning disk.old)) plan.now
        → KeepsAllTables (state_in (D.meaning disk.old)) (state_in (D.meaning disk.new)) }
    ensures cause { OnlyFaults (D.meaning disk.old) (D.meaning disk.new) result }
    ensures kinds { IsTrue D.honest → IsBeginPlan (seen (D.meaning disk.old)) plan.now → StaysTidy (D.meaning disk.old) (D.meaning disk.new) }
    // The records of all other keyspaces stay as they are.
    ensures homes { IsTrue D.honest → IsBeginPlan (seen (D.meaning disk.old)) plan.now → KeepsHomeRecords (state_in (D.meaning disk.old)) (state_in (D.meaning disk.new)) }
    ensures served { IsTrue D.honest → IsTidy (state_in (D.meaning disk.old)) → IsBeginPlan (seen (D.meaning disk.old)) plan.now
        → AllServed (D.meaning disk.old) (D.meaning disk.new) }
    // Where what stands is unfinished still, so is whatever may come back; where it is finished, it has a journal.
    ensures back { IsTrue D.honest → IsBeginPlan (seen (D.meaning disk.old)) plan.now → ComesBackUnfinished (state_in (D.meaning disk.old))
        → IsUnfinished (seen (D.meaning disk.new)) → ComesBackUnfinished (state_in (D.meaning disk.new)) }
    ensures journal { IsTrue D.honest → IsBeginPlan (seen (D.meaning disk.old)) plan.now → ComesBackUnfinished (state_in (D.meaning disk.old))
        → (c : Contents) → IsOpenable (seen (D.meaning disk.new)) c → c.journals ≡ [] → ⊥ }
{
    prepare(disk, plan)?;
    mark(disk, plan.marker, &plan.header)
}
