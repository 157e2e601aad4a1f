//! A folder checked.

ghost use Rattle.std.specs.Prelude.{◌≡◌, ◌≤◌, [], None, Some, IfErr, IfOk, IsTrue};
ghost use Rattle.fjall_base.specs.Disk.{Took, state_in};
ghost use Rattle.fjall_files.specs.Calls.{seen, AllServed};
ghost use Rattle.fjall_recovery.specs.Refusals.{HasRisen, IsDue};
ghost use Rattle.fjall_repair.specs.Sweeps.{AreHomesOf};
ghost use Rattle.fjall_inspect.specs.Checks.{IsClean, Passes, Tells, TellsMending};
ghost use Rattle.fjall_inspect.specs.Faults.{AreToldOf, HomeTells};

use crate::mending::{cuts_of, removals_of, tree_tables};
use crate::places::look_for_places;
use crate::report::{Report, is_fault};
use crate::tables::look_at_homes;
use fjall_base::{Disk, Error, Result};
use fjall_journal::RecoveryMode;
use fjall_recovery::{RecoveredFolder, read_folder};
use fjall_repair::{plan_of, plan_sweep};
use std::alloc::Global;

/// What is found of a folder that was read: what is wrong in its tables, and what an opening does to it.
fn look_at_folder<D: Disk>(alloc: Global, disk: &mut D, folder: &RecoveredFolder) -> Result<Report>
    ensures refusal { IfOk result (λ report. report.refusal ≡ None) }
    ensures faults { IsTrue D.honest → IfOk result (λ report. AreToldOf (HomeTells (seen (D.meaning disk.old))) folder.now.homes.items report.faults.items) }
    ensures mending { IsTrue D.honest → AreHomesOf folder.now.catalog.keyspaces.living folder.now.homes.items
        → IfOk result (TellsMending (state_in (D.meaning disk.old)) folder.now) }
    ensures same { IsTrue D.honest → Took (D.meaning disk.old) (D.meaning disk.new) [] }
    ensures served { IsTrue D.honest → AllServed (D.meaning disk.old) (D.meaning disk.new) }
    ensures later { (D.meaning disk.old).faults ≤ (D.meaning disk.new).faults }
    ensures risen { IfErr result (HasRisen (D.meaning disk.old).faults (D.meaning disk.new).faults) }
    ensures only { IfErr result (IsDue (λ error. ⊥)) }
{
    let faults = look_at_homes(alloc, disk, &folder.homes)?;
    let cuts = cuts_of(alloc, plan_of(alloc, folder)?.ends)?;
    let sweep = plan_sweep(
        alloc,
        disk,
        tree_tables(&folder.catalog.catalog),
        &folder.homes,
        folder.catalog.keyspaces.living(),
        &folder.folder_ids,
    )?;
    let removals = removals_of(sweep)?;
    Ok(Report {
        refusal: None,
        faults,
        cuts,
        removals,
    })
}

/// What is found of a folder that an opening refuses with this error.
fn look_at_refused<D: Disk>(alloc: Global, disk: &mut D, error: Error) -> Result<Report>
    ensures refusal { IfOk result (λ report. report.refusal ≡ Some error) }
    ensures same { IsTrue D.honest → Took (D.meaning disk.old) (D.meaning disk.new) [] }
    ensures served { IsTrue D.honest → AllServed (D.meaning disk.old) (D.meaning disk.new) }
    ensures later { (D.meaning disk.old).faults ≤ (D.meaning disk.new).faults }
    ensures risen { IfErr result (HasRisen (D.meaning disk.old).faults (D.meaning disk.new).faults) }
    ensures only { IfErr result (IsDue (λ error. ⊥)) }
{
    let mut report = Report::new(alloc);
    report.faults = look_for_places(alloc, disk)?;
    report.refusal = Some(error);
    Ok(report)
}

/// Looks at a folder without a change: whether an opening refuses it, and whether every block of its tables is right.
///
/// The report tells why an opening refuses the folder, where it does, and then in which of its parts that lies, as far as it
/// can be seen. Of a folder that an opening reads, each table of each keyspace that lives is read whole, one at a time, and each
/// wrong block of it is told with its place; a table whose file is missing, of another length, or wrong at its end, or whose
/// blocks are right one by one and no table together, is told without a place. It tells too what an opening cuts off and
/// removes. A torn tail of the active journal is no fault, and neither is a folder whose making was cut short.
///
/// It refuses with `OutOfMemory`, and with `Io` for a fault of the disk, and nothing else.
pub fn check<D: Disk>(alloc: Global, disk: &mut D) -> Result<Report>
    // A folder of which nothing wrong is told passes,
    ensures right { IsTrue D.honest → IfOk result (λ report. IsClean report → Passes (seen (D.meaning disk.old))) }
    // and of one that passes nothing wrong is told.
    ensures wrong { IsTrue D.honest → IfOk result (λ report. Passes (seen (D.meaning disk.old)) → IsClean report) }
    // The refusal is an opening's, and where there is none each fault is told, and what an opening changes.
    ensures tells { IsTrue D.honest → IfOk result (λ report. Tells (state_in (D.meaning disk.old)) report report.refusal) }
    ensures same { IsTrue D.honest → Took (D.meaning disk.old) (D.meaning disk.new) [] }
    ensures served { IsTrue D.honest → AllServed (D.meaning disk.old) (D.meaning disk.new) }
    ensures later { (D.meaning disk.old).faults ≤ (D.meaning disk.new).faults }
    ensures risen { IfErr result (HasRisen (D.meaning disk.old).faults (D.meaning disk.new).faults) }
    ensures only { IfErr result (IsDue (λ error. ⊥)) }
{
    match read_folder(alloc, disk, RecoveryMode::TolerateCorruptTail) {
        Ok(Some(folder)) => look_at_folder(alloc, disk, &folder),
        Ok(None) => Ok(Report::new(alloc)),
        Err(error) if is_fault(error) => look_at_refused(alloc, disk, error),
        Err(error) => Err(error),
    }
}
