//! A merge on the disk: its tables, and the record that puts them in the place of others.

ghost use Rattle.std.specs.Prelude.{◌⊎◌, IsTrue, OnOk, length};
ghost use Rattle.fjall_base.specs.Disk.{LeavesOnly, OnlyFaults, state_in};
ghost use Rattle.fjall_files.specs.Calls.{AllServed};
ghost use Rattle.fjall_files.specs.Names.{keyspace_folder};
ghost use Rattle.fjall_files.specs.Regions.{Within};
ghost use Rattle.fjall_files.specs.Tidy.{StaysTidy};
ghost use Rattle.fjall_recovery.specs.Halves.{HasTree};
ghost use Rattle.fjall_recovery.specs.Places.{LiesInTree};
ghost use Rattle.fjall_compaction.specs.FlushPlans.{HaveFiles};
ghost use Rattle.fjall_compaction.specs.MergePlans.{ForMergeOn, ForPlan, HasNoTableFolder, MergeKeepsTables};

use crate::merge::plan::MergePlan;
use crate::writing::{put_record, put_tables};
use fjall_base::{Disk, Result};
use fjall_jobs::MadeTable;

/// Writes a merge as it was planned: its tables, which are synced with their names, and then the record, which is appended and synced:
/// from then on they count in the place of the tables that the merge takes, which stand there still. Files that nothing names, under the
/// new tables' ids, are taken away first. It takes no memory.
///
/// A call that fails may have done all of it.
pub fn write_merge<D: Disk>(disk: &mut D, plan: &MergePlan, tables: &[MadeTable]) -> Result<()>
    // Nothing outside the keyspace's folder changes.
    ensures within { IsTrue D.honest → ForPlan plan.now tables.now (λ id next. Within (keyspace_folder id) (D.meaning disk.old) (D.meaning disk.new)) }
    // A crash at any moment of the call leaves the tree before or the one after, whole.
    ensures any_moment { IsTrue D.honest → ForMergeOn (D.meaning disk.old) plan.now tables.now (λ records t id next.
        LeavesOnly (D.meaning disk.old) (D.meaning disk.new) (λ image. HasTree image t ⊎ HasTree image next)) }
    // At Ok the one after lies there.
    ensures ok { IsTrue D.honest → ForMergeOn (D.meaning disk.old) plan.now tables.now (λ records t id next.
        OnOk result (LiesInTree (state_in (D.meaning disk.new)) records next)) }
    // Where no folder has the name of a table, each call was one that a disk can serve.
    ensures served { IsTrue D.honest → ForMergeOn (D.meaning disk.old) plan.now tables.now (λ records t id next.
        HasNoTableFolder (D.meaning disk.old) id → AllServed (D.meaning disk.old) (D.meaning disk.new)) }
    ensures cause { OnlyFaults (D.meaning disk.old) (D.meaning disk.new) result }
    ensures kinds { IsTrue D.honest → ForPlan plan.now tables.now (λ id next. StaysTidy (D.meaning disk.old) (D.meaning disk.new)) }
    // In sight each table of the keyspace but the new ones stands as it did, whatever lies on the disk.
    ensures beside { IsTrue D.honest → ForPlan plan.now tables.now (λ id next. MergeKeepsTables id next (length tables.now) (D.meaning disk.old) (D.meaning disk.new)) }
    // At Ok the tables' files have their bytes.
    ensures files { IsTrue D.honest → ForPlan plan.now tables.now (λ id next. OnOk result (HaveFiles (D.meaning disk.new) id next tables.now)) }
{
    put_tables(disk, &plan.folder, &plan.files, tables)?;
    put_record(disk, &plan.current, &plan.record_text)
}
