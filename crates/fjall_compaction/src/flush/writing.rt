//! A flush on the disk: its table, and the record that makes it count.

ghost use Rattle.std.specs.Prelude.{◌⊎◌, ℕ, List, IsTrue, OnOk};
ghost use Rattle.fjall_base.specs.Disk.{IsNoFolder, LeavesOnly, OnlyFaults, state_in};
ghost use Rattle.fjall_files.specs.Calls.{AllServed};
ghost use Rattle.fjall_files.specs.Names.{keyspace_folder, table_name};
ghost use Rattle.fjall_files.specs.Regions.{Within};
ghost use Rattle.fjall_files.specs.Tidy.{StaysTidy};
ghost use Rattle.fjall_jobs.specs.declared.made_table.MadeTable.{MadeTable};
ghost use Rattle.fjall_recovery.specs.Halves.{HasTree};
ghost use Rattle.fjall_recovery.specs.Places.{LiesInTree};
ghost use Rattle.fjall_jobs.specs.Made.{flush_tables};
ghost use Rattle.fjall_compaction.specs.FlushPlans.{ForFlushOn, ForPlan, ForPlanOf, ForPlanned, ForPlannedOf, ForTablesOn, HaveFiles, IsNamed, KeepsBeside};
ghost use Rattle.fjall_compaction.specs.MergePlans.{AreNamed};

use crate::flush::plan::FlushPlan;
use crate::writing::{put_record, put_tables};
use fjall_base::{Disk, Result};
use fjall_jobs::{FlushMade, MadeTable};
use std::slice;

/// The names of the files that are planned: that of the new table, or none.
fn new_files(name: &Option<String>) -> &[String]
    ensures { (id next : ℕ) (tables : List MadeTable) → IsNamed id next tables name.now → AreNamed id next tables result.now }
{
    match name {
        Some(name) => slice::from_ref(name),
        None => &[],
    }
}

/// Writes a table that was made, or none, as it was planned: the table, which is synced with its name, and then the record, which
/// is appended and synced: from then on it counts. A file that nothing names, under the new table's id, is taken away first. It
/// takes no memory.
///
/// A call that fails may have done all of it.
pub fn write_tables<D: Disk>(disk: &mut D, plan: &FlushPlan, tables: &[MadeTable]) -> Result<()>
    // Nothing outside the keyspace's folder changes.
    ensures within { IsTrue D.honest → ForPlanOf plan.now tables.now (λ id. Within (keyspace_folder id) (D.meaning disk.old) (D.meaning disk.new)) }
    // A crash at any moment of the call leaves the tree before or the one after, whole.
    ensures any_moment { IsTrue D.honest → ForTablesOn (D.meaning disk.old) plan.now tables.now (λ records t id h next.
        LeavesOnly (D.meaning disk.old) (D.meaning disk.new) (λ image. HasTree image t ⊎ HasTree image next)) }
    // At Ok the one after lies there.
    ensures ok { IsTrue D.honest → ForTablesOn (D.meaning disk.old) plan.now tables.now (λ records t id h next.
        OnOk result (LiesInTree (state_in (D.meaning disk.new)) records next)) }
    // Where no folder has the table's name, each call was one that a disk can serve.
    ensures served { IsTrue D.honest → ForTablesOn (D.meaning disk.old) plan.now tables.now (λ records t id h next.
        IsNoFolder (state_in (D.meaning disk.old) (table_name id h.last.next_table_id)).now → AllServed (D.meaning disk.old) (D.meaning disk.new)) }
    ensures cause { OnlyFaults (D.meaning disk.old) (D.meaning disk.new) result }
    ensures kinds { IsTrue D.honest → ForPlanOf plan.now tables.now (λ id. StaysTidy (D.meaning disk.old) (D.meaning disk.new)) }
    // In sight nothing changes but the keyspace's file of records and the new table's, whatever lies on the disk.
    ensures beside { IsTrue D.honest → ForPlannedOf plan.now tables.now (λ id next. KeepsBeside id next (D.meaning disk.old) (D.meaning disk.new)) }
    // At Ok the table's file has its bytes.
    ensures files { IsTrue D.honest → ForPlannedOf plan.now tables.now (λ id next. OnOk result (HaveFiles (D.meaning disk.new) id next tables.now)) }
{
    put_tables(disk, &plan.folder, new_files(&plan.table), tables)?;
    put_record(disk, &plan.current, &plan.record_text)
}

/// Writes a flush as it was planned: its table, which is synced with its name, and then the record, which is appended and
/// synced: from then on the flush counts. A file that nothing names, under the new table's id, is taken away first. It takes no
/// memory.
///
/// A call that fails may have done all of it.
pub fn write_flush<D: Disk>(disk: &mut D, plan: &FlushPlan, made: &FlushMade) -> Result<()>
    // Nothing outside the keyspace's folder changes.
    ensures within { IsTrue D.honest → ForPlan plan.now made.now (λ id. Within (keyspace_folder id) (D.meaning disk.old) (D.meaning disk.new)) }
    // A crash at any moment of the call leaves the tree before or the one after, whole.
    ensures any_moment { IsTrue D.honest → ForFlushOn (D.meaning disk.old) plan.now made.now (λ records t id h next.
        LeavesOnly (D.meaning disk.old) (D.meaning disk.new) (λ image. HasTree image t ⊎ HasTree image next)) }
    // At Ok the one after lies there.
    ensures ok { IsTrue D.honest → ForFlushOn (D.meaning disk.old) plan.now made.now (λ records t id h next.
        OnOk result (LiesInTree (state_in (D.meaning disk.new)) records next)) }
    // Where no folder has the table's name, each call was one that a disk can serve.
    ensures served { IsTrue D.honest → ForFlushOn (D.meaning disk.old) plan.now made.now (λ records t id h next.
        IsNoFolder (state_in (D.meaning disk.old) (table_name id h.last.next_table_id)).now → AllServed (D.meaning disk.old) (D.meaning disk.new)) }
    ensures cause { OnlyFaults (D.meaning disk.old) (D.meaning disk.new) result }
    ensures kinds { IsTrue D.honest → ForPlan plan.now made.now (λ id. StaysTidy (D.meaning disk.old) (D.meaning disk.new)) }
    // In sight nothing changes but the keyspace's file of records and the new table's, whatever lies on the disk.
    ensures beside { IsTrue D.honest → ForPlanned plan.now made.now (λ id next. KeepsBeside id next (D.meaning disk.old) (D.meaning disk.new)) }
    // At Ok the table's file has its bytes.
    ensures files { IsTrue D.honest → ForPlanned plan.now made.now (λ id next. OnOk result (HaveFiles (D.meaning disk.new) id next (flush_tables made.now))) }
{
    write_tables(disk, plan, made.tables())
}
