//! What no record names, removed: what is named stays as it was.

ghost use Rattle.std.specs.Prelude.{All, List, IsTrue, OnOk, codes, map, string_bytes};
ghost use Rattle.std.specs.List.{flat_map, Contains};
ghost use Rattle.fjall_base.specs.Disk.{IsNoFolder, LeavesOnly, OnlyFaults, state_in};
ghost use Rattle.fjall_files.specs.Calls.{AllServed};
ghost use Rattle.fjall_files.specs.Tidy.{IsTidy, StaysTidy};
ghost use Rattle.fjall_meta.specs.declared.living.LivingKeyspace.{LivingKeyspace};
ghost use Rattle.fjall_recovery.specs.Halves.{HasTree, Tree};
ghost use Rattle.fjall_recovery.specs.Places.{LiesInTree, RestsInTree};
ghost use Rattle.fjall_files.specs.Regions.{Within};
ghost use Rattle.fjall_repair.specs.Sweeps.{FindsTables, HasAll, IsSweepPlan, IsUnnamedHome, NamesAreGone, RemovesNames, TablesNamed, home_names, names_in, planned};
ghost use Rattle.fjall_manifest.specs.Records.{Fields};

use crate::plan::SweepPlan;
use fjall_base::{Disk, Result};
use fjall_files::OwnFiles;

/// Removes files, one after another, where they are there.
fn remove_all<D: Disk>(disk: &mut D, names: &[String]) -> Result<()>
    ensures removes { IsTrue D.honest → RemovesNames (Contains (map string_bytes names.now)) (D.meaning disk.old) (D.meaning disk.new) }
    ensures gone { IsTrue D.honest → OnOk result (NamesAreGone (state_in (D.meaning disk.new)) (map string_bytes names.now)) }
    ensures cause { OnlyFaults (D.meaning disk.old) (D.meaning disk.new) result }
    ensures kinds { IsTrue D.honest → StaysTidy (D.meaning disk.old) (D.meaning disk.new) }
    ensures served { IsTrue D.honest → All (λ name. IsNoFolder (state_in (D.meaning disk.old) (string_bytes name)).now) names.now
        → AllServed (D.meaning disk.old) (D.meaning disk.new) }
{
    for name in names {
        disk.remove(name.as_str())?;
    }
    Ok(())
}

/// Removes what is in a folder, and then the folder.
fn remove_unnamed<D: Disk>(disk: &mut D, home: &OwnFiles) -> Result<()>
    ensures removes { IsTrue D.honest → RemovesNames (Contains (home_names home.now)) (D.meaning disk.old) (D.meaning disk.new) }
    ensures gone { IsTrue D.honest → OnOk result (NamesAreGone (state_in (D.meaning disk.new)) (home_names home.now)) }
    ensures cause { OnlyFaults (D.meaning disk.old) (D.meaning disk.new) result }
    ensures kinds { IsTrue D.honest → StaysTidy (D.meaning disk.old) (D.meaning disk.new) }
    ensures served { IsTrue D.honest → IsTidy (state_in (D.meaning disk.old)) → (living : List LivingKeyspace) → IsUnnamedHome living home.now
        → HasAll (state_in (D.meaning disk.old)) home.now → AllServed (D.meaning disk.old) (D.meaning disk.new) }
{
    remove_all(disk, &home.files)?;
    disk.remove_folder(home.folder.as_str())
}

/// Removes folders with what is in them, one after another.
fn remove_homes<D: Disk>(disk: &mut D, homes: &[OwnFiles]) -> Result<()>
    ensures removes { IsTrue D.honest → RemovesNames (Contains (flat_map home_names homes.now)) (D.meaning disk.old) (D.meaning disk.new) }
    ensures gone { IsTrue D.honest → OnOk result (NamesAreGone (state_in (D.meaning disk.new)) (flat_map home_names homes.now)) }
    ensures cause { OnlyFaults (D.meaning disk.old) (D.meaning disk.new) result }
    ensures kinds { IsTrue D.honest → StaysTidy (D.meaning disk.old) (D.meaning disk.new) }
    ensures served { IsTrue D.honest → IsTidy (state_in (D.meaning disk.old)) → (living : List LivingKeyspace) → All (IsUnnamedHome living) homes.now
        → All (HasAll (state_in (D.meaning disk.old))) homes.now → AllServed (D.meaning disk.old) (D.meaning disk.new) }
{
    for home in homes {
        remove_unnamed(disk, home)?;
    }
    Ok(())
}

/// Removes all that a plan has: its tables, and then each home's files and the home. All else stays. No sync is owed: what
/// a crash brings back is named by nothing.
///
/// A folder that has the name of one of the plan's tables, or of a home's file, is a fault of the disk. What a call that fails
/// has removed was named by nothing either.
pub fn sweep<D: Disk>(disk: &mut D, plan: &SweepPlan) -> Result<()>
    // Names of the plan are removed and nothing else is done, and after a success none of them is left.
    ensures removes { IsTrue D.honest → RemovesNames (Contains (planned plan.now)) (D.meaning disk.old) (D.meaning disk.new) }
    ensures gone { IsTrue D.honest → OnOk result (NamesAreGone (state_in (D.meaning disk.new)) (planned plan.now)) }
    ensures within { IsTrue D.honest → (t : Tree) → IsSweepPlan (names_in t) t.keyspaces.living plan.now
        → Within (codes "keyspaces") (D.meaning disk.old) (D.meaning disk.new) }
    // A crash at any moment of the call leaves what the records name.
    ensures any_moment { IsTrue D.honest → (records : List Fields) (t : Tree) → IsSweepPlan (names_in t) t.keyspaces.living plan.now
        → RestsInTree (state_in (D.meaning disk.old)) records t
        → LeavesOnly (D.meaning disk.old) (D.meaning disk.new) (λ image. HasTree image t) }
    // It rests as before, also where the call fails.
    ensures rests { IsTrue D.honest → (records : List Fields) (t : Tree) → IsSweepPlan (names_in t) t.keyspaces.living plan.now
        → RestsInTree (state_in (D.meaning disk.old)) records t
        → RestsInTree (state_in (D.meaning disk.new)) records t }
    ensures ok { IsTrue D.honest → (records : List Fields) (t : Tree) → IsSweepPlan (names_in t) t.keyspaces.living plan.now
        → RestsInTree (state_in (D.meaning disk.old)) records t
        → FindsTables (state_in (D.meaning disk.old)) (names_in t) (map string_bytes plan.now.tables.items)
        → OnOk result (LiesInTree (state_in (D.meaning disk.new)) records t) }
    ensures cause { OnlyFaults (D.meaning disk.old) (D.meaning disk.new) result }
    ensures kinds { IsTrue D.honest → StaysTidy (D.meaning disk.old) (D.meaning disk.new) }
    ensures served { IsTrue D.honest → IsTidy (state_in (D.meaning disk.old)) → (names : TablesNamed) (living : List LivingKeyspace)
        → IsSweepPlan names living plan.now → All (HasAll (state_in (D.meaning disk.old))) plan.now.homes.items
        → AllServed (D.meaning disk.old) (D.meaning disk.new) }
{
    remove_all(disk, &plan.tables)?;
    remove_homes(disk, &plan.homes)
}
