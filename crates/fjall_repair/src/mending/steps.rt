//! The steps of mending: a crash at any of their moments leaves the same store.

ghost use Rattle.std.specs.Prelude.{◌≡◌, ◌≢◌, ◌⊎◌, List, [], All, IsTrue, OnOk, string_bytes, Some};
ghost use Rattle.fjall_base.specs.Store.{Command, Store};
ghost use Rattle.fjall_base.specs.Disk.{Image, IsFile, IsImage, LeavesOnly, Name, OnlyFaults, Took, folder_of, state_in, CanCreate, File, IsThere};
ghost use Rattle.fjall_files.specs.Calls.{seen, AllServed, StaysWhere};
ghost use Rattle.fjall_files.specs.Tidy.{FitsAt, IsTidy, StaysTidy};
ghost use Rattle.fjall_recovery.specs.Folders.{Contents, ImageStandsFor, IsOpenable, store_of_contents};
ghost use Rattle.fjall_recovery.specs.Amid.{HoldsAmid, StandsAmid, LeavesAmid, KeepsAmid, WhereAmid};
ghost use Rattle.fjall_recovery.specs.Held.{Holds};
ghost use Rattle.fjall_repair.specs.Amids.{StaysAmid, AllStayAmid};
ghost use Rattle.fjall_repair.specs.Steps.{IsEnded, IsOpened, IsRested, IsSame, IsSynced, Stays, Suits, end_of, with_active, IsActiveIn, AreRightEnds, AreNamesSynced, WhereSuits};

use crate::mending::plan::{FileEnd, MendPlan};
use fjall_base::{Disk, Result};
use fjall_files::end_file;

/// Makes the active journal where it is missing, and syncs the names in the root.
fn settle_root<D: Disk>(disk: &mut D, active: &str) -> Result<()>
    ensures any_moment { IsTrue D.honest → (c : Contents) → Holds (state_in (D.meaning disk.old)) (Some c) → IsActiveIn c active.now
        → LeavesOnly (D.meaning disk.old) (D.meaning disk.new) (λ image. ImageStandsFor image (store_of_contents c)) }
    ensures sound { IsTrue D.honest → (c : Contents) → Holds (state_in (D.meaning disk.old)) (Some c) → IsActiveIn c active.now
        → OnOk result ((image : Image) → IsImage (state_in (D.meaning disk.new)) image → IsOpenable image (with_active c)) }
    ensures opened { IsTrue D.honest → OnOk result (IsOpened (seen (D.meaning disk.old)) (seen (D.meaning disk.new)) active.now) }
    ensures settled { IsTrue D.honest → OnOk result ((q : Name) → folder_of q ≡ [] → (state_in (D.meaning disk.new) q).older ≡ []) }
    ensures elsewhere { IsTrue D.honest → (q : Name) → q ≢ active.now → (state_in (D.meaning disk.new) q).now ≡ (state_in (D.meaning disk.old) q).now }
    ensures cause { OnlyFaults (D.meaning disk.old) (D.meaning disk.new) result }
    // Where a crash may leave different stores, it leaves no others.
    ensures amid { IsTrue D.honest → (c : Contents) → IsOpenable (seen (D.meaning disk.old)) c → (base : Store) (pending : List Command)
        → HoldsAmid (state_in (D.meaning disk.old)) base pending → IsActiveIn c active.now
        → LeavesOnly (D.meaning disk.old) (D.meaning disk.new) (StandsAmid base [] pending) }
    ensures stands { IsTrue D.honest → (c : Contents) → IsOpenable (seen (D.meaning disk.old)) c → IsActiveIn c active.now
        → IsOpenable (seen (D.meaning disk.new)) c ⊎ IsOpenable (seen (D.meaning disk.new)) (with_active c) }
    ensures there { IsTrue D.honest → Took (D.meaning disk.old) (D.meaning disk.new) [] ⊎ IsFile (state_in (D.meaning disk.new) active.now).now }
    ensures kinds { IsTrue D.honest → FitsAt active.now (File [] []) → StaysTidy (D.meaning disk.old) (D.meaning disk.new) }
    ensures served { IsTrue D.honest → CanCreate (state_in (D.meaning disk.old)) active.now → AllServed (D.meaning disk.old) (D.meaning disk.new) }
{
    disk.create(active)?;
    disk.sync_folder("")
}

/// Syncs the names in folders.
fn sync_folders<D: Disk>(disk: &mut D, folders: &[String]) -> Result<()>
    ensures any_moment { IsTrue D.honest → LeavesOnly (D.meaning disk.old) (D.meaning disk.new) (IsImage (state_in (D.meaning disk.old))) }
    ensures same { IsTrue D.honest → (q : Name) → (state_in (D.meaning disk.new) q).now ≡ (state_in (D.meaning disk.old) q).now }
    ensures still { IsTrue D.honest → (q : Name) → (state_in (D.meaning disk.old) q).older ≡ [] → (state_in (D.meaning disk.new) q).older ≡ [] }
    ensures settled { IsTrue D.honest
        → OnOk result (All (λ folder. (q : Name) → folder_of q ≡ string_bytes folder → (state_in (D.meaning disk.new) q).older ≡ []) folders.now) }
    ensures cause { OnlyFaults (D.meaning disk.old) (D.meaning disk.new) result }
    ensures kinds { IsTrue D.honest → StaysTidy (D.meaning disk.old) (D.meaning disk.new) }
    ensures served { IsTrue D.honest → All (λ folder. IsThere (seen (D.meaning disk.old)) (string_bytes folder)) folders.now
        → AllServed (D.meaning disk.old) (D.meaning disk.new) }
{
    for folder in folders {
        disk.sync_folder(folder.as_str())?;
    }
    Ok(())
}

/// Syncs files.
fn sync_files<D: Disk>(disk: &mut D, files: &[String]) -> Result<()>
    ensures any_moment { IsTrue D.honest → LeavesOnly (D.meaning disk.old) (D.meaning disk.new) (IsImage (state_in (D.meaning disk.old))) }
    ensures elsewhere { IsTrue D.honest → StaysWhere (D.meaning disk.old) (D.meaning disk.new) (λ q. All (λ file. q ≢ string_bytes file) files.now) }
    ensures same { IsTrue D.honest → (q : Name) → IsSame (state_in (D.meaning disk.old) q) (state_in (D.meaning disk.new) q) }
    ensures synced { IsTrue D.honest → OnOk result (All (λ file. IsSynced (state_in (D.meaning disk.new) (string_bytes file)).now) files.now) }
    ensures cause { OnlyFaults (D.meaning disk.old) (D.meaning disk.new) result }
    ensures kinds { IsTrue D.honest → StaysTidy (D.meaning disk.old) (D.meaning disk.new) }
    ensures served { IsTrue D.honest → All (λ file. IsFile (state_in (D.meaning disk.old) (string_bytes file)).now) files.now
        → AllServed (D.meaning disk.old) (D.meaning disk.new) }
{
    for file in files {
        disk.sync(file.as_str())?;
    }
    Ok(())
}

/// Ends files where all that counts in them ends.
fn end_files<D: Disk>(disk: &mut D, ends: &[FileEnd]) -> Result<()>
    ensures any_moment { IsTrue D.honest → (c : Contents) → AreRightEnds (seen (D.meaning disk.old)) c ends.now
        → AreNamesSynced (state_in (D.meaning disk.old)) ends.now
        → ((image : Image) → IsImage (state_in (D.meaning disk.old)) image → Stays (state_in (D.meaning disk.old)) c image)
        → LeavesOnly (D.meaning disk.old) (D.meaning disk.new) (Stays (state_in (D.meaning disk.old)) c) }
    ensures ended { IsTrue D.honest → (c : Contents) → AreRightEnds (seen (D.meaning disk.old)) c ends.now
        → OnOk result (All (λ e. IsEnded (state_in (D.meaning disk.old)) (state_in (D.meaning disk.new)) (end_of e)) ends.now) }
    ensures synced { IsTrue D.honest
        → OnOk result ((q : Name) → IsSynced (state_in (D.meaning disk.old) q).now → IsSynced (state_in (D.meaning disk.new) q).now) }
    ensures older { IsTrue D.honest → OnOk result ((q : Name) → (state_in (D.meaning disk.new) q).older ≡ (state_in (D.meaning disk.old) q).older) }
    ensures elsewhere { IsTrue D.honest → StaysWhere (D.meaning disk.old) (D.meaning disk.new) (λ q. All (λ e. q ≢ string_bytes e.name) ends.now) }
    ensures cause { OnlyFaults (D.meaning disk.old) (D.meaning disk.new) result }
    // Where a crash may leave different stores, it leaves no others.
    ensures amid { IsTrue D.honest → (c : Contents) → IsOpenable (seen (D.meaning disk.old)) c → AreRightEnds (seen (D.meaning disk.old)) c ends.now
        → AreNamesSynced (state_in (D.meaning disk.old)) ends.now
        → (base : Store) (pending : List Command) → AllStayAmid (state_in (D.meaning disk.old)) base pending
        → LeavesOnly (D.meaning disk.old) (D.meaning disk.new) (StaysAmid (state_in (D.meaning disk.old)) base pending) }
    ensures stands { IsTrue D.honest → (c : Contents) → IsOpenable (seen (D.meaning disk.old)) c → AreRightEnds (seen (D.meaning disk.old)) c ends.now
        → AreNamesSynced (state_in (D.meaning disk.old)) ends.now
        → OnOk result (IsOpenable (seen (D.meaning disk.new)) c) }
    ensures kinds { IsTrue D.honest → StaysTidy (D.meaning disk.old) (D.meaning disk.new) }
    ensures served { IsTrue D.honest → (c : Contents) → AreRightEnds (seen (D.meaning disk.old)) c ends.now
        → AllServed (D.meaning disk.old) (D.meaning disk.new) }
{
    for end in ends {
        end_file(disk, end.name.as_str(), end.cut, end.len)?;
    }
    Ok(())
}

/// Takes all steps of a plan. The names come first, so that of each file that is cut one text alone may be left.
pub fn carry_out<D: Disk>(disk: &mut D, plan: &MendPlan) -> Result<()>
    ensures any_moment { IsTrue D.honest → (c : Contents) → Holds (state_in (D.meaning disk.old)) (Some c) → Suits (seen (D.meaning disk.old)) c plan.now
        → LeavesOnly (D.meaning disk.old) (D.meaning disk.new) (λ image. ImageStandsFor image (store_of_contents c)) }
    ensures rested { IsTrue D.honest → (c : Contents) → Holds (state_in (D.meaning disk.old)) (Some c) → Suits (seen (D.meaning disk.old)) c plan.now
        → OnOk result (IsRested (state_in (D.meaning disk.new)) (with_active c)) }
    ensures elsewhere { IsTrue D.honest → (q : Name) → q ≢ string_bytes plan.now.active → All (λ file. q ≢ string_bytes file) plan.now.whole.items
        → All (λ e. q ≢ string_bytes e.name) plan.now.ends.items
        → (state_in (D.meaning disk.new) q).now ≡ (state_in (D.meaning disk.old) q).now }
    ensures cause { OnlyFaults (D.meaning disk.old) (D.meaning disk.new) result }
    // Where a crash may leave different stores, it leaves no others.
    ensures amid { IsTrue D.honest → WhereSuits (D.meaning disk.old) plan.now (λ c. LeavesAmid (D.meaning disk.old) (D.meaning disk.new)) }
    ensures ended { IsTrue D.honest
        → WhereSuits (D.meaning disk.old) plan.now (λ c.
        WhereAmid (D.meaning disk.old) (OnOk result (IsRested (state_in (D.meaning disk.new)) (with_active c)))) }
    ensures held { IsTrue D.honest → WhereSuits (D.meaning disk.old) plan.now (λ c. KeepsAmid (D.meaning disk.old) (D.meaning disk.new)) }
    ensures kinds { IsTrue D.honest → FitsAt (string_bytes plan.now.active) (File [] []) → StaysTidy (D.meaning disk.old) (D.meaning disk.new) }
    ensures served { IsTrue D.honest → IsTidy (state_in (D.meaning disk.old))
        → WhereSuits (D.meaning disk.old) plan.now (λ c. AllServed (D.meaning disk.old) (D.meaning disk.new)) }
{
    settle_root(disk, plan.active.as_str())?;
    sync_folders(disk, &plan.folders)?;
    sync_files(disk, &plan.whole)?;
    end_files(disk, &plan.ends)
}
