//! A database opened: all of its folder is read before anything is changed, and the store is the same at each moment.

ghost use Rattle.std.specs.Prelude.{◌≡◌, ◌≤◌, [], IfErr, IfOk, IsErrAnd, IsTrue, None, Option, Some};
ghost use Rattle.fjall_base.specs.declared.error.Error.{Error};
ghost use Rattle.fjall_base.specs.Disk.{LeavesOnly, state_in};
ghost use Rattle.fjall_files.specs.Calls.{seen, AllServed};
ghost use Rattle.fjall_files.specs.Tidy.{IsTidy, StaysTidy};
ghost use Rattle.fjall_meta.specs.Keyspaces.{no_keyspaces};
ghost use Rattle.fjall_trees.specs.Views.{forest_of};
ghost use Rattle.fjall_meta.specs.Replays.{bare};
ghost use Rattle.fjall_recovery.specs.Amid.{LeavesAmid, KeepsAmid, WhereAmid};
ghost use Rattle.fjall_recovery.specs.Folders.{Contents, ImageStandsFor, IsFinished, IsNumbered, IsUnfinished, number_of_contents as number_in, store_of_contents};
ghost use Rattle.fjall_recovery.specs.Refusals.{AreOne, FolderRefusesIn, HasRisen, HasTornTail, IsDue, IsOpeningRefusal, IsTornTail};
ghost use Rattle.fjall_recovery.specs.Held.{Holds, IsFolder, IsOpenFolder, store_of_folder};
ghost use Rattle.fjall_opening.specs.Readings.{WhereOpenable, WhereRead, WhereSound};
ghost use Rattle.fjall_repair.specs.Making.{ComesBackUnfinished};
ghost use Rattle.fjall_opening.specs.Opened.{ComesBack, HasNoJournal, IsHeldUp, IsLawfulOpening, IsOpenedFrom, IsUnopened, OpensFolder, ReadsFrom, WritesJournal};
ghost use Rattle.fjall_repair.specs.Sweeps.{IsSwept};

use crate::opened::Opened;
use crate::ready::{ToBegin, ToMend, ready_to_begin, ready_to_mend};
use crate::repair::{begin_and_sweep, mend_and_sweep};
use fjall_base::{Disk, Result};
use fjall_journal::RecoveryMode;
use fjall_recovery::{RecoveredFolder, read_folder};
use std::alloc::Global;

/// Opens a folder in which no database was made to its end.
fn open_unfinished<D: Disk>(alloc: Global, disk: &mut D) -> Result<Opened>
    ensures opened { IsTrue D.honest → Holds (state_in (D.meaning disk.old)) None → IfOk result (OpensFolder (D.meaning disk.new) None) }
    ensures swept { IsTrue D.honest → IfOk result (λ o. IsSwept (state_in (D.meaning disk.old)) (state_in (D.meaning disk.new)) o.catalog o.keyspaces.living) }
    ensures keyspaces { IfOk result (λ o. o.keyspaces ≡ no_keyspaces) }
    ensures trees { IfOk result (λ o. forest_of o.trees ≡ []) }
    ensures number { IfOk result (λ o. o.number ≡ 0) }
    ensures writes { IsTrue D.honest → IfOk result WritesJournal }
    ensures fresh { IsTrue D.honest → HasNoJournal (seen (D.meaning disk.old)) → IfOk result (λ o. o.sealed ≡ []) }
    ensures lawful { IfOk result IsLawfulOpening }
    ensures any_moment { IsTrue D.honest → Holds (state_in (D.meaning disk.old)) None → ComesBackUnfinished (state_in (D.meaning disk.old))
        → LeavesOnly (D.meaning disk.old) (D.meaning disk.new) (λ image. ImageStandsFor image (bare no_keyspaces)) }
    ensures later { (D.meaning disk.old).faults ≤ (D.meaning disk.new).faults }
    ensures risen { IfErr result (HasRisen (D.meaning disk.old).faults (D.meaning disk.new).faults) }
    ensures due { IsTrue D.honest → IsUnfinished (seen (D.meaning disk.old)) → IfErr result (IsHeldUp (D.meaning disk.old) (D.meaning disk.new)) }
    ensures listed { IfErr result IsOpeningRefusal }
    // Where a crash of the disk leaves different stores, so does one of this call; what stands is opened.
    ensures amid { IsTrue D.honest → IsUnfinished (seen (D.meaning disk.old)) → LeavesAmid (D.meaning disk.old) (D.meaning disk.new) }
    ensures opens { IsTrue D.honest → IsUnfinished (seen (D.meaning disk.old)) → IfOk result (OpensFolder (D.meaning disk.new) None) }
    ensures held { IsTrue D.honest → IsUnfinished (seen (D.meaning disk.old)) → KeepsAmid (D.meaning disk.old) (D.meaning disk.new) }
    ensures kinds { IsTrue D.honest → StaysTidy (D.meaning disk.old) (D.meaning disk.new) }
    ensures served { IsTrue D.honest → IsTidy (state_in (D.meaning disk.old)) → AllServed (D.meaning disk.old) (D.meaning disk.new) }
{
    let ToBegin {
        opened,
        making,
        sweep,
    } = ready_to_begin(alloc, disk)?;
    begin_and_sweep(disk, &making, &sweep)?;
    Ok(opened)
}

/// Opens a folder that was made to its end and read.
fn open_finished<D: Disk>(alloc: Global, disk: &mut D, found: RecoveredFolder) -> Result<Opened>
    requires { IsNumbered found }
    ensures opened { IsTrue D.honest
        → WhereRead (D.meaning disk.old) found (λ contents. Holds (state_in (D.meaning disk.old)) (Some contents)
        → IfOk result (OpensFolder (D.meaning disk.new) (Some contents))) }
    ensures swept { IsTrue D.honest → IsFinished (seen (D.meaning disk.old)) found
        → IfOk result (λ o. IsSwept (state_in (D.meaning disk.old)) (state_in (D.meaning disk.new)) o.catalog o.keyspaces.living) }
    ensures from { IsTrue D.honest
        → WhereOpenable (D.meaning disk.old) found (λ contents. IfOk result (ReadsFrom (D.meaning disk.old) (D.meaning disk.new) contents)) }
    ensures number { IsTrue D.honest → WhereRead (D.meaning disk.old) found (λ contents. IfOk result (λ o. o.number ≡ number_in contents)) }
    ensures writes { IsTrue D.honest → IsFinished (seen (D.meaning disk.old)) found → IfOk result WritesJournal }
    ensures fresh { IsTrue D.honest → IsFinished (seen (D.meaning disk.old)) found → HasNoJournal (seen (D.meaning disk.old)) → IfOk result (λ o. o.sealed ≡ []) }
    ensures lawful { IfOk result IsLawfulOpening }
    ensures any_moment { IsTrue D.honest → WhereRead (D.meaning disk.old) found (λ contents. Holds (state_in (D.meaning disk.old)) (Some contents)
        → LeavesOnly (D.meaning disk.old) (D.meaning disk.new) (λ image. ImageStandsFor image (store_of_contents contents))) }
    ensures later { (D.meaning disk.old).faults ≤ (D.meaning disk.new).faults }
    ensures risen { IfErr result (HasRisen (D.meaning disk.old).faults (D.meaning disk.new).faults) }
    ensures due { IsTrue D.honest → WhereRead (D.meaning disk.old) found (λ contents. IfErr result (IsHeldUp (D.meaning disk.old) (D.meaning disk.new))) }
    ensures listed { IfErr result IsOpeningRefusal }
    // Where a crash of the disk leaves different stores, so does one of this call; what stands is opened.
    ensures amid { IsTrue D.honest → WhereOpenable (D.meaning disk.old) found (λ contents. LeavesAmid (D.meaning disk.old) (D.meaning disk.new)) }
    ensures opens { IsTrue D.honest
        → WhereSound (D.meaning disk.old) found (λ contents.
        WhereAmid (D.meaning disk.old) (IfOk result (OpensFolder (D.meaning disk.new) (Some contents)))) }
    ensures held { IsTrue D.honest → WhereOpenable (D.meaning disk.old) found (λ contents. KeepsAmid (D.meaning disk.old) (D.meaning disk.new)) }
    ensures kinds { IsTrue D.honest → IsFinished (seen (D.meaning disk.old)) found → StaysTidy (D.meaning disk.old) (D.meaning disk.new) }
    ensures served { IsTrue D.honest → IsTidy (state_in (D.meaning disk.old))
        → WhereOpenable (D.meaning disk.old) found (λ contents. AllServed (D.meaning disk.old) (D.meaning disk.new)) }
{
    let ToMend {
        opened,
        mending,
        sweep,
    } = ready_to_mend(alloc, disk, found)?;
    mend_and_sweep(disk, &mending, &sweep)?;
    Ok(opened)
}

/// Opens the database in a folder: the folder is read whole, a database is begun in it or the one that it holds is
/// mended, and what no record names is removed: tables, and the folders of keyspaces that don't live.
///
/// Such a folder goes only where all that stands in it are files with the engine's own names, `current` or a table's. One
/// that holds anything else is left wholly as it stands, and the opening goes on: once that is gone, the next one removes it.
///
/// No block of a keyspace's table is read: a folder with a wrong one opens, and that is met by the read that wants it.
///
/// Where the folder is refused, or memory runs out, nothing of the disk has changed: the refusals are those of
/// `read_folder` in this mode, and all memory is got before the first change. `Io` comes for a fault of the disk, and then a
/// new open goes on. Whatever a crash leaves at any moment of the call stands for the store that the folder stood for.
pub fn open_folder<D: Disk>(alloc: Global, disk: &mut D, mode: RecoveryMode) -> Result<Opened>
    ensures opened { IsTrue D.honest → (folder : Option Contents) → Holds (state_in (D.meaning disk.old)) folder
        → IfOk result (OpensFolder (D.meaning disk.new) folder) }
    // Nothing of the engine's own is left that no record names.
    ensures swept { IsTrue D.honest → IfOk result (λ o. IsSwept (state_in (D.meaning disk.old)) (state_in (D.meaning disk.new)) o.catalog o.keyspaces.living) }
    ensures found { IsTrue D.honest → IfOk result (IsOpenedFrom (D.meaning disk.old) (D.meaning disk.new)) }
    // Its writer goes on in a journal's file, whatever blocks of tables are wrong.
    ensures writes { IsTrue D.honest → IfOk result WritesJournal }
    // None is sealed where there was no journal.
    ensures fresh { IsTrue D.honest → HasNoJournal (seen (D.meaning disk.old)) → IfOk result (λ o. o.sealed ≡ []) }
    ensures lawful { IfOk result IsLawfulOpening }
    // A crash at any moment of the call, also of one that fails, leaves a folder of the same store.
    ensures any_moment { IsTrue D.honest → (folder : Option Contents) → Holds (state_in (D.meaning disk.old)) folder
        → ComesBack (state_in (D.meaning disk.old)) folder
        → LeavesOnly (D.meaning disk.old) (D.meaning disk.new) (λ image. ImageStandsFor image (store_of_folder folder)) }
    ensures later { (D.meaning disk.old).faults ≤ (D.meaning disk.new).faults }
    ensures risen { IfErr result (HasRisen (D.meaning disk.old).faults (D.meaning disk.new).faults) }
    ensures due { IsTrue D.honest → IfErr result (IsUnopened mode (D.meaning disk.old) (D.meaning disk.new)) }
    // Where the folder is refused in this mode, this is refused with that error, unless memory runs out or the disk fails.
    ensures refuses { IsTrue D.honest → (error : Error) → FolderRefusesIn mode (seen (D.meaning disk.old)) error → IsErrAnd result (IsDue (AreOne error)) }
    // A folder in which nothing is wrong is opened then, or refused for its torn tail where the mode does that.
    ensures opens_or_torn { IsTrue D.honest → (folder : Option Contents) → IsOpenFolder (seen (D.meaning disk.old)) folder
        → IfErr result (IsDue (IsTornTail mode (HasTornTail (seen (D.meaning disk.old))))) }
    // Over any disk at all it is refused with one of these alone.
    ensures listed { IfErr result IsOpeningRefusal }
    // The same of a disk of which a crash may leave different stores, as an opening that failed leaves it: what stands is
    // opened, and a crash at any moment leaves the base with a beginning of the pending commands.
    ensures amid { IsTrue D.honest → LeavesAmid (D.meaning disk.old) (D.meaning disk.new) }
    ensures opens { IsTrue D.honest → (folder : Option Contents) → IsFolder (seen (D.meaning disk.old)) folder
        → WhereAmid (D.meaning disk.old) (IfOk result (OpensFolder (D.meaning disk.new) folder)) }
    // Then the disk holds them still, so that an opening after one that failed finds what that one found.
    ensures held { IsTrue D.honest → KeepsAmid (D.meaning disk.old) (D.meaning disk.new) }
    // Nothing is put in the way of what the engine makes and removes.
    ensures kinds { IsTrue D.honest → StaysTidy (D.meaning disk.old) (D.meaning disk.new) }
    // Where nothing stands in the way, each call of the disk was one that it can serve, also where the folder is refused.
    ensures served { IsTrue D.honest → IsTidy (state_in (D.meaning disk.old)) → AllServed (D.meaning disk.old) (D.meaning disk.new) }
{
    match read_folder(alloc, disk, mode)? {
        Some(found) => open_finished(alloc, disk, found),
        None => open_unfinished(alloc, disk),
    }
}
