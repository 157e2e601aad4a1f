//! The marker, with which a database is made.

ghost use Rattle.std.specs.Prelude.{◌≡◌, ◌<◌, ◌^◌, ℕ, false, true, codes, IsTrue, List, OnOk};
ghost use Rattle.fjall_base.specs.declared.error.FormatVersion.TheVariants.{V3};
ghost use Rattle.fjall_base.specs.Disk.{IsFile, LeavesOnly, OnlyFaults, state_in};
ghost use Rattle.fjall_meta.specs.Keyspaces.{no_keyspaces};
ghost use Rattle.fjall_files.specs.Calls.{seen, AllServed};
ghost use Rattle.fjall_files.specs.Marker.{header as header_of};
ghost use Rattle.fjall_files.specs.Tidy.{IsTidy, StaysTidy};
ghost use Rattle.fjall_files.specs.Names.{journal_name};
ghost use Rattle.fjall_meta.specs.Replays.{bare};
ghost use Rattle.fjall_recovery.specs.Folders.{ImageStandsFor, IsUnfinished};
ghost use Rattle.fjall_repair.specs.Begun.{IsBegunOn};
ghost use Rattle.fjall_repair.specs.Making.{IsKept, KeepsHomeRecords, KeepsAllTables, ComesBackUnfinished};
ghost use Rattle.fjall_repair.specs.Plans.{AwaitsMarker, FindsAt};

use crate::beginning::file::complete_file;
use crate::beginning::plan::FileState;
use fjall_base::{Disk, Result};
use fjall_files::MARKER_FILE;

/// Writes the marker, of which this was found, where nothing else is to be done.
pub(crate) fn mark<D: Disk>(disk: &mut D, found: FileState, header: &[u8]) -> Result<()>
    ensures any_moment { IsTrue D.honest → header.now ≡ header_of V3 → FindsAt (seen (D.meaning disk.old)) (codes "version") (header_of V3) found
        → IsKept true (state_in (D.meaning disk.old))
        → (sealed : List ℕ) (active : ℕ) → AwaitsMarker (state_in (D.meaning disk.old)) sealed active
        → LeavesOnly (D.meaning disk.old) (D.meaning disk.new) (λ image. ImageStandsFor image (bare no_keyspaces)) }
    ensures tables { IsTrue D.honest → KeepsAllTables (state_in (D.meaning disk.old)) (state_in (D.meaning disk.new)) }
    ensures begun { IsTrue D.honest → header.now ≡ header_of V3 → FindsAt (seen (D.meaning disk.old)) (codes "version") (header_of V3) found
        → (sealed : List ℕ) (active : ℕ) → AwaitsMarker (state_in (D.meaning disk.old)) sealed active
        → OnOk result (IsBegunOn (state_in (D.meaning disk.new)) sealed active) }
    ensures cause { OnlyFaults (D.meaning disk.old) (D.meaning disk.new) result }
    ensures kinds { IsTrue D.honest → StaysTidy (D.meaning disk.old) (D.meaning disk.new) }
    ensures homes { IsTrue D.honest → KeepsHomeRecords (state_in (D.meaning disk.old)) (state_in (D.meaning disk.new)) }
    ensures served { IsTrue D.honest → IsTidy (state_in (D.meaning disk.old)) → header.now ≡ header_of V3
        → FindsAt (seen (D.meaning disk.old)) (codes "version") (header_of V3) found
        → AllServed (D.meaning disk.old) (D.meaning disk.new) }
    // Where what stands is unfinished still, so is whatever may come back.
    ensures back { IsTrue D.honest → header.now ≡ header_of V3 → FindsAt (seen (D.meaning disk.old)) (codes "version") (header_of V3) found
        → IsKept false (state_in (D.meaning disk.old))
        → IsUnfinished (seen (D.meaning disk.new)) → ComesBackUnfinished (state_in (D.meaning disk.new)) }
    ensures journal { IsTrue D.honest → (sealed : List ℕ) (active : ℕ) → AwaitsMarker (state_in (D.meaning disk.old)) sealed active
        → (active < 2 ^ 64) × IsFile (seen (D.meaning disk.new) (journal_name active)) }
{
    complete_file(disk, MARKER_FILE, found, header)?;
    disk.sync_folder("")
}
