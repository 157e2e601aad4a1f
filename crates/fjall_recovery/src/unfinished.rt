//! A folder whose making was cut short.

ghost use Rattle.std.specs.Prelude.{◌≡◌, ◌≤◌, ◌↔◌, [], IsTrue, IfErr, OnOk};
ghost use Rattle.fjall_base.specs.Disk.{Took};
ghost use Rattle.fjall_manifest.specs.Catalog.{records_in};
ghost use Rattle.fjall_recovery.specs.Folders.{AreEmpty, IsBegun};
ghost use Rattle.fjall_recovery.specs.Journals.{AreJournalIds};
ghost use Rattle.fjall_recovery.specs.Naming.{KeyspacesAreNamed};
ghost use Rattle.fjall_recovery.specs.Refusals.{BegunRefuses, HasRisen, IsDue, IsOpeningRefusal, UnfinishedRefuses};
ghost use Rattle.fjall_files.specs.Calls.{seen, AllServed};

use crate::file::read_text;
use crate::journals::read_one;
use crate::listing::list_keyspaces;
use fjall_base::{Disk, Error, Result};
use fjall_files::current_name;
use fjall_manifest::{first_record, read_current};
use std::alloc::Global;

/// Refuses journals of which one holds a whole batch. The journals that there are have these ids.
fn check_journals<D: Disk>(alloc: Global, disk: &mut D, ids: &[u64]) -> Result<()>
    ensures empty { IsTrue D.honest → AreJournalIds (seen (D.meaning disk.old)) ids.now → OnOk result (AreEmpty (seen (D.meaning disk.old))) }
    ensures same { IsTrue D.honest → Took (D.meaning disk.old) (D.meaning disk.new) [] }
    ensures served { IsTrue D.honest → AllServed (D.meaning disk.old) (D.meaning disk.new) }
    ensures later { (D.meaning disk.old).faults ≤ (D.meaning disk.new).faults }
    ensures risen { IfErr result (HasRisen (D.meaning disk.old).faults (D.meaning disk.new).faults) }
    ensures cause { IsTrue D.honest → AreJournalIds (seen (D.meaning disk.old)) ids.now
        → IfErr result (IsDue (λ error. (error ≡ Error.Unrecoverable) × (AreEmpty (seen (D.meaning disk.old)) → ⊥))) }
    ensures listed { IfErr result IsOpeningRefusal }
{
    for id in ids {
        let look = read_one(alloc, disk, *id, 0)?;
        if look.end > 0 {
            return Err(Error::Unrecoverable);
        }
    }
    Ok(())
}

/// Whether these bytes are those.
fn are_equal(bytes: &[u8], others: &[u8]) -> bool
    ensures { IsTrue result ↔ (bytes.now ≡ others.now) }
{
    bytes == others
}

/// Refuses a tree 0 that has another whole record than its first one.
fn check_tree<D: Disk>(alloc: Global, disk: &mut D) -> Result<()>
    ensures begun { IsTrue D.honest → OnOk result (IsBegun (records_in (seen (D.meaning disk.old)))) }
    ensures same { IsTrue D.honest → Took (D.meaning disk.old) (D.meaning disk.new) [] }
    ensures served { IsTrue D.honest → AllServed (D.meaning disk.old) (D.meaning disk.new) }
    ensures later { (D.meaning disk.old).faults ≤ (D.meaning disk.new).faults }
    ensures risen { IfErr result (HasRisen (D.meaning disk.old).faults (D.meaning disk.new).faults) }
    ensures cause { IsTrue D.honest → IfErr result (IsDue (BegunRefuses (records_in (seen (D.meaning disk.old))))) }
    ensures listed { IfErr result IsOpeningRefusal }
{
    let name = current_name(alloc, 0)?;
    let text = read_text(alloc, disk, &name)?;
    let first = first_record(alloc)?;
    let end = read_current(alloc, &text)?.end;
    if end == 0 {
        return Ok(());
    }
    if !are_equal(&text[..end], &first) {
        return Err(Error::Unrecoverable);
    }
    Ok(())
}

/// Refuses a folder without its marker that was written into. The journals that there are have these ids.
pub(crate) fn check_unfinished<D: Disk>(
    alloc: Global,
    disk: &mut D,
    journal_ids: &[u64],
) -> Result<()>
    ensures empty { IsTrue D.honest → AreJournalIds (seen (D.meaning disk.old)) journal_ids.now → OnOk result (AreEmpty (seen (D.meaning disk.old))) }
    ensures named { IsTrue D.honest → OnOk result (KeyspacesAreNamed (seen (D.meaning disk.old))) }
    ensures begun { IsTrue D.honest → OnOk result (IsBegun (records_in (seen (D.meaning disk.old)))) }
    ensures same { IsTrue D.honest → Took (D.meaning disk.old) (D.meaning disk.new) [] }
    ensures served { IsTrue D.honest → AllServed (D.meaning disk.old) (D.meaning disk.new) }
    ensures later { (D.meaning disk.old).faults ≤ (D.meaning disk.new).faults }
    ensures risen { IfErr result (HasRisen (D.meaning disk.old).faults (D.meaning disk.new).faults) }
    ensures cause { IsTrue D.honest → AreJournalIds (seen (D.meaning disk.old)) journal_ids.now
        → IfErr result (IsDue (UnfinishedRefuses (seen (D.meaning disk.old)))) }
    ensures listed { IfErr result IsOpeningRefusal }
{
    check_journals(alloc, disk, journal_ids)?;
    list_keyspaces(alloc, disk)?;
    check_tree(alloc, disk)
}
