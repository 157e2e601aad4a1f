//! The home of each keyspace: its last record, and the ends of its tables.

ghost use Rattle.std.specs.Prelude.{◌≡◌, ◌≤◌, ◌↔◌, [], IsTrue, IfErr, IfOk};
ghost use Rattle.fjall_base.specs.Disk.{Took};
ghost use Rattle.fjall_manifest.specs.Records.{view};
ghost use Rattle.fjall_meta.specs.Contents.{is_beyond};
ghost use Rattle.fjall_recovery.specs.Homes.{AreHomesRead, ClearsAreWithin, IsHomeRead};
ghost use Rattle.fjall_recovery.specs.Naming.{AreFolderIds};
ghost use Rattle.fjall_recovery.specs.Refusals.{HasRisen, HomeRefuses, HomesRefuse, IsDue, IsOpeningRefusal};
ghost use Rattle.fjall_files.specs.Calls.{seen, AllServed};

use fjall_base::{Disk, Error, Result, StorageError};
use fjall_manifest::{LoadedHome, Record, read_home};
use fjall_meta::LivingKeyspace;
use std::alloc::Global;

/// Whether a number is beyond the persisted one; where there is none, each is.
pub fn is_beyond(persisted: Option<u64>, number: u64) -> bool
    ensures { result ≡ is_beyond persisted number }
{
    match persisted {
        Some(last) => last < number,
        None => true,
    }
}

/// Whether no clear that a record tells is beyond its persisted number.
pub fn clears_are_within(last: &Record) -> bool
    ensures { IsTrue result ↔ ClearsAreWithin (view last.now) }
{
    last.clears
        .iter()
        .all(|number| !is_beyond(last.persisted, *number))
}

/// Reads the home of the keyspace of this id, whose folder is among those of these ids.
fn read_keyspace<D: Disk>(
    alloc: Global,
    disk: &mut D,
    folders: &[u64],
    id: u64,
) -> Result<LoadedHome>
    ensures read { IsTrue D.honest → AreFolderIds (seen (D.meaning disk.old)) folders.now → IfOk result (IsHomeRead (seen (D.meaning disk.old)) id) }
    ensures same { IsTrue D.honest → Took (D.meaning disk.old) (D.meaning disk.new) [] }
    ensures served { IsTrue D.honest → AllServed (D.meaning disk.old) (D.meaning disk.new) }
    ensures later { (D.meaning disk.old).faults ≤ (D.meaning disk.new).faults }
    ensures risen { IfErr result (HasRisen (D.meaning disk.old).faults (D.meaning disk.new).faults) }
    ensures cause { IsTrue D.honest → AreFolderIds (seen (D.meaning disk.old)) folders.now → IfErr result (IsDue (HomeRefuses (seen (D.meaning disk.old)) id)) }
    ensures listed { IfErr result IsOpeningRefusal }
{
    if !folders.contains(&id) {
        return Err(Error::Unrecoverable);
    }
    let home = read_home(alloc, disk, id)?;
    if !clears_are_within(&home.record) {
        return Err(Error::Storage(StorageError::RecordDamaged));
    }
    Ok(home)
}

/// Reads the homes of these keyspaces, one after another. The folders that there are have these ids.
///
/// A keyspace without a folder is `Unrecoverable`. One without a whole record is `Storage(RecordDamaged)`; one whose last
/// record names a table that is missing, of another length, or with a wrong footer or index is `Storage(TableDamaged)`; and
/// one of which that record tells of a clear beyond its persisted number is `Storage(RecordDamaged)`. No block is read.
pub(crate) fn read_homes<D: Disk>(
    alloc: Global,
    disk: &mut D,
    folders: &[u64],
    living: &[LivingKeyspace],
) -> Result<Vec<LoadedHome>>
    ensures read { IsTrue D.honest → AreFolderIds (seen (D.meaning disk.old)) folders.now
        → IfOk result (λ homes. AreHomesRead (seen (D.meaning disk.old)) living.now homes.items) }
    ensures same { IsTrue D.honest → Took (D.meaning disk.old) (D.meaning disk.new) [] }
    ensures served { IsTrue D.honest → AllServed (D.meaning disk.old) (D.meaning disk.new) }
    ensures later { (D.meaning disk.old).faults ≤ (D.meaning disk.new).faults }
    ensures risen { IfErr result (HasRisen (D.meaning disk.old).faults (D.meaning disk.new).faults) }
    ensures cause { IsTrue D.honest → AreFolderIds (seen (D.meaning disk.old)) folders.now
        → IfErr result (IsDue (HomesRefuse (seen (D.meaning disk.old)) living.now)) }
    ensures listed { IfErr result IsOpeningRefusal }
{
    let mut homes = Vec::new(alloc);
    for keyspace in living {
        let home = read_keyspace(alloc, disk, folders, keyspace.id)?;
        homes.push(home)?;
    }
    Ok(homes)
}
