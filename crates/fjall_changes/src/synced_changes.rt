//! Changes of the keyspaces on the disk: the journal is synced before them.

ghost use Rattle.std.specs.Prelude.{◌≡◌, ℕ, codes, IsTrue, OnOk};
ghost use Rattle.fjall_base.specs.Disk.{LeavesOnly, OnlyFaults};
ghost use Rattle.fjall_files.specs.Regions.{Within};
ghost use Rattle.fjall_journal.specs.Writer.{written_out};
ghost use Rattle.fjall_meta.specs.Keyspaces.{Keyspaces};
ghost use Rattle.fjall_manifest.specs.declared.catalog.Catalog.{Catalog};
ghost use Rattle.fjall_manifest.specs.Updates.{IsUpdate};
ghost use Rattle.fjall_changes.specs.Changes.{IsCreation};
ghost use Rattle.fjall_changes.specs.SyncedChanges.{CreatedKeyspace, SyncsThenChanges, DeletedKeyspace};

use crate::creation::{Creation, create_keyspace};
use crate::deletion::delete_keyspace;
use crate::journaling::sync_journal;
use fjall_base::{Disk, Result};
use fjall_journal::{PersistMode, Writer};
use fjall_manifest::Update;

/// Syncs the journal, and then makes a keyspace.
pub fn sync_and_create_keyspace<D: Disk>(
    journal: &mut Writer,
    disk: &mut D,
    creation: &Creation,
) -> Result<()>
    ensures ok { OnOk result (journal.new ≡ written_out journal.old) }
    ensures turns { IsTrue D.honest → (old : Catalog) (s : Keyspaces) (id number : ℕ) → IsCreation old s id number creation.now
        → SyncsThenChanges (λ mid new done. CreatedKeyspace mid new creation.now done)
        (D.meaning disk.old) (D.meaning disk.new) journal.old journal.new result }
    ensures cause { OnlyFaults (D.meaning disk.old) (D.meaning disk.new) result }
{
    sync_journal(journal, disk, PersistMode::SyncAll)?;
    create_keyspace(disk, creation)
}

/// Syncs the journal, and then takes a keyspace out of the catalog.
pub fn sync_and_delete_keyspace<D: Disk>(
    journal: &mut Writer,
    disk: &mut D,
    update: &Update,
) -> Result<()>
    ensures ok { OnOk result (journal.new ≡ written_out journal.old) }
    ensures turns { IsTrue D.honest → (old : Catalog) (s : Keyspaces) (number : ℕ) → IsUpdate old s number update.now
        → SyncsThenChanges (λ mid new done. DeletedKeyspace mid new update.now done)
        (D.meaning disk.old) (D.meaning disk.new) journal.old journal.new result }
    ensures cause { OnlyFaults (D.meaning disk.old) (D.meaning disk.new) result }
{
    sync_journal(journal, disk, PersistMode::SyncAll)?;
    delete_keyspace(disk, update)
}
