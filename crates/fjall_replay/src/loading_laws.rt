//! What opened and replayed trees stand for.

ghost use Rattle.std.specs.Prelude.{◌≡◌, map};
ghost use Rattle.fjall_base.specs.Disk.{Meaning};
ghost use Rattle.fjall_journal.specs.Batches.{shown};
ghost use Rattle.fjall_replay.specs.Opening.{ShowsStored};
ghost use Rattle.fjall_trees.specs.MapTables.{store_with};
ghost use Rattle.fjall_recovery.specs.Folders.{Contents, store_of_contents};
ghost use Rattle.fjall_recovery.specs.Homes.{stored_in};
ghost use Rattle.fjall_recovery.specs.Journals.{batches_in};
ghost use Rattle.fjall_replay.specs.Beside.{AreReplayedWith};
ghost use Rattle.fjall_trees.specs.Forests.{Forest};

/// Where a folder's trees were opened over tables that stay on the disk, and the batches of all its journals were replayed into
/// them, the trees and their tables stand for the store that the folder stands for.
pub fn opened_trees_show_the_store()
    ensures { (disk : Meaning) (c : Contents) (old new : Forest) (opened : ShowsStored disk c c.versions old)
        → AreReplayedWith opened.entries c.keyspaces (stored_in c.homes c.versions) (map shown (batches_in c.journals)) new
        → store_with opened.entries c.keyspaces new ≡ store_of_contents c }
{}
