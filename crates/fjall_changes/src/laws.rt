//! What holds of the active journal between two calls.

ghost use Rattle.std.specs.Prelude.{◌≡◌, ◌+◌, Bool, [], Option};
ghost use Rattle.fjall_base.specs.Disk.{DiskState, Image, IsImage};
ghost use Rattle.fjall_journal.specs.Batches.{Written};
ghost use Rattle.fjall_journal.specs.Writer.{Journal};
ghost use Rattle.fjall_journal.specs.declared.persist_mode.PersistMode.{PersistMode};
ghost use Rattle.fjall_files.specs.Names.{journal_name};
ghost use Rattle.fjall_recovery.specs.Halves.{HasRoot};
ghost use Rattle.fjall_recovery.specs.Places.{Journaling, LiesInRoot, journals_with};
ghost use Rattle.fjall_changes.specs.Journaling.{IsWriting, LeavesRoot, after_mode, after_persist, next_number, with_batch};

/// Where all batches are synced, a writer of the active journal with an empty buffer goes on behind them.
pub fn a_writer_begins()
    ensures { (state : DiskState) (writer : Journal) (j : Journaling) → LiesInRoot state j → j.later ≡ []
        → writer.name ≡ journal_name j.active → writer.buffer ≡ [] → IsWriting state writer j }
{}

/// A crash leaves the synced batches, and of those behind them a beginning.
pub fn crashes_leave_some()
    ensures { (state : DiskState) (writer : Journal) (j : Journaling) (image : Image) → IsWriting state writer j
        → IsImage state image → LeavesRoot state j j.later image }
{}

/// Where all batches are synced, a crash leaves just these.
pub fn synced_batches_stay()
    ensures { (state : DiskState) (writer : Journal) (j : Journaling) (image : Image) → IsWriting state writer j
        → j.later ≡ [] → IsImage state image → HasRoot image (journals_with j []) }
{}

/// The journals hold the same once all was handed over, in whatever mode.
pub fn a_persist_keeps_all()
    ensures { (mode : PersistMode) (j : Journaling) → journals_with (after_persist mode j) (after_persist mode j).later ≡ journals_with j j.later }
{}

/// The least number behind a batch is one more than the batch's, in whatever mode it was written.
pub fn numbers_go_on()
    ensures { (mode : Option PersistMode) (out : Bool) (j : Journaling) (batch : Written)
        → next_number (after_mode mode (with_batch out j batch)) ≡ batch.number + 1 }
{}
