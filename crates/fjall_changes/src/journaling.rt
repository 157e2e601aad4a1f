//! Changes on their way into the active journal: what a crash leaves is a beginning of their batches, behind all that was synced.

ghost use Rattle.std.specs.Prelude.{◌≡◌, ◌⊎◌, ◌++◌, [], ◌∷◌, false, IsTrue, OnOk, OnErr, IfErr, IsErrOf, IsOk, IsOkUnless, None, Ok, is_none};
ghost use Rattle.fjall_base.specs.Disk.{HasCause, LeavesOnly, OnlyFaults, Took, TookOrNot, state_in};
ghost use Rattle.fjall_journal.specs.Batches.{IsWritten};
ghost use Rattle.fjall_journal.specs.Changes.{change_text, of_change};
ghost use Rattle.fjall_journal.specs.Writer.{BatchTook, IsIo, PersistTook, ServesFile, Waits, WroteNone, WroteText, after_command, after_write, batch_steps, persist_steps, syncing_mode, written_out};
ghost use Rattle.fjall_files.specs.Tidy.{StaysTidy};
ghost use Rattle.fjall_changes.specs.Journaling.{IsWriting, LeavesRoot, TookIn, after_mode, after_persist, out_in, steps_in, with_batch, ForFollowing, ForWriting, KeepsKeyspaces, is_out};
ghost use Rattle.fjall_changes.specs.Given.{ChangesSome, FitsBatch, meant};

use fjall_base::{Disk, Error, Result};
use fjall_journal::{BatchItem, OpRef, PersistMode, Writer};

/// What one command of the journal changes: items of keyspaces, one key of a keyspace, or a keyspace that is emptied.
#[derive(Clone, Copy)]
pub enum Change<'a> {
    Items(&'a [BatchItem]),
    /// As one item of this keyspace, whose key and value are lent.
    Item(u64, &'a [u8], OpRef<'a>),
    Emptied(u64),
}

/// Writes a change as one batch behind what waits. Without a mode all waits in the writer's buffer while that has less
/// than 8,192 bytes; with one all is handed to the disk and, in the two sync modes, the journal is synced: then no crash
/// loses the batch.
///
/// Where the change is of items there is one, and they are ones that a batch may have: none is refused. Want of memory
/// changes nothing. Where the disk fails, some beginning of the bytes may be in the file, or all of them where the sync
/// failed, and the writer must not be used again.
pub fn append_change<D: Disk>(
    journal: &mut Writer,
    disk: &mut D,
    mode: Option<PersistMode>,
    change: Change,
    seqno: u64,
) -> Result<()>
    requires fits { FitsBatch (meant change) }
    requires some { ChangesSome (meant change) }
    ensures ok { OnOk result (journal.new ≡ after_command (is_none mode) journal.old (change_text (meant change.entry) seqno)) }
    ensures memory { IsErrOf result Error.OutOfMemory → journal.new ≡ journal.old }
    ensures untouched { IsErrOf result Error.OutOfMemory → D.meaning disk.new ≡ D.meaning disk.old }
    ensures served { IsTrue D.honest → ForWriting (D.meaning disk.old) journal.old (λ j. (D.meaning disk.new).misuses ≡ (D.meaning disk.old).misuses) }
    ensures cause { HasCause (D.meaning disk.old) (D.meaning disk.new) result }
    // Where it waits nothing goes to the disk, and no fault can come.
    ensures waits { is_out mode journal.old (of_change (meant change.entry) seqno) ≡ false → D.meaning disk.new ≡ D.meaning disk.old }
    ensures faultless { is_out mode journal.old (of_change (meant change.entry) seqno) ≡ false → IsOkUnless result Error.OutOfMemory }
    ensures took { IsTrue D.honest
        → OnOk result (Took (D.meaning disk.old) (D.meaning disk.new) (batch_steps mode journal.old (change_text (meant change.entry) seqno))) }
    ensures part { IsTrue D.honest
        → OnErr result (BatchTook mode (D.meaning disk.old) (D.meaning disk.new) journal.old (change_text (meant change.entry) seqno)) }
    // A crash at any moment, also at the last one of a call that fails, leaves the batch or not.
    ensures any_moment { IsTrue D.honest → ForFollowing (D.meaning disk.old) journal.old seqno (λ j.
        LeavesOnly (D.meaning disk.old) (D.meaning disk.new) (LeavesRoot (state_in (D.meaning disk.old)) j (j.later ++ of_change (meant change.entry) seqno ∷ []))) }
    ensures lies { IsTrue D.honest → ForFollowing (D.meaning disk.old) journal.old seqno (λ j.
        let batch = of_change (meant change.entry) seqno in
        OnOk result (IsWriting (state_in (D.meaning disk.new)) journal.new (after_mode mode (with_batch (is_out mode journal.old batch) j batch)))) }
    ensures elsewhere { IsTrue D.honest → ForWriting (D.meaning disk.old) journal.old (λ j. KeepsKeyspaces (D.meaning disk.old) (D.meaning disk.new)) }
    ensures kinds { IsTrue D.honest → StaysTidy (D.meaning disk.old) (D.meaning disk.new) }
{
    write_change(journal, disk, change, seqno)?;
    persist_in(journal, disk, mode)
}

// Writes the batch of a change behind what waits, and answers the length of its text. All waits in the writer's buffer while that
// has less than 8,192 bytes.
fn write_change<D: Disk>(
    journal: &mut Writer,
    disk: &mut D,
    change: Change,
    seqno: u64,
) -> Result<usize>
    requires fits { FitsBatch (meant change) }
    requires some { ChangesSome (meant change) }
    ensures ok { OnOk result (journal.new ≡ after_write journal.old (change_text (meant change.entry) seqno)) }
    ensures written { OnOk result (IsWritten (of_change (meant change.entry) seqno)) }
    // So it has a text also where the disk fails.
    ensures tried { IfErr result (λ e. IsIo e → IsWritten (of_change (meant change.entry) seqno)) }
    ensures unchanged { OnErr result (journal.new ≡ journal.old) }
    ensures took { IsTrue D.honest
        → OnOk result (WroteText (D.meaning disk.old) (D.meaning disk.new) journal.old (change_text (meant change.entry) seqno)) }
    ensures part { IsTrue D.honest
        → IfErr result (WroteNone (D.meaning disk.old) (D.meaning disk.new) journal.old (change_text (meant change.entry) seqno)) }
    ensures untouched { IsErrOf result Error.OutOfMemory → D.meaning disk.new ≡ D.meaning disk.old }
    ensures served { IsTrue D.honest → ServesFile (D.meaning disk.old) (D.meaning disk.new) journal.old.name }
    ensures cause { HasCause (D.meaning disk.old) (D.meaning disk.new) result }
    ensures waits { Waits journal.old (change_text (meant change.entry) seqno) → D.meaning disk.new ≡ D.meaning disk.old }
    ensures faultless { Waits journal.old (change_text (meant change.entry) seqno) → IsOkUnless result Error.OutOfMemory }
{
    match change {
        Change::Items(items) => journal.write_batch(disk, items, seqno),
        Change::Item(id, key, op) => {
            journal.write_raw(disk, id, key, op.bytes(), op.value_type(), seqno)
        }
        Change::Emptied(keyspace_id) => journal.write_clear(disk, keyspace_id, seqno),
    }
}

// Where there is a mode, hands all that waits to the disk and, in the two sync modes, syncs the journal.
fn persist_in<D: Disk>(journal: &mut Writer, disk: &mut D, mode: Option<PersistMode>) -> Result<()>
    ensures ok { OnOk result (journal.new ≡ out_in mode journal.old) }
    ensures unasked { mode ≡ None → (result ≡ Ok tt) × (D.meaning disk.new ≡ D.meaning disk.old) }
    ensures took { IsTrue D.honest → OnOk result (Took (D.meaning disk.old) (D.meaning disk.new) (steps_in mode journal.old)) }
    ensures nothing { IsTrue D.honest → journal.old.buffer ≡ []
        → OnErr result (TookOrNot (D.meaning disk.old) (D.meaning disk.new) (syncing_mode journal.old.name mode)) }
    ensures left { IsTrue D.honest → OnErr result (TookIn mode journal.old journal.new (D.meaning disk.old) (D.meaning disk.new)) }
    ensures served { IsTrue D.honest → ServesFile (D.meaning disk.old) (D.meaning disk.new) journal.old.name }
    ensures cause { OnlyFaults (D.meaning disk.old) (D.meaning disk.new) result }
{
    match mode {
        None => Ok(()),
        Some(mode) => journal.persist(disk, mode),
    }
}

/// Hands what waits to the disk and, in the two sync modes, syncs the journal: then no crash loses any of it.
///
/// A refusal is a fault of the disk. Then some beginning of what waited, or all of it, may be in the file, and the writer
/// must not be used again.
pub fn sync_journal<D: Disk>(journal: &mut Writer, disk: &mut D, mode: PersistMode) -> Result<()>
    ensures ok { OnOk result (journal.new ≡ written_out journal.old) }
    ensures part { OnErr result ((journal.new ≡ journal.old) ⊎ (journal.new ≡ written_out journal.old)) }
    ensures took { IsTrue D.honest → OnOk result (Took (D.meaning disk.old) (D.meaning disk.new) (persist_steps journal.old mode)) }
    ensures left { IsTrue D.honest → OnErr result (PersistTook journal.old journal.new mode (D.meaning disk.old) (D.meaning disk.new)) }
    ensures succeeds { mode ≡ PersistMode.Buffer → journal.old.buffer ≡ [] → IsOk result }
    ensures served { IsTrue D.honest → ForWriting (D.meaning disk.old) journal.old (λ j. (D.meaning disk.new).misuses ≡ (D.meaning disk.old).misuses) }
    ensures cause { OnlyFaults (D.meaning disk.old) (D.meaning disk.new) result }
    ensures any_moment { IsTrue D.honest → ForWriting (D.meaning disk.old) journal.old (λ j.
        LeavesOnly (D.meaning disk.old) (D.meaning disk.new) (LeavesRoot (state_in (D.meaning disk.old)) j j.later)) }
    ensures lies { IsTrue D.honest → ForWriting (D.meaning disk.old) journal.old (λ j.
        OnOk result (IsWriting (state_in (D.meaning disk.new)) journal.new (after_persist mode j))) }
    ensures elsewhere { IsTrue D.honest → ForWriting (D.meaning disk.old) journal.old (λ j. KeepsKeyspaces (D.meaning disk.old) (D.meaning disk.new)) }
    ensures kinds { IsTrue D.honest → StaysTidy (D.meaning disk.old) (D.meaning disk.new) }
{
    journal.persist(disk, mode)
}
