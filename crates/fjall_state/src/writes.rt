//! Changes of keys: what the items of a batch, or a clear, make of the trees, and their way to the journal.

ghost use Rattle.std.specs.Prelude.{◌≡◌, ◌<◌, ◌^◌, ◌++◌, ◌∷◌, [], false, is_none, IfOk, IsErrOf, IsOkUnless, IsTrue, OnErr, OnOk};
ghost use Rattle.fjall_base.specs.Disk.{HasCause, LeavesOnly, Took, state_in};
ghost use Rattle.fjall_files.specs.Tidy.{StaysTidy};
ghost use Rattle.fjall_journal.specs.Changes.{change_text, of_change};
ghost use Rattle.fjall_journal.specs.Writer.{BatchTook, after_command, batch_steps};
ghost use Rattle.fjall_files.specs.Places.{marked, told};
ghost use Rattle.fjall_trees.specs.Forests.{AreBefore, IsForest};
ghost use Rattle.fjall_trees.specs.Maps.{store_of};
ghost use Rattle.fjall_trees.specs.Views.{AreMarksOfTrees, forest_before, forest_of};
ghost use Rattle.fjall_changes.specs.Given.{ChangesSome, FitsBatch, meant};
ghost use Rattle.fjall_changes.specs.Journaling.{ForFollowing, ForWriting, IsWriting, KeepsKeyspaces, LeavesRoot, after_mode, is_out, with_batch};
ghost use Rattle.fjall_machine.specs.Allowed.{IsOfLiving};
ghost use Rattle.fjall_machine.specs.Machine.{changed};
ghost use Rattle.fjall_machine.specs.Remembered.{IsLawful, with_change};
ghost use Rattle.fjall_state.specs.Changes.{HavePlaces};

use crate::engine_state::EngineState;
use fjall_base::{Disk, Error, Result};
use fjall_changes::{Change, append_change};
use fjall_files::ActiveWatermarks;
use fjall_journal::{PersistMode, Writer};
use fjall_trees::{Marks, Trees};
use std::alloc::AllocError;

// Makes a place for the watermark of each keyspace that a change is of. No watermark changes.
fn make_places(watermarks: &mut ActiveWatermarks, change: Change) -> Result<()>
    ensures places { OnOk result (HavePlaces watermarks.new (meant change.entry)) }
    ensures told { told watermarks.new ≡ told watermarks.old }
    ensures only { IsOkUnless result Error.OutOfMemory }
{
    match change {
        Change::Items(items) => watermarks.make_places(items),
        Change::Item(id, _, _) => watermarks.make_place(id),
        Change::Emptied(id) => watermarks.make_place(id),
    }
}

// Changes the trees under this number, above all that they hold. It answers marks of them as they were. It is refused for want
// of memory alone, and an `Err` leaves all as it was.
fn change_trees(
    trees: &mut Trees,
    change: Change,
    number: u64,
) -> std::result::Result<Marks, AllocError>
    requires forest { IsForest (forest_of trees.old) }
    requires before { AreBefore number (forest_of trees.old) }
    requires small { number < 2 ^ 63 }
    requires fits { FitsBatch (meant change) }
    ensures ok { OnOk result (forest_of trees.new ≡ changed number (meant change.entry) (forest_of trees.old)) }
    ensures marks { IfOk result (λ marks. AreMarksOfTrees trees.new marks × (forest_before marks trees.new ≡ forest_of trees.old)) }
    ensures err { OnErr result (forest_of trees.new ≡ forest_of trees.old) }
{
    match change {
        Change::Items(items) => trees.push_items(items, number),
        Change::Item(id, key, op) => trees.push_one(id, key, op, number),
        Change::Emptied(id) => trees.clear(id, number),
    }
}

// Raises the watermarks of the keyspaces that a change is of, which have places, to at least its number. It takes no memory.
fn raise(watermarks: &mut ActiveWatermarks, change: Change, number: u64)
    requires places { HavePlaces watermarks.old (meant change) }
    ensures { told watermarks.new ≡ marked number (meant change.entry) (told watermarks.old) }
{
    match change {
        Change::Items(items) => watermarks.raise_all(items, number),
        Change::Item(id, _, _) => watermarks.raise(id, number),
        Change::Emptied(id) => watermarks.raise(id, number),
    }
}

impl EngineState {
    /// Keeps what a change makes of its keyspaces, under the next number, raises the watermarks of these, and hands the change to
    /// the journal as one batch, by this mode or none. Of two items of one key the later one counts. All memory is got before the
    /// first byte goes to the disk.
    ///
    /// Where the change is of items there is one, and they are ones that a batch may have. The keyspaces that it is of live. After
    /// a refusal, for want of memory or by a fault of the disk, what is held in memory is as before. Want of memory leaves the
    /// journal and the disk as they were too. Where the disk fails, some beginning of the bytes may be in the file, or all of them
    /// where the sync failed, and the journal must not be used again.
    pub fn change<D: Disk>(
        &mut self,
        journal: &mut Writer,
        disk: &mut D,
        change: Change,
        mode: Option<PersistMode>,
    ) -> Result<()>
        requires fits { FitsBatch (meant change) }
        requires some { ChangesSome (meant change) }
        requires living { IsOfLiving (store_of self.old.keyspaces self.old.trees) (meant change) }
        requires numbered { self.old.next < 2 ^ 63 }
        ensures ok { OnOk result (self.new ≡ with_change (meant change.entry) self.old) }
        ensures lawful { IsLawful self.old }
        ensures unchanged { OnErr result (self.new ≡ self.old) }
        ensures journal { OnOk result (journal.new ≡ after_command (is_none mode) journal.old (change_text (meant change.entry) self.old.next)) }
        ensures memory { IsErrOf result Error.OutOfMemory → journal.new ≡ journal.old }
        ensures untouched { IsErrOf result Error.OutOfMemory → D.meaning disk.new ≡ D.meaning disk.old }
        ensures served { IsTrue D.honest → ForWriting (D.meaning disk.old) journal.old (λ j. (D.meaning disk.new).misuses ≡ (D.meaning disk.old).misuses) }
        ensures cause { HasCause (D.meaning disk.old) (D.meaning disk.new) result }
        // Where it waits nothing goes to the disk, and no fault can come.
        ensures waits { is_out mode journal.old (of_change (meant change.entry) self.old.next) ≡ false → D.meaning disk.new ≡ D.meaning disk.old }
        ensures faultless { is_out mode journal.old (of_change (meant change.entry) self.old.next) ≡ false → IsOkUnless result Error.OutOfMemory }
        ensures took { IsTrue D.honest
            → OnOk result (Took (D.meaning disk.old) (D.meaning disk.new) (batch_steps mode journal.old (change_text (meant change.entry) self.old.next))) }
        ensures part { IsTrue D.honest
            → OnErr result (BatchTook mode (D.meaning disk.old) (D.meaning disk.new) journal.old (change_text (meant change.entry) self.old.next)) }
        // A crash at any moment, also at the last one of a call that fails, leaves the batch or not.
        ensures any_moment { IsTrue D.honest → ForFollowing (D.meaning disk.old) journal.old self.old.next (λ j.
            LeavesOnly (D.meaning disk.old) (D.meaning disk.new) (LeavesRoot (state_in (D.meaning disk.old)) j (j.later ++ of_change (meant change.entry) self.old.next ∷ []))) }
        ensures lies { IsTrue D.honest → ForFollowing (D.meaning disk.old) journal.old self.old.next (λ j.
            let batch = of_change (meant change.entry) self.old.next in
            OnOk result (IsWriting (state_in (D.meaning disk.new)) journal.new (after_mode mode (with_batch (is_out mode journal.old batch) j batch)))) }
        ensures elsewhere { IsTrue D.honest → ForWriting (D.meaning disk.old) journal.old (λ j. KeepsKeyspaces (D.meaning disk.old) (D.meaning disk.new)) }
        ensures kinds { IsTrue D.honest → StaysTidy (D.meaning disk.old) (D.meaning disk.new) }
    {
        let seqno = self.tickets.seqno();
        make_places(&mut self.watermarks, change)?;
        let marks = change_trees(&mut self.trees, change, seqno)?;
        if let Err(error) = append_change(journal, disk, mode, change, seqno) {
            self.trees.take_back(marks);
            return Err(error);
        }
        raise(&mut self.watermarks, change, seqno);
        self.tickets.publish();
        Ok(())
    }
}
