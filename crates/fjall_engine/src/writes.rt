//! Calls that change keys, and the sync of the journal.

ghost use Rattle.std.specs.Prelude.{◌≡◌, ◌<◌, ◌^◌, IsTrue};
ghost use Rattle.fjall_journal.specs.Changes.{Items};
ghost use Rattle.fjall_journal.specs.Ops.{op_of};
ghost use Rattle.fjall_journal.specs.declared.op.Op.TheVariants as ops;
ghost use Rattle.fjall_changes.specs.Given.{ChangesSome, FitsBatch, meant};
ghost use Rattle.fjall_machine.specs.Allowed.{IsOfLiving};
ghost use Rattle.fjall_machine.specs.Machine.{State};
ghost use Rattle.fjall_machine.specs.Shapes.{AsKeyspace, ByMode, OfChange, OfPersist, Persistence, of_clear, of_write};
ghost use Rattle.fjall_engine.specs.Crashes.{BlamesDevice};
ghost use Rattle.fjall_engine.specs.Durables.{Durable};
ghost use Rattle.fjall_engine.specs.CallParts.{Writes};
ghost use Rattle.fjall_engine.specs.Standing.{StandsFor, StandsOn, Owes, Serves, held_due, mode_of, reply_of, store_in};

use crate::engine::Engine;
use fjall_base::{Disk, Error, Result};
use fjall_changes::{Change, sync_journal};
use fjall_journal::{BatchItem, OpRef, PersistMode};

impl<D: Disk> Engine<D> {
    // Makes a change as one command, under the next number. All memory is got before the first byte goes to the disk.
    fn write(&mut self, change: Change, mode: Option<PersistMode>) -> Result<()>
        requires fits { FitsBatch (meant change) }
        requires some { ChangesSome (meant change) }
        requires living { IsOfLiving (store_in self.old) (meant change) }
        requires room { self.old.memory.next < 2 ^ 63 }
        ensures writes { Writes (IsTrue D.honest) self.old (meant change.entry) mode result self.new }
    {
        let written = self
            .memory
            .change(&mut self.journal, &mut self.disk, change, mode);
        if let Err(error) = written {
            self.poison_by(&error);
            return Err(error);
        }
        Ok(())
    }

    // Changes keys by these items, persisted by this mode or none, where nothing refuses it.
    fn change(&mut self, items: &[BatchItem], mode: Option<PersistMode>) -> Result<()>
        ensures serves { IsTrue D.honest → (how : Persistence) → mode_of self.old how ≡ mode
            → Serves self.old (OfChange (Items items.now) how) (reply_of result) self.new }
        ensures owes { (how : Persistence) → mode_of self.old how ≡ mode → Owes self.old (OfChange (Items items.now) how) (reply_of result) self.new }
    {
        if items.is_empty() {
            return Ok(());
        }
        if let Some(error) = self.memory.change_refusal(items) {
            return Err(error);
        }
        self.write(Change::Items(items), mode)
    }

    // How a write of one key of this keyspace, or a clear of it, is persisted.
    pub(crate) fn mode_of(&self, id: u64) -> Option<PersistMode>
        ensures { result ≡ mode_of self.now (AsKeyspace id) }
    {
        if self.memory.persists_by_hand(id) {
            None
        } else {
            Some(PersistMode::Buffer)
        }
    }

    // Changes one key, persisted as its keyspace says.
    fn change_key(&mut self, id: u64, key: &[u8], op: OpRef<'_>) -> Result<()>
        ensures serves { IsTrue D.honest → Serves self.old (of_write (id, key.now, op_of op.entry)) (reply_of result) self.new }
        ensures owes { Owes self.old (of_write (id, key.now, op_of op.entry)) (reply_of result) self.new }
    {
        if let Some(error) = self.memory.key_refusal(id, key, op) {
            return Err(error);
        }
        let mode = self.mode_of(id);
        self.write(Change::Item(id, key, op), mode)
    }

    /// Gives a key of a keyspace a value, under the next number, and hands the command to the system, with all that
    /// waited in the journal's buffer. Where the keyspace's option `manual_journal_persist` is set, the command waits in
    /// the buffer while that has less than 8,192 bytes, and the disk is left alone. A crash may lose it until the journal
    /// is synced.
    ///
    /// Refusals, the first that has its cause: `KeyEmpty`, `KeyTooLong` (above 65,535 bytes), `ValueTooLong` (above
    /// 4,294,967,295), `UnknownKeyspace`, `KeyspaceDeleted`, `Poisoned`, `NumbersUsedUp`, `OutOfMemory`, and `Io`,
    /// after which the core is poisoned. After each of the others nothing has changed.
    pub fn insert(&mut self, id: u64, key: &[u8], value: &[u8]) -> Result<()>
        ensures serves { IsTrue D.honest → Serves self.old (of_write (id, key.now, ops.Put value.now)) (reply_of result) self.new }
        ensures owes { Owes self.old (of_write (id, key.now, ops.Put value.now)) (reply_of result) self.new }
    {
        self.change_key(id, key, OpRef::Put(value))
    }

    /// Takes a key of a keyspace and its value away, under the next number, whether the key is there or not. It is
    /// refused as [`insert`](Engine::insert) is, and a crash may lose it as long.
    pub fn remove(&mut self, id: u64, key: &[u8]) -> Result<()>
        ensures serves { IsTrue D.honest → Serves self.old (of_write (id, key.now, ops.Remove)) (reply_of result) self.new }
        ensures owes { Owes self.old (of_write (id, key.now, ops.Remove)) (reply_of result) self.new }
    {
        self.change_key(id, key, OpRef::Remove)
    }

    /// Acts as [`remove`](Engine::remove); the journal alone tells the two apart.
    pub fn remove_weak(&mut self, id: u64, key: &[u8]) -> Result<()>
        ensures serves { IsTrue D.honest → Serves self.old (of_write (id, key.now, ops.RemoveWeak)) (reply_of result) self.new }
        ensures owes { Owes self.old (of_write (id, key.now, ops.RemoveWeak)) (reply_of result) self.new }
    {
        self.change_key(id, key, OpRef::RemoveWeak)
    }

    /// Takes all keys of a keyspace and their values away, under the next number, as one command: what is written to the
    /// keyspace behind it stays. A snapshot that was opened before still reads them. It is persisted as
    /// [`insert`](Engine::insert) is, and a crash may lose it as long.
    ///
    /// Refusals, the first that has its cause: `UnknownKeyspace`, `KeyspaceDeleted`, `Poisoned`, `NumbersUsedUp`,
    /// `OutOfMemory`, and `Io`, after which the core is poisoned. After each of the others nothing has changed.
    pub fn clear(&mut self, id: u64) -> Result<()>
        ensures serves { IsTrue D.honest → Serves self.old (of_clear id) (reply_of result) self.new }
        ensures owes { Owes self.old (of_clear id) (reply_of result) self.new }
    {
        if let Some(error) = self.memory.clear_refusal(id) {
            return Err(error);
        }
        let mode = self.mode_of(id);
        self.write(Change::Emptied(id), mode)
    }

    /// Changes keys of any keyspaces by these items, in their order, as one command under one number, all or none of which
    /// outlives a crash. Where one key has several items the last one counts. No items are no command: that is Ok, takes no
    /// number and leaves the disk alone, also in a poisoned core.
    ///
    /// Without a mode the command waits in the journal's buffer while that has less than 8,192 bytes. With `Buffer` it is
    /// handed to the system with all that waited, and with the two sync modes the journal is synced too: then it and all
    /// before it outlive a crash.
    ///
    /// Refusals, each looked for in all items before the next: `KeyEmpty`, `KeyTooLong`, `ValueTooLong`,
    /// `UnknownKeyspace`, `KeyspaceDeleted`; then `Poisoned`, `TooManyItems` (above 4,294,967,295), `NumbersUsedUp`,
    /// `OutOfMemory`, and `Io`, after which the core is poisoned, and a crash may leave the command or not. After each of the
    /// others nothing has changed.
    pub fn commit_batch(&mut self, items: Vec<BatchItem>, mode: Option<PersistMode>) -> Result<()>
        ensures serves { IsTrue D.honest → Serves self.old (OfChange (Items items.items) (ByMode mode)) (reply_of result) self.new }
        ensures owes { Owes self.old (OfChange (Items items.items) (ByMode mode)) (reply_of result) self.new }
    {
        self.change(&items, mode)
    }

    /// Why [`commit_batch`](Engine::commit_batch) refuses these items before memory or the disk is asked for anything; none where
    /// nothing does, as where there are no items.
    pub fn batch_refusal(&self, items: &[BatchItem]) -> Option<Error>
        ensures due { (how : Persistence) → result ≡ held_due self.now (OfChange (Items items.now) how) }
    {
        if items.is_empty() {
            return None;
        }
        self.memory.change_refusal(items)
    }

    /// Writes the journal's buffer out, in which commands wait of keyspaces that persist by hand, and in the two sync
    /// modes syncs the journal: what was accepted before then outlives a crash.
    ///
    /// Refusals: `Poisoned`, and `Io`, after which the core is poisoned.
    pub fn persist(&mut self, mode: PersistMode) -> Result<()>
        ensures serves { IsTrue D.honest → Serves self.old (OfPersist mode) (reply_of result) self.new }
        // Whatever stands in the way elsewhere, the device is to blame for `Io`.
        ensures device { IsTrue D.honest → (s : State) (d : Durable) → StandsFor self.old s → StandsOn self.old s.parts.entries d
            → BlamesDevice (reply_of result) self.old.disk self.new.disk }
        ensures owes { Owes self.old (OfPersist mode) (reply_of result) self.new }
    {
        if self.memory.is_poisoned() {
            return Err(Error::Poisoned);
        }
        match sync_journal(&mut self.journal, &mut self.disk, mode) {
            Ok(()) => Ok(()),
            Err(error) => {
                self.memory.poison();
                Err(error)
            }
        }
    }
}
