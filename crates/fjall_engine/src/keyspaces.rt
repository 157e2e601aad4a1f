//! Calls that make, delete and hold keyspaces.

ghost use Rattle.std.specs.Prelude.{◌≡◌, ◌<◌, None, IsTrue, false, if◌then◌else◌, true};
ghost use Rattle.fjall_machine.specs.Machine.{handles_of, names_one, is_living};
ghost use Rattle.fjall_machine.specs.Shapes.{OfCreation, OfDeletion, OfHandle, OneLess, OneMore};
ghost use Rattle.fjall_meta.specs.Keyspaces.{id_of};
ghost use Rattle.fjall_machine.specs.Remembered.{IsLawful, poisoned, released_in_memory};
ghost use Rattle.fjall_engine.specs.Crashes.{is_io};
ghost use Rattle.fjall_engine.specs.CallParts.{Makes, Removes, Unmakes};
ghost use Rattle.fjall_engine.specs.Standing.{held_due, Owes, Serves, number_reply, reply_of, store_in};

use crate::engine::{Engine, is_fault};
use fjall_base::{Disk, Error, Result, Slice};
use fjall_changes::{
    prepare_creation, remove_keyspace, sync_and_create_keyspace, sync_and_delete_keyspace,
};
use fjall_manifest::prepare_deletion;
use fjall_options::KeyspaceCreateOptions;

impl<D: Disk> Engine<D> {
    /// The id of the keyspace of this name, which is made with these options where none has it.
    ///
    /// A new keyspace takes the next number and the next id, and outlives a crash once it is answered; all that was
    /// accepted before it does so too. Refusals: `InvalidName` (a name has 1 to 255 bytes); and where it is to be made
    /// `Poisoned`, `NumbersUsedUp`, `ValueTooLong` (an option's value of 2^32 bytes or more), `OutOfMemory`, and `Io`,
    /// after which the core is poisoned. After each of the others nothing has changed.
    pub fn keyspace(&mut self, name: &[u8], options: KeyspaceCreateOptions) -> Result<u64>
        ensures serves { IsTrue D.honest → Serves self.old (OfCreation name.now options) (number_reply result) self.new }
        ensures owes { Owes self.old (OfCreation name.now options) (number_reply result) self.new }
    {
        if let Some(error) = self
            .memory
            .creation_refusal(name, self.catalog.next_table_id)
        {
            return Err(error);
        }
        match self.memory.resolve(name) {
            Some(id) => Ok(id),
            None => self.create(name, options),
        }
    }

    // Makes a keyspace of a name that none has.
    fn create(&mut self, name: &[u8], options: KeyspaceCreateOptions) -> Result<u64>
        requires due { held_due self.old (OfCreation name.now options) ≡ None }
        requires fresh { id_of name.now self.old.memory.keyspaces.living ≡ None }
        requires unnamed { names_one (store_in self.old) name.now ≡ false }
        ensures serves { IsTrue D.honest → Serves self.old (OfCreation name.now options) (number_reply result) self.new }
        ensures owes { Owes self.old (OfCreation name.now options) (number_reply result) self.new }
    {
        let name = Slice::new(self.alloc, name)?;
        let number = self.memory.seqno();
        let id = self.memory.create(name, options)?;
        match self.make(id, number) {
            Ok(()) => Ok(id),
            Err(error) => {
                self.memory.take_back();
                self.poison_by(&error);
                Err(error)
            }
        }
    }

    // Makes a keyspace on the disk that stands in memory already.
    fn make(&mut self, id: u64, number: u64) -> Result<()>
        ensures made { Makes (IsTrue D.honest) self.old id number result self.new }
    {
        let keyspaces = self.memory.keyspaces();
        let creation = prepare_creation(self.alloc, &self.catalog, keyspaces, id, number)?;
        sync_and_create_keyspace(&mut self.journal, &mut self.disk, &creation)?;
        self.catalog = creation.update.catalog;
        Ok(())
    }

    /// Deletes the keyspace of this id: its name is free again, and its id is never given out anew. Where it is deleted
    /// already nothing changes.
    ///
    /// A deletion takes the next number, and outlives a crash once it is answered, as does all that was accepted before
    /// it. The map stays readable until its last handle is released. Refusals: `UnknownKeyspace`; and where the keyspace
    /// lives `Poisoned`, `NumbersUsedUp`, `ValueTooLong` (another keyspace's option of 2^32 bytes or more),
    /// `OutOfMemory`, and `Io`, after which the core is poisoned. After each of the others nothing has changed.
    pub fn delete_keyspace(&mut self, id: u64) -> Result<()>
        ensures serves { IsTrue D.honest → Serves self.old (OfDeletion id) (reply_of result) self.new }
        ensures owes { Owes self.old (OfDeletion id) (reply_of result) self.new }
    {
        if let Some(error) = self.memory.deletion_refusal(id, self.catalog.next_table_id) {
            return Err(error);
        }
        if !self.memory.is_living(id) {
            return Ok(());
        }
        self.delete(id)
    }

    // Deletes a keyspace that lives.
    fn delete(&mut self, id: u64) -> Result<()>
        requires due { held_due self.old (OfDeletion id) ≡ None }
        requires living { is_living (store_in self.old) id ≡ true }
        ensures serves { IsTrue D.honest → Serves self.old (OfDeletion id) (reply_of result) self.new }
        ensures owes { Owes self.old (OfDeletion id) (reply_of result) self.new }
    {
        let lasting = self.memory.prepare_deletion(self.alloc, id)?;
        match self.unmake(id) {
            Ok(()) => {
                self.memory.delete(id, lasting);
                Ok(())
            }
            Err(error) => {
                self.poison_by(&error);
                Err(error)
            }
        }
    }

    // Takes a keyspace out of the catalog.
    fn unmake(&mut self, id: u64) -> Result<()>
        ensures unmade { Unmakes (IsTrue D.honest) self.old id result self.new }
        ensures lawful { IsLawful self.old.memory }
    {
        let number = self.memory.seqno();
        let keyspaces = self.memory.keyspaces();
        let update = prepare_deletion(self.alloc, &self.catalog, keyspaces, id, number)?;
        sync_and_delete_keyspace(&mut self.journal, &mut self.disk, &update)?;
        self.catalog = update.catalog;
        Ok(())
    }

    /// Counts one handle more of the keyspace of this id. A deleted keyspace is read, and keeps its files, as long as
    /// handles of it are counted.
    ///
    /// Refusals: `UnknownKeyspace`; `KeyspaceDeleted` after a deleted keyspace's last release; `NumbersUsedUp`;
    /// `OutOfMemory`. After each of them nothing has changed.
    pub fn retain(&mut self, id: u64) -> Result<()>
        ensures serves { IsTrue D.honest → Serves self.old (OfHandle OneMore id) (reply_of result) self.new }
        ensures owes { Owes self.old (OfHandle OneMore id) (reply_of result) self.new }
    {
        self.memory.retain(id)
    }

    /// Counts one handle less. With the last one of a deleted keyspace its map goes, and its folder is removed, which a
    /// poisoned core leaves to the next opening. A folder that holds anything but the engine's own files is left as it stands.
    ///
    /// Refusals: `UnknownKeyspace` where no handle is counted; `OutOfMemory`, before which the disk was no more than looked
    /// at, and the handle is still counted; and `Io`, after which the core is poisoned and the handle is counted less all the same.
    pub fn release(&mut self, id: u64) -> Result<()>
        ensures serves { IsTrue D.honest → Serves self.old (OfHandle OneLess id) (reply_of result) self.new }
        ensures owes { Owes self.old (OfHandle OneLess id) (reply_of result) self.new }
    {
        if let Some(error) = self.memory.release_refusal(id) {
            return Err(error);
        }
        if !self.memory.is_last(id) || self.memory.is_poisoned() {
            self.memory.release(id);
            return Ok(());
        }
        if let Err(error) = self.remove_files(id) {
            self.give_up(id, &error);
            return Err(error);
        }
        self.memory.release(id);
        Ok(())
    }

    // After a fault of the disk the handle is counted less all the same, and the core is poisoned.
    fn give_up(&mut self, id: u64, error: &Error)
        requires counted { 0 < handles_of self.old.memory.handles id }
        ensures { self.new ≡ (if is_io error.now then record self.old { memory = poisoned (released_in_memory id self.old.memory) } else self.old) }
    {
        if is_fault(error) {
            self.memory.release(id);
            self.memory.poison();
        }
    }

    // Removes the files of a deleted keyspace.
    fn remove_files(&mut self, id: u64) -> Result<()>
        ensures removed { Removes (IsTrue D.honest) self.old id result self.new }
    {
        remove_keyspace(self.alloc, &mut self.disk, id)
    }
}
