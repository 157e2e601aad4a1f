//! Calls that change a database.

ghost use Rattle.std.specs.Prelude.{◌≡◌, ◌++◌, [], ◌∷◌, OnErr, OnOk};
ghost use Rattle.fjall_journal.specs.declared.op.Op.TheVariants as ops;
ghost use Rattle.fjall_c.specs.Calls.{ByMode, Calls, Items, OfChange, OfCreation, OfPersist, default_options, inserting, number_reply, removing, reply_of};
ghost use Rattle.fjall_c.specs.Live.{live_of};

use crate::session::Session;
use crate::session::place::Place;
use fjall_base::{Error, Result, Slice};
use fjall_journal::{Op, PersistMode};
use fjall_options::KeyspaceCreateOptions;
use std::mem;

impl Session {
    /// The id of the keyspace of this name, which is made with the default options where none has it; refused as
    /// `Engine::keyspace` is.
    pub fn keyspace(&mut self, name: &[u8]) -> Result<u64>
        ensures answers { Calls (OfCreation name.now default_options) number_reply (live_of self.old) (live_of self.new) result }
        ensures batch { self.new.batch ≡ self.old.batch }
    {
        let options = KeyspaceCreateOptions::default(self.alloc)?;
        match &mut self.place {
            Place::Open(opened) => opened.core.keyspace(name, options),
            _ => Err(Error::Poisoned),
        }
    }

    /// Gives a key of a keyspace a value; refused as `Engine::insert` is.
    pub fn insert(&mut self, id: u64, key: &[u8], value: &[u8]) -> Result<()>
        ensures answers { Calls (inserting id key.now value.now) reply_of (live_of self.old) (live_of self.new) result }
        ensures batch { self.new.batch ≡ self.old.batch }
    {
        match &mut self.place {
            Place::Open(opened) => opened.core.insert(id, key, value),
            _ => Err(Error::Poisoned),
        }
    }

    /// Takes a key of a keyspace and its value away; refused as `Engine::remove` is.
    pub fn remove(&mut self, id: u64, key: &[u8]) -> Result<()>
        ensures answers { Calls (removing id key.now) reply_of (live_of self.old) (live_of self.new) result }
        ensures batch { self.new.batch ≡ self.old.batch }
    {
        match &mut self.place {
            Place::Open(opened) => opened.core.remove(id, key),
            _ => Err(Error::Poisoned),
        }
    }

    /// Adds to the batch that a key gets a value. It fails for want of memory alone, after which the batch is as it was.
    pub fn batch_insert(&mut self, id: u64, key: &[u8], value: &[u8]) -> Result<()>
        ensures ok { OnOk result (self.new.batch.items ≡ self.old.batch.items ++ (id, key.now, ops.Put value.now) ∷ []) }
        ensures err { OnErr result (self.new.batch.items ≡ self.old.batch.items) }
        ensures same { live_of self.new ≡ live_of self.old }
    {
        let (key, value) = (Slice::new(self.alloc, key)?, Slice::new(self.alloc, value)?);
        Ok(self.batch.push((id, key, Op::Put(value)))?)
    }

    /// Adds to the batch that a key and its value go. It fails for want of memory alone, after which the batch is as it was.
    pub fn batch_remove(&mut self, id: u64, key: &[u8]) -> Result<()>
        ensures ok { OnOk result (self.new.batch.items ≡ self.old.batch.items ++ (id, key.now, ops.Remove) ∷ []) }
        ensures err { OnErr result (self.new.batch.items ≡ self.old.batch.items) }
        ensures same { live_of self.new ≡ live_of self.old }
    {
        let key = Slice::new(self.alloc, key)?;
        Ok(self.batch.push((id, key, Op::Remove))?)
    }

    /// Makes all that was added to the batch as one command, and begins an empty batch, also where it is refused. It is refused as
    /// `Engine::commit_batch` is.
    pub fn batch_commit(&mut self, mode: Option<PersistMode>) -> Result<()>
        ensures calls { Calls (OfChange (Items self.old.batch.items) (ByMode mode)) reply_of (live_of self.old) (live_of self.new) result }
        ensures empty { self.new.batch.items ≡ [] }
    {
        let items = mem::replace(&mut self.batch, Vec::new(self.alloc));
        match &mut self.place {
            Place::Open(opened) => opened.core.commit_batch(items, mode),
            _ => Err(Error::Poisoned),
        }
    }

    /// Forgets what was added to the batch.
    pub fn batch_clear(&mut self)
        ensures empty { self.new.batch.items ≡ [] }
        ensures same { live_of self.new ≡ live_of self.old }
    {
        self.batch.clear();
    }

    /// Writes out what waits of the journal, and syncs it in the two sync modes; refused as `Engine::persist` is.
    pub fn persist(&mut self, mode: PersistMode) -> Result<()>
        ensures answers { Calls (OfPersist mode) reply_of (live_of self.old) (live_of self.new) result }
        ensures batch { self.new.batch ≡ self.old.batch }
    {
        match &mut self.place {
            Place::Open(opened) => opened.core.persist(mode),
            _ => Err(Error::Poisoned),
        }
    }
}
