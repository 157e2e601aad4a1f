//! Changes of keys.

ghost use Rattle.fjall_journal.specs.Changes.{Items};
ghost use Rattle.fjall_journal.specs.declared.op.Op.TheVariants as ops;
ghost use Rattle.fjall_machine.specs.Shapes.{ByMode, OfChange, OfIngestion, of_clear, of_write};
ghost use Rattle.fjall_core.specs.CoreStanding.{reply_of};
ghost use Rattle.fjall_shared.specs.Does.{Does};

use crate::shared::Shared;
use crate::telling::tell;
use fjall_base::{Disk, Result, UserKey};
use fjall_core::{BatchItem, Op, PersistMode};
use std::marker::Brand;
use std::snapshot::Snapshot;

impl<D: Disk> Shared<D> {
    /// Gives a key of a keyspace a value, as [`Engine::insert`](fjall_core::Engine::insert) does, with its refusals.
    pub fn insert(&mut self, id: u64, key: &[u8], value: &[u8]) -> Result<()>
        ensures { Does D.honest self.old (of_write (id, key.now, ops.Put value.now)) (reply_of result) self.new }
    {
        let call = (id, key, value);
        let said = Snapshot::of(&call);
        let (id, key, value) = call;
        let before = self.core.visible_seqno();
        let result = self.core.insert(id, key, value);
        let after = self.core.visible_seqno();
        tell::<Brand, (u64, &[u8], &[u8])>(&self.word, &mut self.seat, before, after, &said);
        result
    }

    /// Takes a key of a keyspace and its value away, as [`Engine::remove`](fjall_core::Engine::remove) does.
    pub fn remove(&mut self, id: u64, key: &[u8]) -> Result<()>
        ensures { Does D.honest self.old (of_write (id, key.now, ops.Remove)) (reply_of result) self.new }
    {
        let call = (id, key);
        let said = Snapshot::of(&call);
        let (id, key) = call;
        let before = self.core.visible_seqno();
        let result = self.core.remove(id, key);
        let after = self.core.visible_seqno();
        tell::<Brand, (u64, &[u8])>(&self.word, &mut self.seat, before, after, &said);
        result
    }

    /// Acts as [`remove`](Shared::remove); the journal alone tells the two apart.
    pub fn remove_weak(&mut self, id: u64, key: &[u8]) -> Result<()>
        ensures { Does D.honest self.old (of_write (id, key.now, ops.RemoveWeak)) (reply_of result) self.new }
    {
        let call = (id, key);
        let said = Snapshot::of(&call);
        let (id, key) = call;
        let before = self.core.visible_seqno();
        let result = self.core.remove_weak(id, key);
        let after = self.core.visible_seqno();
        tell::<Brand, (u64, &[u8])>(&self.word, &mut self.seat, before, after, &said);
        result
    }

    /// Takes all keys of a keyspace away, as [`Engine::clear`](fjall_core::Engine::clear) does.
    pub fn clear(&mut self, id: u64) -> Result<()>
        ensures { Does D.honest self.old (of_clear id) (reply_of result) self.new }
    {
        let call = id;
        let said = Snapshot::of(&call);
        let id = call;
        let before = self.core.visible_seqno();
        let result = self.core.clear(id);
        let after = self.core.visible_seqno();
        tell::<Brand, u64>(&self.word, &mut self.seat, before, after, &said);
        result
    }

    /// Changes keys of any keyspaces as one command, as [`Engine::commit_batch`](fjall_core::Engine::commit_batch) does.
    pub fn commit_batch(&mut self, items: Vec<BatchItem>, mode: Option<PersistMode>) -> Result<()>
        ensures { Does D.honest self.old (OfChange (Items items.items) (ByMode mode)) (reply_of result) self.new }
    {
        let call = items;
        let said = Snapshot::of(&call);
        let items = call;
        let before = self.core.visible_seqno();
        let result = self.core.commit_batch(items, mode);
        let after = self.core.visible_seqno();
        tell::<Brand, Vec<BatchItem>>(&self.word, &mut self.seat, before, after, &said);
        result
    }

    /// Ingests items into a keyspace as one command, as [`Engine::ingest`](fjall_core::Engine::ingest) does.
    pub fn ingest(&mut self, id: u64, items: Vec<(UserKey, Op)>) -> Result<()>
        ensures { Does D.honest self.old (OfIngestion id items.items) (reply_of result) self.new }
    {
        let call = (id, items);
        let said = Snapshot::of(&call);
        let (id, items) = call;
        let before = self.core.visible_seqno();
        let result = self.core.ingest(id, items);
        let after = self.core.visible_seqno();
        tell::<Brand, (u64, Vec<(UserKey, Op)>)>(&self.word, &mut self.seat, before, after, &said);
        result
    }
}
