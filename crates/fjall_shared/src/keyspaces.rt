//! Keyspaces and their handles.

ghost use Rattle.fjall_machine.specs.Shapes.{Names, OfCount, OfCreation, OfDeletion, OfHandle, OneLess, OneMore};
ghost use Rattle.fjall_core.specs.CoreStanding.{names_reply, number_reply, reply_of};
ghost use Rattle.fjall_shared.specs.Does.{Does};

use crate::shared::Shared;
use crate::telling::tell;
use fjall_base::{Disk, Result, Slice};
use fjall_options::KeyspaceCreateOptions;
use std::marker::Brand;
use std::snapshot::Snapshot;

impl<D: Disk> Shared<D> {
    /// The id of the keyspace of this name, which is made with these options where none has it, as
    /// [`Engine::keyspace`](fjall_core::Engine::keyspace) does.
    pub fn keyspace(&mut self, name: &[u8], options: KeyspaceCreateOptions) -> Result<u64>
        ensures { Does D.honest self.old (OfCreation name.now options) (number_reply result) self.new }
    {
        let call = (name, options);
        let said = Snapshot::of(&call);
        let (name, options) = call;
        let before = self.core.visible_seqno();
        let result = self.core.keyspace(name, options);
        let after = self.core.visible_seqno();
        tell::<Brand, (&[u8], KeyspaceCreateOptions)>(
            &self.word,
            &mut self.seat,
            before,
            after,
            &said,
        );
        result
    }

    /// Deletes the keyspace of this id, as [`Engine::delete_keyspace`](fjall_core::Engine::delete_keyspace) does.
    pub fn delete_keyspace(&mut self, id: u64) -> Result<()>
        ensures { Does D.honest self.old (OfDeletion id) (reply_of result) self.new }
    {
        let call = id;
        let said = Snapshot::of(&call);
        let id = call;
        let before = self.core.visible_seqno();
        let result = self.core.delete_keyspace(id);
        let after = self.core.visible_seqno();
        tell::<Brand, u64>(&self.word, &mut self.seat, before, after, &said);
        result
    }

    /// Counts one handle more of a keyspace, as [`Engine::retain`](fjall_core::Engine::retain) does.
    pub fn retain(&mut self, id: u64) -> Result<()>
        ensures { Does D.honest self.old (OfHandle OneMore id) (reply_of result) self.new }
    {
        self.core.retain(id)
    }

    /// Counts one handle less of a keyspace, as [`Engine::release`](fjall_core::Engine::release) does.
    pub fn release(&mut self, id: u64) -> Result<()>
        ensures { Does D.honest self.old (OfHandle OneLess id) (reply_of result) self.new }
    {
        self.core.release(id)
    }

    /// The names of the keyspaces that live, sorted.
    pub fn list_keyspace_names(&mut self) -> Result<Vec<Slice>>
        ensures { Does D.honest self.old (OfCount Names) (names_reply result) self.new }
    {
        self.core.list_keyspace_names()
    }
}
