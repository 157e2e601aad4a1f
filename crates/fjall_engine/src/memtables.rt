//! Memtables of keyspaces.

ghost use Rattle.std.specs.Prelude.{◌≡◌, IsTrue, length};
ghost use Rattle.fjall_journal.specs.Writer.{counted};
ghost use Rattle.fjall_trees.specs.Tables.{shape_in};
ghost use Rattle.fjall_machine.specs.Machine.{State, buffer_size, present, version_count, wants_rotation};
ghost use Rattle.fjall_machine.specs.Shapes.{OfRotation};
ghost use Rattle.fjall_engine.specs.Standing.{Owes, Serves, StandsFor, flag_reply, store_in};

use crate::engine::Engine;
use fjall_base::{Disk, Result};

impl<D: Disk> Engine<D> {
    /// Seals the active memtable of a keyspace, so that it can be flushed, and begins an empty one; the watermark is raised
    /// as by [`gc`](Engine::gc). False where the memtable holds nothing, neither a version nor a clear: then nothing changes. No
    /// view changes, and the disk is left alone.
    ///
    /// Refusals, the first that has its cause: `UnknownKeyspace`, `KeyspaceDeleted`, `Poisoned`, `OutOfMemory`. After each of
    /// them nothing has changed.
    pub fn rotate_memtable(&mut self, id: u64) -> Result<bool>
        ensures serves { IsTrue D.honest → Serves self.old (OfRotation id) (flag_reply result) self.new }
        ensures owes { Owes self.old (OfRotation id) (flag_reply result) self.new }
    {
        if let Some(error) = self.memory.rotation_refusal(id) {
            return Err(error);
        }
        self.memory.rotate_memtable(id)
    }

    /// How many versions a keyspace has, removals and those that no view shows any more among them: never fewer than it has
    /// keys. It stops at the greatest `u64`; 0 for an id without a keyspace.
    pub fn approximate_len(&self, id: u64) -> u64
        ensures held { result ≡ counted (version_count (shape_in id self.now.memory.trees)) }
        ensures parts { (s : State) → StandsFor self.now s → result ≡ counted (version_count (shape_in id s.parts.trees)) }
    {
        match self.memory.tree(id) {
            Some(tree) => tree.approximate_len(),
            None => 0,
        }
    }

    /// How many sealed memtables a keyspace has; 0 for an id without a keyspace.
    pub fn sealed_memtable_count(&self, id: u64) -> usize
        ensures held { result ≡ length (shape_in id self.now.memory.trees).memory.sealed }
        ensures parts { (s : State) → StandsFor self.now s → result ≡ length (shape_in id s.parts.trees).memory.sealed }
    {
        match self.memory.tree(id) {
            Some(tree) => tree.sealed_memtable_count(),
            None => 0,
        }
    }

    /// The sizes of the memtables of all keyspaces that live, added up, each version its key, its value and 16 bytes. It stops
    /// at the greatest `u64`.
    pub fn write_buffer_size(&self) -> u64
        ensures held { result ≡ counted (buffer_size (store_in self.now) self.now.memory.trees) }
        ensures parts { (s : State) → StandsFor self.now s → result ≡ counted (buffer_size (present s) s.parts.trees) }
    {
        self.memory.write_buffer_size()
    }

    /// Whether a keyspace lives whose active memtable is larger than its option `max_memtable_size`.
    pub fn wants_rotation(&self, id: u64) -> bool
        ensures held { result ≡ wants_rotation (store_in self.now) self.now.memory.trees id }
        ensures parts { (s : State) → StandsFor self.now s → result ≡ wants_rotation (present s) s.parts.trees id }
    {
        self.memory.wants_rotation(id)
    }
}
