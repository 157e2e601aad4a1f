//! Memtables of keyspaces.

ghost use Rattle.std.specs.Prelude.{◌≡◌, IfOk, IsOkUnless, Ok, OnErr, false, true};
ghost use Rattle.fjall_journal.specs.Writer.{counted};
ghost use Rattle.fjall_trees.specs.Maps.{store_of};
ghost use Rattle.fjall_machine.specs.Machine.{buffer_size, flush_count, rotates, wants_rotation};
ghost use Rattle.fjall_machine.specs.Remembered.{IsLawful, rotated_in_memory};

use crate::engine_state::EngineState;
use fjall_base::{Error, Result};

impl EngineState {
    /// Seals the active memtable of a keyspace, begins an empty one and raises the watermark; false where the memtable holds
    /// nothing, or where the keyspace has no tree, and then nothing changes. After a refusal, for want of memory alone,
    /// nothing has changed.
    pub fn rotate_memtable(&mut self, id: u64) -> Result<bool>
        ensures value { IfOk result (λ is_sealed. is_sealed ≡ rotates self.old.trees id) }
        ensures sealed { result ≡ Ok true → self.new ≡ rotated_in_memory id self.old }
        ensures empty { result ≡ Ok false → self.new ≡ self.old }
        ensures lawful { IsLawful self.old }
        ensures unchanged { OnErr result (self.new ≡ self.old) }
        ensures only { IsOkUnless result Error.OutOfMemory }
    {
        let is_sealed = self.trees.rotate_memtable(id)?;
        if is_sealed {
            self.tickets.gc();
        }
        Ok(is_sealed)
    }

    /// The sizes of the memtables of all keyspaces that live, added up; the greatest `u64` where that is too small.
    pub fn write_buffer_size(&self) -> u64
        ensures { result ≡ counted (buffer_size (store_of self.now.keyspaces self.now.trees) self.now.trees) }
    {
        let mut total: u64 = 0;
        for keyspace in self.living() {
            total = total.saturating_add(self.trees.memtable_size(keyspace.id));
        }
        total
    }

    /// How many keyspaces that live have a sealed memtable that no flush that is out was begun with.
    pub fn outstanding_flushes(&self) -> usize
        ensures { result ≡ flush_count (store_of self.now.keyspaces self.now.trees) self.now.trees }
    {
        let mut count: usize = 0;
        for keyspace in self.living() {
            if self.trees.waits_for_flush(keyspace.id) {
                count += 1;
            }
        }
        count
    }

    /// Whether a keyspace lives whose active memtable is larger than its option `max_memtable_size`.
    pub fn wants_rotation(&self, id: u64) -> bool
        ensures { result ≡ wants_rotation (store_of self.now.keyspaces self.now.trees) self.now.trees id }
    {
        match self.keyspaces.options_of(id) {
            Some(options) => self.trees.active_size(id) > options.effective().max_memtable_size,
            None => false,
        }
    }
}
