//! Counts of tables, and of what waits to be flushed.

ghost use Rattle.std.specs.Prelude.{◌≡◌, None, Some, count_by, length};
ghost use Rattle.fjall_tree.specs.Trees.{is_l0};
ghost use Rattle.fjall_trees.specs.Tables.{shape_in};
ghost use Rattle.fjall_machine.specs.Machine.{State, flush_count, present, space_of, table_space};
ghost use Rattle.fjall_engine.specs.Standing.{StandsFor, space_in, store_in};

use crate::engine::Engine;
use fjall_base::Disk;

impl<D: Disk> Engine<D> {
    /// How many tables a keyspace has; 0 for an id without a keyspace.
    pub fn table_count(&self, id: u64) -> usize
        ensures held { result ≡ length (shape_in id self.now.memory.trees).tables }
        ensures parts { (s : State) → StandsFor self.now s → result ≡ length (shape_in id s.parts.trees).tables }
    {
        match self.memory.tree(id) {
            Some(tree) => tree.table_count(),
            None => 0,
        }
    }

    /// How many of a keyspace's tables stand at level 0, where flushes put them; 0 for an id without a keyspace.
    pub fn l0_table_count(&self, id: u64) -> usize
        ensures held { result ≡ count_by (λ t. is_l0 t.info.level) (shape_in id self.now.memory.trees).tables }
        ensures parts { (s : State) → StandsFor self.now s → result ≡ count_by (λ t. is_l0 t.info.level) (shape_in id s.parts.trees).tables }
    {
        match self.memory.tree(id) {
            Some(tree) => tree.l0_table_count(),
            None => 0,
        }
    }

    /// How many bytes the files of a keyspace's tables have, added up; without an id those of all keyspaces that live and of all
    /// journals. It stops at the greatest `u64`; 0 for an id without a keyspace.
    pub fn disk_space(&self, id: Option<u64>) -> u64
        ensures held { result ≡ space_in self.now id }
        ensures parts { (s : State) → StandsFor self.now s → result ≡ space_of s id }
    {
        match id {
            Some(id) => self.memory.table_space(id),
            None => self
                .memory
                .tables_space()
                .saturating_add(self.journal_disk_space()),
        }
    }

    /// How many keyspaces that live have a sealed memtable that no flush that is out takes.
    pub fn outstanding_flushes(&self) -> usize
        ensures held { result ≡ flush_count (store_in self.now) self.now.memory.trees }
        ensures parts { (s : State) → StandsFor self.now s → result ≡ flush_count (present s) s.parts.trees }
    {
        self.memory.outstanding_flushes()
    }
}
