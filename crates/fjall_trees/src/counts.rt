//! What a keyspace's tree counts: nothing where it has none. And how many keyspaces have a merge out.

ghost use Rattle.std.specs.Prelude.{◌≡◌, ◌-◌, ◌^◌, count_by, is_some, length, min};
ghost use Rattle.std.specs.List.{sum_by};
ghost use Rattle.fjall_memtable.specs.Entries.{size_of};
ghost use Rattle.fjall_memtable.specs.Parts.{parts_of, versions_in};
ghost use Rattle.fjall_tree.specs.Trees.{is_l0};
ghost use Rattle.fjall_trees.specs.Tables.{shape_in};

use crate::trees::Trees;

impl Trees {
    ghost use Rattle.fjall_trees.specs.Views.{forest_of};

    /// How many tables a keyspace has.
    pub fn table_count(&self, id: u64) -> usize
        ensures { result ≡ length (shape_in id (forest_of self.now)).tables }
    {
        match self.tree(id) {
            Some(tree) => tree.table_count(),
            None => 0,
        }
    }

    /// How many tables of a keyspace stand as flushes made them.
    pub fn l0_table_count(&self, id: u64) -> usize
        ensures { result ≡ count_by (λ t. is_l0 t.info.level) (shape_in id (forest_of self.now)).tables }
    {
        match self.tree(id) {
            Some(tree) => tree.l0_table_count(),
            None => 0,
        }
    }

    /// How many bytes the files of a keyspace's tables have, all added up; the greatest u64 where that is too small.
    pub fn disk_space(&self, id: u64) -> u64
        ensures { result ≡ min (sum_by (λ t. t.info.file_len) (shape_in id (forest_of self.now)).tables) (2 ^ 64 - 1) }
    {
        match self.tree(id) {
            Some(tree) => tree.disk_space(),
            None => 0,
        }
    }

    /// How many bytes the active memtable of a keyspace counts for; the greatest u64 where that is too small.
    pub fn active_size(&self, id: u64) -> u64
        ensures { result ≡ min (sum_by size_of (shape_in id (forest_of self.now)).memory.active.versions) (2 ^ 64 - 1) }
    {
        match self.tree(id) {
            Some(tree) => tree.active_size(),
            None => 0,
        }
    }

    /// How many bytes all memtables of a keyspace count for; the greatest u64 where that is too small.
    pub fn memtable_size(&self, id: u64) -> u64
        ensures { result ≡ min (sum_by size_of (versions_in (parts_of (shape_in id (forest_of self.now)).memory))) (2 ^ 64 - 1) }
    {
        match self.tree(id) {
            Some(tree) => tree.memtable_size(),
            None => 0,
        }
    }

    /// How many keyspaces have a merge out.
    pub fn merge_count(&self) -> usize
        ensures { result ≡ count_by (λ k. is_some k.shape.merge) (forest_of self.now) }
    {
        self.trees
            .iter()
            .filter(|keyspace| keyspace.tree.is_merging())
            .count()
    }
}
