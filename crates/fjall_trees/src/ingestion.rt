//! An ingestion into one keyspace's tree.

ghost use Rattle.std.specs.Prelude.{◌≡◌, ◌+◌, ◌<◌, ◌≤◌, ◌^◌, [], length, vec_capacity};
ghost use Rattle.fjall_tree.specs.Ingestions.{ingested, is_flush_due};
ghost use Rattle.fjall_tree.specs.Trees.{clears_of};
ghost use Rattle.fjall_trees.specs.Forests.{altered_at};
ghost use Rattle.fjall_trees.specs.Tables.{shape_in};

use crate::trees::{Trees, place_of};
use fjall_table_reader::TableReader;

impl Trees {
    ghost use Rattle.fjall_trees.specs.Views.{forest_of};

    /// Whether the flush of a keyspace of this number is out, and takes effect once it is finished: no ingestion has made it stale.
    pub fn is_flush_due(&self, id: u64, job: u64) -> bool
        ensures { result ≡ is_flush_due job (shape_in id (forest_of self.now)).flush }
    {
        match self.tree(id) {
            Some(tree) => tree.is_flush_due(job),
            None => false,
        }
    }

    /// Takes what an ingestion of this number into a keyspace made, where it has a tree: the tables of its memory and of the
    /// ingestion stand behind all its others, in a list that has room for them, and all its clears in the record; its memory holds
    /// nothing and goes on behind the number, and a flush of it that was out is stale. It takes no memory and can't fail.
    pub fn put_ingestion(
        &mut self,
        id: u64,
        number: u64,
        room: Vec<TableReader>,
        made: Vec<TableReader>,
        clears: Vec<u64>,
    )
        requires number { number < 2 ^ 63 }
        requires until { (shape_in id (forest_of self.old)).memory.active.until ≤ number }
        requires clears { clears.items ≡ clears_of (shape_in id (forest_of self.old)) }
        requires empty { room.items ≡ [] }
        requires room { length (shape_in id (forest_of self.old)).tables + length made.items ≤ vec_capacity room }
        ensures { forest_of self.new ≡ altered_at id (ingested number made.items) (forest_of self.old) }
    {
        if let Some(place) = place_of(self.trees.as_slice(), id) {
            self.trees[place]
                .tree
                .put_ingestion(number, room, made, clears);
        }
    }
}
