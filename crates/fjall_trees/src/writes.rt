//! Writes of one tree each.

ghost use Rattle.std.specs.Prelude.{◌≡◌, ◌<◌, ◌≤◌, ◌^◌, length, OnOk, OnErr, Some};
ghost use Rattle.std.specs.List.{All};
ghost use Rattle.std.specs.Option.{option_map};
ghost use Rattle.fjall_table.specs.Blocks.{value_bytes};
ghost use Rattle.fjall_memtable.specs.Entries.{version};
ghost use Rattle.fjall_tree.specs.Puts.{emptied_once, put};
ghost use Rattle.fjall_tree.specs.Trees.{Shape};
ghost use Rattle.fjall_trees.specs.Forests.{altered_at, tree_at};
ghost use Rattle.fjall_trees.specs.Writes.{with_tree};

use crate::marks::Marks;
use crate::trees::{Trees, place_near, place_of};
use fjall_tree::Tree;
use std::alloc::AllocError;

impl Trees {
    ghost use Rattle.fjall_trees.specs.Views.{KeepAllMarks, forest_of};

    /// Adds a tree that holds nothing for a keyspace whose id is above all others, where numbers begin from this one on,
    /// which is at most 2^63. It is refused for want of memory alone, and an `Err` leaves all as it was.
    pub fn plant(&mut self, id: u64, from: u64) -> Result<(), AllocError>
        requires below { All (λ k. k.id < id) (forest_of self.old) }
        requires from { from ≤ 2 ^ 63 }
        ensures ok { OnOk result (forest_of self.new ≡ with_tree id from (forest_of self.old)) }
        ensures err { OnErr result (forest_of self.new ≡ forest_of self.old) }
    {
        let tree = Tree::new(self.alloc, Vec::new(self.alloc), Vec::new(self.alloc), from);
        self.add(id, tree)
    }

    /// Gives a key of a keyspace a value by the change of that number, or removes it where there is none; where the tree's
    /// active part has a version of that key and number already, or where the keyspace has no tree, nothing changes. The key
    /// has 1 to 65,535 bytes and the value at most 4,294,967,295; the tree's active part begins at the number or before. It
    /// is refused for want of memory alone, and an `Err` leaves all as it was.
    pub fn put(
        &mut self,
        id: u64,
        key: &[u8],
        number: u64,
        value: Option<&[u8]>,
    ) -> Result<(), AllocError>
        requires some { 0 < length key.now }
        requires key { length key.now < 2 ^ 16 }
        requires value { length (value_bytes (option_map (λ v. v.now) value)) < 2 ^ 32 }
        requires from { (shape : Shape) → tree_at id (forest_of self.old) ≡ Some shape → shape.memory.active.from ≤ number }
        requires small { number < 2 ^ 63 }
        ensures ok { OnOk result (forest_of self.new ≡ altered_at id (put (version key.now number (option_map (λ v. v.now) value.entry))) (forest_of self.old)) }
        ensures err { OnErr result (forest_of self.new ≡ forest_of self.old) }
        ensures marks { KeepAllMarks self.old self.new }
    {
        self.put_near(0, id, key, number, value)?;
        Ok(())
    }

    /// The same, where the keyspace's tree may stand at this place, which is looked at first. It answers where the tree
    /// stands, or the same place where the keyspace has none.
    pub(crate) fn put_near(
        &mut self,
        guess: usize,
        id: u64,
        key: &[u8],
        number: u64,
        value: Option<&[u8]>,
    ) -> Result<usize, AllocError>
        requires some { 0 < length key.now }
        requires key { length key.now < 2 ^ 16 }
        requires value { length (value_bytes (option_map (λ v. v.now) value)) < 2 ^ 32 }
        requires from { (shape : Shape) → tree_at id (forest_of self.old) ≡ Some shape → shape.memory.active.from ≤ number }
        requires small { number < 2 ^ 63 }
        ensures ok { OnOk result (forest_of self.new ≡ altered_at id (put (version key.now number (option_map (λ v. v.now) value.entry))) (forest_of self.old)) }
        ensures err { OnErr result (forest_of self.new ≡ forest_of self.old) }
        ensures marks { KeepAllMarks self.old self.new }
    {
        let Some(place) = place_near(self.trees.as_slice(), id, guess) else {
            return Ok(guess);
        };
        self.trees[place].tree.put(key, number, value)?;
        Ok(place)
    }

    /// Empties a keyspace by the change of that number; where its tree's active part has a clear of that number or above
    /// already, or where the keyspace has no tree, nothing changes. The tree's active part begins at the number or before.
    /// It is refused for want of memory alone, and an `Err` leaves all as it was.
    pub fn clear_once(&mut self, id: u64, number: u64) -> Result<(), AllocError>
        requires from { (shape : Shape) → tree_at id (forest_of self.old) ≡ Some shape → shape.memory.active.from ≤ number }
        requires small { number < 2 ^ 63 }
        ensures ok { OnOk result (forest_of self.new ≡ altered_at id (emptied_once number) (forest_of self.old)) }
        ensures err { OnErr result (forest_of self.new ≡ forest_of self.old) }
        ensures marks { KeepAllMarks self.old self.new }
    {
        match place_of(self.trees.as_slice(), id) {
            Some(place) => self.trees[place].tree.clear_once(number),
            None => Ok(()),
        }
    }
}
