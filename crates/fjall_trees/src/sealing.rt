//! All active memtables sealed at once.

ghost use Rattle.std.specs.Prelude.{◌≡◌, ℕ, OnOk, OnErr};
ghost use Rattle.fjall_trees.specs.Sealing.{all_sealed, first_sealed};

use crate::trees::Trees;
use std::alloc::AllocError;

impl Trees {
    ghost use Rattle.fjall_trees.specs.Views.{forest_of};

    /// Seals the active memtable of each keyspace where it holds something, and begins an empty one there. It is refused for
    /// want of memory alone, and then those of the first keyspaces are sealed, and all else is as it was.
    pub fn rotate_memtables(&mut self) -> Result<(), AllocError>
        ensures ok { OnOk result (forest_of self.new ≡ all_sealed (forest_of self.old)) }
        ensures err { OnErr result ((count : ℕ) × (forest_of self.new ≡ first_sealed count (forest_of self.old))) }
    {
        for place in 0..self.trees.len() {
            self.trees[place].tree.rotate_memtable()?;
        }
        Ok(())
    }
}
