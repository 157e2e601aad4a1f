//! The blocks that the tables of all trees keep in memory, and the bound on them.

ghost use Rattle.std.specs.Prelude.{◌≡◌};
ghost use Rattle.fjall_trees.specs.Kept.{all_aged, all_unread, bounded, is_full, kept_bytes, recent_bytes};

use crate::trees::Trees;

/// For how many bytes of memory the blocks may count that all trees keep together, where no other bound is set.
pub const KEPT_BLOCK_BYTES: u64 = 64 * 1_024 * 1_024;

impl Trees {
    ghost use Rattle.fjall_trees.specs.Views.{forest_of};

    /// Sets for how many bytes of memory the blocks may count that all trees keep together. The end of the next read keeps to it.
    pub fn set_kept_bound(&mut self, bytes: u64)
        ensures trees { forest_of self.new ≡ forest_of self.old }
        ensures bound { self.new.kept_bound ≡ bytes }
    {
        self.kept_bound = bytes;
    }

    /// For how many bytes of memory the kept blocks of all trees count; the greatest u64 where that is too small.
    pub fn kept_bytes(&self) -> u64
        ensures { result ≡ kept_bytes (forest_of self.now) }
    {
        let mut total = 0u64;
        let trees = self.trees.as_slice();
        for keyspace in trees {
            total = total.saturating_add(keyspace.tree.kept_bytes());
        }
        total
    }

    /// The same of the recent ones: those that were used since the older ones went last.
    fn recent_bytes(&self) -> u64
        ensures { result ≡ recent_bytes (forest_of self.now) }
    {
        let mut total = 0u64;
        let trees = self.trees.as_slice();
        for keyspace in trees {
            total = total.saturating_add(keyspace.tree.recent_bytes());
        }
        total
    }

    /// Where the recent blocks of all trees count for more than half of the bound, or all that are kept for more than it,
    /// the older ones go, and the recent ones are older from now on. Where these alone count for more than the bound, all go.
    ///
    /// So a block goes only once others were used after it that count for half of the bound, less those of one read, or at
    /// the end of a single read that alone takes more than half of the bound.
    pub(crate) fn keep_to_bound(&mut self)
        ensures trees { forest_of self.new ≡ bounded self.old.kept_bound (forest_of self.old) }
        ensures bound { self.new.kept_bound ≡ self.old.kept_bound }
    {
        if !self.is_full() {
            return;
        }
        self.let_older_go();
        if self.kept_bytes() > self.kept_bound {
            self.drop_blocks();
        }
    }

    /// Whether the older blocks are to go.
    fn is_full(&self) -> bool
        ensures { result ≡ is_full self.now.kept_bound (forest_of self.now) }
    {
        self.recent_bytes() > self.kept_bound / 2 || self.kept_bytes() > self.kept_bound
    }

    /// Keeps no older block of any tree any longer; the recent ones are older from now on.
    fn let_older_go(&mut self)
        ensures trees { forest_of self.new ≡ all_aged (forest_of self.old) }
        ensures bound { self.new.kept_bound ≡ self.old.kept_bound }
    {
        for place in 0..self.trees.len() {
            self.trees[place].tree.let_older_go();
        }
    }

    /// Keeps no block of any tree any longer.
    fn drop_blocks(&mut self)
        ensures trees { forest_of self.new ≡ all_unread (forest_of self.old) }
        ensures bound { self.new.kept_bound ≡ self.old.kept_bound }
    {
        for place in 0..self.trees.len() {
            self.trees[place].tree.drop_blocks();
        }
    }
}
