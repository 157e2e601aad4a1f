//! Views of what the trees have in memory alone.

ghost use Rattle.std.specs.Prelude.{◌≡◌, [], IfOk, IsOkUnless, MatchOption, Some, None};
ghost use Rattle.fjall_base.specs.Pairs.{Pairs, key_range, page, pairs_between};
ghost use Rattle.fjall_memtable.specs.Views.{IsView, value_at};
ghost use Rattle.fjall_tree.specs.Trees.{Shape, clears_of, versions_of};
ghost use Rattle.fjall_trees.specs.Forests.{tree_at};

use crate::trees::{Trees, place_of};
use fjall_base::{Error, KeyBounds, KvPair, Result, UserValue};
use std::alloc::Global;

impl Trees {
    ghost use Rattle.fjall_trees.specs.Views.{forest_of};

    /// The value of a key of a keyspace in the view at an instant of what is in memory and of the record's clears, as if
    /// there were no tables. None where it has none, or where the keyspace has no tree. It is refused for want of memory
    /// alone.
    pub fn get_in_memory(&self, id: u64, key: &[u8], instant: u64) -> Result<Option<UserValue>>
        ensures found { IfOk result (λ value. MatchOption (tree_at id (forest_of self.now)) (value ≡ None) (λ shape. value ≡ value_at key.now instant (clears_of shape) (versions_of shape []))) }
        ensures only { IsOkUnless result Error.OutOfMemory }
    {
        match place_of(self.trees.as_slice(), id) {
            Some(place) => self.trees[place].tree.get_in_memory(key, instant),
            None => Ok(None),
        }
    }

    /// A page of that view: of the pairs between the bounds the first ones, or the last ones where `back` holds, and at most
    /// `max` of them; in the order of their keys in both cases. None are there where the keyspace has no tree. It is refused
    /// for want of memory alone.
    pub fn page_in_memory(
        &self,
        alloc: Global,
        id: u64,
        range: KeyBounds<'_>,
        instant: u64,
        back: bool,
        max: usize,
    ) -> Result<Vec<KvPair>>
        ensures none { tree_at id (forest_of self.now) ≡ None → IfOk result (λ found. found.items ≡ []) }
        ensures found { (shape : Shape) (pairs : Pairs) → tree_at id (forest_of self.now) ≡ Some shape → IsView instant (clears_of shape) (versions_of shape []) pairs
            → IfOk result (λ found. found.items ≡ page back max (pairs_between (key_range range.entry) pairs)) }
        ensures only { IsOkUnless result Error.OutOfMemory }
    {
        match place_of(self.trees.as_slice(), id) {
            Some(place) => self.trees[place]
                .tree
                .page_in_memory(range, instant, back, max),
            None => Ok(Vec::new(alloc)),
        }
    }
}
