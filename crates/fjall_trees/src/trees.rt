//! The trees of all keyspaces.

ghost use Rattle.std.specs.Prelude.{◌≡◌, ◌≢◌, ◌*◌, ◌++◌, ◌∷◌, ◌<◌, [], List, All, length, map, not, IfOk, OnOk, OnErr, IsOkUnless, MatchOption, IsSomeAnd, Some, None, Ok, true, false, slice_get, unwrap_or};
ghost use Rattle.std.specs.Option.{option_copied, option_map};
ghost use Rattle.fjall_memtable.specs.Parts.{holds_nothing};
ghost use Rattle.fjall_tree.specs.Shapes.{shape_of};
ghost use Rattle.fjall_tree.specs.Trees.{sealed_off};
ghost use Rattle.fjall_trees.specs.Forests.{IsForest, altered_at, forest_prop, tree_at, without};
ghost use Rattle.fjall_trees.specs.Lists.{forest_in};

use crate::kept::KEPT_BLOCK_BYTES;
use fjall_tree::Tree;
use std::alloc::{AllocError, Global};

/// The tree of one keyspace.
#[derive(Drop)]
pub struct KeyspaceTree {
    pub(crate) id: u64,
    pub(crate) tree: Tree,
}

/// The trees of keyspaces, each under its keyspace's id, by id ascending, and for how many bytes the blocks of tables may count
/// that they keep in memory.
#[derive(Drop)]
pub struct Trees {
    pub(crate) alloc: Global,
    pub(crate) trees: Vec<KeyspaceTree>,
    pub(crate) kept_bound: u64,
    ghost lawful: { IsForest (forest_in trees.items) } by { forest_prop (forest_in trees.items) },
}

// The place of the tree of a keyspace, where it has one.
pub(crate) fn place_of(trees: &[KeyspaceTree], id: u64) -> Option<usize>
    requires { IsForest (forest_in trees.now) }
    ensures { MatchOption result (tree_at id (forest_in trees.now) ≡ None) (λ place. IsSomeAnd (slice_get trees.now place) (λ k. k.id ≡ id)) }
{
    match trees.binary_search_by_key(&id, |tree| tree.id) {
        Ok(place) => Some(place),
        Err(_) => None,
    }
}

// The same, where the tree of the keyspace may stand at this place, which is looked at first.
pub(crate) fn place_near(trees: &[KeyspaceTree], id: u64, guess: usize) -> Option<usize>
    requires { IsForest (forest_in trees.now) }
    ensures { MatchOption result (tree_at id (forest_in trees.now) ≡ None) (λ place. IsSomeAnd (slice_get trees.now place) (λ k. k.id ≡ id)) }
{
    match trees.get(guess) {
        Some(tree) if tree.id == id => Some(guess),
        _ => place_of(trees, id),
    }
}

impl Trees {
    ghost use Rattle.fjall_trees.specs.Views.{forest_of};

    /// No keyspace has a tree, and blocks are kept up to `KEPT_BLOCK_BYTES`.
    pub fn new(alloc: Global) -> Trees
        ensures trees { forest_of result ≡ [] }
        ensures bound { result.kept_bound ≡ 64 * 1024 * 1024 }
    {
        Trees {
            alloc,
            trees: Vec::new(alloc),
            kept_bound: KEPT_BLOCK_BYTES,
        }
    }

    /// Adds the tree of a keyspace whose id is above all others. It is refused for want of memory alone, and an `Err` leaves
    /// all as it was.
    pub fn add(&mut self, id: u64, tree: Tree) -> Result<(), AllocError>
        requires { All (λ k. k.id < id) (forest_of self.old) }
        ensures ok { OnOk result (forest_of self.new ≡ forest_of self.old ++ record { id = id; shape = shape_of tree } ∷ []) }
        ensures err { OnErr result (forest_of self.new ≡ forest_of self.old) }
    {
        self.trees.reserve(1)?;
        self.trees.push_reserved(KeyspaceTree { id, tree });
        Ok(())
    }

    /// Drops the tree of a keyspace, where it has one.
    pub fn let_go(&mut self, id: u64)
        ensures { forest_of self.new ≡ without id (forest_of self.old) }
    {
        self.trees.retain(|tree| tree.id != id);
    }

    /// The tree of a keyspace, where it has one.
    pub fn tree(&self, id: u64) -> Option<&Tree>
        ensures tree { option_map shape_of (option_copied result) ≡ tree_at id (forest_of self.now) }
        ensures lawful { IsForest (forest_of self.now) }
    {
        match place_of(self.trees.as_slice(), id) {
            Some(place) => Some(&self.trees[place].tree),
            None => None,
        }
    }

    /// Seals the active memtable of a keyspace, and begins an empty one; false where it holds nothing, or where the keyspace
    /// has no tree, and then nothing changes. It is refused for want of memory alone, and an `Err` leaves all as it was.
    pub fn rotate_memtable(&mut self, id: u64) -> Result<bool, AllocError>
        ensures ok { IfOk result (λ is_sealed. is_sealed ≡ unwrap_or (option_map (λ shape. not (holds_nothing shape.memory.active)) (tree_at id (forest_of self.old))) false) }
        ensures sealed { result ≡ Ok true → forest_of self.new ≡ altered_at id sealed_off (forest_of self.old) }
        ensures empty { result ≡ Ok false → forest_of self.new ≡ forest_of self.old }
        ensures err { OnErr result (forest_of self.new ≡ forest_of self.old) }
    {
        match place_of(self.trees.as_slice(), id) {
            Some(place) => self.trees[place].tree.rotate_memtable(),
            None => Ok(false),
        }
    }
}
