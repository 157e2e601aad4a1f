//! Views of the trees over a disk.

ghost use Rattle.std.specs.Prelude.{◌≡◌, ◌≢◌, ◌≤◌, [], ℕ, List, ⊤, IfOk, IfErr, IsOkAnd, IsOkUnless, IsTrue, Some, None, Ok};
ghost use Rattle.fjall_base.specs.Disk.{Meaning};
ghost use Rattle.fjall_base.specs.Pairs.{Pairs, key_range, page, pairs_between};
ghost use Rattle.fjall_table.specs.Blocks.{Entry};
ghost use Rattle.fjall_table_reader.specs.Files.{IsRefused};
ghost use Rattle.fjall_memtable.specs.Views.{IsView, newest, value_at};
ghost use Rattle.fjall_table_reader.specs.Readers.{LooksOn, SomeTableIsWrong, SomeTableIsWrongFor};
ghost use Rattle.fjall_memtable.specs.Parts.{parts_of, versions_in};
ghost use Rattle.fjall_tree.specs.Trees.{Shape, clears_of, versions_of};
ghost use Rattle.fjall_trees.specs.Forests.{tree_at};
ghost use Rattle.fjall_trees.specs.Kept.{kept_bytes};
ghost use Rattle.fjall_trees.specs.Tables.{AreReadOn, AreSameTrees, shape_in};

use crate::trees::{Trees, place_of};
use fjall_base::{Disk, Error, KeyBounds, KvPair, Result, UserValue};
use std::alloc::Global;

impl Trees {
    ghost use Rattle.fjall_trees.specs.Views.{forest_of};

    /// The value of a key of a keyspace in the view at an instant: what the changes numbered below it made. None where it
    /// has none, or where the keyspace has no tree. A table of this keyspace whose file is damaged where the key would stand
    /// is `Storage(TableDamaged)`, but where memory has the key, no table is asked. Blocks that were read are kept, also after
    /// an `Err`, as long as all that are kept don't count for more than the bound.
    pub fn get<D: Disk>(
        &mut self,
        disk: &mut D,
        id: u64,
        key: &[u8],
        instant: u64,
    ) -> Result<Option<UserValue>>
        ensures none { tree_at id (forest_of self.old) ≡ None → result ≡ Ok None }
        ensures found { IsTrue D.honest → (entries : ℕ → List (List Entry)) → AreReadOn (D.meaning disk.old) (forest_of self.old) entries
            → (shape : Shape) → tree_at id (forest_of self.old) ≡ Some shape
            → IfOk result (λ value. value ≡ value_at key.now instant (clears_of shape) (versions_of shape (entries id))) }
        ensures reads { IsTrue D.honest → (entries : ℕ → List (List Entry)) → AreReadOn (D.meaning disk.old) (forest_of self.old) entries
            → AreReadOn (D.meaning disk.new) (forest_of self.new) entries }
        ensures trees { AreSameTrees (forest_of self.old) (forest_of self.new) }
        ensures refused { IsTrue D.honest → (entries : ℕ → List (List Entry)) → AreReadOn (D.meaning disk.old) (forest_of self.old) entries
            → IfErr result (IsRefused (SomeTableIsWrong (D.meaning disk.old) (shape_in id (forest_of self.old)).tables) (D.meaning disk.old).faults (D.meaning disk.new).faults) }
        ensures disk { LooksOn D.honest (D.meaning disk.old) (D.meaning disk.new) }
        // Of a table's blocks the wrong one is one that may hold the key, and where memory has the key, the disk isn't asked.
        ensures blamed { IsTrue D.honest → (entries : ℕ → List (List Entry)) → AreReadOn (D.meaning disk.old) (forest_of self.old) entries
            → IfErr result (IsRefused (SomeTableIsWrongFor key.now (D.meaning disk.old) (shape_in id (forest_of self.old)).tables) (D.meaning disk.old).faults (D.meaning disk.new).faults) }
        ensures memory { newest key.now instant (versions_in (parts_of (shape_in id (forest_of self.old)).memory)) ≢ None
            → (D.meaning disk.new ≡ D.meaning disk.old) × IsOkUnless result Error.OutOfMemory }
        ensures listed { IfErr result (IsRefused ⊤ (D.meaning disk.old).faults (D.meaning disk.new).faults) }
        ensures kept { kept_bytes (forest_of self.new) ≤ self.old.kept_bound }
        ensures bound { self.new.kept_bound ≡ self.old.kept_bound }
    {
        match place_of(self.trees.as_slice(), id) {
            Some(place) => {
                let value = self.trees[place].tree.get(disk, key, instant);
                self.keep_to_bound();
                value
            }
            None => {
                self.keep_to_bound();
                Ok(None)
            }
        }
    }

    /// A page of that view: of the pairs between the bounds the first ones, or the last ones where `back` holds, and at most
    /// `max` of them; in the order of their keys in both cases. None are there where the keyspace has no tree. A block is
    /// read when it is wanted; one that is damaged is `Storage(TableDamaged)`. Blocks that were read are kept, also after an
    /// `Err`, as long as all that are kept don't count for more than the bound.
    pub fn page<D: Disk>(
        &mut self,
        alloc: Global,
        disk: &mut D,
        id: u64,
        range: KeyBounds<'_>,
        instant: u64,
        back: bool,
        max: usize,
    ) -> Result<Vec<KvPair>>
        ensures none { tree_at id (forest_of self.old) ≡ None → IsOkAnd result (λ found. found.items ≡ []) }
        ensures found { IsTrue D.honest → (entries : ℕ → List (List Entry)) → AreReadOn (D.meaning disk.old) (forest_of self.old) entries
            → (shape : Shape) (pairs : Pairs) → tree_at id (forest_of self.old) ≡ Some shape → IsView instant (clears_of shape) (versions_of shape (entries id)) pairs
            → IfOk result (λ found. found.items ≡ page back max (pairs_between (key_range range.entry) pairs)) }
        ensures reads { IsTrue D.honest → (entries : ℕ → List (List Entry)) → AreReadOn (D.meaning disk.old) (forest_of self.old) entries
            → AreReadOn (D.meaning disk.new) (forest_of self.new) entries }
        ensures trees { AreSameTrees (forest_of self.old) (forest_of self.new) }
        ensures refused { IsTrue D.honest → (entries : ℕ → List (List Entry)) → AreReadOn (D.meaning disk.old) (forest_of self.old) entries
            → IfErr result (IsRefused (SomeTableIsWrong (D.meaning disk.old) (shape_in id (forest_of self.old)).tables) (D.meaning disk.old).faults (D.meaning disk.new).faults) }
        ensures disk { LooksOn D.honest (D.meaning disk.old) (D.meaning disk.new) }
        ensures listed { IfErr result (IsRefused ⊤ (D.meaning disk.old).faults (D.meaning disk.new).faults) }
        ensures kept { kept_bytes (forest_of self.new) ≤ self.old.kept_bound }
        ensures bound { self.new.kept_bound ≡ self.old.kept_bound }
    {
        match place_of(self.trees.as_slice(), id) {
            Some(place) => {
                let pairs = self.trees[place].tree.page(disk, range, instant, back, max);
                self.keep_to_bound();
                pairs
            }
            None => {
                self.keep_to_bound();
                Ok(Vec::new(alloc))
            }
        }
    }
}
