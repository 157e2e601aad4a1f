//! What holds of the definitions.

ghost use Rattle.std.specs.Prelude.{◌≡◌, ◌≢◌, ◌+◌, ◌<◌, ◌≤◌, ◌^◌, ◌++◌, [], true, ℕ, List, All, Some, None, is_some};
ghost use Rattle.std.specs.FinMap.{empty};
ghost use Rattle.fjall_base.specs.Pairs.{Bytes, lookup};
ghost use Rattle.fjall_base.specs.Store.{Clear, Create, Delete, Store, apply, kept, map_at};
ghost use Rattle.fjall_journal.specs.Ops.{BatchItem, write_of};
ghost use Rattle.fjall_meta.specs.declared.living.LivingKeyspace.{LivingKeyspace};
ghost use Rattle.fjall_meta.specs.Keyspaces.{AreKeyspaces, Keyspaces, keyspace_at, with_keyspace, without_keyspace};
ghost use Rattle.fjall_table.specs.Blocks.{Entry, IsEntry};
ghost use Rattle.fjall_memtable.specs.Entries.{IsAbsent};
ghost use Rattle.fjall_memtable.specs.Views.{IsView, value_at};
ghost use Rattle.fjall_meta.specs.Replays.{option_pairs};
ghost use Rattle.fjall_memtable.specs.Parts.{IsHeld};
ghost use Rattle.fjall_tree.specs.Puts.{put_all};
ghost use Rattle.fjall_tree.specs.Trees.{Shape, clears_of, emptied, sealed_off, versions_of};
ghost use Rattle.fjall_trees.specs.Forests.{AreBefore, Forest, IsForest, IsTree, altered_at, tree_at, without};
ghost use Rattle.fjall_trees.specs.Writes.{AreBare, MayPush, pushed, with_tree};
ghost use Rattle.fjall_trees.specs.Maps.{pairs_in, store_of};

/// The map of a keyspace at an instant is the view of all that its tree holds, and without a tree it is empty. Above all
/// numbers it stays as it is.
pub fn a_map_is_what_a_tree_shows()
    ensures view { (id instant : ℕ) (trees : Forest) (shape : Shape) → tree_at id trees ≡ Some shape
        → IsView instant (clears_of shape) (versions_of shape []) (pairs_in id instant trees) }
    ensures key { (id instant : ℕ) (trees : Forest) (shape : Shape) → tree_at id trees ≡ Some shape → (key : Bytes)
        → lookup (pairs_in id instant trees) key ≡ value_at key instant (clears_of shape) (versions_of shape []) }
    ensures nothing { (id instant : ℕ) (trees : Forest) → tree_at id trees ≡ None → pairs_in id instant trees ≡ empty }
    ensures above { (n : ℕ) (trees : Forest) → IsForest trees → AreBefore n trees → (id instant : ℕ) → n ≤ instant
        → pairs_in id instant trees ≡ pairs_in id n trees }
{}

/// The store that trees show has the map of each keyspace that lives, and of no other. Where each of these has the same map
/// above all numbers, the store is the same.
pub fn the_store_is_of_the_living()
    ensures reads { (s : Keyspaces) (trees : Forest) (id : ℕ) (k : LivingKeyspace) → keyspace_at id s.living ≡ Some k
        → map_at (store_of s trees).maps id ≡ pairs_in id (2 ^ 63) trees }
    ensures kept { (s : Keyspaces) (trees : Forest) → kept (store_of s trees) ≡ store_of s trees }
    ensures same { (s : Keyspaces) (trees others : Forest) → All (λ k. pairs_in k.id (2 ^ 63) trees ≡ pairs_in k.id (2 ^ 63) others) s.living
        → store_of s trees ≡ store_of s others }
{}

/// To each view the versions that are put into a tree, which has none of their key and number, are versions more, behind all
/// others: of several of one key and number the last one counts. The tree stays one.
pub fn versions_put_into_a_tree_are_versions_more()
    ensures view { (vs : List Entry) (shape : Shape) → IsHeld shape.memory.active → All (λ v. IsAbsent v.key v.number shape.memory.active.versions) vs
        → (key : Bytes) (instant : ℕ) (entries : List (List Entry))
        → value_at key instant (clears_of (put_all vs shape)) (versions_of (put_all vs shape) entries) ≡ value_at key instant (clears_of shape) (versions_of shape entries ++ vs) }
    ensures tree { (vs : List Entry) (shape : Shape) → IsTree shape → All IsEntry vs → All (λ v. shape.memory.active.from ≤ v.number) vs
        → All (λ v. v.number < 2 ^ 63) vs → IsTree (put_all vs shape) }
    ensures until { (n : ℕ) (vs : List Entry) (shape : Shape) → shape.memory.active.until ≤ n → All (λ v. v.number < n) vs
        → (put_all vs shape).memory.active.until ≤ n }
    ensures clears { (vs : List Entry) (shape : Shape) → clears_of (put_all vs shape) ≡ clears_of shape }
    ensures tables { (vs : List Entry) (shape : Shape) → (put_all vs shape).tables ≡ shape.tables }
{}

/// The items of a batch are one write: no instant up to their number shows anything of them, and the next one shows what the
/// command makes of what was there before. So is the store.
pub fn a_batch_is_one_write()
    ensures forest { (n : ℕ) (items : List BatchItem) (trees : Forest) → MayPush n items trees → IsForest (pushed n items trees) }
    ensures before { (n : ℕ) (items : List BatchItem) (trees : Forest) → MayPush n items trees → AreBefore (n + 1) (pushed n items trees) }
    ensures has { (n : ℕ) (items : List BatchItem) (trees : Forest) (id : ℕ)
        → is_some (tree_at id (pushed n items trees)) ≡ is_some (tree_at id trees) }
    ensures early { (n : ℕ) (items : List BatchItem) (trees : Forest) → MayPush n items trees → (id instant : ℕ) → instant ≤ n
        → pairs_in id instant (pushed n items trees) ≡ pairs_in id instant trees }
    ensures late { (n : ℕ) (items : List BatchItem) (trees : Forest) → MayPush n items trees → All (λ item. is_some (tree_at item.0 trees) ≡ true) items
        → (t : Store) (id : ℕ) → map_at t.maps id ≡ pairs_in id n trees
        → map_at (apply t (write_of items)).maps id ≡ pairs_in id (n + 1) (pushed n items trees) }
    ensures store { (n : ℕ) (items : List BatchItem) (trees : Forest) → MayPush n items trees → (s : Keyspaces)
        → All (λ k. is_some (tree_at k.id trees) ≡ true) s.living → All (λ item. is_some (keyspace_at item.0 s.living) ≡ true) items
        → kept (apply (store_of s trees) (write_of items)) ≡ store_of s (pushed n items trees) }
{}

/// A clear of a keyspace is the command: no instant up to its number shows it, and the next one shows the keyspace empty and
/// all others as they were. So is the store.
pub fn a_clear_is_the_command()
    ensures forest { (n id : ℕ) (trees : Forest) → IsForest trees → AreBefore n trees → n < 2 ^ 63 → IsForest (altered_at id (emptied n) trees) }
    ensures before { (n id : ℕ) (trees : Forest) → AreBefore n trees → AreBefore (n + 1) (altered_at id (emptied n) trees) }
    ensures has { (n id other : ℕ) (trees : Forest) → is_some (tree_at other (altered_at id (emptied n) trees)) ≡ is_some (tree_at other trees) }
    ensures early { (n id : ℕ) (trees : Forest) → IsForest trees → AreBefore n trees → (other instant : ℕ) → instant ≤ n
        → pairs_in other instant (altered_at id (emptied n) trees) ≡ pairs_in other instant trees }
    ensures late { (n id : ℕ) (trees : Forest) → IsForest trees → AreBefore n trees → (t : Store) (other : ℕ) → map_at t.maps other ≡ pairs_in other n trees
        → map_at (apply t (Clear id)).maps other ≡ pairs_in other (n + 1) (altered_at id (emptied n) trees) }
    ensures store { (n id : ℕ) (trees : Forest) → IsForest trees → AreBefore n trees → n < 2 ^ 63 → (s : Keyspaces) → is_some (keyspace_at id s.living) ≡ true
        → kept (apply (store_of s trees) (Clear id)) ≡ store_of s (altered_at id (emptied n) trees) }
{}

/// A keyspace more, with a tree of nothing behind all others, is a creation of the store. No map changes, and dropping the
/// tree again takes it back.
pub fn a_new_keyspace_is_a_creation()
    ensures forest { (id from : ℕ) (trees : Forest) → IsForest trees → All (λ k. k.id < id) trees → from ≤ 2 ^ 63 → IsForest (with_tree id from trees) }
    ensures before { (n id from : ℕ) (trees : Forest) → AreBefore n trees → from ≤ n → AreBefore n (with_tree id from trees) }
    ensures has { (id from : ℕ) (trees : Forest) → All (λ k. k.id < id) trees → is_some (tree_at id (with_tree id from trees)) ≡ true }
    ensures maps { (id from : ℕ) (trees : Forest) → All (λ k. k.id < id) trees → (other instant : ℕ)
        → pairs_in other instant (with_tree id from trees) ≡ pairs_in other instant trees }
    ensures gone { (id from : ℕ) (trees : Forest) → All (λ k. k.id < id) trees → without id (with_tree id from trees) ≡ trees }
    ensures store { (name : Bytes) (options : List Bytes) (number : ℕ) (s : Keyspaces) → AreKeyspaces s → (from : ℕ) (trees : Forest)
        → All (λ k. k.id < s.next) trees
        → store_of (with_keyspace name options number s) (with_tree s.next from trees) ≡ apply (store_of s trees) (Create name (option_pairs options)) }
{}

/// A keyspace less is a deletion of the store, what deleted keyspaces hold aside, whether its tree is there or dropped: a tree
/// whose keyspace doesn't live adds nothing, and the maps of others are left where it is dropped.
pub fn a_deleted_keyspace_is_a_deletion()
    ensures store { (id : ℕ) (s : Keyspaces) (trees : Forest) → kept (store_of (without_keyspace id s) trees) ≡ kept (apply (store_of s trees) (Delete id)) }
    ensures dropped { (id : ℕ) (s : Keyspaces) (trees : Forest) → keyspace_at id s.living ≡ None → store_of s (without id trees) ≡ store_of s trees }
    ensures maps { (id other : ℕ) (trees : Forest) → other ≢ id → (instant : ℕ) → pairs_in other instant (without id trees) ≡ pairs_in other instant trees }
    ensures forest { (id : ℕ) (trees : Forest) → IsForest trees → IsForest (without id trees) }
{}

/// A rotation of a keyspace's memtable changes no map, at whatever instant, and so not the store.
pub fn a_rotation_changes_no_map()
    ensures forest { (id : ℕ) (trees : Forest) → IsForest trees → IsForest (altered_at id sealed_off trees) }
    ensures before { (n id : ℕ) (trees : Forest) → AreBefore n trees → AreBefore n (altered_at id sealed_off trees) }
    ensures bare { (id : ℕ) (trees : Forest) → AreBare trees → AreBare (altered_at id sealed_off trees) }
    ensures has { (id other : ℕ) (trees : Forest) → is_some (tree_at other (altered_at id sealed_off trees)) ≡ is_some (tree_at other trees) }
    ensures maps { (id other instant : ℕ) (trees : Forest) → pairs_in other instant (altered_at id sealed_off trees) ≡ pairs_in other instant trees }
    ensures store { (id : ℕ) (s : Keyspaces) (trees : Forest) → store_of s (altered_at id sealed_off trees) ≡ store_of s trees }
{}
