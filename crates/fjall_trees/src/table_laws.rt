//! What holds of the definitions where keyspaces have tables.

ghost use Rattle.std.specs.Prelude.{◌≡◌, ◌≢◌, ◌+◌, ◌<◌, ◌≤◌, ◌^◌, ◌++◌, [], true, ℕ, List, All, Some, None, drop, is_some};
ghost use Rattle.std.specs.FinMap.{empty};
ghost use Rattle.fjall_base.specs.Disk.{Meaning};
ghost use Rattle.fjall_base.specs.Pairs.{Bytes, Pairs, lookup};
ghost use Rattle.fjall_base.specs.Store.{Clear, Create, Delete, Store, apply, kept, map_at};
ghost use Rattle.fjall_journal.specs.Ops.{BatchItem, write_of};
ghost use Rattle.fjall_meta.specs.declared.living.LivingKeyspace.{LivingKeyspace};
ghost use Rattle.fjall_meta.specs.Keyspaces.{AreKeyspaces, Keyspaces, keyspace_at, with_keyspace, without_keyspace};
ghost use Rattle.fjall_table.specs.Blocks.{Entry};
ghost use Rattle.fjall_memtable.specs.Jobs.{IsAbove, OnceEach};
ghost use Rattle.fjall_memtable.specs.Sorted.{flat};
ghost use Rattle.fjall_memtable.specs.Views.{IsView, value_at};
ghost use Rattle.fjall_meta.specs.Replays.{option_pairs};
ghost use Rattle.fjall_table_reader.specs.Readers.{Reader};
ghost use Rattle.fjall_jobs.specs.declared.made_table.MadeTable.{MadeTable};
ghost use Rattle.fjall_jobs.specs.Merges.{IsMerged};
ghost use Rattle.fjall_jobs.specs.Tasks.{IsFlushed, Task};
ghost use Rattle.fjall_tree.specs.Ingestions.{ingested, memory_task};
ghost use Rattle.fjall_tree.specs.Jobs.{IsFlushing, IsMerging, flush_begun, flush_finished, merge_begun, merge_finished};
ghost use Rattle.fjall_tree.specs.Trees.{Flushing, Merging, Shape, clears_of, emptied, sealed_off, versions_of};
ghost use Rattle.fjall_trees.specs.Forests.{AreBefore, Forest, IsForest, altered_at, tree_at, without};
ghost use Rattle.fjall_trees.specs.Tables.{AreReadOn, AreSameTrees, entries_with, shape_in};
ghost use Rattle.fjall_trees.specs.Writes.{MayPush, pushed, versions_of_items, with_tree};
ghost use Rattle.fjall_trees.specs.Maps.{pairs_in, store_of};
ghost use Rattle.fjall_trees.specs.MapTables.{AreOlder, LeavesMemory, no_entries, pairs_with, store_by, store_with};

/// Where no table has an entry, the maps and the store are those of what is in memory.
pub fn without_tables_memory_is_all()
    ensures pairs { (id instant : ℕ) (trees : Forest) → pairs_with no_entries id instant trees ≡ pairs_in id instant trees }
    ensures store { (s : Keyspaces) (trees : Forest) → store_with no_entries s trees ≡ store_of s trees }
    ensures older { (trees : Forest) → AreOlder trees no_entries }
{}

/// What is read of tables on a disk is older than what is in memory, and it stays so under writes, clears and rotations, and
/// where a tree of nothing comes and where one goes.
pub fn tables_are_older_than_memory()
    ensures read { (disk : Meaning) (trees : Forest) (entries : ℕ → List (List Entry)) → AreReadOn disk trees entries → AreOlder trees entries }
    ensures pushed { (n : ℕ) (items : List BatchItem) (trees : Forest) (entries : ℕ → List (List Entry)) → AreOlder trees entries → AreOlder (pushed n items trees) entries }
    ensures emptied { (n id : ℕ) (trees : Forest) (entries : ℕ → List (List Entry)) → AreOlder trees entries → AreOlder (altered_at id (emptied n) trees) entries }
    ensures rotated { (id : ℕ) (trees : Forest) (entries : ℕ → List (List Entry)) → AreOlder trees entries → AreOlder (altered_at id sealed_off trees) entries }
    ensures planted { (id from : ℕ) (trees : Forest) (entries : ℕ → List (List Entry)) → AreOlder trees entries → entries id ≡ [] → AreOlder (with_tree id from trees) entries }
    ensures dropped { (id : ℕ) (trees : Forest) (entries : ℕ → List (List Entry)) → AreOlder trees entries → AreOlder (without id trees) entries }
{}

/// The map of a keyspace at an instant is the view of all that its tree holds, and without a tree it is empty. Above all
/// numbers it stays as it is.
pub fn a_map_with_tables_is_what_a_tree_shows()
    ensures view { (entries : ℕ → List (List Entry)) (id instant : ℕ) (trees : Forest) (shape : Shape) → tree_at id trees ≡ Some shape
        → IsView instant (clears_of shape) (versions_of shape (entries id)) (pairs_with entries id instant trees) }
    ensures key { (entries : ℕ → List (List Entry)) (id instant : ℕ) (trees : Forest) (shape : Shape) → tree_at id trees ≡ Some shape → (key : Bytes)
        → lookup (pairs_with entries id instant trees) key ≡ value_at key instant (clears_of shape) (versions_of shape (entries id)) }
    ensures nothing { (entries : ℕ → List (List Entry)) (id instant : ℕ) (trees : Forest) → tree_at id trees ≡ None → pairs_with entries id instant trees ≡ empty }
    ensures above { (entries : ℕ → List (List Entry)) (n : ℕ) (trees : Forest) → IsForest trees → AreOlder trees entries → AreBefore n trees → (id instant : ℕ) → n ≤ instant
        → pairs_with entries id instant trees ≡ pairs_with entries id n trees }
{}

/// The store of keyspaces with given maps has the map of each one that lives, and of no other. Where each of these has the
/// same map, the store is the same.
pub fn a_store_has_the_maps_of_the_living()
    ensures reads { (pairs : ℕ → Pairs) (s : Keyspaces) (id : ℕ) (k : LivingKeyspace) → keyspace_at id s.living ≡ Some k → map_at (store_by pairs s).maps id ≡ pairs id }
    ensures kept { (pairs : ℕ → Pairs) (s : Keyspaces) → kept (store_by pairs s) ≡ store_by pairs s }
    ensures same { (pairs others : ℕ → Pairs) (s : Keyspaces) → All (λ k. pairs k.id ≡ others k.id) s.living → store_by pairs s ≡ store_by others s }
{}

/// Beside tables too the items of a batch are one write: no instant up to their number shows anything of them, and the next
/// one shows what the command makes of what was there before. So is the store.
pub fn a_batch_beside_tables_is_one_write()
    ensures early { (entries : ℕ → List (List Entry)) (n : ℕ) (items : List BatchItem) (trees : Forest) → MayPush n items trees → (id instant : ℕ) → instant ≤ n
        → pairs_with entries id instant (pushed n items trees) ≡ pairs_with entries id instant trees }
    ensures late { (entries : ℕ → List (List Entry)) (n : ℕ) (items : List BatchItem) (trees : Forest) → MayPush n items trees → AreOlder trees entries
        → All (λ item. is_some (tree_at item.0 trees) ≡ true) items → (t : Store) (id : ℕ) → map_at t.maps id ≡ pairs_with entries id n trees
        → map_at (apply t (write_of items)).maps id ≡ pairs_with entries id (n + 1) (pushed n items trees) }
    ensures store { (entries : ℕ → List (List Entry)) (n : ℕ) (items : List BatchItem) (trees : Forest) → MayPush n items trees → AreOlder trees entries → (s : Keyspaces)
        → All (λ k. is_some (tree_at k.id trees) ≡ true) s.living → All (λ item. is_some (keyspace_at item.0 s.living) ≡ true) items
        → kept (apply (store_with entries s trees) (write_of items)) ≡ store_with entries s (pushed n items trees) }
{}

/// Beside tables too a clear of a keyspace is the command: no instant up to its number shows it, and the next one shows the
/// keyspace empty and all others as they were. So is the store.
pub fn a_clear_beside_tables_is_the_command()
    ensures early { (entries : ℕ → List (List Entry)) (n id : ℕ) (trees : Forest) (other instant : ℕ) → instant ≤ n
        → pairs_with entries other instant (altered_at id (emptied n) trees) ≡ pairs_with entries other instant trees }
    ensures late { (entries : ℕ → List (List Entry)) (n id : ℕ) (trees : Forest) → IsForest trees → AreOlder trees entries → AreBefore n trees
        → (t : Store) (other : ℕ) → map_at t.maps other ≡ pairs_with entries other n trees
        → map_at (apply t (Clear id)).maps other ≡ pairs_with entries other (n + 1) (altered_at id (emptied n) trees) }
    ensures store { (entries : ℕ → List (List Entry)) (n id : ℕ) (trees : Forest) → IsForest trees → AreOlder trees entries → AreBefore n trees → n < 2 ^ 63 → (s : Keyspaces)
        → kept (apply (store_with entries s trees) (Clear id)) ≡ store_with entries s (altered_at id (emptied n) trees) }
{}

/// A keyspace more, with a tree of nothing behind all others and no table, is a creation of the store, and no map changes.
pub fn a_new_keyspace_beside_tables_is_a_creation()
    ensures maps { (entries : ℕ → List (List Entry)) (id from : ℕ) (trees : Forest) → entries id ≡ [] → (other instant : ℕ)
        → pairs_with entries other instant (with_tree id from trees) ≡ pairs_with entries other instant trees }
    ensures store { (entries : ℕ → List (List Entry)) (name : Bytes) (options : List Bytes) (number : ℕ) (s : Keyspaces) → AreKeyspaces s → (from : ℕ) (trees : Forest)
        → All (λ k. k.id < s.next) trees → entries s.next ≡ []
        → store_with entries (with_keyspace name options number s) (with_tree s.next from trees) ≡ apply (store_with entries s trees) (Create name (option_pairs options)) }
{}

/// A keyspace less is a deletion of the store, what deleted keyspaces hold aside, whether its tree is there or dropped; the
/// maps of others are left where it is dropped.
pub fn a_deleted_keyspace_with_tables_is_a_deletion()
    ensures store { (pairs : ℕ → Pairs) (id : ℕ) (s : Keyspaces) → kept (store_by pairs (without_keyspace id s)) ≡ kept (apply (store_by pairs s) (Delete id)) }
    ensures dropped { (entries : ℕ → List (List Entry)) (id : ℕ) (s : Keyspaces) (trees : Forest) → keyspace_at id s.living ≡ None → store_with entries s (without id trees) ≡ store_with entries s trees }
    ensures maps { (entries : ℕ → List (List Entry)) (id other : ℕ) (trees : Forest) → other ≢ id → (instant : ℕ)
        → pairs_with entries other instant (without id trees) ≡ pairs_with entries other instant trees }
{}

/// Beside tables too a rotation of a keyspace's memtable changes no map, at whatever instant, and so not the store.
pub fn a_rotation_beside_tables_changes_no_map()
    ensures maps { (entries : ℕ → List (List Entry)) (id other instant : ℕ) (trees : Forest)
        → pairs_with entries other instant (altered_at id sealed_off trees) ≡ pairs_with entries other instant trees }
    ensures store { (entries : ℕ → List (List Entry)) (id : ℕ) (s : Keyspaces) (trees : Forest) → store_with entries s (altered_at id sealed_off trees) ≡ store_with entries s trees }
{}

/// A change of a tree that leaves its clears and its memory changes no map, at whatever instant, and so not the store. So it
/// is where a flush or a merge is begun.
pub fn what_leaves_memory_changes_no_map()
    ensures flush { (job watermark : ℕ) → LeavesMemory (flush_begun job watermark) }
    ensures merge { (job watermark : ℕ) → LeavesMemory (merge_begun job watermark) }
    ensures forest { (change : Shape → Shape) → LeavesMemory change → (id : ℕ) (trees : Forest) → IsForest trees → IsForest (altered_at id change trees) }
    ensures before { (change : Shape → Shape) → LeavesMemory change → (id : ℕ) (trees : Forest) (n : ℕ) → AreBefore n trees → AreBefore n (altered_at id change trees) }
    ensures has { (change : Shape → Shape) → LeavesMemory change → (id : ℕ) (trees : Forest) (other : ℕ) → is_some (tree_at other (altered_at id change trees)) ≡ is_some (tree_at other trees) }
    ensures older { (change : Shape → Shape) → LeavesMemory change → (id : ℕ) (trees : Forest) (entries : ℕ → List (List Entry)) → AreOlder trees entries → AreOlder (altered_at id change trees) entries }
    ensures maps { (change : Shape → Shape) → LeavesMemory change → (id : ℕ) (trees : Forest) (entries : ℕ → List (List Entry)) (other instant : ℕ)
        → pairs_with entries other instant (altered_at id change trees) ≡ pairs_with entries other instant trees }
    ensures store { (change : Shape → Shape) → LeavesMemory change → (id : ℕ) (trees : Forest) (entries : ℕ → List (List Entry)) (s : Keyspaces)
        → store_with entries s (altered_at id change trees) ≡ store_with entries s trees }
{}

/// The same trees show the same maps and the same store, whatever is kept of their tables.
pub fn the_same_trees_show_the_same()
    ensures forest { (old new : Forest) → AreSameTrees old new → IsForest old → IsForest new }
    ensures before { (n : ℕ) (old new : Forest) → AreSameTrees old new → AreBefore n old → AreBefore n new }
    ensures has { (id : ℕ) (old new : Forest) → AreSameTrees old new → is_some (tree_at id new) ≡ is_some (tree_at id old) }
    ensures older { (entries : ℕ → List (List Entry)) (old new : Forest) → AreSameTrees old new → AreOlder old entries → AreOlder new entries }
    ensures maps { (entries : ℕ → List (List Entry)) (id instant : ℕ) (old new : Forest) → AreSameTrees old new → pairs_with entries id instant new ≡ pairs_with entries id instant old }
    ensures store { (entries : ℕ → List (List Entry)) (s : Keyspaces) (old new : Forest) → AreSameTrees old new → store_with entries s new ≡ store_with entries s old }
{}

/// A finished flush changes no map at an instant above its watermark, and so not the store.
pub fn a_finished_flush_changes_no_map()
    ensures forest { (readers : List Reader) (out : Flushing) (id : ℕ) (trees : Forest) → IsForest trees → IsForest (altered_at id (flush_finished readers out) trees) }
    ensures before { (readers : List Reader) (out : Flushing) (n id : ℕ) (trees : Forest) → AreBefore n trees → AreBefore n (altered_at id (flush_finished readers out) trees) }
    ensures has { (readers : List Reader) (out : Flushing) (id other : ℕ) (trees : Forest)
        → is_some (tree_at other (altered_at id (flush_finished readers out) trees)) ≡ is_some (tree_at other trees) }
    ensures maps { (entries : ℕ → List (List Entry)) (trees : Forest) → IsForest trees → (id : ℕ) (task : Task) (is : IsFlushing (shape_in id trees) task)
        → (tables : List MadeTable) (clears : List ℕ) (made : IsFlushed task tables clears) (readers : List Reader) (other instant : ℕ) → IsAbove task.watermark instant
        → pairs_with (entries_with id (entries id ++ made.lists) entries) other instant (altered_at id (flush_finished readers is.out) trees) ≡ pairs_with entries other instant trees }
    ensures store { (entries : ℕ → List (List Entry)) (trees : Forest) → IsForest trees → (id : ℕ) (task : Task) (is : IsFlushing (shape_in id trees) task)
        → (tables : List MadeTable) (clears : List ℕ) (made : IsFlushed task tables clears) (readers : List Reader) → task.watermark < 2 ^ 63 → (s : Keyspaces)
        → store_with (entries_with id (entries id ++ made.lists) entries) s (altered_at id (flush_finished readers is.out) trees) ≡ store_with entries s trees }
{}

/// A finished merge changes no map at an instant above its watermark, and so not the store.
pub fn a_finished_merge_changes_no_map()
    ensures forest { (readers : List Reader) (out : Merging) (id : ℕ) (trees : Forest) → IsForest trees → IsForest (altered_at id (merge_finished readers out) trees) }
    ensures before { (readers : List Reader) (out : Merging) (n id : ℕ) (trees : Forest) → AreBefore n trees → AreBefore n (altered_at id (merge_finished readers out) trees) }
    ensures has { (readers : List Reader) (out : Merging) (id other : ℕ) (trees : Forest)
        → is_some (tree_at other (altered_at id (merge_finished readers out) trees)) ≡ is_some (tree_at other trees) }
    ensures maps { (entries : ℕ → List (List Entry)) (trees : Forest) → IsForest trees → AreOlder trees entries → (id : ℕ)
        → (task : Task) (is : IsMerging (shape_in id trees) (entries id) task) (target : ℕ) (tables : List MadeTable) (clears : List ℕ) (made : IsMerged target task tables clears) (readers : List Reader)
        → (other instant : ℕ) → IsAbove task.watermark instant
        → pairs_with (entries_with id (made.lists ++ drop is.out.tables (entries id)) entries) other instant (altered_at id (merge_finished readers is.out) trees) ≡ pairs_with entries other instant trees }
    ensures store { (entries : ℕ → List (List Entry)) (trees : Forest) → IsForest trees → AreOlder trees entries → (id : ℕ)
        → (task : Task) (is : IsMerging (shape_in id trees) (entries id) task) (target : ℕ) (tables : List MadeTable) (clears : List ℕ) (made : IsMerged target task tables clears) (readers : List Reader)
        → task.watermark < 2 ^ 63 → (s : Keyspaces)
        → store_with (entries_with id (made.lists ++ drop is.out.tables (entries id)) entries) s (altered_at id (merge_finished readers is.out) trees) ≡ store_with entries s trees }
{}

/// An ingestion changes each map, at an instant above the watermark under which memory is flushed, as the same items in a batch would,
/// and so the store: so all that is said of a batch's items holds of it.
pub fn an_ingestion_shows_its_items()
    ensures forest { (n : ℕ) (readers : List Reader) (id : ℕ) (trees : Forest) → n < 2 ^ 63 → IsForest trees → AreBefore n trees → IsForest (altered_at id (ingested n readers) trees) }
    ensures before { (n : ℕ) (readers : List Reader) (id : ℕ) (trees : Forest) → AreBefore n trees → AreBefore (n + 1) (altered_at id (ingested n readers) trees) }
    ensures has { (n : ℕ) (readers : List Reader) (id other : ℕ) (trees : Forest) → is_some (tree_at other (altered_at id (ingested n readers) trees)) ≡ is_some (tree_at other trees) }
    ensures older { (entries : ℕ → List (List Entry)) (n : ℕ) (items : List BatchItem) (trees : Forest) → MayPush n items trees → (id : ℕ) (shape : Shape) → tree_at id trees ≡ Some shape → All (λ item. item.0 ≡ id) items
        → (keyspace watermark : ℕ) (tables : List MadeTable) (clears : List ℕ) (made : IsFlushed (memory_task keyspace watermark shape.memory) tables clears)
        → (lists : List (List Entry)) → flat lists ≡ versions_of_items id n items → (readers : List Reader) → AreOlder trees entries → OnceEach (flat lists)
        → AreOlder (altered_at id (ingested n readers) trees) (entries_with id (entries id ++ (made.lists ++ lists)) entries) }
    ensures maps { (entries : ℕ → List (List Entry)) (n : ℕ) (items : List BatchItem) (trees : Forest) → MayPush n items trees → (id : ℕ) (shape : Shape) → tree_at id trees ≡ Some shape → All (λ item. item.0 ≡ id) items
        → (keyspace watermark : ℕ) (tables : List MadeTable) (clears : List ℕ) (made : IsFlushed (memory_task keyspace watermark shape.memory) tables clears)
        → (lists : List (List Entry)) → flat lists ≡ versions_of_items id n items → (readers : List Reader) (other instant : ℕ) → IsAbove watermark instant
        → pairs_with (entries_with id (entries id ++ (made.lists ++ lists)) entries) other instant (altered_at id (ingested n readers) trees) ≡ pairs_with entries other instant (pushed n items trees) }
    ensures store { (entries : ℕ → List (List Entry)) (n : ℕ) (items : List BatchItem) (trees : Forest) → MayPush n items trees → (id : ℕ) (shape : Shape) → tree_at id trees ≡ Some shape → All (λ item. item.0 ≡ id) items
        → (keyspace watermark : ℕ) (tables : List MadeTable) (clears : List ℕ) (made : IsFlushed (memory_task keyspace watermark shape.memory) tables clears)
        → (lists : List (List Entry)) → flat lists ≡ versions_of_items id n items → (readers : List Reader) → watermark < 2 ^ 63 → (s : Keyspaces)
        → store_with (entries_with id (entries id ++ (made.lists ++ lists)) entries) s (altered_at id (ingested n readers) trees) ≡ store_with entries s (pushed n items trees) }
{}
