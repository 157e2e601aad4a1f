//! What replayed trees stand for.

ghost use Rattle.std.specs.Prelude.{◌≡◌, ◌<◌, ◌++◌, ◌∷◌, [], ℕ, List, All, None, Some, length};
ghost use Rattle.fjall_base.specs.Pairs.{Bytes};
ghost use Rattle.fjall_meta.specs.Contents.{Stored, store_held};
ghost use Rattle.fjall_journal.specs.Batches.{Shown, shown};
ghost use Rattle.fjall_journal.specs.Changes.{Emptied, Items, of_change};
ghost use Rattle.fjall_journal.specs.Ops.{BatchItem, items_refusal};
ghost use Rattle.fjall_tree.specs.Trees.{Shape, emptied, sealed_off};
ghost use Rattle.fjall_trees.specs.MapTables.{store_with};
ghost use Rattle.fjall_meta.specs.Keyspaces.{AreKeyspaces, Keyspaces, keyspace_at, with_keyspace, without_keyspace};
ghost use Rattle.fjall_replay.specs.Beside.{AreReplayedWith, IsUnstored, MayComeNext};
ghost use Rattle.fjall_recovery.specs.Homes.{Homes};
ghost use Rattle.fjall_recovery.specs.Journals.{WholeJournal};
ghost use Rattle.fjall_replay.specs.Parted.{AreLeftBy, count_changing, counts_beyond_homes};
ghost use Rattle.fjall_table.specs.Blocks.{Entry};
ghost use Rattle.fjall_trees.specs.Forests.{Forest, altered_at, tree_at, without};
ghost use Rattle.fjall_trees.specs.Tables.{AreSameTrees};
ghost use Rattle.fjall_trees.specs.Writes.{pushed, with_tree};

/// Where the trees show, with their tables, what files hold and what batches make beyond that, they stand for the store that keyspaces,
/// files and batches stand for.
pub fn replayed_trees_beside_tables_show_the_store()
    ensures { (entries : ℕ → List (List Entry)) (s : Keyspaces) (stored : ℕ → Stored) (batches : List Shown) (trees : Forest) → AreReplayedWith entries s stored batches trees
        → store_with entries s trees ≡ store_held s stored batches }
{}

/// Where what trees have in memory is what journals left there, each tree has as many sealed memtables as there are sealed journals that
/// have something of its keyspace beyond the keyspace's home.
pub fn a_sealed_journal_leaves_one_memtable()
    ensures { (s : Keyspaces) (homes : Homes) (journals : List WholeJournal) (trees : Forest) (id : ℕ) (shape : Shape) → AreLeftBy s homes journals trees → tree_at id trees ≡ Some shape
        → length shape.memory.sealed ≡ count_changing (counts_beyond_homes s homes) id journals }
{}

/// A change that comes next is one batch more: trees that took it show what files hold and what all batches make with it. Its items
/// are ones that a batch may have.
pub fn a_change_is_one_batch_more()
    ensures items { (entries : ℕ → List (List Entry)) (s : Keyspaces) (stored : ℕ → Stored) (batches : List Shown) (n : ℕ) (trees : Forest) (items : List BatchItem)
        → MayComeNext s stored batches n trees → items_refusal items ≡ None → AreReplayedWith entries s stored batches trees
        → AreReplayedWith entries s stored (batches ++ shown (of_change (Items items) n) ∷ []) (pushed n items trees) }
    ensures emptied { (entries : ℕ → List (List Entry)) (s : Keyspaces) (stored : ℕ → Stored) (batches : List Shown) (n : ℕ) (trees : Forest) (id : ℕ)
        → MayComeNext s stored batches n trees → AreReplayedWith entries s stored batches trees
        → AreReplayedWith entries s stored (batches ++ shown (of_change (Emptied id) n) ∷ []) (altered_at id (emptied n) trees) }
{}

/// What trees show stays what files hold and what the batches make beyond that: where the active memtable of one is sealed; of the same
/// trees, whatever is kept of their tables; where the tree of an id is dropped that no keyspace has; where the same is stored of each
/// keyspace; where a keyspace is deleted; and where one is made behind the batches, of which nothing is stored.
pub fn what_trees_show_stays()
    ensures sealed { (id : ℕ) (trees : Forest) (entries : ℕ → List (List Entry)) (s : Keyspaces) (stored : ℕ → Stored) (batches : List Shown)
        → AreReplayedWith entries s stored batches trees → AreReplayedWith entries s stored batches (altered_at id sealed_off trees) }
    ensures same { (old new : Forest) → AreSameTrees old new → (entries : ℕ → List (List Entry)) (s : Keyspaces) (stored : ℕ → Stored) (batches : List Shown)
        → AreReplayedWith entries s stored batches old → AreReplayedWith entries s stored batches new }
    ensures dropped { (id : ℕ) (trees : Forest) (entries : ℕ → List (List Entry)) (s : Keyspaces) (stored : ℕ → Stored) (batches : List Shown) → keyspace_at id s.living ≡ None
        → AreReplayedWith entries s stored batches trees → AreReplayedWith entries s stored batches (without id trees) }
    ensures stored { (entries : ℕ → List (List Entry)) (s : Keyspaces) (stored other : ℕ → Stored) (batches : List Shown) (trees : Forest) → All (λ k. other k.id ≡ stored k.id) s.living
        → AreReplayedWith entries s stored batches trees → AreReplayedWith entries s other batches trees }
    ensures deleted { (id : ℕ) (entries : ℕ → List (List Entry)) (s : Keyspaces) (stored : ℕ → Stored) (batches : List Shown) (trees : Forest)
        → AreReplayedWith entries s stored batches trees → AreReplayedWith entries (without_keyspace id s) stored batches trees }
    ensures created { (name : Bytes) (options : List Bytes) (n : ℕ) (s : Keyspaces) → AreKeyspaces s → (entries : ℕ → List (List Entry)) (stored : ℕ → Stored) (batches : List Shown) (trees : Forest)
        → All (λ k. k.id < s.next) trees → All (λ b. b.number < n) batches → IsUnstored entries stored s.next
        → AreReplayedWith entries s stored batches trees → AreReplayedWith entries (with_keyspace name options n s) stored batches (with_tree s.next n trees) }
{}
