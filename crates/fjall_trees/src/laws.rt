//! What a change of one tree leaves of the others.

ghost use Rattle.std.specs.Prelude.{◌≡◌, ◌≢◌, ◌≤◌, ◌^◌, ◌++◌, ◌∷◌, [], ℕ, List, All, Some, None, drop};
ghost use Rattle.std.specs.Option.{option_map};
ghost use Rattle.fjall_base.specs.Disk.{Meaning};
ghost use Rattle.fjall_journal.specs.Ops.{BatchItem};
ghost use Rattle.fjall_table.specs.Blocks.{Entry};
ghost use Rattle.fjall_table_reader.specs.Files.{entry_at};
ghost use Rattle.fjall_table_reader.specs.Readers.{AreRead, Reader};
ghost use Rattle.fjall_memtable.specs.Jobs.{OnceEach};
ghost use Rattle.fjall_memtable.specs.Sorted.{flat};
ghost use Rattle.fjall_jobs.specs.declared.made_table.MadeTable.{MadeTable};
ghost use Rattle.fjall_jobs.specs.Merges.{IsMerged};
ghost use Rattle.fjall_jobs.specs.Tasks.{IsFlushed, Task};
ghost use Rattle.fjall_tree.specs.Ingestions.{ingested, memory_task};
ghost use Rattle.fjall_tree.specs.Jobs.{IsFlushing, IsMerging, flush_begun, flush_dropped, flush_finished, merge_begun, merge_dropped, merge_finished};
ghost use Rattle.fjall_tree.specs.Trees.{Merging, ReadsAll, Shape, emptied, sealed_off};
ghost use Rattle.fjall_trees.specs.Forests.{Forest, IsForest, altered_at, tree_at, without};
ghost use Rattle.fjall_trees.specs.Tables.{AreReadOn, AreSameTrees, entries_with, shape_in};
ghost use Rattle.fjall_trees.specs.Writes.{pushed, with_tree};

/// A change of one keyspace's tree is one of that tree alone, and where a tree is dropped all others stay.
pub fn other_trees_stay()
    ensures altered { (id : ℕ) (change : Shape → Shape) (trees : Forest) → tree_at id (altered_at id change trees) ≡ option_map change (tree_at id trees) }
    ensures others { (id other : ℕ) (change : Shape → Shape) (trees : Forest) → other ≢ id → tree_at other (altered_at id change trees) ≡ tree_at other trees }
    ensures dropped { (id : ℕ) (trees : Forest) → tree_at id (without id trees) ≡ None }
    ensures kept { (id other : ℕ) (trees : Forest) → other ≢ id → tree_at other (without id trees) ≡ tree_at other trees }
{}

/// What the tables hold on a disk stays under writes, clears and rotations, where a tree comes and where one goes, where a job
/// is begun, where one is dropped, and on each disk that has the tables' files as they were.
pub fn the_tables_stay_read()
    ensures pushed { (disk : Meaning) (trees : Forest) (entries : ℕ → List (List Entry)) → AreReadOn disk trees entries → (n : ℕ) (items : List BatchItem) → AreReadOn disk (pushed n items trees) entries }
    ensures emptied { (disk : Meaning) (trees : Forest) (entries : ℕ → List (List Entry)) → AreReadOn disk trees entries → (id n : ℕ) → AreReadOn disk (altered_at id (emptied n) trees) entries }
    ensures rotated { (disk : Meaning) (trees : Forest) (entries : ℕ → List (List Entry)) → AreReadOn disk trees entries → (id : ℕ) → AreReadOn disk (altered_at id sealed_off trees) entries }
    ensures added { (disk : Meaning) (trees : Forest) (entries : ℕ → List (List Entry)) → AreReadOn disk trees entries → (id : ℕ) (shape : Shape) → ReadsAll disk shape (entries id)
        → AreReadOn disk (trees ++ record { id = id; shape = shape } ∷ []) entries }
    ensures planted { (disk : Meaning) (trees : Forest) (entries : ℕ → List (List Entry)) → AreReadOn disk trees entries → (id from : ℕ) → entries id ≡ [] → AreReadOn disk (with_tree id from trees) entries }
    ensures dropped { (disk : Meaning) (trees : Forest) (entries : ℕ → List (List Entry)) → AreReadOn disk trees entries → (id : ℕ) → AreReadOn disk (without id trees) entries }
    ensures flush { (disk : Meaning) (trees : Forest) (entries : ℕ → List (List Entry)) → AreReadOn disk trees entries → (id job watermark : ℕ)
        → AreReadOn disk (altered_at id (flush_begun job watermark) trees) entries }
    ensures merge { (disk : Meaning) (trees : Forest) (entries : ℕ → List (List Entry)) → AreReadOn disk trees entries → (id job watermark : ℕ)
        → AreReadOn disk (altered_at id (merge_begun job watermark) trees) entries }
    ensures dropped_flush { (disk : Meaning) (trees : Forest) (entries : ℕ → List (List Entry)) → AreReadOn disk trees entries → (id : ℕ) → AreReadOn disk (altered_at id flush_dropped trees) entries }
    ensures dropped_merge { (disk : Meaning) (trees : Forest) (entries : ℕ → List (List Entry)) → AreReadOn disk trees entries → (id : ℕ) → AreReadOn disk (altered_at id merge_dropped trees) entries }
    ensures later { (old new : Meaning) (trees : Forest) (entries : ℕ → List (List Entry)) → AreReadOn old trees entries
        → All (λ k. All (λ t. entry_at new t.name ≡ entry_at old t.name) k.shape.tables) trees → AreReadOn new trees entries }
{}

/// A finished job changes what the tables of its keyspace hold, and no others: behind what they held stands what a flush made,
/// and what a merge made stands in its input's place.
pub fn finished_jobs_change_one_keyspace()
    ensures flushed { (disk : Meaning) (trees : Forest) (entries : ℕ → List (List Entry)) → IsForest trees → AreReadOn disk trees entries
        → (id : ℕ) (task : Task) (is : IsFlushing (shape_in id trees) task) (tables : List MadeTable) (clears : List ℕ) (made : IsFlushed task tables clears)
        → (readers : List Reader) → AreRead disk readers made.lists
        → AreReadOn disk (altered_at id (flush_finished readers is.out) trees) (entries_with id (entries id ++ made.lists) entries) }
    ensures merged { (disk : Meaning) (trees : Forest) (entries : ℕ → List (List Entry)) → IsForest trees → AreReadOn disk trees entries
        → (id : ℕ) (task : Task) (is : IsMerging (shape_in id trees) (entries id) task)
        → (target : ℕ) (tables : List MadeTable) (clears : List ℕ) (made : IsMerged target task tables clears) (readers : List Reader) → AreRead disk readers made.lists
        → AreReadOn disk (altered_at id (merge_finished readers is.out) trees) (entries_with id (made.lists ++ drop is.out.tables (entries id)) entries) }
    ensures here { (id : ℕ) (new : List (List Entry)) (entries : ℕ → List (List Entry)) → entries_with id new entries id ≡ new }
    ensures others { (id other : ℕ) (new : List (List Entry)) (entries : ℕ → List (List Entry)) → other ≢ id → entries_with id new entries other ≡ entries other }
{}

/// An ingestion changes what the tables of its keyspace hold, and no others: behind what they held stands what a flush of its memory
/// made, and then the ingestion's versions, all of its number.
pub fn an_ingestion_changes_one_keyspace()
    ensures { (disk : Meaning) (trees : Forest) (entries : ℕ → List (List Entry)) → IsForest trees → AreReadOn disk trees entries → (id n : ℕ) (shape : Shape) → tree_at id trees ≡ Some shape
        → n ≤ 2 ^ 63 → shape.memory.active.until ≤ n → (keyspace watermark : ℕ) (tables : List MadeTable) (clears : List ℕ) (made : IsFlushed (memory_task keyspace watermark shape.memory) tables clears)
        → (lists : List (List Entry)) → All (λ v. v.number ≡ n) (flat lists) → OnceEach (flat lists) → (readers : List Reader) → AreRead disk readers (made.lists ++ lists)
        → AreReadOn disk (altered_at id (ingested n readers) trees) (entries_with id (entries id ++ (made.lists ++ lists)) entries) }
{}

/// A flush that is out stays so under writes, clears and rotations of whatever keyspace, where a merge is begun, where one is
/// finished and where one is dropped, and where a keyspace comes; the same trees have the same one. What changes or drops other trees leaves the
/// tree that it was begun with: so a flush stays out where another keyspace's is begun, finished or dropped.
pub fn flushes_of_trees_stay_out()
    ensures pushed { (id : ℕ) (trees : Forest) (task : Task) → IsFlushing (shape_in id trees) task → (n : ℕ) (items : List BatchItem) → IsFlushing (shape_in id (pushed n items trees)) task }
    ensures emptied { (id : ℕ) (trees : Forest) (task : Task) → IsFlushing (shape_in id trees) task → (other n : ℕ) → IsFlushing (shape_in id (altered_at other (emptied n) trees)) task }
    ensures rotated { (id : ℕ) (trees : Forest) (task : Task) → IsFlushing (shape_in id trees) task → (other : ℕ) → IsFlushing (shape_in id (altered_at other sealed_off trees)) task }
    ensures begun { (id : ℕ) (trees : Forest) (task : Task) → IsFlushing (shape_in id trees) task → (other job watermark : ℕ)
        → IsFlushing (shape_in id (altered_at other (merge_begun job watermark) trees)) task }
    ensures merged { (id : ℕ) (trees : Forest) (task : Task) → IsFlushing (shape_in id trees) task → (other : ℕ) (readers : List Reader) (out : Merging)
        → IsFlushing (shape_in id (altered_at other (merge_finished readers out) trees)) task }
    ensures dropped_merge { (id : ℕ) (trees : Forest) (task : Task) → IsFlushing (shape_in id trees) task → (other : ℕ) → IsFlushing (shape_in id (altered_at other merge_dropped trees)) task }
    ensures planted { (id : ℕ) (trees : Forest) (task : Task) → IsFlushing (shape_in id trees) task → (other from : ℕ) → IsFlushing (shape_in id (with_tree other from trees)) task }
    ensures same { (id : ℕ) (old new : Forest) → AreSameTrees old new → (task : Task) → IsFlushing (shape_in id old) task → IsFlushing (shape_in id new) task }
    ensures others { (id other : ℕ) (change : Shape → Shape) (trees : Forest) → other ≢ id → shape_in other (altered_at id change trees) ≡ shape_in other trees }
    ensures dropped { (id other : ℕ) (trees : Forest) → other ≢ id → shape_in other (without id trees) ≡ shape_in other trees }
    ensures dropped_flush { (id other : ℕ) (change : Shape → Shape) (trees : Forest) (task : Task) → other ≢ id → IsFlushing (shape_in id trees) task
        → IsFlushing (shape_in id (altered_at other change trees)) task }
{}

/// A merge that is out stays so under writes, clears and rotations of whatever keyspace, where a flush is begun, where one is
/// finished and where one is dropped, where items are ingested into its keyspace, and where a keyspace comes; the same trees have
/// the same one, and so have trees of which another keyspace's is changed.
pub fn merges_of_trees_stay_out()
    ensures pushed { (id : ℕ) (trees : Forest) (entries : List (List Entry)) (task : Task) → IsMerging (shape_in id trees) entries task → (n : ℕ) (items : List BatchItem)
        → IsMerging (shape_in id (pushed n items trees)) entries task }
    ensures emptied { (id : ℕ) (trees : Forest) (entries : List (List Entry)) (task : Task) → IsMerging (shape_in id trees) entries task → (other n : ℕ)
        → IsMerging (shape_in id (altered_at other (emptied n) trees)) entries task }
    ensures rotated { (id : ℕ) (trees : Forest) (entries : List (List Entry)) (task : Task) → IsMerging (shape_in id trees) entries task → (other : ℕ)
        → IsMerging (shape_in id (altered_at other sealed_off trees)) entries task }
    ensures begun { (id : ℕ) (trees : Forest) (entries : List (List Entry)) (task : Task) → IsMerging (shape_in id trees) entries task → (other job watermark : ℕ)
        → IsMerging (shape_in id (altered_at other (flush_begun job watermark) trees)) entries task }
    ensures dropped_flush { (id : ℕ) (trees : Forest) (entries : List (List Entry)) (task : Task) → IsMerging (shape_in id trees) entries task → (other : ℕ)
        → IsMerging (shape_in id (altered_at other flush_dropped trees)) entries task }
    ensures flushed { (id : ℕ) (trees : Forest) (entries : List (List Entry)) (task : Task) → IsMerging (shape_in id trees) entries task → IsForest trees
        → (flush : Task) (is : IsFlushing (shape_in id trees) flush) (tables : List MadeTable) (clears : List ℕ) (made : IsFlushed flush tables clears) (readers : List Reader)
        → IsMerging (shape_in id (altered_at id (flush_finished readers is.out) trees)) (entries ++ made.lists) task }
    ensures ingested { (id : ℕ) (trees : Forest) (entries : List (List Entry)) (task : Task) → IsMerging (shape_in id trees) entries task → IsForest trees
        → (keyspace watermark : ℕ) (tables : List MadeTable) (clears : List ℕ) (made : IsFlushed (memory_task keyspace watermark (shape_in id trees).memory) tables clears)
        → (n : ℕ) → n ≤ 2 ^ 63 → (shape_in id trees).memory.active.until ≤ n → (lists : List (List Entry)) → All (λ v. v.number ≡ n) (flat lists) → (readers : List Reader)
        → IsMerging (shape_in id (altered_at id (ingested n readers) trees)) (entries ++ (made.lists ++ lists)) task }
    ensures elsewhere { (id other : ℕ) (change : Shape → Shape) (trees : Forest) (entries : List (List Entry)) (task : Task) → other ≢ id → IsMerging (shape_in id trees) entries task
        → IsMerging (shape_in id (altered_at other change trees)) entries task }
    ensures planted { (id : ℕ) (trees : Forest) (entries : List (List Entry)) (task : Task) → IsMerging (shape_in id trees) entries task → (other from : ℕ)
        → IsMerging (shape_in id (with_tree other from trees)) entries task }
    ensures same { (id : ℕ) (old new : Forest) → AreSameTrees old new → (entries : List (List Entry)) (task : Task) → IsMerging (shape_in id old) entries task → IsMerging (shape_in id new) entries task }
{}
