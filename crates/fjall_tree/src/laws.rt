//! What writes, clears and rotations make of a tree.

ghost use Rattle.std.specs.Prelude.{◌≡◌, ◌≢◌, ◌⊎◌, ◌<◌, ◌≤◌, ◌^◌, ◌++◌, ◌∷◌, [], ℕ, List, drop};
ghost use Rattle.std.specs.List.{All};
ghost use Rattle.fjall_base.specs.Disk.{Meaning};
ghost use Rattle.fjall_base.specs.Pairs.{Bytes};
ghost use Rattle.fjall_table.specs.Blocks.{Entry};
ghost use Rattle.fjall_memtable.specs.Entries.{IsAbsent};
ghost use Rattle.fjall_memtable.specs.Jobs.{IsAbove, OnceEach};
ghost use Rattle.fjall_memtable.specs.Views.{value_at};
ghost use Rattle.fjall_memtable.specs.Sorted.{flat};
ghost use Rattle.fjall_table_reader.specs.Readers.{AreRead, Reader};
ghost use Rattle.fjall_memtable.specs.Parts.{AreApart, IsHeld, parts_of};
ghost use Rattle.fjall_jobs.specs.declared.made_table.MadeTable.{MadeTable};
ghost use Rattle.fjall_jobs.specs.Keeping.{AreSorted};
ghost use Rattle.fjall_jobs.specs.Merges.{IsMerged};
ghost use Rattle.fjall_jobs.specs.Tasks.{IsFlushed, Task};
ghost use Rattle.fjall_tree.specs.Ingestions.{ingested, memory_task};
ghost use Rattle.fjall_tree.specs.Jobs.{IsFlushing, IsMerging, flush_finished, merge_finished};
ghost use Rattle.fjall_tree.specs.Trees.{Merging, ReadsAll, Shape, clears_of, emptied, sealed_off, versions_of, written};

/// To each view a write is one version more, behind all others. So each view above its number shows it, where no number
/// exceeds it; no other key changes, and no view up to its number. The clears and what the tables hold stay.
pub fn a_written_tree_has_one_version_more()
    ensures view { (key : Bytes) (instant : ℕ) (shape : Shape) (entries : List (List Entry)) (v : Entry) → IsHeld shape.memory.active → IsAbsent v.key v.number shape.memory.active.versions
        → value_at key instant (clears_of (written v shape)) (versions_of (written v shape) entries) ≡ value_at key instant (clears_of shape) (versions_of shape entries ++ v ∷ []) }
    ensures shows { (instant : ℕ) (shape : Shape) (entries : List (List Entry)) (v : Entry) → IsHeld shape.memory.active → IsAbsent v.key v.number shape.memory.active.versions
        → v.number < instant → All (λ w. w.number ≤ v.number) (versions_of shape entries) → All (λ n. n ≤ v.number) (clears_of shape)
        → value_at v.key instant (clears_of (written v shape)) (versions_of (written v shape) entries) ≡ v.value }
    ensures keeps { (key : Bytes) (instant : ℕ) (shape : Shape) (entries : List (List Entry)) (v : Entry) → IsHeld shape.memory.active → IsAbsent v.key v.number shape.memory.active.versions
        → (v.key ≢ key) ⊎ (instant ≤ v.number)
        → value_at key instant (clears_of (written v shape)) (versions_of (written v shape) entries) ≡ value_at key instant (clears_of shape) (versions_of shape entries) }
    ensures clears { (shape : Shape) (v : Entry) → clears_of (written v shape) ≡ clears_of shape }
    ensures reads { (disk : Meaning) (shape : Shape) (entries : List (List Entry)) (v : Entry) → ReadsAll disk shape entries → ReadsAll disk (written v shape) entries }
{}

/// A clear is one clear more, behind all others. The versions and what the tables hold stay.
pub fn an_emptied_tree_has_one_clear_more()
    ensures clears { (shape : Shape) (n : ℕ) → clears_of (emptied n shape) ≡ clears_of shape ++ n ∷ [] }
    ensures versions { (shape : Shape) (entries : List (List Entry)) (n : ℕ) → versions_of (emptied n shape) entries ≡ versions_of shape entries }
    ensures reads { (disk : Meaning) (shape : Shape) (entries : List (List Entry)) (n : ℕ) → ReadsAll disk shape entries → ReadsAll disk (emptied n shape) entries }
{}

/// A rotation changes no version, no clear and nothing that the tables hold.
pub fn a_rotated_tree_holds_the_same()
    ensures clears { (shape : Shape) → clears_of (sealed_off shape) ≡ clears_of shape }
    ensures versions { (shape : Shape) (entries : List (List Entry)) → versions_of (sealed_off shape) entries ≡ versions_of shape entries }
    ensures reads { (disk : Meaning) (shape : Shape) (entries : List (List Entry)) → ReadsAll disk shape entries → ReadsAll disk (sealed_off shape) entries }
{}

/// Putting what a flush made in its input's place keeps each view above its watermark, and what the tables hold. A merge that
/// is out stays so.
pub fn a_flushed_tree_keeps_views()
    ensures views { (shape : Shape) (entries : List (List Entry)) (task : Task) (is : IsFlushing shape task) → All IsHeld (parts_of shape.memory) → AreApart (parts_of shape.memory)
        → (tables : List MadeTable) (clears : List ℕ) (made : IsFlushed task tables clears) (readers : List Reader) (key : Bytes) (instant : ℕ) → IsAbove task.watermark instant
        → value_at key instant (clears_of (flush_finished readers is.out shape)) (versions_of (flush_finished readers is.out shape) (entries ++ made.lists))
        ≡ value_at key instant (clears_of shape) (versions_of shape entries) }
    ensures reads { (disk : Meaning) (shape : Shape) (entries : List (List Entry)) (task : Task) (is : IsFlushing shape task) → All IsHeld (parts_of shape.memory) → AreApart (parts_of shape.memory)
        → (tables : List MadeTable) (clears : List ℕ) (made : IsFlushed task tables clears) (readers : List Reader) → ReadsAll disk shape entries → AreRead disk readers made.lists
        → ReadsAll disk (flush_finished readers is.out shape) (entries ++ made.lists) }
    ensures merge { (shape : Shape) (entries : List (List Entry)) (task other : Task) (is : IsFlushing shape task) → All IsHeld (parts_of shape.memory) → AreApart (parts_of shape.memory)
        → (tables : List MadeTable) (clears : List ℕ) (made : IsFlushed task tables clears) (readers : List Reader) → IsMerging shape entries other
        → IsMerging (flush_finished readers is.out shape) (entries ++ made.lists) other }
{}

/// Putting what a merge made in the place of the tables that it was begun with keeps each view above its watermark, and what
/// the tables hold, whatever was flushed since. A flush that is out stays so.
pub fn a_merged_tree_keeps_views()
    ensures views { (shape : Shape) (entries : List (List Entry)) (task : Task) (is : IsMerging shape entries task) → All IsHeld (parts_of shape.memory) → AreApart (parts_of shape.memory) → OnceEach (flat entries)
        → (target : ℕ) (tables : List MadeTable) (clears : List ℕ) (made : IsMerged target task tables clears) (readers : List Reader) (key : Bytes) (instant : ℕ) → IsAbove task.watermark instant
        → value_at key instant (clears_of (merge_finished readers is.out shape)) (versions_of (merge_finished readers is.out shape) (made.lists ++ drop is.out.tables entries))
        ≡ value_at key instant (clears_of shape) (versions_of shape entries) }
    ensures reads { (disk : Meaning) (shape : Shape) (entries : List (List Entry)) (task : Task) (is : IsMerging shape entries task)
        → (target : ℕ) (tables : List MadeTable) (clears : List ℕ) (made : IsMerged target task tables clears) (readers : List Reader) → ReadsAll disk shape entries → AreRead disk readers made.lists
        → ReadsAll disk (merge_finished readers is.out shape) (made.lists ++ drop is.out.tables entries) }
    ensures flush { (readers : List Reader) (out : Merging) (shape : Shape) (task : Task) → IsFlushing shape task → IsFlushing (merge_finished readers out shape) task }
{}

/// A job that is out stays so under writes, clears and rotations; a merge under an ingestion too.
pub fn jobs_stay_out()
    ensures written { (shape : Shape) (v : Entry) (task : Task) → IsFlushing shape task → IsFlushing (written v shape) task }
    ensures emptied { (shape : Shape) (n : ℕ) (task : Task) → IsFlushing shape task → IsFlushing (emptied n shape) task }
    ensures rotated { (shape : Shape) (task : Task) → IsFlushing shape task → IsFlushing (sealed_off shape) task }
    ensures merge_written { (shape : Shape) (entries : List (List Entry)) (v : Entry) (task : Task) → IsMerging shape entries task → IsMerging (written v shape) entries task }
    ensures merge_emptied { (shape : Shape) (entries : List (List Entry)) (n : ℕ) (task : Task) → IsMerging shape entries task → IsMerging (emptied n shape) entries task }
    ensures merge_rotated { (shape : Shape) (entries : List (List Entry)) (task : Task) → IsMerging shape entries task → IsMerging (sealed_off shape) entries task }
    ensures merge_ingested { (shape : Shape) (entries : List (List Entry)) (task : Task) → IsMerging shape entries task → All IsHeld (parts_of shape.memory) → AreApart (parts_of shape.memory)
        → (keyspace watermark : ℕ) (tables : List MadeTable) (clears : List ℕ) (made : IsFlushed (memory_task keyspace watermark shape.memory) tables clears)
        → (n : ℕ) → n ≤ 2 ^ 63 → shape.memory.active.until ≤ n → (lists : List (List Entry)) → All (λ v. v.number ≡ n) (flat lists) → (readers : List Reader)
        → IsMerging (ingested n readers shape) (entries ++ (made.lists ++ lists)) task }
{}

/// What a merge reads on a disk whose tables are read can be gone through: it is in order, and no key has two versions of one
/// number in it. So its run is exact.
pub fn a_merge_reads_what_is_sorted()
    ensures { (disk : Meaning) (shape : Shape) (entries : List (List Entry)) (task : Task) → ReadsAll disk shape entries → IsMerging shape entries task → AreSorted task.runs }
{}
