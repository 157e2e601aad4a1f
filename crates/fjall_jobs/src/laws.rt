//! What holds of what jobs make.

ghost use Rattle.std.specs.Prelude.{◌≡◌, ◌≤◌, ◌++◌, ℕ, List};
ghost use Rattle.std.specs.List.{All};
ghost use Rattle.fjall_base.specs.Pairs.{Bytes};
ghost use Rattle.fjall_table.specs.Blocks.{Entry};
ghost use Rattle.fjall_memtable.specs.Jobs.{AreBelow, AreFrom, IsAbove, OnceEach};
ghost use Rattle.fjall_memtable.specs.Views.{value_at};
ghost use Rattle.fjall_memtable.specs.Sorted.{flat};
ghost use Rattle.fjall_jobs.specs.declared.made_table.MadeTable.{MadeTable};
ghost use Rattle.fjall_jobs.specs.Merges.{IsMerged};
ghost use Rattle.fjall_jobs.specs.Tasks.{IsFlushed, Task};

/// What a flush made, put in its input's place, keeps each view above its watermark, whatever stands beside it.
pub fn what_a_flush_made_keeps_views()
    ensures { (task : Task) (tables : List MadeTable) (made_clears : List ℕ) (made : IsFlushed task tables made_clears) → OnceEach (flat task.runs)
        → (key : Bytes) (instant : ℕ) → IsAbove task.watermark instant → (before after : List ℕ) (below above : List Entry)
        → value_at key instant (before ++ (made_clears ++ after)) (below ++ (flat made.lists ++ above))
        ≡ value_at key instant (before ++ (task.clears ++ after)) (below ++ (flat task.runs ++ above)) }
{}

/// What a merge made, put in its input's place, keeps each view above its watermark, where its input is all that is numbered
/// below a bound, and all else, which came since, is numbered from that bound on.
pub fn what_a_merge_made_keeps_views()
    ensures { (target : ℕ) (task : Task) (tables : List MadeTable) (made_clears : List ℕ) (made : IsMerged target task tables made_clears) → OnceEach (flat task.runs)
        → (key : Bytes) (instant bound : ℕ) → IsAbove task.watermark instant → (rest : List ℕ) (above : List Entry)
        → AreBelow bound (flat task.runs) → All (λ n. n ≤ bound) task.clears → AreFrom bound above
        → value_at key instant (made_clears ++ rest) (flat made.lists ++ above) ≡ value_at key instant (task.clears ++ rest) (flat task.runs ++ above) }
{}
