//! What merges make of the states that memory stands for, and what is known of them.

ghost use Rattle.std.specs.Prelude.{◌≡◌, ◌<◌, ◌+◌, ◌-◌, ◌^◌, ℕ, List, Some, false, length, map, true};
ghost use Rattle.fjall_base.specs.declared.error.Error.{Error};
ghost use Rattle.fjall_table_reader.specs.Readers.{Reader};
ghost use Rattle.fjall_history.specs.declared.job.JobId.{JobId};
ghost use Rattle.fjall_history.specs.declared.reply.Reply.{Reply};
ghost use Rattle.fjall_history.specs.declared.reply.Reply.TheVariants.{Refused};
ghost use Rattle.fjall_jobs.specs.declared.made_table.MadeTable.{MadeTable};
ghost use Rattle.fjall_jobs.specs.Merges.{IsMerged};
ghost use Rattle.fjall_jobs.specs.Tasks.{Task};
ghost use Rattle.fjall_journal.specs.Writer.{counted};
ghost use Rattle.fjall_replay.specs.Known.{last_known};
ghost use Rattle.fjall_tree.specs.Jobs.{IsMerging};
ghost use Rattle.fjall_tree.specs.Trees.{Merging};
ghost use Rattle.fjall_trees.specs.Maps.{store_of};
ghost use Rattle.fjall_compaction.specs.MergeFinishing as counting;
ghost use Rattle.fjall_compaction.specs.Merges.{merged_infos, record_after_merge};
ghost use Rattle.fjall_compaction.specs.MergePlans.{IsMergePlanRefusal};
ghost use Rattle.fjall_meta.specs.declared.living.LivingKeyspace.{LivingKeyspace};
ghost use Rattle.fjall_meta.specs.Keyspaces.{keyspace_at};
ghost use Rattle.fjall_manifest.specs.Records.{Fields};
ghost use Rattle.fjall_trees.specs.Forests.{Forest};
ghost use Rattle.fjall_trees.specs.Tables.{AreSameTrees, shape_in};
ghost use Rattle.fjall_machine.specs.declared.merge_kind.MergeKind.{MergeKind as Kind};
ghost use Rattle.fjall_machine.specs.Machine as machine;
ghost use Rattle.fjall_machine.specs.Machine.{Merged, State, StepOf, begins_merge, is_living, is_merging, merge_count, options_in, present, target_size};
ghost use Rattle.fjall_machine.specs.Merging.{IsQuiet, KnowsMerge};
ghost use Rattle.fjall_machine.specs.Remembered.{KnowsTask, MemoryStandsFor, Remembered, merge_gone_in_memory, merge_out_in_memory, with_merge, with_merge_done, with_trees};
ghost use Rattle.fjall_machine.specs.Shapes.{CallShape, OfMergeFinish};

/// A merge that is begun is out, whatever is kept of the tables that it read.
pub fn a_begun_merge_stands()
    ensures stands { (m : Remembered) (table : ℕ) (s : State) → MemoryStandsFor m table s → (id : ℕ) → m.next_job < 2 ^ 64 - 1 → (trees : Forest) → AreSameTrees (merge_out_in_memory id m).trees trees
        → MemoryStandsFor (with_trees trees (merge_out_in_memory id m)) table (machine.merge_out s id) }
    // The state knows it, where its tree was begun with its task.
    ensures known { (m : Remembered) (table : ℕ) (s : State) → MemoryStandsFor m table s → (id : ℕ) (trees : Forest) → AreSameTrees (merge_out_in_memory id m).trees trees → (task : Task)
        → task.id ≡ m.next_job → task.keyspace ≡ id → IsMerging (shape_in id trees) (s.parts.entries id) task
        → KnowsMerge (machine.merge_out s id) (target_size (options_in (store_of m.keyspaces m.trees) id)) task }
{}

/// A merge that is forgotten is out no more.
pub fn a_dropped_merge_stands()
    ensures { (m : Remembered) (table : ℕ) (s : State) → MemoryStandsFor m table s → (id : ℕ) → MemoryStandsFor (merge_gone_in_memory id m) table (machine.merge_gone s id) }
{}

/// A merge of a keyspace that lives, each table of which has its entries, is finished by what was made of its task: what is read stays, at the present and at each open
/// instant, since all that is read lies above its watermark.
pub fn a_finished_merge_stands()
    ensures { (m : Remembered) (table : ℕ) (s : State) → MemoryStandsFor m table s → (id target : ℕ) (task : Task) (is : IsMerging (shape_in id m.trees) (s.parts.entries id) task)
        → task.id ≡ is.out.id → target ≡ target_size (options_in (present s) id) → length (s.parts.entries id) ≡ length (shape_in id m.trees).tables
        → (tables : List MadeTable) (clears : List ℕ) (made : IsMerged target task tables clears) (k : LivingKeyspace) → keyspace_at id m.keyspaces.living ≡ Some k
        → (readers : List Reader) → map (λ t. t.info) readers ≡ merged_infos (last_known m.records k).next_table_id tables
        → let parts = machine.parts_merged id is.out tables clears made.lists readers s.parts in
        Merged s id parts
        × MemoryStandsFor (with_merge id is.out readers (record_after_merge (counting.merge_out is.out tables clears) (last_known m.records k)) m) table (record s { parts = parts }) }
{}

/// A merge that took effect is counted.
pub fn a_counted_merge_stands()
    ensures { (m : Remembered) (table : ℕ) (s : State) → MemoryStandsFor m table s → MemoryStandsFor (with_merge_done m) table (record s { merges_done = counted (s.merges_done + 1) }) }
{}

/// What the state knows of a merge stays known, whatever step it takes: the merge is out as it was begun, or it is out no more.
pub fn a_known_merge_stays()
    ensures stays { (m : Remembered) (table : ℕ) (s : State) → MemoryStandsFor m table s → (shape : CallShape) (reply : Reply) (t : State) → StepOf s shape reply t
        → (target : ℕ) (task : Task) → KnowsMerge s target task → KnowsMerge t target task }
    // Beside batches, reads and tickets nothing need be known of the state.
    ensures quiet { (s : State) (shape : CallShape) (reply : Reply) (t : State) → IsQuiet shape → StepOf s shape reply t → (target : ℕ) (task : Task) → KnowsMerge s target task → KnowsMerge t target task }
{}

/// What is known of a flush stays known where a merge is begun, forgotten, finished or counted.
pub fn a_known_task_stays_beside_merges()
    ensures begun { (m : Remembered) (task : Task) (id : ℕ) (trees : Forest) → AreSameTrees (merge_out_in_memory id m).trees trees → KnowsTask m task → KnowsTask (with_trees trees (merge_out_in_memory id m)) task }
    ensures dropped { (m : Remembered) (task : Task) (id : ℕ) → KnowsTask m task → KnowsTask (merge_gone_in_memory id m) task }
    ensures finished { (m : Remembered) (task : Task) (id : ℕ) (out : Merging) (readers : List Reader) (last : Fields) → KnowsTask m task
        → KnowsTask (with_merge id out readers last m) task }
    ensures counted { (m : Remembered) (task : Task) → KnowsTask m task → KnowsTask (with_merge_done m) task }
{}

/// A merge that can't be planned, which is out of a keyspace that lives and made what it should of its task, is refused by a step of the
/// machine that changes nothing.
pub fn a_merge_refusal_is_a_step()
    ensures { (m : Remembered) (table : ℕ) (s : State) → MemoryStandsFor m table s → (job : JobId) (k : LivingKeyspace)
        → keyspace_at job.keyspace_id m.keyspaces.living ≡ Some k → is_merging m.trees job ≡ true → (task : Task) (is : IsMerging (shape_in job.keyspace_id m.trees) (s.parts.entries job.keyspace_id) task)
        → (target : ℕ) → target ≡ target_size (options_in (present s) job.keyspace_id) → (tables : List MadeTable) (clears : List ℕ) → IsMerged target task tables clears → s.poisoned ≡ false → (error : Error)
        → IsMergePlanRefusal (last_known m.records k) (counting.merge_out is.out tables clears) error → StepOf s (OfMergeFinish job) (Refused error) s }
{}

/// The state's merges are those that memory tells of, and so are the settings of a keyspace that lives, and whether a merge of it begins.
pub fn merges_agree()
    ensures begins { (m : Remembered) (table : ℕ) (s : State) → MemoryStandsFor m table s → (kind : Kind) (id : ℕ) → is_living (store_of m.keyspaces m.trees) id ≡ true
        → begins_merge (present s) s.parts.trees kind id ≡ begins_merge (store_of m.keyspaces m.trees) m.trees kind id }
    ensures out { (m : Remembered) (table : ℕ) (s : State) → MemoryStandsFor m table s → (job : JobId) → is_merging s.parts.trees job ≡ is_merging m.trees job }
    ensures count { (m : Remembered) (table : ℕ) (s : State) → MemoryStandsFor m table s → merge_count s.parts.trees ≡ merge_count m.trees }
    ensures options { (m : Remembered) (table : ℕ) (s : State) → MemoryStandsFor m table s → (id : ℕ) → is_living (store_of m.keyspaces m.trees) id ≡ true
        → options_in (present s) id ≡ options_in (store_of m.keyspaces m.trees) id }
{}
