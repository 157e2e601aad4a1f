//! What holds of a merge that is out of a tree, and of one that counts.

ghost use Rattle.std.specs.Prelude.{◌≡◌, ◌⊎◌, ◌++◌, [], ℕ, List, Some, drop, map};
ghost use Rattle.fjall_base.specs.Disk.{Image, LeavesOnly, Meaning, state_in};
ghost use Rattle.fjall_base.specs.Store.{Store, kept};
ghost use Rattle.fjall_meta.specs.Contents.{journal_beyond};
ghost use Rattle.fjall_files.specs.Names.{keyspace_folder};
ghost use Rattle.fjall_files.specs.Regions.{Within};
ghost use Rattle.fjall_compaction.specs.Flushes.{HasAt};
ghost use Rattle.fjall_manifest.specs.Homes.{Home};
ghost use Rattle.fjall_manifest.specs.Reading.{AreRight};
ghost use Rattle.fjall_journal.specs.Batches.{Shown, Written, shown};
ghost use Rattle.fjall_recovery.specs.Amid.{StandsAmid};
ghost use Rattle.fjall_recovery.specs.Folders.{AreMade, number_of_contents, store_of_contents};
ghost use Rattle.fjall_recovery.specs.Halves.{HasRoot, HasTree, Tree};
ghost use Rattle.fjall_recovery.specs.Homes.{HasVersions, HaveVersions, stored_in};
ghost use Rattle.fjall_recovery.specs.Places.{Journaling, LiesInRoot, contents_with, journals_with};
ghost use Rattle.fjall_memtable.specs.Sorted.{flat};
ghost use Rattle.fjall_table.specs.Blocks.{Entry};
ghost use Rattle.fjall_manifest.specs.Records.{Fields, Fits, IsRecord};
ghost use Rattle.fjall_compaction.specs.Merges.{Merge, MergesTables, entries_after, home_after, merged_infos, record_after_merge, tree_after};
ghost use Rattle.std.specs.FinMap.{get, insert};
ghost use Rattle.fjall_table_reader.specs.Readers.{Reader};
ghost use Rattle.fjall_compaction.specs.FlushFinishing.{AreTreesKnown};
ghost use Rattle.fjall_jobs.specs.declared.made_table.MadeTable.{MadeTable};
ghost use Rattle.fjall_jobs.specs.Merges.{IsMerged};
ghost use Rattle.fjall_jobs.specs.Tasks.{Task};
ghost use Rattle.fjall_replay.specs.Known.{LastFields, last_known};
ghost use Rattle.fjall_tree.specs.Jobs.{merge_finished};
ghost use Rattle.fjall_meta.specs.declared.living.LivingKeyspace.{LivingKeyspace};
ghost use Rattle.fjall_trees.specs.Forests.{Forest, altered_at};
ghost use Rattle.fjall_trees.specs.Tables.{entries_with};
ghost use Rattle.fjall_compaction.specs.MergeFinishing.{CanMerge, merge_out};

/// A merge keeps the store, the greatest number of the folder and what is pending, whatever batches stand in the journals.
pub fn a_merge_keeps_the_store()
    ensures store { (t : Tree) (id : ℕ) (m : Merge) (lists : List (List Entry)) (h : Home) (entries : List (List Entry)) → HasAt t id h (flat entries) → HaveVersions t.homes t.versions
        → MergesTables m lists entries h.last → (j : Journaling) (behind : List Written)
        → store_of_contents (contents_with j (tree_after id m lists h entries t) behind) ≡ store_of_contents (contents_with j t behind) }
    ensures number { (t : Tree) (id : ℕ) (m : Merge) (lists : List (List Entry)) (h : Home) (entries : List (List Entry)) → HasAt t id h (flat entries) → HaveVersions t.homes t.versions
        → MergesTables m lists entries h.last → (j : Journaling) (behind : List Written)
        → number_of_contents (contents_with j (tree_after id m lists h entries t) behind) ≡ number_of_contents (contents_with j t behind) }
    ensures pending { (t : Tree) (id : ℕ) (m : Merge) (lists : List (List Entry)) (h : Home) (entries : List (List Entry)) → HasAt t id h (flat entries) → HaveVersions t.homes t.versions
        → MergesTables m lists entries h.last → (batches : List Shown)
        → let next = tree_after id m lists h entries t in journal_beyond next.keyspaces (stored_in next.homes next.versions) batches
        ≡ journal_beyond t.keyspaces (stored_in t.homes t.versions) batches }
{}

/// What a merge makes of a home is right where the home was: its record is one, its tables have what the merge made and what came since,
/// no key two of one number, and nothing is beyond its persisted number. So the tree after it has its versions.
pub fn a_merged_home_is_right()
    ensures record { (m : Merge) (lists entries : List (List Entry)) (last : Fields) → MergesTables m lists entries last → Fits (record_after_merge m last) → IsRecord last → IsRecord (record_after_merge m last) }
    ensures versions { (m : Merge) (lists entries : List (List Entry)) (h : Home) → MergesTables m lists entries h.last → AreRight h.last.tables h.texts entries → HasVersions h (flat entries)
        → HasVersions (home_after m h) (flat (entries_after m lists entries)) }
    ensures tables { (m : Merge) (lists entries : List (List Entry)) (h : Home) → MergesTables m lists entries h.last → AreRight h.last.tables h.texts entries
        → AreRight (home_after m h).last.tables (home_after m h).texts (entries_after m lists entries) }
    ensures tree { (t : Tree) (id : ℕ) (m : Merge) (lists entries : List (List Entry)) (h : Home) → HasAt t id h (flat entries) → MergesTables m lists entries h.last
        → AreRight h.last.tables h.texts entries → HaveVersions t.homes t.versions → let next = tree_after id m lists h entries t in HaveVersions next.homes next.versions }
    ensures made { (t : Tree) (id : ℕ) (m : Merge) (lists entries : List (List Entry)) (h : Home) → AreMade t.last t.keyspaces
        → let next = tree_after id m lists h entries t in AreMade next.last next.keyspaces }
{}

/// A crash that leaves the tree before or after a merge, with any beginning of the later batches, stands for a base that keeps the store
/// of the synced batches and for what that beginning commands; and so it is at each moment of a run in the keyspace's folder that leaves
/// one of these trees.
pub fn a_crash_keeps_the_store()
    ensures image { (t : Tree) (id : ℕ) (m : Merge) (lists : List (List Entry)) (h : Home) (entries : List (List Entry)) → HasAt t id h (flat entries) → HaveVersions t.homes t.versions
        → MergesTables m lists entries h.last → (j : Journaling) (base : Store) → kept base ≡ store_of_contents (contents_with j t []) → (image : Image) (behind rest : List Written) → behind ++ rest ≡ j.later
        → HasRoot image (journals_with j behind) → HasTree image t ⊎ HasTree image (tree_after id m lists h entries t)
        → StandsAmid base [] (journal_beyond t.keyspaces (stored_in t.homes t.versions) (map shown j.later)) image }
    ensures run { (t : Tree) (id : ℕ) (m : Merge) (lists : List (List Entry)) (h : Home) (entries : List (List Entry)) → HasAt t id h (flat entries) → HaveVersions t.homes t.versions
        → MergesTables m lists entries h.last → (j : Journaling) (base : Store) → kept base ≡ store_of_contents (contents_with j t []) → (old new : Meaning) → LiesInRoot (state_in old) j
        → Within (keyspace_folder id) old new → LeavesOnly old new (λ image. HasTree image t ⊎ HasTree image (tree_after id m lists h entries t))
        → LeavesOnly old new (StandsAmid base [] (journal_beyond t.keyspaces (stored_in t.homes t.versions) (map shown j.later))) }
{}

/// A merge that is out of a keyspace of which all is known may count, whatever it made of its task: it takes the oldest tables of the
/// home's last record, and its first clears.
pub fn a_merge_that_is_out_may_count()
    ensures last { (j : Journaling) (t : Tree) (trees : Forest) (entries : ℕ → List (List Entry)) (records : LastFields) (k : LivingKeyspace) (task : Task)
        → CanMerge j t trees entries records k task → (h : Home) → get t.homes k.id ≡ Some h → last_known records k ≡ h.last }
    ensures at { (j : Journaling) (t : Tree) (trees : Forest) (entries : ℕ → List (List Entry)) (records : LastFields) (k : LivingKeyspace) (task : Task)
        → CanMerge j t trees entries records k task → (h : Home) → get t.homes k.id ≡ Some h → HasAt t k.id h (flat (entries k.id)) }
    ensures right { (j : Journaling) (t : Tree) (trees : Forest) (entries : ℕ → List (List Entry)) (records : LastFields) (k : LivingKeyspace) (task : Task)
        → CanMerge j t trees entries records k task → (h : Home) → get t.homes k.id ≡ Some h → AreRight h.last.tables h.texts (entries k.id) }
    ensures counts { (j : Journaling) (t : Tree) (trees : Forest) (entries : ℕ → List (List Entry)) (records : LastFields) (k : LivingKeyspace) (task : Task)
        → (can : CanMerge j t trees entries records k task) → (target : ℕ) (tables : List MadeTable) (clears : List ℕ) (made : IsMerged target task tables clears)
        → (h : Home) → get t.homes k.id ≡ Some h → MergesTables (merge_out can.merging.out tables clears) made.lists (entries k.id) h.last }
{}

/// After a merge that was out all keyspaces are known again, with the tables that it made in the place of those that it took and with the
/// record after it, whatever readers of these tables there are.
pub fn a_finished_merge_is_known()
    ensures { (j : Journaling) (t : Tree) (trees : Forest) (entries : ℕ → List (List Entry)) (records : LastFields) (k : LivingKeyspace) (task : Task)
        → (can : CanMerge j t trees entries records k task) → (target : ℕ) (tables : List MadeTable) (clears : List ℕ) (made : IsMerged target task tables clears)
        → (h : Home) → get t.homes k.id ≡ Some h → (readers : List Reader) → map (λ r. r.info) readers ≡ merged_infos h.last.next_table_id tables
        → let m = merge_out can.merging.out tables clears in AreTreesKnown j (tree_after k.id m made.lists h (entries k.id) t) (altered_at k.id (merge_finished readers can.merging.out) trees)
        (entries_with k.id (entries_after m made.lists (entries k.id)) entries) (insert records k.id (record_after_merge m h.last)) }
{}
