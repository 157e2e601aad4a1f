//! What holds of a flush that is out of a tree, and of one that counts.

ghost use Rattle.std.specs.Prelude.{◌≡◌, ◌⊎◌, ◌<◌, ◌^◌, ◌++◌, ◌∷◌, ◌+◌, ◌≤◌, [], ℕ, ◌≢◌, All, List, Some, drop, is_some, map, max, take, true};
ghost use Rattle.fjall_base.specs.Disk.{Image, LeavesOnly, Meaning, state_in};
ghost use Rattle.fjall_base.specs.Store.{Store, kept};
ghost use Rattle.fjall_meta.specs.Contents.{is_beyond, journal_beyond};
ghost use Rattle.fjall_files.specs.Names.{keyspace_folder};
ghost use Rattle.fjall_files.specs.Regions.{Within};
ghost use Rattle.fjall_manifest.specs.Homes.{Home};
ghost use Rattle.fjall_jobs.specs.declared.made_table.MadeTable.{MadeTable};
ghost use Rattle.fjall_jobs.specs.Tasks.{IsFlushed, Task};
ghost use Rattle.fjall_journal.specs.Batches.{Written, shown};
ghost use Rattle.fjall_tree.specs.Jobs.{IsFlushing, flush_end, flush_finished, flush_of};
ghost use Rattle.fjall_tree.specs.Trees.{Shape, first_from};
ghost use Rattle.fjall_meta.specs.Keyspaces.{keyspace_at};
ghost use Rattle.fjall_memtable.specs.Parts.{AreApart, HeldPart, IsHeld, clears_in, parts_of, versions_in};
ghost use Rattle.fjall_recovery.specs.Amid.{StandsAmid};
ghost use Rattle.fjall_recovery.specs.Folders.{AreMade, number_of_contents, store_of_contents};
ghost use Rattle.fjall_recovery.specs.Halves.{HasRoot, HasTree, Tree};
ghost use Rattle.fjall_recovery.specs.Homes.{ClearsAreWithin, HasVersions, HaveVersions, stored_in, stored_of};
ghost use Rattle.fjall_recovery.specs.Journals.{batches_in};
ghost use Rattle.fjall_recovery.specs.Places.{Journaling, LiesInRoot, contents_with, journals_with};
ghost use Rattle.fjall_memtable.specs.Sorted.{flat};
ghost use Rattle.fjall_table.specs.Blocks.{Entry};
ghost use Rattle.fjall_manifest.specs.Records.{Fields, Fits, IsRecord};
ghost use Rattle.fjall_compaction.specs.Covering.{IsSyncedTo, MayCount, ShowsBatches, TakesParts};
ghost use Rattle.fjall_compaction.specs.Flushes.{Flush, Follows, HasAt, home_after, flushed_infos, record_after_flush, tree_after};
ghost use Rattle.std.specs.FinMap.{get, insert};
ghost use Rattle.fjall_table_reader.specs.Readers.{Reader};
ghost use Rattle.fjall_replay.specs.Known.{LastFields, last_known};
ghost use Rattle.fjall_meta.specs.declared.living.LivingKeyspace.{LivingKeyspace};
ghost use Rattle.fjall_trees.specs.Forests.{Forest, IsForest, altered_at};
ghost use Rattle.fjall_trees.specs.Tables.{entries_with, shape_in};
ghost use Rattle.fjall_compaction.specs.FlushFinishing.{AreTreesKnown, CanFinish, flush_out};

/// A flush keeps the store, whatever beginning of the later batches stands behind the synced ones, and what is pending; and to each
/// view what stays in memory shows what all batches make beyond what is stored then. Where the keyspace lives, the greatest number
/// of the folder becomes the greater of itself and the flush's; it never falls, nor goes beyond these two.
pub fn a_flush_keeps_the_store()
    ensures store { (j : Journaling) (t : Tree) (id : ℕ) (f : Flush) (lists : List (List Entry)) (h : Home) (versions : List Entry) (behind rest : List Written)
        → MayCount j t id f lists h versions → behind ++ rest ≡ j.later
        → store_of_contents (contents_with j (tree_after id f lists h versions t) behind) ≡ store_of_contents (contents_with j t behind) }
    ensures number { (j : Journaling) (t : Tree) (id : ℕ) (f : Flush) (lists : List (List Entry)) (h : Home) (versions : List Entry) (behind rest : List Written)
        → MayCount j t id f lists h versions → behind ++ rest ≡ j.later → is_some (keyspace_at id t.keyspaces.living) ≡ true
        → number_of_contents (contents_with j (tree_after id f lists h versions t) behind) ≡ max (f.number + 1) (number_of_contents (contents_with j t behind)) }
    ensures bounds { (j : Journaling) (t : Tree) (id : ℕ) (f : Flush) (lists : List (List Entry)) (h : Home) (versions : List Entry) (behind rest : List Written)
        → MayCount j t id f lists h versions → behind ++ rest ≡ j.later
        → (number_of_contents (contents_with j t behind) ≤ number_of_contents (contents_with j (tree_after id f lists h versions t) behind))
        × (number_of_contents (contents_with j (tree_after id f lists h versions t) behind) ≤ max (f.number + 1) (number_of_contents (contents_with j t behind))) }
    ensures pending { (j : Journaling) (t : Tree) (id : ℕ) (f : Flush) (lists : List (List Entry)) (h : Home) (versions : List Entry) → MayCount j t id f lists h versions
        → let next = tree_after id f lists h versions t in journal_beyond next.keyspaces (stored_in next.homes next.versions) (map shown j.later)
        ≡ journal_beyond t.keyspaces (stored_in t.homes t.versions) (map shown j.later) }
    ensures memory { (j : Journaling) (t : Tree) (id : ℕ) (f : Flush) (lists : List (List Entry)) (h : Home) (versions : List Entry) (may : MayCount j t id f lists h versions)
        → ShowsBatches t.keyspaces (stored_of (home_after f h) (versions ++ flat lists)) id (map shown (batches_in (journals_with j j.later))) may.rest_clears may.rest }
{}

/// What a flush that was begun with the first parts of memory made may count, where all parts show what all batches make: then
/// the other parts stay. And it follows the record, where memory begins beyond the persisted number.
pub fn a_flush_of_memory_may_count()
    ensures counts { (j : Journaling) (t : Tree) (id number : ℕ) (h : Home) (versions : List Entry) (task : Task) (taken left : List HeldPart) (tables : List MadeTable) (clears : List ℕ)
        (made : IsFlushed task tables clears) → HasAt t id h versions → HaveVersions t.homes t.versions → is_beyond h.last.persisted number ≡ true → number < 2 ^ 63 → IsSyncedTo number j
        → TakesParts number task taken left
        → ShowsBatches t.keyspaces (stored_of h versions) id (map shown (batches_in (journals_with j j.later))) (clears_in (taken ++ left)) (versions_in (taken ++ left))
        → (may : MayCount j t id (record { number = number; tables = tables; clears = clears }) made.lists h versions)
        × (may.rest_clears ≡ clears_in left) × (may.rest ≡ versions_in left) }
    ensures follows { (number : ℕ) (last : Fields) (task : Task) (taken left : List HeldPart) (tables : List MadeTable) (clears : List ℕ) (made : IsFlushed task tables clears)
        → number < 2 ^ 63 → TakesParts number task taken left → IsRecord last → ClearsAreWithin last → All (λ h. is_beyond last.persisted h.from ≡ true) taken
        → Follows (record { number = number; tables = tables; clears = clears }) made.lists last }
{}

/// A flush that is out of a tree takes the oldest sealed parts of its memory, where its number lies between them and the others.
pub fn a_flush_that_is_out_takes_parts()
    ensures parts { (shape : Shape) (task : Task) (is : IsFlushing shape task)
        → parts_of shape.memory ≡ take is.out.count shape.memory.sealed ++ (drop is.out.count shape.memory.sealed ++ shape.memory.active ∷ []) }
    ensures takes { (shape : Shape) (task : Task) (is : IsFlushing shape task) (number : ℕ) → All IsHeld (parts_of shape.memory) → AreApart (parts_of shape.memory)
        → All (λ h. h.until ≤ number + 1) (take is.out.count shape.memory.sealed) → number < first_from (drop is.out.count shape.memory.sealed) shape.memory.active
        → TakesParts number task (take is.out.count shape.memory.sealed) (drop is.out.count shape.memory.sealed ++ shape.memory.active ∷ []) }
{}

/// What a flush makes of a home is right where the home was: its record is one, its tables have the versions of before and then
/// those that the flush made, no key two of one number, and nothing that it holds is beyond its persisted number. So the tree after
/// it has its versions.
pub fn a_flushed_home_is_right()
    ensures record { (f : Flush) (lists : List (List Entry)) (last : Fields) → Follows f lists last → Fits (record_after_flush f last) → IsRecord last → IsRecord (record_after_flush f last) }
    ensures versions { (f : Flush) (lists : List (List Entry)) (h : Home) (versions : List Entry) → Follows f lists h.last → HasVersions h versions
        → HasVersions (home_after f h) (versions ++ flat lists) }
    ensures clears { (f : Flush) (lists : List (List Entry)) (last : Fields) → Follows f lists last → ClearsAreWithin last → ClearsAreWithin (record_after_flush f last) }
    ensures tree { (t : Tree) (id : ℕ) (f : Flush) (lists : List (List Entry)) (h : Home) (versions : List Entry) → HasAt t id h versions → Follows f lists h.last
        → HaveVersions t.homes t.versions → let next = tree_after id f lists h versions t in HaveVersions next.homes next.versions }
    ensures made { (t : Tree) (id : ℕ) (f : Flush) (lists : List (List Entry)) (h : Home) (versions : List Entry) → AreMade t.last t.keyspaces
        → let next = tree_after id f lists h versions t in AreMade next.last next.keyspaces }
{}

/// What a record covers was synced before it counts. So a crash that leaves the tree before or after a flush, with any beginning
/// of the later batches, stands for a base that keeps the store of the synced batches and for what that beginning commands; and
/// so it is at each moment of a run in the keyspace's folder that leaves one of these trees.
pub fn a_crash_keeps_what_was_synced()
    ensures image { (j : Journaling) (t : Tree) (id : ℕ) (f : Flush) (lists : List (List Entry)) (h : Home) (versions : List Entry) (base : Store) (image : Image) (behind rest : List Written)
        → MayCount j t id f lists h versions → kept base ≡ store_of_contents (contents_with j t []) → behind ++ rest ≡ j.later → HasRoot image (journals_with j behind)
        → HasTree image t ⊎ HasTree image (tree_after id f lists h versions t)
        → StandsAmid base [] (journal_beyond t.keyspaces (stored_in t.homes t.versions) (map shown j.later)) image }
    ensures run { (j : Journaling) (t : Tree) (id : ℕ) (f : Flush) (lists : List (List Entry)) (h : Home) (versions : List Entry) (base : Store) (old new : Meaning)
        → MayCount j t id f lists h versions → kept base ≡ store_of_contents (contents_with j t []) → LiesInRoot (state_in old) j → Within (keyspace_folder id) old new
        → LeavesOnly old new (λ image. HasTree image t ⊎ HasTree image (tree_after id f lists h versions t))
        → LeavesOnly old new (StandsAmid base [] (journal_beyond t.keyspaces (stored_in t.homes t.versions) (map shown j.later))) }
{}

/// A flush that is out of a keyspace of which all is known may count, whatever it made of its task: it covers all that it takes,
/// which is synced, and follows the home's last record. A flush that was begun with sealed memtables was begun with some, and all that
/// it takes is numbered below 2 ^ 63.
pub fn a_flush_that_is_out_may_count()
    ensures begun { (id keyspace watermark : ℕ) (sealed : List HeldPart) → sealed ≢ [] → (flush_of id keyspace watermark sealed).runs ≢ [] }
    ensures small { (trees : Forest) (id : ℕ) (task : Task) → IsForest trees → IsFlushing (shape_in id trees) task → flush_end (shape_in id trees) ≤ 2 ^ 63 }
    ensures above { (j : Journaling) (t : Tree) (trees : Forest) (entries : ℕ → List (List Entry)) (records : LastFields) (k : LivingKeyspace) (task : Task)
        → CanFinish j t trees entries records k task → 0 < flush_end (shape_in k.id trees) }
    ensures last { (j : Journaling) (t : Tree) (trees : Forest) (entries : ℕ → List (List Entry)) (records : LastFields) (k : LivingKeyspace) (task : Task)
        → CanFinish j t trees entries records k task → (h : Home) → get t.homes k.id ≡ Some h → last_known records k ≡ h.last }
    ensures counts { (j : Journaling) (t : Tree) (trees : Forest) (entries : ℕ → List (List Entry)) (records : LastFields) (k : LivingKeyspace) (task : Task)
        → CanFinish j t trees entries records k task → (tables : List MadeTable) (clears : List ℕ) (made : IsFlushed task tables clears)
        → (h : Home) → get t.homes k.id ≡ Some h → MayCount j t k.id (flush_out k.id trees tables clears) made.lists h (flat (entries k.id)) }
    ensures follows { (j : Journaling) (t : Tree) (trees : Forest) (entries : ℕ → List (List Entry)) (records : LastFields) (k : LivingKeyspace) (task : Task)
        → CanFinish j t trees entries records k task → (tables : List MadeTable) (clears : List ℕ) (made : IsFlushed task tables clears)
        → (h : Home) → get t.homes k.id ≡ Some h → Follows (flush_out k.id trees tables clears) made.lists h.last }
{}

/// After a flush that was out all keyspaces are known again, with the tables that it made behind the others of its keyspace and with
/// the record after it, whatever readers stand for the tables, where they know of them what that record says.
pub fn a_finished_flush_is_known()
    ensures { (j : Journaling) (t : Tree) (trees : Forest) (entries : ℕ → List (List Entry)) (records : LastFields) (k : LivingKeyspace) (task : Task)
        → (can : CanFinish j t trees entries records k task) → (tables : List MadeTable) (clears : List ℕ) (made : IsFlushed task tables clears)
        → (h : Home) → get t.homes k.id ≡ Some h → (readers : List Reader) → map (λ t. t.info) readers ≡ flushed_infos h.last.next_table_id tables
        → let f = flush_out k.id trees tables clears in AreTreesKnown j (tree_after k.id f made.lists h (flat (entries k.id)) t) (altered_at k.id (flush_finished readers can.flushing.out) trees)
        (entries_with k.id (entries k.id ++ made.lists) entries) (insert records k.id (record_after_flush f h.last)) }
{}
