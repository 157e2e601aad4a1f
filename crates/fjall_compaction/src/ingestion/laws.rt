//! What holds of an ingestion that counts, by itself and with the flush of memory before it.

ghost use Rattle.std.specs.Prelude.{◌≡◌, ◌⊎◌, ◌<◌, ◌≤◌, ◌^◌, ◌++◌, ◌∷◌, ◌+◌, [], ℕ, All, List, Option, Some, None, false, map, true};
ghost use Rattle.fjall_base.specs.Disk.{Image, LeavesOnly, Meaning, state_in};
ghost use Rattle.fjall_base.specs.Store.{Store, apply, kept};
ghost use Rattle.fjall_meta.specs.Contents.{is_beyond, journal_beyond};
ghost use Rattle.fjall_files.specs.Names.{keyspace_folder};
ghost use Rattle.fjall_files.specs.Regions.{Within};
ghost use Rattle.fjall_compaction.specs.Covering.{MayCount, ShowsBatches};
ghost use Rattle.fjall_compaction.specs.Flushes.{Flush, Follows, HasAt, home_after, flushed_infos, record_after_flush, tree_after};
ghost use Rattle.fjall_manifest.specs.Homes.{Home};
ghost use Rattle.fjall_jobs.specs.declared.made_table.MadeTable.{MadeTable};
ghost use Rattle.fjall_journal.specs.Batches.{Shown, Written, shown};
ghost use Rattle.fjall_recovery.specs.Amid.{StandsAmid};
ghost use Rattle.fjall_recovery.specs.Folders.{AreMade, number_of_contents, store_of_contents};
ghost use Rattle.fjall_recovery.specs.Halves.{HasRoot, HasTree, Tree};
ghost use Rattle.fjall_recovery.specs.Homes.{ClearsAreWithin, HasVersions, HaveVersions, stored_in, stored_of};
ghost use Rattle.fjall_recovery.specs.Journals.{batches_in};
ghost use Rattle.fjall_recovery.specs.Places.{Journaling, LiesInRoot, contents_with, journals_with};
ghost use Rattle.fjall_memtable.specs.Sorted.{flat};
ghost use Rattle.fjall_table.specs.Blocks.{Entry};
ghost use Rattle.fjall_manifest.specs.Records.{Fields, Fits, IsRecord};
ghost use Rattle.fjall_meta.specs.Replays.{counts, first_fault};
ghost use Rattle.fjall_reading.specs.Ingestions.{KeyOp};
ghost use Rattle.fjall_compaction.specs.Commands.{ArePersisted, MayCome, MayIngest, MayIngestSynced};
ghost use Rattle.fjall_compaction.specs.Ingests.{as_flush, home_with, ingestion, tree_with, versions_made};
ghost use Rattle.fjall_compaction.specs.IngestionPlans.{AreIngestionTables};
ghost use Rattle.std.specs.FinMap.{get, insert};
ghost use Rattle.fjall_table_reader.specs.Readers.{Reader};
ghost use Rattle.fjall_compaction.specs.FlushFinishing.{AreTreesKnown};
ghost use Rattle.fjall_jobs.specs.Tasks.{IsFlushed};
ghost use Rattle.fjall_replay.specs.Known.{LastFields, last_known};
ghost use Rattle.fjall_tree.specs.Ingestions.{has_memory, ingested, memory_task};
ghost use Rattle.fjall_meta.specs.declared.living.LivingKeyspace.{LivingKeyspace};
ghost use Rattle.fjall_memtable.specs.Parts.{clears_in, parts_of};
ghost use Rattle.fjall_trees.specs.Forests.{Forest, altered_at};
ghost use Rattle.fjall_trees.specs.Tables.{entries_with, shape_in};
ghost use Rattle.fjall_compaction.specs.Whole.{CanIngest, last_flushed, last_ingested, memory_flush, tree_behind, tree_between};

/// The store after an ingestion is the one command applied to the store before it, whatever beginning of the later batches stands
/// behind the synced ones; so it is too where nothing is pending and memory has nothing to show. The greatest number of the folder and
/// both numbers of the record are the ingestion's then, and it was beyond the persisted one; what is pending stays, and nothing is left
/// for memory to show.
pub fn an_ingestion_is_one_command()
    ensures store { (j : Journaling) (t : Tree) (id number : ℕ) (items : List KeyOp) (tables : List MadeTable) (h : Home) (versions : List Entry) (behind rest : List Written)
        → MayIngest j t id number h versions → behind ++ rest ≡ j.later
        → store_of_contents (contents_with j (tree_with id number items tables h versions t) behind) ≡ apply (store_of_contents (contents_with j t behind)) (ingestion id items) }
    ensures synced { (j : Journaling) (t : Tree) (id number : ℕ) (items : List KeyOp) (tables : List MadeTable) (h : Home) (versions : List Entry)
        → MayIngestSynced j t id number h versions
        → store_of_contents (contents_with j (tree_with id number items tables h versions t) []) ≡ apply (store_of_contents (contents_with j t [])) (ingestion id items) }
    ensures kept { (j : Journaling) (t : Tree) (id number : ℕ) (items : List KeyOp) (tables : List MadeTable) (h : Home) (versions : List Entry) (behind rest : List Written)
        → MayIngest j t id number h versions → behind ++ rest ≡ j.later
        → kept (apply (store_of_contents (contents_with j t behind)) (ingestion id items)) ≡ store_of_contents (contents_with j (tree_with id number items tables h versions t) behind) }
    ensures number { (j : Journaling) (t : Tree) (id number : ℕ) (items : List KeyOp) (tables : List MadeTable) (h : Home) (versions : List Entry) (behind rest : List Written)
        → MayCome j t id number h versions → behind ++ rest ≡ j.later
        → number_of_contents (contents_with j (tree_with id number items tables h versions t) behind) ≡ number + 1 }
    ensures numbers { (j : Journaling) (t : Tree) (id number : ℕ) (tables : List MadeTable) (h : Home) (versions : List Entry) → MayCome j t id number h versions
        → let last = (home_with number tables h).last in (last.persisted ≡ Some number) × (last.highest ≡ Some number) }
    ensures beyond { (j : Journaling) (t : Tree) (id number : ℕ) (h : Home) (versions : List Entry) → MayCome j t id number h versions → is_beyond h.last.persisted number ≡ true }
    ensures pending { (j : Journaling) (t : Tree) (id number : ℕ) (items : List KeyOp) (tables : List MadeTable) (h : Home) (versions : List Entry) → MayIngest j t id number h versions
        → let next = tree_with id number items tables h versions t in journal_beyond next.keyspaces (stored_in next.homes next.versions) (map shown j.later)
        ≡ journal_beyond t.keyspaces (stored_in t.homes t.versions) (map shown j.later) }
    ensures memory { (j : Journaling) (t : Tree) (id number : ℕ) (items : List KeyOp) (tables : List MadeTable) (h : Home) (versions : List Entry) → MayCome j t id number h versions
        → ShowsBatches t.keyspaces (stored_of (home_with number tables h) (versions ++ versions_made number items)) id (map shown (batches_in (journals_with j j.later))) [] [] }
{}

/// After a flush that took all that memory had of the keyspace, and with nothing pending, an ingestion may count under a number
/// above the flush's and above all that the folder had before it.
pub fn an_ingestion_may_follow_a_flush()
    ensures { (j : Journaling) (t : Tree) (id number : ℕ) (f : Flush) (lists : List (List Entry)) (h : Home) (versions : List Entry) (may : MayCount j t id f lists h versions)
        → Follows f lists h.last → may.rest_clears ≡ [] → may.rest ≡ [] → j.later ≡ [] → first_fault 0 (map shown (batches_in (journals_with j j.later))) ≡ None
        → counts t.keyspaces number id ≡ true → number < 2 ^ 63 → f.number < number → number_of_contents (contents_with j t j.later) ≤ number
        → MayIngestSynced j (tree_after id f lists h versions t) id number (home_after f h) (versions ++ flat lists) }
{}

/// Where no batch is numbered beyond a keyspace's persisted number, all that they have of it is persisted. So it is after a flush
/// whose number all batches are within. And where all of it is persisted memory has nothing of it to show.
pub fn all_is_persisted()
    ensures within { (persisted : Option ℕ) (id : ℕ) (batches : List Shown) → All (λ b. is_beyond persisted b.number ≡ false) batches → ArePersisted persisted id batches }
    ensures shown { (j : Journaling) (t : Tree) (id number : ℕ) (h : Home) (versions : List Entry) → MayIngest j t id number h versions → j.later ≡ []
        → MayIngestSynced j t id number h versions }
    ensures flushed { (f : Flush) (last : Fields) (id : ℕ) (batches : List Shown) → All (λ b. b.number ≤ f.number) batches → ArePersisted (record_after_flush f last).persisted id batches }
{}

/// What an ingestion makes of a home is right where the home was: its record is one, its tables have the versions of before and then
/// the ingestion's, no key two of one number, and nothing that it holds is beyond its persisted number. So the tree after it has its
/// versions. The ingestion's number is beyond the persisted one, as it is of one that may come.
pub fn an_ingested_home_is_right()
    ensures record { (number : ℕ) (items : List KeyOp) (tables : List MadeTable) (last : Fields) → number < 2 ^ 63 → AreIngestionTables number items tables
        → Fits (record_after_flush (as_flush number tables) last) → IsRecord last → IsRecord (record_after_flush (as_flush number tables) last) }
    ensures versions { (number : ℕ) (items : List KeyOp) (tables : List MadeTable) (h : Home) (versions : List Entry) → number < 2 ^ 63
        → is_beyond h.last.persisted number ≡ true → AreIngestionTables number items tables → IsRecord h.last → HasVersions h versions → HasVersions (home_with number tables h) (versions ++ versions_made number items) }
    ensures clears { (number : ℕ) (tables : List MadeTable) (last : Fields) → ClearsAreWithin last → ClearsAreWithin (record_after_flush (as_flush number tables) last) }
    ensures tree { (t : Tree) (id number : ℕ) (items : List KeyOp) (tables : List MadeTable) (h : Home) (versions : List Entry) → HasAt t id h versions → number < 2 ^ 63
        → is_beyond h.last.persisted number ≡ true → AreIngestionTables number items tables → IsRecord h.last → HaveVersions t.homes t.versions
        → let next = tree_with id number items tables h versions t in HaveVersions next.homes next.versions }
    ensures made { (t : Tree) (id number : ℕ) (items : List KeyOp) (tables : List MadeTable) (h : Home) (versions : List Entry) → AreMade t.last t.keyspaces
        → let next = tree_with id number items tables h versions t in AreMade next.last next.keyspaces }
{}

/// A crash that leaves the tree before or after an ingestion, with any beginning of the later batches, stands for a base that keeps
/// the store of the synced batches, or for that base with the one command, and for what the beginning commands. So no part of an
/// ingestion is ever there, and nothing that was synced is lost. Where nothing was pending, the base with the one command behind it
/// says all. So it is at each moment of a run in the keyspace's folder that leaves one of these trees. Behind it the base with the
/// command keeps the store of the synced batches.
pub fn a_crash_leaves_all_or_nothing()
    ensures image { (j : Journaling) (t : Tree) (id number : ℕ) (items : List KeyOp) (tables : List MadeTable) (h : Home) (versions : List Entry) (base : Store) (image : Image)
        (behind rest : List Written) → MayIngest j t id number h versions → kept base ≡ store_of_contents (contents_with j t []) → behind ++ rest ≡ j.later → HasRoot image (journals_with j behind)
        → HasTree image t ⊎ HasTree image (tree_with id number items tables h versions t) → let pending = journal_beyond t.keyspaces (stored_in t.homes t.versions) (map shown j.later) in
        StandsAmid base [] pending image ⊎ StandsAmid (apply base (ingestion id items)) [] pending image }
    ensures synced { (j : Journaling) (t : Tree) (id number : ℕ) (items : List KeyOp) (tables : List MadeTable) (h : Home) (versions : List Entry) (base : Store) (image : Image)
        → MayIngestSynced j t id number h versions → kept base ≡ store_of_contents (contents_with j t []) → HasRoot image (journals_with j [])
        → HasTree image t ⊎ HasTree image (tree_with id number items tables h versions t) → StandsAmid base [] (ingestion id items ∷ []) image }
    ensures run { (j : Journaling) (t : Tree) (id number : ℕ) (items : List KeyOp) (tables : List MadeTable) (h : Home) (versions : List Entry) (base : Store) (old new : Meaning)
        → MayIngest j t id number h versions → kept base ≡ store_of_contents (contents_with j t []) → LiesInRoot (state_in old) j → Within (keyspace_folder id) old new
        → LeavesOnly old new (λ image. HasTree image t ⊎ HasTree image (tree_with id number items tables h versions t))
        → let pending = journal_beyond t.keyspaces (stored_in t.homes t.versions) (map shown j.later) in
        LeavesOnly old new (λ image. StandsAmid base [] pending image ⊎ StandsAmid (apply base (ingestion id items)) [] pending image) }
    ensures synced_run { (j : Journaling) (t : Tree) (id number : ℕ) (items : List KeyOp) (tables : List MadeTable) (h : Home) (versions : List Entry) (base : Store) (old new : Meaning)
        → MayIngestSynced j t id number h versions → kept base ≡ store_of_contents (contents_with j t []) → LiesInRoot (state_in old) j → Within (keyspace_folder id) old new
        → LeavesOnly old new (λ image. HasTree image t ⊎ HasTree image (tree_with id number items tables h versions t))
        → LeavesOnly old new (StandsAmid base [] (ingestion id items ∷ [])) }
    ensures base { (j : Journaling) (t : Tree) (id number : ℕ) (items : List KeyOp) (tables : List MadeTable) (h : Home) (versions : List Entry) (base : Store)
        → MayIngest j t id number h versions ⊎ MayIngestSynced j t id number h versions → kept base ≡ store_of_contents (contents_with j t [])
        → kept (apply base (ingestion id items)) ≡ store_of_contents (contents_with j (tree_with id number items tables h versions t) []) }
{}

/// Where an ingestion may be made, whatever was made of its keyspace's memory follows the home's last record, and its own number is
/// beyond what is persisted then.
pub fn memory_is_flushed_before_an_ingestion()
    ensures last { (j : Journaling) (t : Tree) (trees : Forest) (entries : ℕ → List (List Entry)) (records : LastFields) (k : LivingKeyspace) (n : ℕ) → CanIngest j t trees entries records k n
        → (h : Home) → get t.homes k.id ≡ Some h → last_known records k ≡ h.last }
    ensures follows { (j : Journaling) (t : Tree) (trees : Forest) (entries : ℕ → List (List Entry)) (records : LastFields) (k : LivingKeyspace) (n : ℕ) → CanIngest j t trees entries records k n
        → (watermark : ℕ) (flushes : List MadeTable) (flushed : IsFlushed (memory_task k.id watermark (shape_in k.id trees).memory) flushes (clears_in (parts_of (shape_in k.id trees).memory)))
        → (h : Home) → get t.homes k.id ≡ Some h → has_memory (shape_in k.id trees).memory ≡ true → Follows (memory_flush (shape_in k.id trees) flushes) flushed.lists h.last }
    ensures beyond { (j : Journaling) (t : Tree) (trees : Forest) (entries : ℕ → List (List Entry)) (records : LastFields) (k : LivingKeyspace) (n : ℕ) → CanIngest j t trees entries records k n
        → (flushes : List MadeTable) (h : Home) → get t.homes k.id ≡ Some h → is_beyond (last_flushed (shape_in k.id trees) flushes h.last).persisted n ≡ true }
{}

/// A whole ingestion is one command. A crash while it is written, and nothing waits in the journals, leaves the base without or with that
/// one command; behind it the base with the command keeps the store of the folder, whose greatest number is the ingestion's; and all
/// keyspaces are known again, with all that was made in the tables of its keyspace and with the record after it, whatever readers stand
/// for the tables, where they know of them what that record says.
pub fn a_whole_ingestion_is_one_command()
    ensures run { (j : Journaling) (t : Tree) (trees : Forest) (entries : ℕ → List (List Entry)) (records : LastFields) (k : LivingKeyspace) (n : ℕ) → CanIngest j t trees entries records k n
        → (watermark : ℕ) (items : List KeyOp) (flushes made : List MadeTable) (flushed : IsFlushed (memory_task k.id watermark (shape_in k.id trees).memory) flushes (clears_in (parts_of (shape_in k.id trees).memory)))
        → AreIngestionTables n items made → (h : Home) → get t.homes k.id ≡ Some h → (base : Store) → kept base ≡ store_of_contents (contents_with j t []) → (old new : Meaning) → LiesInRoot (state_in old) j
        → Within (keyspace_folder k.id) old new
        → let tree = shape_in k.id trees in
        let versions = flat (entries k.id) in
        let mid = tree_between k.id tree flushes flushed.lists h versions t in
        let next = tree_behind k.id n items tree flushes made flushed.lists h versions t in
        LeavesOnly old new (λ image. HasTree image t ⊎ (HasTree image mid ⊎ HasTree image next))
        → LeavesOnly old new (StandsAmid base [] (ingestion k.id items ∷ [])) }
    ensures base { (j : Journaling) (t : Tree) (trees : Forest) (entries : ℕ → List (List Entry)) (records : LastFields) (k : LivingKeyspace) (n : ℕ) → CanIngest j t trees entries records k n
        → (watermark : ℕ) (items : List KeyOp) (flushes made : List MadeTable) (flushed : IsFlushed (memory_task k.id watermark (shape_in k.id trees).memory) flushes (clears_in (parts_of (shape_in k.id trees).memory)))
        → AreIngestionTables n items made → (h : Home) → get t.homes k.id ≡ Some h → (base : Store) → kept base ≡ store_of_contents (contents_with j t [])
        → kept (apply base (ingestion k.id items)) ≡ store_of_contents (contents_with j (tree_behind k.id n items (shape_in k.id trees) flushes made flushed.lists h (flat (entries k.id)) t) []) }
    ensures number { (j : Journaling) (t : Tree) (trees : Forest) (entries : ℕ → List (List Entry)) (records : LastFields) (k : LivingKeyspace) (n : ℕ) → CanIngest j t trees entries records k n
        → (watermark : ℕ) (items : List KeyOp) (flushes made : List MadeTable) (flushed : IsFlushed (memory_task k.id watermark (shape_in k.id trees).memory) flushes (clears_in (parts_of (shape_in k.id trees).memory)))
        → AreIngestionTables n items made → (h : Home) → get t.homes k.id ≡ Some h
        → number_of_contents (contents_with j (tree_behind k.id n items (shape_in k.id trees) flushes made flushed.lists h (flat (entries k.id)) t) j.later) ≡ n + 1 }
    ensures known { (j : Journaling) (t : Tree) (trees : Forest) (entries : ℕ → List (List Entry)) (records : LastFields) (k : LivingKeyspace) (n : ℕ) → CanIngest j t trees entries records k n
        → (watermark : ℕ) (items : List KeyOp) (flushes made : List MadeTable) (flushed : IsFlushed (memory_task k.id watermark (shape_in k.id trees).memory) flushes (clears_in (parts_of (shape_in k.id trees).memory)))
        → (are : AreIngestionTables n items made) → (h : Home) → get t.homes k.id ≡ Some h → (readers : List Reader) → map (λ t. t.info) readers ≡ flushed_infos h.last.next_table_id (flushes ++ made)
        → let tree = shape_in k.id trees in
        AreTreesKnown j (tree_behind k.id n items tree flushes made flushed.lists h (flat (entries k.id)) t) (altered_at k.id (ingested n readers) trees)
        (entries_with k.id (entries k.id ++ (flushed.lists ++ are.0)) entries) (insert records k.id (last_ingested n tree flushes made h.last)) }
{}
