//! What holds of the definitions.

ghost use Rattle.std.specs.Prelude.{◌≡◌, ◌≢◌, ◌<◌, ◌≤◌, ◌+◌, ◌-◌, ◌^◌, ◌↔◌, [], true, false, nat_le, if◌then◌else◌, ℕ, List, All, None, Some, count_by, is_some, length, map};
ghost use Rattle.std.specs.FinMap.{empty, get, len, values};
ghost use Rattle.fjall_base.specs.Disk.{Meaning};
ghost use Rattle.fjall_base.specs.Pairs.{Bytes};
ghost use Rattle.fjall_base.specs.Store.{Store, map_at};
ghost use Rattle.fjall_base.specs.declared.error.Error.{Error};
ghost use Rattle.fjall_table_reader.specs.Readers.{Reader};
ghost use Rattle.fjall_compaction.specs.Flushes.{flushed_infos, record_after_flush};
ghost use Rattle.fjall_compaction.specs.FlushPlans.{IsFlushPlanRefusal};
ghost use Rattle.fjall_jobs.specs.declared.flush_made.FlushMade.{FlushMade};
ghost use Rattle.fjall_jobs.specs.declared.made_table.MadeTable.{MadeTable};
ghost use Rattle.fjall_jobs.specs.Made.{flush_tables};
ghost use Rattle.fjall_jobs.specs.Tasks.{IsFlushed, Task};
ghost use Rattle.fjall_journal.specs.Changes.{Change, Items};
ghost use Rattle.fjall_journal.specs.Writer.{counted};
ghost use Rattle.fjall_replay.specs.Known.{last_known};
ghost use Rattle.fjall_tree.specs.Jobs.{IsFlushing};
ghost use Rattle.fjall_tree.specs.Trees.{Flushing, is_l0};
ghost use Rattle.fjall_files.specs.Evictions.{StoppedBehind};
ghost use Rattle.fjall_files.specs.Journals.{Sealed, staying, waited_for};
ghost use Rattle.fjall_meta.specs.declared.living.LivingKeyspace.{LivingKeyspace};
ghost use Rattle.fjall_meta.specs.Keyspaces.{id_of, is_name, keyspace_at};
ghost use Rattle.fjall_options.specs.Options.{AreOptions};
ghost use Rattle.fjall_manifest.specs.Records.{Fields};
ghost use Rattle.fjall_trees.specs.Forests.{Forest};
ghost use Rattle.fjall_trees.specs.Tables.{AreSameTrees, shape_in};
ghost use Rattle.fjall_trees.specs.Maps.{pairs_in, store_of};
ghost use Rattle.fjall_trees.specs.MapTables.{pairs_with, store_with};
ghost use Rattle.fjall_history.specs.declared.job.JobId.{JobId};
ghost use Rattle.fjall_history.specs.declared.ticket.View.{View as Seen};
ghost use Rattle.fjall_history.specs.declared.reply.Reply.{Reply as Told};
ghost use Rattle.fjall_history.specs.declared.reply.Reply.TheVariants.{Refused};
ghost use Rattle.fjall_history.specs.Histories.{view};
ghost use Rattle.fjall_history.specs.Queries.{Query};
ghost use Rattle.fjall_history.specs.Moves.{AreSound, Moves};
ghost use Rattle.fjall_history.specs.Tickets.{Tickets, closed, collected, no_tickets, opened};
ghost use Rattle.fjall_machine.specs.declared.call.Call.{Call as Asked};
ghost use Rattle.fjall_machine.specs.Allowed.{FitsBatch, IsOfLiving, MayChange, MayCreate, MayDelete};
ghost use Rattle.fjall_machine.specs.Shapes.{CallShape, OfFlushFinish, OfRead, OneLess, Persistence};
ghost use Rattle.fjall_machine.specs.Ingesting.{with_ingestion};
ghost use Rattle.fjall_machine.specs.Machine as machine;
ghost use Rattle.fjall_machine.specs.Machine.{EvictsSome, Flushed, begins_flush, flush_count, flush_with, is_flushed, is_flushing, table_space, tables_space, AsksMemory, Facts, HasTables, IsPoisoned, Parts, Run, State};
ghost use Rattle.fjall_machine.specs.Machine.{Step, StepOf, accepted, change_refusals, created, creation_refusals, deleted, deletion_refusals, buffer_size, due, due_in, first_due, handle_refusals, handles_of, names_one};
ghost use Rattle.fjall_machine.specs.Machine.{is_among, is_living, journal_refusals, maps_in, one_more, opened_state, persists_by_hand, present, rotates, times, version_count, view_refusals, wants_rotation};
ghost use Rattle.fjall_machine.specs.Remembered.{KnowsTask, flush_gone_in_memory, flush_out_in_memory, flushed_by, with_flush, with_sealed_in_memory, AreBeside, IsDueOrMemory, IsLawful, Remembered, MemoryStandsFor, facts_of};
ghost use Rattle.fjall_machine.specs.Remembered.{instant_in, journal_rotated_in_memory, poisoned, released_in_memory, retained, rotated_in_memory, with_change, with_creation, with_deletion, with_tickets, with_trees};
ghost use Rattle.fjall_machine.specs.Reads.{IsReadRefusal};

/// What is held tells which refusal is due in each state that it stands for.
pub fn facts_agree()
    ensures { (m : Remembered) (table : ℕ) (s : State) → MemoryStandsFor m table s → (shape : CallShape) → due s shape ≡ due_in (facts_of m table) shape }
{}

/// A refusal that is due, or want of memory where none is, is a step of the machine that changes nothing.
pub fn a_refusal_is_a_step()
    ensures due { (m : Remembered) (table : ℕ) (s : State) → MemoryStandsFor m table s → (shape : CallShape) (error : Error) → due_in (facts_of m table) shape ≡ Some error
        → StepOf s shape (Refused error) s }
    ensures memory { (m : Remembered) (table : ℕ) (s : State) → MemoryStandsFor m table s → (shape : CallShape) (error : Error) → AsksMemory s shape
        → IsDueOrMemory (due_in (facts_of m table) shape) error → StepOf s shape (Refused error) s }
    // So is a read's, where the disk failed, or where a block is wrong of a table of a keyspace that is damaged.
    ensures read { (m : Remembered) (table : ℕ) (s : State) → MemoryStandsFor m table s → (view : Seen) (id : ℕ) (query : Query) (old new : Meaning) (error : Error)
        → IsReadRefusal (first_due (view_refusals (facts_of m table) view id)) (is_among s.damaged id ≡ true) (shape_in id m.trees).tables old new error
        → StepOf s (OfRead view id query) (Refused error) s }
{}

/// A change more of keyspaces that live is an accepted one: a version of each item, or a clear.
pub fn a_change_stands()
    ensures { (m : Remembered) (table : ℕ) (s : State) → MemoryStandsFor m table s → (change : Change) (how : Persistence) → change ≢ Items []
        → IsOfLiving (store_of m.keyspaces m.trees) change → FitsBatch change → m.next < 2 ^ 63
        → MemoryStandsFor (with_change change m) table (accepted s change how) }
{}

/// A memtable that is sealed is a rotation.
pub fn a_rotation_stands()
    ensures { (m : Remembered) (table : ℕ) (s : State) → MemoryStandsFor m table s → (id : ℕ) → MemoryStandsFor (rotated_in_memory id m) table (machine.rotated s id) }
{}

/// A journal that is sealed, with all that waited in its file, is a rotation.
pub fn a_journal_rotation_stands()
    ensures { (m : Remembered) (table : ℕ) (s : State) → MemoryStandsFor m table s → (len : ℕ) → len ≡ counted (s.parts.journal + s.parts.buffer)
        → MemoryStandsFor (journal_rotated_in_memory len m) table (machine.journal_rotated s) }
{}

/// A keyspace more is a creation.
pub fn a_creation_stands()
    ensures { (m : Remembered) (table : ℕ) (s : State) → MemoryStandsFor m table s → (name : Bytes) (options : List Bytes) → is_name name ≡ true
        → names_one (store_of m.keyspaces m.trees) name ≡ false
        → AreOptions options → m.keyspaces.next ≢ 2 ^ 64 - 1 → m.next < 2 ^ 63 → MemoryStandsFor (with_creation name options m) (table + 1) (created s name options) }
{}

/// A keyspace less is a deletion.
pub fn a_deletion_stands()
    ensures { (m : Remembered) (table : ℕ) (s : State) → MemoryStandsFor m table s → (id : ℕ) → is_living (store_of m.keyspaces m.trees) id ≡ true
        → m.next < 2 ^ 63 → MemoryStandsFor (with_deletion id m) (if nat_le 2 (len (store_of m.keyspaces m.trees).names) then table + 1 else table) (deleted s id) }
{}

/// A handle more is counted.
pub fn a_retained_stands()
    ensures { (m : Remembered) (table : ℕ) (s : State) → MemoryStandsFor m table s → (id : ℕ)
        → MemoryStandsFor (retained id m) table (record s { handles = one_more s.handles id }) }
{}

/// A handle less is counted. With the last one of a deleted keyspace goes what no read finds any more.
pub fn a_release_stands()
    ensures { (m : Remembered) (table : ℕ) (s : State) → MemoryStandsFor m table s → (id : ℕ) → MemoryStandsFor (released_in_memory id m) table (machine.released s id) }
{}

/// After a fault what is held stands for poisoned states, whatever their parts but the trees, what tables hold, the last records and
/// what is known of the journals are.
pub fn a_fault_stands()
    ensures stands { (m : Remembered) (table : ℕ) (s : State) → MemoryStandsFor m table s → (parts : Parts)
        → parts.trees ≡ s.parts.trees → parts.entries ≡ s.parts.entries → parts.records ≡ s.parts.records → parts.journals ≡ s.parts.journals
        → MemoryStandsFor (poisoned m) parts.table (record s { poisoned = true; parts = parts }) }
    ensures poisoned { (s : State) (parts : Parts) → parts.trees ≡ s.parts.trees → parts.entries ≡ s.parts.entries → parts.records ≡ s.parts.records → parts.journals ≡ s.parts.journals
        → IsPoisoned s (record s { poisoned = true; parts = parts }) }
{}

/// How many bytes the journal has is nothing that memory tells of.
pub fn other_parts_stand()
    ensures { (m : Remembered) (table : ℕ) (s : State) → MemoryStandsFor m table s → (parts : Parts) → parts.table ≡ table
        → parts.trees ≡ s.parts.trees → parts.entries ≡ s.parts.entries → parts.records ≡ s.parts.records → parts.journals ≡ s.parts.journals
        → MemoryStandsFor m table (record s { parts = parts }) }
{}

/// What a read keeps of tables is nothing that a state tells of.
pub fn a_read_stands()
    ensures { (m : Remembered) (table : ℕ) (s : State) → MemoryStandsFor m table s → (trees : Forest) → AreSameTrees m.trees trees → MemoryStandsFor (with_trees trees m) table s }
{}

/// A flush that is begun is out.
pub fn a_begun_flush_stands()
    ensures { (m : Remembered) (table : ℕ) (s : State) → MemoryStandsFor m table s → (id : ℕ) → m.next_job < 2 ^ 64 - 1 → MemoryStandsFor (flush_out_in_memory id m) table (machine.flush_out s id) }
{}

/// A flush that is forgotten is out no more.
pub fn a_dropped_flush_stands()
    ensures { (m : Remembered) (table : ℕ) (s : State) → MemoryStandsFor m table s → (id : ℕ) → MemoryStandsFor (flush_gone_in_memory id m) table (machine.flush_gone s id) }
{}

/// A flush of a keyspace that lives is finished by what was made of its task: what is read stays, since all that is read lies above
/// its watermark.
pub fn a_finished_flush_stands()
    ensures { (m : Remembered) (table : ℕ) (s : State) → MemoryStandsFor m table s → (id : ℕ) (task : Task) (is : IsFlushing (shape_in id m.trees) task)
        → (tables : List MadeTable) (clears : List ℕ) (made : IsFlushed task tables clears) (k : LivingKeyspace) → keyspace_at id m.keyspaces.living ≡ Some k
        → (readers : List Reader) → map (λ t. t.info) readers ≡ flushed_infos (last_known m.records k).next_table_id tables
        → let parts = machine.parts_flushed id is.out tables made.lists readers s.parts in
        Flushed s.parts id parts
        × MemoryStandsFor (with_flush id is.out readers (record_after_flush (flush_with (shape_in id m.trees) is.out tables) (last_known m.records k)) m) table (record s { parts = parts }) }
{}

/// What is known of a task stays known, whatever is done: its flush is out as it was begun, or it is out no more.
pub fn a_known_task_stays()
    ensures change { (m : Remembered) (task : Task) (change : Change) → KnowsTask m task → KnowsTask (with_change change m) task }
    ensures creation { (m : Remembered) (task : Task) (name : Bytes) (options : List Bytes) → KnowsTask m task → KnowsTask (with_creation name options m) task }
    ensures deletion { (m : Remembered) (task : Task) (id : ℕ) → KnowsTask m task → KnowsTask (with_deletion id m) task }
    ensures retained { (m : Remembered) (task : Task) (id : ℕ) → KnowsTask m task → KnowsTask (retained id m) task }
    ensures released { (m : Remembered) (task : Task) (id : ℕ) → KnowsTask m task → KnowsTask (released_in_memory id m) task }
    ensures rotated { (m : Remembered) (task : Task) (id : ℕ) → KnowsTask m task → KnowsTask (rotated_in_memory id m) task }
    ensures journal { (m : Remembered) (task : Task) (len : ℕ) → KnowsTask m task → KnowsTask (journal_rotated_in_memory len m) task }
    ensures read { (m : Remembered) (task : Task) (trees : Forest) → AreSameTrees m.trees trees → KnowsTask m task → KnowsTask (with_trees trees m) task }
    ensures tickets { (m : Remembered) (task : Task) (tickets : Tickets) → KnowsTask m task → KnowsTask (with_tickets tickets m) task }
    ensures begun { (m : Remembered) (task : Task) (id : ℕ) → KnowsTask m task → KnowsTask (flush_out_in_memory id m) task }
    ensures dropped { (m : Remembered) (task : Task) (id : ℕ) → KnowsTask m task → KnowsTask (flush_gone_in_memory id m) task }
    ensures finished { (m : Remembered) (task : Task) (id : ℕ) (out : Flushing) (readers : List Reader) (last : Fields) → KnowsTask m task
        → KnowsTask (with_flush id out readers last m) task }
    ensures ingested { (m : Remembered) (task : Task) (id : ℕ) (readers : List Reader) (last : Fields) → KnowsTask m task → KnowsTask (with_ingestion id readers last m) task }
    ensures evicted { (m : Remembered) (task : Task) (left : List Sealed) → KnowsTask m task → KnowsTask (with_sealed_in_memory left m) task }
    ensures poisoned { (m : Remembered) (task : Task) → KnowsTask m task → KnowsTask (poisoned m) task }
{}

/// A flush that can't be planned, which is out of a keyspace that lives and takes some memtable, is refused by a step of the machine that changes nothing.
pub fn a_flush_refusal_is_a_step()
    ensures { (m : Remembered) (table : ℕ) (s : State) → MemoryStandsFor m table s → (job : JobId) (k : LivingKeyspace)
        → keyspace_at job.keyspace_id m.keyspaces.living ≡ Some k → is_flushing m.trees job ≡ true → (out : Flushing) → (shape_in job.keyspace_id m.trees).flush ≡ Some out
        → 0 < out.count → (made : FlushMade) → s.poisoned ≡ false → (error : Error)
        → IsFlushPlanRefusal (last_known m.records k) (flush_with (shape_in job.keyspace_id m.trees) out (flush_tables made)) error → StepOf s (OfFlushFinish job) (Refused error) s }
{}

/// Sealed journals that nobody wants are gone: all of them, or some where it stopped before its end. What memory tells of what was
/// flushed is so in the state.
pub fn an_eviction_stands()
    ensures flushed { (m : Remembered) (table : ℕ) (s : State) → MemoryStandsFor m table s → (id lsn : ℕ) → is_flushed s id lsn ≡ flushed_by m.keyspaces m.records id lsn }
    ensures all { (m : Remembered) (table : ℕ) (s : State) → MemoryStandsFor m table s
        → MemoryStandsFor (with_sealed_in_memory (staying (flushed_by m.keyspaces m.records) m.journals.sealed) m) table (machine.evicted s) }
    ensures left { (m : Remembered) (table : ℕ) (s : State) → MemoryStandsFor m table s → (left : List Sealed) → MemoryStandsFor (with_sealed_in_memory left m) table (machine.with_sealed left s) }
    ensures some { (m : Remembered) (table : ℕ) (s : State) → MemoryStandsFor m table s → (gone left : List Sealed)
        → StoppedBehind (flushed_by m.keyspaces m.records) m.journals.sealed left gone → EvictsSome s (machine.with_sealed left s) }
{}

/// What is counted of trees is so whatever is kept of their tables.
pub fn counts_agree()
    ensures versions { (m : Remembered) (table : ℕ) (s : State) → MemoryStandsFor m table s → (id : ℕ) → version_count (shape_in id s.parts.trees) ≡ version_count (shape_in id m.trees) }
    ensures sealed { (m : Remembered) (table : ℕ) (s : State) → MemoryStandsFor m table s → (id : ℕ)
        → length (shape_in id s.parts.trees).memory.sealed ≡ length (shape_in id m.trees).memory.sealed }
    ensures buffer { (m : Remembered) (table : ℕ) (s : State) → MemoryStandsFor m table s
        → buffer_size (present s) s.parts.trees ≡ buffer_size (store_of m.keyspaces m.trees) m.trees }
    ensures wants { (m : Remembered) (table : ℕ) (s : State) → MemoryStandsFor m table s → (id : ℕ)
        → wants_rotation (present s) s.parts.trees id ≡ wants_rotation (store_of m.keyspaces m.trees) m.trees id }
    ensures rotates { (m : Remembered) (table : ℕ) (s : State) → MemoryStandsFor m table s → (id : ℕ) → rotates s.parts.trees id ≡ rotates m.trees id }
    ensures tables { (m : Remembered) (table : ℕ) (s : State) → MemoryStandsFor m table s → (id : ℕ) → HasTables id s.parts.trees ↔ HasTables id m.trees }
{}

/// So are tables and flushes: their counts, the bytes of their files, which flushes are out and begin, and which keyspaces wait for one.
pub fn flushes_agree()
    ensures tables { (m : Remembered) (table : ℕ) (s : State) → MemoryStandsFor m table s → (id : ℕ) → length (shape_in id s.parts.trees).tables ≡ length (shape_in id m.trees).tables }
    ensures level { (m : Remembered) (table : ℕ) (s : State) → MemoryStandsFor m table s → (id : ℕ)
        → count_by (λ t. is_l0 t.info.level) (shape_in id s.parts.trees).tables ≡ count_by (λ t. is_l0 t.info.level) (shape_in id m.trees).tables }
    ensures space { (m : Remembered) (table : ℕ) (s : State) → MemoryStandsFor m table s → (id : ℕ) → table_space (shape_in id s.parts.trees) ≡ table_space (shape_in id m.trees) }
    ensures spaces { (m : Remembered) (table : ℕ) (s : State) → MemoryStandsFor m table s
        → tables_space (present s) s.parts.trees ≡ tables_space (store_of m.keyspaces m.trees) m.trees }
    ensures count { (m : Remembered) (table : ℕ) (s : State) → MemoryStandsFor m table s → flush_count (present s) s.parts.trees ≡ flush_count (store_of m.keyspaces m.trees) m.trees }
    ensures begins { (m : Remembered) (table : ℕ) (s : State) → MemoryStandsFor m table s → (id : ℕ) → begins_flush s.parts.trees id ≡ begins_flush m.trees id }
    ensures out { (m : Remembered) (table : ℕ) (s : State) → MemoryStandsFor m table s → (job : JobId) → is_flushing s.parts.trees job ≡ is_flushing m.trees job }
    ensures waited { (m : Remembered) (table : ℕ) (s : State) → MemoryStandsFor m table s
        → waited_for (is_flushed s) s.parts.journals.sealed ≡ waited_for (flushed_by m.keyspaces m.records) m.journals.sealed }
    ensures last { (m : Remembered) (table : ℕ) (s : State) → MemoryStandsFor m table s → (id : ℕ) (k : LivingKeyspace) → keyspace_at id m.keyspaces.living ≡ Some k
        → s.parts.records id ≡ last_known m.records k }
{}

/// Where no refusal of a read is due, trees tell with their tables what the view has.
pub fn reads_agree()
    ensures shown { (m : Remembered) (table : ℕ) (s : State) → MemoryStandsFor m table s → (view : Seen) (id : ℕ) → first_due (view_refusals (facts_of m table) view id) ≡ None
        → pairs_with s.parts.entries id (instant_in m view) m.trees ≡ map_at (maps_in s view) id }
    // And where the keyspace has no table, memory alone does.
    ensures bare { (m : Remembered) (table : ℕ) (s : State) → MemoryStandsFor m table s → (view : Seen) (id : ℕ) → first_due (view_refusals (facts_of m table) view id) ≡ None
        → (shape_in id m.trees).tables ≡ [] → pairs_in id (instant_in m view) m.trees ≡ map_at (maps_in s view) id }
{}

/// Tickets that are opened, closed or collected are the state's: a new one reads at the next number, or where another one
/// does.
pub fn tickets_stand()
    ensures opened { (m : Remembered) (table : ℕ) (s : State) → MemoryStandsFor m table s
        → MemoryStandsFor (with_tickets (opened m.next m.tickets) m) table (record s { tickets = opened m.next s.tickets }) }
    ensures cloned { (m : Remembered) (table : ℕ) (s : State) → MemoryStandsFor m table s → (id instant : ℕ) → get m.tickets.instants id ≡ Some instant
        → MemoryStandsFor (with_tickets (opened instant m.tickets) m) table (record s { tickets = opened instant s.tickets }) }
    ensures closed { (m : Remembered) (table : ℕ) (s : State) → MemoryStandsFor m table s → (id : ℕ)
        → MemoryStandsFor (with_tickets (closed m.next id m.tickets) m) table (record s { tickets = closed m.next id s.tickets }) }
    ensures collected { (m : Remembered) (table : ℕ) (s : State) → MemoryStandsFor m table s
        → MemoryStandsFor (with_tickets (collected m.next m.tickets) m) table (record s { tickets = collected m.next s.tickets }) }
{}

/// Each step of the machine is one small move of its history and its tickets.
pub fn a_step_moves()
    ensures { (s t : State) (call : Asked) (reply : Told) → Step s call reply t → Moves (times s) (times t) }
{}

/// Whatever calls come after, a ticket that stays open reads at the instant at which it was opened, and its view is what was
/// accepted up to then.
pub fn a_snapshot_keeps_its_view()
    ensures view { (s t : State) (calls : List Asked) (replies : List Told) → Run s calls replies t → AreSound (times s)
        → (ticket before after : ℕ) → get s.tickets.instants ticket ≡ Some before → get t.tickets.instants ticket ≡ Some after
        → (before ≡ after) × (view t.history after ≡ view s.history before) }
    ensures sound { (s t : State) (calls : List Asked) (replies : List Told) → Run s calls replies t → AreSound (times s) → AreSound (times t) }
    ensures opened { (store : Store) (damaged : List ℕ) (base : ℕ) (parts : Parts) → AreSound (times (opened_state store damaged base parts)) }
{}

/// The present's keyspaces are those that are held.
pub fn names_agree()
    ensures listed { (m : Remembered) (table : ℕ) (s : State) → MemoryStandsFor m table s → values (present s).names ≡ map (λ k. k.name) m.keyspaces.living }
    ensures counted { (m : Remembered) (table : ℕ) (s : State) → MemoryStandsFor m table s → len (present s).names ≡ length m.keyspaces.living }
    ensures named { (m : Remembered) (table : ℕ) (s : State) → MemoryStandsFor m table s → (name : Bytes)
        → names_one (present s) name ≡ is_some (id_of name m.keyspaces.living) }
    ensures resolved { (m : Remembered) (table : ℕ) (s : State) → MemoryStandsFor m table s → (id : ℕ) (name : Bytes)
        → (get (present s).names id ≡ Some name) ↔ (id_of name m.keyspaces.living ≡ Some id) }
    ensures living { (m : Remembered) (table : ℕ) (s : State) → MemoryStandsFor m table s → (id : ℕ)
        → is_living (present s) id ≡ is_living (store_of m.keyspaces m.trees) id }
    ensures next { (m : Remembered) (table : ℕ) (s : State) → MemoryStandsFor m table s → (present s).next ≡ m.keyspaces.next }
{}

/// A keyspace of the present persists by hand where the one that is held does.
pub fn options_agree()
    ensures { (m : Remembered) (table : ℕ) (s : State) → MemoryStandsFor m table s → (id : ℕ)
        → persists_by_hand (present s) id ≡ persists_by_hand (store_of m.keyspaces m.trees) id }
{}

/// What was just opened stands for the state just opened, whatever older entries tables hold, and whichever keyspaces are damaged.
pub fn an_opening_stands()
    ensures { (m : Remembered) → IsLawful m → m.handles ≡ empty → m.lasting ≡ [] → m.poisoned ≡ false → m.tickets ≡ collected m.next no_tickets → m.next_job ≡ 0 → m.merges_done ≡ 0
        → (table : ℕ) (parts : Parts) → parts.table ≡ table → parts.trees ≡ m.trees → parts.journals ≡ m.journals
        → All (λ k. parts.records k.id ≡ last_known m.records k) m.keyspaces.living → AreBeside m parts.entries → (damaged : List ℕ)
        → MemoryStandsFor m table (opened_state (store_with parts.entries m.keyspaces m.trees) damaged m.next parts) }
{}

/// Where nothing refuses a call, what it asks for is there.
pub fn nothing_refused()
    ensures change { (f : Facts) (change : Change) → first_due (change_refusals f change) ≡ None → MayChange f change }
    ensures creation { (f : Facts) (name : Bytes) → first_due (creation_refusals f name) ≡ None → MayCreate f name }
    ensures deletion { (f : Facts) (id : ℕ) → first_due (deletion_refusals f id) ≡ None → MayDelete f id }
    ensures journal { (f : Facts) → first_due (journal_refusals f) ≡ None → (f.poisoned ≡ false) × (f.active < 2 ^ 64 - 2) }
    ensures release { (f : Facts) (id : ℕ) → first_due (handle_refusals f OneLess id) ≡ None → 0 < handles_of f.handles id }
{}
