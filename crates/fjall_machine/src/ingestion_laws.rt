//! What holds of an ingestion.

ghost use Rattle.std.specs.Prelude.{◌≡◌, ◌≢◌, ◌<◌, ◌^◌, [], ℕ, List, None, Some};
ghost use Rattle.fjall_table_reader.specs.Readers.{Reader};
ghost use Rattle.fjall_compaction.specs.Ingests.{batch_items};
ghost use Rattle.fjall_jobs.specs.declared.made_table.MadeTable.{MadeTable};
ghost use Rattle.fjall_journal.specs.Ops.{items_refusal};
ghost use Rattle.fjall_replay.specs.Known.{last_known};
ghost use Rattle.fjall_meta.specs.declared.living.LivingKeyspace.{LivingKeyspace};
ghost use Rattle.fjall_meta.specs.Keyspaces.{keyspace_at};
ghost use Rattle.fjall_trees.specs.Tables.{shape_in};
ghost use Rattle.fjall_reading.specs.Ingestions.{KeyOp};
ghost use Rattle.fjall_machine.specs.Ingesting.{Ingests, MakesIngestion, MayIngest, ingestion_refusals, last_ingested, with_ingestion};
ghost use Rattle.fjall_machine.specs.Machine.{Facts, State, first_due};
ghost use Rattle.fjall_machine.specs.Remembered.{MemoryStandsFor, Remembered};

/// Where nothing refuses an ingestion, what it asks for is there.
pub fn an_ingestion_may_go_on()
    ensures { (f : Facts) (id : ℕ) (items : List KeyOp) → first_due (ingestion_refusals f id items) ≡ None → MayIngest f id items }
{}

/// What was made for an ingestion into a keyspace that lives is one command more: what is read shows its items from the next number on,
/// and nothing of them before.
pub fn an_ingestion_stands()
    ensures { (m : Remembered) (table : ℕ) (s : State) → MemoryStandsFor m table s → (id : ℕ) (k : LivingKeyspace) → keyspace_at id m.keyspaces.living ≡ Some k
        → (items : List KeyOp) → items ≢ [] → m.next < 2 ^ 63 → items_refusal (batch_items id items) ≡ None
        → (flushes made : List MadeTable) (readers : List Reader) → MakesIngestion (shape_in id m.trees) id m.tickets.watermark m.next items (last_known m.records k) flushes made readers
        → (new : State) × Ingests s id items new
        × MemoryStandsFor (with_ingestion id readers (last_ingested m.next (shape_in id m.trees) flushes made (last_known m.records k)) m) table new }
{}
