//! What an ingestion writes, all of it in memory before the disk is changed.

ghost use Rattle.std.specs.Prelude.{◌≡◌, Err, IfErr, IfOk, List, length, min};
ghost use Rattle.fjall_jobs.specs.declared.made_table.MadeTable.{MadeTable};
ghost use Rattle.fjall_manifest.specs.Records.{view};
ghost use Rattle.fjall_reading.specs.Ingestions.{AreWritable, KeysAscend};
ghost use Rattle.fjall_compaction.specs.Flushes.{record_after_flush};
ghost use Rattle.fjall_compaction.specs.Ingests.{as_flush};
ghost use Rattle.fjall_compaction.specs.IngestionPlans.{IsIngestPlan, IsIngestRefusal};
ghost use Rattle.fjall_compaction.specs.Room.{LacksNextId};

use crate::flush::{FlushPlan, plan_in_place};
use crate::ingestion::table::make_tables;
use crate::place::{Counts, find_place};
use fjall_base::{Error, Result, UserKey};
use fjall_jobs::MadeTable;
use fjall_journal::Op;
use fjall_manifest::Record;
use std::alloc::Global;

/// All that an ingestion writes.
#[derive(Drop)]
pub struct IngestPlan {
    /// Its table; none where it has no item.
    pub tables: Vec<MadeTable>,
    /// The keyspace's record after it, and the names of the files.
    pub writes: FlushPlan,
}

/// Plans how an ingestion under this number reaches the disk: items of the keyspace of this id, by key ascending, none of which is
/// refused for its length. `last` is the keyspace's last record. It changes nothing on the disk, and takes all the memory that
/// [`write_ingest`](crate::write_ingest) needs.
///
/// Refuses with `TooManyItems` where the record has no room for all tables and clears, else with `NumbersUsedUp` where there is an item
/// and the next id is the greatest `u64`, and else with `OutOfMemory`.
pub fn plan_ingest(
    alloc: Global,
    keyspace_id: u64,
    last: &Record,
    number: u64,
    items: &[(UserKey, Op)],
) -> Result<IngestPlan>
    requires ascend { KeysAscend items.now }
    requires writable { AreWritable items.now }
    ensures ok { IfOk result (IsIngestPlan keyspace_id number items.now (view last.now)) }
    ensures used_up { (tables : List MadeTable) → length tables ≡ min (length items.now) 1 → LacksNextId (record_after_flush (as_flush number tables) (view last.now))
        → result ≡ Err Error.NumbersUsedUp }
    ensures cause { IfErr result (IsIngestRefusal number items.now (view last.now)) }
{
    let table_counts = Counts {
        staying: last.tables.len(),
        made: items.len().min(1),
    };
    let clear_counts = Counts {
        staying: last.clears.len(),
        made: 0,
    };
    find_place(last.next_table_id, table_counts, clear_counts)?;
    let tables = make_tables(alloc, number, items)?;
    let writes = plan_in_place(alloc, keyspace_id, last, number, &tables, &[])?;
    Ok(IngestPlan { tables, writes })
}
