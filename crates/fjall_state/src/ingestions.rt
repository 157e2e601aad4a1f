//! Ingestions: what refuses them, how they are planned with all their memory, and what memory holds then.

ghost use Rattle.std.specs.Prelude.{◌≡◌, ◌+◌, ◌<◌, ◌≤◌, ◌-◌, ◌^◌, ◌&&◌, [], Some, false, true, nat_le, IfErr, IfOk, length, vec_capacity};
ghost use Rattle.std.specs.FinMap.{contains_key, get};
ghost use Rattle.std.specs.Ordering.{is_lt};
ghost use Rattle.fjall_base.specs.Pairs.{byte_order};
ghost use Rattle.fjall_compaction.specs.Planned.{IsIngestionRefusal};
ghost use Rattle.fjall_replay.specs.Known.{last_known};
ghost use Rattle.fjall_tree.specs.Ingestions.{is_flush_due};
ghost use Rattle.fjall_tree.specs.Trees.{clears_of};
ghost use Rattle.fjall_trees.specs.Maps.{store_of};
ghost use Rattle.fjall_meta.specs.declared.living.LivingKeyspace.{LivingKeyspace};
ghost use Rattle.fjall_meta.specs.Keyspaces.{keyspace_at};
ghost use Rattle.fjall_manifest.specs.Records.{view};
ghost use Rattle.fjall_trees.specs.Tables.{shape_in};
ghost use Rattle.fjall_reading.specs.Ingestions.{AreWritable, KeysAscend};
ghost use Rattle.fjall_machine.specs.Ingesting.{IsPlanned, IsSwapped, do_ascend, ingestion_refusals, some_key_empty, some_key_too_long, some_value_too_long, with_record, with_tables};
ghost use Rattle.fjall_machine.specs.Machine.{first_due, is_living};
ghost use Rattle.fjall_machine.specs.Remembered.{IsLawful, facts_of};

use crate::engine_state::EngineState;
use crate::refusals::JOURNAL_LIMIT;
use fjall_base::{Error, Result, UserKey};
use fjall_compaction::{PlannedIngestion, plan_ingestion};
use fjall_history::JobId;
use fjall_journal::Op;
use std::alloc::Global;

/// Sequence numbers lie below this one.
const SEQNO_LIMIT: u64 = 1 << 63;

/// How many items an ingestion has at most.
const ITEM_LIMIT: usize = 4_294_967_295;

// Whether some key is empty.
fn has_empty_key(items: &[(UserKey, Op)]) -> bool
    ensures { result ≡ some_key_empty items.now }
{
    items.iter().any(|item| item.0.as_slice().is_empty())
}

// Whether some key has more than 65,535 bytes.
fn has_key_too_long(items: &[(UserKey, Op)]) -> bool
    ensures { result ≡ some_key_too_long items.now }
{
    items.iter().any(|item| item.0.len() > 65_535)
}

// Whether some value has more than 4,294,967,295 bytes.
fn has_value_too_long(items: &[(UserKey, Op)]) -> bool
    ensures { result ≡ some_value_too_long items.now }
{
    items
        .iter()
        .any(|item| item.1.bytes().len() > 4_294_967_295)
}

// Whether an item's key is below the next one's.
fn is_before(item: &(UserKey, Op), next: &(UserKey, Op)) -> bool
    ensures { result ≡ is_lt (byte_order item.now.0 next.now.0) }
{
    item.0 < next.0
}

// Whether each key is below the next one.
fn do_ascend(items: &[(UserKey, Op)]) -> bool
    ensures { result ≡ do_ascend items.now }
{
    items.is_sorted_by(|item, next| is_before(item, next))
}

impl EngineState {
    /// What refuses an ingestion of these items into the keyspace of this id, cause by cause over all of them.
    pub fn ingestion_refusal(&self, id: u64, items: &[(UserKey, Op)]) -> Option<Error>
        ensures { result ≡ first_due (ingestion_refusals (facts_of self.now 0) id items.now) }
    {
        if has_empty_key(items) {
            return Some(Error::KeyEmpty);
        }
        if has_key_too_long(items) {
            return Some(Error::KeyTooLong);
        }
        if has_value_too_long(items) {
            return Some(Error::ValueTooLong);
        }
        if !do_ascend(items) {
            return Some(Error::KeyOrder);
        }
        if let Some(error) = self.rotation_refusal(id) {
            return Some(error);
        }
        if items.len() > ITEM_LIMIT {
            return Some(Error::TooManyItems);
        }
        if self.seqno() >= SEQNO_LIMIT {
            return Some(Error::NumbersUsedUp);
        }
        None
    }

    /// Whether none of a journal is left, where the active one is to be sealed before an ingestion.
    pub fn are_journals_used_up(&self, is_long: bool) -> bool
        ensures left { result ≡ false → is_long ≡ true → self.now.journals.active < 2 ^ 64 - 2 }
        ensures value { result ≡ (is_long && nat_le (2 ^ 64 - 2) self.now.journals.active) }
    {
        is_long && self.active_journal() >= JOURNAL_LIMIT
    }

    /// Plans an ingestion of these items, by key ascending, under the next number into a keyspace that lives. It changes nothing, and
    /// takes all the memory that the ingestion needs.
    ///
    /// Refusals: `TooManyItems` where the keyspace's record has no room for its tables, else `NumbersUsedUp` where no id is left for
    /// them, and `OutOfMemory`, which where something is in memory may come before both.
    pub fn plan_ingestion(
        &self,
        alloc: Global,
        id: u64,
        items: &[(UserKey, Op)],
    ) -> Result<PlannedIngestion>
        requires living { is_living (store_of self.now.keyspaces self.now.trees) id ≡ true }
        requires ascend { KeysAscend items.now }
        requires writable { AreWritable items.now }
        ensures planned { (k : LivingKeyspace) → keyspace_at id self.now.keyspaces.living ≡ Some k → IfOk result (IsPlanned self.now id items.now (last_known self.now.records k)) }
        ensures cause { (k : LivingKeyspace) → keyspace_at id self.now.keyspaces.living ≡ Some k
            → IfErr result (IsIngestionRefusal (shape_in id self.now.trees) id self.now.tickets.watermark self.now.next items.now (last_known self.now.records k)) }
        ensures lawful { IsLawful self.now }
    {
        let Some(tree) = self.trees.tree(id) else {
            unreachable!()
        };
        let Some(last) = self.records.get(id) else {
            unreachable!()
        };
        let watermark = self.tickets.watermark();
        plan_ingestion(alloc, id, tree, last, watermark, self.seqno(), items)
    }

    /// Swaps the last record of a keyspace, of which one is kept, with the one that was planned. It takes no memory.
    pub fn swap_record(&mut self, planned: &mut PlannedIngestion)
        requires kept { contains_key self.old.records planned.old.id ≡ true }
        ensures memory { self.new ≡ with_record planned.old.id (view planned.old.own.writes.record) self.old }
        ensures planned { IsSwapped planned.old planned.new }
        ensures back { get self.old.records planned.old.id ≡ Some (view planned.new.own.writes.record) }
    {
        self.records
            .swap(planned.id, &mut planned.own.writes.record);
    }

    /// Takes the tables of an ingestion that was planned, and the next number: both tables stand behind all others of the keyspace, its
    /// memory holds nothing, and a flush of it that was out is stale. It takes no memory.
    pub fn put_ingestion(&mut self, planned: PlannedIngestion)
        requires numbered { self.old.next < 2 ^ 63 }
        requires clears { planned.clears.items ≡ clears_of (shape_in planned.id self.old.trees) }
        requires empty { planned.room.items ≡ [] }
        requires room { length (shape_in planned.id self.old.trees).tables + length planned.readers.items ≤ vec_capacity planned.room }
        ensures { self.new ≡ with_tables planned.id planned.readers.items self.old }
    {
        let PlannedIngestion {
            id,
            readers,
            room,
            clears,
            ..
        } = planned;
        let number = self.seqno();
        self.trees.put_ingestion(id, number, room, readers, clears);
        self.tickets.publish();
    }

    /// Whether the flush of this job is out, and takes effect once it is finished: no ingestion has made it stale.
    pub fn is_flush_due(&self, job: JobId) -> bool
        ensures { result ≡ is_flush_due job.number (shape_in job.keyspace_id self.now.trees).flush }
    {
        self.trees.is_flush_due(job.keyspace_id, job.number)
    }
}
