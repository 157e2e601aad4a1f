//! What refuses a call before memory or the disk is asked for anything: the first refusal whose cause holds.

ghost use Rattle.std.specs.Prelude.{◌≡◌, ◌==◌, ◌||◌, ◌-◌, ◌^◌, [], ◌∷◌, true};
ghost use Rattle.fjall_journal.specs.Ops.{op_of};
ghost use Rattle.fjall_machine.specs.Machine.{are_used_up, clear_refusals, creation_refusals, deletion_refusals, first_due, handle_refusals, items_refusals, journal_refusals, rotation_refusals, some_deleted, some_unknown};
ghost use Rattle.fjall_machine.specs.Shapes.{OneLess};
ghost use Rattle.fjall_machine.specs.Remembered.{facts_of};

use crate::engine_state::EngineState;
use fjall_base::Error;
use fjall_journal::{BatchItem, OpRef, has_empty_key, has_key_too_long, has_value_too_long};

/// Sequence numbers lie below this one.
const SEQNO_LIMIT: u64 = 1 << 63;

/// The number of a journal that can have a next one lies below this one.
pub(crate) const JOURNAL_LIMIT: u64 = u64::MAX - 1;

/// How many items a batch has at most.
const BATCH_LIMIT: usize = 4_294_967_295;

impl EngineState {
    fn has_unknown(&self, items: &[BatchItem]) -> bool
        ensures { result ≡ some_unknown (facts_of self.now 0).store items.now }
    {
        items.iter().any(|item| self.is_unknown(item.0))
    }

    // By one look-up for items of one keyspace that follow one another.
    fn has_deleted(&self, items: &[BatchItem]) -> bool
        ensures { result ≡ some_deleted (facts_of self.now 0).store items.now }
    {
        let mut living = None;
        for item in items {
            if living == Some(item.0) {
                continue;
            }
            if !self.is_living(item.0) {
                return true;
            }
            living = Some(item.0);
        }
        false
    }

    /// What refuses a change of these items, cause by cause over all of them.
    pub fn change_refusal(&self, items: &[BatchItem]) -> Option<Error>
        ensures { result ≡ first_due (items_refusals (facts_of self.now 0) items.now) }
    {
        if has_empty_key(items) {
            return Some(Error::KeyEmpty);
        }
        if has_key_too_long(items) {
            return Some(Error::KeyTooLong);
        }
        if has_value_too_long(items) {
            return Some(Error::ValueTooLong);
        }
        if self.has_unknown(items) {
            return Some(Error::UnknownKeyspace);
        }
        if self.has_deleted(items) {
            return Some(Error::KeyspaceDeleted);
        }
        if self.is_poisoned() {
            return Some(Error::Poisoned);
        }
        if items.len() > BATCH_LIMIT {
            return Some(Error::TooManyItems);
        }
        if self.seqno() >= SEQNO_LIMIT {
            return Some(Error::NumbersUsedUp);
        }
        None
    }

    /// What refuses a change of one key of this keyspace.
    pub fn key_refusal(&self, id: u64, key: &[u8], op: OpRef<'_>) -> Option<Error>
        ensures { result ≡ first_due (items_refusals (facts_of self.now 0) ((id, key.now, op_of op.entry) ∷ [])) }
    {
        if key.is_empty() {
            return Some(Error::KeyEmpty);
        }
        if key.len() > 65_535 {
            return Some(Error::KeyTooLong);
        }
        if op.bytes().len() > 4_294_967_295 {
            return Some(Error::ValueTooLong);
        }
        self.clear_refusal(id)
    }

    /// What refuses a rotation of the memtable of the keyspace of this id.
    pub fn rotation_refusal(&self, id: u64) -> Option<Error>
        ensures { result ≡ first_due (rotation_refusals (facts_of self.now 0) id) }
    {
        if self.is_unknown(id) {
            return Some(Error::UnknownKeyspace);
        }
        if !self.is_living(id) {
            return Some(Error::KeyspaceDeleted);
        }
        if self.is_poisoned() {
            return Some(Error::Poisoned);
        }
        None
    }

    /// What refuses a rotation of the journal.
    pub fn journal_refusal(&self) -> Option<Error>
        ensures { result ≡ first_due (journal_refusals (facts_of self.now 0)) }
    {
        if self.is_poisoned() {
            return Some(Error::Poisoned);
        }
        if self.active_journal() >= JOURNAL_LIMIT {
            return Some(Error::NumbersUsedUp);
        }
        None
    }

    /// What refuses a clear of the keyspace of this id: what refuses a rotation, or that no number is left.
    pub fn clear_refusal(&self, id: u64) -> Option<Error>
        ensures { result ≡ first_due (clear_refusals (facts_of self.now 0) id) }
    {
        if let Some(error) = self.rotation_refusal(id) {
            return Some(error);
        }
        if self.seqno() >= SEQNO_LIMIT {
            return Some(Error::NumbersUsedUp);
        }
        None
    }

    // Whether numbers are used up or, where a keyspace is left, the ids of tables.
    fn are_used_up(&self, leaves_any: bool, next_table_id: u64) -> bool
        ensures { result ≡ are_used_up (facts_of self.now next_table_id) leaves_any }
    {
        self.seqno() >= SEQNO_LIMIT || (leaves_any && next_table_id == u64::MAX)
    }

    // Whether numbers, ids of tables or ids of keyspaces are used up.
    fn is_full(&self, next_table_id: u64) -> bool
        ensures { result ≡ (are_used_up (facts_of self.now next_table_id) true || ((facts_of self.now next_table_id).store.next == 2 ^ 64 - 1)) }
    {
        self.are_used_up(true, next_table_id) || self.next_id() == u64::MAX
    }

    /// What refuses a creation of a keyspace of this name, where the next table gets this id.
    pub fn creation_refusal(&self, name: &[u8], next_table_id: u64) -> Option<Error>
        ensures { result ≡ first_due (creation_refusals (facts_of self.now next_table_id) name.now) }
    {
        if name.is_empty() || name.len() > 255 {
            return Some(Error::InvalidName);
        }
        if self.keyspace_exists(name) {
            return None;
        }
        if self.is_poisoned() {
            return Some(Error::Poisoned);
        }
        if self.is_full(next_table_id) {
            return Some(Error::NumbersUsedUp);
        }
        None
    }

    /// What refuses a deletion of the keyspace of this id, where the next table gets this id.
    pub fn deletion_refusal(&self, id: u64, next_table_id: u64) -> Option<Error>
        ensures { result ≡ first_due (deletion_refusals (facts_of self.now next_table_id) id) }
    {
        if self.is_unknown(id) {
            return Some(Error::UnknownKeyspace);
        }
        if !self.is_living(id) {
            return None;
        }
        if self.is_poisoned() {
            return Some(Error::Poisoned);
        }
        if self.are_used_up(self.keyspace_count() >= 2, next_table_id) {
            return Some(Error::NumbersUsedUp);
        }
        None
    }

    /// What refuses to count a handle less.
    pub fn release_refusal(&self, id: u64) -> Option<Error>
        ensures { result ≡ first_due (handle_refusals (facts_of self.now 0) OneLess id) }
    {
        if self.is_unknown(id) || self.handle_count(id) == 0 {
            return Some(Error::UnknownKeyspace);
        }
        None
    }
}
