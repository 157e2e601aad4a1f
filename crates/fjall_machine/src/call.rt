//! The calls of a core as values.

use fjall_base::{Slice, UserKey, UserValue};
use fjall_history::{JobId, Ticket, View};
use fjall_journal::{BatchItem, Op, PersistMode};
use fjall_options::KeyspaceCreateOptions;
use fjall_reading::KeyRange;

/// One call of a core, for [`run`](crate::Core::run). Within a list of calls a ticket is named by the place of the call that
/// opened it, and a job by the place of the call that began it.
#[derive(Debug, Drop)]
pub enum Call {
    /// `keyspace`: name and options.
    Keyspace(Slice, KeyspaceCreateOptions),
    /// `delete_keyspace`: keyspace id.
    DeleteKeyspace(u64),
    /// `retain`: keyspace id.
    Retain(u64),
    /// `release`: keyspace id.
    Release(u64),
    /// `insert`: keyspace id, key and value.
    Insert(u64, UserKey, UserValue),
    /// `remove`: keyspace id and key.
    Remove(u64, UserKey),
    /// `remove_weak`: keyspace id and key.
    RemoveWeak(u64, UserKey),
    /// `clear`: keyspace id.
    Clear(u64),
    /// `commit_batch`: the items, and how they are persisted.
    CommitBatch(Vec<BatchItem>, Option<PersistMode>),
    /// `ingest`: keyspace id, and the items, by key ascending.
    Ingest(u64, Vec<(UserKey, Op)>),
    /// `rotate_memtable`: keyspace id.
    RotateMemtable(u64),
    /// `rotate_journal`.
    RotateJournal,
    /// `flush_begin`: keyspace id.
    FlushBegin(u64),
    /// The job's `run`, and then `flush_finish`: job.
    FlushFinish(JobId),
    /// `merge_begin`: keyspace id.
    MergeBegin(u64),
    /// `major_begin`: keyspace id.
    MajorBegin(u64),
    /// The job's `run`, and then `merge_finish`: job.
    MergeFinish(JobId),
    /// `maintenance`.
    Maintenance,
    /// `get_at`: view, keyspace id and key.
    GetAt(View, u64, UserKey),
    /// `page_at`: view, keyspace id, range of keys, whether from behind, and how many pairs at most.
    PageAt(View, u64, KeyRange, bool, usize),
    /// `snapshot`.
    Snapshot,
    /// `clone_snapshot`: ticket.
    CloneSnapshot(Ticket),
    /// `close_snapshot`: ticket.
    CloseSnapshot(Ticket),
    /// `gc`.
    Gc,
    /// `persist`.
    Persist(PersistMode),
    /// `keyspace_count`.
    KeyspaceCount,
    /// `list_keyspace_names`.
    ListKeyspaceNames,
    /// `keyspace_exists`: name.
    KeyspaceExists(Slice),
    /// `seqno`.
    Seqno,
    /// `visible_seqno`.
    VisibleSeqno,
    /// `journal_count`.
    JournalCount,
    /// `journal_disk_space`.
    JournalDiskSpace,
    /// `open_snapshots`.
    OpenSnapshots,
    /// `approximate_len`: keyspace id.
    ApproximateLen(u64),
    /// `sealed_memtable_count`: keyspace id.
    SealedMemtableCount(u64),
    /// `write_buffer_size`.
    WriteBufferSize,
    /// `wants_rotation`: keyspace id.
    WantsRotation(u64),
    /// `table_count`: keyspace id.
    TableCount(u64),
    /// `l0_table_count`: keyspace id.
    L0TableCount(u64),
    /// `disk_space`: keyspace id, or none for the whole database.
    DiskSpace(Option<u64>),
    /// `outstanding_flushes`.
    OutstandingFlushes,
    /// `active_compactions`.
    ActiveCompactions,
    /// `compactions_completed`.
    CompactionsCompleted,
    /// `get_keyspaces_to_flush_for_oldest_journal_eviction`.
    KeyspacesToFlush,
}
