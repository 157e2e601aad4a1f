//! Calls of a list that neither begin nor finish a job.

ghost use Rattle.std.specs.Prelude.{IsTrue};
ghost use Rattle.fjall_history.specs.Queries.{Get, Page};
ghost use Rattle.fjall_machine.specs.Shapes.{Exists, OfCount, OfCreation, OfRead, shape_of};
ghost use Rattle.fjall_engine.specs.Jobs.{IsCount, IsPlain};
ghost use Rattle.fjall_engine.specs.Standing.{Owes, Serves};

use crate::engine::Engine;
use crate::replies::{
    flag_reply, ids_reply, names_reply, number_reply, pairs_reply, reply_of, ticket_reply,
    value_reply,
};
use fjall_base::{Disk, Slice, UserKey};
use fjall_history::{Reply, View};
use fjall_machine::Call;
use fjall_options::KeyspaceCreateOptions;
use fjall_reading::KeyRange;

impl<D: Disk> Engine<D> {
    // Serves a call that neither begins nor finishes a job.
    pub(crate) fn serve_plain(&mut self, call: Call) -> Reply
        requires { IsPlain (shape_of call) }
        ensures serves { IsTrue D.honest → Serves self.old (shape_of call) result self.new }
        ensures owes { Owes self.old (shape_of call) result self.new }
    {
        match call {
            Call::Keyspace(name, options) => self.serve_keyspace(name, options),
            Call::DeleteKeyspace(id) => reply_of(self.delete_keyspace(id)),
            Call::Retain(id) => reply_of(self.retain(id)),
            Call::Release(id) => reply_of(self.release(id)),
            Call::Insert(id, key, value) => reply_of(self.insert(id, &key, &value)),
            Call::Remove(id, key) => reply_of(self.remove(id, &key)),
            Call::RemoveWeak(id, key) => reply_of(self.remove_weak(id, &key)),
            Call::Clear(id) => reply_of(self.clear(id)),
            Call::CommitBatch(items, mode) => reply_of(self.commit_batch(items, mode)),
            Call::Ingest(id, items) => reply_of(self.ingest(id, items)),
            Call::RotateMemtable(id) => flag_reply(self.rotate_memtable(id)),
            Call::RotateJournal => reply_of(self.rotate_journal()),
            Call::Maintenance => reply_of(self.maintenance()),
            Call::GetAt(view, id, key) => self.serve_get(view, id, key),
            Call::PageAt(view, id, range, back, max) => self.serve_page(view, id, range, back, max),
            Call::Snapshot => ticket_reply(self.snapshot()),
            Call::CloneSnapshot(ticket) => ticket_reply(self.clone_snapshot(ticket)),
            Call::CloseSnapshot(ticket) => reply_of(self.close_snapshot(ticket)),
            Call::Gc => Reply::Number(self.gc()),
            Call::Persist(mode) => reply_of(self.persist(mode)),
            call => self.serve_count(call),
        }
    }

    // Serves a call that counts.
    fn serve_count(&mut self, call: Call) -> Reply
        requires { IsCount (shape_of call) }
        ensures serves { IsTrue D.honest → Serves self.old (shape_of call) result self.new }
        ensures owes { Owes self.old (shape_of call) result self.new }
    {
        match call {
            Call::KeyspaceCount => Reply::Number(self.keyspace_count() as u64),
            Call::ListKeyspaceNames => names_reply(self.list_keyspace_names()),
            Call::KeyspaceExists(name) => self.serve_keyspace_exists(name),
            Call::Seqno => Reply::Number(self.seqno()),
            Call::VisibleSeqno => Reply::Number(self.visible_seqno()),
            Call::JournalCount => Reply::Number(self.journal_count() as u64),
            Call::JournalDiskSpace => Reply::Number(self.journal_disk_space()),
            Call::OpenSnapshots => Reply::Number(self.open_snapshots()),
            Call::ApproximateLen(id) => Reply::Number(self.approximate_len(id)),
            Call::SealedMemtableCount(id) => Reply::Number(self.sealed_memtable_count(id) as u64),
            Call::WriteBufferSize => Reply::Number(self.write_buffer_size()),
            Call::WantsRotation(id) => Reply::Flag(self.wants_rotation(id)),
            Call::TableCount(id) => Reply::Number(self.table_count(id) as u64),
            Call::L0TableCount(id) => Reply::Number(self.l0_table_count(id) as u64),
            Call::DiskSpace(id) => Reply::Number(self.disk_space(id)),
            Call::OutstandingFlushes => Reply::Number(self.outstanding_flushes() as u64),
            Call::ActiveCompactions => Reply::Number(self.active_compactions() as u64),
            Call::CompactionsCompleted => Reply::Number(self.compactions_completed()),
            Call::KeyspacesToFlush => {
                ids_reply(self.get_keyspaces_to_flush_for_oldest_journal_eviction())
            }
            _ => unreachable!(),
        }
    }

    // Serves a creation, and lets its name go.
    fn serve_keyspace(&mut self, name: Slice, options: KeyspaceCreateOptions) -> Reply
        ensures serves { IsTrue D.honest → Serves self.old (OfCreation name options) result self.new }
        ensures owes { Owes self.old (OfCreation name options) result self.new }
    {
        number_reply(self.keyspace(&name, options))
    }

    // Serves a read of a value, and lets the key go.
    fn serve_get(&mut self, view: View, id: u64, key: UserKey) -> Reply
        ensures serves { IsTrue D.honest → Serves self.old (OfRead view id (Get key)) result self.new }
        ensures owes { Owes self.old (OfRead view id (Get key)) result self.new }
    {
        value_reply(self.get_at(view, id, &key))
    }

    // Serves a read of pairs, and lets the range go.
    fn serve_page(&mut self, view: View, id: u64, range: KeyRange, back: bool, max: usize) -> Reply
        ensures serves { IsTrue D.honest → Serves self.old (OfRead view id (Page range back max)) result self.new }
        ensures owes { Owes self.old (OfRead view id (Page range back max)) result self.new }
    {
        pairs_reply(self.page_at(view, id, &range, back, max))
    }

    // Serves a question for a name, and lets the name go.
    fn serve_keyspace_exists(&self, name: Slice) -> Reply
        ensures serves { IsTrue D.honest → Serves self.now (OfCount (Exists name)) result self.now }
        ensures owes { Owes self.now (OfCount (Exists name)) result self.now }
    {
        Reply::Flag(self.keyspace_exists(&name))
    }
}
