//! Calls that read keys and counts: they change nothing but which blocks of tables are kept.

ghost use Rattle.std.specs.Prelude.{◌≡◌, ◌+◌, IsTrue, length};
ghost use Rattle.fjall_journal.specs.Writer.{counted};
ghost use Rattle.fjall_files.specs.Journals.{bytes_of};
ghost use Rattle.std.specs.FinMap.{len};
ghost use Rattle.fjall_history.specs.Histories.{number};
ghost use Rattle.fjall_history.specs.Queries.{Get, Page};
ghost use Rattle.fjall_machine.specs.Machine.{State, names_one, present};
ghost use Rattle.fjall_machine.specs.Shapes.{Names, OfCount, OfRead};
ghost use Rattle.fjall_engine.specs.Standing.{StandsFor, Owes, Serves, names_reply, pairs_reply, store_in, value_reply};

use crate::engine::Engine;
use fjall_base::{Disk, KvPair, Result, Slice, UserValue};
use fjall_history::View;
use fjall_reading::KeyRange;

impl<D: Disk> Engine<D> {
    /// The value that a key of a keyspace has in a view. A key that no write can have has none.
    ///
    /// Refusals: `SnapshotClosed`, `UnknownKeyspace`, `KeyspaceDeleted`, `Io` where the disk fails, which poisons nothing,
    /// `Storage(TableDamaged)` where a block of one of its tables is wrong in which the key would stand, `OutOfMemory`. Nothing
    /// changes.
    pub fn get_at(&mut self, view: View, id: u64, key: &[u8]) -> Result<Option<UserValue>>
        ensures serves { IsTrue D.honest → Serves self.old (OfRead view id (Get key.now)) (value_reply result) self.new }
        ensures owes { Owes self.old (OfRead view id (Get key.now)) (value_reply result) self.new }
    {
        self.memory.get(&mut self.disk, view, id, key)
    }

    /// The first pairs of a keyspace's range in a view or, where `back`, the last ones: at most `max`, in the order of
    /// their keys.
    ///
    /// Refused as [`get_at`](Engine::get_at), where a block is wrong that the page wants.
    pub fn page_at(
        &mut self,
        view: View,
        id: u64,
        range: &KeyRange,
        back: bool,
        max: usize,
    ) -> Result<Vec<KvPair>>
        ensures serves { IsTrue D.honest → Serves self.old (OfRead view id (Page range.now back max)) (pairs_reply result) self.new }
        ensures owes { Owes self.old (OfRead view id (Page range.now back max)) (pairs_reply result) self.new }
    {
        self.memory
            .page(self.alloc, &mut self.disk, view, id, range, back, max)
    }

    /// How many keyspaces live.
    pub fn keyspace_count(&self) -> usize
        ensures held { result ≡ length self.now.memory.keyspaces.living }
        ensures count { (s : State) → StandsFor self.now s → result ≡ len (present s).names }
    {
        self.memory.keyspace_count()
    }

    /// The names of the keyspaces that live, in the order of their bytes. Refuses for want of memory alone.
    pub fn list_keyspace_names(&mut self) -> Result<Vec<Slice>>
        ensures serves { IsTrue D.honest → Serves self.old (OfCount Names) (names_reply result) self.new }
        ensures owes { Owes self.old (OfCount Names) (names_reply result) self.new }
        ensures same { self.new ≡ self.old }
    {
        self.memory.list_keyspace_names(self.alloc)
    }

    /// Whether a keyspace has this name.
    pub fn keyspace_exists(&self, name: &[u8]) -> bool
        ensures held { result ≡ names_one (store_in self.now) name.now }
        ensures named { (s : State) → StandsFor self.now s → result ≡ names_one (present s) name.now }
    {
        self.memory.keyspace_exists(name)
    }

    /// The number that the next command takes.
    pub fn seqno(&self) -> u64
        ensures held { result ≡ self.now.memory.next }
        ensures number { (s : State) → StandsFor self.now s → result ≡ number s.history }
    {
        self.memory.seqno()
    }

    /// One past the number of the last accepted command: a view at this instant shows all of them.
    pub fn visible_seqno(&self) -> u64
        ensures held { result ≡ self.now.memory.next }
        ensures number { (s : State) → StandsFor self.now s → result ≡ number s.history }
    {
        self.memory.seqno()
    }

    /// How many journals there are: the sealed ones and the active one.
    pub fn journal_count(&self) -> usize
        ensures held { result ≡ length self.now.memory.journals.sealed + 1 }
        ensures parts { (s : State) → StandsFor self.now s → result ≡ length s.parts.journals.sealed + 1 }
    {
        self.memory.journal_count()
    }

    /// How many bytes the files of all journals have, added up. It stops at the greatest `u64`.
    pub fn journal_disk_space(&self) -> u64
        ensures held { result ≡ counted (bytes_of self.now.memory.journals.sealed + self.now.journal.len) }
        ensures parts { (s : State) → StandsFor self.now s → result ≡ counted (bytes_of s.parts.journals.sealed + s.parts.journal) }
    {
        self.memory
            .sealed_journal_space()
            .saturating_add(self.journal.len())
    }
}
