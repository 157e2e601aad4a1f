//! A core, read at a view.

ghost use Rattle.std.specs.Prelude.{◌≡◌, ℕ, None, IsTrue, IfOk, IfErr, OnOk};
ghost use Rattle.std.specs.Result.{result_err};
ghost use Rattle.fjall_base.specs.Pairs.{Pairs, lookup, page, pairs_between};
ghost use Rattle.fjall_history.specs.Queries.{Get, Page};
ghost use Rattle.fjall_machine.specs.Shapes.{OfRead};
ghost use Rattle.fjall_engine.specs.Standing.{Owes, Serves, pairs_reply, value_reply};
ghost use Rattle.fjall_core.specs.Shown.{IsRefusedFor, ReadsKeyspace, Shows, read_due};
ghost use Rattle.fjall_core.specs.ReadsGoing.{reads_go_on, reads_none, reads_short};

use fjall_base::{Disk, KvPair, Result, UserValue};
use fjall_engine::{Engine, View};
use fjall_reading::{Identified, KeyRange, Pages, Readable};
use std::alloc::Global;

/// A core, read at a view: at its present, or at a snapshot.
///
/// Refusals of each read: `SnapshotClosed`, `UnknownKeyspace`, `KeyspaceDeleted`, `Io` where the disk fails, which poisons
/// nothing, `Storage(TableDamaged)` where a block of one of the keyspace's tables is wrong that the read wants, `OutOfMemory`. No
/// read changes the core but for which blocks of tables are kept.
#[derive(Drop)]
pub struct Reader<'a, D: Disk> {
    alloc: Global,
    core: &'a mut Engine<D>,
    view: View,
}

impl<'a, D: Disk> Reader<'a, D> {
    /// A reader of the core at this view.
    pub fn new(alloc: Global, core: &'a mut Engine<D>, view: View) -> Reader<'a, D>
        ensures core { result.core.now ≡ core.old }
        ensures view { result.view ≡ view }
        ensures same_core { result.core.ghost_name ≡ core.entry.ghost_name }
    {
        Reader { alloc, core, view }
    }

    /// The view that it reads.
    pub fn view(&self) -> View
        ensures { result ≡ self.now.view }
    {
        self.view
    }

    /// The core, which is free again.
    pub fn into_core(self) -> &'a mut Engine<D>
        ensures core { result.now ≡ self.entry.core.now }
        ensures same_core { result.ghost_name ≡ self.entry.core.ghost_name }
    {
        let Reader {
            alloc: _,
            core,
            view: _,
        } = self;
        core
    }
}

impl<'a, D: Disk> Pages for Reader<'a, D> {
    ghost shows = { λ reader id map. Shows D.honest reader.core.now reader.view id map };

    ghost reads = { λ old id error new. ReadsKeyspace D.honest old.core old.view id error new.core new.view };

    // It takes no note of what is read.
    ghost paging = { λ old id error new. ReadsKeyspace D.honest old.core old.view id error new.core new.view };

    fn alloc(&self) -> Global {
        self.alloc
    }

    fn page(&mut self, id: u64, range: &KeyRange, back: bool, max: usize) -> Result<Vec<KvPair>>
        ensures ok { (map : Pairs) → Shows D.honest self.old.core.now self.old.view id map → IfOk result (λ found. found.items ≡ page back max (pairs_between range.now map)) }
        ensures same { (i : ℕ) (map : Pairs) → Shows D.honest self.old.core.now self.old.view i map → Shows D.honest self.new.core.now self.new.view i map }
        ensures paging { ReadsKeyspace D.honest self.old.core self.old.view id (result_err result) self.new.core self.new.view }
        ensures due { OnOk result (read_due self.old.core.now self.old.view id ≡ None) }
        ensures cause { IfErr result (IsRefusedFor self.old.core.now self.old.view id self.new.core.now) }
        // It is the call of the core, over any disk and over one that returns what it holds.
        ensures owes { Owes self.old.core.now (OfRead self.old.view id (Page range.now back max)) (pairs_reply result) self.new.core.now }
        ensures serves { IsTrue D.honest → Serves self.old.core.now (OfRead self.old.view id (Page range.now back max)) (pairs_reply result) self.new.core.now }
    {
        self.core.page_at(self.view, id, range, back, max)
    }

    ghost reads_none = { λ reader id. reads_none D.honest reader.core reader.view id };

    ghost reads_on = { λ old mid new first id error. reads_go_on D.honest old.core mid.core new.core old.view mid.view new.view first id error };

    ghost reads_short = { λ old new id. reads_short D.honest old.core new.core old.view new.view id };

    ghost paging_none = { λ reader id. reads_none D.honest reader.core reader.view id };

    ghost paging_on = { λ old mid new first id error. reads_go_on D.honest old.core mid.core new.core old.view mid.view new.view first id error };

    ghost paging_short = { λ old new id. reads_short D.honest old.core new.core old.view new.view id };

    ghost paging_reads = { λ old new id error reads. reads };
}

impl<'a, D: Disk> Readable for Reader<'a, D> {
    fn get<K: Identified>(&mut self, keyspace: &K, key: &[u8]) -> Result<Option<UserValue>>
        ensures ok { (map : Pairs) → Shows D.honest self.old.core.now self.old.view (K.identity keyspace.now) map → IfOk result (λ found. found ≡ lookup map key.now) }
        ensures same { (i : ℕ) (map : Pairs) → Shows D.honest self.old.core.now self.old.view i map → Shows D.honest self.new.core.now self.new.view i map }
        ensures reads { ReadsKeyspace D.honest self.old.core self.old.view (K.identity keyspace.now) (result_err result) self.new.core self.new.view }
        ensures due { OnOk result (read_due self.old.core.now self.old.view (K.identity keyspace.now) ≡ None) }
        ensures cause { IfErr result (IsRefusedFor self.old.core.now self.old.view (K.identity keyspace.now) self.new.core.now) }
        ensures owes { Owes self.old.core.now (OfRead self.old.view (K.identity keyspace.now) (Get key.now)) (value_reply result) self.new.core.now }
        ensures serves { IsTrue D.honest → Serves self.old.core.now (OfRead self.old.view (K.identity keyspace.now) (Get key.now)) (value_reply result) self.new.core.now }
    {
        self.core.get_at(self.view, keyspace.id(), key)
    }
}
