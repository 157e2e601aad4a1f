//! What an engine holds in memory: keyspaces that were made under lesser numbers than the next one, and the trees of
//! keyspaces.

ghost use Rattle.std.specs.Prelude.{◌≡◌, ◌≢◌, ◌<◌, ◌≤◌, ◌+◌, ◌-◌, ◌^◌, ◌++◌, ◌∷◌, [], ℕ, List, All, None, is_some, not, true, false, length, map, IfOk, IfErr, OnOk, OnErr, IsOkUnless, IsPermutation, IsSorted};
ghost use Rattle.std.specs.FinMap.{empty, from_entries, get, len, values};
ghost use Rattle.fjall_base.specs.Pairs.{Bytes, byte_order};
ghost use Rattle.fjall_base.specs.declared.error.Error.TheVariants.{KeyspaceDeleted, UnknownKeyspace};
ghost use Rattle.fjall_manifest.specs.Catalog.{fields, first_of};
ghost use Rattle.fjall_files.specs.Journals.{bytes_of};
ghost use Rattle.fjall_meta.specs.Keyspaces.{id_of, is_name};
ghost use Rattle.fjall_manifest.specs.Records.{view};
ghost use Rattle.fjall_trees.specs.Forests.{AreBefore, tree_at};
ghost use Rattle.fjall_trees.specs.Views.{forest_of};
ghost use Rattle.fjall_trees.specs.Maps.{store_of};
ghost use Rattle.fjall_history.specs.Tickets.{closed, closing_refusal, cloning_refusal, collected, is_open as is_open_in, opened, opening_refusal};
ghost use Rattle.fjall_machine.specs.Machine.{first_due, handle_refusals, handles_of, names_one, is_among, is_living, is_read, is_unknown, one_less, persists_by_hand, view_refusals};
ghost use Rattle.fjall_machine.specs.Shapes.{OneMore};
ghost use Rattle.fjall_machine.specs.Remembered.{IsDueOrMemory, IsLawful, Remembered, facts_of, instant_in, is_last_in_memory, journals_of, let_go, poisoned, released_in_memory, remembered, retained, with_creation, with_deletion, with_tickets};

use fjall_base::{Error, Result, Slice};
use fjall_files::{ActiveWatermarks, JournalManager};
use fjall_history::{Ticket, Tickets, View};
use fjall_manifest::Record;
use fjall_meta::{LivingKeyspace, MetaKeyspace};
use fjall_options::KeyspaceCreateOptions;
use fjall_replay::LastRecords;
use fjall_trees::Trees;
use std::alloc::Global;
use std::collections::BTreeMap;
use std::marker::Model;

/// What an engine holds in memory: the keyspaces that live, the trees of these and of the deleted ones that are still read,
/// the tickets of snapshots with the next number, at which a new one reads, whether a fault has poisoned it, how many handles
/// of each keyspace are counted, the deleted keyspaces that are still read, what is known of the journals: the sealed ones, and
/// of the active one its number and up to which number each keyspace has changes in it; the last records of the keyspaces that
/// have a tree, the number that the next job gets, and how many merges were finished and took effect.
#[derive(Drop)]
pub struct EngineState {
    alloc: Global,
    pub(crate) keyspaces: MetaKeyspace,
    pub(crate) trees: Trees,
    pub(crate) tickets: Tickets,
    poisoned: bool,
    handles: BTreeMap<u64, u64>,
    lasting: Vec<u64>,
    pub(crate) sealed: JournalManager,
    pub(crate) active: u64,
    pub(crate) watermarks: ActiveWatermarks,
    pub(crate) records: LastRecords,
    pub(crate) next_job: u64,
    pub(crate) merges_done: u64,
}

impl Model for EngineState {
    ghost use Rattle.std.specs.Coded.{codes};
    ghost use Rattle.std.specs.FinMap.{from_entries};
    ghost use Rattle.fjall_replay.specs.Known.{records_code};
    ghost use Rattle.fjall_trees.specs.Views.{forest_of};
    ghost use Rattle.fjall_machine.specs.Remembered.{IsLawful, Remembered, handles_code, journals_of};

    ghost Value = { Remembered };

    ghost coded = { Prim.hlevel (codes, handles_code, records_code) };

    ghost view = { λ m. record {
      keyspaces = m.keyspaces;
      trees = forest_of m.trees;
      next = m.tickets.visible;
      poisoned = m.poisoned;
      handles = from_entries m.handles.entries;
      lasting = m.lasting.items;
      tickets = m.tickets.tickets;
      journals = journals_of m.sealed m.active m.watermarks;
      records = m.records;
      next_job = m.next_job;
      merges_done = m.merges_done;
    } };

    ghost invariant = { λ m. IsLawful (record {
      keyspaces = m.keyspaces;
      trees = forest_of m.trees;
      next = m.tickets.visible;
      poisoned = m.poisoned;
      handles = from_entries m.handles.entries;
      lasting = m.lasting.items;
      tickets = m.tickets.tickets;
      journals = journals_of m.sealed m.active m.watermarks;
      records = m.records;
      next_job = m.next_job;
      merges_done = m.merges_done;
    }) };
}

/// How many handles of a keyspace are counted.
fn count_of(handles: &BTreeMap<u64, u64>, id: u64) -> u64
    ensures { result ≡ handles_of (from_entries handles.now.entries) id }
{
    handles.get(&id).copied().unwrap_or(0)
}

/// One handle less is counted. It takes no memory.
fn count_less(handles: &mut BTreeMap<u64, u64>, id: u64)
    requires { 0 < handles_of (from_entries handles.old.entries) id }
    ensures { from_entries handles.new.entries ≡ one_less (from_entries handles.old.entries) id }
{
    let count = count_of(handles, id);
    if count == 1 {
        handles.remove(&id);
    } else if let Some(kept) = handles.get_mut(&id) {
        *kept = count - 1;
    }
}

impl EngineState {
    /// These keyspaces, with these trees, no job of which is out, and these last records, whose next change takes this number.
    /// Before the active journal, of this number and with these watermarks, there are these sealed ones. No ticket was given
    /// out, so that the watermark is one below the visible number: what an opening brought back nobody reads at an older instant.
    pub fn new(
        alloc: Global,
        keyspaces: MetaKeyspace,
        trees: Trees,
        next: u64,
        sealed: JournalManager,
        active: u64,
        watermarks: ActiveWatermarks,
        records: LastRecords,
    ) -> EngineState
        requires made { All (λ k. k.number < next) keyspaces.living }
        requires planted { All (λ k. is_some (tree_at k.id (forest_of trees)) ≡ true) keyspaces.living }
        requires given { All (λ k. k.id < keyspaces.next) (forest_of trees) }
        requires below { AreBefore next (forest_of trees) }
        requires small { next ≤ 2 ^ 63 }
        requires recorded { All (λ k. is_some (get records k.id) ≡ true) keyspaces.living }
        requires kept { (id : ℕ) → keyspaces.next ≤ id → get records id ≡ None }
        requires still { All (λ k. (k.shape.flush ≡ None) × (k.shape.merge ≡ None)) (forest_of trees) }
        ensures { result ≡ remembered keyspaces (forest_of trees) next (journals_of sealed active watermarks) records }
    {
        let mut tickets = Tickets::new(alloc, next);
        tickets.gc();
        EngineState {
            alloc,
            keyspaces,
            trees,
            tickets,
            poisoned: false,
            handles: BTreeMap::new(alloc),
            lasting: Vec::new(alloc),
            sealed,
            active,
            watermarks,
            records,
            next_job: 0,
            merges_done: 0,
        }
    }

    /// Sets for how many bytes of memory the blocks of tables may count that reads leave in memory, of all keyspaces together.
    pub fn set_kept_bound(&mut self, bytes: u64)
        ensures { self.new ≡ self.old }
    {
        self.trees.set_kept_bound(bytes);
    }

    /// The keyspaces that live, and the id that the next one gets.
    pub fn keyspaces(&self) -> &MetaKeyspace
        ensures value { result.now ≡ self.now.keyspaces }
        ensures lawful { IsLawful self.now }
    {
        &self.keyspaces
    }

    /// The keyspaces that live, by id ascending.
    pub fn living(&self) -> &[LivingKeyspace]
        ensures { result.now ≡ self.now.keyspaces.living }
    {
        self.keyspaces.living()
    }

    /// The number that the next change takes.
    pub fn seqno(&self) -> u64
        ensures { result ≡ self.now.next }
    {
        self.tickets.seqno()
    }

    /// The id that the next keyspace gets.
    pub fn next_id(&self) -> u64
        ensures value { result ≡ self.now.keyspaces.next }
        ensures stored { result ≡ (store_of self.now.keyspaces self.now.trees).next }
    {
        self.keyspaces.next_id()
    }

    /// Whether a fault has poisoned it.
    pub fn is_poisoned(&self) -> bool
        ensures { result ≡ self.now.poisoned }
    {
        self.poisoned
    }

    /// How many journals there are: the sealed ones and the active one.
    pub fn journal_count(&self) -> usize
        ensures { result ≡ length self.now.journals.sealed + 1 }
    {
        self.sealed.journal_count()
    }

    /// How many bytes the files of the sealed journals have, at most the greatest `u64`.
    pub fn sealed_journal_space(&self) -> u64
        ensures { result ≡ bytes_of self.now.journals.sealed }
    {
        self.sealed.disk_space_used()
    }

    /// The number of the active journal.
    pub fn active_journal(&self) -> u64
        ensures { result ≡ self.now.journals.active }
    {
        self.active
    }

    /// How many keyspaces live.
    pub fn keyspace_count(&self) -> usize
        ensures living { result ≡ length self.now.keyspaces.living }
        ensures named { result ≡ len (store_of self.now.keyspaces self.now.trees).names }
    {
        self.keyspaces.keyspace_count()
    }

    /// The names of the keyspaces that live, in the order of their bytes. Refuses for want of memory alone.
    pub fn list_keyspace_names(&self, alloc: Global) -> Result<Vec<Slice>>
        ensures names { IfOk result (λ names. IsPermutation (map (λ k. k.name) self.now.keyspaces.living) names.items) }
        ensures named { IfOk result (λ names. IsPermutation (values (store_of self.now.keyspaces self.now.trees).names) names.items) }
        ensures sorted { IfOk result (λ names. IsSorted byte_order names.items) }
        ensures only { IsOkUnless result Error.OutOfMemory }
    {
        self.keyspaces.list_keyspace_names(alloc)
    }

    /// Whether a keyspace has this name.
    pub fn keyspace_exists(&self, name: &[u8]) -> bool
        ensures { result ≡ names_one (store_of self.now.keyspaces self.now.trees) name.now }
    {
        self.keyspaces.keyspace_exists(name)
    }

    /// The id of the keyspace that has this name.
    pub fn resolve(&self, name: &[u8]) -> Option<u64>
        ensures id { result ≡ id_of name.now self.now.keyspaces.living }
        ensures named { is_some result ≡ names_one (store_of self.now.keyspaces self.now.trees) name.now }
    {
        self.keyspaces.resolve_id(name)
    }

    /// Whether no keyspace ever had this id.
    pub fn is_unknown(&self, id: u64) -> bool
        ensures { result ≡ is_unknown (store_of self.now.keyspaces self.now.trees) id }
    {
        id == 0 || self.keyspaces.next_id() <= id
    }

    /// Whether the keyspace of this id lives.
    pub fn is_living(&self, id: u64) -> bool
        ensures { result ≡ is_living (store_of self.now.keyspaces self.now.trees) id }
    {
        self.keyspaces.get(id).is_some()
    }

    /// Whether the keyspace of this id lives and persists by hand: its writes wait in the journal's buffer.
    pub fn persists_by_hand(&self, id: u64) -> bool
        ensures { result ≡ persists_by_hand (store_of self.now.keyspaces self.now.trees) id }
    {
        match self.keyspaces.options_of(id) {
            Some(options) => options.effective().manual_journal_persist,
            None => false,
        }
    }

    /// Whether the keyspace of this id is deleted and still read.
    pub fn is_lasting(&self, id: u64) -> bool
        ensures { result ≡ is_among self.now.lasting id }
    {
        self.lasting.iter().any(|other| *other == id)
    }

    /// Whether the keyspace of this id is read: it lives, or is deleted and still read.
    pub fn is_read(&self, id: u64) -> bool
        ensures { result ≡ is_read (facts_of self.now 0) id }
    {
        self.is_living(id) || self.is_lasting(id)
    }

    /// How many handles of a keyspace are counted.
    pub fn handle_count(&self, id: u64) -> u64
        ensures { result ≡ handles_of self.now.handles id }
    {
        count_of(&self.handles, id)
    }

    /// Whether the last handle of a deleted keyspace is counted.
    pub fn is_last(&self, id: u64) -> bool
        ensures { result ≡ is_last_in_memory self.now id }
    {
        !self.is_living(id) && self.handle_count(id) == 1
    }
}

/// What refuses a handle or a read of the keyspace of this id.
fn handle_refusal(memory: &EngineState, id: u64) -> Option<Error>
    ensures { let f = facts_of memory.now 0 in
        result ≡ first_due ((is_unknown f.store id, UnknownKeyspace) ∷ (not (is_read f id), KeyspaceDeleted) ∷ []) }
{
    if memory.is_unknown(id) {
        return Some(Error::UnknownKeyspace);
    }
    if !memory.is_read(id) {
        return Some(Error::KeyspaceDeleted);
    }
    None
}

impl EngineState {
    // The instant at which a view reads; 0 where its ticket isn't open.
    pub(crate) fn instant_of(&self, view: View) -> u64
        ensures { result ≡ instant_in self.now view }
    {
        match view {
            View::Present => self.seqno(),
            View::At(ticket) => self.tickets.instant_of(ticket.id).unwrap_or(0),
        }
    }

    // What refuses a read of the keyspace of this id in a view.
    pub(crate) fn view_refusal(&self, view: View, id: u64) -> Option<Error>
        ensures { result ≡ first_due (view_refusals (facts_of self.now 0) view id) }
    {
        if let View::At(ticket) = view
            && !self.tickets.is_open(ticket.id)
        {
            return Some(Error::SnapshotClosed);
        }
        handle_refusal(self, id)
    }
}

impl EngineState {
    /// Opens a ticket, which reads at the next number.
    ///
    /// Refusals: `NumbersUsedUp`, `OutOfMemory`. After each of them nothing has changed.
    pub fn open_ticket(&mut self) -> Result<Ticket>
        ensures due { OnOk result (opening_refusal self.old.tickets ≡ None) }
        ensures ticket { IfOk result (λ ticket. ticket ≡ record { id = self.old.tickets.next; instant = self.old.next }) }
        ensures ok { OnOk result (self.new ≡ with_tickets (opened self.old.next self.old.tickets) self.old) }
        ensures unchanged { OnErr result (self.new ≡ self.old) }
        ensures cause { IfErr result (IsDueOrMemory (opening_refusal self.old.tickets)) }
    {
        self.tickets.open()
    }

    /// Opens a ticket that reads where the one of this id does.
    ///
    /// Refusals: `SnapshotClosed`, `NumbersUsedUp`, `OutOfMemory`. After each of them nothing has changed.
    pub fn clone_ticket(&mut self, id: u64) -> Result<Ticket>
        ensures due { OnOk result (cloning_refusal id self.old.tickets ≡ None) }
        ensures ok { IfOk result (λ ticket. (ticket.id ≡ self.old.tickets.next) × (get self.old.tickets.instants id ≡ Some ticket.instant)
            × (self.new ≡ with_tickets (opened ticket.instant self.old.tickets) self.old)) }
        ensures unchanged { OnErr result (self.new ≡ self.old) }
        ensures cause { IfErr result (IsDueOrMemory (cloning_refusal id self.old.tickets)) }
    {
        self.tickets.clone_ticket(id)
    }

    /// Closes the ticket of this id, or refuses with `SnapshotClosed`, after which nothing has changed.
    pub fn close_ticket(&mut self, id: u64) -> Result<()>
        ensures due { OnOk result (closing_refusal id self.old.tickets ≡ None) }
        ensures ok { OnOk result (self.new ≡ with_tickets (closed self.old.next id self.old.tickets) self.old) }
        ensures unchanged { OnErr result (self.new ≡ self.old) }
        ensures cause { IfErr result (λ error. closing_refusal id self.old.tickets ≡ Some error) }
    {
        self.tickets.close(id)
    }

    /// Raises the watermark to one below the least number at which an open ticket reads or, with none open, the next
    /// number, and answers it. It never falls.
    pub fn gc(&mut self) -> u64
        ensures value { result ≡ (collected self.old.next self.old.tickets).watermark }
        ensures raised { self.new ≡ with_tickets (collected self.old.next self.old.tickets) self.old }
    {
        self.tickets.gc()
    }

    /// The instant at which the ticket of this id reads, where it is open.
    pub fn ticket_instant(&self, id: u64) -> Option<u64>
        ensures { result ≡ get self.now.tickets.instants id }
    {
        self.tickets.instant_of(id)
    }

    /// The watermark, as the last collection left it.
    pub fn watermark(&self) -> u64
        ensures { result ≡ self.now.tickets.watermark }
    {
        self.tickets.watermark()
    }

    /// How many tickets are open.
    pub fn open_snapshots(&self) -> u64
        ensures { result ≡ len self.now.tickets.instants }
    {
        self.tickets.open_snapshots()
    }
}

/// What the first record of a keyspace says, which the change of this number made. It takes no memory.
fn first_record(alloc: Global, number: u64) -> Record
    ensures { view result ≡ fields (first_of number) }
{
    Record {
        persisted: None,
        highest: Some(number),
        next_table_id: 1,
        next_keyspace_id: 0,
        tables: Vec::new(alloc),
        clears: Vec::new(alloc),
    }
}

impl EngineState {
    /// A fault has poisoned it.
    pub fn poison(&mut self)
        ensures { self.new ≡ poisoned self.old }
    {
        self.poisoned = true;
    }

    /// Makes a keyspace of this name with these options, under the next number, with a tree that holds nothing and its first
    /// record, and answers its id. After a refusal, for want of memory alone, nothing has changed.
    pub fn create(&mut self, name: Slice, options: KeyspaceCreateOptions) -> Result<u64>
        requires named { is_name name ≡ true }
        requires fresh { id_of name self.old.keyspaces.living ≡ None }
        requires numbered { self.old.next < 2 ^ 63 }
        requires free { self.old.keyspaces.next ≢ 2 ^ 64 - 1 }
        ensures id { IfOk result (λ id. id ≡ self.old.keyspaces.next) }
        ensures ok { OnOk result (self.new ≡ with_creation name options self.old) }
        ensures lawful { IsLawful self.old }
        ensures unchanged { OnErr result (self.new ≡ self.old) }
        ensures only { IsOkUnless result Error.OutOfMemory }
    {
        let number = self.tickets.seqno();
        let next = self.keyspaces.next_id();
        self.trees.plant(next, number)?;
        if let Err(error) = self.records.insert(next, first_record(self.alloc, number)) {
            self.trees.let_go(next);
            return Err(error);
        }
        match self.keyspaces.create_keyspace(name, options, number) {
            Ok(id) => {
                self.tickets.publish();
                Ok(id)
            }
            Err(error) => {
                self.trees.let_go(next);
                self.records.remove(next);
                Err(error)
            }
        }
    }

    /// Takes back the keyspace that was made last, where that was the last change: its id and its number are free
    /// again, and its tree and its record are dropped.
    pub fn take_back(&mut self)
        requires { (name : Bytes) × (options : List Bytes) × (m : Remembered) × IsLawful m × (self.old ≡ with_creation name options m) }
        ensures { (name : Bytes) (options : List Bytes) (m : Remembered) → IsLawful m → self.old ≡ with_creation name options m → self.new ≡ m }
    {
        self.keyspaces.take_back();
        let id = self.keyspaces.next_id();
        self.trees.let_go(id);
        self.records.remove(id);
        self.tickets.retract();
    }

    /// The deleted keyspaces that are still read once this one is deleted too, for [`delete`](EngineState::delete).
    /// Refuses for want of memory alone.
    pub fn prepare_deletion(&self, alloc: Global, id: u64) -> Result<Vec<u64>>
        ensures ok { IfOk result (λ lasting. lasting.items ≡ self.now.lasting ++ id ∷ []) }
        ensures only { IsOkUnless result Error.OutOfMemory }
    {
        let mut lasting = Vec::from_slice(alloc, &self.lasting)?;
        lasting.push(id)?;
        Ok(lasting)
    }

    /// Deletes a keyspace, under the next number; it is still read. It takes no memory, since it is given what
    /// [`prepare_deletion`](EngineState::prepare_deletion) made.
    pub fn delete(&mut self, id: u64, lasting: Vec<u64>)
        requires living { is_living (store_of self.old.keyspaces self.old.trees) id ≡ true }
        requires numbered { self.old.next < 2 ^ 63 }
        requires prepared { lasting.items ≡ self.old.lasting ++ id ∷ [] }
        ensures { self.new ≡ with_deletion id self.old }
    {
        self.keyspaces.remove_keyspace(id);
        self.tickets.publish();
        self.lasting = lasting;
    }

    /// Counts one handle more of a keyspace.
    ///
    /// Refusals: `UnknownKeyspace`, `KeyspaceDeleted` where it isn't read any more, `NumbersUsedUp`, `OutOfMemory`.
    /// After each of them nothing has changed.
    pub fn retain(&mut self, id: u64) -> Result<()>
        ensures due { OnOk result (first_due (handle_refusals (facts_of self.old 0) OneMore id) ≡ None) }
        ensures ok { OnOk result (self.new ≡ retained id self.old) }
        ensures unchanged { OnErr result (self.new ≡ self.old) }
        ensures cause { IfErr result (IsDueOrMemory (first_due (handle_refusals (facts_of self.old 0) OneMore id))) }
    {
        if let Some(error) = handle_refusal(self, id) {
            return Err(error);
        }
        let Some(count) = self.handle_count(id).checked_add(1) else {
            return Err(Error::NumbersUsedUp);
        };
        self.handles.insert(id, count)?;
        Ok(())
    }

    // Drops the tree and the last record of a deleted keyspace.
    fn let_go(&mut self, id: u64)
        requires { is_living (store_of self.old.keyspaces self.old.trees) id ≡ false }
        ensures { self.new ≡ let_go id self.old }
    {
        self.lasting.retain(|other| *other != id);
        self.trees.let_go(id);
        self.records.remove(id);
    }

    // Counts one handle less.
    fn count_less(&mut self, id: u64)
        requires { 0 < handles_of self.old.handles id }
        ensures { self.new ≡ record self.old { handles = one_less self.old.handles id } }
    {
        count_less(&mut self.handles, id);
    }

    /// Counts one handle less of a keyspace of which one is counted. With the last one of a deleted keyspace go its tree
    /// and its last record. It takes no memory.
    pub fn release(&mut self, id: u64)
        requires counted { 0 < handles_of self.old.handles id }
        ensures { self.new ≡ released_in_memory id self.old }
    {
        if self.is_last(id) {
            self.let_go(id);
        }
        self.count_less(id);
    }
}
