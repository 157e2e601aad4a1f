//! A core, read within a transaction.

ghost use Rattle.std.specs.Prelude.{◌≡◌, ℕ, Err, None, Some, false, true, is_some, IfErr, IfNone, IfOk, IfSome, OnErr, OnOk};
ghost use Rattle.std.specs.Option.{option_map};
ghost use Rattle.std.specs.Result.{result_err};
ghost use Rattle.fjall_base.specs.Pairs.{Pairs, key_range, lookup, page, pairs_between};
ghost use Rattle.fjall_base.specs.declared.error.Error.TheVariants.{OutOfMemory};
ghost use Rattle.fjall_history.specs.declared.ticket.View.TheVariants.{At};
ghost use Rattle.fjall_tx.specs.Marks.{OfKey, OfRange};
ghost use Rattle.fjall_reading.specs.Guards.{size_of};
ghost use Rattle.fjall_reading.specs.Prefixes.{prefix_range};
ghost use Rattle.fjall_reading.specs.ReadIters.{left_of};
ghost use Rattle.fjall_reading.specs.Readers.{FindsOf, all_of, count_of, first_of, is_none_of, last_of};
ghost use Rattle.fjall_reading.specs.Rests.{error_in};
ghost use Rattle.fjall_tx.specs.Owns.{Own};
ghost use Rattle.fjall_core.specs.Shown.{IsRefusedFor, read_due};
ghost use Rattle.fjall_core.specs.Transactions.{having_read};
ghost use Rattle.fjall_core.specs.Seeing.{IsMarkedOrShort, PagesWithin, ReadsWithin, Sees, whole_of};
ghost use Rattle.fjall_core.specs.OwnReadsGoing.{pages_none, pages_on, pages_short, pages_within, within_none, within_on, within_short};

use crate::laid::{laid_first, laid_last, laid_page};
use crate::reader::Reader;
use crate::transaction::Transaction;
use fjall_base::{Disk, Error, KeyBounds, KvPair, Result, Slice, UserValue};
use fjall_engine::{Engine, View};
use fjall_reading::{
    Guard, Identified, KeyRange, Pages, ReadIter, Readable, bounds_of, pair_count, prefix_to_range,
    range_of,
};
use std::alloc::Global;
use std::mem;
use std::ops::Bound;

// How many bytes a value has, or the most that one of a keyspace has.
fn bytes_in(value: &UserValue) -> u32
    ensures { result ≡ size_of value.now }
{
    u32::try_from(value.len()).unwrap_or(u32::MAX)
}

// A pair that was found, or the fault that was met.
fn guarded(found: Result<Option<KvPair>>) -> Option<Guard>
    ensures found { IfOk found (λ pair. FindsOf pair result × (error_in result ≡ None)) }
    ensures fault { IfErr found (λ error. result ≡ Some (Err error)) }
{
    match found {
        Ok(Some(pair)) => Some(Guard::new(Ok(pair))),
        Ok(None) => None,
        Err(error) => Some(Guard::new(Err(error))),
    }
}

/// A core, read within a transaction: at the instant at which the transaction began, with its own writes applied.
///
/// Refusals of each read are those of [`Reader`], and `OutOfMemory` where a mark finds no memory. A read that is refused marks
/// nothing.
#[derive(Drop)]
pub struct TransactionReader<'a, D: Disk> {
    pub(crate) reader: Reader<'a, D>,
    pub(crate) transaction: &'a mut Transaction,
    // A mark found no memory when an iterator was made, which the next page answers.
    short: bool,
}

impl<'a, D: Disk> TransactionReader<'a, D> {
    /// A reader of the core within this transaction.
    pub fn new(
        alloc: Global,
        core: &'a mut Engine<D>,
        transaction: &'a mut Transaction,
    ) -> TransactionReader<'a, D>
        ensures core { result.reader.core.now ≡ core.old }
        ensures view { result.reader.view ≡ At transaction.old.ticket }
        ensures transaction { result.transaction.now ≡ transaction.old }
        ensures same_core { result.reader.core.ghost_name ≡ core.entry.ghost_name }
        ensures same_transaction { result.transaction.ghost_name ≡ transaction.entry.ghost_name }
        ensures short { result.short ≡ false }
    {
        let view = View::At(transaction.ticket());
        TransactionReader {
            reader: Reader::new(alloc, core, view),
            transaction,
            short: false,
        }
    }

    /// The core and the transaction, which are free again.
    pub fn into_parts(self) -> (&'a mut Engine<D>, &'a mut Transaction)
        ensures core { result.0.now ≡ self.entry.reader.core.now }
        ensures transaction { result.1.now ≡ self.entry.transaction.now }
        ensures same_core { result.0.ghost_name ≡ self.entry.reader.core.ghost_name }
        ensures same_transaction { result.1.ghost_name ≡ self.entry.transaction.ghost_name }
    {
        let TransactionReader {
            reader,
            transaction,
            short: _,
        } = self;
        (reader.into_core(), transaction)
    }

    // The value of a key of a keyspace, which it marks.
    pub(crate) fn read_key(&mut self, id: u64, key: &[u8]) -> Result<Option<UserValue>>
        ensures ok { (map : Pairs) → Sees D.honest self.old.reader.core.now self.old.reader.view self.old.transaction.now.own id map → IfOk result (λ found. found ≡ lookup map key.now) }
        ensures same { (i : ℕ) (map : Pairs) → Sees D.honest self.old.reader.core.now self.old.reader.view self.old.transaction.now.own i map
            → Sees D.honest self.new.reader.core.now self.new.reader.view self.new.transaction.now.own i map }
        ensures reads { ReadsWithin D.honest self.old.reader.core self.old.reader.view self.old.transaction id (result_err result) self.new.reader.core self.new.reader.view self.new.transaction }
        ensures marked { OnOk result (self.new.transaction.now ≡ having_read self.old.transaction.now (OfKey id key.now)) }
        ensures unmarked { OnErr result (self.new.transaction.now ≡ self.old.transaction.now) }
        ensures due { OnOk result (read_due self.old.reader.core.now self.old.reader.view id ≡ None) }
        ensures cause { IfErr result (IsRefusedFor self.old.reader.core.now self.old.reader.view id self.new.reader.core.now) }
        // What was seen with whichever own writes is seen with them still.
        ensures shown { (own : Own) (i : ℕ) (map : Pairs) → Sees D.honest self.old.reader.core.now self.old.reader.view own i map
            → Sees D.honest self.new.reader.core.now self.new.reader.view own i map }
    {
        let found = self.reader.get(&id, key)?;
        let name = Slice::new(self.reader.alloc(), key)?;
        let seen = self.transaction.own().seen(id, name, found)?;
        self.transaction.mark_read(id, key)?;
        Ok(seen)
    }

    // The first pair of a keyspace, which it marks.
    fn read_first(&mut self, id: u64) -> Result<Option<KvPair>>
        ensures ok { (map : Pairs) → Sees D.honest self.old.reader.core.now self.old.reader.view self.old.transaction.now.own id map → IfOk result (λ found. found ≡ first_of (all_of map)) }
        ensures same { (i : ℕ) (map : Pairs) → Sees D.honest self.old.reader.core.now self.old.reader.view self.old.transaction.now.own i map
            → Sees D.honest self.new.reader.core.now self.new.reader.view self.new.transaction.now.own i map }
        ensures reads { ReadsWithin D.honest self.old.reader.core self.old.reader.view self.old.transaction id (result_err result) self.new.reader.core self.new.reader.view self.new.transaction }
        ensures marked { OnOk result (self.new.transaction.now ≡ having_read self.old.transaction.now (whole_of id)) }
        ensures unmarked { OnErr result (self.new.transaction.now ≡ self.old.transaction.now) }
        ensures due { OnOk result (read_due self.old.reader.core.now self.old.reader.view id ≡ None) }
        ensures cause { IfErr result (IsRefusedFor self.old.reader.core.now self.old.reader.view id self.new.reader.core.now) }
    {
        let found = laid_first(&mut self.reader, self.transaction.own(), id)?;
        self.transaction
            .mark_range(id, (Bound::Unbounded, Bound::Unbounded))?;
        Ok(found)
    }

    // The last pair of a keyspace, which it marks.
    fn read_last(&mut self, id: u64) -> Result<Option<KvPair>>
        ensures ok { (map : Pairs) → Sees D.honest self.old.reader.core.now self.old.reader.view self.old.transaction.now.own id map → IfOk result (λ found. found ≡ last_of (all_of map)) }
        ensures same { (i : ℕ) (map : Pairs) → Sees D.honest self.old.reader.core.now self.old.reader.view self.old.transaction.now.own i map
            → Sees D.honest self.new.reader.core.now self.new.reader.view self.new.transaction.now.own i map }
        ensures reads { ReadsWithin D.honest self.old.reader.core self.old.reader.view self.old.transaction id (result_err result) self.new.reader.core self.new.reader.view self.new.transaction }
        ensures marked { OnOk result (self.new.transaction.now ≡ having_read self.old.transaction.now (whole_of id)) }
        ensures unmarked { OnErr result (self.new.transaction.now ≡ self.old.transaction.now) }
        ensures due { OnOk result (read_due self.old.reader.core.now self.old.reader.view id ≡ None) }
        ensures cause { IfErr result (IsRefusedFor self.old.reader.core.now self.old.reader.view id self.new.reader.core.now) }
    {
        let found = laid_last(&mut self.reader, self.transaction.own(), id)?;
        self.transaction
            .mark_range(id, (Bound::Unbounded, Bound::Unbounded))?;
        Ok(found)
    }

    // How many pairs a keyspace has. Want of memory is told where nothing else refuses the read.
    fn count_pairs(&mut self, id: u64) -> Result<usize>
        ensures ok { (map : Pairs) → Sees D.honest self.old.reader.core.now self.old.reader.view self.old.transaction.now.own id map → IfOk result (λ count. count ≡ count_of map) }
        ensures same { (i : ℕ) (map : Pairs) → Sees D.honest self.old.reader.core.now self.old.reader.view self.old.transaction.now.own i map
            → Sees D.honest self.new.reader.core.now self.new.reader.view self.new.transaction.now.own i map }
        ensures reads { ReadsWithin D.honest self.old.reader.core self.old.reader.view self.old.transaction id (result_err result) self.new.reader.core self.new.reader.view self.new.transaction }
        ensures unmarked { self.new.transaction.now ≡ self.old.transaction.now }
        ensures due { OnOk result (read_due self.old.reader.core.now self.old.reader.view id ≡ None) }
        ensures cause { IfErr result (IsRefusedFor self.old.reader.core.now self.old.reader.view id self.new.reader.core.now) }
    {
        // The iterator whose mark found no memory is gone.
        self.short = false;
        self.page(id, &(Bound::Unbounded, Bound::Unbounded), false, 0)?;
        pair_count(self, id)
    }

    // How many pairs a keyspace has, which it marks.
    fn read_count(&mut self, id: u64) -> Result<usize>
        ensures ok { (map : Pairs) → Sees D.honest self.old.reader.core.now self.old.reader.view self.old.transaction.now.own id map → IfOk result (λ count. count ≡ count_of map) }
        ensures same { (i : ℕ) (map : Pairs) → Sees D.honest self.old.reader.core.now self.old.reader.view self.old.transaction.now.own i map
            → Sees D.honest self.new.reader.core.now self.new.reader.view self.new.transaction.now.own i map }
        ensures reads { ReadsWithin D.honest self.old.reader.core self.old.reader.view self.old.transaction id (result_err result) self.new.reader.core self.new.reader.view self.new.transaction }
        ensures marked { OnOk result (self.new.transaction.now ≡ having_read self.old.transaction.now (whole_of id)) }
        ensures unmarked { OnErr result (self.new.transaction.now ≡ self.old.transaction.now) }
        ensures due { OnOk result (read_due self.old.reader.core.now self.old.reader.view id ≡ None) }
        ensures cause { IfErr result (IsRefusedFor self.old.reader.core.now self.old.reader.view id self.new.reader.core.now) }
    {
        let found = self.count_pairs(id)?;
        self.transaction
            .mark_range(id, (Bound::Unbounded, Bound::Unbounded))?;
        Ok(found)
    }

    // Marks a keyspace, or takes note that memory is used up.
    fn mark_whole(&mut self, id: u64)
        ensures marked { IsMarkedOrShort self.old.transaction.now (whole_of id) self.new.transaction.now self.new.short }
        ensures reader { self.new.reader ≡ self.old.reader }
        ensures same_transaction { self.new.transaction.ghost_name ≡ self.old.transaction.ghost_name }
    {
        let marked = self
            .transaction
            .mark_range(id, (Bound::Unbounded, Bound::Unbounded));
        if marked.is_err() {
            self.short = true;
        }
    }

    // Marks a range of a keyspace, where there is one.
    fn mark_between(&mut self, id: u64, range: Result<KeyRange>) -> Result<KeyRange>
        ensures ok { IfOk result (λ found. range ≡ Ok found) }
        ensures marked { IfOk result (λ found. self.new.transaction.now ≡ having_read self.old.transaction.now (OfRange id found.0 found.1)) }
        ensures unmarked { OnErr result (self.new.transaction.now ≡ self.old.transaction.now) }
        ensures reader { self.new.reader ≡ self.old.reader }
        ensures same_transaction { self.new.transaction.ghost_name ≡ self.old.transaction.ghost_name }
    {
        let range = range?;
        self.transaction.mark_range(id, bounds_of(&range))?;
        Ok(range)
    }
}

impl<'a, D: Disk> Pages for TransactionReader<'a, D> {
    ghost shows = { λ r id map. Sees D.honest r.reader.core.now r.reader.view r.transaction.now.own id map };

    ghost reads = { λ old id error new. ReadsWithin D.honest old.reader.core old.reader.view old.transaction id error new.reader.core new.reader.view new.transaction };

    ghost paging = { λ old id error new. PagesWithin D.honest old.reader.core old.reader.view old.transaction id error new.reader.core new.reader.view new.transaction };

    fn alloc(&self) -> Global {
        self.reader.alloc()
    }

    fn page(&mut self, id: u64, range: &KeyRange, back: bool, max: usize) -> Result<Vec<KvPair>>
        ensures ok { (map : Pairs) → Sees D.honest self.old.reader.core.now self.old.reader.view self.old.transaction.now.own id map → IfOk result (λ found. found.items ≡ page back max (pairs_between range.now map)) }
        ensures same { (i : ℕ) (map : Pairs) → Sees D.honest self.old.reader.core.now self.old.reader.view self.old.transaction.now.own i map
            → Sees D.honest self.new.reader.core.now self.new.reader.view self.new.transaction.now.own i map }
        ensures paging { PagesWithin D.honest self.old.reader.core self.old.reader.view self.old.transaction id (result_err result) self.new.reader.core self.new.reader.view self.new.transaction }
        // It marks nothing: whoever asks for pages marks what they are of.
        ensures unmarked { self.new.transaction.now ≡ self.old.transaction.now }
        ensures short { self.old.short ≡ true → result ≡ Err OutOfMemory }
        ensures told { self.new.short ≡ false }
        ensures due { OnOk result (read_due self.old.reader.core.now self.old.reader.view id ≡ None) }
        ensures cause { self.old.short ≡ false → IfErr result (IsRefusedFor self.old.reader.core.now self.old.reader.view id self.new.reader.core.now) }
    {
        if mem::take(&mut self.short) {
            return Err(Error::OutOfMemory);
        }
        laid_page(
            &mut self.reader,
            self.transaction.own(),
            id,
            range,
            back,
            max,
        )
    }

    ghost reads_none = { λ r id. within_none D.honest r.reader.core r.reader.view r.transaction id };

    ghost reads_on = { λ old mid new first id error. within_on D.honest old.reader.core mid.reader.core new.reader.core old.reader.view mid.reader.view new.reader.view old.transaction mid.transaction new.transaction first id error };

    ghost reads_short = { λ old new id. within_short D.honest old.reader.core new.reader.core old.reader.view new.reader.view old.transaction new.transaction id };

    ghost paging_none = { λ r id. pages_none D.honest r.reader.core r.reader.view r.transaction id };

    ghost paging_on = { λ old mid new first id error. pages_on D.honest old.reader.core mid.reader.core new.reader.core old.reader.view mid.reader.view new.reader.view old.transaction mid.transaction new.transaction first id error };

    ghost paging_short = { λ old new id. pages_short D.honest old.reader.core new.reader.core old.reader.view new.reader.view old.transaction new.transaction id };

    ghost paging_reads = { λ old new id error. pages_within D.honest old.reader.core new.reader.core old.reader.view new.reader.view old.transaction new.transaction id error };
}

impl<'a, D: Disk> Readable for TransactionReader<'a, D> {
    fn get<K: Identified>(&mut self, keyspace: &K, key: &[u8]) -> Result<Option<UserValue>>
        ensures ok { (map : Pairs) → Sees D.honest self.old.reader.core.now self.old.reader.view self.old.transaction.now.own (K.identity keyspace.now) map → IfOk result (λ found. found ≡ lookup map key.now) }
        ensures same { (i : ℕ) (map : Pairs) → Sees D.honest self.old.reader.core.now self.old.reader.view self.old.transaction.now.own i map
            → Sees D.honest self.new.reader.core.now self.new.reader.view self.new.transaction.now.own i map }
        ensures reads { ReadsWithin D.honest self.old.reader.core self.old.reader.view self.old.transaction (K.identity keyspace.now) (result_err result) self.new.reader.core self.new.reader.view self.new.transaction }
        ensures marked { OnOk result (self.new.transaction.now ≡ having_read self.old.transaction.now (OfKey (K.identity keyspace.now) key.now)) }
        ensures unmarked { OnErr result (self.new.transaction.now ≡ self.old.transaction.now) }
        ensures due { OnOk result (read_due self.old.reader.core.now self.old.reader.view (K.identity keyspace.now) ≡ None) }
        ensures cause { IfErr result (IsRefusedFor self.old.reader.core.now self.old.reader.view (K.identity keyspace.now) self.new.reader.core.now) }
    {
        self.read_key(keyspace.id(), key)
    }

    fn contains_key<K: Identified>(&mut self, keyspace: &K, key: &[u8]) -> Result<bool>
        ensures ok { (map : Pairs) → Sees D.honest self.old.reader.core.now self.old.reader.view self.old.transaction.now.own (K.identity keyspace.now) map → IfOk result (λ found. found ≡ is_some (lookup map key.now)) }
        ensures same { (i : ℕ) (map : Pairs) → Sees D.honest self.old.reader.core.now self.old.reader.view self.old.transaction.now.own i map
            → Sees D.honest self.new.reader.core.now self.new.reader.view self.new.transaction.now.own i map }
        ensures reads { ReadsWithin D.honest self.old.reader.core self.old.reader.view self.old.transaction (K.identity keyspace.now) (result_err result) self.new.reader.core self.new.reader.view self.new.transaction }
        ensures marked { OnOk result (self.new.transaction.now ≡ having_read self.old.transaction.now (OfKey (K.identity keyspace.now) key.now)) }
        ensures unmarked { OnErr result (self.new.transaction.now ≡ self.old.transaction.now) }
        ensures due { OnOk result (read_due self.old.reader.core.now self.old.reader.view (K.identity keyspace.now) ≡ None) }
        ensures cause { IfErr result (IsRefusedFor self.old.reader.core.now self.old.reader.view (K.identity keyspace.now) self.new.reader.core.now) }
    {
        Ok(self.read_key(keyspace.id(), key)?.is_some())
    }

    fn size_of<K: Identified>(&mut self, keyspace: &K, key: &[u8]) -> Result<Option<u32>>
        ensures ok { (map : Pairs) → Sees D.honest self.old.reader.core.now self.old.reader.view self.old.transaction.now.own (K.identity keyspace.now) map → IfOk result (λ found. found ≡ option_map size_of (lookup map key.now)) }
        ensures same { (i : ℕ) (map : Pairs) → Sees D.honest self.old.reader.core.now self.old.reader.view self.old.transaction.now.own i map
            → Sees D.honest self.new.reader.core.now self.new.reader.view self.new.transaction.now.own i map }
        ensures reads { ReadsWithin D.honest self.old.reader.core self.old.reader.view self.old.transaction (K.identity keyspace.now) (result_err result) self.new.reader.core self.new.reader.view self.new.transaction }
        ensures marked { OnOk result (self.new.transaction.now ≡ having_read self.old.transaction.now (OfKey (K.identity keyspace.now) key.now)) }
        ensures unmarked { OnErr result (self.new.transaction.now ≡ self.old.transaction.now) }
        ensures due { OnOk result (read_due self.old.reader.core.now self.old.reader.view (K.identity keyspace.now) ≡ None) }
        ensures cause { IfErr result (IsRefusedFor self.old.reader.core.now self.old.reader.view (K.identity keyspace.now) self.new.reader.core.now) }
    {
        match self.read_key(keyspace.id(), key)? {
            Some(value) => Ok(Some(bytes_in(&value))),
            None => Ok(None),
        }
    }

    fn first_key_value<K: Identified>(&mut self, keyspace: &K) -> Option<Guard>
        ensures found { (map : Pairs) → Sees D.honest self.old.reader.core.now self.old.reader.view self.old.transaction.now.own (K.identity keyspace.now) map → FindsOf (first_of (all_of map)) result }
        ensures same { (i : ℕ) (map : Pairs) → Sees D.honest self.old.reader.core.now self.old.reader.view self.old.transaction.now.own i map
            → Sees D.honest self.new.reader.core.now self.new.reader.view self.new.transaction.now.own i map }
        ensures reads { ReadsWithin D.honest self.old.reader.core self.old.reader.view self.old.transaction (K.identity keyspace.now) (error_in result) self.new.reader.core self.new.reader.view self.new.transaction }
        ensures marked { IfNone (error_in result) (self.new.transaction.now ≡ having_read self.old.transaction.now (whole_of (K.identity keyspace.now))) }
        ensures unmarked { IfSome (error_in result) (λ _. self.new.transaction.now ≡ self.old.transaction.now) }
        ensures due { IfNone (error_in result) (read_due self.old.reader.core.now self.old.reader.view (K.identity keyspace.now) ≡ None) }
        ensures cause { IfSome (error_in result) (IsRefusedFor self.old.reader.core.now self.old.reader.view (K.identity keyspace.now) self.new.reader.core.now) }
    {
        guarded(self.read_first(keyspace.id()))
    }

    fn last_key_value<K: Identified>(&mut self, keyspace: &K) -> Option<Guard>
        ensures found { (map : Pairs) → Sees D.honest self.old.reader.core.now self.old.reader.view self.old.transaction.now.own (K.identity keyspace.now) map → FindsOf (last_of (all_of map)) result }
        ensures same { (i : ℕ) (map : Pairs) → Sees D.honest self.old.reader.core.now self.old.reader.view self.old.transaction.now.own i map
            → Sees D.honest self.new.reader.core.now self.new.reader.view self.new.transaction.now.own i map }
        ensures reads { ReadsWithin D.honest self.old.reader.core self.old.reader.view self.old.transaction (K.identity keyspace.now) (error_in result) self.new.reader.core self.new.reader.view self.new.transaction }
        ensures marked { IfNone (error_in result) (self.new.transaction.now ≡ having_read self.old.transaction.now (whole_of (K.identity keyspace.now))) }
        ensures unmarked { IfSome (error_in result) (λ _. self.new.transaction.now ≡ self.old.transaction.now) }
        ensures due { IfNone (error_in result) (read_due self.old.reader.core.now self.old.reader.view (K.identity keyspace.now) ≡ None) }
        ensures cause { IfSome (error_in result) (IsRefusedFor self.old.reader.core.now self.old.reader.view (K.identity keyspace.now) self.new.reader.core.now) }
    {
        guarded(self.read_last(keyspace.id()))
    }

    fn len<K: Identified>(&mut self, keyspace: &K) -> Result<usize>
        ensures ok { (map : Pairs) → Sees D.honest self.old.reader.core.now self.old.reader.view self.old.transaction.now.own (K.identity keyspace.now) map → IfOk result (λ count. count ≡ count_of map) }
        ensures same { (i : ℕ) (map : Pairs) → Sees D.honest self.old.reader.core.now self.old.reader.view self.old.transaction.now.own i map
            → Sees D.honest self.new.reader.core.now self.new.reader.view self.new.transaction.now.own i map }
        ensures reads { ReadsWithin D.honest self.old.reader.core self.old.reader.view self.old.transaction (K.identity keyspace.now) (result_err result) self.new.reader.core self.new.reader.view self.new.transaction }
        ensures marked { OnOk result (self.new.transaction.now ≡ having_read self.old.transaction.now (whole_of (K.identity keyspace.now))) }
        ensures unmarked { OnErr result (self.new.transaction.now ≡ self.old.transaction.now) }
        ensures due { OnOk result (read_due self.old.reader.core.now self.old.reader.view (K.identity keyspace.now) ≡ None) }
        ensures cause { IfErr result (IsRefusedFor self.old.reader.core.now self.old.reader.view (K.identity keyspace.now) self.new.reader.core.now) }
    {
        self.read_count(keyspace.id())
    }

    fn is_empty<K: Identified>(&mut self, keyspace: &K) -> Result<bool>
        ensures ok { (map : Pairs) → Sees D.honest self.old.reader.core.now self.old.reader.view self.old.transaction.now.own (K.identity keyspace.now) map → IfOk result (λ empty. empty ≡ is_none_of (all_of map)) }
        ensures same { (i : ℕ) (map : Pairs) → Sees D.honest self.old.reader.core.now self.old.reader.view self.old.transaction.now.own i map
            → Sees D.honest self.new.reader.core.now self.new.reader.view self.new.transaction.now.own i map }
        ensures reads { ReadsWithin D.honest self.old.reader.core self.old.reader.view self.old.transaction (K.identity keyspace.now) (result_err result) self.new.reader.core self.new.reader.view self.new.transaction }
        ensures marked { OnOk result (self.new.transaction.now ≡ having_read self.old.transaction.now (whole_of (K.identity keyspace.now))) }
        ensures unmarked { OnErr result (self.new.transaction.now ≡ self.old.transaction.now) }
        ensures due { OnOk result (read_due self.old.reader.core.now self.old.reader.view (K.identity keyspace.now) ≡ None) }
        ensures cause { IfErr result (IsRefusedFor self.old.reader.core.now self.old.reader.view (K.identity keyspace.now) self.new.reader.core.now) }
    {
        Ok(self.read_first(keyspace.id())?.is_none())
    }

    fn iter<K: Identified>(&mut self, keyspace: &K) -> ReadIter<'_, Self>
        ensures left { (map : Pairs) → Sees D.honest self.old.reader.core.now self.old.reader.view self.old.transaction.now.own (K.identity keyspace.now) map
            → (Sees D.honest result.reader.now.reader.core.now result.reader.now.reader.view result.reader.now.transaction.now.own result.cursor.id map) × (left_of map result ≡ all_of map) }
        ensures whole { result.short ≡ false }
        ensures same { (i : ℕ) (map : Pairs) → Sees D.honest self.old.reader.core.now self.old.reader.view self.old.transaction.now.own i map
            → Sees D.honest result.reader.now.reader.core.now result.reader.now.reader.view result.reader.now.transaction.now.own i map }
        ensures reads { ReadsWithin D.honest self.old.reader.core self.old.reader.view self.old.transaction (K.identity keyspace.now) None result.reader.now.reader.core result.reader.now.reader.view result.reader.now.transaction }
        ensures keyspace { result.cursor.id ≡ K.identity keyspace.now }
        ensures same_reader { result.reader.ghost_name ≡ self.entry.ghost_name }
        // Where the mark finds no memory, the first page is refused for it.
        ensures marked { IsMarkedOrShort self.old.transaction.now (whole_of (K.identity keyspace.now)) result.reader.now.transaction.now result.reader.now.short }
    {
        let id = keyspace.id();
        self.mark_whole(id);
        ReadIter::new(self, id, (Bound::Unbounded, Bound::Unbounded))
    }

    fn range<K: Identified>(&mut self, keyspace: &K, range: KeyBounds<'_>) -> ReadIter<'_, Self>
        ensures left { result.short ≡ false → (map : Pairs) → Sees D.honest self.old.reader.core.now self.old.reader.view self.old.transaction.now.own (K.identity keyspace.now) map
            → (Sees D.honest result.reader.now.reader.core.now result.reader.now.reader.view result.reader.now.transaction.now.own result.cursor.id map) × (left_of map result ≡ pairs_between (key_range range.entry) map) }
        ensures same { (i : ℕ) (map : Pairs) → Sees D.honest self.old.reader.core.now self.old.reader.view self.old.transaction.now.own i map
            → Sees D.honest result.reader.now.reader.core.now result.reader.now.reader.view result.reader.now.transaction.now.own i map }
        ensures reads { ReadsWithin D.honest self.old.reader.core self.old.reader.view self.old.transaction (K.identity keyspace.now) None result.reader.now.reader.core result.reader.now.reader.view result.reader.now.transaction }
        ensures keyspace { result.cursor.id ≡ K.identity keyspace.now }
        ensures same_reader { result.reader.ghost_name ≡ self.entry.ghost_name }
        ensures marked { result.short ≡ false → result.reader.now.transaction.now ≡ having_read self.old.transaction.now (OfRange (K.identity keyspace.now) (key_range range.entry).0 (key_range range.entry).1) }
        ensures unmarked { result.short ≡ true → result.reader.now.transaction.now ≡ self.old.transaction.now }
    {
        let id = keyspace.id();
        let range = range_of(self.alloc(), range);
        match self.mark_between(id, range) {
            Ok(range) => ReadIter::new(self, id, range),
            Err(_) => ReadIter::out_of_memory(self, id),
        }
    }

    fn prefix<K: Identified>(&mut self, keyspace: &K, prefix: &[u8]) -> ReadIter<'_, Self>
        ensures left { result.short ≡ false → (map : Pairs) → Sees D.honest self.old.reader.core.now self.old.reader.view self.old.transaction.now.own (K.identity keyspace.now) map
            → (Sees D.honest result.reader.now.reader.core.now result.reader.now.reader.view result.reader.now.transaction.now.own result.cursor.id map) × (left_of map result ≡ pairs_between (prefix_range prefix.now) map) }
        ensures same { (i : ℕ) (map : Pairs) → Sees D.honest self.old.reader.core.now self.old.reader.view self.old.transaction.now.own i map
            → Sees D.honest result.reader.now.reader.core.now result.reader.now.reader.view result.reader.now.transaction.now.own i map }
        ensures reads { ReadsWithin D.honest self.old.reader.core self.old.reader.view self.old.transaction (K.identity keyspace.now) None result.reader.now.reader.core result.reader.now.reader.view result.reader.now.transaction }
        ensures keyspace { result.cursor.id ≡ K.identity keyspace.now }
        ensures same_reader { result.reader.ghost_name ≡ self.entry.ghost_name }
        ensures marked { result.short ≡ false → result.reader.now.transaction.now ≡ having_read self.old.transaction.now (OfRange (K.identity keyspace.now) (prefix_range prefix.now).0 (prefix_range prefix.now).1) }
        ensures unmarked { result.short ≡ true → result.reader.now.transaction.now ≡ self.old.transaction.now }
    {
        let id = keyspace.id();
        let range = prefix_to_range(self.alloc(), prefix);
        match self.mark_between(id, range) {
            Ok(range) => ReadIter::new(self, id, range),
            Err(_) => ReadIter::out_of_memory(self, id),
        }
    }
}
