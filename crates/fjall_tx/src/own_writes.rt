//! What a transaction wrote itself.

ghost use Rattle.std.specs.Prelude.{◌≡◌, ◌↔◌, ◌+◌, ◌<◌, ◌^◌, ℕ, Bool, Option, Some, None, IfOk, IfSome, IsOkUnless, IsSome, IsTrue, MatchOption, OnErr, OnOk, Err, false, [], ◌≤◌, length, map, vec_capacity};
ghost use Rattle.std.specs.Option.{option_copied};
ghost use Rattle.std.specs.FinMap as fin;
ghost use Rattle.std.specs.FinMap.{FinMap, empty, entries};
ghost use Rattle.std.specs.Ordering.{nat_cmp};
ghost use Rattle.std.specs.BTreeMap.{IsOrdered};
ghost use Rattle.std.specs.BTreeMap.Range.{entries_between};
ghost use Rattle.std.specs.VecDeque.{deque_capacity, deque_len};
ghost use Rattle.std.specs.declared.ops.Bound.TheVariants.{Unbounded};
ghost use Rattle.fjall_base.specs.Limits.{item_refusal};
ghost use Rattle.fjall_base.specs.Pairs.{Pairs, lookup, page, pairs_between};
ghost use Rattle.fjall_base.specs.Store.{map_at};
ghost use Rattle.fjall_base.specs.declared.error.Error.TheVariants.{OutOfMemory};
ghost use Rattle.fjall_journal.specs.Ops.{bytes_in, items_refusal, some_key_empty, some_key_too_long, some_value_too_long, value_in};
ghost use Rattle.fjall_tx.specs.Owns.{CanTakeBack, IsWritable, item_of, items_of, key_of, key_order, own_written, put_back, removals, start_at, taken_back, wanted, with_writes};

use crate::key::{Key, start_of};
use crate::pairs::{cut, pop_up_to};
use fjall_base::{KvPair, Result, UserKey, UserValue, check_item};
use fjall_journal::{BatchItem, Op, check_items};
use fjall_reading::KeyRange;
use std::alloc::Global;
use std::collections::btree_map::Range;
use std::collections::{BTreeMap, VecDeque};
use std::marker::Model;
use std::ops::Bound;

/// What a transaction wrote itself: keys of keyspaces, each with what was last written there. It keeps room for as many items
/// of a batch, so that turning it into them takes no memory.
#[derive(Debug, Drop)]
pub struct OwnWrites {
    writes: BTreeMap<Key, Op>,
    room: Vec<BatchItem>,
}

impl Model for OwnWrites {
    ghost use Rattle.std.specs.Prelude.{◌≡◌, ◌≤◌, [], length, vec_capacity};
    ghost use Rattle.std.specs.FinMap.{from_entries};
    ghost use Rattle.std.specs.List.{AllByRecursion};
    ghost use Rattle.fjall_tx.specs.Owns.{IsWritable, Own, own_code};

    ghost Value = { Own };

    ghost coded = { own_code };

    ghost view = { λ o. from_entries o.writes.entries };

    ghost invariant = { λ o. (o.room.items ≡ []) × (length o.writes.entries ≤ vec_capacity o.room) × AllByRecursion IsWritable o.writes.entries };
}

// A key, and what was written there before a write that may be taken back.
type Earlier = (Key, Option<Op>);

// The value that a key has after a write, where it has one.
fn value_of(op: &Op) -> Result<Option<UserValue>>
    ensures ok { IfOk result (λ value. value ≡ value_in op.now) }
    ensures only { IsOkUnless result OutOfMemory }
{
    match op {
        Op::Put(value) => Ok(Some(value.clone()?)),
        Op::Remove | Op::RemoveWeak => Ok(None),
    }
}

// Own writes as items, in a list that has room for them. It takes no memory.
fn put_in_room(writes: BTreeMap<Key, Op>, mut room: Vec<BatchItem>) -> Vec<BatchItem>
    requires empty { room.items ≡ [] }
    requires room { length writes.entries ≤ vec_capacity room }
    ensures items { result.items ≡ map item_of writes.entries }
    ensures ordered { IsOrdered key_order writes }
{
    for (place, op) in writes {
        let Key { keyspace_id, key } = place;
        room.push((keyspace_id, key, op)).unwrap();
    }
    room
}

impl OwnWrites {
    /// No own writes. It takes no memory.
    pub fn new(alloc: Global) -> OwnWrites
        ensures { result ≡ empty }
    {
        OwnWrites {
            writes: BTreeMap::new(alloc),
            room: Vec::new(alloc),
        }
    }

    // Writes a key that nothing refuses, and answers what was written there before.
    fn exchange(&mut self, place: Key, op: Op) -> Result<Option<Op>>
        requires fits { IsWritable (place, op) }
        ensures ok { OnOk result (self.new ≡ fin.insert self.old place op) }
        ensures before { IfOk result (λ before. before ≡ fin.get self.old place) }
        ensures writable { IfOk result (λ before. IfSome before (λ op. IsWritable (place, op))) }
        ensures unchanged { OnErr result (self.new ≡ self.old) }
        ensures only { IsOkUnless result OutOfMemory }
    {
        self.room.reserve(self.writes.len() + 1)?;
        Ok(self.writes.insert(place, op)?)
    }

    /// Writes a key of a keyspace; what was written there before counts no more.
    ///
    /// Refusals, after which all is as before: `KeyEmpty`, `KeyTooLong` above 65,535 bytes, `ValueTooLong` above
    /// 4,294,967,295, `OutOfMemory`.
    pub fn write(&mut self, id: u64, key: UserKey, op: Op) -> Result<()>
        ensures ok { OnOk result (self.new ≡ fin.insert self.old (key_of id key) op) }
        ensures unchanged { OnErr result (self.new ≡ self.old) }
        ensures refused { MatchOption (item_refusal key (bytes_in op)) (IsOkUnless result OutOfMemory) (λ e. result ≡ Err e) }
    {
        check_item(key.as_slice(), op.bytes())?;
        let place = Key {
            keyspace_id: id,
            key,
        };
        self.exchange(place, op)?;
        Ok(())
    }

    // Writes an item that nothing refuses, and puts what its key had before in front of others, for which there is room.
    fn write_noting(&mut self, item: BatchItem, earlier: &mut VecDeque<Earlier>) -> Result<()>
        requires fits { IsWritable (key_of item.0 item.1, item.2) }
        requires room { deque_len earlier.old < deque_capacity earlier.old }
        requires can { CanTakeBack self.old earlier.old.items }
        ensures ok { OnOk result (self.new ≡ fin.insert self.old (key_of item.0 item.1) item.2) }
        ensures can { CanTakeBack self.new earlier.new.items }
        ensures back { taken_back self.new earlier.new.items ≡ taken_back self.old earlier.old.items }
        ensures capacity { deque_capacity earlier.new ≡ deque_capacity earlier.old }
        ensures len { deque_len earlier.new ≤ deque_len earlier.old + 1 }
        ensures only { IsOkUnless result OutOfMemory }
    {
        let (keyspace_id, key, op) = item;
        let noted = Key {
            keyspace_id,
            key: key.clone()?,
        };
        let before = self.exchange(Key { keyspace_id, key }, op)?;
        earlier.push_front_reserved((noted, before));
        Ok(())
    }

    // Writes a key again that is there, which takes no memory, and answers what it had.
    fn write_again(&mut self, place: Key, op: Op) -> Option<Op>
        requires there { IsSome (fin.get self.old place) }
        requires writable { IsWritable (place, op) }
        ensures { self.new ≡ fin.insert self.old place op }
    {
        let Ok(had) = self.writes.insert(place, op) else {
            unreachable!()
        };
        had
    }

    // Takes a key and what was written there away, and answers that.
    fn forget(&mut self, place: &Key) -> Option<Op>
        ensures { self.new ≡ fin.remove self.old place.now }
    {
        self.writes.remove(place)
    }

    // Gives a key back what it had before it was written.
    fn put_back(&mut self, place: Key, before: Option<Op>)
        requires there { IsSome (fin.get self.old place) }
        requires writable { IfSome before (λ op. IsWritable (place, op)) }
        ensures { self.new ≡ put_back self.old (place, before) }
    {
        let _last = match before {
            Some(op) => self.write_again(place, op),
            None => self.forget(&place),
        };
    }

    // Takes the last writes back, of which this is what their keys had before.
    fn take_back(&mut self, mut earlier: VecDeque<Earlier>)
        requires can { CanTakeBack self.old earlier.items }
        ensures { self.new ≡ taken_back self.old earlier.items }
    {
        while let Some((place, before)) = earlier.pop_front() {
            self.put_back(place, before);
        }
    }

    /// Writes these items, one behind another, all of them or none: where one key has several the last one counts.
    ///
    /// Refusals, after which all is as before, each looked for in all items before the next: `KeyEmpty`, `KeyTooLong` above 65,535
    /// bytes, `ValueTooLong` above 4,294,967,295; `TooManyItems`, above 4,294,967,295; `OutOfMemory`.
    pub fn write_all(&mut self, items: Vec<BatchItem>) -> Result<()>
        ensures ok { OnOk result (self.new ≡ with_writes self.old items.items) }
        ensures unchanged { OnErr result (self.new ≡ self.old) }
        ensures refused { MatchOption (items_refusal items.items) (IsOkUnless result OutOfMemory) (λ e. result ≡ Err e) }
    {
        check_items(&items)?;
        let mut earlier = VecDeque::with_capacity(*items.allocator(), items.len())?;
        let mut rest = VecDeque::from_vec(items);
        while let Some(item) = rest.pop_front() {
            if let Err(error) = self.write_noting(item, &mut earlier) {
                self.take_back(earlier);
                return Err(error);
            }
        }
        Ok(())
    }

    /// How many keys were written. They fit into one list.
    pub fn len(&self) -> usize
        ensures len { result ≡ fin.len self.now }
        ensures few { length (items_of self.now) < 2 ^ 63 }
    {
        self.writes.len()
    }

    /// Whether nothing was written.
    pub fn is_empty(&self) -> bool
        ensures { IsTrue result ↔ (self.now ≡ empty) }
    {
        self.writes.is_empty()
    }

    /// What was last written of a key of a keyspace, where something was.
    pub fn get(&self, id: u64, key: UserKey) -> Option<&Op>
        ensures { option_copied result ≡ fin.get self.now (key_of id key) }
    {
        let place = Key {
            keyspace_id: id,
            key,
        };
        self.writes.get(&place)
    }

    /// What the transaction sees at a key of a keyspace, where `found` is what the view has there. It is refused for want of
    /// memory alone.
    pub fn seen(&self, id: u64, key: UserKey, found: Option<UserValue>) -> Result<Option<UserValue>>
        ensures ok { (maps : FinMap nat_cmp Pairs) → found ≡ lookup (map_at maps id) key
            → IfOk result (λ seen. seen ≡ lookup (map_at (own_written maps self.now) id) key) }
        ensures only { IsOkUnless result OutOfMemory }
    {
        match self.get(id, key) {
            Some(op) => value_of(op),
            None => Ok(found),
        }
    }

    // The own writes from where a range of a keyspace begins on, with those of the keyspaces behind it.
    fn writes_from(&self, id: u64, start: &Bound<UserKey>) -> Result<Range<'_, Key, Op>>
        ensures ok { IfOk result (λ rest. rest ≡ entries_between key_order (start_at id start.now) Unbounded (entries self.now)) }
        ensures few { IfOk result (λ rest. length rest < 2 ^ 63) }
        ensures only { IsOkUnless result OutOfMemory }
    {
        let start = start_of(id, start)?;
        Ok(self.writes.range((start, Bound::Unbounded)))
    }

    /// How many keys of a keyspace between the bounds own writes took away; between reversed bounds none. It is refused for want
    /// of memory alone.
    pub fn removals(&self, id: u64, range: &KeyRange) -> Result<usize>
        ensures ok { IfOk result (λ count. count ≡ removals self.now id range.now) }
        ensures only { IsOkUnless result OutOfMemory }
    {
        let mut count = 0;
        for (key, op) in self.writes_from(id, &range.0)? {
            if !key.is_up_to(id, &range.1) {
                break;
            }
            match op {
                Op::Put(_) => {}
                Op::Remove | Op::RemoveWeak => count += 1,
            }
        }
        Ok(count)
    }

    /// How many pairs of the view between the bounds [`lay_over`](Self::lay_over) needs for a page of at most `max`: one more for
    /// each key that own writes took away. It is refused for want of memory alone.
    pub fn wanted(&self, id: u64, range: &KeyRange, max: usize) -> Result<usize>
        ensures ok { IfOk result (λ count. count ≡ wanted self.now id range.now max) }
        ensures only { IsOkUnless result OutOfMemory }
    {
        Ok(max.saturating_add(self.removals(id, range)?))
    }

    /// The first pairs that the transaction sees between the bounds or, where `back` holds, the last ones; at most `max`, in the
    /// order of their keys in both cases. `found` are those that the view has there, as many as are [`wanted`](Self::wanted), from
    /// the same end. It is refused for want of memory alone.
    pub fn lay_over(
        &self,
        id: u64,
        range: &KeyRange,
        back: bool,
        max: usize,
        found: Vec<KvPair>,
    ) -> Result<Vec<KvPair>>
        ensures ok { (maps : FinMap nat_cmp Pairs) → found.items ≡ page back (wanted self.now id range.now max) (pairs_between range.now (map_at maps id))
            → IfOk result (λ seen. seen.items ≡ page back max (pairs_between range.now (map_at (own_written maps self.now) id))) }
        ensures only { IsOkUnless result OutOfMemory }
    {
        let mut seen = Vec::new(*found.allocator());
        let mut found = VecDeque::from_vec(found);
        for (key, op) in self.writes_from(id, &range.0)? {
            if !key.is_up_to(id, &range.1) {
                break;
            }
            while let Some(pair) = pop_up_to(&mut found, &key.key) {
                if pair.0 < key.key {
                    seen.push(pair)?;
                }
            }
            if let Some(value) = value_of(op)? {
                seen.push((key.key.clone()?, value))?;
            }
        }
        while let Some(pair) = found.pop_front() {
            seen.push(pair)?;
        }
        cut(&mut seen, back, max);
        Ok(seen)
    }

    /// All of it as the items of a batch, by keyspace and by key. It takes no memory.
    pub fn into_items(self) -> Vec<BatchItem>
        ensures items { result.items ≡ items_of self }
        // No batch refuses them for a key or a value.
        ensures no_key_empty { some_key_empty result.items ≡ false }
        ensures no_key_too_long { some_key_too_long result.items ≡ false }
        ensures no_value_too_long { some_value_too_long result.items ≡ false }
    {
        let OwnWrites { writes, room } = self;
        put_in_room(writes, room)
    }
}
