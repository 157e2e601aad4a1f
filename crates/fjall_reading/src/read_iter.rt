//! The pairs of a range, read from both ends.

ghost use Rattle.std.specs.Prelude.{◌≡◌, ℕ, None, Some, Err, IfNone, IfSome, true, false};
ghost use Rattle.fjall_base.specs.Pairs.{Pairs, pairs_between};
ghost use Rattle.fjall_base.specs.declared.error.Error.TheVariants.{OutOfMemory};
ghost use Rattle.fjall_reading.specs.Rests.{TakesFirst, TakesLast, error_in};
ghost use Rattle.fjall_reading.specs.ReadIters.{IsDone, IsShown, left_of};

use crate::cursor::Cursor;
use crate::guard::Guard;
use crate::pages::{KeyRange, Pages};
use fjall_base::Error;
use std::mem;

/// What is left of the pairs of a range that a reader shows, in the order of their keys. It reads a page when one is wanted,
/// and has two of them in memory at most.
#[derive(Drop)]
pub struct ReadIter<'a, R> {
    reader: &'a mut R,
    cursor: Cursor,
    // Memory was used up when it was made, which the first call answers.
    short: bool,
}

impl<'a, R: Pages> ReadIter<'a, R> {
    /// The pairs of a keyspace in a range.
    pub fn new(reader: &'a mut R, id: u64, range: KeyRange) -> ReadIter<'a, R>
        ensures left { (map : Pairs) → R.shows reader.old id map → IsShown R.shows result map × (left_of map result ≡ pairs_between range map) }
        ensures short { result.short ≡ false }
        ensures keyspace { result.cursor.id ≡ id }
        ensures reader { result.reader.now ≡ reader.old }
        ensures same_reader { result.reader.ghost_name ≡ reader.entry.ghost_name }
    {
        let cursor = Cursor::new(reader.alloc(), id, range);
        ReadIter {
            reader,
            cursor,
            short: false,
        }
    }

    /// No pair, since memory was used up: the first call answers that.
    pub fn out_of_memory(reader: &'a mut R, id: u64) -> ReadIter<'a, R>
        ensures short { result.short ≡ true }
        ensures keyspace { result.cursor.id ≡ id }
        ensures reader { result.reader.now ≡ reader.old }
        ensures same_reader { result.reader.ghost_name ≡ reader.entry.ghost_name }
    {
        let cursor = Cursor::ended(reader.alloc(), id);
        ReadIter {
            reader,
            cursor,
            short: true,
        }
    }

    /// The first pair that is left, or a fault. After the last pair, and after a fault, there is none.
    pub fn next(&mut self) -> Option<Guard>
        ensures taken { (map : Pairs) → IsShown R.shows self.old map → TakesFirst (left_of map self.old) result (left_of map self.new) }
        ensures short { self.old.short ≡ true → result ≡ Some (Err OutOfMemory) }
        ensures told { self.new.short ≡ false }
        ensures same { (i : ℕ) (map : Pairs) → R.shows self.old.reader.now i map → R.shows self.new.reader.now i map }
        ensures shown { (map : Pairs) → IsShown R.shows self.old map → IsShown R.shows self.new map }
        ensures reads { R.reads self.old.reader.now self.old.cursor.id (error_in result) self.new.reader.now }
        // What it leaves is what pages leave: its reader took note of them when it was made.
        ensures paging { R.paging self.old.reader.now self.old.cursor.id (error_in result) self.new.reader.now }
        ensures same_keyspace { self.new.cursor.id ≡ self.old.cursor.id }
        ensures same_reader { self.new.reader.ghost_name ≡ self.old.reader.ghost_name }
        // Behind the last pair, and behind a fault, both ends give none.
        ensures ends { IfNone result (IsDone self.new) }
        ensures fails { IfSome (error_in result) (λ _. IsDone self.new) }
        ensures done { IsDone self.old → (result ≡ None) × IsDone self.new × (self.new.reader.now ≡ self.old.reader.now) }
    {
        if mem::take(&mut self.short) {
            self.cursor.end();
            return Some(Guard::new(Err(Error::OutOfMemory)));
        }
        match self.cursor.next(self.reader) {
            Some(found) => Some(Guard::new(found)),
            None => None,
        }
    }

    /// The last pair that is left, or a fault. After the first pair, and after a fault, there is none.
    pub fn next_back(&mut self) -> Option<Guard>
        ensures taken { (map : Pairs) → IsShown R.shows self.old map → TakesLast (left_of map self.old) result (left_of map self.new) }
        ensures short { self.old.short ≡ true → result ≡ Some (Err OutOfMemory) }
        ensures told { self.new.short ≡ false }
        ensures same { (i : ℕ) (map : Pairs) → R.shows self.old.reader.now i map → R.shows self.new.reader.now i map }
        ensures shown { (map : Pairs) → IsShown R.shows self.old map → IsShown R.shows self.new map }
        ensures reads { R.reads self.old.reader.now self.old.cursor.id (error_in result) self.new.reader.now }
        // What it leaves is what pages leave: its reader took note of them when it was made.
        ensures paging { R.paging self.old.reader.now self.old.cursor.id (error_in result) self.new.reader.now }
        ensures same_keyspace { self.new.cursor.id ≡ self.old.cursor.id }
        ensures same_reader { self.new.reader.ghost_name ≡ self.old.reader.ghost_name }
        // Behind the last pair, and behind a fault, both ends give none.
        ensures ends { IfNone result (IsDone self.new) }
        ensures fails { IfSome (error_in result) (λ _. IsDone self.new) }
        ensures done { IsDone self.old → (result ≡ None) × IsDone self.new × (self.new.reader.now ≡ self.old.reader.now) }
    {
        if mem::take(&mut self.short) {
            self.cursor.end();
            return Some(Guard::new(Err(Error::OutOfMemory)));
        }
        match self.cursor.next_back(self.reader) {
            Some(found) => Some(Guard::new(found)),
            None => None,
        }
    }

    /// The reader, which is free again. A proof knows what it shows once the iterator was given up so; of one that is dropped
    /// it knows nothing.
    pub fn into_reader(self) -> &'a mut R
        ensures reader { result.now ≡ self.entry.reader.now }
        ensures same_reader { result.ghost_name ≡ self.entry.reader.ghost_name }
    {
        let ReadIter {
            reader,
            cursor: _cursor,
            short: _,
        } = self;
        reader
    }
}
