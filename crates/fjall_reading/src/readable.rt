//! What every reader of keyspaces answers.

ghost use Rattle.std.specs.Prelude.{◌≡◌, ℕ, None, false, length, IfOk, is_some};
ghost use Rattle.std.specs.Option.{option_map};
ghost use Rattle.std.specs.Result.{result_err};
ghost use Rattle.fjall_base.specs.Pairs.{Pairs, key_range, lookup, pairs_between};
ghost use Rattle.fjall_reading.specs.Guards.{size_of};
ghost use Rattle.fjall_reading.specs.Prefixes.{prefix_range};
ghost use Rattle.fjall_reading.specs.ReadIters.{IsShown, left_of};
ghost use Rattle.fjall_reading.specs.Readers.{FindsOf, all_of, count_of, first_of, is_none_of, last_of};
ghost use Rattle.fjall_reading.specs.Rests.{error_in};

use crate::bounds::range_of;
use crate::guard::Guard;
use crate::identified::Identified;
use crate::pages::Pages;
use crate::prefix::prefix_to_range;
use crate::read_iter::ReadIter;
use crate::reads::{first_pair, has_no_pair, last_pair, pair_count};
use crate::size::size_of;
use fjall_base::{KeyBounds, Result, UserValue};
use std::ops::Bound;

/// A reader of keyspaces: a database at its present or at an instant, or a transaction over it. Its calls take `&mut self`,
/// since a transaction takes note of what it reads; what it shows stays as it was, also after an `Err`.
pub trait Readable: Pages {
    /// The value of a key, where it has one.
    fn get<K: Identified>(&mut self, keyspace: &K, key: &[u8]) -> Result<Option<UserValue>>
        ensures ok { (map : Pairs) → Self.shows self.old (K.identity keyspace.now) map → IfOk result (λ found. found ≡ lookup map key.now) }
        ensures same { (i : ℕ) (map : Pairs) → Self.shows self.old i map → Self.shows self.new i map }
        ensures reads { Self.reads self.old (K.identity keyspace.now) (result_err result) self.new };

    /// Whether a key has a value.
    fn contains_key<K: Identified>(&mut self, keyspace: &K, key: &[u8]) -> Result<bool>
        ensures ok { (map : Pairs) → Self.shows self.old (K.identity keyspace.now) map → IfOk result (λ found. found ≡ is_some (lookup map key.now)) }
        ensures same { (i : ℕ) (map : Pairs) → Self.shows self.old i map → Self.shows self.new i map }
        ensures reads { Self.reads self.old (K.identity keyspace.now) (result_err result) self.new }
    {
        Ok(self.get(keyspace, key)?.is_some())
    }

    /// How many bytes the value of a key has, where it has one. No keyspace has a value of more than 4,294,967,295 bytes;
    /// any longer one counts as one of these.
    fn size_of<K: Identified>(&mut self, keyspace: &K, key: &[u8]) -> Result<Option<u32>>
        ensures ok { (map : Pairs) → Self.shows self.old (K.identity keyspace.now) map → IfOk result (λ found. found ≡ option_map size_of (lookup map key.now)) }
        ensures same { (i : ℕ) (map : Pairs) → Self.shows self.old i map → Self.shows self.new i map }
        ensures reads { Self.reads self.old (K.identity keyspace.now) (result_err result) self.new }
    {
        match self.get(keyspace, key)? {
            Some(value) => Ok(Some(size_of(&value))),
            None => Ok(None),
        }
    }

    /// The pair with the first key, or the fault that the read met; nothing where the keyspace has no pair.
    fn first_key_value<K: Identified>(&mut self, keyspace: &K) -> Option<Guard>
        ensures found { (map : Pairs) → Self.shows self.old (K.identity keyspace.now) map → FindsOf (first_of (all_of map)) result }
        ensures same { (i : ℕ) (map : Pairs) → Self.shows self.old i map → Self.shows self.new i map }
        ensures reads { Self.reads self.old (K.identity keyspace.now) (error_in result) self.new }
    {
        first_pair(self, keyspace.id())
    }

    /// The pair with the last key, or the fault that the read met; nothing where the keyspace has no pair.
    fn last_key_value<K: Identified>(&mut self, keyspace: &K) -> Option<Guard>
        ensures found { (map : Pairs) → Self.shows self.old (K.identity keyspace.now) map → FindsOf (last_of (all_of map)) result }
        ensures same { (i : ℕ) (map : Pairs) → Self.shows self.old i map → Self.shows self.new i map }
        ensures reads { Self.reads self.old (K.identity keyspace.now) (error_in result) self.new }
    {
        last_pair(self, keyspace.id())
    }

    /// How many pairs the keyspace has. It reads all of them, and has one page of them in memory at a time. More than
    /// `usize::MAX` pairs count as so many.
    fn len<K: Identified>(&mut self, keyspace: &K) -> Result<usize>
        ensures ok { (map : Pairs) → Self.shows self.old (K.identity keyspace.now) map → IfOk result (λ count. count ≡ count_of map) }
        ensures same { (i : ℕ) (map : Pairs) → Self.shows self.old i map → Self.shows self.new i map }
        ensures reads { Self.reads self.old (K.identity keyspace.now) (result_err result) self.new }
    {
        pair_count(self, keyspace.id())
    }

    /// Whether the keyspace has no pair.
    fn is_empty<K: Identified>(&mut self, keyspace: &K) -> Result<bool>
        ensures ok { (map : Pairs) → Self.shows self.old (K.identity keyspace.now) map → IfOk result (λ empty. empty ≡ is_none_of (all_of map)) }
        ensures same { (i : ℕ) (map : Pairs) → Self.shows self.old i map → Self.shows self.new i map }
        ensures reads { Self.reads self.old (K.identity keyspace.now) (result_err result) self.new }
    {
        has_no_pair(self, keyspace.id())
    }

    /// All pairs of the keyspace, in the order of their keys.
    fn iter<K: Identified>(&mut self, keyspace: &K) -> ReadIter<'_, Self>
        ensures left { (map : Pairs) → Self.shows self.old (K.identity keyspace.now) map → IsShown Self.shows result map × (left_of map result ≡ all_of map) }
        // It takes no memory, so that its first call is told of no want of it.
        ensures whole { result.short ≡ false }
        ensures same { (i : ℕ) (map : Pairs) → Self.shows self.old i map → Self.shows result.reader.now i map }
        ensures reads { Self.reads self.old (K.identity keyspace.now) None result.reader.now }
        ensures keyspace { result.cursor.id ≡ K.identity keyspace.now }
        ensures same_reader { result.reader.ghost_name ≡ self.entry.ghost_name }
    {
        ReadIter::new(self, keyspace.id(), (Bound::Unbounded, Bound::Unbounded))
    }

    /// The pairs of the keyspace whose keys lie between the bounds, in the order of their keys. Between reversed bounds lies
    /// none. Where memory is used up, its first call answers that.
    fn range<K: Identified>(&mut self, keyspace: &K, range: KeyBounds<'_>) -> ReadIter<'_, Self>
        ensures left { result.short ≡ false → (map : Pairs) → Self.shows self.old (K.identity keyspace.now) map
            → IsShown Self.shows result map × (left_of map result ≡ pairs_between (key_range range.entry) map) }
        ensures same { (i : ℕ) (map : Pairs) → Self.shows self.old i map → Self.shows result.reader.now i map }
        ensures reads { Self.reads self.old (K.identity keyspace.now) None result.reader.now }
        ensures keyspace { result.cursor.id ≡ K.identity keyspace.now }
        ensures same_reader { result.reader.ghost_name ≡ self.entry.ghost_name }
    {
        match range_of(self.alloc(), range) {
            Ok(range) => ReadIter::new(self, keyspace.id(), range),
            Err(_) => ReadIter::out_of_memory(self, keyspace.id()),
        }
    }

    /// The pairs of the keyspace whose keys begin with the prefix, in the order of their keys. Where memory is used up, its
    /// first call answers that.
    fn prefix<K: Identified>(&mut self, keyspace: &K, prefix: &[u8]) -> ReadIter<'_, Self>
        ensures left { result.short ≡ false → (map : Pairs) → Self.shows self.old (K.identity keyspace.now) map
            → IsShown Self.shows result map × (left_of map result ≡ pairs_between (prefix_range prefix.now) map) }
        ensures same { (i : ℕ) (map : Pairs) → Self.shows self.old i map → Self.shows result.reader.now i map }
        ensures reads { Self.reads self.old (K.identity keyspace.now) None result.reader.now }
        ensures keyspace { result.cursor.id ≡ K.identity keyspace.now }
        ensures same_reader { result.reader.ghost_name ≡ self.entry.ghost_name }
    {
        match prefix_to_range(self.alloc(), prefix) {
            Ok(range) => ReadIter::new(self, keyspace.id(), range),
            Err(_) => ReadIter::out_of_memory(self, keyspace.id()),
        }
    }
}
