//! Pairs by their field, and whether the index keyspace has the index of the main one.

ghost use Rattle.std.specs.Prelude.{Err, IfOk, OnOk, ◌≡◌};
ghost use Rattle.std.specs.Result.{result_err};
ghost use Rattle.fjall_base.specs.Pairs.{Pairs};
ghost use Rattle.fjall_index_entries.specs.Index.{found_in, index_of};
ghost use Rattle.fjall_index_entries.specs.declared.error.IndexError.TheVariants.{IndexStale, SameKeyspace};

use crate::indexed::IndexedKeyspace;
use fjall_handles::{Disk, KvPair, Readable};
use fjall_index_entries::{Extract, IndexError, Result, find_pairs, is_index};
use std::sync::Wait;

impl<E: Extract, D: Disk + Drop> IndexedKeyspace<E, D> {
    /// The pairs that have this field, in the order of their keys, in a snapshot of their own.
    ///
    /// It is refused as a snapshot and reads of the two keyspaces are. It has all that it finds in memory.
    pub fn find<R: Wait>(&self, rt: &R, field: &[u8]) -> Result<Vec<KvPair>> {
        let snapshot = self.database.read_tx(rt)?;
        self.find_in(&mut snapshot.at(rt), field)
    }

    /// The pairs with this field that a reader shows, as one of a snapshot of the database, in the order of their keys.
    ///
    /// It is refused as reads of the two keyspaces are. It has all that it finds in memory.
    pub fn find_in<T: Readable>(&self, reader: &mut T, field: &[u8]) -> Result<Vec<KvPair>>
        ensures found { (map : Pairs) → T.shows reader.old self.now.main map → T.shows reader.old self.now.index (index_of (E.field_of self.now.extract) map)
            → IfOk result (λ found. found.items ≡ found_in (E.field_of self.now.extract) field.now map) }
    {
        Ok(find_pairs(reader, &self.main, &self.index, field)?)
    }

    /// Refuses with `IndexStale` where the index keyspace's map isn't the index of the main one's, in a snapshot of its own. It reads both
    /// whole, page by page.
    ///
    /// Other refusals are those of a snapshot and of reads of the two keyspaces.
    pub fn check<R: Wait>(&self, rt: &R) -> Result<()>
        ensures only { result ≡ Err SameKeyspace → ⊥ }
    {
        let snapshot = self.database.read_tx(rt)?;
        self.check_in(&mut snapshot.at(rt))
    }

    /// Refuses with `IndexStale` where the index keyspace's map that a reader shows isn't the index of the main one's. It reads both whole,
    /// page by page.
    ///
    /// Other refusals are those of reads of the two keyspaces.
    pub fn check_in<T: Readable>(&self, reader: &mut T) -> Result<()>
        ensures indexed { (map found : Pairs) → T.shows reader.old self.now.main map → T.shows reader.old self.now.index found
            → OnOk result (found ≡ index_of (E.field_of self.now.extract) map) }
        ensures stale { (map found : Pairs) → T.shows reader.old self.now.main map → T.shows reader.old self.now.index found
            → result ≡ Err IndexStale → found ≡ index_of (E.field_of self.now.extract) map → ⊥ }
        ensures only { result ≡ Err SameKeyspace → ⊥ }
    {
        if !is_index(reader, &self.extract, self.main, self.index)? {
            return Err(IndexError::IndexStale);
        }
        Ok(())
    }
}
