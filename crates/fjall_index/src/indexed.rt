//! A main keyspace with its index: how it is opened, and checked.

ghost use Rattle.std.specs.FinMap.{get};
ghost use Rattle.std.specs.Prelude.{Err, IfErr, IfOk, IsTrue, Some, ◌≡◌};
ghost use Rattle.fjall_history.specs.declared.ticket.View.TheVariants.{Present};
ghost use Rattle.fjall_core.specs.Leaving.{LeavesStanding};
ghost use Rattle.fjall_index_entries.specs.declared.error.IndexError.TheVariants.{IndexStale, SameKeyspace};
ghost use Rattle.fjall_index.specs.Checking.{TellsIndexed, TellsStale};
ghost use Rattle.fjall_index.specs.Opening.{AreIndexed, AreNamed, AreStale, ArrivesAt, KeepsAny};
ghost use Rattle.fjall_index.specs.Refusing.{IsRefusedForEither, OfEngineOrStale};
ghost use Rattle.fjall_index.specs.Standing.{KeepsIndexed, nothing};

use crate::reading::is_index_in;
use fjall_base::Disk;
use fjall_core::Core;
use fjall_index_entries::{Extract, IndexError, Result};
use fjall_options::KeyspaceCreateOptions;
use std::alloc::Global;

/// A main keyspace, whose pairs are found by a field of theirs: an index keyspace has an entry for each pair that has one.
#[derive(Drop)]
pub struct Indexed<E> {
    pub(crate) alloc: Global,
    pub(crate) main: u64,
    pub(crate) index: u64,
    pub(crate) extract: E,
}

impl<E> Indexed<E> {
    /// The id of the main keyspace.
    pub fn main(&self) -> u64
        ensures { result ≡ self.now.main }
    {
        self.main
    }

    /// The id of the index keyspace.
    pub fn index(&self) -> u64
        ensures { result ≡ self.now.index }
    {
        self.index
    }
}

impl<E: Extract + Drop> Indexed<E> {
    /// Takes two keyspaces that are there as a main keyspace and its index.
    ///
    /// Refusals, after which nothing has changed: `SameKeyspace` where the two are one, `IndexStale` exactly where the second one's map
    /// isn't the index of the first one's, and those of reads of the two.
    pub fn over<D: Disk>(
        alloc: Global,
        core: &mut Core<D>,
        main: u64,
        index: u64,
        extract: E,
    ) -> Result<Indexed<E>>
        ensures made { IfOk result (λ made. (made.main ≡ main) × (made.index ≡ index) × (made.extract ≡ extract)) }
        ensures one { main ≡ index → result ≡ Err SameKeyspace }
        ensures two { result ≡ Err SameKeyspace → main ≡ index }
        ensures indexed { IsTrue D.honest → TellsIndexed (E.field_of extract) main index core.old.engine core.old.transactions result }
        ensures stale { IsTrue D.honest → TellsStale (E.field_of extract) main index core.old.engine core.old.transactions result }
        ensures same { core.new.transactions ≡ core.old.transactions }
        ensures keeps { IsTrue D.honest → KeepsIndexed (E.field_of extract) main index nothing
            core.old.engine core.old.transactions core.new.engine core.new.transactions }
    {
        if main == index {
            return Err(IndexError::SameKeyspace);
        }
        let indexed = Indexed {
            alloc,
            main,
            index,
            extract,
        };
        indexed.check(core)?;
        Ok(indexed)
    }
}

impl<E: Extract> Indexed<E> {
    /// Refuses with `IndexStale` exactly where the index keyspace's map isn't the index of the main one's. It reads both whole, page
    /// by page, and nothing changes.
    ///
    /// Other refusals are those of reads of the two keyspaces.
    pub fn check<D: Disk>(&self, core: &mut Core<D>) -> Result<()>
        ensures indexed { IsTrue D.honest → TellsIndexed (E.field_of self.now.extract) self.now.main self.now.index core.old.engine core.old.transactions result }
        ensures stale { IsTrue D.honest → TellsStale (E.field_of self.now.extract) self.now.main self.now.index core.old.engine core.old.transactions result }
        ensures only { result ≡ Err SameKeyspace → ⊥ }
        ensures stand { LeavesStanding D.honest core.old.engine core.new.engine }
        ensures cause { IfErr result (OfEngineOrStale (IsRefusedForEither core.old.engine Present self.now.main self.now.index core.new.engine)) }
        ensures same { core.new.transactions ≡ core.old.transactions }
        ensures keeps { IsTrue D.honest → KeepsIndexed (E.field_of self.now.extract) self.now.main self.now.index nothing
            core.old.engine core.old.transactions core.new.engine core.new.transactions }
    {
        if !is_index_in(self.alloc, core, &self.extract, self.main, self.index)? {
            return Err(IndexError::IndexStale);
        }
        Ok(())
    }
}

// The id of the keyspace of this name, which is made where none has it.
fn keyspace_of<D: Disk>(alloc: Global, core: &mut Core<D>, name: &[u8]) -> fjall_base::Result<u64>
    ensures arrives { IsTrue D.honest → ArrivesAt core.old.engine core.old.transactions core.new.engine core.new.transactions (λ s. IfOk result (λ id. get s.names id ≡ Some name.now)) }
    ensures keeps { IsTrue D.honest → KeepsAny core.old.engine core.old.transactions core.new.engine core.new.transactions }
{
    let options = KeyspaceCreateOptions::default(alloc)?;
    core.keyspace(name, options)
}

// The ids of the keyspaces of these names, which are made where none has them.
fn both_of<D: Disk>(
    alloc: Global,
    core: &mut Core<D>,
    main: &[u8],
    index: &[u8],
) -> fjall_base::Result<(u64, u64)>
    ensures arrives { IsTrue D.honest → ArrivesAt core.old.engine core.old.transactions core.new.engine core.new.transactions (λ s. IfOk result (λ ids. AreNamed main.now index.now ids s)) }
    ensures keeps { IsTrue D.honest → KeepsAny core.old.engine core.old.transactions core.new.engine core.new.transactions }
{
    let main = keyspace_of(alloc, core, main)?;
    let index = keyspace_of(alloc, core, index)?;
    Ok((main, index))
}

impl<E: Extract + Drop> Indexed<E> {
    /// Opens a main keyspace with its index, by the names of the two keyspaces, and makes what is missing, with the default options.
    ///
    /// Refusals: `SameKeyspace` where the two names are one, and then nothing has changed; those of a creation and of reads of the two
    /// keyspaces; and `IndexStale` exactly where the index keyspace's map isn't the index of the main one's, after which nothing has
    /// changed but keyspaces that were made.
    pub fn open<D: Disk>(
        alloc: Global,
        core: &mut Core<D>,
        main: &[u8],
        index: &[u8],
        extract: E,
    ) -> Result<Indexed<E>>
        ensures one { main.now ≡ index.now → result ≡ Err SameKeyspace }
        ensures two { result ≡ Err SameKeyspace → main.now ≡ index.now }
        ensures indexed { IsTrue D.honest → ArrivesAt core.old.engine core.old.transactions core.new.engine core.new.transactions
            (λ s. IfOk result (λ made. AreIndexed (E.field_of extract) main.now index.now (made.main, made.index) s)) }
        ensures stale { IsTrue D.honest → ArrivesAt core.old.engine core.old.transactions core.new.engine core.new.transactions
            (λ s. result ≡ Err IndexStale → AreStale (E.field_of extract) main.now index.now s) }
        ensures made { IfOk result (λ made. made.extract ≡ extract) }
        ensures keeps { IsTrue D.honest → KeepsAny core.old.engine core.old.transactions core.new.engine core.new.transactions }
    {
        if main == index {
            return Err(IndexError::SameKeyspace);
        }
        let ids = both_of(alloc, core, main, index)?;
        let indexed = Indexed {
            alloc,
            main: ids.0,
            index: ids.1,
            extract,
        };
        indexed.check(core)?;
        Ok(indexed)
    }
}
