//! An index that is made right, whatever stood there.

ghost use Rattle.std.specs.Prelude.{◌≡◌, Err, IfErr, IfOk, IsTrue, OnOk, map};
ghost use Rattle.fjall_base.specs.Pairs.{Pairs};
ghost use Rattle.fjall_journal.specs.Ops.{item_in};
ghost use Rattle.fjall_history.specs.declared.ticket.View.TheVariants.{At};
ghost use Rattle.fjall_core.specs.CoreStanding.{ReadsOn};
ghost use Rattle.fjall_core.specs.Leaving.{LeavesStanding};
ghost use Rattle.fjall_core.specs.Shown.{Shows};
ghost use Rattle.fjall_core.specs.Standing.{StandFor, CoreState};
ghost use Rattle.fjall_index_entries.specs.Repairs.{AreRepairs};
ghost use Rattle.fjall_index_entries.specs.declared.error.IndexError.TheVariants.{SameKeyspace};
ghost use Rattle.fjall_index.specs.Rebuilding.{HasRepaired, Rebuilds};
ghost use Rattle.fjall_index.specs.Refusing.{IsRebuildRefusal, IsRepairReadRefusal, IsRepairRefusal, OfEngineOrSame};
ghost use Rattle.fjall_index.specs.Standing.{KeepsIndexed, nothing};

use crate::changing::end;
use crate::indexed::Indexed;
use fjall_base::{Disk, Result};
use fjall_core::{BatchItem, Core, Engine, Reader, Transaction, View};
use fjall_index_entries::{
    Extract, IndexError, a_right_index_is_left_alone, repairs, repairs_leave_the_others,
};
use fjall_tx::own_writes_grow;
use std::alloc::Global;
use std::ops::Bound;

// What makes the index right of what a core's reader shows. The core stays lent, and what stood over it stands.
fn repairs_by<D: Disk, E: Extract>(
    reader: &mut Reader<'_, D>,
    extract: &E,
    main: u64,
    index: u64,
) -> Result<Vec<BatchItem>>
    ensures ok { (pairs found : Pairs) → Shows D.honest reader.old.core.now reader.old.view main pairs → Shows D.honest reader.old.core.now reader.old.view index found
        → IfOk result (λ items. AreRepairs (E.field_of extract.now) index pairs found (map item_in items.items)) }
    ensures stand { LeavesStanding D.honest reader.old.core.now reader.new.core.now }
    ensures lent { reader.new.core.ghost_name ≡ reader.old.core.ghost_name }
    ensures cause { IfErr result (IsRepairReadRefusal D.honest (E.field_of extract.now) main index reader.old.core.now reader.old.view reader.new.core.now) }
{
    repairs(reader, extract, main, index)
}

// What makes the index right of what an engine shows in a view. What stood over the engine stands.
fn repairs_in<D: Disk, E: Extract>(
    alloc: Global,
    engine: &mut Engine<D>,
    view: View,
    extract: &E,
    main: u64,
    index: u64,
) -> Result<Vec<BatchItem>>
    ensures ok { (pairs found : Pairs) → Shows D.honest engine.old view main pairs → Shows D.honest engine.old view index found
        → IfOk result (λ items. AreRepairs (E.field_of extract.now) index pairs found (map item_in items.items)) }
    ensures stand { LeavesStanding D.honest engine.old engine.new }
    ensures cause { IfErr result (IsRepairReadRefusal D.honest (E.field_of extract.now) main index engine.old view engine.new) }
{
    let mut reader = Reader::new(alloc, engine, view);
    let items = repairs_by(&mut reader, extract, main, index);
    reader.into_core();
    items
}

impl<E: Extract> Indexed<E> {
    // Writes into a transaction what makes the index keyspace's map the index of the main one's, and marks both as read whole.
    fn rebuild_in<D: Disk>(
        &self,
        engine: &mut Engine<D>,
        transaction: &mut Transaction,
    ) -> Result<()>
        ensures repaired { (pairs found : Pairs) → Shows D.honest engine.old (At transaction.old.ticket) self.now.main pairs → Shows D.honest engine.old (At transaction.old.ticket) self.now.index found
            → OnOk result (HasRepaired (E.field_of self.now.extract) self.now.main self.now.index pairs found transaction.old transaction.new) }
        ensures cause { IfErr result (IsRepairRefusal D.honest (E.field_of self.now.extract) self.now.main self.now.index engine.old transaction.old.ticket engine.new) }
        ensures ticket { transaction.new.ticket ≡ transaction.old.ticket }
        ensures stand { LeavesStanding D.honest engine.old engine.new }
    {
        let view = View::At(transaction.ticket());
        let items = repairs_in(
            self.alloc,
            engine,
            view,
            &self.extract,
            self.main,
            self.index,
        )?;
        transaction.mark_range(self.main, (Bound::Unbounded, Bound::Unbounded))?;
        transaction.mark_range(self.index, (Bound::Unbounded, Bound::Unbounded))?;
        transaction.write_all(items)
    }

    /// Makes the index keyspace's map the index of the main one's, whatever stood there, as one transaction. It reads both whole,
    /// page by page, and holds what it writes: the entries that go, and those that come. One that is right stays.
    ///
    /// Refusals, after which nothing is written: `SameKeyspace` exactly where the two keyspaces are one, `KeyTooLong` where an entry
    /// that comes has more than 65,535 bytes, and those of reads of the two keyspaces and of a commit.
    pub fn rebuild<D: Disk>(&self, core: &mut Core<D>) -> fjall_index_entries::Result<()>
        ensures one { self.now.main ≡ self.now.index → result ≡ Err SameKeyspace }
        ensures two { result ≡ Err SameKeyspace → self.now.main ≡ self.now.index }
        ensures rebuilt { IsTrue D.honest → Rebuilds (E.field_of self.now.extract) self.now.main self.now.index core.old.engine core.old.transactions result core.new.engine core.new.transactions }
        ensures keeps { IsTrue D.honest → KeepsIndexed (E.field_of self.now.extract) self.now.main self.now.index nothing
            core.old.engine core.old.transactions core.new.engine core.new.transactions }
        ensures cause { IsTrue D.honest → (t : CoreState) → StandFor core.old.engine core.old.transactions t → ReadsOn core.old.engine t.state
            → IfErr result (OfEngineOrSame (IsRebuildRefusal D.honest (E.field_of self.now.extract) self.now.main self.now.index core.old.engine t)) }
    {
        if self.main == self.index {
            return Err(IndexError::SameKeyspace);
        }
        a_right_index_is_left_alone();
        repairs_leave_the_others();
        own_writes_grow();
        let mut transaction = core.begin_optimistic()?;
        let done = self.rebuild_in(core, &mut transaction);
        end(core, transaction, done)?;
        Ok(())
    }
}

impl<E: Extract + Drop> Indexed<E> {
    /// Takes two keyspaces that are there as a main keyspace and its index, and makes the index right, whatever stood there.
    ///
    /// It is refused as [`rebuild`](Indexed::rebuild) is.
    pub fn rebuilt<D: Disk>(
        alloc: Global,
        core: &mut Core<D>,
        main: u64,
        index: u64,
        extract: E,
    ) -> fjall_index_entries::Result<Indexed<E>>
        ensures made { IfOk result (λ made. (made.main ≡ main) × (made.index ≡ index) × (made.extract ≡ extract)) }
        ensures one { main ≡ index → result ≡ Err SameKeyspace }
        ensures two { result ≡ Err SameKeyspace → main ≡ index }
        ensures rebuilt { IsTrue D.honest → Rebuilds (E.field_of extract) main index core.old.engine core.old.transactions result core.new.engine core.new.transactions }
        ensures keeps { IsTrue D.honest → KeepsIndexed (E.field_of extract) main index nothing
            core.old.engine core.old.transactions core.new.engine core.new.transactions }
        ensures cause { IsTrue D.honest → (t : CoreState) → StandFor core.old.engine core.old.transactions t → ReadsOn core.old.engine t.state
            → IfErr result (OfEngineOrSame (IsRebuildRefusal D.honest (E.field_of extract) main index core.old.engine t)) }
    {
        let indexed = Indexed {
            alloc,
            main,
            index,
            extract,
        };
        indexed.rebuild(core)?;
        Ok(indexed)
    }
}
