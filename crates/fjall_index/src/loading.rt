//! Many pairs in one transaction.

ghost use Rattle.std.specs.Prelude.{◌≡◌, ◌≢◌, ℕ, List, [], IsTrue, OnErr, OnOk};
ghost use Rattle.fjall_base.specs.Store.{Item, map_at};
ghost use Rattle.fjall_machine.specs.Machine.{present};
ghost use Rattle.fjall_core.specs.Durables.{Durable};
ghost use Rattle.fjall_core.specs.Standing.{CoreState};
ghost use Rattle.fjall_index.specs.Loading.{KeepsPairs, loaded};
ghost use Rattle.fjall_index.specs.Standing.{GoesOnIndexed, StandsIndexed};

use crate::indexed::Indexed;
use crate::indexed_tx::IndexedTx;
use fjall_base::{Disk, Error, KvPair};
use fjall_core::{CommitOutcome, Core};
use fjall_index_entries::{Extract, IndexError, Result};

impl<E: Extract> Indexed<E> {
    // Gives each of these keys its value within a transaction, one pair after another.
    fn put_all<D: Disk>(
        &self,
        core: &mut Core<D>,
        tx: &mut IndexedTx,
        pairs: Vec<KvPair>,
    ) -> Result<()>
        ensures keeps { IsTrue D.honest → KeepsPairs (E.field_of self.now.extract) self.now.main self.now.index pairs.items tx.old result tx.new
            core.old.engine core.old.transactions core.new.engine core.new.transactions }
    {
        for (key, value) in pairs {
            self.put_in(core, tx, key, value)?;
        }
        Ok(())
    }

    /// Gives each of these keys its value, all in one transaction; where one key comes several times, its last value counts.
    ///
    /// Refusals, after which nothing is written: those of [`begin`](Indexed::begin), of [`put_in`](Indexed::put_in) and of
    /// [`commit`](Indexed::commit), a conflict as `TransactionOpen`. It has the pairs and all that they write in memory.
    pub fn load<D: Disk>(&self, core: &mut Core<D>, pairs: Vec<KvPair>) -> Result<()>
        ensures keeps { IsTrue D.honest → (since : ℕ) (t : CoreState) (d : Durable)
            → StandsIndexed (E.field_of self.now.extract) self.now.main self.now.index since core.old.engine core.old.transactions t d
            → (next : CoreState) × (e : Durable) × (items : List Item)
            × GoesOnIndexed (E.field_of self.now.extract) self.now.main self.now.index since items t d next e core.new.engine core.new.transactions
            × OnErr result (items ≡ [])
            × OnOk result (map_at (present next.state).maps self.now.main ≡ loaded pairs.items (map_at (present t.state).maps self.now.main))
            × OnOk result ((id : ℕ) → id ≢ self.now.main → id ≢ self.now.index → map_at (present next.state).maps id ≡ map_at (present t.state).maps id) }
    {
        let mut tx = self.begin(core)?;
        if let Err(error) = self.put_all(core, &mut tx, pairs) {
            self.rollback(core, tx)?;
            return Err(error);
        }
        match self.commit(core, tx) {
            CommitOutcome::Ok => Ok(()),
            CommitOutcome::Conflicted => Err(IndexError::Engine(Error::TransactionOpen)),
            CommitOutcome::Aborted(error) => Err(error),
        }
    }
}
