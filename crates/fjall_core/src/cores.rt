//! A core: an engine and its transactions, as one value.

ghost use Rattle.std.specs.Prelude.{◌≡◌, ◌≤◌, ℕ, List, Option, IsTrue, IsErrAnd, IfOk, IfErr};
ghost use Rattle.std.specs.Borrow.{Lends, sem};
ghost use Rattle.fjall_base.specs.Crash.{IsHoused};
ghost use Rattle.fjall_base.specs.Disk.{standing, state_in};
ghost use Rattle.fjall_base.specs.declared.error.Error.{Error};
ghost use Rattle.fjall_base.specs.declared.error.JournalRecoveryError.TheVariants.{TornTail};
ghost use Rattle.fjall_base.specs.Store.{Command, Store};
ghost use Rattle.fjall_files.specs.Tidy.{IsTidy, StaysTidy};
ghost use Rattle.fjall_journal.specs.declared.recovery_mode.RecoveryMode.TheVariants.{RefuseTornTail};
ghost use Rattle.fjall_recovery.specs.Amid.{StandsAmid};
ghost use Rattle.fjall_recovery.specs.Folders.{Contents};
ghost use Rattle.fjall_recovery.specs.Held.{IsOpenFolder};
ghost use Rattle.fjall_recovery.specs.Refusals.{AreOne, HasRisen, HasTornTail, IsDue, IsOpeningRefusal, IsTornTail};
ghost use Rattle.fjall_table.specs.Blocks.{Entry};
ghost use Rattle.fjall_machine.specs.Remembered.{AreBeside};
ghost use Rattle.fjall_engine.specs.Openings.{IsDueTo, IsLeftWildly, IsRefusedByName, KeepsStore, StandsWhenOpened, OpensFolder, OpensAs, OpensAfterCrash, OpensBetween, StaysAmid, ForHeld, RefusalBlames, RefusesFolder, Sweeps};
ghost use Rattle.fjall_engine.specs.Standing.{ClosesDisk, ClosesSafely, HoldsStore, OwesClosing, store_with_tables};
ghost use Rattle.fjall_engine.specs.contracts.engine.Engine.{the_row as engine_row};
ghost use Rattle.fjall_core.specs.Transactions.{none_kept};
ghost use Rattle.fjall_core.specs.contracts.cores.Core.{the_row};

use crate::transactions::Transactions;
use fjall_base::{Disk, Refused, Result};
use fjall_engine::{Config, Engine};
use std::alloc::Global;
use std::ops::{Deref, DerefMut};
use std::result;

/// An engine over a disk with its transactions, as one value: the engine's calls are its own, since it acts as its engine, and
/// beside them stand those that begin and end transactions. What these keep is made with it and can't be made again, so that no
/// commit is missed.
pub struct Core<D: Disk> {
    pub(crate) alloc: Global,
    pub(crate) engine: Engine<D>,
    pub(crate) transactions: Transactions,
}

// Written out, so that no crate above proves the drop of what it owns anew.
impl<D: Disk + Drop> Drop for Core<D> {
    fn drop(self) {
        let Core {
            alloc: _,
            engine: _,
            transactions: _,
        } = self;
    }
}

impl<D: Disk> Core<D> {
    /// Opens the engine on a disk, with no transactions, as [`Engine::open`] does: with its refusals, which hand the disk back.
    pub fn open(alloc: Global, config: Config, disk: D) -> result::Result<Core<D>, Refused<D>>
        ensures none { IfOk result (λ core. core.transactions ≡ none_kept) }
        ensures opened { IsTrue D.honest → IfOk result (λ core. OpensFolder (D.meaning disk) core.engine) }
        ensures safe { IsTrue D.honest → (store : Store) → HoldsStore (state_in (D.meaning disk)) store → IfOk result (λ core. OpensAs core.engine store) }
        ensures any_moment { IsTrue D.honest → IfOk result (λ core. KeepsStore (D.meaning disk) core.engine.disk) }
        ensures any_moment_err { IsTrue D.honest → IfErr result (λ refused. KeepsStore (D.meaning disk) (D.meaning refused.value)) }
        ensures swept { IsTrue D.honest → IfOk result (λ core. Sweeps (D.meaning disk) core.engine) }
        // Over any disk at all.
        ensures stands { IfOk result (λ core. (entries : ℕ → List (List Entry)) → AreBeside core.engine.memory entries → (damaged : List ℕ)
            → StandsWhenOpened core.engine (store_with_tables entries core.engine) entries damaged core.engine.memory.next) }
        ensures later { IfOk result (λ core. (D.meaning disk).faults ≤ core.engine.disk.faults) }
        ensures later_err { IfErr result (λ refused. (D.meaning disk).faults ≤ (D.meaning refused.value).faults) }
        ensures risen { IfErr result (λ refused. HasRisen (D.meaning disk).faults (D.meaning refused.value).faults refused.error) }
        ensures due { IsTrue D.honest → IfErr result (λ refused. IsDueTo config.journal_recovery_mode (D.meaning disk) (D.meaning refused.value) refused.error) }
        ensures refuses { IsTrue D.honest → (error : Error) → RefusesFolder config.journal_recovery_mode (D.meaning disk) error
            → IsErrAnd result (λ refused. IsDue (AreOne error) refused.error) }
        ensures torn { IsTrue D.honest → config.journal_recovery_mode ≡ RefuseTornTail → HasTornTail (standing (state_in (D.meaning disk)))
            → IsErrAnd result (λ refused. IsDue (λ error. error ≡ Error.JournalRecovery TornTail) refused.error) }
        ensures opens_or_torn { IsTrue D.honest → (folder : Option Contents) → IsOpenFolder (standing (state_in (D.meaning disk))) folder
            → IfErr result (λ refused. IsDue (IsTornTail config.journal_recovery_mode (HasTornTail (standing (state_in (D.meaning disk))))) refused.error) }
        ensures listed { IfErr result (λ refused. IsOpeningRefusal refused.error) }
        ensures kinds { IsTrue D.honest → IfOk result (λ core. StaysTidy (D.meaning disk) core.engine.disk) }
        ensures kinds_err { IsTrue D.honest → IfErr result (λ refused. StaysTidy (D.meaning disk) (D.meaning refused.value)) }
        ensures served { IsTrue D.honest → IsTidy (state_in (D.meaning disk)) → IfOk result (λ core. core.engine.disk.misuses ≡ (D.meaning disk).misuses) }
        ensures device { IsTrue D.honest → IsTidy (state_in (D.meaning disk))
            → IfErr result (λ refused. RefusalBlames refused.error (D.meaning disk) (D.meaning refused.value)) }
        ensures amid { IsTrue D.honest → ForHeld (D.meaning disk) (λ base pending. IfOk result (λ core. OpensAfterCrash (D.meaning disk) core.engine base pending)) }
        ensures amid_err { IsTrue D.honest → ForHeld (D.meaning disk) (λ base pending.
            IfErr result (λ refused. StaysAmid (D.meaning disk) (D.meaning refused.value) base pending)) }
        ensures any_bytes { IsTrue D.honest → (base : Store) (least all : List Command) → IsLeftWildly (state_in (D.meaning disk)) (StandsAmid base least all)
            → IfOk result (λ core. OpensBetween core.engine base least all) }
        ensures by_name { IsTrue D.honest
            → IfErr result (λ refused. IsDue (IsRefusedByName config.journal_recovery_mode (D.meaning disk) (D.meaning refused.value)) refused.error) }
    {
        match Engine::open(alloc, config, disk) {
            Ok(engine) => Ok(Core {
                alloc,
                engine,
                transactions: Transactions::new(alloc),
            }),
            Err(refused) => Err(refused),
        }
    }

    /// The disk as it stands, without a call of it. What waits in the journal's buffer is lost.
    pub fn into_disk(self) -> D
        ensures disk { D.meaning result ≡ self.engine.disk }
        ensures housed { IsTrue D.honest → IsHoused (state_in self.engine.disk) }
    {
        let Core {
            alloc: _,
            engine,
            transactions,
        } = self;
        drop(transactions);
        engine.into_disk()
    }

    /// Writes the journal out and syncs it, and gives the disk back. A poisoned core writes nothing.
    ///
    /// Refusals: `Poisoned` and `Io`.
    pub fn close(self) -> (D, Result<()>)
        ensures owes { OwesClosing self.engine result.1 (D.meaning result.0) }
        ensures disk { IsTrue D.honest → ClosesDisk self.engine result.1 (D.meaning result.0) }
        ensures crash { IsTrue D.honest → ClosesSafely self.engine result.1 (D.meaning result.0) }
    {
        let Core {
            alloc: _,
            engine,
            transactions,
        } = self;
        drop(transactions);
        engine.close()
    }
}

impl<D: Disk> Deref for Core<D> {
    type Target = Engine<D>;

    ghost deref_gives = { λ core engine. engine ≡ core.engine };

    /// The engine.
    fn deref(&self) -> &Engine<D>
        ensures { result.now ≡ self.now.engine }
    {
        &self.engine
    }
}

impl<D: Disk> DerefMut for Core<D> {
    ghost deref_mut_gives = { λ core engine. engine ≡ core.engine };

    /// The engine, whose calls leave its transactions as they are.
    fn deref_mut(&mut self) -> &mut Engine<D>
        ensures* writes_back { sem 𝓛 (Lends (the_row D.row D.Disk) (engine_row D.row D.Disk) self.entry result (λ engine. record self.old { engine = engine })) }
        ensures value { result.now ≡ self.old.engine }
    {
        &mut self.engine
    }
}
