//! A core that opens on a disk.

ghost use Rattle.std.specs.Prelude.{◌≡◌, ◌≤◌, ℕ, List, Option, IsTrue, IsErrAnd, IfOk, IfErr};
ghost use Rattle.fjall_base.specs.Disk.{standing, state_in};
ghost use Rattle.fjall_base.specs.declared.error.Error.{Error};
ghost use Rattle.fjall_base.specs.declared.error.JournalRecoveryError.TheVariants.{TornTail};
ghost use Rattle.fjall_base.specs.Store.{Command, Store};
ghost use Rattle.fjall_journal.specs.declared.recovery_mode.RecoveryMode.TheVariants.{RefuseTornTail};
ghost use Rattle.fjall_recovery.specs.Amid.{StandsAmid};
ghost use Rattle.fjall_recovery.specs.Folders.{Contents};
ghost use Rattle.fjall_recovery.specs.Held.{IsOpenFolder};
ghost use Rattle.fjall_recovery.specs.Refusals.{AreOne, HasRisen, HasTornTail, IsDue, IsOpeningRefusal, IsTornTail};
ghost use Rattle.fjall_files.specs.Tidy.{IsTidy, StaysTidy};
ghost use Rattle.fjall_engine.specs.Openings.{IsDueTo, IsLeftWildly, IsRefusedByName, KeepsStore, StandsWhenOpened, OpensAs, OpensFolder, OpensAfterCrash, OpensBetween, StaysAmid, ForHeld, RefusalBlames, RefusesFolder, Sweeps};
ghost use Rattle.fjall_engine.specs.Standing.{HoldsStore, store_with_tables};
ghost use Rattle.fjall_table.specs.Blocks.{Entry};
ghost use Rattle.fjall_machine.specs.Remembered.{AreBeside};

use crate::config::Config;
use crate::engine::Engine;
use fjall_base::{Disk, Refused, Result};
use fjall_opening::open_folder;
use fjall_state::EngineState;
use std::alloc::Global;

impl<D: Disk> Engine<D> {
    /// Opens the database on a disk: reads its folder whole, begins a database where none is there or goes on with one
    /// whose making was cut short, cuts what a crash left unfinished, syncs what counts, and removes what nothing names. The
    /// folder of a keyspace that doesn't live is removed only where all that stands in it are files with the engine's own
    /// names, and otherwise left wholly as it stands. No block of a keyspace's table is read: a wrong one is met by the read
    /// that wants it.
    ///
    /// A torn tail of the active journal is cut off, or refused (`JournalRecovery(TornTail)`), as the settings say.
    ///
    /// Refusals hand the disk back: `InvalidVersion`; `JournalRecovery`, `Unrecoverable` and `InvalidTag` for what
    /// stands in journals; `Storage` for what stands in records, tables and options; `OutOfMemory`; `Io`. All is read,
    /// and all memory got, before anything is changed, so that after each but `Io` the disk holds what it held.
    pub fn open(
        alloc: Global,
        config: Config,
        disk: D,
    ) -> std::result::Result<Engine<D>, Refused<D>>
        ensures opened { IsTrue D.honest → IfOk result (OpensFolder (D.meaning disk)) }
        ensures safe { IsTrue D.honest → (store : Store) → HoldsStore (state_in (D.meaning disk)) store → IfOk result (λ core. OpensAs core store) }
        ensures any_moment { IsTrue D.honest → IfOk result (λ core. KeepsStore (D.meaning disk) core.disk) }
        ensures any_moment_err { IsTrue D.honest → IfErr result (λ refused. KeepsStore (D.meaning disk) (D.meaning refused.value)) }
        // Nothing of the engine's own is left that no record names.
        ensures swept { IsTrue D.honest → IfOk result (λ core. Sweeps (D.meaning disk) core) }
        // Over any disk at all it stands for what its trees show, whatever older entries their tables have.
        ensures stands { IfOk result (λ core. (entries : ℕ → List (List Entry)) → AreBeside core.memory entries → (damaged : List ℕ)
            → StandsWhenOpened core (store_with_tables entries core) entries damaged core.memory.next) }
        ensures later { IfOk result (λ core. (D.meaning disk).faults ≤ core.disk.faults) }
        ensures later_err { IfErr result (λ refused. (D.meaning disk).faults ≤ (D.meaning refused.value).faults) }
        ensures risen { IfErr result (λ refused. HasRisen (D.meaning disk).faults (D.meaning refused.value).faults refused.error) }
        ensures due { IsTrue D.honest → IfErr result (λ refused. IsDueTo config.journal_recovery_mode (D.meaning disk) (D.meaning refused.value) refused.error) }
        // Where the folder is refused in this mode, this is refused with that error, unless memory runs out or the disk fails.
        ensures refuses { IsTrue D.honest → (error : Error) → RefusesFolder config.journal_recovery_mode (D.meaning disk) error
            → IsErrAnd result (λ refused. IsDue (AreOne error) refused.error) }
        // So is a torn tail of the active journal, by its name, in the mode that refuses it.
        ensures torn { IsTrue D.honest → config.journal_recovery_mode ≡ RefuseTornTail → HasTornTail (standing (state_in (D.meaning disk)))
            → IsErrAnd result (λ refused. IsDue (λ error. error ≡ Error.JournalRecovery TornTail) refused.error) }
        // A folder in which nothing is wrong opens, but for that, unless memory runs out or the disk fails.
        ensures opens_or_torn { IsTrue D.honest → (folder : Option Contents) → IsOpenFolder (standing (state_in (D.meaning disk))) folder
            → IfErr result (λ refused. IsDue (IsTornTail config.journal_recovery_mode (HasTornTail (standing (state_in (D.meaning disk))))) refused.error) }
        // Over any disk at all it is refused with one of these alone.
        ensures listed { IfErr result (λ refused. IsOpeningRefusal refused.error) }
        ensures kinds { IsTrue D.honest → IfOk result (λ core. StaysTidy (D.meaning disk) core.disk) }
        ensures kinds_err { IsTrue D.honest → IfErr result (λ refused. StaysTidy (D.meaning disk) (D.meaning refused.value)) }
        // Where nothing stands in the way, no call of the disk was one that no disk can serve.
        ensures served { IsTrue D.honest → IsTidy (state_in (D.meaning disk)) → IfOk result (λ core. core.disk.misuses ≡ (D.meaning disk).misuses) }
        ensures device { IsTrue D.honest → IsTidy (state_in (D.meaning disk))
            → IfErr result (λ refused. RefusalBlames refused.error (D.meaning disk) (D.meaning refused.value)) }
        // The same of a disk of which a crash may leave different stores, as each core leaves it, a poisoned one too, and a
        // closing or an opening that was refused.
        ensures amid { IsTrue D.honest → ForHeld (D.meaning disk) (λ base pending. IfOk result (λ core. OpensAfterCrash (D.meaning disk) core base pending)) }
        ensures amid_err { IsTrue D.honest → ForHeld (D.meaning disk) (λ base pending.
            IfErr result (λ refused. StaysAmid (D.meaning disk) (D.meaning refused.value) base pending)) }
        // What a wild crash left, where each usual crash then leaves the base with a beginning of these commands, opens as such a store
        // too, or is refused by name, and then it is as it was: so it is whatever stands on the disk.
        ensures any_bytes { IsTrue D.honest → (base : Store) (least all : List Command) → IsLeftWildly (state_in (D.meaning disk)) (StandsAmid base least all)
            → IfOk result (λ core. OpensBetween core base least all) }
        ensures by_name { IsTrue D.honest
            → IfErr result (λ refused. IsDue (IsRefusedByName config.journal_recovery_mode (D.meaning disk) (D.meaning refused.value)) refused.error) }
    {
        let mode = config.journal_recovery_mode;
        let kept_bound = config.kept_block_bytes;
        drop(config);
        let mut disk = disk;
        match open_folder(alloc, &mut disk, mode) {
            Ok(opened) => {
                let mut memory = EngineState::new(
                    alloc,
                    opened.keyspaces,
                    opened.trees,
                    opened.number,
                    opened.sealed,
                    opened.active,
                    opened.watermarks,
                    opened.records,
                );
                memory.set_kept_bound(kept_bound);
                Ok(Engine {
                    alloc,
                    disk,
                    journal: opened.journal,
                    catalog: opened.catalog,
                    memory,
                })
            }
            Err(error) => Err(Refused { error, value: disk }),
        }
    }
}
