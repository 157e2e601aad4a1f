//! The locked state.

ghost use Rattle.std.specs.Prelude.{◌≡◌, IfOk};
ghost use Rattle.std.specs.Arc.{arc_value};
ghost use Rattle.fjall_history.specs.Moves.{HasGrown};

use crate::flags::Flag;
use crate::out::Out;
use fjall_base::Disk;
use fjall_core::{Core, Engine, FlushMade, MergeMade, Ticket};
use fjall_history::{CoreSeat, SeenSeat, Word};
use std::alloc::{AllocError, Global};
use std::marker::Model;
use std::ops::Deref;
use std::sync::Arc;

/// What lies under the lock of a database: its engine with its transactions, the engine's seat at the word of the visible number, the
/// flushes and merges that are out, and the tickets and handles that are given up once their flags are raised.
///
/// Whenever the lock is free the engine stands for the list of accepted commands that its seat knows: over any disk the list's number is
/// the engine's next one, and over a disk that returns what it holds the store is the fold of the list.
///
/// It acts as its engine for what only looks: counts and the visible number.
pub struct Shared<D: Disk> {
    pub(crate) alloc: Global,
    pub(crate) core: Core<D>,
    pub(crate) seat: CoreSeat,
    pub(crate) word: Arc<Word, Global>,
    pub(crate) flushes: Vec<Out<FlushMade>>,
    pub(crate) merges: Vec<Out<MergeMade>>,
    pub(crate) tickets: Vec<(Ticket, Flag)>,
    pub(crate) handles: Vec<(u64, Flag)>,
}

// Written out, so that no crate above proves the drop of what it owns anew.
impl<D: Disk + Drop> Drop for Shared<D> {
    fn drop(self) {
        let Shared {
            alloc: _,
            core: _,
            seat: _,
            word: _,
            flushes: _,
            merges: _,
            tickets: _,
            handles: _,
        } = self;
    }
}

impl<D: Disk> Model for Shared<D> {
    ghost use Rattle.std.specs.Coded.{codes};
    ghost use Rattle.std.specs.Prelude.{◌≡◌};
    ghost use Rattle.std.specs.Arc.{arc_value};
    ghost use Rattle.fjall_replay.specs.Known.{records_code};
    ghost use Rattle.fjall_tx.specs.Places.{places_code};
    ghost use Rattle.fjall_machine.specs.Remembered.{handles_code};
    ghost use Rattle.fjall_history.specs.Codes.{history_code};
    ghost use Rattle.fjall_shared.specs.Locked.{IsSettled, Locked};

    ghost Value = { Locked };

    ghost coded = { Prim.hlevel (codes, handles_code, records_code, places_code, history_code) };

    ghost view = { λ s. record { core = s.core.engine; kept = s.core.transactions; seat = s.seat; flushes = s.flushes.items; merges = s.merges.items } };

    ghost invariant = { λ s. (s.seat.table ≡ arc_value s.word)
        × IsSettled D.honest (record { core = s.core.engine; kept = s.core.transactions; seat = s.seat; flushes = s.flushes.items; merges = s.merges.items }) };
}

impl<D: Disk> Deref for Shared<D> {
    type Target = Engine<D>;

    ghost deref_gives = { λ s engine. engine ≡ s.core };

    /// The engine, to be looked at.
    fn deref(&self) -> &Engine<D>
        ensures { result.now ≡ self.now.core }
    {
        &self.core
    }
}

impl<D: Disk> Shared<D> {
    /// The word of the visible number.
    pub fn word(&self) -> Result<Arc<Word, Global>, AllocError>
        ensures { IfOk result (λ word. arc_value word ≡ self.now.seat.table) }
    {
        Arc::try_clone(&self.word)
    }

    /// Shows a caller the list, which begins with what the caller had seen.
    pub fn show(&mut self, seen: &mut SeenSeat)
        requires { seen.old.table ≡ self.old.seat.table }
        ensures same { self.new ≡ self.old }
        ensures shown { seen.new ≡ self.old.seat }
        ensures later { HasGrown seen.old.list seen.new.list }
    {
        self.word.show(&mut self.seat, seen);
    }

    /// The engine with its transactions. Who still has the word sees no more of it.
    pub fn into_core(self) -> Core<D>
        ensures engine { result.engine ≡ self.core }
        ensures transactions { result.transactions ≡ self.kept }
    {
        let Shared {
            alloc: _,
            core,
            seat: _,
            word: _,
            flushes: _,
            merges: _,
            tickets: _,
            handles: _,
        } = self;
        core
    }
}
