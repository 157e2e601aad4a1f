//! What readers show of the machine.

ghost use Rattle.std.specs.Prelude.{Bool, ◌≡◌, ◌⊎◌, ℕ, [], IsTrue, None};
ghost use Rattle.fjall_base.specs.Store.{map_at};
ghost use Rattle.fjall_history.specs.declared.ticket.View.{View as Seen};
ghost use Rattle.fjall_history.specs.Queries.{Query};
ghost use Rattle.fjall_machine.specs.Machine.{State, due, maps_in};
ghost use Rattle.fjall_machine.specs.Shapes.{OfRead};
ghost use Rattle.fjall_engine.specs.Holding.{Held};
ghost use Rattle.fjall_engine.specs.Standing.{ReadsOn, StandsFor, tables_of};
ghost use Rattle.fjall_core.specs.Shown.{Shows, read_due};

/// Whichever state of the machine a core stands for: what refuses its reads is what refuses them there, and where nothing
/// does, it shows the state's map of the keyspace in the view, where the keyspace has no table, or the disk returns what it holds and
/// has the tables.
pub fn readers_show_the_state()
    ensures due { (core : Held) (s : State) → StandsFor core s → (view : Seen) (id : ℕ) (query : Query) → due s (OfRead view id query) ≡ read_due core view id }
    ensures shown { (honest : Bool) (core : Held) (s : State) → StandsFor core s → (view : Seen) (id : ℕ) → read_due core view id ≡ None
        → ((tables_of core id ≡ []) ⊎ (IsTrue honest × ReadsOn core s)) → Shows honest core view id (map_at (maps_in s view) id) }
{}
