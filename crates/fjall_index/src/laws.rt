//! What holds of a core over which an index is kept.

ghost use Rattle.std.specs.Prelude.{All, ◌≡◌, ◌≢◌, ◌≤◌, ℕ, List, true};
ghost use Rattle.std.specs.FinMap.{contains_key};
ghost use Rattle.fjall_base.specs.Store.{Command, Store, fold, kept};
ghost use Rattle.fjall_history.specs.Moves.{MovesOn};
ghost use Rattle.fjall_history.specs.declared.ticket.Ticket.{Ticket};
ghost use Rattle.fjall_history.specs.declared.ticket.View.TheVariants.{At, Present};
ghost use Rattle.fjall_history.specs.declared.reply.Reply.{Reply};
ghost use Rattle.fjall_machine.specs.Shapes.{CallShape};
ghost use Rattle.fjall_machine.specs.Machine.{instant_of, maps_in, present, times};
ghost use Rattle.fjall_core.specs.Crashes.{attempt};
ghost use Rattle.fjall_core.specs.Durables.{Durable, IsBeginning};
ghost use Rattle.fjall_core.specs.Holding.{Held};
ghost use Rattle.fjall_core.specs.Openings.{OpensAs};
ghost use Rattle.fjall_core.specs.Standing.{GoesOn, CoreState, gone_on};
ghost use Rattle.fjall_core.specs.Transactions.{Kept, none_kept};
ghost use Rattle.fjall_index_entries.specs.Index.{FieldOf};
ghost use Rattle.fjall_index_entries.specs.Keeping.{IsIndexed};
ghost use Rattle.fjall_index.specs.Changes.{IsIndexedTx};
ghost use Rattle.fjall_index.specs.declared.indexed_tx.IndexedTx.{IndexedTx};
ghost use Rattle.fjall_index.specs.OtherCalls.{LeavesAlone};
ghost use Rattle.fjall_index.specs.Reopening.{durable_of, told_of_opening};
ghost use Rattle.fjall_index.specs.Standing.{StandsIndexed, StaysIndexed};

/// Where the index is kept, the present shows it, and so does each snapshot that reads at or above the instant since which it is kept.
pub fn views_show_the_index()
    ensures present { (field : FieldOf) (main index since : ℕ) (core : Held) (before : Kept) (t : CoreState) (d : Durable) → StandsIndexed field main index since core before t d
        → IsIndexed field main index (maps_in t.state Present) }
    ensures snapshot { (field : FieldOf) (main index since : ℕ) (core : Held) (before : Kept) (t : CoreState) (d : Durable) → StandsIndexed field main index since core before t d
        → (ticket : Ticket) → since ≤ instant_of t.state.tickets ticket.id → IsIndexed field main index (maps_in t.state (At ticket)) }
{}

/// An open transaction of an index stays one, whatever is called meanwhile.
pub fn an_open_transaction_stays()
    ensures { (field : FieldOf) (main index since : ℕ) (core : Held) (before : Kept) (old new : CoreState) (d : Durable) (tx : IndexedTx) → StandsIndexed field main index since core before old d
        → MovesOn (times old.state) (times new.state) → IsIndexedTx field main index old tx → IsIndexedTx field main index new tx }
{}

/// An opening arrives at a core over which the index is kept, wherever the store that it opens is indexed and both keyspaces live
/// there, as whatever a crash leaves of a core over which it was kept is indexed.
pub fn an_opening_keeps_the_index()
    ensures opened { (field : FieldOf) (main index : ℕ) (core : Held) (store : Store) (opens : OpensAs core store) → index ≢ main → contains_key store.names main ≡ true → contains_key store.names index ≡ true
        → IsIndexed field main index store.maps → StandsIndexed field main index opens.next core none_kept (told_of_opening core store opens) (durable_of core store) }
    ensures left { (field : FieldOf) (main index since : ℕ) (core : Held) (before : Kept) (t : CoreState) (d : Durable) → StandsIndexed field main index since core before t d
        → (front : List Command) → IsBeginning front d.pending → IsIndexed field main index (kept (fold d.base front)).maps }
{}

/// Each other call of the engine keeps the index, whatever it answers, that tries no command which writes to one of the two keyspaces,
/// clears it or deletes it.
pub fn another_call_keeps_the_index()
    ensures { (field : FieldOf) (main index since : ℕ) (old new : Held) (before after : Kept) (t : CoreState) (d : Durable) (shape : CallShape) (reply : Reply) → StandsIndexed field main index since old before t d
        → All (LeavesAlone main) (attempt t.state shape reply) → All (LeavesAlone index) (attempt t.state shape reply)
        → (goes : GoesOn old t shape reply new after) → (e : Durable) × StaysIndexed field main index since t d (gone_on t goes.0) e new after }
{}
