//! What holds of a core with its transactions.

ghost use Rattle.std.specs.Prelude.{◌≡◌, ◌≢◌, ◌↔◌, ◌∷◌, [], Contains, List, None, Option, Some, false, true, ℕ};
ghost use Rattle.std.specs.FinMap.{get};
ghost use Rattle.fjall_base.specs.Limits.{item_refusal};
ghost use Rattle.fjall_base.specs.Pairs.{Bytes};
ghost use Rattle.fjall_base.specs.declared.error.Error.{Error};
ghost use Rattle.fjall_engine.specs.Holding.{Held};
ghost use Rattle.fjall_engine.specs.Standing.{Owes, ReadsOn, RestsOnTables, Serves, StandsFor};
ghost use Rattle.fjall_history.specs.Histories.{commits};
ghost use Rattle.fjall_history.specs.Moves.{AreSound};
ghost use Rattle.fjall_history.specs.Tickets.{Tickets, is_open};
ghost use Rattle.fjall_history.specs.declared.reply.Reply.{Reply};
ghost use Rattle.fjall_history.specs.declared.reply.Reply.TheVariants.{Opened};
ghost use Rattle.fjall_history.specs.declared.ticket.Ticket.{Ticket};
ghost use Rattle.fjall_journal.specs.Ops.{bytes_in};
ghost use Rattle.fjall_history.specs.Serial.{IsSerial, ReadsChangeByTransactions};
ghost use Rattle.fjall_machine.specs.Machine.{State, Step, StepOf, times};
ghost use Rattle.fjall_machine.specs.Shapes.{CallShape, OfTickets, Open, shape_of};
ghost use Rattle.fjall_machine.specs.declared.call.Call.{Call};
ghost use Rattle.fjall_tx.specs.Marks.{Mark};
ghost use Rattle.fjall_tx.specs.Oracles.{Conflicts};
ghost use Rattle.fjall_tx.specs.declared.outcome.CommitOutcome.{CommitOutcome as Outcome};
ghost use Rattle.fjall_core.specs.Commits.{Ends, is_writing};
ghost use Rattle.fjall_core.specs.Standing.{CommitGoesOn, CommitStep, GoesOn, StandFor, CoreState, gone_on, history_of};
ghost use Rattle.fjall_core.specs.Writers.{AreWriters};
ghost use Rattle.fjall_core.specs.Transactions.{AreCommitsOf, Kept, Tx, having_touched, none_kept, op_of, replace_refusal, replacing, with_own};

/// What a key becomes is written exactly where it differs from what the key has had, and is refused there alone.
pub fn what_stays_is_not_written()
    ensures same { (tx : Tx) (id : ℕ) (key : Bytes) (value : Option Bytes) → replacing tx id key value value ≡ having_touched tx id key }
    ensures other { (tx : Tx) (id : ℕ) (key : Bytes) (old new : Option Bytes) → old ≢ new → replacing tx id key old new ≡ with_own tx id key (op_of new) }
    ensures same_refusal { (key : Bytes) (value : Option Bytes) → replace_refusal key value value ≡ None }
    ensures other_refusal { (key : Bytes) (old new : Option Bytes) → old ≢ new → replace_refusal key old new ≡ item_refusal key (bytes_in (op_of new)) }
{}

/// A core that was just opened, of whose history nothing was accepted, stands with no transactions.
pub fn an_opening_stands()
    ensures { (core : Held) (s : State) → StandsFor core s → AreSound (times s) → s.history.accepted ≡ []
        → StandFor core none_kept (record { state = s; accepted = [] }) }
{}

/// A call of the core leaves its transactions as they are: what it accepts no optimistic transaction committed. Over any disk it
/// is a step, but for what rests on what tables hold.
pub fn a_call_of_the_core_stands()
    ensures step { (core new : Held) (kept : Kept) (t : CoreState) (s : State) (call : Call) (reply : Reply) → StandFor core kept t → Step t.state call reply s
        → StandsFor new s → StandFor new kept (gone_on t s) }
    ensures serves { (core new : Held) (kept : Kept) (t : CoreState) (call : Call) (reply : Reply) → StandFor core kept t → ReadsOn core t.state
        → Serves core (shape_of call) reply new → GoesOn core t (shape_of call) reply new kept }
    ensures owes { (core new : Held) (kept : Kept) (t : CoreState) (call : Call) (reply : Reply) → StandFor core kept t → (RestsOnTables core (shape_of call) reply → ⊥)
        → Owes core (shape_of call) reply new → (s : State) × StandFor new kept (gone_on t s) × Step t.state call reply s }
{}

/// Those that are kept committed in this core.
pub fn the_kept_are_the_cores()
    ensures { (core : Held) (kept : Kept) (t : CoreState) → StandFor core kept t → AreCommitsOf core kept.commits }
{}

/// For an instant at which an open ticket reads, those that are kept tell of a conflict exactly what all do that ever committed.
pub fn conflicts_are_exact()
    ensures { (core : Held) (kept : Kept) (t : CoreState) → StandFor core kept t → (id instant : ℕ) → get t.state.tickets.instants id ≡ Some instant
        → (reads : List Mark) → Conflicts instant reads kept.commits ↔ Conflicts instant reads (commits (history_of t)) }
{}

/// A commit is a step, in which it conflicts exactly where it meets one of all that ever committed; over a disk that returns what it
/// holds a crash leaves what it may.
pub fn a_commit_stands()
    ensures serves { (core left : Held) (kept new : Kept) (t : CoreState) (tx : Tx) (outcome : Outcome Error) → StandFor core kept t → ReadsOn core t.state
        → Ends Serves kept core tx outcome new left → CommitGoesOn core t tx outcome left new }
    ensures owes { (core left : Held) (kept new : Kept) (t : CoreState) (tx : Tx) (outcome : Outcome Error) → StandFor core kept t
        → Ends Owes kept core tx outcome new left → (after : CoreState) × StandFor left new after × CommitStep t tx outcome after }
{}

/// At most one single writer's transaction is open. Of the tickets with which such transactions began, one that is open is the one
/// that is kept: so it is where none began, and so each call leaves it, and one that begins while none is open.
pub fn one_single_writer_is_open()
    ensures none_began { (tickets : Tickets) (writer : Option Ticket) → AreWriters tickets writer [] }
    ensures calls { (old new : State) (shape : CallShape) (reply : Reply) (writer : Option Ticket) (began : List Ticket) → StepOf old shape reply new
        → AreWriters old.tickets writer began → AreWriters new.tickets writer began }
    ensures commits { (old new : CoreState) (tx : Tx) (outcome : Outcome Error) (writer : Option Ticket) (began : List Ticket) → CommitStep old tx outcome new
        → AreWriters old.state.tickets writer began → AreWriters new.state.tickets writer began }
    ensures begins { (core : Held) (kept : Kept) (t : CoreState) (s : State) (ticket : Ticket) (began : List Ticket) → StandFor core kept t → is_writing core kept.writer ≡ false
        → StepOf t.state (OfTickets Open) (Opened ticket) s → AreWriters t.state.tickets kept.writer began → AreWriters s.tickets (Some ticket) (ticket ∷ began) }
    ensures one { (tickets : Tickets) (writer : Option Ticket) (began : List Ticket) → AreWriters tickets writer began → (a b : Ticket) → Contains began a → Contains began b
        → is_open tickets a.id ≡ true → is_open tickets b.id ≡ true → a ≡ b }
{}

/// Optimistic transactions act one after another, where what they read changes through optimistic transactions alone: to each key
/// that its reads cover, the view of each gives what those that committed before it, and they alone, make of the opened store.
pub fn transactions_are_serial()
    ensures { (core : Held) (kept : Kept) (t : CoreState) → StandFor core kept t → ReadsChangeByTransactions (history_of t) → IsSerial (history_of t) }
{}
