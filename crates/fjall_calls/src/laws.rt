//! What holds of each list of calls.

ghost use Rattle.std.specs.Prelude.{◌≡◌, [], All, List, None, Some, slice_get};
ghost use Rattle.fjall_core.specs.Holding.{Held};
ghost use Rattle.fjall_history.specs.Histories.{Accepted, Commit, latest, view};
ghost use Rattle.fjall_history.specs.declared.reply.Reply.{Reply};
ghost use Rattle.fjall_history.specs.Checked.{before};
ghost use Rattle.fjall_history.specs.Serial.{ReadsChangeByTransactions};
ghost use Rattle.fjall_machine.specs.declared.call.Call.{Call};
ghost use Rattle.fjall_core.specs.Standing.{StandFor, CoreState, history_of};
ghost use Rattle.fjall_core.specs.Transactions.{Kept};
ghost use Rattle.fjall_calls.specs.declared.call.TxCall.{TxCall};
ghost use Rattle.fjall_calls.specs.Hearing.{IsOfThoseBefore, StandsIn, WriterRun, tx_of};
ghost use Rattle.fjall_calls.specs.Steps.{TxRun};
ghost use Rattle.fjall_calls.specs.Worlds.{World, begins};

/// Whatever calls a list makes, each transaction that committed in it stands in the history, and each answer that it got is that of
/// its view, with its own writes of then, and rests on nothing but what its commit marked as read.
pub fn transactions_stand_in_the_history()
    ensures { (core : Held) (kept : Kept) (t : CoreState) → StandFor core kept t
        → (calls : List TxCall) (replies : List Reply) (made : List Call) (told : List Reply) (v : World) → TxRun (begins t kept.writer) [] calls replies made told v
        → All (StandsIn (history_of v.told)) v.gone }
{}

/// So optimistic transactions act one after another, where what they read changes through optimistic transactions alone: each
/// answer that one of them got is the one that it gets behind those that committed before it, and behind them alone.
pub fn transactions_hear_those_before()
    ensures { (core left : Held) (kept after : Kept) (t : CoreState) → StandFor core kept t
        → (calls : List TxCall) (replies : List Reply) (made : List Call) (told : List Reply) (v : World) → TxRun (begins t kept.writer) [] calls replies made told v
        → StandFor left after v.told → ReadsChangeByTransactions (history_of v.told)
        → All (λ g. (a : Accepted) (c : Commit) → slice_get v.told.accepted g.place ≡ Some a → a.commit ≡ Some c → All (IsOfThoseBefore (history_of v.told) g.place) g.was.heard) v.gone }
{}

/// Where all changes go through the single writer's transactions, each of them reads what its command meets: its view is the
/// present as it commits.
pub fn the_single_writer_reads_the_present()
    ensures { (core : Held) (kept : Kept) (t : CoreState) → StandFor core kept t
        → (calls : List TxCall) (replies : List Reply) (v : World) → WriterRun (begins t kept.writer) [] calls replies v
        → All (λ g. (tx_of g.was).marks ≡ None → view (history_of v.told) (tx_of g.was).ticket.instant ≡ latest (before (history_of v.told) g.place)) v.gone }
{}
