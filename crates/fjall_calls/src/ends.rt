//! Transactions of a list begin, go on and end.

ghost use Rattle.std.specs.Prelude.{◌≡◌, ◌+◌, ◌++◌, ◌∷◌, ◌<◌, ◌≤◌, [], Err, IfOk, IsTrue, List, OnErr, false, length, true, vec_capacity, vec_len};
ghost use Rattle.fjall_base.specs.declared.error.Error.TheVariants.{TransactionOpen};
ghost use Rattle.fjall_core.specs.Jobs.{KeepsJobs};
ghost use Rattle.fjall_core.specs.CoreStanding.{Owes, Serves};
ghost use Rattle.fjall_history.specs.declared.reply.Reply.{Reply as Told};
ghost use Rattle.fjall_core.specs.CoreJob.{Job};
ghost use Rattle.fjall_machine.specs.Shapes.{OfTickets, Open};
ghost use Rattle.fjall_core.specs.Commits.{begun_reply};
ghost use Rattle.fjall_core.specs.Transactions.{transaction_begun};
ghost use Rattle.fjall_calls.specs.Steps.{first_marks, reply_to, writer_after};
ghost use Rattle.fjall_calls.specs.Serving.{ServesTx, may_begin};
ghost use Rattle.fjall_calls.specs.declared.call.TxCall.TheVariants as calls;

use crate::acts::act;
use crate::call::{Kind, Within};
use crate::lookup::take_named;
use crate::named::Named;
use fjall_base::{Disk, Error, Result};
use fjall_core::{CommitOutcome, Core, Reply, Transaction, reply_of};

// Begins a transaction of this kind.
fn begun<D: Disk>(core: &mut Core<D>, kind: Kind) -> Result<Transaction>
    ensures due { may_begin core.old.engine core.old.transactions kind ≡ false → (result ≡ Err TransactionOpen) × (core.new.engine ≡ core.old.engine) }
    ensures serves { may_begin core.old.engine core.old.transactions kind ≡ true → IsTrue D.honest → Serves core.old.engine (OfTickets Open) (begun_reply result) core.new.engine }
    ensures owes { may_begin core.old.engine core.old.transactions kind ≡ true → Owes core.old.engine (OfTickets Open) (begun_reply result) core.new.engine }
    ensures begun { IfOk result (λ tx. (tx ≡ transaction_begun (first_marks kind) tx.ticket)
        × (core.new.transactions ≡ record core.old.transactions { writer = writer_after kind tx.ticket core.old.transactions.writer })) }
    ensures unchanged { OnErr result (core.new.transactions ≡ core.old.transactions) }
{
    match kind {
        Kind::Optimistic => core.begin_optimistic(),
        Kind::Single => core.begin_single(),
    }
}

/// Begins a transaction of this kind, under the place of the call that does.
pub(crate) fn begin<D: Disk>(
    core: &mut Core<D>,
    kind: Kind,
    place: u64,
    listed: &mut Vec<Named>,
) -> Reply
    requires room { vec_len listed.old < vec_capacity listed.old }
    ensures serves { (before : List Told) → place ≡ length before
        → ServesTx D.honest core.old.engine core.old.transactions listed.old.items before (calls.Begin kind) result core.new.engine core.new.transactions listed.new.items }
    ensures keeps { (jobs : List Job) (before : List Told) → KeepsJobs core.old.engine.memory jobs before → KeepsJobs core.new.engine.memory jobs (before ++ result ∷ []) }
    ensures room { vec_capacity listed.old ≤ vec_capacity listed.new }
    ensures len { vec_len listed.new ≤ vec_len listed.old + 1 }
{
    match begun(core, kind) {
        Ok(transaction) => {
            listed.push(Named { place, transaction }).unwrap();
            Reply::Done
        }
        Err(error) => Reply::Refused(error),
    }
}

/// Makes a call within the transaction of this name.
pub(crate) fn within<D: Disk>(
    core: &mut Core<D>,
    name: u64,
    call: Within,
    listed: &mut Vec<Named>,
) -> Reply
    ensures serves { (before : List Told)
        → ServesTx D.honest core.old.engine core.old.transactions listed.old.items before (calls.Within name call) result core.new.engine core.new.transactions listed.new.items }
    ensures keeps { (jobs : List Job) (before : List Told) → KeepsJobs core.old.engine.memory jobs before → KeepsJobs core.new.engine.memory jobs (before ++ result ∷ []) }
    ensures room { vec_capacity listed.old ≤ vec_capacity listed.new }
    ensures len { vec_len listed.new ≤ vec_len listed.old }
{
    let Some(named) = take_named(core, listed, name, None) else {
        return Reply::Refused(Error::SnapshotClosed);
    };
    let Named { place, transaction } = named;
    let (reply, transaction) = act(core, transaction, call);
    listed.push(Named { place, transaction }).unwrap();
    reply
}

// How a commit is told in a list.
fn told(outcome: CommitOutcome<Error>) -> Reply
    ensures { result ≡ reply_to outcome }
{
    match outcome {
        CommitOutcome::Ok => Reply::Flag(true),
        CommitOutcome::Conflicted => Reply::Flag(false),
        CommitOutcome::Aborted(error) => Reply::Refused(error),
    }
}

/// Commits the transaction of this name, which is of this kind.
pub(crate) fn commit<D: Disk>(
    core: &mut Core<D>,
    kind: Kind,
    name: u64,
    listed: &mut Vec<Named>,
) -> Reply
    ensures serves { (before : List Told)
        → ServesTx D.honest core.old.engine core.old.transactions listed.old.items before (calls.Commit kind name) result core.new.engine core.new.transactions listed.new.items }
    ensures keeps { (jobs : List Job) (before : List Told) → KeepsJobs core.old.engine.memory jobs before → KeepsJobs core.new.engine.memory jobs (before ++ result ∷ []) }
    ensures room { vec_capacity listed.new ≡ vec_capacity listed.old }
    ensures len { vec_len listed.new ≤ vec_len listed.old }
{
    let Some(named) = take_named(core, listed, name, Some(kind)) else {
        return Reply::Refused(Error::SnapshotClosed);
    };
    // (its own writes fit into one list)
    let _written = named.transaction.own().len();
    told(core.commit(named.transaction))
}

/// Ends the transaction of this name without its own writes.
pub(crate) fn roll_back<D: Disk>(core: &mut Core<D>, name: u64, listed: &mut Vec<Named>) -> Reply
    ensures serves { (before : List Told)
        → ServesTx D.honest core.old.engine core.old.transactions listed.old.items before (calls.Rollback name) result core.new.engine core.new.transactions listed.new.items }
    ensures keeps { (jobs : List Job) (before : List Told) → KeepsJobs core.old.engine.memory jobs before → KeepsJobs core.new.engine.memory jobs (before ++ result ∷ []) }
    ensures room { vec_capacity listed.new ≡ vec_capacity listed.old }
    ensures len { vec_len listed.new ≤ vec_len listed.old }
{
    let Some(named) = take_named(core, listed, name, None) else {
        return Reply::Refused(Error::SnapshotClosed);
    };
    reply_of(core.rollback(named.transaction))
}
