//! Lists of calls, which are served in order.

ghost use Rattle.std.specs.Prelude.{◌≡◌, ◌+◌, ◌++◌, ◌∷◌, ◌<◌, ◌≤◌, [], IfOk, IsOkUnless, OnErr, vec_capacity, vec_len};
ghost use Rattle.fjall_core.specs.Jobs.{KeepsJobs};
ghost use Rattle.fjall_calls.specs.Serving.{RunsTx, ServesListed};

use crate::call::TxCall;
use crate::ends::{begin, commit, roll_back, within};
use crate::named::Named;
use fjall_base::{Disk, Error, Result};
use fjall_core::{Core, Job, Reply};
use std::alloc::Global;

// Serves one call of a list, where the calls before it got these replies. The transactions and the jobs that are out are kept in
// lists, each of which has room for one more.
fn serve<D: Disk>(
    core: &mut Core<D>,
    call: TxCall,
    replies: &[Reply],
    listed: &mut Vec<Named>,
    jobs: &mut Vec<Job>,
) -> Reply
    requires listed_room { vec_len listed.old < vec_capacity listed.old }
    requires jobs_room { vec_len jobs.old < vec_capacity jobs.old }
    requires keeps { KeepsJobs core.old.engine.memory jobs.old.items replies.now }
    ensures serves { ServesListed D.honest jobs.old.items jobs.new.items core.old.engine core.old.transactions listed.old.items replies.now call result core.new.engine core.new.transactions listed.new.items }
    ensures keeps { KeepsJobs core.new.engine.memory jobs.new.items (replies.now ++ result ∷ []) }
    ensures listed_room { vec_capacity listed.old ≤ vec_capacity listed.new }
    ensures listed_len { vec_len listed.new ≤ vec_len listed.old + 1 }
    ensures jobs_room { vec_capacity jobs.old ≤ vec_capacity jobs.new }
    ensures jobs_len { vec_len jobs.new ≤ vec_len jobs.old + 1 }
{
    match call {
        TxCall::Core(call) => core.serve(call, replies, jobs),
        TxCall::Begin(kind) => begin(core, kind, replies.len() as u64, listed),
        TxCall::Within(name, call) => within(core, name, call, listed),
        TxCall::Commit(kind, name) => commit(core, kind, name, listed),
        TxCall::Rollback(name) => roll_back(core, name, listed),
    }
}

/// Serves calls in order, on a core and within its transactions, and answers a reply for each: to the beginning of a transaction
/// `Done`, to a commit whether it took place, so `Flag(false)` where it conflicts, and to a call of the core and one within a
/// transaction as these answer.
///
/// A call names a ticket, a job and a transaction by the place in the list of the call that opened or began it; a place whose
/// call began none that is open and of its kind is refused with `SnapshotClosed`. What is open at the list's end stays open, and
/// no later list can name it. Only where the lists that it keeps find no memory is the whole list refused, before its first call.
pub fn run<D: Disk>(alloc: Global, core: &mut Core<D>, calls: Vec<TxCall>) -> Result<Vec<Reply>>
    ensures runs { IfOk result (λ replies. RunsTx D.honest core.old.engine core.old.transactions calls.items replies.items core.new.engine core.new.transactions) }
    ensures err { OnErr result (core.new ≡ core.old) }
    ensures only { IsOkUnless result Error.OutOfMemory }
{
    let mut replies = Vec::with_capacity(alloc, calls.len())?;
    let mut listed = Vec::with_capacity(alloc, calls.len())?;
    let mut jobs = Vec::with_capacity(alloc, calls.len())?;
    for call in calls {
        let reply = serve(core, call, &replies, &mut listed, &mut jobs);
        replies.push(reply).unwrap();
    }
    Ok(replies)
}
