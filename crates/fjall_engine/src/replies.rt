//! Results of calls, as replies.

ghost use Rattle.std.specs.Prelude.{◌≡◌};
ghost use Rattle.fjall_engine.specs.Standing.{flag_reply, ids_reply, names_reply, number_reply, pairs_reply, reply_of, ticket_reply, value_reply};

use fjall_base::{KvPair, Result, Slice, UserValue};
use fjall_history::{Reply, Ticket};

/// The reply to a change or to a sync.
pub fn reply_of(done: Result<()>) -> Reply
    ensures { result ≡ reply_of done }
{
    match done {
        Ok(()) => Reply::Done,
        Err(error) => Reply::Refused(error),
    }
}

/// The reply to a read.
pub fn value_reply(found: Result<Option<UserValue>>) -> Reply
    ensures { result ≡ value_reply found }
{
    match found {
        Ok(value) => Reply::Value(value),
        Err(error) => Reply::Refused(error),
    }
}

/// The reply to a read of pairs.
pub fn pairs_reply(found: Result<Vec<KvPair>>) -> Reply
    ensures { result ≡ pairs_reply found }
{
    match found {
        Ok(pairs) => Reply::Pairs(pairs),
        Err(error) => Reply::Refused(error),
    }
}

/// The reply to a creation.
pub(crate) fn number_reply(found: Result<u64>) -> Reply
    ensures { result ≡ number_reply found }
{
    match found {
        Ok(number) => Reply::Number(number),
        Err(error) => Reply::Refused(error),
    }
}

/// The reply to a rotation.
pub(crate) fn flag_reply(done: Result<bool>) -> Reply
    ensures { result ≡ flag_reply done }
{
    match done {
        Ok(flag) => Reply::Flag(flag),
        Err(error) => Reply::Refused(error),
    }
}

/// The reply to an opening of a ticket.
pub(crate) fn ticket_reply(opened: Result<Ticket>) -> Reply
    ensures { result ≡ ticket_reply opened }
{
    match opened {
        Ok(ticket) => Reply::Opened(ticket),
        Err(error) => Reply::Refused(error),
    }
}

/// The reply to a list of names.
pub(crate) fn names_reply(found: Result<Vec<Slice>>) -> Reply
    ensures { result ≡ names_reply found }
{
    match found {
        Ok(names) => Reply::Names(names),
        Err(error) => Reply::Refused(error),
    }
}

/// The reply to a question for keyspaces.
pub(crate) fn ids_reply(found: Result<Vec<u64>>) -> Reply
    ensures { result ≡ ids_reply found }
{
    match found {
        Ok(ids) => Reply::Ids(ids),
        Err(error) => Reply::Refused(error),
    }
}
