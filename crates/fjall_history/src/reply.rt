//! Replies to calls.

use crate::job::JobId;
use crate::ticket::Ticket;
use fjall_base::{Error, KvPair, Slice, UserValue};

/// The reply to one call.
#[derive(Debug, Drop)]
pub enum Reply {
    /// It is done, and there is nothing to tell.
    Done,
    /// The value of a key, where it has one.
    Value(Option<UserValue>),
    /// Pairs in the order of their keys.
    Pairs(Vec<KvPair>),
    /// A count, a number or an id.
    Number(u64),
    /// Names of keyspaces, in the order of their bytes.
    Names(Vec<Slice>),
    /// Whether it is so.
    Flag(bool),
    /// The ticket of a snapshot that was opened.
    Opened(Ticket),
    /// The job that was begun, where there was one to begin.
    Began(Option<JobId>),
    /// Ids of keyspaces, ascending.
    Ids(Vec<u64>),
    /// It was refused.
    Refused(Error),
}
