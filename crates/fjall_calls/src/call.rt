//! The calls of a list as values.

use fjall_base::{UserKey, UserValue};
use fjall_core::{Call, Op, PersistMode};
use fjall_reading::KeyRange;

/// The kinds of transactions.
#[derive(Clone, Copy, Debug, PartialEq, Eq)]
pub enum Kind {
    /// It may conflict when it commits.
    Optimistic,
    /// The single writer's, of which one alone is open at a time.
    Single,
}

/// A call within a transaction that is open.
#[derive(Debug, Drop)]
pub enum Within {
    /// The value of a key: keyspace id and key.
    Get(u64, UserKey),
    /// The first pairs of a range or, from behind, the last: keyspace id, range of keys, whether from behind, and how many pairs
    /// at most.
    Page(u64, KeyRange, bool, usize),
    /// `insert`, `remove` or `remove_weak`: keyspace id, key, and what becomes of it.
    Write(u64, UserKey, Op),
    /// `take`: keyspace id and key.
    Take(u64, UserKey),
    /// `fetch_update` to this value or none: keyspace id, key and value.
    FetchUpdate(u64, UserKey, Option<UserValue>),
    /// `update_fetch` to this value or none: keyspace id, key and value.
    UpdateFetch(u64, UserKey, Option<UserValue>),
    /// `durability`: how its commit is persisted.
    Durability(Option<PersistMode>),
}

/// One call of a list. A transaction is named by the place in the list of the call that began it, as a
/// ticket and a job are by that of the call that opened or began them.
#[derive(Debug, Drop)]
pub enum TxCall {
    /// A call of the core.
    Core(Call),
    /// `begin_optimistic` or `begin_single`.
    Begin(Kind),
    /// A call within the transaction of this name.
    Within(u64, Within),
    /// `commit` of the transaction of this name, which is of this kind.
    Commit(Kind, u64),
    /// `rollback` of the transaction of this name.
    Rollback(u64),
}
