//! The commands that a line may spell.

ghost use Rattle.std.specs.Prelude.{◌≡◌, map};
ghost use Rattle.fjall_lines.specs.Fills.{named_bytes};

use fjall_base::{Slice, UserKey, UserValue};
use std::marker::Model;

/// One write of a batch: the id of a keyspace, a key, and its new value, or none where it is removed.
pub type Write = (u64, UserKey, Option<UserValue>);

/// The writes of a batch.
#[derive(Drop)]
pub struct Writes {
    items: Vec<Write>,
}

impl Model for Writes {
    ghost use Rattle.std.specs.Prelude.{ℕ, List, Option};
    ghost use Rattle.std.specs.Coded.{codes};
    ghost use Rattle.fjall_base.specs.Pairs.{Bytes};

    ghost Value = { List (ℕ × Bytes × Option Bytes) };

    ghost coded = { Prim.hlevel codes };

    ghost view = { λ writes. writes.items.items };
}

impl Writes {
    pub(crate) fn new(items: Vec<Write>) -> Writes
        ensures { result ≡ items.items }
    {
        Writes { items }
    }

    /// The writes in their order.
    pub fn as_slice(&self) -> &[Write]
        ensures { result.now ≡ self.now }
    {
        &self.items
    }
}

/// A file's path below the root, as `keyspaces/1/current`, and the bytes that a wild crash leaves behind its synced ones.
pub type Fill = (String, Slice);

/// What a wild crash leaves behind the synced bytes of files.
#[derive(Drop)]
pub struct Fills {
    items: Vec<Fill>,
}

impl Model for Fills {
    ghost use Rattle.std.specs.Prelude.{ℕ, List, map};
    ghost use Rattle.std.specs.Coded.{codes};
    ghost use Rattle.fjall_base.specs.Pairs.{Bytes};
    ghost use Rattle.fjall_base.specs.Disk.{Name};
    ghost use Rattle.fjall_lines.specs.Fills.{named_bytes};

    ghost Value = { List (Name × Bytes) };

    ghost coded = { Prim.hlevel codes };

    ghost view = { λ fills. map named_bytes fills.items.items };
}

impl Fills {
    pub(crate) fn new(items: Vec<Fill>) -> Fills
        ensures { result ≡ map named_bytes items.items }
    {
        Fills { items }
    }

    /// The fills in their order.
    pub fn as_slice(&self) -> &[Fill]
        ensures { map named_bytes result.now ≡ self.now }
    {
        &self.items
    }
}

/// What a line asks of the engine.
#[derive(Drop)]
pub enum Request {
    /// `keyspace NAME`: the id of the keyspace of this name, which is made where none has it.
    Keyspace(Slice),
    /// `delete ID`: deletes a keyspace.
    Delete(u64),
    /// `insert ID K V`: gives a key of a keyspace a value.
    Insert(u64, UserKey, UserValue),
    /// `remove ID K`: takes a key of a keyspace and its value away.
    Remove(u64, UserKey),
    /// `remove_weak ID K`: the same, marked as weak in the journal.
    RemoveWeak(u64, UserKey),
    /// `clear ID`: takes all keys of a keyspace and their values away.
    Clear(u64),
    /// `batch ID K V ..`: writes several keys of any keyspaces as one command; `~` for a value removes its key.
    Batch(Writes),
    /// `get ID K`: the value of a key.
    Get(u64, UserKey),
    /// `len ID`: how many keys a keyspace has.
    Len(u64),
    /// `scan ID`: all pairs of a keyspace.
    Scan(u64),
    /// `snapshot`: opens a snapshot of all that was written. Its number is that of the line among all lines that open a
    /// snapshot or begin a transaction, counted from 1 over the whole input.
    Snapshot,
    /// `get_at T ID K`: the value of a key in the snapshot of this number.
    GetAt(u64, u64, UserKey),
    /// `close_snapshot T`: closes the snapshot of this number.
    CloseSnapshot(u64),
    /// `begin`: begins an optimistic transaction. Its number is that of the line among all lines that open a snapshot or
    /// begin a transaction, counted from 1 over the whole input.
    Begin,
    /// `tx_get T ID K`: the value of a key as the transaction of this number sees it.
    TxGet(u64, u64, UserKey),
    /// `tx_insert T ID K V`: gives a key a value in the transaction of this number.
    TxInsert(u64, u64, UserKey, UserValue),
    /// `commit T`: commits the transaction of this number.
    Commit(u64),
    /// `gc`: raises the number below which no open snapshot reads, and tells it.
    Gc,
    /// `rotate ID`: seals the active memtable of a keyspace.
    Rotate(u64),
    /// `flush ID`: brings the sealed memtables of a keyspace to a table.
    Flush(u64),
    /// `merge ID`: brings all tables of a keyspace to others, without the versions that nobody reads any more.
    Merge(u64),
    /// `persist`: makes all that was written safe.
    Persist,
}

/// What a line asks for.
#[derive(Drop)]
pub enum Command {
    /// A call of the engine.
    Ask(Request),
    /// `crash N`: of each file at most so many bytes that no sync has made safe are kept, and the
    /// core opens again.
    Crash(u64),
    /// `crash_wild NAME BYTES ..`: of each file the synced bytes are kept, behind those of the file of each name these bytes
    /// stand, and the core opens again.
    CrashWild(Fills),
    /// `reopen`: the core closes and opens again.
    Reopen,
}
