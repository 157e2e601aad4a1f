//! Calls that change keys.

ghost use Rattle.std.specs.Prelude.{◌≡◌, []};
ghost use Rattle.fjall_journal.specs.declared.op.Op.TheVariants as ops;
ghost use Rattle.fjall_c.specs.Answers.{Adds, Answers, mode_at};
ghost use Rattle.fjall_c.specs.Calls.{ByMode, Calls, Items, OfChange, inserting, removing, reply_of};
ghost use Rattle.fjall_c.specs.Live.{live_of};

use crate::answers::{answer, mode_of};
use crate::handle::Database;

/// Gives a key of a keyspace a value.
#[unsafe(no_mangle)]
pub extern "C" fn fjall_c_insert(
    database: &mut Database,
    keyspace: u64,
    key: &[u8],
    value: &[u8],
) -> i32
    ensures answers { Answers result (Calls (inserting keyspace key.now value.now) reply_of (live_of database.old.session) (live_of database.new.session)) }
    ensures batch { database.new.session.batch ≡ database.old.session.batch }
{
    answer(database.session_mut().insert(keyspace, key, value))
}

/// Takes a key of a keyspace and its value away.
#[unsafe(no_mangle)]
pub extern "C" fn fjall_c_remove(database: &mut Database, keyspace: u64, key: &[u8]) -> i32
    ensures answers { Answers result (Calls (removing keyspace key.now) reply_of (live_of database.old.session) (live_of database.new.session)) }
    ensures batch { database.new.session.batch ≡ database.old.session.batch }
{
    answer(database.session_mut().remove(keyspace, key))
}

/// Adds to the batch that a key gets a value.
#[unsafe(no_mangle)]
pub extern "C" fn fjall_c_batch_insert(
    database: &mut Database,
    keyspace: u64,
    key: &[u8],
    value: &[u8],
) -> i32
    ensures added { Answers {T = Unit} result (Adds (keyspace, key.now, ops.Put value.now) database.old.session.batch.items database.new.session.batch.items) }
    ensures same { live_of database.new.session ≡ live_of database.old.session }
{
    answer(database.session_mut().batch_insert(keyspace, key, value))
}

/// Adds to the batch that a key and its value go.
#[unsafe(no_mangle)]
pub extern "C" fn fjall_c_batch_remove(database: &mut Database, keyspace: u64, key: &[u8]) -> i32
    ensures added { Answers {T = Unit} result (Adds (keyspace, key.now, ops.Remove) database.old.session.batch.items database.new.session.batch.items) }
    ensures same { live_of database.new.session ≡ live_of database.old.session }
{
    answer(database.session_mut().batch_remove(keyspace, key))
}

/// Makes all that was added to the batch as one command, and begins an empty batch. In the modes 0, 1 and 2 the journal is persisted
/// behind it as `fjall_c_persist` does; with any other number the command waits in the journal's buffer.
#[unsafe(no_mangle)]
pub extern "C" fn fjall_c_batch_commit(database: &mut Database, mode: u8) -> i32
    ensures calls { Answers result (Calls (OfChange (Items database.old.session.batch.items) (ByMode (mode_at mode))) reply_of (live_of database.old.session) (live_of database.new.session)) }
    ensures empty { database.new.session.batch.items ≡ [] }
{
    answer(database.session_mut().batch_commit(mode_of(mode)))
}

/// Forgets what was added to the batch.
#[unsafe(no_mangle)]
pub extern "C" fn fjall_c_batch_clear(database: &mut Database)
    ensures empty { database.new.session.batch.items ≡ [] }
    ensures same { live_of database.new.session ≡ live_of database.old.session }
{
    database.session_mut().batch_clear();
}
