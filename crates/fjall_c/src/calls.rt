//! Calls that open, persist, flush and close, and the names of refusals.

ghost use Rattle.std.specs.Prelude.{◌≡◌, MatchOption, pos};
ghost use Rattle.fjall_c.specs.Answers.{Answers, NamesRefusal, mode_at};
ghost use Rattle.fjall_c.specs.Calls.{Calls, OfPersist, reply_of};
ghost use Rattle.fjall_c.specs.Live.{files_of, live_of};
ghost use Rattle.fjall_c.specs.Openings.{ClosesAs, Flushes, OpensOver};

use crate::answers::{answer, copy_to, mode_of, name_of};
use crate::handle::Database;
use fjall_base::Error;
use std::alloc::Global;

/// Opens the database of the files that it was told of, or begins one where there are none. Where it is refused, the database is
/// closed.
#[unsafe(no_mangle)]
pub extern "C" fn fjall_c_open(database: &mut Database) -> i32
    ensures answers { Answers result (OpensOver (files_of database.old.session) (live_of database.old.session) (live_of database.new.session)) }
    ensures batch { database.new.session.batch ≡ database.old.session.batch }
{
    answer(database.session_mut().open())
}

/// Writes out what waits of the journal and, in the modes 1 and 2, syncs it.
#[unsafe(no_mangle)]
pub extern "C" fn fjall_c_persist(database: &mut Database, mode: u8) -> i32
    ensures answers { MatchOption (mode_at mode) ((result ≡ pos 7) × (live_of database.new.session ≡ live_of database.old.session))
        (λ mode. Answers result (Calls (OfPersist mode) reply_of (live_of database.old.session) (live_of database.new.session))) }
    ensures batch { database.new.session.batch ≡ database.old.session.batch }
{
    match mode_of(mode) {
        Some(mode) => answer(database.session_mut().persist(mode)),
        None => answer(Err(Error::InvalidTag(("PersistMode", mode)))),
    }
}

/// Moves what a keyspace has in memory to a table, and merges its tables where that is due.
#[unsafe(no_mangle)]
pub extern "C" fn fjall_c_flush(database: &mut Database, keyspace: u64) -> i32
    ensures answers { Answers result (Flushes keyspace (live_of database.old.session) (live_of database.new.session)) }
    ensures batch { database.new.session.batch ≡ database.old.session.batch }
{
    answer(database.session_mut().flush(keyspace))
}

/// Syncs the journal and closes the database, whatever it answers. Each call answers the number of `Poisoned` from then on.
#[unsafe(no_mangle)]
pub extern "C" fn fjall_c_close(database: &mut Database) -> i32
    ensures answers { Answers result (ClosesAs (live_of database.old.session) (live_of database.new.session)) }
    ensures batch { database.new.session.batch ≡ database.old.session.batch }
{
    answer(database.session_mut().close())
}

/// Gives back what a database has of memory. The handle, and each copy of it, is none any more.
#[unsafe(no_mangle)]
pub extern "C" fn fjall_c_free(alloc: Global, database: Database) {
    drop(database.into_box(alloc));
}

/// The name of the refusals of a number, at the beginning of `room`, where that is as long. It answers how many bytes the name has: 0
/// where no refusal has the number.
#[unsafe(no_mangle)]
pub extern "C" fn fjall_c_error_name(number: u8, room: &mut [u8]) -> usize
    ensures { NamesRefusal number result room.old room.new }
{
    let name = name_of(number).as_bytes();
    copy_to(room, name);
    name.len()
}
