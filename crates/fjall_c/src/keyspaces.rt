//! The call that makes keyspaces.

ghost use Rattle.std.specs.Prelude.{◌≡◌};
ghost use Rattle.fjall_c.specs.Answers.{Answers, PutsNumber};
ghost use Rattle.fjall_c.specs.Calls.{Calls, OfCreation, default_options, number_reply};
ghost use Rattle.fjall_c.specs.Live.{live_of};

use crate::handle::Database;

/// The id of the keyspace of this name, which is made where none has it, into `keyspace`.
#[unsafe(no_mangle)]
pub extern "C" fn fjall_c_keyspace(database: &mut Database, name: &[u8], keyspace: &mut u64) -> i32
    ensures answers { Answers result (λ made. Calls (OfCreation name.now default_options) number_reply (live_of database.old.session) (live_of database.new.session) made
        × PutsNumber keyspace.old keyspace.new made) }
    ensures batch { database.new.session.batch ≡ database.old.session.batch }
{
    match database.session_mut().keyspace(name) {
        Ok(id) => {
            *keyspace = id;
            0
        }
        Err(error) => i32::from(error.number()),
    }
}
