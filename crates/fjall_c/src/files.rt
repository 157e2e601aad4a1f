//! Calls that tell of the folder's files, and that hand out what the folder is to take.

ghost use Rattle.std.specs.Prelude.{◌≡◌, ◌⊎◌, Err, IsOkUnless, pos};
ghost use Rattle.fjall_base.specs.declared.error.Error.TheVariants.{OutOfMemory};
ghost use Rattle.fjall_c.specs.Answers.{Answers, IsNoText};
ghost use Rattle.fjall_c.specs.Live.{files_of, live_of};
ghost use Rattle.fjall_c.specs.Openings.{PutsFile, PutsFolder};

use crate::answers::{answer, copy_to, text};
use crate::handle::Database;
use crate::mirror::change::ChangeKind;
use crate::session::Session;
use fjall_base::Result;
use std::alloc::Global;

// A session on the heap.
fn boxed(alloc: Global) -> Result<Box<Session>>
    ensures { IsOkUnless result OutOfMemory }
{
    Ok(Box::new(alloc, Session::new(alloc)?)?)
}

/// Makes a database that was told of no file yet, and puts its handle into `database`.
///
/// It answers 0, or the number of `OutOfMemory`, after which no handle was made.
#[unsafe(no_mangle)]
pub extern "C" fn fjall_c_new(alloc: Global, database: &mut *mut u8) -> i32
    ensures { (result ≡ pos 0) ⊎ ((result ≡ pos 17) × (database.new ≡ database.old)) }
{
    match boxed(alloc) {
        Ok(session) => {
            *database = Box::into_raw(session).cast::<u8>();
            0
        }
        Err(error) => i32::from(error.number()),
    }
}

/// Tells of a folder in the database's, by its name from the root on, as `keyspaces/1`. Those above it were told of before.
#[unsafe(no_mangle)]
pub extern "C" fn fjall_c_put_folder(database: &mut Database, name: &[u8]) -> i32
    ensures puts { Answers result (λ done. PutsFolder name.now (files_of database.old.session) (files_of database.new.session) done
        ⊎ (IsNoText name.now done × (files_of database.new.session ≡ files_of database.old.session))) }
    ensures same { live_of database.new.session ≡ live_of database.old.session }
    ensures batch { database.new.session.batch ≡ database.old.session.batch }
{
    match text(name) {
        Ok(name) => answer(database.session_mut().put_folder(name)),
        Err(error) => answer(Err(error)),
    }
}

/// Tells of a file in the database's folder, by its name from the root on, with its bytes.
#[unsafe(no_mangle)]
pub extern "C" fn fjall_c_put_file(database: &mut Database, name: &[u8], bytes: &[u8]) -> i32
    ensures puts { Answers result (λ done. PutsFile name.now bytes.now (files_of database.old.session) (files_of database.new.session) done
        ⊎ (IsNoText name.now done × (files_of database.new.session ≡ files_of database.old.session))) }
    ensures same { live_of database.new.session ≡ live_of database.old.session }
    ensures batch { database.new.session.batch ≡ database.old.session.batch }
{
    match text(name) {
        Ok(name) => answer(database.session_mut().put_file(name, bytes)),
        Err(error) => answer(Err(error)),
    }
}

/// How many bytes the name and the bytes of the first change have that the folder is still to take. It answers whether there is one.
#[unsafe(no_mangle)]
pub extern "C" fn fjall_c_change_lengths(
    database: &mut Database,
    name_len: &mut usize,
    bytes_len: &mut usize,
) -> bool
    ensures { database.new.session ≡ database.old.session }
{
    match database.session_mut().change_lengths() {
        Some(lengths) => {
            *name_len = lengths.0;
            *bytes_len = lengths.1;
            true
        }
        None => false,
    }
}

// The number of a kind of change.
fn kind_number(kind: ChangeKind) -> u8 {
    match kind {
        ChangeKind::Create => 1,
        ChangeKind::Append => 2,
        ChangeKind::Sync => 3,
        ChangeKind::Cut => 4,
        ChangeKind::Remove => 5,
        ChangeKind::RemoveFolder => 6,
        ChangeKind::MakeFolder => 7,
        ChangeKind::SyncFolder => 8,
    }
}

/// Gives the first change away that the folder is still to take: the number of its kind, 0 where there is none, its name and its bytes
/// at the beginning of their rooms, which are as long as `fjall_c_change_lengths` says, and the length that a file is cut to.
#[unsafe(no_mangle)]
pub extern "C" fn fjall_c_take_change(
    database: &mut Database,
    name: &mut [u8],
    bytes: &mut [u8],
    len: &mut usize,
) -> u8
    ensures place { database.new.session.place ≡ database.old.session.place }
    ensures batch { database.new.session.batch ≡ database.old.session.batch }
{
    match database.session_mut().take_change() {
        Some(change) => {
            copy_to(name, change.name.as_bytes());
            copy_to(bytes, &change.bytes);
            *len = change.len;
            kind_number(change.kind)
        }
        None => 0,
    }
}
