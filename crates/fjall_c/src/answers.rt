//! Answers as numbers, and what is told beside them.

ghost use Rattle.std.specs.Prelude.{◌≡◌, IfErr, IfOk};
ghost use Rattle.std.specs.Str.{IsUtf8};
ghost use Rattle.fjall_c.specs.Answers.{Copies, IsNameOf, IsRefusalOf, PutsId, answer_of, mode_at, outcome_number};

use fjall_base::{CompressionType, Error, JournalRecoveryError, Result, StorageError};
use fjall_core::{CommitOutcome, Ticket};
use fjall_journal::PersistMode;
use std::io::ErrorKind;
use std::str;

/// 0 for what was done, and else the number of the refusal.
pub(crate) fn answer(done: Result<()>) -> i32
    ensures { result ≡ answer_of done }
{
    match done {
        Ok(()) => 0,
        Err(error) => i32::from(error.number()),
    }
}

/// 0 for what is committed, -1 for a conflict, and else the number of the refusal.
pub(crate) fn answer_outcome(outcome: CommitOutcome<Error>) -> i32
    ensures { result ≡ outcome_number outcome }
{
    match outcome {
        CommitOutcome::Ok => 0,
        CommitOutcome::Conflicted => -1,
        CommitOutcome::Aborted(error) => i32::from(error.number()),
    }
}

/// Puts the id of a ticket into its place, where there is one.
pub(crate) fn put_id(opened: Result<Ticket>, id: &mut u64) -> i32
    ensures number { result ≡ answer_of opened }
    ensures puts { PutsId id.old id.new opened }
{
    match opened {
        Ok(ticket) => {
            *id = ticket.id;
            0
        }
        Err(error) => i32::from(error.number()),
    }
}

/// Copies bytes to the beginning of a room that is as long. Of more bytes nothing is copied.
pub(crate) fn copy_to(room: &mut [u8], bytes: &[u8])
    ensures { Copies bytes.now room.old room.new }
{
    if bytes.len() <= room.len() {
        room[..bytes.len()].copy_from_slice(bytes);
    }
}

/// The text of a name, or `Io(InvalidInput)` where it isn't UTF-8.
pub(crate) fn text(name: &[u8]) -> Result<&str>
    ensures ok { IfOk result (λ text. text.now ≡ name.now) }
    ensures err { IfErr result (λ error. (IsUtf8 name.now → ⊥) × (error ≡ Error.Io ErrorKind.InvalidInput)) }
{
    match str::from_utf8(name) {
        Ok(text) => Ok(text),
        Err(_) => Err(Error::Io(ErrorKind::InvalidInput)),
    }
}

/// A mode by its number: 0 for the system's buffers, 1 for the bytes on the device, 2 for the file's metadata too.
pub(crate) fn mode_of(number: u8) -> Option<PersistMode>
    ensures { result ≡ mode_at number }
{
    match number {
        0 => Some(PersistMode::Buffer),
        1 => Some(PersistMode::SyncData),
        2 => Some(PersistMode::SyncAll),
        _ => None,
    }
}

// A refusal of this number, where there are some.
fn refusal_of(number: u8) -> Option<Error>
    ensures { IsRefusalOf number result }
{
    match number {
        1 => Some(Error::Io(ErrorKind::Other)),
        2 => Some(Error::Storage(StorageError::TableDamaged)),
        3 => Some(Error::JournalRecovery(JournalRecoveryError::TornTail)),
        4 => Some(Error::InvalidVersion(None)),
        5 => Some(Error::Decompress(CompressionType::None)),
        6 => Some(Error::InvalidTrailer),
        7 => Some(Error::InvalidTag(("", number))),
        8 => Some(Error::Poisoned),
        9 => Some(Error::KeyspaceDeleted),
        10 => Some(Error::Locked),
        11 => Some(Error::Unrecoverable),
        12 => Some(Error::KeyEmpty),
        13 => Some(Error::KeyTooLong),
        14 => Some(Error::ValueTooLong),
        15 => Some(Error::InvalidName),
        16 => Some(Error::KeyOrder),
        17 => Some(Error::OutOfMemory),
        18 => Some(Error::NumbersUsedUp),
        19 => Some(Error::UnknownKeyspace),
        20 => Some(Error::SnapshotClosed),
        21 => Some(Error::TransactionOpen),
        22 => Some(Error::TooManyItems),
        _ => None,
    }
}

/// The name of the refusals of a number, and none of a number that no refusal has.
pub(crate) fn name_of(number: u8) -> &'static str
    ensures { IsNameOf number result.now }
{
    match refusal_of(number) {
        Some(error) => error.name(),
        None => "",
    }
}
