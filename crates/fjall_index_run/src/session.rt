//! A session: a disk in memory, the core on it and the index over that, where they are open, and which lines ask what of them.

use crate::answer::{Answer, Tried, Undone};
use crate::index_lines::Opened;
use crate::numbered::Numbered;
use fjall_index::{Core, Indexed, Slot};
use fjall_recorder::{Handle, Tape, size};
use std::alloc::Global;

/// A disk in memory, with the core and the index that are open on it.
#[derive(Drop)]
pub struct Session {
    pub(crate) alloc: Global,
    pub(crate) disk: Handle,
    pub(crate) core: Box<Option<Core<Handle>>>,
    /// An index is open only where a core is.
    pub(crate) opened: Option<Opened>,
    /// How many lines have numbers.
    pub(crate) asked: usize,
    /// What these lines opened, in their order.
    pub(crate) numbered: Vec<Numbered>,
    pub(crate) tapes: Vec<Tape>,
}

impl Session {
    /// The core.
    pub(crate) fn core(&mut self) -> Tried<&mut Core<Handle>> {
        match &mut *self.core {
            Some(core) => Ok(core),
            None => Err(Undone::Shut),
        }
    }

    /// The index and the core. A line that asks for them where no index is open is no command.
    pub(crate) fn both(&mut self) -> Tried<(&Indexed<Slot>, &mut Core<Handle>)> {
        match (&self.opened, &mut *self.core) {
            (Some(opened), Some(core)) => Ok((&opened.indexed, core)),
            _ => Err(Undone::BadLine),
        }
    }

    // What words ask for.
    fn answer(&mut self, words: &[&str]) -> Tried<Answer> {
        match words {
            ["crash", keep] => match self.crash(size(keep)?) {
                Ok(()) => Ok(Answer::Done),
                Err(undone) => Err(undone.ending()),
            },
            ["put-in" | "del-in" | "commit" | "rollback", ..] => self.of_transaction(words),
            ["find-at", ..] | ["close", _] => self.of_snapshot(words),
            ["insert" | "remove" | "pairs" | "flush", ..] => self.of_keyspace(words),
            ["persist" | "journal" | "open" | "close" | "new"] => self.of_core(words),
            ["fail" | "faults" | "record" | "moments" | "stop", ..] => self.of_disk(words),
            ["ways" | "image", tape, moment, ..] => self.of_tape(tape, moment, words),
            _ => self.of_index(words),
        }
    }

    /// Does what a line asks for.
    pub fn take(&mut self, line: &str) -> Tried<Answer> {
        // lines that get numbers are read without memory, so that none is missed
        match line {
            "begin" => self.begin(),
            "snapshot" => self.snapshot(),
            _ => {
                let words = line.split(' ').collect::<Vec<&str>>(self.alloc)?;
                self.answer(&words)
            }
        }
    }
}
