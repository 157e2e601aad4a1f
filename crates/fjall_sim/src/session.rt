//! A session: a disk in memory, the database on it where one is open, and what lines ask of them.

use crate::answer::{answer, refusal, undone};
use crate::list::{List, Wording};
use crate::own::is_own;
use fjall_base::{Error, Result};
use fjall_calls::{Core, Reply, Ticket, TxCall, run};
use fjall_consistency::{Life, Turn};
use fjall_recorder::{Handle, LineError, Parsed, Tape};
use std::alloc::Global;
use std::mem;

/// What a call is answered where no database is open.
pub const SHUT: &str = "shut";

/// The replies to a list of calls, or why it wasn't served: the refusal, none where no database is open.
pub type Heard = std::result::Result<Vec<Reply>, Option<Error>>;

/// A disk in memory, and the database on it where one is open.
#[derive(Drop)]
pub struct Session {
    pub(crate) alloc: Global,
    pub(crate) disk: Handle,
    pub(crate) core: Box<Option<Core<Handle>>>,
    pub(crate) list: List,
    // how the reply to each line of the list is worded, or why the line isn't done
    pub(crate) wordings: Vec<Parsed<Wording>>,
    // the lives that are to be run before the list, what happens behind each, and how the replies to its lines are worded
    pub(crate) lives: Vec<Life>,
    pub(crate) turns: Vec<Turn>,
    pub(crate) lines: Vec<Vec<Parsed<Wording>>>,
    pub(crate) tapes: Vec<Tape>,
    pub(crate) held: Option<Vec<u8>>,
    // of each line that has a number the snapshot that it opened, while its database is open
    pub(crate) tickets: Vec<Option<Ticket>>,
    // whether the disk was lost for want of memory
    pub(crate) is_lost: bool,
}

// The ticket of the snapshot that a call opened.
fn opened(replies: &[Reply]) -> Option<Ticket> {
    match replies.first() {
        Some(Reply::Opened(ticket)) => Some(*ticket),
        _ => None,
    }
}

impl Session {
    /// A session over an empty disk.
    pub fn new(alloc: Global) -> Result<Session> {
        let core = Box::new(alloc, None)?;
        let disk = Handle::new(alloc)?;
        Ok(Session {
            alloc,
            disk,
            core,
            list: List::new(alloc, 0),
            wordings: Vec::new(alloc),
            lives: Vec::new(alloc),
            turns: Vec::new(alloc),
            lines: Vec::new(alloc),
            tapes: Vec::new(alloc),
            held: None,
            tickets: Vec::new(alloc),
            is_lost: false,
        })
    }

    // Makes the calls of a list.
    fn run(&mut self, calls: Vec<TxCall>) -> Heard {
        match &mut *self.core {
            Some(core) => match run(self.alloc, core, calls) {
                Ok(replies) => Ok(replies),
                Err(error) => Err(Some(error)),
            },
            None => Err(None),
        }
    }

    /// Keeps the snapshot that a line opened, where the line gets a number, and gives the last number so far.
    pub(crate) fn keep_ticket(&mut self, wording: Wording, replies: &[Reply]) -> Result<usize> {
        if wording.is_numbered() {
            self.tickets.push(opened(replies))?;
        }
        Ok(self.tickets.len())
    }

    /// The calls of the list, and its lines; another one begins.
    pub(crate) fn next_list(&mut self) -> (Vec<TxCall>, Vec<Parsed<Wording>>) {
        let new = List::new(self.alloc, self.tickets.len());
        let list = mem::replace(&mut self.list, new);
        let wordings = mem::replace(&mut self.wordings, Vec::new(self.alloc));
        (list.calls, wordings)
    }

    /// Adds the answers to the lines of a list.
    pub(crate) fn tell(
        &mut self,
        wordings: Vec<Parsed<Wording>>,
        heard: Heard,
        out: &mut String,
    ) -> Result<()> {
        let alloc = self.alloc;
        let (replies, unserved) = match heard {
            Ok(replies) => (replies, None),
            Err(Some(error)) => (Vec::new(alloc), Some(refusal(alloc, error)?)),
            Err(None) => (Vec::new(alloc), Some(String::from_str(alloc, SHUT)?)),
        };
        let mut left = replies.as_slice();
        for wording in wordings {
            let told = match wording {
                Ok(wording) => {
                    let (own, later) = left.split_at(wording.calls().min(left.len()));
                    left = later;
                    let number = self.keep_ticket(wording, own)?;
                    match &unserved {
                        Some(why) => why.clone()?,
                        None => answer(alloc, wording, own, number)?,
                    }
                }
                Err(error) => undone(alloc, error)?,
            };
            out.push_str(&told)?;
            out.push_str("\n")?;
        }
        Ok(())
    }

    /// Runs the lives and serves the list, and adds the answers to their lines.
    pub(crate) fn serve(&mut self, out: &mut String) -> Result<()> {
        self.live(out)?;
        let (calls, wordings) = self.next_list();
        let heard = self.run(calls);
        self.tell(wordings, heard, out)?;
        self.list.earlier = self.tickets.len();
        Ok(())
    }

    // Serves the list, and then a line of its own, or one that names a snapshot of an earlier list.
    fn take_own(&mut self, words: &[&str], out: &mut String) -> Result<()> {
        self.serve(out)?;
        let done = if is_own(words) {
            self.own(words)
        } else {
            self.ask_earlier(words)
        };
        if self.is_lost {
            return Err(Error::OutOfMemory);
        }
        match done {
            Ok(told) => out.push_str(&told)?,
            Err(error) => out.push_str(&undone(self.alloc, error)?)?,
        }
        out.push_str("\n")?;
        Ok(())
    }

    /// Takes a line, and adds the answers that are due.
    pub fn take(&mut self, line: &str, out: &mut String) -> Result<()> {
        let Ok(words) = line.split(' ').collect::<Vec<&str>>(self.alloc) else {
            self.wordings
                .push(Err(LineError::Refused(Error::OutOfMemory)))?;
            return Ok(());
        };
        if is_own(&words) || self.is_of_earlier(&words) {
            return self.take_own(&words, out);
        }
        match words.as_slice() {
            ["life"] => self.begin_life(out),
            ["end", how @ ..] if self.list.is_life => self.end_life(how),
            words => {
                let wording = self.list.take(words);
                Ok(self.wordings.push(wording)?)
            }
        }
    }
}
