//! Lives of engines one after another on one disk, which one call runs.

use crate::list::Wording;
use crate::session::Session;
use fjall_base::Result;
use fjall_calls::Reply;
use fjall_consistency::{Life, Outages, Turn, live};
use fjall_disk_memory::MemoryDisk;
use fjall_recorder::{LineError, Parsed, number, size};
use std::mem;

// Reads `close` or `drop`, which says whether a life is closed, `stay` or KEEP, and `CALL PART` where a call of the next life is to fail.
fn end(words: &[&str]) -> Parsed<(bool, Turn)> {
    let [how @ ("close" | "drop"), keep, fault @ ..] = words else {
        return Err(LineError::BadLine);
    };
    let keep = match *keep {
        "stay" => None,
        keep => Some(size(keep)?),
    };
    let (fails, part) = match fault {
        [] => (0, 0),
        [call, part] => (number(call)?, size(part)?),
        _ => return Err(LineError::BadLine),
    };
    Ok((*how == "close", Turn { keep, fails, part }))
}

impl Session {
    /// A life begins.
    pub(crate) fn begin_life(&mut self, out: &mut String) -> Result<()> {
        if !self.wordings.is_empty() {
            self.serve(out)?;
        }
        self.list.earlier = 0;
        self.list.is_life = true;
        self.wordings.push(Ok(Wording::Many(0)))?;
        Ok(())
    }

    /// A life ends.
    pub(crate) fn end_life(&mut self, how: &[&str]) -> Result<()> {
        let (closes, turn) = match end(how) {
            Ok(read) => read,
            Err(error) => return Ok(self.wordings.push(Err(error))?),
        };
        self.wordings.push(Ok(Wording::End))?;
        let (calls, wordings) = self.next_list();
        self.lives.push(Life { calls, closes })?;
        self.turns.push(turn)?;
        self.lines.push(wordings)?;
        Ok(())
    }

    /// Runs the lives on a new disk, and adds the answers to their lines. In each of them numbers begin anew.
    pub(crate) fn live(&mut self, out: &mut String) -> Result<()> {
        let alloc = self.alloc;
        let lives = mem::replace(&mut self.lives, Vec::new(alloc));
        let turns = mem::replace(&mut self.turns, Vec::new(alloc));
        let lines = mem::replace(&mut self.lines, Vec::new(alloc));
        let tickets = mem::replace(&mut self.tickets, Vec::new(alloc));
        let mut power = Outages { turns, made: 0 };
        let told = live(alloc, &mut power, MemoryDisk::new(alloc), lives)?;
        for (wordings, told) in lines.into_iter().zip(told) {
            let heard = match told {
                Ok(told) => {
                    let mut replies = told.replies;
                    replies.push(Reply::Flag(told.closed))?;
                    Ok(replies)
                }
                Err(error) => Err(Some(error)),
            };
            self.tickets.clear();
            self.tell(wordings, heard, out)?;
        }
        self.tickets = tickets;
        Ok(())
    }
}
