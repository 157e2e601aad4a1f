//! Lines of the disk: its faults and its records.

use crate::answer::{Answer, Tried, Undone};
use crate::session::Session;
use fjall_recorder::{Part, Tape, Way, number, size};

// How much of an append that fails goes out.
fn part(word: &str) -> Tried<Part> {
    match word {
        "half" => Ok(Part::Half),
        "all" => Ok(Part::Bytes(usize::MAX)),
        _ => Ok(Part::Bytes(size(word)?)),
    }
}

impl Session {
    /// What a line is answered of the disk's faults, or of the record that it keeps.
    pub(crate) fn of_disk(&mut self, words: &[&str]) -> Tried<Answer> {
        match words {
            ["fail", call, out] => self.disk.fail(number(call)?, part(out)?)?,
            ["faults"] => return Ok(Answer::Count(self.disk.failed()?)),
            ["record"] => self.disk.record(self.alloc)?,
            ["moments"] => return Ok(Answer::Count(self.disk.moments()? as u64)),
            ["stop"] => return self.stop(),
            _ => return Err(Undone::BadLine),
        }
        Ok(Answer::Done)
    }

    // The record ends, and is kept as a tape.
    fn stop(&mut self) -> Tried<Answer> {
        let Some(tape) = self.disk.stop(self.alloc)? else {
            return Ok(Answer::Nothing);
        };
        let moments = tape.moments();
        self.tapes.push(tape)?;
        Ok(Answer::Tape(self.tapes.len(), moments))
    }

    // The tape of a number.
    fn tape(&mut self, number: &str) -> Tried<Option<&mut Tape>> {
        Ok(self.tapes.get_mut(size(number)?.wrapping_sub(1)))
    }

    /// What a line is answered of a tape and one of its moments.
    pub(crate) fn of_tape(&mut self, tape: &str, moment: &str, words: &[&str]) -> Tried<Answer> {
        let moment = size(moment)?;
        let Some(tape) = self.tape(tape)? else {
            return Ok(Answer::Nothing);
        };
        match words {
            ["ways", _, _] => Ok(Answer::Count(tape.ways(moment)? as u64)),
            ["image", _, _, way] => match tape.image(moment, Way::read(way)?)? {
                Some(disk) => {
                    self.leave();
                    self.disk.replace(self.alloc, disk)?;
                    Ok(Answer::Done)
                }
                None => Ok(Answer::Nothing),
            },
            _ => Err(Undone::BadLine),
        }
    }
}
