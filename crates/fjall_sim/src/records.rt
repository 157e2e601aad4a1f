//! Lines of the records of the disk.

use crate::answer::count;
use crate::session::Session;
use fjall_recorder::{LineError, Parsed, Way, size};

impl Session {
    /// What a line of records is answered, or one of the disk.
    pub(crate) fn of_record(&mut self, words: &[&str]) -> Parsed<String> {
        let alloc = self.alloc;
        match words {
            ["moments"] => return Ok(count(alloc, self.disk.moments()?)?),
            ["stop"] => return self.stop(),
            ["record"] => self.disk.record(alloc)?,
            ["forget", kept] => self.tapes.truncate(size(kept)?),
            ["ways" | "names_at", tape, at] | ["image", tape, at, _] => {
                return self.of_tape(size(tape)?, size(at)?, words);
            }
            _ => return self.of_look(words),
        }
        Ok(String::from_str(alloc, "ok")?)
    }

    // The record ends, and is kept as a tape.
    fn stop(&mut self) -> Parsed<String> {
        let alloc = self.alloc;
        let Some(tape) = self.disk.stop(alloc)? else {
            return Ok(String::from_str(alloc, "none")?);
        };
        let moments = tape.moments();
        self.tapes.push(tape)?;
        Ok(format!(in alloc; "tape {} {moments}", self.tapes.len())?)
    }

    // What a line of the tape of this number, from 1 on, is answered: in how many ways a crash at a moment leaves something, in how many
    // of them files keep none of their unsynced bytes or all; or the disk is what such a crash leaves.
    fn of_tape(&mut self, number: usize, at: usize, words: &[&str]) -> Parsed<String> {
        let alloc = self.alloc;
        let Some(tape) = self.tapes.get_mut(number.wrapping_sub(1)) else {
            return Ok(String::from_str(alloc, "none")?);
        };
        let image = match words {
            ["ways", ..] => return Ok(count(alloc, tape.ways(at)?)?),
            ["names_at", ..] => return Ok(count(alloc, tape.names(at)?)?),
            [_, _, _, way] => tape.image(at, Way::read(way)?)?,
            _ => return Err(LineError::BadLine),
        };
        let is_there = image.is_some();
        if let Some(disk) = image {
            self.replace(disk)?;
        }
        Ok(String::from_str(alloc, if is_there { "ok" } else { "none" })?)
    }
}
