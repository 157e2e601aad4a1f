//! Lines of the index.

use crate::answer::{Answer, Tried, Undone};
use crate::session::Session;
use fjall_index::{Indexed, KvPair, Slot, View};
use fjall_recorder::{bytes, number};
use std::alloc::Global;

/// Which index is asked for: the names of its keyspaces, and where the field stands in a value.
#[derive(Drop)]
pub struct Asked {
    main: String,
    index: String,
    slot: Slot,
}

/// An index that is open, and how it was asked for.
#[derive(Drop)]
pub struct Opened {
    pub(crate) asked: Asked,
    pub(crate) indexed: Indexed<Slot>,
}

// A number of 32 bits.
fn small(word: &str) -> Tried<u32> {
    match u32::try_from(number(word)?) {
        Ok(number) => Ok(number),
        Err(_) => Err(Undone::BadLine),
    }
}

// Reads `MAIN INDEX AT LEN`.
fn read_asked(alloc: Global, [main, index, at, len]: [&str; 4]) -> Tried<Asked> {
    let slot = Slot {
        at: small(at)?,
        len: small(len)?,
    };
    Ok(Asked {
        main: String::from_str(alloc, main)?,
        index: String::from_str(alloc, index)?,
        slot,
    })
}

// Reads pairs, each `K=V`.
fn pairs(alloc: Global, words: &[&str]) -> Tried<Vec<KvPair>> {
    let mut pairs = Vec::new(alloc);
    for word in words {
        let Some((key, value)) = word.split_once('=') else {
            return Err(Undone::BadLine);
        };
        let key = bytes(alloc, key)?;
        pairs.push((key, bytes(alloc, value)?))?;
    }
    Ok(pairs)
}

impl Session {
    // Takes an index in the place of an earlier one, whose transactions end.
    fn take_index(&mut self, asked: Asked, indexed: Indexed<Slot>) -> Tried<()> {
        self.end_transactions()?;
        self.opened = Some(Opened { asked, indexed });
        Ok(())
    }

    /// Opens an index, and makes what it lacks.
    pub(crate) fn open_index(&mut self, asked: Asked) -> Tried<()> {
        let (alloc, slot) = (self.alloc, asked.slot);
        let (main, index) = (asked.main.as_bytes(), asked.index.as_bytes());
        let indexed = Indexed::open(alloc, self.core()?, main, index, slot)?;
        self.take_index(asked, indexed)
    }

    // Makes an index right that may be stale, and opens it.
    fn rebuild_index(&mut self, asked: Asked) -> Tried<()> {
        let main = self.id_of(&asked.main)?;
        let index = self.id_of(&asked.index)?;
        let indexed = Indexed::rebuilt(self.alloc, self.core()?, main, index, asked.slot)?;
        self.take_index(asked, indexed)
    }

    /// What a line of the index is answered.
    pub(crate) fn of_index(&mut self, words: &[&str]) -> Tried<Answer> {
        let alloc = self.alloc;
        match words {
            ["index", main, index, at, len] => {
                self.open_index(read_asked(alloc, [main, index, at, len])?)?
            }
            ["rebuild", main, index, at, len] => {
                self.rebuild_index(read_asked(alloc, [main, index, at, len])?)?
            }
            _ => return self.of_open_index(words),
        }
        Ok(Answer::Done)
    }

    // What a line is answered that asks the index that is open.
    fn of_open_index(&mut self, words: &[&str]) -> Tried<Answer> {
        let alloc = self.alloc;
        let (indexed, core) = self.both()?;
        match words {
            ["put", key, value] => {
                let key = bytes(alloc, key)?;
                indexed.put(core, key, bytes(alloc, value)?)?
            }
            ["del", key] => indexed.del(core, bytes(alloc, key)?)?,
            ["load", given @ ..] => indexed.load(core, pairs(alloc, given)?)?,
            ["check"] => indexed.check(core)?,
            ["rebuild"] => indexed.rebuild(core)?,
            ["find", field] => {
                let found = indexed.find(core, View::Present, &bytes(alloc, field)?)?;
                return Ok(Answer::Pairs(found));
            }
            _ => return Err(Undone::BadLine),
        }
        Ok(Answer::Done)
    }
}
