//! A reader of a journal, batch by batch.

ghost use Rattle.std.specs.Prelude.{◌≡◌, ◌-◌, ◌≤◌, length, false};
ghost use Rattle.fjall_journal.specs.Reader.{Reading, Next};

use crate::batch::{Batch, Stop, Tail};
use crate::parsing::batch_of;
use bytes::Bytes;
use fjall_base::{Error, Result};
use std::alloc::Global;
use std::marker::Model;

/// The whole batches of a journal's text, in order, and then once the damage behind them, if there is one. Their keys and
/// values are parts of the text. Where memory runs out, the reader is as it was, and the next call tries again.
#[derive(Drop)]
pub struct JournalBatchReader<'a> {
    alloc: Global,
    text: &'a Bytes,
    rest: &'a [u8],
    over: bool,
    tail: Tail,
}

impl<'a> Model for JournalBatchReader<'a> {
    ghost use Rattle.fjall_journal.specs.Reader.{Reading};
    ghost use Rattle.fjall_journal.specs.Reading.{IsRestOf};

    ghost Value = { Reading };

    ghost view = { λ r. record { text = r.text.now; rest = r.rest.now; over = r.over; tail = r.tail } };

    ghost invariant = { λ r. IsRestOf r.text.now r.rest.now };
}

impl<'a> JournalBatchReader<'a> {
    /// A reader at the beginning of the text.
    pub fn new(alloc: Global, text: &'a Bytes) -> JournalBatchReader<'a>
        ensures text { result.text ≡ text.now }
        ensures rest { result.rest ≡ text.now }
        ensures over { result.over ≡ false }
    {
        JournalBatchReader {
            alloc,
            text,
            rest: text.as_slice(),
            over: false,
            tail: Tail::Clean,
        }
    }

    /// Where the batches that were answered end.
    pub fn end(&self) -> usize
        ensures { result ≡ length self.now.text - length self.now.rest }
    {
        self.text.len() - self.rest.len()
    }

    /// What stands behind the whole batches, once `next` answered a damage or none.
    pub fn tail(&self) -> Tail
        ensures { result ≡ self.now.tail }
    {
        self.tail
    }
}

impl<'a> Iterator for JournalBatchReader<'a> {
    type Item = Result<Batch>;

    ghost next_gives = { Next };

    fn next(&mut self) -> Option<Result<Batch>> {
        if self.over {
            return None;
        }
        match batch_of(self.alloc, self.text, self.rest) {
            Ok((batch, after)) => {
                self.rest = after;
                Some(Ok(batch))
            }
            Err(Stop::Memory) => Some(Err(Error::OutOfMemory)),
            Err(Stop::Tail(tail)) => {
                self.over = true;
                self.tail = tail;
                match tail {
                    Tail::Damaged(damage) => Some(Err(Error::JournalRecovery(damage))),
                    Tail::Clean | Tail::Torn => None,
                }
            }
        }
    }
}
