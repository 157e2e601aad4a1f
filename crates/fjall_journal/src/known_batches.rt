//! A second reader of a journal, which passes the checks over.

ghost use Rattle.std.specs.Prelude.{◌≡◌, ◌++◌, ◌<◌, [], List, ℕ, length, IfOk, IfSome, OnOk, OnErr, IsOkUnless};
ghost use Rattle.fjall_journal.specs.Batches.{Written, IsWritten, batch_text};
ghost use Rattle.fjall_journal.specs.Reader.{FindsBatch};

use crate::batch::{Batch, Stop};
use crate::parsing::known_batch_of;
use bytes::Bytes;
use fjall_base::{Error, Result};
use std::alloc::Global;
use std::marker::Model;

/// The batches of a text of which it is known that it is whole batches, one behind another: it was read before, and
/// their checks were taken then, which are passed over here. Keys and values are parts of the text. Of another text it
/// answers some batches or none, and ends.
#[derive(Drop)]
pub struct KnownBatches<'a> {
    alloc: Global,
    text: &'a Bytes,
    rest: &'a [u8],
}

impl<'a> Model for KnownBatches<'a> {
    ghost use Rattle.std.specs.Prelude.{List, ℕ};
    ghost use Rattle.fjall_journal.specs.Reading.{IsRestOf};

    ghost Value = { List ℕ };

    ghost view = { λ batches. batches.rest.now };

    ghost invariant = { λ batches. IsRestOf batches.text.now batches.rest.now };
}

impl<'a> KnownBatches<'a> {
    /// A reader at the beginning of the text.
    pub fn new(alloc: Global, text: &'a Bytes) -> KnownBatches<'a>
        ensures { result ≡ text.now }
    {
        KnownBatches {
            alloc,
            text,
            rest: text.as_slice(),
        }
    }

    /// The next batch, or `None` at the end. Want of memory leaves the reader as it was.
    pub fn next_batch(&mut self) -> Result<Option<Batch>>
        // A whole batch that stands at the front is answered.
        ensures known { (written : Written) (more : List ℕ) → IsWritten written → self.old ≡ batch_text written ++ more → IfOk result (λ found. FindsBatch found written) }
        // What stands behind it is left.
        ensures left { (written : Written) (more : List ℕ) → IsWritten written → self.old ≡ batch_text written ++ more → OnOk result (self.new ≡ more) }
        ensures end { self.old ≡ [] → result ≡ Ok None }
        ensures shorter { IfOk result (λ found. IfSome found (λ _. length self.new < length self.old)) }
        ensures unchanged { OnErr result (self.new ≡ self.old) }
        ensures only { IsOkUnless result Error.OutOfMemory }
    {
        if self.rest.is_empty() {
            return Ok(None);
        }
        match known_batch_of(self.alloc, self.text, self.rest) {
            Ok((batch, after)) => {
                self.rest = after;
                Ok(Some(batch))
            }
            Err(Stop::Memory) => Err(Error::OutOfMemory),
            Err(Stop::Tail(_)) => Ok(None),
        }
    }
}
