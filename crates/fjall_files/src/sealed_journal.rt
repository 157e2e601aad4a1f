//! A sealed journal.

ghost use Rattle.std.specs.Prelude.{◌≡◌, IfOk, IsOkUnless, string_bytes};
ghost use Rattle.std.specs.List.Sorted.{IsStrictlyIncreasing};
ghost use Rattle.fjall_files.specs.Names.{journal_name};
ghost use Rattle.fjall_files.specs.Journals.{may_go};
ghost use Rattle.fjall_files.specs.Marks.{unflushed};

use crate::flushed::Flushed;
use crate::names::journal_name;
use crate::watermarks::Watermarks;
use fjall_base::{Error, Result};
use std::alloc::Global;
use std::marker::Model;

/// A journal that is appended to no more, and stays until the changes in it stand in tables.
///
/// It keeps the name of its file, so that its removal takes no memory.
#[derive(Drop)]
pub struct SealedJournal {
    id: u64,
    len: u64,
    watermarks: Watermarks,
    name: String,
}

impl Model for SealedJournal {
    ghost use Rattle.std.specs.Prelude.{◌≡◌, string_bytes};
    ghost use Rattle.fjall_files.specs.Names.{journal_name};
    ghost use Rattle.fjall_files.specs.Journals.{Sealed};

    ghost Value = { Sealed };

    ghost view = { λ j. record { id = j.id; len = j.len; watermarks = j.watermarks } };

    ghost invariant = { λ j. string_bytes j.name ≡ journal_name j.id };
}

impl SealedJournal {
    /// The journal of this number, whose file has `len` bytes.
    pub fn new(alloc: Global, id: u64, len: u64, watermarks: Watermarks) -> Result<SealedJournal>
        ensures ok { IfOk result (λ j. j ≡ record { id = id; len = len; watermarks = watermarks }) }
        ensures only { IsOkUnless result Error.OutOfMemory }
    {
        let name = journal_name(alloc, id)?;
        Ok(SealedJournal::with_name(name, id, len, watermarks))
    }

    /// The same, where its name is made already.
    pub(crate) fn with_name(
        name: String,
        id: u64,
        len: u64,
        watermarks: Watermarks,
    ) -> SealedJournal
        requires { string_bytes name ≡ journal_name id }
        ensures { result ≡ record { id = id; len = len; watermarks = watermarks } }
    {
        SealedJournal {
            id,
            len,
            watermarks,
            name,
        }
    }

    /// Its number, which its file is named by.
    pub fn id(&self) -> u64
        ensures { result ≡ self.now.id }
    {
        self.id
    }

    /// The length of its file in bytes.
    pub fn len(&self) -> u64
        ensures { result ≡ self.now.len }
    {
        self.len
    }

    /// Up to which number each keyspace has changes in it.
    pub fn watermarks(&self) -> &Watermarks
        ensures { result.now ≡ self.now.watermarks }
    {
        &self.watermarks
    }

    /// The name of its file.
    pub(crate) fn name(&self) -> &str
        ensures { result.now ≡ journal_name self.now.id }
    {
        self.name.as_str()
    }

    /// Whether no keyspace wants it any more.
    pub(crate) fn may_go<F: Flushed>(&self, flushed: &F) -> bool
        ensures { result ≡ may_go (F.flushed flushed.now) self.now }
    {
        self.watermarks.all_flushed(flushed)
    }
}
