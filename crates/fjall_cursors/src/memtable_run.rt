//! The versions of a memtable, as a run.

ghost use Rattle.std.specs.Prelude.{◌≡◌, ◌↔◌, [], drop, slice_get, IfOk, IsTrue};
ghost use Rattle.std.specs.Option.{option_map};
ghost use Rattle.fjall_table.specs.Blocks.{seen};
ghost use Rattle.fjall_memtable.specs.Sorted.{in_turn};
ghost use Rattle.fjall_cursors.specs.Heads.{with_head};
ghost use Rattle.fjall_cursors.specs.Keyed.{keyed_in};

use crate::run::{OwnedVersion, PageVersions, Run};
use fjall_base::Slice;
use fjall_memtable::Versions;
use fjall_table::TableEntry;
use std::alloc::{AllocError, Global};
use std::marker::Model;

/// The versions of a memtable in order, from the start or from behind. Contracts see what is left, the next one first.
#[derive(Drop)]
pub struct MemtableRun<'a> {
    head: Option<TableEntry<'a>>,
    rest: Versions<'a>,
    back: bool,
}

impl<'a> Model for MemtableRun<'a> {
    ghost use Rattle.std.specs.Prelude.{List};
    ghost use Rattle.fjall_table.specs.Blocks.{Entry};
    ghost use Rattle.fjall_memtable.specs.Sorted.{in_turn};
    ghost use Rattle.fjall_cursors.specs.Heads.{with_head};

    ghost Value = { List Entry };

    ghost view = { λ run. with_head run.head (in_turn run.back run.rest) };
}

// Takes the next version off.
#[inline(always)]
fn take_next<'a>(versions: &mut Versions<'a>, back: bool) -> Option<TableEntry<'a>>
    ensures { in_turn back versions.old ≡ with_head result (in_turn back versions.new) }
{
    if back {
        return versions.next_back();
    }
    versions.next()
}

impl<'a> MemtableRun<'a> {
    /// A run over these versions, from behind where `back` holds.
    pub fn new(versions: Versions<'a>, back: bool) -> MemtableRun<'a>
        ensures { result ≡ in_turn back versions.entry }
    {
        let mut rest = versions;
        let head = take_next(&mut rest, back);
        MemtableRun { head, rest, back }
    }
}

impl<'a> Run for MemtableRun<'a> {
    ghost left = { λ run. run };

    fn first(&self) -> Option<TableEntry<'_>>
        ensures { option_map seen result ≡ slice_get self.now 0 }
    {
        self.head
    }

    fn is_empty(&self) -> bool
        ensures { IsTrue result ↔ (self.now ≡ []) }
    {
        self.head.is_none()
    }

    fn pass(&mut self)
        ensures { self.new ≡ drop 1 self.old }
    {
        if self.head.is_some() {
            self.head = take_next(&mut self.rest, self.back);
        }
    }
}

impl<'a> PageVersions for MemtableRun<'a> {
    fn first_owned(&self, alloc: Global) -> Result<Option<OwnedVersion>, AllocError>
        ensures { IfOk result (λ version. version ≡ option_map keyed_in (slice_get self.now 0)) }
    {
        let Some(version) = &self.head else {
            return Ok(None);
        };
        let key = Slice::new(alloc, version.key)?;
        let value = match version.value {
            Some(value) => Some(Slice::new(alloc, value)?),
            None => None,
        };
        Ok(Some((key, value)))
    }
}
