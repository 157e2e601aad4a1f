//! The data block that a writer of tables adds to.

ghost use Rattle.std.specs.Prelude.{◌≡◌, ◌*◌, ◌≤◌, ◌<◌, ◌^◌, ◌++◌, ◌↔◌, [], ◌∷◌, length, OnOk, OnErr, IsTrue, IsOkUnless, MatchOption};
ghost use Rattle.fjall_table.specs.Blocks.{seen, payload_of, refusal};
ghost use Rattle.fjall_table.specs.Tables.{first_key};
ghost use Rattle.fjall_table.specs.Writing.{IsOpen};

use crate::block::BLOCK_BYTES;
use crate::table_entry::TableEntry;
use fjall_base::{Error, Result};
use std::alloc::Global;
use std::marker::Model;

/// The entries of a block that isn't closed yet.
#[derive(Drop)]
pub(crate) struct OpenBlock {
    payload: Vec<u8>,
    entry_count: u64,
}

impl Model for OpenBlock {
    ghost use Rattle.std.specs.Prelude.{List};
    ghost use Rattle.fjall_table.specs.Blocks.{Entry};

    ghost Value = { List Entry };

    ghost use Rattle.fjall_table.specs.Writing.{entries_in, IsOpen};

    ghost view = { λ b. entries_in b.payload.items };

    ghost invariant = { λ b. IsOpen b.payload.items b.entry_count (entries_in b.payload.items) };
}

impl OpenBlock {
    pub(crate) fn new(alloc: Global) -> OpenBlock
        ensures { result ≡ [] }
    {
        OpenBlock {
            payload: Vec::new(alloc),
            entry_count: 0,
        }
    }

    pub(crate) fn is_empty(&self) -> bool
        ensures { IsTrue result ↔ self.now ≡ [] }
    {
        self.entry_count == 0
    }

    /// Whether it has reached the size at which a block is closed.
    pub(crate) fn is_full(&self) -> bool
        ensures { IsTrue result ↔ 4096 ≤ length (payload_of self.now) }
    {
        self.payload.len() >= BLOCK_BYTES
    }

    pub(crate) fn entry_count(&self) -> u64
        ensures count { result ≡ length self.now }
        ensures small { 2 * result < 2 ^ 64 }
    {
        self.entry_count
    }

    pub(crate) fn payload(&self) -> &[u8]
        ensures { IsOpen result.now (length self.now) self.now }
    {
        &self.payload
    }

    /// The key of the first entry.
    pub(crate) fn first_key(&self) -> &[u8]
        ensures key { result.now ≡ first_key self.now }
        ensures fits { length result.now < 2 ^ 16 }
    {
        match TableEntry::decode(&self.payload) {
            Some((version, _)) => version.key,
            None => &[],
        }
    }

    /// Adds an entry. An `Err` adds nothing, and comes as `TableEntry::encode_into` says.
    pub(crate) fn add(&mut self, version: &TableEntry<'_>) -> Result<()>
        requires { length (payload_of self.old) < 4096 }
        ensures ok { OnOk result (self.new ≡ self.old ++ seen version.now ∷ []) }
        ensures err { OnErr result (self.new ≡ self.old) }
        ensures refused { MatchOption (refusal (seen version.now)) (IsOkUnless result Error.OutOfMemory) (λ e. result ≡ Err e) }
    {
        version.encode_into(&mut self.payload)?;
        self.entry_count += 1;
        Ok(())
    }

    /// Removes all entries.
    pub(crate) fn clear(&mut self)
        ensures { self.new ≡ [] }
    {
        self.payload.clear();
        self.entry_count = 0;
    }
}
