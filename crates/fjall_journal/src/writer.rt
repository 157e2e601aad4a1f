//! The append side of a journal: batches go into a buffer, and the buffer to the end of a file.

ghost use Rattle.std.specs.Prelude.{◌≡◌, ◌⊎◌, ◌+◌, ◌<◌, [], length, take, OnOk, OnErr, IfOk, IfErr, IsOk, IsErrOf, IsOkUnless, IsTrue, None, Ok};
ghost use Rattle.fjall_base.specs.Disk.{CanCreate, Took, TookOrNot, TookPart, HasCause, OnlyFaults, state_in};
ghost use Rattle.fjall_base.specs.Limits.{item_refusal};
ghost use Rattle.fjall_journal.specs.Batches.{of_item, item_text, IsWritten};
ghost use Rattle.fjall_journal.specs.Ops.{HasBatchCause, items_refusal, items_text, of_items};
ghost use Rattle.fjall_journal.specs.Changes.{Emptied, change_text, of_change};
ghost use Rattle.fjall_journal.specs.Writer.{counted, full_out, full_steps, syncing, written_out, appending, after_write, persist_steps, Waits, WroteText, WroteNone, HasWriteCause, IsIo, ServesFile, PersistTook, making_synced, MakingTook};

use crate::batch_text::{put_batch, put_emptying, put_items};
use crate::entry::ValueType;
use crate::op::{BatchItem, check_items};
use crate::persist_mode::PersistMode;
use fjall_base::{CompressionType, Disk, Error, Result};
use std::alloc::Global;
use std::marker::Model;

/// The buffer goes to the file by itself once it has so many bytes.
pub const JOURNAL_BUFFER_BYTES: usize = 8 * 1_024;

/// Writes batches to the end of a journal's file. A disk that fails may have taken some beginning of the bytes that
/// it was given; the writer then is as it was before the call, and must not be used again.
#[derive(Drop)]
pub struct Writer {
    name: String,
    buffer: Vec<u8>,
    len: u64,
}

impl Model for Writer {
    ghost use Rattle.std.specs.Prelude.{string_bytes, ◌<◌, ◌^◌};
    ghost use Rattle.fjall_journal.specs.Writer.{Journal};

    ghost Value = { Journal };

    ghost view = { λ w. record { name = string_bytes w.name; buffer = w.buffer.items; len = w.len } };

    ghost invariant = { λ w. w.len < 2 ^ 64 };
}

impl Writer {
    /// Makes an empty file of this name, where none is there, and syncs it, but not its folder. Memory is asked for
    /// before the disk is.
    pub fn create_new<D: Disk>(alloc: Global, disk: &mut D, name: &str) -> Result<Writer>
        ensures ok { IfOk result (λ w. w ≡ record { name = name.now; buffer = []; len = 0 }) }
        ensures took { IsTrue D.honest → OnOk result (Took (D.meaning disk.old) (D.meaning disk.new) (making_synced (D.meaning disk.old) name.now)) }
        ensures part { IsTrue D.honest → OnErr result (MakingTook (D.meaning disk.old) (D.meaning disk.new) name.now) }
        ensures served { IsTrue D.honest → CanCreate (state_in (D.meaning disk.old)) name.now → (D.meaning disk.new).misuses ≡ (D.meaning disk.old).misuses }
        ensures cause { HasCause (D.meaning disk.old) (D.meaning disk.new) result }
    {
        let writer = Writer::from_file(alloc, name, 0)?;
        disk.create(name)?;
        disk.sync(name)?;
        Ok(writer)
    }

    /// A writer that goes on at the end of a file of that length.
    pub fn from_file(alloc: Global, name: &str, len: u64) -> Result<Writer>
        ensures ok { IfOk result (λ w. w ≡ record { name = name.now; buffer = []; len = len }) }
        ensures only { IsOkUnless result Error.OutOfMemory }
    {
        Ok(Writer {
            name: String::from_str(alloc, name)?,
            buffer: Vec::new(alloc),
            len,
        })
    }

    /// Takes how the values of later batches are to be stored: as they are, which is the only kind that there is. So the
    /// writer stays as it is, and nothing that it writes is another.
    pub fn set_compression(&mut self, compression: CompressionType)
        ensures { self.new ≡ self.old }
    {
        match compression {
            CompressionType::None => {}
        }
    }

    /// The length that the file has once all is written out, at most the greatest `u64`.
    pub fn pos(&self) -> u64
        ensures { result ≡ counted (self.now.len + length self.now.buffer) }
    {
        self.len.saturating_add(self.buffer.len() as u64)
    }

    /// The length of the file, at most the greatest `u64`.
    pub fn len(&self) -> u64
        ensures { result ≡ self.now.len }
    {
        self.len
    }

    fn write_out<D: Disk>(&mut self, disk: &mut D) -> Result<()>
        ensures ok { OnOk result (self.new ≡ written_out self.old) }
        ensures unchanged { OnErr result (self.new ≡ self.old) }
        ensures took { IsTrue D.honest → OnOk result (Took (D.meaning disk.old) (D.meaning disk.new) (appending self.old.name self.old.buffer)) }
        ensures part { IsTrue D.honest → OnErr result (TookPart (D.meaning disk.old) (D.meaning disk.new) self.old.name self.old.buffer) }
        ensures succeeds { self.old.buffer ≡ [] → IsOk result }
        ensures served { IsTrue D.honest → ServesFile (D.meaning disk.old) (D.meaning disk.new) self.old.name }
        ensures cause { OnlyFaults (D.meaning disk.old) (D.meaning disk.new) result }
    {
        if self.buffer.is_empty() {
            return Ok(());
        }
        disk.append(&self.name, &self.buffer)?;
        self.len = self.len.saturating_add(self.buffer.len() as u64);
        self.buffer.clear();
        Ok(())
    }

    /// Appends the buffer to the file once it has 8,192 bytes. Where the disk fails, the buffer keeps its first `before`
    /// bytes alone.
    fn write_out_full<D: Disk>(&mut self, disk: &mut D, before: usize) -> Result<()>
        ensures ok { OnOk result (self.new ≡ full_out self.old) }
        ensures err { OnErr result (self.new ≡ record self.old { buffer = take before self.old.buffer }) }
        ensures took { IsTrue D.honest → OnOk result (Took (D.meaning disk.old) (D.meaning disk.new) (full_steps self.old)) }
        ensures part { IsTrue D.honest → OnErr result (TookPart (D.meaning disk.old) (D.meaning disk.new) self.old.name self.old.buffer) }
        ensures served { IsTrue D.honest → ServesFile (D.meaning disk.old) (D.meaning disk.new) self.old.name }
        ensures cause { OnlyFaults (D.meaning disk.old) (D.meaning disk.new) result }
        ensures waits { length self.old.buffer < 8192 → IsOk result × (D.meaning disk.new ≡ D.meaning disk.old) }
    {
        if self.buffer.len() >= JOURNAL_BUFFER_BYTES
            && let Err(error) = self.write_out(disk)
        {
            self.buffer.truncate(before);
            return Err(error);
        }
        Ok(())
    }

    /// Writes one item as a batch of its own, and answers the length of its text. The buffer goes to the file once it
    /// has 8,192 bytes. A key or a value that no item can have is refused before all else.
    pub fn write_raw<D: Disk>(
        &mut self,
        disk: &mut D,
        keyspace_id: u64,
        key: &[u8],
        value: &[u8],
        value_type: ValueType,
        seqno: u64,
    ) -> Result<usize>
        ensures ok { OnOk result (self.new ≡ after_write self.old (item_text keyspace_id key.now value.now value_type seqno)) }
        ensures fits { OnOk result (IsWritten (of_item keyspace_id key.now value.now value_type seqno)) }
        // So it has a text also where the disk fails.
        ensures tried { IfErr result (λ e. IsIo e → IsWritten (of_item keyspace_id key.now value.now value_type seqno)) }
        ensures count { IfOk result (λ n. n ≡ length (item_text keyspace_id key.now value.now value_type seqno)) }
        ensures unchanged { OnErr result (self.new ≡ self.old) }
        ensures took { IsTrue D.honest
            → OnOk result (WroteText (D.meaning disk.old) (D.meaning disk.new) self.old (item_text keyspace_id key.now value.now value_type seqno)) }
        ensures part { IsTrue D.honest
            → IfErr result (WroteNone (D.meaning disk.old) (D.meaning disk.new) self.old (item_text keyspace_id key.now value.now value_type seqno)) }
        ensures untouched { IsErrOf result Error.OutOfMemory → D.meaning disk.new ≡ D.meaning disk.old }
        ensures served { IsTrue D.honest → ServesFile (D.meaning disk.old) (D.meaning disk.new) self.old.name }
        ensures cause { HasWriteCause key.now value.now (D.meaning disk.old) (D.meaning disk.new) result }
        // Below 8,192 bytes nothing goes to the disk, and no fault can come.
        ensures waits { Waits self.old (item_text keyspace_id key.now value.now value_type seqno) → D.meaning disk.new ≡ D.meaning disk.old }
        ensures faultless { Waits self.old (item_text keyspace_id key.now value.now value_type seqno)
            → item_refusal key.now value.now ≡ None → IsOkUnless result Error.OutOfMemory }
    {
        let before = self.buffer.len();
        let count = put_batch(&mut self.buffer, keyspace_id, key, value, value_type, seqno)?;
        self.write_out_full(disk, before)?;
        Ok(count)
    }

    /// Writes these items as one batch, and answers the length of its text. The buffer goes to the file once it has
    /// 8,192 bytes. No items are no batch: nothing is written, and the answer is 0. Items that no batch can have are
    /// refused before all else, as [`check_items`] does; an `Err` leaves the writer as it was.
    pub fn write_batch<D: Disk>(
        &mut self,
        disk: &mut D,
        items: &[BatchItem],
        seqno: u64,
    ) -> Result<usize>
        ensures ok { 0 < length items.now → OnOk result (self.new ≡ after_write self.old (items_text items.now seqno)) }
        ensures empty { items.now ≡ [] → (result ≡ Ok 0) × (self.new ≡ self.old) × (D.meaning disk.new ≡ D.meaning disk.old) }
        ensures fits { OnOk result (IsWritten (of_items items.now seqno)) }
        // So it has a text also where the disk fails.
        ensures tried { IfErr result (λ e. IsIo e → IsWritten (of_items items.now seqno)) }
        ensures count { 0 < length items.now → IfOk result (λ n. n ≡ length (items_text items.now seqno)) }
        ensures unchanged { OnErr result (self.new ≡ self.old) }
        ensures took { IsTrue D.honest → 0 < length items.now
            → OnOk result (WroteText (D.meaning disk.old) (D.meaning disk.new) self.old (items_text items.now seqno)) }
        ensures part { IsTrue D.honest
            → IfErr result (WroteNone (D.meaning disk.old) (D.meaning disk.new) self.old (items_text items.now seqno)) }
        ensures untouched { IsErrOf result Error.OutOfMemory → D.meaning disk.new ≡ D.meaning disk.old }
        ensures served { IsTrue D.honest → ServesFile (D.meaning disk.old) (D.meaning disk.new) self.old.name }
        ensures cause { HasBatchCause items.now (D.meaning disk.old) (D.meaning disk.new) result }
        // Below 8,192 bytes nothing goes to the disk, and no fault can come.
        ensures waits { Waits self.old (items_text items.now seqno) → D.meaning disk.new ≡ D.meaning disk.old }
        ensures faultless { Waits self.old (items_text items.now seqno)
            → items_refusal items.now ≡ None → IsOkUnless result Error.OutOfMemory }
    {
        check_items(items)?;
        if items.is_empty() {
            return Ok(0);
        }
        let before = self.buffer.len();
        let count = put_items(&mut self.buffer, items, seqno)?;
        self.write_out_full(disk, before)?;
        Ok(count)
    }

    /// Writes a batch that empties a keyspace, and answers the length of its text. The buffer goes to the file once it
    /// has 8,192 bytes. An `Err` leaves the writer as it was.
    pub fn write_clear<D: Disk>(
        &mut self,
        disk: &mut D,
        keyspace_id: u64,
        seqno: u64,
    ) -> Result<usize>
        ensures ok { OnOk result (self.new ≡ after_write self.old (change_text (Emptied keyspace_id) seqno)) }
        ensures fits { OnOk result (IsWritten (of_change (Emptied keyspace_id) seqno)) }
        // So it has a text also where the disk fails.
        ensures tried { IfErr result (λ e. IsIo e → IsWritten (of_change (Emptied keyspace_id) seqno)) }
        ensures count { IfOk result (λ n. n ≡ length (change_text (Emptied keyspace_id) seqno)) }
        ensures unchanged { OnErr result (self.new ≡ self.old) }
        ensures took { IsTrue D.honest
            → OnOk result (WroteText (D.meaning disk.old) (D.meaning disk.new) self.old (change_text (Emptied keyspace_id) seqno)) }
        ensures part { IsTrue D.honest
            → IfErr result (WroteNone (D.meaning disk.old) (D.meaning disk.new) self.old (change_text (Emptied keyspace_id) seqno)) }
        ensures untouched { IsErrOf result Error.OutOfMemory → D.meaning disk.new ≡ D.meaning disk.old }
        ensures served { IsTrue D.honest → ServesFile (D.meaning disk.old) (D.meaning disk.new) self.old.name }
        ensures cause { HasCause (D.meaning disk.old) (D.meaning disk.new) result }
        // Below 8,192 bytes nothing goes to the disk, and no fault can come.
        ensures waits { Waits self.old (change_text (Emptied keyspace_id) seqno) → D.meaning disk.new ≡ D.meaning disk.old }
        ensures faultless { Waits self.old (change_text (Emptied keyspace_id) seqno) → IsOkUnless result Error.OutOfMemory }
    {
        let before = self.buffer.len();
        let count = put_emptying(&mut self.buffer, keyspace_id, seqno)?;
        self.write_out_full(disk, before)?;
        Ok(count)
    }

    /// Appends the buffer to the file, where it has bytes, and in the two sync modes syncs the file.
    pub fn persist<D: Disk>(&mut self, disk: &mut D, mode: PersistMode) -> Result<()>
        ensures ok { OnOk result (self.new ≡ written_out self.old) }
        ensures part { OnErr result ((self.new ≡ self.old) ⊎ (self.new ≡ written_out self.old)) }
        ensures took { IsTrue D.honest → OnOk result (Took (D.meaning disk.old) (D.meaning disk.new) (persist_steps self.old mode)) }
        // With nothing in the buffer no more is taken than the sync.
        ensures nothing { IsTrue D.honest → self.old.buffer ≡ []
            → OnErr result (TookOrNot (D.meaning disk.old) (D.meaning disk.new) (syncing self.old.name mode)) }
        ensures left { IsTrue D.honest → OnErr result (PersistTook self.old self.new mode (D.meaning disk.old) (D.meaning disk.new)) }
        ensures succeeds { mode ≡ PersistMode.Buffer → self.old.buffer ≡ [] → IsOk result }
        ensures served { IsTrue D.honest → ServesFile (D.meaning disk.old) (D.meaning disk.new) self.old.name }
        ensures cause { OnlyFaults (D.meaning disk.old) (D.meaning disk.new) result }
    {
        self.write_out(disk)?;
        if mode == PersistMode::Buffer {
            return Ok(());
        }
        disk.sync(&self.name)?;
        Ok(())
    }
}
