//! Ingestions: memory that is flushed whole, and tables that come behind it.

ghost use Rattle.std.specs.Prelude.{◌≡◌, ◌+◌, ◌++◌, ◌<◌, ◌≤◌, ◌^◌, [], ℕ, List, IfOk, IsOkUnless, length, vec_capacity};
ghost use Rattle.std.specs.Option.{option_map};
ghost use Rattle.fjall_memtable.specs.Parts.{HeldPart, clears_in, parts_of};
ghost use Rattle.fjall_jobs.specs.Tasks.{IsFlushed};
ghost use Rattle.fjall_tree.specs.Ingestions.{has_memory, ingested, is_flush_due, memory_task, stale};
ghost use Rattle.fjall_tree.specs.Out.{IsFlushOf, flushing};
ghost use Rattle.fjall_tree.specs.Trees.{clears_of};

use crate::out::FlushOut;
use crate::tree::Tree;
use fjall_base::{Error, Result};
use fjall_jobs::{MadeTable, flush_memory};
use fjall_memtable::Parts;
use fjall_table_reader::TableReader;
use std::alloc::Global;

// Puts tables behind those that are there, all of them into a list that has room for them. It takes no memory.
fn put_in_room(
    tables: &mut Vec<TableReader>,
    mut room: Vec<TableReader>,
    mut made: Vec<TableReader>,
)
    requires empty { room.items ≡ [] }
    requires room { length tables.old.items + length made.items ≤ vec_capacity room }
    ensures { tables.new.items ≡ tables.old.items ++ made.items }
{
    match room.append(tables) {
        Ok(()) => {}
        Err(_) => unreachable!(),
    }
    match room.append(&mut made) {
        Ok(()) => {}
        Err(_) => unreachable!(),
    }
    *tables = room;
}

// The flush that is out, which takes nothing any more. It takes no memory.
fn stale(alloc: Global, flush: Option<FlushOut>) -> Option<FlushOut>
    ensures flushing { option_map flushing result ≡ stale (option_map flushing flush) }
    ensures of { (sealed : List HeldPart) → IsFlushOf sealed result }
{
    match flush {
        Some(out) => Some(FlushOut {
            id: out.id,
            watermark: out.watermark,
            count: 0,
            clears: Vec::new(alloc),
        }),
        None => None,
    }
}

impl Tree {
    ghost use Rattle.fjall_tree.specs.Shapes.{shape_of};

    /// Whether something is in memory, a version or a clear.
    pub fn has_memory(&self) -> bool
        ensures { result ≡ has_memory (shape_of self.now).memory }
    {
        self.parts.sealed_count() > 0 || !self.parts.is_active_empty()
    }

    /// Whether the flush of this number is out, and takes effect once it is finished: no ingestion has made it stale.
    pub fn is_flush_due(&self, id: u64) -> bool
        ensures { result ≡ is_flush_due id (shape_of self.now).flush }
    {
        match &self.flush {
            Some(out) => id == out.id && out.count > 0,
            None => false,
        }
    }

    /// What a flush of all memtables makes under a watermark, the active one among them: one table at most, and all their clears,
    /// ascending. The watermark is below 2^63. It is refused for want of memory alone.
    pub fn flush_memory(&self, watermark: u64) -> Result<(Vec<MadeTable>, Vec<u64>)>
        requires { watermark < 2 ^ 63 }
        ensures made { (keyspace : ℕ) → IfOk result (λ made. IsFlushed (memory_task keyspace watermark (shape_of self.now).memory) made.0.items made.1.items) }
        ensures clears { IfOk result (λ made. made.1.items ≡ clears_in (parts_of (shape_of self.now).memory)) }
        ensures only { IsOkUnless result Error.OutOfMemory }
    {
        flush_memory(
            self.alloc,
            watermark,
            self.parts.sealed(),
            self.parts.active(),
        )
    }

    /// The record's clears, and these behind them. It is refused for want of memory alone.
    pub fn clears_with(&self, more: &[u64]) -> Result<Vec<u64>>
        ensures clears { IfOk result (λ clears. clears.items ≡ (shape_of self.now).clears ++ more.now) }
        ensures only { IsOkUnless result Error.OutOfMemory }
    {
        let mut clears = Vec::new(self.alloc);
        clears.extend_from_slice(self.clears.as_slice())?;
        clears.extend_from_slice(more)?;
        Ok(clears)
    }

    /// A list of no tables that has room for all tables and so many more. It is refused for want of memory alone.
    pub fn room_for(&self, more: usize) -> Result<Vec<TableReader>>
        ensures empty { IfOk result (λ room. room.items ≡ []) }
        ensures room { IfOk result (λ room. length (shape_of self.now).tables + more ≤ vec_capacity room) }
        ensures only { IsOkUnless result Error.OutOfMemory }
    {
        let Some(count) = self.tables.len().checked_add(more) else {
            return Err(Error::OutOfMemory);
        };
        let room = Vec::with_capacity(self.alloc, count)?;
        Ok(room)
    }

    /// Takes what an ingestion of this number made: the tables of its memory and its own stand behind all others, in a list that has
    /// room for them, and all clears in the record; memory holds nothing and goes on behind the number, and a flush that was out is
    /// stale. It takes no memory and can't fail.
    pub fn put_ingestion(
        &mut self,
        number: u64,
        room: Vec<TableReader>,
        made: Vec<TableReader>,
        clears: Vec<u64>,
    )
        requires number { number < 2 ^ 63 }
        requires until { (shape_of self.old).memory.active.until ≤ number }
        requires clears { clears.items ≡ clears_of (shape_of self.old) }
        requires empty { room.items ≡ [] }
        requires room { length (shape_of self.old).tables + length made.items ≤ vec_capacity room }
        ensures { shape_of self.new ≡ ingested number made.items (shape_of self.old) }
    {
        put_in_room(&mut self.tables, room, made);
        self.clears = clears;
        self.parts = Parts::new(self.alloc, number + 1);
        let flush = self.flush.take();
        self.flush = stale(self.alloc, flush);
    }
}
