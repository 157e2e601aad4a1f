//! A table that a job made.

ghost use Rattle.std.specs.Prelude.{◌≡◌, ◌<◌, ◌^◌, List, length, IfOk, IsOkUnless};
ghost use Rattle.fjall_base.specs.Disk.{IsFile, Meaning};
ghost use Rattle.fjall_table.specs.Blocks.{Entry};
ghost use Rattle.fjall_table_reader.specs.Files.{bytes_in, entry_at};
ghost use Rattle.fjall_table_reader.specs.Readers.{Reads};

use fjall_base::{Error, Result};
use fjall_table::{Level, TableInfo};
use fjall_table_reader::{TableFile, TableReader};
use std::alloc::Global;

/// The bytes of a table that is to be written, and how many entries it has.
#[derive(Drop)]
pub struct MadeTable {
    pub bytes: Vec<u8>,
    pub entry_count: u64,
}

impl MadeTable {
    ghost use Rattle.fjall_jobs.specs.Sequences.{IsMadeTable};

    /// What a record says of it, under this id and at this level.
    pub fn info(&self, id: u64, level: Level) -> TableInfo
        ensures { result ≡ record { id = id; level = level; file_len = length self.now.bytes.items; entry_count = self.now.entry_count } }
    {
        TableInfo {
            id,
            level,
            file_len: self.bytes.len() as u64,
            entry_count: self.entry_count,
        }
    }

    /// The reader of this table by the name of the file that is to have its bytes. It takes no disk: all memory that the
    /// tree needs of the table is had before the file is written. Where a job made it, it is refused for want of memory
    /// alone.
    pub fn reader(&self, alloc: Global, name: &str, id: u64, level: Level) -> Result<TableReader>
        ensures name { IfOk result (λ t. t.name ≡ name.now) }
        ensures info { IfOk result (λ t. t.info ≡ record { id = id; level = level; file_len = length self.now.bytes.items; entry_count = self.now.entry_count }) }
        ensures reads { (disk : Meaning) (entries : List Entry) → IsMadeTable self.now entries → IsFile (entry_at disk name.now) → bytes_in (entry_at disk name.now) ≡ self.now.bytes.items
            → IfOk result (λ t. Reads disk t entries) }
        ensures only { (entries : List Entry) → IsMadeTable self.now entries → IsOkUnless result Error.OutOfMemory }
    {
        let info = self.info(id, level);
        let file = TableFile::from_bytes(alloc, name, info, self.bytes.as_slice())?;
        TableReader::new(alloc, file)
    }
}
