//! How a database is opened.

ghost use Rattle.std.specs.Prelude.{◌≡◌, IfOk, IsOkUnless, string_bytes};
ghost use Rattle.fjall_journal.specs.declared.recovery_mode.RecoveryMode.TheVariants.{TolerateCorruptTail};

use fjall_base::{Error, Result};
use fjall_journal::RecoveryMode;
use fjall_trees::KEPT_BLOCK_BYTES;
use std::alloc::Global;

/// The settings of a database.
#[derive(Debug, Drop)]
pub struct Config {
    /// The folder, as it was given.
    pub path: String,
    /// How many bytes the journals may have together before the keyspaces that hold back the oldest are flushed.
    pub max_journaling_size: u64,
    /// How many workers a database has.
    pub worker_threads: usize,
    /// What an opening does with a torn tail of the active journal.
    pub journal_recovery_mode: RecoveryMode,
    /// For how many bytes of memory the blocks of tables may count that reads leave there, of all keyspaces together. Where they
    /// count for more behind a read, those that were used longest ago go first, and all of them where that isn't enough.
    pub kept_block_bytes: u64,
}

impl Config {
    /// The settings of a database in this folder: journals of 536,870,912 bytes together, four workers, a torn tail is cut off, and
    /// blocks of 67,108,864 bytes stay in memory.
    pub fn new(alloc: Global, path: &str) -> Result<Config>
        ensures ok { IfOk result (λ config. string_bytes config.path ≡ path.now) }
        ensures journals { IfOk result (λ config. config.max_journaling_size ≡ 536870912) }
        ensures workers { IfOk result (λ config. config.worker_threads ≡ 4) }
        ensures mode { IfOk result (λ config. config.journal_recovery_mode ≡ TolerateCorruptTail) }
        ensures kept { IfOk result (λ config. config.kept_block_bytes ≡ 67108864) }
        ensures only { IsOkUnless result Error.OutOfMemory }
    {
        Ok(Config {
            path: String::from_str(alloc, path)?,
            max_journaling_size: 512 * 1_024 * 1_024,
            worker_threads: 4,
            journal_recovery_mode: RecoveryMode::TolerateCorruptTail,
            kept_block_bytes: KEPT_BLOCK_BYTES,
        })
    }
}
