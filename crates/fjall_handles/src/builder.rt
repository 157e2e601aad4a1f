//! Settings of a database that is to be opened.

ghost use Rattle.std.specs.Prelude.{◌≡◌, ◌≤◌, IsTrue, IfSome};
ghost use Rattle.fjall_shared.specs.Openings.{IsLeftByEngine};

use crate::database::Database;
use crate::inner::Settings;
use crate::opening::{is_reported, open_database};
use fjall_base::{CompressionType, Disk, Refused, Result};
use fjall_disk_folder::FolderDisk;
use fjall_shared::{Config, RecoveryMode};
use fjall_workers::{Gate, OpenGate};
use log::{Log, Logged, warn};
use std::alloc::Global;
use std::marker::PhantomData;
use std::result;
use std::sync::Wait;
use std::thread::Threads;

/// What has the runtime of the system, with which a folder is opened.
pub trait Host {
    /// The runtime of the system.
    fn host(&self) -> &HostRuntime;
}

impl Host for HostRuntime {
    fn host(&self) -> &HostRuntime {
        self
    }
}

impl<R: Host, S> Host for Logged<R, S> {
    fn host(&self) -> &HostRuntime {
        self.inner().host()
    }
}

/// The settings of a database that is to be opened, as an `O`, which is a database or made of one: four workers, journals of 536,870,912 bytes together, and what is read is kept up to
/// 67,108,864 bytes, unless they are set otherwise.
#[derive(Drop)]
pub struct DatabaseBuilder<O> {
    alloc: Global,
    config: Config,
    manual_journal_persist: bool,
    temporary: bool,
    opens: PhantomData<O>,
}

impl<O> DatabaseBuilder<O> {
    /// Settings of a database in this folder.
    pub fn new(alloc: Global, path: &str) -> Result<DatabaseBuilder<O>> {
        Ok(DatabaseBuilder::from_config(alloc, Config::new(alloc, path)?))
    }

    /// These settings.
    pub fn from_config(alloc: Global, config: Config) -> DatabaseBuilder<O> {
        DatabaseBuilder {
            alloc,
            config,
            manual_journal_persist: false,
            temporary: false,
            opens: PhantomData,
        }
    }

    /// The settings that an engine knows.
    pub fn into_config(self) -> Config {
        self.config
    }

    /// For how many bytes the blocks of tables may count that reads leave in memory.
    pub fn cache_size(mut self, bytes: u64) -> DatabaseBuilder<O> {
        self.config.kept_block_bytes = bytes;
        self
    }

    /// Without effect: a folder's disk keeps at most 80 files open.
    pub fn max_cached_files(self, _most: Option<usize>) -> DatabaseBuilder<O> {
        self
    }

    /// Without effect: nothing is compressed.
    pub fn journal_compression(self, _compression: CompressionType) -> DatabaseBuilder<O> {
        self
    }

    /// Whether batches and transactions stay in the journal's buffer until `persist` unless they are given a mode.
    pub fn manual_journal_persist(mut self, flag: bool) -> DatabaseBuilder<O> {
        self.manual_journal_persist = flag;
        self
    }

    /// How many workers it has.
    pub fn worker_threads(self, count: usize) -> DatabaseBuilder<O>
        requires { 1 ≤ count }
    {
        self.worker_threads_unchecked(count)
    }

    /// How many workers it has; without any nothing is flushed or merged by itself.
    pub fn worker_threads_unchecked(mut self, count: usize) -> DatabaseBuilder<O> {
        self.config.worker_threads = count;
        self
    }

    /// How many bytes the journals may have together before writers wait for what holds them back.
    pub fn max_journaling_size(mut self, bytes: u64) -> DatabaseBuilder<O>
        requires { 67108864 ≤ bytes }
    {
        self.config.max_journaling_size = bytes;
        self
    }

    /// Without effect: each keyspace's memtables have a bound of their own.
    pub fn max_write_buffer_size(self, bytes: Option<u64>) -> DatabaseBuilder<O>
        requires { IfSome bytes (λ most. 1048576 ≤ most) }
    {
        let _ = bytes;
        self
    }

    /// What an opening does with a torn tail of the active journal.
    pub fn journal_recovery_mode(mut self, mode: RecoveryMode) -> DatabaseBuilder<O> {
        self.config.journal_recovery_mode = mode;
        self
    }

    /// Whether closing the database removes all that it has.
    pub fn temporary(mut self, flag: bool) -> DatabaseBuilder<O> {
        self.temporary = flag;
        self
    }
}

impl<O> DatabaseBuilder<O> {
    /// Opens the database on a disk and starts its workers, whose jobs pass a gate. A refusal hands the disk back: those of
    /// `fjall_core::Core::open`, and `OutOfMemory` where a worker can't be started.
    pub fn open_with_gate<
        R: Threads + Wait + Log + Copy + Drop + Send + 'static,
        D: Disk + Drop + Send + 'static,
        G: Gate + Drop + Send + Sync + 'static,
    >(self, rt: &R, disk: D, gate: G) -> result::Result<O, Refused<D>>
    where
        O: From<Database<D>>,
        requires { IsTrue D.honest → IsLeftByEngine (D.meaning disk) }
    {
        let settings = Settings {
            workers: self.config.worker_threads,
            max_journaling_size: self.config.max_journaling_size,
            manual_journal_persist: self.manual_journal_persist,
            temporary: self.temporary,
        };
        match open_database(rt, self.alloc, self.config, settings, disk, gate) {
            Ok(database) => Ok(O::from(database)),
            Err(refused) => {
                if is_reported(&refused.error) {
                    let error = &refused.error;
                    warn!(rt; "the database isn't opened: {error}");
                }
                Err(refused)
            }
        }
    }

    /// Opens the database on a disk and starts its workers.
    pub fn open_on<
        R: Threads + Wait + Log + Copy + Drop + Send + 'static,
        D: Disk + Drop + Send + 'static,
    >(self, rt: &R, disk: D) -> result::Result<O, Refused<D>>
    where
        O: From<Database<D>>,
        requires { IsTrue D.honest → IsLeftByEngine (D.meaning disk) }
    {
        self.open_with_gate(rt, disk, OpenGate)
    }

    /// Opens the database in its folder, which is made where it is missing, and starts its workers.
    ///
    /// Refusals: those of [`FolderDisk::open`], as `Locked` where it is open already; of [`open_on`](DatabaseBuilder::open_on).
    pub fn open<R: Threads + Wait + Log + Host + Copy + Drop + Send + 'static>(
        self,
        rt: &R,
    ) -> Result<O>
    where
        O: From<Database<FolderDisk>>,
    {
        let disk = FolderDisk::open(rt.host(), self.alloc, self.config.path.as_str())?;
        Ok(self.open_on(rt, disk)?)
    }
}
