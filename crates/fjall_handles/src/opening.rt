//! How a database is opened.

ghost use Rattle.std.specs.Prelude.{IsTrue};
ghost use Rattle.fjall_shared.specs.Openings.{IsLeftByEngine};

use crate::database::Database;
use crate::inner::{Inner, Settings};
use fjall_base::{Disk, Error, Refused, Result};
use fjall_options::KeyspaceCreateOptions;
use fjall_shared::{Config, Shared};
use fjall_workers::{Gate, Moves, WorkerMessage, WorkerPool};
use std::alloc::Global;
use std::result;
use std::sync::atomic::AtomicBool;
use std::sync::{Arc, Mutex, Wait};
use std::thread::Threads;

/// Whether an opening that is refused so is reported: something of the folder is wrong.
pub(crate) fn is_reported(error: &Error) -> bool {
    matches!(error.number(), 2..=7 | 11)
}

// A database whose lock holds nothing yet.
fn prepare<D: Disk + Drop>(alloc: Global, settings: Settings) -> Result<Arc<Inner<D>, Global>> {
    let inner = Inner {
        alloc,
        lock: Mutex::new(None),
        pool: WorkerPool::prepare(alloc)?,
        moves: Moves::new(),
        settings,
        halted: AtomicBool::new(false),
        unmerged: AtomicBool::new(false),
    };
    Ok(Arc::new(alloc, inner)?)
}

// The engine on a disk, in a box.
fn open_boxed<D: Disk>(
    alloc: Global,
    config: Config,
    disk: D,
) -> result::Result<Box<Shared<D>>, Refused<D>>
    requires { IsTrue D.honest → IsLeftByEngine (D.meaning disk) }
{
    let (shared, seen) = Shared::open(alloc, config, disk)?;
    drop(seen);
    match Box::new(alloc, shared) {
        Ok(shared) => Ok(shared),
        Err(refused) => Err(Refused {
            error: Error::OutOfMemory,
            value: refused.value.into_core().into_disk(),
        }),
    }
}

// Has workers flush what was sealed before, and merge where nothing is to be flushed.
fn wake<R: Wait, D: Disk + Drop>(rt: &R, inner: &Inner<D>) -> Result<()> {
    let names = {
        let mut guard = inner.lock.lock(rt);
        let Some(shared) = &mut *guard else {
            return Err(Error::Poisoned);
        };
        shared.list_keyspace_names()?
    };
    for name in names {
        let options = KeyspaceCreateOptions::default(inner.alloc)?;
        let (id, sealed, tables) = {
            let mut guard = inner.lock.lock(rt);
            let Some(shared) = &mut *guard else {
                return Err(Error::Poisoned);
            };
            let id = shared.keyspace(name.as_slice(), options)?;
            (
                id,
                shared.sealed_memtable_count(id),
                shared.l0_table_count(id),
            )
        };
        if sealed > 0 {
            let _ = inner.pool.queue().send_flush(rt, id);
        } else if tables > 0 {
            let _ = inner.pool.queue().send(rt, WorkerMessage::Compact(id));
        }
    }
    Ok(())
}

/// Opens a database on a disk. Its workers are started before, so that nothing stands in the way once it is open.
pub(crate) fn open_database<
    R: Threads + Wait + Copy + Drop + Send + 'static,
    D: Disk + Drop + Send + 'static,
    G: Gate + Drop + Send + Sync + 'static,
>(
    rt: &R,
    alloc: Global,
    config: Config,
    settings: Settings,
    disk: D,
    gate: G,
) -> result::Result<Database<D>, Refused<D>>
    requires { IsTrue D.honest → IsLeftByEngine (D.meaning disk) }
{
    let inner = match started(rt, alloc, settings, gate) {
        Ok(inner) => inner,
        Err(error) => return Err(Refused { error, value: disk }),
    };
    match open_boxed(alloc, config, disk) {
        Ok(shared) => {
            *inner.lock.lock(rt) = Some(shared);
            // (where memory is used up, the next write has workers do it)
            let _ = wake(rt, &*inner);
            Ok(Database { inner })
        }
        Err(refused) => {
            inner.pool.join(rt);
            Err(refused)
        }
    }
}

// A database whose lock holds nothing yet, with its workers.
fn started<
    R: Threads + Wait + Copy + Drop + Send + 'static,
    D: Disk + Drop + Send + 'static,
    G: Gate + Drop + Send + Sync + 'static,
>(rt: &R, alloc: Global, settings: Settings, gate: G) -> Result<Arc<Inner<D>, Global>> {
    let inner = prepare(alloc, settings)?;
    let gate = Arc::new(alloc, gate)?;
    inner.pool.start(rt, settings.workers, &inner, &gate)?;
    Ok(inner)
}
