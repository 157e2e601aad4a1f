//! A pool of workers.

ghost use Rattle.std.specs.Prelude.{◌≡◌, ℕ, ◌+◌, ◌≤◌, ◌<◌, OnOk, OnErr, IfErr, IsOkUnless};
ghost use Rattle.std.specs.Arc.{arc_value};
ghost use Rattle.std.specs.Vec.{vec_capacity, vec_len};
ghost use Rattle.fjall_base.specs.declared.error.Error.TheVariants.{OutOfMemory};
ghost use Rattle.fjall_workers.specs.Starting.{Starts};

use crate::bench::{Bench, work};
use crate::gate::Gate;
use crate::message::WorkerMessage;
use crate::queue::WorkerQueue;
use crate::worker::Worker;
use fjall_base::{Error, Result};
use std::alloc::Global;
use std::sync::{Arc, Mutex, Wait};
use std::thread::Threads;
use std::{mem, result};

/// Workers, and the list from which they take their messages.
#[derive(Drop)]
pub struct WorkerPool {
    alloc: Global,
    queue: Arc<WorkerQueue, Global>,
    workers: Mutex<Vec<Worker>>,
}

/// Starts workers by their index, from 0 on, and ends with the error of the first that can't be started; `started` then has those that
/// were.
pub fn claim_and_spawn<H, E, F: FnMut(usize) -> result::Result<H, E>>(
    started: &mut Vec<H>,
    count: usize,
    mut spawn: F,
) -> result::Result<(), E>
    requires room { vec_len started.old + count ≤ vec_capacity started.old }
    requires callable { F.IsAlwaysCallable spawn }
    ensures all { OnOk result (vec_len started.new ≡ vec_len started.old + count) }
    ensures some { OnErr result (vec_len started.new < vec_len started.old + count) }
    ensures each { OnOk result ((last : F) × Starts F.step count spawn started.old.items started.new.items last) }
    ensures stops { IfErr result (λ error. (index : ℕ) × (index < count) × (before : F) × (last : F) × Starts F.step index spawn started.old.items started.new.items before × F.step before index (Err error) last) }
{
    for index in 0..count {
        let handle = spawn(index)?;
        started.push_reserved(handle);
    }
    Ok(())
}

impl WorkerPool {
    /// A pool without workers, whose list is there, so that messages can be sent before any worker starts. It fails where memory is used
    /// up.
    pub fn prepare(alloc: Global) -> Result<WorkerPool>
        ensures { IsOkUnless result OutOfMemory }
    {
        Ok(WorkerPool {
            alloc,
            queue: Arc::new(alloc, WorkerQueue::new(alloc)?)?,
            workers: Mutex::new(Vec::new(alloc)),
        })
    }

    /// The list of waiting messages.
    pub fn queue(&self) -> &WorkerQueue
        ensures { result.now ≡ arc_value self.now.queue }
    {
        &self.queue
    }

    /// Starts so many workers. Where one can't be started those that were are ended, and it fails with `OutOfMemory`.
    pub fn start<
        R: Threads + Wait + Copy + Drop + Send + 'static,
        B: Bench<R> + Drop + Send + Sync + 'static,
        G: Gate + Drop + Send + Sync + 'static,
    >(&self, rt: &R, count: usize, bench: &Arc<B, Global>, gate: &Arc<G, Global>) -> Result<()>
        ensures { IsOkUnless result OutOfMemory }
    {
        let mut started = Vec::with_capacity(self.alloc, count)?;
        let done = claim_and_spawn(&mut started, count, |_index| {
            self.start_one(rt, bench, gate)
        });
        *self.workers.lock(rt) = started;
        if done.is_err() {
            self.join(rt);
            return Err(Error::OutOfMemory);
        }
        Ok(())
    }

    // Starts one worker.
    fn start_one<
        R: Threads + Wait + Copy + Drop + Send + 'static,
        B: Bench<R> + Drop + Send + Sync + 'static,
        G: Gate + Drop + Send + Sync + 'static,
    >(&self, rt: &R, bench: &Arc<B, Global>, gate: &Arc<G, Global>) -> Result<Worker> {
        let rt_there = *rt;
        let queue = Arc::try_clone(&self.queue)?;
        let bench = Arc::try_clone(bench)?;
        let gate = Arc::try_clone(gate)?;
        Ok(Worker::start(rt, self.alloc, move || {
            work(&rt_there, &*queue, &*bench, &*gate)
        })?)
    }

    /// Tells all workers to end, and waits until they have: each finishes the job that it has begun.
    pub fn join<R: Threads + Wait>(&self, rt: &R) {
        self.queue.send(rt, WorkerMessage::Close);
        // (the lock is kept meanwhile, so that whoever else joins them waits for them too)
        let mut workers = self.workers.lock(rt);
        let ending = mem::replace(&mut *workers, Vec::new(self.alloc));
        for worker in ending {
            worker.join(rt);
        }
    }
}
