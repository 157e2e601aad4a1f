//! What workers work at.

use crate::gate::Gate;
use crate::message::WorkerMessage;
use crate::queue::WorkerQueue;
use std::sync::Wait;
use std::{result, thread};

/// What workers work at: an engine behind its lock, whose jobs are begun and finished under the lock, and run without it.
pub trait Bench<R: Wait> {
    /// A job that was begun.
    type Job: Drop + Send;

    /// What a job made.
    type Made: Drop + Send;

    /// Does what a message asks, under the lock; answers a job where one was begun.
    fn begin(&self, rt: &R, message: WorkerMessage) -> Option<Self::Job>;

    /// The keyspace whose job it is.
    fn keyspace(&self, job: &Self::Job) -> u64;

    /// Runs a job, without the lock. One that is refused, for want of memory, is handed back.
    fn run(&self, job: Self::Job) -> result::Result<Self::Made, Self::Job>;

    /// Finishes a job by what it made, under the lock. Where it finds no memory what was made is handed back.
    fn finish(&self, rt: &R, made: Self::Made) -> result::Result<(), Self::Made>;
}

/// Runs a job until it has run: it is tried again where memory is used up.
pub fn run_job<R: Wait, B: Bench<R>, G: Gate>(rt: &R, bench: &B, gate: &G, job: B::Job) -> B::Made {
    let keyspace = bench.keyspace(&job);
    let mut job = job;
    for _ in rt.forever() {
        gate.before(keyspace);
        let ran = bench.run(job);
        gate.after(keyspace);
        match ran {
            Ok(made) => return made,
            Err(refused) => job = refused,
        }
        thread::yield_now();
    }
    unreachable!()
}

// Finishes a job; it is tried again where memory is used up.
fn finish<R: Wait, B: Bench<R>>(rt: &R, bench: &B, made: B::Made) {
    let mut made = made;
    for _ in rt.forever() {
        match bench.finish(rt, made) {
            Ok(()) => return,
            Err(refused) => made = refused,
        }
        thread::yield_now();
    }
}

/// Does what a message asks, with the job that it begins, which is tried again as long as memory is used up.
pub fn serve<R: Wait, B: Bench<R>, G: Gate>(rt: &R, bench: &B, gate: &G, message: WorkerMessage) {
    if let Some(job) = bench.begin(rt, message) {
        let made = run_job(rt, bench, gate, job);
        finish(rt, bench, made);
    }
}

/// A worker's work: it takes message after message until it is told to end.
pub fn work<R: Wait, B: Bench<R>, G: Gate>(rt: &R, queue: &WorkerQueue, bench: &B, gate: &G) {
    for _ in rt.forever() {
        let message = queue.receive(rt);
        if message == WorkerMessage::Close {
            return;
        }
        serve(rt, bench, gate, message);
    }
}
