//! What workers do with a database.

use crate::inner::Inner;
use fjall_base::{Disk, Error, Result};
use fjall_shared::{Begun, FlushMade, JobOutput, MergeMade, Ran};
use fjall_workers::{Bench, OpenGate, WorkerMessage, run_job};
use std::sync::Wait;
use std::sync::atomic::Ordering::SeqCst;
use std::{result, thread};

/// A flush or a merge of a keyspace that was begun.
#[derive(Drop)]
pub(crate) struct Job {
    keyspace: u64,
    task: Task,
}

#[derive(Drop)]
enum Task {
    Flush(Begun<FlushMade>),
    Merge(Begun<MergeMade>),
}

/// What it made is in its place: under this number it is to be finished.
#[derive(Drop)]
pub(crate) struct Finish {
    keyspace: u64,
    number: u64,
    is_flush: bool,
}

// Leaves what a job made in its place; the other end may be in the midst of a look, so that it is tried again.
fn leave<M: JobOutput>(ran: Ran<M>) -> u64 {
    let mut ran = ran;
    for _ in 0..u64::MAX {
        match ran.leave() {
            Ok(number) => return number,
            Err(back) => ran = back,
        }
        thread::yield_now();
    }
    0
}

impl<D: Disk + Drop> Inner<D> {
    // A worker can't go on: who waits for it is told, and nobody waits any more. Where a keyspace is gone nothing of it is due.
    fn halt_for(&self, error: Error) {
        if !matches!(
            error,
            Error::KeyspaceDeleted | Error::UnknownKeyspace | Error::OutOfMemory
        ) {
            self.halted.store(true, SeqCst);
        }
    }

    // Seals the active memtable of a keyspace; answers whether anything of it is sealed then.
    fn seal<R: Wait>(&self, rt: &R, id: u64) -> Result<bool> {
        let mut guard = self.lock.lock(rt);
        let Some(shared) = &mut *guard else {
            return Err(Error::Poisoned);
        };
        shared.collect();
        let _ = shared.rotate_memtable(id)?;
        Ok(shared.sealed_memtable_count(id) > 0)
    }

    fn flush_begin<R: Wait>(&self, rt: &R, id: u64) -> Result<Option<Begun<FlushMade>>> {
        let mut guard = self.lock.lock(rt);
        let Some(shared) = &mut *guard else {
            return Err(Error::Poisoned);
        };
        shared.collect_tickets();
        shared.flush_begin(id)
    }

    fn merge_begin<R: Wait>(&self, rt: &R, id: u64) -> Result<Option<Begun<MergeMade>>> {
        let mut guard = self.lock.lock(rt);
        let Some(shared) = &mut *guard else {
            return Err(Error::Poisoned);
        };
        shared.collect_tickets();
        shared.merge_begin(id)
    }

    fn major_begin<R: Wait>(&self, rt: &R, id: u64) -> Result<Option<Begun<MergeMade>>> {
        let mut guard = self.lock.lock(rt);
        let Some(shared) = &mut *guard else {
            return Err(Error::Poisoned);
        };
        shared.collect_tickets();
        shared.major_begin(id)
    }

    // Seals the active memtable of a keyspace, and has it flushed.
    fn rotate_for_worker<R: Wait>(&self, rt: &R, id: u64) {
        match self.seal(rt, id) {
            Ok(true) => {
                let _ = self.pool.queue().send_flush(rt, id);
            }
            Ok(false) => self.moves.tell(rt),
            Err(error) => {
                self.halt_for(error);
                self.moves.tell(rt);
            }
        }
    }

    // Begins a flush of the keyspace that waits longest for one.
    fn begin_flush<R: Wait>(&self, rt: &R) -> Option<Job> {
        let id = self.pool.queue().next_flush(rt)?;
        match self.flush_begin(rt, id) {
            Ok(Some(begun)) => Some(Job {
                keyspace: id,
                task: Task::Flush(begun),
            }),
            Ok(None) => None,
            Err(error) => {
                if error == Error::OutOfMemory {
                    let _ = self.pool.queue().send_flush(rt, id);
                }
                self.halt_for(error);
                self.moves.tell(rt);
                None
            }
        }
    }

    // Begins a merge of a keyspace, where one is due.
    fn begin_merge<R: Wait>(&self, rt: &R, id: u64) -> Option<Job> {
        match self.merge_begin(rt, id) {
            Ok(Some(begun)) => {
                self.unmerged.store(false, SeqCst);
                Some(Job {
                    keyspace: id,
                    task: Task::Merge(begun),
                })
            }
            Ok(None) => None,
            Err(_) => {
                // (what a read of tables refuses changes nothing, and a later merge may pass)
                self.unmerged.store(true, SeqCst);
                self.moves.tell(rt);
                None
            }
        }
    }

    // Finishes a job; answers whether it took effect, and whether a sealed memtable is left.
    fn finish_job<R: Wait>(&self, rt: &R, finish: &Finish) -> Result<(bool, bool)> {
        let id = finish.keyspace;
        let number = finish.number;
        let is_flush = finish.is_flush;
        let mut guard = self.lock.lock(rt);
        let Some(shared) = &mut *guard else {
            return Err(Error::Poisoned);
        };
        let done = if is_flush {
            shared.flush_finish(number)?
        } else {
            shared.merge_finish(number)?
        };
        Ok((done, shared.sealed_memtable_count(id) > 0))
    }
}

impl<D: Disk + Drop, R: Wait> Bench<R> for Inner<D> {
    type Job = Job;

    type Made = Finish;

    fn begin(&self, rt: &R, message: WorkerMessage) -> Option<Job> {
        match message {
            WorkerMessage::Flush => self.begin_flush(rt),
            WorkerMessage::Compact(id) => self.begin_merge(rt, id),
            WorkerMessage::RotateMemtable(id) => {
                self.rotate_for_worker(rt, id);
                None
            }
            WorkerMessage::Close => None,
        }
    }

    fn keyspace(&self, job: &Job) -> u64 {
        job.keyspace
    }

    fn run(&self, job: Job) -> result::Result<Finish, Job> {
        let Job { keyspace, task } = job;
        match task {
            Task::Flush(begun) => match begun.run(self.alloc) {
                Ok(ran) => Ok(Finish {
                    keyspace,
                    number: leave(ran),
                    is_flush: true,
                }),
                Err(refused) => Err(Job {
                    keyspace,
                    task: Task::Flush(refused.value),
                }),
            },
            Task::Merge(begun) => match begun.run(self.alloc) {
                Ok(ran) => Ok(Finish {
                    keyspace,
                    number: leave(ran),
                    is_flush: false,
                }),
                Err(refused) => Err(Job {
                    keyspace,
                    task: Task::Merge(refused.value),
                }),
            },
        }
    }

    fn finish(&self, rt: &R, made: Finish) -> result::Result<(), Finish> {
        let queue = self.pool.queue();
        match self.finish_job(rt, &made) {
            Ok((done, is_sealed)) => {
                if done {
                    let _ = queue.send(rt, WorkerMessage::Compact(made.keyspace));
                }
                if made.is_flush && is_sealed {
                    let _ = queue.send_flush(rt, made.keyspace);
                }
            }
            Err(Error::OutOfMemory) => return Err(made),
            Err(error) => self.halt_for(error),
        }
        self.moves.tell(rt);
        Ok(())
    }
}

impl<D: Disk + Drop> Inner<D> {
    /// Merges all tables of a keyspace, in this thread. Once the job is begun it is tried again where memory is used up, since nobody else could
    /// finish it.
    pub fn major_compact<R: Wait>(&self, rt: &R, id: u64) -> Result<()> {
        let Some(begun) = self.major_begin(rt, id)? else {
            return Ok(());
        };
        let job = Job {
            keyspace: id,
            task: Task::Merge(begun),
        };
        let made = run_job(rt, self, &OpenGate, job);
        for _ in rt.forever() {
            let finished = self.finish_job(rt, &made);
            if finished != Err(Error::OutOfMemory) {
                self.moves.tell(rt);
                let _ = finished?;
                return Ok(());
            }
            thread::yield_now();
        }
        unreachable!()
    }
}
