//! The list of waiting messages, which handles and workers share.

ghost use Rattle.std.specs.Prelude.{◌≡◌, true, IsOkUnless};
ghost use Rattle.fjall_base.specs.declared.error.Error.TheVariants.{OutOfMemory};

use crate::flush_manager::FlushManager;
use crate::message::WorkerMessage;
use crate::waiting::WaitingMessages;
use fjall_base::Result;
use std::alloc::Global;
use std::sync::{Condvar, Mutex, Wait};

// What waits: messages, and the keyspaces whose sealed memtables wait for a flush.
#[derive(Drop)]
struct Waiting {
    messages: WaitingMessages,
    flushes: FlushManager,
}

/// The list of waiting messages, with the keyspaces that wait for a flush, behind a lock of its own. It is taken by itself, never under
/// the engine's lock and with none beside it.
#[derive(Drop)]
pub struct WorkerQueue {
    waiting: Mutex<Waiting>,
    arrived: Condvar,
}

impl WorkerQueue {
    /// Nothing waits. It fails where memory is used up.
    pub fn new(alloc: Global) -> Result<WorkerQueue>
        ensures { IsOkUnless result OutOfMemory }
    {
        let waiting = Waiting {
            messages: WaitingMessages::new(alloc)?,
            flushes: FlushManager::new(alloc),
        };
        Ok(WorkerQueue {
            waiting: Mutex::new(waiting),
            arrived: Condvar::new(),
        })
    }

    /// Sends a message, and answers whether it waits then, as [`WaitingMessages::send`] does. It takes no memory.
    pub fn send<R: Wait>(&self, rt: &R, message: WorkerMessage) -> bool
        ensures { message ≡ WorkerMessage.Close → result ≡ true }
    {
        let mut waiting = self.waiting.lock(rt);
        let waits = waiting.messages.send(message);
        if message == WorkerMessage::Close {
            self.arrived.notify_all();
        } else {
            self.arrived.notify_one();
        }
        waits
    }

    /// Has a keyspace wait for a flush, once, and sends `Flush`; answers whether both wait.
    pub fn send_flush<R: Wait>(&self, rt: &R, id: u64) -> bool {
        let mut waiting = self.waiting.lock(rt);
        let enqueued = waiting.flushes.enqueue(id).is_ok();
        let sent = waiting.messages.send(WorkerMessage::Flush);
        self.arrived.notify_one();
        enqueued && sent
    }

    /// The keyspace that waits longest for a flush, which then waits no more.
    pub fn next_flush<R: Wait>(&self, rt: &R) -> Option<u64> {
        self.waiting.lock(rt).flushes.dequeue()
    }

    /// Waits for a message, and takes the one that waits longest.
    pub fn receive<R: Wait>(&self, rt: &R) -> WorkerMessage {
        for _ in rt.forever() {
            let mut waiting = self.waiting.lock(rt);
            if let Some(message) = waiting.messages.take() {
                return message;
            }
            let _waiting = self.arrived.wait(rt, waiting);
        }
        unreachable!()
    }
}
