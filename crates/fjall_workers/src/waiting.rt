//! The messages that wait.

ghost use Rattle.std.specs.Prelude.{◌≡◌, ◌≤◌, [], true, false, IfOk, IsOkUnless, length};
ghost use Rattle.fjall_base.specs.declared.error.Error.TheVariants.{OutOfMemory};
ghost use Rattle.fjall_workers.specs.Waiting.{EachSealedOnce, is_asked, message_taken, rest_of, waits_then, with_message};

use crate::message::WorkerMessage;
use fjall_base::Result;
use std::alloc::Global;
use std::collections::VecDeque;
use std::marker::Model;

/// How many messages wait at most. One more is dropped.
pub const MOST_MESSAGES: usize = 1_000;

/// The messages that wait for a worker, the oldest first. A keyspace's memtable waits to be sealed at most once.
///
/// The memory for all of them is got at once, so that sending one takes none.
#[derive(Drop)]
pub struct WaitingMessages {
    messages: VecDeque<WorkerMessage>,
    closed: bool,
}

impl Model for WaitingMessages {
    ghost use Rattle.std.specs.Prelude.{◌≤◌};
    ghost use Rattle.std.specs.VecDeque.{deque_capacity, deque_len};
    ghost use Rattle.fjall_workers.specs.Waiting.{EachSealedOnce, Waiting};

    ghost Value = { Waiting };

    ghost view = { λ w. record { messages = w.messages.items; closed = w.closed } };

    ghost invariant = { λ w. (1000 ≤ deque_capacity w.messages) × (deque_len w.messages ≤ 1000) × EachSealedOnce w.messages.items };
}

impl WaitingMessages {
    /// No message waits. It fails where memory is used up.
    pub fn new(alloc: Global) -> Result<WaitingMessages>
        ensures empty { IfOk result (λ waiting. waiting ≡ record { messages = []; closed = false }) }
        ensures refused { IsOkUnless result OutOfMemory }
    {
        Ok(WaitingMessages {
            messages: VecDeque::with_capacity(alloc, MOST_MESSAGES)?,
            closed: false,
        })
    }

    /// Sends a message, and answers whether it waits then. It takes no memory.
    ///
    /// A message is dropped where 1,000 wait, and behind `Close`, which takes the place of all that wait; the sealing of a memtable that
    /// waits already isn't sent twice.
    #[tactic(auto, using(crate::proofs::Sealings::sealed_once_behind))]
    pub fn send(&mut self, message: WorkerMessage) -> bool
        ensures sent { self.new ≡ with_message message self.old }
        ensures waits { result ≡ waits_then message self.old }
        ensures most { length self.new.messages ≤ 1000 }
        ensures once { EachSealedOnce self.new.messages }
    {
        if message == WorkerMessage::Close {
            self.messages.clear();
            self.closed = true;
            return true;
        }
        if self.closed {
            return false;
        }
        if self.is_asked(&message) {
            return true;
        }
        if self.messages.len() >= MOST_MESSAGES {
            return false;
        }
        self.messages.push_back_reserved(message);
        true
    }

    // Whether what a message asks waits already.
    fn is_asked(&self, message: &WorkerMessage) -> bool
        ensures { result ≡ is_asked message.now self.now.messages }
    {
        matches!(message, WorkerMessage::RotateMemtable(_)) && self.messages.contains(message)
    }

    /// Takes the message that waits longest. `Close` is taken again and again, so that each worker hears it.
    #[tactic(auto, using(crate::proofs::Sealings::sealed_behind_first))]
    pub fn take(&mut self) -> Option<WorkerMessage>
        ensures taken { result ≡ message_taken self.old }
        ensures rest { self.new ≡ rest_of self.old }
        ensures most { length self.new.messages ≤ 1000 }
        ensures once { EachSealedOnce self.new.messages }
    {
        if self.closed {
            return Some(WorkerMessage::Close);
        }
        self.messages.pop_front()
    }
}
