//! Which keyspaces wait for a flush, each once.

ghost use Rattle.std.specs.Prelude.{◌≡◌, ◌==◌, [], true, length, drop, slice_get, IsOk, IsOkUnless, OnOk, OnErr};
ghost use Rattle.fjall_base.specs.declared.error.Error.TheVariants.{OutOfMemory};
ghost use Rattle.fjall_workers.specs.FlushQueues.{EachWaitsOnce, is_waiting, with_waiting};

use fjall_base::Result;
use std::alloc::Global;
use std::collections::VecDeque;
use std::marker::Model;

/// The queue of the keyspaces that wait for a flush, by their ids. A keyspace stands in it at most once.
#[derive(Drop)]
pub struct FlushManager {
    waiting: VecDeque<u64>,
}

impl Model for FlushManager {
    ghost use Rattle.std.specs.Prelude.{ℕ, List};
    ghost use Rattle.fjall_workers.specs.FlushQueues.{EachWaitsOnce};

    ghost Value = { List ℕ };

    ghost view = { λ manager. manager.waiting.items };

    ghost invariant = { λ manager. EachWaitsOnce manager.waiting.items };
}

impl FlushManager {
    /// A queue in which no keyspace waits. It takes no memory.
    pub fn new(alloc: Global) -> FlushManager
        ensures { result ≡ [] }
    {
        FlushManager {
            waiting: VecDeque::new(alloc),
        }
    }

    /// How many keyspaces wait.
    pub fn len(&self) -> usize
        ensures { result ≡ length self.now }
    {
        self.waiting.len()
    }

    /// Whether no keyspace waits.
    pub fn is_empty(&self) -> bool
        ensures { result ≡ (length self.now == 0) }
    {
        self.waiting.is_empty()
    }

    /// No keyspace waits any more.
    pub fn clear(&mut self)
        ensures { self.new ≡ [] }
    {
        self.waiting.clear();
    }

    /// The keyspace waits behind all others. One that waits already keeps its place, and that takes no memory.
    ///
    /// Refuses with `OutOfMemory` alone, and then all wait as before. It looks at each one that waits.
    pub fn enqueue(&mut self, keyspace_id: u64) -> Result<()>
        ensures ok { OnOk result (self.new ≡ with_waiting keyspace_id self.old) }
        ensures unchanged { OnErr result (self.new ≡ self.old) }
        ensures refused { IsOkUnless result OutOfMemory }
        ensures in_place { is_waiting keyspace_id self.old ≡ true → IsOk result }
        ensures once { EachWaitsOnce self.new }
    {
        if self.waiting.contains(&keyspace_id) {
            return Ok(());
        }
        self.waiting.push_back(keyspace_id)?;
        Ok(())
    }

    /// The keyspace that waits longest, which then waits no more; `None` where none waits.
    #[tactic(auto, using(crate::proofs::Queues::without_first))]
    pub fn dequeue(&mut self) -> Option<u64>
        ensures first { result ≡ slice_get self.old 0 }
        ensures rest { self.new ≡ drop 1 self.old }
        ensures once { EachWaitsOnce self.new }
    {
        self.waiting.pop_front()
    }
}
