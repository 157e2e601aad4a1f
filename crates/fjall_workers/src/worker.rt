//! A worker's thread.

use std::alloc::{AllocError, Global};
use std::sync::{Arc, OnceLock, Wait};
use std::thread;
use std::thread::Threads;

/// A thread that was started, which any thread may wait for: the `JoinHandle` of std stays in the thread that made it, so that in its place
/// the thread tells that it has ended. Dropping it lets the thread run on.
#[derive(Drop)]
pub(crate) struct Worker {
    ended: Arc<OnceLock<()>, Global>,
}

impl Worker {
    /// Calls a function in a new thread. It fails where memory is used up or no thread can be made, and the function is dropped then.
    pub fn start<R: Threads, F: FnOnce() + Send + Drop + 'static>(
        rt: &R,
        alloc: Global,
        f: F,
    ) -> Result<Worker, AllocError>
        requires { F.pre f }
    {
        let ended = Arc::new(alloc, OnceLock::new())?;
        let theirs = Arc::try_clone(&ended)?;
        let thread = thread::spawn(rt, move || {
            f();
            let _ = theirs.try_set(());
        })?;
        drop(thread);
        Ok(Worker { ended })
    }

    /// Waits until the function has returned, and what it owned is dropped.
    pub fn join<R: Wait>(self, rt: &R) {
        self.ended.wait(rt);
    }
}
