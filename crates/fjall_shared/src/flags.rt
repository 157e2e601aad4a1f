//! Flags that drops raise. Nothing is proved of them: a drop takes no lock, and what it gives up is given up by the next who collects.

use std::alloc::{AllocError, Global};
use std::sync::Arc;
use std::sync::atomic::AtomicBool;
use std::sync::atomic::Ordering::SeqCst;

/// Whether an owner is gone.
#[derive(Drop)]
pub struct Flag {
    raised: Arc<AtomicBool, Global>,
}

/// Lies with an owner, a snapshot, a transaction or what the clones of a keyspace's handle share, and raises the flag as it is dropped.
pub struct Raiser {
    raised: Arc<AtomicBool, Global>,
}

impl Flag {
    /// A flag, and what raises it.
    pub fn new(alloc: Global) -> Result<(Flag, Raiser), AllocError> {
        let raised = Arc::new(alloc, AtomicBool::new(false))?;
        let other = Arc::try_clone(&raised)?;
        Ok((Flag { raised }, Raiser { raised: other }))
    }

    /// Whether the owner is gone.
    pub fn is_raised(&self) -> bool {
        self.raised.load(SeqCst)
    }
}

impl Drop for Raiser {
    fn drop(self) {
        let Self { raised } = self;
        raised.store(true, SeqCst);
    }
}
