//! The changes that are still to be carried out.

ghost use Rattle.std.specs.Prelude.{IsOkUnless};
ghost use Rattle.fjall_base.specs.declared.error.Error.TheVariants.{OutOfMemory};

use crate::mirror::change::Change;
use fjall_base::Result;
use std::alloc::{AllocError, Global};
use std::cell::RefCell;
use std::collections::VecDeque;
use std::rc::Rc;

/// The changes that a disk took and that its owner hasn't yet, in their order. The disk has one handle of it, and its owner another.
#[derive(Drop)]
pub struct Log {
    shared: Rc<RefCell<VecDeque<Change>>>,
}

impl Log {
    /// An empty one.
    pub fn new(alloc: Global) -> std::result::Result<Log, AllocError> {
        let shared = Rc::new(alloc, RefCell::new(VecDeque::new(alloc)))?;
        Ok(Log { shared })
    }

    /// Another handle of the same log. It fails where so many are shared that no more can be counted.
    pub fn share(&self) -> Result<Log>
        ensures { IsOkUnless result OutOfMemory }
    {
        let shared = self.shared.clone()?;
        Ok(Log { shared })
    }

    // Keeps a change at the end, and says whether there was memory for that.
    pub(crate) fn keep(&self, change: Change) -> bool {
        match self.shared.try_borrow_mut() {
            Ok(mut changes) => changes.push_back(change).is_ok(),
            Err(_) => false,
        }
    }

    // Forgets the change that was kept last.
    pub(crate) fn forget_last(&self) {
        if let Ok(mut changes) = self.shared.try_borrow_mut() {
            changes.pop_back();
        }
    }

    /// How many bytes the name and the bytes of the first change have, where there is one.
    pub fn first_lengths(&self) -> Option<(usize, usize)> {
        let Ok(changes) = self.shared.try_borrow() else {
            return None;
        };
        let change = changes.front()?;
        Some((change.name.len(), change.bytes.len()))
    }

    /// Gives the first change away, and keeps it no more.
    pub fn take_first(&self) -> Option<Change> {
        match self.shared.try_borrow_mut() {
            Ok(mut changes) => changes.pop_front(),
            Err(_) => None,
        }
    }
}
