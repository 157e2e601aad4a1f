//! Openings of the core, and how its disk is left.

use crate::answer::{Answer, Tried, Undone};
use crate::numbered::Numbered;
use crate::session::Session;
use fjall_index::{Config, Core, IndexError, PersistMode};
use fjall_recorder::Handle;
use std::alloc::Global;

impl Session {
    /// A session with a core that is open over an empty disk.
    pub fn open_new(alloc: Global) -> Result<Session, IndexError> {
        let core = Box::new(alloc, None)?;
        let disk = Handle::new(alloc)?;
        let mut session = Session {
            alloc,
            disk,
            core,
            opened: None,
            asked: 0,
            numbered: Vec::new(alloc),
            tapes: Vec::new(alloc),
        };
        session.open()?;
        Ok(session)
    }

    // Opens the core, where none is open.
    fn open(&mut self) -> Result<(), IndexError> {
        let config = Config::new(self.alloc, "db")?;
        match Core::open(self.alloc, config, self.disk.share()?) {
            Ok(core) => {
                *self.core = Some(core);
                Ok(())
            }
            Err(refused) => Err(IndexError::Engine(refused.error)),
        }
    }

    // Takes the core, and closes what stands on it.
    fn take_core(&mut self) -> Option<Core<Handle>> {
        self.opened = None;
        for slot in &mut self.numbered {
            *slot = Numbered::Nothing;
        }
        self.core.take()
    }

    /// The core lets its disk go, and syncs nothing.
    pub(crate) fn leave(&mut self) {
        if let Some(core) = self.take_core() {
            let _ = core.into_disk();
        }
    }

    // Closes the core.
    fn close(&mut self) -> Tried<()> {
        match self.take_core() {
            Some(core) => Ok(core.close().1?),
            None => Err(Undone::Shut),
        }
    }

    /// Closes the core, where one is open.
    pub fn end(&mut self) -> Result<(), IndexError> {
        if let Some(core) = self.take_core() {
            core.close().1?;
        }
        Ok(())
    }

    /// Each file keeps at most so many of its unsynced bytes, the core is opened again, and the index, where one was open.
    pub(crate) fn crash(&mut self, keep: usize) -> Tried<()> {
        let opened = self.opened.take();
        self.leave();
        self.disk.lose(self.alloc, keep)?;
        self.open()?;
        match opened {
            Some(opened) => self.open_index(opened.asked),
            None => Ok(()),
        }
    }

    /// What a line of the core is answered.
    pub(crate) fn of_core(&mut self, words: &[&str]) -> Tried<Answer> {
        match words {
            ["persist"] => self.core()?.persist(PersistMode::SyncAll)?,
            ["journal"] => return Ok(Answer::Count(self.core()?.journal_disk_space())),
            ["open"] if self.core.is_some() => return Ok(Answer::Open),
            ["open"] => self.open()?,
            ["close"] => self.close()?,
            ["new"] => {
                self.leave();
                self.disk = Handle::new(self.alloc)?;
            }
            _ => return Err(Undone::BadLine),
        }
        Ok(Answer::Done)
    }
}
