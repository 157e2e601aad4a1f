//! Openings of the database, and how its disk is left.

use crate::answer::{pairs, word};
use crate::session::{SHUT, Session};
use fjall_base::{Result, Slice};
use fjall_calls::{Config, Core, Engine, View};
use fjall_disk_memory::MemoryDisk;
use fjall_options::KeyspaceCreateOptions;
use fjall_recorder::{Handle, LineError, Parsed};
use std::alloc::Global;
use std::ops::Bound;

// Adds the pairs of the keyspace of a name.
fn show_keyspace(
    alloc: Global,
    core: &mut Engine<Handle>,
    name: &Slice,
    out: &mut String,
) -> Result<()> {
    let id = core.keyspace(name, KeyspaceCreateOptions::default(alloc)?)?;
    let everywhere = (Bound::Unbounded, Bound::Unbounded);
    let found = core.page_at(View::Present, id, &everywhere, false, usize::MAX)?;
    out.push_str(&format!(in alloc; "; {id} {} ", word(alloc, name)?)?)?;
    out.push_str(&pairs(alloc, &found)?)?;
    Ok(())
}

impl Session {
    /// Opens the database, and gives whether it was shut before.
    pub(crate) fn open(&mut self) -> Parsed<bool> {
        if self.core.is_some() {
            return Ok(false);
        }
        let disk = self.disk.share()?;
        let config = Config::new(self.alloc, "db")?;
        for ticket in &mut self.tickets {
            *ticket = None;
        }
        match Core::open(self.alloc, config, disk) {
            Ok(core) => {
                *self.core = Some(core);
                Ok(true)
            }
            Err(refused) => Err(LineError::Refused(refused.error)),
        }
    }

    /// Closes the database, and gives whether it was open before.
    pub(crate) fn close(&mut self) -> Parsed<bool> {
        let Some(core) = self.core.take() else {
            return Ok(false);
        };
        match core.close().1 {
            Ok(()) => Ok(true),
            Err(error) => Err(LineError::Refused(error)),
        }
    }

    /// The database lets its disk go, and syncs nothing.
    pub(crate) fn leave(&mut self) {
        if let Some(core) = self.core.take() {
            let _ = core.into_disk();
        }
    }

    /// Each file keeps at most so many of its unsynced bytes, and no database is open.
    pub(crate) fn lose(&mut self, keep: usize) -> Parsed<()> {
        self.leave();
        match self.disk.lose(self.alloc, keep) {
            Ok(()) => Ok(()),
            Err(error) => {
                self.is_lost = true;
                Err(LineError::Refused(error))
            }
        }
    }

    /// Puts another disk in the place of this one, and no database is open.
    pub(crate) fn replace(&mut self, disk: MemoryDisk) -> Parsed<()> {
        self.leave();
        self.disk.replace(self.alloc, disk)?;
        Ok(())
    }

    /// All that the database shows.
    pub(crate) fn show(&mut self) -> Parsed<String> {
        let alloc = self.alloc;
        let Some(core) = &mut *self.core else {
            return Ok(String::from_str(alloc, SHUT)?);
        };
        let names = core.list_keyspace_names()?;
        let mut out = format!(in alloc; "shows {}", core.visible_seqno())?;
        for name in &names {
            show_keyspace(alloc, core, name, &mut out)?;
        }
        Ok(out)
    }
}
