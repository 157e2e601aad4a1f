//! The directory: users by their name, each with the code of a city and what else is known, and an index by the code.

use fjall_disk_folder::FolderDisk;
use fjall_index::{
    Config, Core, IndexError, Indexed, IndexedTx, KvPair, Result, Slice, Slot, View,
};
use std::alloc::Global;

/// Users that are found by their city.
#[derive(Drop)]
pub struct Directory {
    alloc: Global,
    pub core: Box<Core<FolderDisk>>,
    pub users: Indexed<Slot>,
}

impl Directory {
    /// Opens the directory of a folder, which is made where it is missing. A city's code is the first three bytes of a value.
    pub fn open(rt: &HostRuntime, folder: &str) -> Result<Directory> {
        let alloc = rt.alloc();
        let disk = FolderDisk::open(rt, alloc, folder)?;
        let mut core = match Core::open(alloc, Config::new(alloc, folder)?, disk) {
            Ok(core) => Box::new(alloc, core)?,
            Err(refused) => return Err(IndexError::Engine(refused.error)),
        };
        let city = Slot { at: 0, len: 3 };
        let users = Indexed::open(alloc, &mut core, b"users", b"by_city", city)?;
        Ok(Directory { alloc, core, users })
    }

    /// The bytes of a text.
    pub fn slice(&self, text: &str) -> Result<Slice> {
        Ok(Slice::new(self.alloc, text.as_bytes())?)
    }

    /// Writes a user, and its entry in the index with it.
    pub fn put(&mut self, name: &str, user: &str) -> Result<()> {
        let (name, user) = (self.slice(name)?, self.slice(user)?);
        self.users.put(&mut self.core, name, user)
    }

    /// Writes a user within a transaction.
    pub fn put_in(&mut self, tx: &mut IndexedTx, name: &str, user: &str) -> Result<()> {
        let (name, user) = (self.slice(name)?, self.slice(user)?);
        self.users.put_in(&mut self.core, tx, name, user)
    }

    /// The users of a city, in the order of their names.
    pub fn of_city(&mut self, view: View, code: &str) -> Result<Vec<KvPair>> {
        self.users.find(&mut self.core, view, code.as_bytes())
    }
}
