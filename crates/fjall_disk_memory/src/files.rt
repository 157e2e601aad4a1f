//! Named entries, and the history of their changes.

ghost use Rattle.std.specs.Prelude.{◌≡◌, ◌≢◌, ◌↔◌, [], ◌∷◌, IfOk, IfErr, IsOk, IsOkUnless, OnOk, OnErr, IsTrue};
ghost use Rattle.fjall_base.specs.Disk.{Took, Append, Sync, Loosen, Cut, Put, SyncFolder, HasFolder, IsThere, standing, put, ReadsAt, ReadsFile, IsFile, IsLong, IsNoFile, IsNoFolder, CanCreate, CanMakeFolder, CanRemoveFolder};
ghost use Rattle.fjall_disk_memory.specs.Memory.{entry_of, IsKind, IsRefusedUnless, state_of};
ghost use Rattle.fjall_base.specs.Crash.{IsHoused};

use crate::history::{Change, History};
use crate::node::{
    FileChange, Kind, Named, Node, alter_at, folder_name, holds_any, is_long_at, is_there, kind_at,
    put_at, read_at, read_part_at, settle_names,
};
use fjall_base::{Error, Result};
use std::alloc::{AllocError, Global};
use std::io::ErrorKind;

/// Named entries, with the history of the changes that they took.
///
/// A change that fails, for want of memory or since no such file is there, has done nothing.
#[derive(Drop)]
pub struct Files {
    pub alloc: Global,
    pub names: Vec<Named>,
    pub history: History,
    // the folder of each name that is there stands too
    pub ghost housed: { IsHoused (state_of names.items) },
}

impl Files {
    ghost use Rattle.fjall_disk_memory.specs.Files.{meaning_of};

    /// All the bytes of a file; `None` where there is none.
    pub fn read(
        &self,
        alloc: Global,
        name: &str,
    ) -> std::result::Result<Option<Vec<u8>>, AllocError>
        ensures { IfOk result (ReadsFile (state_of self.now.names.items name.now).now) }
    {
        read_at(alloc, self.names.as_slice(), name)
    }

    /// So many bytes of a file from a place on; `None` where there is none, or it is too short.
    pub fn read_part(
        &self,
        alloc: Global,
        name: &str,
        at: usize,
        len: usize,
    ) -> std::result::Result<Option<Vec<u8>>, AllocError>
        ensures { IfOk result (ReadsAt at len (state_of self.now.names.items name.now).now) }
    {
        read_part_at(alloc, self.names.as_slice(), name, at, len)
    }

    /// Which kind of entry stands at a name.
    pub fn kind(&self, name: &str) -> Kind
        ensures { IsKind result (state_of self.now.names.items name.now).now }
    {
        kind_at(self.names.as_slice(), name)
    }

    /// Whether a file or a folder may be made at a name: it isn't empty, and its folder is there.
    pub fn has_room(&self, name: &str) -> bool
        ensures { IsTrue result ↔ ((name.now ≢ []) × HasFolder (state_of self.now.names.items) name.now) }
    {
        !name.is_empty() && is_there(self.names.as_slice(), folder_name(name))
    }

    /// Whether there is such a folder; the root always is.
    pub fn is_there(&self, folder: &str) -> bool
        ensures { IsTrue result ↔ IsThere (standing (state_of self.now.names.items)) folder.now }
    {
        is_there(self.names.as_slice(), folder.as_bytes())
    }

    /// Whether a file has the name.
    pub fn is_file(&self, name: &str) -> bool
        ensures { IsTrue result ↔ IsFile (state_of self.now.names.items name.now).now }
    {
        match self.kind(name) {
            Kind::File => true,
            _ => false,
        }
    }

    /// Whether a file of at least so many bytes has the name.
    pub fn is_long(&self, name: &str, len: usize) -> bool
        ensures { IsTrue result ↔ IsLong len (state_of self.now.names.items name.now).now }
    {
        is_long_at(self.names.as_slice(), name, len)
    }

    /// Whether no folder has the name.
    pub fn is_no_folder(&self, name: &str) -> bool
        ensures { IsTrue result ↔ IsNoFolder (state_of self.now.names.items name.now).now }
    {
        match self.kind(name) {
            Kind::Folder => false,
            _ => true,
        }
    }

    // Whether no file has the name.
    fn is_no_file(&self, name: &str) -> bool
        ensures { IsTrue result ↔ IsNoFile (state_of self.now.names.items name.now).now }
    {
        match self.kind(name) {
            Kind::File => false,
            _ => true,
        }
    }

    /// Whether a file can be made there, or is there.
    pub fn can_create(&self, name: &str) -> bool
        ensures { IsTrue result ↔ CanCreate (state_of self.now.names.items) name.now }
    {
        self.has_room(name) && self.is_no_folder(name)
    }

    /// Whether a folder can be made there, or is there.
    pub fn can_make_folder(&self, name: &str) -> bool
        ensures { IsTrue result ↔ CanMakeFolder (state_of self.now.names.items) name.now }
    {
        self.has_room(name) && self.is_no_file(name)
    }

    /// Whether an empty folder is there, or nothing.
    pub fn can_remove_folder(&self, name: &str) -> bool
        ensures { IsTrue result ↔ CanRemoveFolder (state_of self.now.names.items) name.now }
    {
        match self.kind(name) {
            Kind::Missing => true,
            Kind::File => false,
            Kind::Folder => !holds_any(self.names.as_slice(), name),
        }
    }

    /// Adds bytes at the end of a file.
    pub fn append(&mut self, name: &str, bytes: &[u8]) -> Result<()>
        ensures ok { OnOk result (Took (meaning_of self.old 0) (meaning_of self.new 0) (Append name.now bytes.now ∷ [])) }
        ensures file { OnOk result (IsFile (state_of self.old.names.items name.now).now) }
        ensures err { OnErr result (Took (meaning_of self.old 0) (meaning_of self.new 0) []) }
        ensures cause { IfErr result (IsRefusedUnless (IsFile (state_of self.old.names.items name.now).now)) }
    {
        if !alter_at(&mut self.names, name, FileChange::Append(bytes))? {
            return Err(Error::Io(ErrorKind::NotFound));
        }
        self.history = self.history.then(&Change::Append(name, bytes));
        Ok(())
    }

    /// Syncs a file. It takes no memory.
    pub fn sync(&mut self, name: &str) -> Result<()>
        ensures ok { OnOk result (Took (meaning_of self.old 0) (meaning_of self.new 0) (Sync name.now ∷ [])) }
        ensures file { OnOk result (IsFile (state_of self.old.names.items name.now).now) }
        ensures err { OnErr result (Took (meaning_of self.old 0) (meaning_of self.new 0) []) }
        ensures cause { IfErr result (IsRefusedUnless (IsFile (state_of self.old.names.items name.now).now)) }
        ensures room { IsFile (state_of self.old.names.items name.now).now → IsOk result }
    {
        if !alter_at(&mut self.names, name, FileChange::Sync)? {
            return Err(Error::Io(ErrorKind::NotFound));
        }
        self.history = self.history.then(&Change::Sync(name));
        Ok(())
    }

    /// Cuts a file to a length and syncs it. It takes no memory.
    pub fn cut(&mut self, name: &str, len: usize) -> Result<()>
        ensures ok { OnOk result (Took (meaning_of self.old 0) (meaning_of self.new 0) (Loosen name.now len ∷ Cut name.now len ∷ [])) }
        ensures long { OnOk result (IsLong len (state_of self.old.names.items name.now).now) }
        ensures err { OnErr result (Took (meaning_of self.old 0) (meaning_of self.new 0) []) }
        ensures cause { IfErr result (IsRefusedUnless (IsLong len (state_of self.old.names.items name.now).now)) }
        ensures room { IsLong len (state_of self.old.names.items name.now).now → IsOk result }
    {
        if !alter_at(&mut self.names, name, FileChange::Cut(len))? {
            return Err(Error::Io(ErrorKind::NotFound));
        }
        self.history = self.history.then(&Change::Cut(name, len));
        Ok(())
    }

    /// Puts an entry at a name.
    pub fn put(&mut self, name: &str, node: Node) -> Result<()>
        requires housed { IsHoused (put (state_of self.old.names.items) name.now (entry_of node)) }
        ensures ok { OnOk result (Took (meaning_of self.old 0) (meaning_of self.new 0) (Put name.now (entry_of node) ∷ [])) }
        ensures err { OnErr result (Took (meaning_of self.old 0) (meaning_of self.new 0) []) }
        ensures cause { IsOkUnless result Error.OutOfMemory }
    {
        let history = self.history.then(&Change::Put(name, &node));
        put_at(self.alloc, &mut self.names, name, node)?;
        self.history = history;
        Ok(())
    }

    /// Syncs the names in a folder. It takes no memory.
    pub fn sync_folder(&mut self, folder: &str) -> Result<()>
        ensures ok { OnOk result (Took (meaning_of self.old 0) (meaning_of self.new 0) (SyncFolder folder.now ∷ [])) }
        ensures err { OnErr result (Took (meaning_of self.old 0) (meaning_of self.new 0) []) }
        ensures cause { IsOkUnless result Error.OutOfMemory }
        ensures room { IsOk result }
    {
        settle_names(&mut self.names, folder);
        self.history = self.history.then(&Change::SyncFolder(folder));
        Ok(())
    }
}
