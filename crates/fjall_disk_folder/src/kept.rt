//! The files that are kept open.

ghost use Rattle.std.specs.Prelude.{◌≤◌, ◌<◌, vec_len, IfOk, IfSome, OnOk};

use std::alloc::{AllocError, Global};
use std::fs::File;
use std::io::{self, ErrorKind, Write};

/// A file that is kept open.
#[derive(Drop)]
pub(crate) struct KeptFile {
    pub(crate) name: String,
    pub(crate) file: File,
    // nothing was done to it since the last sync
    pub(crate) is_synced: bool,
}

impl KeptFile {
    /// Adds bytes at the end of the file. Where the system takes a part of them, it is given the rest.
    pub(crate) fn append(&mut self, bytes: &[u8]) -> io::Result<()> {
        self.is_synced = false;
        self.file.write_all(bytes)
    }

    /// Syncs the file's bytes.
    pub(crate) fn sync(&mut self) -> io::Result<()> {
        self.file.sync_data()?;
        self.is_synced = true;
        Ok(())
    }

    /// Cuts the file and syncs it. One that is shorter is left as it is.
    pub(crate) fn cut_sync(&mut self, len: usize) -> io::Result<()> {
        let len = len as u64;
        if self.file.metadata()?.len() < len {
            return Err(ErrorKind::InvalidInput.into());
        }
        self.is_synced = false;
        self.file.set_len(len)?;
        self.sync()
    }
}

/// Some open files, so many at most, the one that was used last at the end.
#[derive(Drop)]
pub(crate) struct KeptFiles {
    pub(crate) files: Vec<KeptFile>,
    pub(crate) most: usize,
    ghost some: { 0 < most },
    ghost bounded: { vec_len files ≤ most },
}

impl KeptFiles {
    /// Keeps no file yet, and has room for all that it may.
    pub(crate) fn new(alloc: Global, most: usize) -> Result<KeptFiles, AllocError>
        requires { 0 < most }
    {
        Ok(KeptFiles {
            files: Vec::with_capacity(alloc, most)?,
            most,
        })
    }

    /// Puts the file of that name at the end, and answers its place there; `None` where it isn't kept.
    pub(crate) fn reuse(&mut self, name: &str) -> Option<usize>
        ensures { IfSome result (λ i. i < vec_len self.new.files) }
    {
        let i = self.position(name)?;
        self.files.as_mut_slice()[i..].rotate_left(1);
        Some(self.files.len() - 1)
    }

    /// Makes room for one more file. Where there are enough, it closes the one that was not used for the
    /// longest time, and syncs it before if it has to: the system may forget, once no handle is open, that
    /// it failed to write out what was appended.
    pub(crate) fn make_room(&mut self) -> io::Result<()>
        ensures { OnOk result (vec_len self.new.files < self.new.most) }
    {
        if self.files.len() < self.most {
            return Ok(());
        }
        let oldest = &mut self.files[0];
        if !oldest.is_synced {
            oldest.sync()?;
        }
        self.files.remove(0);
        Ok(())
    }

    /// Keeps one more file, and answers its place.
    pub(crate) fn keep(&mut self, file: KeptFile) -> io::Result<usize>
        requires { vec_len self.old.files < self.old.most }
        ensures { IfOk result (λ i. i < vec_len self.new.files) }
    {
        self.files.push(file)?;
        Ok(self.files.len() - 1)
    }

    /// Closes the file of that name, where it is kept.
    pub(crate) fn forget(&mut self, name: &str) {
        if let Some(i) = self.position(name) {
            self.files.remove(i);
        }
    }

    fn position(&self, name: &str) -> Option<usize>
        ensures { IfSome result (λ i. i < vec_len self.now.files) }
    {
        self.files
            .iter()
            .position(|kept| kept.name.as_str() == name)
    }
}
