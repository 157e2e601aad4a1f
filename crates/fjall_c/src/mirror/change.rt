//! One change of a disk, to be carried out elsewhere.

ghost use Rattle.std.specs.Prelude.{IfOk};
ghost use Rattle.fjall_c.specs.Changes.{IsChange};

use std::alloc::{AllocError, Global};

/// Which call of a disk it is.
#[derive(Clone, Copy, Debug, PartialEq, Eq)]
pub enum ChangeKind {
    /// Makes an empty file, or leaves the one that is there.
    Create,
    /// Adds the bytes at the end of the file.
    Append,
    /// Syncs the file.
    Sync,
    /// Cuts the file to the length, and syncs it.
    Cut,
    /// Removes the file, where there is one.
    Remove,
    /// Removes the empty folder, where there is one.
    RemoveFolder,
    /// Makes an empty folder, or leaves the one that is there.
    MakeFolder,
    /// Syncs the names right in the folder.
    SyncFolder,
}

/// A change that a disk took.
#[derive(Debug, PartialEq, Eq, Drop)]
pub struct Change {
    pub kind: ChangeKind,
    /// The file or folder, from the root on.
    pub name: String,
    /// What is appended; of other changes nothing.
    pub bytes: Vec<u8>,
    /// The length that the file is cut to; of other changes 0.
    pub len: usize,
}

impl Change {
    /// A change of its own, with copies of the name and the bytes.
    pub(crate) fn new(
        alloc: Global,
        kind: ChangeKind,
        name: &str,
        bytes: &[u8],
        len: usize,
    ) -> Result<Change, AllocError>
        ensures { IfOk result (IsChange kind name.now bytes.now len) }
    {
        let name = String::from_str(alloc, name)?;
        let bytes = Vec::from_slice(alloc, bytes)?;
        Ok(Change {
            kind,
            name,
            bytes,
            len,
        })
    }
}
