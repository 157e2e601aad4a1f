//! What a session has of its database.

use crate::session::opened::Opened;
use fjall_disk_memory::MemoryDisk;

/// The files that it was given so far, the open database over them, or nothing any more.
#[derive(Drop)]
pub(crate) enum Place {
    Files(MemoryDisk),
    Open(Box<Opened>),
    Closed,
}
