//! How safe what was written is to be.

/// How far a call brings what was written before it.
#[derive(Clone, Copy, Debug, PartialEq, Eq)]
pub enum PersistMode {
    /// To the operating system: a crash of the program loses nothing.
    Buffer,
    /// To the device: a crash of the machine loses no bytes.
    SyncData,
    /// To the device, with the file's metadata.
    SyncAll,
}
