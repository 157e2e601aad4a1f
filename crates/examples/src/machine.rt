//! The runtime of the examples.

use fjall::Host;
use log::Log;
use std::sync::Wait;
use std::thread::Threads;

/// What an example asks of the runtime: that it has threads, locks, a log, memory and the file system, and prints. The
/// one that `main` receives does.
pub trait Machine: Threads
    + Wait
    + Log
    + Host
    + Print
    + AllocGlobal
    + Copy
    + Drop
    + Send
    + Sync
    + 'static {}

impl<
    R: Threads + Wait + Log + Host + Print + AllocGlobal + Copy + Drop + Send + Sync + 'static,
> Machine for R {}
