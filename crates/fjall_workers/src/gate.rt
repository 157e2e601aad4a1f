//! Gates that jobs pass.

/// What stands before and behind the run of each job, so that a test can hold one worker until another one has come as far. The run itself
/// takes no lock, and neither should a gate.
pub trait Gate {
    /// A job of this keyspace is about to run.
    fn before(&self, keyspace: u64);

    /// It has run.
    fn after(&self, keyspace: u64);
}

/// A gate that holds nobody.
#[derive(Clone, Copy, Debug)]
pub struct OpenGate;

impl Gate for OpenGate {
    fn before(&self, _keyspace: u64) {}

    fn after(&self, _keyspace: u64) {}
}
