//! Flushes of a keyspace.

ghost use Rattle.std.specs.Prelude.{◌≡◌, IfOk, IsOkUnless};
ghost use Rattle.fjall_base.specs.declared.error.Error.TheVariants.{OutOfMemory};
ghost use Rattle.fjall_c.specs.Live.{live_of};
ghost use Rattle.fjall_c.specs.Openings.{Flushes, FlushesEngine, first_refusal, flush_calls};

use crate::mirror::MirrorDisk;
use crate::session::Session;
use crate::session::place::Place;
use fjall_base::{Error, Result};
use fjall_core::{Call, Engine, JobId, Reply};
use std::alloc::Global;

// The engine's calls that a flush of a keyspace makes.
fn flush_calls(alloc: Global, id: u64) -> Result<Vec<Call>>
    ensures ok { IfOk result (λ calls. calls.items ≡ flush_calls id) }
    ensures only { IsOkUnless result OutOfMemory }
{
    let mut calls = Vec::with_capacity(alloc, 6)?;
    calls.push(Call::RotateMemtable(id))?;
    calls.push(Call::FlushBegin(id))?;
    calls.push(Call::FlushFinish(JobId::of_call(1)))?;
    calls.push(Call::MergeBegin(id))?;
    calls.push(Call::MergeFinish(JobId::of_call(3)))?;
    calls.push(Call::Maintenance)?;
    Ok(calls)
}

// The first refusal among these replies.
fn first_refusal(replies: &[Reply]) -> Result<()>
    ensures { result ≡ first_refusal replies.now }
{
    for reply in replies {
        if let Reply::Refused(error) = reply {
            return Err(*error);
        }
    }
    Ok(())
}

// Flushes a keyspace of an engine.
fn flush_engine(alloc: Global, engine: &mut Engine<MirrorDisk>, id: u64) -> Result<()>
    ensures { FlushesEngine id engine.old engine.new result }
{
    let calls = flush_calls(alloc, id)?;
    let replies = engine.run(calls)?;
    first_refusal(&replies)
}

impl Session {
    /// Moves what a keyspace has in memory to a table, merges its tables where that is due, and removes the journals that nobody wants
    /// then. It tells the first refusal of the engine's calls that it makes of these, each of which changes no view.
    pub fn flush(&mut self, id: u64) -> Result<()>
        ensures answers { Flushes id (live_of self.old) (live_of self.new) result }
        ensures batch { self.new.batch ≡ self.old.batch }
    {
        match &mut self.place {
            Place::Open(opened) => flush_engine(self.alloc, &mut opened.core, id),
            _ => Err(Error::Poisoned),
        }
    }
}
