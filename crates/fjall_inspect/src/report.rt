//! What a check tells.

ghost use Rattle.std.specs.Prelude.{◌≡◌, ◌↔◌, [], None, IfOk, IsOkUnless, IsTrue, string_bytes};
ghost use Rattle.fjall_inspect.specs.Checks.{IsClean};
ghost use Rattle.fjall_inspect.specs.Faults.{is_fault};

use fjall_base::{Error, Result};
use std::alloc::Global;

/// Something wrong in a folder.
#[derive(Debug, Drop)]
pub struct Fault {
    /// The name of the file or folder in which it is, from the root on, as `keyspaces/1/3.table`.
    pub file: String,
    /// Where it begins, in bytes from the start of the file, where that is known.
    pub offset: Option<u64>,
    /// What an opening or a read is refused with for it.
    pub error: Error,
}

/// Whether an error tells of something wrong in the folder, and neither that memory ran out nor that the disk failed.
pub(crate) fn is_fault(error: Error) -> bool
    ensures { result ≡ is_fault error }
{
    !matches!(error, Error::OutOfMemory | Error::Io(_))
}

impl Fault {
    /// A fault of this file. It allocates a copy of the name.
    pub(crate) fn new(alloc: Global, file: &str, offset: Option<u64>, error: Error) -> Result<Fault>
        ensures file { IfOk result (λ fault. string_bytes fault.file ≡ file.now) }
        ensures offset { IfOk result (λ fault. fault.offset ≡ offset) }
        ensures error { IfOk result (λ fault. fault.error ≡ error) }
        ensures only { IsOkUnless result Error.OutOfMemory }
    {
        Ok(Fault {
            file: file.to_owned(alloc)?,
            offset,
            error,
        })
    }
}

/// Adds a fault of this file. It allocates.
pub(crate) fn add_fault(
    alloc: Global,
    faults: &mut Vec<Fault>,
    file: &str,
    offset: Option<u64>,
    error: Error,
) -> Result<()>
    ensures only { IsOkUnless result Error.OutOfMemory }
{
    faults.push(Fault::new(alloc, file, offset, error)?)?;
    Ok(())
}

/// What an opening cuts off: all that stands in a file from a byte on, which an append left that was cut short.
#[derive(Debug, Drop)]
pub struct Cut {
    /// The name of the file, from the root on, as `1.jnl`.
    pub file: String,
    /// In bytes from the start of the file.
    pub offset: u64,
}

/// What a check found.
#[derive(Debug, Drop)]
pub struct Report {
    /// Why an opening refuses the folder, where it does.
    pub refusal: Option<Error>,
    /// All that is wrong, in the order in which it was read.
    pub faults: Vec<Fault>,
    /// What an opening cuts off. Of a folder that is refused, or whose making was cut short, nothing is told.
    pub cuts: Vec<Cut>,
    /// The names of what an opening removes, since no record names it. Nothing is told of the same folders.
    pub removals: Vec<String>,
}

impl Report {
    /// Nothing is wrong, and nothing is to be done.
    pub(crate) fn new(alloc: Global) -> Report
        ensures refusal { result.refusal ≡ None }
        ensures faults { result.faults.items ≡ [] }
        ensures cuts { result.cuts.items ≡ [] }
        ensures removals { result.removals.items ≡ [] }
    {
        Report {
            refusal: None,
            faults: Vec::new(alloc),
            cuts: Vec::new(alloc),
            removals: Vec::new(alloc),
        }
    }

    /// Whether nothing is wrong: an opening isn't refused, and there is no fault.
    pub fn is_ok(&self) -> bool
        ensures { IsTrue result ↔ IsClean self.now }
    {
        self.refusal.is_none() && self.faults.is_empty()
    }
}
