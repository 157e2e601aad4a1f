//! The command `ingest`: all of an input is read, and then brought into a database as one command.

ghost use Rattle.std.specs.Prelude.{◌≡◌, ◌≢◌, ◌↔◌, ◌∷◌, [], true, false, Ok, OnOk, length};
ghost use Rattle.std.specs.Io.KnownBytes.{Appends};
ghost use Rattle.fjall_script.specs.Answers.{bad_line, text_of};
ghost use Rattle.fjall_script.specs.Statuses.{status_code};
ghost use Rattle.fjall_tool.specs.Answers.{PrintsLoaded, loaded_line};
ghost use Rattle.fjall_tool.specs.Pairs.{HasNoPair};

use crate::ingest::ingest;
use crate::pairs::read_pairs;
use crate::usage;
use fjall_base::Result;
use fjall_script::{Status, fail};
use std::io;
use std::io::{BufReader, Read, Write};

/// What a line that is no pair is answered.
const BAD_LINE: &str = "error 0 BadLine";

// Writes that a line is no pair.
fn report_bad_line<E: Write>(errors: &mut E) -> io::Result<()>
    ensures { OnOk result (Appends (E.contents errors.old) (E.contents errors.new) (text_of (bad_line ∷ []))) }
{
    writeln!(errors, "{BAD_LINE}")?;
    errors.flush()
}

// Tells that a line is no pair.
fn bad_line<E: Write>(errors: &mut E) -> Status
    ensures code { status_code result ≡ 1 }
    ensures line { result ≡ Status.Failure → Appends (E.contents errors.old) (E.contents errors.new) (text_of (bad_line ∷ [])) }
{
    match report_bad_line(errors) {
        Ok(()) => Status::Failure,
        Err(_) => Status::Untold,
    }
}

// Prints how many pairs were loaded.
fn print_count<W: Write>(count: usize, output: &mut W) -> io::Result<()>
    ensures { OnOk result (Appends (W.contents output.old) (W.contents output.new) (loaded_line count)) }
{
    writeln!(output, "loaded {count}")?;
    output.flush()
}

// Reads all of an input, loads it, and prints how many pairs it has. It tells whether each line is a pair; where one is none, nothing
// is opened.
fn serve<R: Read, W: Write>(
    rt: &HostRuntime,
    folder: &str,
    name: &str,
    input: &mut R,
    output: &mut W,
) -> Result<bool>
    ensures loaded { result ≡ Ok true → PrintsLoaded (R.remaining input.old) (W.contents output.old) (W.contents output.new) }
    ensures bad { result ≡ Ok false → HasNoPair (R.remaining input.old) }
    ensures quiet { result ≡ Ok false → W.contents output.new ≡ W.contents output.old }
{
    let alloc = rt.alloc();
    let Some(ingestion) = read_pairs(alloc, BufReader::new(alloc, input)?)? else {
        return Ok(false);
    };
    let count = ingestion.len();
    ingest(rt, alloc, folder, name, ingestion)?;
    print_count(count, output)?;
    Ok(true)
}

/// Runs the command on its arguments: a folder's path and a keyspace's name.
pub fn run<R: Read, W: Write, E: Write>(
    rt: &HostRuntime,
    arguments: &[String],
    input: &mut R,
    output: &mut W,
    errors: &mut E,
) -> Status
    ensures usage { (result ≡ Status.Usage) ↔ (length arguments.now ≢ 2) }
    ensures loaded { result ≡ Status.Success → PrintsLoaded (R.remaining input.old) (W.contents output.old) (W.contents output.new) }
    ensures quiet { result ≡ Status.Success → E.contents errors.new ≡ E.contents errors.old }
{
    let [folder, name] = arguments else {
        return usage(errors);
    };
    match serve(rt, folder.as_str(), name.as_str(), input, output) {
        Ok(true) => Status::Success,
        Ok(false) => bad_line(errors),
        Err(error) => fail(error, errors),
    }
}
