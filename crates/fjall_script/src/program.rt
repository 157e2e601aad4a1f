//! The program: the engine of a place is opened, and then all of an input is read, run and answered.

ghost use Rattle.std.specs.Prelude.{◌≡◌, true, false, ◌≢◌, ◌↔◌, IfErr, IfSome, None, OnOk, map, string_bytes};
ghost use Rattle.std.specs.Io.KnownBytes.{Appends};
ghost use Rattle.fjall_script.specs.Answers.{refusal_line, usage_line};
ghost use Rattle.fjall_script.specs.Outputs.{AppendsFront};
ghost use Rattle.std.specs.Process.{exit_status};
ghost use Rattle.fjall_script.specs.Runs.{AnswersKnown, FailsKnown, IfFails, in_memory, mode_in, mode_of};
ghost use Rattle.fjall_script.specs.Statuses.{status_code};

use crate::answer::Refusal;
use crate::output::write_text;
use crate::place::{Folder, Memory, Place};
use crate::session::{begun, run_session};
use fjall_base::{Error, Result};
use fjall_journal::RecoveryMode;
use fjall_lines::commands;
use std::alloc::Global;
use std::io;
use std::io::{Read, Write};
use std::process::ExitCode;

/// The line that wrong arguments are answered.
pub const USAGE: &str = "usage: fjall-run memory|FOLDER [strict]\n";

/// How the program ends.
#[derive(Clone, Copy, Debug, PartialEq, Eq)]
pub enum Status {
    /// All lines were answered.
    Success,
    /// An opening, the closing, a list of calls, or the input or output failed, and this was told.
    Failure,
    /// The same, but it could not be told.
    Untold,
    /// The arguments are wrong.
    Usage,
}

impl Status {
    // The status that a process ends with.
    fn code(self) -> u8
        ensures { result ≡ status_code self }
    {
        match self {
            Status::Success => 0,
            Status::Failure | Status::Untold => 1,
            Status::Usage => 2,
        }
    }
}

impl From<Status> for ExitCode {
    ghost from_gives = { λ status code. exit_status code ≡ status_code status };

    fn from(status: Status) -> ExitCode {
        ExitCode::from(status.code())
    }
}

// Writes a refusal's line.
fn report<E: Write>(error: Error, errors: &mut E) -> io::Result<()>
    ensures { OnOk result (Appends (E.contents errors.old) (E.contents errors.new) (refusal_line error)) }
{
    errors.writeln(Refusal(error))?;
    errors.flush()
}

/// Tells of a refusal that ends the program.
pub fn fail<E: Write>(error: Error, errors: &mut E) -> Status
    ensures code { status_code result ≡ 1 }
    ensures line { result ≡ Status.Failure → Appends (E.contents errors.old) (E.contents errors.new) (refusal_line error) }
{
    match report(error, errors) {
        Ok(()) => Status::Failure,
        Err(_) => Status::Untold,
    }
}

// Opens the engine of a place in this mode, reads all of an input, and runs it: the answers to each list of calls are written
// as soon as it has run.
fn serve<P: Place, R: Read, W: Write>(
    alloc: Global,
    place: &P,
    mode: RecoveryMode,
    input: &mut R,
    output: &mut W,
) -> Result<()>
    ensures answered { OnOk result (AnswersKnown mode P.Disk.honest (R.remaining input.old) W.contents output.old output.new) }
    ensures failed { IfErr result (FailsKnown mode P.Disk.honest (R.remaining input.old) W.contents output.old output.new) }
{
    let core = begun(alloc, place, mode)?;
    let mut text = Vec::new(alloc);
    input.read_to_end(&mut text)?;
    let commands = commands(alloc, text.as_slice(), place.hears_crashes())?;
    run_session(alloc, place, mode, core, commands.as_slice(), output)
}

// Runs the commands of an input over the engine of a place, and tells of a refusal.
pub fn run_over<P: Place, R: Read, W: Write, E: Write>(
    alloc: Global,
    place: &P,
    mode: RecoveryMode,
    input: &mut R,
    output: &mut W,
    errors: &mut E,
) -> Status
    ensures answered { result ≡ Status.Success → AnswersKnown mode P.Disk.honest (R.remaining input.old) W.contents output.old output.new }
    ensures failed { IfFails result mode P.Disk.honest (R.remaining input.old) W.contents output.old output.new E.contents errors.old errors.new }
    ensures quiet { result ≡ Status.Success → E.contents errors.new ≡ E.contents errors.old }
    ensures no_usage { result ≢ Status.Usage }
{
    match serve(alloc, place, mode, input, output) {
        Ok(()) => Status::Success,
        Err(error) => fail(error, errors),
    }
}

/// Runs the commands of an input over an engine in memory, and prints a line for each.
///
/// The engine is opened, and then all of the input is read. Each opening cuts a torn tail of a journal off, or refuses it, as the
/// mode says. The lines up to each crash or reopening, and up to the end, are one
/// list of calls, whose answers are written as soon as it has run. Where the session is refused (see [`run_session`]), the
/// answers before that are printed; where the output fails, a beginning of the answers; where the opening or the input fails,
/// none. Each time `errors` gets the refusal's line.
pub fn run_memory<R: Read, W: Write, E: Write>(
    alloc: Global,
    mode: RecoveryMode,
    input: &mut R,
    output: &mut W,
    errors: &mut E,
) -> Status
    ensures answered { result ≡ Status.Success → AnswersKnown mode true (R.remaining input.old) W.contents output.old output.new }
    ensures failed { IfFails result mode true (R.remaining input.old) W.contents output.old output.new E.contents errors.old errors.new }
    ensures quiet { result ≡ Status.Success → E.contents errors.new ≡ E.contents errors.old }
    ensures no_usage { result ≢ Status.Usage }
{
    run_over(alloc, &Memory { alloc }, mode, input, output, errors)
}

/// Runs the commands of an input over an engine in a folder, made where it is missing, as [`run_memory`] does. There a
/// crash can't be asked for: its line is no command.
///
/// It is refused where the folder can't be made or is none (`Io`), and where it is open already (`Locked`).
pub fn run_folder<R: Read, W: Write, E: Write>(
    rt: &HostRuntime,
    path: &str,
    mode: RecoveryMode,
    input: &mut R,
    output: &mut W,
    errors: &mut E,
) -> Status
    ensures answered { result ≡ Status.Success → AnswersKnown mode false (R.remaining input.old) W.contents output.old output.new }
    ensures failed { IfFails result mode false (R.remaining input.old) W.contents output.old output.new E.contents errors.old errors.new }
    ensures quiet { result ≡ Status.Success → E.contents errors.new ≡ E.contents errors.old }
    ensures no_usage { result ≢ Status.Usage }
{
    let alloc = rt.alloc();
    let place = Folder { rt, alloc, path };
    run_over(alloc, &place, mode, input, output, errors)
}

/// Tells how the program is called. Where `errors` fails, it got a beginning of the line.
pub fn usage<E: Write>(errors: &mut E) -> Status
    ensures status { result ≡ Status.Usage }
    ensures line { AppendsFront (E.contents errors.old) (E.contents errors.new) usage_line }
{
    let _ = write_text(USAGE.as_bytes(), errors);
    Status::Usage
}

// The mode that the words behind the place ask for.
fn mode_of(words: &[String]) -> Option<RecoveryMode>
    ensures { result ≡ mode_of (map string_bytes words.now) }
{
    match words {
        [] => Some(RecoveryMode::TolerateCorruptTail),
        [word] if word.as_str() == "strict" => Some(RecoveryMode::RefuseTornTail),
        _ => None,
    }
}

/// Runs the program on its arguments, the program's own name left out: `memory`, or a folder's path, and then `strict`, where a
/// torn tail of a journal is to be refused.
pub fn run<R: Read, W: Write, E: Write>(
    rt: &HostRuntime,
    arguments: &[String],
    input: &mut R,
    output: &mut W,
    errors: &mut E,
) -> Status
    ensures usage { (result ≡ Status.Usage) ↔ (mode_in arguments.now ≡ None) }
    ensures line { result ≡ Status.Usage → AppendsFront (E.contents errors.old) (E.contents errors.new) usage_line }
    ensures answered { result ≡ Status.Success
        → IfSome (mode_in arguments.now) (λ mode. AnswersKnown mode (in_memory arguments.now) (R.remaining input.old) W.contents output.old output.new) }
    ensures failed { IfSome (mode_in arguments.now) (λ mode.
        IfFails result mode (in_memory arguments.now) (R.remaining input.old) W.contents output.old output.new E.contents errors.old errors.new) }
    ensures quiet { result ≡ Status.Success → E.contents errors.new ≡ E.contents errors.old }
{
    let Some((place, words)) = arguments.split_first() else {
        return usage(errors);
    };
    let Some(mode) = mode_of(words) else {
        return usage(errors);
    };
    if place.as_str() == "memory" {
        return run_memory(rt.alloc(), mode, input, output, errors);
    }
    run_folder(rt, place.as_str(), mode, input, output, errors)
}
