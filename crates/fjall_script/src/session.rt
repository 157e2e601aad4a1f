//! Runs commands over a core, list by list, and prints the answers of each as soon as it has run.

ghost use Rattle.std.specs.Prelude.{◌≡◌, ◌<◌, ◌+◌, ◌^◌, true, IfErr, IfOk, IsOkUnless, OnOk, drop, length, string_bytes, take};
ghost use Rattle.std.specs.List.{position};
ghost use Rattle.fjall_calls.specs.Transactions.{none_kept};
ghost use Rattle.fjall_script.specs.Answers.{text_of};
ghost use Rattle.fjall_script.specs.Machine.{BeginsSession, NotBegun, OpenedOn, RefusedOn};
ghost use Rattle.fjall_script.specs.Requests.{is_stop};
ghost use Rattle.fjall_script.specs.Sessions.{AnsweredFront, answers_to, FrontFails, NotRestarted, PrintsAll, PrintsUntil, Restarts, RunsFront};

use crate::answer::{BAD_LINE, answer};
use crate::calls::{LineCalls, asked_in, asked_with};
use crate::output::write_text;
use crate::place::Place;
use fjall_base::{Disk, Error, Result};
use fjall_calls::{Config, Core, Reply, run};
use fjall_journal::RecoveryMode;
use fjall_lines::Command;
use std::alloc::{AllocError, Global};
use std::io::Write;

fn is_stop(found: &Option<Command>) -> bool
    ensures { result ≡ is_stop found.now }
{
    matches!(
        found,
        Some(Command::Crash(_) | Command::CrashWild(_) | Command::Reopen)
    )
}

// Where the first crash or reopening stands.
fn first_stop(commands: &[Option<Command>]) -> Option<usize>
    ensures { result ≡ position is_stop commands.now }
{
    commands.iter().position(|found| is_stop(found))
}

// The first so many replies, or all where there are fewer, and those behind them.
fn split(replies: &[Reply], count: usize) -> (&[Reply], &[Reply])
    ensures front { result.0.now ≡ take count replies.now }
    ensures back { result.1.now ≡ drop count replies.now }
{
    replies.split_at(count.min(replies.len()))
}

// The answers to lines, a line for each, by so many replies to each request, where so many numbers were asked for before.
fn answers_to(
    alloc: Global,
    commands: &[Option<Command>],
    counts: &[usize],
    replies: &[Reply],
    earlier: usize,
) -> std::result::Result<String, AllocError>
    requires { earlier + length commands.now < 2 ^ 63 }
    ensures { IfOk result (λ text. string_bytes text ≡ text_of (answers_to earlier commands.now counts.now replies.now)) }
{
    let mut text = String::new(alloc);
    let mut counted = counts;
    let mut left = replies;
    let mut asked = earlier;
    for found in commands {
        match found {
            None => text.push_str(BAD_LINE)?,
            Some(command) => match command {
                Command::Ask(request) => {
                    let Some((count, others)) = counted.split_first() else {
                        return Ok(text);
                    };
                    let (mine, later) = split(left, *count);
                    text.push_str(answer(alloc, request, mine, asked + 1)?.as_str())?;
                    asked = asked_with(asked, request);
                    counted = others;
                    left = later;
                }
                Command::Crash(_) => text.push_str("ok")?,
                Command::CrashWild(_) => text.push_str("ok")?,
                Command::Reopen => text.push_str("ok")?,
            },
        }
        text.push_str("\n")?;
    }
    Ok(text)
}

// Runs the calls before the first crash or reopening as one list. It returns the commands from there on, the answers, and
// how many numbers were asked for up to there.
fn answer_front<'a, D: Disk>(
    alloc: Global,
    core: &mut Core<D>,
    commands: &'a [Option<Command>],
    earlier: usize,
) -> Result<(&'a [Option<Command>], String, usize)>
    requires { earlier + length commands.now < 2 ^ 63 }
    ensures ok { IfOk result (λ front. AnsweredFront D.honest earlier commands.now front.0.now core.old.engine core.old.transactions core.new.engine core.new.transactions (string_bytes front.1) front.2) }
    ensures only { IsOkUnless result Error.OutOfMemory }
{
    let end = first_stop(commands).unwrap_or(commands.len());
    let (front, rest) = commands.split_at(end);
    let LineCalls { calls, counts, .. } = LineCalls::of_lines(alloc, front, earlier)?;
    let replies = run(alloc, core, calls)?;
    let text = answers_to(alloc, front, counts.as_slice(), replies.as_slice(), earlier)?;
    Ok((rest, text, asked_in(earlier, front)))
}

// Runs the calls before the first crash or reopening as one list, and prints their answers. It returns the commands from there
// on, and how many numbers were asked for up to there.
fn run_front<'a, D: Disk, W: Write>(
    alloc: Global,
    core: &mut Core<D>,
    commands: &'a [Option<Command>],
    earlier: usize,
    output: &mut W,
) -> Result<(&'a [Option<Command>], usize)>
    requires { earlier + length commands.now < 2 ^ 63 }
    ensures ok { IfOk result (λ front. RunsFront D.honest earlier commands.now front.0.now core.old.engine core.old.transactions core.new.engine core.new.transactions
        (W.contents output.old) (W.contents output.new) front.1) }
    ensures err { IfErr result (FrontFails D.honest earlier commands.now core.old.engine core.old.transactions core.new.engine core.new.transactions
        (W.contents output.old) (W.contents output.new)) }
{
    let (rest, text, asked) = answer_front(alloc, core, commands, earlier)?;
    write_text(text.as_bytes(), output)?;
    Ok((rest, asked))
}

fn opened<D: Disk + Drop>(alloc: Global, config: Config, disk: D) -> Result<Core<D>>
    ensures ok { IfOk result (λ core. OpenedOn config.journal_recovery_mode D.honest (D.meaning disk) core.engine) }
    ensures none { IfOk result (λ core. core.transactions ≡ none_kept) }
    ensures err { IfErr result (RefusedOn config.journal_recovery_mode D.honest (D.meaning disk)) }
{
    match Core::open(alloc, config, disk) {
        Ok(core) => Ok(core),
        Err(refused) => Err(refused.error),
    }
}

/// The core that a session begins with, on the disk of a place.
pub(crate) fn begun<P: Place>(alloc: Global, place: &P, mode: RecoveryMode) -> Result<Core<P::Disk>>
    ensures ok { IfOk result (λ core. BeginsSession mode P.Disk.honest core.engine) }
    ensures none { IfOk result (λ core. core.transactions ≡ none_kept) }
    ensures err { IfErr result (NotBegun mode P.Disk.honest) }
{
    let mut config = Config::new(alloc, "")?;
    config.journal_recovery_mode = mode;
    opened(alloc, config, place.disk()?)
}

// The core after a crash or a reopening. That the closing is refused does not matter.
fn restarted<P: Place>(
    alloc: Global,
    place: &P,
    mode: RecoveryMode,
    core: Core<P::Disk>,
    stop: &Option<Command>,
) -> Result<Core<P::Disk>>
    requires { is_stop stop.now ≡ true }
    ensures ok { IfOk result (λ after. Restarts mode P.Disk.honest stop.now core.engine after.engine) }
    ensures none { IfOk result (λ after. after.transactions ≡ none_kept) }
    ensures err { IfErr result (NotRestarted mode P.Disk.honest stop.now core.engine) }
{
    let disk = match stop {
        Some(Command::Crash(_)) => core.into_disk(),
        Some(Command::CrashWild(_)) => core.into_disk(),
        _ => core.close().0,
    };
    let mut config = Config::new(alloc, "")?;
    config.journal_recovery_mode = mode;
    opened(alloc, config, place.restart(disk, stop)?)
}

/// Runs commands over a core that was opened on the disk of a place, and prints a line for each. The calls up to a crash, a
/// reopening or the end are one list, whose answers are written as soon as it has run. Each core opens in this mode, and begins
/// without transactions. A list of calls that is refused as a whole, an opening that is refused, an output that fails and a refused
/// closing at the end end it.
pub(crate) fn run_session<P: Place, W: Write>(
    alloc: Global,
    place: &P,
    mode: RecoveryMode,
    core: Core<P::Disk>,
    commands: &[Option<Command>],
    output: &mut W,
) -> Result<()>
    requires begins { BeginsSession mode P.Disk.honest core.engine }
    requires none { core.transactions ≡ none_kept }
    ensures ok { OnOk result (PrintsAll mode P.Disk.honest commands.now (W.contents output.old) (W.contents output.new)) }
    ensures err { IfErr result (λ error. PrintsUntil mode P.Disk.honest commands.now error (W.contents output.old) (W.contents output.new)) }
{
    let mut core = core;
    let (mut rest, mut asked) = run_front(alloc, &mut core, commands, 0, output)?;
    while let Some((stop, after)) = rest.split_first() {
        core = restarted(alloc, place, mode, core, stop)?;
        write_text(b"ok\n", output)?;
        (rest, asked) = run_front(alloc, &mut core, after, asked, output)?;
    }
    core.close().1
}
