//! The program `sealer`: the commands of `sealer_core`, as the command line asks for them, over real files and the
//! standard streams.
//!
//! Exit status: 0 all well; 1 some file failed, the journal isn't legal, or ledger or journal don't fit the files; 2 a
//! fault of usage, of the key file, the ledger or the journal file, or of the program's own reading and writing.
#![tactic(auto)]

ghost use Rattle.std.specs.Prelude.{◌≡◌, ◌∷◌, Some, [], codes, unwrap_or};
ghost use Rattle.clap.specs.Matches.{first_value, found_of, subcommand_name_of};
ghost use Rattle.clap.specs.declared.parser.matches.ArgMatches.{ArgMatches};
ghost use Rattle.command_core.specs.Unpiping.{IsOfUnpiping};
ghost use Rattle.sealer.specs.Audit.{IsAudited};
ghost use Rattle.sealer.specs.Pipes.{PipesAsAsked};
ghost use Rattle.sealer.specs.Status.{AreAsked, IsOfCommand, IsStatusOf, IsStatusOfRun};

mod auditing;
mod beginning;
mod files;
mod heard;
mod kept;
mod ledger;
mod opening;
mod piping;
mod sealing;
mod showing;
mod styles;
mod telling;
mod unpiping;

use crate::auditing::audit_as_asked;
use crate::files::{about_list, read_list, run_names};
use crate::heard::Heard;
use crate::ledger::tell_ledger;
use crate::opening::open_as_asked;
use crate::piping::pipe_as_asked;
use crate::sealing::seal_as_asked;
use crate::showing::show_as_asked;
use crate::styles::asked_of;
use crate::unpiping::unpipe_as_asked;
use clap::{ArgMatches, Error};
use command_line::{Reading, asks_for_processors, command, verbose_asked, write_out};
use ledger_core::ToWrite;
use std::alloc::{AllocError, Global};
use std::fmt::Display;
use std::io::{IsTerminal, Read, Write};
use std::process::ExitCode;
use std::rt::{Clock, Env, Files};
use std::sync::Wait;
use std::thread;
use std::thread::Threads;
use system_files::{About, Lines, Step, Style, cause_of, stand_ins};
use system_ledger::LedgerFault;

/// The status of a fault of usage, of the list of names, of the key file, the ledger or the journal file, or of the
/// program's own reading and writing.
pub(crate) const FAULT: u8 = 2;

/// The bytes of the block that `keep_freed_memory` frees. With what the C library adds, it must have at most 32 MiB.
const FREED: usize = (1 << 25) - (1 << 16);

fn main(rt: HostRuntime) -> ExitCode {
    keep_freed_memory(rt.alloc());
    let _streams = stand_ins(&rt);
    let Some(words) = command_words(&rt) else {
        return ExitCode::from(FAULT);
    };
    let status = match parse(rt.alloc(), words.as_slice()) {
        Ok(matches) => run_styled(&rt, &rt, &matches),
        Err(error) => told(&rt, &error),
    };
    ExitCode::from(status)
}

/// Has the C library keep freed memory for the buffers of the next file, which are then in memory that the system has
/// given and cleared before. Once a block was freed, the C library takes smaller ones from its heap, and gives the
/// system none of this below twice the block's size (mallopt(3), `M_MMAP_THRESHOLD`). Nobody touches the block. If it is
/// refused nothing changes.
fn keep_freed_memory(alloc: Global) {
    let _ = untouched(alloc);
}

// Not inlined: the compiler would leave out a block that isn't used.
#[inline(never)]
fn untouched(alloc: Global) -> Result<Vec<u8>, AllocError> {
    Vec::with_capacity(alloc, FREED)
}

/// Runs the command that was asked for over the standard streams, on which it prints in the style asked for. Returns the
/// status.
fn run_styled<R: Files + AllocGlobal + Clock + Env + Eprint + Threads + Wait + Sync>(
    rt: &R,
    host: &HostRuntime,
    matches: &ArgMatches<'_>,
) -> u8 {
    let causes = host.stderr().is_terminal() || is_verbose(matches);
    let asked = match asked_of(rt, matches) {
        Ok(asked) => asked,
        Err(status) => return status,
    };
    let listed = match asked.listed(rt, causes) {
        Ok(listed) => listed,
        Err(status) => return status,
    };
    let style = asked.style();
    let plain = Style {
        is_plain: true,
        ..style
    };
    let (output, errors) = if asked.is_on_errors() {
        (plain, style)
    } else {
        (style, plain)
    };
    let streams = Streams {
        output: ToWrite(Lines::new(rt.alloc(), host.stdout(), output, listed)),
        errors: ToWrite(Heard::new(Lines::new(rt.alloc(), host.stderr(), errors, None))),
        terminals: Terminals {
            output: host.stdout().is_terminal(),
            errors: host.stderr().is_terminal(),
            causes,
        },
    };
    let (status, streams) = run(rt, host, matches, host.stdin(), streams);
    let (ToWrite(lines), ToWrite(errors)) = (streams.output, streams.errors);
    if causes && errors.is_of_store {
        tell_cause(rt, about_store(matches));
    }
    errors.writer.end(lines.end(status))
}

/// The ledger file of the command, in which no range could be stored.
fn about_store<'a>(matches: &ArgMatches<'a>) -> About<'a> {
    let path = match matches.subcommand() {
        Some((_, asked)) => asked.get_str("ledger").unwrap_or(""),
        None => "",
    };
    About::Ledger {
        path,
        fault: LedgerFault::CannotOpen,
        step: Step::Store,
    }
}

/// The streams that a run writes.
#[derive(Drop)]
pub(crate) struct Streams<O: Write + Drop, E: Write + Drop> {
    pub(crate) output: ToWrite<O>,
    pub(crate) errors: ToWrite<E>,
    pub(crate) terminals: Terminals,
}

/// Which of the streams are terminals, and whether causes are printed.
#[derive(Clone, Copy)]
pub(crate) struct Terminals {
    pub(crate) output: bool,
    pub(crate) errors: bool,
    /// Whether causes and warnings are printed: on a terminal, or with `--verbose`.
    pub(crate) causes: bool,
}

/// A command over files.
#[derive(Clone, Copy)]
pub(crate) enum OverFiles {
    Seal,
    Read(Reading),
}

/// The words of the command line, with their numbers in digits. A fault is printed.
fn command_words<R: Env + AllocGlobal + Eprint + Threads>(rt: &R) -> Option<Vec<String>> {
    let Ok(arguments) = std::env::args(rt) else {
        let _ = eprintln!(rt; "usage: an argument is no text");
        return None;
    };
    let words: Result<Vec<String>, _> = arguments.collect(rt.alloc());
    let words = match words {
        Ok(words) => with_digits(rt, words),
        Err(_) => None,
    };
    if words.is_none() {
        let _ = eprintln!(rt; "usage: out of memory");
    }
    words
}

/// The words with their numbers in digits. `None` if memory is refused.
fn with_digits<R: AllocGlobal + Threads>(rt: &R, words: Vec<String>) -> Option<Vec<String>> {
    let mut words = words;
    let processors = processors_for(rt, words.as_slice());
    match write_out(rt.alloc(), &mut words, processors) {
        Ok(()) => Some(words),
        Err(_) => None,
    }
}

/// How many processors this run may use. It is looked up only if a word asks for it.
fn processors_for<R: Threads>(rt: &R, words: &[String]) -> usize {
    if !asks_for_processors(words) {
        return 1;
    }
    match thread::available_parallelism(rt) {
        Ok(processors) => processors.get(),
        Err(_) => 1,
    }
}

fn parse<'a>(alloc: Global, words: &'a [String]) -> Result<ArgMatches<'a>, Error> {
    command(alloc)?.try_get_matches_from(words)
}

/// Prints the message of the command line's parser. The status is 0 for a request for help. It is 2 for a fault of
/// usage, or if the text couldn't be printed.
fn told<R: Print + Eprint>(rt: &R, error: &Error) -> u8 {
    if error.print(rt).is_err() {
        return FAULT;
    }
    if error.exit_code() == 0 { 0 } else { FAULT }
}

/// Whether `--verbose` was given to the command.
fn is_verbose(matches: &ArgMatches<'_>) -> bool {
    match matches.subcommand() {
        Some((_, asked)) => verbose_asked(asked),
        None => false,
    }
}

/// Prints on standard error what is at fault, and why. Returns the status.
pub(crate) fn print_complaint<R: Eprint, F: Display + Drop>(rt: &R, subject: &str, fault: F) -> u8
    ensures status { result ≡ FAULT }
{
    let _ = eprintln!(rt; "{subject}: {fault}");
    FAULT
}

/// Does the same, and with `causes` prints a second line with the cause of the fault.
pub(crate) fn explain<R: Files + AllocGlobal + Eprint, F: Display + Drop>(
    rt: &R,
    subject: &str,
    fault: F,
    causes: bool,
    about: About<'_>,
) -> u8
    ensures status { result ≡ FAULT }
{
    let status = print_complaint(rt, subject, fault);
    if causes {
        tell_cause(rt, about);
    }
    status
}

/// Prints on standard error why something failed.
pub(crate) fn tell_cause<R: Files + AllocGlobal + Eprint>(rt: &R, about: About<'_>) {
    let cause = cause_of(rt, about);
    let _ = eprintln!(rt; "cause: {cause}");
}

/// Runs the command that was asked for. `host` is the runtime too, and only it opens ledger files. Returns the status,
/// with the streams.
fn run<
    R: Files + AllocGlobal + Clock + Env + Eprint + Threads + Wait + Sync,
    I: Read + Drop,
    O: Write + Drop,
    E: Write + Drop,
>(
    rt: &R,
    host: &HostRuntime,
    matches: &ArgMatches<'_>,
    input: I,
    streams: Streams<O, E>,
) -> (u8, Streams<O, E>)
    ensures seal { subcommand_name_of matches.now ≡ Some (codes "seal") → (asked : ArgMatches)
        × AreAsked matches.now asked × IsStatusOfRun (IsOfCommand OverFiles.Seal asked) asked (I.remaining input)
        result.0 (O.contents streams.output.0) (O.contents result.1.output.0) }
    ensures open { subcommand_name_of matches.now ≡ Some (codes "open") → (asked : ArgMatches)
        × AreAsked matches.now asked × IsStatusOfRun (IsOfCommand (OverFiles.Read Reading.Open) asked) asked
        (I.remaining input) result.0 (O.contents streams.output.0) (O.contents result.1.output.0) }
    ensures verify { subcommand_name_of matches.now ≡ Some (codes "verify") → (asked : ArgMatches)
        × AreAsked matches.now asked × IsStatusOfRun (IsOfCommand (OverFiles.Read Reading.Verify) asked) asked
        (I.remaining input) result.0 (O.contents streams.output.0) (O.contents result.1.output.0) }
    ensures stream { subcommand_name_of matches.now ≡ Some (codes "pipe") → (asked : ArgMatches)
        × AreAsked matches.now asked × PipesAsAsked asked (I.remaining input) result.0
        (O.contents streams.output.0) (O.contents result.1.output.0)
        (E.contents streams.errors.0) (E.contents result.1.errors.0) }
    ensures back { subcommand_name_of matches.now ≡ Some (codes "unpipe") → (asked : ArgMatches)
        × AreAsked matches.now asked × IsStatusOf
        (λ name. IsOfUnpiping (O.contents streams.output.0) (O.contents result.1.output.0)) result.0
        (unwrap_or (first_value (found_of asked) (codes "FILE")) (codes "-") ∷ [])
        (E.contents streams.errors.0) (E.contents result.1.errors.0) }
    ensures audit { subcommand_name_of matches.now ≡ Some (codes "audit") → (asked : ArgMatches)
        × AreAsked matches.now asked × IsAudited asked (I.remaining input) result.0
        (O.contents streams.output.0) (O.contents result.1.output.0) }
{
    match matches.subcommand() {
        Some(("seal", asked)) => over_files(rt, host, OverFiles::Seal, asked, input, streams),
        Some(("pipe", asked)) => pipe_as_asked(rt, host, asked, input, streams),
        Some(("unpipe", asked)) => unpipe_as_asked(rt, asked, input, streams),
        Some(("open", asked)) => {
            let open = OverFiles::Read(Reading::Open);
            over_files(rt, host, open, asked, input, streams)
        }
        Some(("verify", asked)) => {
            let verify = OverFiles::Read(Reading::Verify);
            over_files(rt, host, verify, asked, input, streams)
        }
        Some(("show", asked)) => show_as_asked(rt, asked, input, streams),
        Some(("ledger", asked)) => tell_ledger(rt, asked, input, streams),
        Some(("audit", asked)) => audit_as_asked(rt, asked, input, streams),
        _ => (FAULT, streams),
    }
}

/// Seals, opens or verifies the files of the command line, then those of its list.
fn over_files<
    R: Files + AllocGlobal + Clock + Eprint + Threads + Wait + Sync,
    I: Read + Drop,
    O: Write + Drop,
    E: Write + Drop,
>(
    rt: &R,
    host: &HostRuntime,
    command: OverFiles,
    matches: &ArgMatches<'_>,
    input: I,
    streams: Streams<O, E>,
) -> (u8, Streams<O, E>)
    ensures status { IsStatusOfRun (IsOfCommand command matches.now) matches.now (I.remaining input) result.0
        (O.contents streams.output.0) (O.contents result.1.output.0) }
{
    let mut input = input;
    let causes = streams.terminals.causes;
    let list = match read_list(rt, matches, &mut input) {
        Ok(list) => list,
        Err(fault) => {
            let about = about_list(matches, fault);
            let status = explain(rt, "usage", fault, causes, about);
            return (status, streams);
        }
    };
    let mut shown = Vec::new(rt.alloc());
    let names = match run_names(rt, matches, &list, &mut shown, causes) {
        Ok(names) => names,
        Err(status) => return (status, streams),
    };
    let names = names.as_slice();
    match command {
        OverFiles::Seal => seal_as_asked(rt, host, matches, names, streams),
        OverFiles::Read(reading) => open_as_asked(rt, reading, matches, names, input, streams),
    }
}
