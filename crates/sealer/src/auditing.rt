//! The command that audits a journal, and compares it with containers.
ghost use Rattle.sealer.specs.Audit.{IsAudited, IsPlain};

use crate::showing::{Containers, Purpose, TellFault, containers_of, look_over, tell_missing};
use crate::{Streams, print_complaint};
use clap::ArgMatches;
use command_line::{UsageFault, against_asked, list_request};
use ledger_core::{FromRead, ToWrite};
use sealer_core::run_audit;
use std::io::{Read, Write};
use std::rt::Files;
use system_files::{Keeping, SealedNumbers};

/// Audits an input. With `--against` the numbers that a legal journal settles as sealed are compared with those of
/// containers. Returns the status, with the streams.
pub(crate) fn audit_as_asked<
    R: Files + AllocGlobal + Eprint,
    I: Read + Drop,
    O: Write + Drop,
    E: Write + Drop,
>(rt: &R, matches: &ArgMatches<'_>, input: I, streams: Streams<O, E>) -> (u8, Streams<O, E>)
    ensures verdict { IsAudited matches.now (I.remaining input) result.0
        (O.contents streams.output.0) (O.contents result.1.output.0) }
{
    match against_asked(matches) {
        Ok(true) => audit_against(rt, matches, input, streams),
        Ok(false) => audit_input(rt, input, streams),
        Err(fault) => (print_complaint(rt, "usage", fault), streams),
    }
}

// Audits an input. A fault is printed on standard error, with status 2.
fn audit_input<R: AllocGlobal + Eprint, I: Read + Drop, O: Write + Drop, E: Write + Drop>(
    rt: &R,
    input: I,
    streams: Streams<O, E>,
) -> (u8, Streams<O, E>)
    ensures verdict { IsPlain (I.remaining input) result.0
        (O.contents streams.output.0) (O.contents result.1.output.0) }
{
    let mut streams = streams;
    let status = match run_audit(rt.alloc(), &mut FromRead(input), &mut streams.output) {
        Ok(status) => status,
        Err(fault) => print_complaint(rt, "audit", fault),
    };
    (status, streams)
}

// The same, and compares a legal journal with the containers. They are named before the journal is read.
fn audit_against<R: Files + AllocGlobal + Eprint, I: Read + Drop, O: Write + Drop, E: Write + Drop>(
    rt: &R,
    matches: &ArgMatches<'_>,
    input: I,
    streams: Streams<O, E>,
) -> (u8, Streams<O, E>) {
    let (mut input, mut streams) = (input, streams);
    match list_request(matches) {
        Some(list) if list.path == "-" => {
            return (
                print_complaint(rt, "usage", UsageFault::InputIsJournal),
                streams,
            );
        }
        _ => {}
    }
    let containers = match containers_of(rt, matches, &mut input, streams.terminals.causes) {
        Ok(containers) => containers,
        Err(status) => return (status, streams),
    };
    let mut journal = Keeping::of(rt.alloc(), FromRead(input));
    let status = match run_audit(rt.alloc(), &mut journal, &mut streams.output) {
        Ok(0) => compare(rt, &journal, &containers, &mut streams.output),
        Ok(status) => status,
        Err(fault) => print_complaint(rt, "audit", fault),
    };
    (status, streams)
}

// Compares a legal journal with the containers. A fault is printed on standard error, with status 2.
fn compare<R: Files + AllocGlobal + Eprint, I: Read + Drop, O: Write + Drop>(
    rt: &R,
    journal: &Keeping<FromRead<I>>,
    containers: &Containers,
    output: &mut ToWrite<O>,
) -> u8 {
    let sealed = match journal.text() {
        Some(text) => SealedNumbers::of(rt.alloc(), text),
        None => return print_complaint(rt, "audit", TellFault::OutOfMemory),
    };
    let Ok(Some(mut sealed)) = sealed else {
        return print_complaint(rt, "audit", TellFault::OutOfMemory);
    };
    match fitting(rt, &mut sealed, containers, output) {
        Ok(status) => status,
        Err(fault) => print_complaint(rt, "audit", fault),
    }
}

// Prints a line for each container that isn't among these numbers, then for each number that no container has.
fn fitting<R: Files + AllocGlobal + Eprint, O: Write + Drop>(
    rt: &R,
    sealed: &mut SealedNumbers,
    containers: &Containers,
    output: &mut ToWrite<O>,
) -> Result<u8, TellFault> {
    let status = look_over(rt, Purpose::Journal(sealed), containers, output)?;
    let is_whole = tell_missing(rt.alloc(), sealed, output)?;
    Ok(if is_whole { status } else { 1 })
}
