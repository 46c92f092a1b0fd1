//! The commands that look at the headers of containers alone: `show`, and `ledger` and `audit` with `--against`.

use crate::files::{about_list, list_pieces, names_of, quotes_of, read_list};
use crate::telling::refuse_list;
use crate::{Streams, explain, print_complaint};
use clap::ArgMatches;
use command_line::{Naming, UsageFault, naming_asked};
use container_core::OpenFault;
use folder_core::unquote;
use ledger_core::{Sink, write_all};
use sealer_core::{FileFault, FileOutcome, Line};
use std::alloc::Global;
use std::io::{Read, Write};
use std::rt::Files;
use system_files::{About, Cause, SealedNumbers, SeenHeader, Shown, cause_of, header_at};
use system_ledger::{Holding, is_older};
use thiserror::Error;

/// Why not all lines of a command were printed.
#[derive(Clone, Copy, Debug, Error)]
pub(crate) enum TellFault {
    /// Memory was refused.
    #[error("out of memory")]
    OutOfMemory,
    /// A line couldn't be written.
    #[error("write failed")]
    WriteFailed,
}

/// What is done with the containers of a command.
#[derive(Drop)]
pub(crate) enum Purpose<'l> {
    /// What their headers say is printed.
    Show,
    /// They are compared with what a ledger file holds.
    Ledger(&'l [Holding]),
    /// They are compared with the numbers that a journal settles as sealed.
    Journal(&'l mut SealedNumbers),
}

/// The names of the containers of a command.
#[derive(Drop)]
pub(crate) struct Containers {
    names: Vec<String>,
    /// Whether they are as lines show them.
    is_quoted: bool,
    /// Whether the cause is printed if one can't be looked at.
    causes: bool,
}

/// Prints a line about the header of each container.
pub(crate) fn show_as_asked<
    R: Files + AllocGlobal + Eprint,
    I: Read + Drop,
    O: Write + Drop,
    E: Write + Drop,
>(rt: &R, matches: &ArgMatches<'_>, input: I, streams: Streams<O, E>) -> (u8, Streams<O, E>) {
    let (mut input, mut streams) = (input, streams);
    let containers = match containers_of(rt, matches, &mut input, streams.terminals.causes) {
        Ok(containers) => containers,
        Err(status) => return (status, streams),
    };
    let status = match look_over(rt, Purpose::Show, &containers, &mut streams.output) {
        Ok(status) => status,
        Err(fault) => print_complaint(rt, "show", fault),
    };
    (status, streams)
}

/// Returns the containers of the command line, then those of its list. A fault is printed, and the error is its status.
pub(crate) fn containers_of<R: Files + AllocGlobal + Eprint, I: Read>(
    rt: &R,
    matches: &ArgMatches<'_>,
    input: &mut I,
    causes: bool,
) -> Result<Containers, u8> {
    let list = match read_list(rt, matches, input) {
        Ok(list) => list,
        Err(fault) => {
            let about = about_list(matches, fault);
            return Err(explain(rt, "usage", fault, causes, about));
        }
    };
    let naming = naming_asked(matches);
    let names = match naming {
        Naming::Plain => match names_of(rt.alloc(), matches, &list) {
            Ok(names) => owned(rt.alloc(), names.as_slice()),
            Err(fault) => Err(fault),
        },
        Naming::Quoted => quotes_of(rt.alloc(), matches, &list),
        Naming::KeepGoing => list_pieces(rt, matches, &list),
    };
    match names {
        Ok(names) if names.is_empty() => Err(print_complaint(rt, "usage", UsageFault::NoFiles)),
        Ok(names) => Ok(Containers {
            names,
            is_quoted: naming != Naming::Plain,
            causes,
        }),
        Err(fault) => Err(refuse_list(rt, &list, fault, causes)),
    }
}

// Copies these names.
fn owned(alloc: Global, names: &[&str]) -> Result<Vec<String>, UsageFault> {
    let mut all = Vec::new(alloc);
    for name in names {
        let Ok(name) = format!(in alloc; "{name}") else {
            return Err(UsageFault::OutOfMemory);
        };
        if all.push(name).is_err() {
            return Err(UsageFault::OutOfMemory);
        }
    }
    Ok(all)
}

/// Looks at each of these containers, and prints what is to be said of it. Returns the status: 1 if something is wrong
/// with one, else 0.
pub(crate) fn look_over<R: Files + AllocGlobal + Eprint, W: Sink>(
    rt: &R,
    purpose: Purpose<'_>,
    containers: &Containers,
    output: &mut W,
) -> Result<u8, TellFault> {
    let mut purpose = purpose;
    let mut status = 0;
    for name in &containers.names {
        let name = name.as_str();
        let seen = look_at_name(rt, name, containers);
        if !print_shown(rt.alloc(), &mut purpose, name, seen, output)? {
            status = 1;
        }
    }
    Ok(status)
}

// Looks at the container of this name. If it can't be read, the cause is printed, if causes are.
fn look_at_name<R: Files + AllocGlobal + Eprint>(
    rt: &R,
    name: &str,
    containers: &Containers,
) -> Result<(SeenHeader, Option<u64>), FileFault> {
    let causes = containers.causes;
    if !containers.is_quoted {
        return look_at_path(rt, name, name, causes);
    }
    match unquote(rt.alloc(), name) {
        Ok(Some(path)) => look_at_path(rt, name, path.as_str(), causes),
        _ => {
            explain_container(rt, name, causes, About::Known(Cause::NoText));
            Err(FileFault::CannotOpen)
        }
    }
}

// The same for the container of this name at this path.
fn look_at_path<R: Files + AllocGlobal + Eprint>(
    rt: &R,
    name: &str,
    path: &str,
    causes: bool,
) -> Result<(SeenHeader, Option<u64>), FileFault> {
    let seen = header_at(rt, path);
    match seen {
        Err(FileFault::CannotOpen | FileFault::Unopened(OpenFault::Read)) => {
            explain_container(rt, name, causes, About::Input(path));
        }
        _ => {}
    }
    seen
}

// Prints why the container of this name can't be read, if causes are printed.
fn explain_container<R: Files + AllocGlobal + Eprint>(
    rt: &R,
    name: &str,
    causes: bool,
    about: About<'_>,
) {
    if causes {
        let cause = cause_of(rt, about);
        let _ = eprintln!(rt; "cause: {name}: {cause}");
    }
}

// Prints what is to be said of a container. Returns whether all is well with it.
fn print_shown<W: Sink>(
    alloc: Global,
    purpose: &mut Purpose<'_>,
    name: &str,
    seen: Result<(SeenHeader, Option<u64>), FileFault>,
    output: &mut W,
) -> Result<bool, TellFault> {
    let (seen, bytes) = match seen {
        Ok(seen) => seen,
        Err(fault) => {
            let outcome = FileOutcome::Failed(fault);
            let line = Line { name, outcome };
            print(format!(in alloc; "{line}\n"), output)?;
            return Ok(false);
        }
    };
    match purpose {
        Purpose::Show => {
            let line = Shown { name, seen, bytes };
            print(format!(in alloc; "{line}\n"), output)?;
            Ok(true)
        }
        Purpose::Ledger(held) => {
            if !is_older(held, seen.hint, seen.facts.device, seen.facts.number) {
                return Ok(true);
            }
            print(format!(in alloc; "ledger: older than {name}\n"), output)?;
            Ok(false)
        }
        Purpose::Journal(sealed) => {
            if sealed.find(seen.facts.device, seen.facts.number) {
                return Ok(true);
            }
            print(format!(in alloc; "not sealed {name}\n"), output)?;
            Ok(false)
        }
    }
}

/// Prints a line for each number that is settled as sealed and that no container has. Returns whether there is none.
pub(crate) fn tell_missing<W: Sink>(
    alloc: Global,
    sealed: &SealedNumbers,
    output: &mut W,
) -> Result<bool, TellFault> {
    let mut from = 0;
    let mut is_none = true;
    for _ in 0..65_536 {
        let Some((number, next)) = sealed.missing(from) else {
            return Ok(is_none);
        };
        print(format!(in alloc; "missing file {number}\n"), output)?;
        is_none = false;
        from = next;
    }
    Ok(is_none)
}

/// Prints a line, in one call.
pub(crate) fn print<W: Sink, A: Drop>(
    line: Result<String, A>,
    output: &mut W,
) -> Result<(), TellFault> {
    match line {
        Ok(line) => match write_all(output, line.as_bytes()) {
            Ok(()) => Ok(()),
            Err(_) => Err(TellFault::WriteFailed),
        },
        Err(_) => Err(TellFault::OutOfMemory),
    }
}
