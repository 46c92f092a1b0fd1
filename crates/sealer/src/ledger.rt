//! The command that prints what a ledger file holds, and compares that with containers.
ghost use Rattle.std.specs.Prelude.{◌≡◌};
ghost use Rattle.container_core.specs.Container.{hint_of};

use crate::files::key_at;
use crate::showing::{Containers, Purpose, TellFault, containers_of, look_over, print};
use crate::{Streams, explain, print_complaint};
use clap::ArgMatches;
use command_line::against_asked;
use container_core::Key;
use ledger_core::Sink;
use std::alloc::Global;
use std::io::{Read, Write};
use std::rt::Files;
use system_files::{About, KeyAlone, Step};
use system_ledger::{Holding, read_holdings};

/// Prints a line for each key and device of a ledger file, or of one key alone. With `--against` it then prints a line
/// for each container that the ledger file is older than. It changes no byte.
pub(crate) fn tell_ledger<
    R: Files + AllocGlobal + Eprint,
    I: Read + Drop,
    O: Write + Drop,
    E: Write + Drop,
>(rt: &R, matches: &ArgMatches<'_>, input: I, streams: Streams<O, E>) -> (u8, Streams<O, E>) {
    let (mut input, mut streams) = (input, streams);
    let causes = streams.terminals.causes;
    let containers = match asked_containers(rt, matches, &mut input, causes) {
        Ok(containers) => containers,
        Err(status) => return (status, streams),
    };
    let hint = match hint_asked(rt, matches, causes) {
        Ok(hint) => hint,
        Err(status) => return (status, streams),
    };
    let path = matches.get_str("ledger").unwrap_or("");
    let held = match read_holdings(rt, path) {
        Ok(held) => held,
        Err(fault) => {
            let about = About::Ledger {
                path,
                fault,
                step: Step::Read,
            };
            let status = explain(rt, "ledger", fault, causes, about);
            return (status, streams);
        }
    };
    let held = held.as_slice();
    let status = match tell_held(rt, held, hint, &containers, &mut streams.output) {
        Ok(status) => status,
        Err(fault) => print_complaint(rt, "ledger", fault),
    };
    (status, streams)
}

// The containers to compare with, if that is asked for. A fault is printed, and the error is its status.
fn asked_containers<R: Files + AllocGlobal + Eprint, I: Read>(
    rt: &R,
    matches: &ArgMatches<'_>,
    input: &mut I,
    causes: bool,
) -> Result<Option<Containers>, u8> {
    match against_asked(matches) {
        Ok(true) => match containers_of(rt, matches, input, causes) {
            Ok(containers) => Ok(Some(containers)),
            Err(status) => Err(status),
        },
        Ok(false) => Ok(None),
        Err(fault) => Err(print_complaint(rt, "usage", fault)),
    }
}

// The hint of the key that is asked for, if one is. A fault is printed, and the error is its status.
fn hint_asked<R: Files + AllocGlobal + Eprint>(
    rt: &R,
    matches: &ArgMatches<'_>,
    causes: bool,
) -> Result<Option<[u8; 7]>, u8> {
    match matches.get_str("key") {
        Some(path) => match key_at(rt, path, causes) {
            Ok(key) => Ok(Some(hint_of(&key))),
            Err(status) => Err(status),
        },
        None => Ok(None),
    }
}

// The key's hint: the first bytes of its ID.
#[tactic(auto, unfolding(container_core::specs::Container::hint_of))]
fn hint_of(key: &Key) -> [u8; 7]
    ensures { result ≡ hint_of key.now }
{
    let [a, b, c, d, e, f, g, ..] = key.id();
    [a, b, c, d, e, f, g]
}

// Prints what a ledger file holds, of one key if a hint is given, and compares all of it with the containers.
fn tell_held<R: Files + AllocGlobal + Eprint, W: Sink>(
    rt: &R,
    held: &[Holding],
    hint: Option<[u8; 7]>,
    containers: &Option<Containers>,
    output: &mut W,
) -> Result<u8, TellFault> {
    tell_all(rt.alloc(), held, hint, output)?;
    match containers {
        Some(containers) => look_over(rt, Purpose::Ledger(held), containers, output),
        None => Ok(0),
    }
}

// Writes the lines, of one key if a hint is given. If it has none, its hint is written.
fn tell_all<W: Sink>(
    alloc: Global,
    held: &[Holding],
    hint: Option<[u8; 7]>,
    output: &mut W,
) -> Result<(), TellFault> {
    let mut is_told = false;
    for holding in held {
        if is_of(holding, hint) {
            print(format!(in alloc; "{holding}\n"), output)?;
            is_told = true;
        }
    }
    match hint {
        Some(hint) if !is_told => {
            let line = KeyAlone { hint };
            print(format!(in alloc; "{line}\n"), output)
        }
        _ => Ok(()),
    }
}

// Whether this is of the key that is asked for, if one is.
fn is_of(holding: &Holding, hint: Option<[u8; 7]>) -> bool {
    match hint {
        Some(hint) => holding.key == hint,
        None => true,
    }
}
