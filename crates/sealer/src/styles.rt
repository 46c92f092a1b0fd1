//! The styles in which a command prints its lines, and the lines with which verified containers are compared.

use crate::{FAULT, explain, print_complaint};
use clap::ArgMatches;
use command_line::{Naming, Printing, UsageFault, device_asked, naming_asked, printing_asked};
use folder_core::quote;
use line_core::{Command, Listed};
use std::alloc::{AllocError, Global};
use std::io::{ErrorKind, Read};
use std::rt::Files;
use system_files::{About, Makes, Names, Style, open_unbuffered, target_of};
use thiserror::Error;

/// Why the lines with which containers are compared can't be read.
#[derive(Clone, Copy, Debug, Error)]
enum AgainstFault {
    /// The file can't be opened.
    #[error("cannot open")]
    CannotOpen,
    /// It can't be read to its end.
    #[error("read failed")]
    ReadFailed,
    /// Memory was refused.
    #[error("out of memory")]
    OutOfMemory,
}

/// How a command prints its lines.
#[derive(Drop)]
pub(crate) struct Asked<'a> {
    command: Command,
    printing: Printing<'a>,
    // The path of the lines with which verified containers are compared. Other commands have a flag of this name.
    against: Option<&'a str>,
    // Whether containers are compared with something.
    compares: bool,
    names: Names,
    // The digits of the device under whose numbers the run seals.
    device: Option<String>,
}

/// Returns how the command that was asked for prints its lines. A fault is printed, and the error is its status.
pub(crate) fn asked_of<'a, R: AllocGlobal + Eprint>(
    rt: &R,
    matches: &ArgMatches<'a>,
) -> Result<Asked<'a>, u8> {
    let Some((name, asked)) = matches.subcommand() else {
        return Err(FAULT);
    };
    let command = match name {
        "seal" => Command::Seal,
        "pipe" => Command::Pipe,
        "open" => Command::Open,
        "unpipe" => Command::Unpipe,
        "verify" => Command::Verify,
        "ledger" => Command::Ledger,
        "show" => Command::Show,
        _ => Command::Audit,
    };
    let Ok(device) = device_of(rt.alloc(), asked) else {
        return Err(print_complaint(rt, "usage", UsageFault::OutOfMemory));
    };
    let names = match naming_asked(asked) {
        Naming::Plain => Names::Plain,
        Naming::Quoted | Naming::KeepGoing => Names::Quoted,
    };
    let printing = printing_asked(asked);
    let (against, compares) = match command {
        Command::Verify => (printing.against, printing.against.is_some()),
        Command::Ledger | Command::Audit => (None, asked.get_flag("against")),
        _ => (None, false),
    };
    Ok(Asked {
        command,
        printing,
        against,
        compares,
        names,
        device,
    })
}

// The digits of the device, if one was given.
fn device_of(alloc: Global, asked: &ArgMatches<'_>) -> Result<Option<String>, AllocError> {
    match device_asked(asked) {
        Some(device) => Ok(Some(format!(in alloc; "{device}")?)),
        None => Ok(None),
    }
}

impl<'a> Asked<'a> {
    /// Returns the style of the stream on which the command prints its lines.
    pub(crate) fn style(&self) -> Style<'_> {
        let printing = &self.printing;
        Style {
            is_plain: !printing.json && !printing.quiet && self.against.is_none(),
            command: self.command,
            compares: self.compares,
            is_json: printing.json,
            is_quiet: printing.quiet,
            shows_facts: printing.show,
            passes_others: self.is_on_errors(),
            device: self.device.as_ref().map(|digits| digits.as_str()),
            makes: makes_of(self.command),
            names: self.names,
            target: target_of(
                printing.into.map(|folder| shown_folder(folder)),
                printing.parents,
            ),
            to: printing.to,
        }
    }

    /// Whether the command prints its line on standard error.
    pub(crate) fn is_on_errors(&self) -> bool {
        matches!(self.command, Command::Pipe | Command::Unpipe)
    }

    /// Reads the lines with which verified containers are compared, if they are. How many of them `seal` doesn't print of a
    /// FILE is printed, if some are. A fault is printed, with `causes` its cause too, and the error is its status.
    pub(crate) fn listed<R: Files + AllocGlobal + Eprint>(
        &self,
        rt: &R,
        causes: bool,
    ) -> Result<Option<Listed>, u8> {
        let Some(path) = self.against else {
            return Ok(None);
        };
        match self.listed_at(rt, path) {
            Ok(listed) => {
                let others = listed.others();
                if others > 0 {
                    let _ = eprintln!(rt; "warning: lines of {path} passed over: {others}");
                }
                Ok(Some(listed))
            }
            Err(fault) => Err(explain(rt, "against", fault, causes, About::Input(path))),
        }
    }

    // Reads the lines from the file at this path.
    fn listed_at<R: Files + AllocGlobal>(
        &self,
        rt: &R,
        path: &str,
    ) -> Result<Listed, AgainstFault> {
        let text = read_lines(rt, path)?;
        let folder = match self.folder(rt.alloc()) {
            Ok(folder) => folder,
            Err(_) => return Err(AgainstFault::OutOfMemory),
        };
        let into = folder.as_ref().map(|folder| folder.as_str());
        match Listed::of(rt.alloc(), text.as_slice(), into, self.printing.parents) {
            Ok(listed) => Ok(listed),
            Err(_) => Err(AgainstFault::OutOfMemory),
        }
    }

    // The folder of the outputs, as lines show it.
    fn folder(&self, alloc: Global) -> Result<Option<String>, AllocError> {
        let Some(folder) = self.printing.into else {
            return Ok(None);
        };
        if self.names == Names::Quoted {
            return Ok(Some(quote(alloc, folder.as_bytes())?));
        }
        let mut copy = String::new(alloc);
        copy.push_str(folder)?;
        Ok(Some(copy))
    }
}

// A folder's path as outputs below it show it: they have a slash of their own after it.
fn shown_folder(folder: &str) -> &str {
    match folder.trim_end_matches('/') {
        "" => folder,
        short => short,
    }
}

// What a command makes of a FILE.
fn makes_of(command: Command) -> Option<Makes> {
    match command {
        Command::Seal => Some(Makes::Container),
        Command::Open => Some(Makes::Plaintext),
        _ => None,
    }
}

// Reads a file to its end.
fn read_lines<R: Files + AllocGlobal>(rt: &R, path: &str) -> Result<Vec<u8>, AgainstFault> {
    let mut file = match open_unbuffered(rt, path) {
        Ok(file) => file,
        Err(_) => return Err(AgainstFault::CannotOpen),
    };
    let mut text = Vec::new(rt.alloc());
    match file.read_to_end(&mut text) {
        Ok(_) => Ok(text),
        Err(error) if error.kind() == ErrorKind::OutOfMemory => Err(AgainstFault::OutOfMemory),
        Err(_) => Err(AgainstFault::ReadFailed),
    }
}
