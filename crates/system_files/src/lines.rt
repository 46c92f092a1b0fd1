//! A stream on which a command prints lines, in other styles: as JSON objects, or only those of files that failed. Each
//! line, and the second one with the facts of a container, comes by one call of `write`, as all commands print them. Its
//! parts are read again (`line_core`). What is no line isn't printed, and counts as a failed write; on standard error,
//! where complaints come too, it passes.
//!
//! A style ends with the totals, unless the status is 2.
ghost use Rattle.std.specs.Prelude.{None, true, if◌then◌else◌};

use crate::kept::Makes;
use crate::names::{Names, Target, path_of};
use line_core::{
    Command, Extras, Listed, Message, Totals, is_line_of, message_of, push_finding, push_object,
    push_totals,
};
use std::alloc::{AllocError, Global};
use std::io;
use std::io::{ErrorKind, Write};
use std::str::from_utf8;

/// How lines are printed.
#[derive(Clone, Copy)]
pub struct Style<'a> {
    /// Whether they are printed as they are. The other fields have no effect then.
    pub is_plain: bool,
    /// The command that prints them.
    pub command: Command,
    /// Whether the command compares containers with something.
    pub compares: bool,
    /// Whether each is a JSON object.
    pub is_json: bool,
    /// Whether only those of files that failed are printed.
    pub is_quiet: bool,
    /// Whether the facts of good containers are printed after their lines.
    pub shows_facts: bool,
    /// Whether what is no line passes.
    pub passes_others: bool,
    /// The digits of the device under whose numbers the run seals.
    pub device: Option<&'a str>,
    /// What the run makes of a FILE, if it has outputs.
    pub makes: Option<Makes>,
    /// How the names of FILEs denote paths.
    pub names: Names,
    /// Where outputs go.
    pub target: Target<'a>,
    /// The name of the only output, if one is given.
    pub to: Option<&'a str>,
}

/// A stream on which a command prints lines in a style.
#[derive(Drop)]
pub struct Lines<'a, W: Write + Drop> {
    alloc: Global,
    /// The stream.
    pub writer: W,
    style: Style<'a>,
    totals: Totals,
    // What verified containers are compared with.
    listed: Option<Listed>,
}

impl<'a, W: Write + Drop> Lines<'a, W> {
    /// Returns the stream on which lines are printed in this style to that writer.
    pub fn new(alloc: Global, writer: W, style: Style<'a>, listed: Option<Listed>) -> Lines<'a, W> {
        Lines {
            alloc,
            writer,
            style,
            totals: Totals::new(),
            listed,
        }
    }

    /// Ends the lines of a command that had this status: prints what the comparison found, and the totals. Returns the
    /// status: 1 in place of 0 if the comparison found something, and 2 if a line couldn't be written.
    pub fn end(self, status: u8) -> u8 {
        if self.style.is_plain || status > 1 {
            return status;
        }
        let mut lines = self;
        match lines.put_end() {
            Ok(true) => 1,
            Ok(false) => status,
            Err(_) => 2,
        }
    }

    // Prints what the comparison found, and the totals. Returns whether it found something.
    fn put_end(&mut self) -> io::Result<bool> {
        if let Some(listed) = self.listed.take() {
            self.put_findings(listed)?;
        }
        if self.style.is_json || self.style.is_quiet {
            let mut text = Vec::new(self.alloc);
            let (command, is_json) = (self.style.command, self.style.is_json);
            let compared = self.style.compares;
            match push_totals(
                self.alloc,
                &mut text,
                command,
                &self.totals,
                compared,
                is_json,
            ) {
                Ok(()) => {}
                Err(_) => return Err(no_memory()),
            }
            self.writer.write_all(text.as_slice())?;
        }
        Ok(self.totals.has_findings())
    }

    // Prints what a comparison found, each with one call.
    fn put_findings(&mut self, listed: Listed) -> io::Result<()> {
        let found = match listed.end() {
            Ok(found) => found,
            Err(_) => return Err(no_memory()),
        };
        for finding in found.as_slice() {
            let mut text = Vec::new(self.alloc);
            match push_finding(self.alloc, &mut text, finding, self.style.is_json) {
                Ok(()) => {}
                Err(_) => return Err(no_memory()),
            }
            self.writer.write_all(text.as_slice())?;
            self.totals.add_finding(finding.what);
        }
        Ok(())
    }

    // Prints a line in the style, and counts it.
    fn put_line(&mut self, text: &[u8]) -> io::Result<()> {
        let message = match message_in(text) {
            Some(message) if is_line_of(self.style.command, &message) => message,
            _ if self.style.passes_others => return self.writer.write_all(text),
            _ => return Err(io::Error::from(ErrorKind::InvalidData)),
        };
        match self.rendered(&message, text) {
            Ok(Some(line)) => self.writer.write_all(line.as_slice())?,
            Ok(None) => {}
            Err(_) => return Err(no_memory()),
        }
        self.totals.add(&message);
        if let Some(listed) = &mut self.listed {
            match match_listed(listed, &message) {
                Ok(()) => {}
                Err(_) => return Err(no_memory()),
            }
        }
        Ok(())
    }

    // What is printed for a line, if something is.
    fn rendered(&self, message: &Message<'_>, text: &[u8]) -> Result<Option<Vec<u8>>, AllocError> {
        if self.style.is_quiet && !matches!(*message, Message::Failed { .. }) {
            return Ok(None);
        }
        let mut line = Vec::new(self.alloc);
        if self.style.is_json {
            let output = self.output_of(message)?;
            let extras = Extras {
                device: self.style.device,
                output: output.as_ref().map(|path| path.as_str()),
            };
            push_object(self.alloc, &mut line, message, extras)?;
            return Ok(Some(line));
        }
        match *message {
            Message::Shown { name, bytes, .. } if !self.style.shows_facts => {
                line.extend_from_slice(b"good ")?;
                line.extend_from_slice(name.as_bytes())?;
                line.extend_from_slice(b" bytes ")?;
                line.extend_from_slice(bytes.as_bytes())?;
                line.push(b'\n')?;
            }
            _ => line.extend_from_slice(text)?,
        }
        Ok(Some(line))
    }

    // The path of the output of a line, if the line has one.
    fn output_of(&self, message: &Message<'_>) -> Result<Option<String>, AllocError> {
        let name = match *message {
            Message::Sealed { name, .. } | Message::Kept { name } | Message::Opened { name, .. } =>
                { name }
            _ => return Ok(None),
        };
        if let Some(to) = self.style.to {
            return self.made_at(Names::Plain, Target::AsNamed, to);
        }
        let (names, target) = (self.style.names, self.style.target);
        match self.style.makes {
            Some(Makes::Container) => {
                let output = format!(in self.alloc; "{name}.stm")?;
                self.made_at(names, target, output.as_str())
            }
            Some(Makes::Plaintext) => match name.strip_suffix(".stm") {
                Some(output) => self.made_at(names, target, output),
                None => Ok(None),
            },
            None => Ok(None),
        }
    }

    // The path of an output that was made. It has one, so if there is none memory is refused.
    fn made_at(
        &self,
        names: Names,
        target: Target<'_>,
        name: &str,
    ) -> Result<Option<String>, AllocError> {
        match path_of(self.alloc, names, target, name) {
            Some(path) => Ok(Some(path)),
            None => Err(AllocError),
        }
    }
}

// The parts of a line that ends with a line feed.
fn message_in(text: &[u8]) -> Option<Message<'_>> {
    let Ok(text) = from_utf8(text) else {
        return None;
    };
    match text.strip_suffix("\n") {
        Some(line) => message_of(line),
        None => None,
    }
}

// Compares a verified container with the lines.
fn match_listed(listed: &mut Listed, message: &Message<'_>) -> Result<(), AllocError> {
    match *message {
        Message::Shown { name, bytes, facts } => {
            match (facts.number.parse::<u32>(), bytes.parse::<u64>()) {
                (Ok(number), Ok(bytes)) => listed.meet(name, Some((number, bytes))),
                _ => listed.meet(name, None),
            }
        }
        Message::Good { name, .. } | Message::Failed { name, .. } => listed.meet(name, None),
        _ => Ok(()),
    }
}

// The error of refused memory.
fn no_memory() -> io::Error {
    io::Error::from(ErrorKind::OutOfMemory)
}

impl<W: Write + Drop> Write for Lines<'_, W> {
    // A writer's bytes, where lines are printed as they are.
    ghost contents = { λ lines. if lines.style.is_plain then W.contents lines.writer else None };

    fn write(&mut self, buf: &[u8]) -> io::Result<usize> {
        if self.style.is_plain {
            return self.writer.write(buf);
        }
        match self.put_line(buf) {
            Ok(()) => Ok(buf.len()),
            Err(error) => Err(error),
        }
    }

    fn flush(&mut self) -> io::Result<()> {
        self.writer.flush()
    }
}
