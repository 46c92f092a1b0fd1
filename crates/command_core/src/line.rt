//! What a command prints for each file: one line, and a second one for a good file that is shown.
ghost use Rattle.std.specs.Prelude.{Some};
ghost use Rattle.command_core.specs.Lines.{fault_text, line_text};

use crate::facts::Facts;
use container_core::{OpenFault, SealFault};
use std::fmt;

/// Why a file failed.
#[derive(Clone, Copy, PartialEq, Eq, Debug)]
pub enum FileFault {
    /// The file can't be opened for reading.
    CannotOpen,
    /// The name doesn't end in `.stm`, or has nothing before it.
    NoSuffix,
    /// A file with the output's name exists.
    OutputExists,
    /// The output can't be created.
    CannotCreate,
    /// Memory was refused before an output was created.
    OutOfMemory,
    /// No file number was granted.
    NoNumber,
    /// The container checks, but hasn't the label that was asked for.
    AnotherLabel,
    /// The second reading gave other bytes than the first, all of which had checked.
    Changed,
    /// What was read couldn't be kept for the second reading.
    SpoolFailed,
    /// The container wasn't opened, or its plaintext wasn't written.
    Unopened(OpenFault),
    /// The file wasn't sealed, or its container wasn't written.
    Unsealed(SealFault),
}

/// What follows the name in a line of a file that failed.
impl fmt::Display for FileFault {
    ghost output = { λ fault. Some (fault_text fault) };

    fn fmt<W: fmt::Write>(&self, f: &mut fmt::Formatter<W>) -> fmt::Result {
        match *self {
            FileFault::CannotOpen => write!(f, "cannot open"),
            FileFault::NoSuffix => write!(f, "name does not end in .stm"),
            FileFault::OutputExists => write!(f, "output exists"),
            FileFault::CannotCreate => write!(f, "cannot create"),
            FileFault::OutOfMemory => write!(f, "out of memory"),
            FileFault::NoNumber => write!(f, "no file number"),
            FileFault::AnotherLabel => write!(f, "another label"),
            FileFault::Changed => write!(f, "changed while it was opened"),
            FileFault::SpoolFailed => write!(f, "spool failed"),
            FileFault::Unopened(fault) => write!(f, "{fault}"),
            FileFault::Unsealed(fault) => write!(f, "{fault}"),
        }
    }
}

/// What became of a file.
#[derive(Clone, Copy, PartialEq, Eq, Debug)]
pub enum FileOutcome {
    /// Its container was written: the file number, and how many plaintext bytes it has.
    Sealed { number: u32, bytes: u64 },
    /// Its plaintext of this many bytes was written.
    Opened(u64),
    /// Its container checks, and has this many plaintext bytes.
    Good(u64),
    /// As `Good`, and what its header says is to be printed.
    Shown { bytes: u64, facts: Facts },
    /// It failed. An output that was created for it was removed, or its removal was tried.
    Failed(FileFault),
}

/// A file's line, and the second one if the file is shown, without the line feed at their end.
#[derive(Clone, Copy, PartialEq, Eq, Debug)]
pub struct Line<'a> {
    /// The name, as it was given.
    pub name: &'a str,
    /// What became of the file.
    pub outcome: FileOutcome,
}

impl fmt::Display for Line<'_> {
    ghost output = { λ line. Some (line_text line.name.now line.outcome) };

    fn fmt<W: fmt::Write>(&self, f: &mut fmt::Formatter<W>) -> fmt::Result {
        let name = self.name;
        match self.outcome {
            FileOutcome::Sealed { number, bytes } => {
                write!(f, "sealed {name} file {number} bytes {bytes}")
            }
            FileOutcome::Opened(bytes) => write!(f, "opened {name} bytes {bytes}"),
            FileOutcome::Good(bytes) => write!(f, "good {name} bytes {bytes}"),
            FileOutcome::Shown { bytes, facts } => write!(f, "good {name} bytes {bytes}\n{facts}"),
            FileOutcome::Failed(fault) => write!(f, "failed {name}: {fault}"),
        }
    }
}
