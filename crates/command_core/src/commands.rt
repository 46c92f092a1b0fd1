//! What the commands over a folder share: each processes its files in turn, with a line on standard output for each.
//!
//! A file that fails doesn't stop the others. If a line can't be written, no further line is tried, the other files are
//! still processed, and the exit status is 2.
ghost use Rattle.std.specs.Prelude.{◌≡◌, ℕ, List, [], ◌∷◌, ◌++◌, Option, Ok, Err, if◌then◌else◌};
ghost use Rattle.command_core.specs.Lines.{FileLine, is_failed};
ghost use Rattle.command_core.specs.Putting.{fault_of_stop};
ghost use Rattle.command_core.specs.Work.{AreTold};

use crate::line::{FileFault, FileOutcome, Line};
use crate::report::Report;
use container_core::{MAX_OPENED, MAX_PLAIN};
use ledger_core::Failed;
use opening_core::Stopped;
use std::alloc::Global;

/// What a sealed file's name ends in.
pub const SUFFIX: &str = ".stm";

/// The greatest number of plaintext bytes of a file that can be sealed: 2^40.
pub const MAX_BYTES: u64 = MAX_PLAIN;

/// The greatest number of plaintext bytes of a file that can be opened: 2^52 - 2^20.
pub const MAX_OPENED_BYTES: u64 = MAX_OPENED;

/// The exit status where some file failed.
const SOME_FAILED: u8 = 1;

/// The exit status where a line couldn't be written.
const UNTOLD: u8 = 2;

/// What `open_all` and `verify_all` work on.
#[derive(Clone, Copy, Debug)]
pub struct OpenOptions<'a> {
    /// The names of the files: at least one.
    pub files: &'a [&'a str],
    /// The number of workers: 1 to 16.
    pub workers: u32,
    /// The greatest number of plaintext bytes of a file: at most 2^52 - 2^20.
    pub max_bytes: u64,
    /// The label that each container must have, if one is asked for. Version 1 has none, which is not the empty label.
    pub label: Option<&'a [u8]>,
    /// The name of the output, if it isn't that of the file without `.stm`. `verify_all` ignores it.
    pub to: Option<&'a str>,
    /// Whether the line of a good file is followed by what its header says. `open_all` ignores it.
    pub show: bool,
}

/// Where a command writes to.
#[derive(Drop)]
pub struct Outs<L: Report + Drop, E: Report + Drop, J: Report + Drop> {
    /// Standard output: a line for each file.
    pub lines: L,
    /// Standard error.
    pub faults: E,
    /// The journal, if one was asked for.
    pub journal: Option<J>,
}

// What a second reading that stopped is reported as.
pub(crate) fn fault_again(stopped: Stopped) -> FileFault
    ensures { result ≡ fault_of_stop stopped }
{
    match stopped {
        Stopped::Changed => FileFault::Changed,
        Stopped::Refused(fault) | Stopped::Broken(fault) => FileFault::Unopened(fault),
    }
}

// The status after one more outcome.
fn worse(status: u8, outcome: FileOutcome) -> u8
    ensures { result ≡ (if is_failed outcome then SOME_FAILED else status) }
{
    match outcome {
        FileOutcome::Failed(_) => SOME_FAILED,
        FileOutcome::Sealed {
            number: _,
            bytes: _,
        }
        | FileOutcome::Opened(_)
        | FileOutcome::Good(_)
        | FileOutcome::Shown { bytes: _, facts: _ } => status,
    }
}

/// Writes a file's line, unless an earlier one wasn't written. Returns the status so far. If memory for a line is
/// refused, the line counts as not written.
pub fn tell<W: Report>(
    alloc: Global,
    lines: &mut W,
    status: u8,
    name: &str,
    outcome: FileOutcome,
) -> u8
    ensures { (told : List FileLine) (first : Option (List ℕ)) (count : Option ℕ)
        → AreTold status told first (W.taken lines.old) count (W.failures lines.old)
        → AreTold result (told ++ record { name = name.now; outcome = outcome } ∷ []) first (W.taken lines.new) count
        (W.failures lines.new) }
{
    if status == UNTOLD {
        return UNTOLD;
    }
    let line = Line { name, outcome };
    let Ok(text) = format!(in alloc; "{line}\n") else {
        return UNTOLD;
    };
    match lines.print(text.as_bytes()) {
        Ok(()) => worse(status, outcome),
        Err(Failed) => UNTOLD,
    }
}
