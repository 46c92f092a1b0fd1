//! Why a run that seals ended with status 2: the lines on standard error.
ghost use Rattle.std.specs.Prelude.{Some};
ghost use Rattle.command_core.specs.Printing.{Complains};
ghost use Rattle.sealer_core.specs.Complaints.{complaint};

use command_core::Report;
use ledger_core::Failed;
use reserve_core::ReserveFault;
use std::alloc::Global;
use std::error::Error;
use std::fmt;

/// Why a run that seals ended with status 2. The texts are those that the program prints.
#[derive(Clone, Copy, PartialEq, Eq, Debug)]
pub(crate) enum RunFault {
    /// No range was reserved, or one was and the log could not be copied into the ledger file. No file was touched.
    Unreserved(ReserveFault),
    /// Memory for the shared ledger was refused. A range was reserved and is given up; no file was touched.
    NoLedger,
    /// Memory for the journal was refused. The files were processed.
    NoJournal,
    /// The journal could not be written whole. The files were processed.
    JournalCut,
    /// The witness couldn't record the range, which is given up. No file was touched.
    Unrecorded,
}

impl fmt::Display for RunFault {
    ghost output = { λ fault. Some (complaint fault) };

    fn fmt<W: fmt::Write>(&self, f: &mut fmt::Formatter<W>) -> fmt::Result {
        match *self {
            RunFault::Unreserved(fault) => write!(f, "ledger: {fault}"),
            RunFault::NoLedger => write!(f, "ledger: out of memory"),
            RunFault::NoJournal => write!(f, "journal: out of memory"),
            RunFault::JournalCut => write!(f, "journal: write failed"),
            RunFault::Unrecorded => write!(f, "witness: write failed"),
        }
    }
}

impl Error for RunFault {}

// Prints the fault's line. If memory for its text is refused, or the write fails, only the exit status reports it.
pub(crate) fn complain<W: Report>(alloc: Global, faults: &mut W, fault: RunFault)
    ensures { Complains (W.taken faults.old) (W.taken faults.new) }
{
    let Ok(text) = format!(in alloc; "{fault}\n") else {
        return;
    };
    match faults.print(text.as_bytes()) {
        Ok(()) => {}
        Err(Failed) => {}
    }
}
