//! Reports: what a command prints to, beside its outputs.
ghost use Rattle.std.specs.Prelude.{◌≡◌, ℕ, List, None, Option, OnOk, OnErr, is_err};
ghost use Rattle.io_core.specs.Streams.{Appends, AppendsFront, LacksSome, counted};
ghost use Rattle.command_core.specs.Printing.{IsPrinted};

use ledger_core::{Failed, Sink, write_all};

/// What a command prints to: standard output, standard error, or the journal. The contract takes a text only if the
/// caller shows that it is a line, a complaint or a journal. So nothing else is printed through it. If the run is
/// killed, the last text may be cut short.
pub trait Report {
    // The bytes that were printed, if they are known.
    ghost taken: { Self → Option (List ℕ) } = { λ _. None };

    // How many writes failed so far, if that is known.
    ghost failures: { Self → Option ℕ } = { λ _. None };

    /// Prints a text. Fails if a write fails: then a proper prefix of the text was printed.
    fn print(&mut self, text: &[u8]) -> Result<(), Failed>
        requires text { IsPrinted text.now }
        ensures ok { OnOk result (Appends (taken self.old) (taken self.new) text.now) }
        ensures err { OnErr result (AppendsFront (taken self.old) (taken self.new) text.now) }
        ensures short { OnErr result (LacksSome (taken self.old) (taken self.new) text.now) }
        ensures count { failures self.new ≡ counted (is_err result) (failures self.old) };
}

/// A writer prints whatever it is given.
impl<W: Sink> Report for W {
    ghost taken = { λ w. W.taken w };

    ghost failures = { λ w. W.failures w };

    fn print(&mut self, text: &[u8]) -> Result<(), Failed> {
        write_all(self, text)
    }
}
