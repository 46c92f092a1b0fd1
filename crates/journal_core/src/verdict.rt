//! The verdict of an audit.
ghost use Rattle.std.specs.Prelude.{Some};
ghost use Rattle.journal_core.specs.Verdict.{verdict_text};

use crate::entry::Tally;
use std::fmt;

/// The result of auditing a journal's bytes. Lines are counted from 1.
#[derive(Clone, Copy, PartialEq, Eq, Debug)]
pub enum Verdict {
    /// A legal journal, with the counts of its entries.
    Legal(Tally),
    /// This line is the first that is not a line of a journal.
    Malformed(u64),
    /// This line is the first whose entry may not follow the entries before it.
    Illegal(u64),
}

/// The line that `sealer audit` prints, without its line feed. Open numbers are granted and not settled.
impl fmt::Display for Verdict {
    ghost output = { λ v. Some (verdict_text v) };

    fn fmt<W: fmt::Write>(&self, f: &mut fmt::Formatter<W>) -> fmt::Result {
        match *self {
            Verdict::Legal(
                Tally {
                    granted,
                    refused,
                    sealed,
                    void,
                },
            ) => {
                let open = granted.saturating_sub(sealed).saturating_sub(void);
                write!(f, "legal: {granted} granted, {sealed} sealed, ")?;
                write!(f, "{void} void, {open} open, {refused} refused")
            }
            Verdict::Malformed(line) => write!(f, "malformed line {line}"),
            Verdict::Illegal(line) => write!(f, "illegal line {line}"),
        }
    }
}
