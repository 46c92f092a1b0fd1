//! The audit of a journal: reads to the end of the input, judges its bytes, and writes the verdict as a line.
//!
//! `progress` keeps what the audit needs of the bytes so far, and `state` what the lines so far amount to.
ghost use Rattle.std.specs.Prelude.{◌≡◌, ◌≢◌, ◌<◌, List, [], ◌∷◌, ◌++◌, length};
ghost use Rattle.std.specs.Prelude.{IfOk, IfErr, IfSome, IsErrOf, OnOk, Some};
ghost use Rattle.journal_core.specs.declared.entry.Entry.{Entry};
ghost use Rattle.journal_core.specs.AuditFaults.{fault_number, is_read, is_write};
ghost use Rattle.journal_core.specs.History.{Terms, IsLawful, Legal, tally_of};
ghost use Rattle.io_core.specs.Streams.{Appends, AppendsFront, IsAtEnd, Keeps, LacksSome, counted};
ghost use Rattle.journal_core.specs.Text.{journal_text};
ghost use Rattle.journal_core.specs.Verdict.{IsVerdict, verdict_text};

use crate::progress::Progress;
use crate::verdict::Verdict;
use io_core::{Failed, Sink, Source, write_all};
use std::alloc::Global;
use thiserror::Error;

/// Why an audit failed.
#[derive(Clone, Copy, PartialEq, Eq, Debug, Error)]
pub enum AuditFault {
    /// Memory could not be allocated. Nothing was written.
    #[error("out of memory")]
    OutOfMemory,
    /// The reader failed, or gave 2^64 - 1 bytes or more. Nothing was written.
    #[error("read failed")]
    Read,
    /// The writer failed. A proper prefix of the verdict's line was written.
    #[error("write failed")]
    Write,
}

impl AuditFault {
    /// The fault's number.
    pub fn number(self) -> u32
        ensures { result ≡ fault_number self }
    {
        match self {
            AuditFault::OutOfMemory => 23,
            AuditFault::Read => 26,
            AuditFault::Write => 27,
        }
    }
}

// How many bytes one read asks for.
const BLOCK: usize = 1 << 16;

// Reads to the end of the input, and judges it.
fn judge_all<R: Source>(alloc: Global, reader: &mut R) -> Result<Verdict, AuditFault>
    ensures end { OnOk result (IsAtEnd (R.left reader.new)) }
    ensures verdict { IfOk result (λ verdict. IfSome (R.left reader.old) (λ input. IsVerdict input verdict)) }
    ensures no_write { result ≢ Err AuditFault.Write }
    ensures undisturbed { result ≢ Err AuditFault.Read → R.failures reader.new ≡ R.failures reader.old }
    ensures count { IfSome (R.left reader.old) (λ input. length input < u64.MAX
        → R.failures reader.new ≡ counted (is_read result) (R.failures reader.old)) }
{
    let Ok(mut block) = vec![in alloc; 0u8; BLOCK] else {
        return Err(AuditFault::OutOfMemory);
    };
    let mut progress = Progress::new(alloc);
    let mut read = 0u64;
    'input: loop {
        let n = match reader.read(&mut block) {
            Ok(0) => return Ok(progress.verdict()),
            Ok(n) => n,
            Err(Failed) => return Err(AuditFault::Read),
        };
        if n as u64 >= u64::MAX - read {
            return Err(AuditFault::Read);
        }
        read += n as u64;
        match progress.take(&block[..n]) {
            Ok(()) => {}
            Err(_) => return Err(AuditFault::OutOfMemory),
        }
    }
}

/// Reads a journal to its end and writes the verdict on it as one line. After `OutOfMemory` or `Read` nothing was
/// written. After `Write` a proper prefix of the line was written.
///
/// Memory: a block of 64 KiB, at most 35 bytes of any line, and some bytes for each number of the range, whatever the
/// input's length.
pub fn audit<R: Source, W: Sink>(
    alloc: Global,
    reader: &mut R,
    writer: &mut W,
) -> Result<Verdict, AuditFault>
    // Nothing is left unread, the verdict is that of all bytes that were left to read, and its line was written.
    ensures end { OnOk result (IsAtEnd (R.left reader.new)) }
    ensures verdict { IfOk result (λ verdict. IfSome (R.left reader.old) (λ input. IsVerdict input verdict)) }
    ensures written { IfOk result (λ verdict.
        Appends (W.taken writer.old) (W.taken writer.new) (verdict_text verdict ++ 10 ∷ [])) }

    // The text of a legal journal is legal, with its counts.
    ensures round_trip { IfOk result (λ verdict. (terms : Terms) (history : List Entry) → IsLawful terms
        → Legal terms history → R.left reader.old ≡ Some (journal_text terms history)
        → verdict ≡ Verdict.Legal (tally_of history)) }

    // The faults.
    ensures nothing_written { IfErr result (λ fault. fault ≢ AuditFault.Write
        → Keeps (W.taken writer.old) (W.taken writer.new)) }
    ensures front_written { IsErrOf result AuditFault.Write → (verdict : Verdict)
        × IfSome (R.left reader.old) (λ input. IsVerdict input verdict)
        × AppendsFront (W.taken writer.old) (W.taken writer.new) (verdict_text verdict ++ 10 ∷ []) }
    ensures not_whole { IsErrOf result AuditFault.Write → IfSome (R.left reader.old) (λ input. (verdict : Verdict)
        → IsVerdict input verdict
        → LacksSome (W.taken writer.old) (W.taken writer.new) (verdict_text verdict ++ 10 ∷ [])) }
    ensures undisturbed { result ≢ Err AuditFault.Read → R.failures reader.new ≡ R.failures reader.old }
    ensures reads { IfSome (R.left reader.old) (λ input. length input < u64.MAX
        → R.failures reader.new ≡ counted (is_read result) (R.failures reader.old)) }
    ensures writes { W.failures writer.new ≡ counted (is_write result) (W.failures writer.old) }
{
    let verdict = judge_all(alloc, reader)?;
    let Ok(line) = format!(in alloc; "{verdict}\n") else {
        return Err(AuditFault::OutOfMemory);
    };
    match write_all(writer, line.as_bytes()) {
        Ok(()) => Ok(verdict),
        Err(Failed) => Err(AuditFault::Write),
    }
}
