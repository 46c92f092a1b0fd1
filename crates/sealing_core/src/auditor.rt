//! `sealer audit`: the verdict on a journal.
ghost use Rattle.std.specs.Prelude.{◌≡◌, ◌≢◌, ◌<◌, [], ◌∷◌, ◌++◌, length, IfErr, IfOk, IfSome, IsErrOf, OnOk};
ghost use Rattle.journal_core.specs.declared.auditing.AuditFault.TheVariants.{Read, Write};
ghost use Rattle.journal_core.specs.declared.verdict.Verdict.{Verdict};
ghost use Rattle.ledger_core.specs.AuditFaults.{is_read, is_write};
ghost use Rattle.io_core.specs.Streams.{Appends, AppendsFront, IsAtEnd, Keeps, LacksSome, counted};
ghost use Rattle.ledger_core.specs.Verdict.{IsVerdict, verdict_text};
ghost use Rattle.sealing_core.specs.Status.{status_of};

use ledger_core::{AuditFault, Sink, Source, Verdict, audit};
use std::alloc::Global;

/// Audits the journal that the reader gives, and writes the verdict as one line. Returns the exit status: 0 where the
/// journal is legal, else 1. At `OutOfMemory` and `Read` nothing was written, at `Write` a proper prefix of the line.
pub fn run_audit<R: Source, W: Sink>(
    alloc: Global,
    reader: &mut R,
    writer: &mut W,
) -> Result<u8, AuditFault>
    ensures end { OnOk result (IsAtEnd (R.left reader.new)) }
    ensures verdict { IfOk result (λ status. (verdict : Verdict) × (status ≡ status_of verdict)
        × IfSome (R.left reader.old) (λ input. IsVerdict input verdict)
        × Appends (W.taken writer.old) (W.taken writer.new) (verdict_text verdict ++ 10 ∷ [])) }

    // The faults are those of `audit`.
    ensures nothing_written { IfErr result (λ fault. fault ≢ Write → Keeps (W.taken writer.old) (W.taken writer.new)) }
    ensures front_written { IsErrOf result Write → (verdict : Verdict)
        × IfSome (R.left reader.old) (λ input. IsVerdict input verdict)
        × AppendsFront (W.taken writer.old) (W.taken writer.new) (verdict_text verdict ++ 10 ∷ []) }
    ensures not_whole { IsErrOf result Write → IfSome (R.left reader.old) (λ input. (verdict : Verdict)
        → IsVerdict input verdict
        → LacksSome (W.taken writer.old) (W.taken writer.new) (verdict_text verdict ++ 10 ∷ [])) }
    ensures undisturbed { result ≢ Err Read → R.failures reader.new ≡ R.failures reader.old }
    ensures reads { IfSome (R.left reader.old) (λ input. length input < u64.MAX
        → R.failures reader.new ≡ counted (is_read result) (R.failures reader.old)) }
    ensures writes { W.failures writer.new ≡ counted (is_write result) (W.failures writer.old) }
{
    match audit(alloc, reader, writer) {
        Ok(Verdict::Legal(_)) => Ok(0),
        Ok(_) => Ok(1),
        Err(fault) => Err(fault),
    }
}
