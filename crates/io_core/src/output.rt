//! Writes all of a list of bytes.
ghost use Rattle.std.specs.Prelude.{◌≡◌, OnOk, OnErr, is_err};
ghost use Rattle.io_core.specs.Streams.{Appends, AppendsFront, LacksSome, counted};

use crate::stream::{Failed, Sink};

/// Writes all of `bytes`. Fails if a write fails; then a front of `bytes` was written, but not all.
pub fn write_all<W: Sink>(sink: &mut W, bytes: &[u8]) -> Result<(), Failed>
    ensures ok { OnOk result (Appends (W.taken sink.old) (W.taken sink.new) bytes.now) }
    ensures err { OnErr result (AppendsFront (W.taken sink.old) (W.taken sink.new) bytes.now) }
    ensures short { OnErr result (LacksSome (W.taken sink.old) (W.taken sink.new) bytes.now) }
    ensures count { W.failures sink.new ≡ counted (is_err result) (W.failures sink.old) }
{
    let mut rest = bytes;
    'rest: while !rest.is_empty() {
        let n = sink.write(rest)?;
        rest = &rest[n..];
    }
    Ok(())
}
