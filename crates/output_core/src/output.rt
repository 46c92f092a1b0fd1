//! Outputs, and a function that writes all of some bytes to one.
ghost use Rattle.std.specs.Prelude.{◌≡◌, ℕ, ◌<◌, List, length, None, Option, IfOk, OnOk, OnErr, is_err};
ghost use Rattle.std.specs.Io.{WritesAtMost};
ghost use Rattle.io_core.specs.Streams.{Appends, AppendsFront, LacksSome, WriteAppends, counted};
ghost use Rattle.output_core.specs.Bounds.{Admits, Bound, IsWithin};

use io_core::{Failed, Sink};

/// A writer like a `Sink`, which may be bounded. Before each call the caller proves that what the output then holds is
/// a front of what it may hold. This holds at every moment, also if the run is killed in a call.
pub trait Output {
    // The bytes that the output took, if known.
    ghost taken: { Self → Option (List ℕ) } = { λ _. None };

    // How many calls failed so far, if known.
    ghost failures: { Self → Option ℕ } = { λ _. None };

    // What it may hold, if that is bounded.
    ghost bound: { Self → Option Bound } = { λ _. None };

    /// Takes a front of `bytes`, and returns its length. A call with a nonempty slice takes at least one byte, or
    /// fails. A failed call takes none, and raises the count of failures by one (past 2^64 - 1 it is unknown).
    fn put(&mut self, bytes: &[u8]) -> Result<usize, Failed>
        requires may { Admits (bound self.old) (taken self.old) bytes.now }
        ensures most { WritesAtMost result bytes.now }
        ensures some { IfOk result (λ n. 0 < length bytes.now → 0 < n) }
        ensures bytes { WriteAppends (taken self.old) (taken self.new) result bytes.now }
        ensures same { bound self.new ≡ bound self.old }
        ensures count { failures self.new ≡ counted (is_err result) (failures self.old) };

    // At every moment what a bounded output took is a front of what it may hold.
    ghost within: { (output : Self) → ∥ IsWithin (bound output) (taken output) ∥₁ };
}

/// A writer is an output that may hold anything.
impl<W: Sink> Output for W {
    ghost taken = { λ w. W.taken w };

    ghost failures = { λ w. W.failures w };

    fn put(&mut self, bytes: &[u8]) -> Result<usize, Failed> {
        self.write(bytes)
    }

    ghost within = { λ _. ∣ tt ∣₁ };
}

/// Writes all of `bytes`. Fails if a call fails; then a front of `bytes` was written, but not all.
pub fn put_all<W: Output>(output: &mut W, bytes: &[u8]) -> Result<(), Failed>
    requires may { Admits (W.bound output.old) (W.taken output.old) bytes.now }
    ensures ok { OnOk result (Appends (W.taken output.old) (W.taken output.new) bytes.now) }
    ensures err { OnErr result (AppendsFront (W.taken output.old) (W.taken output.new) bytes.now) }
    ensures short { OnErr result (LacksSome (W.taken output.old) (W.taken output.new) bytes.now) }
    ensures same { W.bound output.new ≡ W.bound output.old }
    ensures count { W.failures output.new ≡ counted (is_err result) (W.failures output.old) }
{
    let mut rest = bytes;
    'rest: while !rest.is_empty() {
        let n = output.put(rest)?;
        rest = &rest[n..];
    }
    Ok(())
}
