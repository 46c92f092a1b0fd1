//! Writes bytes that are in several buffers.
ghost use Rattle.std.specs.Prelude.{◌≡◌, OnOk, OnErr, flat_map, is_err};
ghost use Rattle.io_core.specs.Streams.{Appends, AppendsFront, LacksSome, counted};
ghost use Rattle.output_core.specs.Bounds.{Admits};

use crate::output::{Output, put_all};
use io_core::Failed;

/// Writes all bytes of some buffers, in order. Fails if a call fails; then a front of the bytes was written, but not
/// all.
pub fn put_each<W: Output>(output: &mut W, buffers: &[Vec<u8>]) -> Result<(), Failed>
    requires may { Admits (W.bound output.old) (W.taken output.old) (flat_map (λ b. b.items) buffers.now) }
    ensures ok { OnOk result (Appends (W.taken output.old) (W.taken output.new)
        (flat_map (λ b. b.items) buffers.now)) }
    ensures err { OnErr result (AppendsFront (W.taken output.old) (W.taken output.new)
        (flat_map (λ b. b.items) buffers.now)) }
    ensures short { OnErr result (LacksSome (W.taken output.old) (W.taken output.new)
        (flat_map (λ b. b.items) buffers.now)) }
    ensures same { W.bound output.new ≡ W.bound output.old }
    ensures count { W.failures output.new ≡ counted (is_err result) (W.failures output.old) }
{
    'putting: for n in 0..buffers.len() {
        put_all(output, buffers[n].as_slice())?;
    }
    Ok(())
}
