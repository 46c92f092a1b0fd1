//! The output in hand as an output of an engine.
//!
//! An engine knows nothing of a folder's record. So the type of what it is given names what stays the same. Whatever
//! value of that type the engine leaves, it has that record.
ghost use Rattle.std.specs.Prelude.{◌≡◌, None, OnErr, OnOk, Option, option_map, true};
ghost use Rattle.std.specs.Borrow.{GName};
ghost use Rattle.io_core.specs.Streams.{counted};
ghost use Rattle.folder_core.specs.Record.{Finished, GivenUp, RunRecord, bound_in};
ghost use Rattle.folder_core.specs.Changes.{Closes, IsFresh};
ghost use Rattle.output_core.specs.Bounds.{IsWithin};

use crate::folder::Outputs;
use io_core::Failed;
use output_core::Output;
use std::marker::{Brand, PhantomData};

/// Names what stays the same while an output is written, in proofs alone.
pub trait Rest {
    // The record of the run, but for the bytes of the output in hand.
    ghost rest: { Option RunRecord };

    // The reference to the folder.
    ghost folder: { GName };
}

// A call that passes `Brand` picks both.
impl Rest for Brand {
    ghost rest = { None };

    ghost folder = { 0 };
}

/// The output in hand of a folder or a stream.
#[derive(Drop)]
pub struct InHand<'a, F: Outputs, N: Rest> {
    /// The folder.
    pub folder: &'a mut F,
    of: PhantomData<N>,
    ghost same: { F.rest folder.now ≡ N.rest },
    ghost reference: { folder.ghost_name ≡ N.folder },
    ghost within: { ∥ IsWithin (option_map bound_in N.rest) (F.taken folder.now) ∥₁ },
}

impl<'a, F: Outputs, N: Rest> Output for InHand<'a, F, N> {
    ghost taken = { λ o. F.taken o.folder.now };

    ghost failures = { λ o. F.failures o.folder.now };

    ghost bound = { λ _. option_map bound_in N.rest };

    fn put(&mut self, bytes: &[u8]) -> Result<usize, Failed> {
        self.folder.write(bytes)
    }

    ghost within = { λ o. o.within };
}

/// Takes the output in hand of a folder, for an engine to write to.
pub fn taken_in_hand<'a, F: Outputs, N: Rest>(folder: &'a mut F) -> InHand<'a, F, N>
    requires rest { F.rest folder.old ≡ N.rest }
    requires reference { folder.ghost_name ≡ N.folder }
    ensures now { result.folder.now ≡ folder.entry.now }
{
    InHand {
        folder,
        of: PhantomData,
    }
}

/// Returns the folder once the engine is done. Its record is what it was, but for the bytes of the output in hand.
pub fn lent_of<'a, F: Outputs, N: Rest>(output: InHand<'a, F, N>) -> &'a mut F
    ensures rest { F.rest result.now ≡ N.rest }
    ensures now { result.now ≡ output.entry.folder.now }
    ensures reference { result.ghost_name ≡ N.folder }
{
    let InHand { folder, of: _ } = output;
    folder
}

/// Finishes the output in hand; if that fails, gives it up. A refused end counts as a failed write.
pub fn finish_or_discard<F: Outputs>(folder: &mut F) -> Result<(), Failed>
    ensures finished { OnOk result
        (Closes Finished (F.rest folder.old) (F.taken folder.old) (F.failures folder.old) (F.rest folder.new)) }
    ensures given_up { OnErr result (Closes GivenUp (F.rest folder.old) (F.taken folder.old)
        (counted true (F.failures folder.old)) (F.rest folder.new)) }
    ensures fresh { IsFresh (F.rest folder.new) (F.taken folder.new) (F.failures folder.new) }
{
    match folder.finish() {
        Ok(()) => Ok(()),
        Err(Failed) => {
            // Its removal is tried. Where that fails too, the file stays, and the record has what it holds.
            let _ = folder.discard();
            Err(Failed)
        }
    }
}
