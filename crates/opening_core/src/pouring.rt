//! A writer to which the plaintext of an opening is written while the next round is opened.
ghost use Rattle.std.specs.Prelude.{◌≡◌, true, OnOk, OnErr, is_err};
ghost use Rattle.io_core.specs.Streams.{Appends, AppendsFront, counted};
ghost use Rattle.output_core.specs.Bounds.{Admits};
ghost use Rattle.worker_core.specs.Answer.{joined};

use crate::taking::Taking;
use container_core::OpenFault;
use io_core::Failed;
use output_core::{Output, put_all};
use std::alloc::Global;
use worker_core::Places;

/// What takes pieces by writing them.
#[derive(Drop)]
pub(crate) struct Pouring<W: Output + Drop> {
    pub(crate) sink: W,
}

// Writes the pieces on their places, in order, except those that don't check. Fails where a write fails; then a prefix
// of them was written.
fn pour<W: Output>(sink: &mut W, places: &Places) -> Result<(), Failed>
    requires may { Admits (W.bound sink.old) (W.taken sink.old) (joined places.now.values) }
    ensures ok { OnOk result (Appends (W.taken sink.old) (W.taken sink.new) (joined places.now.values)) }
    ensures err { OnErr result (AppendsFront (W.taken sink.old) (W.taken sink.new) (joined places.now.values)) }
    ensures same { W.bound sink.new ≡ W.bound sink.old }
    ensures count { W.failures sink.new ≡ counted (is_err result) (W.failures sink.old) }
{
    'pouring: for number in 0..places.count() {
        if let Some(bytes) = places.piece(number) {
            match put_all(sink, bytes) {
                Ok(()) => {}
                Err(Failed) => return Err(Failed),
            }
        }
    }
    Ok(())
}

impl<W: Output + Drop> Taking for Pouring<W> {
    ghost bytes = { λ out. W.taken out.sink };

    ghost writes = { true };

    ghost failures = { λ out. W.failures out.sink };

    ghost bound = { λ out. W.bound out.sink };

    fn take(&mut self, _alloc: Global, places: &mut Places) -> Result<(), OpenFault> {
        match pour(&mut self.sink, places) {
            Ok(()) => Ok(()),
            Err(Failed) => Err(OpenFault::Write),
        }
    }

    fn take_last(&mut self, _alloc: Global, places: &mut Places) -> Result<(), OpenFault> {
        match pour(&mut self.sink, places) {
            Ok(()) => Ok(()),
            Err(Failed) => Err(OpenFault::Write),
        }
    }
}
