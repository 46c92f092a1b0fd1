//! What takes the plaintext of an opening, piece by piece: one list of bytes, the buffers in which the pieces were
//! made, or a writer (`pouring`).
ghost use Rattle.std.specs.Prelude.{◌≡◌, ℕ, List, Bool, false, Option, Some, None, IfErr};
ghost use Rattle.output_core.specs.Bounds.{Admits, Bound};
ghost use Rattle.worker_core.specs.Answer.{joined};
ghost use Rattle.opening_core.specs.Windows.{HasGathered, IsTakingFault};

use container_core::OpenFault;
use std::alloc::{AllocError, Global};
use worker_core::{Parts, Places};

/// What takes the pieces of rounds.
pub(crate) trait Taking {
    // The bytes that it took, where they are known.
    ghost bytes: { Self → Option (List ℕ) };

    // Whether it writes them, so that a write may fail.
    ghost writes: { Bool } = { false };

    // How many writes failed so far, where that is known.
    ghost failures: { Self → Option ℕ } = { λ _. None };

    // What it may hold, where that is bounded.
    ghost bound: { Self → Option Bound } = { λ _. None };

    /// Takes the pieces on their places, after those that it took before. Fails with `OutOfMemory` where memory for
    /// them was refused, and with `Write` where a write failed. Then a prefix of them was taken.
    fn take(&mut self, alloc: Global, places: &mut Places) -> Result<(), OpenFault>
        requires may { Admits (bound self.old) (bytes self.old) (joined places.old.values) }
        ensures gathered { HasGathered (bytes self.old) (bytes self.new) (failures self.old) (failures self.new)
            (bound self.old) (bound self.new) places.old.values result }
        ensures fault { IfErr result (IsTakingFault writes) }
        ensures places { (places.new.room ≡ places.old.room) × (places.new.size ≡ places.old.size) };

    /// Takes the pieces of the last round, as `take`. Afterwards the places serve no other.
    fn take_last(&mut self, alloc: Global, places: &mut Places) -> Result<(), OpenFault>
        requires may { Admits (bound self.old) (bytes self.old) (joined places.old.values) }
        ensures gathered { HasGathered (bytes self.old) (bytes self.new) (failures self.old) (failures self.new)
            (bound self.old) (bound self.new) places.old.values result }
        ensures fault { IfErr result (IsTakingFault writes) };
}

/// Copies the pieces, one after another.
impl Taking for Vec<u8> {
    ghost bytes = { λ out. Some out.items };

    fn take(&mut self, _alloc: Global, places: &mut Places) -> Result<(), OpenFault> {
        match places.append_to(self) {
            Ok(()) => Ok(()),
            Err(AllocError) => Err(OpenFault::OutOfMemory),
        }
    }

    fn take_last(&mut self, _alloc: Global, places: &mut Places) -> Result<(), OpenFault> {
        match places.append_to(self) {
            Ok(()) => Ok(()),
            Err(AllocError) => Err(OpenFault::OutOfMemory),
        }
    }
}

/// Takes the pieces with their buffers.
impl Taking for Parts {
    ghost bytes = { λ out. Some out };

    fn take(&mut self, alloc: Global, places: &mut Places) -> Result<(), OpenFault> {
        match places.move_to(alloc, self) {
            Ok(()) => Ok(()),
            Err(AllocError) => Err(OpenFault::OutOfMemory),
        }
    }

    fn take_last(&mut self, alloc: Global, places: &mut Places) -> Result<(), OpenFault> {
        match places.pour_to(alloc, self) {
            Ok(()) => Ok(()),
            Err(AllocError) => Err(OpenFault::OutOfMemory),
        }
    }
}
