//! Whether a ledger file is older than a container. Then it was put back, and would give the container's number again.
ghost use Rattle.std.specs.Prelude.{◌↔◌, IsTrue};
ghost use Rattle.std.specs.List.{Any};
ghost use Rattle.system_ledger.specs.Older.{EndsBefore};

use crate::holdings::Holding;

/// Returns whether a ledger file that holds this is older than a container with this hint of its key, device and
/// number. Then the key and the device are among its own, and the number is none that it has given.
pub fn is_older(held: &[Holding], hint: [u8; 7], device: u32, number: u32) -> bool
    ensures { IsTrue result ↔ Any (EndsBefore hint device number) held.now }
{
    for holding in held {
        if ends_before(holding, hint, device, number) {
            return true;
        }
    }
    false
}

// Whether this is of that key and device, and its numbers end before that one.
fn ends_before(holding: &Holding, hint: [u8; 7], device: u32, number: u32) -> bool
    ensures { IsTrue result ↔ EndsBefore hint device number holding.now }
{
    holding.key == hint && holding.device == device && holding.given <= u64::from(number)
}
