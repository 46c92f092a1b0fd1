//! Devices and the prefixes of their nonces: the deterministic construction of NIST SP 800-38D, section 8.2.1.
//!
//! The fixed field is the device's number in 3 bytes. No two devices share a number under one key.
ghost use Rattle.std.specs.Prelude.{◌≡◌, ◌≤◌, SomeIff};
ghost use Rattle.journal_core.specs.Range.{prefix_of};

use std::marker::Model;

/// The number of one device: 0 to 16,777,215.
#[derive(Clone, Copy, PartialEq, Eq, Debug)]
pub struct Device {
    number: u32,
}

impl Model for Device {
    ghost use Rattle.std.specs.Prelude.{ℕ, ◌≤◌};
    ghost use Rattle.journal_core.specs.Range.{most_device};

    ghost Value = { ℕ };

    ghost view = { λ d. d.number };

    ghost invariant = { λ d. d.number ≤ most_device };

    ghost inverse = { λ n. record { number = n } };
}

impl Device {
    /// The greatest device number that fits in 3 bytes.
    pub const MAX: u32 = (1 << 24) - 1;

    /// Returns the device with this number, or `None` if it is over 16,777,215.
    pub fn new(number: u32) -> Option<Device>
        ensures { SomeIff result (number ≤ Device.MAX) number }
    {
        if number > Device::MAX {
            return None;
        }
        Some(Device { number })
    }

    /// Returns the device's number, 0 to 16,777,215.
    pub fn number(self) -> u32
        ensures value { result ≡ self }
        ensures small { result ≤ Device.MAX }
    {
        self.number
    }
}

/// Returns the first 7 bytes of every nonce of file `number` of `device`: the device in 3 big-endian bytes, then the
/// number in 4.
pub fn prefix(device: Device, number: u32) -> [u8; 7]
    ensures { result ≡ prefix_of device number }
{
    let [_, a, b, c] = device.number.to_be_bytes();
    let [d, e, f, g] = number.to_be_bytes();
    [a, b, c, d, e, f, g]
}
