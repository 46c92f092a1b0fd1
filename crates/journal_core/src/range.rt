//! Ranges: the file numbers that one run of one device may issue.
ghost use Rattle.std.specs.Prelude.{◌≡◌, ◌+◌, ◌<◌, OkIff};
ghost use Rattle.journal_core.specs.Range.{IsLawfulRange, range_of};

use crate::device::Device;
use std::marker::Model;
use thiserror::Error;

/// A range of 0 numbers, of more than 65,535, or with a number over 4,294,967,295.
#[derive(Clone, Copy, PartialEq, Eq, Debug, Error)]
#[error("bad range")]
pub struct BadRange;

impl BadRange {
    /// The fault's number.
    pub fn number(self) -> u32
        ensures { result ≡ 24 }
    {
        24
    }
}

/// The numbers `lo` to `lo + size - 1` of a device: 1 to 65,535 of them, all below 2^32.
#[derive(Clone, Copy, PartialEq, Eq, Debug)]
pub struct Range {
    device: Device,
    lo: u32,
    size: u32,
}

impl Model for Range {
    ghost use Rattle.journal_core.specs.Range.{Numbers, IsLawfulRange, range_of};

    ghost Value = { Numbers };

    ghost view = { λ r. range_of r.device r.lo r.size };

    ghost invariant = { λ r. IsLawfulRange (range_of r.device r.lo r.size) };

    ghost inverse = { λ n. record { device = n.device; lo = n.lo; size = n.size } };
}

impl Range {
    /// The greatest size of a range.
    pub const MAX_SIZE: u32 = 65_535;

    /// Makes the range of `size` numbers from `lo`. Returns `BadRange` if `size` is 0 or over 65,535, or `lo + size` is
    /// over 2^32.
    pub fn new(device: Device, lo: u32, size: u32) -> Result<Range, BadRange>
        ensures { OkIff result (IsLawfulRange (range_of device lo size)) (range_of device lo size) }
    {
        // This call gives the prover the fact that the device has 24 bits.
        let _ = device.number();
        let end = lo as u64 + size as u64;
        if size == 0 || size > Range::MAX_SIZE || end > 1 << 32 {
            return Err(BadRange);
        }
        Ok(Range { device, lo, size })
    }

    /// Returns the device whose numbers these are.
    pub fn device(self) -> Device
        ensures { result ≡ self.device }
    {
        self.device
    }

    /// Returns the first number.
    pub fn lo(self) -> u32
        ensures { result ≡ self.lo }
    {
        self.lo
    }

    /// Returns how many numbers the range has, 1 to 65,535.
    pub fn size(self) -> u32
        ensures value { result ≡ self.size }
        ensures lawful { IsLawfulRange self }
    {
        self.size
    }
}
