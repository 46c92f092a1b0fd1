//! A number that was granted, and one that was used or given up.
//!
//! A grant can't be copied, and is spent once. Its prefix can be read any number of times, so the caller must use it
//! for one container only. Dropping a grant or a spent number leaves its number granted and open.
ghost use Rattle.std.specs.Prelude.{◌≡◌};
ghost use Rattle.journal_core.specs.declared.entry.Way.TheVariants.{Sealed, Void};
ghost use Rattle.journal_core.specs.Range.{prefix_of};
ghost use Rattle.ledger_core.specs.Logs.{EndsByGranting};

use crate::once::Once;
use crate::table::Own;
use journal_core::{Device, Way, prefix};
use std::marker::Model;

/// A number that was granted and is not yet used.
#[derive(Debug, Drop)]
pub struct Grant {
    device: Device,
    number: u32,
    once: Once,
}

impl Model for Grant {
    ghost use Rattle.ledger_core.specs.Shared.{GrantView};

    ghost Value = { GrantView };

    ghost view = { λ g. record { device = g.device; number = g.number } };
}

impl Grant {
    // Makes the grant of a seat's last operation.
    pub(crate) fn of(device: Device, number: u32, own: &Own) -> Grant
        requires granted { EndsByGranting number own.now.log.items }
        ensures { result ≡ record { device = device; number = number } }
    {
        Grant {
            device,
            number,
            once: Once::of(own, number),
        }
    }

    /// Returns the number.
    pub fn number(&self) -> u32
        ensures { result ≡ self.now.number }
    {
        self.number
    }

    /// Returns the device of the range.
    pub fn device(&self) -> Device
        ensures { result ≡ self.now.device }
    {
        self.device
    }

    /// Returns the first 7 bytes of the nonces of the file sealed under this number.
    pub fn prefix(&self) -> [u8; 7]
        ensures { result ≡ prefix_of self.now.device self.now.number }
    {
        prefix(self.device, self.number)
    }

    /// Returns the number as used: a container was sealed under it.
    pub fn used(self) -> Spent
        ensures { result ≡ record { device = self.device; number = self.number; way = Sealed } }
    {
        Spent {
            grant: self,
            way: Way::Sealed,
        }
    }

    /// Returns the number as given up.
    pub fn waste(self) -> Spent
        ensures { result ≡ record { device = self.device; number = self.number; way = Void } }
    {
        self.used().spoil()
    }
}

/// A number that was used or given up, and is yet to be settled.
#[derive(Debug, Drop)]
pub struct Spent {
    grant: Grant,
    way: Way,
}

impl Model for Spent {
    ghost use Rattle.ledger_core.specs.Shared.{SpentView};

    ghost Value = { SpentView };

    ghost view = { λ s. record { device = s.grant.device; number = s.grant.number; way = s.way } };
}

impl Spent {
    /// Returns the number.
    pub fn number(&self) -> u32
        ensures { result ≡ self.now.number }
    {
        self.grant.number()
    }

    /// Returns the device of the range.
    pub fn device(&self) -> Device
        ensures { result ≡ self.now.device }
    {
        self.grant.device()
    }

    /// Returns how the number ended.
    pub fn way(&self) -> Way
        ensures { result ≡ self.now.way }
    {
        self.way
    }

    /// Gives the number up after all, for example if its container could not be written.
    pub fn spoil(self) -> Spent
        ensures { result ≡ record { device = self.device; number = self.number; way = Void } }
    {
        Spent {
            grant: self.grant,
            way: Way::Void,
        }
    }
}
