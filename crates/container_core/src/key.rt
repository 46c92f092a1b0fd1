//! Keys, and the ID by which a header names its key.
ghost use Rattle.std.specs.Prelude.{◌≡◌};
ghost use Rattle.sha2.specs.Sha256.{sha256};
ghost use Rattle.container_core.specs.Container.{hint_of};

use sha2::{Digest, Sha256};
use std::marker::Model;

/// A key of 32 bytes. It isn't wiped when dropped.
#[derive(Drop)]
pub struct Key {
    secret: [u8; 32],
    // The first 7 bytes of its ID, computed once: each file needs them, and SHA-256 costs as much as a chunk of 1 KiB.
    hint: [u8; 7],
    ghost named: { hint ≡ hint_of secret },
}

impl Model for Key {
    ghost use Rattle.std.specs.Prelude.{ℕ, List};

    ghost Value = { List ℕ };

    ghost view = { λ k. k.secret };
}

impl Key {
    /// Makes the key of these bytes.
    #[tactic(auto, unfolding(crate::specs::Container::hint_of))]
    pub fn new(secret: [u8; 32]) -> Key
        ensures { result ≡ secret }
    {
        let mut hint = [0; 7];
        hint.copy_from_slice(&Sha256::digest(secret.as_slice())[..7]);
        Key { secret, hint }
    }

    /// Returns the key's ID: the SHA-256 of its bytes (FIPS 180-4).
    pub fn id(&self) -> [u8; 32]
        ensures { result ≡ sha256 self.now }
    {
        Sha256::digest(self.secret.as_slice())
    }

    // The key's bytes.
    pub(crate) fn bytes(&self) -> &[u8; 32]
        ensures { result.now ≡ self.now }
    {
        &self.secret
    }

    // The first 7 bytes of the key's ID.
    pub(crate) fn hint(&self) -> [u8; 7]
        ensures { result ≡ hint_of self.now }
    {
        self.hint
    }
}
