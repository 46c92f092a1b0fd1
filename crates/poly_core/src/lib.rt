//! Poly1305 (RFC 8439, 2.5), over a message that comes piece by piece. Nothing here allocates or waits.
//!
//! A [`Mac`] doesn't keep the bytes that it absorbed. Its contracts relate it to a key and a message by
//! `Absorbed` of `specs/Absorbed.antt`. What a call guarantees holds for every key and message that the
//! mac is so related to. No other crate sees a limb.
#![tactic(auto)]

ghost use Rattle.std.specs.Prelude.{◌≡◌, ◌↔◌, IsTrue};

mod blocks;
mod lanes;
pub mod laws;
mod limbs;
mod mac;

pub use mac::Mac;

/// Returns whether two tags of 16 bytes are equal. It compares with `==`: nothing is claimed about its
/// running time.
pub fn same(a: &[u8; 16], b: &[u8; 16]) -> bool
    ensures { IsTrue result ↔ (a.now ≡ b.now) }
{
    a == b
}
