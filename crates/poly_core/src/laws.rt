//! What follows from the definitions alone. Each law is the contract of a function that does nothing.

ghost use Rattle.std.specs.Prelude.{◌≡◌, ◌+◌, ◌%◌, ◌^◌, ℕ, List, length};
ghost use Rattle.std.specs.Int.{w128, to_le_bytes};
ghost use Rattle.poly_core.specs.Poly1305.{prime, key_r, key_s, block_numbers, block_count};
ghost use Rattle.poly_core.specs.Poly1305.{polynomial, accumulator, poly1305};
ghost use Rattle.poly_core.specs.Vectors.{key, message, tag};

/// The RFC's accumulator (2.5.1) begins at 0 and ends at the polynomial modulo the prime. So a tag is
/// the result of the RFC's loop over the blocks.
pub fn accumulator_is_the_polynomial()
    ensures sum { (r : ℕ) (numbers : List ℕ)
        → accumulator r 0 numbers ≡ polynomial r numbers % prime }
    ensures tag { (key message : List ℕ) → poly1305 key message
        ≡ to_le_bytes w128 ((accumulator (key_r key) 0 (block_numbers message (block_count (length message)))
        + key_s key) % 2 ^ 128) }
{}

/// The definition gives the tag of the RFC's test vector (2.5.2).
pub fn vector_of_the_rfc()
    ensures { poly1305 key message ≡ tag }
{}
