//! What follows from the definitions alone. Each law is the contract of a function that does nothing.

ghost use Rattle.std.specs.Prelude.{◌≡◌, ℕ, List, length, Some};
ghost use Rattle.chacha_core.specs.Vectors.{plaintext};
ghost use Rattle.aead_core.specs.Aead.{one_time_key, aead, enciphered, tag_of, opened};
ghost use Rattle.aead_core.specs.Vectors.{key, generation_nonce, generated_key, nonce, aad, ciphertext, tag};

/// Opening a sealed text gives its plaintext back.
pub fn sealed_opens()
    ensures { (key nonce aad plaintext : List ℕ)
        → opened key nonce aad (aead key nonce aad plaintext).0 (aead key nonce aad plaintext).1
        ≡ Some plaintext }
{}

/// A pair that opens is the one that sealing its plaintext gives.
pub fn opened_was_sealed()
    ensures { (key nonce aad ciphertext tag plaintext : List ℕ)
        → opened key nonce aad ciphertext tag ≡ Some plaintext
        → aead key nonce aad plaintext ≡ (ciphertext, tag) }
{}

/// A ciphertext is as long as its plaintext, and a tag has 16 bytes.
pub fn lengths()
    ensures ciphertext { (key nonce text : List ℕ) → length (enciphered key nonce text)
        ≡ length text }
    ensures tag { (key nonce aad ciphertext : List ℕ)
        → length (tag_of key nonce aad ciphertext) ≡ 16 }
{}

/// The definitions give the RFC's test vectors: a one-time key (2.6.2), and the pair of a ciphertext and
/// its tag (2.8.2).
pub fn vectors_of_the_rfc()
    ensures one_time_key { one_time_key key generation_nonce ≡ generated_key }
    ensures pair { aead key nonce aad plaintext ≡ (ciphertext, tag) }
{}
