//! What follows from the definitions alone. Each law is the contract of a function that does nothing.

ghost use Rattle.std.specs.Prelude.{◌≡◌, ℕ, ◌+◌, ◌*◌, List, ◌++◌, length};
ghost use Rattle.chacha_core.specs.ChaCha20.{quarter_round, block, chacha20};
ghost use Rattle.chacha_core.specs.Vectors.{key, block_nonce, first_block, text_nonce, plaintext, ciphertext};

/// Encrypting twice with the same key, nonce and counter gives the text back.
pub fn twice_gives_back()
    ensures { (key nonce text : List ℕ) (counter : ℕ)
        → chacha20 key nonce counter (chacha20 key nonce counter text) ≡ text }
{}

/// A text keeps its length.
pub fn length_stays()
    ensures { (key nonce text : List ℕ) (counter : ℕ)
        → length (chacha20 key nonce counter text) ≡ length text }
{}

/// A text in two parts, the first of whole blocks, is encrypted part by part. The second part's counter
/// is the next after the first part's blocks.
pub fn parts_join()
    ensures { (key nonce first second : List ℕ) (counter blocks : ℕ) → length first ≡ 64 * blocks
        → chacha20 key nonce counter (first ++ second)
        ≡ chacha20 key nonce counter first ++ chacha20 key nonce (counter + blocks) second }
{}

/// The definitions give the RFC's test vectors: quarter rounds (2.1.1, 2.2.1), a block (2.3.2), and an
/// encrypted text of two blocks, the second one short (2.4.2).
pub fn vectors_of_the_rfc()
    ensures quarter_round { quarter_round 0x11111111 0x01020304 0x9b8d6f43 0x01234567
        ≡ (0xea2a92f4, 0xcb1cf8ce, 0x4581472e, 0x5881c4bb) }
    ensures quarter_round_of_a_state { quarter_round 0x516461b1 0x2a5f714c 0x53372767 0x3d631689
        ≡ (0xbdb886dc, 0xcfacafd2, 0xe46bea80, 0xccc07c79) }
    ensures block { block key 1 block_nonce ≡ first_block }
    ensures text { chacha20 key text_nonce 1 plaintext ≡ ciphertext }
{}
