//! Laws: no prefix and no nonce is used twice, over all runs of one key. They follow from the definitions of STREAM,
//! ranges, legal histories, the life of a ledger file and the theorem's runs. Each is the contract of a function that
//! does nothing.
ghost use Rattle.std.specs.Prelude.{◌≡◌, ◌≢◌, ℕ, ◌+◌, ◌^◌, ◌<◌, ◌≤◌, ◌++◌, List, length, Some, slice_get};
ghost use Rattle.journal_core.specs.Range.{prefix_of};
ghost use Rattle.container_core.specs.Chunks.{chunks};
ghost use Rattle.container_core.specs.Container.{container, header_of};
ghost use Rattle.container_core.specs.Nonces.{container_nonces, sealed_by_nonces};
ghost use Rattle.container_core.specs.Shape.{IsShape, ShapeView, size_of};
ghost use Rattle.ranges_core.specs.Reservations.{TakenRange};
ghost use Rattle.sealer_core.specs.Life.{IsGrantAt, IsLife, LedgerRun, Lives, reserved};
ghost use Rattle.sealer_core.specs.Theorem.{AreRunsOf, IsOutputAt, Position, Run};

/// In the life of a key and device no number is in two of the ranges that its runs reserved.
pub fn ranges_of_a_life_are_apart()
    ensures { (device : ℕ) (runs : List LedgerRun) (i j number : ℕ) (one other : TakenRange)
        → IsLife device runs → i ≢ j
        → slice_get (reserved runs) i ≡ Some one → slice_get (reserved runs) j ≡ Some other
        → one.lo ≤ number → number < one.lo + one.size → other.lo ≤ number → number < other.lo + other.size → ⊥ }
{}

/// Over all runs of all devices of one key, two grants with one prefix are the same grant.
pub fn no_prefix_is_granted_twice()
    ensures { (lives : Lives) (one other : Position) → (at : IsGrantAt lives one) → (also : IsGrantAt lives other)
        → prefix_of one.device at.number ≡ prefix_of other.device also.number → one ≡ other }
{}

/// No nonce is used twice under one key, over all runs of all its devices: if two chunks that are sealed under grants have
/// one nonce, in any shapes, they are the same chunk under the same grant. So where at most one plaintext is sealed under
/// each grant, they are the same chunk of the same container. An interrupted sealing wrote a prefix of such a container, so
/// its chunks are among these.
pub fn no_granted_nonce_is_used_twice()
    ensures { (key : List ℕ) (lives : Lives) (one other : Position) (shape form : ShapeView) (plain text : List ℕ)
        (chunk another : ℕ) (nonce : List ℕ) → (at : IsGrantAt lives one) → (also : IsGrantAt lives other)
        → IsShape shape → IsShape form → length plain ≤ 2 ^ 40 → length text ≤ 2 ^ 40
        → slice_get (container_nonces key shape (prefix_of one.device at.number) plain) chunk ≡ Some nonce
        → slice_get (container_nonces key form (prefix_of other.device also.number) text) another ≡ Some nonce
        → (one ≡ other) × (chunk ≡ another) }
{}

/// These nonces are those of STREAM: a container is its header and its plaintext's chunks in order, each sealed by the AEAD
/// under the nonce at its place. Bytes that begin the one begin the other.
pub fn containers_are_sealed_under_their_nonces()
    ensures { (key prefix plain : List ℕ) (shape : ShapeView) → container key shape prefix plain
        ≡ header_of key shape prefix ++ sealed_by_nonces key (header_of key shape prefix)
        (container_nonces key shape prefix plain) (chunks (size_of shape) plain) }
{}

/// No two outputs of any runs of one key have one prefix. Each device's numbers are its own, each number is in one run's
/// range, and one output of that run has it.
pub fn no_two_outputs_have_one_prefix()
    ensures { (key : List ℕ) (runs : ℕ → List Run) (one other : Position) → AreRunsOf key runs
        → (at : IsOutputAt runs one) → (also : IsOutputAt runs other)
        → prefix_of one.device at.number ≡ prefix_of other.device also.number → one ≡ other }
{}
