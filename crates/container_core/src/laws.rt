//! What follows from the definitions alone. Each law is the contract of a function that does nothing.
ghost use Rattle.std.specs.Prelude.{◌≡◌, ℕ, ◌+◌, ◌-◌, ◌*◌, ◌^◌, ◌<◌, ◌≤◌, ◌↔◌, Bool, true, false, List, [], ◌∷◌, ◌++◌};
ghost use Rattle.std.specs.Prelude.{length, take, drop, slice_index_or, None, Ok, Err};
ghost use Rattle.container_core.specs.Chunks.{chunks, chunk_count, sealed_chunks};
ghost use Rattle.container_core.specs.Chunks.{body_length, container_length, container_limit};
ghost use Rattle.container_core.specs.Chunks.{has_plaintext, most_of, chunk_of_one, most_chunk, tag_size};
ghost use Rattle.container_core.specs.Chunks.{max_chunks, max_opened, max_plain};
ghost use Rattle.container_core.specs.Shape.{ShapeView, IsShape, size_of, two};
ghost use Rattle.container_core.specs.Stream.{nonce_of, prefix_in, stream, stream_by};
ghost use Rattle.container_core.specs.Container.{container, header_of, header_length, is_two};
ghost use Rattle.container_core.specs.Container.{label_bytes, shape_in, size_in};
ghost use Rattle.container_core.specs.declared.fault.OpenFault.{OpenFault};
ghost use Rattle.container_core.specs.Faults.{IsOfBytes};
ghost use Rattle.container_core.specs.Opening.{header_fault, early_fault, longest, opening};
ghost use Rattle.container_core.specs.Opening.{unsealed, unsealed_by, behind};

use crate::{
    CHUNK, HEADER, MAX_CHUNKS, MAX_EXPONENT, MAX_HEADER, MAX_LABEL, MAX_OPENED, MAX_PLAIN,
    MIN_EXPONENT, SEALED, TAG,
};

/// The constants are the numbers of the format.
pub fn sizes_of_the_format()
    ensures plain { MAX_PLAIN ≡ max_plain }
    ensures opened { MAX_OPENED ≡ max_opened }
    ensures chunks { MAX_CHUNKS ≡ max_chunks }
    ensures chunk { CHUNK ≡ chunk_of_one }
    ensures tag { TAG ≡ tag_size }
    ensures sealed { SEALED ≡ chunk_of_one + tag_size }
    ensures header { HEADER ≡ 24 }
    ensures label { MAX_LABEL ≡ 255 }
    ensures longest { MAX_HEADER ≡ 24 + 1 + 255 }
    ensures least { MIN_EXPONENT ≡ 12 }
    ensures most { (MAX_EXPONENT ≡ 20) × (most_chunk ≡ 2 ^ MAX_EXPONENT) }
{}

/// Two chunks have the same nonce only if they agree in prefix, number, and whether they are the last.
pub fn nonces_differ()
    ensures { (prefix other : List ℕ) (number another : ℕ) (last end : Bool)
        → length prefix ≡ length other → number < 2 ^ 32 → another < 2 ^ 32
        → nonce_of prefix number last ≡ nonce_of other another end
        → (prefix ≡ other) × (number ≡ another) × (last ≡ end) }
{}

/// Bytes open to a plaintext exactly if they are its container, of the shape and under the prefix that their header
/// names.
pub fn opens_exactly_its_container()
    ensures exactly { (key bytes plain : List ℕ) (most : ℕ)
        → (opening key most bytes ≡ Ok plain)
        ↔ ((length plain ≤ most_of most (size_in bytes)) × IsShape (shape_in bytes)
        × (bytes ≡ container key (shape_in bytes) (prefix_in bytes) plain)) }
    // No limit of at most 2^40 bytes is reduced.
    ensures sealed { (key bytes plain : List ℕ) (most : ℕ) → most ≤ MAX_PLAIN
        → (opening key most bytes ≡ Ok plain)
        ↔ ((length plain ≤ most) × IsShape (shape_in bytes)
        × (bytes ≡ container key (shape_in bytes) (prefix_in bytes) plain)) }
{}

/// Opening a sealed plaintext gives it back.
pub fn sealed_opens()
    ensures within { (key prefix plain : List ℕ) (shape : ShapeView) (most : ℕ) → IsShape shape → length prefix ≡ 7
        → length plain ≤ most_of most (size_of shape) → opening key most (container key shape prefix plain) ≡ Ok plain }
    ensures sealed { (key prefix plain : List ℕ) (shape : ShapeView) (most : ℕ) → IsShape shape → length prefix ≡ 7
        → length plain ≤ MAX_PLAIN → length plain ≤ most
        → opening key most (container key shape prefix plain) ≡ Ok plain }
{}

/// What a limit is reduced to, so that a chunk's number has 32 bits. No limit of at most 2^40 bytes is reduced.
pub fn limits_lessened()
    ensures least { (most size n : ℕ) → (n ≤ most_of most size) ↔ ((n ≤ most) × (n ≤ MAX_CHUNKS * size)) }
    ensures same { (most : ℕ) (shape : ShapeView) → IsShape shape → most ≤ MAX_PLAIN
        → most_of most (size_of shape) ≡ most }
    ensures count { (most size n : ℕ) → 0 < size → n ≤ most_of most size → chunk_count size n < 2 ^ 32 }
{}

/// Bytes whose header has no fault begin with the header of the key, of the shape and of the prefix that they name.
pub fn faultless_headers()
    ensures shape { (key bytes : List ℕ) → header_fault key bytes ≡ None → IsShape (shape_in bytes) }
    ensures header { (key bytes : List ℕ) → header_fault key bytes ≡ None
        → take (header_length bytes) bytes ≡ header_of key (shape_in bytes) (prefix_in bytes) }
    ensures enough { (key bytes : List ℕ) → header_fault key bytes ≡ None → header_length bytes ≤ length bytes }
{}

/// What a header of a shape names: its size, its length, its prefix, the shape, and the label.
pub fn headers_name_their_shape()
    ensures size { (key prefix : List ℕ) (shape : ShapeView) → size_in (header_of key shape prefix) ≡ size_of shape }
    ensures length { (key prefix : List ℕ) (shape : ShapeView) → length prefix ≡ 7
        → length (header_of key shape prefix) ≡ 24 + length (label_bytes shape.label) }
    ensures whole { (key prefix rest : List ℕ) (shape : ShapeView) → length prefix ≡ 7
        → header_length (header_of key shape prefix ++ rest) ≡ 24 + length (label_bytes shape.label) }
    ensures prefix { (key prefix rest : List ℕ) (shape : ShapeView) → length prefix ≡ 7
        → prefix_in (header_of key shape prefix ++ rest) ≡ prefix }
    ensures shape { (key prefix rest : List ℕ) (shape : ShapeView) → length prefix ≡ 7
        → shape_in (header_of key shape prefix ++ rest) ≡ shape }
    // What `Header::label` returns is the label.
    ensures label { (key prefix label : List ℕ) (exponent : ℕ) → length prefix ≡ 7
        → drop 25 (header_of key (two exponent label) prefix) ≡ label }
{}

/// Opening names faults of the bytes only, never one of memory, a reader or a writer.
pub fn opening_faults()
    ensures { (key bytes : List ℕ) (most : ℕ) (fault : OpenFault) → opening key most bytes ≡ Err fault
        → IsOfBytes fault }
{}

/// Bytes no longer than the container of the greatest plaintext allowed open the same way if more is allowed.
pub fn limits_agree()
    ensures { (key bytes : List ℕ) (most more : ℕ) → most ≤ more → length bytes ≤ longest most bytes
        → opening key most bytes ≡ opening key more bytes }
{}

/// How long a container may be that begins with these bytes. If they don't begin as version 2, version 1's limit holds.
pub fn longest_containers()
    ensures one { (bytes : List ℕ) (most : ℕ) → is_two bytes ≡ false
        → longest most bytes ≡ container_limit 24 chunk_of_one most }
    ensures two { (bytes : List ℕ) (most : ℕ) → is_two bytes ≡ true
        → longest most bytes ≡ container_limit (header_length bytes) (size_in bytes) most }
    ensures good { (key bytes : List ℕ) (most : ℕ) → header_fault key bytes ≡ None
        → longest most bytes ≡ container_limit (header_length bytes) (size_in bytes) most }
{}

/// A container names the shape and the prefix under which it was sealed, whatever the keys are. Under one key, two
/// plaintexts with the same container are the same.
pub fn containers_differ()
    ensures shape { (key prefix plain other another more : List ℕ) (shape form : ShapeView)
        → length prefix ≡ 7 → length other ≡ 7
        → container key shape prefix plain ≡ container another form other more
        → (shape ≡ form) × (prefix ≡ other) }
    ensures plaintext { (key prefix other plain another : List ℕ) (shape form : ShapeView)
        → IsShape shape → IsShape form → length prefix ≡ 7 → length other ≡ 7
        → container key shape prefix plain ≡ container key form other another
        → (shape ≡ form) × (prefix ≡ other) × (plain ≡ another) }
{}

/// The chunks of a plaintext: the first `size` bytes, then the chunks of the rest. The sealed chunks of a body: the
/// first `size` + 16 bytes, then the sealed chunks of the rest.
pub fn chunks_recur()
    ensures short { (size : ℕ) (plain : List ℕ) → 0 < size → length plain ≤ size → chunks size plain ≡ plain ∷ [] }
    ensures long { (size : ℕ) (plain : List ℕ) → 0 < size → size < length plain
        → chunks size plain ≡ take size plain ∷ chunks size (drop size plain) }
    ensures short_sealed { (size : ℕ) (body : List ℕ) → length body ≤ size + 16 → sealed_chunks size body ≡ body ∷ [] }
    ensures long_sealed { (size : ℕ) (body : List ℕ) → size + 16 < length body
        → sealed_chunks size body ≡ take (size + 16) body ∷ sealed_chunks size (drop (size + 16) body) }
{}

/// Where the chunks of a plaintext are, and how many there are.
pub fn chunks_by_number()
    ensures count { (size : ℕ) (plain : List ℕ) → length (chunks size plain) ≡ chunk_count size (length plain) }
    ensures chunk { (size : ℕ) (plain : List ℕ) (number : ℕ) → 0 < size → number < chunk_count size (length plain)
        → slice_index_or (chunks size plain) number [] ≡ take size (drop (number * size) plain) }
    ensures sealed_count { (size : ℕ) (body : List ℕ) (n : ℕ) → 0 < size → length body ≡ body_length size n
        → length (sealed_chunks size body) ≡ chunk_count size n }
{}

/// How many chunks there are: one for a plaintext of up to `size` bytes, else one more than for the plaintext without
/// its first `size` bytes. And how many bytes the body has.
pub fn chunks_counted()
    ensures one { (size n : ℕ) → 0 < size → n ≤ size → chunk_count size n ≡ 1 }
    ensures whole { (size k : ℕ) → 0 < size → 0 < k → chunk_count size (k * size) ≡ k }
    ensures more { (size k n : ℕ) → 0 < size → 0 < n → chunk_count size (k * size + n) ≡ k + chunk_count size n }
    ensures bytes { (size n : ℕ) → body_length size n ≡ n + 16 * chunk_count size n }
    ensures enough { (size n : ℕ) → 0 < size → n ≤ chunk_count size n * size }
    ensures tight { (size n : ℕ) → 0 < n → (chunk_count size n - 1) * size < n }
    ensures some { (size n : ℕ) → 0 < chunk_count size n }
    ensures grows { (size m n : ℕ) → 0 < size → m ≤ n → chunk_count size m ≤ chunk_count size n }
{}

/// A container is longer than its plaintext by its header and 16 bytes for each chunk.
pub fn length_of_container()
    ensures { (key prefix plain : List ℕ) (shape : ShapeView) → length prefix ≡ 7
        → length (container key shape prefix plain)
        ≡ container_length (24 + length (label_bytes shape.label)) (size_of shape) (length plain) }
{}

/// The test of a container's length succeeds exactly if some plaintext has a container of this length.
pub fn lengths_of_containers()
    ensures { (header size most bytes : ℕ) → (has_plaintext header size most bytes ≡ true)
        ↔ ((plain : ℕ) × (plain ≤ most) × (bytes ≡ container_length header size plain)) }
{}

/// The chunks of whole chunks followed by some bytes: those of the former, then those of the latter. The same holds for
/// sealed chunks.
pub fn chunks_of_two_parts()
    ensures chunks { (size : ℕ) (front rest : List ℕ) (count : ℕ) → 0 < size → length front ≡ count * size → 0 < count
        → 0 < length rest → chunks size (front ++ rest) ≡ chunks size front ++ chunks size rest }
    ensures count { (size : ℕ) (front : List ℕ) (count : ℕ) → 0 < size → length front ≡ count * size → 0 < count
        → length (chunks size front) ≡ count }
    ensures sealed { (size : ℕ) (front rest : List ℕ) (count : ℕ) → length front ≡ count * (size + 16) → 0 < count
        → 0 < length rest → sealed_chunks size (front ++ rest) ≡ sealed_chunks size front ++ sealed_chunks size rest }
    ensures sealed_count { (size : ℕ) (front : List ℕ) (count : ℕ) → length front ≡ count * (size + 16) → 0 < count
        → length (sealed_chunks size front) ≡ count }
{}

/// STREAM is a round that is the last. A round split between any two chunks is two rounds, one after the other. A round
/// is longer than its plaintext by a tag for each chunk.
pub fn rounds_of_a_stream()
    ensures whole { (key header : List ℕ) (number : ℕ) (pieces : List (List ℕ))
        → stream_by key header number true pieces ≡ stream key header number pieces }
    ensures pieces { (key header : List ℕ) (number : ℕ) (last : Bool) (front rest : List (List ℕ)) → 0 < length rest
        → stream_by key header number last (front ++ rest)
        ≡ stream_by key header number false front ++ stream_by key header (number + length front) last rest }
    ensures bytes { (key header : List ℕ) (size number : ℕ) (last : Bool) (front rest : List ℕ) (count : ℕ)
        → 0 < size → length front ≡ count * size → 0 < count → 0 < length rest
        → stream_by key header number last (chunks size (front ++ rest))
        ≡ stream_by key header number false (chunks size front)
        ++ stream_by key header (number + count) last (chunks size rest) }
    ensures length { (key header : List ℕ) (size number : ℕ) (last : Bool) (plain : List ℕ) → 0 < size
        → length (stream_by key header number last (chunks size plain)) ≡ body_length size (length plain) }
{}

/// Opening all chunks is opening a round that is the last. A round opens as two consecutive rounds do: to the first
/// one's fault, or else to its plaintext followed by what the second opens to. The plaintext's length follows from the
/// number of sealed bytes.
pub fn rounds_open()
    ensures whole { (key header : List ℕ) (number : ℕ) (pieces : List (List ℕ))
        → unsealed_by key header number true pieces ≡ unsealed key header number pieces }
    ensures opened { (key header : List ℕ) (size number : ℕ) (last : Bool) (front rest plain : List ℕ) (count : ℕ)
        → length front ≡ count * (size + 16) → 0 < count → 0 < length rest
        → unsealed_by key header number false (sealed_chunks size front) ≡ Ok plain
        → unsealed_by key header number last (sealed_chunks size (front ++ rest))
        ≡ behind plain (unsealed_by key header (number + count) last (sealed_chunks size rest)) }
    ensures refused { (key header : List ℕ) (size number : ℕ) (last : Bool) (front rest : List ℕ) (count : ℕ)
        (fault : OpenFault) → length front ≡ count * (size + 16) → 0 < count → 0 < length rest
        → unsealed_by key header number false (sealed_chunks size front) ≡ Err fault
        → unsealed_by key header number last (sealed_chunks size (front ++ rest)) ≡ Err fault }
    ensures length { (key header : List ℕ) (size number : ℕ) (last : Bool) (body plain : List ℕ) (bytes : ℕ) → 0 < size
        → length body ≡ body_length size bytes
        → unsealed_by key header number last (sealed_chunks size body) ≡ Ok plain
        → length plain ≡ bytes }
{}

/// Faults that show before any chunk is opened depend only on the header and the length. A beginning that has the
/// whole header shows them.
pub fn headers_stand_in_front()
    ensures length { (front rest : List ℕ) → header_length front ≤ length front
        → header_length (front ++ rest) ≡ header_length front }
    ensures size { (front rest : List ℕ) → header_length front ≤ length front
        → size_in (front ++ rest) ≡ size_in front }
    ensures two { (front rest : List ℕ) → header_length front ≤ length front → is_two (front ++ rest) ≡ is_two front }
    ensures header { (key front rest : List ℕ) → header_length front ≤ length front
        → header_fault key (front ++ rest) ≡ header_fault key front }
    ensures early { (key front rest other : List ℕ) (most : ℕ) → header_length front ≤ length front
        → length rest ≡ length other → early_fault key most (front ++ rest) ≡ early_fault key most (front ++ other) }
{}
