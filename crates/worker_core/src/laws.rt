//! What follows from the definitions alone. Each law is the contract of a function that does nothing.
ghost use Rattle.std.specs.Prelude.{◌≡◌, ℕ, ◌+◌, ◌==◌, ◌&&◌, ◌<◌, Bool, List, [], length, slice_index_or};
ghost use Rattle.std.specs.Prelude.{Option, None, Some};
ghost use Rattle.container_core.specs.Chunks.{chunks, sealed_chunks};
ghost use Rattle.container_core.specs.Container.{size_in};
ghost use Rattle.container_core.specs.Stream.{stream_by};
ghost use Rattle.container_core.specs.Opening.{unsealed_by};
ghost use Rattle.worker_core.specs.declared.round.Task.{Task};
ghost use Rattle.worker_core.specs.declared.round.Task.TheVariants.{Sealing, Opening, Checking};
ghost use Rattle.worker_core.specs.Values.{parts_of, value_at, values_of};
ghost use Rattle.worker_core.specs.Answer.{joined, first_refused, answer, named};

/// A round has a piece for each chunk, in order: the chunk sealed, opened or checked under its number, and as the last
/// of all if it is.
pub fn pieces_by_number()
    ensures count { (task : Task) (key header : List ℕ) (first : ℕ) (last : Bool) (body : List ℕ)
        → length (values_of task key header first last body) ≡ length (parts_of task (size_in header) body) }
    ensures value { (task : Task) (key header : List ℕ) (first : ℕ) (last : Bool) (body : List ℕ) (n : ℕ)
        → n < length (parts_of task (size_in header) body)
        → slice_index_or (values_of task key header first last body) n None
        ≡ value_at task key header (first + n) ((n + 1 == length (parts_of task (size_in header) body)) && last)
        (slice_index_or (parts_of task (size_in header) body) n []) }
{}

/// Each piece of a sealing has bytes. Joined, they are STREAM of the chunks.
pub fn rounds_are_sealed()
    ensures all { (key header : List ℕ) (first : ℕ) (last : Bool) (plain : List ℕ)
        → first_refused (values_of Sealing key header first last plain) ≡ None }
    ensures joined { (key header : List ℕ) (first : ℕ) (last : Bool) (plain : List ℕ)
        → joined (values_of Sealing key header first last plain)
        ≡ stream_by key header first last (chunks (size_in header) plain) }
{}

/// The pieces of an opening, joined, are the plaintext of the sealed chunks, or name the first chunk that doesn't
/// check.
pub fn rounds_are_opened()
    ensures { (key header : List ℕ) (first : ℕ) (last : Bool) (body : List ℕ)
        → named first (answer (values_of Opening key header first last body))
        ≡ unsealed_by key header first last (sealed_chunks (size_in header) body) }
{}

/// The least piece that a checking refuses is the least that an opening refuses.
pub fn rounds_are_checked()
    ensures { (key header : List ℕ) (first : ℕ) (last : Bool) (body : List ℕ)
        → first_refused (values_of Checking key header first last body)
        ≡ first_refused (values_of Opening key header first last body) }
{}

/// If no piece is refused, each has bytes. The least piece that is refused has none, and each before it has some.
pub fn refused_pieces()
    ensures none { (values : List (Option (List ℕ))) (n : ℕ) → first_refused values ≡ None → n < length values
        → (bytes : List ℕ) × (slice_index_or values n None ≡ Some bytes) }
    ensures refused { (values : List (Option (List ℕ))) (n : ℕ) → first_refused values ≡ Some n
        → (n < length values) × (slice_index_or values n None ≡ None) }
    ensures before { (values : List (Option (List ℕ))) (n k : ℕ) → first_refused values ≡ Some n → k < n
        → (bytes : List ℕ) × (slice_index_or values k None ≡ Some bytes) }
{}
