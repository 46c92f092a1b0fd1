//! What follows from the definitions alone. Each law is the contract of a function that does nothing.
ghost use Rattle.std.specs.Prelude.{◌≡◌, ℕ, ◌+◌, ◌==◌, ◌<◌, List, [], length, slice_index_or, None, Ok};
ghost use Rattle.container_core.specs.Container.{container, size_in};
ghost use Rattle.container_core.specs.Opening.{early_fault, opening};
ghost use Rattle.container_core.specs.Shape.{ShapeView};
ghost use Rattle.worker_core.specs.Answer.{named};
ghost use Rattle.worker_core.specs.Values.{parts_of, value_at};
ghost use Rattle.piece_core.specs.declared.work.Kind.{Kind};
ghost use Rattle.piece_core.specs.Answer.{IsShelfOf, whole_of};
ghost use Rattle.piece_core.specs.Pieces.{WorkView, ShelfView, empty_shelf, piece_of_work, with_piece};
ghost use Rattle.piece_core.specs.Values.{task_of, work_values, sealing_of, opening_of};

/// The whole of a sealing is the container. The whole of an opening without an early fault is what `opening` gives.
pub fn wholes_of_works()
    ensures sealing { (key prefix plain : List ℕ) (shape : ShapeView)
        → whole_of (sealing_of key shape prefix plain) ≡ Ok (container key shape prefix plain) }
    ensures opening { (key bytes : List ℕ) (most : ℕ) → early_fault key most bytes ≡ None
        → opening key most bytes ≡ named 0 (whole_of (opening_of key bytes)) }
{}

/// A work has a piece for each chunk, in order: the chunk sealed or opened under its number, as the last where it is.
pub fn pieces_of_a_work()
    ensures count { (kind : Kind) (key header body : List ℕ)
        → length (work_values kind key header body) ≡ length (parts_of (task_of kind) (size_in header) body) }
    ensures value { (kind : Kind) (key header body : List ℕ) (n : ℕ)
        → n < length (parts_of (task_of kind) (size_in header) body)
        → slice_index_or (work_values kind key header body) n None
        ≡ value_at (task_of kind) key header n (n + 1 == length (parts_of (task_of kind) (size_in header) body))
        (slice_index_or (parts_of (task_of kind) (size_in header) body) n []) }
{}

/// A new shelf of a work has only pieces of that work, and still does after it takes another of them.
pub fn shelves_of_a_work()
    ensures empty { (work : WorkView) → IsShelfOf work (empty_shelf work) }
    ensures filled { (work : WorkView) (shelf : ShelfView) (n : ℕ) → IsShelfOf work shelf → n < length work.values
        → IsShelfOf work (with_piece shelf (piece_of_work work n)) }
{}
