//! One sealing or opening cut into pieces, and the shelf that joins them, for callers with their own threads.
//!
//! A `Work` is one sealing or one opening, cut into pieces. A piece is one chunk sealed or opened, and can be made by
//! itself. A `Shelf` has a place for each piece of a work, and joins them once every place is filled. So it doesn't
//! matter which thread made which piece, or when. No thread is started here, and nothing waits.
#![tactic(auto)]

pub mod fault;
pub mod laws;
pub mod piece;
mod room;
pub mod shelf;
pub mod work;

pub use crate::fault::{PutFault, ShelfFault};
pub use crate::piece::Piece;
pub use crate::shelf::Shelf;
pub use crate::work::{Kind, MAX_PIECES, Work};
