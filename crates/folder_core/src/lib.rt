//! What a command may ask of a file system, and names.
//!
//! Files that are read twice: `reader`, and `spool` for what can be read only once. Names: `places` and `trees` have the
//! base names and places of paths, for outputs in or below one folder, and `quotes` names as a line shows them.
//!
//! The record of a run, for proofs alone: which files were read, and what its outputs hold, at every moment. Begin with
//! `folder`. An engine writes to the output in hand of a folder through `hand`. `stream` has writers as outputs.
#![tactic(auto)]

pub mod fault;
pub mod folder;
pub mod hand;
mod journals;
pub mod laws;
mod places;
pub mod quotes;
pub mod reader;
pub mod spool;
pub mod stream;
mod trees;

pub use crate::fault::FolderFault;
pub use crate::folder::{Folder, OpeningFolder, Outputs, Place, Whole};
pub use crate::hand::{InHand, Rest, finish_or_discard, lent_of, taken_in_hand};
pub use crate::journals::journal_name;
pub use crate::places::{PlaceFault, are_apart, last_name, put_below};
pub use crate::quotes::{quote, unquote};
pub use crate::reader::{FileReader, WholeFile};
pub use crate::spool::{Spool, Spooled};
pub use crate::stream::{OneOutput, Stream, ToStream};
pub use crate::trees::{are_placed_apart, first_part, place_of, put_placed};
