//! What happened in a folder in memory, and how it is recorded.

use folder_core::FolderFault;
use std::alloc::Global;

/// What was done with a file.
#[derive(Clone, Copy, PartialEq, Eq, Debug)]
pub enum What {
    /// It was opened for reading, or set back to its first byte, and has these bytes.
    Reading,
    /// It could not be opened.
    Unread,
    /// It was set back to its first byte, or `true`: that failed.
    Rewound(bool),
    /// It was closed; `true`: a call of its reader had failed.
    Closed(bool),
    /// An output was created.
    Created,
    /// An output could not be created, with this fault.
    Refused(FolderFault),
    /// An output was finished, and these were all its bytes.
    Finished,
    /// An output was discarded with these bytes, and its removal was tried.
    Discarded,
}

/// What happened in a folder.
#[derive(Drop)]
pub struct Told {
    /// What was done.
    pub what: What,
    /// The name of the file.
    pub name: String,
    /// Its bytes; none where they don't matter.
    pub bytes: Vec<u8>,
}

impl Told {
    // What happened, if there is memory for it.
    pub(crate) fn of(alloc: Global, what: What, name: &str, bytes: &[u8]) -> Option<Told> {
        let name = String::from_str(alloc, name).ok()?;
        let bytes = Vec::from_slice(alloc, bytes).ok()?;
        Some(Told { what, name, bytes })
    }
}
