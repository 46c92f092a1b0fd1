//! Why a folder refused an output.

use thiserror::Error;

/// Why a folder created no output.
#[derive(Clone, Copy, PartialEq, Eq, Debug, Error)]
pub enum FolderFault {
    /// A file of this name exists.
    #[error("exists")]
    Exists,
    /// Any other cause.
    #[error("failed")]
    Failed,
}
