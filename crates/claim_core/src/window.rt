//! The number of chunks of a round of a file, if none is asked for.
//!
//! Workers last as long as a file is sealed or read, so a round needs no more bytes than a processor's nearer cache
//! holds. An opening is fastest if a round and the next, which is read after it, both stay there.
ghost use Rattle.std.specs.Prelude.{◌≡◌, ◌<◌, ◌≤◌};
ghost use Rattle.claim_core.specs.Window.{chunks_in, usual, usual_opening};

use crate::{DEFAULT_WINDOW, MAX_WINDOW, MAX_WORKERS};

/// Plaintext bytes of a round of a file that is sealed, if no number of chunks is asked for and its limits allow this.
pub const ROUND_BYTES: usize = 1 << 20;

/// The same for a container that is opened or checked.
pub const OPENING_BYTES: usize = 1 << 18;

// As many chunks as `bytes` have. With one worker: at least one, at most `DEFAULT_WINDOW`. With several: at least one
// each, at most `MAX_WINDOW`.
fn chunks_in(bytes: usize, chunk: usize, workers: u32) -> u32
    requires chunk { 0 < chunk }
    requires workers { (0 < workers) × (workers ≤ MAX_WORKERS) }
    ensures value { result ≡ chunks_in bytes chunk workers }
    ensures some { 0 < result }
    ensures most { result ≤ MAX_WINDOW }
{
    let chunks = (bytes / chunk).min(MAX_WINDOW as usize) as u32;
    if workers == 1 {
        chunks.min(DEFAULT_WINDOW).max(1)
    } else {
        chunks.max(workers)
    }
}

/// Returns the chunks of a round of a file that is sealed, if no number is asked for; `chunk` is the plaintext bytes of
/// a chunk. They are as many as `ROUND_BYTES` have. With one worker: at least one, at most `DEFAULT_WINDOW`. With
/// several: at least one each, at most `MAX_WINDOW`.
pub fn usual_window(chunk: usize, workers: u32) -> u32
    requires chunk { 0 < chunk }
    requires workers { (0 < workers) × (workers ≤ MAX_WORKERS) }
    ensures value { result ≡ usual chunk workers }
    ensures some { 0 < result }
    ensures most { result ≤ MAX_WINDOW }
{
    chunks_in(ROUND_BYTES, chunk, workers)
}

/// The same for a container that is opened or checked: as many as `OPENING_BYTES` have, within the same limits.
pub fn usual_opening(chunk: usize, workers: u32) -> u32
    requires chunk { 0 < chunk }
    requires workers { (0 < workers) × (workers ≤ MAX_WORKERS) }
    ensures value { result ≡ usual_opening chunk workers }
    ensures some { 0 < result }
    ensures most { result ≤ MAX_WINDOW }
{
    chunks_in(OPENING_BYTES, chunk, workers)
}
