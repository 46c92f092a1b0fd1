//! The texts of batches.
ghost use Rattle.std.specs.Prelude.{◌≡◌, ◌<◌, ◌≤◌, length, All, IfOk};

use container_core::MAX_PLAIN;
use std::alloc::{AllocError, Global};

/// Returns `count` jobs: job n has n bytes, each of value n.
pub fn jobs_of(alloc: Global, count: u8) -> Result<Vec<Vec<u8>>, AllocError>
    ensures count { IfOk result (λ jobs. length jobs.items ≡ count) }
    ensures short { IfOk result (λ jobs. All (λ job. length job.items ≤ MAX_PLAIN) jobs.items) }
{
    let mut jobs = Vec::new(alloc);
    for n in 0..count {
        jobs.push(Vec::from_elem(alloc, n, n as usize)?)?;
    }
    Ok(jobs)
}

/// Returns these jobs, of at most 255 bytes each.
pub fn texts(alloc: Global, from: &[&[u8]]) -> Result<Vec<Vec<u8>>, AllocError>
    ensures count { IfOk result (λ jobs. length jobs.items ≡ length from.now) }
    ensures short { IfOk result (λ jobs. All (λ job. length job.items ≤ MAX_PLAIN) jobs.items) }
{
    let mut jobs = Vec::new(alloc);
    for text in from {
        let (text, _) = text.split_at(text.len().min(255));
        jobs.push(Vec::from_slice(alloc, text)?)?;
    }
    Ok(jobs)
}
