//! How long something took.

use std::io;
use std::time::{Clock, Instant};

/// Returns the nanoseconds since an instant, at most `u64::MAX`. Fails if the clock does.
pub fn nanos_since<C: Clock>(clock: &C, start: &Instant) -> io::Result<u64> {
    let nanos = start.elapsed(clock)?.as_nanos();
    Ok(u64::try_from(nanos).unwrap_or(u64::MAX))
}
