//! The names of journals in a folder, one for each run.
ghost use Rattle.std.specs.Prelude.{◌≡◌, IfOk, string_bytes};
ghost use Rattle.folder_core.specs.Journals.{journal_file};

use std::alloc::{AllocError, Global};
use std::fmt::Write;

/// Returns the base name of a journal's file: of a device, the second in which its run began, counted from the beginning
/// of 1970 in UTC, and how many names of that second were taken.
pub fn journal_name(
    alloc: Global,
    device: u32,
    second: u64,
    count: u32,
) -> Result<String, AllocError>
    ensures { IfOk result (λ name. string_bytes name ≡ journal_file device second count) }
{
    let mut name = String::new(alloc);
    write!(name, "device-{device}-{second}-{count}.journal")?;
    Ok(name)
}
