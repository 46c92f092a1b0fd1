//! Looks at the container at a path: its header, and how long the file is.
ghost use Rattle.std.specs.Prelude.{IfErr};
ghost use Rattle.system_files.specs.Seen.{IsOfLooking};

use crate::seen::{SeenHeader, plain_in, read_seen};
use command_core::FileFault;
use container_core::{MAX_HEADER, OpenFault};
use io_core::{FromRead, fill};
use std::fs;
use std::fs::{File, OpenFile};
use std::rt::Files;

/// Returns what the header of the container at a path says, and how many plaintext bytes the file's length stands for,
/// if any. Only regular files are read, and of each at most 280 bytes. `CannotOpen` if it can't be opened or is no
/// regular file; else the header's first fault, or `Read`.
pub fn header_at<R: Files + AllocGlobal>(
    rt: &R,
    path: &str,
) -> Result<(SeenHeader, Option<u64>), FileFault>
    ensures fault { IfErr result IsOfLooking }
{
    // It is looked up before it is opened: that would wait for the other end of a pipe.
    match fs::metadata(rt, path) {
        Ok(found) if found.is_file() => {}
        _ => return Err(FileFault::CannotOpen),
    }
    let Ok(file) = File::open(rt, path) else {
        return Err(FileFault::CannotOpen);
    };
    let Ok(metadata) = file.metadata() else {
        return Err(FileFault::CannotOpen);
    };
    if !metadata.is_file() {
        return Err(FileFault::CannotOpen);
    }
    let mut front = [0; MAX_HEADER];
    let Ok(n) = fill(&mut FromRead(file), &mut front) else {
        return Err(FileFault::Unopened(OpenFault::Read));
    };
    let front = &front[..n];
    match read_seen(front) {
        Ok(seen) => Ok((seen, plain_in(front, metadata.len()))),
        Err(fault) => Err(FileFault::Unopened(fault)),
    }
}
