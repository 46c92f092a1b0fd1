//! The progress line on standard error: files done of all, bytes read, bytes a second, and the time left if the sizes
//! of all files are known. Of a file that is read twice, the bytes of both readings count.
//!
//! It is redrawn at most five times a second, as bytes are read. It is cleared before a line of the run is printed,
//! drawn again after it, and cleared at the end. Time is counted from the first bytes, which the speed doesn't include.
//! It changes nothing else, and if the clock fails there is no line.
ghost use Rattle.std.specs.Prelude.{◌≡◌};

use crate::cause::Cause;
use crate::files::STREAM;
use crate::names::{Names, found_at};
use std::cell::Cell;
use std::io;
use std::io::Write;
use std::rt::{Clock, Files};
use std::time::{Duration, Instant};

/// The least time between two drawings, in milliseconds.
const BETWEEN: u128 = 200;

/// Bytes of a MiB.
const MIB: u64 = 1 << 20;

/// What was done so far.
#[derive(Clone, Copy)]
struct Amounts {
    files: u64,
    bytes: u64,
    // When the first bytes were read, and how many they were.
    begun: Option<(Instant, u64)>,
    // The time from which the next drawing is timed.
    last: Instant,
    is_drawn: bool,
}

/// How far a run is.
#[derive(Drop)]
pub struct ProgressLine<'r, R: Clock + Eprint> {
    rt: &'r R,
    // The number of files, and the bytes that all their readings give, if known.
    files: usize,
    bytes: Option<u64>,
    done: Cell<Amounts>,
}

impl<'r, R: Clock + Eprint> ProgressLine<'r, R> {
    /// Starts the progress of a run over these files, each of which is read `readings` times: twice by `open`, else
    /// once. It looks up their sizes. Returns `None` if the clock fails.
    pub fn of(rt: &'r R, how: Names, names: &[&str], readings: u64) -> Option<ProgressLine<'r, R>>
    where
        R: Files + AllocGlobal,
    {
        let last = Instant::now(rt).ok()?;
        Some(ProgressLine {
            rt,
            files: names.len(),
            bytes: bytes_of(rt, how, names, readings),
            done: Cell::new(Amounts {
                files: 0,
                bytes: 0,
                begun: None,
                last,
                is_drawn: false,
            }),
        })
    }

    /// Counts `bytes` more bytes as read, and redraws the line if it is time.
    pub fn add(&self, bytes: usize) {
        let mut done = self.done.get();
        done.bytes = done.bytes.saturating_add(bytes as u64);
        if let Ok(now) = Instant::now(self.rt) {
            // What the run did before, such as opening the ledger file, says nothing of its speed.
            if done.begun.is_none() {
                done.begun = Some((now, done.bytes));
                done.last = now;
            }
            if now.saturating_duration_since(done.last).as_millis() >= BETWEEN {
                done.last = now;
                done.is_drawn = true;
                self.draw(&done, now);
            }
        }
        self.done.set(done);
    }

    /// Counts one more file, whose line was printed.
    pub fn told(&self) {
        let mut done = self.done.get();
        done.files = done.files.saturating_add(1);
        self.done.set(done);
    }

    /// Clears the line. Returns whether it was drawn.
    pub fn clear(&self) -> bool {
        let mut done = self.done.get();
        if !done.is_drawn {
            return false;
        }
        let _ = eprint!(self.rt; "\r\x1b[K");
        done.is_drawn = false;
        self.done.set(done);
        true
    }

    // Draws the line again.
    fn show(&self) {
        let mut done = self.done.get();
        if let Ok(now) = Instant::now(self.rt) {
            done.is_drawn = true;
            self.draw(&done, now);
            self.done.set(done);
        }
    }

    // Draws the line in its present state.
    fn draw(&self, done: &Amounts, now: Instant) {
        let (begun, first) = done.begun.unwrap_or((now, 0));
        let time = now.saturating_duration_since(begun);
        let (files, all) = (done.files, self.files);
        let mib = done.bytes / MIB;
        let each = per_second(done.bytes.saturating_sub(first), time);
        let tenths = each.saturating_mul(10) / MIB;
        let (rate, tenth) = (tenths / 10, tenths % 10);
        let _ = match self.bytes {
            None => eprint!(self.rt;
                "\r{files} of {all} files, {mib} MiB, {rate}.{tenth} MiB/s\x1b[K"
            ),
            // The time left would be a guess so early.
            Some(bytes) if time.as_secs() == 0 => {
                let whole = bytes / MIB;
                eprint!(self.rt;
                    "\r{files} of {all} files, {mib} of {whole} MiB, {rate}.{tenth} MiB/s\x1b[K"
                )
            }
            Some(bytes) => {
                let whole = bytes / MIB;
                let left = seconds_left(bytes, done.bytes, each);
                eprint!(self.rt;
                    "\r{files} of {all} files, {mib} of {whole} MiB, {rate}.{tenth} MiB/s, {left} s left\x1b[K"
                )
            }
        };
    }
}

// Bytes a second.
fn per_second(bytes: u64, time: Duration) -> u64 {
    let millis = time.as_millis().max(1);
    let each = u128::from(bytes) * 1000 / millis;
    u64::try_from(each).unwrap_or(u64::MAX)
}

// The seconds until all bytes are read, at `each` bytes a second.
fn seconds_left(all: u64, done: u64, each: u64) -> u64 {
    all.saturating_sub(done) / each.max(1)
}

// The bytes that this many readings of each of these files give, if the size of each existing one is known.
fn bytes_of<R: Files + AllocGlobal>(
    rt: &R,
    how: Names,
    names: &[&str],
    readings: u64,
) -> Option<u64> {
    let mut bytes = 0u64;
    for name in names {
        if *name == STREAM {
            return None;
        }
        if let Some(found) = found_at(rt, how, name) {
            if !found.is_file() {
                return None;
            }
            bytes = bytes.saturating_add(found.len());
        }
    }
    Some(bytes.saturating_mul(readings))
}

/// Prints on standard error why the file of this name failed. The progress line is cleared before that and drawn again
/// after it. If standard error fails, nothing is printed.
pub(crate) fn explain_file<R: Clock + Eprint>(
    rt: &R,
    progress: Option<&ProgressLine<'_, R>>,
    name: &str,
    cause: Cause,
) {
    let was_drawn = cleared(progress);
    let _ = eprintln!(rt; "cause: {name}: {cause}");
    show_again(progress, was_drawn);
}

// Clears the progress line. Returns whether it was drawn.
fn cleared<R: Clock + Eprint>(progress: Option<&ProgressLine<'_, R>>) -> bool {
    match progress {
        Some(progress) => progress.clear(),
        None => false,
    }
}

// Draws the progress line again, if it was drawn.
fn show_again<R: Clock + Eprint>(progress: Option<&ProgressLine<'_, R>>, was_drawn: bool) {
    if let Some(progress) = progress
        && was_drawn
    {
        progress.show();
    }
}

/// The name of a FILE, and where the cause of its fault is printed.
#[derive(Drop)]
pub(crate) struct Named<'p, 'r, R: Clock + Eprint> {
    pub(crate) rt: &'r R,
    pub(crate) progress: Option<&'p ProgressLine<'r, R>>,
    pub(crate) name: String,
}

impl<R: Clock + Eprint> Named<'_, '_, R> {
    /// Prints why this FILE failed.
    pub(crate) fn explain(&self, cause: Cause) {
        explain_file(self.rt, self.progress, self.name.as_str(), cause);
    }

    /// Warns that this FILE changed while it was read.
    pub(crate) fn warn_of_change(&self) {
        let (rt, name) = (self.rt, self.name.as_str());
        let was_drawn = cleared(self.progress);
        let _ = eprintln!(rt; "warning: {name} changed while it was sealed");
        show_again(self.progress, was_drawn);
    }
}

/// A stream on which a run prints lines. The progress line is cleared before each of them and drawn again after it.
#[derive(Drop)]
pub struct Told<'p, 'r, R: Clock + Eprint, W: Write + Drop> {
    /// The stream.
    pub writer: W,
    /// The progress line to clear.
    pub progress: Option<&'p ProgressLine<'r, R>>,
    /// Whether each line is that of a file.
    pub of_files: bool,
}

impl<R: Clock + Eprint, W: Write + Drop> Write for Told<'_, '_, R, W> {
    ghost contents = { λ told. W.contents told.writer };

    fn write(&mut self, buf: &[u8]) -> io::Result<usize> {
        let Some(progress) = self.progress else {
            return self.writer.write(buf);
        };
        let was_drawn = progress.clear();
        let put = self.writer.write(buf);
        // A line is written with one call, or its rest with further ones.
        if matches!(put, Ok(bytes) if bytes == buf.len()) {
            if self.of_files {
                progress.told();
            }
            if was_drawn {
                progress.show();
            }
        }
        put
    }

    fn flush(&mut self) -> io::Result<()> {
        self.writer.flush()
    }
}
