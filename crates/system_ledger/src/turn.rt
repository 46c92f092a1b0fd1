//! A run's turn at its ledger file, which one process holds at a time.
//!
//! The database locks the file for as long as it has it open. What a run sees without the lock, another may be about to
//! change: an empty file beside a log with pages, or none. So a run that waits looks again before such a sight counts.

use crate::ledger::LedgerFault;
use crate::log::log_beside;
use std::time::{Duration, Instant};
use std::{fs, thread};

// The least time from one try to the next, in milliseconds. It is up to twice as long, so that runs that wait don't try
// all at once.
const STEP: u64 = 50;

// The most tries of a wait, one each `STEP` for a day.
const MAX_WAITS: u32 = 86_400 * 20;

// How often in turn a run that waits tries again at a file that it can't open or doesn't find.
const MAX_DOUBTS: u32 = 20;

/// The most times that a run tries to open its ledger file: at first, after each wait, and once after a new log.
pub const MAX_TRIES: u32 = MAX_WAITS + 2;

/// How a run waits until no other process holds its ledger file.
#[derive(Drop)]
pub struct Turn<'r> {
    host: &'r HostRuntime,
    path: &'r str,
    // Since when it waits, and for how long. `None` if it doesn't, or if the clock fails.
    begun: Option<Instant>,
    most: Duration,
    // Whether the log was there when the run began.
    has_log: bool,
    // How often in turn it was refused for another cause than that the file is held.
    doubts: u32,
}

impl<'r> Turn<'r> {
    /// Begins the turn of a run at the ledger file of this path. The run waits for so many seconds at most.
    pub fn new(host: &'r HostRuntime, path: &'r str, seconds: u32) -> Turn<'r> {
        Turn {
            host,
            path,
            begun: if seconds == 0 {
                None
            } else {
                Instant::now(host).ok()
            },
            most: Duration::from_secs(u64::from(seconds)),
            has_log: has_log(host, path),
            doubts: 0,
        }
    }

    /// Returns whether a run that was refused with this fault tries again. If it waits, it sleeps a moment first, as long
    /// as there is time:
    /// - while another process holds the ledger file;
    /// - for some 20 tries in turn, if the file can't be opened or isn't there.
    ///
    /// If the file can't be opened, and the log was made meanwhile, it tries again once, at once: where the log's mode or
    /// owner can't be set, the database only opens a log that is there.
    pub fn comes_again(&mut self, fault: LedgerFault) -> bool {
        match fault {
            LedgerFault::Held => {
                self.doubts = 0;
                self.waits()
            }
            LedgerFault::CannotOpen if !self.has_log && has_log(self.host, self.path) => {
                self.has_log = true;
                true
            }
            LedgerFault::CannotOpen | LedgerFault::NotThere if self.doubts < MAX_DOUBTS => {
                self.doubts += 1;
                self.waits()
            }
            _ => false,
        }
    }

    // Sleeps a moment. `false` means that the run doesn't wait, or that its time has passed.
    fn waits(&self) -> bool {
        match self.passed() {
            Some(passed) if passed < self.most => {
                let more = u64::from(passed.subsec_nanos()) % STEP;
                thread::sleep(self.host, Duration::from_millis(STEP + more));
                true
            }
            _ => false,
        }
    }

    // For how long the run has waited. `None` if it doesn't wait, or if the clock fails.
    fn passed(&self) -> Option<Duration> {
        self.begun?.elapsed(self.host).ok()
    }
}

// Whether the log of the ledger file of this path is there.
fn has_log(host: &HostRuntime, path: &str) -> bool {
    match log_beside(host, path) {
        Ok(log) => fs::symlink_metadata(host, log.as_str()).is_ok(),
        Err(_) => false,
    }
}
