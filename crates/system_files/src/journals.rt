//! The journal's file: at a path that was given, or in a folder, under a name of its own.

ghost use Rattle.std.specs.Prelude.{◌≡◌};

use crate::cause::Cause;
use crate::outputs::{SHARED, make_new};
use crate::own::is_of_ledger;
use folder_core::journal_name;
use ledger_core::{Device, ToWrite};
use std::alloc::{AllocError, Global};
use std::fs;
use std::io::ErrorKind;
use std::rt::{Clock, Files};
use system_ledger::is_beside;
use thiserror::Error;

/// How many names are tried for a journal in a folder: those of one second.
pub const MAX_NAMES: u32 = 1000;

/// Where a run's journal is made.
#[derive(Clone, Copy)]
pub enum JournalPlace<'a> {
    /// There is none.
    Nowhere,
    /// At this path.
    At(&'a str),
    /// In this folder, under a name of its own for this device.
    In(&'a str, Device),
}

/// Why the journal file couldn't be made. The texts are those that the program prints.
#[derive(Clone, Copy, PartialEq, Eq, Debug, Error)]
pub enum JournalFault {
    /// There is a file of its name already.
    #[error("output exists")]
    Exists,
    /// Any other cause.
    #[error("cannot create")]
    CannotCreate(Cause),
}

impl JournalFault {
    /// Returns the cause.
    pub fn cause(self) -> Cause
        ensures exists { self ≡ JournalFault.Exists → result ≡ Cause.Exists }
        ensures other { (cause : Cause) → self ≡ JournalFault.CannotCreate cause → result ≡ cause }
    {
        match self {
            JournalFault::Exists => Cause::Exists,
            JournalFault::CannotCreate(cause) => cause,
        }
    }
}

/// Creates the journal file that is asked for, if one is. Its path is given too, if it was chosen here. Errors: `Exists`
/// if there is a file at the path, or if `MAX_NAMES` names of a second are taken; else `CannotCreate`.
pub fn new_journal<R: Files + AllocGlobal + Clock>(
    rt: &R,
    place: JournalPlace<'_>,
    ledger: &str,
) -> Result<(Option<ToWrite<R::File>>, Option<String>), JournalFault> {
    match place {
        JournalPlace::Nowhere => Ok((None, None)),
        JournalPlace::At(path) => match journal_at(rt, path, ledger) {
            Ok(journal) => Ok((Some(journal), None)),
            Err(fault) => Err(fault),
        },
        JournalPlace::In(folder, device) => match journal_in(rt, folder, device, ledger) {
            Ok((journal, path)) => Ok((Some(journal), Some(path))),
            Err(fault) => Err(fault),
        },
    }
}

// Creates a journal file in this folder, under the first name of the present second that no file has.
fn journal_in<R: Files + AllocGlobal + Clock>(
    rt: &R,
    folder: &str,
    device: Device,
    ledger: &str,
) -> Result<(ToWrite<R::File>, String), JournalFault> {
    if folder.is_empty() {
        return Err(JournalFault::CannotCreate(Cause::NoFolder));
    }
    let second = match rt.since_1970() {
        Ok(time) => time.as_secs(),
        Err(_) => 0,
    };
    for count in 0..MAX_NAMES {
        let Ok(path) = path_in(rt.alloc(), folder, device, second, count) else {
            return Err(JournalFault::CannotCreate(Cause::OutOfMemory));
        };
        match journal_at(rt, path.as_str(), ledger) {
            Ok(journal) => return Ok((journal, path)),
            Err(JournalFault::Exists) => {}
            Err(fault) => return Err(fault),
        }
    }
    Err(JournalFault::Exists)
}

// The path of such a name.
fn path_in(
    alloc: Global,
    folder: &str,
    device: Device,
    second: u64,
    count: u32,
) -> Result<String, AllocError> {
    let name = journal_name(alloc, device.number(), second, count)?;
    format!(in alloc; "{folder}/{name}")
}

// Creates a journal file at this path. It may not be the ledger file or a file beside it, by any path. The
// ledger would write there, or its next opening would take the journal for an unfinished write of a database.
fn journal_at<R: Files + AllocGlobal>(
    rt: &R,
    path: &str,
    ledger: &str,
) -> Result<ToWrite<R::File>, JournalFault> {
    if is_beside(path, ledger) {
        return match fs::metadata(rt, path) {
            Ok(_) => Err(JournalFault::Exists),
            Err(_) => Err(JournalFault::CannotCreate(Cause::OfLedger)),
        };
    }
    let journal = match make_new(rt, path, SHARED) {
        Ok(journal) => journal,
        Err(error) if error.kind() == ErrorKind::AlreadyExists => return Err(JournalFault::Exists),
        Err(error) => return Err(JournalFault::CannotCreate(Cause::of_making(&error))),
    };
    // It stays, empty: another run may use it as its ledger by now.
    if is_of_ledger(rt, &journal, ledger) {
        return Err(JournalFault::CannotCreate(Cause::OfLedger));
    }
    Ok(ToWrite(journal))
}
