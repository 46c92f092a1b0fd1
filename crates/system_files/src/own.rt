//! The files that a run has of its own: its ledger with what the database keeps beside it, its key file, its journal, its witness.
//!
//! None of them may be an input. Sealing a ledger makes a copy of it, and opening that copy gives its numbers again.
ghost use Rattle.std.specs.Prelude.{◌≡◌, ◌⊎◌, Some, false, true};
ghost use Rattle.system_files.specs.declared.own.KeptOut.TheVariants.{Nothing, Unknown};

use std::fs::{Metadata, OpenFile};
use std::io::{ErrorKind, Read};
use std::os::unix::fs::MetadataExt;
use std::rt::Files;
use std::{fs, io};

/// The path of a process's standard input.
pub(crate) const STANDARD_INPUT: &str = "/proc/self/fd/0";

/// The path of a process's standard output.
pub(crate) const STANDARD_OUTPUT: &str = "/proc/self/fd/1";

/// A file's identity, the same by every path.
#[derive(Clone, Copy, PartialEq, Eq)]
pub struct FileId {
    /// The number of its device.
    pub device: u64,
    /// The number of its inode.
    pub inode: u64,
}

impl FileId {
    /// The identity of the file with this metadata.
    pub(crate) fn of(metadata: &Metadata) -> FileId {
        FileId {
            device: metadata.dev(),
            inode: metadata.ino(),
        }
    }
}

/// A ledger file and those that its database keeps beside it. A file that isn't there is `None`.
#[derive(Clone, Copy)]
pub struct LedgerFiles {
    /// The ledger file.
    pub ledger: Option<FileId>,
    /// LEDGER-wal.
    pub wal: Option<FileId>,
    /// LEDGER-journal, which other programs make.
    pub rollback: Option<FileId>,
    /// LEDGER-shm, which other programs make.
    pub shm: Option<FileId>,
}

impl LedgerFiles {
    /// Looks the files up. If the path is a link, they are beside the link's target.
    pub(crate) fn at<R: Files + AllocGlobal>(rt: &R, ledger: &str) -> io::Result<LedgerFiles> {
        match fs::canonicalize(rt, ledger) {
            Ok(real) => LedgerFiles::at_real(rt, real.as_str()),
            Err(error) if is_missing(&error) => LedgerFiles::at_real(rt, ledger),
            Err(error) => Err(error),
        }
    }

    // The same for a path that is no link.
    fn at_real<R: Files + AllocGlobal>(rt: &R, ledger: &str) -> io::Result<LedgerFiles> {
        Ok(LedgerFiles {
            ledger: file_at(rt, ledger)?,
            wal: file_beside(rt, ledger, "-wal")?,
            rollback: file_beside(rt, ledger, "-journal")?,
            shm: file_beside(rt, ledger, "-shm")?,
        })
    }

    /// Returns whether this file is one of them.
    pub fn has(&self, file: FileId) -> bool
        ensures ledger { self.now.ledger ≡ Some file → result ≡ true }
        ensures wal { self.now.wal ≡ Some file → result ≡ true }
        ensures rollback { self.now.rollback ≡ Some file → result ≡ true }
        ensures shm { self.now.shm ≡ Some file → result ≡ true }
        ensures no_other { result ≡ true → (self.now.ledger ≡ Some file) ⊎ (self.now.wal ≡ Some file)
            ⊎ (self.now.rollback ≡ Some file) ⊎ (self.now.shm ≡ Some file) }
    {
        let file = Some(file);
        self.ledger == file || self.wal == file || self.rollback == file || self.shm == file
    }
}

/// The paths of a run's own files.
#[derive(Clone, Copy)]
pub struct OwnPaths<'a> {
    /// That of the ledger file.
    pub ledger: &'a str,
    /// That of the key file.
    pub key: &'a str,
    /// That of the journal, if there is one.
    pub journal: Option<&'a str>,
    /// That of the ledger's witness, if there is one.
    pub witness: Option<&'a str>,
}

/// A run's own files. A file that isn't there is `None`.
#[derive(Clone, Copy)]
pub struct OwnFiles {
    /// The ledger file and those beside it.
    pub ledger: LedgerFiles,
    /// The key file.
    pub key: Option<FileId>,
    /// The journal.
    pub journal: Option<FileId>,
    /// The ledger's witness.
    pub witness: Option<FileId>,
}

impl OwnFiles {
    /// Looks the files up.
    pub(crate) fn at<R: Files + AllocGlobal>(rt: &R, paths: &OwnPaths<'_>) -> io::Result<OwnFiles> {
        Ok(OwnFiles {
            ledger: LedgerFiles::at(rt, paths.ledger)?,
            key: file_at(rt, paths.key)?,
            journal: file_if(rt, paths.journal)?,
            witness: file_if(rt, paths.witness)?,
        })
    }

    /// Returns whether this file is one of them, and so can't be an input.
    pub fn has(&self, file: FileId) -> bool
        ensures ledger { self.now.ledger.ledger ≡ Some file → result ≡ true }
        ensures wal { self.now.ledger.wal ≡ Some file → result ≡ true }
        ensures rollback { self.now.ledger.rollback ≡ Some file → result ≡ true }
        ensures shm { self.now.ledger.shm ≡ Some file → result ≡ true }
        ensures key { self.now.key ≡ Some file → result ≡ true }
        ensures journal { self.now.journal ≡ Some file → result ≡ true }
        ensures witness { self.now.witness ≡ Some file → result ≡ true }
        ensures no_other { result ≡ true → (self.now.ledger.ledger ≡ Some file) ⊎ (self.now.ledger.wal ≡ Some file)
            ⊎ (self.now.ledger.rollback ≡ Some file) ⊎ (self.now.ledger.shm ≡ Some file)
            ⊎ (self.now.key ≡ Some file) ⊎ (self.now.journal ≡ Some file) ⊎ (self.now.witness ≡ Some file) }
    {
        let own = Some(file);
        self.ledger.has(file) || self.key == own || self.journal == own || self.witness == own
    }
}

/// A file that a run made, and that is no input either.
#[derive(Clone, Copy, PartialEq, Eq)]
pub enum KeptOut {
    /// There is none.
    Nothing,
    /// This one.
    File(FileId),
    /// Which one can't be found out. So no file is an input.
    Unknown,
}

impl KeptOut {
    /// Looks up the regular file at this path.
    pub(crate) fn at<R: Files>(rt: &R, path: &str) -> KeptOut {
        match regular_at(rt, path) {
            Some(file) => KeptOut::File(file),
            None => KeptOut::Unknown,
        }
    }

    /// Returns whether this file can't be an input.
    pub fn has(self, file: FileId) -> bool
        ensures nothing { self ≡ Nothing → result ≡ false }
        ensures own { self ≡ KeptOut.File file → result ≡ true }
        ensures unknown { self ≡ Unknown → result ≡ true }
        ensures no_other { result ≡ true → (self ≡ KeptOut.File file) ⊎ (self ≡ Unknown) }
    {
        match self {
            KeptOut::Nothing => false,
            KeptOut::File(kept) => kept == file,
            KeptOut::Unknown => true,
        }
    }
}

// Whether there is no file of a name, or can't be one.
fn is_missing(error: &io::Error) -> bool {
    matches!(
        error.kind(),
        ErrorKind::NotFound | ErrorKind::InvalidFilename
    )
}

// The file at a path, if there is one.
fn file_at<R: Files>(rt: &R, path: &str) -> io::Result<Option<FileId>> {
    match fs::metadata(rt, path) {
        Ok(found) => Ok(Some(FileId::of(&found))),
        Err(error) if is_missing(&error) => Ok(None),
        Err(error) => Err(error),
    }
}

// The same, if a path is given.
fn file_if<R: Files>(rt: &R, path: Option<&str>) -> io::Result<Option<FileId>> {
    match path {
        Some(path) => file_at(rt, path),
        None => Ok(None),
    }
}

/// Returns the regular file at this path, if it is one.
pub(crate) fn regular_at<R: Files>(rt: &R, path: &str) -> Option<FileId> {
    match fs::metadata(rt, path) {
        Ok(found) if found.is_file() => Some(FileId::of(&found)),
        _ => None,
    }
}

// The file with the ledger file's name and this suffix.
fn file_beside<R: Files + AllocGlobal>(
    rt: &R,
    ledger: &str,
    end: &str,
) -> io::Result<Option<FileId>> {
    let Ok(path) = format!(in rt.alloc(); "{ledger}{end}") else {
        return Err(io::Error::from(ErrorKind::OutOfMemory));
    };
    file_at(rt, path.as_str())
}

/// Returns whether a file just created is the ledger file or one beside it. If that can't be found out, it counts as
/// one.
pub(crate) fn is_of_ledger<R: Files + AllocGlobal, F: OpenFile>(
    rt: &R,
    created: &F,
    ledger: &str,
) -> bool {
    match (created.metadata(), LedgerFiles::at(rt, ledger)) {
        (Ok(created), Ok(files)) => files.has(FileId::of(&created)),
        _ => true,
    }
}

/// The reader of standard input for sealing. It fails if the input is one of the run's own files, as far as `/proc`
/// shows which file it is.
#[derive(Drop)]
pub struct StandardInput<'r, 'p, R: Files + AllocGlobal, I: Read + Drop> {
    rt: &'r R,
    input: I,
    paths: OwnPaths<'p>,
    // Whether it was checked. That is done at the first read, since only then all of the run's files exist.
    is_another: bool,
}

impl<'r, 'p, R: Files + AllocGlobal, I: Read + Drop> StandardInput<'r, 'p, R, I> {
    /// This input, of a run with these files of its own.
    pub fn new(rt: &'r R, input: I, paths: OwnPaths<'p>) -> StandardInput<'r, 'p, R, I>
        ensures input { ⟦<StandardInput<'r, 'p, R, I> as Read>⟧.remaining result ≡ I.remaining input }
    {
        StandardInput {
            rt,
            input,
            paths,
            is_another: false,
        }
    }
}

impl<R: Files + AllocGlobal, I: Read + Drop> Read for StandardInput<'_, '_, R, I> {
    ghost remaining = { λ standard. I.remaining standard.input };

    fn read(&mut self, buf: &mut [u8]) -> io::Result<usize> {
        if !self.is_another {
            if let Ok(input) = fs::metadata(self.rt, STANDARD_INPUT)
                && OwnFiles::at(self.rt, &self.paths)?.has(FileId::of(&input))
            {
                return Err(io::Error::from(ErrorKind::PermissionDenied));
            }
            self.is_another = true;
        }
        self.input.read(buf)
    }
}
