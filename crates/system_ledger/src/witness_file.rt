//! The file of a witness. It is renewed only while a run holds the ledger file: written beside, synced, and renamed.
ghost use Rattle.std.specs.Prelude.{◌≡◌};

use crate::ledger::is_beside;
use crate::witness::{
    FileMark, MAX_BYTES, Seen, WitnessFault, WitnessRefusal, floor_by, mark_by, stamp_of,
};
use crate::witness_text::{WitnessLine, owner_text, renewed, seen_in};
use journal_core::{Device, Range};
use reserve_core::{Unrecorded, Witness};
use std::alloc::AllocError;
use std::fs::{File, Metadata, OpenOptions};
use std::io::{ErrorKind, Write};
use std::os::unix::fs::{MetadataExt, OpenOptionsExt, fchown};
use std::rt::{Clock, Files};
use std::time::UNIX_EPOCH;
use std::{fs, io};

/// The mode of a new file. The system takes away what the umask has.
const SHARED: u32 = 0o666;

/// How many names are tried for a file beside the witness.
const MAX_NAMES: u32 = 100;

/// Which witness a run asks for.
#[derive(Clone, Copy)]
pub struct WitnessPath<'a> {
    /// Its path, if there is to be one.
    pub path: Option<&'a str>,
    /// Whether it is made if there is none, and takes another file for its ledger file.
    pub is_new: bool,
}

/// The witness of a run: that at a path, or none.
#[derive(Drop)]
pub struct FileWitness<'r> {
    host: &'r HostRuntime,
    // Its path. If that is a link, it is that of the link's target.
    path: Option<String>,
    // How its line begins.
    owner: String,
    ledger: &'r str,
    sight: Sight,
    // Why it couldn't be renewed, if that was tried.
    refusal: Option<WitnessRefusal>,
}

// What a run saw of witness and ledger file before it reserved.
#[derive(Clone, Copy)]
struct Sight {
    // No range may begin below this number.
    floor: u64,
    // Whether there was a witness.
    is_there: bool,
    // The ledger file, if there was one.
    found: Option<FileMark>,
    // The ledger file that the witness named, if it is to take another one.
    moved: Option<FileMark>,
    // When it looked, in nanoseconds. The names of files beside the witness include it.
    begun: u64,
}

impl<'r> FileWitness<'r> {
    /// Reads the witness that is asked for, and looks at the ledger file. A file is made beside the witness and removed
    /// again, so that a folder in which none can be made is refused before a range is reserved.
    pub fn open(
        host: &'r HostRuntime,
        asked: WitnessPath<'_>,
        ledger: &'r str,
        key_id: &[u8; 32],
        device: Device,
    ) -> Result<FileWitness<'r>, WitnessRefusal> {
        let Some(path) = asked.path else {
            return Ok(FileWitness {
                host,
                path: None,
                owner: String::new(host.alloc()),
                ledger,
                sight: Sight {
                    floor: 0,
                    is_there: false,
                    found: None,
                    moved: None,
                    begun: 0,
                },
                refusal: None,
            });
        };
        let (Ok(path), Ok(beside), Ok(owner)) = (
            real_path(host, path),
            real_path(host, ledger),
            owner_text(host.alloc(), key_id, device),
        ) else {
            return Err(WitnessRefusal::Witness(WitnessFault::OutOfMemory));
        };
        if is_beside(path.as_str(), beside.as_str()) {
            return Err(WitnessRefusal::Witness(WitnessFault::OfLedger));
        }
        let sight = sight_of(host, path.as_str(), asked.is_new, ledger, owner.as_str())?;
        match try_folder(host, path.as_str(), sight.begun) {
            Ok(()) => Ok(FileWitness {
                host,
                path: Some(path),
                owner,
                ledger,
                sight,
                refusal: None,
            }),
            Err(fault) => Err(WitnessRefusal::Witness(fault)),
        }
    }

    /// Returns why it couldn't be renewed, if that was tried.
    pub fn refusal(&self) -> Option<WitnessRefusal> {
        self.refusal
    }

    // Writes the witness anew, with this number for the owner.
    fn renew(&self, path: &str, next: u64) -> Result<(), WitnessRefusal> {
        let alloc = self.host.alloc();
        let sight = self.sight;
        let file = match mark_at(self.host, self.ledger) {
            Ok(now) => mark_by(sight.found, now)?,
            Err(error) => return Err(unread(&error)),
        };
        let owner = self.owner.as_str();
        let line = WitnessLine { owner, next, file };
        let text = match read_witness(self.host, path) {
            Ok(old) => renewed(alloc, old.as_slice(), line, sight.moved)?,
            Err(WitnessFault::NotThere) if !sight.is_there => {
                match format!(in alloc; "{line}") {
                    Ok(text) => text,
                    Err(_) => return Err(WitnessRefusal::Witness(WitnessFault::OutOfMemory)),
                }
            }
            Err(fault) => return Err(WitnessRefusal::Witness(fault)),
        };
        match replace(self.host, path, sight.begun, text.as_bytes()) {
            Ok(()) => Ok(()),
            Err(fault) => Err(WitnessRefusal::Witness(fault)),
        }
    }
}

impl Witness for FileWitness<'_> {
    ghost floor = { λ witness. witness.sight.floor };

    fn floor(&self) -> u64
        ensures { result ≡ self.now.sight.floor }
    {
        self.sight.floor
    }

    fn record(&mut self, _key_id: &[u8; 32], range: &Range) -> Result<(), Unrecorded> {
        let Some(path) = &self.path else {
            return Ok(());
        };
        let next = u64::from(range.lo()) + u64::from(range.size());
        match self.renew(path.as_str(), next) {
            Ok(()) => Ok(()),
            Err(refusal) => {
                self.refusal = Some(refusal);
                Err(Unrecorded)
            }
        }
    }
}

// The fault of a file that can't be looked at.
fn unread(error: &io::Error) -> WitnessRefusal {
    WitnessRefusal::Witness(WitnessFault::CannotOpen(error.kind()))
}

// Checks whether a file can be made and removed in the folder of the witness.
fn try_folder(host: &HostRuntime, path: &str, begun: u64) -> Result<(), WitnessFault> {
    let (name, file) = make_beside(host, path, begun, "try", SHARED)?;
    drop(file);
    match fs::remove_file(host, name.as_str()) {
        Ok(()) => Ok(()),
        Err(error) if error.kind() == ErrorKind::NotFound => Ok(()),
        Err(error) => Err(WitnessFault::CannotCreate(error.kind())),
    }
}

// Makes a file beside the witness, of this mode less what the umask takes away, under a name that no file has. So none
// that a killed run left is in its way. Its name has a number and this end.
fn make_beside(
    host: &HostRuntime,
    path: &str,
    begun: u64,
    end: &str,
    mode: u32,
) -> Result<(String, File), WitnessFault> {
    for nth in 0..MAX_NAMES {
        let stamp = stamp_of(begun, nth);
        let Ok(name) = format!(in host.alloc(); "{path}.{stamp:016x}.{end}") else {
            return Err(WitnessFault::OutOfMemory);
        };
        let mut options = OpenOptions::new();
        options.write(true).create_new(true).mode(mode);
        match options.open(host, name.as_str()) {
            Ok(file) => return Ok((name, file)),
            Err(error) if error.kind() == ErrorKind::AlreadyExists => {}
            Err(error) => return Err(WitnessFault::CannotCreate(error.kind())),
        }
    }
    Err(WitnessFault::CannotCreate(ErrorKind::AlreadyExists))
}

// The path of a file from the root, or of a link's target. If there is no file, that of its folder and its name.
fn real_path<R: Files + AllocGlobal>(rt: &R, path: &str) -> Result<String, AllocError> {
    match fs::canonicalize(rt, path) {
        Ok(real) => return format!(in rt.alloc(); "{}", real.as_str()),
        Err(error) if error.kind() == ErrorKind::OutOfMemory => return Err(AllocError),
        Err(_) => {}
    }
    let (folder, name) = folder_and_name(path);
    match fs::canonicalize(rt, folder) {
        Ok(real) => format!(in rt.alloc(); "{}/{name}", real.as_str()),
        Err(error) if error.kind() == ErrorKind::OutOfMemory => Err(AllocError),
        Err(_) => format!(in rt.alloc(); "{path}"),
    }
}

/// Returns the folder and the base name of a path.
pub fn folder_and_name(path: &str) -> (&str, &str) {
    match path.rsplit_once('/') {
        None => (".", path),
        Some(("", name)) => ("/", name),
        Some((folder, name)) => (folder, name),
    }
}

// What is to be seen of the witness at this path and of the ledger file, if a run may begin by them.
fn sight_of(
    host: &HostRuntime,
    path: &str,
    is_new: bool,
    ledger: &str,
    owner: &str,
) -> Result<Sight, WitnessRefusal> {
    let seen = match seen_at(host, path, is_new, owner) {
        Ok(seen) => seen,
        Err(fault) => return Err(WitnessRefusal::Witness(fault)),
    };
    let found = match mark_at(host, ledger) {
        Ok(found) => found,
        Err(error) => return Err(unread(&error)),
    };
    let floor = floor_by(seen, found, is_new)?;
    let moved = match seen {
        Some(seen) if !seen.has_room() => {
            return Err(WitnessRefusal::Witness(WitnessFault::Full));
        }
        Some(seen) if is_new => Some(seen.file),
        _ => None,
    };
    Ok(Sight {
        floor,
        is_there: seen.is_some(),
        found,
        moved,
        begun: now(host),
    })
}

// The time, in nanoseconds since 1970. It is 0 if the clock fails.
fn now<R: Clock>(rt: &R) -> u64 {
    match rt.since_1970() {
        Ok(time) => u64::try_from(time.as_nanos()).unwrap_or(0),
        Err(_) => 0,
    }
}

// The mark of the ledger file at a path, if there is one. An empty file is none, nor is the first byte of one.
fn mark_at<R: Files>(rt: &R, path: &str) -> io::Result<Option<FileMark>> {
    match fs::metadata(rt, path) {
        Ok(found) if found.len() <= 1 => Ok(None),
        Ok(found) => Ok(Some(file_mark_of(&found))),
        Err(error) if error.kind() == ErrorKind::NotFound => Ok(None),
        Err(error) => Err(error),
    }
}

// The mark of the file with this metadata.
fn file_mark_of(metadata: &Metadata) -> FileMark {
    FileMark {
        device: metadata.dev(),
        inode: metadata.ino(),
        born: born(metadata),
    }
}

// When a file was created.
fn born(metadata: &Metadata) -> Option<u64> {
    let created = metadata.created().ok()?;
    let time = created.duration_since(UNIX_EPOCH).ok()?;
    u64::try_from(time.as_nanos()).ok()
}

// What the witness at a path says, if there is one. There has to be one unless it is to be made.
fn seen_at<R: Files + AllocGlobal>(
    rt: &R,
    path: &str,
    is_new: bool,
    owner: &str,
) -> Result<Option<Seen>, WitnessFault> {
    match read_witness(rt, path) {
        Ok(text) => match seen_in(text.as_slice(), owner) {
            Some(seen) => Ok(Some(seen)),
            None => Err(WitnessFault::NotWitness),
        },
        Err(WitnessFault::NotThere) if is_new => Ok(None),
        Err(fault) => Err(fault),
    }
}

// The bytes of the witness at a path.
fn read_witness<R: Files + AllocGlobal>(rt: &R, path: &str) -> Result<Vec<u8>, WitnessFault> {
    match fs::metadata(rt, path) {
        Ok(found) if !found.is_file() || found.len() > MAX_BYTES => {
            return Err(WitnessFault::NotWitness);
        }
        Ok(_) => {}
        Err(error) if error.kind() == ErrorKind::NotFound => return Err(WitnessFault::NotThere),
        Err(error) => return Err(WitnessFault::CannotOpen(error.kind())),
    }
    match fs::read(rt, path) {
        Ok(bytes) => Ok(bytes),
        Err(error) if error.kind() == ErrorKind::OutOfMemory => Err(WitnessFault::OutOfMemory),
        Err(error) => Err(WitnessFault::CannotOpen(error.kind())),
    }
}

// Writes a new file with mode, owner and group of the witness, syncs it, and gives it the witness's name. Then the folder
// is synced.
fn replace(host: &HostRuntime, path: &str, begun: u64, text: &[u8]) -> Result<(), WitnessFault> {
    let old = match fs::metadata(host, path) {
        Ok(found) => Some(found),
        Err(error) if error.kind() == ErrorKind::NotFound => None,
        Err(error) => return Err(WitnessFault::CannotCreate(error.kind())),
    };
    let mode = match &old {
        Some(found) => found.mode() & 0o777,
        None => SHARED,
    };
    let (new, file) = make_beside(host, path, begun, "new", mode)?;
    let written = write_synced(file, &old, text);
    let named = match written {
        Ok(()) => fs::rename(host, new.as_str(), path),
        Err(error) => Err(error),
    };
    let synced = match named {
        Ok(()) => sync_folder(host, folder_and_name(path).0),
        Err(error) => {
            let _ = fs::remove_file(host, new.as_str());
            Err(error)
        }
    };
    match synced {
        Ok(()) => Ok(()),
        Err(error) => Err(WitnessFault::CannotCreate(error.kind())),
    }
}

// Writes a file, and syncs it. It gets the owner and the group of an older one as far as the system lets this user.
fn write_synced(file: File, old: &Option<Metadata>, text: &[u8]) -> io::Result<()> {
    let mut file = file;
    if let Some(old) = old {
        let _ = fchown(&file, None, Some(old.gid()));
        let _ = fchown(&file, Some(old.uid()), None);
    }
    file.write_all(text)?;
    file.sync_all()
}

fn sync_folder(host: &HostRuntime, folder: &str) -> io::Result<()> {
    File::open(host, folder)?.sync_all()
}
