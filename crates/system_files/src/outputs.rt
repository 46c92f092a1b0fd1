//! Outputs: files that get their names only once they are whole.
//!
//! An output is written as a part, a hidden file in the folder of its name. Once it is whole, a hard link gives it its
//! name, which never replaces a file, and the part's name is removed. So a file with an output's name is whole, however
//! the run ends. If a file can't have two names, an output has its own from the beginning.

ghost use Rattle.std.specs.Prelude.{◌≡◌};

use crate::cause::Cause;
use crate::own::FileId;
use folder_core::Place;
use io_core::Failed;
use std::alloc::Global;
use std::fs::{File, OpenFile, OpenOptions};
use std::io::{ErrorKind, Read, Write};
use std::os::unix::fs::OpenOptionsExt;
use std::rt::{Clock, Files};
use std::{fs, io};
use system_ledger::folder_and_name;

/// The mode of a new file that only its owner may read and write.
pub(crate) const PRIVATE: u32 = 0o600;

/// The mode of any other new file. The system takes away what the umask has.
pub(crate) const SHARED: u32 = 0o666;

/// An output being written: its file and, if both are to be synced, the folder with its name.
#[derive(Drop)]
pub struct OutputFile<F: Read + Write + Drop> {
    // The names are made before the file, so that removing them takes no memory.
    path: String,
    part: Option<String>,
    // Whether the file has its own name by now. It has the part's name while that exists.
    is_named: bool,
    file: F,
    folder: Option<F>,
    // The name of its FILE, if causes are printed, and why the output couldn't be written or finished.
    name: Option<String>,
    cause: Option<Cause>,
}

impl<F: Read + Write + Drop> Place for OutputFile<F> {}

impl<F: Read + Write + Drop> OutputFile<F> {
    /// Returns the name of its FILE, if causes are printed, and why it couldn't be written or finished.
    pub(crate) fn why(&self) -> Option<(&str, Cause)> {
        match (&self.name, self.cause) {
            (Some(name), Some(cause)) => Some((name.as_str(), cause)),
            _ => None,
        }
    }
}

impl<F: Read + Write + Drop> Write for OutputFile<F> {
    ghost contents = { λ output. F.contents output.file };

    fn write(&mut self, buf: &[u8]) -> io::Result<usize> {
        let put = self.file.write(buf);
        if let Err(error) = &put
            && error.kind() != ErrorKind::Interrupted
        {
            self.cause = Some(Cause::of(error));
        }
        put
    }

    fn flush(&mut self) -> io::Result<()> {
        self.file.flush()
    }
}

/// How the outputs of a run are made.
#[derive(Drop)]
pub(crate) struct NewOutputs {
    // When the run began, in nanoseconds. The names of its parts include it.
    begun: u64,
    // The folder of the last output, and whether files there can have two names.
    links: Option<(String, bool)>,
}

impl NewOutputs {
    pub(crate) fn new<R: Clock>(rt: &R) -> NewOutputs {
        let begun = match rt.since_1970() {
            Ok(time) => u64::try_from(time.as_nanos()).unwrap_or(0),
            Err(_) => 0,
        };
        NewOutputs { begun, links: None }
    }

    /// Creates an output of this mode, if there is no file of its name. With `sync` its folder is opened first. An output
    /// whose name can't be synced then isn't made. `file` is the name of its FILE, if causes are printed.
    pub(crate) fn create<R: Files + AllocGlobal>(
        &mut self,
        rt: &R,
        path: String,
        sync: bool,
        mode: u32,
        file_name: &mut Option<String>,
    ) -> Result<OutputFile<R::File>, Cause> {
        let (folder, name) = folder_and_name(path.as_str());
        let opened = if sync {
            match File::open(rt, folder) {
                Ok(opened) => Some(opened),
                Err(error) => return Err(Cause::of_making(&error)),
            }
        } else {
            None
        };
        is_free(rt, path.as_str(), name)?;
        match self.part(rt, folder, name, mode)? {
            Some((part, file)) => Ok(OutputFile {
                path,
                part: Some(part),
                is_named: false,
                file,
                folder: opened,
                name: file_name.take(),
                cause: None,
            }),
            None => {
                let file = create_new(rt, path.as_str(), mode)?;
                Ok(OutputFile {
                    path,
                    part: None,
                    is_named: true,
                    file,
                    folder: opened,
                    name: file_name.take(),
                    cause: None,
                })
            }
        }
    }

    // Creates a part for an output of this name, if files in this folder can have two names. The first output in a
    // folder tests that.
    fn part<R: Files + AllocGlobal>(
        &mut self,
        rt: &R,
        folder: &str,
        name: &str,
        mode: u32,
    ) -> Result<Option<(String, R::File)>, Cause> {
        let known = match &self.links {
            Some((last, links)) if last.as_str() == folder => Some(*links),
            _ => None,
        };
        if known == Some(false) {
            return Ok(None);
        }
        let part = part_name(rt.alloc(), folder, self.begun, name, "")?;
        let file = match make_new(rt, part.as_str(), mode) {
            Ok(file) => file,
            Err(error) => {
                return match error.kind() {
                    // Another FILE of the run has an output of this name.
                    ErrorKind::AlreadyExists => Err(Cause::OutputShared),
                    // The part's name may be longer than the output's.
                    ErrorKind::InvalidFilename => Ok(None),
                    _ => Err(Cause::of_making(&error)),
                };
            }
        };
        let links = match known {
            Some(links) => Ok(links),
            None => self.try_links(rt, folder, name, part.as_str()),
        };
        if links == Ok(true) {
            return Ok(Some((part, file)));
        }
        drop(file);
        let _ = fs::remove_file(rt, part.as_str());
        match links {
            Ok(_) => Ok(None),
            Err(cause) => Err(cause),
        }
    }

    // Tests whether this part, of an output of this name, can have a second name in its folder.
    fn try_links<R: Files + AllocGlobal>(
        &mut self,
        rt: &R,
        folder: &str,
        name: &str,
        part: &str,
    ) -> Result<bool, Cause> {
        let mut last = String::new(rt.alloc());
        if last.push_str(folder).is_err() {
            return Err(Cause::OutOfMemory);
        }
        let second = part_name(rt.alloc(), folder, self.begun, name, "2")?;
        let links = has_links(rt, part, second.as_str())?;
        self.links = Some((last, links));
        Ok(links)
    }
}

// Checks that there is no file at this path, whose base name is `name`.
fn is_free<R: Files>(rt: &R, path: &str, name: &str) -> Result<(), Cause> {
    if name.is_empty() {
        return Err(Cause::NoOutputName);
    }
    match fs::symlink_metadata(rt, path) {
        Ok(_) => Err(Cause::OutputThere),
        Err(error) if error.kind() == ErrorKind::NotFound => Ok(()),
        Err(error) => Err(Cause::of(&error)),
    }
}

// Creates a file of this mode. The system makes it only if there is none of the name, so no other program's file is
// ever replaced.
fn create_new<R: Files>(rt: &R, path: &str, mode: u32) -> Result<R::File, Cause> {
    match make_new(rt, path, mode) {
        Ok(file) => Ok(file),
        Err(error) if error.kind() == ErrorKind::AlreadyExists => Err(Cause::OutputTaken),
        Err(error) => Err(Cause::of_making(&error)),
    }
}

/// Makes a file, with the system's error. It has this mode from the beginning, less what the umask takes away.
pub(crate) fn make_new<R: Files>(rt: &R, path: &str, mode: u32) -> io::Result<R::File> {
    OpenOptions::new()
        .read(true)
        .write(true)
        .create_new(true)
        .mode(mode)
        .open(rt, path)
}

// The path of a part. Two outputs of one run with the same name in the same folder get the same part, by whatever
// paths. The second then isn't created.
fn part_name(
    alloc: Global,
    folder: &str,
    begun: u64,
    name: &str,
    mark: &str,
) -> Result<String, Cause> {
    let number = number_of(name);
    match format!(in alloc; "{folder}/.{begun:016x}{number:016x}{mark}.part") {
        Ok(part) => Ok(part),
        Err(_) => Err(Cause::OutOfMemory),
    }
}

// A number for a name (FNV-1a, 64 bits).
fn number_of(name: &str) -> u64 {
    let mut number = 0xcbf2_9ce4_8422_2325_u64;
    for byte in name.as_bytes() {
        number = (number ^ u64::from(*byte)).wrapping_mul(0x0100_0000_01b3);
    }
    number
}

// Whether a file can have a second name. The name is removed again. It can't if the file system has no links, the folder
// doesn't let a name be removed, or the name's path is too long.
fn has_links<R: Files>(rt: &R, name: &str, second: &str) -> Result<bool, Cause> {
    match fs::hard_link(rt, name, second) {
        Ok(()) if fs::remove_file(rt, second).is_ok() => Ok(true),
        Ok(()) => {
            // If that failed by chance, no part is left.
            let _ = fs::remove_file(rt, second);
            Ok(false)
        }
        Err(error) => match error.kind() {
            ErrorKind::PermissionDenied
            | ErrorKind::Unsupported
            | ErrorKind::TooManyLinks
            // The second name is a byte longer than a part's, which has the longest path that is allowed.
            | ErrorKind::InvalidFilename => Ok(false),
            _ => Err(Cause::of(&error)),
        },
    }
}

/// Gives a whole output its name. If `output.folder` is there, the file is synced first and its folder last. On failure
/// the output keeps the cause.
pub(crate) fn finish_file<R: Files>(rt: &R, output: &mut OutputFile<R::File>) -> io::Result<()>
    ensures file { output.new.file ≡ output.old.file }
{
    match name_whole(rt, output) {
        Ok(()) => Ok(()),
        Err(error) => {
            output.cause = Some(Cause::of_naming(&error));
            Err(error)
        }
    }
}

// The same, without the cause.
fn name_whole<R: Files>(rt: &R, output: &mut OutputFile<R::File>) -> io::Result<()>
    ensures file { output.new.file ≡ output.old.file }
{
    if output.folder.is_some() {
        output.file.sync_all()?;
    }
    if let Some(part) = &output.part {
        if !output.is_named {
            link(rt, &output.file, part.as_str(), output.path.as_str())?;
            output.is_named = true;
        }
        match fs::remove_file(rt, part.as_str()) {
            Ok(()) => {}
            // The folder doesn't let a name be removed: the output keeps both.
            Err(error) if error.kind() == ErrorKind::PermissionDenied => {}
            Err(error) => return Err(error),
        }
        output.part = None;
    }
    match &output.folder {
        Some(folder) => folder.sync_all(),
        None => Ok(()),
    }
}

// Gives a file that has one name a second one, if no other file has that.
fn link<R: Files>(rt: &R, file: &R::File, name: &str, second: &str) -> io::Result<()> {
    match fs::hard_link(rt, name, second) {
        Ok(()) => Ok(()),
        // A file server may have made the link and lost its reply.
        Err(_) if is_at(rt, file, second) == Some(true) => Ok(()),
        Err(error) => Err(error),
    }
}

/// Removes an output that isn't whole: closes it and removes its names. A name that another file has by now stays, and
/// that is a failure.
pub(crate) fn discard<R: Files>(rt: &R, output: OutputFile<R::File>) -> Result<(), Failed> {
    let OutputFile {
        path,
        part,
        is_named,
        file,
        folder,
        ..
    } = output;
    let path = if is_named { Some(path) } else { None };
    let is_own_path = is_own(rt, &file, &path);
    let is_own_part = is_own(rt, &file, &part);
    drop(file);
    drop(folder);
    let without_path = is_own_path && removes(rt, &path);
    let without_part = is_own_part && removes(rt, &part);
    if without_path && without_part {
        Ok(())
    } else {
        Err(Failed)
    }
}

// Whether a name, if there is one, is still this file's. Otherwise ours was moved or removed, and another program made
// one. If that can't be found out, it counts as ours.
fn is_own<R: Files>(rt: &R, file: &R::File, name: &Option<String>) -> bool {
    match name {
        Some(name) => is_at(rt, file, name.as_str()) != Some(false),
        None => true,
    }
}

// Removes a name, if there is one. Returns whether it is gone.
fn removes<R: Files>(rt: &R, name: &Option<String>) -> bool {
    match name {
        Some(name) => fs::remove_file(rt, name.as_str()).is_ok(),
        None => true,
    }
}

// Whether a name is this file's. `None` if that can't be found out.
fn is_at<R: Files>(rt: &R, file: &R::File, name: &str) -> Option<bool> {
    match (file.metadata(), fs::symlink_metadata(rt, name)) {
        (Ok(file), Ok(found)) => Some(FileId::of(&file) == FileId::of(&found)),
        _ => None,
    }
}
