//! A spool: room for an input that can be read only once. It holds up to 16 MiB in memory, and more than that in a
//! temporary file.
//!
//! The file is unlinked before a byte is written to it. So the system frees its room when the run ends, even if it is
//! killed, and no other program finds it by name. It isn't synced. Nothing is promised of the bytes that a disk gives
//! back: who reads them checks them.
ghost use Rattle.std.specs.Prelude.{◌≡◌, IfSome, IfOk, IsOk, IsErr, is_err, true, false, string_bytes};
ghost use Rattle.std.specs.Io.{ReadsAtMost};

use crate::blocks::Blocks;
use crate::cause::Cause;
use crate::outputs::{PRIVATE, make_new};
use folder_core::{FileReader, Spool};
use io_core::{Failed, FromRead, Source};
use std::alloc::AllocError;
use std::env::VarError;
use std::io::{ErrorKind, Read, Seek, SeekFrom, Write};
use std::rt::{Clock, Env, Files};
use std::{env, fs, mem};

/// The folder of the file if none is named. `/tmp` is in memory on many systems.
const FOLDER: &str = "/var/tmp";

/// How many names are tried for the file.
const TRIES: u64 = 8;

/// Returns the folder in which a spool creates its file: the given one, else that of the environment variable `TMPDIR`,
/// else `/var/tmp`. A `TMPDIR` that is empty or no UTF-8 is passed over. Fails if memory is refused.
pub fn spool_folder<R: Env + AllocGlobal>(rt: &R, given: Option<&str>) -> Result<String, AllocError>
    ensures given { IfSome given.entry (λ path. IfOk result (λ folder. string_bytes folder ≡ path.now)) }
{
    if let Some(given) = given {
        return copy_of(rt, given);
    }
    match env::var(rt, "TMPDIR") {
        Ok(folder) if !folder.is_empty() => Ok(folder),
        Err(VarError::OutOfMemory) => Err(AllocError),
        _ => copy_of(rt, FOLDER),
    }
}

fn copy_of<R: AllocGlobal>(rt: &R, text: &str) -> Result<String, AllocError>
    ensures { IfOk result (λ copy. string_bytes copy ≡ text.now) }
{
    String::from_str(rt.alloc(), text)
}

/// Returns whether there is a folder at this path.
pub fn is_folder<R: Files>(rt: &R, path: &str) -> bool {
    match fs::metadata(rt, path) {
        Ok(found) => found.is_dir(),
        Err(_) => false,
    }
}

// A file to which bytes are appended, and which is read.
#[derive(Drop)]
struct Spilled<F: Read + Write + Seek + Drop> {
    file: FromRead<F>,
    // How many bytes were appended.
    length: u64,
    // The place at which the next call reads or writes, if it is known.
    place: Option<u64>,
}

impl<F: Read + Write + Seek + Drop> Spilled<F> {
    // An empty file.
    fn of(file: F) -> Spilled<F> {
        Spilled {
            file: FromRead(file),
            length: 0,
            place: Some(0),
        }
    }

    fn append(&mut self, bytes: &[u8]) -> Result<(), Cause> {
        if self.go_to(self.length).is_err() {
            return Err(Cause::SystemError);
        }
        self.place = None;
        match self.file.0.write_all(bytes) {
            Ok(()) => {
                self.length = self.length.saturating_add(bytes.len() as u64);
                self.place = Some(self.length);
                Ok(())
            }
            Err(error) => Err(Cause::of(&error)),
        }
    }

    fn read_at(&mut self, at: u64, buffer: &mut [u8]) -> Result<usize, Failed>
        ensures bound { ReadsAtMost result buffer.new }
    {
        self.go_to(at)?;
        self.place = None;
        let n = self.file.read(buffer)?;
        self.place = Some(at.saturating_add(n as u64));
        Ok(n)
    }

    fn go_to(&mut self, place: u64) -> Result<(), Failed> {
        if self.place == Some(place) {
            return Ok(());
        }
        self.place = None;
        match self.file.0.seek(SeekFrom::Start(place)) {
            Ok(_) => {
                self.place = Some(place);
                Ok(())
            }
            Err(_) => Err(Failed),
        }
    }
}

/// A spool. Reading begins at its first byte.
#[derive(Drop)]
pub struct FileSpool<'r, R: Files + AllocGlobal + Clock> {
    /// Whether bytes couldn't be appended. From then on it holds nothing, and each call fails.
    pub failed: bool,
    /// Why they couldn't.
    pub cause: Option<Cause>,
    rt: &'r R,
    folder: &'r str,
    // All bytes, until there is a file.
    blocks: Blocks,
    file: Option<Spilled<R::File>>,
    // The place of the byte that is read next.
    at: u64,
}

impl<'r, R: Files + AllocGlobal + Clock> FileSpool<'r, R> {
    /// An empty spool. Its file is created in this folder, once it needs one.
    pub fn new(rt: &'r R, folder: &'r str) -> FileSpool<'r, R>
        ensures failed { result.failed ≡ false }
    {
        FileSpool {
            failed: false,
            cause: None,
            rt,
            folder,
            blocks: Blocks::new(rt.alloc()),
            file: None,
            at: 0,
        }
    }

    /// Appends these bytes. Fails if its file can't be created, unlinked or written.
    pub fn append(&mut self, bytes: &[u8]) -> Result<(), Failed>
        ensures lost { self.old.failed ≡ true → IsErr result }
        ensures failed { self.new.failed ≡ is_err result }
    {
        if self.failed {
            return Err(Failed);
        }
        if let Err(cause) = self.append_all(bytes) {
            self.failed = true;
            self.cause = Some(cause);
            self.blocks = Blocks::new(self.rt.alloc());
            self.file = None;
            return Err(Failed);
        }
        Ok(())
    }

    // The same, and what couldn't be appended whole is left so.
    fn append_all(&mut self, bytes: &[u8]) -> Result<(), Cause>
        ensures failed { self.new.failed ≡ self.old.failed }
    {
        let mut rest = bytes;
        if self.file.is_none() {
            let n = self.blocks.append(self.rt.alloc(), bytes);
            rest = bytes.get(n..).unwrap_or(&[]);
            if rest.is_empty() {
                return Ok(());
            }
            self.move_to_file()?;
        }
        match &mut self.file {
            Some(file) => file.append(rest),
            None => Err(Cause::SystemError),
        }
    }

    // Creates the file, and moves all bytes there.
    fn move_to_file(&mut self) -> Result<(), Cause>
        ensures failed { self.new.failed ≡ self.old.failed }
    {
        let mut file = Spilled::of(unlinked_file(self.rt, self.folder)?);
        let blocks = mem::replace(&mut self.blocks, Blocks::new(self.rt.alloc()));
        for block in blocks.into_iter() {
            file.append(block.as_slice())?;
        }
        self.file = Some(file);
        Ok(())
    }

    /// Goes back to the first byte. Fails only if bytes couldn't be appended.
    pub fn rewind(&mut self) -> Result<(), Failed>
        ensures ok { self.old.failed ≡ false → IsOk result }
        ensures lost { self.old.failed ≡ true → IsErr result }
        ensures failed { self.new.failed ≡ self.old.failed }
    {
        if self.failed {
            return Err(Failed);
        }
        self.at = 0;
        Ok(())
    }

    /// Reads on, as `FileReader::read_on` does.
    pub fn read_next(&mut self, buffer: &mut [u8]) -> Result<usize, Failed>
        ensures bound { ReadsAtMost result buffer.new }
        ensures lost { self.old.failed ≡ true → IsErr result }
        ensures failed { self.new.failed ≡ self.old.failed }
    {
        if self.failed {
            return Err(Failed);
        }
        let n = match &mut self.file {
            Some(file) => file.read_at(self.at, buffer)?,
            None => self.blocks.read_at(self.at, buffer),
        };
        self.at = self.at.saturating_add(n as u64);
        Ok(n)
    }
}

// Creates a file in this folder, and unlinks it. If it can't be unlinked, it isn't used.
fn unlinked_file<R: Files + AllocGlobal + Clock>(rt: &R, folder: &str) -> Result<R::File, Cause> {
    if folder.is_empty() {
        return Err(Cause::NoFolder);
    }
    let begun = match rt.since_1970() {
        Ok(time) => u64::try_from(time.as_nanos()).unwrap_or(0),
        Err(_) => 0,
    };
    for i in 0..TRIES {
        let number = begun.wrapping_add(i);
        let Ok(path) = format!(in rt.alloc(); "{folder}/.sealer-{number:016x}") else {
            return Err(Cause::OutOfMemory);
        };
        match make_new(rt, path.as_str(), PRIVATE) {
            Ok(file) => {
                return match fs::remove_file(rt, path.as_str()) {
                    Ok(()) => Ok(file),
                    Err(error) => Err(Cause::of(&error)),
                };
            }
            Err(error) if error.kind() == ErrorKind::AlreadyExists => {}
            Err(error) => return Err(Cause::of_making(&error)),
        }
    }
    Err(Cause::Exists)
}

impl<R: Files + AllocGlobal + Clock> Source for FileSpool<'_, R> {
    fn read(&mut self, buffer: &mut [u8]) -> Result<usize, Failed> {
        self.read_next(buffer)
    }
}

impl<R: Files + AllocGlobal + Clock> FileReader for FileSpool<'_, R> {
    fn read_on(&mut self, buffer: &mut [u8]) -> Result<usize, Failed> {
        self.read_next(buffer)
    }

    fn again(&mut self) -> Result<(), Failed> {
        self.rewind()
    }
}

impl<R: Files + AllocGlobal + Clock> Spool for FileSpool<'_, R> {
    fn put(&mut self, bytes: &[u8]) -> Result<(), Failed> {
        self.append(bytes)
    }
}
