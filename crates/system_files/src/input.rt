//! Opened files and standard input, as commands read them, a file with a buffer.
ghost use Rattle.std.specs.Prelude.{◌≡◌, IfErr, IfOk, IsErr, None, false};
ghost use Rattle.std.specs.Io.Buffered.{reader_remaining};
ghost use Rattle.either.specs.Either.{either};

use crate::cause::{Cause, missing};
use crate::own::{FileId, STANDARD_INPUT, regular_at};
use crate::progress::{Named, ProgressLine};
use either::Either;
use folder_core::FileReader;
use io_core::{Failed, FromRead, Source};
use std::alloc::Global;
use std::fs::{File, Metadata, OpenFile};
use std::io;
use std::io::{BufReader, ErrorKind, Read, Seek, SeekFrom};
use std::os::unix::fs::MetadataExt;
use std::rt::{Clock, Files};

/// Bytes of the buffer through which a file is read. Its zeros are written anew for each file, and a call for more bytes
/// than it has goes around it.
const BUFFER: usize = 1 << 13;

/// The path of what the system says of a process's standard input: first its position in the file.
const INPUT_STATE: &str = "/proc/self/fdinfo/0";

/// How that begins if nothing was read yet.
const AT_FIRST_BYTE: [u8; 7] = *b"pos:\t0\n";

/// What changes when a file is written to: its length, and the time of its last change.
#[derive(Clone, Copy, PartialEq, Eq)]
pub(crate) struct Written {
    bytes: u64,
    seconds: i64,
    nanoseconds: i64,
}

impl Written {
    // That of the file with this metadata.
    fn of(metadata: &Metadata) -> Written {
        Written {
            bytes: metadata.len(),
            seconds: metadata.mtime(),
            nanoseconds: metadata.mtime_nsec(),
        }
    }
}

/// A file that was opened for reading.
#[derive(Drop)]
pub(crate) struct OpenedFile<F: Drop> {
    pub(crate) file: F,
    pub(crate) id: FileId,
    pub(crate) is_regular: bool,
    // Its length, if it is a regular file.
    pub(crate) length: Option<u64>,
    pub(crate) written: Written,
}

/// Opens a file for reading. A directory is refused.
pub(crate) fn open_known<R: Files>(rt: &R, name: &str) -> Result<OpenedFile<R::File>, Cause> {
    let file = match File::open(rt, name) {
        Ok(file) => file,
        Err(error) => return Err(missing(rt, name, &error)),
    };
    let metadata = match file.metadata() {
        Ok(metadata) => metadata,
        Err(error) => return Err(Cause::of(&error)),
    };
    if metadata.is_dir() {
        return Err(Cause::IsFolder);
    }
    let is_regular = metadata.is_file();
    Ok(OpenedFile {
        file,
        id: FileId::of(&metadata),
        is_regular,
        length: if is_regular {
            Some(metadata.len())
        } else {
            None
        },
        written: Written::of(&metadata),
    })
}

/// Returns whether standard input can be opened by its path, and so read again as a file is. It is a regular file, of
/// which nothing was read yet, and the system has `/proc`.
pub fn can_reopen_input<R: Files>(rt: &R) -> bool {
    // It is looked up before it is opened: that would wait for the other end of a pipe.
    regular_at(rt, STANDARD_INPUT).is_some()
        && is_input_unread(rt)
        && matches!(open_known(rt, STANDARD_INPUT), Ok(opened) if opened.is_regular)
}

// Whether standard input is at its first byte.
fn is_input_unread<R: Files>(rt: &R) -> bool {
    let Ok(mut state) = File::open(rt, INPUT_STATE) else {
        return false;
    };
    let mut begun = [0u8; AT_FIRST_BYTE.len()];
    matches!(state.read(&mut begun), Ok(n) if n == begun.len()) && begun == AT_FIRST_BYTE
}

// A reader. Why a read of it fails is printed, if it has the name of a FILE.
#[derive(Drop)]
struct Explained<'p, 'r, R: Clock + Eprint, I: Read + Drop> {
    reader: I,
    named: Option<Named<'p, 'r, R>>,
}

impl<R: Clock + Eprint, I: Read + Drop> Read for Explained<'_, '_, R, I> {
    ghost remaining = { λ explained. I.remaining explained.reader };

    fn read(&mut self, buf: &mut [u8]) -> io::Result<usize> {
        let got = self.reader.read(buf);
        if let (Some(named), Err(error)) = (&self.named, &got)
            && error.kind() != ErrorKind::Interrupted
        {
            named.explain(why_unread(error));
        }
        got
    }
}

// Why a read failed. Files that are folders are refused before, so one that is read is standard input: in place of a
// closed one a folder is opened.
fn why_unread(error: &io::Error) -> Cause {
    match Cause::of(error) {
        Cause::IsFolder => Cause::Input,
        cause => cause,
    }
}

/// What reads an opened file, or standard input. Nothing is promised of a second reading: another program can change
/// the file.
#[derive(Drop)]
pub struct FileInput<'p, 'r, R: Files + Clock + Eprint, I: Read + Drop> {
    /// Whether it can be read again: it is a regular file, and its first byte can be sought.
    pub can_repeat: bool,
    /// How many bytes it had when it was opened, if it is a regular file.
    pub length: Option<u64>,
    // How it was when it was opened, if a change is to be warned of once all of it was read.
    written: Option<Written>,
    reader: FromRead<Explained<'p, 'r, R, Either<BufReader<R::File>, I>>>,
}

impl<'p, 'r, R: Files + Clock + Eprint, I: Read + Drop> FileInput<'p, 'r, R, I> {
    /// Reads this file, whose FILE has a name if causes are printed. Only if `reads_again` it is looked up whether it can
    /// be read again. With `warns` a change while it is read is warned of, if causes are printed. Fails if memory is
    /// refused.
    pub(crate) fn of_file(
        alloc: Global,
        opened: OpenedFile<R::File>,
        reads_again: bool,
        warns: bool,
        named: Option<Named<'p, 'r, R>>,
    ) -> Result<FileInput<'p, 'r, R, I>, Cause>
        ensures other { opened.is_regular ≡ false → IfOk result (λ input. input.can_repeat ≡ false) }
        ensures unasked { reads_again ≡ false → IfOk result (λ input. input.can_repeat ≡ false) }
        ensures length { IfOk result (λ input. input.length ≡ opened.length) }
        ensures cause { IfErr result (λ cause. cause ≡ Cause.OutOfMemory) }
    {
        let OpenedFile {
            file,
            is_regular,
            length,
            written,
            ..
        } = opened;
        let mut file = file;
        let can_repeat = reads_again && is_regular && file.seek(SeekFrom::Start(0)).is_ok();
        match BufReader::with_capacity(alloc, BUFFER, file) {
            Ok(reader) => Ok(FileInput {
                can_repeat,
                length,
                written: if warns && is_regular {
                    Some(written)
                } else {
                    None
                },
                reader: FromRead(Explained {
                    reader: Either::Left(reader),
                    named,
                }),
            }),
            Err(_) => Err(Cause::OutOfMemory),
        }
    }

    /// Reads standard input as a stream.
    pub(crate) fn of_input(input: I, named: Option<Named<'p, 'r, R>>) -> FileInput<'p, 'r, R, I>
        ensures once { result.can_repeat ≡ false }
        ensures length { result.length ≡ None }
    {
        FileInput {
            can_repeat: false,
            length: None,
            written: None,
            reader: FromRead(Explained {
                reader: Either::Right(input),
                named,
            }),
        }
    }
}

impl<R: Files + Clock + Eprint, I: Read + Drop> Source for FileInput<'_, '_, R, I> {
    // A second reading has bytes of its own. No contract of std says that these are the first ones again.
    ghost left = { λ f. either (reader_remaining R.File.remaining) I.remaining f.reader.0.reader };

    fn read(&mut self, buffer: &mut [u8]) -> Result<usize, Failed> {
        let got = self.reader.read(buffer);
        if matches!(got, Ok(0))
            && !buffer.is_empty()
            && let Some(written) = self.written.take()
        {
            warn_of_change(&self.reader.0, written);
        }
        got
    }
}

// Warns that a file was written to since it was so, if it has the name of a FILE.
fn warn_of_change<R: Files + Clock + Eprint, I: Read + Drop>(
    input: &Explained<'_, '_, R, Either<BufReader<R::File>, I>>,
    written: Written,
) {
    if let (Some(named), Either::Left(file)) = (&input.named, &input.reader)
        && let Ok(metadata) = file.get_ref().metadata()
        && Written::of(&metadata) != written
    {
        named.warn_of_change();
    }
}

impl<R: Files + Clock + Eprint, I: Read + Drop> FileReader for FileInput<'_, '_, R, I> {
    fn read_on(&mut self, buffer: &mut [u8]) -> Result<usize, Failed> {
        self.reader.read(buffer)
    }

    fn again(&mut self) -> Result<(), Failed>
        ensures refused { self.old.can_repeat ≡ false → IsErr result }
        ensures same { self.new.can_repeat ≡ self.old.can_repeat }
    {
        if !self.can_repeat {
            return Err(Failed);
        }
        match &mut self.reader.0.reader {
            Either::Left(file) => match file.rewind() {
                Ok(()) => Ok(()),
                Err(_) => Err(Failed),
            },
            Either::Right(_) => Err(Failed),
        }
    }
}

/// One of two readers. Its bytes are counted in `progress`, if there is one.
#[derive(Drop)]
pub struct OneOf<'p, 'r, R: Clock + Eprint, A: Source + Drop, B: Source + Drop> {
    pub(crate) reader: Either<A, B>,
    pub(crate) progress: Option<&'p ProgressLine<'r, R>>,
}

impl<R: Clock + Eprint, A: Source + Drop, B: Source + Drop> Source for OneOf<'_, '_, R, A, B> {
    ghost left = { λ one. either A.left B.left one.reader };

    ghost failures = { λ one. either A.failures B.failures one.reader };

    fn read(&mut self, buffer: &mut [u8]) -> Result<usize, Failed> {
        let got = match &mut self.reader {
            Either::Left(reader) => reader.read(buffer),
            Either::Right(reader) => reader.read(buffer),
        };
        if let (Some(progress), Ok(bytes)) = (self.progress, &got) {
            progress.add(*bytes);
        }
        got
    }
}
