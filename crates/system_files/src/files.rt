//! The file system as a folder.
ghost use Rattle.std.specs.Prelude.{◌≡◌, true, false};

use crate::cause::Cause;
use crate::folders::{NewFolders, PRIVATE_FOLDER, SHARED_FOLDER, take_way};
use crate::input::{FileInput, OneOf, OpenedFile, open_known};
use crate::names::{Names, Target, path_of, path_shown};
use crate::outputs::{self, NewOutputs, OutputFile, PRIVATE, SHARED};
use crate::own::{
    FileId, KeptOut, OwnFiles, OwnPaths, STANDARD_INPUT, STANDARD_OUTPUT, regular_at,
};
use crate::progress::{Named, ProgressLine, explain_file};
use crate::spool::FileSpool;
use either::Either;
use folder_core::{FileReader, Folder, FolderFault, Spooled};
use io_core::{Failed, ToWrite};
use std::alloc::Global;
use std::fs::File;
use std::io::Read;
use std::marker::Brand;
use std::rt::{Clock, Files};

/// The name of standard input.
pub const STREAM: &str = "-";

// Most bytes of a file that isn't read again where there is no spool: a container of 64 KiB in chunks of any size has fewer.
const SHORT: u64 = 65 << 10;

/// What a run asks of the files of the system.
#[derive(Clone, Copy)]
pub struct FileOptions<'a> {
    /// How the names of files that are opened denote their paths.
    pub names: Names,
    /// How the names of outputs do.
    pub outputs: Names,
    /// Where outputs go.
    pub target: Target<'a>,
    /// Whether `finish` syncs an output and its name to the disk.
    pub sync: bool,
    /// Whether outputs are created for their owner only.
    pub private: bool,
    /// The paths of the run's own files, if it has some: they can't be opened, by any name. They are looked up when the
    /// first file is opened.
    pub own: Option<OwnPaths<'a>>,
    /// Whether the regular file that standard output is can't be opened: a run that appends to its input would damage
    /// it.
    pub refuses_output: bool,
    /// Whether files are to be read again. Without a spool a short one isn't: its plaintext is in memory until all of it
    /// was checked, which costs less than a second reading.
    pub reads_again: bool,
    /// Whether standard input is opened by its path, as a file is: `can_reopen_input`. Else it is read as a stream.
    pub reopens_input: bool,
    /// The folder for the file of a spool. It keeps what can be read only once, while that is read, so that it can be
    /// read again.
    pub spool: Option<&'a str>,
    /// Whether it is printed on standard error why a FILE can't be opened, read or kept, or its output not be made.
    pub causes: bool,
    /// Whether, with `causes`, a FILE that changes while it is read is warned of.
    pub warns_of_changes: bool,
}

/// The files of the system, by their paths. A relative path begins at the current directory.
#[derive(Drop)]
pub struct SystemFiles<'p, 'r, R: Files + AllocGlobal + Clock + Eprint, I: Read + Drop> {
    /// The runtime that opens them.
    pub rt: &'r R,
    /// Where outputs go.
    pub target: Target<'r>,
    /// Whether `finish` syncs an output and its name to the disk.
    pub sync: bool,
    /// The mode with which outputs are created. The system takes away what the umask has.
    pub mode: u32,
    /// Counts the bytes read of files. `None` if no progress line was asked for.
    pub progress: Option<&'p ProgressLine<'r, R>>,
    /// Whether causes of faults of FILEs are printed.
    pub causes: bool,
    warns_of_changes: bool,
    // The name of the FILE that was opened last, if causes are printed.
    file: Option<String>,
    // How outputs are made.
    new_outputs: NewOutputs,
    // The output in hand, if one is.
    pub(crate) in_hand: Option<ToWrite<OutputFile<R::File>>>,
    // How folders below the target's are made.
    new_folders: NewFolders,
    // How names of files, and of outputs, denote paths.
    names: Names,
    output_names: Names,
    // Whether `-` is standard input, which is taken when it is opened as a stream.
    has_input: bool,
    input: Option<I>,
    reopens_input: bool,
    reads_again: bool,
    spool: Option<&'r str>,
    // The regular file that standard output is, if it can't be opened.
    output: Option<FileId>,
    // The file that was kept out later.
    kept_out: KeptOut,
    // The paths of the run's own files, and these files, once they were looked up.
    own_paths: Option<OwnPaths<'r>>,
    own: Option<OwnFiles>,
}

impl<'p, 'r, R: Files + AllocGlobal + Clock + Eprint, I: Read + Drop> SystemFiles<'p, 'r, R, I> {
    /// The files of the system, for one run. With an `input`, a file of the name `-` is that.
    pub fn new(
        rt: &'r R,
        input: Option<I>,
        progress: Option<&'p ProgressLine<'r, R>>,
        options: FileOptions<'r>,
    ) -> SystemFiles<'p, 'r, R, I>
        ensures sync { result.sync ≡ options.entry.sync }
        ensures private { options.entry.private ≡ true → result.mode ≡ PRIVATE }
        ensures shared { options.entry.private ≡ false → result.mode ≡ SHARED }
        ensures causes { result.causes ≡ options.entry.causes }
    {
        SystemFiles {
            rt,
            target: options.target,
            sync: options.sync,
            mode: if options.private { PRIVATE } else { SHARED },
            progress,
            causes: options.causes,
            warns_of_changes: options.warns_of_changes,
            file: None,
            new_outputs: NewOutputs::new(rt),
            in_hand: None,
            new_folders: NewFolders {
                mode: if options.private {
                    PRIVATE_FOLDER
                } else {
                    SHARED_FOLDER
                },
                sync: options.sync,
            },
            names: options.names,
            output_names: options.outputs,
            has_input: input.is_some(),
            input,
            reopens_input: options.reopens_input,
            reads_again: options.reads_again,
            spool: options.spool,
            output: if options.refuses_output {
                regular_at(rt, STANDARD_OUTPUT)
            } else {
                None
            },
            kept_out: KeptOut::Nothing,
            own_paths: options.own,
            own: None,
        }
    }

    /// Refuses the regular file at this path from now on, as one of the run's own. If it can't be looked up, every file is
    /// refused.
    pub fn keep_out(&mut self, path: &str) {
        self.kept_out = KeptOut::at(self.rt, path);
    }

    // What reads the file of this name, or standard input.
    fn reader_at(&mut self, name: &str) -> Result<SystemReader<'p, 'r, R, I>, Cause> {
        let is_input = self.has_input && name == STREAM;
        if is_input && !self.reopens_input {
            return self.open_stream(name);
        }
        let opened = match self.open_file(is_input, name) {
            Ok(opened) => opened,
            Err(cause) => return Err(cause),
        };
        if let Some(cause) = self.why_own(opened.id) {
            return Err(cause);
        }
        let named = self.named(name);
        let is_held = self.spool.is_none() && is_short(opened.length);
        match FileInput::of_file(
            self.rt.alloc(),
            opened,
            self.reads_again && !is_held,
            self.warns_of_changes,
            named,
        ) {
            Ok(input) => Ok(self.reader_of(input)),
            Err(cause) => Err(cause),
        }
    }

    // What reads standard input as a stream. It is refused if it is the regular file that can't be opened.
    fn open_stream(&mut self, name: &str) -> Result<SystemReader<'p, 'r, R, I>, Cause> {
        if self.output.is_some() && regular_at(self.rt, STANDARD_INPUT) == self.output {
            return Err(Cause::OwnFile);
        }
        match self.input.take() {
            Some(input) => {
                let named = self.named(name);
                Ok(self.reader_of(FileInput::of_input(input, named)))
            }
            None => Err(Cause::Input),
        }
    }

    // This name with where causes are printed, if they are. `None` also if memory is refused.
    fn named(&self, name: &str) -> Option<Named<'p, 'r, R>> {
        Some(Named {
            rt: self.rt,
            progress: self.progress,
            name: self.copied(name)?,
        })
    }

    // This name, if causes are printed. `None` also if memory is refused.
    fn copied(&self, name: &str) -> Option<String> {
        if !self.causes {
            return None;
        }
        String::from_str(self.rt.alloc(), name).ok()
    }

    // Prints why the FILE of this name failed, if causes are printed.
    fn explain(&self, name: &str, cause: Cause) {
        if self.causes {
            explain_file(self.rt, self.progress, name, cause);
        }
    }

    // Opens the file of this name, or standard input by its path.
    fn open_file(&self, is_input: bool, name: &str) -> Result<OpenedFile<R::File>, Cause> {
        if is_input {
            return open_known(self.rt, STANDARD_INPUT);
        }
        if self.names == Names::Plain {
            return open_known(self.rt, name);
        }
        match path_shown(self.rt.alloc(), name) {
            Some(path) => open_known(self.rt, path.as_str()),
            None => Err(Cause::NoText),
        }
    }

    // What reads this input.
    fn reader_of(&self, input: FileInput<'p, 'r, R, I>) -> SystemReader<'p, 'r, R, I> {
        let reader = match self.spool {
            Some(folder) if !input.can_repeat => {
                let spool = FileSpool::new(self.rt, folder);
                Either::Right(Spooled::of(input, spool))
            }
            _ => Either::Left(input),
        };
        OneOf {
            reader,
            progress: self.progress,
        }
    }

    // Why a file can't be opened, if it is one of the run's own. If that can't be found out, it counts as one.
    fn why_own(&mut self, file: FileId) -> Option<Cause> {
        if self.output == Some(file) || self.kept_out.has(file) {
            return Some(Cause::OwnFile);
        }
        let Some(paths) = self.own_paths else {
            return None;
        };
        let own = match self.own {
            Some(own) => own,
            None => match OwnFiles::at(self.rt, &paths) {
                Ok(own) => own,
                Err(_) => return Some(Cause::OwnFile),
            },
        };
        self.own = Some(own);
        if own.has(file) {
            Some(Cause::OwnFile)
        } else {
            None
        }
    }

    // Creates an output of this name. `file` is the name of its FILE, if causes are printed.
    fn new_output(
        &mut self,
        name: &str,
        file: &mut Option<String>,
    ) -> Result<OutputFile<R::File>, Cause> {
        let Some(path) = path_of(self.rt.alloc(), self.output_names, self.target, name) else {
            return Err(Cause::NoOutputName);
        };
        take_way(self.rt, self.target, path.as_str(), Some(self.new_folders))?;
        let (sync, mode) = (self.sync, self.mode);
        self.new_outputs.create(self.rt, path, sync, mode, file)
    }

    // Gives an output up, and tries to remove it. Why is printed, if it couldn't be written or finished and causes are.
    pub(crate) fn give_up_output(&self, output: OutputFile<R::File>) -> Result<(), Failed> {
        if let Some((name, cause)) = output.why() {
            explain_file(self.rt, self.progress, name, cause);
        }
        outputs::discard(self.rt, output)
    }
}

// Whether a file of this length is read once where there is no spool.
fn is_short(length: Option<u64>) -> bool {
    match length {
        Some(bytes) => bytes <= SHORT,
        None => false,
    }
}

/// Opens files in place of closed standard streams. No file opened later then takes a stream's number and gets the
/// bytes meant for the stream.
pub fn stand_ins<R: Files>(rt: &R) -> [Option<R::File>; 3] {
    [stand_in(rt), stand_in(rt), stand_in(rt)]
}

// A directory, opened for reading: reads and writes fail, as on a closed stream. It is the current directory if the
// root may not be read.
fn stand_in<R: Files>(rt: &R) -> Option<R::File> {
    match File::open(rt, "/") {
        Ok(file) => Some(file),
        Err(_) => File::open(rt, ".").ok(),
    }
}

/// Opens a file for reading. A directory is refused.
pub fn open_unbuffered<R: Files>(rt: &R, name: &str) -> Result<R::File, Failed> {
    match open_known(rt, name) {
        Ok(opened) => Ok(opened.file),
        Err(_) => Err(Failed),
    }
}

/// What reads a file of the system: the file, or what was kept of it. Its bytes count in the progress line.
pub type SystemReader<'p, 'r, R, I> = OneOf<
    'p,
    'r,
    R,
    FileInput<'p, 'r, R, I>,
    Spooled<FileInput<'p, 'r, R, I>, FileSpool<'r, R>, Brand>,
>;

impl<'p, 'r, R: Files + AllocGlobal + Clock + Eprint, I: Read + Drop> Folder
    for SystemFiles<'p, 'r, R, I> {
    type Reader = SystemReader<'p, 'r, R, I>;

    fn open(&mut self, name: &str) -> Result<Self::Reader, Failed> {
        match self.reader_at(name) {
            Ok(reader) => {
                self.file = self.copied(name);
                Ok(reader)
            }
            Err(cause) => {
                self.explain(name, cause);
                Err(Failed)
            }
        }
    }

    // That of a regular file, when it was opened.
    fn length(&self, reader: &Self::Reader) -> Option<u64> {
        match &reader.reader {
            Either::Left(input) => input.length,
            Either::Right(_) => None,
        }
    }

    fn can_repeat(&self, reader: &Self::Reader) -> bool {
        match &reader.reader {
            Either::Left(input) => input.can_repeat,
            Either::Right(_) => true,
        }
    }

    fn again(&mut self, name: &str, reader: &mut Self::Reader) -> Result<(), Failed> {
        match &mut reader.reader {
            Either::Left(input) => input.again(),
            Either::Right(spooled) => {
                let again = spooled.again();
                if let Some(cause) = spooled.spool.cause {
                    self.explain(name, cause);
                }
                again
            }
        }
    }

    fn close(&mut self, _name: &str, _reader: Self::Reader) {}

    fn create(&mut self, name: &str) -> Result<Self::Handle, FolderFault> {
        let mut file = self.file.take();
        match self.new_output(name, &mut file) {
            Ok(output) => Ok(output),
            Err(cause) => {
                if let Some(name) = &file {
                    self.explain(name.as_str(), cause);
                }
                Err(cause.fault())
            }
        }
    }

    fn abandon(&mut self, output: Self::Handle) -> Result<(), Failed> {
        self.give_up_output(output)
    }
}
