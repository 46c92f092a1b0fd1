//! Why the words of a command are a fault of usage, although its parser accepted them.
use thiserror::Error as ThisError;

/// Why the words of a command are a fault of usage, although its parser accepted them.
#[derive(Clone, Copy, PartialEq, Eq, Debug, ThisError)]
pub enum UsageFault {
    /// Never: the parser accepts no words without these arguments.
    #[error("an argument is missing")]
    Missing,
    /// Never: the parser accepts no number out of its range.
    #[error("a number is out of range")]
    OutOfRange,
    /// More than one lane, and more than one worker.
    #[error("lanes and workers cannot both be above 1")]
    LanesAndWorkers,
    /// A journal at a path, and one in a folder.
    #[error("--journal excludes --journal-in")]
    TwoJournals,
    /// A name for the output, and several files.
    #[error("--to takes one file")]
    ToForMany,
    /// A name for the output, and an option for several files.
    #[error("--to excludes --into, --skip-existing and --files-from")]
    ToAndOthers,
    /// The name for the output is empty, or `-`, which elsewhere is a stream.
    #[error("--to names no file")]
    ToNoFile,
    /// Standard input is to be opened, and its output has no name.
    #[error("- needs --to")]
    InputNeedsName,
    /// Standard input is to be two files, or a file and the list.
    #[error("standard input can be read only once")]
    InputTwice,
    /// The folder for the spool of standard input isn't there. The program reports it; no request does.
    #[error("the folder of the spool is missing")]
    NoSpoolFolder,
    /// A label of more than 255 bytes.
    #[error("label too long")]
    LabelTooLong,
    /// There are no files on the command line or in the list.
    #[error("no files")]
    NoFiles,
    /// Files, or a list of them, and no option that says what for.
    #[error("FILEs need --against")]
    FilesAlone,
    /// The list of the files and the journal are both to be standard input.
    #[error("standard input is the journal")]
    InputIsJournal,
    /// A name in the list of files is empty.
    #[error("a name in the list is empty")]
    EmptyName,
    /// The list of files isn't UTF-8.
    #[error("the list is no text")]
    ListNoText,
    /// The list of files can't be read. The program reports it; no request does.
    #[error("cannot read the list")]
    CannotReadList,
    /// Memory was refused for the names.
    #[error("out of memory")]
    OutOfMemory,
    /// A container would be written to a terminal, and that wasn't asked for. The program reports it; no request does.
    #[error("standard output is a terminal")]
    Terminal,
}
