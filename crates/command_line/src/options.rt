//! What the commands take, a row for each option: its name, its possible values, and its line in the help.

use crate::given::MAX_WAIT;
use crate::rows::{Absent, Row, Takes};
use claim_core::{MAX_DEPTH, MAX_LANES, MAX_WINDOW, MAX_WORKERS};
use container_core::{MAX_EXPONENT, MAX_OPENED, MAX_PLAIN, MIN_EXPONENT};
use ledger_core::Device;

/// What every command takes that seals, opens or verifies.
pub(crate) static KEY_ROWS: [Row; 3] = [
    Row {
        name: "key",
        takes: Takes::Path { is_required: true },
        help: "The key file: 64 hex digits, then nothing or one end of line",
    },
    Row {
        name: "workers",
        takes: Takes::Number {
            least: 1,
            most: MAX_WORKERS,
            absent: Absent::Default("1"),
        },
        help: "Workers on one file or stream, side by side, 1 to 16, or auto:\n\
            as many as there are processors for the run",
    },
    Row {
        name: "verbose",
        takes: Takes::Nothing,
        help: "Print the cause of a fault, and warn of a key file that is open to\n\
            others; done anyway if standard error is a terminal",
    },
];

/// What every command over files takes in addition, besides the FILEs.
pub(crate) static FILE_ROWS: [Row; 4] = [
    Row {
        name: "files-from",
        takes: Takes::Path { is_required: false },
        help: "Read further FILEs from a list, one a line, after those of the command\n\
            line; - is standard input (not of audit)",
    },
    Row {
        name: "null",
        takes: Takes::NothingWithout("files-from"),
        help: "FILEs in the list of --files-from end with a NUL byte, not a line feed",
    },
    Row {
        name: "quote",
        takes: Takes::Nothing,
        help: "Print names with escapes for backslashes, control characters and marks of\n\
            direction, so that no name adds a line",
    },
    Row {
        name: "keep-going",
        takes: Takes::Nothing,
        help: "Some names that cannot be used (of the list: empty or not UTF-8) are\n\
            FILEs that failed, not faults of usage; implies --quote",
    },
];

/// What every command takes in addition that can show its progress.
pub(crate) static PROGRESS_ROWS: [Row; 1] = [Row {
    name: "progress",
    takes: Takes::Words {
        words: &["terminal", "always"],
        absent: "terminal",
    },
    help: "Show progress on standard error if that is a terminal,\n\
        or always",
}];

/// What `seal` and `open` take in addition, for their outputs.
pub(crate) static OUTPUT_ROWS: [Row; 5] = [
    Row {
        name: "into",
        takes: Takes::Folder,
        help: "Put the outputs into this folder, each under the base name of its FILE;\n\
            no two may be the same",
    },
    Row {
        name: "parents",
        takes: Takes::NothingWithout("into"),
        help: "Keep the folders of each FILE's path below the folder of --into, and make\n\
            them as needed",
    },
    Row {
        name: "skip-existing",
        takes: Takes::Nothing,
        help: "Skip each FILE if a regular file has its output's name: its line says\n\
            kept, not failed",
    },
    Row {
        name: "sync",
        takes: Takes::Nothing,
        help: "Sync each output and its folder before its line is printed",
    },
    Row {
        name: "private",
        takes: Takes::Nothing,
        help: "Create each output with the mode 0600 at most: for its owner only",
    },
];

/// What `open` and `verify` take in addition.
pub(crate) static OPEN_ROWS: [Row; 1] = [Row {
    name: "max-bytes",
    takes: Takes::Bytes {
        most: MAX_OPENED as i64,
        default: "1073741824",
    },
    help: "Refuse a FILE of more plaintext bytes,\n\
        0 to 4503599626321920, or max; N may end in K, M, G or T,\n\
        powers of 1024",
}];

/// What every command over containers takes in addition.
pub(crate) static LABEL_ROWS: [Row; 1] = [Row {
    name: "label",
    takes: Takes::Text,
    help: "Accept only FILEs with this label, 0 to 255 bytes of UTF-8;\n\
        without it any label passes",
}];

/// What `unpipe` takes in addition.
pub(crate) static UNPIPE_ROWS: [Row; 3] = [
    Row {
        name: "FILE",
        takes: Takes::OptionalFile,
        help: "The sealed file; if not given, or -, it is standard input",
    },
    Row {
        name: "max-bytes",
        takes: Takes::Bytes {
            most: MAX_OPENED as i64,
            default: "4503599626321920",
        },
        help: "Refuse more plaintext bytes,\n\
            0 to 4503599626321920, or max; N may end in K, M, G or T,\n\
            powers of 1024",
    },
    Row {
        name: "spool",
        takes: Takes::Folder,
        help: "The folder of the temporary file for sealed bytes, if a pipe has more\n\
            than 16 MiB; if not given TMPDIR, else /var/tmp",
    },
];

/// What only `open` takes in addition to these.
pub(crate) static TO_ROWS: [Row; 2] = [
    Row {
        name: "FILE",
        takes: Takes::FilesUnless("files-from"),
        help: "The files; their lines have this order, those kept first; - (standard input) needs --to",
    },
    Row {
        name: "to",
        takes: Takes::Name,
        help: "Write the plaintext to NAME; only with one FILE, and without --into,\n\
            --skip-existing and --files-from",
    },
];

/// What every command takes in addition that prints lines.
pub(crate) static JSON_ROWS: [Row; 1] = [Row {
    name: "json",
    takes: Takes::Nothing,
    help: "Print a JSON object in place of each line; unless the status is 2, a last\n\
        one has the totals",
}];

/// What every command over files takes in addition, to print less.
pub(crate) static QUIET_ROWS: [Row; 1] = [Row {
    name: "quiet",
    takes: Takes::Nothing,
    help: "Leave out the lines of FILEs that are well; print a last one with the\n\
        totals, unless the status is 2",
}];

/// What only `verify` takes in addition to these.
pub(crate) static SHOW_ROWS: [Row; 5] = [
    Row {
        name: "FILE",
        takes: Takes::FilesUnless("files-from"),
        help: "The files; their lines are printed in this order; - is standard input",
    },
    Row {
        name: "show",
        takes: Takes::Nothing,
        help: "After the line of a good FILE print its version, chunk size, device,\n\
            number and label",
    },
    Row {
        name: "against",
        takes: Takes::Path { is_required: false },
        help: "Compare the FILEs with the lines that seal printed, kept in this file:\n\
            outputs that are missing, have another number or are not listed",
    },
    Row {
        name: "into",
        takes: Takes::FolderWith("against"),
        help: "The lines of --against are of outputs in this folder, as --into of seal\n\
            put them there",
    },
    Row {
        name: "parents",
        takes: Takes::NothingWithout("into"),
        help: "The outputs have the folders of their FILEs' paths below that of --into,\n\
            as with --parents of seal",
    },
];

/// What only `show` takes in addition.
pub(crate) static LOOK_ROWS: [Row; 1] = [Row {
    name: "FILE",
    takes: Takes::FilesUnless("files-from"),
    help: "The sealed files, all of them regular; their lines are printed in this order",
}];

/// What every command takes in addition that can compare something with containers.
pub(crate) static AGAINST_ROWS: [Row; 2] = [
    Row {
        name: "FILE",
        takes: Takes::OptionalFiles,
        help: "The sealed files of --against, all of them regular",
    },
    Row {
        name: "against",
        takes: Takes::Nothing,
        help: "Compare with the headers of the FILEs, which are read without a key and\n\
            not checked",
    },
];

/// What every command takes in addition that only looks at headers.
pub(crate) static CAUSE_ROWS: [Row; 1] = [Row {
    name: "verbose",
    takes: Takes::Nothing,
    help: "Print the cause of a fault, of a FILE too; done anyway if standard error\n\
        is a terminal",
}];

/// What the command takes that prints the contents of a ledger file.
pub(crate) static HOLDINGS_ROWS: [Row; 2] = [
    Row {
        name: "ledger",
        takes: Takes::Path { is_required: true },
        help: "The ledger file; it is not changed",
    },
    Row {
        name: "key",
        takes: Takes::Path { is_required: false },
        help: "Print the lines of the key in this file alone, or its ID if there are none",
    },
];

/// What a command that seals takes in addition: its numbers.
pub(crate) static LEDGER_ROWS: [Row; 6] = [
    Row {
        name: "ledger",
        takes: Takes::Path { is_required: true },
        help: "The ledger file, created if there is none",
    },
    Row {
        name: "no-new-ledger",
        takes: Takes::Nothing,
        help: "Create no ledger file: for every run but the first",
    },
    Row {
        name: "wait",
        takes: Takes::Number {
            least: 0,
            most: MAX_WAIT,
            absent: Absent::Default("0"),
        },
        help: "If another run holds the ledger, try again for so many seconds,\n\
            0 to 86400",
    },
    Row {
        name: "device",
        takes: Takes::Number {
            least: 0,
            most: Device::MAX,
            absent: Absent::Fault,
        },
        help: "The number of this ledger under this key, 0 to 16777215:\n\
            no two ledgers share one",
    },
    Row {
        name: "witness",
        takes: Takes::Path { is_required: false },
        help: "A small file, best on another volume, that sees each run: a ledger older\n\
            than it saw, or another file, is refused",
    },
    Row {
        name: "new-witness",
        takes: Takes::NothingWithout("witness"),
        help: "Make the witness, add this key and device, or let it take a ledger that\n\
            was moved for its own",
    },
];

/// What `seal` takes in addition.
pub(crate) static SEAL_ROWS: [Row; 4] = [
    Row {
        name: "FILE",
        takes: Takes::FilesUnless("files-from"),
        help: "The files; their lines are printed in this order, those kept first",
    },
    Row {
        name: "max-bytes",
        takes: Takes::Bytes {
            most: MAX_PLAIN as i64,
            default: "1073741824",
        },
        help: "Refuse a FILE of more plaintext bytes,\n\
            0 to 1099511627776, or max; N may end in K, M, G or T,\n\
            powers of 1024",
    },
    Row {
        name: "lanes",
        takes: Takes::Number {
            least: 1,
            most: MAX_LANES,
            absent: Absent::Default("1"),
        },
        help: "Files sealed side by side at most, 1 to 16, or auto;\n\
            above 1 only with one worker",
    },
    Row {
        name: "window",
        takes: Takes::Number {
            least: 1,
            most: MAX_WINDOW,
            absent: Absent::Nothing,
        },
        help: "Chunks sealed at a time, 1 to 256; if not given, those of 1 MiB, with one\n\
            worker at most 16, else at least one each; no effect with several lanes",
    },
];

/// What `pipe` takes in addition.
pub(crate) static PIPE_ROWS: [Row; 2] = [
    Row {
        name: "depth",
        takes: Takes::Number {
            least: 1,
            most: MAX_DEPTH,
            absent: Absent::Default("16"),
        },
        help: "At most this many chunks are read and not yet written,\n\
            1 to 64",
    },
    Row {
        name: "max-chunks",
        takes: Takes::Number {
            least: 1,
            most: u32::MAX,
            absent: Absent::Default("16384"),
        },
        help: "Refuse a stream of more chunks, once the next one begins,\n\
            1 to 4294967295, or max; N may end in K, M or G,\n\
            powers of 1024",
    },
];

/// What every command takes in addition that writes to standard output what it makes.
pub(crate) static TERMINAL_ROWS: [Row; 1] = [Row {
    name: "force-terminal",
    takes: Takes::Nothing,
    help: "Write to standard output even if it is a terminal",
}];

/// What a command that seals takes in addition: the containers' shape, and the journal.
pub(crate) static SHAPE_ROWS: [Row; 4] = [
    Row {
        name: "exponent",
        takes: Takes::Number {
            least: MIN_EXPONENT,
            most: MAX_EXPONENT,
            absent: Absent::Nothing,
        },
        help: "Version 2, with chunks of 2^N bytes, 12 to 20; with --label alone 16",
    },
    Row {
        name: "label",
        takes: Takes::Text,
        help: "Version 2, with this label, which is not secret: 0 to 255 bytes of UTF-8;\n\
            with --exponent alone empty",
    },
    Row {
        name: "journal",
        takes: Takes::Path { is_required: false },
        help: "A new file for the run's journal",
    },
    Row {
        name: "journal-in",
        takes: Takes::Folder,
        help: "Put the run's journal into this folder, under a new name:\n\
            device-DEVICE-SECOND-COUNT.journal; not with --journal",
    },
];
