//! The commands, with the texts of their help.
use crate::options::{
    AGAINST_ROWS, CAUSE_ROWS, FILE_ROWS, HOLDINGS_ROWS, JSON_ROWS, KEY_ROWS, LABEL_ROWS,
    LEDGER_ROWS, LOOK_ROWS, OPEN_ROWS, OUTPUT_ROWS, PIPE_ROWS, PROGRESS_ROWS, QUIET_ROWS,
    SEAL_ROWS, SHAPE_ROWS, SHOW_ROWS, TERMINAL_ROWS, TO_ROWS, UNPIPE_ROWS,
};
use crate::rows::with_rows;
use crate::version::VERSION;
use clap::{Command, Error};
use std::alloc::Global;

/// The end of the program's help.
const SEALER_HELP: &str =
    "Exit status: 0 if all is well, 1 if some FILE failed, the journal is not legal or --against found
something, 2 at any other fault. COMMAND --help shows its options and what it prints.";

/// The end of the help of `open` and `verify`.
const FILES_HELP: &str =
    "Prints a line for each FILE. Exit status: 0 if none failed, 1 if some did or --against of verify
found something, 2 if nothing was done, or a line could not be written. Takes some megabytes of
memory; open reads each regular FILE of more than 65 KiB twice, and holds the plaintext of any other
in memory. To standard output: sealer unpipe";

/// The end of the help of `seal`.
const SEAL_HELP: &str =
    "Prints a line for each FILE. Exit status: 0 if none failed, 1 if some did, 2 if standard error
says why, or a line could not be written. With several lanes whole FILEs are held in memory. A run
seals at most 65535.

Make a key by `openssl rand -hex 32`. Back up the key and the sealed files. Keep one ledger file for
each key and device number, and never use a copy or a restored one. If it was lost or rolled back,
take a new device number or a new key: else two files can get one number, and neither is safe.";

/// The end of the help of `pipe`.
const PIPE_HELP: &str =
    "Standard input is sealed as it comes, in the memory of --depth chunks, and its container written
to standard output. Prints its line on standard error. Exit status: 0 if the stream was sealed, 1 if
not, and then the output is truncated, 2 if standard error says why, or the line could not be
written. unpipe opens the container, and open too, like a FILE.stm.

As for seal: never use a copy of a ledger file, nor a restored one.";

/// The end of the help of `unpipe`.
const UNPIPE_HELP: &str =
    "Plaintext is written only after every chunk was checked. FILE is read twice, if it is a regular
file. Prints its line on standard error. Exit status: 0 if all plaintext was written, 1 if not, 2 if
standard error says why, or the line could not be written.";

/// The end of the help of `show`.
const SHOW_HELP: &str =
    "Prints a line for each FILE: version, chunk size, the first bytes of its key's SHA-256, device,
number, plaintext bytes by its length, label. No key is needed; at most 280 bytes of FILE are read.
So anybody can have written what is shown; verify checks it. Exit status: 0 if none failed, 1 if
some did, 2 if standard error says why, or a line could not be written.";

/// The end of the help of `audit`.
const AUDIT_HELP: &str =
    "With --against, if the journal is legal, it also prints a line for each FILE whose device and number
the journal has not as sealed, each number sealed that no FILE has, and each FILE that failed. Exit
status: 0 if the journal is legal and no such line was printed, 1 if not, 2 if it could not be read,
or a line not be written.";

/// The end of the help of `ledger`.
const LEDGER_HELP: &str =
    "Prints a line for each key, by the first bytes of its SHA-256, and device: ranges, numbers given,
numbers left. With --against it also prints a line for each FILE that the ledger is older than: of a
key and device of the ledger, with a number that it has not given. Exit status: 0 if all lines were
printed, 1 if the ledger is older than a FILE or a FILE failed, 2 if standard error says why not.";

/// The program's command: `seal`, `pipe`, `unpipe`, `open`, `verify`, `show`, `audit` and `ledger`.
pub fn command<'a>(alloc: Global) -> Result<Command<'a>, Error> {
    let sealer = Command::new(alloc, "sealer")
        .version(VERSION)
        .about("Seals, opens and verifies many files under one key, each under a number of its own")
        .after_help(SEALER_HELP)
        .subcommand_required(true);
    let sealer = with_command(Ok(sealer), seal_command(alloc));
    let sealer = with_command(sealer, pipe_command(alloc));
    let sealer = with_command(sealer, unpipe_command(alloc));
    let sealer = with_command(sealer, opening_command(alloc));
    let sealer = with_command(sealer, verifying_command(alloc));
    let sealer = with_command(sealer, show_command(alloc));
    let sealer = with_command(sealer, audit_command(alloc));
    with_command(sealer, ledger_command(alloc))
}

// Adds a subcommand to a command. It takes results, so that `command` ends in one place.
fn with_command<'a>(
    command: Result<Command<'a>, Error>,
    below: Result<Command<'a>, Error>,
) -> Result<Command<'a>, Error> {
    Ok(command?.subcommand(below?)?)
}

fn opening_command<'a>(alloc: Global) -> Result<Command<'a>, Error> {
    let about = "Checks each FILE whole, then writes its plaintext to the name without .stm \
        or that of --to";
    let command = with_rows(alloc, open_command(alloc, "open", about)?, &TO_ROWS)?;
    with_rows(alloc, command, &OUTPUT_ROWS)
}

fn verifying_command<'a>(alloc: Global) -> Result<Command<'a>, Error> {
    let about = "Checks each FILE whole and writes no file";
    with_rows(alloc, open_command(alloc, "verify", about)?, &SHOW_ROWS)
}

fn show_command<'a>(alloc: Global) -> Result<Command<'a>, Error> {
    let command = Command::new(alloc, "show")
        .about("Prints what the header of each FILE says, without a key, unchecked")
        .after_help(SHOW_HELP);
    let command = with_rows(alloc, command, &CAUSE_ROWS)?;
    let command = with_rows(alloc, command, &JSON_ROWS)?;
    let command = with_rows(alloc, command, &LOOK_ROWS)?;
    with_rows(alloc, command, &FILE_ROWS)
}

fn audit_command<'a>(alloc: Global) -> Result<Command<'a>, Error> {
    let command = Command::new(alloc, "audit")
        .about("Audits the journal on standard input and prints the verdict")
        .after_help(AUDIT_HELP);
    let command = with_rows(alloc, command, &CAUSE_ROWS)?;
    let command = with_rows(alloc, command, &JSON_ROWS)?;
    let command = with_rows(alloc, command, &AGAINST_ROWS)?;
    with_rows(alloc, command, &FILE_ROWS)
}

fn ledger_command<'a>(alloc: Global) -> Result<Command<'a>, Error> {
    let command = Command::new(alloc, "ledger")
        .about("Prints what a ledger file holds, and changes nothing")
        .after_help(LEDGER_HELP);
    let command = with_rows(alloc, command, &HOLDINGS_ROWS)?;
    let command = with_rows(alloc, command, &CAUSE_ROWS)?;
    let command = with_rows(alloc, command, &JSON_ROWS)?;
    let command = with_rows(alloc, command, &AGAINST_ROWS)?;
    with_rows(alloc, command, &FILE_ROWS)
}

// A command that takes a key.
fn key_command<'a>(alloc: Global, name: &'a str, about: &'a str) -> Result<Command<'a>, Error> {
    let command = with_rows(alloc, Command::new(alloc, name).about(about), &KEY_ROWS)?;
    with_rows(alloc, command, &JSON_ROWS)
}

// A command over files.
fn file_command<'a>(alloc: Global, name: &'a str, about: &'a str) -> Result<Command<'a>, Error> {
    let command = with_rows(alloc, key_command(alloc, name, about)?, &FILE_ROWS)?;
    let command = with_rows(alloc, command, &QUIET_ROWS)?;
    with_rows(alloc, command, &PROGRESS_ROWS)
}

// A command over sealed files.
fn open_command<'a>(alloc: Global, name: &'a str, about: &'a str) -> Result<Command<'a>, Error> {
    let command = file_command(alloc, name, about)?;
    let command = with_rows(alloc, command.after_help(FILES_HELP), &OPEN_ROWS)?;
    with_rows(alloc, command, &LABEL_ROWS)
}

fn seal_command<'a>(alloc: Global) -> Result<Command<'a>, Error> {
    let command = file_command(
        alloc,
        "seal",
        "Seals each FILE to FILE.stm, each under a number of its own",
    )?;
    let command = with_rows(alloc, command.after_help(SEAL_HELP), &LEDGER_ROWS)?;
    let command = with_rows(alloc, command, &SEAL_ROWS)?;
    let command = with_rows(alloc, command, &OUTPUT_ROWS)?;
    with_rows(alloc, command, &SHAPE_ROWS)
}

fn pipe_command<'a>(alloc: Global) -> Result<Command<'a>, Error> {
    let command = key_command(
        alloc,
        "pipe",
        "Seals standard input to standard output, a stream of any length, \
            under a number of its own",
    )?;
    let command = with_rows(alloc, command.after_help(PIPE_HELP), &LEDGER_ROWS)?;
    let command = with_rows(alloc, command, &PIPE_ROWS)?;
    let command = with_rows(alloc, command, &TERMINAL_ROWS)?;
    with_rows(alloc, command, &SHAPE_ROWS)
}

fn unpipe_command<'a>(alloc: Global) -> Result<Command<'a>, Error> {
    let command = key_command(
        alloc,
        "unpipe",
        "Checks a sealed stream or FILE whole, then writes its plaintext to standard output",
    )?;
    let command = with_rows(alloc, command.after_help(UNPIPE_HELP), &PROGRESS_ROWS)?;
    let command = with_rows(alloc, command, &UNPIPE_ROWS)?;
    let command = with_rows(alloc, command, &LABEL_ROWS)?;
    with_rows(alloc, command, &TERMINAL_ROWS)
}
