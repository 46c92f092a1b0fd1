//! A row: what the parser and the help are told of an option, and the argument that it becomes.

use clap::{Arg, ArgAction, Command, Error, value_parser};
use std::alloc::Global;

/// What an option takes.
pub(crate) enum Takes {
    /// A path.
    Path {
        is_required: bool,
    },
    /// The path of an output. It is optional.
    Name,
    /// The path of a folder. It is optional.
    Folder,
    /// The path of a folder. It may be given only with this other option.
    FolderWith(&'static str),
    /// A text. It is optional.
    Text,
    /// A number in a range, and its value if none is given.
    Number {
        least: u32,
        most: u32,
        absent: Absent,
    },
    /// A number of bytes up to `most`, and the default.
    Bytes {
        most: i64,
        default: &'static str,
    },
    /// Nothing, or one of these words after `=`. `absent` is the word if nothing is given there.
    Words {
        words: &'static [&'static str],
        absent: &'static str,
    },
    /// Nothing: it is given or not.
    Nothing,
    /// Nothing. It may be given only with this other option.
    NothingWithout(&'static str),
    /// The files of a command, at least one unless this option is given. Its name is no option's.
    FilesUnless(&'static str),
    /// The files of a command, which may be none. Its name is no option's.
    OptionalFiles,
    /// The only file of a command. It is optional, and its name is no option's.
    OptionalFile,
}

/// The value of a number that isn't given.
pub(crate) enum Absent {
    /// This number.
    Default(&'static str),
    /// Nothing: its absence has a meaning.
    Nothing,
    /// It has to be given.
    Fault,
}

/// An option of a command, or its files.
pub(crate) struct Row {
    pub(crate) name: &'static str,
    pub(crate) takes: Takes,
    pub(crate) help: &'static str,
}

// A number in a range, with its value if none is given.
fn number_arg<'a>(arg: Arg<'a>, least: u32, most: u32, absent: &Absent) -> Arg<'a> {
    let range = i64::from(least)..=i64::from(most);
    let arg = arg.value_parser(value_parser!(u32).range(range));
    match absent {
        Absent::Default(text) => arg.default_value(text),
        Absent::Nothing => arg,
        Absent::Fault => arg.required(true),
    }
}

// The files of a command.
fn files<'a>(arg: Arg<'a>, list: &'static str) -> Result<Arg<'a>, Error> {
    Ok(
        arg.num_args(1..)
            .action(ArgAction::Append)
            .required_unless_present(list)?,
    )
}

// An option that is given or not.
fn flag<'a>(arg: Arg<'a>, name: &'static str) -> Arg<'a> {
    arg.long(name).action(ArgAction::SetTrue)
}

// An option with a value, and the value's name in the help.
fn valued<'a>(arg: Arg<'a>, name: &'static str, value: &'static str) -> Arg<'a> {
    arg.long(name).value_name(value)
}

// Nothing, or one of these words.
fn with_words<'a>(arg: Arg<'a>, words: &'static [&'static str], absent: &'static str) -> Arg<'a> {
    arg.num_args(0..=1)
        .require_equals(true)
        .value_parser(&*words)
        .default_missing_value(absent)
}

// A number of bytes up to `most`, and the default.
fn bytes<'a>(arg: Arg<'a>, most: i64, default: &'static str) -> Arg<'a> {
    arg.value_parser(value_parser!(u64).range(0..=most))
        .default_value(default)
}

// The argument of a row.
fn arg_of<'a>(alloc: Global, row: &Row) -> Result<Arg<'a>, Error> {
    let arg = Arg::new(alloc, row.name).help(row.help);
    let arg = match &row.takes {
        Takes::FilesUnless(list) => files(arg, list)?,
        Takes::OptionalFiles => arg.num_args(1..).action(ArgAction::Append),
        Takes::OptionalFile => arg,
        Takes::Nothing => flag(arg, row.name),
        Takes::NothingWithout(other) => flag(arg, row.name).requires_arg(other)?,
        Takes::Path { is_required } => valued(arg, row.name, "F").required(*is_required),
        Takes::Name => valued(arg, row.name, "NAME"),
        Takes::Words { words, absent } => with_words(valued(arg, row.name, "WHEN"), words, absent),
        Takes::Folder => valued(arg, row.name, "DIR"),
        Takes::FolderWith(other) => valued(arg, row.name, "DIR").requires_arg(other)?,
        Takes::Text => valued(arg, row.name, "TEXT"),
        Takes::Number {
            least,
            most,
            absent,
        } => number_arg(valued(arg, row.name, "N"), *least, *most, absent),
        Takes::Bytes { most, default } => bytes(valued(arg, row.name, "N"), *most, default),
    };
    Ok(arg)
}

/// Returns the command with the arguments of the rows.
pub(crate) fn with_rows<'a>(
    alloc: Global,
    command: Command<'a>,
    rows: &[Row],
) -> Result<Command<'a>, Error> {
    let mut command = command;
    for row in rows {
        let longer = command.arg(arg_of(alloc, row)?)?;
        command = longer;
    }
    Ok(command)
}
