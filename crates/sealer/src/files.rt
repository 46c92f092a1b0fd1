//! What a run needs before its files: the key, the list of their names, where its lines go, and its progress.
ghost use Rattle.std.specs.Prelude.{◌<◌, ◌≡◌, ◌++◌, ℕ, IfErr, IfOk, IfSome, List, map, option_map, string_bytes};
ghost use Rattle.std.specs.Prelude.{unwrap_or};
ghost use Rattle.command_line.specs.Asked.{IsNaming};
ghost use Rattle.command_line.specs.Given.{files_given};
ghost use Rattle.command_line.specs.Names.{ArePieces, IsListed};
ghost use Rattle.folder_core.specs.Quotes.{quoted};
ghost use Rattle.sealer.specs.Names.{IsListText, IsListedBy, named_by};

use crate::telling::{refuse_list, tell_bad};
use crate::{FAULT, Streams, Terminals, explain, print_complaint};
use clap::ArgMatches;
use command_line::{
    ListRequest, Naming, Showing, UsageFault, borrowed, files_of, list_request, naming_asked,
    quoted_files_of, quoted_names, showing_asked,
};
use container_core::Key;
use ledger_core::{FromRead, ToWrite};
use sealer_core::{KeyFault, Outs, read_key};
use std::alloc::Global;
use std::io::{ErrorKind, Read, Write};
use std::rt::{Clock, Files};
use system_files::{About, Cause, Names, ProgressLine, Told, is_for_others, open_unbuffered};

/// Reads the key from the file at this path. A fault is printed, and the error is its status. With `causes` its cause is
/// printed too, and a warning if others can read or write the file.
pub(crate) fn key_at<R: Files + AllocGlobal + Eprint>(
    rt: &R,
    path: &str,
    causes: bool,
) -> Result<Key, u8>
    ensures status { IfErr result (λ status. status ≡ FAULT) }
{
    match key_in_file(rt, path) {
        Ok(key) => {
            if causes && is_for_others(rt, path) {
                let _ = eprintln!(rt; "warning: {path} can be read by others");
            }
            Ok(key)
        }
        Err(KeyFault::NotKeyFile) => {
            let about = About::Known(Cause::NoDigits);
            Err(explain(rt, "key", KeyFault::NotKeyFile, causes, about))
        }
        Err(fault) => Err(explain(rt, "key", fault, causes, About::Input(path))),
    }
}

// Reads the key from the file at this path.
fn key_in_file<R: Files + AllocGlobal>(rt: &R, path: &str) -> Result<Key, KeyFault> {
    match open_unbuffered(rt, path) {
        Ok(file) => read_key(&mut FromRead(file)),
        Err(_) => Err(KeyFault::CannotOpen),
    }
}

/// A list of names that was read.
#[derive(Drop)]
pub(crate) struct NameList {
    pub(crate) text: Vec<u8>,
    pub(crate) separator: char,
}

/// Reads the list of names, if one is given. `-` means standard input.
pub(crate) fn read_list<R: Files + AllocGlobal, I: Read>(
    rt: &R,
    matches: &ArgMatches<'_>,
    input: &mut I,
) -> Result<Option<NameList>, UsageFault>
    ensures ascii { IfOk result (λ list. IfSome list (λ one. one.separator < 128)) }
    ensures text { IfOk result (λ list. IsListText matches.now (I.remaining input.old)
        (option_map (λ one. one.text.items) list) (unwrap_or (option_map (λ one. one.separator) list) 10)) }
{
    let Some(ListRequest { path, separator }) = list_request(matches) else {
        return Ok(None);
    };
    let text = if path == "-" {
        read_whole(rt.alloc(), input)?
    } else {
        match open_unbuffered(rt, path) {
            Ok(mut file) => read_whole(rt.alloc(), &mut file)?,
            Err(_) => return Err(UsageFault::CannotReadList),
        }
    };
    Ok(Some(NameList { text, separator }))
}

/// Returns what a fault of reading the list of names is about.
pub(crate) fn about_list<'a>(matches: &ArgMatches<'a>, fault: UsageFault) -> About<'a> {
    match (fault, list_request(matches)) {
        (UsageFault::CannotReadList, Some(list)) if list.path != "-" => About::Input(list.path),
        (UsageFault::CannotReadList, _) => About::Known(Cause::Input),
        _ => About::Known(Cause::OutOfMemory),
    }
}

// Reads an input to its end.
fn read_whole<I: Read>(alloc: Global, input: &mut I) -> Result<Vec<u8>, UsageFault>
    ensures text { IfOk result (λ text. IfSome (I.remaining input.old) (λ bytes. text.items ≡ bytes)) }
{
    let mut text = Vec::new(alloc);
    match input.read_to_end(&mut text) {
        Ok(_) => Ok(text),
        Err(error) if error.kind() == ErrorKind::OutOfMemory => Err(UsageFault::OutOfMemory),
        Err(_) => Err(UsageFault::CannotReadList),
    }
}

/// Returns the names of a run, as it has them: those of the command line, then those of its list. `shown` keeps those that
/// aren't as they were given. A fault is printed, and the error is its status.
pub(crate) fn run_names<'n, R: AllocGlobal + Eprint>(
    rt: &R,
    matches: &'n ArgMatches<'_>,
    list: &'n Option<NameList>,
    shown: &'n mut Vec<String>,
    causes: bool,
) -> Result<Vec<&'n str>, u8>
    requires ascii { IfSome list.now (λ one. one.separator < 128) }
    ensures names { IfOk result (λ names. (naming : Naming) × IsNaming matches.now naming × (listed : List (List ℕ))
        × IsListedBy naming (unwrap_or (option_map (λ one. one.separator) list.now) 10)
        (option_map (λ one. one.text.items) list.now) listed
        × (map (λ name. name.now) names.items ≡ named_by naming (files_given matches.now ++ listed))) }
    ensures status { IfErr result (λ status. status ≡ FAULT) }
{
    match naming_asked(matches) {
        Naming::Plain => match names_of(rt.alloc(), matches, list) {
            Ok(names) => Ok(names),
            Err(fault) => Err(refuse_list(rt, list, fault, causes)),
        },
        Naming::Quoted => match quotes_of(rt.alloc(), matches, list) {
            Ok(names) => {
                *shown = names;
                borrowed_from(rt, shown.as_slice())
            }
            Err(fault) => Err(refuse_list(rt, list, fault, causes)),
        },
        Naming::KeepGoing => match list_pieces(rt, matches, list) {
            Ok(names) => {
                *shown = names;
                borrowed_from(rt, shown.as_slice())
            }
            Err(fault) => Err(print_complaint(rt, "usage", fault)),
        },
    }
}

// The same names, borrowed. A fault is printed, and the error is its status.
fn borrowed_from<'n, R: AllocGlobal + Eprint>(
    rt: &R,
    shown: &'n [String],
) -> Result<Vec<&'n str>, u8>
    ensures names { IfOk result (λ names. map (λ name. name.now) names.items ≡ map string_bytes shown.now) }
    ensures status { IfErr result (λ status. status ≡ FAULT) }
{
    match borrowed(rt.alloc(), shown) {
        Ok(names) => Ok(names),
        Err(fault) => Err(print_complaint(rt, "usage", fault)),
    }
}

/// Returns the names of the command line, then those of the list.
pub(crate) fn names_of<'n>(
    alloc: Global,
    matches: &'n ArgMatches<'_>,
    list: &'n Option<NameList>,
) -> Result<Vec<&'n str>, UsageFault>
    requires ascii { IfSome list.now (λ one. one.separator < 128) }
    ensures names { IfOk result (λ names. (listed : List (List ℕ))
        × IsListed (unwrap_or (option_map (λ one. one.separator) list.now) 10)
        (option_map (λ one. one.text.items) list.now) listed
        × (map (λ name. name.now) names.items ≡ files_given matches.now ++ listed)) }
{
    let given = matches.get_strs("FILE").unwrap_or(&[]);
    match list {
        Some(list) => files_of(alloc, given, Some(list.text.as_slice()), list.separator),
        None => files_of(alloc, given, None, '\n'),
    }
}

/// Returns the same names as lines show them.
pub(crate) fn quotes_of(
    alloc: Global,
    matches: &ArgMatches<'_>,
    list: &Option<NameList>,
) -> Result<Vec<String>, UsageFault>
    requires ascii { IfSome list.now (λ one. one.separator < 128) }
    ensures names { IfOk result (λ shown. (listed : List (List ℕ))
        × IsListed (unwrap_or (option_map (λ one. one.separator) list.now) 10)
        (option_map (λ one. one.text.items) list.now) listed
        × (map string_bytes shown.items ≡ map quoted (files_given matches.now ++ listed))) }
{
    match names_of(alloc, matches, list) {
        Ok(names) => quoted_names(alloc, names.as_slice()),
        Err(fault) => Err(fault),
    }
}

/// Returns the names of the command line, then all that the list has between its separators, as lines show them. It
/// prints a line for each of the latter that is no name.
pub(crate) fn list_pieces<R: AllocGlobal + Eprint>(
    rt: &R,
    matches: &ArgMatches<'_>,
    list: &Option<NameList>,
) -> Result<Vec<String>, UsageFault>
    requires ascii { IfSome list.now (λ one. one.separator < 128) }
    ensures names { IfOk result (λ shown. (listed : List (List ℕ))
        × ArePieces (unwrap_or (option_map (λ one. one.separator) list.now) 10)
        (option_map (λ one. one.text.items) list.now) listed
        × (map string_bytes shown.items ≡ map quoted (files_given matches.now ++ listed))) }
{
    let given = matches.get_strs("FILE").unwrap_or(&[]);
    let alloc = rt.alloc();
    match list {
        Some(list) => {
            tell_bad(rt, list);
            quoted_files_of(alloc, given, Some(list.text.as_slice()), list.separator)
        }
        None => quoted_files_of(alloc, given, None, '\n'),
    }
}

/// Returns how a run's folder finds the paths of its names.
pub(crate) fn names_for(naming: Naming) -> Names
    ensures plain { naming ≡ Naming.Plain → result ≡ Names.Plain }
    ensures quoted { naming ≡ Naming.Quoted → result ≡ Names.Quoted }
    ensures keep_going { naming ≡ Naming.KeepGoing → result ≡ Names.Quoted }
{
    match naming {
        Naming::Plain => Names::Plain,
        Naming::Quoted | Naming::KeepGoing => Names::Quoted,
    }
}

/// Where a run over files prints. The progress line is cleared before each other line.
pub(crate) fn outs_of<'p, 'r, R: Files + Clock + Eprint, O: Write + Drop, E: Write + Drop>(
    streams: Streams<O, E>,
    progress: Option<&'p ProgressLine<'r, R>>,
    journal: Option<ToWrite<R::File>>,
) -> Outs<ToWrite<Told<'p, 'r, R, O>>, ToWrite<Told<'p, 'r, R, E>>, ToWrite<R::File>>
    ensures lines { result.lines.0.writer ≡ streams.output.0 }
{
    Outs {
        lines: ToWrite(Told {
            writer: streams.output.0,
            progress,
            of_files: true,
        }),
        faults: ToWrite(Told {
            writer: streams.errors.0,
            progress,
            of_files: false,
        }),
        journal,
    }
}

/// Returns the streams on which a run over files printed.
pub(crate) fn streams_of<R: Files + Clock + Eprint, O: Write + Drop, E: Write + Drop>(
    out: Outs<ToWrite<Told<'_, '_, R, O>>, ToWrite<Told<'_, '_, R, E>>, ToWrite<R::File>>,
    terminals: Terminals,
) -> Streams<O, E>
    ensures output { result.output.0 ≡ out.entry.lines.0.writer }
{
    let (ToWrite(lines), ToWrite(faults)) = (out.lines, out.faults);
    Streams {
        output: ToWrite(lines.writer),
        errors: ToWrite(faults.writer),
        terminals,
    }
}

/// Clears the progress line, if there is one.
pub(crate) fn clear<R: Clock + Eprint>(progress: Option<&ProgressLine<'_, R>>) {
    if let Some(progress) = progress {
        let _ = progress.clear();
    }
}

/// Returns the progress line of a run over the files of these names, if one is asked for. `readings` says how often each is read.
/// `terminal` says whether standard error is one.
pub(crate) fn progress_of<'r, R: Files + AllocGlobal + Clock + Eprint>(
    rt: &'r R,
    matches: &ArgMatches<'_>,
    how: Names,
    files: &[&str],
    readings: u64,
    terminal: bool,
) -> Option<ProgressLine<'r, R>> {
    match showing_asked(matches) {
        Showing::Always => ProgressLine::of(rt, how, files, readings),
        Showing::OnTerminal if terminal => ProgressLine::of(rt, how, files, readings),
        Showing::OnTerminal | Showing::Never => None,
    }
}
