//! Which names of a run can't be used, and where they come from. A name of the list is told by its place there: its line,
//! or with `--null` which of the names it is.
ghost use Rattle.std.specs.Prelude.{◌≡◌, ◌<◌, IfSome};

use crate::files::NameList;
use crate::{FAULT, print_complaint};
use clap::ArgMatches;
use command_line::{
    BadPiece, Naming, PieceFault, Reading, UsageFault, bad_pieces, list_request, naming_asked,
};
use folder_core::{quote, unquote};
use std::alloc::{AllocError, Global};
use std::collections::BTreeMap;
use system_files::{Destination, Names, PlaceFault, Target, output_key};

/// Where the names of a run come from.
#[derive(Clone, Copy)]
pub(crate) struct Origin {
    // How many of them the command line has. The others are those of the list.
    given: usize,
    // What a name is in the list: a line, or a name.
    unit: &'static str,
}

/// Returns where the names of a run come from.
pub(crate) fn origin_of(matches: &ArgMatches<'_>) -> Origin {
    let unit = match list_request(matches) {
        Some(list) => list_unit(list.separator),
        None => "line",
    };
    Origin {
        given: matches.get_strs("FILE").unwrap_or(&[]).len(),
        unit,
    }
}

// What a name is in a list with this separator.
fn list_unit(separator: char) -> &'static str {
    if separator == '\n' { "line" } else { "name" }
}

/// Prints a fault of the names of a list. With `causes` a second line says which of them is the first with it. Returns
/// the status.
pub(crate) fn refuse_list<R: AllocGlobal + Eprint>(
    rt: &R,
    list: &Option<NameList>,
    fault: UsageFault,
    causes: bool,
) -> u8
    requires ascii { IfSome list.now (λ one. one.separator < 128) }
    ensures status { result ≡ FAULT }
{
    let status = print_complaint(rt, "usage", fault);
    match (list, fault) {
        (Some(list), UsageFault::EmptyName) if causes => {
            explain_list(rt, list, PieceFault::Empty);
        }
        (Some(list), UsageFault::ListNoText) if causes => {
            explain_list(rt, list, PieceFault::NotText);
        }
        _ => {}
    }
    status
}

// Prints which piece of a list is the first with this fault. It prints nothing if memory is refused.
fn explain_list<R: AllocGlobal + Eprint>(rt: &R, list: &NameList, wanted: PieceFault)
    requires ascii { list.now.separator < 128 }
{
    let Ok(bad) = bad_pieces(rt.alloc(), list.text.as_slice(), list.separator) else {
        return;
    };
    let unit = list_unit(list.separator);
    for piece in bad.as_slice() {
        if piece.fault == wanted {
            let number = piece.number;
            let _ = eprintln!(rt; "cause: {unit} {number} of the list is {wanted}");
            return;
        }
    }
}

/// Prints a line for each piece of a list that is no name. It prints none if memory is refused.
pub(crate) fn tell_bad<R: AllocGlobal + Eprint>(rt: &R, list: &NameList)
    requires ascii { list.now.separator < 128 }
{
    let Ok(bad) = bad_pieces(rt.alloc(), list.text.as_slice(), list.separator) else {
        return;
    };
    let unit = list_unit(list.separator);
    for piece in bad.as_slice() {
        tell_piece(rt, unit, piece);
    }
}

// Prints a line for this one.
fn tell_piece<R: AllocGlobal + Eprint>(rt: &R, unit: &str, piece: &BadPiece<'_>) {
    let (number, fault) = (piece.number, piece.fault);
    match quote(rt.alloc(), piece.bytes) {
        Ok(name) if !name.is_empty() => {
            let _ = eprintln!(rt; "list: {unit} {number}: {fault}: {name}");
        }
        _ => {
            let _ = eprintln!(rt; "list: {unit} {number}: {fault}");
        }
    }
}

/// Returns the names for which a request of `open` or `verify` looks at who reads standard input. These are the names, but
/// with `--keep-going` one of the list that is `-` and can't be standard input is left empty, and a line is printed for it.
/// `None` if memory is refused.
pub(crate) fn reading_names<'n, R: AllocGlobal + Eprint>(
    rt: &R,
    reading: Reading,
    matches: &ArgMatches<'_>,
    names: &[&'n str],
) -> Option<Vec<&'n str>> {
    let origin = origin_of(matches);
    let keeps_going = naming_asked(matches) == Naming::KeepGoing;
    let mut is_read = matches!(list_request(matches), Some(list) if list.path == "-");
    let mut all = Vec::new(rt.alloc());
    for at in 0..names.len() {
        let file = name_at(origin, names[at], at + 1);
        let is_free = file.name != "-" || takes_input(reading, &mut is_read);
        let name = match file.listed {
            Some(number) if keeps_going && !is_free => {
                let unit = origin.unit;
                let _ = eprintln!(rt; "list: {unit} {number}: - cannot be standard input");
                ""
            }
            _ => file.name,
        };
        if all.push(name).is_err() {
            return None;
        }
    }
    Some(all)
}

// Whether a FILE `-` can be standard input: for `open` it has no output then, and `verify` reads it once.
fn takes_input(reading: Reading, is_read: &mut bool) -> bool {
    let was_read = *is_read;
    *is_read = true;
    reading == Reading::Verify && !was_read
}

// A name of a run.
#[derive(Clone, Copy)]
struct RunName<'n> {
    name: &'n str,
    // Its number in the list, from 1, if it is of that.
    listed: Option<usize>,
}

// A FILE that has no output of its own in, or below, the folder of `--into`.
#[derive(Clone, Copy)]
struct Clash<'n> {
    file: RunName<'n>,
    // The FILE whose output it would have. `None` if it has no base name.
    first: Option<RunName<'n>>,
}

/// Prints a line for each name of the list whose FILE has no output of its own in, or below, the folder into which
/// outputs go. Pieces of the list that are no names are left out. It prints none if memory is refused.
pub(crate) fn tell_clashes<R: AllocGlobal + Eprint>(
    rt: &R,
    origin: Origin,
    to: Destination<'_>,
    names: &[&str],
) {
    let Ok(clashes) = clashes_of(rt.alloc(), origin, to, names) else {
        return;
    };
    for clash in clashes.as_slice() {
        tell_clash(rt, origin.unit, clash);
    }
}

// Prints a line for this one, if it is of the list. Its names are as lines show them.
fn tell_clash<R: Eprint>(rt: &R, unit: &str, clash: &Clash<'_>) {
    let Some(number) = clash.file.listed else {
        return;
    };
    match clash.first {
        None => {
            let name = clash.file.name;
            let _ = eprintln!(rt; "list: {unit} {number}: no last name: {name}");
        }
        Some(first) => match first.listed {
            Some(other) => {
                let _ = eprintln!(rt; "list: {unit} {number}: has the output of {unit} {other}");
            }
            None => {
                let name = first.name;
                let _ = eprintln!(rt; "list: {unit} {number}: has the output of '{name}'");
            }
        },
    }
}

/// Prints which FILEs are the first with this fault of their places. It prints nothing if memory is refused.
pub(crate) fn explain_clash<R: AllocGlobal + Eprint>(
    rt: &R,
    origin: Origin,
    to: Destination<'_>,
    names: &[&str],
    fault: PlaceFault,
) {
    let Ok(clashes) = clashes_of(rt.alloc(), origin, to, names) else {
        return;
    };
    for clash in clashes.as_slice() {
        if clash.first.is_none() == (fault == PlaceFault::NoName) {
            print_clash(rt, origin.unit, to.names, clash);
            return;
        }
    }
}

// Prints the FILEs of this one.
fn print_clash<R: AllocGlobal + Eprint>(rt: &R, unit: &str, how: Names, clash: &Clash<'_>) {
    let Ok(file) = whence(rt.alloc(), unit, how, clash.file) else {
        return;
    };
    let Some(first) = clash.first else {
        let _ = eprintln!(rt; "cause: {file}");
        return;
    };
    if let Ok(first) = whence(rt.alloc(), unit, how, first) {
        let _ = eprintln!(rt; "cause: {first} and {file}");
    }
}

// A name as a line shows it, and which of the list it is.
fn whence(alloc: Global, unit: &str, how: Names, named: RunName<'_>) -> Result<String, AllocError> {
    let name = shown(alloc, how, named.name)?;
    match named.listed {
        Some(number) => format!(in alloc; "'{name}' ({unit} {number} of the list)"),
        None => format!(in alloc; "'{name}'"),
    }
}

// A name as a line shows it.
fn shown(alloc: Global, how: Names, name: &str) -> Result<String, AllocError> {
    match how {
        Names::Plain => quote(alloc, name.as_bytes()),
        Names::Quoted => String::from_str(alloc, name),
    }
}

// The FILEs that have no output of their own, in order. A name that isn't text is left out, and so is an empty one if
// FILEs may share outputs: these fail in any case.
fn clashes_of<'n>(
    alloc: Global,
    origin: Origin,
    to: Destination<'_>,
    names: &[&'n str],
) -> Result<Vec<Clash<'n>>, AllocError> {
    let mut clashes = Vec::new(alloc);
    let mut seen: BTreeMap<String, RunName<'n>> = BTreeMap::new(alloc);
    for at in 0..names.len() {
        let file = name_at(origin, names[at], at + 1);
        if !to.may_share || is_text(alloc, file.name)? {
            place_file(alloc, to.target, file, &mut seen, &mut clashes)?;
        }
    }
    Ok(clashes)
}

// The name of this number among all.
fn name_at<'n>(origin: Origin, name: &'n str, number: usize) -> RunName<'n> {
    let listed = if number > origin.given {
        Some(number - origin.given)
    } else {
        None
    };
    RunName { name, listed }
}

// Whether a name is text, as a line shows it, and isn't empty.
fn is_text(alloc: Global, name: &str) -> Result<bool, AllocError> {
    Ok(!name.is_empty() && unquote(alloc, name)?.is_some())
}

// Adds a FILE to those that were seen, by what names its output, or to those that clash.
fn place_file<'n>(
    alloc: Global,
    to: Target<'_>,
    file: RunName<'n>,
    seen: &mut BTreeMap<String, RunName<'n>>,
    clashes: &mut Vec<Clash<'n>>,
) -> Result<(), AllocError> {
    let Some(key) = output_key(alloc, to, file.name)? else {
        return match to {
            Target::Into(_) => push(clashes, Clash { file, first: None }),
            Target::AsNamed | Target::Tree(_) => Ok(()),
        };
    };
    match seen.get(&key) {
        Some(first) => {
            let first = Some(*first);
            push(clashes, Clash { file, first })
        }
        None => match seen.insert(key, file) {
            Ok(_) => Ok(()),
            Err(_) => Err(AllocError),
        },
    }
}

// Adds one.
fn push<'n>(clashes: &mut Vec<Clash<'n>>, clash: Clash<'n>) -> Result<(), AllocError> {
    match clashes.push(clash) {
        Ok(()) => Ok(()),
        Err(_) => Err(AllocError),
    }
}
