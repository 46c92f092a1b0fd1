//! The names of the files of a command: those of the command line, and those of a list. A list is a text with a name on
//! each line, or with a byte 0 after each name. With `--quote` names are as lines show them.
ghost use Rattle.std.specs.Prelude.{◌≡◌, ◌≢◌, ◌<◌, ◌++◌, ◌∷◌, ℕ, List, [], IfOk};
ghost use Rattle.std.specs.Prelude.{IfSome, None, Some, codes, length, map};
ghost use Rattle.std.specs.Prelude.{IfErr, OnOk, option_map, string_bytes, true, false};
ghost use Rattle.clap.specs.Matches.{first_value, found_of, one_text};
ghost use Rattle.std.specs.List.{All};
ghost use Rattle.command_line.specs.Asked.{IsNaming, dashes};
ghost use Rattle.command_line.specs.Names.{ArePieces, ArePiecesOf, IsListOf, IsListed};
ghost use Rattle.folder_core.specs.Quotes.{quoted};

use crate::fault::UsageFault;
use clap::ArgMatches;
use folder_core::quote;
use std::alloc::Global;

/// The list of names that is asked for.
#[derive(Clone, Copy)]
pub struct ListRequest<'a> {
    /// Its path, or `-` for standard input.
    pub path: &'a str,
    /// The character that ends each name.
    pub separator: char,
}

/// Returns which list of names a command asks for, if any.
pub fn list_request<'a>(matches: &ArgMatches<'a>) -> Option<ListRequest<'a>>
    ensures ascii { IfSome result (λ list. list.separator < 128) }
    ensures path { option_map (λ list. list.path.now) result ≡ first_value (found_of matches.now) (codes "files-from") }
    ensures bytes { IfSome result (λ list. one_text (found_of matches.now) (codes "null") ≡ Some (codes "true")
        → list.separator ≡ 0) }
    ensures lines { IfSome result (λ list. one_text (found_of matches.now) (codes "null") ≡ Some (codes "false")
        → list.separator ≡ 10) }
    ensures without { IfSome result (λ list. one_text (found_of matches.now) (codes "null") ≡ None
        → list.separator ≡ 10) }
{
    match matches.get_str("files-from") {
        None => None,
        Some(path) if matches.get_flag("null") => Some(ListRequest {
            path,
            separator: '\0',
        }),
        Some(path) => Some(ListRequest {
            path,
            separator: '\n',
        }),
    }
}

/// Returns the names of the command line, then those of the list, if there is one. `ListNoText` if the list isn't
/// UTF-8, `EmptyName` if a name in it is empty.
pub fn files_of<'n>(
    alloc: Global,
    given: &[&'n str],
    list: Option<&'n [u8]>,
    separator: char,
) -> Result<Vec<&'n str>, UsageFault>
    requires ascii { separator < 128 }
    ensures files { IfOk result (λ files. (listed : List (List ℕ))
        × IsListed separator (option_map (λ text. text.now) list.entry) listed
        × (map (λ name. name.now) files.items ≡ map (λ name. name.now) given.now ++ listed)) }
{
    let mut files = Vec::new(alloc);
    if files.extend_from_slice(given).is_err() {
        return Err(UsageFault::OutOfMemory);
    }
    let Some(list) = list else {
        return Ok(files);
    };
    let Ok(text) = std::str::from_utf8(list) else {
        return Err(UsageFault::ListNoText);
    };
    let listed = match names_in(alloc, text, separator) {
        Ok(listed) => listed,
        Err(fault) => return Err(fault),
    };
    match files.extend_from_slice(listed.as_slice()) {
        Ok(()) => Ok(files),
        Err(_) => Err(UsageFault::OutOfMemory),
    }
}

/// Returns the names that a text lists, in its order. Each is followed by the separator, which the last one may lack.
/// `EmptyName` if one is empty.
pub fn names_in(alloc: Global, text: &str, separator: char) -> Result<Vec<&str>, UsageFault>
    requires ascii { separator < 128 }
    ensures names { IfOk result (λ names. IsListOf separator text.now (map (λ name. name.now) names.items)) }
{
    let mut names = Vec::new(alloc);
    let mut rest = text;
    'names: while let Some((name, more)) = cut_name(rest, separator) {
        if name.is_empty() {
            return Err(UsageFault::EmptyName);
        }
        match names.push(name) {
            Ok(()) => rest = more,
            Err(_) => return Err(UsageFault::OutOfMemory),
        }
    }
    if rest.is_empty() {
        return Ok(names);
    }
    match names.push(rest) {
        Ok(()) => Ok(names),
        Err(_) => Err(UsageFault::OutOfMemory),
    }
}

/// How a run takes its names.
#[derive(Clone, Copy, PartialEq, Eq)]
pub enum Naming {
    /// As they are given.
    Plain,
    /// As lines show them.
    Quoted,
    /// As lines show them. What can't be used fails alone.
    KeepGoing,
}

/// Returns how a run takes its names. `--keep-going` implies `--quote`.
pub fn naming_asked(matches: &ArgMatches<'_>) -> Naming
    ensures { IsNaming matches.now result }
{
    if matches.get_flag("keep-going") {
        Naming::KeepGoing
    } else if matches.get_flag("quote") {
        Naming::Quoted
    } else {
        Naming::Plain
    }
}

/// Returns these names as lines show them.
pub fn quoted_names(alloc: Global, names: &[&str]) -> Result<Vec<String>, UsageFault>
    ensures names { IfOk result (λ shown. map string_bytes shown.items ≡ map quoted (map (λ name. name.now) names.now)) }
    ensures fault { IfErr result (λ fault. fault ≡ UsageFault.OutOfMemory) }
{
    let mut shown = Vec::new(alloc);
    for name in names {
        push_quoted(alloc, &mut shown, name.as_bytes())?;
    }
    Ok(shown)
}

/// Returns the names of the command line, then all that the list has between its separators, if there is one, as lines
/// show them. What is empty or isn't UTF-8 is no name, and no fault either.
pub fn quoted_files_of(
    alloc: Global,
    given: &[&str],
    list: Option<&[u8]>,
    separator: char,
) -> Result<Vec<String>, UsageFault>
    requires ascii { separator < 128 }
    ensures files { IfOk result (λ files. (pieces : List (List ℕ))
        × ArePieces separator (option_map (λ list. list.now) list.entry) pieces
        × (map string_bytes files.items ≡ map quoted (map (λ name. name.now) given.now ++ pieces))) }
    ensures fault { IfErr result (λ fault. fault ≡ UsageFault.OutOfMemory) }
{
    let shown = quoted_names(alloc, given)?;
    match list {
        Some(list) => with_pieces(alloc, shown, list, separator as u32 as u8),
        None => Ok(shown),
    }
}

// Adds what a list has between its separators.
fn with_pieces(
    alloc: Global,
    shown: Vec<String>,
    list: &[u8],
    separator: u8,
) -> Result<Vec<String>, UsageFault>
    ensures files { IfOk result (λ files. (pieces : List (List ℕ)) × ArePiecesOf separator list.now pieces
        × (map string_bytes files.items ≡ map string_bytes shown.items ++ map quoted pieces)) }
    ensures fault { IfErr result (λ fault. fault ≡ UsageFault.OutOfMemory) }
{
    let mut shown = shown;
    let mut rest = list;
    'pieces: while let Some((piece, more)) = cut_bytes(rest, separator) {
        push_quoted(alloc, &mut shown, piece)?;
        rest = more;
    }
    if rest.is_empty() {
        return Ok(shown);
    }
    push_quoted(alloc, &mut shown, rest)?;
    Ok(shown)
}

/// Returns these texts, borrowed.
pub fn borrowed(alloc: Global, texts: &[String]) -> Result<Vec<&str>, UsageFault>
    ensures names { IfOk result (λ names. map (λ name. name.now) names.items ≡ map string_bytes texts.now) }
    ensures fault { IfErr result (λ fault. fault ≡ UsageFault.OutOfMemory) }
{
    let mut names = Vec::new(alloc);
    for text in texts {
        match names.push(text.as_str()) {
            Ok(()) => {}
            Err(_) => return Err(UsageFault::OutOfMemory),
        }
    }
    Ok(names)
}

// Adds a name as a line shows it.
fn push_quoted(alloc: Global, shown: &mut Vec<String>, name: &[u8]) -> Result<(), UsageFault>
    ensures name { OnOk result (map string_bytes shown.new.items
        ≡ map string_bytes shown.old.items ++ quoted name.now ∷ []) }
    ensures fault { IfErr result (λ fault. fault ≡ UsageFault.OutOfMemory) }
{
    let Ok(text) = quote(alloc, name) else {
        return Err(UsageFault::OutOfMemory);
    };
    match shown.push(text) {
        Ok(()) => Ok(()),
        Err(_) => Err(UsageFault::OutOfMemory),
    }
}

/// Returns the bytes before the first separator, and those after it.
pub(crate) fn cut_bytes(bytes: &[u8], separator: u8) -> Option<(&[u8], &[u8])>
    ensures whole { IfSome result (λ parts. bytes.now ≡ parts.0.now ++ separator ∷ parts.1.now) }
    ensures apart { IfSome result (λ parts. All (λ byte. byte ≢ separator) parts.0.now) }
    ensures shorter { IfSome result (λ parts. length parts.1.now < length bytes.now) }
    ensures none { result ≡ None → All (λ byte. byte ≢ separator) bytes.now }
{
    let Some(at) = bytes.iter().position(|byte| *byte == separator) else {
        return None;
    };
    let (piece, rest) = bytes.split_at(at);
    Some((piece, &rest[1..]))
}

/// Returns how many of these names are `-`: standard input.
pub(crate) fn inputs_in(files: &[&str]) -> usize
    ensures { result ≡ dashes files.now }
{
    files.iter().filter(|name| **name == "-").count()
}

// The text before the first separator, and the text after it.
fn cut_name(text: &str, separator: char) -> Option<(&str, &str)>
    requires { separator < 128 }
    ensures whole { IfSome result (λ parts. text.now ≡ parts.0.now ++ separator ∷ parts.1.now) }
    ensures apart { IfSome result (λ parts. All (λ byte. byte ≢ separator) parts.0.now) }
    ensures shorter { IfSome result (λ parts. length parts.1.now < length text.now) }
    ensures none { result ≡ None → All (λ byte. byte ≢ separator) text.now }
{
    match text.split_once(separator) {
        Some((before, after)) => Some((before, after)),
        None => None,
    }
}
