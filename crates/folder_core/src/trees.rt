//! The paths of outputs that a run puts below one folder, each with the folders of its FILE's path.
//!
//! Empty parts of a path and parts `.` are dropped, and so is a slash at its beginning. A path with a part `..` has no
//! place below a folder, nor has one whose last part names nothing. No file system is asked.

ghost use Rattle.std.specs.Prelude.{◌≡◌, ◌≢◌, ◌<◌, ◌++◌, ◌∷◌, [], IfErr, IfOk, IfSome, None, OnOk, Some};
ghost use Rattle.std.specs.Prelude.{false, length, map, option_map, string_bytes, true};
ghost use Rattle.std.specs.List.{All, AllPairs};
ghost use Rattle.folder_core.specs.Trees.{IsPlaced, named, place, places, steps};

use crate::places::PlaceFault;
use std::alloc::{AllocError, Global};
use std::collections::BTreeSet;

/// Returns the part of a path before its first slash, and the rest after that. `None` if it has no slash.
pub fn first_part(path: &str) -> Option<(&str, &str)>
    ensures whole { IfSome result (λ parts. path.now ≡ parts.0.now ++ 47 ∷ parts.1.now) }
    ensures apart { IfSome result (λ parts. All (λ byte. byte ≢ 47) parts.0.now) }
    ensures shorter { IfSome result (λ parts. length parts.1.now < length path.now) }
    ensures none { result ≡ None → All (λ byte. byte ≢ 47) path.now }
{
    match path.split_once('/') {
        Some((part, rest)) => Some((part, rest)),
        None => None,
    }
}

/// Returns the end of the path of this FILE's output: each part of its place after a slash. `None` if it has no place.
pub fn place_of(alloc: Global, path: &str) -> Result<Option<String>, AllocError>
    ensures { IfOk result (λ found. option_map string_bytes found ≡ option_map steps (place path.now)) }
{
    let mut end = String::new(alloc);
    if push_place(&mut end, path)? {
        Ok(Some(end))
    } else {
        Ok(None)
    }
}

/// Sets `path` to the path of the output for `name` below `folder`, with the folders of its path. Returns false if
/// `folder` is empty, `name` has no place, or memory is refused.
pub fn put_placed(path: &mut String, folder: &str, name: &str) -> bool
    ensures { result ≡ true → IsPlaced folder.now name.now (string_bytes path.new) }
{
    if folder.is_empty() {
        return false;
    }
    path.clear();
    path.push_str(folder).is_ok() && matches!(push_place(path, name), Ok(true))
}

// Adds the place of a path, each part after a slash. Returns whether it has one.
fn push_place(to: &mut String, path: &str) -> Result<bool, AllocError>
    ensures placed { result ≡ Ok true → option_map (λ ps. string_bytes to.old ++ steps ps) (place path.now)
        ≡ Some (string_bytes to.new) }
    ensures none { result ≡ Ok false → place path.now ≡ None }
{
    let mut rest = path;
    'parts: while let Some((part, more)) = first_part(rest) {
        if part == ".." {
            return Ok(false);
        }
        push_part(to, part)?;
        rest = more;
    }
    match rest {
        "" | "." | ".." => Ok(false),
        last => {
            push_part(to, last)?;
            Ok(true)
        }
    }
}

// Adds a part after a slash, if it names something.
fn push_part(to: &mut String, part: &str) -> Result<(), AllocError>
    ensures { OnOk result (string_bytes to.new ≡ string_bytes to.old ++ steps (named (part.now ∷ []))) }
{
    if part.is_empty() || part == "." {
        return Ok(());
    }
    to.push('/')?;
    to.push_str(part)
}

/// Checks that no two of these files have outputs at one place. Those without a place aren't compared.
pub fn are_placed_apart(alloc: Global, files: &[&str]) -> Result<(), PlaceFault>
    ensures apart { OnOk result (AllPairs (λ one other. one ≢ other) (places (map (λ file. file.now) files.now))) }
    ensures same { IfErr result (λ fault. fault ≡ PlaceFault.SamePlace
        → AllPairs (λ one other. one ≢ other) (places (map (λ file. file.now) files.now)) → ⊥) }
    ensures fault { IfErr result (λ fault. (fault ≢ PlaceFault.NoName) × (fault ≢ PlaceFault.SameName)) }
{
    let Ok(found) = places_of(alloc, files) else {
        return Err(PlaceFault::OutOfMemory);
    };
    match are_distinct(alloc, found.as_slice()) {
        Ok(true) => Ok(()),
        Ok(false) => Err(PlaceFault::SamePlace),
        Err(_) => Err(PlaceFault::OutOfMemory),
    }
}

// The places of these files, of those that have one.
fn places_of(alloc: Global, files: &[&str]) -> Result<Vec<String>, AllocError>
    ensures { IfOk result (λ found. map string_bytes found.items ≡ places (map (λ file. file.now) files.now)) }
{
    let mut found = Vec::new(alloc);
    'files: for file in files {
        if let Some(end) = place_of(alloc, file)? {
            found.push(end)?;
        }
    }
    Ok(found)
}

// Whether no two of these texts are the same.
fn are_distinct(alloc: Global, texts: &[String]) -> Result<bool, AllocError>
    ensures yes { result ≡ Ok true → AllPairs (λ one other. one ≢ other) (map string_bytes texts.now) }
    ensures no { result ≡ Ok false → AllPairs (λ one other. one ≢ other) (map string_bytes texts.now) → ⊥ }
{
    let mut seen = BTreeSet::new(alloc);
    'texts: for text in texts {
        if !seen.insert(text.as_str())? {
            return Ok(false);
        }
    }
    Ok(true)
}
