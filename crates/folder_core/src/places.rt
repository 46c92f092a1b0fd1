//! The paths of outputs that a run puts into one folder: the folder and the base name of the file.

ghost use Rattle.std.specs.Prelude.{◌≡◌, ◌≢◌, IfErr, IfSome, OnOk, None, map, string_bytes, true};
ghost use Rattle.folder_core.specs.Places.{AreApart, HasNoLastName, IsBehind, IsBelow, IsLastName, OneHasNone};
ghost use Rattle.folder_core.specs.Places.{TwoHaveOne};

use std::alloc::Global;
use std::collections::BTreeSet;
use thiserror::Error;

/// Why the outputs of some files can't go into, or below, one folder. The texts are those that the program prints.
#[derive(Clone, Copy, PartialEq, Eq, Debug, Error)]
pub enum PlaceFault {
    /// A file's base name would be empty, `.` or `..`.
    #[error("a FILE has no last name")]
    NoName,
    /// Two files have the same base name.
    #[error("two FILEs have one last name")]
    SameName,
    /// Two files have one place below the folder.
    #[error("two FILEs have one output")]
    SamePlace,
    /// Memory was refused.
    #[error("out of memory")]
    OutOfMemory,
}

/// Returns the base name of a path: the part after its last slash. It is `None` if that part is empty, `.` or `..`.
pub fn last_name(path: &str) -> Option<&str>
    ensures name { IfSome result (λ name. IsLastName path.now name.now) }
    ensures none { result ≡ None → HasNoLastName path.now }
{
    match behind(path) {
        "" | "." | ".." => None,
        name => Some(name),
    }
}

// The part after the last slash, or the whole path if it has no slash.
fn behind(path: &str) -> &str
    ensures { IsBehind path.now result.now }
{
    match path.rsplit_once('/') {
        Some((_, name)) => name,
        None => path,
    }
}

/// Checks that each file has a base name and no two have the same one. Allocates a set of the names.
pub fn are_apart(alloc: Global, files: &[&str]) -> Result<(), PlaceFault>
    ensures apart { OnOk result (AreApart (map (λ file. file.now) files.now)) }
    ensures no_name { IfErr result (λ fault. fault ≡ PlaceFault.NoName
        → OneHasNone (map (λ file. file.now) files.now)) }
    ensures same_name { IfErr result (λ fault. fault ≡ PlaceFault.SameName
        → TwoHaveOne (map (λ file. file.now) files.now)) }
    ensures fault { IfErr result (λ fault. fault ≢ PlaceFault.SamePlace) }
{
    let mut names = BTreeSet::new(alloc);
    'files: for file in files {
        let Some(name) = last_name(file) else {
            return Err(PlaceFault::NoName);
        };
        match names.insert(name) {
            Ok(true) => {}
            Ok(false) => return Err(PlaceFault::SameName),
            Err(_) => return Err(PlaceFault::OutOfMemory),
        }
    }
    Ok(())
}

/// Sets `path` to the path below `folder` of the output for `name`: folder, slash, base name. Returns false if `folder`
/// is empty, `name` has no base name, or memory is refused.
pub fn put_below(path: &mut String, folder: &str, name: &str) -> bool
    ensures { result ≡ true → IsBelow folder.now name.now (string_bytes path.new) }
{
    if folder.is_empty() {
        return false;
    }
    let Some(last) = last_name(name) else {
        return false;
    };
    path.clear();
    path.push_str(folder).is_ok() && path.push('/').is_ok() && path.push_str(last).is_ok()
}
