//! The paths that a run's names denote, and where its outputs go.
ghost use Rattle.std.specs.Prelude.{◌≡◌, IfSome, None, Some, false, string_bytes, true};
ghost use Rattle.folder_core.specs.Quotes.{unquoted};

use folder_core::{put_below, put_placed, unquote};
use std::alloc::Global;
use std::fs;
use std::fs::Metadata;
use std::rt::Files;

/// How names denote paths.
#[derive(Clone, Copy, PartialEq, Eq)]
pub enum Names {
    /// Each is its path.
    Plain,
    /// Each is what a line shows of its path: `quote`.
    Quoted,
}

/// Where the outputs of a run go.
#[derive(Clone, Copy)]
pub enum Target<'a> {
    /// Where their paths say.
    AsNamed,
    /// Into this folder, each under the base name of its path.
    Into(&'a str),
    /// Below this folder, each with the folders of its path.
    Tree(&'a str),
}

/// Returns where outputs go: into this folder, if one is given, and with `parents` below it.
pub fn target_of(folder: Option<&str>, parents: bool) -> Target<'_>
    ensures as_named { folder.entry ≡ None → result ≡ Target.AsNamed }
    ensures into { IfSome folder.entry (λ path. parents ≡ false → result ≡ Target.Into path) }
    ensures tree { IfSome folder.entry (λ path. parents ≡ true → result ≡ Target.Tree path) }
{
    match folder {
        None => Target::AsNamed,
        Some(path) if parents => Target::Tree(path),
        Some(path) => Target::Into(path),
    }
}

/// Returns the path of which a line shows this name. `None` if it isn't UTF-8, no line shows this, or memory is refused.
pub(crate) fn path_shown(alloc: Global, name: &str) -> Option<String>
    ensures { IfSome result (λ path. unquoted name.now ≡ Some (string_bytes path)) }
{
    match unquote(alloc, name) {
        Ok(path) => path,
        Err(_) => None,
    }
}

/// Returns the path of this name's output: where the name says, or in or below a folder. Returns `None` if the name has
/// no path there, if no path has this name, or if memory is refused.
pub(crate) fn path_of(alloc: Global, how: Names, to: Target<'_>, name: &str) -> Option<String> {
    if how == Names::Plain {
        return placed(alloc, to, name);
    }
    match path_shown(alloc, name) {
        Some(path) => placed(alloc, to, path.as_str()),
        None => None,
    }
}

// The path of the output for this one.
fn placed(alloc: Global, to: Target<'_>, path: &str) -> Option<String> {
    let mut output = String::new(alloc);
    let is_placed = match to {
        Target::AsNamed => output.push_str(path).is_ok(),
        Target::Into(folder) => put_below(&mut output, folder, path),
        Target::Tree(folder) => put_placed(&mut output, folder, path),
    };
    if is_placed { Some(output) } else { None }
}

/// Returns what the system says of the file of this name, if it is there.
pub(crate) fn found_at<R: Files + AllocGlobal>(rt: &R, how: Names, name: &str) -> Option<Metadata> {
    if how == Names::Plain {
        return fs::metadata(rt, name).ok();
    }
    match path_shown(rt.alloc(), name) {
        Some(path) => fs::metadata(rt, path.as_str()).ok(),
        None => None,
    }
}
