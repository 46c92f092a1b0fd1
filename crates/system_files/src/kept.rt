//! FILEs whose outputs exist already: `--skip-existing` keeps these and processes the others.
ghost use Rattle.std.specs.Prelude.{◌≡◌, IfOk, OnOk, OnErr, [], false, map, is_err};
ghost use Rattle.io_core.specs.Streams.{Appends, AppendsFront, LacksSome, counted};
ghost use Rattle.system_files.specs.Kept.{IsSplit, kept_line, kept_text};

use crate::folders::take_way;
use crate::names::{Names, Target, path_of};
use folder_core::{last_name, place_of};
use ledger_core::{Failed, Sink, write_all};
use std::alloc::{AllocError, Global};
use std::collections::BTreeSet;
use std::fs;
use std::rt::Files;

/// What a run makes of a FILE.
#[derive(Clone, Copy)]
pub enum Makes {
    /// Its container, under its name with `.stm` added.
    Container,
    /// Its plaintext, under its name without `.stm`.
    Plaintext,
}

/// Where the outputs of a run's FILEs are.
#[derive(Clone, Copy)]
pub struct Destination<'a> {
    pub makes: Makes,
    /// Where they go.
    pub target: Target<'a>,
    /// How the names of FILEs and outputs denote paths.
    pub names: Names,
    /// Whether several FILEs may have one output in, or below, a folder.
    pub may_share: bool,
}

/// The names of a run's FILEs: of those that are kept, and of the others, each in order.
#[derive(Drop)]
pub struct Split<'n> {
    pub kept: Vec<&'n str>,
    pub others: Vec<&'n str>,
}

/// Splits the names of FILEs. With `skip`, a FILE is kept if its output exists already. If that can't be found out, the
/// FILE isn't kept. Nor is one that shares its output with another: from which of them that was made isn't known.
pub fn split_names<'n, R: Files + AllocGlobal>(
    rt: &R,
    to: Destination<'_>,
    skip: bool,
    names: &[&'n str],
) -> Result<Split<'n>, AllocError>
    ensures split { IfOk result (λ split. IsSplit (map (λ name. name.now) names.now)
        (map (λ name. name.now) split.kept.items) (map (λ name. name.now) split.others.items)) }
    ensures none { skip ≡ false → IfOk result (λ split. split.kept.items ≡ []) }
{
    let shared = shared_keys(rt.alloc(), to, skip, names)?;
    let mut kept = Vec::new(rt.alloc());
    let mut others = Vec::new(rt.alloc());
    for name in names {
        if has_kept_output(rt, to, skip, &shared, name) {
            kept.push(*name)?;
        } else {
            others.push(*name)?;
        }
    }
    Ok(Split { kept, others })
}

/// Returns what names the output of this FILE there: its base name, or its place. `None` if it has none, or needs none.
pub fn output_key(alloc: Global, to: Target<'_>, name: &str) -> Result<Option<String>, AllocError> {
    match to {
        Target::AsNamed => Ok(None),
        Target::Into(_) => match last_name(name) {
            Some(last) => {
                let mut key = String::new(alloc);
                key.push_str(last)?;
                Ok(Some(key))
            }
            None => Ok(None),
        },
        Target::Tree(_) => place_of(alloc, name),
    }
}

// What names the outputs that several of these FILEs have.
fn shared_keys(
    alloc: Global,
    to: Destination<'_>,
    skip: bool,
    names: &[&str],
) -> Result<BTreeSet<String>, AllocError> {
    let mut shared = BTreeSet::new(alloc);
    if !skip || !to.may_share {
        return Ok(shared);
    }
    let mut seen = BTreeSet::new(alloc);
    for name in names {
        if let Some(key) = output_key(alloc, to.target, name)? {
            if seen.contains(&key) {
                shared.insert(key)?;
            } else {
                seen.insert(key)?;
            }
        }
    }
    Ok(shared)
}

// Whether the FILE of this name is kept.
fn has_kept_output<R: Files + AllocGlobal>(
    rt: &R,
    to: Destination<'_>,
    skip: bool,
    shared: &BTreeSet<String>,
    name: &str,
) -> bool
    ensures none { skip ≡ false → result ≡ false }
{
    skip && !is_shared(rt.alloc(), to, shared, name) && is_made(rt, to, name)
}

// Whether another FILE has this one's output. If memory is refused, it counts as shared.
fn is_shared(alloc: Global, to: Destination<'_>, shared: &BTreeSet<String>, name: &str) -> bool {
    if shared.is_empty() {
        return false;
    }
    match output_key(alloc, to.target, name) {
        Ok(Some(key)) => shared.contains(&key),
        Ok(None) => false,
        Err(_) => true,
    }
}

// Whether this FILE's output exists.
fn is_made<R: Files + AllocGlobal>(rt: &R, to: Destination<'_>, name: &str) -> bool {
    match to.makes {
        Makes::Container => match format!(in rt.alloc(); "{name}.stm") {
            Ok(output) => is_there(rt, to, output.as_str()),
            Err(_) => false,
        },
        Makes::Plaintext => match name.strip_suffix(".stm") {
            Some(output) => is_there(rt, to, output),
            None => false,
        },
    }
}

// Whether there is a regular file at the path of the output of this name.
fn is_there<R: Files + AllocGlobal>(rt: &R, to: Destination<'_>, output: &str) -> bool {
    match path_of(rt.alloc(), to.names, to.target, output) {
        Some(path) => {
            take_way(rt, to.target, path.as_str(), None).is_ok()
                && matches!(fs::metadata(rt, path.as_str()), Ok(found) if found.is_file())
        }
        None => false,
    }
}

/// Prints a line for each FILE that is kept. It fails if a write fails; then a proper prefix of the lines was printed.
pub fn print_kept<W: Sink>(alloc: Global, names: &[&str], lines: &mut W) -> Result<(), Failed>
    ensures ok { OnOk result (Appends (W.taken lines.old) (W.taken lines.new)
        (kept_text (map (λ name. name.now) names.now))) }
    ensures err { OnErr result (AppendsFront (W.taken lines.old) (W.taken lines.new)
        (kept_text (map (λ name. name.now) names.now))) }
    ensures short { OnErr result (LacksSome (W.taken lines.old) (W.taken lines.new)
        (kept_text (map (λ name. name.now) names.now))) }
    ensures count { W.failures lines.new ≡ counted (is_err result) (W.failures lines.old) }
{
    for name in names {
        print_line(alloc, name, lines)?;
    }
    Ok(())
}

// Prints one of them, in one call if there is memory for it, so that lines of two programs don't mix.
fn print_line<W: Sink>(alloc: Global, name: &str, lines: &mut W) -> Result<(), Failed>
    ensures ok { OnOk result (Appends (W.taken lines.old) (W.taken lines.new) (kept_line name.now)) }
    ensures err { OnErr result (AppendsFront (W.taken lines.old) (W.taken lines.new) (kept_line name.now)) }
    ensures short { OnErr result (LacksSome (W.taken lines.old) (W.taken lines.new) (kept_line name.now)) }
    ensures count { W.failures lines.new ≡ counted (is_err result) (W.failures lines.old) }
{
    match format!(in alloc; "kept {name}\n") {
        Ok(line) => write_all(lines, line.as_bytes()),
        Err(_) => print_parts(name.as_bytes(), lines),
    }
}

// The same without memory.
fn print_parts<W: Sink>(name: &[u8], lines: &mut W) -> Result<(), Failed>
    ensures ok { OnOk result (Appends (W.taken lines.old) (W.taken lines.new) (kept_line name.now)) }
    ensures err { OnErr result (AppendsFront (W.taken lines.old) (W.taken lines.new) (kept_line name.now)) }
    ensures short { OnErr result (LacksSome (W.taken lines.old) (W.taken lines.new) (kept_line name.now)) }
    ensures count { W.failures lines.new ≡ counted (is_err result) (W.failures lines.old) }
{
    write_all(lines, b"kept ")?;
    write_all(lines, name)?;
    write_all(lines, b"\n")
}
