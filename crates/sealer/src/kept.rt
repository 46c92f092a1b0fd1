//! Which FILEs a run processes: all, or with `--skip-existing` those whose output doesn't exist yet.
ghost use Rattle.std.specs.Prelude.{◌≡◌, ◌≢◌, ℕ, IfErr, IfOk, List, OnOk, [], false, map, true};
ghost use Rattle.std.specs.List.{AllPairs};
ghost use Rattle.folder_core.specs.Places.{AreApart};
ghost use Rattle.folder_core.specs.Trees.{places};
ghost use Rattle.io_core.specs.Streams.{Appends};
ghost use Rattle.system_files.specs.Kept.{IsSplit, kept_text};
ghost use Rattle.system_files.specs.declared.names.Target.TheVariants.{Into, Tree};

use crate::files::names_for;
use crate::telling::{explain_clash, origin_of, tell_clashes};
use crate::{FAULT, print_complaint};
use clap::ArgMatches;
use command_line::{Naming, UsageFault};
use ledger_core::Sink;
use std::alloc::Global;
use std::rt::Files;
use system_files::{
    Destination, Makes, PlaceFault, Target, are_apart, are_placed_apart, print_kept, split_names,
    target_of,
};

/// Returns where the outputs of a run go, and what they are: in or below this folder, if one is given.
pub(crate) fn destination_of<'a>(
    makes: Makes,
    folder: Option<&'a str>,
    parents: bool,
    naming: Naming,
) -> Destination<'a>
    ensures makes { result.makes ≡ makes }
    ensures shared { naming ≡ Naming.KeepGoing → result.may_share ≡ true }
    ensures apart { naming ≢ Naming.KeepGoing → result.may_share ≡ false }
{
    Destination {
        makes,
        target: target_of(folder, parents),
        names: names_for(naming),
        may_share: matches!(naming, Naming::KeepGoing),
    }
}

/// Returns the FILEs that a run processes: all of these names, or with `skip` those whose output doesn't exist yet. It
/// prints a line for each of the others. If outputs go into, or below, one folder, and none may be shared, no two of the
/// FILEs may have the same; if outputs may be shared, a line is printed for each name of the list that has no output of
/// its own. A fault is printed, with `causes` its cause too, and the error is its status.
pub(crate) fn worked_of<'n, R: Files + AllocGlobal + Eprint, W: Sink>(
    rt: &R,
    matches: &ArgMatches<'_>,
    to: Destination<'_>,
    skip: bool,
    names: &[&'n str],
    lines: &mut W,
    causes: bool,
) -> Result<Vec<&'n str>, u8>
    ensures kept { IfOk result (λ others. (kept : List (List ℕ))
        × IsSplit (map (λ name. name.now) names.now) kept (map (λ name. name.now) others.items)
        × (skip ≡ false → kept ≡ [])
        × Appends (W.taken lines.old) (W.taken lines.new) (kept_text kept)) }
    ensures status { IfErr result (λ status. status ≡ FAULT) }
{
    match check_names(rt, matches, to, names, causes) {
        Ok(()) => {}
        Err(status) => return Err(status),
    }
    let split = match split_names(rt, to, skip, names) {
        Ok(split) => split,
        Err(_) => return Err(print_complaint(rt, "usage", UsageFault::OutOfMemory)),
    };
    match print_kept(rt.alloc(), split.kept.as_slice(), lines) {
        Ok(()) => Ok(split.others),
        Err(_) => Err(FAULT),
    }
}

// Checks that no two of these FILEs have one output, or if they may, prints a line for each name of the list without one
// of its own. A fault is printed, with `causes` its cause too, and the error is its status.
fn check_names<R: AllocGlobal + Eprint>(
    rt: &R,
    matches: &ArgMatches<'_>,
    to: Destination<'_>,
    names: &[&str],
    causes: bool,
) -> Result<(), u8>
    ensures status { IfErr result (λ status. status ≡ FAULT) }
{
    if to.may_share {
        tell_clashes(rt, origin_of(matches), to, names);
        return Ok(());
    }
    let Err(fault) = check_apart(rt.alloc(), to.target, names) else {
        return Ok(());
    };
    let status = print_complaint(rt, "usage", fault);
    if causes {
        explain_clash(rt, origin_of(matches), to, names, fault);
    }
    Err(status)
}

// Checks that no two of these FILEs have one output in, or below, the folder into which outputs go.
fn check_apart(alloc: Global, to: Target<'_>, names: &[&str]) -> Result<(), PlaceFault>
    ensures into { OnOk result ((folder : _) → to.entry ≡ Into folder → AreApart (map (λ name. name.now) names.now)) }
    ensures below { OnOk result ((folder : _) → to.entry ≡ Tree folder
        → AllPairs (λ one other. one ≢ other) (places (map (λ name. name.now) names.now))) }
{
    match to {
        Target::AsNamed => Ok(()),
        Target::Into(_) => are_apart(alloc, names),
        Target::Tree(_) => are_placed_apart(alloc, names),
    }
}
