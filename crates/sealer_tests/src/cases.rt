//! Cases: a run over a folder in memory, what it must print, and what it must leave.
use crate::runs::{
    MemoryOuts, folder_of, has_bytes, holds, journal_of, ledger_after, open_over, outs, seal_over,
    seal_shaped, steady_outs,
};
use container_core::Shape;
use folder_memory::{MemoryFolder, Pace};
use io_memory::Schedule;
use reserve_core::{Fold, LedgerFile};
use sealer_core::OpenOptions;
use std::alloc::Global;
use std::sync::Wait;
use std::thread::Threads;
use std::time::Clock;

// What fails.
#[derive(Clone, Copy)]
pub(crate) enum Trouble {
    Nothing,
    Readers(Pace),
    Writers(Pace),
    // The folder's call with this number.
    Call(u64),
    WritersAndCall(Pace, u64),
    // The writer of the lines.
    Lines(Schedule),
    // The writer of the journal.
    Journal(Schedule),
    // Nothing fails, and there is no journal.
    NoJournal,
    // Nothing fails, and the folder can't tell how long a file is.
    NoLengths,
}

#[derive(Clone, Copy)]
pub(crate) enum Work {
    Seal { workers: u32, lanes: u32 },
    // In version 2, in chunks of 4,096 bytes with this label, with one worker.
    SealLabelled { lanes: u32, label: &'static [u8] },
    Open,
    // To this output.
    OpenTo(&'static str),
    Verify,
    // The same if this label is required.
    OpenLabelled(&'static [u8]),
    VerifyLabelled(&'static [u8]),
    // Verifies, and shows what the headers say.
    Show,
}

// What is left of a file.
#[derive(Clone, Copy)]
pub(crate) enum Left<'a> {
    Absent,
    Is(&'a [u8]),
    // A container of this plaintext, with the prefix of this number.
    Holds(u8, &'a [u8]),
}

// A run, what it must print (an empty journal means none), and what it leaves. `ends` puts `folder` in; a run over
// another folder ignores it.
#[derive(Clone, Copy)]
pub(crate) struct Case<'a> {
    pub(crate) folder: &'a [(&'a str, &'a [u8])],
    pub(crate) trouble: Trouble,
    pub(crate) work: Work,
    pub(crate) files: &'a [&'a str],
    pub(crate) max_bytes: u64,
    pub(crate) status: u8,
    pub(crate) lines: &'a [u8],
    pub(crate) faults: &'a [u8],
    pub(crate) journal: &'a [u8],
    pub(crate) left: &'a [(&'a str, Left<'a>)],
}

// Where the run writes.
fn outs_of(alloc: Global, trouble: Trouble) -> Option<MemoryOuts> {
    match trouble {
        Trouble::Lines(schedule) => outs(alloc, schedule, Schedule::Never),
        Trouble::Journal(schedule) => outs(alloc, Schedule::Never, schedule),
        Trouble::NoJournal => without_journal(steady_outs(alloc)?),
        _ => steady_outs(alloc),
    }
}

fn without_journal(out: MemoryOuts) -> Option<MemoryOuts> {
    let mut out = out;
    out.journal = None;
    Some(out)
}

// Whether a run printed what the case says.
fn is_told(status: u8, out: &MemoryOuts, case: &Case) -> bool {
    status == case.status
        && out.lines.bytes() == case.lines
        && out.faults.bytes() == case.faults
        && journal_of(out) == case.journal
}

// Makes the folder's calls, readers and writers fail.
fn make_trouble(folder: &mut MemoryFolder, trouble: Trouble) {
    match trouble {
        Trouble::Readers(pace) => folder.pace_readers(pace),
        Trouble::Writers(pace) => folder.pace_writers(pace),
        Trouble::Call(number) => folder.refuse_call(number),
        Trouble::WritersAndCall(pace, number) => {
            folder.pace_writers(pace);
            folder.refuse_call(number);
        }
        Trouble::NoLengths => folder.hide_lengths(),
        _ => {}
    }
}

// Whether the folder has under this name what must be left.
fn is_left(alloc: Global, folder: &MemoryFolder, name: &str, left: Left) -> bool {
    match left {
        Left::Absent => !folder.has(name),
        Left::Is(bytes) => has_bytes(folder, name, bytes),
        Left::Holds(number, plain) => holds(alloc, folder, name, number, plain),
    }
}

// Whether the folder is as the case says.
fn are_left(alloc: Global, folder: &MemoryFolder, case: &Case) -> bool {
    for (name, left) in case.left {
        if !is_left(alloc, folder, name, *left) {
            return false;
        }
    }
    true
}

// The options for `open_all` or `verify_all`, with one worker.
fn options_of<'a>(case: &Case<'a>) -> OpenOptions<'a> {
    OpenOptions {
        files: case.files,
        workers: 1,
        max_bytes: case.max_bytes,
        label: None,
        to: None,
        show: false,
    }
}

// The status of the case's run, or `None` if the options are invalid.
fn status_over<R: AllocGlobal + Threads + Clock + Wait + Sync, S: Fold>(
    rt: &R,
    file: &mut LedgerFile<S>,
    folder: &mut MemoryFolder,
    case: &Case,
    out: &mut MemoryOuts,
) -> Option<u8> {
    match case.work {
        Work::Seal { workers, lanes } => seal_over(
            rt,
            file,
            folder,
            case.files,
            out,
            case.max_bytes,
            workers,
            lanes,
        ),
        Work::SealLabelled { lanes, label } => {
            let shape = Shape::two(12, label).ok()?;
            seal_shaped(
                rt,
                file,
                folder,
                case.files,
                out,
                case.max_bytes,
                1,
                lanes,
                &shape,
            )
        }
        Work::Open => open_over(rt, folder, &options_of(case), false, out),
        Work::OpenTo(output) => {
            let to = Some(output);
            let options = OpenOptions {
                to,
                ..options_of(case)
            };
            open_over(rt, folder, &options, false, out)
        }
        Work::Verify => open_over(rt, folder, &options_of(case), true, out),
        Work::OpenLabelled(label) => {
            let label = Some(label);
            let options = OpenOptions {
                label,
                ..options_of(case)
            };
            open_over(rt, folder, &options, false, out)
        }
        Work::VerifyLabelled(label) => {
            let label = Some(label);
            let options = OpenOptions {
                label,
                ..options_of(case)
            };
            open_over(rt, folder, &options, true, out)
        }
        Work::Show => {
            let options = OpenOptions {
                show: true,
                ..options_of(case)
            };
            open_over(rt, folder, &options, true, out)
        }
    }
}

// Whether a run over this ledger file and folder ends as the case says.
pub(crate) fn ends_over<R: AllocGlobal + Threads + Clock + Wait + Sync, S: Fold>(
    rt: &R,
    file: &mut LedgerFile<S>,
    folder: &mut MemoryFolder,
    case: &Case,
) -> bool {
    let Some(mut out) = outs_of(rt.alloc(), case.trouble) else {
        return false;
    };
    make_trouble(folder, case.trouble);
    match status_over(rt, file, folder, case, &mut out) {
        Some(status) => is_told(status, &out, case) && are_left(rt.alloc(), folder, case),
        None => false,
    }
}

// The same over its own ledger file.
pub(crate) fn ends_in<R: AllocGlobal + Threads + Clock + Wait + Sync>(
    rt: &R,
    folder: &mut MemoryFolder,
    case: &Case,
) -> bool {
    match ledger_after(rt.alloc(), "") {
        Some(mut file) => ends_over(rt, &mut file, folder, case),
        None => false,
    }
}

// The same over the case's folder.
pub(crate) fn ends<R: AllocGlobal + Threads + Clock + Wait + Sync>(rt: &R, case: &Case) -> bool {
    match folder_of(rt.alloc(), case.folder) {
        Some(mut folder) => ends_in(rt, &mut folder, case),
        None => false,
    }
}
