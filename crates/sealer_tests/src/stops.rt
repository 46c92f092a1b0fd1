//! `seal_all` and `pipe_all` over the two files of a ledger. The next run goes on without the log of the first. Then a
//! disk stops: one of the two files fails from some call on. Each call in turn is the first to fail, until a run has no
//! stop.
use crate::cases::{Case, Left, Trouble, Work, ends_over};
use crate::pipes::{Run, stream_ends_over};
use crate::runs::{EMPTY, MemoryOuts, folder_of, has_bytes, ledger_over, seal_over, steady_outs};
use crate::streams::sealed_or_unreserved;
use folder_memory::MemoryFolder;
use reserve_core::{Fold, LedgerFile};
use sqlite::{Connection, FileStore, Files, Options};
use sqlite_disk::{Disk, Fuse, Memory};
use std::alloc::Global;
use std::sync::Wait;
use std::thread::Threads;
use std::time::Clock;

// All files here stop at some call, except those that must go on: they stop at none.
type Stopping = Fuse<Memory>;

// A file that stops at no call.
fn steady(alloc: Global) -> Stopping {
    Fuse::new(Memory::new(alloc), u64::MAX)
}

// What is done with a connection works with any store, since a function that drops a value over files costs far more to
// prove. Such a value is only moved.

// Opens a connection with these files, or returns the files. Its database has little memory, which is filled whenever
// one is opened.
fn connect<D: Disk + Drop>(
    alloc: Global,
    files: Files<D>,
) -> Result<Connection<FileStore<D>>, Files<D>> {
    if !files.may_be_used() {
        return Err(files);
    }
    let mut options = Options::new(1);
    options.cache_pages = 50;
    options.spill_pages = 50;
    match Connection::open_files(alloc, files, options) {
        Ok(conn) => Ok(conn),
        Err((_, left)) => Err(left.into_files()),
    }
}

// What is left of a folded ledger.
fn left_of<S: Fold>(file: LedgerFile<S>) -> Option<S::Left> {
    match file {
        LedgerFile::Folded(left) => Some(left),
        LedgerFile::Kept(_) | LedgerFile::Gone => None,
    }
}

// The database file of these files.
fn database_of(files: Option<Files<Stopping>>) -> Option<Stopping> {
    match files {
        Some(Files { log: _log, db }) => Some(db),
        None => None,
    }
}

// ---- the next run

// A run over the files of a ledger: of files in a folder, or of a stream.
#[derive(Clone, Copy)]
pub(crate) enum Next<'a> {
    Files(&'a Case<'a>),
    Stream(&'a Run<'a>),
}

// What a run leaves of this connection's files, if it ends as expected.
fn left_after<R: AllocGlobal + Threads + Clock + Wait + Sync, S: Fold>(
    rt: &R,
    conn: Connection<S>,
    folder: &mut MemoryFolder,
    next: Next,
) -> Option<S::Left> {
    let mut file = ledger_over(conn)?;
    let ends = match next {
        Next::Files(case) => ends_over(rt, &mut file, folder, case),
        Next::Stream(run) => stream_ends_over(rt, &mut file, run),
    };
    if ends { left_of(file) } else { None }
}

// The database file that a run with this file and an empty log leaves, if it ends as expected.
fn database_after<R: AllocGlobal + Threads + Clock + Wait + Sync>(
    rt: &R,
    db: Stopping,
    folder: &mut MemoryFolder,
    next: Next,
) -> Option<Stopping> {
    let log = steady(rt.alloc());
    match connect(rt.alloc(), Files { log, db }) {
        Ok(conn) => database_of(left_after(rt, conn, folder, next)),
        Err(_files) => None,
    }
}

// Whether two runs end as expected. The second has the database file that the first leaves. Streams don't look at the
// folder.
pub(crate) fn both_run<R: AllocGlobal + Threads + Clock + Wait + Sync>(
    rt: &R,
    folder: &mut MemoryFolder,
    first: Next,
    second: Next,
) -> bool {
    match database_after(rt, steady(rt.alloc()), folder, first) {
        Some(db) => database_after(rt, db, folder, second).is_some(),
        None => false,
    }
}

static FIRST_RUN: Case = Case {
    folder: &[],
    trouble: Trouble::Nothing,
    work: Work::Seal {
        workers: 1,
        lanes: 1,
    },
    files: &["a", "m", "a"],
    max_bytes: 1 << 30,
    status: 1,
    lines: b"sealed a file 0 bytes 0\nfailed m: cannot open\nfailed a: output exists\n",
    faults: b"",
    journal: b"range 1 0 3 1\n0 issue 0\n0 sealed 0\n",
    left: &[("a.stm", Left::Is(&EMPTY)), ("m.stm", Left::Absent)],
};

// The run after it, of 65,537 bytes.
fn second_run<'a>(left: &'a [(&'a str, Left<'a>)]) -> Case<'a> {
    Case {
        folder: &[],
        trouble: Trouble::Nothing,
        work: Work::Seal {
            workers: 1,
            lanes: 1,
        },
        files: &["b"],
        max_bytes: 1 << 30,
        status: 0,
        lines: b"sealed b file 3 bytes 65537\n",
        faults: b"",
        journal: b"range 1 3 1 1\n0 issue 3\n0 sealed 3\n",
        left,
    }
}

fn goes_on_without_log<R: AllocGlobal + Threads + Clock + Wait + Sync>(rt: &R) -> Option<bool> {
    let plain = vec![in rt.alloc(); 7u8; 65_537].ok()?;
    let mut folder = folder_of(rt.alloc(), &[("a", b""), ("b", plain.as_slice())])?;
    let left = [("b.stm", Left::Holds(3, plain.as_slice()))];
    let second = second_run(&left);
    let (first, second) = (Next::Files(&FIRST_RUN), Next::Files(&second));
    Some(both_run(rt, &mut folder, first, second))
}

#[test]
fn a_second_run_without_the_log_goes_on_behind_the_numbers_of_the_first(rt: HostRuntime) {
    assert!(rt; goes_on_without_log(&rt) == Some(true));
}

// ---- stops

// How a run ended.
#[derive(Clone, Copy)]
enum End {
    // The ledger file could not be opened.
    Unopened,
    // It was open, but no number was reserved or the log wasn't copied. Nothing was touched, and the text says so.
    Refused,
    // The file or the stream was sealed.
    Sealed,
    Other,
}

// The end of `seal_all` with a file, or of `pipe_all` with a stream.
fn end_over<R: AllocGlobal + Threads + Clock + Wait + Sync, S: Fold>(
    rt: &R,
    file: &mut LedgerFile<S>,
    pipes: bool,
) -> Option<End> {
    if pipes {
        return Some(match sealed_or_unreserved(rt, file) {
            Some(true) => End::Sealed,
            Some(false) => End::Refused,
            None => End::Other,
        });
    }
    let mut folder = folder_of(rt.alloc(), &[("a", b"")])?;
    let mut out = steady_outs(rt.alloc())?;
    let status = seal_over(rt, file, &mut folder, &["a"], &mut out, 8, 1, 1)?;
    Some(end_of(status, &folder, &out))
}

fn end_of(status: u8, folder: &MemoryFolder, out: &MemoryOuts) -> End {
    let faults = out.faults.bytes();
    if status == 0 && faults.is_empty() && has_bytes(folder, "a.stm", &EMPTY) {
        End::Sealed
    } else if status == 2
        && faults == b"ledger: store failed\n".as_slice()
        && out.lines.bytes().is_empty()
        && !folder.has("a.stm")
    {
        End::Refused
    } else {
        End::Other
    }
}

// The end of a run over this connection.
fn end_of_run<R: AllocGlobal + Threads + Clock + Wait + Sync, S: Fold>(
    rt: &R,
    conn: Connection<S>,
    pipes: bool,
) -> Option<End> {
    match ledger_over(conn) {
        Some(mut file) => end_over(rt, &mut file, pipes),
        None => Some(End::Unopened),
    }
}

// The end of a run whose two files fail each call after the first `log_calls` and `db_calls`.
fn end_after<R: AllocGlobal + Threads + Clock + Wait + Sync>(
    rt: &R,
    log_calls: u64,
    db_calls: u64,
    pipes: bool,
) -> Option<End> {
    let log = Fuse::new(Memory::new(rt.alloc()), log_calls);
    let db = Fuse::new(Memory::new(rt.alloc()), db_calls);
    match connect(rt.alloc(), Files { log, db }) {
        Ok(conn) => end_of_run(rt, conn, pipes),
        Err(_files) => Some(End::Unopened),
    }
}

// How many runs were refused before the first that sealed, or `None` if one ended otherwise.
fn refused_before<R: AllocGlobal + Threads + Clock + Wait + Sync>(
    rt: &R,
    of_log: bool,
    pipes: bool,
) -> Option<u32> {
    let mut refused = 0u32;
    for calls in 0..1000u64 {
        let end = if of_log {
            end_after(rt, calls, u64::MAX, pipes)?
        } else {
            end_after(rt, u64::MAX, calls, pipes)?
        };
        match end {
            End::Unopened => {}
            End::Refused => refused = refused.saturating_add(1),
            End::Sealed => return Some(refused),
            End::Other => return None,
        }
    }
    None
}

// Whether some runs are refused, and each ends in one of these ways.
fn are_refused<R: AllocGlobal + Threads + Clock + Wait + Sync>(
    rt: &R,
    of_log: bool,
    pipes: bool,
) -> bool {
    match refused_before(rt, of_log, pipes) {
        Some(refused) => refused > 0,
        None => false,
    }
}

#[test]
fn where_the_disk_of_the_ledger_stops_no_file_is_touched(rt: HostRuntime) {
    assert!(rt; are_refused(&rt, true, false));
    assert!(rt; are_refused(&rt, false, false));
}

#[test]
fn where_the_disk_of_the_ledger_stops_no_stream_is_read(rt: HostRuntime) {
    assert!(rt; are_refused(&rt, true, true));
    assert!(rt; are_refused(&rt, false, true));
}
