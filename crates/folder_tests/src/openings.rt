//! A container in a folder in memory is opened in each of the two ways, and to a stream, and verified, whichever call
//! fails.
ghost use Rattle.std.specs.Prelude.{◌≡◌, ◌<◌, ◌^◌, IfSome, Some, length};
ghost use Rattle.folder_core.specs.Changes.{IsFresh, IsIdle};
ghost use Rattle.folder_tests.specs.Memory.{rest_of};

use crate::memory::MemoryFolder;
use crate::pages::Limits;
use command_core::{OpenOptions, Outs, UnpipeOptions, open_all, unpipe_all, verify_all};
use container_core::{Key, Shape, seal};
use folder_core::{Folder, Outputs, finish_or_discard};
use io_memory::{Schedule, ToMemory};
use std::alloc::Global;
use std::thread::Threads;
use std::time::Clock;

// No call fails, and files can be read again.
pub(crate) const NONE: Limits = Limits {
    writes: u64::MAX,
    ends: u64::MAX,
    reads: u64::MAX,
    turns: u64::MAX,
    can_repeat: true,
};

// The same, but a file can be read only once.
const ONCE: Limits = Limits {
    can_repeat: false,
    ..NONE
};

const PLAIN: &[u8] = b"forty-two";

const OPENED: &str = "opened a.stm bytes 9\n";

const READ_FAILED: &str = "failed a.stm: read failed\n";

// A folder in which `a.stm` is a container of that plaintext under this key, within these limits.
pub(crate) fn folder_within(alloc: Global, secret: [u8; 32], limits: Limits) -> Option<MemoryFolder>
    ensures idle { IfSome result (λ folder. IsIdle (rest_of folder.pages)) }
    ensures fresh { IfSome result (λ folder.
        IsFresh (rest_of folder.pages) (Some folder.pages.taken.items) folder.pages.failures) }
{
    let key = Key::new(secret);
    let shape = Shape::one();
    let Ok(sealed) = seal(alloc, &key, &shape, [0, 0, 1, 0, 0, 0, 3], PLAIN) else {
        return None;
    };
    let mut folder = MemoryFolder::new(alloc, secret, 1, 3, 3);
    let Ok(container) = folder.create("a.stm") else {
        return None;
    };
    folder.allow_container(container, 3, &shape);
    let Ok(_) = folder.write(sealed.as_slice()) else {
        return None;
    };
    let Ok(()) = finish_or_discard(&mut folder) else {
        return None;
    };
    folder.limit(limits);
    Some(folder)
}

// What is asked for.
#[derive(Drop)]
pub(crate) struct Asked<'n> {
    pub(crate) files: &'n [&'n str],
    pub(crate) to: Option<&'n str>,
    pub(crate) secret: u8,
    pub(crate) verifies: bool,
}

// The file is opened under its own key.
pub(crate) const OPEN: Asked<'static> = Asked {
    files: &["a.stm"],
    to: None,
    secret: 7,
    verifies: false,
};

// The options of it, with two workers.
fn options_of<'n>(asked: &Asked<'n>) -> OpenOptions<'n>
    ensures files { 0 < length asked.now.files.now → 0 < length result.files.now }
    ensures workers { result.workers ≡ 2 }
    ensures max_bytes { result.max_bytes ≡ 2 ^ 20 }
{
    OpenOptions {
        files: asked.files,
        workers: 2,
        max_bytes: 1 << 20,
        label: None,
        to: asked.to,
        show: false,
    }
}

// Whether a command prints this line, and no other, and has the status that goes with it. `false` also if memory is
// refused.
pub(crate) fn prints_over<T: Threads + Clock + Sync>(
    rt: &T,
    alloc: Global,
    asked: &Asked<'_>,
    folder: &mut MemoryFolder,
    line: &str,
) -> bool
    requires idle { IsIdle (rest_of folder.old.pages) }
{
    if asked.files.is_empty() {
        return false;
    }
    let Ok(lines) = ToMemory::new(alloc, 64, 64, Schedule::Never) else {
        return false;
    };
    let Ok(faults) = ToMemory::new(alloc, 1, 1, Schedule::Never) else {
        return false;
    };
    let journal: Option<ToMemory> = None;
    let mut out = Outs {
        lines,
        faults,
        journal,
    };
    let key = Key::new([asked.secret; 32]);
    let options = options_of(asked);
    let status = if asked.verifies {
        verify_all(rt, alloc, &key, folder, &options, &mut out)
    } else {
        open_all(rt, alloc, &key, folder, &options, &mut out)
    };
    out.lines.bytes() == line.as_bytes() && status == u8::from(line.starts_with("failed"))
}

// The same, and whether it leaves an output exactly where a file was opened, with the plaintext.
fn prints<T: Threads + Clock + Sync>(
    rt: &T,
    alloc: Global,
    asked: &Asked<'_>,
    limits: Limits,
    line: &str,
) -> bool {
    let Some(mut folder) = folder_within(alloc, [7; 32], limits) else {
        return false;
    };
    let is_printed = prints_over(rt, alloc, asked, &mut folder, line);
    let is_output = match folder.bytes("a") {
        Some(bytes) => line == OPENED && bytes.as_slice() == PLAIN,
        None => line != OPENED,
    };
    is_output && is_printed
}

// The same of `unpipe_all`, and whether a new stream took the plaintext exactly where the file was opened.
fn unpipes<T: Threads + Clock + Sync>(
    rt: &T,
    alloc: Global,
    secret: u8,
    limits: Limits,
    line: &str,
) -> bool {
    let Some(mut folder) = folder_within(alloc, [7; 32], limits) else {
        return false;
    };
    let Some(stream) = folder.new_stream() else {
        return false;
    };
    let Ok(mut lines) = ToMemory::new(alloc, 64, 64, Schedule::Never) else {
        return false;
    };
    let key = Key::new([secret; 32]);
    let options = UnpipeOptions {
        workers: 2,
        max_bytes: 1 << 20,
        label: None,
    };
    let status = unpipe_all(
        rt,
        alloc,
        &key,
        &mut folder,
        "a.stm",
        stream,
        &options,
        &mut lines,
    );
    let written = if line == OPENED { PLAIN } else { b"" };
    lines.bytes() == line.as_bytes()
        && status == u8::from(line.starts_with("failed"))
        && folder.taken() == written
}

// Whether the file is opened so, to a file or to a stream.
fn opens<T: Threads + Clock + Sync>(
    rt: &T,
    alloc: Global,
    to_stream: bool,
    limits: Limits,
    line: &str,
) -> bool {
    if to_stream {
        unpipes(rt, alloc, 7, limits, line)
    } else {
        prints(rt, alloc, &OPEN, limits, line)
    }
}

// How many reads an opening takes. Where fewer succeed its line says that a read failed; `None` if it says something else.
fn reads_of<T: Threads + Clock + Sync>(
    rt: &T,
    alloc: Global,
    to_stream: bool,
    limits: Limits,
) -> Option<u64> {
    for reads in 0..16u64 {
        let limits = Limits { reads, ..limits };
        if opens(rt, alloc, to_stream, limits, OPENED) {
            return Some(reads);
        }
        if !opens(rt, alloc, to_stream, limits, READ_FAILED) {
            return None;
        }
    }
    None
}

#[test]
fn both_ways_give_the_plaintext(rt: HostRuntime) {
    assert!(rt; prints(&rt, rt.alloc(), &OPEN, NONE, OPENED));
    assert!(rt; prints(&rt, rt.alloc(), &OPEN, ONCE, OPENED));
}

#[test]
fn a_file_that_is_verified_has_no_output(rt: HostRuntime) {
    let asked = Asked {
        verifies: true,
        ..OPEN
    };
    assert!(rt; prints(&rt, rt.alloc(), &asked, NONE, "good a.stm bytes 9\n"));
}

// Whether one folder with a record serves three commands in turn: the file is verified, opened, and refused, as its output
// exists by then. `false` also if memory is refused.
fn serves_in_turn<T: Threads + Clock + Sync>(rt: &T, alloc: Global, limits: Limits) -> bool {
    let Some(mut folder) = folder_within(alloc, [7; 32], limits) else {
        return false;
    };
    let Ok(lines) = ToMemory::new(alloc, 128, 64, Schedule::Never) else {
        return false;
    };
    let Ok(faults) = ToMemory::new(alloc, 1, 1, Schedule::Never) else {
        return false;
    };
    let journal: Option<ToMemory> = None;
    let mut out = Outs {
        lines,
        faults,
        journal,
    };
    let key = Key::new([7; 32]);
    let options = options_of(&OPEN);
    let verified = verify_all(rt, alloc, &key, &mut folder, &options, &mut out);
    let opened = open_all(rt, alloc, &key, &mut folder, &options, &mut out);
    let refused = open_all(rt, alloc, &key, &mut folder, &options, &mut out);
    let all = "good a.stm bytes 9\nopened a.stm bytes 9\nfailed a.stm: output exists\n";
    (verified, opened, refused) == (0, 0, 1) && out.lines.bytes() == all.as_bytes()
}

#[test]
fn a_folder_serves_one_command_after_another(rt: HostRuntime) {
    for limits in [NONE, ONCE] {
        assert!(rt; serves_in_turn(&rt, rt.alloc(), limits));
    }
}

#[test]
fn what_does_not_open_has_no_output(rt: HostRuntime) {
    let other = Asked { secret: 8, ..OPEN };
    let missing = Asked {
        files: &["b.stm"],
        ..OPEN
    };
    for limits in [NONE, ONCE] {
        let line = "failed a.stm: sealed under another key\n";
        assert!(rt; prints(&rt, rt.alloc(), &other, limits, line));
        assert!(rt;
            prints(
                &rt,
                rt.alloc(),
                &missing,
                limits,
                "failed b.stm: cannot open\n"
            )
        );
    }
}

#[test]
fn an_output_that_exists_is_refused(rt: HostRuntime) {
    let onto = Asked {
        to: Some("a.stm"),
        ..OPEN
    };
    for limits in [NONE, ONCE] {
        assert!(rt;
            prints(
                &rt,
                rt.alloc(),
                &onto,
                limits,
                "failed a.stm: output exists\n"
            )
        );
    }
}

#[test]
fn a_failed_write_or_end_leaves_no_output(rt: HostRuntime) {
    for limits in [NONE, ONCE] {
        let line = "failed a.stm: write failed\n";
        let writes = Limits {
            writes: 0,
            ..limits
        };
        let ends = Limits { ends: 0, ..limits };
        assert!(rt; prints(&rt, rt.alloc(), &OPEN, writes, line));
        assert!(rt; prints(&rt, rt.alloc(), &OPEN, ends, line));
    }
}

#[test]
fn a_failed_read_leaves_no_output(rt: HostRuntime) {
    let turns = Limits { turns: 0, ..NONE };
    assert!(rt; prints(&rt, rt.alloc(), &OPEN, turns, READ_FAILED));
    let (Some(once), Some(twice), Some(to_stream)) = (
        reads_of(&rt, rt.alloc(), false, ONCE),
        reads_of(&rt, rt.alloc(), false, NONE),
        reads_of(&rt, rt.alloc(), true, ONCE),
    ) else {
        panic!(rt; "an opening fails in another way");
    };
    // The second reading fails too. To a stream there always is one.
    assert!(rt; 0 < once && once < twice && to_stream == twice);
}

// A stream has no end that could fail.
#[test]
fn a_stream_takes_the_plaintext(rt: HostRuntime) {
    let ends = Limits { ends: 0, ..NONE };
    for limits in [NONE, ONCE, ends] {
        assert!(rt; unpipes(&rt, rt.alloc(), 7, limits, OPENED));
    }
}

#[test]
fn a_stream_takes_nothing_of_what_does_not_open(rt: HostRuntime) {
    let line = "failed a.stm: sealed under another key\n";
    assert!(rt; unpipes(&rt, rt.alloc(), 8, NONE, line));
    let turns = Limits { turns: 0, ..NONE };
    assert!(rt; unpipes(&rt, rt.alloc(), 7, turns, "failed a.stm: spool failed\n"));
    let writes = Limits { writes: 0, ..NONE };
    assert!(rt; unpipes(&rt, rt.alloc(), 7, writes, "failed a.stm: write failed\n"));
}
