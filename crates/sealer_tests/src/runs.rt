//! What the tests of the commands share: containers made by Python's `cryptography`, folders, ledger files and outputs
//! in memory, and a run of a command over them.
ghost use Rattle.std.specs.Prelude.{IfSome};
ghost use Rattle.folder_core.specs.Changes.{IsIdle, IsUnstarted};

use command_core::{open_all, verify_all};
use container_core::{Key, Shape, open};
use folder_core::{Folder, OpeningFolder};
use folder_memory::MemoryFolder;
use io_memory::{FromMemory, Schedule, ToMemory};
use ledger_core::Device;
use reserve_core::{Fold, Keeper, LedgerFile, Unwitnessed};
use sealer_core::{OpenOptions, Outs, SealOptions, SealingOutputs, run_audit, seal_all};
use sqlite::{Connection, MemStore};
use std::alloc::{AllocError, Global};
use std::sync::Wait;
use std::thread::Threads;
use std::time::Clock;

const COUNTING: [u8; 32] = [
    0, 1, 2, 3, 4, 5, 6, 7, 8, 9, 10, 11, 12, 13, 14, 15, 16, 17, 18, 19, 20, 21, 22, 23, 24, 25,
    26, 27, 28, 29, 30, 31,
];

// The key 00 01 .. 1f.
pub(crate) fn counting_key() -> Key {
    Key::new(COUNTING)
}

// Of the empty plaintext.
pub(crate) const EMPTY: [u8; 40] = [
    0x53, 0x54, 0x52, 0x4d, 0x53, 0x45, 0x41, 0x4c, 0x01, 0x10, 0x00, 0x00, 0x01, 0x00, 0x00, 0x00,
    0x00, 0x63, 0x0d, 0xcd, 0x29, 0x66, 0xc4, 0x33, 0x27, 0x55, 0xaa, 0x90, 0x44, 0xd3, 0x91, 0x66,
    0x88, 0xa3, 0x63, 0xf0, 0x4a, 0x03, 0x69, 0x2e,
];

// The first 10 bytes of each container of version 1.
pub(crate) const BEGUN: [u8; 10] = [0x53, 0x54, 0x52, 0x4d, 0x53, 0x45, 0x41, 0x4c, 0x01, 0x10];

// Of `a secret`.
pub(crate) const SECRET: [u8; 48] = [
    0x53, 0x54, 0x52, 0x4d, 0x53, 0x45, 0x41, 0x4c, 0x01, 0x10, 0x00, 0x00, 0x01, 0x00, 0x00, 0x00,
    0x00, 0x63, 0x0d, 0xcd, 0x29, 0x66, 0xc4, 0x33, 0x3d, 0x35, 0x01, 0x31, 0x22, 0x7b, 0x94, 0xc7,
    0x75, 0x9d, 0xd8, 0xfc, 0x0d, 0xdf, 0x00, 0x33, 0x6f, 0x9c, 0xfe, 0x5a, 0xdf, 0xfe, 0x5b, 0x81,
];

// Of `a secret`, in chunks of 4,096 bytes with the label `db dump`.
pub(crate) const LABELLED: [u8; 56] = [
    0x53, 0x54, 0x52, 0x4d, 0x53, 0x45, 0x41, 0x4c, 0x02, 0x0c, 0x00, 0x00, 0x01, 0x00, 0x00, 0x00,
    0x00, 0x63, 0x0d, 0xcd, 0x29, 0x66, 0xc4, 0x33, 0x07, 0x64, 0x62, 0x20, 0x64, 0x75, 0x6d, 0x70,
    0x3d, 0x35, 0x01, 0x31, 0x22, 0x7b, 0x94, 0xc7, 0x55, 0xb4, 0xb9, 0xe6, 0x36, 0xb0, 0x86, 0x2c,
    0x11, 0x12, 0x58, 0xdb, 0x14, 0x5c, 0xd0, 0x6c,
];

// Of `a secret`, in chunks of 4,096 bytes with the label `db-dump`, for files 0 and 1.
pub(crate) const DUMPED_0: [u8; 56] = [
    0x53, 0x54, 0x52, 0x4d, 0x53, 0x45, 0x41, 0x4c, 0x02, 0x0c, 0x00, 0x00, 0x01, 0x00, 0x00, 0x00,
    0x00, 0x63, 0x0d, 0xcd, 0x29, 0x66, 0xc4, 0x33, 0x07, 0x64, 0x62, 0x2d, 0x64, 0x75, 0x6d, 0x70,
    0x3d, 0x35, 0x01, 0x31, 0x22, 0x7b, 0x94, 0xc7, 0xa0, 0x6f, 0x70, 0xaa, 0xc8, 0xeb, 0xdb, 0xe1,
    0x86, 0x48, 0x59, 0x4e, 0x45, 0x65, 0x57, 0xe0,
];

pub(crate) const DUMPED_1: [u8; 56] = [
    0x53, 0x54, 0x52, 0x4d, 0x53, 0x45, 0x41, 0x4c, 0x02, 0x0c, 0x00, 0x00, 0x01, 0x00, 0x00, 0x00,
    0x01, 0x63, 0x0d, 0xcd, 0x29, 0x66, 0xc4, 0x33, 0x07, 0x64, 0x62, 0x2d, 0x64, 0x75, 0x6d, 0x70,
    0xf7, 0x80, 0x53, 0x38, 0x61, 0x1c, 0x59, 0x16, 0xe5, 0x20, 0xbf, 0x01, 0xf5, 0x49, 0x47, 0x9c,
    0xef, 0x1b, 0x7e, 0x94, 0x01, 0xb7, 0x5c, 0x3b,
];

// `LABELLED` without its last byte.
pub(crate) const CUT: [u8; 55] = [
    0x53, 0x54, 0x52, 0x4d, 0x53, 0x45, 0x41, 0x4c, 0x02, 0x0c, 0x00, 0x00, 0x01, 0x00, 0x00, 0x00,
    0x00, 0x63, 0x0d, 0xcd, 0x29, 0x66, 0xc4, 0x33, 0x07, 0x64, 0x62, 0x20, 0x64, 0x75, 0x6d, 0x70,
    0x3d, 0x35, 0x01, 0x31, 0x22, 0x7b, 0x94, 0xc7, 0x55, 0xb4, 0xb9, 0xe6, 0x36, 0xb0, 0x86, 0x2c,
    0x11, 0x12, 0x58, 0xdb, 0x14, 0x5c, 0xd0,
];

// Of the empty plaintext, with the empty label.
pub(crate) const BARE: [u8; 41] = [
    0x53, 0x54, 0x52, 0x4d, 0x53, 0x45, 0x41, 0x4c, 0x02, 0x10, 0x00, 0x00, 0x01, 0x00, 0x00, 0x00,
    0x00, 0x63, 0x0d, 0xcd, 0x29, 0x66, 0xc4, 0x33, 0x00, 0xc2, 0x2a, 0x78, 0x1a, 0xe4, 0xf7, 0xb5,
    0x71, 0x0b, 0xd6, 0xf9, 0x6a, 0x15, 0xe2, 0xe1, 0xff,
];

// Of the empty plaintext, in chunks of 1 MiB with the label `ESC [2J"\`, a line feed and `ä`.
pub(crate) const ODD: [u8; 50] = [
    0x53, 0x54, 0x52, 0x4d, 0x53, 0x45, 0x41, 0x4c, 0x02, 0x14, 0x00, 0x00, 0x01, 0x00, 0x00, 0x00,
    0x00, 0x63, 0x0d, 0xcd, 0x29, 0x66, 0xc4, 0x33, 0x09, 0x1b, 0x5b, 0x32, 0x4a, 0x22, 0x5c, 0x0a,
    0xc3, 0xa4, 0xa9, 0x41, 0x91, 0x26, 0x70, 0x2a, 0xd3, 0x35, 0x9e, 0xe0, 0xe6, 0xb4, 0xec, 0x7d,
    0x6e, 0xa1,
];

pub(crate) type MemoryOuts = Outs<ToMemory, ToMemory, ToMemory>;

pub(crate) type MemoryLedger = LedgerFile<MemStore>;

// Outputs whose lines and journal fail by these schedules.
pub(crate) fn outs(alloc: Global, lines: Schedule, journal: Schedule) -> Option<MemoryOuts> {
    let lines = ToMemory::new(alloc, 4096, 4096, lines).ok()?;
    let faults = ToMemory::new(alloc, 64, 64, Schedule::Never).ok()?;
    let journal = Some(ToMemory::new(alloc, 4096, 4096, journal).ok()?);
    Some(Outs {
        lines,
        faults,
        journal,
    })
}

pub(crate) fn steady_outs(alloc: Global) -> Option<MemoryOuts> {
    outs(alloc, Schedule::Never, Schedule::Never)
}

// The ledger over a connection.
pub(crate) fn ledger_over<S: Fold>(conn: Connection<S>) -> Option<LedgerFile<S>> {
    match Keeper::open(conn) {
        Ok(keeper) => Some(LedgerFile::Kept(keeper)),
        Err(_) => None,
    }
}

// A ledger in memory after these statements.
pub(crate) fn ledger_after(alloc: Global, sql: &str) -> Option<MemoryLedger> {
    let mut conn = Connection::open_in_memory(alloc).ok()?;
    conn.execute_batch(sql).ok()?;
    ledger_over(conn)
}

pub(crate) fn journal_of(out: &MemoryOuts) -> &[u8] {
    match &out.journal {
        Some(journal) => journal.bytes(),
        None => &[],
    }
}

// Whether the audit of this journal finds it legal and writes this line.
pub(crate) fn is_legal(alloc: Global, journal: &[u8], line: &[u8]) -> bool {
    let mut reader = FromMemory::new(journal, 4096, Schedule::Never);
    let Ok(mut verdict) = ToMemory::new(alloc, 256, 256, Schedule::Never) else {
        return false;
    };
    let status = run_audit(alloc, &mut reader, &mut verdict);
    status == Ok(0) && verdict.bytes() == line
}

// Whether the journal is legal, with `sealed` numbers sealed, `void` void and none open.
pub(crate) fn has_counts(alloc: Global, journal: &[u8], sealed: usize, void: usize) -> bool {
    let granted = sealed.saturating_add(void);
    let text = format!(in alloc;
        "legal: {granted} granted, {sealed} sealed, {void} void, 0 open, 0 refused\n"
    );
    match text {
        Ok(text) => is_legal(alloc, journal, text.as_bytes()),
        Err(AllocError) => false,
    }
}

// A folder with these files.
pub(crate) fn folder_of(alloc: Global, files: &[(&str, &[u8])]) -> Option<MemoryFolder> {
    let mut folder = MemoryFolder::new(alloc);
    if has_put(&mut folder, files) {
        Some(folder)
    } else {
        None
    }
}

fn has_put(folder: &mut MemoryFolder, files: &[(&str, &[u8])]) -> bool {
    for (name, bytes) in files {
        if !folder.put(name, bytes) {
            return false;
        }
    }
    true
}

pub(crate) fn has_bytes(folder: &MemoryFolder, name: &str, bytes: &[u8]) -> bool {
    match folder.bytes(name) {
        Some(found) => found.as_slice() == bytes,
        None => false,
    }
}

// Whether the container with this name has the prefix of this number, and this plaintext.
pub(crate) fn holds(
    alloc: Global,
    folder: &MemoryFolder,
    name: &str,
    number: u8,
    plain: &[u8],
) -> bool {
    match folder.bytes(name) {
        Some(sealed) => opens_to(alloc, sealed.as_slice(), number, plain),
        None => false,
    }
}

fn opens_to(alloc: Global, sealed: &[u8], number: u8, plain: &[u8]) -> bool {
    // `STRMSEAL`, version 1, chunks of 2^16 bytes, device 1, the number.
    let begin = [
        0x53, 0x54, 0x52, 0x4d, 0x53, 0x45, 0x41, 0x4c, 1, 16, 0, 0, 1, 0, 0, 0, number,
    ];
    match open(alloc, &counting_key(), sealed) {
        Ok(opened) => opened.as_slice() == plain && sealed.starts_with(&begin),
        Err(_) => false,
    }
}

// The status of `seal_all` with the key above and device 1, for containers of version 1; `None` if the options are
// invalid.
pub(crate) fn seal_over<
    R: AllocGlobal + Threads + Wait + Sync,
    S: Fold,
    F: Folder + SealingOutputs,
>(
    rt: &R,
    file: &mut LedgerFile<S>,
    folder: &mut F,
    files: &[&str],
    out: &mut MemoryOuts,
    max_bytes: u64,
    workers: u32,
    lanes: u32,
) -> Option<u8>
    requires unstarted { IfSome (F.rest folder.old) IsUnstarted }
{
    let shape = Shape::one();
    seal_shaped(
        rt, file, folder, files, out, max_bytes, workers, lanes, &shape,
    )
}

// `seal_over` for containers of this shape.
pub(crate) fn seal_shaped<
    R: AllocGlobal + Threads + Wait + Sync,
    S: Fold,
    F: Folder + SealingOutputs,
>(
    rt: &R,
    file: &mut LedgerFile<S>,
    folder: &mut F,
    files: &[&str],
    out: &mut MemoryOuts,
    max_bytes: u64,
    workers: u32,
    lanes: u32,
    shape: &Shape,
) -> Option<u8>
    requires unstarted { IfSome (F.rest folder.old) IsUnstarted }
{
    let device = Device::new(1)?;
    if files.is_empty() || max_bytes > 1 << 40 {
        return None;
    }
    if workers == 0 || workers > 16 || lanes == 0 || lanes > 16 {
        return None;
    }
    let options = SealOptions {
        device,
        files,
        workers,
        lanes,
        window: 16,
        max_bytes,
        shape,
    };
    let key = counting_key();
    Some(seal_all(
        rt,
        rt.alloc(),
        &key,
        file,
        &mut Unwitnessed,
        folder,
        &options,
        out,
    ))
}

// The status of `open_all` or `verify_all` with that key; `None` if the options are invalid.
pub(crate) fn open_over<R: AllocGlobal + Threads + Clock + Sync, F: OpeningFolder>(
    rt: &R,
    folder: &mut F,
    options: &OpenOptions,
    verifies: bool,
    out: &mut MemoryOuts,
) -> Option<u8>
    requires idle { IsIdle (F.rest folder.old) }
{
    if options.files.is_empty() || options.max_bytes > 1 << 40 {
        return None;
    }
    if options.workers == 0 || options.workers > 16 {
        return None;
    }
    let key = counting_key();
    if verifies {
        Some(verify_all(rt, rt.alloc(), &key, folder, options, out))
    } else {
        Some(open_all(rt, rt.alloc(), &key, folder, options, out))
    }
}
