//! `seal_all` of three files with one lane and one refused growth. Run it with each allocation refused in turn
//! (`tools/refused_tests.py`).
use crate::runs::{
    MemoryLedger, MemoryOuts, folder_of, has_counts, holds, journal_of, ledger_after, seal_over,
    steady_outs,
};
use folder_memory::MemoryFolder;
use std::alloc::Global;
use std::sync::Wait;
use std::thread::Threads;

static FILES: [(&str, &[u8]); 3] = [("a", b"1"), ("b", b"22"), ("c", b"333")];

static OUTPUTS: [&str; 3] = ["a.stm", "b.stm", "c.stm"];

// An injected refusal comes once, so the second call succeeds.

fn folder_again(alloc: Global) -> Option<MemoryFolder> {
    match folder_of(alloc, &FILES) {
        None => folder_of(alloc, &FILES),
        folder => folder,
    }
}

fn ledger_again(alloc: Global) -> Option<MemoryLedger> {
    match ledger_after(alloc, "") {
        None => ledger_after(alloc, ""),
        file => file,
    }
}

fn outs_again(alloc: Global) -> Option<MemoryOuts> {
    match steady_outs(alloc) {
        None => steady_outs(alloc),
        out => out,
    }
}

// How many of the outputs exist, each with its plaintext under one of the three numbers.
fn outputs_in(alloc: Global, folder: &MemoryFolder) -> Option<usize> {
    let mut there = 0usize;
    for (output, (_, plain)) in OUTPUTS.iter().zip(&FILES) {
        if folder.has(output) {
            if !holds_any(alloc, folder, output, plain) {
                return None;
            }
            there = there.saturating_add(1);
        }
    }
    Some(there)
}

fn holds_any(alloc: Global, folder: &MemoryFolder, output: &str, plain: &[u8]) -> bool {
    for number in 0..3u8 {
        if holds(alloc, folder, output, number, plain) {
            return true;
        }
    }
    false
}

// How many of the lines say that their file was sealed, and how many that it failed for lack of memory. If
// a file has a line, its output exists exactly if the line says that it was sealed.
fn told_in(folder: &MemoryFolder, text: &str) -> Option<(usize, usize)> {
    let mut lines = text.lines();
    let (mut sealed, mut failed) = (0usize, 0usize);
    for (output, (name, _)) in OUTPUTS.iter().zip(&FILES) {
        let Some(line) = lines.next() else {
            return Some((sealed, failed));
        };
        let there = folder.has(output);
        if is_of(line, "sealed ", name) && there {
            sealed = sealed.saturating_add(1);
        } else if is_of(line, "failed ", name) && lacks_memory(line) && !there {
            failed = failed.saturating_add(1);
        } else {
            return None;
        }
    }
    if lines.next().is_none() {
        Some((sealed, failed))
    } else {
        None
    }
}

// Whether a line ends as for a file that was refused memory. The folder in memory reports that as its own failure.
fn lacks_memory(line: &str) -> bool {
    for fault in &FAULTS {
        if line.ends_with(*fault) {
            return true;
        }
    }
    false
}

static FAULTS: [&str; 4] = [
    ": out of memory",
    ": cannot open",
    ": cannot create",
    ": write failed",
];

// Whether a line begins with this word and this name.
fn is_of(line: &str, word: &str, name: &str) -> bool {
    match line.strip_prefix(word) {
        Some(rest) => rest.starts_with(name),
        None => false,
    }
}

// Whether a complete journal is legal with nothing open. The number of each sealed file must be sealed, and a failed
// file has a void number or none.
fn is_closed(alloc: Global, journal: &[u8], there: usize) -> bool {
    (there < 3 && has_counts(alloc, journal, there, 1)) || has_counts(alloc, journal, there, 0)
}

// Whether a run left and printed what it must, if at most one growth was refused.
fn is_kept(alloc: Global, folder: &MemoryFolder, out: &MemoryOuts, status: u8) -> Option<bool> {
    let text = std::str::from_utf8(out.lines.bytes()).ok()?;
    let (sealed, failed) = told_in(folder, text)?;
    let there = outputs_in(alloc, folder)?;
    let journal = journal_of(out);
    let whole = is_closed(alloc, journal, there);
    let faults = std::str::from_utf8(out.faults.bytes()).ok()?;
    Some(match (status, faults) {
        (0, "") => sealed == 3 && whole,
        (1, "") => (sealed, failed, there) == (2, 1, 2) && whole,
        // There was no memory for a line.
        (2, "") => { sealed < 3 && failed == 0 && there == 3 && has_counts(alloc, journal, 3, 0) }
        (2, "journal: out of memory\n") => sealed == 3 && journal.is_empty(),
        (2, "ledger: out of memory\n") => {
            (sealed, failed, there) == (0, 0, 0) && journal.is_empty()
        }
        _ => false,
    })
}

fn seals_or_lacks_memory<R: AllocGlobal + Threads + Wait + Sync>(rt: &R) -> Option<bool> {
    let alloc = rt.alloc();
    let mut folder = folder_again(alloc)?;
    let mut file = ledger_again(alloc)?;
    let mut out = outs_again(alloc)?;
    let status = seal_over(
        rt,
        &mut file,
        &mut folder,
        &["a", "b", "c"],
        &mut out,
        8,
        1,
        1,
    )?;
    match is_kept(alloc, &folder, &out, status) {
        Some(true) => Some(true),
        _ => is_kept(alloc, &folder, &out, status),
    }
}

#[test]
fn a_refused_growth_leaves_a_legal_journal(rt: HostRuntime) {
    assert!(rt; seals_or_lacks_memory(&rt) == Some(true));
}
