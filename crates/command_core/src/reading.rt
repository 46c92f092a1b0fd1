//! Checking or opening a container, and comparing its label.
ghost use Rattle.std.specs.Prelude.{◌≡◌, ◌<◌, ◌≤◌, ℕ, List, Bool, IfErr, IfOk, IfSome, Option, option_map};
ghost use Rattle.io_core.specs.Streams.{counted};
ghost use Rattle.opening_core.specs.Engine.{HasHeader, OpensTo};
ghost use Rattle.opening_core.specs.Workers.{AreWorkers};
ghost use Rattle.command_core.specs.Again.{IsGood};
ghost use Rattle.command_core.specs.Labels.{IsLabelled};
ghost use Rattle.command_core.specs.Work.{IsFaultOf, IsOfOpening, IsOfVerifying, IsOpenable, file_read_failed};
ghost use Rattle.command_core.specs.Work.{workers_worth};

use crate::label::is_labelled;
use crate::line::{FileFault, FileOutcome};
use claim_core::{Free, MAX_WORKERS};
use container_core::{Header, Key, MAX_EXPONENT, MAX_OPENED};
use ledger_core::Source;
use opening_core::{Plaintext, Workers, check_beside, read_beside};
use std::alloc::Global;
use std::thread::Threads;
use std::time::Clock;

// The bytes of room for each worker that are held free while threads are started: five windows of a chunk each, of the
// largest. A thread's stack takes address space too, and would leave none where that is limited.
const RESERVE: usize = 5 << MAX_EXPONENT;

// The bytes of a file for each of its workers. One reads about as many in the time that three threads take to start.
const SHARE: u64 = 1 << 20;

/// Returns how many of `workers` workers a file is worth: one for each MiB, and at least one. All of them if the file's
/// length isn't known.
pub(crate) fn workers_for(bytes: Option<u64>, workers: u32) -> u32
    requires { 0 < workers }
    ensures value { result ≡ workers_worth bytes workers }
    ensures some { 0 < result }
    ensures most { result ≤ workers }
{
    match bytes {
        Some(bytes) => (bytes / SHARE).max(1).min(u64::from(workers)) as u32,
        None => workers,
    }
}

/// Returns how many workers are to last, from a file of this length on: as many as it is worth if it is the last one, or
/// else all. One if it isn't worth several, or its length isn't known.
pub(crate) fn workers_from(bytes: Option<u64>, workers: u32, is_last: bool) -> u32
    requires { 0 < workers }
    ensures some { 0 < result }
    ensures most { result ≤ workers }
{
    let worth = workers_for(bytes, workers);
    if bytes.is_none() || worth == 1 {
        1
    } else if is_last {
        worth
    } else {
        workers
    }
}

/// Returns the room that is held free while this many workers are started, with the caller's thread. `None` if there
/// isn't as much: then that goes on alone, as the room of a reading would be refused beside their stacks.
pub(crate) fn room_to_start(alloc: Global, workers: u32) -> Option<Vec<u8>>
    requires { workers ≤ MAX_WORKERS }
{
    Vec::with_capacity(alloc, workers as usize * RESERVE).ok()
}

/// Checks the whole container that a reader gives, and its label. Returns its header, and its number of plaintext bytes.
pub(crate) fn check_labelled<'b, 'a, T: Threads + Clock + Sync, R: Source>(
    rt: &T,
    alloc: Global,
    key: &'a Key,
    reader: &mut R,
    max_bytes: u64,
    workers: Workers<'b, 'a>,
    label: Option<&[u8]>,
) -> Result<(Header, u64), FileFault>
    requires max_bytes { max_bytes ≤ MAX_OPENED }
    requires workers { AreWorkers workers }
    ensures good { IfOk result (λ checked. IfSome (R.left reader.old) (λ input.
        OpensTo key.now max_bytes input checked.1 × IsLabelled (option_map (λ b. b.now) label.entry) input)) }
    ensures header { IfOk result (λ checked. IfSome (R.left reader.old) (HasHeader checked.0)) }
    // What has this header has the label.
    ensures label { IfOk result (λ checked. (input : List ℕ) → HasHeader checked.0 input
        → IsLabelled (option_map (λ b. b.now) label.entry) input) }
    ensures exact { IfErr result (λ fault. IfSome (R.left reader.old) (λ input.
        IsFaultOf key.now max_bytes (option_map (λ b. b.now) label.entry) input fault)) }
    ensures verifying { IfErr result (λ fault. (show : Bool) → IsOfVerifying show (FileOutcome.Failed fault)) }
    ensures opening { IfErr result (λ fault. (to : Option (List ℕ)) (name : List ℕ) → IsOpenable to name
        → IsOfOpening to name (FileOutcome.Failed fault)) }
    ensures read { R.failures reader.new ≡ counted (file_read_failed result) (R.failures reader.old) }
{
    match check_beside(rt, alloc, key, reader, max_bytes, workers, &Free) {
        Ok((header, n)) if is_labelled(&header, label) => Ok((header, n)),
        Ok(_) => Err(FileFault::AnotherLabel),
        Err(fault) => Err(FileFault::Unopened(fault)),
    }
}

/// Returns the plaintext of the container that a reader gives, after all of it was checked, and its label.
pub(crate) fn read_labelled<'b, 'a, T: Threads + Clock + Sync, R: Source>(
    rt: &T,
    alloc: Global,
    key: &'a Key,
    reader: &mut R,
    max_bytes: u64,
    workers: Workers<'b, 'a>,
    label: Option<&[u8]>,
) -> Result<Plaintext, FileFault>
    requires max_bytes { max_bytes ≤ MAX_OPENED }
    requires workers { AreWorkers workers }
    ensures plaintext { IfOk result (λ plain. IfSome (R.left reader.old) (λ input.
        IsGood key.now max_bytes (option_map (λ b. b.now) label.entry) input plain)) }
    ensures exact { IfErr result (λ fault. IfSome (R.left reader.old) (λ input.
        IsFaultOf key.now max_bytes (option_map (λ b. b.now) label.entry) input fault)) }
    ensures opening { IfErr result (λ fault. (to : Option (List ℕ)) (name : List ℕ) → IsOpenable to name
        → IsOfOpening to name (FileOutcome.Failed fault)) }
    ensures read { R.failures reader.new ≡ counted (file_read_failed result) (R.failures reader.old) }
{
    match read_beside(rt, alloc, key, reader, max_bytes, workers, &Free) {
        Ok((header, plain)) if is_labelled(&header, label) => Ok(plain),
        Ok(_) => Err(FileFault::AnotherLabel),
        Err(fault) => Err(FileFault::Unopened(fault)),
    }
}
