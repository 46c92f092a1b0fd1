//! A whole container sealed or opened with several workers, and a round of one sealed.
ghost use Rattle.std.specs.Prelude.{◌≡◌, ℕ, ◌+◌, ◌*◌, ◌^◌, ◌<◌, ◌≤◌, ◌++◌, ◌⊎◌};
ghost use Rattle.std.specs.Prelude.{List, true, false, None, length, Ok, Err};
ghost use Rattle.std.specs.Prelude.{IfOk, IfErr, OnOk, OnErr};
ghost use Rattle.container_core.specs.Chunks.{chunk_count, chunks};
ghost use Rattle.container_core.specs.Container.{container, size_in};
ghost use Rattle.container_core.specs.Opening.{early_fault, opening};
ghost use Rattle.container_core.specs.Stream.{stream, stream_by};
ghost use Rattle.crew_core.specs.Spending.{spent_as};
ghost use Rattle.journal_core.specs.declared.entry.Way.TheVariants.{Sealed, Void};
ghost use Rattle.ledger_core.specs.Range.{prefix_of};

use crate::rounds::{RoundRooms, open_in_rounds, seal_rounds};
use claim_core::{Gate, MAX_WINDOW, MAX_WORKERS};
use container_core::laws::{
    chunks_by_number, headers_name_their_shape, opening_faults, rounds_of_a_stream, rounds_open,
};
use container_core::{
    Cut, Header, Key, MAX_HEADER, MAX_OPENED, MAX_PLAIN, OpenFault, Shape, TAG, begin,
};
use ledger_core::{Grant, Spent};
use std::alloc::{AllocError, Global};
use std::thread::Threads;
use worker_core::Task;

// Returns `front` and after it the sealed chunks. Allocates all memory before the first is sealed.
fn sealed_behind<R: Threads + Sync, G: Gate + Sync>(
    rt: &R,
    alloc: Global,
    front: &[u8],
    key: &Key,
    header: &Header,
    first: u32,
    last: bool,
    plain: &[u8],
    workers: u32,
    gate: &G,
) -> Result<Vec<u8>, AllocError>
    requires front { length front.now ≤ MAX_HEADER }
    requires plain { length plain.now ≤ MAX_PLAIN }
    requires numbers { first + chunk_count (size_in header.now) (length plain.now) ≤ 2 ^ 32 }
    requires workers { (0 < workers) × (workers ≤ MAX_WORKERS) }
    ensures { IfOk result (λ out. out.items
        ≡ front.now ++ stream_by key.now header.now first last (chunks (size_in header.now) plain.now)) }
{
    let bytes = plain.len() as u64;
    let chunks = Cut::of(header, bytes).count();
    let rooms = RoundRooms::new(alloc, Task::Sealing, header.chunk(), chunks, workers)?;
    let behind = plain.len() + TAG * chunks as usize;
    let mut out = Vec::with_capacity(alloc, front.len() + behind)?;
    match out.extend_from_slice(front) {
        Ok(()) => {}
        Err(AllocError) => unreachable!(),
    }
    seal_rounds(
        rt, alloc, key, header, first, last, plain, rooms, &mut out, gate,
    );
    Ok(out)
}

/// Seals a plaintext of at most 2^40 bytes under the prefix of a grant, in a shape, with 1 to 16 workers. The caller's
/// thread is the first of them. Returns the container, whatever the number of workers and the gate, or `AllocError`
/// where memory was refused, before any chunk was sealed. The grant comes back spent: sealed with the container, void
/// without one. Allocates, besides the container, room for 4 MiB of chunks, or for all where there are fewer, and as
/// much again for each worker. A round has 4 chunks of 1 MiB, or 8 of 512 KiB, and no more workers start.
pub fn seal_whole<R: Threads + Sync, G: Gate + Sync>(
    rt: &R,
    alloc: Global,
    key: &Key,
    shape: &Shape,
    grant: Grant,
    plain: &[u8],
    workers: u32,
    gate: &G,
) -> (Result<Vec<u8>, AllocError>, Spent)
    requires plain { length plain.now ≤ MAX_PLAIN }
    requires workers { (0 < workers) × (workers ≤ MAX_WORKERS) }
    ensures container { IfOk result.0 (λ out. out.items
        ≡ container key.now shape.now (prefix_of grant.device grant.number) plain.now) }
    ensures sealed { OnOk result.0 (result.1 ≡ spent_as grant Sealed) }
    ensures void { OnErr result.0 (result.1 ≡ spent_as grant Void) }
{
    // All chunks are a round that is the last, of the size that the header names.
    rounds_of_a_stream();
    headers_name_their_shape();
    let header = Header::of(key, shape, grant.prefix());
    match sealed_behind(
        rt,
        alloc,
        header.bytes(),
        key,
        &header,
        0,
        true,
        plain,
        workers,
        gate,
    ) {
        Ok(bytes) => (Ok(bytes), grant.used()),
        Err(AllocError) => (Err(AllocError), grant.waste()),
    }
}

/// Seals a part of STREAM, at most 256 chunks numbered from `first` on, with 1 to 16 workers. The caller's thread is
/// the first of them. The last number is below 2^32.
///
/// - With `last` the part's last chunk is the last of all. Returns STREAM of the chunks.
/// - Without it the part has whole chunks. Returns the bytes with which every STREAM of these chunks and more begins.
/// - A part without a byte is only that of an empty plaintext: numbered 0, and the last.
///
/// Fails with `AllocError` where memory was refused, before any chunk was sealed. Allocates as much as `seal_whole`,
/// and starts no more workers. No grant is spent here: the caller must seal each number under a header once, and one
/// chunk as the last.
pub fn seal_round<R: Threads + Sync, G: Gate + Sync>(
    rt: &R,
    alloc: Global,
    key: &Key,
    header: &Header,
    first: u32,
    last: bool,
    plain: &[u8],
    workers: u32,
    gate: &G,
) -> Result<Vec<u8>, AllocError>
    requires few { length plain.now ≤ MAX_WINDOW * size_in header.now }
    requires numbers { first + chunk_count (size_in header.now) (length plain.now) ≤ 2 ^ 32 }
    requires whole { last ≡ false
        → length plain.now ≡ chunk_count (size_in header.now) (length plain.now) * size_in header.now }
    requires empty { length plain.now ≡ 0 → first ≡ 0 }
    requires workers { (0 < workers) × (workers ≤ MAX_WORKERS) }
    ensures last { IfOk result (λ out. last ≡ true
        → out.items ≡ stream key.now header.now first (chunks (size_in header.now) plain.now)) }
    ensures begins { IfOk result (λ out. last ≡ false → (more : List (List ℕ)) → 0 < length more
        → stream key.now header.now first (chunks (size_in header.now) plain.now ++ more)
        ≡ out.items
        ++ stream key.now header.now (first + chunk_count (size_in header.now) (length plain.now)) more) }
{
    // STREAM is a round that is the last, and two consecutive rounds are one.
    rounds_of_a_stream();
    chunks_by_number();
    // A header's chunks have at most 2^20 bytes.
    header.chunk();
    sealed_behind(
        rt,
        alloc,
        &[],
        key,
        header,
        first,
        last,
        plain,
        workers,
        gate,
    )
}

/// Opens a container under a key with 1 to 16 workers. The caller's thread is the first of them. Returns what
/// `container_core::open` does, whatever the number of workers and the gate: the plaintext, or the fault that `begin`
/// names, else `Forged` for the first chunk that doesn't check. Fails with `OutOfMemory` where memory was refused,
/// before any chunk was opened. Allocates, besides the plaintext, as much as `seal_whole` besides the container, and
/// starts no more workers.
pub fn open_whole<R: Threads + Sync, G: Gate + Sync>(
    rt: &R,
    alloc: Global,
    key: &Key,
    container: &[u8],
    workers: u32,
    gate: &G,
) -> Result<Vec<u8>, OpenFault>
    requires { (0 < workers) × (workers ≤ MAX_WORKERS) }
    ensures plaintext { IfOk result (λ out. opening key.now MAX_OPENED container.now ≡ Ok out.items) }
    ensures fault { IfErr result (λ fault. (fault ≡ OpenFault.OutOfMemory)
        ⊎ (opening key.now MAX_OPENED container.now ≡ Err fault)) }

    // Memory is taken only where the length and the header have no fault.
    ensures memory { result ≡ Err OpenFault.OutOfMemory → early_fault key.now MAX_OPENED container.now ≡ None }
{
    // No early fault is one of memory, and all chunks are a round that is the last.
    opening_faults();
    rounds_open();
    let (header, cut) = match begin(key, container) {
        Ok(begun) => begun,
        Err(fault) => return Err(fault),
    };
    let (_, body) = container.split_at(header.bytes().len());
    let Ok(rooms) = RoundRooms::new(alloc, Task::Opening, header.chunk(), cut.count(), workers)
    else {
        return Err(OpenFault::OutOfMemory);
    };
    let Ok(mut out) = Vec::with_capacity(alloc, cut.plain() as usize) else {
        return Err(OpenFault::OutOfMemory);
    };
    match open_in_rounds(rt, alloc, key, &header, cut, body, rooms, &mut out, gate) {
        Ok(()) => Ok(out),
        Err(chunk) => Err(OpenFault::Forged { chunk }),
    }
}
