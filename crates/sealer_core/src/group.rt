//! Files sealed in groups of as many as a ledger has lanes. With one lane the file is sealed as it is read. With
//! several, each file in turn is prepared, and those that were read are sealed side by side. Then each container in
//! turn is written, its output finished, and its number settled.
ghost use Rattle.std.specs.Prelude.{◌≡◌, ◌⊎◌, ℕ, Option, ◌<◌, ◌≤◌, List, [], ◌∷◌, ◌++◌, length, map, flat_map};
ghost use Rattle.std.specs.Prelude.{All, IfSome};
ghost use Rattle.crew_core.specs.Batch.{AreOutcomes};
ghost use Rattle.journal_core.specs.History.{times_settled};
ghost use Rattle.ledger_core.specs.Closing.{AreAllSeats};
ghost use Rattle.command_core.specs.Lines.{FileLine};
ghost use Rattle.command_core.specs.Turns.{Printed, printed};
ghost use Rattle.command_core.specs.Work.{AreTold};
ghost use Rattle.folder_core.specs.Growth.{Grows};
ghost use Rattle.folder_core.specs.Record.{RunRecord};
ghost use Rattle.sealer_core.specs.Group.{AddsLines, AreEnded, AreEndingIn, AreGrantedOnce, AreHeld, AreKeyed, AreOwing};
ghost use Rattle.sealer_core.specs.Group.{IsContainerUnder, IsEndIn, IsNewIn, IsPrepared, IsStarted, group_view, left_by};
ghost use Rattle.sealer_core.specs.Group.{name_of, read_of, refused_lines, under_in, void_in};
ghost use Rattle.sealer_core.specs.Sealing.{Accounts, AreSealed, IsOfSealing, line_of, operations_of};

use crate::context::SealContext;
use crate::lane::{fault_of, seal_file};
use crate::prepare::{Prepared, prepare_group};
use crate::waiting::{put_waiting, spoil_waiting};
use command_core::{FileFault, FileOutcome, MAX_BYTES, Report, tell};
use container_core::SealFault;
use crew_core::{Free, MAX_LANES, Outcome, seal_batch};
use folder_core::Folder;
use ledger_core::{Ledger, Seat};
use std::alloc::Global;
use std::collections::VecDeque;
use std::sync::Wait;
use std::thread::Threads;

// Ends one file of a group by its own fault or, if it was read, by the next outcome. If it was sealed, its output is
// taken in hand and its container written. If no outcome is left, memory for outcomes was refused.
fn end_file<F: Folder>(
    context: &SealContext<'_>,
    seats: &mut [Seat],
    folder: &mut F,
    file: Prepared<F::Handle>,
    outcomes: &mut VecDeque<Outcome>,
) -> FileOutcome
    requires owing { AreOwing context.now.ledger.now seats.old outcomes.old.items }
    requires prepared { IsPrepared file }
    requires containers { All (IsContainerUnder context.now.key.now context.now.options.now.shape.now) outcomes.old.items }
    requires once { AreGrantedOnce (operations_of seats.old) }
    requires keyed { AreKeyed context.now seats.old (F.rest folder.old) }
    requires waits { IfSome (F.rest folder.old) (IsNewIn F.Handle.at file) }
    ensures owing { AreOwing context.now.ledger.now seats.new outcomes.new.items }
    ensures once { AreGrantedOnce (operations_of seats.new) }
    ensures keyed { AreKeyed context.now seats.new (F.rest folder.new) }
    ensures outcome { IsOfSealing result }
    ensures next { outcomes.new.items ≡ left_by file.entry outcomes.old.items }
    ensures end { IsEndIn F.Handle.at context.now.options.now.shape.now outcomes.old.items file.entry result
        (F.rest folder.old) (F.rest folder.new) }
    ensures accounts { (lines : List FileLine) (voids : List ℕ)
        → AreHeld lines voids outcomes.old.items (operations_of seats.old)
        → AreHeld (lines ++ line_of (name_of file.entry) result ∷ [])
        (voids ++ void_in file.entry outcomes.old.items result) outcomes.new.items (operations_of seats.new) }
{
    let (output, long) = match file {
        Prepared::Refused(_, fault) => return FileOutcome::Failed(fault),
        Prepared::Unread(_, output, fault) => {
            let _ = folder.abandon(output);
            return FileOutcome::Failed(FileFault::Unsealed(fault));
        }
        Prepared::Read(_, output, bytes) => (output, bytes),
    };
    match outcomes.pop_front() {
        Some(Outcome::Sealed { seat, bytes, spent }) => {
            put_waiting(
                context,
                seats,
                folder,
                output,
                seat,
                spent,
                long,
                bytes.as_slice(),
            )
        }
        Some(Outcome::Spoiled { seat, spent }) => {
            spoil_waiting(context, seats, folder, output, seat, spent)
        }
        Some(Outcome::Unissued { fault, .. }) => {
            let _ = folder.abandon(output);
            FileOutcome::Failed(fault_of(fault))
        }
        None => {
            let _ = folder.abandon(output);
            FileOutcome::Failed(FileFault::Unsealed(SealFault::OutOfMemory))
        }
    }
}

// Ends the files of a group in turn, with a line for each. Returns the status so far.
fn end_group<F: Folder, L: Report>(
    context: &SealContext<'_>,
    seats: &mut [Seat],
    folder: &mut F,
    lines: &mut L,
    start: u8,
    mut files: VecDeque<Prepared<F::Handle>>,
    mut outcomes: VecDeque<Outcome>,
) -> u8
    requires owing { AreOwing context.now.ledger.now seats.old outcomes.items }
    requires prepared { All IsPrepared files.items }
    requires few { length outcomes.items ≤ length (flat_map read_of files.items) }
    requires containers { All (IsContainerUnder context.now.key.now context.now.options.now.shape.now) outcomes.items }
    requires once { AreGrantedOnce (operations_of seats.old) }
    requires keyed { AreKeyed context.now seats.old (F.rest folder.old) }
    requires waits { (before : Option RunRecord)
        × AreEndingIn F.Handle.at (under_in context.now) [] [] files.items outcomes.items before (F.rest folder.old) }
    ensures owing { AreOwing context.now.ledger.now seats.new [] }
    ensures keyed { AreKeyed context.now seats.new (F.rest folder.new) }
    ensures ended { AreEnded (λ lines voids. (before : Option RunRecord)
        → AreEndingIn F.Handle.at (under_in context.now) [] [] files.entry.items outcomes.items before
        (F.rest folder.old) → Grows (AddsLines (under_in context.now) lines voids) before (F.rest folder.new))
        (map name_of files.entry.items)
        (group_view outcomes.items (operations_of seats.old) start (printed (L.taken lines.old) (L.failures lines.old)))
        (group_view [] (operations_of seats.new) result (printed (L.taken lines.new) (L.failures lines.new))) }
{
    let mut status = start;
    while let Some(file) = files.pop_front() {
        let name = file.name();
        let outcome = end_file(context, seats, folder, file, &mut outcomes);
        status = tell(context.alloc, lines, status, name, outcome);
    }
    status
}

// How many bytes are worth a lane. To seal them takes 125 to 250 microseconds, a thread's start and end 30 to 80.
const LANE_BYTES: usize = 1 << 18;

// With how many lanes a group of jobs is sealed: one for each `LANE_BYTES` of them, but at least one if there is any job.
// Of a longer job only as many count, as it is one lane's alone.
fn lanes_for(jobs: &[Vec<u8>]) -> u32
    requires few { length jobs.now ≤ MAX_LANES }
    ensures within { result ≤ length jobs.now }
    ensures some { 0 < length jobs.now → 0 < result }
{
    let mut bytes: usize = 0;
    for job in jobs {
        bytes = bytes.saturating_add(job.len().min(LANE_BYTES));
    }
    (bytes / LANE_BYTES).max(1).min(jobs.len()) as u32
}

// Seals the jobs of a group, each lane with its own seat. Returns none if memory for the outcomes is refused.
fn seal_jobs<T: Threads + Sync>(
    rt: &T,
    context: &SealContext<'_>,
    seats: &mut [Seat],
    jobs: &[Vec<u8>],
) -> VecDeque<Outcome>
    requires owing { AreOwing context.now.ledger.now seats.old [] }
    requires lanes { length seats.old ≤ MAX_LANES }
    requires few { length jobs.now ≤ length seats.old }
    requires short { All (λ job. length job.items ≤ MAX_BYTES) jobs.now }
    ensures owing { AreOwing context.now.ledger.now seats.new result.items }
    ensures outcomes { (result.items ≡ []) ⊎ AreOutcomes context.now.key.now context.now.options.now.shape.now
        (map (λ job. job.items) jobs.now) result.items }
    ensures containers { All (IsContainerUnder context.now.key.now context.now.options.now.shape.now) result.items }
    ensures settled { (number : ℕ)
        → times_settled number (operations_of seats.new) ≡ times_settled number (operations_of seats.old) }
    ensures accounts { (lines : List FileLine) (voids : List ℕ) → Accounts lines voids (operations_of seats.old)
        → AreHeld lines voids result.items (operations_of seats.new) }
{
    let lanes = lanes_for(jobs);
    if lanes == 0 {
        return VecDeque::new(context.alloc);
    }
    let SealContext {
        alloc,
        key,
        ledger,
        options,
    } = *context;
    match seal_batch(
        rt,
        alloc,
        key,
        options.shape,
        ledger,
        seats,
        jobs,
        lanes,
        &Free,
    ) {
        Ok(outcomes) => VecDeque::from(outcomes),
        Err(_) => VecDeque::new(alloc),
    }
}

// Lets the seats meet, and nothing else. Then it shows that they were granted no number twice.
fn meet_seats(ledger: &Ledger, seats: &mut [Seat])
    requires all { AreAllSeats ledger.now seats.old }
    ensures all { AreAllSeats ledger.now seats.new }
    ensures mine { map (λ seat. seat.mine) seats.new ≡ map (λ seat. seat.mine) seats.old }
    ensures once { AreGrantedOnce (operations_of seats.new) }
{
    ledger.meet_all(seats);
}

// Reports for each file that memory was refused before anything was done with it.
fn refuse_group<L: Report>(alloc: Global, names: &[&str], lines: &mut L, start: u8) -> u8
    ensures { (before : List FileLine) (first : Option (List ℕ)) (count : Option ℕ)
        → AreTold start before first (L.taken lines.old) count (L.failures lines.old)
        → AreTold result (before ++ refused_lines (map (λ name. name.now) names.now)) first (L.taken lines.new) count
        (L.failures lines.new) }
{
    let mut status = start;
    let refused = FileOutcome::Failed(FileFault::OutOfMemory);
    for name in names {
        status = tell(alloc, lines, status, name, refused);
    }
    status
}

// Memory that is used again from group to group.
#[derive(Drop)]
struct Kept {
    // The plaintexts of the last group, of several lanes.
    texts: Vec<Vec<u8>>,
    // The last block of the last file, of one lane.
    block: Vec<u8>,
}

// Seals the files of a group, at most as many as there are seats. What is read goes into the memory that was kept.
// Returns the status so far.
fn seal_group<T: Threads + Wait + Sync, F: Folder, L: Report>(
    rt: &T,
    context: &SealContext<'_>,
    seats: &mut [Seat],
    folder: &mut F,
    names: &[&str],
    kept: &mut Kept,
    lines: &mut L,
    status: u8,
) -> u8
    requires owing { AreOwing context.now.ledger.now seats.old [] }
    requires lanes { length seats.old ≤ MAX_LANES }
    requires few { (0 < length names.now) × (length names.now ≤ length seats.old) }
    requires keyed { AreKeyed context.now seats.old (F.rest folder.old) }
    ensures owing { AreOwing context.now.ledger.now seats.new [] }
    ensures keyed { AreKeyed context.now seats.new (F.rest folder.new) }
    ensures group { (earlier : List (List ℕ)) (old : Printed) (before : Option RunRecord)
        → AreSealed (under_in context.now) earlier (operations_of seats.old) status old
        (printed (L.taken lines.old) (L.failures lines.old)) before (F.rest folder.old)
        → AreSealed (under_in context.now) (earlier ++ map (λ name. name.now) names.now) (operations_of seats.new) result
        old (printed (L.taken lines.new) (L.failures lines.new)) before (F.rest folder.new) }
{
    if seats.len() == 1 {
        let name = names[0];
        let outcome = seal_file(rt, context, seats, folder, name, &mut kept.block);
        return tell(context.alloc, lines, status, name, outcome);
    }
    let Ok((files, jobs)) = prepare_group(context, folder, names, &mut kept.texts) else {
        return refuse_group(context.alloc, names, lines, status);
    };
    let outcomes = seal_jobs(rt, context, seats, jobs.as_slice());
    kept.texts = jobs;
    meet_seats(context.ledger, seats);
    end_group(context, seats, folder, lines, status, files, outcomes)
}

/// Seals the files in groups of as many as there are seats, with a line for each. Returns the status so far.
pub(crate) fn seal_groups<T: Threads + Wait + Sync, F: Folder, L: Report>(
    rt: &T,
    context: &SealContext<'_>,
    seats: &mut [Seat],
    folder: &mut F,
    lines: &mut L,
) -> u8
    requires all { AreAllSeats context.now.ledger.now seats.old }
    requires lanes { (0 < length seats.old) × (length seats.old ≤ MAX_LANES) }
    requires fresh { operations_of seats.old ≡ [] }
    requires started { IfSome (F.rest folder.old)
        (IsStarted context.now.key.now context.now.ledger.now.terms.range) }
    ensures all { AreAllSeats context.now.ledger.now seats.new }
    ensures sealed { AreSealed (under_in context.now) (map (λ name. name.now) context.now.options.now.files.now)
        (operations_of seats.new) result (printed (L.taken lines.old) (L.failures lines.old))
        (printed (L.taken lines.new) (L.failures lines.new)) (F.rest folder.old) (F.rest folder.new) }
{
    let files = context.options.files;
    let mut status = 0;
    let mut done = 0;
    let mut kept = Kept {
        texts: Vec::new(context.alloc),
        block: Vec::new(context.alloc),
    };
    while done < files.len() {
        let (_, rest) = files.split_at(done);
        let (group, _) = rest.split_at(rest.len().min(seats.len()));
        status = seal_group(rt, context, seats, folder, group, &mut kept, lines, status);
        done += group.len();
    }
    status
}
