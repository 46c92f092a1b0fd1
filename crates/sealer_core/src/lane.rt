//! One file: how it begins and ends, whichever lane seals it, and how one lane seals it with several workers. An output
//! is finished before its number is settled, so the number of one that can't be finished is void.
ghost use Rattle.std.specs.Prelude.{◌≡◌, ◌≢◌, ◌<◌, ◌++◌, ◌∷◌, [], ℕ, List, Err, IfErr, IfOk, Ok, OnErr, OnOk, length};
ghost use Rattle.std.specs.Prelude.{option_map, true};
ghost use Rattle.journal_core.specs.declared.entry.Event.TheVariants.{Granted, Settled};
ghost use Rattle.journal_core.specs.declared.entry.Way.{Way};
ghost use Rattle.journal_core.specs.declared.entry.Way.TheVariants.{Sealed, Void};
ghost use Rattle.journal_core.specs.Range.{prefix_of};
ghost use Rattle.io_core.specs.Streams.{counted};
ghost use Rattle.io_core.specs.Views.{io_view};
ghost use Rattle.output_core.specs.Bounds.{Admits};
ghost use Rattle.sealing_core.specs.Engine.{HasReadPlain, HasWrittenRounds};
ghost use Rattle.ledger_core.specs.Closing.{AreAllSeats};
ghost use Rattle.ledger_core.specs.Shared.{Extends, Holds, IsSameSeat, Knows, Unissued, spent_as};
ghost use Rattle.ledger_core.specs.declared.fault.IssueFault.{IssueFault};
ghost use Rattle.command_core.specs.Lines.{FileLine};
ghost use Rattle.folder_core.specs.Growth.{Grows};
ghost use Rattle.folder_core.specs.Record.{bound_in};
ghost use Rattle.sealer_core.specs.Group.{AreKeyed, AreOwing, ClosesBy, IsCounted, IsEnding, IsLonger, OutputEndsBy};
ghost use Rattle.sealer_core.specs.Group.{IsKnownLeft, OwesAt, PutsLeft, SettledAt, uncreated_as, under_in};
ghost use Rattle.sealer_core.specs.Sealing.{Accounts, AddsSealed, IsOfSealing, container_by, given_up_in, is_unread};
ghost use Rattle.sealer_core.specs.Sealing.{line_of, operations_of, unissued_as};

use crate::context::SealContext;
use command_core::{FileFault, FileOutcome};
use container_core::SealFault;
use crew_core::Free;
use folder_core::{Folder, FolderFault, Outputs, Rest, finish_or_discard, lent_of, taken_in_hand};
use io_core::{Failed, Source};
use ledger_core::{Grant, IssueFault, Ledger, Seat, Spent};
use sealing_core::run_seal_by;
use std::marker::Brand;
use std::sync::Wait;
use std::thread::Threads;

/// Why a file has no number.
pub(crate) fn fault_of(fault: IssueFault) -> FileFault
    ensures fault { result ≡ unissued_as fault }
    ensures outcome { IsOfSealing (FileOutcome.Failed result) }
{
    match fault {
        IssueFault::Exhausted | IssueFault::SeatClosed => FileFault::NoNumber,
        IssueFault::OutOfMemory => FileFault::Unsealed(SealFault::OutOfMemory),
    }
}

/// Grants the next number to a file.
pub(crate) fn issue_to_file(ledger: &Ledger, seat: &mut Seat) -> Result<Grant, FileFault>
    requires ours { seat.old.ledger ≡ ledger.now.ledger }
    ensures granted { IfOk result (λ grant. Extends seat.old (Granted grant.number) seat.new
        × (grant.device ≡ seat.old.terms.range.device)) }
    ensures held { IfOk result (λ grant. (way : Way) → Holds seat.new (spent_as grant way)) }
    ensures refused { IfErr result (λ fault. (why : IssueFault) × (fault ≡ unissued_as why)
        × Unissued why seat.old seat.new) }
    ensures same { IsSameSeat seat.old seat.new }
    ensures knows { Knows seat.new }
{
    match ledger.issue(seat) {
        Ok(grant) => Ok(grant),
        Err(fault) => Err(fault_of(fault)),
    }
}

/// Settles a file's number, which takes no memory.
pub(crate) fn settle_of_file(ledger: &Ledger, seat: &mut Seat, spent: Spent)
    requires ours { seat.old.ledger ≡ ledger.now.ledger }
    requires held { Holds seat.old spent }
    ensures settled { Extends seat.old (Settled spent.number spent.way) seat.new }
    ensures same { IsSameSeat seat.old seat.new }
{
    let _ = ledger.settle(seat, spent);
}

// Settles a number at the seat at this place, which owes it.
fn settle_at(ledger: &Ledger, seats: &mut [Seat], place: u32, spent: Spent)
    requires all { AreAllSeats ledger.now seats.old }
    requires owed { OwesAt ledger.now seats.old place spent.device spent.number }
    ensures all { AreAllSeats ledger.now seats.new }
    ensures settled { IsCounted (operations_of seats.old) (operations_of seats.new)
        (Settled spent.number spent.way) }
    ensures made { SettledAt place spent.number seats.old seats.new }
{
    let seat = &mut seats[place as usize];
    let _knows = seat.number();
    settle_of_file(ledger, seat, spent);
}

/// Why a file has no output.
pub(crate) fn fault_of_create(fault: FolderFault) -> FileFault
    ensures { result ≡ uncreated_as fault }
{
    match fault {
        FolderFault::Exists => FileFault::OutputExists,
        FolderFault::Failed => FileFault::CannotCreate,
    }
}

/// Whether an opened file is known to have more bytes than a run takes.
pub(crate) fn is_too_long<F: Folder>(folder: &F, reader: &F::Reader, max_bytes: u64) -> bool
    ensures { result ≡ true → IsLonger max_bytes (F.rest folder.now) (F.Reader.left reader.now) }
{
    match folder.length(reader) {
        Some(bytes) => bytes > max_bytes,
        None => false,
    }
}

/// Ends the output in hand according to how its sealing ended. If it holds its whole container it is finished, and its
/// number settled as sealed. If the sealing or the finishing failed, the output is given up, and the number is void.
pub(crate) fn end_output<F: Outputs>(
    ledger: &Ledger,
    seats: &mut [Seat],
    place: u32,
    spent: Spent,
    folder: &mut F,
    sealed: Result<u64, SealFault>,
) -> FileOutcome
    requires all { AreAllSeats ledger.now seats.old }
    requires owed { OwesAt ledger.now seats.old place spent.device spent.number }
    requires sealed { OnOk sealed (spent.way ≡ Sealed) }
    ensures all { AreAllSeats ledger.now seats.new }
    ensures outcome { OutputEndsBy sealed spent.number result }
    ensures closed { ClosesBy sealed result (F.rest folder.old) (F.taken folder.old) (F.failures folder.old)
        (F.rest folder.new) }
    ensures settled { IsEnding spent.number (operations_of seats.old) (operations_of seats.new) result }
    ensures made { SettledAt place spent.number seats.old seats.new }
{
    let number = spent.number();
    let fault = match sealed {
        Ok(bytes) => match finish_or_discard(folder) {
            Ok(()) => {
                settle_at(ledger, seats, place, spent);
                return FileOutcome::Sealed { number, bytes };
            }
            Err(Failed) => SealFault::Write,
        },
        Err(fault) => {
            // Its removal is tried. Where that fails the file stays, and the record has what it holds.
            let _ = folder.discard();
            fault
        }
    };
    settle_at(ledger, seats, place, spent.spoil());
    FileOutcome::Failed(FileFault::Unsealed(fault))
}

// Seals by `run_seal_by`. `N` names the record and the folder, so that both are known to be the same after it.
fn container_named<'f, N: Rest, T: Threads + Wait + Sync, R: Source, F: Outputs>(
    rt: &T,
    context: &SealContext<'_>,
    grant: Grant,
    reader: &mut R,
    folder: &'f mut F,
    kept: &mut Vec<u8>,
) -> (Result<u64, SealFault>, Spent, &'f mut F)
    requires rest { F.rest folder.old ≡ N.rest }
    requires reference { folder.ghost_name ≡ N.folder }
    requires device { grant.device ≡ context.now.ledger.now.terms.range.device }
    requires may { (plain : List ℕ) → Admits (option_map bound_in N.rest) (F.taken folder.old)
        (container_by (under_in context.now) grant.number plain) }
    ensures rest { F.rest result.2.now ≡ N.rest }
    ensures reference { result.2.ghost_name ≡ folder.entry.ghost_name }
    ensures reads { HasReadPlain context.now.options.now.max_bytes (R.left reader.old) (R.left reader.new)
        (R.failures reader.old) (R.failures reader.new) result.0 }
    ensures writes { HasWrittenRounds context.now.key.now context.now.options.now.shape.now
        (prefix_of grant.device grant.number) context.now.options.now.max_bytes context.now.options.now.window
        (io_view (R.left reader.old) (R.failures reader.old) (F.taken folder.old) (F.failures folder.old))
        (io_view (R.left reader.new) (R.failures reader.new) (F.taken result.2.now) (F.failures result.2.now))
        result.0 }
    ensures by_bytes { result.0 ≢ Err SealFault.TooManyChunks }
    ensures sealed { OnOk result.0 (result.1 ≡ spent_as grant Sealed) }
    ensures void { OnErr result.0 (result.1 ≡ spent_as grant Void) }
{
    let mut output = taken_in_hand::<F, N>(folder);
    let options = context.options;
    let (sealed, spent) = run_seal_by(
        rt,
        context.alloc,
        context.key,
        options.shape,
        grant,
        reader,
        &mut output,
        options.max_bytes,
        options.workers,
        options.window,
        &Free,
        kept,
    );
    (sealed, spent, lent_of(output))
}

// Seals an input into the output in hand.
fn fill_container<T: Threads + Wait + Sync, R: Source, F: Outputs>(
    rt: &T,
    context: &SealContext<'_>,
    grant: Grant,
    reader: &mut R,
    folder: &mut F,
    kept: &mut Vec<u8>,
) -> (Result<u64, SealFault>, Spent)
    requires device { grant.device ≡ context.now.ledger.now.terms.range.device }
    requires may { (plain : List ℕ) → Admits (option_map bound_in (F.rest folder.old)) (F.taken folder.old)
        (container_by (under_in context.now) grant.number plain) }
    ensures rest { F.rest folder.new ≡ F.rest folder.old }
    ensures reads { HasReadPlain context.now.options.now.max_bytes (R.left reader.old) (R.left reader.new)
        (R.failures reader.old) (R.failures reader.new) result.0 }
    ensures writes { HasWrittenRounds context.now.key.now context.now.options.now.shape.now
        (prefix_of grant.device grant.number) context.now.options.now.max_bytes context.now.options.now.window
        (io_view (R.left reader.old) (R.failures reader.old) (F.taken folder.old) (F.failures folder.old))
        (io_view (R.left reader.new) (R.failures reader.new) (F.taken folder.new) (F.failures folder.new)) result.0 }
    ensures by_bytes { result.0 ≢ Err SealFault.TooManyChunks }
    ensures sealed { OnOk result.0 (result.1 ≡ spent_as grant Sealed) }
    ensures void { OnErr result.0 (result.1 ≡ spent_as grant Void) }
{
    let (sealed, spent, _folder) = container_named::<Brand, T, R, F>(
        rt, context, grant, reader, folder, kept,
    );
    (sealed, spent)
}

// Creates an output and seals an input into it, under a number that the one seat grants. Then finishes it, and settles
// the number. Of an input that is known to be too long nothing is read. There, and where no number is granted, or the
// sealing or the output's end fails, the output is given up.
fn put_sealed<T: Threads + Wait + Sync, F: Folder>(
    rt: &T,
    context: &SealContext<'_>,
    seats: &mut [Seat],
    folder: &mut F,
    output: &str,
    reader: &mut F::Reader,
    kept: &mut Vec<u8>,
) -> FileOutcome
    requires one { length seats.old ≡ 1 }
    requires owing { AreOwing context.now.ledger.now seats.old [] }
    requires keyed { AreKeyed context.now seats.old (F.rest folder.old) }
    requires known { IsKnownLeft (F.rest folder.old) (F.Reader.left reader.old) }
    ensures owing { AreOwing context.now.ledger.now seats.new [] }
    ensures keyed { AreKeyed context.now seats.new (F.rest folder.new) }
    ensures outcome { IsOfSealing result }
    ensures puts { (void : List ℕ)
        × Grows (PutsLeft (under_in context.now) output.now (F.Reader.left reader.old) result void) (F.rest folder.old)
        (F.rest folder.new)
        × ((name : List ℕ) (lines : List FileLine) (voids : List ℕ) → Accounts lines voids (operations_of seats.old)
        → Accounts (lines ++ line_of name result ∷ []) (voids ++ void) (operations_of seats.new)) }
    ensures read { F.Reader.failures reader.new ≡ counted (is_unread result) (F.Reader.failures reader.old) }
{
    let handle = match folder.create(output) {
        Ok(handle) => handle,
        Err(fault) => return FileOutcome::Failed(fault_of_create(fault)),
    };
    if is_too_long(folder, reader, context.options.max_bytes) {
        let _ = folder.abandon(handle);
        return FileOutcome::Failed(FileFault::Unsealed(SealFault::TooLong));
    }
    let seat = &mut seats[0];
    let grant = match issue_to_file(context.ledger, seat) {
        Ok(grant) => grant,
        Err(fault) => {
            let _ = folder.abandon(handle);
            return FileOutcome::Failed(fault);
        }
    };
    let shape = context.options.shape;
    // Its contract says that it is the shape of a container.
    let _chunk = shape.chunk();
    folder.allow_container(handle, grant.number(), shape);
    let (sealed, spent) = fill_container(rt, context, grant, reader, folder, kept);
    end_output(context.ledger, seats, 0, spent, folder, sealed)
}

/// Seals one file with the one seat: opens it, creates its output, which has its name and `.stm`, asks its length, and
/// issues its number, in this order; then its container may begin. At last it is closed. Of a file that was too long
/// when it was opened nothing is read, and no number is issued. Of any other what is read decides. `kept` is the buffer
/// of the last file's last block.
pub(crate) fn seal_file<T: Threads + Wait + Sync, F: Folder>(
    rt: &T,
    context: &SealContext<'_>,
    seats: &mut [Seat],
    folder: &mut F,
    name: &str,
    kept: &mut Vec<u8>,
) -> FileOutcome
    requires one { length seats.old ≡ 1 }
    requires owing { AreOwing context.now.ledger.now seats.old [] }
    requires keyed { AreKeyed context.now seats.old (F.rest folder.old) }
    ensures owing { AreOwing context.now.ledger.now seats.new [] }
    ensures keyed { AreKeyed context.now seats.new (F.rest folder.new) }
    ensures outcome { IsOfSealing result }
    ensures adds { (void : List ℕ)
        × Grows (λ new. AddsSealed (under_in context.now) name.now result new × (void ≡ given_up_in new))
        (F.rest folder.old) (F.rest folder.new)
        × ((lines : List FileLine) (voids : List ℕ) → Accounts lines voids (operations_of seats.old)
        → Accounts (lines ++ line_of name.now result ∷ []) (voids ++ void) (operations_of seats.new)) }
{
    let Ok(output) = format!(in context.alloc; "{name}.stm") else {
        return FileOutcome::Failed(FileFault::OutOfMemory);
    };
    let Ok(mut reader) = folder.open(name) else {
        return FileOutcome::Failed(FileFault::CannotOpen);
    };
    let outcome = put_sealed(
        rt,
        context,
        seats,
        folder,
        output.as_str(),
        &mut reader,
        kept,
    );
    folder.close(name, reader);
    outcome
}
