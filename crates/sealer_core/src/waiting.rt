//! An output that waits is ended, under a number that a seat owes: it is taken in hand, and a container that was sealed
//! before is written to it. Others may wait meanwhile.
ghost use Rattle.std.specs.Prelude.{◌≡◌, ℕ, List, [], IfSome, OnErr, OnOk, is_err, option_map};
ghost use Rattle.container_core.specs.Container.{container};
ghost use Rattle.io_core.specs.Streams.{Appends, AppendsFront, counted};
ghost use Rattle.journal_core.specs.History.{times_settled};
ghost use Rattle.journal_core.specs.Range.{prefix_of};
ghost use Rattle.journal_core.specs.declared.entry.Way.TheVariants.{Sealed};
ghost use Rattle.ledger_core.specs.Closing.{AreAllSeats};
ghost use Rattle.output_core.specs.Bounds.{Admits};
ghost use Rattle.folder_core.specs.Changes.{Becomes, IsFresh, IsNew, allowed};
ghost use Rattle.folder_core.specs.Record.{Container, GivenUp, bound_in};
ghost use Rattle.sealer_core.specs.Group.{AreKeyed, IsEnding, IsPut, OwesAt, SettledAt, filled};
ghost use Rattle.sealer_core.specs.Sealing.{IsOfSealing, operations_of};

use crate::context::SealContext;
use crate::lane::end_output;
use command_core::{FileFault, FileOutcome};
use container_core::SealFault;
use folder_core::{Outputs, Rest, lent_of, taken_in_hand};
use io_core::Failed;
use ledger_core::{Seat, Spent};
use output_core::put_all;
use std::marker::Brand;

// Writes bytes to the output in hand. `N` names the record and the folder, so that both are known to be the same after it.
fn bytes_named<'f, N: Rest, F: Outputs>(
    folder: &'f mut F,
    bytes: &[u8],
) -> (Result<(), Failed>, &'f mut F)
    requires rest { F.rest folder.old ≡ N.rest }
    requires reference { folder.ghost_name ≡ N.folder }
    requires may { Admits (option_map bound_in N.rest) (F.taken folder.old) bytes.now }
    ensures rest { F.rest result.1.now ≡ N.rest }
    ensures reference { result.1.ghost_name ≡ folder.entry.ghost_name }
    ensures ok { OnOk result.0 (Appends (F.taken folder.old) (F.taken result.1.now) bytes.now) }
    ensures err { OnErr result.0 (AppendsFront (F.taken folder.old) (F.taken result.1.now) bytes.now) }
    ensures count { F.failures result.1.now ≡ counted (is_err result.0) (F.failures folder.old) }
{
    let mut output = taken_in_hand::<F, N>(folder);
    let done = put_all(&mut output, bytes);
    (done, lent_of(output))
}

// Writes bytes to the output in hand. Where a write fails it has a prefix of them.
fn fill_bytes<F: Outputs>(folder: &mut F, bytes: &[u8]) -> Result<(), Failed>
    requires may { Admits (option_map bound_in (F.rest folder.old)) (F.taken folder.old) bytes.now }
    ensures rest { F.rest folder.new ≡ F.rest folder.old }
    ensures ok { OnOk result (Appends (F.taken folder.old) (F.taken folder.new) bytes.now) }
    ensures err { OnErr result (AppendsFront (F.taken folder.old) (F.taken folder.new) bytes.now) }
    ensures count { F.failures folder.new ≡ counted (is_err result) (F.failures folder.old) }
{
    let (done, _) = bytes_named::<Brand, F>(folder, bytes);
    done
}

// Takes an output that waits in hand, for a container under a number that the seat at this place owes.
fn begin_waiting<F: Outputs>(
    context: &SealContext<'_>,
    seats: &[Seat],
    folder: &mut F,
    output: F::Handle,
    place: u32,
    spent: &Spent,
)
    requires all { AreAllSeats context.now.ledger.now seats.now }
    requires owed { OwesAt context.now.ledger.now seats.now place spent.now.device spent.now.number }
    requires unsettled { times_settled spent.now.number (operations_of seats.now) ≡ 0 }
    requires keyed { AreKeyed context.now seats.now (F.rest folder.old) }
    requires waits { IfSome (F.rest folder.old) (IsNew (F.Handle.at output)) }
    ensures allowed { Becomes (allowed (F.Handle.at output) (Container spent.now.number context.now.options.now.shape.now))
        (F.rest folder.old) (F.rest folder.new) }
    ensures fresh { IsFresh (F.rest folder.new) (F.taken folder.new) (F.failures folder.new) }
    ensures admits { (plain : List ℕ) → Admits (option_map bound_in (F.rest folder.new)) (F.taken folder.new)
        (container context.now.key.now context.now.options.now.shape.now (prefix_of spent.now.device spent.now.number)
        plain) }
{
    // They show that the seat has a legal history, and the shape is one of containers.
    let _knows = seats[place as usize].number();
    let _chunk = context.options.shape.chunk();
    folder.allow_container(output, spent.number(), context.options.shape);
}

/// Writes the container of a file of `long` bytes to an output that waits, and finishes it. Where a write fails, or the
/// end, it is given up. Then the number is settled at the seat at this place.
pub(crate) fn put_waiting<F: Outputs>(
    context: &SealContext<'_>,
    seats: &mut [Seat],
    folder: &mut F,
    output: F::Handle,
    place: u32,
    spent: Spent,
    long: u64,
    bytes: &[u8],
) -> FileOutcome
    requires all { AreAllSeats context.now.ledger.now seats.old }
    requires owed { OwesAt context.now.ledger.now seats.old place spent.device spent.number }
    requires unsettled { times_settled spent.number (operations_of seats.old) ≡ 0 }
    requires way { spent.way ≡ Sealed }
    requires keyed { AreKeyed context.now seats.old (F.rest folder.old) }
    requires waits { IfSome (F.rest folder.old) (IsNew (F.Handle.at output)) }
    requires whole { (plain : List ℕ) × (bytes.now ≡ container context.now.key.now context.now.options.now.shape.now
        (prefix_of spent.device spent.number) plain) }
    ensures all { AreAllSeats context.now.ledger.now seats.new }
    ensures keyed { AreKeyed context.now seats.new (F.rest folder.new) }
    ensures outcome { IsOfSealing result }
    ensures put { IsPut (F.Handle.at output) (Container spent.number context.now.options.now.shape.now) bytes.now
        spent.number long result (F.rest folder.old) (F.rest folder.new) }
    ensures settled { IsEnding spent.number (operations_of seats.old) (operations_of seats.new) result }
    ensures made { SettledAt place spent.number seats.old seats.new }
{
    begin_waiting(context, seats, folder, output, place, &spent);
    match fill_bytes(folder, bytes) {
        Ok(()) => end_output(context.ledger, seats, place, spent, folder, Ok(long)),
        Err(Failed) => {
            let broken = Err(SealFault::Write);
            end_output(context.ledger, seats, place, spent, folder, broken)
        }
    }
}

/// Gives up an output that waits, whose job was spoiled, and settles its number. It is taken in hand first, though it gets
/// nothing: so the void number is that of an output in the record.
pub(crate) fn spoil_waiting<F: Outputs>(
    context: &SealContext<'_>,
    seats: &mut [Seat],
    folder: &mut F,
    output: F::Handle,
    place: u32,
    spent: Spent,
) -> FileOutcome
    requires all { AreAllSeats context.now.ledger.now seats.old }
    requires owed { OwesAt context.now.ledger.now seats.old place spent.device spent.number }
    requires unsettled { times_settled spent.number (operations_of seats.old) ≡ 0 }
    requires keyed { AreKeyed context.now seats.old (F.rest folder.old) }
    requires waits { IfSome (F.rest folder.old) (IsNew (F.Handle.at output)) }
    ensures all { AreAllSeats context.now.ledger.now seats.new }
    ensures keyed { AreKeyed context.now seats.new (F.rest folder.new) }
    ensures outcome { result ≡ FileOutcome.Failed (FileFault.Unsealed SealFault.OutOfMemory) }
    ensures given_up { Becomes (filled (F.Handle.at output) (Container spent.number context.now.options.now.shape.now)
        GivenUp [] 0) (F.rest folder.old) (F.rest folder.new) }
    ensures settled { IsEnding spent.number (operations_of seats.old) (operations_of seats.new) result }
    ensures made { SettledAt place spent.number seats.old seats.new }
{
    begin_waiting(context, seats, folder, output, place, &spent);
    end_output(
        context.ledger,
        seats,
        place,
        spent,
        folder,
        Err(SealFault::OutOfMemory),
    )
}
