//! Order in time through a note. What a seat has seen when it writes the note comes before whatever a seat does after
//! hearing it.
ghost use Rattle.std.specs.Prelude.{◌≡◌, ◌≢◌, ◌<◌, ◌≤◌, IfOk};
ghost use Rattle.ledger_core.specs.History.{granted, times_granted};
ghost use Rattle.ledger_core.specs.Shared.{IsSameSeat};

use ledger_core::{Grant, IssueFault, Ledger, Note, Seat, Tally, laws};

/// The seat hears the note, counts, and issues. It counts at least the grants of the note. Its number isn't among those
/// that the note shows as granted, whoever wrote it.
pub fn behind(ledger: &Ledger, seat: &mut Seat, note: Note) -> Result<(Tally, Grant), IssueFault>
    requires ours { seat.old.ledger ≡ ledger.now.ledger }
    requires note { note.ledger ≡ ledger.now.ledger }
    ensures counted { IfOk result (λ r. granted note.seen ≤ r.0.granted) }
    ensures apart { IfOk result (λ r. times_granted r.1.number note.seen ≡ 0) }
    ensures same { IsSameSeat seat.old seat.new }
{
    ledger.hear(seat, note);
    let tally = ledger.tally(seat);
    let grant = ledger.issue(seat)?;
    laws::a_tally_counts_what_was_heard();
    laws::heard_numbers_are_not_granted_again();
    Ok((tally, grant))
}

/// The first seat issues a number and writes a note. The second hears it, counts and issues. Its count includes the
/// first's grant, and its number is a different one.
pub fn in_order(
    ledger: &Ledger,
    first: &mut Seat,
    second: &mut Seat,
) -> Result<(Grant, Tally, Grant), IssueFault>
    requires first { first.old.ledger ≡ ledger.now.ledger }
    requires second { second.old.ledger ≡ ledger.now.ledger }
    ensures counted { IfOk result (λ r. 0 < r.1.granted) }
    ensures apart { IfOk result (λ r. r.0.number ≢ r.2.number) }
    ensures first { IsSameSeat first.old first.new }
    ensures second { IsSameSeat second.old second.new }
{
    let earlier = ledger.issue(first)?;
    let note = ledger.note(first);
    let (tally, later) = behind(ledger, second, note)?;
    Ok((earlier, tally, later))
}
