//! Laws of the ledger's terms, and of what a seat has seen. Each law is the contract of a function that does nothing.
ghost use Rattle.std.specs.Prelude.{◌≡◌, ◌≤◌, ◌++◌, ◌∷◌, ℕ, List, [], Some, slice_get};
ghost use Rattle.journal_core.specs.declared.entry.Entry.{Entry};
ghost use Rattle.journal_core.specs.declared.entry.Event.{Event};
ghost use Rattle.journal_core.specs.declared.entry.Event.TheVariants.{Granted, Exhausted};
ghost use Rattle.journal_core.specs.declared.terms.Terms.{Terms};
ghost use Rattle.journal_core.specs.History.{Begins, MayFollow, entry, granted, refused, sealed};
ghost use Rattle.journal_core.specs.History.{times_granted, voided};
ghost use Rattle.journal_core.specs.Prefixes.{GrantsOnce};
ghost use Rattle.ledger_core.specs.Closing.{AreAllSeats, HaveMet, IsWhole};
ghost use Rattle.ledger_core.specs.Shared.{Agree, Extends, Knows, LedgerView, SeatView};

use crate::seat::Seat;
pub use journal_core::laws::{
    a_beginning_is_legal, a_legal_journal_is_legal, a_prefix_tells_its_number,
    bytes_have_one_verdict, counts_stay_small, grants_of_journal,
};

/// All prefixes granted in what a seat has seen are in the range of its ledger, and none is granted twice.
pub fn grants_seen(seat: &Seat)
    ensures { GrantsOnce seat.now.terms seat.now.seen }
{
    let _knows = seat.number();
}

/// Any two seats of one whole history agree. What one has seen is a prefix of what the other has. What one has seen of
/// the other is a prefix of the other's own operations.
pub fn seats_agree()
    ensures { (terms : Terms) (seats : List SeatView) (history : List Entry) (i j : ℕ) (one other : SeatView)
        → IsWhole terms seats history → slice_get seats i ≡ Some one → slice_get seats j ≡ Some other
        → Agree one other }
{}

/// All seats of a ledger that have met have one whole history.
pub fn seats_that_met_have_one_history()
    ensures { (ledger : LedgerView) (old new : List SeatView) (history : List Entry)
        → AreAllSeats ledger old → HaveMet old new history → (whole : List Entry) × IsWhole ledger.terms old whole }
{}

/// The history so far determines the reply to an issue: one number, or that none is left.
pub fn one_reply_fits()
    ensures number { (terms : Terms) (before : List Entry) (s t m n : ℕ)
        → MayFollow terms before (entry s (Granted m)) → MayFollow terms before (entry t (Granted n)) → m ≡ n }
    ensures none { (terms : Terms) (before : List Entry) (s t m : ℕ)
        → MayFollow terms before (entry s (Granted m)) → MayFollow terms before (entry t Exhausted) → ⊥ }
{}

/// What a seat has heard of comes before whatever it does later.
pub fn heard_stands_before()
    ensures { (shown : List Entry) (old new : SeatView) (event : Event) → Begins shown old.seen → Extends old event new
        → (between : List Entry) × (new.seen ≡ (shown ++ between) ++ entry old.number event ∷ []) }
{}

/// A number that a seat has heard of as granted is not granted to it, whichever seat got it and whatever became of that
/// seat.
pub fn heard_numbers_are_not_granted_again()
    ensures { (shown : List Entry) (old new : SeatView) (number : ℕ) → Begins shown old.seen
        → Extends old (Granted number) new → Knows new → times_granted number shown ≡ 0 }
{}

/// A tally counts at least what the seat has heard of.
pub fn a_tally_counts_what_was_heard()
    ensures granted { (shown seen : List Entry) → Begins shown seen → granted shown ≤ granted seen }
    ensures refused { (shown seen : List Entry) → Begins shown seen → refused shown ≤ refused seen }
    ensures sealed { (shown seen : List Entry) → Begins shown seen → sealed shown ≤ sealed seen }
    ensures void { (shown seen : List Entry) → Begins shown seen → voided shown ≤ voided seen }
{}
