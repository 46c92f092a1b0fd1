//! The ledger's word as a table of one word: what each seat knows of the history, and the kinds of step.
//!
//! The history is not stored in memory. The rule says that there is one legal history, and that the word has its three
//! counts. Each seat has seen a prefix of it, in which the seat's own operations are all of that seat's entries.
ghost use Rattle.std.specs.Prelude.{◌≡◌, ◌+◌, ◌≤◌, length, vec_len, vec_capacity};
ghost use Rattle.std.specs.List.{count_by};
ghost use Rattle.journal_core.specs.Range.{most_size};

use atomic_table::{Join, Play, Seat, Split, Table, TableRule};
use journal_core::{Entry, Terms};
use std::alloc::Global;
use std::collections::LinkedList;
use std::marker::{Brand, Model, PhantomData};

/// A record of a seat's own log: an entry and its index in the history.
#[derive(Clone, Copy)]
pub struct Record {
    pub entry: Entry,
    pub place: u32,
}

/// What a seat keeps of its own operations.
#[derive(Drop)]
pub struct Own {
    /// Whether an issue found no number left.
    pub closed: bool,
    /// Its operations, in order. There is room for the settlement of each open number.
    pub log: Vec<Record>,
    /// For each number of the range, in order, whether it is open at this seat.
    pub held: Vec<bool>,
    /// How many numbers are open at this seat.
    pub owing: u32,
    ghost counted: { owing ≡ count_by (λ mark. mark) held.items },
    ghost room: { vec_len log + owing ≤ vec_capacity log },
    ghost few: { length held.items ≤ most_size },
}

/// The fields of a seat. Between a step and its record they don't satisfy the seat's invariant, so they have none of
/// their own.
#[derive(Drop)]
pub struct Fields {
    pub opening: Terms,
    /// The seat's number.
    pub number: u32,
    pub own: Own,
    pub token: Token,
}

/// What a token knows. It covers `width` seats from `seat` on: one for a seat of a ledger, none for a note. It is used
/// in proofs only: no value of it is made.
pub struct View {
    pub terms: Terms,
    pub seat: u32,
    pub width: u32,
    pub seen: LinkedList<Entry>,
    pub mine: LinkedList<Entry>,
    pub told: LinkedList<Entry>,
}

pub struct OneHistory;

impl TableRule<(), View, Terms> for OneHistory {
    ghost use Rattle.ledger_core.specs.Rule.{IsKept, newcomer};

    ghost holds = { IsKept };

    ghost first = { newcomer };
}

/// Adds 1 to the word.
pub struct Issue;

impl Play<(), View> for Issue {
    ghost use Rattle.ledger_core.specs.Rule.{issued};

    ghost then = { issued };
}

/// Gives the number that a step settles. A kind of step is a type and can't contain a number, so it has a parameter of
/// this trait.
pub trait Naming {
    ghost use Rattle.std.specs.Prelude.{ℕ};

    ghost number: { ℕ };
}

// A call that passes `Brand` chooses its own number, as `settle_step` does in its proof. This 0 is never used.
impl Naming for Brand {
    ghost number = { 0 };
}

/// Adds 2^20 to the word.
pub struct Seal<N> {
    of: PhantomData<N>,
}

impl<N: Naming> Play<(), View> for Seal<N> {
    ghost use Rattle.ledger_core.specs.Rule.{settled};
    ghost use Rattle.journal_core.specs.declared.entry.Way.TheVariants.{Sealed};

    ghost then = { settled N.number Sealed };
}

/// Adds 2^40 to the word.
pub struct Waste<N> {
    of: PhantomData<N>,
}

impl<N: Naming> Play<(), View> for Waste<N> {
    ghost use Rattle.ledger_core.specs.Rule.{settled};
    ghost use Rattle.journal_core.specs.declared.entry.Way.TheVariants.{Void};

    ghost then = { settled N.number Void };
}

/// Loads the word.
pub struct Look;

impl Play<(), View> for Look {
    ghost use Rattle.ledger_core.specs.Rule.{looked};

    ghost then = { looked };
}

/// Loads the word. What the seat heard is then what it has seen.
pub struct Adopt;

impl Play<(), View> for Adopt {
    ghost use Rattle.ledger_core.specs.Rule.{adopted};

    ghost then = { adopted };
}

/// Splits the first of a new ledger's seats from the others.
pub struct Deal;

impl Split<View> for Deal {
    ghost use Rattle.ledger_core.specs.Rule.{first_seat, other_seats};

    ghost left = { first_seat };

    ghost right = { other_seats };
}

/// Splits off a note of what a seat has seen.
pub struct Write;

impl Split<View> for Write {
    ghost use Rattle.ledger_core.specs.Rule.{note_of};

    ghost left = { λ v. v };

    ghost right = { note_of };
}

/// Gives a note to a seat.
pub struct Hear;

impl Join<View> for Hear {
    ghost use Rattle.ledger_core.specs.Rule.{hears, nobody};

    ghost both = { hears };

    ghost spent = { nobody };
}

pub type Word = Table<(), View, Terms, OneHistory, Global>;

pub type Token = Seat<(), View>;
