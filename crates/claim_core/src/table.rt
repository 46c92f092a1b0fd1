//! The claim word as a table of one word: what each claimant has drawn, and its only step, the draw.
//!
//! The word counts the draws. While it is at most the count, each number below it was drawn once. Past that it also
//! counts how often workers met the end.

use atomic_table::{Join, Play, Seat, Split, Table, TableRule};
use std::alloc::Global;
use std::collections::LinkedList;

/// What a claims table is opened with.
#[derive(Clone, Copy, Drop)]
pub struct Terms {
    /// The numbers below it are drawn.
    pub count: u32,
    /// How many workers draw.
    pub workers: u32,
}

/// What a token knows: how many workers it represents, what they drew, in order, and how often they met the end. No
/// value of this type exists at run time.
pub struct Hand {
    pub count: u32,
    pub workers: u32,
    pub drawn: LinkedList<u32>,
    pub ends: u32,
}

pub struct EachOnce;

impl TableRule<(), Hand, Terms> for EachOnce {
    ghost use Rattle.claim_core.specs.Rule.{IsKept, all_workers};

    ghost holds = { IsKept };

    ghost first = { all_workers };
}

/// The word is raised by 1.
pub struct Draw;

impl Play<(), Hand> for Draw {
    ghost use Rattle.claim_core.specs.Rule.{drew};

    ghost then = { drew };
}

/// One worker is split off.
pub struct CutOff;

impl Split<Hand> for CutOff {
    ghost use Rattle.claim_core.specs.Rule.{other_workers, one_worker};

    ghost left = { other_workers };

    ghost right = { one_worker };
}

/// The workers of one token move to another.
pub struct TakeIn;

impl Join<Hand> for TakeIn {
    ghost use Rattle.claim_core.specs.Rule.{both_hands, nobody};

    ghost both = { both_hands };

    ghost spent = { nobody };
}

pub type Word = Table<(), Hand, Terms, EachOnce, Global>;

pub type Token = Seat<(), Hand>;
