//! Ranges spent by seats in threads: each number is issued once, and settled.
ghost use Rattle.std.specs.Prelude.{◌≡◌, ◌<◌};

use crate::calls::{ends_with, open};
use crate::run::Run;
use ledger_core::Tally;
use std::alloc::Global;
use std::test::*;
use std::thread::Threads;

// A range, its seats and the threads. Then the seats `meet` meet if they are two, and seat `counts` counts everything.
#[derive(Clone, Copy)]
struct Spending {
    lo: u32,
    size: u32,
    seats: u32,
    threads: u32,
    meet: (usize, usize),
    counts: usize,
    tally: Tally,
    // The line that the audit writes.
    line: &'static [u8],
}

// The first range ends at the last number of all. In the second, all three counts of the word reach their maximum. In
// the third, one seat's log is as long as possible: a grant and a settlement of each number, and a refusal.
static SPENDINGS: [Spending; 3] = [
    Spending {
        lo: 4_294_966_296,
        size: 1_000,
        seats: 4,
        threads: 4,
        meet: (0, 3),
        counts: 2,
        tally: Tally {
            granted: 1_000,
            refused: 4,
            sealed: 500,
            void: 500,
        },
        line: b"legal: 1000 granted, 500 sealed, 500 void, 0 open, 4 refused\n",
    },
    Spending {
        lo: 0,
        size: 65_535,
        seats: 64,
        threads: 4,
        meet: (0, 0),
        counts: 63,
        tally: Tally {
            granted: 65_535,
            refused: 64,
            sealed: 32_768,
            void: 32_767,
        },
        line: b"legal: 65535 granted, 32768 sealed, 32767 void, 0 open, 64 refused\n",
    },
    Spending {
        lo: 0,
        size: 65_535,
        seats: 1,
        threads: 1,
        meet: (0, 0),
        counts: 0,
        tally: Tally {
            granted: 65_535,
            refused: 1,
            sealed: 32_768,
            void: 32_767,
        },
        line: b"legal: 65535 granted, 32768 sealed, 32767 void, 0 open, 1 refused\n",
    },
];

fn meet(run: &mut Run, first: usize, second: usize)
    requires { second < run.old.terms.seats }
    ensures { run.new ≡ run.old }
{
    if first >= second {
        return;
    }
    run.meet(first, second);
}

// Whether the range is spent, counted and audited as expected.
fn is_spent<R: Threads + Sync>(rt: &R, alloc: Global, spending: Spending) -> Option<bool> {
    let seats = spending.seats;
    let (first, second) = spending.meet;
    let counts = spending.counts;
    // The contracts of `meet` and `ends_with` require this.
    if second >= seats as usize || counts >= seats as usize {
        return None;
    }
    let mut run = open(alloc, spending.lo, spending.size, seats)?;
    run.spend(rt, spending.threads);
    meet(&mut run, first, second);
    Some(ends_with(alloc, run, counts, spending.tally, spending.line))
}

#[test]
fn seats_in_threads_spend_a_range(rt: HostRuntime) {
    for spending in &SPENDINGS {
        let spent = is_spent(&rt, rt.alloc(), *spending);
        assert!(rt; spent == Some(true), "{} seats", spending.seats);
    }
}
