//! The workers of a round. Each has a bench of its own and draws the numbers of its pieces from claims that all share,
//! until none is left. The caller's thread is worker 0: it does a chore first, and then draws as the others do. So a
//! slow worker delays only one piece.
ghost use Rattle.std.specs.Prelude.{◌≡◌, ℕ, ◌+◌, ◌-◌, ◌*◌, ◌<◌, ◌≤◌, ◌++◌, [], ◌∷◌, length, map, All, IfOk};
ghost use Rattle.std.specs.Thread.{IsSync};
ghost use Rattle.claim_core.specs.Claims.{IsOf, newcomer};
ghost use Rattle.claim_core.specs.Claims.{times};
ghost use Rattle.worker_core.specs.Pieces.{all_made, number_of, Covers};
ghost use Rattle.worker_core.specs.Crew.{AreWorked, HasDrawn, IsReady, IsWorked};

use crate::bench::Bench;
use crate::round::Round;
use crate::word::{Word, word_for};
use claim_core::{Claimant, Claims, Gate, MAX_WORKERS};
use std::alloc::Global;
use std::thread::{Threads, join_mut};

// Makes pieces as long as the claims give numbers.
fn work<G: Gate>(
    round: &Round,
    claims: &Claims,
    worker: u32,
    gate: &G,
    claimant: &mut Claimant,
    bench: &mut Bench,
)
    requires new { claimant.old ≡ newcomer claims.now 1 }
    requires count { claims.now.count ≡ length round.now.values }
    requires ready { IsReady round.now bench.old }
    ensures drawn { HasDrawn claims.now 1 (map number_of bench.new.made) claimant.new }
    ensures worked { IsWorked round.now bench.old bench.new }
{
    'drawing: while let Some(number) = claims.draw(claimant) {
        gate.pass(worker, round.chunk(number));
        bench.make(round, number);
    }
}

// Makes all pieces on one bench, in order.
fn work_alone<G: Gate>(round: &Round, gate: &G, bench: &mut Bench)
    requires ready { IsReady round.now bench.old }
    ensures all { (n : ℕ) → n < length round.now.values → 0 < times n (map number_of bench.new.made) }
    ensures worked { IsWorked round.now bench.old bench.new }
{
    'making: for number in 0..round.count() {
        gate.pass(0, round.chunk(number));
        bench.make(round, number);
    }
}

// Runs a worker for each of these benches, of which the first is the caller's thread.
#[cycle(crew)]
fn crew<R: Threads + Sync, G: Gate + Sync, C: FnMut() -> A, A>(
    rt: &R,
    round: &Round,
    claims: &Claims,
    gate: &G,
    claimant: &mut Claimant,
    benches: &mut [Bench],
    chore: &mut C,
) -> A
    requires benches { (0 < length benches.old) × (length benches.old ≤ MAX_WORKERS) }
    requires new { claimant.old ≡ newcomer claims.now (length benches.old) }
    requires count { claims.now.count ≡ length round.now.values }
    requires ready { All (IsReady round.now) benches.old }
    requires chore { C.pre chore.old }
    ensures chore { C.step chore.old result chore.new }
    ensures drawn { HasDrawn claims.now (length benches.old) (map number_of (all_made benches.new)) claimant.new }
    ensures worked { AreWorked round.now benches.old benches.new }
{
    let others = benches.len() - 1;
    if others == 0 {
        let done = chore();
        let bench = &mut benches[0];
        work(round, claims, 0, gate, claimant, bench);
        return done;
    }
    let mut theirs = claims.split(claimant);
    let (front, last) = benches.split_at_mut(others);
    let bench = &mut last[0];
    let done = crew_beside(
        rt,
        round,
        claims,
        gate,
        claimant,
        front,
        chore,
        others as u32,
        &mut theirs,
        bench,
    );
    claims.join(claimant, theirs);
    done
}

// Runs the workers of these benches, and beside them one more on a thread of its own.
#[cycle(crew)]
fn crew_beside<R: Threads + Sync, G: Gate + Sync, C: FnMut() -> A, A>(
    rt: &R,
    round: &Round,
    claims: &Claims,
    gate: &G,
    claimant: &mut Claimant,
    benches: &mut [Bench],
    chore: &mut C,
    worker: u32,
    other: &mut Claimant,
    bench: &mut Bench,
) -> A
    requires benches { (0 < length benches.old) × (length benches.old < MAX_WORKERS) }
    requires new { claimant.old ≡ newcomer claims.now (length benches.old) }
    requires other { other.old ≡ newcomer claims.now 1 }
    requires count { claims.now.count ≡ length round.now.values }
    requires ready { All (IsReady round.now) benches.old }
    requires bench { IsReady round.now bench.old }
    requires chore { C.pre chore.old }
    ensures chore { C.step chore.old result chore.new }
    ensures drawn { HasDrawn claims.now (length benches.old) (map number_of (all_made benches.new)) claimant.new }
    ensures worked { AreWorked round.now benches.old benches.new }
    ensures other_drawn { HasDrawn claims.now 1 (map number_of bench.new.made) other.new }
    ensures other_worked { IsWorked round.now bench.old bench.new }
{
    let (_, done) = join_mut(
        rt,
        &mut ||
            requires { IsSync G.row × (other.now ≡ newcomer claims.now 1) × (claims.now.count ≡ length round.now.values)
                × IsReady round.now bench.now }
            ensures drawn { HasDrawn claims.entry.now 1 (map number_of bench.exit.now.made) other.exit.now }
            ensures worked { IsWorked round.entry.now bench.entry.now bench.exit.now }
        { work(round, claims, worker, gate, other, bench) },
        &mut || -> A
            requires { IsSync R.row × IsSync G.row × (0 < length benches.now) × (length benches.now < MAX_WORKERS)
                × (claimant.now ≡ newcomer claims.now (length benches.now))
                × (claims.now.count ≡ length round.now.values) × All (IsReady round.now) benches.now × C.pre chore.now }
            ensures chore { C.step chore.entry.now result chore.exit.now }
            ensures drawn { HasDrawn claims.entry.now (length benches.entry.now)
                (map number_of (all_made benches.exit.now)) claimant.exit.now }
            ensures worked { AreWorked round.entry.now benches.entry.now benches.exit.now }
        { crew(rt, round, claims, gate, claimant, benches, chore) },
    );
    done
}

// Makes the pieces of a round with a worker for each of these benches, of which there are no more than pieces.
fn make_by<R: Threads + Sync, G: Gate + Sync, C: FnMut() -> A, A>(
    rt: &R,
    alloc: Global,
    kept: Option<Word>,
    round: &Round,
    benches: &mut [Bench],
    gate: &G,
    chore: &mut C,
) -> A
    requires workers { (0 < length benches.old) × (length benches.old ≤ MAX_WORKERS) }
    requires ready { All (IsReady round.now) benches.old }
    requires chore { C.pre chore.old }
    ensures chore { C.step chore.old result chore.new }
    ensures made { Covers round.now benches.new }
    ensures worked { AreWorked round.now benches.old benches.new }
{
    let workers = benches.len();
    if workers > 1 {
        if let Some(word) = word_for(alloc, kept, round.count(), workers as u32) {
            let (claims, mut claimant) = word.parts();
            let done = crew(rt, round, &claims, gate, &mut claimant, benches, chore);
            claims.close(claimant);
            return done;
        }
    }
    let done = chore();
    let bench = &mut benches[0];
    work_alone(round, gate, bench);
    done
}

// Makes the pieces of a round with as many workers as there are benches, each on its bench. The caller's thread does a
// chore first.
pub(crate) fn make_round<R: Threads + Sync, G: Gate + Sync, C: FnMut() -> A, A>(
    rt: &R,
    alloc: Global,
    kept: Option<Word>,
    round: &Round,
    benches: &mut [Bench],
    gate: &G,
    chore: &mut C,
) -> A
    requires workers { (0 < length benches.old) × (length benches.old ≤ MAX_WORKERS) }
    requires ready { All (IsReady round.now) benches.old }
    requires chore { C.pre chore.old }
    ensures chore { C.step chore.old result chore.new }
    ensures made { Covers round.now benches.new }
    ensures worked { AreWorked round.now benches.old benches.new }
{
    // More workers than pieces would have nothing to do.
    let workers = benches.len().min(round.count() as usize);
    let (used, _) = benches.split_at_mut(workers);
    make_by(rt, alloc, kept, round, used, gate, chore)
}
