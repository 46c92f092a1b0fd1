//! How a thread waits for another without a `Wait`: it looks again, and ever more rarely.

use std::hint::spin_loop;
use std::thread::{sleep, yield_now};
use std::time::{Clock, Duration};

// How often a thread looks before it yields between looks.
const SPINS: u32 = 100;

/// How often it looks before it sleeps between looks.
pub(crate) const LOOKS: u32 = 200;

// Microseconds: the least sleep, and the most.
const SHORTEST: u32 = 20;

const LONGEST: u32 = 100_000;

// Which part of all sleep so far the next one is. Whoever waits for the sleeper loses at most as much.
const PART: u32 = 64;

/// Lets a moment pass after this many looks in vain, or a turn of the processor. Returns the looks with this one.
pub(crate) fn look_again(looks: u32) -> u32 {
    if looks < SPINS {
        spin_loop();
    } else {
        yield_now();
    }
    looks.saturating_add(1)
}

/// Sleeps, ever longer, after so many microseconds of sleep. Returns them with this one.
pub(crate) fn sleep_longer<R: Clock>(rt: &R, slept: u32) -> u32 {
    let pause = (slept / PART).max(SHORTEST).min(LONGEST);
    sleep(rt, Duration::from_micros(u64::from(pause)));
    slept.saturating_add(pause)
}
