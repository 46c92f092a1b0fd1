//! How many chunks a round of a file has by default.
use claim_core::{MAX_WORKERS, usual_opening, usual_window};

// A chunk's bytes, the workers, and the chunks of a round when sealing and when opening.
static USUAL: [(usize, u32, u32, u32); 13] = [
    (4_096, 1, 16, 16),
    (4_096, 2, 256, 64),
    (4_096, 16, 256, 64),
    (16_384, 2, 64, 16),
    (65_536, 1, 16, 4),
    (65_536, 2, 16, 4),
    (65_536, 4, 16, 4),
    (65_536, 16, 16, 16),
    (262_144, 1, 4, 1),
    (1_048_576, 1, 1, 1),
    (1_048_576, 2, 2, 2),
    (1_048_576, 4, 4, 4),
    (1_048_576, 16, 16, 16),
];

// Whether `workers` workers use rounds of `sealing` and `opening` chunks.
fn are_usual(chunk: usize, workers: u32, sealing: u32, opening: u32) -> bool {
    if chunk == 0 || workers == 0 || workers > MAX_WORKERS {
        return false;
    }
    usual_window(chunk, workers) == sealing && usual_opening(chunk, workers) == opening
}

#[test]
fn usual_windows(rt: HostRuntime) {
    for (chunk, workers, sealing, opening) in &USUAL {
        assert!(rt;
            are_usual(*chunk, *workers, *sealing, *opening),
            "{chunk} {workers}"
        );
    }
}
