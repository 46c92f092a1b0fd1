//! What the lines of a journal read so far amount to, and the step to the next line.
ghost use Rattle.std.specs.Prelude.{◌≡◌, ℕ, ◌+◌, List, [], ◌∷◌, ◌++◌, length, IfOk, MatchOption};
ghost use Rattle.journal_core.specs.Judged.{Judged, SameFront};

use crate::line::{entry_in, terms_in};
use crate::standing::Standing;
use crate::verdict::Verdict;
use std::alloc::{AllocError, Global};

// What the lines so far amount to.
#[derive(Drop)]
pub(crate) enum State {
    // No line yet.
    Start,
    // A range line and a legal history, with what that history left.
    Sound(Standing),
    // A journal with this fault, whatever follows.
    Wrong(Verdict),
}

// The state after the first line.
fn first_line(alloc: Global, line: &[u8]) -> Result<State, AllocError>
    ensures { IfOk result (λ state. (whole : List ℕ) → SameFront line.now whole → Judged state (whole ∷ [])) }
{
    let Ok(text) = str::from_utf8(line) else {
        return Ok(State::Wrong(Verdict::Malformed(1)));
    };
    match terms_in(text) {
        Some(terms) => Ok(State::Sound(Standing::new(alloc, terms)?)),
        None => Ok(State::Wrong(Verdict::Malformed(1))),
    }
}

// Takes the entry of a later line, or returns what is wrong with the line of this number.
fn later_line(standing: &mut Standing, line: &[u8], number: u64) -> Option<Verdict>
    ensures { (lines : List (List ℕ)) (whole : List ℕ) → SameFront line.now whole → number ≡ length lines + 1
        → Judged (State.Sound standing.old) lines
        → MatchOption result (Judged (State.Sound standing.new) (lines ++ whole ∷ []))
        (λ verdict. Judged (State.Wrong verdict) (lines ++ whole ∷ [])) }
{
    let Ok(text) = str::from_utf8(line) else {
        return Some(Verdict::Malformed(number));
    };
    let Some(entry) = entry_in(text) else {
        return Some(Verdict::Malformed(number));
    };
    if !standing.can_follow(entry) {
        return Some(Verdict::Illegal(number));
    }
    standing.take(entry);
    None
}

impl State {
    // Moves to the state after one more line. `number` is that line's number, and `line` begins with its first 35
    // bytes, or with all of it if it is shorter.
    pub(crate) fn step(&mut self, alloc: Global, line: &[u8], number: u64) -> Result<(), AllocError>
        ensures { IfOk result (λ _. (lines : List (List ℕ)) (whole : List ℕ) → SameFront line.now whole
            → number ≡ length lines + 1 → Judged self.old lines
            → Judged self.new (lines ++ whole ∷ [])) }
    {
        let next = match self {
            State::Start => first_line(alloc, line)?,
            State::Sound(standing) => {
                match later_line(standing, line, number) {
                    None => return Ok(()),
                    Some(verdict) => State::Wrong(verdict),
                }
            }
            State::Wrong(_) => return Ok(()),
        };
        *self = next;
        Ok(())
    }
}
