//! The progress of an audit: what it keeps of the bytes that it has read.
//!
//! It keeps the state of the lines so far, and at most 35 bytes of the current line. The longest line of a journal has
//! 34 bytes, so a longer line is malformed whatever follows. `auditing` feeds it from a reader.
ghost use Rattle.std.specs.Prelude.{◌≡◌, ℕ, ◌+◌, ◌≤◌, ◌<◌, List, [], ◌∷◌, ◌++◌, length, take, drop, IfOk, MatchOption};
ghost use Rattle.journal_core.specs.Verdict.{IsLine, IsVerdict};

use crate::state::State;
use crate::verdict::Verdict;
use std::alloc::{AllocError, Global};

// How many bytes of a line are kept: one more than the longest line of a journal has.
const KEPT: usize = 35;

#[derive(Drop)]
pub(crate) struct Progress {
    alloc: Global,
    lines: u64,
    kept: [u8; KEPT],
    kept_len: usize,
    state: State,
    ghost in_range: { kept_len ≤ 35 },
}

// The index of the first line feed, if there is one.
fn line_end(bytes: &[u8]) -> Option<usize>
    ensures { MatchOption result (IsLine bytes.now) (λ i. (i < length bytes.now)
        × (bytes.now ≡ take i bytes.now ++ 10 ∷ drop (i + 1) bytes.now) × IsLine (take i bytes.now)) }
{
    bytes.iter().position(|byte| *byte == b'\n')
}

impl Progress {
    ghost use Rattle.journal_core.specs.Audit.{Audits, HasRead};

    pub(crate) fn new(alloc: Global) -> Progress
        ensures lines { result.lines ≡ 0 }
        ensures read { HasRead result [] }
    {
        Progress {
            alloc,
            lines: 0,
            kept: [0; KEPT],
            kept_len: 0,
            state: State::Start,
        }
    }

    // Keeps what is needed of a piece of the current line.
    fn keep(&mut self, piece: &[u8])
        ensures count { self.new.lines ≡ self.old.lines }
        ensures read { (lines : List (List ℕ)) (rest : List ℕ) → Audits self.old lines rest → IsLine piece.now
            → Audits self.new lines (rest ++ piece.now) }
    {
        let n = piece.len().min(KEPT - self.kept_len);
        let end = self.kept_len + n;
        self.kept[self.kept_len..end].copy_from_slice(&piece[..n]);
        self.kept_len = end;
    }

    // Judges the current line, which has ended.
    fn judge(&mut self) -> Result<(), AllocError>
        requires { self.old.lines < u64.MAX }
        ensures count { IfOk result (λ _. self.new.lines ≡ self.old.lines + 1) }
        ensures read { IfOk result (λ _. (lines : List (List ℕ)) (rest : List ℕ) → Audits self.old lines rest
            → Audits self.new (lines ++ rest ∷ []) []) }
    {
        let kept = self.kept;
        let line = &kept[..self.kept_len];
        self.kept_len = 0;
        let number = self.lines + 1;
        self.state.step(self.alloc, line, number)?;
        self.lines = number;
        Ok(())
    }

    // Takes the end of a line: the bytes before its line feed.
    fn end(&mut self, piece: &[u8]) -> Result<(), AllocError>
        requires { self.old.lines < u64.MAX }
        ensures count { IfOk result (λ _. self.new.lines ≡ self.old.lines + 1) }
        ensures read { IfOk result (λ _. (lines : List (List ℕ)) (rest : List ℕ) → Audits self.old lines rest
            → IsLine piece.now → Audits self.new (lines ++ (rest ++ piece.now) ∷ []) []) }
    {
        self.keep(piece);
        self.judge()
    }

    // Takes the next bytes of the journal.
    pub(crate) fn take(&mut self, bytes: &[u8]) -> Result<(), AllocError>
        requires { self.old.lines + length bytes.now < u64.MAX }
        ensures count { IfOk result (λ _. self.new.lines ≤ self.old.lines + length bytes.now) }
        ensures read { IfOk result (λ _. (before : List ℕ) → HasRead self.old before
            → HasRead self.new (before ++ bytes.now)) }
    {
        let mut rest = bytes;
        while let Some(at) = line_end(rest) {
            self.end(&rest[..at])?;
            rest = &rest[at + 1..];
        }
        self.keep(rest);
        Ok(())
    }

    // The verdict, if the bytes taken are all of the input.
    pub(crate) fn verdict(&self) -> Verdict
        requires { self.now.lines < u64.MAX }
        ensures { (bytes : List ℕ) → HasRead self.now bytes → IsVerdict bytes result }
    {
        match &self.state {
            State::Start => Verdict::Malformed(1),
            State::Sound(_) if self.kept_len > 0 => Verdict::Malformed(self.lines + 1),
            State::Sound(standing) => Verdict::Legal(standing.tally()),
            State::Wrong(verdict) => *verdict,
        }
    }
}
