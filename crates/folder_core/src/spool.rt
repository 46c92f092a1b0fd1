//! Input that can be read only once, as from a pipe, read as a file that can be read again. The first reading keeps the
//! bytes in a spool, and the second gets them from there.
ghost use Rattle.std.specs.Prelude.{◌≡◌, ℕ, [], Some, Option, OnOk, IfSome, true};
ghost use Rattle.std.specs.Option.{ForSome};
ghost use Rattle.io_core.specs.Streams.{Appends};
ghost use Rattle.folder_core.specs.declared.spool.Stage.TheVariants.{First, Again};
ghost use Rattle.folder_core.specs.Spooling.{count_at, joined, left_at};

use crate::reader::{FileReader, WholeFile};
use io_core::{Failed, Source};
use std::marker::PhantomData;

/// Room for bytes: they are put there, and then read, as often as is asked. What it holds is all of the file that it
/// is as a reader.
pub trait Spool: FileReader {
    /// Appends the bytes to those that it holds.
    fn put(&mut self, bytes: &[u8]) -> Result<(), Failed>
        ensures held { OnOk result (Appends (Self.whole self.old) (Self.whole self.new) bytes.now) };
}

/// Where a spooled input is read.
#[derive(Clone, Copy)]
pub enum Stage {
    /// From the input, and what is read is kept.
    First,
    /// From the input, after the spool failed.
    Lost,
    /// From the spool.
    Again,
}

/// An input that is read once, and then again from a spool. `again` succeeds once the input was read to its end and the
/// spool has all of it.
#[derive(Drop)]
pub struct Spooled<R: Source + Drop, S: Spool + Drop, N: WholeFile> {
    /// The input.
    pub input: R,
    /// What was read of it, and may be more after a failure.
    pub spool: S,
    stage: Stage,
    // Whether the input's end was seen.
    ended: bool,
    of: PhantomData<N>,
    ghost first: { stage ≡ First → ForSome N.whole (λ all. joined (S.whole spool) (R.left input) ≡ Some all) },
    ghost again: { stage ≡ Again → ForSome N.whole (λ all. S.whole spool ≡ Some all) },
    ghost end: { stage ≡ First → ended ≡ true → ForSome (R.left input) (λ rest. rest ≡ []) },
}

impl<R: Source + Drop, S: Spool + Drop, N: WholeFile> Spooled<R, S, N> {
    /// An input of which nothing was read, with an empty spool.
    pub fn of(input: R, spool: S) -> Spooled<R, S, N>
        requires whole { IfSome N.whole (λ all. (R.left input ≡ Some all) × (S.whole spool ≡ Some [])) }
        ensures input { result.input ≡ input }
        ensures spool { result.spool ≡ spool }
        ensures first { result.stage ≡ Stage.First }
    {
        Spooled {
            input,
            spool,
            stage: Stage::First,
            ended: false,
            of: PhantomData,
        }
    }
}

impl<R: Source + Drop, S: Spool + Drop, N: WholeFile> Source for Spooled<R, S, N> {
    ghost left = { λ s. left_at s.stage (R.left s.input) (S.left s.spool) };

    ghost failures = { λ s. count_at s.stage (R.failures s.input) (S.failures s.spool) };

    fn read(&mut self, buffer: &mut [u8]) -> Result<usize, Failed> {
        self.read_on(buffer)
    }
}

impl<R: Source + Drop, S: Spool + Drop, N: WholeFile> FileReader for Spooled<R, S, N> {
    ghost whole = { λ _. N.whole };

    fn read_on(&mut self, buffer: &mut [u8]) -> Result<usize, Failed> {
        match self.stage {
            Stage::Again => self.spool.read_on(buffer),
            Stage::Lost => self.input.read(buffer),
            Stage::First => {
                self.ended = false;
                let n = match self.input.read(buffer) {
                    Ok(n) => n,
                    Err(Failed) => return Err(Failed),
                };
                self.ended = n == 0 && !buffer.is_empty();
                match self.spool.put(&buffer[..n]) {
                    Ok(()) => {}
                    Err(Failed) => self.stage = Stage::Lost,
                }
                Ok(n)
            }
        }
    }

    fn again(&mut self) -> Result<(), Failed> {
        match self.stage {
            Stage::Lost => Err(Failed),
            Stage::Again => self.spool.again(),
            Stage::First => {
                if !self.ended {
                    return Err(Failed);
                }
                match self.spool.again() {
                    Ok(()) => {
                        self.stage = Stage::Again;
                        Ok(())
                    }
                    Err(Failed) => Err(Failed),
                }
            }
        }
    }
}
