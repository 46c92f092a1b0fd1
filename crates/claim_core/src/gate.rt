//! What each worker calls before each piece of work, and each lane before each job. Tests use it, and so may a caller
//! that watches or blocks workers.

/// A gate, shared by all workers or lanes. A crew's workers draw the pieces of a round, and the lanes of a batch draw
/// jobs. A gate that blocks one blocks the piece or job that it has drawn. It may wait until others have passed with
/// all other pieces of that round, or jobs of that batch. It must not wait for a call in a later round.
///
/// If a file is sealed in chunks of less than 64 KiB, a worker takes several at a time. It passes with each of them,
/// from the last to the first; blocking one blocks those before it too. A worker may be alone: where no thread can be
/// started, or where memory is refused by which workers share a round, or which one of them needs for itself. Then a
/// gate that waits for another worker has to give up.
pub trait Gate {
    /// Called by a worker right before it seals or opens a chunk, with the worker's number, from 0, and the chunk
    /// number. In a batch, called by the lane that has drawn a job, once for each job, right before it issues a number.
    /// Then the arguments are the lane's number, from 0, and the job's.
    fn pass(&self, worker: u32, piece: u32);
}

/// The gate that returns at once.
#[derive(Clone, Copy, Debug)]
pub struct Free;

impl Gate for Free {
    fn pass(&self, _worker: u32, _piece: u32) {}
}
