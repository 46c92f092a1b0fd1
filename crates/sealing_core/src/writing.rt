//! Takes pieces back, and writes each in its turn, with the header before the first.
ghost use Rattle.std.specs.Prelude.{◌≡◌, ℕ, ◌+◌, ◌<◌, ◌≤◌, ◌++◌, All, Option, List, length, is_err, OnOk, OnErr};
ghost use Rattle.std.specs.VecDeque.{deque_capacity};
ghost use Rattle.crossbeam_queue.specs.Passes.{view, IsPassOf};
ghost use Rattle.io_core.specs.Streams.{Appends, AppendsFront, LacksSome, counted};
ghost use Rattle.output_core.specs.Bounds.{Admits};
ghost use Rattle.sealing_core.specs.Order.{front_at, AreKept, AreWritten, IsCutOff, IsOrdered, MayGoOn};
ghost use Rattle.sealing_core.specs.Pieces.{room};
ghost use Rattle.sealing_core.specs.declared.line.Hand.{Hand};
ghost use Rattle.container_core.specs.Chunks.{max_chunks};

use crate::early::Early;
use crate::line::{Hand, Naming, PieceLine, take_piece};
use crate::piece::Piece;
use crate::spare::keep;
use crossbeam_queue::Pass;
use io_core::Failed;
use output_core::{Output, put_all};

/// Writes a block's sealed bytes; for block 0 it writes `front` before them.
pub(crate) fn write_part<W: Output>(
    writer: &mut W,
    front: &[u8],
    number: u32,
    bytes: &[u8],
) -> Result<(), Failed>
    requires may { Admits (W.bound writer.old) (W.taken writer.old) (front_at front.now number ++ bytes.now) }
    ensures ok { OnOk result (Appends (W.taken writer.old) (W.taken writer.new)
        (front_at front.now number ++ bytes.now)) }
    ensures err { OnErr result (AppendsFront (W.taken writer.old) (W.taken writer.new)
        (front_at front.now number ++ bytes.now)) }
    ensures short { OnErr result (LacksSome (W.taken writer.old) (W.taken writer.new)
        (front_at front.now number ++ bytes.now)) }
    ensures same { W.bound writer.new ≡ W.bound writer.old }
    ensures count { W.failures writer.new ≡ counted (is_err result) (W.failures writer.old) }
{
    if number > 0 {
        return put_all(writer, bytes);
    }
    match put_all(writer, front) {
        Err(Failed) => Err(Failed),
        Ok(()) => put_all(writer, bytes),
    }
}

/// Writes the piece whose turn it is, if it is there and may be written, or else takes one back from the workers.
/// Returns whether there was one.
pub(crate) fn write_or_take_back<N: Naming, W: Output>(
    pieces: &PieceLine<N>,
    early: &mut Early,
    writer: &mut W,
    front: &[u8],
    spare: &mut Vec<Vec<u8>>,
    size: usize,
    from: &mut Pass<Piece, Hand>,
) -> Result<bool, Failed>
    requires from { IsPassOf pieces.now from.old × (0 < (view from.old).parts) }
    requires few { early.old.written + length early.old.places.items ≤ max_chunks }
    requires each { 0 < N.each }
    requires size { size ≡ room N.each N.header }
    requires kept { AreKept N.each N.key N.header N.told early.old.written early.old.places.items }
    requires spare { All (λ b. length b.items ≡ size) spare.old.items }
    requires may { MayGoOn N.each front.now N.key N.header N.told
        (W.bound writer.old) (W.taken writer.old) early.old.written }
    ensures from { IsPassOf pieces.now from.new × ((view from.new).parts ≡ (view from.old).parts) }
    ensures spare { All (λ b. length b.items ≡ size) spare.new.items }
    ensures room { deque_capacity early.new.places ≡ deque_capacity early.old.places }
    ensures places { length early.new.places.items ≤ length early.old.places.items }
    ensures order { (blocks : ℕ) (jobs : Hand)
        → IsOrdered N.each N.key N.header N.told blocks early.old jobs (view from.old)
        → OnOk result (IsOrdered N.each N.key N.header N.told blocks early.new jobs (view from.new)) }
    ensures written { (taken : Option (List ℕ))
        → AreWritten N.each front.now N.key N.header N.told taken (W.taken writer.old) early.old.written
        → OnOk result (AreWritten N.each front.now N.key N.header N.told taken (W.taken writer.new) early.new.written) }
    ensures begun { (taken : Option (List ℕ))
        → AreWritten N.each front.now N.key N.header N.told taken (W.taken writer.old) early.old.written
        → OnErr result (IsCutOff front.now N.key N.header N.told taken (W.taken writer.new)) }
    ensures same { W.bound writer.new ≡ W.bound writer.old }
    ensures count { W.failures writer.new ≡ counted (is_err result) (W.failures writer.old) }
{
    if let Some(piece) = early.next() {
        if let Err(Failed) = write_part(writer, front, piece.number, piece.buffer.as_slice()) {
            return Err(Failed);
        }
        keep(spare, piece.buffer, size);
        return Ok(true);
    }
    let Some(piece) = take_piece(pieces, from) else {
        return Ok(false);
    };
    early.place(piece);
    Ok(true)
}
