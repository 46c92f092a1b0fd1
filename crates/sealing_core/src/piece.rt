//! A job and a piece. Both own the buffer of their block, which has room for the tags of its chunks. The input's last
//! block is not one of them: the caller's thread seals it.
ghost use Rattle.std.specs.Prelude.{◌≡◌, ◌+◌, ◌*◌, ◌≤◌, false, length, take};
ghost use Rattle.sealing_core.specs.Pieces.{block, room, IsChunk, IsPiece};
ghost use Rattle.container_core.specs.Chunks.{max_chunks};

use crate::block::seal_block;
use crate::context::SealingContext;
use crate::line::Naming;
use claim_core::Gate;

/// What goes to a worker.
#[derive(Drop)]
pub(crate) enum Task {
    /// A full block at the front of its buffer. The input goes on after it.
    Job { number: u32, buffer: Vec<u8> },
    /// There are no more jobs.
    Stop,
}

/// What comes back: a full block's sealed bytes, which fill its buffer.
#[derive(Drop)]
pub(crate) struct Piece {
    pub(crate) number: u32,
    pub(crate) buffer: Vec<u8>,
}

/// Seals a full block in its buffer, as worker `me`.
pub(crate) fn make_piece<N: Naming, G: Gate>(
    context: &SealingContext<'_, N, G>,
    me: u32,
    number: u32,
    buffer: Vec<u8>,
) -> Piece
    requires buffer { length buffer.items ≡ room N.each N.header }
    requires text { IsChunk (block N.each N.header) N.told number false (take (block N.each N.header) buffer.items) }
    requires numbers { N.each * (number + 1) ≤ max_chunks }
    ensures number { result.number ≡ number }
    ensures piece { IsPiece N.each N.key N.header N.told result }
{
    let mut buffer = buffer;
    let size = context.block_bytes();
    let first = context.plan.each * number;
    seal_block(
        context.key,
        context.header,
        context.gate,
        me,
        first,
        false,
        buffer.as_mut_slice(),
        size,
    );
    Piece { number, buffer }
}
