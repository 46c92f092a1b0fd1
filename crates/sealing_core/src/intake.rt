//! Reads the input block by block, each with one byte after it, which shows whether the block is the last. At most
//! `limit` bytes are read; if that many were, the input is too long.
ghost use Rattle.std.specs.Prelude.{◌≡◌, ◌+◌, ◌-◌, ◌*◌, ◌^◌, ◌<◌, ◌≤◌, ◌++◌, List, ℕ, Option, None, true, false};
ghost use Rattle.std.specs.Prelude.{length, take};
ghost use Rattle.std.specs.Prelude.{IfOk, OnOk, OnErr, Some, is_err, slice_index};
ghost use Rattle.io_core.specs.Reads.{ConsumesUpTo};
ghost use Rattle.io_core.specs.Streams.{Consumes, IsAtEnd, counted};
ghost use Rattle.sealing_core.specs.Intake.{HasRead, seen};
ghost use Rattle.sealing_core.specs.Pieces.{IsChunk};
ghost use Rattle.container_core.specs.Chunks.{max_chunks};

use io_core::{Failed, Source, fill};

/// What was read of the input: whole blocks, and the byte seen after them; or all of it; or one byte more than it may
/// have.
#[derive(Drop)]
pub(crate) struct Intake {
    pub(crate) blocks: u32,
    pub(crate) total: u64,
    pub(crate) ahead: Option<u8>,
    pub(crate) ended: bool,
    pub(crate) over: bool,
}

// Fills a buffer after the byte that was seen, or until the input ends. Returns how many bytes it has, with that one.
fn fill_behind<R: Source>(
    reader: &mut R,
    ahead: Option<u8>,
    buffer: &mut [u8],
) -> Result<usize, Failed>
    requires { 0 < length buffer.old }
    ensures within { IfOk result (λ n. (length (seen ahead) ≤ n) × (n ≤ length buffer.new)) }
    ensures length { length buffer.new ≡ length buffer.old }
    ensures read { IfOk result (λ n. (read : List ℕ) × Consumes (R.left reader.old) (R.left reader.new) read
        × (take n buffer.new ≡ seen ahead ++ read)) }
    ensures end { IfOk result (λ n. n < length buffer.new → IsAtEnd (R.left reader.new)) }
    ensures lost { OnErr result (ConsumesUpTo (R.left reader.old) (R.left reader.new)
        (length buffer.new - length (seen ahead))) }
    ensures count { R.failures reader.new ≡ counted (is_err result) (R.failures reader.old) }
{
    match ahead {
        None => fill(reader, buffer),
        Some(byte) => {
            let (first, rest) = buffer.split_at_mut(1);
            first[0] = byte;
            let n = fill(reader, rest)?;
            Ok(n + 1)
        }
    }
}

impl Intake {
    pub(crate) fn new() -> Intake
        ensures read { (left : Option (List ℕ)) (size limit : ℕ) → 0 < limit → HasRead size limit left left result }
        ensures fresh { (result.ended ≡ false) × (result.over ≡ false) × (result.blocks ≡ 0) }
    {
        Intake {
            blocks: 0,
            total: 0,
            ahead: None,
            ended: false,
            over: false,
        }
    }

    // Takes in the first `n` bytes of the buffer; if these are `room`, the input is too long. Returns the bytes of the
    // block, or 0 then.
    fn take_in(&mut self, size: usize, room: u64, text: &[u8], n: usize) -> usize
        requires size { (0 < size) × (size ≤ 2 ^ 20) × (n ≤ length text.now) × (n ≤ size + 1) }
        requires room { n ≤ room }
        requires going { (self.old.ended ≡ false) × (self.old.over ≡ false) }
        requires few { (self.old.blocks < max_chunks) × (self.old.total ≤ 2 ^ 53) }
        ensures within { result ≤ size }
        ensures over { (self.new.over ≡ true → n ≡ room) × (self.new.over ≡ false → n < room) }
        ensures kept { self.new.over ≡ true → (self.new.ended ≡ false) × (self.new.blocks ≡ self.old.blocks)
            × (self.new.total ≡ self.old.total) }
        ensures full { self.new.over ≡ false → size < n → (result ≡ size) × (self.new.ended ≡ false)
            × (self.new.blocks ≡ self.old.blocks + 1) × (self.new.total ≡ self.old.total + size)
            × (self.new.ahead ≡ Some (slice_index text.now size)) }
        ensures last { self.new.over ≡ false → n ≤ size → (result ≡ n) × (self.new.ended ≡ true)
            × (self.new.blocks ≡ self.old.blocks + 1) × (self.new.total ≡ self.old.total + n) }
    {
        if n as u64 == room {
            self.over = true;
            return 0;
        }
        self.blocks += 1;
        if n > size {
            self.ahead = Some(text[size]);
            self.total += size as u64;
            size
        } else {
            self.ended = true;
            self.total += n as u64;
            n
        }
    }

    /// Reads the next block into the front of a buffer that is longer, and a byte after it unless the input ends with
    /// the block. Reads at most `limit` bytes of the input in all. Returns the bytes of the block.
    pub(crate) fn next<R: Source>(
        &mut self,
        reader: &mut R,
        size: usize,
        limit: u64,
        buffer: &mut [u8],
    ) -> Result<usize, Failed>
        requires size { (0 < size) × (size ≤ 2 ^ 20) × (size < length buffer.old) }
        requires going { (self.old.ended ≡ false) × (self.old.over ≡ false) }
        requires few { (self.old.blocks < max_chunks) × (limit ≤ 2 ^ 53) }
        requires sum { (self.old.total < limit) × (self.old.total ≡ self.old.blocks * size) }
        ensures within { IfOk result (λ n. n ≤ size) }
        ensures length { length buffer.new ≡ length buffer.old }
        ensures blocks { OnOk result ((self.new.over ≡ false → self.new.blocks ≡ self.old.blocks + 1)
            × (self.new.over ≡ true → self.new.blocks ≡ self.old.blocks)) }
        ensures read { OnOk result ((left : Option (List ℕ)) → HasRead size limit left (R.left reader.old) self.old
            → HasRead size limit left (R.left reader.new) self.new) }
        ensures chunk { IfOk result (λ n. (left : Option (List ℕ))
            → HasRead size limit left (R.left reader.old) self.old
            → self.new.over ≡ false → IsChunk size left self.old.blocks self.new.ended (take n buffer.new)) }
        ensures same { OnErr result (self.new ≡ self.old) }
        ensures lost { OnErr result ((left : Option (List ℕ)) → HasRead size limit left (R.left reader.old) self.old
            → ConsumesUpTo left (R.left reader.new) limit) }
        ensures count { R.failures reader.new ≡ counted (is_err result) (R.failures reader.old) }
    {
        let room = limit - self.total;
        let upto = room.min(size as u64 + 1) as usize;
        let (text, _) = buffer.split_at_mut(upto);
        match fill_behind(reader, self.ahead, text) {
            Err(Failed) => Err(Failed),
            Ok(n) => Ok(self.take_in(size, room, text, n)),
        }
    }
}
