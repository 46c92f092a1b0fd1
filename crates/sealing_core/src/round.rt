//! What was read and not yet put: the full blocks of the round in hand, and the input's last block.
ghost use Rattle.std.specs.Prelude.{◌≡◌, ◌⊎◌, ◌+◌, ◌*◌, ◌^◌, ◌<◌, ◌≤◌, List, ℕ, Option, [], length, true, false};
ghost use Rattle.std.specs.Prelude.{IfOk, OnOk, OnErr, IfErr, is_err};
ghost use Rattle.std.specs.VecDeque.{deque_len, deque_capacity};
ghost use Rattle.container_core.specs.Container.{size_in};
ghost use Rattle.container_core.specs.declared.fault.SealFault.TheVariants as sealing_fault;
ghost use Rattle.io_core.specs.Reads.{ConsumesUpTo};
ghost use Rattle.io_core.specs.Streams.{counted};
ghost use Rattle.sealing_core.specs.Pieces.{block, room};
ghost use Rattle.sealing_core.specs.Round.{IsInHand, IsLast, IsPlan, MayEnd};
ghost use Rattle.sealing_core.specs.Pipe.{read_failed};

use crate::block::seal_block;
use crate::context::SealingContext;
use crate::intake::Intake;
use crate::line::Naming;
use crate::piece::Task;
use crate::spare::kept_or_new;
use claim_core::Gate;
use container_core::SealFault;
use io_core::{Failed, Source};
use std::alloc::{AllocError, Global};
use std::collections::VecDeque;

/// How an input is sealed. At most `limit` bytes of it are read; the last of these is one too many. It is cut into
/// blocks of `each` chunks, and at most `depth` blocks are read and not yet written. Full blocks are put in groups of
/// `group`. If `eager`, what was put may be written at once; otherwise once the next group is put.
#[derive(Clone, Copy)]
pub(crate) struct Plan {
    pub(crate) limit: u64,
    pub(crate) group: usize,
    pub(crate) depth: usize,
    pub(crate) each: u32,
    pub(crate) eager: bool,
}

#[derive(Drop)]
pub(crate) struct Round {
    pub(crate) intake: Intake,
    pub(crate) held: VecDeque<Task>,
    // Its first `filled` bytes are the last block or, once that is sealed, its sealed chunks.
    pub(crate) last: Vec<u8>,
    pub(crate) filled: usize,
    pub(crate) is_sealed: bool,
}

impl Round {
    pub(crate) fn new(alloc: Global, group: usize) -> Result<Round, AllocError>
        ensures hand { IfOk result (λ round. (each : ℕ) (key header : List ℕ) (left : Option (List ℕ)) (limit : ℕ)
            → 0 < limit → IsInHand each key header left left limit 0 round) }
        ensures going { IfOk result (λ round. (round.intake.ended ≡ false) × (round.intake.over ≡ false)
            × (round.held.items ≡ []) × (group ≤ deque_capacity round.held)) }
    {
        match VecDeque::with_capacity(alloc, group) {
            Err(AllocError) => Err(AllocError),
            Ok(held) => Ok(Round {
                intake: Intake::new(),
                held,
                last: Vec::new(alloc),
                filled: 0,
                is_sealed: false,
            }),
        }
    }

    // Whether there is more to read.
    pub(crate) fn is_open(&self) -> bool
        ensures going { result ≡ true → (self.now.intake.ended ≡ false) × (self.now.intake.over ≡ false) }
        ensures closed { result ≡ false → self.now.intake.over ≡ false → self.now.intake.ended ≡ true }
    {
        !self.intake.ended && !self.intake.over
    }

    // Whether what is in hand is to be put.
    pub(crate) fn is_full(&self, group: usize) -> bool
        ensures full { result ≡ true → self.now.intake.ended ≡ false → group ≤ length self.now.held.items }
        ensures few { result ≡ false → (self.now.intake.ended ≡ false) × (length self.now.held.items < group) }
    {
        self.intake.ended || self.held.len() >= group
    }

    /// Reads the next block into a buffer.
    pub(crate) fn read<N: Naming, R: Source>(
        &mut self,
        reader: &mut R,
        size: usize,
        limit: u64,
        buffer: Vec<u8>,
    ) -> Result<(), Failed>
        requires size { (size ≡ block N.each N.header) × (0 < size) × (size ≤ 2 ^ 20) }
        requires each { 0 < N.each }
        requires limit { (limit ≤ 2 ^ 53) × (limit + size ≤ 2 ^ 32 * size_in N.header + 1) }
        requires buffer { length buffer.items ≡ room N.each N.header }
        requires going { (self.old.intake.ended ≡ false) × (self.old.intake.over ≡ false) }
        requires room { deque_len self.old.held < deque_capacity self.old.held }
        requires hand { (put : ℕ) × IsInHand N.each N.key N.header N.told (R.left reader.old) limit put self.old }
        ensures capacity { deque_capacity self.new.held ≡ deque_capacity self.old.held }
        ensures few { OnOk result ((length self.old.held.items ≤ length self.new.held.items)
            × (length self.new.held.items ≤ length self.old.held.items + 1)) }
        ensures over { OnOk result (self.new.intake.over ≡ true → self.new.held.items ≡ self.old.held.items) }
        ensures step { OnOk result (self.new.intake.over ≡ false → self.new.intake.ended ≡ false
            → length self.new.held.items ≡ length self.old.held.items + 1) }
        ensures hand { (put : ℕ) → IsInHand N.each N.key N.header N.told (R.left reader.old) limit put self.old
            → OnOk result (IsInHand N.each N.key N.header N.told (R.left reader.new) limit put self.new) }
        ensures same { OnErr result (self.new ≡ self.old) }
        ensures lost { OnErr result (ConsumesUpTo N.told (R.left reader.new) limit) }
        ensures count { R.failures reader.new ≡ counted (is_err result) (R.failures reader.old) }
    {
        let mut buffer = buffer;
        let number = self.intake.blocks;
        let filled = match self.intake.next(reader, size, limit, buffer.as_mut_slice()) {
            Ok(filled) => filled,
            Err(Failed) => return Err(Failed),
        };
        if self.intake.ended {
            self.last = buffer;
            self.filled = filled;
            return Ok(());
        }
        if self.intake.over {
            return Ok(());
        }
        self.held.push_back_reserved(Task::Job { number, buffer });
        Ok(())
    }

    /// Seals the last block on the caller's thread, once. Returns whether there was something to seal.
    pub(crate) fn seal_last<N: Naming, G: Gate>(
        &mut self,
        context: &SealingContext<'_, N, G>,
    ) -> bool
        requires last { self.old.intake.ended ≡ true → MayEnd N.each N.header self.old }
        ensures same { (self.new.intake ≡ self.old.intake) × (self.new.held ≡ self.old.held) }
        ensures sealed { self.new.intake.ended ≡ true → self.new.is_sealed ≡ true }
        ensures may { self.old.intake.ended ≡ true → MayEnd N.each N.header self.new }
        ensures last { (number : ℕ) → self.old.intake.blocks ≡ number + 1
            → IsLast N.each N.key N.header N.told number self.old
            → IsLast N.each N.key N.header N.told number self.new }
        ensures going { self.old.intake.ended ≡ false → self.new ≡ self.old }
    {
        if !self.intake.ended {
            return false;
        }
        if self.is_sealed {
            return false;
        }
        let number = self.intake.blocks - 1;
        let first = context.plan.each * number;
        self.filled = seal_block(
            context.key,
            context.header,
            context.gate,
            0,
            first,
            true,
            self.last.as_mut_slice(),
            self.filled,
        );
        self.is_sealed = true;
        true
    }

    // Reads the first round, its first block into the buffer that was kept, if that fits.
    pub(crate) fn read_first<N: Naming, R: Source, G: Gate>(
        &mut self,
        alloc: Global,
        kept: &mut Vec<u8>,
        reader: &mut R,
        context: &SealingContext<'_, N, G>,
    ) -> Result<(), SealFault>
        requires plan { IsPlan N.each N.header context.now.plan }
        requires going { (self.old.intake.ended ≡ false) × (self.old.intake.over ≡ false) × (self.old.held.items ≡ []) }
        requires room { context.now.plan.group ≤ deque_capacity self.old.held }
        requires hand { IsInHand N.each N.key N.header N.told (R.left reader.old) context.now.plan.limit 0 self.old }
        ensures capacity { OnOk result (context.now.plan.group ≤ deque_capacity self.new.held) }
        ensures few { OnOk result (length self.new.held.items ≤ context.now.plan.group) }
        ensures over { OnOk result (self.new.intake.over ≡ true → length self.new.held.items < context.now.plan.group) }
        ensures hand { OnOk result
            (IsInHand N.each N.key N.header N.told (R.left reader.new) context.now.plan.limit 0 self.new) }
        ensures fault { IfErr result (λ f. (f ≡ sealing_fault.OutOfMemory) ⊎ (f ≡ sealing_fault.Read)) }
        ensures lost { OnErr result (ConsumesUpTo N.told (R.left reader.new) context.now.plan.limit) }
        ensures count { R.failures reader.new ≡ counted (read_failed result) (R.failures reader.old) }
    {
        let size = context.block_bytes();
        let room = context.room_bytes();
        let plan = context.plan;
        'first: while self.is_open() && self.held.len() < plan.group {
            let Ok(buffer) = kept_or_new(alloc, kept, room) else {
                return Err(SealFault::OutOfMemory);
            };
            match self.read::<N, R>(reader, size, plan.limit, buffer) {
                Ok(()) => {}
                Err(Failed) => return Err(SealFault::Read),
            }
        }
        Ok(())
    }
}
