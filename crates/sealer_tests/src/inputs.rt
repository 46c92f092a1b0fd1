//! Inputs, spools and streams in memory, and runs of `unpipe_all` over them and over folders.
ghost use Rattle.folder_core.specs.Changes.{IsIdle};

use crate::failing::{Act, Calls};
use crate::runs::counting_key;
use container_core::Shape;
use folder_core::{FileReader, Spool, Spooled};
use io_memory::{Schedule, ToMemory};
use ledger_core::{Failed, Sink, Source};
use sealer_core::{
    Folder, FolderFault, OneOutput, Outputs, Stream, ToStream, UnpipeOptions, unpipe_all,
};
use std::alloc::Global;
use std::marker::Brand;
use std::thread::Threads;
use std::time::Clock;

/// An input. Its first reading gives some bytes, and each later one the same, or none where a spool is to be read
/// instead. Going back is a call of a spool.
#[derive(Drop)]
pub(crate) struct Input<'a> {
    rest: &'a [u8],
    later: &'a [u8],
    // The most bytes of a call.
    step: usize,
    // What a call performs that reads.
    act: Act,
    calls: &'a Calls,
}

/// Returns an input with these readings, of which a call gives at most `step` bytes.
pub(crate) fn input_of<'a>(
    first: &'a [u8],
    later: &'a [u8],
    step: usize,
    calls: &'a Calls,
) -> Input<'a> {
    Input {
        rest: first,
        later,
        step,
        act: Act::Read,
        calls,
    }
}

impl Source for Input<'_> {
    fn read(&mut self, buffer: &mut [u8]) -> Result<usize, Failed> {
        self.read_on(buffer)
    }
}

impl FileReader for Input<'_> {
    fn read_on(&mut self, buffer: &mut [u8]) -> Result<usize, Failed> {
        if self.calls.fails(self.act) {
            return Err(Failed);
        }
        let rest = self.rest;
        let n = rest.len().min(buffer.len()).min(self.step.max(1));
        buffer[..n].copy_from_slice(&rest[..n]);
        self.rest = &rest[n..];
        Ok(n)
    }

    fn again(&mut self) -> Result<(), Failed> {
        if self.calls.fails(Act::Spool) {
            return Err(Failed);
        }
        self.rest = self.later;
        self.act = Act::ReadAgain;
        Ok(())
    }
}

/// A spool in memory.
#[derive(Drop)]
pub(crate) struct MemorySpool<'a> {
    bytes: Vec<u8>,
    at: usize,
    calls: &'a Calls,
}

impl Source for MemorySpool<'_> {
    fn read(&mut self, buffer: &mut [u8]) -> Result<usize, Failed> {
        self.read_on(buffer)
    }
}

impl FileReader for MemorySpool<'_> {
    fn read_on(&mut self, buffer: &mut [u8]) -> Result<usize, Failed> {
        if self.calls.fails(Act::ReadAgain) {
            return Err(Failed);
        }
        let rest = self.bytes.as_slice().get(self.at..).unwrap_or(&[]);
        let n = rest.len().min(buffer.len());
        buffer[..n].copy_from_slice(&rest[..n]);
        self.at = self.at.saturating_add(n);
        Ok(n)
    }

    fn again(&mut self) -> Result<(), Failed> {
        if self.calls.fails(Act::Spool) {
            return Err(Failed);
        }
        self.at = 0;
        Ok(())
    }
}

impl Spool for MemorySpool<'_> {
    fn put(&mut self, bytes: &[u8]) -> Result<(), Failed> {
        if self.calls.fails(Act::Spool) {
            return Err(Failed);
        }
        match self.bytes.extend_from_slice(bytes) {
            Ok(()) => Ok(()),
            Err(_) => Err(Failed),
        }
    }
}

/// An input that can be read only once, over a spool.
pub(crate) type Pipe<'a> = Spooled<Input<'a>, MemorySpool<'a>, Brand>;

/// Returns an input that gives these bytes once.
pub(crate) fn pipe_of<'a>(
    alloc: Global,
    bytes: &'a [u8],
    step: usize,
    calls: &'a Calls,
) -> Pipe<'a> {
    let spool = MemorySpool {
        bytes: Vec::new(alloc),
        at: 0,
        calls,
    };
    Spooled::of(input_of(bytes, &[], step, calls), spool)
}

// The name of the input in its folder.
const NAME: &str = "a.stm";

/// A folder of one input, which can be opened once. No output can be created in it, and nothing is written to it.
#[derive(Drop)]
struct OneFile<I: FileReader + Drop> {
    input: Option<I>,
}

impl<I: FileReader + Drop> Outputs for OneFile<I> {
    type Handle = OneOutput;

    fn allow_container(&mut self, _output: OneOutput, _number: u32, _shape: &Shape) {}

    fn write(&mut self, _bytes: &[u8]) -> Result<usize, Failed> {
        Err(Failed)
    }

    fn finish(&mut self) -> Result<(), Failed> {
        Err(Failed)
    }

    fn discard(&mut self) -> Result<(), Failed> {
        Ok(())
    }

    ghost sound = { λ _. ∣ (tt, tt) ∣₁ };
}

impl<I: FileReader + Drop> Folder for OneFile<I> {
    type Reader = I;

    fn open(&mut self, name: &str) -> Result<I, Failed> {
        if name != NAME {
            return Err(Failed);
        }
        match self.input.take() {
            Some(input) => Ok(input),
            None => Err(Failed),
        }
    }

    fn length(&self, _reader: &I) -> Option<u64> {
        None
    }

    fn can_repeat(&self, _reader: &I) -> bool {
        true
    }

    fn again(&mut self, name: &str, reader: &mut I) -> Result<(), Failed> {
        if name != NAME {
            return Err(Failed);
        }
        reader.again()
    }

    fn close(&mut self, _name: &str, _reader: I) {}

    fn create(&mut self, _name: &str) -> Result<OneOutput, FolderFault> {
        Err(FolderFault::Failed)
    }

    fn abandon(&mut self, _output: OneOutput) -> Result<(), Failed> {
        Err(Failed)
    }
}

/// A writer in memory whose calls are counted.
#[derive(Drop)]
struct Counted<'a> {
    taken: ToMemory,
    calls: &'a Calls,
}

impl Sink for Counted<'_> {
    fn write(&mut self, bytes: &[u8]) -> Result<usize, Failed> {
        if self.calls.fails(Act::Write) {
            return Err(Failed);
        }
        Sink::write(&mut self.taken, bytes)
    }
}

/// How a run is made: the workers and the label asked for, and how the writers of the stream and of the line fail.
#[derive(Clone, Copy)]
pub(crate) struct How<'a> {
    pub(crate) workers: u32,
    pub(crate) label: Option<&'a [u8]>,
    pub(crate) writes: Schedule,
    pub(crate) lines: Schedule,
}

/// One worker, and any label. Nothing fails.
pub(crate) static STEADY: How = How {
    workers: 1,
    label: None,
    writes: Schedule::Never,
    lines: Schedule::Never,
};

/// The same with this many workers.
pub(crate) fn by(workers: u32) -> How<'static> {
    let mut how = STEADY;
    how.workers = workers;
    how
}

/// What a run printed and wrote.
#[derive(Drop)]
pub(crate) struct Ended {
    status: u8,
    lines: ToMemory,
    written: ToMemory,
}

/// Opens the file `a.stm` of a folder to a stream. `None` if memory is refused, or the number of workers is wrong.
pub(crate) fn run_in<R: AllocGlobal + Threads + Clock + Sync, F: Folder + Drop>(
    rt: &R,
    folder: F,
    how: &How,
    calls: &Calls,
) -> Option<(F, Ended)>
    requires idle { IsIdle (F.rest folder) }
{
    if how.workers == 0 || how.workers > 16 {
        return None;
    }
    let options = UnpipeOptions {
        workers: how.workers,
        max_bytes: 1 << 30,
        label: how.label,
    };
    let taken = ToMemory::new(rt.alloc(), 0, usize::MAX, how.writes).ok()?;
    let mut lines = ToMemory::new(rt.alloc(), 64, 64, how.lines).ok()?;
    let writer = Counted { taken, calls };
    let mut both = ToStream::of(folder, Stream { writer });
    let key = counting_key();
    let status = unpipe_all(
        rt,
        rt.alloc(),
        &key,
        &mut both,
        NAME,
        OneOutput,
        &options,
        &mut lines,
    );
    let ToStream { folder, stream } = both;
    let Stream {
        writer: Counted { taken, calls: _ },
    } = stream;
    Some((
        folder,
        Ended {
            status,
            lines,
            written: taken,
        },
    ))
}

/// Opens an input that is the file `a.stm` of its folder; `None` as above.
pub(crate) fn run_over<R: AllocGlobal + Threads + Clock + Sync, I: FileReader + Drop>(
    rt: &R,
    input: Option<I>,
    how: &How,
    calls: &Calls,
) -> Option<Ended> {
    let (_folder, ended) = run_in(rt, OneFile { input }, how, calls)?;
    Some(ended)
}

/// How a run is to end: its status, its line, and how many bytes of the plaintext were written, at least and at most.
#[derive(Clone, Copy)]
pub(crate) struct End<'a> {
    pub(crate) status: u8,
    pub(crate) line: &'a [u8],
    pub(crate) least: usize,
    pub(crate) most: usize,
}

/// Nothing was written, and this is the line.
pub(crate) fn refused(line: &[u8]) -> End<'_> {
    End {
        status: 1,
        line,
        least: 0,
        most: 0,
    }
}

/// Whether these are the first bytes of a plaintext, as many as are to be written.
pub(crate) fn begins(written: &[u8], plain: &[u8], end: &End) -> bool {
    end.least <= written.len() && written.len() <= end.most && plain.starts_with(written)
}

/// Whether a run of this plaintext ended so.
pub(crate) fn is_end(ended: &Ended, plain: &[u8], end: &End) -> bool {
    ended.status == end.status
        && ended.lines.bytes() == end.line
        && begins(ended.written.bytes(), plain, end)
}

/// Whether an input that gives these bytes once, `step` a call, is opened so.
pub(crate) fn ends_once<R: AllocGlobal + Threads + Clock + Sync>(
    rt: &R,
    bytes: &[u8],
    plain: &[u8],
    step: usize,
    how: &How,
    calls: &Calls,
    end: &End,
) -> bool {
    let pipe = pipe_of(rt.alloc(), bytes, step, calls);
    match run_over(rt, Some(pipe), how, calls) {
        Some(ended) => is_end(&ended, plain, end),
        None => false,
    }
}

/// Whether an input with these two readings is opened so.
pub(crate) fn ends_twice<R: AllocGlobal + Threads + Clock + Sync>(
    rt: &R,
    (first, later): (&[u8], &[u8]),
    plain: &[u8],
    step: usize,
    how: &How,
    calls: &Calls,
    end: &End,
) -> bool {
    let input = input_of(first, later, step, calls);
    match run_over(rt, Some(input), how, calls) {
        Some(ended) => is_end(&ended, plain, end),
        None => false,
    }
}
