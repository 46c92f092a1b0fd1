//! Opening with two readings: what is written if both return a container, if the first has a fault, and if the second
//! returns other bytes. An output that may hold only what was checked takes all of it.
ghost use Rattle.std.specs.Prelude.{◌≡◌, ◌≤◌, ◌<◌, Some, true};
ghost use Rattle.io_core.specs.Streams.{counted};

use container_core::{Key, MAX_OPENED, OpenFault, Shape, seal};
use crew_core::{Free, MAX_WORKERS};
use io_core::{Failed, Source};
use io_memory::{FromMemory, Schedule, ToMemory};
use opening_core::{Readings, Stopped, Workers, run_check, run_open_twice, write_again};
use output_tests::CheckedOutput;
use std::alloc::Global;
use std::test::Fail;
use std::thread::Threads;
use std::time::Clock;

const MOST: usize = usize::MAX;

// A reading of bytes in memory. No contract says how many of its calls failed.
#[derive(Drop)]
struct Untold<'a> {
    rest: FromMemory<'a>,
}

impl<'a> Untold<'a> {
    fn new(bytes: &'a [u8], schedule: Schedule) -> Untold<'a>
        ensures { result.rest.left ≡ bytes.now }
    {
        Untold {
            rest: FromMemory::new(bytes, MOST, schedule),
        }
    }
}

impl<'a> Source for Untold<'a> {
    ghost left = { λ u. Some u.rest.left };

    fn read(&mut self, buffer: &mut [u8]) -> Result<usize, Failed> {
        self.rest.read(buffer)
    }
}

// Bytes in memory: each reading returns the same.
#[derive(Drop)]
struct Same<'a> {
    bytes: &'a [u8],
}

impl<'a> Readings for Same<'a> {
    type Reading = Untold<'a>;

    ghost bytes = { λ s. Some s.bytes.now };

    fn begin(&mut self) -> Result<Self::Reading, Failed> {
        Ok(Untold::new(self.bytes, Schedule::Never))
    }

    fn end(&mut self, _reading: Untold<'a>) {}
}

// Bytes that differ at the second reading. No contract describes them.
#[derive(Drop)]
struct Changed<'a> {
    first: &'a [u8],
    second: &'a [u8],
    // How the second reading fails.
    schedule: Schedule,
    began: bool,
}

impl<'a> Readings for Changed<'a> {
    type Reading = Untold<'a>;

    fn begin(&mut self) -> Result<Self::Reading, Failed> {
        if self.began {
            return Ok(Untold::new(self.second, self.schedule));
        }
        self.began = true;
        Ok(Untold::new(self.first, Schedule::Never))
    }

    fn end(&mut self, _reading: Untold<'a>) {}
}

// Bytes in memory. It is known how many calls failed, in both readings and at their beginnings.
#[derive(Drop)]
struct Tallied<'a> {
    bytes: &'a [u8],
    // How the calls of this reading fail, and of the next. A reading without a schedule can't be begun.
    schedules: [Option<Schedule>; 2],
    failures: Option<u64>,
}

// A reading of such bytes.
#[derive(Drop)]
struct Tally<'a> {
    rest: FromMemory<'a>,
    failures: Option<u64>,
}

fn one_more(count: Option<u64>) -> Option<u64>
    ensures { result ≡ counted true count }
{
    match count {
        None => None,
        Some(n) => { if n < u64::MAX { Some(n + 1) } else { None } }
    }
}

impl<'a> Source for Tally<'a> {
    ghost left = { λ t. Some t.rest.left };

    ghost failures = { λ t. t.failures };

    fn read(&mut self, buffer: &mut [u8]) -> Result<usize, Failed> {
        match self.rest.read(buffer) {
            Ok(n) => Ok(n),
            Err(Failed) => {
                self.failures = one_more(self.failures);
                Err(Failed)
            }
        }
    }
}

impl<'a> Readings for Tallied<'a> {
    type Reading = Tally<'a>;

    ghost bytes = { λ s. Some s.bytes.now };

    ghost failures = { λ s. s.failures };

    fn begin(&mut self) -> Result<Self::Reading, Failed> {
        let [first, next] = self.schedules;
        let Some(schedule) = first else {
            self.failures = one_more(self.failures);
            return Err(Failed);
        };
        self.schedules = [next, None];
        // The reading has the count until it ends.
        let failures = self.failures;
        self.failures = None;
        Ok(Tally {
            rest: FromMemory::new(self.bytes, MOST, schedule),
            failures,
        })
    }

    fn end(&mut self, reading: Tally<'a>) {
        self.failures = reading.failures;
    }
}

fn key() -> Key {
    Key::new([7; 32])
}

// 48 chunks of 4 KiB and a byte: one worker takes three windows of 16 chunks, and a last one.
const SHORT: u32 = 196_609;
// 257 chunks and a byte: several workers take a window of 256 chunks, and a last one.
const LONG: u32 = 1_052_673;

fn text(alloc: Global, length: u32) -> Option<Vec<u8>> {
    let mut bytes = Vec::new(alloc);
    for n in 0..length {
        bytes.push((n % 251) as u8).ok()?;
    }
    Some(bytes)
}

fn sealed(alloc: Global, file: u8, plain: &[u8]) -> Option<Vec<u8>> {
    let shape = Shape::two(12, b"a").ok()?;
    seal(alloc, &key(), &shape, [0, 0, 1, 0, 0, 0, file], plain).ok()
}

// The result, and how many bytes were written. They must be a prefix of the text.
fn opened<R: Threads + Clock + Sync, S: Readings>(
    rt: &R,
    alloc: Global,
    source: &mut S,
    plain: &[u8],
    schedule: Schedule,
    workers: u32,
) -> Option<(Result<u64, Stopped>, usize)>
    requires { (0 < workers) × (workers ≤ MAX_WORKERS) }
{
    let writer = ToMemory::new(alloc, 0, MOST, schedule).ok()?;
    let key = key();
    let (done, writer) = run_open_twice(
        rt, alloc, &key, source, writer, MAX_OPENED, workers, &Free,
    );
    let bytes = writer.bytes();
    let begins = bytes.len() <= plain.len() && bytes == &plain[..bytes.len()];
    if begins {
        Some((done, bytes.len()))
    } else {
        None
    }
}

// If both readings return the container, everything is written, with any number of workers.
fn opens<R: Threads + Clock + Sync>(
    rt: &R,
    alloc: Global,
    length: u32,
    workers: u32,
) -> Option<bool>
    requires { (0 < workers) × (workers ≤ MAX_WORKERS) }
{
    let plain = text(alloc, length)?;
    let container = sealed(alloc, 0, plain.as_slice())?;
    let mut source = Same {
        bytes: container.as_slice(),
    };
    let (done, n) = opened(
        rt,
        alloc,
        &mut source,
        plain.as_slice(),
        Schedule::Never,
        workers,
    )?;
    Some(done == Ok(u64::from(length)) && n == length as usize)
}

#[test]
fn all_is_written(rt: HostRuntime) -> Result<(), Fail> {
    assert!(rt; opens(&rt, rt.alloc(), SHORT, 1) == Some(true));
    assert!(rt; opens(&rt, rt.alloc(), LONG, 4) == Some(true));
    Ok(())
}

// The byte at this place is changed before the first reading, or after it.
fn altered<R: Threads + Clock + Sync>(
    rt: &R,
    alloc: Global,
    place: usize,
    before: bool,
) -> Option<(Result<u64, Stopped>, usize)> {
    let plain = text(alloc, SHORT)?;
    let container = sealed(alloc, 0, plain.as_slice())?;
    let mut other = sealed(alloc, 0, plain.as_slice())?;
    if place < other.len() {
        other[place] ^= 1;
    }
    let first = if before { &other } else { &container };
    let mut source = Changed {
        first: first.as_slice(),
        second: other.as_slice(),
        schedule: Schedule::Never,
        began: false,
    };
    opened(rt, alloc, &mut source, plain.as_slice(), Schedule::Never, 1)
}

// Where chunk `n` of 4 KiB begins, after a header of 26 bytes.
fn place_of(n: usize) -> usize
    requires { n ≤ 1000 }
{
    26 + n * 4112
}

#[test]
fn a_fault_that_was_there_before_is_refused(rt: HostRuntime) -> Result<(), Fail> {
    for (chunk, refused) in [(0usize, 0u32), (20, 20), (48, 48)] {
        let forged = OpenFault::Forged { chunk: refused };
        let answer = altered(&rt, rt.alloc(), place_of(chunk), true);
        assert!(rt; answer == Some((Err(Stopped::Refused(forged)), 0)));
    }
    Ok(())
}

#[test]
fn a_change_between_the_readings_stops_before_its_window(rt: HostRuntime) -> Result<(), Fail> {
    for (chunk, written) in [
        (0usize, 0usize),
        (15, 0),
        (16, 65_536),
        (47, 131_072),
        (48, 196_608),
    ] {
        let answer = altered(&rt, rt.alloc(), place_of(chunk), false);
        assert!(rt; answer == Some((Err(Stopped::Changed), written)));
    }
    // The prefix in the header.
    assert!(rt; altered(&rt, rt.alloc(), 16, false) == Some((Err(Stopped::Changed), 0)));
    Ok(())
}

// The second reading returns another container under the key, or the first one cut, or a read fails.
fn swapped<R: Threads + Clock + Sync>(
    rt: &R,
    alloc: Global,
    file: u8,
    kept: usize,
    schedule: Schedule,
) -> Option<(Result<u64, Stopped>, usize)> {
    let plain = text(alloc, SHORT)?;
    let container = sealed(alloc, 0, plain.as_slice())?;
    let other = sealed(alloc, file, plain.as_slice())?;
    let kept = kept.min(other.len());
    let mut source = Changed {
        first: container.as_slice(),
        second: &other[..kept],
        schedule,
        began: false,
    };
    opened(rt, alloc, &mut source, plain.as_slice(), Schedule::Never, 1)
}

#[test]
fn another_container_is_not_written(rt: HostRuntime) -> Result<(), Fail> {
    assert!(rt;
        swapped(&rt, rt.alloc(), 1, MOST, Schedule::Never) == Some((Err(Stopped::Changed), 0))
    );
    // Cut after chunk 19: the window before the cut was checked in both readings.
    let cut = swapped(&rt, rt.alloc(), 0, place_of(20), Schedule::Never);
    assert!(rt; cut == Some((Err(Stopped::Changed), 65_536)));
    // A read that fails in the third window, while the second is opened.
    let failed = swapped(
        &rt,
        rt.alloc(),
        0,
        MOST,
        Schedule::Bytes(place_of(40) as u64),
    );
    assert!(rt; failed == Some((Err(Stopped::Broken(OpenFault::Read)), 65_536)));
    Ok(())
}

// The writer fails after `bytes` bytes.
fn broken<R: Threads + Clock + Sync>(
    rt: &R,
    alloc: Global,
    bytes: u64,
) -> Option<(Result<u64, Stopped>, usize)> {
    let plain = text(alloc, SHORT)?;
    let container = sealed(alloc, 0, plain.as_slice())?;
    let mut source = Same {
        bytes: container.as_slice(),
    };
    opened(
        rt,
        alloc,
        &mut source,
        plain.as_slice(),
        Schedule::Bytes(bytes),
        1,
    )
}

#[test]
fn a_failed_write_leaves_a_beginning(rt: HostRuntime) -> Result<(), Fail> {
    for bytes in [0u64, 1, 4096, 100_000, 196_608] {
        let answer = broken(&rt, rt.alloc(), bytes);
        assert!(rt; answer == Some((Err(Stopped::Broken(OpenFault::Write)), bytes as usize)));
    }
    Ok(())
}

// The fault, if any, and how many calls failed, where calls of the two readings fail so.
fn failures_of<R: Threads + Clock + Sync>(
    rt: &R,
    alloc: Global,
    first: Option<Schedule>,
    second: Option<Schedule>,
) -> Option<(Option<Stopped>, Option<u64>)> {
    let plain = text(alloc, SHORT)?;
    let container = sealed(alloc, 0, plain.as_slice())?;
    let mut source = Tallied {
        bytes: container.as_slice(),
        schedules: [first, second],
        failures: Some(0),
    };
    let (done, _) = opened(rt, alloc, &mut source, plain.as_slice(), Schedule::Never, 1)?;
    Some((done.err(), source.failures))
}

#[test]
fn failed_reads_are_counted_over_both_readings(rt: HostRuntime) -> Result<(), Fail> {
    let never = Some(Schedule::Never);
    let late = Some(Schedule::Bytes(place_of(40) as u64));
    let refused = Some(Stopped::Refused(OpenFault::Read));
    let broken = Some(Stopped::Broken(OpenFault::Read));
    assert!(rt; failures_of(&rt, rt.alloc(), never, never) == Some((None, Some(0))));
    assert!(rt; failures_of(&rt, rt.alloc(), None, never) == Some((refused, Some(1))));
    assert!(rt; failures_of(&rt, rt.alloc(), late, never) == Some((refused, Some(1))));
    assert!(rt; failures_of(&rt, rt.alloc(), never, None) == Some((refused, Some(1))));
    assert!(rt; failures_of(&rt, rt.alloc(), never, late) == Some((broken, Some(1))));
    Ok(())
}

// What a second reading writes to an output that may hold only what is checked of it under the header of the first. The
// result, and how many bytes were written. They must be a prefix of the text.
fn checked<T: Threads + Clock + Sync>(
    rt: &T,
    alloc: Global,
    first: &[u8],
    second: &[u8],
    plain: &[u8],
    workers: u32,
) -> Option<(Result<u64, Stopped>, usize)>
    requires { (0 < workers) × (workers ≤ MAX_WORKERS) }
{
    let key = key();
    let mut reader = FromMemory::new(first, MOST, Schedule::Never);
    let (header, _) = run_check(rt, alloc, &key, &mut reader, MAX_OPENED, workers, &Free).ok()?;
    let output = CheckedOutput::new(alloc, &key, &header, second);
    let mut again = FromMemory::new(second, MOST, Schedule::Never);
    let workers = Workers::ToStart(workers);
    let (done, output) = write_again(
        rt, alloc, &key, &header, &mut again, output, MAX_OPENED, workers, &Free,
    );
    let n = output.bytes.len();
    let begins = n <= plain.len() && output.bytes.as_slice() == &plain[..n];
    if begins { Some((done, n)) } else { None }
}

// The same, where a byte is changed before the second reading; none is if the container ends before it.
fn checked_after<T: Threads + Clock + Sync>(
    rt: &T,
    alloc: Global,
    place: usize,
    workers: u32,
) -> Option<(Result<u64, Stopped>, usize)>
    requires { (0 < workers) × (workers ≤ MAX_WORKERS) }
{
    let plain = text(alloc, SHORT)?;
    let container = sealed(alloc, 0, plain.as_slice())?;
    let mut other = sealed(alloc, 0, plain.as_slice())?;
    if place < other.len() {
        other[place] ^= 1;
    }
    let (first, second) = (container.as_slice(), other.as_slice());
    checked(rt, alloc, first, second, plain.as_slice(), workers)
}

#[test]
fn an_output_takes_what_was_checked_and_no_more(rt: HostRuntime) -> Result<(), Fail> {
    for workers in [1u32, 3] {
        let whole = checked_after(&rt, rt.alloc(), MOST, workers);
        assert!(rt; whole == Some((Ok(u64::from(SHORT)), SHORT as usize)));
    }
    for (chunk, written) in [(15, 0), (16, 65_536), (48, 196_608)] {
        let cut = checked_after(&rt, rt.alloc(), place_of(chunk), 1);
        assert!(rt; cut == Some((Err(Stopped::Changed), written)));
    }
    Ok(())
}
