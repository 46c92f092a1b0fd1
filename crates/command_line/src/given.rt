//! The numbers that were given on the command line, each in the range of its option.
ghost use Rattle.std.specs.Prelude.{◌≡◌, ◌≢◌, ◌<◌, ◌≤◌, IfErr, IfOk, IfSome, IsOk, Some, codes, unwrap_or};
ghost use Rattle.clap.specs.Matches.{found_of, one_text};
ghost use Rattle.command_line.specs.Given.{IsGivenWithin, number_given};

use crate::fault::UsageFault;
use claim_core::{MAX_DEPTH, MAX_LANES, MAX_WINDOW, MAX_WORKERS};
use clap::ArgMatches;
use container_core::{MAX_EXPONENT, MAX_OPENED, MAX_PLAIN, MIN_EXPONENT};
use ledger_core::Device;

/// Plaintext bytes of a file if no limit is given, except to `unpipe`: 1 GiB.
pub const DEFAULT_MAX_BYTES: u64 = 1 << 30;
/// Chunks of a stream if no limit is given.
pub const DEFAULT_MAX_CHUNKS: u32 = 1 << 14;
/// Chunks of a stream that are read and not yet written, if no number is given.
pub const DEFAULT_DEPTH: u32 = 16;
/// Workers on a file or stream, if no number is given.
pub const DEFAULT_WORKERS: u32 = 1;
/// Lanes, if no number is given.
pub const DEFAULT_LANES: u32 = 1;
/// Seconds that a run waits for a ledger file that another run holds, if no number is given.
pub const DEFAULT_WAIT: u32 = 0;
/// The most of these seconds: a day.
pub const MAX_WAIT: u32 = 86400;

/// The numbers of `seal`.
#[derive(Clone, Copy)]
pub(crate) struct SealNumbers {
    pub(crate) device: Device,
    pub(crate) wait: u32,
    pub(crate) workers: u32,
    pub(crate) lanes: u32,
    pub(crate) window: Option<u32>,
    pub(crate) max_bytes: u64,
    pub(crate) exponent: Option<u32>,
}

/// The numbers of `pipe`.
#[derive(Clone, Copy)]
pub(crate) struct PipeNumbers {
    pub(crate) device: Device,
    pub(crate) wait: u32,
    pub(crate) workers: u32,
    pub(crate) depth: u32,
    pub(crate) max_chunks: u32,
    pub(crate) exponent: Option<u32>,
}

/// The numbers of `open`, `verify` and `unpipe`.
#[derive(Clone, Copy)]
pub(crate) struct OpenNumbers {
    pub(crate) workers: u32,
    pub(crate) max_bytes: u64,
}

/// Returns the numbers given to `seal`.
pub(crate) fn seal_numbers(matches: &ArgMatches<'_>) -> Result<SealNumbers, UsageFault>
    ensures device { IfOk result (λ n. number_given matches.now (codes "device") ≡ Some n.device) }
    ensures wait { IfOk result (λ n. n.wait ≡ unwrap_or (number_given matches.now (codes "wait")) DEFAULT_WAIT) }
    ensures short_wait { IfOk result (λ n. n.wait ≤ MAX_WAIT) }
    ensures workers { IfOk result (λ n. n.workers ≡ unwrap_or (number_given matches.now (codes "workers")) DEFAULT_WORKERS) }
    ensures few_workers { IfOk result (λ n. (0 < n.workers) × (n.workers ≤ MAX_WORKERS)) }
    ensures lanes { IfOk result (λ n. n.lanes ≡ unwrap_or (number_given matches.now (codes "lanes")) DEFAULT_LANES) }
    ensures few_lanes { IfOk result (λ n. (0 < n.lanes) × (n.lanes ≤ MAX_LANES)) }
    ensures window { IfOk result (λ n. n.window ≡ number_given matches.now (codes "window")) }
    ensures short_window { IfOk result (λ n. IfSome n.window (λ w. (1 ≤ w) × (w ≤ MAX_WINDOW))) }
    ensures max_bytes { IfOk result (λ n. n.max_bytes
        ≡ unwrap_or (number_given matches.now (codes "max-bytes")) DEFAULT_MAX_BYTES) }
    ensures few_bytes { IfOk result (λ n. n.max_bytes ≤ MAX_PLAIN) }
    ensures exponent { IfOk result (λ n. n.exponent ≡ number_given matches.now (codes "exponent")) }
    ensures lawful_exponent { IfOk result (λ n. IfSome n.exponent (λ e. (MIN_EXPONENT ≤ e) × (e ≤ MAX_EXPONENT))) }
    ensures fault { IfErr result (λ fault. fault ≢ UsageFault.LabelTooLong) }
    ensures no_journal { IfErr result (λ fault. fault ≢ UsageFault.TwoJournals) }
{
    Ok(SealNumbers {
        device: device(matches)?,
        wait: number_or(matches, "wait", 0, MAX_WAIT, DEFAULT_WAIT)?,
        workers: number_or(matches, "workers", 1, MAX_WORKERS, DEFAULT_WORKERS)?,
        lanes: number_or(matches, "lanes", 1, MAX_LANES, DEFAULT_LANES)?,
        window: number_within(matches, "window", 1, MAX_WINDOW)?,
        max_bytes: bytes_or(matches, "max-bytes", MAX_PLAIN, DEFAULT_MAX_BYTES)?,
        exponent: number_within(matches, "exponent", MIN_EXPONENT, MAX_EXPONENT)?,
    })
}

/// Returns the numbers given to `pipe`.
pub(crate) fn pipe_numbers(matches: &ArgMatches<'_>) -> Result<PipeNumbers, UsageFault>
    ensures device { IfOk result (λ n. number_given matches.now (codes "device") ≡ Some n.device) }
    ensures wait { IfOk result (λ n. n.wait ≡ unwrap_or (number_given matches.now (codes "wait")) DEFAULT_WAIT) }
    ensures short_wait { IfOk result (λ n. n.wait ≤ MAX_WAIT) }
    ensures workers { IfOk result (λ n. n.workers ≡ unwrap_or (number_given matches.now (codes "workers")) DEFAULT_WORKERS) }
    ensures few_workers { IfOk result (λ n. (0 < n.workers) × (n.workers ≤ MAX_WORKERS)) }
    ensures depth { IfOk result (λ n. n.depth ≡ unwrap_or (number_given matches.now (codes "depth")) DEFAULT_DEPTH) }
    ensures short_depth { IfOk result (λ n. (0 < n.depth) × (n.depth ≤ MAX_DEPTH)) }
    ensures max_chunks { IfOk result (λ n. n.max_chunks
        ≡ unwrap_or (number_given matches.now (codes "max-chunks")) DEFAULT_MAX_CHUNKS) }
    ensures some_chunks { IfOk result (λ n. 0 < n.max_chunks) }
    ensures exponent { IfOk result (λ n. n.exponent ≡ number_given matches.now (codes "exponent")) }
    ensures lawful_exponent { IfOk result (λ n. IfSome n.exponent (λ e. (MIN_EXPONENT ≤ e) × (e ≤ MAX_EXPONENT))) }
    ensures fault { IfErr result (λ fault. fault ≢ UsageFault.LabelTooLong) }
    ensures no_journal { IfErr result (λ fault. fault ≢ UsageFault.TwoJournals) }
{
    Ok(PipeNumbers {
        device: device(matches)?,
        wait: number_or(matches, "wait", 0, MAX_WAIT, DEFAULT_WAIT)?,
        workers: number_or(matches, "workers", 1, MAX_WORKERS, DEFAULT_WORKERS)?,
        depth: number_or(matches, "depth", 1, MAX_DEPTH, DEFAULT_DEPTH)?,
        max_chunks: number_or(matches, "max-chunks", 1, u32::MAX, DEFAULT_MAX_CHUNKS)?,
        exponent: number_within(matches, "exponent", MIN_EXPONENT, MAX_EXPONENT)?,
    })
}

/// Returns the numbers given to `open`, `verify` or `unpipe`. `usual` is the limit if none is given.
pub(crate) fn open_numbers(matches: &ArgMatches<'_>, usual: u64) -> Result<OpenNumbers, UsageFault>
    requires usual { usual ≤ MAX_OPENED }
    ensures workers { IfOk result (λ n. n.workers ≡ unwrap_or (number_given matches.now (codes "workers")) DEFAULT_WORKERS) }
    ensures few_workers { IfOk result (λ n. (0 < n.workers) × (n.workers ≤ MAX_WORKERS)) }
    ensures max_bytes { IfOk result (λ n. n.max_bytes
        ≡ unwrap_or (number_given matches.now (codes "max-bytes")) usual) }
    ensures few_bytes { IfOk result (λ n. n.max_bytes ≤ MAX_OPENED) }
    ensures within { IsGivenWithin 1 MAX_WORKERS (one_text (found_of matches.now) (codes "workers"))
        → IsGivenWithin 0 MAX_OPENED (one_text (found_of matches.now) (codes "max-bytes")) → IsOk result }
    ensures fault { IfErr result (λ fault. fault ≡ UsageFault.OutOfRange) }
{
    Ok(OpenNumbers {
        workers: number_or(matches, "workers", 1, MAX_WORKERS, DEFAULT_WORKERS)?,
        max_bytes: bytes_or(matches, "max-bytes", MAX_OPENED, usual)?,
    })
}

/// Returns the number of the device, if one was given.
pub fn device_asked(matches: &ArgMatches<'_>) -> Option<u32>
    ensures { IfSome result (λ device. number_given matches.now (codes "device") ≡ Some device) }
{
    match number_within(matches, "device", 0, Device::MAX) {
        Ok(device) => device,
        Err(_) => None,
    }
}

// The device, which the parser requires.
fn device(matches: &ArgMatches<'_>) -> Result<Device, UsageFault>
    ensures given { IfOk result (λ device. number_given matches.now (codes "device") ≡ Some device) }
    ensures fault { IfErr result (λ fault. fault ≢ UsageFault.LabelTooLong) }
    ensures no_journal { IfErr result (λ fault. fault ≢ UsageFault.TwoJournals) }
{
    let Some(number) = number_within(matches, "device", 0, Device::MAX)? else {
        return Err(UsageFault::Missing);
    };
    Device::new(number).ok_or(UsageFault::OutOfRange)
}

// The number given for an option, if any. `OutOfRange` if it isn't in the range.
fn number_within(
    matches: &ArgMatches<'_>,
    option: &str,
    least: u32,
    most: u32,
) -> Result<Option<u32>, UsageFault>
    ensures given { IfOk result (λ number. number ≡ number_given matches.now option.now) }
    ensures range { IfOk result (λ number. IfSome number (λ n. (least ≤ n) × (n ≤ most))) }
    ensures within { IsGivenWithin least most (one_text (found_of matches.now) option.now) → IsOk result }
    ensures fault { IfErr result (λ fault. fault ≡ UsageFault.OutOfRange) }
{
    match matches.try_get_one::<u32>(option) {
        Ok(Some(number)) if number < least || number > most => Err(UsageFault::OutOfRange),
        Ok(number) => Ok(number),
        Err(_) => Err(UsageFault::OutOfRange),
    }
}

// The number given for an option, or its default. `OutOfRange` if it isn't in the range.
fn number_or(
    matches: &ArgMatches<'_>,
    option: &str,
    least: u32,
    most: u32,
    usual: u32,
) -> Result<u32, UsageFault>
    requires usual { (least ≤ usual) × (usual ≤ most) }
    ensures given { IfOk result (λ number. number ≡ unwrap_or (number_given matches.now option.now) usual) }
    ensures range { IfOk result (λ number. (least ≤ number) × (number ≤ most)) }
    ensures within { IsGivenWithin least most (one_text (found_of matches.now) option.now) → IsOk result }
    ensures fault { IfErr result (λ fault. fault ≡ UsageFault.OutOfRange) }
{
    match number_within(matches, option, least, most) {
        Ok(number) => Ok(number.unwrap_or(usual)),
        Err(fault) => Err(fault),
    }
}

// The number of bytes given for an option, or its default. `OutOfRange` if it is greater than `most`.
fn bytes_or(
    matches: &ArgMatches<'_>,
    option: &str,
    most: u64,
    usual: u64,
) -> Result<u64, UsageFault>
    requires usual { usual ≤ most }
    ensures given { IfOk result (λ bytes. bytes ≡ unwrap_or (number_given matches.now option.now) usual) }
    ensures range { IfOk result (λ bytes. bytes ≤ most) }
    ensures within { IsGivenWithin 0 most (one_text (found_of matches.now) option.now) → IsOk result }
    ensures fault { IfErr result (λ fault. fault ≡ UsageFault.OutOfRange) }
{
    match matches.try_get_one::<u64>(option) {
        Ok(Some(bytes)) if bytes > most => Err(UsageFault::OutOfRange),
        Ok(bytes) => Ok(bytes.unwrap_or(usual)),
        Err(_) => Err(UsageFault::OutOfRange),
    }
}
