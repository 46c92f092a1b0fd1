//! The requests of `seal` and `pipe`, from words that the parser accepted.
ghost use Rattle.std.specs.Prelude.{◌<◌, ◌≤◌, ◌≡◌, ◌≢◌, ◌⊎◌, Err, IfErr, IfOk, IfSome, None, OnErr, Some, codes};
ghost use Rattle.std.specs.Prelude.{length, not, option_map, unwrap_or};
ghost use Rattle.clap.specs.Matches.{first_value, found_of};
ghost use Rattle.container_core.specs.Shape.{IsShape, IsShort, size_of};
ghost use Rattle.claim_core.specs.Window.{usual};
ghost use Rattle.command_line.specs.Asked.{IsRunAsked, shape_asked};
ghost use Rattle.command_line.specs.Given.{IsFlag, number_given};

use crate::fault::UsageFault;
use crate::given::{
    DEFAULT_DEPTH, DEFAULT_LANES, DEFAULT_MAX_BYTES, DEFAULT_MAX_CHUNKS, DEFAULT_WAIT,
    DEFAULT_WORKERS, MAX_WAIT, pipe_numbers, seal_numbers,
};
use claim_core::{MAX_DEPTH, MAX_LANES, MAX_WINDOW, MAX_WORKERS, usual_window};
use clap::ArgMatches;
use container_core::{MAX_EXPONENT, MAX_LABEL, MAX_PLAIN, MIN_EXPONENT, Shape};
use ledger_core::Device;

/// The exponent of the chunk size if only a label is given: chunks of 65,536 bytes.
pub const DEFAULT_EXPONENT: u32 = 16;

/// What `seal` and `pipe` are both asked for: the key, the ledger and its witness, the device, the journal.
#[derive(Clone, Copy)]
pub struct RunRequest<'a> {
    /// The path of the key file.
    pub key: &'a str,
    /// The path of the ledger file.
    pub ledger: &'a str,
    /// Whether a ledger file is made if there is none.
    pub may_make: bool,
    /// For how many seconds a run waits if another run holds the ledger file.
    pub wait: u32,
    /// The device under whose numbers the run seals. The name of a journal in a folder has it.
    pub device: Device,
    /// The path of the ledger's witness, if there is to be one.
    pub witness: Option<&'a str>,
    /// Whether the witness is made, or takes another ledger file for its own.
    pub new_witness: bool,
    /// The path of the journal, if one is given.
    pub journal: Option<&'a str>,
    /// The folder in which the journal gets a name of its own, if one is given.
    pub journal_in: Option<&'a str>,
}

// Returns what `seal` and `pipe` are both asked for, with these numbers. `TwoJournals` if a path and a folder are given
// for the journal. The parser lets neither the key nor the ledger be `Missing`.
fn run_request<'a>(
    matches: &ArgMatches<'a>,
    wait: u32,
    device: Device,
) -> Result<RunRequest<'a>, UsageFault>
    requires wait { wait ≡ unwrap_or (number_given matches.now (codes "wait")) DEFAULT_WAIT }
    requires short_wait { wait ≤ MAX_WAIT }
    requires device { number_given matches.now (codes "device") ≡ Some device }
    ensures asked { IfOk result (IsRunAsked matches.now) }
    ensures fault { result ≢ Err UsageFault.LabelTooLong }
    ensures journals { result ≡ Err UsageFault.TwoJournals
        → first_value (found_of matches.now) (codes "journal") ≢ None }
    ensures journals_in { result ≡ Err UsageFault.TwoJournals
        → first_value (found_of matches.now) (codes "journal-in") ≢ None }
{
    let (Some(key), Some(ledger)) = (matches.get_str("key"), matches.get_str("ledger")) else {
        return Err(UsageFault::Missing);
    };
    let (journal, journal_in) = (matches.get_str("journal"), matches.get_str("journal-in"));
    if journal.is_some() && journal_in.is_some() {
        return Err(UsageFault::TwoJournals);
    }
    Ok(RunRequest {
        key,
        ledger,
        may_make: !matches.get_flag("no-new-ledger"),
        wait,
        device,
        witness: matches.get_str("witness"),
        new_witness: matches.get_flag("new-witness"),
        journal,
        journal_in,
    })
}

/// A request of `seal`.
#[derive(Drop)]
pub struct SealRequest<'m, 'a> {
    /// What `pipe` is asked for alike.
    pub run: RunRequest<'a>,
    pub files: &'m [&'m str],
    pub workers: u32,
    pub lanes: u32,
    /// Chunks in a round of a file.
    pub window: u32,
    /// The most plaintext bytes of a file.
    pub max_bytes: u64,
    /// The shape of the containers: version, chunk size, label.
    pub shape: Shape,
    /// The folder into which the outputs go, if one is given.
    pub into: Option<&'a str>,
    /// Whether they keep the folders of their paths there.
    pub parents: bool,
    /// Whether files whose outputs exist are kept.
    pub skip: bool,
    /// Whether an output and its name are synced to the disk before its line is printed.
    pub sync: bool,
    /// Whether outputs are created for their owner only.
    pub private: bool,
}

/// Returns the request of `seal` for these files. Errors, in this order: `NoFiles` if there are none, `LanesAndWorkers`
/// if both are above 1, `TwoJournals` if a path and a folder are given for the journal, `LabelTooLong` if the label has
/// more than 255 bytes.
pub fn seal_request<'m, 'a>(
    matches: &ArgMatches<'a>,
    files: &'m [&'m str],
) -> Result<SealRequest<'m, 'a>, UsageFault>
    ensures run { IfOk result (λ request. IsRunAsked matches.now request.run) }
    ensures files { IfOk result (λ request. (request.files.now ≡ files.now) × (0 < length request.files.now)) }
    ensures workers { IfOk result (λ request. (0 < request.workers) × (request.workers ≤ MAX_WORKERS)) }
    ensures workers_given { IfOk result (λ request. request.workers
        ≡ unwrap_or (number_given matches.now (codes "workers")) DEFAULT_WORKERS) }
    ensures lanes { IfOk result (λ request. (0 < request.lanes) × (request.lanes ≤ MAX_LANES)) }
    ensures lanes_given { IfOk result (λ request. request.lanes
        ≡ unwrap_or (number_given matches.now (codes "lanes")) DEFAULT_LANES) }
    ensures apart { IfOk result (λ request. (request.workers ≤ 1) ⊎ (request.lanes ≤ 1)) }
    ensures window { IfOk result (λ request. (0 < request.window) × (request.window ≤ MAX_WINDOW)) }
    ensures window_given { IfOk result (λ request. request.window
        ≡ unwrap_or (number_given matches.now (codes "window")) (usual (size_of request.shape) request.workers)) }
    ensures max_bytes { IfOk result (λ request. request.max_bytes ≤ MAX_PLAIN) }
    ensures max_bytes_given { IfOk result (λ request. request.max_bytes
        ≡ unwrap_or (number_given matches.now (codes "max-bytes")) DEFAULT_MAX_BYTES) }
    ensures into { IfOk result (λ request. option_map (λ into. into.now) request.into
        ≡ first_value (found_of matches.now) (codes "into")) }
    ensures parents { IfOk result (λ request. IsFlag matches.now (codes "parents") request.parents) }
    ensures skip { IfOk result (λ request. IsFlag matches.now (codes "skip-existing") request.skip) }
    ensures sync { IfOk result (λ request. IsFlag matches.now (codes "sync") request.sync) }
    ensures private { IfOk result (λ request. IsFlag matches.now (codes "private") request.private) }

    ensures shape { IfOk result (λ request. request.shape ≡ shape_asked (number_given matches.now (codes "exponent"))
        (first_value (found_of matches.now) (codes "label"))) }
    ensures lawful { IfOk result (λ request. IsShape request.shape) }
    ensures short { IfOk result (λ request. IsShort request.shape.label) }
    ensures too_long { result ≡ Err UsageFault.LabelTooLong
        → IfSome (first_value (found_of matches.now) (codes "label")) (λ label. MAX_LABEL < length label) }
    ensures journals { result ≡ Err UsageFault.TwoJournals
        → first_value (found_of matches.now) (codes "journal") ≢ None }
    ensures journals_in { result ≡ Err UsageFault.TwoJournals
        → first_value (found_of matches.now) (codes "journal-in") ≢ None }
{
    let numbers = match seal_numbers(matches) {
        Ok(numbers) => numbers,
        Err(fault) => return Err(fault),
    };
    if files.is_empty() {
        return Err(UsageFault::NoFiles);
    }
    let (workers, lanes) = (numbers.workers, numbers.lanes);
    if workers > 1 && lanes > 1 {
        return Err(UsageFault::LanesAndWorkers);
    }
    let run = match run_request(matches, numbers.wait, numbers.device) {
        Ok(run) => run,
        Err(fault) => return Err(fault),
    };
    let shape = match shape_of(numbers.exponent, matches.get_str("label")) {
        Ok(shape) => shape,
        Err(fault) => return Err(fault),
    };
    Ok(SealRequest {
        run,
        files,
        workers,
        lanes,
        window: numbers
            .window
            .unwrap_or(usual_window(shape.chunk(), workers)),
        max_bytes: numbers.max_bytes,
        shape,
        into: matches.get_str("into"),
        parents: matches.get_flag("parents"),
        skip: matches.get_flag("skip-existing"),
        sync: matches.get_flag("sync"),
        private: matches.get_flag("private"),
    })
}

/// A request of `pipe`.
#[derive(Drop)]
pub struct PipeRequest<'a> {
    /// What `seal` is asked for alike.
    pub run: RunRequest<'a>,
    pub workers: u32,
    /// The most chunks that are read and not yet written.
    pub depth: u32,
    /// The most chunks of the stream.
    pub max_chunks: u32,
    /// The shape of the container: version, chunk size, label.
    pub shape: Shape,
    /// Whether the container may be written to a terminal.
    pub to_terminal: bool,
}

/// Returns the request of `pipe`. Errors, in this order: `TwoJournals` if a path and a folder are given for the journal,
/// `LabelTooLong` if the label has more than 255 bytes.
pub fn pipe_request<'a>(matches: &ArgMatches<'a>) -> Result<PipeRequest<'a>, UsageFault>
    ensures run { IfOk result (λ request. IsRunAsked matches.now request.run) }
    ensures workers { IfOk result (λ request. (0 < request.workers) × (request.workers ≤ MAX_WORKERS)) }
    ensures workers_given { IfOk result (λ request. request.workers
        ≡ unwrap_or (number_given matches.now (codes "workers")) DEFAULT_WORKERS) }
    ensures depth { IfOk result (λ request. (0 < request.depth) × (request.depth ≤ MAX_DEPTH)) }
    ensures depth_given { IfOk result (λ request. request.depth
        ≡ unwrap_or (number_given matches.now (codes "depth")) DEFAULT_DEPTH) }
    ensures most { IfOk result (λ request. 0 < request.max_chunks) }
    ensures most_given { IfOk result (λ request. request.max_chunks
        ≡ unwrap_or (number_given matches.now (codes "max-chunks")) DEFAULT_MAX_CHUNKS) }

    ensures shape { IfOk result (λ request. request.shape ≡ shape_asked (number_given matches.now (codes "exponent"))
        (first_value (found_of matches.now) (codes "label"))) }
    ensures lawful { IfOk result (λ request. IsShape request.shape) }
    ensures short { IfOk result (λ request. IsShort request.shape.label) }
    ensures terminal { IfOk result (λ request. IsFlag matches.now (codes "force-terminal") request.to_terminal) }
    ensures too_long { result ≡ Err UsageFault.LabelTooLong
        → IfSome (first_value (found_of matches.now) (codes "label")) (λ label. MAX_LABEL < length label) }
    ensures journals { result ≡ Err UsageFault.TwoJournals
        → first_value (found_of matches.now) (codes "journal") ≢ None }
    ensures journals_in { result ≡ Err UsageFault.TwoJournals
        → first_value (found_of matches.now) (codes "journal-in") ≢ None }
{
    let numbers = match pipe_numbers(matches) {
        Ok(numbers) => numbers,
        Err(fault) => return Err(fault),
    };
    let run = match run_request(matches, numbers.wait, numbers.device) {
        Ok(run) => run,
        Err(fault) => return Err(fault),
    };
    let shape = match shape_of(numbers.exponent, matches.get_str("label")) {
        Ok(shape) => shape,
        Err(fault) => return Err(fault),
    };
    Ok(PipeRequest {
        run,
        workers: numbers.workers,
        depth: numbers.depth,
        max_chunks: numbers.max_chunks,
        shape,
        to_terminal: matches.get_flag("force-terminal"),
    })
}

// The shape of the containers to write, from the options given.
fn shape_of(exponent: Option<u32>, label: Option<&str>) -> Result<Shape, UsageFault>
    requires { IfSome exponent (λ e. (MIN_EXPONENT ≤ e) × (e ≤ MAX_EXPONENT)) }
    ensures shape { IfOk result (λ shape. shape ≡ shape_asked exponent (option_map (λ text. text.now) label.entry)) }
    ensures short { IfOk result (λ shape. IsShort shape.label) }
    ensures too_long { IfErr result (λ fault. fault ≡ UsageFault.LabelTooLong) }
    ensures long { OnErr result (IfSome label.entry (λ text. MAX_LABEL < length text.now)) }
{
    if exponent.is_none() && label.is_none() {
        return Ok(Shape::one());
    }
    let label = label.unwrap_or("");
    match Shape::two(exponent.unwrap_or(DEFAULT_EXPONENT), label.as_bytes()) {
        Ok(shape) => Ok(shape),
        Err(_) => Err(UsageFault::LabelTooLong),
    }
}
