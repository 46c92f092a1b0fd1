//! The requests of `open`, `verify` and `unpipe`, from words that the parser accepted.
ghost use Rattle.std.specs.Prelude.{[], ◌<◌, ◌≤◌, ◌≡◌, ◌≢◌, ◌⊎◌, Err, IfErr, IfOk, IfSome, None, OnErr, OnOk, false};
ghost use Rattle.std.specs.Prelude.{Some, codes, length, option_map, unwrap_or};
ghost use Rattle.clap.specs.Matches.{first_value, found_of, one_text};
ghost use Rattle.command_line.specs.Asked.{IsOfOpenUsage, dashes, inputs_asked};
ghost use Rattle.command_line.specs.Given.{AreFactsAsked, IsFlag, IsForMany, IsGivenWithin, number_given};

use crate::fault::UsageFault;
use crate::given::{DEFAULT_MAX_BYTES, DEFAULT_WORKERS, open_numbers};
use crate::names::inputs_in;
use claim_core::MAX_WORKERS;
use clap::ArgMatches;
use container_core::{MAX_LABEL, MAX_OPENED};

/// What becomes of the plaintext of containers.
#[derive(Clone, Copy, PartialEq, Eq)]
pub enum Reading {
    /// It is written, by `open`.
    Open,
    /// Nothing: `verify` only checks the containers.
    Verify,
}

/// A request of `open` or `verify`.
#[derive(Clone, Copy)]
pub struct OpenRequest<'m, 'a> {
    pub key: &'a str,
    pub files: &'m [&'m str],
    pub workers: u32,
    /// The most plaintext bytes of a file.
    pub max_bytes: u64,
    /// The bytes of the label that each container must have, if one was given.
    pub label: Option<&'a [u8]>,
    /// Whether the facts of each good container are printed: with `--show`, `--json` or `--against`. `open` prints none.
    pub show: bool,
    /// The name of the output, if one is given. `verify` has no such option.
    pub to: Option<&'a str>,
    /// The folder into which the outputs go, if one is given. `verify` has no such option.
    pub into: Option<&'a str>,
    /// Whether they keep the folders of their paths there. `verify` has no such option.
    pub parents: bool,
    /// Whether files whose outputs exist are kept. `verify` has no such option.
    pub skip: bool,
    /// Whether an output and its name are synced to the disk before its line is printed. `verify` has no such option.
    pub sync: bool,
    /// Whether outputs are created for their owner only. `verify` has no such option.
    pub private: bool,
}

/// Returns the request of `open` or `verify` for these files. Errors, in this order:
/// - `NoFiles` if there are none;
/// - `ToAndOthers` if the output's name and an option for several files are given, `ToForMany` if the output's name and
///   several files are, `ToNoFile` if that name is empty or `-`;
/// - `LabelTooLong` if the label has more than 255 bytes: no container has it;
/// - `InputNeedsName` if `open` is to read standard input and its output has no name, `InputTwice` if standard input is
///   to be read more than once.
pub fn open_request<'m, 'a>(
    reading: Reading,
    matches: &ArgMatches<'a>,
    files: &'m [&'m str],
) -> Result<OpenRequest<'m, 'a>, UsageFault>
    ensures key { IfOk result (λ request. Some request.key.now ≡ first_value (found_of matches.now) (codes "key")) }
    ensures files { IfOk result (λ request. (request.files.now ≡ files.now) × (0 < length request.files.now)) }
    ensures workers { IfOk result (λ request. (0 < request.workers) × (request.workers ≤ MAX_WORKERS)) }
    ensures workers_given { IfOk result (λ request. request.workers
        ≡ unwrap_or (number_given matches.now (codes "workers")) DEFAULT_WORKERS) }
    ensures max_bytes { IfOk result (λ request. request.max_bytes ≤ MAX_OPENED) }
    ensures max_bytes_given { IfOk result (λ request. request.max_bytes
        ≡ unwrap_or (number_given matches.now (codes "max-bytes")) DEFAULT_MAX_BYTES) }
    ensures label { IfOk result (λ request. option_map (λ label. label.now) request.label
        ≡ first_value (found_of matches.now) (codes "label")) }
    ensures short { IfOk result (λ request. IfSome request.label (λ label. length label.now ≤ MAX_LABEL)) }
    ensures show { IfOk result (λ request. AreFactsAsked matches.now request.show) }
    ensures to { IfOk result (λ request. option_map (λ to. to.now) request.to
        ≡ first_value (found_of matches.now) (codes "to")) }
    ensures one { IfOk result (λ request. IfSome request.to (λ _. length request.files.now ≡ 1)) }
    ensures alone { IfOk result (λ request. IfSome request.to (λ _. (request.into ≡ None) × (request.skip ≡ false))) }
    ensures named { IfOk result (λ request. IfSome request.to (λ to. (to.now ≢ []) × (to.now ≢ codes "-"))) }
    ensures no_list { IfOk result (λ request. IfSome request.to (λ _.
        first_value (found_of matches.now) (codes "files-from") ≡ None)) }
    ensures into { IfOk result (λ request. option_map (λ into. into.now) request.into
        ≡ first_value (found_of matches.now) (codes "into")) }
    ensures parents { IfOk result (λ request. IsFlag matches.now (codes "parents") request.parents) }
    ensures skip { IfOk result (λ request. IsFlag matches.now (codes "skip-existing") request.skip) }
    ensures sync { IfOk result (λ request. IsFlag matches.now (codes "sync") request.sync) }
    ensures private { IfOk result (λ request. IsFlag matches.now (codes "private") request.private) }
    ensures too_long { result ≡ Err UsageFault.LabelTooLong
        → IfSome (first_value (found_of matches.now) (codes "label")) (λ label. MAX_LABEL < length label) }
    ensures many { result ≡ Err UsageFault.ToForMany → 1 < length files.now }
    ensures many_to { result ≡ Err UsageFault.ToForMany → first_value (found_of matches.now) (codes "to") ≢ None }
    ensures unnamed { result ≡ Err UsageFault.ToNoFile
        → IfSome (first_value (found_of matches.now) (codes "to")) (λ to. (to ≡ []) ⊎ (to ≡ codes "-")) }
    ensures others { result ≡ Err UsageFault.ToAndOthers → IsForMany matches.now }
    ensures others_to { result ≡ Err UsageFault.ToAndOthers → first_value (found_of matches.now) (codes "to") ≢ None }
    ensures named_input { IfOk result (λ request. reading ≡ Reading.Open → request.to ≡ None
        → dashes files.now ≡ 0) }
    ensures once { OnOk result (inputs_asked (first_value (found_of matches.now) (codes "files-from")) files.now ≤ 1) }
    ensures input { result ≡ Err UsageFault.InputNeedsName
        → 0 < dashes files.now }
    ensures opens { result ≡ Err UsageFault.InputNeedsName → reading ≡ Reading.Open }
    ensures without_to { result ≡ Err UsageFault.InputNeedsName
        → first_value (found_of matches.now) (codes "to") ≡ None }
    ensures twice { result ≡ Err UsageFault.InputTwice
        → 1 < inputs_asked (first_value (found_of matches.now) (codes "files-from")) files.now }
    ensures missing { result ≡ Err UsageFault.Missing → first_value (found_of matches.now) (codes "key") ≡ None }
    ensures no_files { result ≡ Err UsageFault.NoFiles → files.now ≡ [] }
    ensures range { result ≡ Err UsageFault.OutOfRange
        → IsGivenWithin 1 MAX_WORKERS (one_text (found_of matches.now) (codes "workers"))
        → IsGivenWithin 0 MAX_OPENED (one_text (found_of matches.now) (codes "max-bytes")) → ⊥ }
    // Each of these has a clause that says when it comes. So where none of them can, the request is given.
    ensures fault { IfErr result IsOfOpenUsage }
{
    let Some(key) = matches.get_str("key") else {
        return Err(UsageFault::Missing);
    };
    if files.is_empty() {
        return Err(UsageFault::NoFiles);
    }
    let to = matches.get_str("to");
    let into = matches.get_str("into");
    let skip = matches.get_flag("skip-existing");
    let has_list = matches.get_str("files-from").is_some();
    if to.is_some() && (into.is_some() || skip || has_list) {
        return Err(UsageFault::ToAndOthers);
    }
    if to.is_some() && files.len() > 1 {
        return Err(UsageFault::ToForMany);
    }
    match to {
        Some("") | Some("-") => return Err(UsageFault::ToNoFile),
        _ => {}
    }
    let numbers = match open_numbers(matches, DEFAULT_MAX_BYTES) {
        Ok(numbers) => numbers,
        Err(fault) => return Err(fault),
    };
    let label = match label_asked(matches.get_str("label")) {
        Ok(label) => label,
        Err(fault) => return Err(fault),
    };
    match check_input(reading, matches.get_str("files-from"), files, to.is_some()) {
        Ok(()) => {}
        Err(fault) => return Err(fault),
    }
    Ok(OpenRequest {
        key,
        files,
        workers: numbers.workers,
        max_bytes: numbers.max_bytes,
        label,
        show: are_facts_asked(matches),
        to,
        into,
        parents: matches.get_flag("parents"),
        skip,
        sync: matches.get_flag("sync"),
        private: matches.get_flag("private"),
    })
}

// Whether the facts of good containers are asked for, or needed.
fn are_facts_asked(matches: &ArgMatches<'_>) -> bool
    ensures { AreFactsAsked matches.now result }
{
    let show = matches.get_flag("show");
    let json = matches.get_flag("json");
    show || json || matches.get_str("against").is_some()
}

// Checks that standard input, if `open` reads it, has a name for its output, and that it is read at most once.
fn check_input(
    reading: Reading,
    list: Option<&str>,
    files: &[&str],
    is_named: bool,
) -> Result<(), UsageFault>
    ensures named { OnOk result (reading ≡ Reading.Open → is_named ≡ false
        → dashes files.now ≡ 0) }
    ensures once { OnOk result (inputs_asked (option_map (λ list. list.now) list.entry) files.now ≤ 1) }
    ensures unnamed { result ≡ Err UsageFault.InputNeedsName → (reading ≡ Reading.Open) × (is_named ≡ false)
        × (0 < dashes files.now) }
    ensures twice { result ≡ Err UsageFault.InputTwice → 1 < inputs_asked (option_map (λ list. list.now) list.entry) files.now }
    ensures fault { IfErr result (λ fault. (fault ≡ UsageFault.InputNeedsName) ⊎ (fault ≡ UsageFault.InputTwice)) }
{
    let inputs = inputs_in(files);
    if inputs == 0 {
        return Ok(());
    }
    if reading == Reading::Open && !is_named {
        return Err(UsageFault::InputNeedsName);
    }
    if inputs > 1 {
        return Err(UsageFault::InputTwice);
    }
    match list {
        Some("-") => Err(UsageFault::InputTwice),
        _ => Ok(()),
    }
}

/// A request of `unpipe`.
#[derive(Clone, Copy)]
pub struct UnpipeRequest<'a> {
    pub key: &'a str,
    /// The sealed file, or `-` for standard input.
    pub file: &'a str,
    pub workers: u32,
    /// The most plaintext bytes.
    pub max_bytes: u64,
    /// The bytes of the label that the container must have, if one was given.
    pub label: Option<&'a [u8]>,
    /// The folder of the temporary file for sealed bytes, if one is given.
    pub spool: Option<&'a str>,
    /// Whether the plaintext may be written to a terminal.
    pub to_terminal: bool,
}

/// Returns the request of `unpipe`. Without `--max-bytes` the limit is that of the format. `LabelTooLong` if the label
/// has more than 255 bytes: no container has it.
pub fn unpipe_request<'a>(matches: &ArgMatches<'a>) -> Result<UnpipeRequest<'a>, UsageFault>
    ensures key { IfOk result (λ request. Some request.key.now ≡ first_value (found_of matches.now) (codes "key")) }
    ensures file { IfOk result (λ request. request.file.now
        ≡ unwrap_or (first_value (found_of matches.now) (codes "FILE")) (codes "-")) }
    ensures workers { IfOk result (λ request. (0 < request.workers) × (request.workers ≤ MAX_WORKERS)) }
    ensures workers_given { IfOk result (λ request. request.workers
        ≡ unwrap_or (number_given matches.now (codes "workers")) DEFAULT_WORKERS) }
    ensures max_bytes { IfOk result (λ request. request.max_bytes ≤ MAX_OPENED) }
    ensures max_bytes_given { IfOk result (λ request. request.max_bytes
        ≡ unwrap_or (number_given matches.now (codes "max-bytes")) MAX_OPENED) }
    ensures label { IfOk result (λ request. option_map (λ label. label.now) request.label
        ≡ first_value (found_of matches.now) (codes "label")) }
    ensures short { IfOk result (λ request. IfSome request.label (λ label. length label.now ≤ MAX_LABEL)) }
    ensures spool { IfOk result (λ request. option_map (λ spool. spool.now) request.spool
        ≡ first_value (found_of matches.now) (codes "spool")) }
    ensures terminal { IfOk result (λ request. IsFlag matches.now (codes "force-terminal") request.to_terminal) }
    ensures too_long { result ≡ Err UsageFault.LabelTooLong
        → IfSome (first_value (found_of matches.now) (codes "label")) (λ label. MAX_LABEL < length label) }
{
    let Some(key) = matches.get_str("key") else {
        return Err(UsageFault::Missing);
    };
    let numbers = match open_numbers(matches, MAX_OPENED) {
        Ok(numbers) => numbers,
        Err(fault) => return Err(fault),
    };
    let label = match label_asked(matches.get_str("label")) {
        Ok(label) => label,
        Err(fault) => return Err(fault),
    };
    let to_terminal = matches.get_flag("force-terminal");
    Ok(UnpipeRequest {
        key,
        file: matches.get_str("FILE").unwrap_or("-"),
        workers: numbers.workers,
        max_bytes: numbers.max_bytes,
        label,
        spool: matches.get_str("spool"),
        to_terminal,
    })
}

// The bytes of a label that was given, at most 255.
fn label_asked(text: Option<&str>) -> Result<Option<&[u8]>, UsageFault>
    ensures label { IfOk result (λ label. option_map (λ b. b.now) label ≡ option_map (λ t. t.now) text.entry) }
    ensures short { IfOk result (λ label. IfSome label (λ b. length b.now ≤ MAX_LABEL)) }
    ensures too_long { IfErr result (λ fault. fault ≡ UsageFault.LabelTooLong) }
    ensures long { OnErr result (IfSome text.entry (λ t. MAX_LABEL < length t.now)) }
{
    match text {
        None => Ok(None),
        Some(text) if text.len() > MAX_LABEL => Err(UsageFault::LabelTooLong),
        Some(text) => Ok(Some(text.as_bytes())),
    }
}
