//! What a run's lines add up to. Counts stop at 2^64 - 1.

ghost use Rattle.std.specs.Prelude.{◌≡◌, ◌<◌, ◌⊎◌, ◌↔◌, ◌∷◌, ◌++◌, IfOk, IsTrue, List, OnOk, map, true};
ghost use Rattle.line_core.specs.Totals.{no_lines, prints, value_of, with_finding, with_held, with_line};
ghost use Rattle.line_core.specs.Totals.{Count, count_in, count_text, counts_of, counts_text, member_name, totals_end, totals_front};

use crate::json::push_number;
use crate::listed::What;
use crate::message::Message;
use crate::objects::push_head;
use std::alloc::{AllocError, Global};

/// The command whose lines are counted.
#[derive(Clone, Copy)]
pub enum Command {
    Seal,
    Pipe,
    Open,
    Unpipe,
    Verify,
    Show,
    Ledger,
    Audit,
}

/// Returns whether a command prints lines of this kind. The complaint of a stream, `ledger: older than its witness`, is
/// no line of `ledger`.
pub fn is_line_of(command: Command, message: &Message<'_>) -> bool
    ensures { result ≡ prints command message.now }
{
    match *message {
        Message::Sealed { .. } => matches!(command, Command::Seal | Command::Pipe),
        Message::Kept { .. } => matches!(command, Command::Seal | Command::Open),
        Message::Opened { .. } => matches!(command, Command::Open | Command::Unpipe),
        Message::Good { .. } | Message::Shown { .. } => matches!(command, Command::Verify),
        Message::Failed { .. } => true,
        Message::Unchecked { .. } => matches!(command, Command::Show),
        Message::Held { .. } | Message::Unused { .. } | Message::Older { .. } => {
            matches!(command, Command::Ledger)
        }
        _ => matches!(command, Command::Audit),
    }
}

/// How many lines there were of each kind, and the sum of their bytes.
#[derive(Clone, Copy)]
pub struct Totals {
    pub sealed: u64,
    pub kept: u64,
    pub opened: u64,
    pub good: u64,
    pub failed: u64,
    /// Plaintext bytes of what was sealed, opened or is good.
    pub bytes: u64,
    /// Listed outputs, or numbers settled as sealed, that no container was met for.
    pub missing: u64,
    pub other_number: u64,
    pub not_listed: u64,
    /// Lines of a ledger: its keys, each with a device.
    pub held: u64,
    pub ranges: u64,
    pub given: u64,
    pub legal: u64,
    pub malformed: u64,
    pub illegal: u64,
    /// Containers whose headers were shown.
    pub unchecked: u64,
    /// Containers than which a ledger is older.
    pub older: u64,
    /// Containers whose numbers a journal doesn't settle as sealed.
    pub not_sealed: u64,
}

impl Totals {
    /// Returns those of no lines.
    pub fn new() -> Totals
        ensures { result ≡ no_lines }
    {
        Totals {
            sealed: 0,
            kept: 0,
            opened: 0,
            good: 0,
            failed: 0,
            bytes: 0,
            missing: 0,
            other_number: 0,
            not_listed: 0,
            held: 0,
            ranges: 0,
            given: 0,
            legal: 0,
            malformed: 0,
            illegal: 0,
            unchecked: 0,
            older: 0,
            not_sealed: 0,
        }
    }

    /// Counts a line. Digits of a number above 2^64 - 1 count as that.
    pub fn add(&mut self, message: &Message<'_>)
        ensures { self.new ≡ with_line self.old message.now }
    {
        match *message {
            Message::Sealed { bytes, .. } => {
                self.sealed = self.sealed.saturating_add(1);
                self.bytes = self.bytes.saturating_add(value_of(bytes));
            }
            Message::Kept { .. } => self.kept = self.kept.saturating_add(1),
            Message::Opened { bytes, .. } => {
                self.opened = self.opened.saturating_add(1);
                self.bytes = self.bytes.saturating_add(value_of(bytes));
            }
            Message::Good { bytes, .. } | Message::Shown { bytes, .. } => {
                self.good = self.good.saturating_add(1);
                self.bytes = self.bytes.saturating_add(value_of(bytes));
            }
            Message::Failed { .. } => self.failed = self.failed.saturating_add(1),
            Message::Held { ranges, given, .. } => self.add_held(value_of(ranges), value_of(given)),
            Message::Unused { .. } => self.add_held(0, 0),
            Message::Legal { .. } => self.legal = self.legal.saturating_add(1),
            Message::Malformed { .. } => self.malformed = self.malformed.saturating_add(1),
            Message::Illegal { .. } => self.illegal = self.illegal.saturating_add(1),
            Message::Unchecked { .. } => self.unchecked = self.unchecked.saturating_add(1),
            Message::Older { .. } => self.older = self.older.saturating_add(1),
            Message::NotSealed { .. } => self.not_sealed = self.not_sealed.saturating_add(1),
            Message::Missing { .. } => self.missing = self.missing.saturating_add(1),
        }
    }

    // Counts a line of a ledger.
    fn add_held(&mut self, ranges: u64, given: u64)
        ensures { self.new ≡ with_held self.old ranges given }
    {
        self.held = self.held.saturating_add(1);
        self.ranges = self.ranges.saturating_add(ranges);
        self.given = self.given.saturating_add(given);
    }

    /// Counts a line of a comparison.
    pub fn add_finding(&mut self, what: What)
        ensures { self.new ≡ with_finding self.old what }
    {
        match what {
            What::Missing => self.missing = self.missing.saturating_add(1),
            What::OtherNumber => self.other_number = self.other_number.saturating_add(1),
            What::NotListed => self.not_listed = self.not_listed.saturating_add(1),
        }
    }

    /// Whether a comparison with lines found something.
    pub fn has_findings(self) -> bool
        ensures { IsTrue result ↔ ((0 < self.missing) ⊎ (0 < self.other_number) ⊎ (0 < self.not_listed)) }
    {
        self.missing > 0 || self.other_number > 0 || self.not_listed > 0
    }
}

// The number that these digits are, or the greatest, if it is greater.
fn value_of(digits: &str) -> u64
    ensures { result ≡ value_of digits.now }
{
    match digits.parse::<u64>() {
        Ok(value) => value,
        Err(_) => u64::MAX,
    }
}

/// Appends the last line of a command: the totals that it has, as a line or as an object. `compared` says whether the
/// command compared containers with something.
pub fn push_totals(
    alloc: Global,
    to: &mut Vec<u8>,
    command: Command,
    totals: &Totals,
    compared: bool,
    is_json: bool,
) -> Result<(), AllocError>
    ensures { OnOk result (to.new.items ≡ to.old.items ++ totals_front is_json
        ++ counts_text is_json true (counts_of command compared totals.now) ++ totals_end is_json) }
{
    let counts = counts_of(command, compared, totals);
    push_begin(to, is_json)?;
    push_counts(alloc, to, &counts, is_json, true)?;
    push_end(to, is_json)?;
    Ok(())
}

// The counts, in the order of the line: the name of each, whether the command's totals have it, and its value.
#[tactic(auto, unfolding(crate::specs::Totals::counts_of))]
fn counts_of(command: Command, compared: bool, totals: &Totals) -> [(&'static str, bool, u64); 18]
    ensures { map count_in result ≡ counts_of command compared totals.now }
{
    let seals = matches!(command, Command::Seal | Command::Pipe);
    let opens = matches!(command, Command::Open | Command::Unpipe);
    let keeps = matches!(command, Command::Seal | Command::Open);
    let verifies = matches!(command, Command::Verify);
    let shows = matches!(command, Command::Show);
    let is_ledger = matches!(command, Command::Ledger);
    let audits = matches!(command, Command::Audit);
    [
        ("sealed", seals, totals.sealed),
        ("opened", opens, totals.opened),
        ("unchecked", shows, totals.unchecked),
        ("good", verifies, totals.good),
        ("kept", keeps, totals.kept),
        ("lines", is_ledger, totals.held),
        ("ranges", is_ledger, totals.ranges),
        ("given", is_ledger, totals.given),
        ("legal", audits, totals.legal),
        ("malformed", audits, totals.malformed),
        ("illegal", audits, totals.illegal),
        ("failed", compared || !(is_ledger || audits), totals.failed),
        ("older", compared && is_ledger, totals.older),
        ("not sealed", compared && audits, totals.not_sealed),
        ("missing", compared && (verifies || audits), totals.missing),
        ("other number", compared && verifies, totals.other_number),
        ("not listed", compared && verifies, totals.not_listed),
        ("bytes", !(is_ledger || audits || shows), totals.bytes),
    ]
}

// Appends the counts that the totals have.
fn push_counts(
    alloc: Global,
    to: &mut Vec<u8>,
    counts: &[(&'static str, bool, u64)],
    is_json: bool,
    is_first: bool,
) -> Result<(), AllocError>
    ensures { OnOk result (to.new.items ≡ to.old.items ++ counts_text is_json is_first (map count_in counts.now)) }
{
    let Some((count, more)) = counts.split_first() else {
        return Ok(());
    };
    let is_first = push_had(alloc, to, *count, is_json, is_first)?;
    push_counts(alloc, to, more, is_json, is_first)
}

// Appends a count, if the totals have it. Returns whether the next one is still the first.
fn push_had(
    alloc: Global,
    to: &mut Vec<u8>,
    count: (&'static str, bool, u64),
    is_json: bool,
    is_first: bool,
) -> Result<bool, AllocError>
    ensures { (others : List Count) → IfOk result (λ first. to.new.items ++ counts_text is_json first others
        ≡ to.old.items ++ counts_text is_json is_first (count_in count.entry ∷ others)) }
{
    let (name, is_had, value) = count;
    if is_had {
        push_count(alloc, to, name, value, is_json, is_first)?;
        Ok(false)
    } else {
        Ok(is_first)
    }
}

// Appends what comes before the counts.
fn push_begin(to: &mut Vec<u8>, is_json: bool) -> Result<(), AllocError>
    ensures { OnOk result (to.new.items ≡ to.old.items ++ totals_front is_json) }
{
    if is_json {
        push_head(to, "total")
    } else {
        to.extend_from_slice(b"total:")
    }
}

// Appends what comes after the counts.
fn push_end(to: &mut Vec<u8>, is_json: bool) -> Result<(), AllocError>
    ensures { OnOk result (to.new.items ≡ to.old.items ++ totals_end is_json) }
{
    let end: &[u8] = if is_json { b"}\n" } else { b"\n" };
    to.extend_from_slice(end)
}

// Appends a count: `,"name":N`, or ` N name`, after a comma if it isn't the first.
#[tactic(auto, unfolding(crate::specs::Totals::count_text))]
fn push_count(
    alloc: Global,
    to: &mut Vec<u8>,
    name: &str,
    count: u64,
    is_json: bool,
    is_first: bool,
) -> Result<(), AllocError>
    ensures { OnOk result (to.new.items ≡ to.old.items ++ count_text is_json is_first name.now count) }
{
    if is_json {
        let digits = format!(in alloc; "{count}")?;
        return push_number(to, member_name(name), digits.as_str());
    }
    let text = if is_first {
        format!(in alloc; " {count} {name}")?
    } else {
        format!(in alloc; ", {count} {name}")?
    };
    to.extend_from_slice(text.as_bytes())
}

// The name of the member of a count, which has no spaces.
#[tactic(auto, unfolding(crate::specs::Totals::member_name))]
fn member_name(name: &str) -> &str
    ensures { result.now ≡ member_name name.now }
{
    match name {
        "other number" => "other_number",
        "not listed" => "not_listed",
        "not sealed" => "not_sealed",
        _ => name,
    }
}
