//! The outputs that the lines of `seal` name, and how verified containers differ from them. A name is the same only if its
//! text is. Lines of other kinds, and bytes that are no line, are passed over. Of two lines of one output the last counts.
//! How many were passed over that `seal` doesn't print of a FILE is known: a list with other ends of lines has these alone.
ghost use Rattle.std.specs.Prelude.{if◌then◌else◌, ◌<◌, ◌≡◌, ◌∷◌, ◌++◌, [], ℕ, IfNone, IfOk, IfSome, List, OnErr, OnOk, length, map, string_bytes};
ghost use Rattle.line_core.specs.Listed.{finding_front, finding_line, finding_numbers, finding_object, finding_status};
ghost use Rattle.line_core.specs.Listed.{found_of, judged, line_words, listed_at, listings, missing_of, outputs_of, said, value_member, with_met};
ghost use Rattle.folder_core.specs.Places.{IsLastName};

use crate::json::{push_number, push_text_member};
use crate::message::{Message, message_of};
use crate::objects::push_head;
use folder_core::{last_name, place_of};
use std::alloc::{AllocError, Global};
use std::collections::BTreeMap;
use std::str::from_utf8;

/// What a comparison found.
#[derive(Clone, Copy, PartialEq, Eq)]
pub enum What {
    /// A listed output is not among the containers.
    Missing,
    /// A good container has another number, or another length, than its line.
    OtherNumber,
    /// No line is of this good container.
    NotListed,
}

/// What a comparison found of one name. Numbers are those that are known.
#[derive(Drop)]
pub struct Finding {
    pub what: What,
    pub name: String,
    /// The container's number.
    pub number: Option<u32>,
    /// The number in the lines.
    pub listed: Option<u32>,
}

// A listed output.
#[derive(Drop)]
struct ListedOutput {
    number: u32,
    bytes: u64,
    is_met: bool,
}

/// The outputs of lines, by their names, and what was found so far.
#[derive(Drop)]
pub struct Listed {
    alloc: Global,
    outputs: BTreeMap<String, ListedOutput>,
    found: Vec<Finding>,
    // How many lines are of no FILE that was sealed, kept or failed.
    others: u64,
}

impl Listed {
    /// Returns the outputs of these lines. `into` is the folder into which the run put them, as a line shows it: each
    /// under its base name, or with `parents` with the folders of its path. What has no place there is passed over.
    pub fn of(
        alloc: Global,
        text: &[u8],
        into: Option<&str>,
        parents: bool,
    ) -> Result<Listed, AllocError>
        ensures found { IfOk result (λ listed. found_of listed ≡ []) }
    {
        let mut outputs = BTreeMap::new(alloc);
        let mut others = 0u64;
        let mut rest = text;
        'lines: while !rest.is_empty() {
            let (line, more) = cut_line(rest);
            match sealed_in(line) {
                Some(sealed) => take_in(alloc, into, parents, sealed, &mut outputs)?,
                None if is_other(line) => others = others.saturating_add(1),
                None => {}
            }
            rest = more;
        }
        Ok(Listed {
            alloc,
            outputs,
            found: Vec::new(alloc),
            others,
        })
    }

    /// Returns how many of the lines are of no FILE that was sealed, kept or failed. Empty ones don't count.
    pub fn others(&self) -> u64 {
        self.others
    }

    /// Takes a container of this name as met, and notes what is found of it. `good` is the number of a good one, and how
    /// many bytes it has; `None` if it isn't good. After refused memory nothing more was found, and it is met all the same.
    pub fn meet(&mut self, name: &str, good: Option<(u32, u64)>) -> Result<(), AllocError>
        ensures found { OnOk result (found_of self.new
            ≡ found_of self.old ++ judged name.now good (listed_at name.now (outputs_of self.old))) }
        ensures met { outputs_of self.new ≡ with_met name.now (outputs_of self.old) }
        ensures err { OnErr result (found_of self.new ≡ found_of self.old) }
    {
        let listed = meet_in(&mut self.outputs, name);
        match judged(good, listed) {
            Some((what, number, listed)) => {
                let finding = Finding {
                    what,
                    name: text_of(self.alloc, name)?,
                    number: Some(number),
                    listed,
                };
                self.found.push(finding)?;
                Ok(())
            }
            None => Ok(()),
        }
    }

    /// Returns all that was found: first of the containers, in their order, then the outputs that weren't met, in the
    /// order of their names.
    pub fn end(self) -> Result<Vec<Finding>, AllocError>
        ensures { IfOk result (λ found. map said found.items ≡ found_of self ++ missing_of (outputs_of self)) }
    {
        let Listed {
            alloc: _,
            outputs,
            found,
            others: _,
        } = self;
        let mut found = found;
        'outputs: for (name, output) in outputs {
            if !output.is_met {
                found.push(Finding {
                    what: What::Missing,
                    name,
                    number: None,
                    listed: Some(output.number),
                })?;
            }
        }
        Ok(found)
    }
}

// Lists the output of a line with this name, number and bytes, if it has a place.
fn take_in(
    alloc: Global,
    into: Option<&str>,
    parents: bool,
    sealed: (&str, u32, u64),
    outputs: &mut BTreeMap<String, ListedOutput>,
) -> Result<(), AllocError> {
    let (name, number, bytes) = sealed;
    let Some(output) = output_of(alloc, into, parents, name)? else {
        return Ok(());
    };
    let entry = ListedOutput {
        number,
        bytes,
        is_met: false,
    };
    match outputs.insert(output, entry) {
        Ok(_) => Ok(()),
        Err(_) => Err(AllocError),
    }
}

// Marks the output of this name, if it is listed, as met. Returns the number and the bytes of its line.
fn meet_in(outputs: &mut BTreeMap<String, ListedOutput>, name: &str) -> Option<(u32, u64)>
    ensures listed { result ≡ listed_at name.now (listings outputs.old.entries) }
    ensures met { listings outputs.new.entries ≡ with_met name.now (listings outputs.old.entries) }
{
    match outputs.get_mut(name) {
        Some(output) => {
            output.is_met = true;
            Some((output.number, output.bytes))
        }
        None => None,
    }
}

// What is found of a container, with its number and that of its line. Of both there are the number and the bytes.
fn judged(good: Option<(u32, u64)>, listed: Option<(u32, u64)>) -> Option<(What, u32, Option<u32>)>
    ensures some { (name : List ℕ) → IfSome result (λ (what, number, line). judged name good listed
        ≡ record { what = what; name = name; number = Some number; listed = line } ∷ []) }
    ensures none { (name : List ℕ) → IfNone result (judged name good listed ≡ []) }
{
    match (good, listed) {
        (None, _) => None,
        (Some(good), Some(listed)) if good == listed => None,
        (Some(good), Some(listed)) => Some((What::OtherNumber, good.0, Some(listed.0))),
        (Some(good), None) => Some((What::NotListed, good.0, None)),
    }
}

// The first line of a text, and what follows it.
fn cut_line(text: &[u8]) -> (&[u8], &[u8])
    ensures shorter { 0 < length text.now → length result.1.now < length text.now }
{
    for at in 0..text.len() {
        if text[at] == b'\n' {
            return (&text[..at], &text[at + 1..]);
        }
    }
    (text, &[])
}

// The name, the number and the bytes of a line of `seal` that names an output.
fn sealed_in(line: &[u8]) -> Option<(&str, u32, u64)> {
    let Ok(text) = from_utf8(line) else {
        return None;
    };
    match message_of(text) {
        Some(
            Message::Sealed {
                name,
                number,
                bytes,
            },
        ) => match (number.parse::<u32>(), bytes.parse::<u64>()) {
            (Ok(number), Ok(bytes)) => Some((name, number, bytes)),
            _ => None,
        },
        _ => None,
    }
}

// Whether a line is of no FILE that was kept or failed. An empty one counts as none.
fn is_other(line: &[u8]) -> bool {
    if line.is_empty() {
        return false;
    }
    match from_utf8(line) {
        Ok(text) => !matches!(
            message_of(text),
            Some(Message::Kept { .. } | Message::Failed { .. })
        ),
        Err(_) => true,
    }
}

// The name of the output for this one. `None` if it has no place in the folder.
fn output_of(
    alloc: Global,
    into: Option<&str>,
    parents: bool,
    name: &str,
) -> Result<Option<String>, AllocError> {
    let mut output = text_of(alloc, name)?;
    output.push_str(".stm")?;
    let Some(folder) = into else {
        return Ok(Some(output));
    };
    let end = if parents {
        place_of(alloc, output.as_str())?
    } else {
        base_of(alloc, output.as_str())?
    };
    let Some(end) = end else {
        return Ok(None);
    };
    let mut path = text_of(alloc, folder.trim_end_matches('/'))?;
    path.push_str(end.as_str())?;
    Ok(Some(path))
}

// The base name of a path, after a slash. `None` if it has none.
fn base_of(alloc: Global, path: &str) -> Result<Option<String>, AllocError>
    ensures { IfOk result (λ found. IfSome found (λ end. (name : List ℕ) × IsLastName path.now name
        × (string_bytes end ≡ 47 ∷ name))) }
{
    let Some(last) = last_name(path) else {
        return Ok(None);
    };
    let mut end = String::new(alloc);
    end.push('/')?;
    end.push_str(last)?;
    Ok(Some(end))
}

// A copy of a text.
fn text_of(alloc: Global, text: &str) -> Result<String, AllocError>
    ensures { IfOk result (λ copy. string_bytes copy ≡ text.now) }
{
    let mut copy = String::new(alloc);
    copy.push_str(text)?;
    Ok(copy)
}

/// Appends what was found, as a line or as an object, with a line feed.
pub fn push_finding(
    alloc: Global,
    to: &mut Vec<u8>,
    finding: &Finding,
    is_json: bool,
) -> Result<(), AllocError>
    ensures { OnOk result (to.new.items ≡ to.old.items
        ++ (if is_json then finding_object (said finding.now) else finding_line (said finding.now))) }
{
    if is_json {
        push_finding_object(alloc, to, finding)
    } else {
        push_finding_line(to, finding)
    }
}

// Appends what was found as a line.
fn push_finding_line(to: &mut Vec<u8>, finding: &Finding) -> Result<(), AllocError>
    ensures { OnOk result (to.new.items ≡ to.old.items ++ finding_line (said finding.now)) }
{
    to.extend_from_slice(finding_words(finding.what))?;
    to.extend_from_slice(finding.name.as_bytes())?;
    to.push(b'\n')?;
    Ok(())
}

// How the line of a finding begins.
fn finding_words(what: What) -> &'static [u8]
    ensures { result.now ≡ line_words what }
{
    match what {
        What::Missing => b"missing ",
        What::OtherNumber => b"other number ",
        What::NotListed => b"not listed ",
    }
}

// Appends what was found as an object.
fn push_finding_object(alloc: Global, to: &mut Vec<u8>, finding: &Finding) -> Result<(), AllocError>
    ensures { OnOk result (to.new.items ≡ to.old.items ++ finding_object (said finding.now)) }
{
    push_finding_front(to, finding)?;
    push_finding_numbers(alloc, to, finding)?;
    to.extend_from_slice(b"}\n")?;
    Ok(())
}

// Appends the beginning of the object: its status and its file.
#[tactic(auto, unfolding(crate::specs::Listed::finding_front))]
fn push_finding_front(to: &mut Vec<u8>, finding: &Finding) -> Result<(), AllocError>
    ensures { OnOk result (to.new.items ≡ to.old.items ++ finding_front (said finding.now)) }
{
    push_head(to, finding_status(finding.what))?;
    push_text_member(to, "file", finding.name.as_str())?;
    Ok(())
}

// Appends the numbers of the object that are known.
#[tactic(auto, unfolding(crate::specs::Listed::finding_numbers))]
fn push_finding_numbers(
    alloc: Global,
    to: &mut Vec<u8>,
    finding: &Finding,
) -> Result<(), AllocError>
    ensures { OnOk result (to.new.items ≡ to.old.items ++ finding_numbers (said finding.now)) }
{
    push_value(alloc, to, "number", finding.number)?;
    push_value(alloc, to, "listed", finding.listed)?;
    Ok(())
}

// The status of the object of a finding.
fn finding_status(what: What) -> &'static str
    ensures { result.now ≡ finding_status what }
{
    match what {
        What::Missing => "missing",
        What::OtherNumber => "other_number",
        What::NotListed => "not_listed",
    }
}

// Appends a member with a number, if there is one.
fn push_value(
    alloc: Global,
    to: &mut Vec<u8>,
    name: &str,
    value: Option<u32>,
) -> Result<(), AllocError>
    ensures { OnOk result (to.new.items ≡ to.old.items ++ value_member name.now value) }
{
    let Some(value) = value else {
        return Ok(());
    };
    let digits = format!(in alloc; "{value}")?;
    push_number(to, name, digits.as_str())
}
