//! The words of the command line as the parser takes them: a value such as `20G`, `max` or `auto` is written in digits.
//! All other words stay, so that only the parser reports which are at fault, and how.
ghost use Rattle.std.specs.Prelude.{◌≡◌, ◌<◌, ◌≤◌, ◌^◌, ◌==◌, OnOk, IfOk, IfSome, map, option_map, unwrap_or, string_bytes};
ghost use Rattle.std.specs.List.{before_first, list_any};
ghost use Rattle.command_line.specs.Words.{asks, inline_number, most_bytes, scaled, shorthand_of, stands_for, unit_of};
ghost use Rattle.command_line.specs.Words.{word_read, written_out};

use claim_core::MAX_WORKERS;
use container_core::{MAX_OPENED, MAX_PLAIN};
use std::alloc::{AllocError, Global};

/// What the value of an option may be besides a number.
#[derive(Clone, Copy)]
pub enum Shorthand {
    /// A number with a letter, and `max` for this greatest one.
    Limit(u64),
    /// `auto`.
    Processors,
    /// Nothing.
    Nothing,
}

/// Writes in digits the values that denote a number. For `--max-bytes` and `--max-chunks` these are `max` and a number
/// with K, M, G or T after it, for powers of 1,024. For `--workers` and `--lanes` it is `auto`: the number of
/// processors, from 1 to 16.
pub fn write_out(
    alloc: Global,
    words: &mut Vec<String>,
    processors: usize,
) -> Result<(), AllocError>
    ensures { OnOk result (map string_bytes words.new.items ≡ written_out processors (map string_bytes words.old.items)) }
{
    let Some(command) = words.get(1) else {
        return Ok(());
    };
    let most = most_bytes(command.as_str());
    let mut before = Shorthand::Nothing;
    'words: for i in 2..words.len() {
        let word = words[i].as_str();
        if word == "--" {
            return Ok(());
        }
        let takes = shorthand_of(most, word);
        let read = word_read(alloc, processors, most, before, word)?;
        if let Some(text) = read {
            words[i] = text;
        }
        before = takes;
    }
    Ok(())
}

/// Returns whether a word asks for the number of processors: it is `auto`, or ends in `=auto`.
pub fn asks_for_processors(words: &[String]) -> bool
    ensures { result ≡ list_any (λ word. asks (string_bytes word)) words.now }
{
    words.iter().any(|word| asks(word.as_str()))
}

// Whether this word does.
fn asks(word: &str) -> bool
    ensures { result ≡ asks word.now }
{
    word == "auto" || word.ends_with("=auto")
}

// The greatest of --max-bytes.
#[tactic(auto, unfolding(crate::specs::Words::most_bytes))]
fn most_bytes(command: &str) -> u64
    ensures { result ≡ most_bytes command.now }
{
    if command == "seal" {
        MAX_PLAIN
    } else {
        MAX_OPENED
    }
}

// Which shorthand the option of this name has.
#[tactic(auto, unfolding(crate::specs::Words::shorthand_of))]
fn shorthand_of(most: u64, name: &str) -> Shorthand
    ensures { result ≡ shorthand_of most name.now }
{
    match name {
        "--max-bytes" => Shorthand::Limit(most),
        "--max-chunks" => Shorthand::Limit(u32::MAX as u64),
        "--workers" | "--lanes" => Shorthand::Processors,
        _ => Shorthand::Nothing,
    }
}

// What replaces a word, if it doesn't stay as it is.
fn word_read(
    alloc: Global,
    processors: usize,
    most: u64,
    before: Shorthand,
    word: &str,
) -> Result<Option<String>, AllocError>
    ensures { IfOk result (λ read. unwrap_or (option_map string_bytes read) word.now
        ≡ word_read processors most before word.now) }
{
    if let Some((name, number)) = inline_number(processors, most, word) {
        let text = format!(in alloc; "{name}={number}")?;
        return Ok(Some(text));
    }
    match stands_for(processors, before, word) {
        Some(number) => {
            let text = number.to_string(alloc)?;
            Ok(Some(text))
        }
        None => Ok(None),
    }
}

// The name and the number, if a word is an option, an equals sign and a value that denotes a number.
fn inline_number(processors: usize, most: u64, word: &str) -> Option<(&str, u128)>
    ensures number { option_map (λ found. found.1) result ≡ inline_number processors most word.now }
    ensures name { IfSome result (λ found. found.0.now ≡ before_first (λ b. b == 61) word.now) }
{
    let Some((name, value)) = word.split_once('=') else {
        return None;
    };
    match stands_for(processors, shorthand_of(most, name), value) {
        Some(number) => Some((name, number)),
        None => None,
    }
}

// The number that a value denotes.
#[tactic(auto, unfolding(crate::specs::Words::stands_for))]
fn stands_for(processors: usize, takes: Shorthand, value: &str) -> Option<u128>
    ensures { result ≡ stands_for processors takes value.now }
{
    match takes {
        Shorthand::Limit(most) if value == "max" => Some(u128::from(most)),
        Shorthand::Limit(_) => scaled(value),
        Shorthand::Processors if value == "auto" => {
            Some(processors.min(MAX_WORKERS as usize).max(1) as u128)
        }
        _ => None,
    }
}

// What a number with a letter after it denotes.
fn scaled(text: &str) -> Option<u128>
    ensures { result ≡ scaled text.now }
{
    let Some(last) = text.len().checked_sub(1) else {
        return None;
    };
    let Some(unit) = unit_of(text.as_bytes()[last]) else {
        return None;
    };
    let Some((digits, _letter)) = text.split_at_checked(last) else {
        return None;
    };
    match digits.parse::<u64>() {
        Ok(number) => Some(u128::from(number) * u128::from(unit)),
        Err(_) => None,
    }
}

// What a letter denotes.
fn unit_of(letter: u8) -> Option<u64>
    ensures unit { result ≡ unit_of letter }
    ensures small { IfSome result (λ unit. unit ≤ 2 ^ 40) }
    ensures ascii { IfSome result (λ _. letter < 128) }
{
    match letter {
        b'K' => Some(1 << 10),
        b'M' => Some(1 << 20),
        b'G' => Some(1 << 30),
        b'T' => Some(1 << 40),
        _ => None,
    }
}
