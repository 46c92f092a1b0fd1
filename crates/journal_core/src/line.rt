//! Parses the lines of a journal: it accepts exactly the lines that `Journal::text` writes.
ghost use Rattle.std.specs.Prelude.{◌≡◌, ℕ, ◌∷◌, ◌++◌, ◌<◌, List, IfSome, IsTrue, MatchOption, Some, ◌↔◌};
ghost use Rattle.std.specs.Fmt.{decimal};
ghost use Rattle.journal_core.specs.History.{Terms, IsLawful};
ghost use Rattle.journal_core.specs.Line.{HasNoSpace};
ghost use Rattle.journal_core.specs.Range.{number_limit};
ghost use Rattle.journal_core.specs.Text.{entry_text, event_text, terms_text, way_text};
ghost use Rattle.journal_core.specs.Verdict.{IsNumberOf32Bits, IsWritable};

use crate::device::Device;
use crate::entry::{Entry, Event, Way};
use crate::range::Range;
use crate::terms::{MAX_SEATS, Terms};

fn is_word(text: &str, word: &str) -> bool
    ensures { IsTrue result ↔ (text.now ≡ word.now) }
{
    text == word
}

// Parses a decimal number below 2^32 without leading zeros.
fn number(text: &str) -> Option<u32>
    ensures sound { IfSome result (λ n. text.now ≡ decimal n) }
    ensures complete { (n : ℕ) → n < number_limit → text.now ≡ decimal n → result ≡ Some n }
{
    let bytes = text.as_bytes();
    if bytes.is_empty() {
        return None;
    }
    let first = bytes[0];
    if first == b'+' {
        return None;
    }
    if first == b'0' && bytes.len() > 1 {
        return None;
    }
    text.parse().ok()
}

// Splits the text at its first space: the word before it, and what follows.
fn word_then(text: &str) -> Option<(&str, &str)>
    ensures sound { IfSome result (λ r. text.now ≡ r.0.now ++ 32 ∷ r.1.now) }
    ensures complete { (word rest : List ℕ) → HasNoSpace word → text.now ≡ word ++ 32 ∷ rest
        → MatchOption result ⊥ (λ r. (r.0.now ≡ word) × (r.1.now ≡ rest)) }
{
    text.split_once(' ')
}

// Splits off a leading number and the space after it.
fn number_then(text: &str) -> Option<(u32, &str)>
    ensures sound { IfSome result (λ r. text.now ≡ decimal r.0 ++ 32 ∷ r.1.now) }
    ensures complete { (n : ℕ) (rest : List ℕ) → n < number_limit → text.now ≡ decimal n ++ 32 ∷ rest
        → MatchOption result ⊥ (λ r. (r.0 ≡ n) × (r.1.now ≡ rest)) }
{
    let (word, rest) = word_then(text)?;
    let n = number(word)?;
    Some((n, rest))
}

// Parses the event of an entry line.
fn event_in(text: &str) -> Option<Event>
    ensures sound { IfSome result (λ event. IsNumberOf32Bits event × (text.now ≡ event_text event)) }
    ensures complete { (event : Event) → IsNumberOf32Bits event → text.now ≡ event_text event → result ≡ Some event }
{
    let (word, rest) = word_then(text)?;
    if is_word(word, "issue") {
        if is_word(rest, "none") {
            return Some(Event::Exhausted);
        }
        let n = number(rest)?;
        return Some(Event::Granted(n));
    }
    let way = way_in(word)?;
    let n = number(rest)?;
    Some(Event::Settled(n, way))
}

fn way_in(word: &str) -> Option<Way>
    ensures sound { IfSome result (λ way. word.now ≡ way_text way) }
    ensures complete { (way : Way) → word.now ≡ way_text way → result ≡ Some way }
{
    if is_word(word, "sealed") {
        Some(Way::Sealed)
    } else if is_word(word, "void") {
        Some(Way::Void)
    } else {
        None
    }
}

// Parses an entry line. Returns `None` for any other line.
pub(crate) fn entry_in(line: &str) -> Option<Entry>
    ensures sound { IfSome result (λ e. IsWritable e × (line.now ≡ entry_text e)) }
    ensures complete { (e : Entry) → IsWritable e → line.now ≡ entry_text e → result ≡ Some e }
{
    let (seat, text) = number_then(line)?;
    let event = event_in(text)?;
    if seat >= MAX_SEATS {
        return None;
    }
    Some(Entry { seat, event })
}

// Parses a range line: the range and the number of seats. Returns `None` for any other line.
pub(crate) fn terms_in(line: &str) -> Option<Terms>
    ensures sound { IfSome result (λ terms. IsLawful terms × (line.now ≡ terms_text terms)) }
    ensures complete { (terms : Terms) → IsLawful terms → line.now ≡ terms_text terms → result ≡ Some terms }
{
    let (word, rest) = word_then(line)?;
    if !is_word(word, "range") {
        return None;
    }
    let (device, rest) = number_then(rest)?;
    let (lo, rest) = number_then(rest)?;
    let (size, rest) = number_then(rest)?;
    let seats = number(rest)?;
    let device = Device::new(device)?;
    let range = Range::new(device, lo, size).ok()?;
    if seats == 0 || seats > MAX_SEATS {
        return None;
    }
    Some(Terms { range, seats })
}
