//! A line's parts. They are found from the line's ends, so a name may have spaces, line feeds, and words of the grammar:
//!
//!     sealed NAME file DIGITS bytes DIGITS          kept NAME
//!     opened NAME bytes DIGITS                      failed NAME: FAULT          (FAULT has no colon)
//!     good NAME bytes DIGITS                        and perhaps, after a line feed, the facts:
//!       version DIGITS chunk DIGITS device DIGITS file DIGITS label "LABEL"     (LABEL has no quote; it may be left out)
//!     key ID device DIGITS ranges DIGITS given DIGITS left DIGITS
//!     legal: DIGITS granted, DIGITS sealed, DIGITS void, DIGITS open, DIGITS refused
//!     malformed line DIGITS                         illegal line DIGITS
//!     unchecked NAME version DIGITS chunk DIGITS key ID device DIGITS file DIGITS bytes DIGITS label "LABEL"
//!                                                   (`?` in place of the last DIGITS; the label may be left out)
//!     key ID no ranges                              ledger: older than NAME
//!     not sealed NAME                               missing file DIGITS
ghost use Rattle.std.specs.Prelude.{◌≡◌, ◌++◌, ◌∷◌, [], IfSome, codes, true};
ghost use Rattle.line_core.specs.Messages.{AreDigits, printed_bytes, printed_facts, printed_label, message_text};

/// What the second line of a good container says: digits, and the label between its quotes.
#[derive(Clone, Copy)]
pub struct PrintedFacts<'a> {
    pub version: &'a str,
    pub chunk: &'a str,
    pub device: &'a str,
    pub number: &'a str,
    pub label: Option<&'a str>,
}

/// The parts of a line. Numbers are digits.
#[derive(Clone, Copy)]
pub enum Message<'a> {
    Sealed {
        name: &'a str,
        number: &'a str,
        bytes: &'a str,
    },
    Kept {
        name: &'a str,
    },
    Opened {
        name: &'a str,
        bytes: &'a str,
    },
    Good {
        name: &'a str,
        bytes: &'a str,
    },
    /// Good, with the second line.
    Shown {
        name: &'a str,
        bytes: &'a str,
        facts: PrintedFacts<'a>,
    },
    Failed {
        name: &'a str,
        fault: &'a str,
    },
    /// What a ledger holds of one key and device.
    Held {
        key: &'a str,
        device: &'a str,
        ranges: &'a str,
        given: &'a str,
        left: &'a str,
    },
    /// A legal journal.
    Legal {
        granted: &'a str,
        sealed: &'a str,
        void: &'a str,
        open: &'a str,
        refused: &'a str,
    },
    /// A journal of which this line is malformed.
    Malformed {
        line: &'a str,
    },
    /// A journal of which this line is illegal.
    Illegal {
        line: &'a str,
    },
    /// What a header says that nothing has checked. The bytes are those of the plaintext, if they are known.
    Unchecked {
        name: &'a str,
        key: &'a str,
        bytes: Option<&'a str>,
        facts: PrintedFacts<'a>,
    },
    /// A key of which a ledger has no range.
    Unused {
        key: &'a str,
    },
    /// A container than which a ledger is older.
    Older {
        name: &'a str,
    },
    /// A container whose number a journal doesn't settle as sealed.
    NotSealed {
        name: &'a str,
    },
    /// A number that a journal settles as sealed, and that no container has.
    Missing {
        number: &'a str,
    },
}

/// Returns the parts of a line, which is given without the line feed at its end. `None` if it is no line of a command.
pub fn message_of(text: &str) -> Option<Message<'_>>
    ensures { IfSome result (λ message. message_text message ≡ text.now) }
{
    let (status, rest) = cut_first(text, " ")?;
    match status {
        "sealed" => sealed_of(rest),
        "kept" => Some(Message::Kept { name: rest }),
        "opened" => opened_of(rest),
        "good" => good_of(rest),
        "failed" => failed_of(rest),
        "key" => key_line_of(rest),
        "legal:" => legal_of(rest),
        "malformed" => malformed_of(rest),
        "illegal" => illegal_of(rest),
        "unchecked" => unchecked_of(rest),
        "ledger:" => older_of(rest),
        "not" => not_sealed_of(rest),
        "missing" => missing_of(rest),
        _ => None,
    }
}

// The text before the first place of a word, and after it.
fn cut_first<'a>(text: &'a str, word: &str) -> Option<(&'a str, &'a str)>
    ensures { IfSome result (λ cut. text.now ≡ cut.0.now ++ word.now ++ cut.1.now) }
{
    text.split_once(word)
}

// The text before the last place of a word, and after it.
fn cut_last<'a>(text: &'a str, word: &str) -> Option<(&'a str, &'a str)>
    ensures { IfSome result (λ cut. text.now ≡ cut.0.now ++ word.now ++ cut.1.now) }
{
    text.rsplit_once(word)
}

// The text before the last place of a word, and the digits after it, to the text's end.
fn digits_after<'a>(text: &'a str, word: &str) -> Option<(&'a str, &'a str)>
    ensures cut { IfSome result (λ cut. text.now ≡ cut.0.now ++ word.now ++ cut.1.now) }
    ensures digits { IfSome result (λ cut. AreDigits cut.1.now) }
{
    match cut_last(text, word) {
        Some((front, digits)) if are_digits(digits) => Some((front, digits)),
        _ => None,
    }
}

// The digits before the first place of a word, from the text's beginning, and the text after it.
fn digits_before<'a>(text: &'a str, word: &str) -> Option<(&'a str, &'a str)>
    ensures cut { IfSome result (λ cut. text.now ≡ cut.0.now ++ word.now ++ cut.1.now) }
    ensures digits { IfSome result (λ cut. AreDigits cut.0.now) }
{
    match cut_first(text, word) {
        Some((digits, rest)) if are_digits(digits) => Some((digits, rest)),
        _ => None,
    }
}

// Whether a text is digits, at least one.
fn are_digits(text: &str) -> bool
    ensures { result ≡ true → AreDigits text.now }
{
    if text.is_empty() {
        return false;
    }
    let mut rest = text.as_bytes();
    'bytes: while let Some((first, more)) = rest.split_first() {
        if !first.is_ascii_digit() {
            return false;
        }
        rest = more;
    }
    true
}

fn sealed_of(rest: &str) -> Option<Message<'_>>
    ensures { IfSome result (λ message. message_text message ≡ codes "sealed " ++ rest.now) }
{
    let (front, bytes) = digits_after(rest, " bytes ")?;
    let (name, number) = digits_after(front, " file ")?;
    Some(Message::Sealed {
        name,
        number,
        bytes,
    })
}

fn opened_of(rest: &str) -> Option<Message<'_>>
    ensures { IfSome result (λ message. message_text message ≡ codes "opened " ++ rest.now) }
{
    let (name, bytes) = digits_after(rest, " bytes ")?;
    Some(Message::Opened { name, bytes })
}

fn good_of(rest: &str) -> Option<Message<'_>>
    ensures { IfSome result (λ message. message_text message ≡ codes "good " ++ rest.now) }
{
    match shown_of(rest) {
        Some(message) => Some(message),
        None => match digits_after(rest, " bytes ") {
            Some((name, bytes)) => Some(Message::Good { name, bytes }),
            None => None,
        },
    }
}

fn shown_of(rest: &str) -> Option<Message<'_>>
    ensures { IfSome result (λ message. message_text message ≡ codes "good " ++ rest.now) }
{
    let (line, told) = cut_last(rest, "\n  version ")?;
    let (name, bytes) = digits_after(line, " bytes ")?;
    let facts = printed_facts_of(told)?;
    Some(Message::Shown { name, bytes, facts })
}

// The facts, from the version on.
fn printed_facts_of(told: &str) -> Option<PrintedFacts<'_>>
    ensures { IfSome result (λ facts. printed_facts facts ≡ told.now) }
{
    match cut_first(told, " label \"") {
        None => numbers_of(told, None),
        Some((numbers, rest)) => match cut_last(rest, "\"") {
            Some((label, "")) => numbers_of(numbers, Some(label)),
            _ => None,
        },
    }
}

// The facts before a label.
fn numbers_of<'a>(numbers: &'a str, label: Option<&'a str>) -> Option<PrintedFacts<'a>>
    ensures numbers { IfSome result (λ facts. facts.version.now ++ codes " chunk " ++ facts.chunk.now
        ++ codes " device " ++ facts.device.now ++ codes " file " ++ facts.number.now ≡ numbers.now) }
    ensures label { IfSome result (λ facts. facts.label ≡ label.entry) }
{
    let (front, number) = digits_after(numbers, " file ")?;
    let (front, device) = digits_after(front, " device ")?;
    let (version, chunk) = digits_after(front, " chunk ")?;
    if !are_digits(version) {
        return None;
    }
    Some(PrintedFacts {
        version,
        chunk,
        device,
        number,
        label,
    })
}

fn failed_of(rest: &str) -> Option<Message<'_>>
    ensures { IfSome result (λ message. message_text message ≡ codes "failed " ++ rest.now) }
{
    let (name, fault) = cut_last(rest, ": ")?;
    Some(Message::Failed { name, fault })
}

fn key_line_of(rest: &str) -> Option<Message<'_>>
    ensures { IfSome result (λ message. message_text message ≡ codes "key " ++ rest.now) }
{
    match cut_last(rest, " no ranges") {
        Some((key, "")) => Some(Message::Unused { key }),
        _ => held_of(rest),
    }
}

fn held_of(rest: &str) -> Option<Message<'_>>
    ensures { IfSome result (λ message. message_text message ≡ codes "key " ++ rest.now) }
{
    let (front, left) = digits_after(rest, " left ")?;
    let (front, given) = digits_after(front, " given ")?;
    let (front, ranges) = digits_after(front, " ranges ")?;
    let (key, device) = digits_after(front, " device ")?;
    Some(Message::Held {
        key,
        device,
        ranges,
        given,
        left,
    })
}

fn legal_of(rest: &str) -> Option<Message<'_>>
    ensures { IfSome result (λ message. message_text message ≡ codes "legal: " ++ rest.now) }
{
    let (granted, rest) = digits_before(rest, " granted, ")?;
    let (sealed, rest) = digits_before(rest, " sealed, ")?;
    let (void, rest) = digits_before(rest, " void, ")?;
    let (open, rest) = digits_before(rest, " open, ")?;
    match digits_before(rest, " refused") {
        Some((refused, "")) => Some(Message::Legal {
            granted,
            sealed,
            void,
            open,
            refused,
        }),
        _ => None,
    }
}

fn malformed_of(rest: &str) -> Option<Message<'_>>
    ensures { IfSome result (λ message. message_text message ≡ codes "malformed " ++ rest.now) }
{
    match digits_after(rest, "line ") {
        Some(("", line)) => Some(Message::Malformed { line }),
        _ => None,
    }
}

fn illegal_of(rest: &str) -> Option<Message<'_>>
    ensures { IfSome result (λ message. message_text message ≡ codes "illegal " ++ rest.now) }
{
    match digits_after(rest, "line ") {
        Some(("", line)) => Some(Message::Illegal { line }),
        _ => None,
    }
}

fn unchecked_of(rest: &str) -> Option<Message<'_>>
    ensures { IfSome result (λ message. message_text message ≡ codes "unchecked " ++ rest.now) }
{
    match labelled_in(rest) {
        Some((line, label)) => header_of(line, Some(label)),
        None => header_of(rest, None),
    }
}

// The text before the label at a text's end, and the label.
fn labelled_in(text: &str) -> Option<(&str, &str)>
    ensures { IfSome result (λ cut. text.now ≡ cut.0.now ++ codes " label \"" ++ cut.1.now ++ codes "\"") }
{
    match cut_last(text, "\"") {
        Some((front, "")) => cut_last(front, " label \""),
        _ => None,
    }
}

// The parts of what a header says, before a label.
fn header_of<'a>(line: &'a str, label: Option<&'a str>) -> Option<Message<'a>>
    ensures { IfSome result (λ message. message_text message
        ≡ codes "unchecked " ++ line.now ++ printed_label label.entry) }
{
    let (front, bytes) = bytes_after(line)?;
    let (front, number) = digits_after(front, " file ")?;
    let (front, device) = digits_after(front, " device ")?;
    let (front, key) = cut_last(front, " key ")?;
    let (front, chunk) = digits_after(front, " chunk ")?;
    let (name, version) = digits_after(front, " version ")?;
    let facts = PrintedFacts {
        version,
        chunk,
        device,
        number,
        label,
    };
    Some(Message::Unchecked {
        name,
        key,
        bytes,
        facts,
    })
}

// The text before the bytes at a text's end, and their digits, or `None` where there is a question mark.
fn bytes_after(text: &str) -> Option<(&str, Option<&str>)>
    ensures { IfSome result (λ cut. text.now ≡ cut.0.now ++ codes " bytes " ++ printed_bytes cut.1) }
{
    match cut_last(text, " bytes ") {
        Some((front, "?")) => Some((front, None)),
        Some((front, bytes)) if are_digits(bytes) => Some((front, Some(bytes))),
        _ => None,
    }
}

fn older_of(rest: &str) -> Option<Message<'_>>
    ensures { IfSome result (λ message. message_text message ≡ codes "ledger: " ++ rest.now) }
{
    match cut_first(rest, "older than ") {
        Some(("", name)) => Some(Message::Older { name }),
        _ => None,
    }
}

fn not_sealed_of(rest: &str) -> Option<Message<'_>>
    ensures { IfSome result (λ message. message_text message ≡ codes "not " ++ rest.now) }
{
    match cut_first(rest, "sealed ") {
        Some(("", name)) => Some(Message::NotSealed { name }),
        _ => None,
    }
}

fn missing_of(rest: &str) -> Option<Message<'_>>
    ensures { IfSome result (λ message. message_text message ≡ codes "missing " ++ rest.now) }
{
    match digits_after(rest, "file ") {
        Some(("", number)) => Some(Message::Missing { number }),
        _ => None,
    }
}
