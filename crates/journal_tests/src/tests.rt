//! Runs of the plain ledger. The expected values were derived by hand from the rules in docs/FORMATS.md.
//!
//! Functions over borrowed values hold what a test calls and compares. They return whether all was as expected.

use io_core::{FromRead, ToWrite};
use io_memory::{FromMemory, Schedule, ToMemory};
use journal_core::{
    AuditFault, BadRange, Book, BookFault, Device, Range, Tally, Verdict, Way, audit, prefix,
};
use std::alloc::{AllocError, Global};
use std::fmt::Display;
use std::io;
use std::io::{ErrorKind, Read, Write};
use std::test::*;

static JOURNAL: &str = "range 1 7 2 2\n0 issue 7\n1 issue 8\n0 issue none\n1 sealed 8\n0 void 7\n";

// The line that its audit writes.
static LINE: &[u8] = b"legal: 2 granted, 1 sealed, 1 void, 0 open, 1 refused\n";

// The only refused allocation is the one that the test run injects, so the second call succeeds. A call that is refused
// memory must leave the counts unchanged.

// A book whose two seats share the numbers 7 and 8 of device 1.
fn new_book(alloc: Global) -> Option<Book> {
    let range = Range::new(Device::new(1)?, 7, 2).ok()?;
    match Book::new(alloc, range, 2) {
        Err(BookFault::OutOfMemory) => Book::new(alloc, range, 2).ok(),
        book => book.ok(),
    }
}

// Whether the seat's call returns `answer`.
fn issues(book: &mut Book, seat: u32, answer: Result<u32, BookFault>) -> bool {
    let before = book.tally();
    let issued = book.issue(seat);
    if issued == Err(BookFault::OutOfMemory) {
        return book.tally() == before && book.issue(seat) == answer;
    }
    issued == answer
}

fn settles(
    book: &mut Book,
    seat: u32,
    number: u32,
    way: Way,
    answer: Result<(), BookFault>,
) -> bool {
    let before = book.tally();
    let settled = book.settle(seat, number, way);
    if settled == Err(BookFault::OutOfMemory) {
        return book.tally() == before && book.settle(seat, number, way) == answer;
    }
    settled == answer
}

fn text_of(alloc: Global, book: &Book) -> Result<String, AllocError> {
    match book.journal().text(alloc) {
        Err(_) => book.journal().text(alloc),
        text => text,
    }
}

fn has_text(alloc: Global, fault: impl Display + Drop, text: &str) -> Result<bool, AllocError> {
    Ok(format!(in alloc; "{fault}")?.as_str() == text)
}

// Whether a file of this device and number has this prefix.
fn has_prefix(device: u32, number: u32, want: [u8; 7]) -> bool {
    match Device::new(device) {
        Some(made) => made.number() == device && prefix(made, number) == want,
        None => false,
    }
}

#[test]
fn a_prefix_is_device_and_number_in_big_endian_bytes(rt: HostRuntime) {
    assert!(rt; has_prefix(1, 258, [0, 0, 1, 0, 0, 1, 2]));
    assert!(rt; has_prefix(16_777_215, 4_294_967_295, [255; 7]));
    assert!(rt; Device::new(16_777_216).is_none());
}

// First numbers and sizes, and whether they make a range.
static RANGES: [(u32, u32, bool); 8] = [
    (0, 0, false),
    (0, 1, true),
    (0, 65_535, true),
    (0, 65_536, false),
    (4_294_967_295, 1, true),
    (4_294_967_295, 2, false),
    (4_294_901_761, 65_535, true),
    (4_294_901_762, 65_535, false),
];

fn is_told(range: Range) -> bool {
    range.device().number() == 1 && range.lo() == 7 && range.size() == 2
}

#[test]
fn ranges_end_at_the_last_number(rt: HostRuntime) {
    let device = Device::new(1).expect(&rt, "a device");
    for (lo, size, good) in &RANGES {
        let made = Range::new(device, *lo, *size).is_ok();
        assert!(rt; made == *good, "{size} from {lo}");
    }
    let range = Range::new(device, 7, 2).expect(&rt, "a range");
    assert!(rt; is_told(range));
}

// Whether seat 0 issues 7 and seat 1 issues 8, and then seat 0 has no number left. Calls that name another seat are
// refused.
fn issues_7_and_8(book: &mut Book) -> bool {
    issues(book, 2, Err(BookFault::BadSeats))
        && issues(book, 0, Ok(7))
        && issues(book, 1, Ok(8))
        && issues(book, 0, Err(BookFault::Exhausted))
        && issues(book, 0, Err(BookFault::SeatClosed))
}

// Whether seat 1 settles 8. Calls that name another seat, or a number that isn't open, are refused.
fn settles_8(book: &mut Book) -> bool {
    settles(book, 2, 7, Way::Sealed, Err(BookFault::BadSeats))
        && settles(book, 1, 7, Way::Sealed, Err(BookFault::NotOpen))
        && settles(book, 1, 8, Way::Sealed, Ok(()))
        && settles(book, 1, 8, Way::Void, Err(BookFault::NotOpen))
}

// Whether 2 are granted, 1 refused and 1 sealed, and seat 0 then settles 7 as void.
fn settles_7(book: &mut Book) -> bool {
    let tally = Tally {
        granted: 2,
        refused: 1,
        sealed: 1,
        void: 0,
    };
    book.tally() == tally && settles(book, 0, 7, Way::Void, Ok(()))
}

fn has_journal(book: &Book) -> bool {
    let journal = book.journal();
    journal.range().lo() == 7 && journal.seats() == 2 && journal.entries().len() == 5
}

fn shares_and_refuses(book: &mut Book) -> bool {
    issues_7_and_8(book) && settles_8(book) && settles_7(book) && has_journal(book)
}

fn new_writer(alloc: Global) -> Result<ToMemory, AllocError> {
    match ToMemory::new(alloc, 100, 100, Schedule::Never) {
        Err(_) => ToMemory::new(alloc, 100, 100, Schedule::Never),
        writer => writer,
    }
}

fn audit_of(alloc: Global, text: &str, writer: &mut ToMemory) -> Result<Verdict, AuditFault> {
    let mut reader = FromMemory::new(text.as_bytes(), 100, Schedule::Never);
    audit(alloc, &mut reader, writer)
}

// Whether the journal is legal. If the audit is refused memory, it must have written nothing.
fn audits_as_legal(alloc: Global, text: &str) -> Result<bool, AllocError> {
    let mut writer = new_writer(alloc)?;
    let mut answer = audit_of(alloc, text, &mut writer);
    if answer == Err(AuditFault::OutOfMemory) && writer.bytes().is_empty() {
        answer = audit_of(alloc, text, &mut writer);
    }
    Ok(answer.is_ok() && writer.bytes() == LINE)
}

// Whether the journal has its text, and that text is legal.
fn has_legal_text(alloc: Global, book: &Book) -> Result<bool, AllocError> {
    let text = text_of(alloc, book)?;
    Ok(text.as_str() == JOURNAL && audits_as_legal(alloc, text.as_str())?)
}

// Two seats share a range, and their journal is legal. Each call that is refused memory is repeated
// (tools/refused_tests.py).
#[test]
fn a_refused_growth_changes_nothing(rt: HostRuntime) -> Result<(), AllocError> {
    let mut book = new_book(rt.alloc()).expect(&rt, "a book");
    assert!(rt; shares_and_refuses(&mut book));
    assert!(rt; has_legal_text(rt.alloc(), &book)?);
    Ok(())
}

// Whether a book with this number of seats can be made.
fn has_book(alloc: Global, range: Range, seats: u32) -> bool {
    Book::new(alloc, range, seats).is_ok()
}

#[test]
fn books_have_1_to_64_seats(rt: HostRuntime) -> Result<(), Fail> {
    let device = Device::new(1).expect(&rt, "a device");
    let range = Range::new(device, 0, 1)?;
    assert!(rt; !has_book(rt.alloc(), range, 0));
    assert!(rt; has_book(rt.alloc(), range, 1));
    assert!(rt; has_book(rt.alloc(), range, 64));
    assert!(rt; !has_book(rt.alloc(), range, 65));
    Ok(())
}

// Whether the audit of the journal with this reader and writer returns `answer` and writes `written`.
fn audits_as(
    alloc: Global,
    mut reader: FromMemory,
    mut writer: ToMemory,
    answer: Result<Verdict, AuditFault>,
    written: &[u8],
) -> bool {
    audit(alloc, &mut reader, &mut writer) == answer && writer.bytes() == written
}

#[test]
fn the_audit_of_a_book_is_legal(rt: HostRuntime) -> Result<(), Fail> {
    let reader = FromMemory::new(JOURNAL.as_bytes(), 1, Schedule::Never);
    let writer = ToMemory::new(rt.alloc(), 100, 1, Schedule::Never)?;
    let tally = Tally {
        granted: 2,
        refused: 1,
        sealed: 1,
        void: 1,
    };
    let answer = Ok(Verdict::Legal(tally));
    assert!(rt; audits_as(rt.alloc(), reader, writer, answer, LINE));
    Ok(())
}

fn fails_at_read(alloc: Global, call: u64) -> Result<bool, AllocError> {
    let reader = FromMemory::new(JOURNAL.as_bytes(), 1, Schedule::Call(call));
    let writer = ToMemory::new(alloc, 100, 100, Schedule::Never)?;
    Ok(audits_as(alloc, reader, writer, Err(AuditFault::Read), b""))
}

// Whether the audit fails with a writer that fails after these bytes, and the writer has taken them.
fn fails_after(alloc: Global, taken: &[u8]) -> Result<bool, AllocError> {
    let reader = FromMemory::new(JOURNAL.as_bytes(), 100, Schedule::Never);
    let writer = ToMemory::new(alloc, 100, 3, Schedule::Bytes(taken.len() as u64))?;
    Ok(audits_as(alloc, reader, writer, Err(AuditFault::Write), taken))
}

fn fails_at_each_read(alloc: Global) -> Result<bool, AllocError> {
    for call in 0..JOURNAL.len() as u64 + 1 {
        if !fails_at_read(alloc, call)? {
            return Ok(false);
        }
    }
    Ok(true)
}

fn fails_after_each_byte(alloc: Global, line: &[u8]) -> Result<bool, AllocError> {
    for taken in 0..line.len() {
        if !fails_after(alloc, &line[..taken])? {
            return Ok(false);
        }
    }
    Ok(true)
}

#[test]
fn failing_readers_and_writers_are_named(rt: HostRuntime) -> Result<(), Fail> {
    assert!(rt; fails_at_each_read(rt.alloc())?);
    assert!(rt; fails_after_each_byte(rt.alloc(), LINE)?);
    Ok(())
}

static BOOK_FAULTS: [(BookFault, u32, &str); 5] = [
    (BookFault::Exhausted, 20, "no file number"),
    (BookFault::SeatClosed, 21, "no file number"),
    (BookFault::NotOpen, 22, "number not open"),
    (BookFault::OutOfMemory, 23, "out of memory"),
    (BookFault::BadSeats, 25, "bad seats"),
];

static AUDIT_FAULTS: [(AuditFault, u32, &str); 3] = [
    (AuditFault::OutOfMemory, 23, "out of memory"),
    (AuditFault::Read, 26, "read failed"),
    (AuditFault::Write, 27, "write failed"),
];

#[test]
fn faults_have_their_numbers_and_texts(rt: HostRuntime) -> Result<(), AllocError> {
    for (fault, number, text) in &BOOK_FAULTS {
        let told = has_text(rt.alloc(), *fault, text)?;
        assert!(rt; told && fault.number() == *number, "{text}");
    }
    for (fault, number, text) in &AUDIT_FAULTS {
        let told = has_text(rt.alloc(), *fault, text)?;
        assert!(rt; told && fault.number() == *number, "{text}");
    }
    let told = has_text(rt.alloc(), BadRange, "bad range")?;
    assert!(rt; told && BadRange.number() == 24);
    Ok(())
}

// A reader of nothing, and a writer that takes everything. Its first call fails in this way.
#[derive(Drop)]
struct FirstFails(Option<ErrorKind>);

impl Read for FirstFails {
    fn read(&mut self, _buffer: &mut [u8]) -> io::Result<usize> {
        match self.0.take() {
            Some(kind) => Err(io::Error::from(kind)),
            None => Ok(0),
        }
    }
}

impl Write for FirstFails {
    fn write(&mut self, bytes: &[u8]) -> io::Result<usize> {
        match self.0.take() {
            Some(kind) => Err(io::Error::from(kind)),
            None => Ok(bytes.len()),
        }
    }

    fn flush(&mut self) -> io::Result<()> {
        Ok(())
    }
}

// What the audit returns if its first read or first write fails in these ways.
fn answer_of(
    alloc: Global,
    read: Option<ErrorKind>,
    write: Option<ErrorKind>,
) -> Result<Verdict, AuditFault> {
    let mut reader = FromRead(FirstFails(read));
    let mut writer = ToWrite(FirstFails(write));
    audit(alloc, &mut reader, &mut writer)
}

#[test]
fn an_interrupted_call_is_made_again_and_a_failed_one_is_a_fault(rt: HostRuntime) {
    let alloc = rt.alloc();
    let interrupted = Some(ErrorKind::Interrupted);
    assert!(rt; answer_of(alloc, interrupted, None) == Ok(Verdict::Malformed(1)));
    assert!(rt; answer_of(alloc, None, interrupted) == Ok(Verdict::Malformed(1)));
    let denied = Some(ErrorKind::PermissionDenied);
    assert!(rt; answer_of(alloc, denied, None) == Err(AuditFault::Read));
    assert!(rt; answer_of(alloc, None, denied) == Err(AuditFault::Write));
}
