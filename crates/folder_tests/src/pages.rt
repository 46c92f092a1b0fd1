//! What a folder in memory holds: its entries, and what the output in hand took.
ghost use Rattle.std.specs.Prelude.{◌≡◌, ◌⊎◌, ◌++◌, ℕ, true, false, Some, None, [], length, IfOk, OnErr, IfSome, map};
ghost use Rattle.std.specs.Prelude.{MatchOption, is_err, not};
ghost use Rattle.io_core.specs.Streams.{counted};
ghost use Rattle.folder_core.specs.Record as run;
ghost use Rattle.folder_core.specs.Changes.{allowed, change, changed, closed_at, new_output, set_closed, set_content};
ghost use Rattle.folder_core.specs.Changes.{Becomes, IsFresh, IsKept, started};
ghost use Rattle.folder_tests.specs.Memory.{IsClosing, Notes, entry_of, record_of, rest_of, state_of, under_of};

use crate::keyed::KeyNote;
use crate::note::{ContentNote, Naming};
use container_core::Key;
use folder_core::FolderFault;
use io_core::Failed;
use ledger_core::Ledger;
use std::alloc::Global;

/// The state of an output.
#[derive(Clone, Copy, PartialEq, Eq)]
pub enum Mark {
    Open,
    Finished,
    GivenUp,
}

/// An output.
#[derive(Drop)]
pub struct File {
    pub(crate) name: String,
    pub(crate) bytes: Vec<u8>,
    pub(crate) failures: u64,
    pub(crate) mark: Mark,
    pub(crate) note: ContentNote,
}

/// What happened.
#[derive(Drop)]
pub enum MemoryEntry {
    Read(String, Vec<u8>),
    Unread(String),
    Repeated(String, Vec<u8>),
    Unrepeated(String),
    Closed(String, u64),
    Refused(String, FolderFault),
    Created(File),
}

/// How many calls of each kind succeed before all of that kind fail, and whether files can be read again.
#[derive(Clone, Copy)]
pub struct Limits {
    /// Writes to outputs.
    pub writes: u64,
    /// Ends of outputs.
    pub ends: u64,
    /// Reads of one open file, over all its readings.
    pub reads: u64,
    /// Calls that set a file back to its first byte.
    pub turns: u64,
    /// Whether a file says that it can be set back.
    pub can_repeat: bool,
}

/// The key and range of a run's containers.
#[derive(Drop)]
pub enum Under {
    /// There are none yet.
    Unkeyed,
    /// This key, and the numbers of this device: the first, and how many.
    Fixed([u8; 32], u32, u32, u32),
    /// A call gave them.
    Given(KeyNote),
}

/// A file that was there before the run.
#[derive(Drop)]
pub struct Input {
    name: String,
    bytes: Vec<u8>,
}

/// Key and range, the files that were there, what happened so far (unless that was forgotten), what the output in hand
/// took, and how many writes to it failed, if that is known.
#[derive(Drop)]
pub struct Pages {
    pub(crate) alloc: Global,
    pub(crate) under: Under,
    pub(crate) inputs: Vec<Input>,
    pub(crate) told: bool,
    pub(crate) entries: Vec<MemoryEntry>,
    pub(crate) in_hand: Option<usize>,
    pub(crate) taken: Vec<u8>,
    pub(crate) failures: Option<u64>,
    pub(crate) limits: Limits,
}

impl MemoryEntry {
    // If it is an output, it may have the content that is named.
    fn hold<N: Naming>(&mut self)
        ensures { entry_of self.new ≡ changed (set_content N.content) (entry_of self.old) }
    {
        if let MemoryEntry::Created(file) = self {
            file.note.set::<N>();
        }
    }

    // If it is an output, it is closed with these bytes, after so many failed writes.
    fn shut(&mut self, bytes: Vec<u8>, failures: u64, mark: Mark)
        ensures { entry_of self.new ≡ changed (set_closed (state_of mark) bytes.items failures) (entry_of self.old) }
    {
        if let MemoryEntry::Created(file) = self {
            file.bytes = bytes;
            file.failures = failures;
            file.mark = mark;
        }
    }
}

impl Pages {
    pub(crate) fn new(alloc: Global, under: Under) -> Pages
        ensures told { result.told ≡ true }
        ensures under { result.under ≡ under }
        ensures empty { map entry_of result.entries.items ≡ [] }
        ensures idle { result.in_hand ≡ None }
        ensures taken { result.taken.items ≡ [] }
        ensures failures { result.failures ≡ Some 0 }
        ensures rest { rest_of result
            ≡ Some (record { under = under_of under; entries = []; in_hand = None }) }
    {
        Pages {
            alloc,
            under,
            inputs: Vec::new(alloc),
            told: true,
            entries: Vec::new(alloc),
            in_hand: None,
            taken: Vec::new(alloc),
            failures: Some(0),
            limits: Limits {
                writes: u64::MAX,
                ends: u64::MAX,
                reads: u64::MAX,
                turns: u64::MAX,
                can_repeat: true,
            },
        }
    }

    // One more entry, if there was memory for it. Else all is forgotten.
    pub(crate) fn tell(&mut self, entry: Option<MemoryEntry>)
        ensures told { Notes entry (rest_of self.old) (rest_of self.new) }
        ensures taken { self.new.taken ≡ self.old.taken }
        ensures failures { self.new.failures ≡ self.old.failures }
    {
        self.told = match entry {
            Some(entry) => self.told && self.entries.push(entry).is_ok(),
            None => false,
        };
    }

    // The output at this place is in hand, with the content that is named. It took nothing; if all was forgotten, what was
    // taken before counts on.
    pub(crate) fn allow<N: Naming>(&mut self, place: usize)
        ensures told { self.new.told ≡ self.old.told }
        ensures allowed { record_of self.new ≡ allowed place N.content (record_of self.old) }
        ensures fresh { IsFresh (rest_of self.new) (Some self.new.taken.items) self.new.failures }
        ensures kept { IsKept (rest_of self.new) (Some self.old.taken.items) (Some self.new.taken.items)
            self.old.failures self.new.failures }
    {
        hold::<N>(&mut self.entries, place);
        self.in_hand = Some(place);
        if self.told {
            self.taken = Vec::new(self.alloc);
            self.failures = Some(0);
        }
    }

    // One more call failed of those that write the output in hand.
    fn fail(&mut self)
        ensures rest { rest_of self.new ≡ rest_of self.old }
        ensures taken { self.new.taken.items ≡ self.old.taken.items }
        ensures count { self.new.failures ≡ counted true self.old.failures }
    {
        self.failures = one_more(self.failures);
    }

    // Whether an end succeeds. If not, that is a call that failed.
    pub(crate) fn may_end(&mut self) -> bool
        ensures rest { rest_of self.new ≡ rest_of self.old }
        ensures taken { self.new.taken.items ≡ self.old.taken.items }
        ensures count { self.new.failures ≡ counted (not result) self.old.failures }
    {
        if self.limits.ends == 0 {
            self.fail();
            return false;
        }
        self.limits.ends -= 1;
        true
    }

    // More was taken, unless writes fail by now, or memory is refused.
    pub(crate) fn take(&mut self, bytes: &[u8]) -> Result<usize, Failed>
        ensures rest { rest_of self.new ≡ rest_of self.old }
        ensures ok { IfOk result (λ n. (n ≡ length bytes.now)
            × (self.new.taken.items ≡ self.old.taken.items ++ bytes.now)) }
        ensures err { OnErr result (self.new.taken.items ≡ self.old.taken.items) }
        ensures either { (self.new.taken.items ≡ self.old.taken.items ++ bytes.now)
            ⊎ (self.new.taken.items ≡ self.old.taken.items) }
        ensures count { self.new.failures ≡ counted (is_err result) self.old.failures }
    {
        if self.limits.writes == 0 {
            self.fail();
            return Err(Failed);
        }
        self.limits.writes -= 1;
        match self.taken.extend_from_slice(bytes) {
            Ok(()) => Ok(bytes.len()),
            Err(_) => {
                self.fail();
                Err(Failed)
            }
        }
    }

    // The output at this place is closed, with what was taken. All is forgotten if it isn't known how many writes failed.
    pub(crate) fn close(&mut self, place: usize, mark: Mark)
        ensures told { MatchOption self.old.failures (self.new.told ≡ false) (λ n. self.new.told ≡ self.old.told) }
        ensures closed { (n : ℕ) → self.old.failures ≡ Some n → record_of self.new
            ≡ closed_at place (state_of mark) self.old.taken.items n (record_of self.old) }
        ensures taken { self.new.taken.items ≡ [] }
        ensures failures { self.new.failures ≡ Some 0 }
    {
        let bytes = std::mem::replace(&mut self.taken, Vec::new(self.alloc));
        let failures = match self.failures {
            Some(count) => count,
            None => {
                self.told = false;
                0
            }
        };
        shut(&mut self.entries, place, bytes, failures, mark);
        self.in_hand = None;
        self.failures = Some(0);
    }

    // Nothing is in hand. All is forgotten if it isn't known how many writes failed.
    pub(crate) fn clear(&mut self)
        ensures told { MatchOption self.old.failures (self.new.told ≡ false) (λ n. self.new.told ≡ self.old.told) }
        ensures record { record_of self.new ≡ record_of self.old }
        ensures taken { self.new.taken.items ≡ [] }
        ensures failures { self.new.failures ≡ Some 0 }
    {
        self.told = self.told && self.failures.is_some();
        self.taken = Vec::new(self.alloc);
        self.failures = Some(0);
    }

    // The key and the ledger's range are the run's, unless memory is refused. Then all is forgotten.
    pub(crate) fn start(&mut self, key: &Key, ledger: &Ledger)
        ensures started { Becomes (started key.now ledger.now.terms.range) (rest_of self.old) (rest_of self.new) }
        ensures taken { self.new.taken ≡ self.old.taken }
        ensures failures { self.new.failures ≡ self.old.failures }
    {
        match KeyNote::new(self.alloc, key, ledger) {
            Some(note) => self.under = Under::Given(note),
            None => self.told = false,
        }
    }

    // Puts a file into the folder, as if it had been there before the run. `false` if memory is refused.
    pub(crate) fn put(&mut self, name: &str, bytes: &[u8]) -> bool
        ensures rest { rest_of self.new ≡ rest_of self.old }
        ensures taken { self.new.taken ≡ self.old.taken }
        ensures failures { self.new.failures ≡ self.old.failures }
    {
        let Ok(name) = String::from_str(self.alloc, name) else {
            return false;
        };
        match Vec::from_slice(self.alloc, bytes) {
            Ok(bytes) => self.inputs.push(Input { name, bytes }).is_ok(),
            Err(_) => false,
        }
    }

    // The bytes of the file of this name that was there, or of the finished output.
    pub(crate) fn bytes(&self, name: &str) -> Option<Vec<u8>> {
        for input in &self.inputs {
            if input.name.as_str() == name {
                return Vec::from_slice(self.alloc, input.bytes.as_slice()).ok();
            }
        }
        for entry in &self.entries {
            if let MemoryEntry::Created(file) = entry {
                if file.name.as_str() == name && file.mark == Mark::Finished {
                    return Vec::from_slice(self.alloc, file.bytes.as_slice()).ok();
                }
            }
        }
        None
    }
}

// A count of failed calls, after one more.
pub(crate) fn one_more(count: Option<u64>) -> Option<u64>
    ensures { result ≡ counted true count }
{
    match count {
        Some(count) => count.checked_add(1),
        None => None,
    }
}

// The output at this place may have the content that is named.
fn hold<N: Naming>(entries: &mut Vec<MemoryEntry>, place: usize)
    ensures { map entry_of entries.new.items
        ≡ change place (set_content N.content) (map entry_of entries.old.items) }
{
    if let Some(entry) = entries.get_mut(place) {
        entry.hold::<N>();
    }
}

// The output at this place is closed with these bytes.
fn shut(entries: &mut Vec<MemoryEntry>, place: usize, bytes: Vec<u8>, failures: u64, mark: Mark)
    ensures { map entry_of entries.new.items
        ≡ change place (set_closed (state_of mark) bytes.items failures) (map entry_of entries.old.items) }
{
    if let Some(entry) = entries.get_mut(place) {
        entry.shut(bytes, failures, mark);
    }
}

// A file that was read, if there is memory for the entry.
pub(crate) fn read(alloc: Global, name: &str, bytes: &[u8]) -> Option<MemoryEntry>
    ensures { IfSome result (λ e. entry_of e ≡ run.Happened (run.Read name.now bytes.now)) }
{
    let name = String::from_str(alloc, name).ok()?;
    let bytes = Vec::from_slice(alloc, bytes).ok()?;
    Some(MemoryEntry::Read(name, bytes))
}

// A file that couldn't be opened, if there is memory for the entry.
pub(crate) fn unread(alloc: Global, name: &str) -> Option<MemoryEntry>
    ensures { IfSome result (λ e. entry_of e ≡ run.Happened (run.Unread name.now)) }
{
    let name = String::from_str(alloc, name).ok()?;
    Some(MemoryEntry::Unread(name))
}

// A file that is read again, if there is memory for the entry.
pub(crate) fn repeated(alloc: Global, name: &str, bytes: &[u8]) -> Option<MemoryEntry>
    ensures { IfSome result (λ e. entry_of e ≡ run.Happened (run.Repeated name.now bytes.now)) }
{
    let name = String::from_str(alloc, name).ok()?;
    let bytes = Vec::from_slice(alloc, bytes).ok()?;
    Some(MemoryEntry::Repeated(name, bytes))
}

// A file that couldn't be read again, if there is memory for the entry.
pub(crate) fn unrepeated(alloc: Global, name: &str) -> Option<MemoryEntry>
    ensures { IfSome result (λ e. entry_of e ≡ run.Happened (run.Unrepeated name.now)) }
{
    let name = String::from_str(alloc, name).ok()?;
    Some(MemoryEntry::Unrepeated(name))
}

// A file that was closed after so many failed calls, if that is known and there is memory for the entry.
pub(crate) fn closed(alloc: Global, name: &str, failures: Option<u64>) -> Option<MemoryEntry>
    ensures { IfSome result (IsClosing name.now failures) }
{
    let failures = failures?;
    let name = String::from_str(alloc, name).ok()?;
    Some(MemoryEntry::Closed(name, failures))
}

// An output that was refused, if there is memory for the entry.
pub(crate) fn refused(alloc: Global, name: &str, fault: FolderFault) -> Option<MemoryEntry>
    ensures { IfSome result (λ e. entry_of e ≡ run.Happened (run.Refused name.now fault)) }
{
    let name = String::from_str(alloc, name).ok()?;
    Some(MemoryEntry::Refused(name, fault))
}

// A new output, if there is memory for it.
pub(crate) fn created(alloc: Global, name: &str) -> Option<MemoryEntry>
    ensures { IfSome result (λ e. entry_of e ≡ run.Created (new_output name.now)) }
{
    let name = String::from_str(alloc, name).ok()?;
    let note = ContentNote::new(alloc)?;
    let bytes = Vec::new(alloc);
    let mark = Mark::Open;
    Some(MemoryEntry::Created(File {
        name,
        bytes,
        failures: 0,
        mark,
        note,
    }))
}
