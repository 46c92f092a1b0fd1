//! The folder in memory.
ghost use Rattle.std.specs.Prelude.{◌≡◌, IfSome, Some};
ghost use Rattle.folder_core.specs.Record.{IsSoundWith};
ghost use Rattle.journal_core.specs.Range.{range_of};
ghost use Rattle.folder_core.specs.Changes.{IsFresh, IsIdle, IsKept, IsNewStream, IsUnstarted, allowed};
ghost use Rattle.folder_tests.specs.Memory.{fresh, record_of, rest_of, unkeyed};

use crate::note::Naming;
use crate::pages::{
    Limits, Mark, Pages, Under, closed, created, one_more, read, refused, repeated, unread,
    unrepeated,
};
use crate::reader::MemoryReader;
use command_core::SealingOutputs;
use container_core::{Header, Key, Shape};
use folder_core::{Folder, FolderFault, OpeningFolder, Outputs, Place, Whole};
use io_core::Failed;
use ledger_core::Ledger;
use reserve_core::{Fold, LedgerFile};
use std::alloc::Global;
use std::marker::Brand;

/// A folder in memory.
#[derive(Drop)]
pub struct MemoryFolder {
    pub(crate) pages: Pages,
    ghost sound: { ∥ IsSoundWith (rest_of pages) (Some pages.taken.items) ∥₁ },
}

/// An output that isn't in hand.
#[derive(Drop)]
pub struct MemoryHandle {
    pub(crate) place: usize,
}

impl Place for MemoryHandle {
    ghost at = { λ h. h.place };
}

impl MemoryFolder {
    /// An empty folder, for a run under this key and over this range.
    pub fn new(alloc: Global, secret: [u8; 32], device: u32, lo: u32, size: u32) -> MemoryFolder
        ensures { rest_of result.pages ≡ Some (fresh secret (range_of device lo size)) }
    {
        let pages = Pages::new(alloc, Under::Fixed(secret, device, lo, size));
        MemoryFolder { pages }
    }

    /// A folder with these files, for a run that has no key yet. `None` if memory is refused.
    pub fn unkeyed(alloc: Global, files: &[(&str, &[u8])]) -> Option<MemoryFolder>
        ensures rest { IfSome result (λ folder. rest_of folder.pages ≡ Some unkeyed) }
        ensures fresh { IfSome result (λ folder.
            IsFresh (rest_of folder.pages) (Some folder.pages.taken.items) folder.pages.failures) }
    {
        let pages = Pages::new(alloc, Under::Unkeyed);
        let mut folder = MemoryFolder { pages };
        if folder.has_put(files) {
            Some(folder)
        } else {
            None
        }
    }

    // Puts files into the folder, as if they had been there before the run. `false` if memory is refused.
    fn has_put(&mut self, files: &[(&str, &[u8])]) -> bool
        ensures rest { rest_of self.new.pages ≡ rest_of self.old.pages }
        ensures taken { self.new.pages.taken.items ≡ self.old.pages.taken.items }
        ensures failures { self.new.pages.failures ≡ self.old.pages.failures }
    {
        for (name, bytes) in files {
            if !self.put(name, bytes) {
                return false;
            }
        }
        true
    }

    fn put(&mut self, name: &str, bytes: &[u8]) -> bool
        ensures rest { rest_of self.new.pages ≡ rest_of self.old.pages }
        ensures taken { self.new.pages.taken.items ≡ self.old.pages.taken.items }
        ensures failures { self.new.pages.failures ≡ self.old.pages.failures }
    {
        self.pages.put(name, bytes)
    }

    /// From now on calls fail past these limits.
    pub fn limit(&mut self, limits: Limits)
        ensures rest { rest_of self.new.pages ≡ rest_of self.old.pages }
        ensures taken { self.new.pages.taken.items ≡ self.old.pages.taken.items }
        ensures failures { self.new.pages.failures ≡ self.old.pages.failures }
    {
        self.pages.limits = limits;
    }

    /// Returns the bytes of the file of this name that was there, or of the finished output.
    pub fn bytes(&self, name: &str) -> Option<Vec<u8>> {
        self.pages.bytes(name)
    }

    /// Returns what the output in hand took.
    pub fn taken(&self) -> &[u8] {
        self.pages.taken.as_slice()
    }

    /// Creates an output that is a stream. `None` if memory is refused, or there is one.
    pub fn new_stream(&mut self) -> Option<MemoryHandle>
        requires idle { IsIdle (rest_of self.old.pages) }
        requires fresh { IsFresh (rest_of self.old.pages) (Some self.old.pages.taken.items) self.old.pages.failures }
        ensures new { IfSome result (λ output. IfSome (rest_of self.new.pages) (IsNewStream output.place)) }
        ensures unstarted { IfSome (rest_of self.old.pages) IsUnstarted
            → IfSome result (λ _. IfSome (rest_of self.new.pages) IsUnstarted) }
        ensures fresh { IfSome result (λ _.
            IsFresh (rest_of self.new.pages) (Some self.new.pages.taken.items) self.new.pages.failures) }
    {
        match self.create("-") {
            Ok(output) => Some(output),
            Err(_) => None,
        }
    }
}

impl Outputs for MemoryFolder {
    type Handle = MemoryHandle;

    ghost rest = { λ f. rest_of f.pages };

    ghost taken = { λ f. Some f.pages.taken.items };

    ghost failures = { λ f. f.pages.failures };

    fn allow_container(&mut self, output: MemoryHandle, number: u32, shape: &Shape) {
        allow_number::<Brand>(&mut self.pages, output.place, number, shape);
    }

    fn write(&mut self, bytes: &[u8]) -> Result<usize, Failed> {
        self.pages.take(bytes)
    }

    fn finish(&mut self) -> Result<(), Failed> {
        if !self.pages.may_end() {
            return Err(Failed);
        }
        match self.pages.in_hand {
            Some(place) => self.pages.close(place, Mark::Finished),
            None => self.pages.clear(),
        }
        Ok(())
    }

    fn discard(&mut self) -> Result<(), Failed> {
        match self.pages.in_hand {
            Some(place) => self.pages.close(place, Mark::GivenUp),
            None => self.pages.clear(),
        }
        Ok(())
    }

    ghost sound = { λ f. f.sound };
}

impl Folder for MemoryFolder {
    type Reader = MemoryReader;

    fn open(&mut self, name: &str) -> Result<MemoryReader, Failed> {
        let alloc = self.pages.alloc;
        match self.pages.bytes(name) {
            Some(bytes) => {
                let entry = read(alloc, name, bytes.as_slice());
                self.pages.tell(entry);
                Ok(MemoryReader {
                    bytes,
                    at: 0,
                    reads: self.pages.limits.reads,
                    failures: Some(0),
                })
            }
            None => {
                let entry = unread(alloc, name);
                self.pages.tell(entry);
                Err(Failed)
            }
        }
    }

    fn length(&self, reader: &MemoryReader) -> Option<u64> {
        Some((reader.bytes.len() - reader.at) as u64)
    }

    fn can_repeat(&self, _reader: &MemoryReader) -> bool {
        self.pages.limits.can_repeat
    }

    fn again(&mut self, name: &str, reader: &mut MemoryReader) -> Result<(), Failed> {
        if self.pages.limits.turns == 0 {
            reader.failures = one_more(reader.failures);
            let entry = unrepeated(self.pages.alloc, name);
            self.pages.tell(entry);
            return Err(Failed);
        }
        self.pages.limits.turns -= 1;
        reader.at = 0;
        let entry = repeated(self.pages.alloc, name, reader.bytes.as_slice());
        self.pages.tell(entry);
        Ok(())
    }

    fn close(&mut self, name: &str, reader: MemoryReader) {
        let entry = closed(self.pages.alloc, name, reader.failures);
        self.pages.tell(entry);
    }

    fn create(&mut self, name: &str) -> Result<MemoryHandle, FolderFault> {
        let alloc = self.pages.alloc;
        let place = self.pages.entries.len();
        if self.pages.bytes(name).is_some() {
            let entry = refused(alloc, name, FolderFault::Exists);
            self.pages.tell(entry);
            return Err(FolderFault::Exists);
        }
        let entry = created(alloc, name);
        self.pages.tell(entry);
        Ok(MemoryHandle { place })
    }

    fn abandon(&mut self, output: MemoryHandle) -> Result<(), Failed> {
        self.pages.clear();
        self.pages.close(output.place, Mark::GivenUp);
        Ok(())
    }
}

impl OpeningFolder for MemoryFolder {
    fn allow_plain<N: Whole>(&mut self, output: MemoryHandle) {
        self.pages.allow::<Brand>(output.place);
    }

    fn allow_checked(
        &mut self,
        output: MemoryHandle,
        key: &Key,
        header: &Header,
        reader: &MemoryReader,
    ) {
        allow_opened::<Brand>(&mut self.pages, output.place, key, header, reader);
    }
}

impl SealingOutputs for MemoryFolder {
    fn start<S: Fold>(&mut self, _file: &LedgerFile<S>, key: &Key, ledger: &Ledger) {
        self.pages.start(key, ledger);
    }
}

// The output at this place is in hand, with the container of this number.
fn allow_number<N: Naming>(pages: &mut Pages, place: usize, _number: u32, _shape: &Shape)
    ensures told { pages.new.told ≡ pages.old.told }
    ensures allowed { record_of pages.new ≡ allowed place N.content (record_of pages.old) }
    ensures fresh { IsFresh (rest_of pages.new) (Some pages.new.taken.items) pages.new.failures }
    ensures kept { IsKept (rest_of pages.new) (Some pages.old.taken.items) (Some pages.new.taken.items)
        pages.old.failures pages.new.failures }
{
    pages.allow::<N>(place);
}

// The output at this place is in hand, with what is opened of what this reader gives.
fn allow_opened<N: Naming>(
    pages: &mut Pages,
    place: usize,
    _key: &Key,
    _header: &Header,
    _reader: &MemoryReader,
)
    ensures told { pages.new.told ≡ pages.old.told }
    ensures allowed { record_of pages.new ≡ allowed place N.content (record_of pages.old) }
    ensures fresh { IsFresh (rest_of pages.new) (Some pages.new.taken.items) pages.new.failures }
    ensures kept { IsKept (rest_of pages.new) (Some pages.old.taken.items) (Some pages.new.taken.items)
        pages.old.failures pages.new.failures }
{
    pages.allow::<N>(place);
}
