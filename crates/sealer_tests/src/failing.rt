//! A folder in memory. Its calls and those of its readers and writers are counted together, and the one with a given
//! number fails. Other inputs and outputs of the tests share the count.
use container_core::{Header, Key, Shape};
use folder_core::{Folder, FolderFault, OpeningFolder, Outputs, Whole};
use folder_memory::{MemoryFolder, MemoryHandle, MemoryReader};
use ledger_core::{Failed, Ledger, Source};
use reserve_core::{Fold, LedgerFile};
use sealer_core::SealingOutputs;
use std::sync::atomic::{AtomicU64, Ordering};

/// What a failing call does.
#[derive(Clone, Copy)]
pub(crate) enum Act {
    Open,
    Create,
    Read,
    // On a writer, or when finishing what was written.
    Write,
    Remove,
    // To keep what was read, or to go back to its first byte.
    Spool,
    // To read once more, after all was checked.
    ReadAgain,
}

// The acts that give a file's line a fault, and the fault.
static FAULTS: [(Act, &str); 6] = [
    (Act::Open, "cannot open"),
    (Act::Create, "cannot create"),
    (Act::Read, "read failed"),
    (Act::Write, "write failed"),
    (Act::Spool, "spool failed"),
    (Act::ReadAgain, "read failed"),
];

impl Act {
    fn number(self) -> u64 {
        match self {
            Act::Open => 1,
            Act::Create => 2,
            Act::Read => 3,
            Act::Write => 4,
            Act::Remove => 5,
            Act::Spool => 6,
            Act::ReadAgain => 7,
        }
    }
}

/// How many calls were made, and which one fails.
#[derive(Drop)]
pub(crate) struct Calls {
    failing: u64,
    made: AtomicU64,
    // 0 before a call has failed, then the number of its act.
    act: AtomicU64,
}

impl Calls {
    /// Returns a count of no calls. The call with this number fails, counted from 0.
    pub(crate) fn new(failing: u64) -> Calls {
        Calls {
            failing,
            made: AtomicU64::new(0),
            act: AtomicU64::new(0),
        }
    }

    /// Returns a count in which no call fails.
    pub(crate) fn steady() -> Calls {
        Calls::new(u64::MAX)
    }

    /// Whether a call has failed.
    pub(crate) fn has_failed(&self) -> bool {
        self.act.load(Ordering::SeqCst) != 0
    }

    /// Returns the fault in a file's line for the failed call; empty if no call failed, or the call was to remove a
    /// file.
    pub(crate) fn fault(&self) -> &'static str {
        let failed = self.act.load(Ordering::SeqCst);
        for (act, fault) in &FAULTS {
            if act.number() == failed {
                return fault;
            }
        }
        ""
    }

    /// Whether the failed call was to remove a file.
    pub(crate) fn has_failed_to_remove(&self) -> bool {
        self.act.load(Ordering::SeqCst) == Act::Remove.number()
    }

    /// Whether the failed call was to write, or to read once more.
    pub(crate) fn has_failed_late(&self) -> bool {
        let act = self.act.load(Ordering::SeqCst);
        act == Act::Write.number() || act == Act::ReadAgain.number()
    }

    // Whether this call, which performs `act`, fails.
    pub(crate) fn fails(&self, act: Act) -> bool {
        if self.made.fetch_add(1, Ordering::SeqCst) != self.failing {
            return false;
        }
        self.act.store(act.number(), Ordering::SeqCst);
        true
    }
}

/// A folder with one failing call.
#[derive(Drop)]
pub(crate) struct Failing<'a> {
    pub(crate) folder: MemoryFolder,
    pub(crate) calls: &'a Calls,
    /// Whether its files can be read only once.
    pub(crate) once: bool,
}

/// A reader of such a folder.
#[derive(Drop)]
pub(crate) struct FailingReader<'a> {
    reader: MemoryReader,
    calls: &'a Calls,
}

// The output in hand is that of the folder below.
impl<'a> Outputs for Failing<'a> {
    type Handle = MemoryHandle;

    fn allow_container(&mut self, output: MemoryHandle, number: u32, shape: &Shape) {
        Outputs::allow_container(&mut self.folder, output, number, shape);
    }

    fn write(&mut self, bytes: &[u8]) -> Result<usize, Failed> {
        if self.calls.fails(Act::Write) {
            return Err(Failed);
        }
        self.folder.write(bytes)
    }

    fn finish(&mut self) -> Result<(), Failed> {
        if self.calls.fails(Act::Write) {
            return Err(Failed);
        }
        Outputs::finish(&mut self.folder)
    }

    // An output that can't be removed stays in hand, until another is.
    fn discard(&mut self) -> Result<(), Failed> {
        if self.calls.fails(Act::Remove) {
            return Err(Failed);
        }
        Outputs::discard(&mut self.folder)
    }

    ghost sound = { λ _. ∣ (tt, tt) ∣₁ };
}

impl<'a> Folder for Failing<'a> {
    type Reader = FailingReader<'a>;

    fn open(&mut self, name: &str) -> Result<FailingReader<'a>, Failed> {
        let calls = self.calls;
        if calls.fails(Act::Open) {
            return Err(Failed);
        }
        match Folder::open(&mut self.folder, name) {
            Ok(reader) => Ok(FailingReader { reader, calls }),
            Err(Failed) => Err(Failed),
        }
    }

    fn length(&self, reader: &FailingReader<'a>) -> Option<u64> {
        Folder::length(&self.folder, &reader.reader)
    }

    fn can_repeat(&self, _reader: &FailingReader<'a>) -> bool {
        !self.once
    }

    fn again(&mut self, name: &str, reader: &mut FailingReader<'a>) -> Result<(), Failed> {
        if self.calls.fails(Act::Read) {
            return Err(Failed);
        }
        Folder::again(&mut self.folder, name, &mut reader.reader)
    }

    fn close(&mut self, name: &str, reader: FailingReader<'a>) {
        let FailingReader { reader, calls: _ } = reader;
        Folder::close(&mut self.folder, name, reader);
    }

    fn create(&mut self, name: &str) -> Result<MemoryHandle, FolderFault> {
        if self.calls.fails(Act::Create) {
            return Err(FolderFault::Failed);
        }
        Folder::create(&mut self.folder, name)
    }

    fn abandon(&mut self, output: MemoryHandle) -> Result<(), Failed> {
        if self.calls.fails(Act::Remove) {
            return Err(Failed);
        }
        self.folder.abandon(output)
    }
}

impl<'a> OpeningFolder for Failing<'a> {
    fn allow_plain<N: Whole>(&mut self, output: MemoryHandle) {
        self.folder.allow_plain::<N>(output);
    }

    fn allow_checked(
        &mut self,
        output: MemoryHandle,
        key: &Key,
        header: &Header,
        reader: &FailingReader<'a>,
    ) {
        self.folder
            .allow_checked(output, key, header, &reader.reader);
    }
}

// The folder below has no record that gets a key.
impl<'a> SealingOutputs for Failing<'a> {
    fn start<S: Fold>(&mut self, _file: &LedgerFile<S>, _key: &Key, _ledger: &Ledger) {}
}

impl Source for FailingReader<'_> {
    fn read(&mut self, buffer: &mut [u8]) -> Result<usize, Failed> {
        if self.calls.fails(Act::Read) {
            return Err(Failed);
        }
        self.reader.read(buffer)
    }
}
