//! A folder in memory, whose calls fail where a test asks for it. Contracts see neither its record nor its bytes.
//!
//! It records what happened, refused calls too. If memory is refused to a call or for its event, it forgets all and
//! records nothing from then on. So no recorded failure is due to a lack of memory.

use crate::reader::{MemoryReader, Pace, STEADY};
use crate::told::{Told, What};
use command_core::SealingOutputs;
use container_core::{Header, Key, Shape};
use folder_core::{Folder, FolderFault, OpeningFolder, Outputs, Place, Whole};
use io_core::{Failed, Sink};
use io_memory::ToMemory;
use ledger_core::Ledger;
use reserve_core::{Fold, LedgerFile};
use std::alloc::Global;

// A file. An output has its bytes once it was finished, or could not be removed.
#[derive(Drop)]
struct File {
    name: String,
    bytes: Vec<u8>,
}

/// A folder in memory.
#[derive(Drop)]
pub struct MemoryFolder {
    alloc: Global,
    files: Vec<File>,
    // How many calls succeed before one fails.
    refused: Option<u64>,
    readers: Pace,
    writers: Pace,
    // Whether it can't tell the lengths of its files.
    hides_lengths: bool,
    // What happened, unless something was forgotten.
    told: Option<Vec<Told>>,
    in_hand: Option<MemoryHandle>,
}

/// An output that isn't in hand.
#[derive(Drop)]
pub struct MemoryHandle {
    name: String,
    writer: ToMemory,
}

impl Place for MemoryHandle {}

impl MemoryFolder {
    /// Makes an empty folder, in which nothing fails.
    pub fn new(alloc: Global) -> MemoryFolder {
        MemoryFolder {
            alloc,
            files: Vec::new(alloc),
            refused: None,
            readers: STEADY,
            writers: STEADY,
            hides_lengths: false,
            told: Some(Vec::new(alloc)),
            in_hand: None,
        }
    }

    /// Puts a file of these bytes into the folder. `false` if the name is in use, or memory is refused. It is no event.
    pub fn put(&mut self, name: &str, bytes: &[u8]) -> bool {
        if self.has(name) {
            return false;
        }
        let (Ok(name), Ok(bytes)) = (
            String::from_str(self.alloc, name),
            Vec::from_slice(self.alloc, bytes),
        ) else {
            return false;
        };
        self.files.push(File { name, bytes }).is_ok()
    }

    /// Makes the folder's call of this number fail, counted from 0 and from now on.
    pub fn refuse_call(&mut self, number: u64) {
        self.refused = Some(number);
    }

    /// Sets how readers opened from now on move their bytes.
    pub fn pace_readers(&mut self, pace: Pace) {
        self.readers = pace;
    }

    /// Sets how outputs created from now on take their bytes.
    pub fn pace_writers(&mut self, pace: Pace) {
        self.writers = pace;
    }

    /// Makes the folder tell no length of a file from now on, as of pipes.
    pub fn hide_lengths(&mut self) {
        self.hides_lengths = true;
    }

    /// Returns whether there is a file of this name.
    pub fn has(&self, name: &str) -> bool {
        self.files.iter().any(|file| file.name.as_str() == name)
    }

    /// Returns the bytes of a file, or `None` if there is no such file or memory is refused. An output that has not ended
    /// has none.
    pub fn bytes(&self, name: &str) -> Option<Vec<u8>> {
        for file in &self.files {
            if file.name.as_str() == name {
                return Vec::from_slice(self.alloc, file.bytes.as_slice()).ok();
            }
        }
        None
    }

    /// Returns what happened so far, or `None` if something was forgotten.
    pub fn told(&self) -> Option<&[Told]> {
        match &self.told {
            Some(told) => Some(told.as_slice()),
            None => None,
        }
    }

    // Records what happened, or forgets all if memory for it was refused.
    fn tell(&mut self, what: What, name: &str, bytes: &[u8]) {
        let event = Told::of(self.alloc, what, name, bytes);
        let is_kept = match (&mut self.told, event) {
            (Some(told), Some(event)) => told.push(event).is_ok(),
            _ => false,
        };
        if !is_kept {
            self.told = None;
        }
    }

    // Whether this call is the one that fails.
    fn is_refused(&mut self) -> bool {
        match self.refused {
            None => false,
            Some(0) => {
                self.refused = None;
                true
            }
            Some(number) => {
                self.refused = Some(number - 1);
                false
            }
        }
    }

    // The bytes of a file to be read, unless this call fails.
    fn bytes_to_read(&mut self, name: &str) -> Option<Vec<u8>> {
        if self.is_refused() || !self.has(name) {
            return None;
        }
        let bytes = self.bytes(name);
        if bytes.is_none() {
            self.told = None;
        }
        bytes
    }

    // The output of a new file, unless memory is refused.
    fn new_output(&mut self, name: &str) -> Option<MemoryHandle> {
        let Pace { most, schedule } = self.writers;
        let writer = ToMemory::new(self.alloc, 0, most, schedule).ok()?;
        let own = String::from_str(self.alloc, name).ok()?;
        if self.put(name, &[]) {
            Some(MemoryHandle { name: own, writer })
        } else {
            None
        }
    }

    // Gives a file the bytes of its output, if it is there and there is memory for them.
    fn has_kept(&mut self, output: &MemoryHandle) -> bool {
        let Ok(bytes) = Vec::from_slice(self.alloc, output.writer.bytes()) else {
            self.told = None;
            return false;
        };
        for file in &mut self.files {
            if file.name.as_str() == output.name.as_str() {
                file.bytes = bytes;
                return true;
            }
        }
        false
    }

    // Gives an output up, and tries to remove it. It is recorded whether or not that succeeds.
    fn give_up(&mut self, output: MemoryHandle) -> Result<(), Failed> {
        let name = output.name.as_str();
        let is_refused = self.is_refused();
        self.tell(What::Discarded, name, output.writer.bytes());
        if is_refused {
            let _ = self.has_kept(&output);
            return Err(Failed);
        }
        self.files.retain(|file| file.name.as_str() != name);
        Ok(())
    }
}

impl Outputs for MemoryFolder {
    type Handle = MemoryHandle;

    fn allow_container(&mut self, output: MemoryHandle, _number: u32, _shape: &Shape) {
        self.in_hand = Some(output);
    }

    fn write(&mut self, bytes: &[u8]) -> Result<usize, Failed> {
        match &mut self.in_hand {
            Some(output) => Sink::write(&mut output.writer, bytes),
            None => Err(Failed),
        }
    }

    fn finish(&mut self) -> Result<(), Failed> {
        let Some(output) = self.in_hand.take() else {
            return Err(Failed);
        };
        if self.is_refused() || !self.has_kept(&output) {
            self.in_hand = Some(output);
            return Err(Failed);
        }
        self.tell(What::Finished, output.name.as_str(), output.writer.bytes());
        Ok(())
    }

    fn discard(&mut self) -> Result<(), Failed> {
        match self.in_hand.take() {
            Some(output) => self.give_up(output),
            None => Err(Failed),
        }
    }

    ghost sound = { λ _. ∣ (tt, tt) ∣₁ };
}

impl Folder for MemoryFolder {
    type Reader = MemoryReader;

    fn open(&mut self, name: &str) -> Result<MemoryReader, Failed> {
        match self.bytes_to_read(name) {
            Some(bytes) => {
                self.tell(What::Reading, name, bytes.as_slice());
                Ok(MemoryReader::new(bytes, self.readers))
            }
            None => {
                self.tell(What::Unread, name, &[]);
                Err(Failed)
            }
        }
    }

    fn length(&self, reader: &MemoryReader) -> Option<u64> {
        if self.hides_lengths {
            return None;
        }
        Some((reader.bytes.len() - reader.at) as u64)
    }

    fn can_repeat(&self, _reader: &MemoryReader) -> bool {
        true
    }

    fn again(&mut self, name: &str, reader: &mut MemoryReader) -> Result<(), Failed> {
        let is_refused = self.is_refused();
        self.tell(What::Rewound(is_refused), name, &[]);
        if is_refused {
            reader.failed = true;
            return Err(Failed);
        }
        reader.at = 0;
        self.tell(What::Reading, name, reader.bytes.as_slice());
        Ok(())
    }

    fn close(&mut self, name: &str, reader: MemoryReader) {
        self.tell(What::Closed(reader.failed), name, &[]);
    }

    fn create(&mut self, name: &str) -> Result<MemoryHandle, FolderFault> {
        let fault = if self.is_refused() {
            FolderFault::Failed
        } else if self.has(name) {
            FolderFault::Exists
        } else if let Some(output) = self.new_output(name) {
            self.tell(What::Created, name, &[]);
            return Ok(output);
        } else {
            self.told = None;
            FolderFault::Failed
        };
        self.tell(What::Refused(fault), name, &[]);
        Err(fault)
    }

    fn abandon(&mut self, output: MemoryHandle) -> Result<(), Failed> {
        self.give_up(output)
    }
}

// What an output may hold is proof only. Nothing happens at run time but that it is in hand.
impl OpeningFolder for MemoryFolder {
    fn allow_plain<N: Whole>(&mut self, output: MemoryHandle) {
        self.in_hand = Some(output);
    }

    fn allow_checked(
        &mut self,
        output: MemoryHandle,
        _key: &Key,
        _header: &Header,
        _reader: &MemoryReader,
    ) {
        self.in_hand = Some(output);
    }
}

// It has no record that gets a key.
impl SealingOutputs for MemoryFolder {
    fn start<S: Fold>(&mut self, _file: &LedgerFile<S>, _key: &Key, _ledger: &Ledger) {}
}
