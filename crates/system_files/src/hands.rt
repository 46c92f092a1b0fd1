//! The outputs of the file system, of which one at a time is in hand.
//!
//! Nothing can check what is told of real files, so the record is unknown. What an output may hold is proof only: at run
//! time it is taken in hand.

use crate::files::SystemFiles;
use crate::outputs::{self, OutputFile};
use command_core::SealingOutputs;
use container_core::{Header, Key, Shape};
use folder_core::{OpeningFolder, Outputs, Whole};
use io_core::{Failed, Sink, ToWrite};
use ledger_core::Ledger;
use reserve_core::{Fold, LedgerFile};
use std::io::Read;
use std::rt::{Clock, Files};

impl<'p, 'r, R: Files + AllocGlobal + Clock + Eprint, I: Read + Drop> Outputs
    for SystemFiles<'p, 'r, R, I> {
    // Needs no buffer: each call that writes an output passes one chunk or more.
    type Handle = OutputFile<R::File>;

    fn allow_container(&mut self, output: Self::Handle, _number: u32, _shape: &Shape) {
        self.in_hand = Some(ToWrite(output));
    }

    fn write(&mut self, bytes: &[u8]) -> Result<usize, Failed> {
        match &mut self.in_hand {
            Some(output) => Sink::write(output, bytes),
            None => Err(Failed),
        }
    }

    // Without `sync` the file is closed here, and the system writes it to the disk later.
    fn finish(&mut self) -> Result<(), Failed> {
        let Some(output) = self.in_hand.take() else {
            return Err(Failed);
        };
        let ToWrite(mut output) = output;
        match outputs::finish_file(self.rt, &mut output) {
            Ok(()) => Ok(()),
            Err(_) => {
                self.in_hand = Some(ToWrite(output));
                Err(Failed)
            }
        }
    }

    fn discard(&mut self) -> Result<(), Failed> {
        match self.in_hand.take() {
            Some(output) => self.give_up_output(output.0),
            None => Err(Failed),
        }
    }

    ghost sound = { λ _. ∣ (tt, tt) ∣₁ };
}

impl<'p, 'r, R: Files + AllocGlobal + Clock + Eprint, I: Read + Drop> OpeningFolder
    for SystemFiles<'p, 'r, R, I> {
    fn allow_plain<N: Whole>(&mut self, output: Self::Handle) {
        self.in_hand = Some(ToWrite(output));
    }

    fn allow_checked(
        &mut self,
        output: Self::Handle,
        _key: &Key,
        _header: &Header,
        _reader: &Self::Reader,
    ) {
        self.in_hand = Some(ToWrite(output));
    }
}

impl<'p, 'r, R: Files + AllocGlobal + Clock + Eprint, I: Read + Drop> SealingOutputs
    for SystemFiles<'p, 'r, R, I> {
    fn start<S: Fold>(&mut self, _file: &LedgerFile<S>, _key: &Key, _ledger: &Ledger) {}
}
