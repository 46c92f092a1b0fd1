//! What a run writes to: outputs, of which one at a time is in hand and is written. A folder has many outputs, a stream
//! has one.
//!
//! At every moment the record of the run is sound: this is a law of the trait, so it also holds where a run is killed.
ghost use Rattle.std.specs.Prelude.{◌≡◌, ℕ, ◌<◌, List, [], length, None, Some, Option, IfOk, IfErr, IfSome, OnOk};
ghost use Rattle.std.specs.Prelude.{OnErr, is_err, option_map, true};
ghost use Rattle.std.specs.Io.{WritesAtMost};
ghost use Rattle.io_core.specs.Streams.{WriteAppends, counted};
ghost use Rattle.output_core.specs.Bounds.{Admits};
ghost use Rattle.folder_core.specs.Record.{Checked, Closed, Container, Created, Finished, GivenUp, Happened};
ghost use Rattle.folder_core.specs.Record.{IsSoundWith, Plain, Read, Refused, Repeated, RunRecord, Unread, Unrepeated};
ghost use Rattle.folder_core.specs.Record.{bound_in};
ghost use Rattle.folder_core.specs.Changes.{Becomes, Closes, HasStreamAlone, IsFresh, IsIdle, IsKept, IsNew, MayHold, Tells};
ghost use Rattle.folder_core.specs.Changes.{TellsBytes, allowed, closed_at, new_output, with_entry};

use crate::fault::FolderFault;
use container_core::{Header, Key, Shape};
use io_core::{Failed, Source};
use std::marker::Brand;

/// What stands for an output that isn't in hand.
pub trait Place {
    // Its place in the record.
    ghost at: { Self → ℕ } = { λ _. 0 };
}

/// Outputs, one of which may be in hand, to be written.
pub trait Outputs {
    /// An output that isn't in hand.
    type Handle: Place + Drop;

    // The record of the run, but for the bytes of the output in hand, if it is known. It may be forgotten.
    ghost rest: { Self → Option RunRecord } = { λ _. None };

    // The bytes that the output in hand took, if known.
    ghost taken: { Self → Option (List ℕ) } = { λ _. None };

    // How many writes to it failed, if known. A refused end is one.
    ghost failures: { Self → Option ℕ } = { λ _. None };

    /// Takes a new output in hand. It is to hold the container of some plaintext, under this number and in this shape.
    /// Where the record isn't known, what was taken before is counted too.
    fn allow_container(&mut self, output: Self::Handle, number: u32, shape: &Shape)
        requires may { IfSome (rest self.old) (MayHold (Self.Handle.at output) (Container number shape.now)) }
        ensures allowed { Becomes (allowed (Self.Handle.at output) (Container number shape.now))
            (rest self.old) (rest self.new) }
        ensures fresh { IsFresh (rest self.new) (taken self.new) (failures self.new) }
        ensures kept { IsKept (rest self.new) (taken self.old) (taken self.new) (failures self.old)
            (failures self.new) };

    /// Writes a prefix of `bytes` to the output in hand, and returns its length. A call with a nonempty slice takes at
    /// least one byte, or fails. A failed call takes none, and raises the count of failures by one (past 2^64 - 1 it is
    /// unknown).
    fn write(&mut self, bytes: &[u8]) -> Result<usize, Failed>
        requires may { Admits (option_map bound_in (rest self.old)) (taken self.old) bytes.now }
        ensures most { WritesAtMost result bytes.now }
        ensures some { IfOk result (λ n. 0 < length bytes.now → 0 < n) }
        ensures bytes { WriteAppends (taken self.old) (taken self.new) result bytes.now }
        ensures same { rest self.new ≡ rest self.old }
        ensures count { failures self.new ≡ counted (is_err result) (failures self.old) };

    /// Finishes the output in hand: it is whole. If that fails it stays in hand, to be given up, and that counts as a
    /// failed write.
    fn finish(&mut self) -> Result<(), Failed>
        ensures finished { OnOk result
            (Closes Finished (rest self.old) (taken self.old) (failures self.old) (rest self.new)) }
        ensures fresh { OnOk result (IsFresh (rest self.new) (taken self.new) (failures self.new)) }
        ensures rest { OnErr result (rest self.new ≡ rest self.old) }
        ensures taken { OnErr result (taken self.new ≡ taken self.old) }
        ensures count { OnErr result (failures self.new ≡ counted true (failures self.old)) };

    /// Gives the output in hand up, and tries to remove it.
    fn discard(&mut self) -> Result<(), Failed>
        ensures discarded { Closes GivenUp (rest self.old) (taken self.old) (failures self.old) (rest self.new) }
        ensures fresh { IsFresh (rest self.new) (taken self.new) (failures self.new) };

    // At every moment the record is sound, and what the output in hand took is a prefix of what it may hold.
    ghost sound: { (outputs : Self) → ∥ IsSoundWith (rest outputs) (taken outputs) ∥₁ };
}

/// A folder of files, each of which has a name.
pub trait Folder: Outputs {
    /// What reads a file of this folder.
    type Reader: Source + Drop;

    /// Opens a file for reading from its beginning. Nothing is in hand.
    fn open(&mut self, name: &str) -> Result<Self::Reader, Failed>
        requires idle { IsIdle (Self.rest self.old) }
        ensures opened { IfOk result (λ reader.
            TellsBytes (Read name.now) (Self.Reader.left reader) (Self.rest self.old) (Self.rest self.new)) }
        ensures count { IfOk result (λ reader. IfSome (Self.rest self.new) (λ _. Self.Reader.failures reader
            ≡ Some 0)) }
        ensures unopened { OnErr result
            (Becomes (with_entry (Happened (Unread name.now))) (Self.rest self.old) (Self.rest self.new)) }
        ensures taken { Self.taken self.new ≡ Self.taken self.old }
        ensures failures { Self.failures self.new ≡ Self.failures self.old };

    /// How many bytes the file of a reader had when it was opened, of which nothing was read yet. `None` if the folder
    /// can't tell: a pipe has no length. The file can grow or shrink since.
    fn length(&self, reader: &Self::Reader) -> Option<u64>
        ensures length { IfSome (Self.rest self.now) (λ _. IfSome (Self.Reader.left reader.now) (λ bytes.
            IfSome result (λ n. n ≡ length bytes))) };

    /// Whether the file of a reader is to be read again. A pipe can't be, and a folder may say no of a short file.
    fn can_repeat(&self, reader: &Self::Reader) -> bool;

    /// Goes back to the first byte of a file that was opened by this name: of the same open file, whatever has the name
    /// by now. Fails if the file can't be read again, which counts as a failed call of its reader.
    fn again(&mut self, name: &str, reader: &mut Self::Reader) -> Result<(), Failed>
        ensures again { OnOk result
            (TellsBytes (Repeated name.now) (Self.Reader.left reader.new) (Self.rest self.old) (Self.rest self.new)) }
        ensures refused { OnErr result
            (Becomes (with_entry (Happened (Unrepeated name.now))) (Self.rest self.old) (Self.rest self.new)) }
        ensures count { IfSome (Self.rest self.new) (λ _. Self.Reader.failures reader.new
            ≡ counted (is_err result) (Self.Reader.failures reader.old)) }
        ensures taken { Self.taken self.new ≡ Self.taken self.old }
        ensures failures { Self.failures self.new ≡ Self.failures self.old };

    /// Closes a file that was opened by this name. Nothing is in hand but a stream: any other output of its bytes has
    /// ended, or waits. The record has how many calls of its reader failed.
    fn close(&mut self, name: &str, reader: Self::Reader)
        requires idle { IfSome (Self.rest self.old) HasStreamAlone }
        ensures closed { Tells (Closed name.now) (Self.Reader.failures reader) (Self.rest self.old)
            (Self.rest self.new) }
        ensures taken { Self.taken self.new ≡ Self.taken self.old }
        ensures failures { Self.failures self.new ≡ Self.failures self.old };

    /// Creates an empty output, in which nothing may be written yet. It never replaces a file: `Exists` if the name
    /// exists, `Failed` for any other cause.
    fn create(&mut self, name: &str) -> Result<Self::Handle, FolderFault>
        ensures created { OnOk result
            (Becomes (with_entry (Created (new_output name.now))) (Self.rest self.old) (Self.rest self.new)) }
        ensures place { IfOk result (λ output. IfSome (Self.rest self.old)
            (λ was. Self.Handle.at output ≡ length was.entries)) }
        ensures refused { IfErr result (λ fault.
            Becomes (with_entry (Happened (Refused name.now fault))) (Self.rest self.old) (Self.rest self.new)) }
        ensures taken { Self.taken self.new ≡ Self.taken self.old }
        ensures failures { Self.failures self.new ≡ Self.failures self.old };

    /// Gives up an output that was never in hand, and tries to remove it. Nothing is in hand.
    fn abandon(&mut self, output: Self::Handle) -> Result<(), Failed>
        requires new { IfSome (Self.rest self.old) (IsNew (Self.Handle.at output)) }
        ensures abandoned { Becomes (closed_at (Self.Handle.at output) GivenUp [] 0)
            (Self.rest self.old) (Self.rest self.new) }
        ensures fresh { IsFresh (Self.rest self.new) (Self.taken self.new) (Self.failures self.new) };
}

/// Names a key and a plaintext, in proofs alone.
pub trait Whole {
    ghost key: { List ℕ };

    ghost plain: { List ℕ };
}

// A call that passes `Brand` picks both.
impl Whole for Brand {
    ghost key = { [] };

    ghost plain = { [] };
}

/// A folder into whose outputs plaintexts are written, of containers that were read in it.
pub trait OpeningFolder: Folder {
    /// Takes a new output in hand. It is to hold the plaintext of a file that was read.
    fn allow_plain<N: Whole>(&mut self, output: Self::Handle)
        requires may { IfSome (Self.rest self.old) (MayHold (Self.Handle.at output) (Plain N.key N.plain)) }
        ensures allowed { Becomes (allowed (Self.Handle.at output) (Plain N.key N.plain))
            (Self.rest self.old) (Self.rest self.new) }
        ensures fresh { IsFresh (Self.rest self.new) (Self.taken self.new) (Self.failures self.new) }
        ensures kept { IsKept (Self.rest self.new) (Self.taken self.old) (Self.taken self.new) (Self.failures self.old)
            (Self.failures self.new) };

    /// Takes a new output in hand. It is to hold what is opened of a second reading, as far as its chunks are checked,
    /// each at its place, under the header of a first reading that opens under this key. The second may give anything.
    fn allow_checked(
        &mut self,
        output: Self::Handle,
        key: &Key,
        header: &Header,
        reader: &Self::Reader,
    )
        requires may { IfSome (Self.rest self.old) (λ was. (last : List ℕ)
            × (Self.Reader.left reader.now ≡ Some last)
            × MayHold (Self.Handle.at output) (Checked key.now header.now last) was) }
        ensures allowed { IfSome (Self.rest self.new) (λ _. (last : List ℕ)
            × (Self.Reader.left reader.now ≡ Some last)
            × Becomes (allowed (Self.Handle.at output) (Checked key.now header.now last))
            (Self.rest self.old) (Self.rest self.new)) }
        ensures fresh { IsFresh (Self.rest self.new) (Self.taken self.new) (Self.failures self.new) }
        ensures kept { IsKept (Self.rest self.new) (Self.taken self.old) (Self.taken self.new) (Self.failures self.old)
            (Self.failures self.new) };
}
