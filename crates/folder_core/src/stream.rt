//! Streams: a writer as outputs of which there is one, and a folder whose files are opened to a stream.
//!
//! Nothing is known of their record. What a stream took is what its writer took. The methods of `ToStream` say themselves
//! what each does to the record of its folder: a function over any folder sees the trait's contract alone.
ghost use Rattle.std.specs.Prelude.{◌≡◌, ◌<◌, IfOk, IfSome, OnErr, OnOk, Some, false, is_err, length, true};
ghost use Rattle.std.specs.Io.{WritesAtMost};
ghost use Rattle.std.proofs.Props.{props};
ghost use Rattle.io_core.specs.Streams.{WriteAppends, counted};
ghost use Rattle.folder_core.specs.Record.{Closed, Happened, Read, Repeated, Unread, Unrepeated};
ghost use Rattle.folder_core.specs.Changes.{Becomes, IsIdle, Tells, TellsBytes, with_entry};

use crate::fault::FolderFault;
use crate::folder::{Folder, OpeningFolder, Outputs, Place, Whole};
use container_core::{Header, Key, Shape};
use io_core::{Failed, Sink};

/// Stands for the output of a stream.
#[derive(Debug, Drop)]
pub struct OneOutput;

impl Place for OneOutput {}

/// A writer, as outputs of which there is one. That may hold anything, and doesn't end.
#[derive(Drop)]
pub struct Stream<W: Sink> {
    /// The writer.
    pub writer: W,
}

impl<W: Sink> Outputs for Stream<W> {
    type Handle = OneOutput;

    ghost taken = { λ s. W.taken s.writer };

    ghost failures = { λ s. W.failures s.writer };

    fn allow_container(&mut self, _output: OneOutput, _number: u32, _shape: &Shape) {}

    fn write(&mut self, bytes: &[u8]) -> Result<usize, Failed> {
        self.writer.write(bytes)
    }

    fn finish(&mut self) -> Result<(), Failed>
        ensures done { is_err result ≡ false }
        ensures same { self.new ≡ self.old }
    {
        Ok(())
    }

    fn discard(&mut self) -> Result<(), Failed>
        ensures same { self.new ≡ self.old }
    {
        Ok(())
    }

    ghost sound = { λ _. ∣ (tt, tt) ∣₁ };
}

/// A folder from which files are read, and a stream to which one of them is opened. No other output can be created.
#[derive(Drop)]
pub struct ToStream<F: Folder, W: Sink> {
    /// The folder.
    pub folder: F,
    /// The stream.
    pub stream: Stream<W>,
    ghost idle: { IsIdle (F.rest folder) } by { Prim.hlevel props },
}

impl<F: Folder, W: Sink> ToStream<F, W> {
    /// A folder in which nothing is in hand, and a stream.
    pub fn of(folder: F, stream: Stream<W>) -> ToStream<F, W>
        requires idle { IsIdle (F.rest folder) }
        ensures folder { result.folder ≡ folder }
        ensures stream { result.stream ≡ stream }
    {
        ToStream { folder, stream }
    }
}

impl<F: Folder, W: Sink> Outputs for ToStream<F, W> {
    type Handle = OneOutput;

    ghost taken = { λ t. W.taken t.stream.writer };

    ghost failures = { λ t. W.failures t.stream.writer };

    fn allow_container(&mut self, _output: OneOutput, _number: u32, _shape: &Shape)
        ensures same { self.new ≡ self.old }
    {}

    fn write(&mut self, bytes: &[u8]) -> Result<usize, Failed>
        ensures most { WritesAtMost result bytes.now }
        ensures some { IfOk result (λ n. 0 < length bytes.now → 0 < n) }
        ensures bytes { WriteAppends (W.taken self.old.stream.writer) (W.taken self.new.stream.writer) result bytes.now }
        ensures count { W.failures self.new.stream.writer ≡ counted (is_err result) (W.failures self.old.stream.writer) }
        ensures folder { self.new.folder ≡ self.old.folder }
    {
        self.stream.write(bytes)
    }

    fn finish(&mut self) -> Result<(), Failed>
        ensures done { is_err result ≡ false }
        ensures folder { self.new.folder ≡ self.old.folder }
        ensures stream { self.new.stream ≡ self.old.stream }
    {
        self.stream.finish()
    }

    fn discard(&mut self) -> Result<(), Failed>
        ensures folder { self.new.folder ≡ self.old.folder }
        ensures stream { self.new.stream ≡ self.old.stream }
    {
        self.stream.discard()
    }

    ghost sound = { λ _. ∣ (tt, tt) ∣₁ };
}

impl<F: Folder, W: Sink> Folder for ToStream<F, W> {
    type Reader = F::Reader;

    fn open(&mut self, name: &str) -> Result<F::Reader, Failed>
        ensures opened { IfOk result (λ reader. TellsBytes (Read name.now) (F.Reader.left reader)
            (F.rest self.old.folder) (F.rest self.new.folder)) }
        ensures count { IfOk result (λ reader. IfSome (F.rest self.new.folder) (λ _. F.Reader.failures reader
            ≡ Some 0)) }
        ensures unopened { OnErr result (Becomes (with_entry (Happened (Unread name.now)))
            (F.rest self.old.folder) (F.rest self.new.folder)) }
        ensures stream { self.new.stream ≡ self.old.stream }
    {
        self.folder.open(name)
    }

    fn length(&self, reader: &F::Reader) -> Option<u64>
        ensures length { IfSome (F.rest self.now.folder) (λ _. IfSome (F.Reader.left reader.now) (λ bytes.
            IfSome result (λ n. n ≡ length bytes))) }
    {
        self.folder.length(reader)
    }

    fn can_repeat(&self, reader: &F::Reader) -> bool {
        self.folder.can_repeat(reader)
    }

    fn again(&mut self, name: &str, reader: &mut F::Reader) -> Result<(), Failed>
        ensures again { OnOk result (TellsBytes (Repeated name.now) (F.Reader.left reader.new)
            (F.rest self.old.folder) (F.rest self.new.folder)) }
        ensures refused { OnErr result (Becomes (with_entry (Happened (Unrepeated name.now)))
            (F.rest self.old.folder) (F.rest self.new.folder)) }
        ensures count { IfSome (F.rest self.new.folder) (λ _. F.Reader.failures reader.new
            ≡ counted (is_err result) (F.Reader.failures reader.old)) }
        ensures stream { self.new.stream ≡ self.old.stream }
    {
        self.folder.again(name, reader)
    }

    fn close(&mut self, name: &str, reader: F::Reader)
        ensures closed { Tells (Closed name.now) (F.Reader.failures reader)
            (F.rest self.old.folder) (F.rest self.new.folder) }
        ensures stream { self.new.stream ≡ self.old.stream }
    {
        self.folder.close(name, reader);
    }

    fn create(&mut self, _name: &str) -> Result<OneOutput, FolderFault>
        ensures refused { is_err result ≡ true }
        ensures same { self.new ≡ self.old }
    {
        Err(FolderFault::Failed)
    }

    fn abandon(&mut self, _output: OneOutput) -> Result<(), Failed>
        ensures same { self.new ≡ self.old }
    {
        Err(Failed)
    }
}

impl<F: Folder, W: Sink> OpeningFolder for ToStream<F, W> {
    fn allow_plain<N: Whole>(&mut self, _output: OneOutput)
        ensures same { self.new ≡ self.old }
    {}

    fn allow_checked(
        &mut self,
        _output: OneOutput,
        _key: &Key,
        _header: &Header,
        _reader: &F::Reader,
    )
        ensures same { self.new ≡ self.old }
    {}
}
