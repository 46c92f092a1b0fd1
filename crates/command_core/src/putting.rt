//! One output of a folder that keeps a record: it is created, filled with a plaintext, and closed. The record grows by
//! one entry.
//!
//! An engine knows nothing of the record. So the functions that end in `named` name what stays the same while it writes,
//! or the plaintext that an output may hold.
ghost use Rattle.std.specs.Prelude.{◌≡◌, ◌≤◌, ℕ, List, Some, IfSome, OnErr, OnOk, false, is_err, option_map};
ghost use Rattle.io_core.specs.Streams.{Appends, AppendsFront, counted};
ghost use Rattle.io_core.specs.Views.{io_view};
ghost use Rattle.opening_core.specs.Twice.{HasWrittenAgain, MayWrite};
ghost use Rattle.opening_core.specs.Workers.{AreWorkers};
ghost use Rattle.output_core.specs.Bounds.{Admits};
ghost use Rattle.folder_core.specs.Record.{Plain, WasRead, bound_in};
ghost use Rattle.folder_core.specs.Changes.{Becomes, IsFresh, IsIdle, MayHold, allowed};
ghost use Rattle.folder_core.specs.Growth.{Grows};
ghost use Rattle.command_core.specs.Putting.{IsAgainIn, PutsAgain, PutsPlain, fault_of_fill, stopped_reading};

use crate::commands::{MAX_OPENED_BYTES, fault_again};
use crate::context::FilesContext;
use crate::line::FileFault;
use claim_core::Free;
use container_core::{Header, Key, OpenFault};
use folder_core::{
    FolderFault, OpeningFolder, Outputs, Rest, Whole, finish_or_discard, lent_of, taken_in_hand,
};
use io_core::Failed;
use opening_core::{Plaintext, Stopped, Workers, write_again};
use std::alloc::Global;
use std::marker::Brand;
use std::thread::Threads;
use std::time::Clock;

/// Why an output isn't whole.
#[derive(Drop)]
pub(crate) enum FillFault {
    /// It was refused.
    Uncreated(FolderFault),
    /// It was given up.
    Unfilled(Stopped),
}

/// Returns what an output that isn't whole is reported as.
pub(crate) fn fault_of_output(fault: FillFault) -> FileFault
    ensures { result ≡ fault_of_fill fault }
{
    match fault {
        FillFault::Uncreated(FolderFault::Exists) => FileFault::OutputExists,
        FillFault::Uncreated(FolderFault::Failed) => FileFault::CannotCreate,
        FillFault::Unfilled(stopped) => fault_again(stopped),
    }
}

// Fills the output in hand with a plaintext. The record and the folder are those that are named.
fn plain_named<'f, N: Rest, F: Outputs>(
    folder: &'f mut F,
    plain: &Plaintext,
) -> (Result<(), Failed>, &'f mut F)
    requires rest { F.rest folder.old ≡ N.rest }
    requires reference { folder.ghost_name ≡ N.folder }
    requires may { Admits (option_map bound_in N.rest) (F.taken folder.old) plain.now }
    ensures rest { F.rest result.1.now ≡ N.rest }
    ensures reference { result.1.ghost_name ≡ folder.entry.ghost_name }
    ensures ok { OnOk result.0 (Appends (F.taken folder.old) (F.taken result.1.now) plain.now) }
    ensures err { OnErr result.0 (AppendsFront (F.taken folder.old) (F.taken result.1.now) plain.now) }
    ensures count { F.failures result.1.now ≡ counted (is_err result.0) (F.failures folder.old) }
{
    let mut output = taken_in_hand::<F, N>(folder);
    let done = plain.put_to(&mut output);
    (done, lent_of(output))
}

// Fills the output in hand with a plaintext. Where a write fails it has a prefix of that.
fn fill_plain<F: Outputs>(folder: &mut F, plain: &Plaintext) -> Result<(), Failed>
    requires may { Admits (option_map bound_in (F.rest folder.old)) (F.taken folder.old) plain.now }
    ensures rest { F.rest folder.new ≡ F.rest folder.old }
    ensures ok { OnOk result (Appends (F.taken folder.old) (F.taken folder.new) plain.now) }
    ensures err { OnErr result (AppendsFront (F.taken folder.old) (F.taken folder.new) plain.now) }
    ensures count { F.failures folder.new ≡ counted (is_err result) (F.failures folder.old) }
{
    let (done, _) = plain_named::<Brand, F>(folder, plain);
    done
}

// Takes a new output in hand, to hold the plaintext that is named.
fn allow_named<N: Whole, F: OpeningFolder>(
    folder: &mut F,
    output: F::Handle,
    key: &Key,
    plain: &Plaintext,
)
    requires key { N.key ≡ key.now }
    requires plain { N.plain ≡ plain.now }
    requires may { IfSome (F.rest folder.old) (MayHold (F.Handle.at output) (Plain key.now plain.now)) }
    ensures allowed { Becomes (allowed (F.Handle.at output) (Plain key.now plain.now)) (F.rest folder.old)
        (F.rest folder.new) }
    ensures fresh { IsFresh (F.rest folder.new) (F.taken folder.new) (F.failures folder.new) }
{
    folder.allow_plain::<N>(output);
}

// Takes a new output in hand, to hold this plaintext.
fn allow_whole<F: OpeningFolder>(folder: &mut F, output: F::Handle, key: &Key, plain: &Plaintext)
    requires may { IfSome (F.rest folder.old) (MayHold (F.Handle.at output) (Plain key.now plain.now)) }
    ensures allowed { Becomes (allowed (F.Handle.at output) (Plain key.now plain.now)) (F.rest folder.old)
        (F.rest folder.new) }
    ensures fresh { IsFresh (F.rest folder.new) (F.taken folder.new) (F.failures folder.new) }
{
    allow_named::<Brand, F>(folder, output, key, plain);
}

/// Creates an output and writes a plaintext to it, that of a file which was read. Then finishes it. Where a write fails,
/// or its end, it is given up.
pub(crate) fn put_plain<F: OpeningFolder>(
    folder: &mut F,
    output: &str,
    key: &Key,
    plain: &Plaintext,
) -> Result<(), FillFault>
    requires idle { IsIdle (F.rest folder.old) }
    requires read { IfSome (F.rest folder.old) (λ r. WasRead r.entries key.now plain.now) }
    ensures put { Grows (PutsPlain output.now key.now plain.now result) (F.rest folder.old) (F.rest folder.new) }
    // No reader is asked.
    ensures read { stopped_reading result ≡ false }
{
    let handle = match folder.create(output) {
        Ok(handle) => handle,
        Err(fault) => return Err(FillFault::Uncreated(fault)),
    };
    allow_whole(folder, handle, key, plain);
    match fill_plain(folder, plain) {
        Ok(()) => match finish_or_discard(folder) {
            Ok(()) => Ok(()),
            Err(Failed) => Err(FillFault::Unfilled(Stopped::Broken(OpenFault::Write))),
        },
        Err(Failed) => {
            let _ = folder.discard();
            Err(FillFault::Unfilled(Stopped::Broken(OpenFault::Write)))
        }
    }
}

// Writes by `write_again`. The record and the folder are those that are named.
fn again_named<'f, 'b, 'a, N: Rest, T: Threads + Clock + Sync, F: OpeningFolder>(
    rt: &T,
    alloc: Global,
    key: &'a Key,
    folder: &'f mut F,
    header: &Header,
    reader: &mut F::Reader,
    most: u64,
    workers: Workers<'b, 'a>,
) -> (Result<u64, Stopped>, &'f mut F)
    requires workers { AreWorkers workers }
    requires most { most ≤ MAX_OPENED_BYTES }
    requires rest { F.rest folder.old ≡ N.rest }
    requires reference { folder.ghost_name ≡ N.folder }
    requires may { IfSome (option_map bound_in N.rest) (MayWrite key.now header.now most
        (F.Reader.left reader.old) (F.taken folder.old)) }
    ensures rest { F.rest result.1.now ≡ N.rest }
    ensures reference { result.1.ghost_name ≡ folder.entry.ghost_name }
    ensures written { HasWrittenAgain key.now header.now most
        (io_view (F.Reader.left reader.old) (F.Reader.failures reader.old) (F.taken folder.old) (F.failures folder.old))
        (io_view (F.Reader.left reader.new) (F.Reader.failures reader.new) (F.taken result.1.now)
        (F.failures result.1.now)) result.0 }
{
    let output = taken_in_hand::<F, N>(folder);
    let (done, output) = write_again(rt, alloc, key, header, reader, output, most, workers, &Free);
    (done, lent_of(output))
}

/// Writes the plaintext of a container with this header, which is read once more, to the output in hand: `most` bytes at
/// most.
pub(crate) fn fill_again<'b, 'a, T: Threads + Clock + Sync, F: OpeningFolder>(
    rt: &T,
    alloc: Global,
    key: &'a Key,
    folder: &mut F,
    header: &Header,
    reader: &mut F::Reader,
    most: u64,
    workers: Workers<'b, 'a>,
) -> Result<u64, Stopped>
    requires workers { AreWorkers workers }
    requires most { most ≤ MAX_OPENED_BYTES }
    requires may { IfSome (option_map bound_in (F.rest folder.old)) (MayWrite key.now header.now most
        (F.Reader.left reader.old) (F.taken folder.old)) }
    ensures rest { F.rest folder.new ≡ F.rest folder.old }
    ensures written { HasWrittenAgain key.now header.now most
        (io_view (F.Reader.left reader.old) (F.Reader.failures reader.old) (F.taken folder.old) (F.failures folder.old))
        (io_view (F.Reader.left reader.new) (F.Reader.failures reader.new) (F.taken folder.new) (F.failures folder.new))
        result }
{
    let (done, _) = again_named::<Brand, T, F>(
        rt, alloc, key, folder, header, reader, most, workers,
    );
    done
}

/// Creates an output and writes to it the plaintext of a file that was read, opens under this header, and was set back to
/// its first byte: it is read once more. Then finishes the output. Where a write fails, a read, or the output's end, or
/// the second reading gives other bytes, the output is given up.
pub(crate) fn put_again<'b, 'a, T: Threads + Clock + Sync, F: OpeningFolder>(
    rt: &T,
    context: &FilesContext<'_, 'a>,
    folder: &mut F,
    output: &str,
    header: &Header,
    reader: &mut F::Reader,
    workers: Workers<'b, 'a>,
) -> Result<u64, FillFault>
    requires workers { AreWorkers workers }
    requires idle { IsIdle (F.rest folder.old) }
    requires read { IfSome (F.rest folder.old)
        (IsAgainIn context.now.key.now header.now (F.Reader.left reader.old)) }
    ensures put { Grows (λ new. (last : List ℕ) × (F.Reader.left reader.old ≡ Some last)
        × PutsAgain output.now context.now.key.now context.now.options.now.max_bytes header.now last result new)
        (F.rest folder.old) (F.rest folder.new) }
    ensures read { F.Reader.failures reader.new ≡ counted (stopped_reading result) (F.Reader.failures reader.old) }
{
    let handle = match folder.create(output) {
        Ok(handle) => handle,
        Err(fault) => return Err(FillFault::Uncreated(fault)),
    };
    let FilesContext {
        alloc,
        key,
        options,
    } = *context;
    folder.allow_checked(handle, key, header, reader);
    match fill_again(
        rt,
        alloc,
        key,
        folder,
        header,
        reader,
        options.max_bytes,
        workers,
    ) {
        Ok(n) => match finish_or_discard(folder) {
            Ok(()) => Ok(n),
            Err(Failed) => Err(FillFault::Unfilled(Stopped::Broken(OpenFault::Write))),
        },
        Err(stopped) => {
            let _ = folder.discard();
            Err(FillFault::Unfilled(stopped))
        }
    }
}
