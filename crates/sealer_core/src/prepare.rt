//! Files of a group before they are sealed: each is opened, its output created, its plaintext read, and it is closed.
ghost use Rattle.std.specs.Prelude.{◌≡◌, ◌≤◌, ◌++◌, List, ℕ, length, map, All, flat_map, IfOk, IfSome, OnErr};
ghost use Rattle.io_core.specs.Streams.{counted};
ghost use Rattle.folder_core.specs.Changes.{IsIdle};
ghost use Rattle.sealer_core.specs.Group.{HasPrepared, HavePrepared, IsOfInput, IsPrepared, name_of, read_failed_of, read_of};
ghost use Rattle.sealer_core.specs.Group.{under_in};

use crate::context::SealContext;
use crate::lane::{fault_of_create, is_too_long};
use command_core::{FileFault, MAX_BYTES};
use container_core::SealFault;
use folder_core::Folder;
use sealing_core::read_plain;
use std::alloc::AllocError;
use std::collections::VecDeque;

/// A file of a group before the sealing.
#[derive(Drop)]
pub(crate) enum Prepared<'a, H: Drop> {
    /// It has no output.
    Refused(&'a str, FileFault),
    /// Its output waits, but its plaintext wasn't read.
    Unread(&'a str, H, SealFault),
    /// Its output waits, and its plaintext of this many bytes is among the jobs.
    Read(&'a str, H, u64),
}

impl<'a, H: Drop> Prepared<'a, H> {
    /// Returns the file's name.
    pub(crate) fn name(&self) -> &'a str
        ensures { result.now ≡ name_of self.now }
    {
        match self {
            Prepared::Refused(name, _) => name,
            Prepared::Unread(name, _, _) => name,
            Prepared::Read(name, _, _) => name,
        }
    }
}

// Reads the plaintext of an opened file, whose output waits, into the memory of `room`: it becomes the last of the jobs.
// Of a file that was too long when it was opened nothing is read.
fn read_job<'a, F: Folder>(
    context: &SealContext<'_>,
    folder: &F,
    reader: &mut F::Reader,
    name: &'a str,
    output: F::Handle,
    room: Vec<u8>,
    jobs: &mut Vec<Vec<u8>>,
) -> Prepared<'a, F::Handle>
    requires short { All (λ job. length job.items ≤ MAX_BYTES) jobs.old.items }
    ensures short { All (λ job. length job.items ≤ MAX_BYTES) jobs.new.items }
    ensures read { map (λ job. length job.items) jobs.new.items
        ≡ map (λ job. length job.items) jobs.old.items ++ read_of result }
    ensures name { name_of result ≡ name.now }
    ensures prepared { IsPrepared result }
    ensures input { IfSome (F.rest folder.now) (λ _. IfSome (F.Reader.left reader.old) (λ input. (own : List (List ℕ))
        × (map (λ job. job.items) jobs.new.items ≡ map (λ job. job.items) jobs.old.items ++ own)
        × IsOfInput F.Handle.at context.now.options.now.max_bytes (F.Handle.at output) input result own)) }
    ensures count { F.Reader.failures reader.new ≡ counted (read_failed_of result) (F.Reader.failures reader.old) }
{
    let most = context.options.max_bytes;
    if is_too_long(folder, reader, most) {
        return Prepared::Unread(name, output, SealFault::TooLong);
    }
    let expected = folder.length(reader).unwrap_or(0);
    let plain = match read_plain(context.alloc, reader, room, most, expected) {
        Ok(plain) => plain,
        Err(fault) => return Prepared::Unread(name, output, fault),
    };
    let bytes = plain.len() as u64;
    let Ok(()) = jobs.push(plain) else {
        return Prepared::Unread(name, output, SealFault::OutOfMemory);
    };
    Prepared::Read(name, output, bytes)
}

// Opens a file, creates its output, reads the file into the memory of `room`, and closes it.
fn prepare_file<'a, F: Folder>(
    context: &SealContext<'_>,
    folder: &mut F,
    name: &'a str,
    room: Vec<u8>,
    jobs: &mut Vec<Vec<u8>>,
) -> Prepared<'a, F::Handle>
    requires idle { IsIdle (F.rest folder.old) }
    requires short { All (λ job. length job.items ≤ MAX_BYTES) jobs.old.items }
    ensures idle { IsIdle (F.rest folder.new) }
    ensures short { All (λ job. length job.items ≤ MAX_BYTES) jobs.new.items }
    ensures read { map (λ job. length job.items) jobs.new.items
        ≡ map (λ job. length job.items) jobs.old.items ++ read_of result }
    ensures name { name_of result ≡ name.now }
    ensures prepared { IsPrepared result }
    ensures waits { HasPrepared F.Handle.at (under_in context.now) (map (λ job. job.items) jobs.old.items)
        (map (λ job. job.items) jobs.new.items) result (F.rest folder.old) (F.rest folder.new) }
{
    let Ok(output) = format!(in context.alloc; "{name}.stm") else {
        return Prepared::Refused(name, FileFault::OutOfMemory);
    };
    let Ok(mut reader) = folder.open(name) else {
        return Prepared::Refused(name, FileFault::CannotOpen);
    };
    let prepared = match folder.create(output.as_str()) {
        Ok(output) => read_job(context, folder, &mut reader, name, output, room, jobs),
        Err(fault) => Prepared::Refused(name, fault_of_create(fault)),
    };
    folder.close(name, reader);
    prepared
}

/// Prepares the files of a group in turn. Returns what became of each, and the plaintexts of those that were read, in the
/// memory of `rooms` where one of them fits.
pub(crate) fn prepare_group<'a, F: Folder>(
    context: &SealContext<'_>,
    folder: &mut F,
    names: &[&'a str],
    rooms: &mut Vec<Vec<u8>>,
) -> Result<(VecDeque<Prepared<'a, F::Handle>>, Vec<Vec<u8>>), AllocError>
    requires idle { IsIdle (F.rest folder.old) }
    ensures names { IfOk result (λ group. map name_of group.0.items ≡ map (λ name. name.now) names.now) }
    ensures prepared { IfOk result (λ group. All IsPrepared group.0.items) }
    ensures waits { IfOk result (λ group. HavePrepared F.Handle.at (under_in context.now) group.0.items
        (map (λ job. job.items) group.1.items) (F.rest folder.old) (F.rest folder.new)) }
    ensures short { IfOk result (λ group. All (λ job. length job.items ≤ MAX_BYTES) group.1.items) }
    ensures read { IfOk result (λ group. map (λ job. length job.items) group.1.items ≡ flat_map read_of group.0.items) }
    ensures refused { OnErr result (folder.new ≡ folder.old) }
{
    let mut files = VecDeque::with_capacity(context.alloc, names.len())?;
    let mut jobs = Vec::with_capacity(context.alloc, names.len())?;
    for name in names {
        let room = rooms.pop().unwrap_or(Vec::new(context.alloc));
        files.push_back_reserved(prepare_file(context, folder, name, room, &mut jobs));
    }
    Ok((files, jobs))
}
