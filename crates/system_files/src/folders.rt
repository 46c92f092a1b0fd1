//! The folders on the way to an output below a folder.
//!
//! Each has to be a real folder: a symbolic link there could lead elsewhere. What is missing is made. Between that look
//! and the making of the output another user who may write in these folders can replace one; nothing is claimed then.

use crate::cause::Cause;
use crate::names::Target;
use folder_core::first_part;
use std::alloc::Global;
use std::fs;
use std::fs::{DirBuilder, File, Metadata, OpenFile};
use std::io::ErrorKind;
use std::os::unix::fs::DirBuilderExt;
use std::rt::Files;
use system_ledger::folder_and_name;

/// The mode of a new folder that only its owner may use.
pub(crate) const PRIVATE_FOLDER: u32 = 0o700;

/// The mode of any other new folder. The system takes away what the umask has.
pub(crate) const SHARED_FOLDER: u32 = 0o777;

/// How missing folders are made.
#[derive(Clone, Copy)]
pub(crate) struct NewFolders {
    pub(crate) mode: u32,
    /// Whether the folder with a new one's name is synced to the disk.
    pub(crate) sync: bool,
}

/// Checks that each folder on the way to this path is there, below the folder into which outputs go with the folders of
/// their paths. Missing ones are made if `new` is given.
pub(crate) fn take_way<R: Files + AllocGlobal>(
    rt: &R,
    to: Target<'_>,
    path: &str,
    new: Option<NewFolders>,
) -> Result<(), Cause> {
    let Target::Tree(folder) = to else {
        return Ok(());
    };
    match path.strip_prefix(folder) {
        Some(rest) => take_steps(rt, folder, rest, new),
        None => Err(Cause::NoOutputName),
    }
}

// The same for the folders of this end of a path, which begins with a slash.
fn take_steps<R: Files + AllocGlobal>(
    rt: &R,
    folder: &str,
    end: &str,
    new: Option<NewFolders>,
) -> Result<(), Cause> {
    let Some((_, place)) = first_part(end) else {
        return Err(Cause::NoOutputName);
    };
    let mut way = String::new(rt.alloc());
    if way.push_str(folder).is_err() {
        return Err(Cause::OutOfMemory);
    }
    let mut rest = place;
    'steps: while let Some((part, more)) = first_part(rest) {
        if way.push('/').is_err() || way.push_str(part).is_err() {
            return Err(Cause::OutOfMemory);
        }
        match take_step(rt, way.as_str(), new) {
            Ok(()) => rest = more,
            Err(cause) => return Err(cause),
        }
    }
    Ok(())
}

// Checks that there is a real folder at this path, or makes it.
fn take_step<R: Files>(rt: &R, way: &str, new: Option<NewFolders>) -> Result<(), Cause> {
    match (fs::symlink_metadata(rt, way), new) {
        (Ok(found), _) => real_folder(&found),
        (Err(error), Some(new)) if error.kind() == ErrorKind::NotFound => make_folder(rt, way, new),
        (Err(error), _) => Err(Cause::of(&error)),
    }
}

// Checks that what has this metadata is a real folder.
fn real_folder(found: &Metadata) -> Result<(), Cause> {
    if found.is_dir() {
        Ok(())
    } else if found.is_symlink() {
        Err(Cause::LinkOnWay)
    } else {
        Err(Cause::NotFolder)
    }
}

// Makes a folder. If its name can't be synced, it is removed again.
fn make_folder<R: Files>(rt: &R, way: &str, new: NewFolders) -> Result<(), Cause> {
    let mut builder = DirBuilder::new();
    builder.mode(new.mode);
    let is_made = match builder.create(rt, way) {
        Ok(()) => true,
        // Another run may have made it.
        Err(error) if error.kind() == ErrorKind::AlreadyExists => {
            match fs::symlink_metadata(rt, way) {
                Ok(found) => real_folder(&found)?,
                Err(error) => return Err(Cause::of(&error)),
            }
            false
        }
        Err(error) => return Err(Cause::of_making(&error)),
    };
    if !new.sync || is_synced(rt, folder_and_name(way).0) {
        return Ok(());
    }
    if is_made {
        let _ = fs::remove_dir(rt, way);
    }
    Err(Cause::SystemError)
}

// Syncs this folder to the disk. Returns whether it is there.
fn is_synced<R: Files>(rt: &R, folder: &str) -> bool {
    match File::open(rt, folder) {
        Ok(opened) => opened.sync_all().is_ok(),
        Err(_) => false,
    }
}
