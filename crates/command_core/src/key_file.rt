//! Key files: 64 hex digits of either case, and then nothing, one line feed, or a carriage return and a line feed.
ghost use Rattle.std.specs.Prelude.{◌≡◌, ◌≢◌, ℕ, List, Err, IfOk, IfSome, IfNone};
ghost use Rattle.io_core.specs.Reads.{ConsumesUpTo};
ghost use Rattle.io_core.specs.Streams.{counted};
ghost use Rattle.command_core.specs.KeyFile.{IsKeyText, key_read_failed};

use container_core::Key;
use hex::FromHex;
use ledger_core::{Failed, Source, fill};
use thiserror::Error;

/// Why a key file gave no key. The texts are those that the program prints.
#[derive(Clone, Copy, PartialEq, Eq, Debug, Error)]
pub enum KeyFault {
    /// The file can't be opened for reading. `read_key` never returns it.
    #[error("cannot open")]
    CannotOpen,
    /// The reader failed.
    #[error("read failed")]
    Read,
    /// The content isn't that of a key file.
    #[error("not a key file")]
    NotKeyFile,
}

/// Hex digits of a key.
const DIGITS: usize = 64;

/// Bytes to read of a key file: one more than the longest has.
const MOST: usize = 67;

// Returns the key of a key file with this content, if it is one.
fn key_in(bytes: &[u8]) -> Option<[u8; 32]>
    ensures some { IfSome result (λ key. IsKeyText bytes.now key) }
    ensures none { IfNone result ((key : List ℕ) → ¬ IsKeyText bytes.now key) }
{
    if bytes.len() < DIGITS {
        return None;
    }
    let (digits, end) = bytes.split_at(DIGITS);
    match end {
        [] | [b'\n'] | [b'\r', b'\n'] => {}
        _ => return None,
    }
    match <[u8; 32] as FromHex>::from_hex(digits) {
        Ok(key) => Some(key),
        Err(_) => None,
    }
}

/// Reads a key file to its end, at most 67 bytes. `NotKeyFile` if its content isn't 64 hex digits and one of the three
/// ends. `Read` if the reader fails.
pub fn read_key<R: Source>(reader: &mut R) -> Result<Key, KeyFault>
    ensures key { IfOk result (λ key. IfSome (R.left reader.old) (λ input. IsKeyText input key)) }
    ensures refused { result ≡ Err KeyFault.NotKeyFile
        → IfSome (R.left reader.old) (λ input. (key : List ℕ) → ¬ IsKeyText input key) }
    ensures opened { result ≢ Err KeyFault.CannotOpen }
    ensures bound { ConsumesUpTo (R.left reader.old) (R.left reader.new) 67 }
    ensures read { R.failures reader.new ≡ counted (key_read_failed result) (R.failures reader.old) }
{
    let mut bytes = [0; MOST];
    let n = match fill(reader, &mut bytes) {
        Ok(n) => n,
        Err(Failed) => return Err(KeyFault::Read),
    };
    let (read, _) = bytes.split_at(n);
    match key_in(read) {
        Some(key) => Ok(Key::new(key)),
        None => Err(KeyFault::NotKeyFile),
    }
}
