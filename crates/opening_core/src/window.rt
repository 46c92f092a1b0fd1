//! The bytes that were read from an input and not yet opened, in room that is reserved once.
//!
//! A buffer must have bytes to be read into. They are written as zeros when the input first gets that far, and
//! overwritten by reads from then on.
ghost use Rattle.std.specs.Prelude.{◌≡◌, ◌+◌, ◌-◌, ◌<◌, ◌≤◌, ◌++◌, ℕ, List, [], ◌∷◌, length, take, drop, vec_len};
ghost use Rattle.std.specs.Prelude.{vec_capacity, IfOk, OnOk, OnErr, is_err};
ghost use Rattle.io_core.specs.Reads.{ConsumesUpTo};
ghost use Rattle.io_core.specs.Streams.{Consumes, IsAtEnd, Keeps, counted};

use io_core::{Failed, Source};
use std::alloc::{AllocError, Global};
use std::marker::Model;
use std::mem;

// Bytes by which the buffer grows first, since a small file needs no more.
const FIRST_STEP: usize = 1 << 13;

// Most bytes by which it grows at once.
const STEP: usize = 1 << 16;

static ZEROS: [u8; STEP] = [0; STEP];

/// What was read from an input and not yet opened. Contracts see the bytes that are held, and how many there is room
/// for.
#[derive(Drop)]
pub struct Window {
    bytes: Vec<u8>,
    held: usize,
}

impl Model for Window {
    ghost use Rattle.std.specs.Prelude.{◌≤◌, take, vec_len, vec_capacity};
    ghost use Rattle.opening_core.specs.ReadAhead.{WindowView};

    ghost Value = { WindowView };

    ghost view = { λ w. record { held = take w.held w.bytes.items; room = vec_capacity w.bytes } };

    ghost invariant = { λ w. w.held ≤ vec_len w.bytes };
}

// Appends `count` zeros, for which there is room.
fn grow(bytes: &mut Vec<u8>, count: usize)
    requires count { count ≤ STEP }
    requires room { vec_len bytes.old + count ≤ vec_capacity bytes.old }
    ensures kept { take (vec_len bytes.old) bytes.new.items ≡ bytes.old.items }
    ensures grown { vec_len bytes.new ≡ vec_len bytes.old + count }
    ensures room { vec_capacity bytes.old ≤ vec_capacity bytes.new }
{
    match bytes.extend_from_slice(&ZEROS[..count]) {
        Ok(()) => {}
        Err(AllocError) => unreachable!(),
    }
}

// Reads once into the bytes of a buffer from `begin` to before `end`.
fn read_between<R: Source>(
    source: &mut R,
    bytes: &mut [u8],
    begin: usize,
    end: usize,
) -> Result<usize, Failed>
    requires { (begin < end) × (end ≤ length bytes.old) }
    ensures within { IfOk result (λ n. begin + n ≤ end) }
    ensures read { IfOk result (λ n. (read : List ℕ) × Consumes (R.left source.old) (R.left source.new) read
        × (take (begin + n) bytes.new ≡ take begin bytes.old ++ read) × (length read ≡ n)) }
    ensures end { IfOk result (λ n. n ≡ 0 → IsAtEnd (R.left source.new)) }
    ensures kept { take begin bytes.new ≡ take begin bytes.old }
    ensures err { OnErr result (Keeps (R.left source.old) (R.left source.new)) }
    ensures count { R.failures source.new ≡ counted (is_err result) (R.failures source.old) }
{
    source.read(&mut bytes[begin..end])
}

// Reads once after the first `held` bytes of a buffer; then it has at most `upto`.
fn read_behind<R: Source>(
    source: &mut R,
    bytes: &mut Vec<u8>,
    held: usize,
    upto: usize,
) -> Result<usize, Failed>
    requires held { held ≤ vec_len bytes.old }
    requires upto { (held < upto) × (upto ≤ vec_capacity bytes.old) }
    ensures within { IfOk result (λ n. (held + n ≤ upto) × (held + n ≤ vec_len bytes.new)) }
    ensures read { IfOk result (λ n. (read : List ℕ) × Consumes (R.left source.old) (R.left source.new) read
        × (take (held + n) bytes.new.items ≡ take held bytes.old.items ++ read) × (length read ≡ n)) }
    ensures end { IfOk result (λ n. n ≡ 0 → IsAtEnd (R.left source.new)) }
    ensures kept { take held bytes.new.items ≡ take held bytes.old.items }
    ensures err { OnErr result (Keeps (R.left source.old) (R.left source.new)) }
    ensures count { R.failures source.new ≡ counted (is_err result) (R.failures source.old) }
    ensures still { held ≤ vec_len bytes.new }
    ensures room { vec_capacity bytes.old ≤ vec_capacity bytes.new }
{
    if bytes.len() == held {
        let step = if held < FIRST_STEP { FIRST_STEP } else { STEP };
        grow(bytes, (upto - held).min(step));
    }
    let end = bytes.len().min(upto);
    read_between(source, bytes.as_mut_slice(), held, end)
}

// Reads after the first `held` bytes of a buffer until it has `upto` or the input ends. Returns how many it has. A
// failure keeps those that were held.
fn fill_upto<R: Source>(
    source: &mut R,
    bytes: &mut Vec<u8>,
    held: usize,
    upto: usize,
) -> Result<usize, Failed>
    requires held { held ≤ vec_len bytes.old }
    requires upto { (held ≤ upto) × (upto ≤ vec_capacity bytes.old) }
    ensures within { IfOk result (λ n. (held ≤ n) × (n ≤ upto) × (n ≤ vec_len bytes.new)) }
    ensures read { IfOk result (λ n. (read : List ℕ) × Consumes (R.left source.old) (R.left source.new) read
        × (take n bytes.new.items ≡ take held bytes.old.items ++ read)) }
    ensures end { IfOk result (λ n. n < upto → IsAtEnd (R.left source.new)) }
    ensures kept { take held bytes.new.items ≡ take held bytes.old.items }
    ensures err { OnErr result (ConsumesUpTo (R.left source.old) (R.left source.new) (upto - held)) }
    ensures count { R.failures source.new ≡ counted (is_err result) (R.failures source.old) }
    ensures still { held ≤ vec_len bytes.new }
    ensures room { vec_capacity bytes.old ≤ vec_capacity bytes.new }
{
    let mut filled = held;
    'filling: while filled < upto {
        match read_behind(source, bytes, filled, upto) {
            Ok(0) => return Ok(filled),
            Ok(n) => filled += n,
            Err(Failed) => return Err(Failed),
        }
    }
    Ok(filled)
}

// Writes the first byte of a buffer, within its capacity. The bytes after it stay, to be overwritten.
fn put_first(bytes: &mut Vec<u8>, byte: u8)
    requires { 0 < vec_capacity bytes.old }
    ensures first { take 1 bytes.new.items ≡ byte ∷ [] }
    ensures len { 1 ≤ vec_len bytes.new }
    ensures room { vec_capacity bytes.old ≤ vec_capacity bytes.new }
{
    if bytes.is_empty() {
        bytes.push_reserved(byte);
    } else {
        bytes[0] = byte;
    }
}

impl Window {
    /// Returns a window that holds nothing, with room for `room` bytes. `AllocError` if memory was refused.
    pub fn new(alloc: Global, room: usize) -> Result<Window, AllocError>
        ensures held { IfOk result (λ window. window.held ≡ []) }
        ensures room { IfOk result (λ window. room ≤ window.room) }
    {
        let bytes = Vec::with_capacity(alloc, room)?;
        Ok(Window { bytes, held: 0 })
    }

    /// Takes the buffer out, with the bytes that are held first. Then the window holds nothing, and has no room.
    pub(crate) fn take_buffer(&mut self, alloc: Global) -> Vec<u8>
        ensures held { take (length self.old.held) result.items ≡ self.old.held }
        ensures long { length self.old.held ≤ vec_len result }
        ensures room { vec_capacity result ≡ self.old.room }
    {
        let mut bytes = Vec::new(alloc);
        mem::swap(&mut bytes, &mut self.bytes);
        self.held = 0;
        bytes
    }

    /// Gives a buffer back, whose first `held` bytes are held.
    pub(crate) fn give_buffer(&mut self, bytes: Vec<u8>, held: usize)
        requires { held ≤ vec_len bytes }
        ensures held { self.new.held ≡ take held bytes.items }
        ensures room { self.new.room ≡ vec_capacity bytes }
    {
        self.bytes = bytes;
        self.held = held;
    }

    /// Returns the bytes that are held.
    pub fn held(&self) -> &[u8]
        ensures { result.now ≡ self.now.held }
    {
        let (held, _) = self.bytes.as_slice().split_at(self.held);
        held
    }

    /// Makes this byte all that is held. There is room for it.
    pub fn begin_with(&mut self, byte: u8)
        requires { 0 < self.old.room }
        ensures held { self.new.held ≡ byte ∷ [] }
        ensures room { self.old.room ≤ self.new.room }
    {
        put_first(&mut self.bytes, byte);
        self.held = 1;
    }

    /// Reads on until `upto` bytes are held, for which there is room, or the input ends. A failure keeps what was held
    /// before, and loses what was read in this call.
    pub fn fill<R: Source>(&mut self, source: &mut R, upto: usize) -> Result<(), Failed>
        requires upto { (length self.old.held ≤ upto) × (upto ≤ self.old.room) }
        ensures read { OnOk result ((read : List ℕ) × Consumes (R.left source.old) (R.left source.new) read
            × (self.new.held ≡ self.old.held ++ read)) }
        ensures within { length self.new.held ≤ upto }
        ensures end { OnOk result (length self.new.held < upto → IsAtEnd (R.left source.new)) }
        ensures kept { OnErr result (self.new.held ≡ self.old.held) }
        ensures lost { OnErr result (ConsumesUpTo (R.left source.old) (R.left source.new)
            (upto - length self.old.held)) }
        ensures count { R.failures source.new ≡ counted (is_err result) (R.failures source.old) }
        ensures room { self.old.room ≤ self.new.room }
    {
        match fill_upto(source, &mut self.bytes, self.held, upto) {
            Ok(held) => {
                self.held = held;
                Ok(())
            }
            Err(Failed) => Err(Failed),
        }
    }
}
