//! Standard error of a run, which notes the one complaint whose cause is looked up after the run.
ghost use Rattle.std.specs.Prelude.{◌≡◌, ◌↔◌, IsTrue, codes};

use std::io;
use std::io::Write;

// What a run prints if the database refused to store its range.
const STORE_FAILED: &[u8] = b"ledger: store failed\n";

/// A stream on which complaints are printed, each by one call of `write`.
#[derive(Drop)]
pub(crate) struct Heard<W: Write + Drop> {
    /// The stream.
    pub(crate) writer: W,
    /// Whether the last complaint was that a range couldn't be stored.
    pub(crate) is_of_store: bool,
}

impl<W: Write + Drop> Heard<W> {
    pub(crate) fn new(writer: W) -> Heard<W> {
        Heard {
            writer,
            is_of_store: false,
        }
    }
}

impl<W: Write + Drop> Write for Heard<W> {
    ghost contents = { λ heard. W.contents heard.writer };

    fn write(&mut self, buf: &[u8]) -> io::Result<usize> {
        self.is_of_store = is_of_store(buf);
        self.writer.write(buf)
    }

    fn flush(&mut self) -> io::Result<()> {
        self.writer.flush()
    }
}

fn is_of_store(complaint: &[u8]) -> bool
    ensures { IsTrue result ↔ complaint.now ≡ codes "ledger: store failed\n" }
{
    complaint == STORE_FAILED
}
