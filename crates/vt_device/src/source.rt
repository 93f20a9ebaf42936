//! Sources of bytes: watched devices, and memory.
ghost use Rattle.std.specs.Prelude.{◌≡◌, ◌||◌, ℕ, List, Bool, Option};
ghost use Rattle.std.specs.Io.{ReadsAtMost};
ghost use Rattle.std.specs.Io.KnownBytes.{ReadConsumes};
ghost use Rattle.vt_device.specs.Watched.{read_failed, read_ended};

use crate::watched::Watched;
use std::io;
use std::io::Read;

/// A source of bytes: a watched device, or memory. The clauses about memory also state that it never fails.
pub trait Source {
    /// The bytes not read yet, if the source reports them as its own.
    ghost remaining: { Self → Option (List ℕ) };

    /// Whether a read failed.
    ghost failed: { Self → Bool };

    /// Whether a read into a buffer that wasn't empty gave no byte.
    ghost ended: { Self → Bool };

    /// Reads the next bytes into the buffer, and returns how many. No byte, if the buffer isn't empty, is the end.
    fn read_chunk(&mut self, buf: &mut [u8]) -> io::Result<usize>
        ensures bound { ReadsAtMost result buf.new }
        ensures bytes { ReadConsumes (remaining self.old) (remaining self.new) result buf.new }
        ensures failed { failed self.new ≡ (failed self.old || read_failed result) }
        ensures ended { ended self.new ≡ (ended self.old || read_ended result buf.old) };
}

impl<R: Read> Source for Watched<R> {
    ghost remaining = { λ w. R.remaining w.device };

    ghost failed = { λ w. w.failed };

    ghost ended = { λ w. w.ended };

    fn read_chunk(&mut self, buf: &mut [u8]) -> io::Result<usize> {
        self.read(buf)
    }
}
