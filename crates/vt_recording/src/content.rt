//! A source of the content of a recording.
ghost use Rattle.std.specs.Prelude.{◌≡◌, ◌||◌, Some, Ok, min, false, length, take, drop, ◌++◌, IfOk};
ghost use Rattle.std.specs.Io.{ReadsAtMost};
ghost use Rattle.std.specs.Io.KnownBytes.{ReadConsumes};
ghost use Rattle.vt_device.specs.Watched.{read_ended};

use std::io;
use std::io::Read;
use std::marker::Model;
use vt_device::Source;

/// A source of the content of a recording, whose `remaining` bytes are those not read yet. It never fails.
#[derive(Drop)]
pub struct Content {
    bytes: Vec<u8>,
    at: usize,
    ended: bool,
}

impl Model for Content {
    ghost use Rattle.std.specs.Prelude.{ℕ, ◌≤◌, List, length, drop};
    ghost use Rattle.vt_recording.specs.Content.{InMemory};

    ghost Value = { InMemory };

    ghost view = { λ c. record { rest = drop c.at c.bytes.items; ended = c.ended } };

    ghost invariant = { λ c. c.at ≤ length c.bytes.items };
}

impl Content {
    /// Returns a source of these bytes.
    pub fn new(bytes: Vec<u8>) -> Content
        ensures bytes { result.rest ≡ bytes.items }
        ensures ended { result.ended ≡ false }
    {
        Content {
            bytes,
            at: 0,
            ended: false,
        }
    }
}

impl Source for Content {
    ghost remaining = { λ c. Some c.rest };

    ghost failed = { λ c. false };

    ghost ended = { λ c. c.ended };

    fn read_chunk(&mut self, buf: &mut [u8]) -> io::Result<usize>
        ensures bound { ReadsAtMost result buf.new }
        ensures bytes { ReadConsumes (Some self.old.rest) (Some self.new.rest) result buf.new }
        ensures ended { self.new.ended ≡ (self.old.ended || read_ended result buf.old) }
        ensures count { result ≡ Ok (min (length self.old.rest) (length buf.old)) }
        ensures copied { IfOk result (λ n. buf.new ≡ take n self.old.rest ++ drop n buf.old) }
        ensures rest { IfOk result (λ n. self.new.rest ≡ drop n self.old.rest) }
    {
        let mut rest = &self.bytes[self.at..];
        let count = rest.read(buf)?;
        if count == 0 && !buf.is_empty() {
            self.ended = true;
        }
        self.at += count;
        Ok(count)
    }
}
