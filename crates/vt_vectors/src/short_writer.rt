//! A writer into memory that writes few bytes at a time.
ghost use Rattle.std.specs.Prelude.{◌≡◌, ◌≤◌, ◌-◌, ◌↔◌, Some, IsErr, IsOk, IfOk, length, min, vec_len, vec_capacity};
ghost use Rattle.std.specs.Io.{WritesAtMost};
ghost use Rattle.std.specs.Io.KnownBytes.{Keeps, WriteAppends};
ghost use Rattle.vt_vectors.specs.Devices.{one_call_later};

use crate::short_reader::later;
use std::io;
use std::io::{ErrorKind, Write};
use std::marker::Model;

/// A writer into memory. It writes at most a given number of bytes a call and in all, and returns an error at one call.
#[derive(Drop)]
pub struct ShortWriter {
    into: Vec<u8>,
    room: usize,
    most: usize,
    fail: Option<usize>,
}

impl Model for ShortWriter {
    ghost use Rattle.vt_vectors.specs.Devices.{Sink};
    ghost use Rattle.std.specs.Prelude.{◌≤◌, vec_len, vec_capacity};

    ghost Value = { Sink };

    ghost view = { λ w. record { taken = w.into.items; room = w.room; most = w.most; fail = w.fail } };

    ghost invariant = { λ w. (1 ≤ w.most) × (vec_len w.into ≤ w.room) × (w.room ≤ vec_capacity w.into) };
}

impl ShortWriter {
    /// Returns a writer into `into`, which is empty and has capacity for `room` bytes. It writes at most `most` bytes a
    /// call, 1 or more, and `room` in all. Call number `fail`, counted from 1, returns an error.
    pub fn new(into: Vec<u8>, room: usize, most: usize, fail: Option<usize>) -> ShortWriter
        requires empty { vec_len into ≡ 0 }
        requires fits { room ≤ vec_capacity into }
        requires some { 1 ≤ most }
        ensures { result ≡ record { taken = into.items; room = room; most = most; fail = fail } }
    {
        ShortWriter {
            into,
            room,
            most,
            fail,
        }
    }

    /// Returns the bytes that were written.
    pub fn taken(&self) -> &[u8]
        ensures { result.now ≡ self.now.taken }
    {
        self.into.as_slice()
    }
}

impl Write for ShortWriter {
    ghost contents = { λ w. Some w.taken };

    /// Writes as many bytes as `most` and the remaining capacity allow. A call that returns an error writes none.
    fn write(&mut self, piece: &[u8]) -> io::Result<usize>
        ensures bound { WritesAtMost result piece.now }
        ensures bytes { WriteAppends (Some self.old.taken) (Some self.new.taken) result piece.now }
        ensures fails { IsErr result ↔ (self.old.fail ≡ Some 1) }
        ensures count { IfOk result (λ n. n ≡ min (min self.old.most (length piece.now)) (self.old.room - length self.old.taken)) }
        ensures next { self.new.fail ≡ one_call_later self.old.fail }
        ensures most { self.new.most ≡ self.old.most }
        ensures room { self.new.room ≡ self.old.room }
    {
        let fails = self.fail == Some(1);
        self.fail = later(self.fail);
        if fails {
            return Err(io::Error::from(ErrorKind::Other));
        }
        let left = self.room - self.into.len();
        let count = self.most.min(piece.len()).min(left);
        self.into.extend_from_slice(&piece[..count]).unwrap();
        Ok(count)
    }

    /// Does nothing, since no byte is buffered.
    fn flush(&mut self) -> io::Result<()>
        ensures bytes { Keeps (Some self.old.taken) (Some self.new.taken) }
        ensures ok { IsOk result }
        ensures same { self.new ≡ self.old }
    {
        Ok(())
    }
}
