//! A reader over memory that returns few bytes at a time.
ghost use Rattle.std.specs.Prelude.{◌≡◌, ◌≤◌, ◌↔◌, Some, IsErr, IfOk, OnErr, length, drop, take, min};
ghost use Rattle.std.specs.Io.{ReadsAtMost};
ghost use Rattle.std.specs.Io.KnownBytes.{ReadConsumes};
ghost use Rattle.vt_vectors.specs.Devices.{one_call_later};

use std::io;
use std::io::{ErrorKind, Read};
use std::marker::Model;

/// A reader over bytes. It returns at most a given number of bytes a call, and an error at one call.
#[derive(Drop)]
pub struct ShortReader<'a> {
    bytes: &'a [u8],
    most: usize,
    fail: Option<usize>,
}

impl<'a> Model for ShortReader<'a> {
    ghost use Rattle.vt_vectors.specs.Devices.{Source};
    ghost use Rattle.std.specs.Prelude.{◌≤◌};

    ghost Value = { Source };

    ghost view = { λ r. record { bytes = r.bytes.now; most = r.most; fail = r.fail } };

    ghost invariant = { λ r. 1 ≤ r.most };
}

impl<'a> ShortReader<'a> {
    /// Returns a reader over `bytes` that returns at most `most` of them a call, 1 or more. Call number `fail`, counted
    /// from 1, returns an error.
    pub fn new(bytes: &'a [u8], most: usize, fail: Option<usize>) -> ShortReader<'a>
        requires { 1 ≤ most }
        ensures { result ≡ record { bytes = bytes.entry.now; most = most; fail = fail } }
    {
        ShortReader { bytes, most, fail }
    }
}

impl Read for ShortReader<'_> {
    ghost remaining = { λ r. Some r.bytes };

    /// Reads as many bytes as `most`, the buffer and the remainder allow. A call that returns an error reads none.
    fn read(&mut self, buf: &mut [u8]) -> io::Result<usize>
        ensures bound { ReadsAtMost result buf.new }
        ensures bytes { ReadConsumes (Some self.old.bytes) (Some self.new.bytes) result buf.new }
        ensures fails { IsErr result ↔ (self.old.fail ≡ Some 1) }
        ensures count { IfOk result (λ n. n ≡ min (min self.old.most (length buf.old)) (length self.old.bytes)) }
        ensures next { self.new.fail ≡ one_call_later self.old.fail }
        ensures most { self.new.most ≡ self.old.most }
    {
        let fails = self.fail == Some(1);
        self.fail = later(self.fail);
        if fails {
            return Err(io::Error::from(ErrorKind::Other));
        }
        let count = self.most.min(buf.len()).min(self.bytes.len());
        let (given, left) = self.bytes.split_at(count);
        buf[..count].copy_from_slice(given);
        self.bytes = left;
        Ok(count)
    }
}

/// Returns the number of the call that fails, counted from the next call.
pub(crate) fn later(fail: Option<usize>) -> Option<usize>
    ensures { result ≡ one_call_later fail }
{
    match fail {
        None | Some(0 | 1) => None,
        Some(call) => Some(call - 1),
    }
}
