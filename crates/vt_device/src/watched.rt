//! A device with two flags of its past calls, and their last error.
ghost use Rattle.std.specs.Prelude.{◌≡◌, ◌||◌, None, false};
ghost use Rattle.std.specs.Io.{ReadsAtMost, WritesAtMost};
ghost use Rattle.std.specs.Io.KnownBytes.{ReadConsumes, WriteAppends};
ghost use Rattle.vt_device.specs.Watched.{read_failed, read_ended, write_failed, error_after};

use std::io;
use std::io::{Read, Write};
use std::marker::Model;

/// A reader or writer, two flags (whether it failed, and whether it reached its end), and the last error that it returned.
#[derive(Drop)]
pub struct Watched<D> {
    device: D,
    failed: bool,
    ended: bool,
    error: Option<io::Error>,
}

impl<D> Model for Watched<D> {
    ghost use Rattle.vt_device.specs.Watched.{Watch};

    ghost Value = { Watch D };

    ghost view = { λ w. record { device = w.device; failed = w.failed; ended = w.ended; error = w.error } };
}

impl<D> Watched<D> {
    /// Returns a watched device with both flags false, and no error.
    pub fn new(device: D) -> Watched<D>
        ensures device { result.device ≡ device }
        ensures failed { result.failed ≡ false }
        ensures ended { result.ended ≡ false }
        ensures error { result.error ≡ None }
    {
        Watched {
            device,
            failed: false,
            ended: false,
            error: None,
        }
    }

    /// Returns whether the device returned an error, or wrote no byte of a chunk that wasn't empty.
    pub fn failed(&self) -> bool
        ensures { result ≡ self.now.failed }
    {
        self.failed
    }

    /// Returns whether a read into a buffer that wasn't empty returned no byte.
    pub fn ended(&self) -> bool
        ensures { result ≡ self.now.ended }
    {
        self.ended
    }

    /// Returns the last error that the device returned, or none. A write of no byte returns no error.
    pub fn error(&self) -> Option<io::Error>
        ensures { result ≡ self.now.error }
    {
        self.error
    }

    /// Returns the device.
    pub fn into_inner(self) -> D
        ensures { result ≡ self.device }
    {
        let Watched {
            device,
            failed: _,
            ended: _,
            error: _,
        } = self;
        device
    }
}

impl<D: Read> Watched<D> {
    /// Reads as the device does, sets the flags, and keeps an error. An error sets `failed`. No byte, if the buffer isn't empty, sets
    /// `ended`.
    pub fn read(&mut self, buf: &mut [u8]) -> io::Result<usize>
        ensures bound { ReadsAtMost result buf.new }
        ensures bytes { ReadConsumes (D.remaining self.old.device) (D.remaining self.new.device) result buf.new }
        ensures failed { self.new.failed ≡ (self.old.failed || read_failed result) }
        ensures ended { self.new.ended ≡ (self.old.ended || read_ended result buf.old) }
        ensures error { self.new.error ≡ error_after self.old.error result }
    {
        let answer = self.device.read(buf);
        match &answer {
            Ok(n) => {
                if *n == 0 && !buf.is_empty() {
                    self.ended = true;
                }
            }
            Err(error) => {
                self.failed = true;
                self.error = Some(*error);
            }
        }
        answer
    }
}

impl<D: Write> Watched<D> {
    /// Writes as the device does, sets the flags, and keeps an error. An error, or no byte of a chunk that isn't empty, sets `failed`.
    pub fn write(&mut self, piece: &[u8]) -> io::Result<usize>
        ensures bound { WritesAtMost result piece.now }
        ensures bytes { WriteAppends (D.contents self.old.device) (D.contents self.new.device) result piece.now }
        ensures failed { self.new.failed ≡ (self.old.failed || write_failed result piece.now) }
        ensures ended { self.new.ended ≡ self.old.ended }
        ensures error { self.new.error ≡ error_after self.old.error result }
    {
        let answer = self.device.write(piece);
        match &answer {
            Ok(n) => {
                if *n == 0 && !piece.is_empty() {
                    self.failed = true;
                }
            }
            Err(error) => {
                self.failed = true;
                self.error = Some(*error);
            }
        }
        answer
    }
}
