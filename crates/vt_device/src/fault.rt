//! The reasons for which a request ends early.
ghost use Rattle.std.specs.Prelude.{◌≡◌, Some};
ghost use Rattle.vt_device.specs.Fault.{status_of, has_front, status_with, line_of, message_of};

use std::alloc::AllocError;
use std::error::Error;
use std::fmt;

/// A file of a recording.
#[derive(Clone, Copy, Debug, PartialEq, Eq)]
pub enum Part {
    /// The recording.
    Recording,
    /// The timing file of script(1).
    Timing,
}

/// The place at which a recording breaks its format.
#[derive(Clone, Copy, Debug, PartialEq, Eq)]
pub struct Break {
    /// The file that is broken.
    pub part: Part,
    /// The offset in that file, counted from 0.
    pub at: u64,
}

/// The reason for which a request ends early. The message is the line that the program prints.
#[derive(Clone, Copy, Debug, PartialEq, Eq)]
pub enum Fault {
    /// An allocation failed.
    Memory,
    /// A repaint was asked for, and the input ends inside a sequence.
    Partial,
    /// A read of the input failed.
    Read,
    /// A write of the output failed.
    Write,
    /// The input has more bytes than the limit.
    TooLong,
    /// The recording breaks its format at this place. The bytes before it were played, and the output that is due was written.
    Broken(Break),
    /// The beginning of the input decided on its format, which has no times, but the request has a time as its moment.
    /// Nothing was written.
    NoTimes,
}

impl Fault {
    /// Returns the status with which the program ends.
    pub fn status(&self) -> u8
        ensures { result ≡ status_of self.now }
    {
        match self {
            Fault::Memory => 1,
            Fault::NoTimes => 2,
            Fault::Partial => 3,
            Fault::Read => 4,
            Fault::Write => 5,
            Fault::TooLong => 6,
            Fault::Broken(_) => 7,
        }
    }

    /// Returns whether the recording breaks its format, and something came before that.
    fn has_front(&self) -> bool
        ensures { result ≡ has_front self.now }
    {
        match self {
            Fault::Broken(place) => place.at > 0,
            _ => false,
        }
    }

    /// Returns the status with which the program ends. `partial` says whether what came before the recording broke its
    /// format is enough.
    pub fn status_with(&self, partial: bool) -> u8
        ensures { result ≡ status_with partial self.now }
    {
        if partial && self.has_front() {
            0
        } else {
            self.status()
        }
    }

    /// Returns the line of this fault. That of a broken recording doesn't name the place, which the `Display` adds.
    pub fn line(&self) -> &'static str
        ensures { result.now ≡ line_of self.now }
    {
        match self {
            Fault::Memory => "vt220: out of memory",
            Fault::Partial => "vt220: input ends inside a sequence",
            Fault::Read => "vt220: read failed",
            Fault::Write => "vt220: write failed",
            Fault::TooLong => "vt220: input is longer than the limit",
            Fault::Broken(place) => match place.part {
                Part::Recording => "vt220: the recording is broken",
                Part::Timing => "vt220: the timing file is broken",
            },
            Fault::NoTimes => "vt220: the input has no times",
        }
    }
}

impl fmt::Display for Fault {
    ghost output = { λ fault. Some (message_of fault) };

    fn fmt<W: fmt::Write>(&self, f: &mut fmt::Formatter<W>) -> fmt::Result {
        match self {
            Fault::Broken(place) => write!(f, "{} at byte {}", self.line(), place.at),
            _ => f.write_str(self.line()),
        }
    }
}

impl Error for Fault {}

impl From<AllocError> for Fault {
    ghost use Rattle.vt_device.specs.declared.fault.Fault.TheVariants.{Memory};

    ghost from_gives = { λ _ fault. fault ≡ Memory };

    fn from(_: AllocError) -> Fault {
        Fault::Memory
    }
}
