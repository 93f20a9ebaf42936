//! The formats of recordings, what a caller asks of one, and the content of a recording.
ghost use Rattle.std.specs.Prelude.{◌≡◌};
ghost use Rattle.vt_recording.specs.Format.{format_named, takes_timing, has_times, usual_encoding};

/// The format of a recording.
#[derive(Clone, Copy, Debug, PartialEq, Eq)]
pub enum Format {
    /// The bytes that the host sent, and nothing else.
    Raw,
    /// The format of script(1): the bytes as they came, between a first and a last line.
    Script,
    /// The format of ttyrec: frames, each after a header with its time and its length.
    Ttyrec,
    /// The format of asciinema. In versions 2 and 3 a line with an object, and events, one a line; in version 1 one object.
    Asciicast,
}

impl Format {
    /// Returns the format of a name, as `--format` has it.
    pub fn named(name: &str) -> Option<Format>
        ensures { result ≡ format_named name.now }
    {
        match name {
            "raw" => Some(Format::Raw),
            "script" => Some(Format::Script),
            "ttyrec" => Some(Format::Ttyrec),
            "asciicast" => Some(Format::Asciicast),
            _ => None,
        }
    }

    /// Returns whether a timing file goes with a recording in this format. (script(1))
    pub fn takes_timing(self) -> bool
        ensures { result ≡ takes_timing self }
    {
        match self {
            Format::Script => true,
            _ => false,
        }
    }

    /// Returns whether a recording in this format has times, with a timing file or without.
    pub fn has_times(self, timed: bool) -> bool
        ensures { result ≡ has_times self timed }
    {
        match self {
            Format::Raw => false,
            Format::Script => timed,
            Format::Ttyrec => true,
            Format::Asciicast => true,
        }
    }

    /// Returns the encoding of what a VT220's host sends, if nobody asks for another one. (asciinema writes UTF-8)
    pub fn usual_encoding(self) -> Encoding
        ensures { result ≡ usual_encoding self }
    {
        match self {
            Format::Asciicast => Encoding::Utf8,
            _ => Encoding::Dec,
        }
    }
}

/// The encoding of a host's bytes.
#[derive(Clone, Copy, Debug, PartialEq, Eq)]
pub enum Encoding {
    /// The bytes as a VT220 reads them.
    Dec,
    /// UTF-8, which is translated to a VT220's bytes.
    Utf8,
}

/// The terminal for which the host sends.
#[derive(Clone, Copy, Debug, PartialEq, Eq)]
pub enum TerminalType {
    /// A VT220.
    Vt220,
    /// A terminal with the functions that programs use under TERM=xterm. The host sends UTF-8.
    Xterm,
}

/// A moment of a recording.
#[derive(Clone, Copy, Debug, PartialEq, Eq)]
pub enum Moment {
    /// Microseconds after the beginning of the recording. A format without times has no such moment.
    Micros(u64),
    /// A number of bytes of the content.
    Bytes(u64),
    /// The event of this number, counted from 1.
    Event(u64),
    /// The marker of this number, counted from 1.
    Marker(u64),
}

/// The content of a recording.
#[derive(Debug, PartialEq, Eq, Drop)]
pub struct Taken {
    /// The bytes that the host sent, up to the place at which the recording breaks its format. Of characters these are
    /// their bytes in an encoding.
    pub content: Vec<u8>,
    /// The number of characters that have no byte in the encoding `Dec`. SUB is in their place.
    pub replaced: u64,
}
