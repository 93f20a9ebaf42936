//! The terminal, encoding, width and size for which a host sends, as a request and a recording give them.
ghost use Rattle.std.specs.Prelude.{◌≡◌, IfSome};
ghost use Rattle.vt_screen.specs.Sizes.{IsSize, width_of};
ghost use Rattle.vt_replay.specs.Host.{takes_size, is_vt220, size_named, size_for};
ghost use Rattle.vt_replay.specs.Host.{terminal_for, encoding_for, wide_for, named_for, host_for, plain_host};
ghost use Rattle.vt_replay.specs.Host.{widening, opening};

use vt_cli::{Encoding, Request, TerminalType, Word, size_of};
use vt_recording::Heading;
use vt_term::Size;

/// The terminal, the encoding, the width and the size for which a host sends.
#[derive(Clone, Copy, Debug, PartialEq, Eq)]
pub struct Host {
    /// The terminal for which the host sends.
    pub terminal: TerminalType,
    /// The encoding in which the host sends.
    pub encoding: Encoding,
    /// Whether a VT220's screen has 132 columns, and not 80.
    pub wide: bool,
    /// The size of the screen.
    pub size: Size,
}

impl Host {
    /// Returns the numbers of columns and rows of the screen on which the host's bytes begin.
    pub fn screen(self) -> (usize, usize)
        ensures { result ≡ (width_of self.size self.wide, self.size.rows) }
    {
        (self.size.columns(self.wide), self.size.rows)
    }
}

/// Returns the terminal that was asked for, otherwise the one that the recording names, otherwise a VT220.
fn terminal_for(
    wanted: Option<TerminalType>,
    encoding: Option<Encoding>,
    named: Option<TerminalType>,
) -> TerminalType
    ensures { result ≡ terminal_for wanted encoding named }
{
    match wanted {
        Some(terminal) => terminal,
        None => match encoding {
            Some(Encoding::Dec) => TerminalType::Vt220,
            Some(Encoding::Utf8) => named.unwrap_or(TerminalType::Vt220),
            None => named.unwrap_or(TerminalType::Vt220),
        },
    }
}

/// Returns the encoding of what a host sends for a terminal: for a VT220 the one that was asked for, otherwise the one that the
/// recording shows.
fn encoding_for(terminal: TerminalType, wanted: Option<Encoding>, shown: Encoding) -> Encoding
    ensures { result ≡ encoding_for terminal wanted shown }
{
    match terminal {
        TerminalType::Vt220 => wanted.unwrap_or(shown),
        TerminalType::Xterm => Encoding::Utf8,
    }
}

/// Returns whether the screen has 132 columns: as was asked for, otherwise if the recording names 132.
fn wide_for(wanted: Option<bool>, columns: Option<u32>) -> bool
    ensures { result ≡ wide_for wanted columns }
{
    match wanted {
        Some(wide) => wide,
        None => match columns {
            Some(columns) => columns == 132,
            None => false,
        },
    }
}

/// Returns the terminal that a recording names, if it decides on what a word plays. Content is the host's bytes, for
/// whatever terminal they are.
fn named_for(word: Word, named: Option<TerminalType>) -> Option<TerminalType>
    ensures { result ≡ named_for word named }
{
    match word {
        Word::Replay(_) => named,
        Word::Log => named,
        Word::Trace => named,
        Word::Events => None,
        Word::Content => None,
    }
}

/// Returns whether a word plays a screen of any size.
fn takes_size(word: Word) -> bool
    ensures { result ≡ takes_size word }
{
    matches!(word, Word::Replay(_) | Word::Log | Word::Trace)
}

/// Returns whether so many columns and rows are a VT220's screen.
fn is_vt220(columns: u32, rows: u32) -> bool
    ensures { result ≡ is_vt220 columns rows }
{
    rows == 24 && (columns == 80 || columns == 132)
}

/// Returns the size that a recording names, if it isn't a VT220's and a screen may have it.
fn size_named(columns: Option<u32>, rows: Option<u32>) -> Option<Size>
    ensures value { result ≡ size_named columns rows }
    ensures in_range { IfSome result (λ size. IsSize size) }
{
    let Some(columns) = columns else {
        return None;
    };
    let Some(rows) = rows else {
        return None;
    };
    if is_vt220(columns, rows) {
        return None;
    }
    size_of(columns as u64, rows as u64)
}

/// Returns the size that is played, if it isn't a VT220's: the one that was asked for, otherwise the one that the recording names,
/// if no width was asked for and the word plays it.
fn size_for(request: &Request, heading: Heading) -> Option<Size>
    ensures value { result ≡ size_for request.now.word request.now.size request.now.wide heading.columns heading.rows }
    ensures in_range { IfSome result (λ size. IsSize size) }
{
    match request.size {
        Some(size) => Some(size),
        None => match request.wide {
            Some(_) => None,
            None if takes_size(request.word) => size_named(heading.columns, heading.rows),
            None => None,
        },
    }
}

/// Returns for what the host of a recording sent, as a request, the encoding that the recording shows, and its heading give
/// it.
pub fn host_for(request: &Request, shown: Encoding, heading: Heading) -> Host
    ensures host { result ≡ host_for request.now shown heading }
    ensures sized { IsSize result.size }
{
    let named = named_for(request.word, heading.terminal);
    let terminal = terminal_for(request.terminal, request.encoding, named);
    let encoding = encoding_for(terminal, request.encoding, shown);
    match size_for(request, heading) {
        Some(size) => Host {
            terminal,
            encoding,
            wide: false,
            size,
        },
        None => Host {
            terminal,
            encoding,
            wide: wide_for(request.wide, heading.columns),
            size: Size::vt220(),
        },
    }
}

/// Returns for what a host sends whose bytes no recorder wrote.
pub(crate) fn plain_host(request: &Request) -> Host
    ensures host { result ≡ plain_host request.now }
    ensures sized { IsSize result.size }
{
    let heading = Heading {
        terminal: None,
        columns: None,
        rows: None,
    };
    host_for(request, Encoding::Dec, heading)
}

/// Returns the bytes that make the screen of a terminal 132 columns wide.
fn widening(terminal: TerminalType) -> &'static [u8]
    ensures { result.now ≡ widening terminal }
{
    match terminal {
        TerminalType::Vt220 => b"\x1B[?3h",
        TerminalType::Xterm => b"\x1B[?40h\x1B[?3h\x1B[?40l",
    }
}

/// Returns the bytes that are played before those of a recording.
pub(crate) fn opening(word: Word, host: Host) -> &'static [u8]
    ensures { result.now ≡ opening word host }
{
    if !host.wide {
        return b"";
    }
    match word {
        Word::Replay(_) => widening(host.terminal),
        Word::Log => widening(host.terminal),
        Word::Trace => b"",
        Word::Events => b"",
        Word::Content => b"",
    }
}
