//! The languages in which a host sends.
ghost use Rattle.std.specs.Prelude.{◌≡◌};
ghost use Rattle.vt_replay.specs.Playing.{language_of};

use vt_cli::{Encoding, TerminalType};

/// The language in which a host sends.
#[derive(Clone, Copy, Debug, PartialEq, Eq)]
pub enum Language {
    /// A VT220's bytes.
    Dec,
    /// UTF-8, which is translated to a VT220's bytes.
    Utf8,
    /// UTF-8, with the functions that programs use under TERM=xterm.
    Xterm,
}

impl Language {
    /// Returns the language in which a host sends for a terminal, in an encoding. For xterm it sends UTF-8, whatever
    /// the encoding.
    pub fn of(terminal: TerminalType, encoding: Encoding) -> Language
        ensures { result ≡ language_of terminal encoding }
    {
        match terminal {
            TerminalType::Vt220 => match encoding {
                Encoding::Dec => Language::Dec,
                Encoding::Utf8 => Language::Utf8,
            },
            TerminalType::Xterm => Language::Xterm,
        }
    }
}
