//! The types for what the arguments of a command line ask for.

ghost use Rattle.std.specs.Prelude.{◌≤◌, IfSome};
ghost use Rattle.std.proofs.Props.{props};
ghost use Rattle.vt_screen.specs.Sizes.{IsSize};

use crate::what::{What, Word};
use vt_recording::{Encoding, Format, Moment, TerminalType};
use vt_screen::Size;

/// The request for a replay. The two numbers are in their ranges, in every value of this type.
#[derive(Debug, PartialEq, Eq, Drop)]
pub struct Settings {
    /// The output that is to be written.
    pub what: What,
    /// The most bytes of one read, 1 to 65536.
    pub piece: usize,
    /// The most bytes of the input, 0 to 1099511627776.
    pub limit: u64,
    /// The file to read, or none for standard input.
    pub file: Option<String>,
    pub ghost piece_in_range: { (1 ≤ piece) × (piece ≤ 65536) },
    pub ghost limit_in_range: { limit ≤ 1099511627776 },
}

/// The request that the options of a subcommand make. The two numbers are in their ranges, in every value of this type.
#[derive(Drop)]
pub(crate) struct Options {
    /// The most bytes of one read, 1 to 65536.
    pub(crate) piece: usize,
    /// The most bytes of the input, 0 to 1099511627776.
    pub(crate) limit: u64,
    /// The file to read, or none for standard input.
    pub(crate) file: Option<String>,
    pub(crate) ghost piece_in_range: { (1 ≤ piece) × (piece ≤ 65536) },
    pub(crate) ghost limit_in_range: { limit ≤ 1099511627776 },
}

/// The request that the arguments make. The two numbers are in their ranges, and so is a size, in every value of this type.
#[derive(Debug, PartialEq, Eq, Drop)]
pub struct Request {
    /// The work that is to be done with the input.
    pub word: Word,
    /// The most bytes of one read, 1 to 65536.
    pub piece: usize,
    /// The most bytes of the input, 0 to 1099511627776.
    pub limit: u64,
    /// The file to read, or none for standard input.
    pub file: Option<String>,
    /// The format of the input, or none if its beginning decides.
    pub format: Option<Format>,
    /// The encoding of the host's bytes, or none if the terminal and the format decide.
    pub encoding: Option<Encoding>,
    /// The terminal for which the host sends, or none if the recording decides.
    pub terminal: Option<TerminalType>,
    /// Whether the screen has 132 columns, or none if the recording decides.
    pub wide: Option<bool>,
    /// The size of the screen, or none if it is a VT220's or the recording decides.
    pub size: Option<Size>,
    /// The file with the times of a recording by script(1), if there is one.
    pub timing: Option<String>,
    /// The moment at which the wanted input begins, or none for its beginning.
    pub from: Option<Moment>,
    /// The moment at which the wanted input ends, or none for its end.
    pub until: Option<Moment>,
    /// Whether the table of events has all that the recording has: its heading, and the bytes of its output.
    pub full: bool,
    /// Whether a recording may break its format: what came before is enough.
    pub partial: bool,
    /// Whether the notes on standard error are left out.
    pub quiet: bool,
    pub ghost piece_in_range: { (1 ≤ piece) × (piece ≤ 65536) },
    pub ghost limit_in_range: { limit ≤ 1099511627776 },
    pub ghost size_in_range: { IfSome size (λ s. IsSize s) } by { Prim.hlevel props },
}

/// The refusal of arguments: the exit status, and the text to print.
#[derive(Debug, PartialEq, Eq, Drop)]
pub struct Refused {
    /// The exit status: 0 if the help or the version was asked for, 1 if allocation fails, 2 for a fault of the
    /// arguments.
    pub status: u8,
    /// The help, the version, the fault as clap words it, or nothing if allocation fails.
    pub text: String,
}
