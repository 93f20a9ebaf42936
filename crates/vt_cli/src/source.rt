//! The options of a recording: its format, the moments between which it is wanted, the encoding, the terminal, and its
//! size.
ghost use Rattle.std.specs.Prelude.{◌≡◌, ◌<◌, option_map, IfOk, IfSome};
ghost use Rattle.vt_screen.specs.Sizes.{IsSize};
ghost use Rattle.clap.specs.Words.{found_of, rows_of};
ghost use Rattle.vt_cli.specs.Source.{format_named, plays_as_it_is, usual_format, with_timing, format_for, has_times, has_moment, moment_of, takes_start, from_of, source_of, source_in, line_of};
ghost use Rattle.vt_cli.specs.Source.{encoding_named, encoding_of};
ghost use Rattle.vt_cli.specs.Source.{xterm_for, terminal_named, terminal_of, wide_named, wide_of};
ghost use Rattle.vt_cli.specs.Source.{size_of, screen_at, screen_in, screen_named, screen_with, has_one_size, screen_for, screen_of};

use crate::moment::{moment, place};
use clap::ArgMatches;
use vt_recording::{Encoding, Format, Moment, TerminalType, number};
use vt_screen::{ROWS, Size};

/// What the options of a recording ask for: its format, the moments between which it is wanted, the encoding, the
/// terminal, and its size.
#[derive(Clone, Copy)]
pub(crate) struct Source {
    /// The format, or none if the beginning of the input decides.
    pub(crate) format: Option<Format>,
    /// The moment at which the wanted input begins, or none for its beginning.
    pub(crate) from: Option<Moment>,
    /// The moment at which the wanted input ends, or none for its end.
    pub(crate) until: Option<Moment>,
    /// The encoding, or none if the terminal and the format decide.
    pub(crate) encoding: Option<Encoding>,
    /// The terminal for which the host sends, or none if the recording decides.
    pub(crate) terminal: Option<TerminalType>,
    /// Whether the screen has 132 columns, or none if the recording decides.
    pub(crate) wide: Option<bool>,
    /// The size of the screen, or none if it is a VT220's or the recording decides.
    pub(crate) size: Option<Size>,
}

/// The screen that was asked for.
#[derive(Clone, Copy)]
pub(crate) struct Screen {
    /// Whether it has 132 columns, or none if no VT220's screen was asked for.
    pub(crate) wide: Option<bool>,
    /// The size of the screen, or none if no other screen was asked for.
    pub(crate) size: Option<Size>,
}

/// The reason for which the options of a recording are refused.
#[derive(Clone, Copy)]
pub(crate) enum Complaint {
    /// `--format` names no format.
    NoFormat,
    /// `--timing` is given for a format that has no timing file.
    NoTimingFile,
    /// `--from` or `--until` gives no moment.
    NoMoment,
    /// `--from` or `--until` gives seconds, and the recording has no times.
    NoTimes,
    /// `--from` is given for a command that needs all that comes before.
    NoStart,
    /// `--encoding` names no encoding.
    NoEncoding,
    /// `--terminal` names no terminal.
    NoTerminal,
    /// `--columns` gives no number of columns that the terminal has.
    NoColumns,
    /// `--size` gives no size that a screen may have.
    NoSize,
    /// `--size` and `--columns` both ask for a screen.
    TwoSizes,
    /// `--size` isn't a VT220's, and the command plays a VT220's screen alone.
    OneSize,
    /// `--terminal xterm` is given with `--encoding dec`.
    OnlyUtf8,
}

impl Complaint {
    /// Returns the line that the program prints.
    pub(crate) fn line(self) -> &'static str
        ensures { result.now ≡ line_of self }
    {
        match self {
            Complaint::NoFormat => {
                "vt220: --format is raw, script, ttyrec or asciicast\n\
                 vt220: or it is auto: then the beginning of the input decides\n"
            }
            Complaint::NoTimingFile => "vt220: --timing goes with --format script alone\n",
            Complaint::NoMoment => {
                "vt220: a moment is seconds, as 12.5 or 12:31, bytes, as 4096b, event:N or marker:N\n"
            }
            Complaint::NoStart => "vt220: --from goes with events and content alone\n",
            Complaint::NoTimes => {
                "vt220: the input has no times; give the moment in bytes, as 4096b, or script its --timing FILE\n\
                 vt220: a recording by ttyrec or asciinema has times: add --format ttyrec, asciicast or auto\n"
            }
            Complaint::NoEncoding => "vt220: --encoding is dec, utf-8 or auto\n",
            Complaint::NoTerminal => "vt220: --terminal is vt220, xterm or auto\n",
            Complaint::NoColumns => "vt220: --columns is 80, 132 or auto\n",
            Complaint::NoSize => {
                "vt220: --size is columns and rows, as 120x40: 2 to 255 columns and 2 to 255 rows; or it is auto\n"
            }
            Complaint::TwoSizes => {
                "vt220: --size and --columns are given: one of the two is enough\n"
            }
            Complaint::OneSize => {
                "vt220: this command plays 80x24 and 132x24 alone\n\
                 vt220: all but events and content play any size\n"
            }
            Complaint::OnlyUtf8 => "vt220: --terminal xterm reads UTF-8, and not --encoding dec\n",
        }
    }
}

/// Returns the format of a name, or none for the name that lets the beginning of the input decide.
fn format_named(name: &str) -> Result<Option<Format>, Complaint>
    ensures { result ≡ format_named name.now }
{
    match Format::named(name) {
        Some(format) => Ok(Some(format)),
        None if name == "auto" => Ok(None),
        None => Err(Complaint::NoFormat),
    }
}

/// Returns whether the command of this name plays the bytes as they are, if no option says how they were recorded.
fn plays_as_it_is(command: &str) -> bool
    ensures { result ≡ plays_as_it_is command.now }
{
    matches!(command, "text" | "reports" | "repaint" | "status")
}

/// Returns the format without a name, or none if the beginning of the input decides.
fn usual_format(command: &str, timed: bool) -> Option<Format>
    ensures { result ≡ usual_format command.now timed }
{
    if timed {
        return Some(Format::Script);
    }
    if plays_as_it_is(command) {
        return Some(Format::Raw);
    }
    None
}

/// Returns the format that was named, if it goes with a timing file or there is none. A timing file is script's.
fn with_timing(timed: bool, format: Option<Format>) -> Result<Option<Format>, Complaint>
    ensures { result ≡ with_timing timed format }
{
    match format {
        Some(format) if timed && !format.takes_timing() => Err(Complaint::NoTimingFile),
        None if timed => Ok(Some(Format::Script)),
        format => Ok(format),
    }
}

/// Returns the format with a name, otherwise the usual one of the command.
fn format_for(command: &str, timed: bool, name: Option<&str>) -> Result<Option<Format>, Complaint>
    ensures { result ≡ format_for command.now timed (option_map (λ n. n.now) name.entry) }
{
    match name {
        Some(name) => match format_named(name) {
            Ok(format) => with_timing(timed, format),
            Err(complaint) => Err(complaint),
        },
        None => Ok(usual_format(command, timed)),
    }
}

/// Returns whether a recording has times. If its beginning decides on its format, it may have some.
fn has_times(format: Option<Format>, timed: bool) -> bool
    ensures { result ≡ has_times format timed }
{
    match format {
        Some(format) => format.has_times(timed),
        None => true,
    }
}

/// Returns whether a recording has a moment.
fn has_moment(format: Option<Format>, timed: bool, moment: Moment) -> bool
    ensures { result ≡ has_moment format timed moment }
{
    match moment {
        Moment::Micros(_) => has_times(format, timed),
        Moment::Bytes(_) | Moment::Event(_) | Moment::Marker(_) => true,
    }
}

/// Returns the moment of a recording that an option gives, if it is there.
fn moment_of(
    format: Option<Format>,
    timed: bool,
    option: Option<&str>,
) -> Result<Option<Moment>, Complaint>
    ensures { result ≡ moment_of format timed (option_map (λ o. o.now) option.entry) }
{
    let Some(text) = option else {
        return Ok(None);
    };
    match moment(text.as_bytes()) {
        None => Err(Complaint::NoMoment),
        Some(moment) if has_moment(format, timed, moment) => Ok(Some(moment)),
        Some(_) => Err(Complaint::NoTimes),
    }
}

/// Returns whether the command of this name takes a part of a recording that begins in the middle.
fn takes_start(command: &str) -> bool
    ensures { result ≡ takes_start command.now }
{
    matches!(command, "events" | "content")
}

/// Returns the moment from which on a recording is wanted, for a command.
fn from_of(
    command: &str,
    format: Option<Format>,
    timed: bool,
    from: Option<&str>,
) -> Result<Option<Moment>, Complaint>
    ensures { result ≡ from_of command.now format timed (option_map (λ f. f.now) from.entry) }
{
    let Some(text) = from else {
        return Ok(None);
    };
    if takes_start(command) {
        moment_of(format, timed, Some(text))
    } else {
        Err(Complaint::NoStart)
    }
}

/// Returns the encoding of a name, or none for the name that lets the terminal and the format decide.
fn encoding_named(name: &str) -> Result<Option<Encoding>, Complaint>
    ensures { result ≡ encoding_named name.now }
{
    match name {
        "dec" => Ok(Some(Encoding::Dec)),
        "utf-8" => Ok(Some(Encoding::Utf8)),
        "auto" => Ok(None),
        _ => Err(Complaint::NoEncoding),
    }
}

/// Returns the encoding of a name, if there is a name.
fn encoding_of(name: Option<&str>) -> Result<Option<Encoding>, Complaint>
    ensures { result ≡ encoding_of (option_map (λ n. n.now) name.entry) }
{
    match name {
        Some(name) => encoding_named(name),
        None => Ok(None),
    }
}

/// Returns xterm, for the encoding that was asked for.
fn xterm_for(encoding: Option<Encoding>) -> Result<Option<TerminalType>, Complaint>
    ensures { result ≡ xterm_for encoding }
{
    match encoding {
        Some(Encoding::Dec) => Err(Complaint::OnlyUtf8),
        Some(Encoding::Utf8) => Ok(Some(TerminalType::Xterm)),
        None => Ok(Some(TerminalType::Xterm)),
    }
}

/// Returns the terminal of a name, for an encoding, or none for the name that lets the recording decide.
fn terminal_named(encoding: Option<Encoding>, name: &str) -> Result<Option<TerminalType>, Complaint>
    ensures { result ≡ terminal_named encoding name.now }
{
    match name {
        "vt220" => Ok(Some(TerminalType::Vt220)),
        "xterm" => xterm_for(encoding),
        "auto" => Ok(None),
        _ => Err(Complaint::NoTerminal),
    }
}

/// Returns the terminal of a name, for an encoding. Without a name the recording decides.
fn terminal_of(
    encoding: Option<Encoding>,
    name: Option<&str>,
) -> Result<Option<TerminalType>, Complaint>
    ensures { result ≡ terminal_of encoding (option_map (λ n. n.now) name.entry) }
{
    match name {
        Some(name) => terminal_named(encoding, name),
        None => Ok(None),
    }
}

/// Returns whether a number of columns is 132, or none for the name that lets the recording decide.
fn wide_named(name: &str) -> Result<Option<bool>, Complaint>
    ensures { result ≡ wide_named name.now }
{
    match name {
        "80" => Ok(Some(false)),
        "132" => Ok(Some(true)),
        "auto" => Ok(None),
        _ => Err(Complaint::NoColumns),
    }
}

/// Returns whether a number of columns is 132. Without a number the recording decides.
fn wide_of(name: Option<&str>) -> Result<Option<bool>, Complaint>
    ensures { result ≡ wide_of (option_map (λ n. n.now) name.entry) }
{
    match name {
        Some(name) => wide_named(name),
        None => Ok(None),
    }
}

/// Returns the size of so many rows of so many columns, if a screen may have it. DECCOLM leaves its width.
pub fn size_of(columns: u64, rows: u64) -> Option<Size>
    ensures value { result ≡ size_of columns rows }
    ensures in_range { IfSome result (λ size. IsSize size) }
{
    if 1 < columns && columns < 256 && 1 < rows && rows < 256 {
        let columns = columns as usize;
        return Some(Size {
            rows: rows as usize,
            narrow: columns,
            wide: columns,
        });
    }
    None
}

/// Returns the screen of so many columns and rows: a VT220's by its width, any other one by its size.
fn screen_at(columns: u64, rows: u64) -> Option<Screen>
    ensures value { result ≡ screen_at columns rows }
    ensures in_range { IfSome result (λ screen. IfSome screen.size (λ size. IsSize size)) }
{
    if rows == ROWS as u64 && columns == 80 {
        return Some(Screen {
            wide: Some(false),
            size: None,
        });
    }
    if rows == ROWS as u64 && columns == 132 {
        return Some(Screen {
            wide: Some(true),
            size: None,
        });
    }
    let size = size_of(columns, rows)?;
    Some(Screen {
        wide: None,
        size: Some(size),
    })
}

/// Returns the screen that a text gives, as `120x40`.
fn screen_in(text: &[u8]) -> Option<Screen>
    ensures value { result ≡ screen_in text.now }
    ensures in_range { IfSome result (λ screen. IfSome screen.size (λ size. IsSize size)) }
{
    let at = place(b'x', text)?;
    let columns = number(3, &text[..at])?;
    let rows = number(3, &text[at + 1..])?;
    screen_at(columns, rows)
}

/// Returns the screen of a size's text, or of the name that lets the recording decide.
fn screen_named(text: &str) -> Result<Screen, Complaint>
    ensures value { result ≡ screen_named text.now }
    ensures in_range { IfOk result (λ screen. IfSome screen.size (λ size. IsSize size)) }
{
    match text {
        "auto" => Ok(Screen {
            wide: None,
            size: None,
        }),
        _ => match screen_in(text.as_bytes()) {
            Some(screen) => Ok(screen),
            None => Err(Complaint::NoSize),
        },
    }
}

/// Returns the screen of a width that was asked for, or of a size's text. Only one of the two may be given.
fn screen_with(wide: Option<bool>, size: Option<&str>) -> Result<Screen, Complaint>
    ensures value { result ≡ screen_with wide (option_map (λ s. s.now) size.entry) }
    ensures in_range { IfOk result (λ screen. IfSome screen.size (λ size. IsSize size)) }
{
    match size {
        None => Ok(Screen { wide, size: None }),
        Some(text) => match wide {
            None => screen_named(text),
            Some(_) => Err(Complaint::TwoSizes),
        },
    }
}

/// Returns whether the command of this name plays a VT220's screen alone, or none.
fn has_one_size(command: &str) -> bool
    ensures { result ≡ has_one_size command.now }
{
    matches!(command, "events" | "content")
}

/// Returns the screen, if the command of this name plays it.
fn screen_for(command: &str, screen: Screen) -> Result<Screen, Complaint>
    ensures value { result ≡ screen_for command.now screen }
    ensures same { IfOk result (λ s. s ≡ screen) }
{
    if screen.size.is_some() && has_one_size(command) {
        return Err(Complaint::OneSize);
    }
    Ok(screen)
}

/// Returns the screen that a number of columns or a size's text asks for. Without both the recording decides.
fn screen_of(command: &str, columns: Option<&str>, size: Option<&str>) -> Result<Screen, Complaint>
    ensures value { result ≡ screen_of command.now (option_map (λ n. n.now) columns.entry) (option_map (λ s. s.now) size.entry) }
    ensures in_range { IfOk result (λ screen. IfSome screen.size (λ size. IsSize size)) }
{
    let wide = match wide_of(columns) {
        Ok(wide) => wide,
        Err(complaint) => return Err(complaint),
    };
    match screen_with(wide, size) {
        Ok(screen) => screen_for(command, screen),
        Err(complaint) => Err(complaint),
    }
}

/// Returns the source that options give for a command. The options are the name of a format, whether there is a timing
/// file, and the texts of two moments. There are also the names of an encoding and of a terminal, a number of columns,
/// and a size.
fn source_of(
    command: &str,
    format: Option<&str>,
    timed: bool,
    from: Option<&str>,
    until: Option<&str>,
    encoding: Option<&str>,
    terminal: Option<&str>,
    columns: Option<&str>,
    size: Option<&str>,
) -> Result<Source, Complaint>
    ensures value { result ≡ source_of command.now (option_map (λ f. f.now) format.entry) timed
        (option_map (λ f. f.now) from.entry) (option_map (λ u. u.now) until.entry) (option_map (λ e. e.now) encoding.entry)
        (option_map (λ t. t.now) terminal.entry) (option_map (λ n. n.now) columns.entry) (option_map (λ s. s.now) size.entry) }
    ensures in_range { IfOk result (λ source. IfSome source.size (λ size. IsSize size)) }
{
    let format = match format_for(command, timed, format) {
        Ok(format) => format,
        Err(complaint) => return Err(complaint),
    };
    let from = match from_of(command, format, timed, from) {
        Ok(from) => from,
        Err(complaint) => return Err(complaint),
    };
    let until = match moment_of(format, timed, until) {
        Ok(until) => until,
        Err(complaint) => return Err(complaint),
    };
    let encoding = match encoding_of(encoding) {
        Ok(encoding) => encoding,
        Err(complaint) => return Err(complaint),
    };
    let terminal = match terminal_of(encoding, terminal) {
        Ok(terminal) => terminal,
        Err(complaint) => return Err(complaint),
    };
    match screen_of(command, columns, size) {
        Ok(screen) => Ok(Source {
            format,
            from,
            until,
            encoding,
            terminal,
            wide: screen.wide,
            size: screen.size,
        }),
        Err(complaint) => Err(complaint),
    }
}

/// Returns the source that the options of the subcommand of this name give.
pub(crate) fn source_in(command: &str, matches: &ArgMatches<'_>) -> Result<Source, Complaint>
    ensures value { result ≡ source_in command.now (rows_of (found_of matches.now)) }
    ensures in_range { IfOk result (λ source. IfSome source.size (λ size. IsSize size)) }
{
    source_of(
        command,
        matches.get_str("format"),
        matches.get_str("timing").is_some(),
        matches.get_str("from"),
        matches.get_str("until"),
        matches.get_str("encoding"),
        matches.get_str("terminal"),
        matches.get_str("columns"),
        matches.get_str("size"),
    )
}
