//! The command line: its command in clap's terms, and the settings of a replay.
ghost use Rattle.std.specs.Prelude.{◌≡◌, ◌≢◌, ◌⊎◌, ℕ, [], IfOk, IfErr, IfSome, IfNone, Some, is_some, option_map, string_bytes};
ghost use Rattle.std.specs.Prelude.{codes, false, fold};
ghost use Rattle.clap.specs.Words.{FailsBy, app_of, first_of, first_value, found_of, kind_of, new_app, rows_of, rule_of};
ghost use Rattle.clap.specs.Words.{subcommand_rows_of, with_rule};
ghost use Rattle.clap.specs.declared.builder.command.Command.TheViews.{out-Command};
ghost use Rattle.vt_cli.specs.declared.what.What.{What};
ghost use Rattle.vt_cli.specs.CommandLine.{rule_for, subcommand, with_name, as_program};
ghost use Rattle.vt_cli.specs.CommandLine.{vt220, faults_in, found_in, name_of, status_for, is_true, is_set, is_whole, is_plain};
ghost use Rattle.vt_cli.specs.CommandLine.{IsNumberOf, AreSettings, IsMemory, IsRefusal};
ghost use Rattle.vt_cli.specs.CommandLine.{HasNoSettings};
ghost use Rattle.vt_cli.specs.Request.{AreOptions, HasNoOptions};

use crate::asked::{Options, Refused, Settings};
use crate::what::What;
use clap::builder::ValueParser;
use clap::error::ErrorKind;
use clap::{Arg, ArgAction, ArgMatches, Command, Error};
use std::alloc::{AllocError, Global};

/// The greatest value of `--piece`.
const PIECE_MOST: u64 = 65536;

/// The greatest value of `--limit`.
const LIMIT_MOST: u64 = 1099511627776;

/// The message for arguments that clap takes and that ask for nothing.
pub(crate) const BAD_COMMAND_LINE: &str = "vt220: bad command line\n";

/// The version of the program and of all its crates: `vt220 --version` prints it after the name.
const VERSION: &str = "0.4.0";

/// The purpose of the program, as its help has it.
const ABOUT: &str =
    "Plays what a host sent to a VT220 terminal, and writes what the terminal then shows or answers";

/// The purpose of `text`, as the help has it.
const TEXT: &str = "The screen: 24 lines of UTF-8, each without the spaces at its end";

/// The purpose of `reports`, as the help has it.
const REPORTS: &str = "What the terminal answers to the host, chunk by chunk as the input comes";

/// The purpose of `repaint`, as the help has it.
const REPAINT: &str =
    "The bytes that rebuild the terminal, hidden state included, if played for the same terminal";

/// The purpose of `status`, as the help has it.
const STATUS: &str =
    "The cursor, the wrap flag, the margins, the unfinished sequence, and how many bytes were answered";

/// The purpose of `show`, as the help has it.
const SHOW: &str =
    "The screen with its attributes, for a terminal of today or less -R: lines of UTF-8 with SGR";

/// The purpose of `picture`, as the help has it.
const PICTURE: &str = "The screen as a picture (SVG)";

/// The purpose of `log`, as the help has it.
const LOG: &str =
    "The lines that scroll off the top of the screen, as they come, and at the end the screen";

/// The purpose of `trace`, as the help has it.
const TRACE: &str = "A line for each event: its place, its name and its values";

/// The purpose of `events`, as the help has it.
const EVENTS: &str =
    "A line for each event of a recording: its time, what it is, its place and its length";

/// The purpose of `content`, as the help has it.
const CONTENT: &str = "The host's bytes of a recording";

/// The subcommands, each by its name and what it is for.
const SUBCOMMANDS: &[(&str, &str)] = &[
    ("text", TEXT),
    ("reports", REPORTS),
    ("repaint", REPAINT),
    ("status", STATUS),
    ("show", SHOW),
    ("picture", PICTURE),
    ("log", LOG),
    ("trace", TRACE),
    ("events", EVENTS),
    ("content", CONTENT),
];

/// The value that an argument of a subcommand takes.
#[derive(Clone, Copy)]
enum Takes<'a> {
    /// The file.
    File,
    /// A number from the first to the second, with a default.
    Number(u64, u64, &'a str),
    /// A text, by the name of its value.
    Text(&'a str),
    /// Nothing.
    Nothing,
}

/// The arguments of each subcommand, each by its name, what it takes, and its help.
const ARGUMENTS: &[(&str, Takes, &str)] = &[
    (
        "piece",
        Takes::Number(1, PIECE_MOST, "4096"),
        "The most bytes of one read, 1 to 65536",
    ),
    (
        "limit",
        Takes::Number(0, LIMIT_MOST, "268435456"),
        "The most bytes of the input, 0 to 1099511627776",
    ),
    (
        "file",
        Takes::File,
        "What the host sent; standard input if no file is named",
    ),
    (
        "format",
        Takes::Text("FORMAT"),
        "How FILE was recorded: raw, script, ttyrec, asciicast or auto [default: auto, but raw for text, reports, repaint and status]",
    ),
    (
        "timing",
        Takes::Text("FILE"),
        "The times of a recording by script(1), which is then the format",
    ),
    (
        "from",
        Takes::Text("MOMENT"),
        "Only what comes from there on, for events and content: as for --until",
    ),
    (
        "until",
        Takes::Text("MOMENT"),
        "Only what came up to it: seconds, as 12.5 or 12:31, bytes, as 4096b, event:N or marker:N",
    ),
    (
        "encoding",
        Takes::Text("NAME"),
        "How the host's bytes are read: dec, utf-8 or auto [default: auto]",
    ),
    (
        "terminal",
        Takes::Text("NAME"),
        "The terminal for which the host sends: vt220, xterm or auto [default: auto]",
    ),
    (
        "columns",
        Takes::Text("N"),
        "The columns of the screen: 80, 132 or auto [default: auto]",
    ),
    (
        "size",
        Takes::Text("COLUMNSxROWS"),
        "The size of the screen, for commands that play any: as 120x40, or auto [default: auto]",
    ),
    (
        "full",
        Takes::Nothing,
        "For events: all that the recording has, with the bytes of its output",
    ),
    (
        "partial",
        Takes::Nothing,
        "What came before a recording breaks its format is enough: that is printed, and no fault",
    ),
    (
        "quiet",
        Takes::Nothing,
        "No notes on standard error; faults are printed all the same",
    ),
];

/// The text below the help.
const AFTER_HELP: &str = "\
Each command but help takes FILE, or standard input if no file is named, and these options.
  --piece N        the most bytes of one read, 1 to 65536 [default: 4096]
  --limit N        the most bytes of the input, 0 to 1099511627776 [default: 268435456]
  --format FORMAT  how FILE was recorded: raw, script, ttyrec, asciicast or auto [default: auto,
                   but raw for text, reports, repaint and status]
  --timing FILE    the times of a recording by script(1), which is then the format
  --from MOMENT    only what comes from there on, for events and content: as for --until
  --until MOMENT   only what came up to it: 12.5 or 12:31 seconds, 4096b bytes, event:N or marker:N
  --encoding NAME  how the host's bytes are read: dec, utf-8 or auto [default: auto]
  --terminal NAME  the terminal for which the host sends: vt220, xterm or auto [default: auto]
  --columns N      the columns of the screen: 80, 132 or auto [default: auto]
  --size CxR       its columns and rows, for commands that play any size: 2x2 to 255x255, or auto
  --full           for events: all that the recording has, with the bytes of its output
  --partial        what came before a recording breaks is enough: that is printed, and no fault
  --quiet          no notes on standard error; faults are printed all the same

With auto the first line of a recording decides on the terminal and the columns. By asciinema
and by script that line names TERM: vt.. is a VT220, any other name is an xterm. What names none
is for a VT220 of 80 columns. An xterm's host and a recording by asciinema send UTF-8. The content
of a recording by script or ttyrec decides whether it is UTF-8. Raw bytes are dec.

Example, with a recording made by script(1):
  script -q -c 'stty rows 24 cols 80; TERM=vt220 LC_ALL=C top -n 1' /dev/null > top.bin
  vt220 text top.bin
  vt220 show top.bin | less -R
  vt220 picture top.bin > top.svg

Example, the screen as it stood twelve and a half seconds after the start:
  vt220 show --until 12.5 demo.tty

Exit status:
  0  all was written, or the help or the version was asked for
  1  an allocation failed
  2  the command line is wrong
  3  a repaint was asked for, and the input ends inside a sequence
  4  the input can't be opened or read
  5  the output can't be written
  6  the input is longer than the limit
  7  the recording breaks its format; what came before that was written. With --partial it is 0";

/// Returns an argument of a subcommand.
fn argument<'a>(alloc: Global, name: &'a str, takes: Takes<'a>, help: &'a str) -> Arg<'a>
    ensures rule { rule_of result ≡ rule_for name.entry.now takes.entry }
    ensures local { result.global ≡ false }
{
    let arg = Arg::new(alloc, name).help(help);
    match takes {
        Takes::File => arg.value_name("FILE"),
        Takes::Number(low, high, default) => arg
            .long(name)
            .value_name("N")
            .value_parser(ValueParser::unsigned(low, high))
            .default_value(default),
        Takes::Text(value) => arg.long(name).value_name(value),
        Takes::Nothing => arg.long(name).action(ArgAction::SetTrue),
    }
}

/// Adds arguments to a subcommand, each by its name, what it takes, and its help.
fn with_arguments<'a>(
    alloc: Global,
    command: Command<'a>,
    rows: &[(&'a str, Takes<'a>, &'a str)],
) -> Result<Command<'a>, AllocError>
    requires { (out-Command command).has_globals ≡ false }
    ensures app { IfOk result (λ c. app_of c ≡ fold (λ a row. with_rule a (rule_for row.0.now row.1)) (app_of command.entry) rows.now) }
    ensures local { IfOk result (λ c. (out-Command c).has_globals ≡ false) }
{
    let mut command = command;
    for (name, takes, help) in rows {
        command = command.arg(argument(alloc, name, *takes, help))?;
    }
    Ok(command)
}

/// Returns a subcommand with its arguments.
fn subcommand<'a>(alloc: Global, name: &'a str, about: &'a str) -> Result<Command<'a>, AllocError>
    ensures app { IfOk result (λ c. app_of c ≡ subcommand name.entry.now) }
    ensures local { IfOk result (λ c. (out-Command c).has_globals ≡ false) }
{
    with_arguments(alloc, Command::new(alloc, name).about(about), ARGUMENTS)
}

/// Adds subcommands, each by its name and what it is for.
fn with_names<'a>(
    alloc: Global,
    command: Command<'a>,
    rows: &[(&'a str, &'a str)],
) -> Result<Command<'a>, AllocError>
    ensures { IfOk result (λ c. app_of c ≡ fold (λ a row. with_name a row.0.now) (app_of command.entry) rows.now) }
{
    let mut command = command;
    for (name, about) in rows {
        command = command.subcommand(subcommand(alloc, name, about)?)?;
    }
    Ok(command)
}

/// Returns the program's command without its subcommands.
fn program<'a>(alloc: Global) -> Command<'a>
    ensures { app_of result ≡ as_program (new_app (codes "vt220")) }
{
    Command::new(alloc, "vt220")
        .version(VERSION)
        .about(ABOUT)
        .after_help(AFTER_HELP)
        .subcommand_required(true)
}

/// Returns the program's command.
fn command<'a>(alloc: Global) -> Result<Command<'a>, AllocError>
    ensures { IfOk result (λ c. app_of c ≡ vt220) }
{
    with_names(alloc, program(alloc), SUBCOMMANDS)
}

/// Returns what clap matches in the arguments.
pub(crate) fn matches_of<'a>(alloc: Global, words: &'a [String]) -> Result<ArgMatches<'a>, Error>
    ensures matches { IfOk result (λ m. subcommand_rows_of m ≡ found_in words.entry.now) }
    ensures faults { FailsBy (faults_in words.entry.now) result }
{
    command(alloc)?.try_get_matches_from(words)
}

/// Returns the refusal if allocation fails.
pub(crate) fn out_of_memory(alloc: Global) -> Refused
    ensures { IsMemory result }
{
    Refused {
        status: 1,
        text: String::new(alloc),
    }
}

/// Returns a refusal with this text.
pub(crate) fn refusal(alloc: Global, status: u8, text: &str) -> Refused
    ensures { IsMemory result ⊎ ((result.status ≡ status) × (string_bytes result.text ≡ text.now)) }
{
    match String::from_str(alloc, text) {
        Ok(text) => Refused { status, text },
        Err(AllocError) => out_of_memory(alloc),
    }
}

/// Returns the refusal for a fault of clap, as clap words it.
pub(crate) fn refusal_of(alloc: Global, error: Error) -> Refused
    ensures { IsMemory result
        ⊎ ((kind_of error ≢ ErrorKind.OutOfMemory) × (result.status ≡ status_for (kind_of error))) }
{
    let status = match error.kind() {
        ErrorKind::OutOfMemory => return out_of_memory(alloc),
        ErrorKind::DisplayHelp | ErrorKind::DisplayVersion => 0,
        _ => 2,
    };
    match error.to_string(alloc) {
        Ok(text) => Refused { status, text },
        Err(_) => out_of_memory(alloc),
    }
}

/// Returns what the subcommand of this name writes.
pub(crate) fn what_of(name: &str) -> Option<What>
    ensures some { IfSome result (λ what. name.now ≡ name_of what) }
    ensures none { IfNone result ((what : What) → name.now ≢ name_of what) }
{
    match name {
        "text" => Some(What::Text),
        "reports" => Some(What::Reports),
        "repaint" => Some(What::Repaint),
        "status" => Some(What::Status),
        "show" => Some(What::Show),
        "picture" => Some(What::Picture),
        _ => None,
    }
}

/// Returns the number of an option.
fn number_of(matches: &ArgMatches<'_>, option: &str) -> Option<u64>
    ensures some { IfSome result (IsNumberOf option.now (rows_of (found_of matches.now))) }
    ensures none { IfNone result ((n : ℕ) → IsNumberOf option.now (rows_of (found_of matches.now)) n → ⊥) }
{
    matches.get_str(option)?.parse::<u64>().ok()
}

/// Returns the name of a file that an argument gives, if it is there.
pub(crate) fn file_of(
    alloc: Global,
    matches: &ArgMatches<'_>,
    argument: &str,
) -> Result<Option<String>, AllocError>
    ensures { IfOk result (λ file. option_map (λ name. string_bytes name) file
        ≡ first_value (found_of matches.now) argument.now) }
{
    match matches.get_str(argument) {
        Some(name) => Ok(Some(String::from_str(alloc, name)?)),
        None => Ok(None),
    }
}

/// Returns what a subcommand's options ask for, if the numbers are in their ranges.
pub(crate) fn options_of(
    alloc: Global,
    matches: &ArgMatches<'_>,
) -> Result<Option<Options>, AllocError>
    ensures some { IfOk result (λ o. IfSome o (λ options. AreOptions (rows_of (found_of matches.now)) options.piece options.limit options.file)) }
    ensures none { IfOk result (λ o. IfNone o (HasNoOptions (rows_of (found_of matches.now)))) }
{
    let Some(piece) = number_of(matches, "piece") else {
        return Ok(None);
    };
    let Some(limit) = number_of(matches, "limit") else {
        return Ok(None);
    };
    if piece < 1 || PIECE_MOST < piece || LIMIT_MOST < limit {
        return Ok(None);
    }
    let file = file_of(alloc, matches, "file")?;
    Ok(Some(Options {
        piece: piece as usize,
        limit,
        file,
    }))
}

/// Returns whether an option without a value was used, by the text that clap has for it.
fn is_true(text: Option<&str>) -> bool
    ensures { result ≡ is_true (option_map (λ t. t.now) text.entry) }
{
    let Some(text) = text else {
        return false;
    };
    match text {
        "true" => true,
        _ => false,
    }
}

/// Returns whether an option without a value was used.
pub(crate) fn is_set(matches: &ArgMatches<'_>, option: &str) -> bool
    ensures { result ≡ is_set option.now (rows_of (found_of matches.now)) }
{
    is_true(matches.get_str(option))
}

/// Returns whether an option or an argument was given.
fn is_given(matches: &ArgMatches<'_>, name: &str) -> bool
    ensures { result ≡ is_some (first_of name.now (rows_of (found_of matches.now))) }
{
    matches.get_str(name).is_some()
}

/// Returns whether no option says how a recording was written, or which part of it is wanted.
fn is_whole(matches: &ArgMatches<'_>) -> bool
    ensures { result ≡ is_whole (rows_of (found_of matches.now)) }
{
    !is_given(matches, "format")
        && !is_given(matches, "timing")
        && !is_given(matches, "from")
        && !is_given(matches, "until")
}

/// Returns whether no option of a recording was used.
fn is_plain(matches: &ArgMatches<'_>) -> bool
    ensures { result ≡ is_plain (rows_of (found_of matches.now)) }
{
    is_whole(matches)
        && !is_given(matches, "encoding")
        && !is_given(matches, "terminal")
        && !is_given(matches, "columns")
        && !is_given(matches, "size")
        && !is_set(matches, "full")
        && !is_set(matches, "partial")
        && !is_set(matches, "quiet")
}

/// Returns the settings of a subcommand. There are none unless it is one of a replay, no option of a recording was
/// used, and its numbers are in their ranges.
fn settings_of(
    alloc: Global,
    name: &str,
    matches: &ArgMatches<'_>,
) -> Result<Option<Settings>, AllocError>
    ensures some { IfOk result (λ o. IfSome o (AreSettings (Some (name.now, rows_of (found_of matches.now))))) }
    ensures none { IfOk result (λ o. IfNone o (HasNoSettings (Some (name.now, rows_of (found_of matches.now))))) }
{
    let Some(what) = what_of(name) else {
        return Ok(None);
    };
    if !is_plain(matches) {
        return Ok(None);
    }
    let Some(options) = options_of(alloc, matches)? else {
        return Ok(None);
    };
    Ok(Some(Settings {
        what,
        piece: options.piece,
        limit: options.limit,
        file: options.file,
    }))
}

/// Returns the settings that the arguments ask for; the first argument is the program's name.
///
/// The arguments are those of `request`, for one of the six subcommands `text`, `reports`, `repaint`, `status`, `show`
/// and `picture`, without an option of a recording. They are `--piece N` (1 to 65536, otherwise 4096), `--limit N` (0
/// to 1099511627776, otherwise 268435456) and at most one FILE.
///
/// If there are no settings, `Err` has the exit status and the text to end with. The status is 0 for the help or the
/// version, 1 for a failed allocation, and 2 if the arguments are wrong. (this profile)
pub fn settings(alloc: Global, words: Vec<String>) -> Result<Settings, Refused>
    ensures ok { IfOk result (AreSettings (found_in words.items)) }
    ensures no_fault { IfOk result (λ _. faults_in words.items ≡ []) }
    ensures err { IfErr result (IsRefusal (faults_in words.items) (found_in words.items)) }
{
    match matches_of(alloc, words.as_slice()) {
        Ok(matches) => settings_among(alloc, &matches),
        Err(error) => Err(refusal_of(alloc, error)),
    }
}

/// Returns the settings that the subcommand among matches asks for.
fn settings_among(alloc: Global, matches: &ArgMatches<'_>) -> Result<Settings, Refused>
    ensures ok { IfOk result (AreSettings (subcommand_rows_of matches.now)) }
    ensures err { IfErr result (IsRefusal [] (subcommand_rows_of matches.now)) }
{
    let Some((name, inner)) = matches.subcommand() else {
        return Err(refusal(alloc, 2, BAD_COMMAND_LINE));
    };
    match settings_of(alloc, name, inner) {
        Ok(Some(settings)) => Ok(settings),
        Ok(None) => Err(refusal(alloc, 2, BAD_COMMAND_LINE)),
        Err(AllocError) => Err(out_of_memory(alloc)),
    }
}
