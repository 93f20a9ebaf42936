//! The request of the arguments: a word, its input, and how that was recorded.
ghost use Rattle.std.specs.Prelude.{◌≡◌, ◌≢◌, [], IfOk, IfErr, IfSome, IfNone, Some, Ok};
ghost use Rattle.clap.specs.Words.{found_of, rows_of, subcommand_rows_of};
ghost use Rattle.vt_screen.specs.Sizes.{IsSize};
ghost use Rattle.vt_cli.specs.declared.what.Word.{Word};
ghost use Rattle.vt_cli.specs.CommandLine.{word_name};
ghost use Rattle.vt_cli.specs.Source.{source_in};
ghost use Rattle.vt_cli.specs.Request.{IsFound, HasNoRequest, IsRequest, IsNoRequest, IsRequestRefusal};

use crate::asked::{Refused, Request};
use crate::command_line::{
    BAD_COMMAND_LINE, file_of, is_set, matches_of, options_of, out_of_memory, refusal, refusal_of,
    what_of,
};
use crate::source::{Source, source_in};
use crate::what::Word;
use clap::ArgMatches;
use std::alloc::{AllocError, Global};

/// Returns the word of this name.
fn word_of(name: &str) -> Option<Word>
    ensures some { IfSome result (λ word. name.now ≡ word_name word) }
    ensures none { IfNone result ((word : Word) → name.now ≢ word_name word) }
{
    match name {
        "log" => Some(Word::Log),
        "trace" => Some(Word::Trace),
        "events" => Some(Word::Events),
        "content" => Some(Word::Content),
        _ => Some(Word::Replay(what_of(name)?)),
    }
}

/// Returns what a subcommand asks for, if its numbers are in their ranges.
fn request_of(
    alloc: Global,
    name: &str,
    matches: &ArgMatches<'_>,
    source: Source,
) -> Result<Option<Request>, AllocError>
    requires source { source_in name.now (rows_of (found_of matches.now)) ≡ Ok source }
    requires in_range { IfSome source.size (λ s. IsSize s) }
    ensures some { IfOk result (λ o. IfSome o (IsFound (Some (name.now, rows_of (found_of matches.now))))) }
    ensures none { IfOk result (λ o. IfNone o (HasNoRequest (Some (name.now, rows_of (found_of matches.now))))) }
{
    let Some(word) = word_of(name) else {
        return Ok(None);
    };
    let Some(options) = options_of(alloc, matches)? else {
        return Ok(None);
    };
    let timing = file_of(alloc, matches, "timing")?;
    Ok(Some(Request {
        word,
        piece: options.piece,
        limit: options.limit,
        file: options.file,
        format: source.format,
        timing,
        from: source.from,
        until: source.until,
        encoding: source.encoding,
        terminal: source.terminal,
        wide: source.wide,
        size: source.size,
        full: is_set(matches, "full"),
        partial: is_set(matches, "partial"),
        quiet: is_set(matches, "quiet"),
    }))
}

/// Returns the request that the subcommand among matches asks for.
fn request_among(alloc: Global, matches: &ArgMatches<'_>) -> Result<Request, Refused>
    ensures ok { IfOk result (IsFound (subcommand_rows_of matches.now)) }
    ensures err { IfErr result (IsRequestRefusal [] (subcommand_rows_of matches.now)) }
{
    let Some((name, inner)) = matches.subcommand() else {
        return Err(refusal(alloc, 2, BAD_COMMAND_LINE));
    };
    let source = match source_in(name, inner) {
        Ok(source) => source,
        Err(complaint) => return Err(refusal(alloc, 2, complaint.line())),
    };
    match request_of(alloc, name, inner, source) {
        Ok(Some(request)) => Ok(request),
        Ok(None) => Err(refusal(alloc, 2, BAD_COMMAND_LINE)),
        Err(AllocError) => Err(out_of_memory(alloc)),
    }
}

/// Returns what the arguments ask for; the first argument is the program's name.
///
/// The arguments are those of clap's command `vt220`: one of the ten subcommands. They are those of `settings` and
/// `log`, `trace`, `events` and `content`. Each takes at most one FILE, `--piece N`, `--limit N`, and the options of a
/// recording:
///
/// - `--format FORMAT`: raw, script, ttyrec, asciicast or auto
/// - `--timing FILE`: then the format is script
/// - `--from MOMENT` and `--until MOMENT`
/// - `--encoding NAME`: dec, utf-8 or auto
/// - `--terminal NAME`: vt220, xterm or auto
/// - `--columns N`: 80, 132 or auto
/// - `--size COLUMNSxROWS`: 2 to 255 columns and 2 to 255 rows, or auto
/// - `--full`, `--partial` and `--quiet`
///
/// With auto the beginning of the input decides on the format. That is the default, but raw for `text`, `reports`,
/// `repaint` and `status`. Of encoding, terminal, columns and size auto is the default: then the request leaves the
/// decision to the recording. A moment is seconds (`12.5`), minutes and seconds
/// (`12:31`), hours, minutes and seconds (`1:02:03`), a number of bytes (`4096b`), or the number of an event
/// (`event:12`) or a marker (`marker:2`), counted from 1. Seconds have up to six decimals.
///
/// If there is no request, `Err` has the exit status and the text to end with. The status is 0 for the help or the
/// version, 1 for a failed allocation, and 2 if the arguments are wrong. (this profile) Wrong are also:
///
/// - `--timing` with a format other than script and auto
/// - a moment in seconds with raw, or with script without `--timing`
/// - `--from` with another subcommand than `events` and `content`
/// - xterm with dec
/// - `--size` with `--columns`
/// - a size that isn't a VT220's, for `events` and `content`
pub fn request(alloc: Global, words: Vec<String>) -> Result<Request, Refused>
    ensures ok { IfOk result (IsRequest words.items) }
    ensures err { IfErr result (IsNoRequest words.items) }
{
    match matches_of(alloc, words.as_slice()) {
        Ok(matches) => request_among(alloc, &matches),
        Err(error) => Err(refusal_of(alloc, error)),
    }
}
