//! The program: the arguments, the file, the engine, the lines on standard error, the exit status.
#![tactic(auto)]

ghost use Rattle.std.specs.Prelude.{◌≡◌, ◌⊎◌, IfErr, MatchResult};
ghost use Rattle.std.specs.Process.{exit_status};
ghost use Rattle.vt_device.specs.Fault.{status_of, status_with};
ghost use Rattle.vt_device.specs.declared.fault.Fault.TheVariants.{Memory, Write};

mod notes;
mod peeked;
mod reasons;

use crate::notes::{LOOKED_AT, print_notes};
use crate::peeked::Peeked;
use crate::reasons::{STANDARD_OUTPUT, Seen, print_error, print_reason};
use std::alloc::AllocError;
use std::env::{self, Env};
use std::fs::{File, Files, OpenFile};
use std::io::{self, ErrorKind, Input, Read, Write};
use std::process::ExitCode;
use vt_recording::shows_utf8;
use vt_replay::{
    Break, Detected, Encoding, Fault, Format, Outcome, Part, Refused, Request, Watched, What, Word,
    carry_out, detect, format_of, lacks_times, read_recording, request,
};

/// The exit status of a wrong command line.
const BAD_COMMAND_LINE: u8 = 2;

/// Ends the program with a fault's line and status.
fn ended_by(rt: &impl Eprint, fault: Fault) -> ExitCode
    ensures { exit_status result ≡ status_of fault }
{
    let _ = eprintln!(rt; "{fault}");
    ExitCode::from(fault.status())
}

/// Returns the arguments. `Err` is what the program ends with if they aren't text or allocation fails.
fn words<R: Env + AllocGlobal + Eprint>(rt: &R) -> Result<Vec<String>, ExitCode>
    ensures { IfErr result (λ ended. (exit_status ended ≡ status_of Memory) ⊎ (exit_status ended ≡ 2)) }
{
    match env::args(rt) {
        Ok(words) => match words.collect(rt.alloc()) {
            Ok(words) => Ok(words),
            Err(_) => Err(ended_by(rt, Fault::Memory)),
        },
        Err(error) if error.kind() == ErrorKind::OutOfMemory => Err(ended_by(rt, Fault::Memory)),
        Err(_) => {
            let _ = eprintln!(rt; "vt220: bad command line");
            let _ = eprintln!(rt;
                "vt220: an argument isn't UTF-8; for a file of such a name use '< FILE'"
            );
            Err(ExitCode::from(BAD_COMMAND_LINE))
        }
    }
}

/// Prints why the arguments are refused, and ends the program with the status of the refusal: with the help or the
/// version, for a failed allocation, or for a fault of the arguments. If the help or the version can't be printed, it is a
/// failed write.
fn refused_by<R: Print + Eprint + AllocGlobal>(rt: &R, refused: &Refused) -> ExitCode
    ensures { (exit_status result ≡ refused.now.status)
        ⊎ ((refused.now.status ≡ 0) × (exit_status result ≡ status_of Write)) }
{
    match refused.status {
        0 => match print!(rt; "{}", refused.text) {
            Ok(()) => ExitCode::SUCCESS,
            Err(error) => {
                let status = ended_by(rt, Fault::Write);
                print_error(rt, STANDARD_OUTPUT, Some(error));
                status
            }
        },
        1 => ended_by(rt, Fault::Memory),
        status => {
            let _ = eprint!(rt; "{}", refused.text);
            ExitCode::from(status)
        }
    }
}

/// The end of a request.
#[derive(Drop)]
struct Ended {
    outcome: Outcome,
    /// The file that was read last.
    part: Part,
    /// The operating system's error, if one made the fault.
    error: Option<io::Error>,
    /// The format in which the input was read.
    format: Format,
    /// The first bytes of the input.
    beginning: Vec<u8>,
}

/// Returns the end of a request that ended before any byte was played.
fn ended_early(
    rt: &impl AllocGlobal,
    request: &Request,
    fault: Fault,
    part: Part,
    error: Option<io::Error>,
) -> Ended {
    let beginning = Vec::new(rt.alloc());
    let format = format_of(request.format, &beginning);
    Ended {
        outcome: Outcome {
            replaced: 0,
            ended: Err(fault),
        },
        part,
        error,
        format,
        beginning,
    }
}

/// Returns the end of a request whose input couldn't be opened or looked at.
fn ended_unread(rt: &impl AllocGlobal, request: &Request, error: io::Error) -> Ended {
    let fault = match error.kind() {
        ErrorKind::OutOfMemory => Fault::Memory,
        _ => Fault::Read,
    };
    ended_early(rt, request, fault, Part::Recording, Some(error))
}

/// Returns whether the beginning of raw input decides on its encoding: it decides on the format, the word plays it, and neither a
/// terminal nor an encoding was asked for.
fn leaves_open(request: &Request) -> bool {
    request.format.is_none()
        && request.terminal.is_none()
        && request.encoding.is_none()
        && !matches!(request.word, Word::Events | Word::Content)
}

/// Returns the encoding for an input that begins so: UTF-8 if raw input shows it and the request leaves it open, otherwise that of
/// the request.
fn encoding_by(request: &Request, format: Format, beginning: &[u8]) -> Option<Encoding> {
    let front = beginning.get(..LOOKED_AT).unwrap_or(beginning);
    if leaves_open(request) && format == Format::Raw && shows_utf8(front) {
        return Some(Encoding::Utf8);
    }
    request.encoding
}

/// Carries out a request on a device's bytes, to standard output. If no format was asked for, the beginning of the input
/// decides, also on the encoding of raw input.
fn carry_out_on<R: Print + AllocGlobal, D: Read + Drop>(
    rt: &R,
    device: D,
    timing: Option<&[u8]>,
    request: &mut Request,
) -> Ended {
    let mut input = match Peeked::new(rt.alloc(), device) {
        Ok(input) => input,
        Err(AllocError) => return ended_early(rt, request, Fault::Memory, Part::Recording, None),
    };
    if request.format.is_none() {
        let least = if leaves_open(request) { LOOKED_AT } else { 0 };
        if let Err(error) = input.look(rt.alloc(), least) {
            return ended_unread(rt, request, error);
        }
    }
    let format = format_of(request.format, input.beginning());
    if let Some(fault) = refusal_of(request, format, timing.is_some(), input.beginning()) {
        let mut ended = ended_early(rt, request, fault, Part::Recording, None);
        ended.format = format;
        ended.beginning = input.into_beginning();
        return ended;
    }
    let asked = request.encoding;
    request.encoding = encoding_by(request, format, input.beginning());
    let ended = carry_out_in(rt, input, format, timing, request);
    request.encoding = asked;
    ended
}

/// Returns why an input that begins so isn't played, if it isn't: its beginning was to decide on its format, and it is
/// compressed or by asciinema of another version, or it has no times, and a moment needs them.
fn refusal_of(request: &Request, format: Format, timed: bool, beginning: &[u8]) -> Option<Fault> {
    if request.format.is_none() && is_unknown(beginning) {
        let part = Part::Recording;
        return Some(Fault::Broken(Break { part, at: 0 }));
    }
    if lacks_times(format, timed, request.from) || lacks_times(format, timed, request.until) {
        return Some(Fault::NoTimes);
    }
    None
}

/// Returns whether an input that begins so is compressed, or by asciinema of a version that isn't known.
fn is_unknown(beginning: &[u8]) -> bool {
    match detect(beginning) {
        Detected::Compressed(_) => true,
        Detected::Recording(format) => {
            format == Format::Raw && beginning.starts_with(b"{\"version\":")
        }
    }
}

/// Carries out a request on an input in a format, to standard output, and flushes that, after a fault too.
fn carry_out_in<R: Print + AllocGlobal, D: Read + Drop>(
    rt: &R,
    input: Peeked<D>,
    format: Format,
    timing: Option<&[u8]>,
    request: &Request,
) -> Ended {
    let mut reader = Watched::new(input);
    let mut writer = Watched::new(io::writer(rt));
    let outcome = carry_out(
        rt.alloc(),
        &mut reader,
        format,
        timing,
        &mut writer,
        request,
    );
    let error = reader.error().or(writer.error());
    let flushed = writer.into_inner().flush();
    Ended {
        outcome: Outcome {
            replaced: outcome.replaced,
            ended: outcome.ended.and(flushed.map_err(|_| Fault::Write)),
        },
        part: Part::Recording,
        error: error.or(flushed.err()),
        format,
        beginning: reader.into_inner().into_beginning(),
    }
}

/// Returns whether a file is a regular one that has more bytes than the limit. Then none of them needs to be read.
fn is_too_long(file: &impl OpenFile, limit: u64) -> bool {
    match file.metadata() {
        Ok(data) => data.is_file() && limit < data.len(),
        Err(_) => false,
    }
}

/// Opens the file, if one is named, and carries out the request on it, or on standard input.
fn carry_out_by_name<R: Files + Input + Print + Eprint + AllocGlobal>(
    rt: &R,
    timing: Option<&[u8]>,
    request: &mut Request,
) -> Ended {
    match &request.file {
        Some(name) => match File::open(rt, name.as_str()) {
            Ok(file) if is_too_long(&file, request.limit) => {
                ended_early(rt, request, Fault::TooLong, Part::Recording, None)
            }
            Ok(file) => carry_out_on(rt, file, timing, request),
            Err(error) => ended_unread(rt, request, error),
        },
        None => carry_out_on(rt, rt.reader(), timing, request),
    }
}

/// Reads the timing file, if one is named, and carries out the request.
fn carry_out_with_timing<R: Files + Input + Print + Eprint + AllocGlobal>(
    rt: &R,
    request: &mut Request,
) -> Ended {
    let Some(name) = &request.timing else {
        return carry_out_by_name(rt, None, request);
    };
    let file = match File::open(rt, name.as_str()) {
        Ok(file) => file,
        Err(error) => return ended_early(rt, request, Fault::Read, Part::Timing, Some(error)),
    };
    if is_too_long(&file, request.limit) {
        return ended_early(rt, request, Fault::TooLong, Part::Timing, None);
    }
    let mut reader = Watched::new(file);
    match read_recording(rt.alloc(), &mut reader, request.limit as usize) {
        Ok(bytes) => carry_out_by_name(rt, Some(&bytes), request),
        Err(fault) => ended_early(rt, request, fault, Part::Timing, reader.error()),
    }
}

/// Returns whether the reader of the output ended early, and the word is none of the four of the specification. Then
/// the program ends without a line.
fn is_silent(word: Word, fault: Fault, error: Option<io::Error>) -> bool {
    let is_left = match error {
        Some(error) => fault == Fault::Write && error.kind() == ErrorKind::BrokenPipe,
        None => false,
    };
    match word {
        Word::Replay(What::Text | What::Reports | What::Repaint | What::Status) => false,
        _ => is_left,
    }
}

/// Prints how many characters became SUB, if any did, and then a fault's lines and the other notes. Ends the program
/// after a request: with status 0 if all was written, otherwise with the fault's status. If what came before the
/// recording broke its format is enough, the status is 0, too.
fn ended_after<R: Eprint + AllocGlobal>(rt: &R, request: &Request, ended: Ended) -> ExitCode
    ensures { MatchResult ended.outcome.ended (λ _. exit_status result ≡ 0)
        (λ fault. exit_status result ≡ status_with request.now.partial fault) }
{
    match ended.outcome.ended {
        Ok(()) => {
            print_replaced(rt, request, &ended);
            print_notes(rt, request, ended.format, &ended.beginning);
            ExitCode::SUCCESS
        }
        Err(fault) if is_silent(request.word, fault, ended.error) => {
            ExitCode::from(fault.status_with(request.partial))
        }
        Err(fault) => {
            print_replaced(rt, request, &ended);
            let _ = eprintln!(rt; "{fault}");
            print_reason(rt, request, fault, seen_of(&ended));
            print_notes(rt, request, ended.format, &ended.beginning);
            ExitCode::from(fault.status_with(request.partial))
        }
    }
}

/// Prints how many characters became SUB, if any did.
fn print_replaced(rt: &impl Eprint, request: &Request, ended: &Ended) {
    if ended.outcome.replaced > 0 && !request.quiet {
        let _ = eprintln!(rt; "vt220: {} characters became SUB", ended.outcome.replaced);
    }
}

/// Returns what was seen of the files.
fn seen_of(ended: &Ended) -> Seen {
    Seen {
        part: ended.part,
        error: ended.error,
        format: ended.format,
        detected: detect(&ended.beginning),
        is_empty: ended.beginning.is_empty(),
    }
}

fn main(rt: HostRuntime) -> ExitCode {
    let words = match words(&rt) {
        Ok(words) => words,
        Err(ended) => return ended,
    };
    let mut request = match request(rt.alloc(), words) {
        Ok(request) => request,
        Err(refused) => return refused_by(&rt, &refused),
    };
    let ended = carry_out_with_timing(&rt, &mut request);
    ended_after(&rt, &request, ended)
}
