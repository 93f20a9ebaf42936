//! The second line of a fault: the file that it is about, and the reason.

use std::alloc::{AllocError, Global};
use std::io::Error;
use vt_replay::{Break, Compression, Detected, Fault, Format, Part, Request};

/// The part of an error's message after which the operating system's number comes.
const BEFORE_THE_NUMBER: &str = " (os error ";

/// The name of the output, for messages.
pub(crate) const STANDARD_OUTPUT: &str = "standard output";

/// Facts about the files, as seen until the request ended.
#[derive(Clone, Copy)]
pub(crate) struct Seen {
    /// The file that was read last.
    pub(crate) part: Part,
    /// The operating system's error, if one made the fault.
    pub(crate) error: Option<Error>,
    /// The format in which the input was read.
    pub(crate) format: Format,
    /// The kind of input as its first bytes show it.
    pub(crate) detected: Detected,
    /// Whether the input has no byte.
    pub(crate) is_empty: bool,
}

/// Prints the second line of a fault, after its own: the file, and the reason. A failed allocation has no second line.
pub(crate) fn print_reason<R: Eprint + AllocGlobal>(
    rt: &R,
    request: &Request,
    fault: Fault,
    seen: Seen,
) {
    let input = name_of(request, seen.part);
    let _ = match fault {
        Fault::Memory => Ok(()),
        Fault::Partial => {
            eprintln!(rt;
                "vt220: {input}: the last sequence has no end; vt220 status prints its kind"
            )
        }
        Fault::Read => {
            print_error(rt, input, seen.error);
            Ok(())
        }
        Fault::Write => {
            print_error(rt, STANDARD_OUTPUT, seen.error);
            Ok(())
        }
        Fault::TooLong => {
            let limit = request.limit;
            eprintln!(rt; "vt220: {input}: more than {limit} bytes; a greater --limit allows them")
        }
        Fault::Broken(place) => {
            print_broken(rt, request, place, seen);
            Ok(())
        }
        Fault::NoTimes => { eprintln!(rt; "vt220: {input}: {}", without_times(seen.format)) }
    };
}

/// Prints what the format has at a place that breaks it, and what the recording looks like, if that is another format.
fn print_broken(rt: &impl Eprint, request: &Request, place: Break, seen: Seen) {
    let name = name_of(request, place.part);
    if let (None, Detected::Compressed(_)) = (request.format, seen.detected) {
        let _ = eprintln!(rt; "vt220: {name}: {}", hint_of(seen.detected).unwrap_or(""));
        return;
    }
    if request.format.is_none() && seen.format == Format::Raw {
        let _ = eprintln!(rt; "vt220: {name}: it is by asciinema, of a version that isn't known");
        return;
    }
    let expected = expected(seen.format, place);
    let _ = match other_look(place, seen) {
        Some(look) => eprintln!(rt; "vt220: {name}: {expected}; {look}"),
        None => eprintln!(rt; "vt220: {name}: {expected}"),
    };
}

/// Returns what a recording looks like that is broken at its beginning, or none if it looks like the format in which it
/// was read. If it is broken elsewhere, the result is none, too.
fn other_look(place: Break, seen: Seen) -> Option<&'static str> {
    if place.part != Part::Recording || place.at > 0 {
        return None;
    }
    if seen.detected == Detected::Recording(seen.format) {
        return None;
    }
    if seen.is_empty {
        return Some("the file is empty");
    }
    Some(hint_of(seen.detected).unwrap_or("it looks like raw bytes: use --format raw"))
}

/// Returns the name of a file of the request.
pub(crate) fn name_of(request: &Request, part: Part) -> &str {
    let name = match part {
        Part::Recording => &request.file,
        Part::Timing => &request.timing,
    };
    match name {
        Some(name) => name.as_str(),
        None => "standard input",
    }
}

/// Prints the operating system's words for an error of a file. A write of no byte is an error without words.
pub(crate) fn print_error<R: Eprint + AllocGlobal>(rt: &R, name: &str, error: Option<Error>) {
    let Some(error) = error else {
        return;
    };
    let Ok(words) = words_of(rt.alloc(), error) else {
        return;
    };
    let _ = eprintln!(rt; "vt220: {name}: {words}");
    if name == "-" {
        let _ = eprintln!(rt; "vt220: standard input is read if no FILE is named");
    }
}

/// Returns the operating system's words for an error, without its number.
fn words_of(alloc: Global, error: Error) -> Result<String, AllocError> {
    let message = error.to_string(alloc)?;
    let words = match message.find(BEFORE_THE_NUMBER) {
        Some(at) => &message[..at],
        None => message.as_str(),
    };
    String::from_str(alloc, words)
}

/// Returns why an input whose beginning showed the format has no times.
fn without_times(format: Format) -> &'static str {
    match format {
        Format::Script => "times are in a file by script: use --timing FILE",
        _ => "--format auto found raw bytes; a moment may be bytes, as 4096b",
    }
}

/// Returns what the format has at a place that breaks it.
fn expected(format: Format, place: Break) -> &'static str {
    match place.part {
        Part::Timing => {
            "a timing file has lines such as '0.25 80', or 'O 0.25 80' with other letters too"
        }
        Part::Recording => match format {
            Format::Raw => "raw bytes break nothing",
            Format::Script if place.at == 0 => {
                "--format script begins with a line 'Script started on ..'"
            }
            Format::Script => {
                "a second session begins there, or the timing file has more bytes than the recording"
            }
            Format::Ttyrec => {
                "--format ttyrec has frames: a header of 12 bytes, and as many bytes as it says"
            }
            Format::Asciicast if place.at == 0 => {
                "--format asciicast begins with a line '{\"version\": 2, ..}', or 3, or is an object of version 1"
            }
            Format::Asciicast => "--format asciicast has lines such as '[0.25, \"o\", \"text\"]'",
        },
    }
}

/// Returns what to do with a file that isn't raw, or none if it is raw.
pub(crate) fn hint_of(detected: Detected) -> Option<&'static str> {
    match detected {
        Detected::Recording(Format::Raw) => None,
        Detected::Recording(Format::Script) => {
            Some("it looks like a recording by script: use --format script")
        }
        Detected::Recording(Format::Ttyrec) => {
            Some("it looks like a recording by ttyrec: use --format ttyrec")
        }
        Detected::Recording(Format::Asciicast) => {
            Some("it looks like a recording by asciinema: use --format asciicast")
        }
        Detected::Compressed(Compression::Gzip) => {
            Some("it looks like a file of gzip: give what gzip -dc writes")
        }
        Detected::Compressed(Compression::Zstd) => {
            Some("it looks like a file of zstd: give what zstd -dc writes")
        }
        Detected::Compressed(Compression::Xz) => {
            Some("it looks like a file of xz: give what xz -dc writes")
        }
        Detected::Compressed(Compression::Bzip2) => {
            Some("it looks like a file of bzip2: give what bzip2 -dc writes")
        }
    }
}
