//! Which words are taken as settings, and what is said of the others.
use super::common::Failed;
use crate::rows::holds;
use std::alloc::{AllocError, Global};
use vt_replay::{Request, Settings, What, Word, request, settings};

/// Returns the words of a line, cut at each space.
pub(super) fn words_of(alloc: Global, line: &str) -> Result<Vec<String>, AllocError> {
    let mut words = Vec::new(alloc);
    for word in line.split(' ') {
        words.push(String::from_str(alloc, word)?)?;
    }
    Ok(words)
}

/// A line of words, and what it asks for: the kind, piece, limit and file.
type Taken = (&'static str, What, usize, u64, Option<&'static str>);

const TAKEN: &[Taken] = &[
    // the defaults
    ("vt220 text", What::Text, 4096, 268435456, None),
    ("vt220 reports", What::Reports, 4096, 268435456, None),
    (
        "vt220 status a.bin",
        What::Status,
        4096,
        268435456,
        Some("a.bin"),
    ),
    ("vt220 show", What::Show, 4096, 268435456, None),
    (
        "vt220 picture top.bin",
        What::Picture,
        4096,
        268435456,
        Some("top.bin"),
    ),
    // the least and the greatest numbers
    (
        "vt220 repaint --piece 1 --limit 0 a",
        What::Repaint,
        1,
        0,
        Some("a"),
    ),
    (
        "vt220 text --piece 65536 --limit 1099511627776",
        What::Text,
        65536,
        1099511627776,
        None,
    ),
    // as users type them
    (
        "vt220 text --piece=7 a",
        What::Text,
        7,
        268435456,
        Some("a"),
    ),
    ("vt220 text a --limit=9", What::Text, 4096, 9, Some("a")),
    (
        "vt220 status --limit 3 a --piece 2",
        What::Status,
        2,
        3,
        Some("a"),
    ),
    ("vt220 text -- -x", What::Text, 4096, 268435456, Some("-x")),
    (
        "vt220 text --piece 5 -- --limit",
        What::Text,
        5,
        268435456,
        Some("--limit"),
    ),
    ("vt220 text -", What::Text, 4096, 268435456, Some("-")),
    (
        "/usr/bin/other repaint +7",
        What::Repaint,
        4096,
        268435456,
        Some("+7"),
    ),
];

/// Returns whether a name that was given is this, or none was.
fn is_name(found: &Option<String>, name: &Option<&str>) -> bool {
    match found {
        Some(text) => *name == Some(text.as_str()),
        None => name.is_none(),
    }
}

/// Returns whether settings are those of a row.
fn are_taken(found: &Settings, (_line, what, piece, limit, file): &Taken) -> bool {
    found.what == *what
        && found.piece == *piece
        && found.limit == *limit
        && is_name(&found.file, file)
}

/// Returns whether a request is for a word, with the rest of a row.
fn is_requested(found: &Request, word: Word, (_line, _what, piece, limit, file): &Taken) -> bool {
    found.word == word
        && found.piece == *piece
        && found.limit == *limit
        && is_name(&found.file, file)
}

/// Returns whether the line of a row asks for a word.
fn requests(alloc: Global, word: Word, row: &Taken) -> Result<bool, Failed> {
    let asked = request(alloc, words_of(alloc, row.0)?);
    Ok(match &asked {
        Ok(found) => is_requested(found, word, row),
        Err(_) => false,
    })
}

/// Returns whether the line of a row asks for its settings.
fn asks_for(alloc: Global, row: &Taken) -> Result<bool, Failed> {
    let asked = settings(alloc, words_of(alloc, row.0)?);
    Ok(match &asked {
        Ok(found) => are_taken(found, row),
        Err(_) => false,
    })
}

#[test]
fn words_ask_for_settings(rt: HostRuntime) {
    for row in TAKEN {
        holds(&rt, row.0, asks_for(rt.alloc(), row));
        holds(&rt, row.0, requests(rt.alloc(), Word::Replay(row.1), row));
    }
}

/// Lines that are a request, and no settings.
const REQUESTS: [&str; 25] = [
    "vt220 log",
    "vt220 log --piece=7 a",
    "vt220 log --limit 1099511627776 -- -x",
    "vt220 trace a",
    "vt220 events a",
    "vt220 content a",
    "vt220 text --format raw",
    "vt220 log --format script a",
    "vt220 show --format ttyrec --until 12.5 a",
    "vt220 show --until=12:31 a --format=asciicast",
    "vt220 trace --format asciicast --until 1:02:03.000004",
    "vt220 content --format script --timing t --until 0",
    "vt220 status --until 4096b",
    "vt220 picture --format script --until 0b",
    "vt220 text --until event:12",
    "vt220 log --format asciicast --until marker:2 a",
    "vt220 events --format ttyrec --from 1.5 --until=event:999999999999999",
    "vt220 content --from marker:1 --until 7b",
    "vt220 text --partial a",
    "vt220 events --full",
    "vt220 log --format auto a",
    "vt220 text --until 1:00 --format=auto",
    "vt220 text --encoding dec",
    "vt220 text --terminal vt220",
    "vt220 text --columns 80",
];

/// A line that asks for nothing, the status, and how the text begins.
const REFUSED: [(&str, u8, &str); 23] = [
    (
        "vt220 text --piece 0",
        2,
        "error: invalid value '0' for '--piece <N>'",
    ),
    (
        "vt220 text --piece 65537",
        2,
        "error: invalid value '65537' for '--piece <N>'",
    ),
    (
        "vt220 text --limit 1099511627777",
        2,
        "error: invalid value '1099511627777' for '--limit <N>'",
    ),
    (
        "vt220 text --piece x",
        2,
        "error: invalid value 'x' for '--piece <N>'",
    ),
    ("vt220 text --limit -1", 2, "error: "),
    ("vt220 text --piece", 2, "error: "),
    ("vt220 text --piece 1 --piece 2", 2, "error: "),
    ("vt220", 2, "error: "),
    ("vt220 frob", 2, "error: unrecognized subcommand 'frob'"),
    ("vt220 text a b", 2, "error: unexpected argument 'b' found"),
    ("vt220 text -x", 2, "error: unexpected argument '-x' found"),
    (
        "vt220 --piece 7 text",
        2,
        "error: unexpected argument '--piece' found",
    ),
    ("vt220 help frob", 2, "error: "),
    (
        "vt220 --help",
        0,
        "Plays what a host sent to a VT220 terminal",
    ),
    ("vt220 -h", 0, "Plays what a host sent to a VT220 terminal"),
    (
        "vt220 help",
        0,
        "Plays what a host sent to a VT220 terminal",
    ),
    (
        "vt220 text --piece 9 --help",
        0,
        "The screen: 24 lines of UTF-8",
    ),
    ("vt220 reports --help", 0, "What the terminal answers"),
    ("vt220 repaint --help", 0, "The bytes that rebuild"),
    ("vt220 status --help", 0, "The cursor, the wrap flag"),
    (
        "vt220 show --help",
        0,
        "The screen with its attributes, for a terminal of today",
    ),
    ("vt220 picture --help", 0, "The screen as a picture (SVG)"),
    ("vt220 --version", 0, "vt220 0.4.0\n"),
];

/// Returns whether a line is refused with this status, and a text that begins so.
fn is_refused(alloc: Global, line: &str, status: u8, text: &str) -> Result<bool, Failed> {
    let asked = settings(alloc, words_of(alloc, line)?);
    Ok(match &asked {
        Ok(_) => false,
        Err(refused) => refused.status == status && refused.text.as_str().starts_with(text),
    })
}

#[test]
fn requests_are_no_settings(rt: HostRuntime) {
    for line in &REQUESTS {
        let text = "vt220: bad command line\n";
        holds(&rt, line, is_refused(rt.alloc(), line, 2, text));
    }
}

#[test]
fn words_are_refused(rt: HostRuntime) {
    for (line, status, text) in &REFUSED {
        holds(&rt, line, is_refused(rt.alloc(), line, *status, text));
    }
}
