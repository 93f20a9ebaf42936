//! Tests settings: the piece, the limit and the kind; and a read that is passed on whole.
use super::common::Failed;
use crate::rows::holds;
use std::alloc::{AllocError, Global};
use vt_replay::{Fault, Format, Watched, carry_out, replay, request, settings};
use vt_vectors::ShortReader;

/// A line of words, a call of the reader that fails, the answer, and the first line that is written.
type Asked = (
    &'static str,
    Option<usize>,
    Result<(), Fault>,
    &'static [u8],
);

/// Each is played on `ABCDE`, which the reader gives as fast as it is asked.
const ASKED: &[Asked] = &[
    ("vt220 text", None, Ok(()), b"ABCDE\n"),
    ("vt220 status", None, Ok(()), b"cursor 1 6\n"),
    // the limit
    ("vt220 text --limit 4", None, Err(Fault::TooLong), b""),
    ("vt220 text --limit 5", None, Ok(()), b"ABCDE\n"),
    // pieces of two bytes take four reads, one of five takes two
    ("vt220 text --piece 2", Some(4), Err(Fault::Read), b""),
    ("vt220 text --piece 5", Some(2), Err(Fault::Read), b""),
    ("vt220 text --piece 5", Some(3), Ok(()), b"ABCDE\n"),
];

/// Each is a log of `ABCDE`, of which no line scrolls off.
const LOGGED: &[Asked] = &[
    ("vt220 log", None, Ok(()), b"ABCDE\n"),
    ("vt220 log --limit 4", None, Err(Fault::TooLong), b""),
    ("vt220 log --piece 2", Some(4), Err(Fault::Read), b""),
    ("vt220 log --piece 5", Some(3), Ok(()), b"ABCDE\n"),
];

/// Returns the words of a line.
fn words_of(alloc: Global, line: &str) -> Result<Vec<String>, AllocError> {
    let mut words = Vec::new(alloc);
    for word in line.split(' ') {
        words.push(String::from_str(alloc, word)?)?;
    }
    Ok(words)
}

/// Returns what is answered and written for a line of words.
fn replayed(
    alloc: Global,
    line: &str,
    failing_read: Option<usize>,
) -> Result<(Result<(), Fault>, Vec<u8>), Failed> {
    let asked = settings(alloc, words_of(alloc, line)?).map_err(|_| Failed)?;
    let mut reader = Watched::new(ShortReader::new(b"ABCDE", 100, failing_read));
    let mut writer = Watched::new(Vec::new(alloc));
    let answer = replay(alloc, &mut reader, &mut writer, &asked);
    Ok((answer, writer.into_inner()))
}

/// Returns what is returned and written for a line of words that is a request.
fn carried_out(
    alloc: Global,
    line: &str,
    failing_read: Option<usize>,
) -> Result<(Result<(), Fault>, Vec<u8>), Failed> {
    let asked = request(alloc, words_of(alloc, line)?).map_err(|_| Failed)?;
    let mut reader = Watched::new(ShortReader::new(b"ABCDE", 100, failing_read));
    let mut writer = Watched::new(Vec::new(alloc));
    let outcome = carry_out(alloc, &mut reader, Format::Raw, None, &mut writer, &asked);
    Ok((outcome.ended, writer.into_inner()))
}

/// Returns whether what is returned and written is what a row says.
fn is_due(
    (_line, _failing_read, expected, first): &Asked,
    answer: Result<(), Fault>,
    written: &[u8],
) -> bool {
    answer == *expected && written.starts_with(first) && written.is_empty() == first.is_empty()
}

/// Returns whether the line of a row is answered as the row says.
fn is_answered(alloc: Global, row: &Asked) -> Result<bool, Failed> {
    let (answer, written) = replayed(alloc, row.0, row.1)?;
    Ok(is_due(row, answer, &written))
}

/// Returns whether the line of a row is carried out as the row says.
fn is_carried_out(alloc: Global, row: &Asked) -> Result<bool, Failed> {
    let (answer, written) = carried_out(alloc, row.0, row.1)?;
    Ok(is_due(row, answer, &written))
}

#[test]
fn settings_are_at_work(rt: HostRuntime) {
    for row in ASKED {
        holds(&rt, row.0, is_answered(rt.alloc(), row));
        holds(&rt, row.0, is_carried_out(rt.alloc(), row));
    }
}

#[test]
fn requests_are_at_work(rt: HostRuntime) {
    for row in LOGGED {
        holds(&rt, row.0, is_carried_out(rt.alloc(), row));
    }
}

/// Returns whether a read gives all five bytes, the next one none, and only then the reader has ended.
fn is_passed_on_whole() -> Result<bool, Failed> {
    let mut reader = Watched::new(ShortReader::new(b"ABCDE", 100, None));
    let mut buffer = [0u8; 5];
    let first = reader.read(&mut buffer)?;
    let ended = reader.ended();
    let second = reader.read(&mut buffer)?;
    Ok(first == 5 && buffer == *b"ABCDE" && !ended && second == 0 && reader.ended())
}

#[test]
fn a_read_is_passed_on_whole(rt: HostRuntime) {
    holds(&rt, "five bytes", is_passed_on_whole());
}
