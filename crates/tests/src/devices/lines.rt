//! The lines that scroll off wait if there is no capacity for them, and take no memory.
ghost use Rattle.std.specs.Prelude.{◌+◌, ◌≤◌, vec_capacity, vec_len};

use crate::rows::holds;
use std::alloc::{AllocError, Global};
use vt_syntax::EventKind;
use vt_term::{ROW_TEXT_LIMIT, Size, SizedTerminal};

/// Returns numbered lines with an end each.
fn numbered(alloc: Global, count: u32, end: &[u8]) -> Result<Vec<u8>, AllocError> {
    let mut text = Vec::new(alloc);
    for i in 0..count {
        let line = format!(in alloc; "line number {}", i)?;
        text.extend_from_slice(line.as_bytes())?;
        text.extend_from_slice(end)?;
    }
    Ok(text)
}

/// Feeds the front of some bytes, with capacity for one line, and appends the line that scrolls off. Returns how many bytes it
/// fed.
fn feed_to_a_line(
    alloc: Global,
    terminal: &mut SizedTerminal,
    bytes: &[u8],
    lines: &mut Vec<u8>,
) -> Result<usize, AllocError> {
    let piece = &bytes[..bytes.len().min(4096)];
    let mut reports = Vec::with_capacity(alloc, 40960)?;
    let mut line = Vec::with_capacity(alloc, ROW_TEXT_LIMIT)?;
    let played = terminal.feed_log_reserved(piece, &mut reports, &mut line);
    lines.extend_from_slice(&line)?;
    Ok(played)
}

/// Returns the lines that scroll off if there is capacity for one at a time.
fn logged_by_lines(alloc: Global, input: &[u8]) -> Result<Vec<u8>, AllocError> {
    let mut terminal = SizedTerminal::new(alloc, Size::vt220())?;
    let mut lines = Vec::new(alloc);
    let mut at = 0;
    for _ in 0..1000u16 {
        if at < input.len() {
            at += feed_to_a_line(alloc, &mut terminal, &input[at..], &mut lines)?.min(
                input.len() - at,
            );
        }
    }
    Ok(lines)
}

/// Returns whether the first 77 of 100 lines scroll off: the cursor is on the last row after the 23 others.
fn is_logged_by_lines(alloc: Global) -> Result<bool, AllocError> {
    let input = numbered(alloc, 100, b"\r\n")?;
    Ok(logged_by_lines(alloc, &input)? == numbered(alloc, 77, b"\n")?)
}

#[test]
fn lines_wait_for_room(rt: HostRuntime) {
    holds(&rt, "one line at a time", is_logged_by_lines(rt.alloc()));
}

/// Returns the lines that scroll off up to a capacity, and how many bytes were played.
fn fitting_lines(
    alloc: Global,
    input: &[u8],
    capacity: usize,
) -> Result<(Vec<u8>, usize), AllocError> {
    let piece = &input[..input.len().min(4096)];
    let mut terminal = SizedTerminal::new(alloc, Size::vt220())?;
    let mut reports = Vec::with_capacity(alloc, 40960)?;
    let mut lines = Vec::with_capacity(alloc, capacity)?;
    let played = terminal.feed_log_reserved(piece, &mut reports, &mut lines);
    Ok((lines, played))
}

/// Returns whether the first of 30 lines scrolls off at the LF of the 24th, after 373 bytes. Ten of these lines have 15 bytes
/// each and the others 16, so the next one scrolls off 16 bytes later.
fn is_read_in_time(alloc: Global) -> Result<bool, AllocError> {
    let input = numbered(alloc, 30, b"\r\n")?;
    let (none, first) = fitting_lines(alloc, &input, 0)?;
    let (line, second) = fitting_lines(alloc, &input, ROW_TEXT_LIMIT)?;
    Ok(
        none.is_empty()
            && first == 373
            && line.as_slice() == b"line number 0\n".as_slice()
            && second == 389,
    )
}

#[test]
fn a_line_is_read_before_it_scrolls_off(rt: HostRuntime) {
    holds(&rt, "the first line", is_read_in_time(rt.alloc()));
}

/// Returns whether LF scrolls a line off in the last row, and not in the first.
fn is_told_by_the_row(alloc: Global) -> Result<bool, AllocError> {
    let mut terminal = SizedTerminal::new(alloc, Size::vt220())?;
    let mut reports = Vec::new(alloc);
    let first = terminal.scrolls_off(EventKind::Control(b'\n'));
    terminal.feed(b"\x1b[24H", &mut reports)?;
    Ok(!first && terminal.scrolls_off(EventKind::Control(b'\n')))
}

#[test]
fn a_line_feed_scrolls_in_the_last_row(rt: HostRuntime) {
    holds(&rt, "LF", is_told_by_the_row(rt.alloc()));
}

/// Lines that scroll off, and a report.
const INPUT: &[u8] = b"A\x1b[2J\x1b[24;80Hxy\x1b[6n\n\n\x1bcB\x1b[24H\n\n";

/// Feeds the input in the capacity that is there. Returns how many bytes it fed.
fn feed(terminal: &mut SizedTerminal, reports: &mut Vec<u8>, lines: &mut Vec<u8>) -> usize
    requires { vec_len reports.old + 1000 ≤ vec_capacity reports.old }
{
    if INPUT.len() > 100 {
        return 0;
    }
    terminal.feed_log_reserved(INPUT, reports, lines)
}

/// Returns whether the lines take no memory with this capacity for them, and the input is played if that is enough.
fn takes_no_memory(alloc: Global, room: usize, is_enough: bool) -> Result<bool, AllocError> {
    let mut reports = Vec::with_capacity(alloc, 1000)?;
    let mut lines = Vec::with_capacity(alloc, room)?;
    let mut terminal = SizedTerminal::new(alloc, Size::vt220())?;
    let of_reports = reports.capacity();
    let of_lines = lines.capacity();
    let played = feed(&mut terminal, &mut reports, &mut lines);
    let is_same = reports.capacity() == of_reports && lines.capacity() == of_lines;
    Ok(is_same && (played == INPUT.len()) == is_enough)
}

/// A capacity for lines (none, a line, a screen, and all), and whether it is enough.
const ROOMS: [(usize, bool); 4] = [(0, false), (397, false), (9528, true), (1_000_000, true)];

#[test]
fn lines_take_no_memory(rt: HostRuntime) {
    for (room, is_enough) in &ROOMS {
        holds(&rt, room, takes_no_memory(rt.alloc(), *room, *is_enough));
    }
}
