//! The changes of the window's size in a recording.
ghost use Rattle.std.specs.Prelude.{◌≡◌, ◌<◌, ◌++◌, length, codes, nat_eq, option_map, IfOk, IfSome, OnOk};
ghost use Rattle.std.specs.List.{position};
ghost use Rattle.vt_recording.specs.Changes.{window_of, window_by, window_after, place, window_in, is_size, change_to, change_of, changes_in};
ghost use Rattle.vt_recording.specs.Gathered.{events_of};
ghost use Rattle.vt_recording.specs.Reached as reached;
ghost use Rattle.vt_recording.specs.Reached.{has_characters, nothing_passed};

use crate::format::{Encoding, Format, Moment};
use crate::lines::stripped;
use crate::reached::{NOTHING_PASSED, Passed, due, event_at, has_characters};
use crate::seconds::number;
use crate::timeline::{Event, EventKind, Timeline};
use std::alloc::{AllocError, Global};

/// The size of a window, as a recording writes it.
#[derive(Clone, Copy, Debug, PartialEq, Eq)]
pub struct Window {
    /// The number of columns.
    pub columns: u64,
    /// The number of rows.
    pub rows: u64,
}

/// A change of the window's size.
#[derive(Clone, Copy, Debug, PartialEq, Eq)]
pub struct Change {
    /// The number of bytes of the content that come before it.
    pub place: u64,
    /// The new size.
    pub window: Window,
}

/// Returns the size of so many columns and rows, which are written with at most nine digits.
fn window_of(columns: &[u8], rows: &[u8]) -> Option<Window>
    ensures { result ≡ window_of columns.now rows.now }
{
    let columns = number(9, columns)?;
    let rows = number(9, rows)?;
    Some(Window { columns, rows })
}

/// Returns the index of the first byte that is this one.
fn place(byte: u8, text: &[u8]) -> Option<usize>
    ensures value { result ≡ place byte text.now }
    ensures within { IfSome result (λ at. at < length text.now) }
{
    text.iter().position(|b| *b == byte)
}

/// Returns the size in the text COLUMNSxROWS.
fn window_by_x(text: &[u8]) -> Option<Window>
    ensures { result ≡ window_by (place 0x78 text.now) text.now }
{
    match place(b'x', text) {
        Some(at) => window_of(&text[..at], &text[at + 1..]),
        None => None,
    }
}

/// Returns the size in a text that follows ROWS=, with COLS= after a space.
fn window_after(text: &[u8]) -> Option<Window>
    ensures { result ≡ window_after (place 0x20 text.now) text.now }
{
    match place(b' ', text) {
        Some(at) => match stripped(b" COLS=", &text[at..]) {
            Some(columns) => window_of(columns, &text[..at]),
            None => None,
        },
        None => None,
    }
}

/// Returns the size that a text writes, as asciinema or as script(1) does.
fn window_in(text: &[u8]) -> Option<Window>
    ensures { result ≡ window_in text.now }
{
    match stripped(b"ROWS=", text) {
        Some(rest) => window_after(rest),
        None => window_by_x(text),
    }
}

/// Returns whether an event is a size.
fn is_size(kind: EventKind) -> bool
    ensures { result ≡ is_size kind }
{
    matches!(kind, EventKind::Size)
}

/// Appends a change after so much of the content, if there is a size.
fn push_change_to(
    content: u64,
    window: Option<Window>,
    changes: &mut Vec<Change>,
) -> Result<(), AllocError>
    ensures { OnOk result (changes.new.items ≡ changes.old.items ++ change_to content window) }
{
    match window {
        Some(window) => {
            changes.push(Change {
                place: content,
                window,
            })?;
            Ok(())
        }
        None => Ok(()),
    }
}

/// Appends the change of an event with these bytes, if it is one.
fn push_change(
    so_far: Passed,
    kind: EventKind,
    text: &[u8],
    changes: &mut Vec<Change>,
) -> Result<(), AllocError>
    ensures { OnOk result (changes.new.items ≡ changes.old.items ++ change_of so_far kind text.now) }
{
    if is_size(kind) {
        return push_change_to(so_far.content, window_in(text), changes);
    }
    Ok(())
}

/// Appends the changes of events, by their marks and their bytes joined.
fn push_changes(
    characters: bool,
    events: &[Event],
    text: &[u8],
    changes: &mut Vec<Change>,
) -> Result<(), AllocError>
    ensures { OnOk result (changes.new.items ≡ changes.old.items
        ++ changes_in characters nothing_passed (events_of events.now text.now)) }
{
    let mut so_far = NOTHING_PASSED;
    let mut at = 0;
    let mut i = 0;
    while i < events.len() {
        let event = event_at(events, i);
        let end = at + event.length.min(text.len() - at);
        push_change(so_far, event.kind, &text[at..end], changes)?;
        so_far = so_far.with_event(characters, event, &text[at..end]);
        at = end;
        i += 1;
    }
    Ok(())
}

/// Returns the changes of the window's size among the events that are due until a moment, each with its place in the content of
/// `take_between`. Nothing is said of whether a screen may have that size. A change after the last byte of the content is one, too.
///
/// Asciinema writes a size as COLUMNSxROWS, and script(1) in its timing file as ROWS=.. COLS=... Any other text is no change. Returns
/// `Err` if allocation fails.
pub fn changes_of(
    alloc: Global,
    timeline: &Timeline,
    format: Format,
    encoding: Encoding,
    until: Option<Moment>,
) -> Result<Vec<Change>, AllocError>
    ensures { IfOk result (λ changes. changes.items ≡ changes_in (has_characters format encoding) nothing_passed
        (reached.due (has_characters format encoding) until (events_of timeline.now.events.items timeline.now.text.items))) }
{
    let mut changes = Vec::new(alloc);
    let events = due(timeline, format, encoding, until);
    let characters = has_characters(format, encoding);
    push_changes(characters, events, &timeline.text, &mut changes)?;
    Ok(changes)
}
