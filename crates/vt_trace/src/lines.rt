//! The line of an event.
ghost use Rattle.std.specs.Prelude.{◌≡◌, ◌+◌, ◌≤◌, ◌++◌, take, length, vec_len, vec_capacity};
ghost use Rattle.vt_syntax.specs.Event.{event_of};
ghost use Rattle.vt_trace.specs.Lines.{values_column, bytes_column, event_line_by};

use crate::buffer::{
    BUFFER, put, put_bytes, put_number, put_option, put_shown, put_shown_option, put_values,
};
use crate::bytes::push_bytes;
use crate::names::Naming;
use vt_syntax::EventKind;

/// The most bytes of the line of an event.
pub const LINE_LIMIT: usize = 160;

/// Appends the line of an event by the names of a dialect, on a screen of so many rows. `out` has capacity for it.
pub(crate) fn push_line_by<N: Naming>(
    names: &N,
    rows: usize,
    place: u64,
    kind: EventKind,
    values: &[u16],
    out: &mut Vec<u8>,
)
    requires few { length values.now ≤ 16 }
    requires room { vec_len out.old + LINE_LIMIT ≤ vec_capacity out.old }
    ensures items { out.new.items ≡ out.old.items ++ event_line_by N.names rows place (event_of kind values.now) }
    ensures bounded { vec_len out.new ≤ vec_len out.old + LINE_LIMIT }
    ensures capacity { vec_capacity out.old ≤ vec_capacity out.new }
{
    let mut buffer = [0; BUFFER];
    let end = put_line(names, rows, place, kind, values, 0, &mut buffer);
    push_bytes(&buffer[..end], out);
}

/// Writes the line of an event that begins at a place, on a screen of so many rows.
#[tactic(auto, unfolding(crate::specs::Lines::event_line_by))]
#[inline(always)]
pub(crate) fn put_line<N: Naming>(
    names: &N,
    rows: usize,
    place: u64,
    kind: EventKind,
    values: &[u16],
    at: usize,
    buffer: &mut [u8; BUFFER],
) -> usize
    requires few { length values.now ≤ 16 }
    requires room { at + 200 ≤ BUFFER }
    ensures items { take result buffer.new ≡ take at buffer.old ++ event_line_by N.names rows place (event_of kind values.now) }
    ensures bounded { result ≤ at + LINE_LIMIT }
{
    let at = put_number(place, at, buffer);
    let at = put(b'\t', at, buffer);
    let at = match names.name_of(rows, kind, values) {
        Some(word) => {
            let at = put_bytes(word.as_bytes(), at, buffer);
            let at = put(b'\t', at, buffer);
            put_values_column(kind, values, at, buffer)
        }
        None => {
            let at = put_bytes(b"ignored\t", at, buffer);
            put_bytes_column(kind, values, at, buffer)
        }
    };
    put(b'\n', at, buffer)
}

/// Writes the marker and the values of a control sequence, or a graphic byte.
#[inline(always)]
fn put_values_column(kind: EventKind, values: &[u16], at: usize, buffer: &mut [u8; BUFFER]) -> usize
    requires few { length values.now ≤ 16 }
    requires room { at + 120 ≤ BUFFER }
    ensures items { take result buffer.new ≡ take at buffer.old ++ values_column (event_of kind values.now) }
    ensures bounded { result ≤ at + 97 }
{
    match kind {
        EventKind::Print(b) => put_shown(b, at, buffer),
        EventKind::Control(_) => at,
        EventKind::Escape { .. } => at,
        EventKind::Sequence { marker, .. } => {
            let at = put_option(marker, at, buffer);
            put_values(values, at, buffer)
        }
    }
}

/// Writes the bytes of an event as text.
fn put_bytes_column(kind: EventKind, values: &[u16], at: usize, buffer: &mut [u8; BUFFER]) -> usize
    requires few { length values.now ≤ 16 }
    requires room { at + 140 ≤ BUFFER }
    ensures items { take result buffer.new ≡ take at buffer.old ++ bytes_column (event_of kind values.now) }
    ensures bounded { result ≤ at + 110 }
{
    match kind {
        EventKind::Print(b) => put_shown(b, at, buffer),
        EventKind::Control(b) => put_shown(b, at, buffer),
        EventKind::Escape { inter, last } => {
            let at = put_bytes(b"\\x1B", at, buffer);
            let at = put_shown_option(inter, at, buffer);
            put_shown(last, at, buffer)
        }
        EventKind::Sequence {
            marker,
            inter,
            last,
        } => {
            let at = put_bytes(b"\\x1B[", at, buffer);
            let at = put_option(marker, at, buffer);
            let at = put_values(values, at, buffer);
            let at = put_shown_option(inter, at, buffer);
            put_shown(last, at, buffer)
        }
    }
}
