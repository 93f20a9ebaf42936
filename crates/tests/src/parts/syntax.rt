//! Rows of events and runs. Held parts are in `terminal::held`, and what a sequence does is in lib/rows.
use crate::rows::holds;
use arrayvec::ArrayVec;
use std::alloc::{AllocError, Global};
use vt_syntax::{
    Event, EventKind, Front, Held, Parser, Phase, Taken, Values, front_values, graphic_run,
    is_final, plain_run,
};

/// Returns a new parser after these bytes, and the event that the last of them completed.
fn parsed(bytes: &[u8]) -> (Parser, Option<Event>) {
    let mut parser = Parser::new();
    let mut last = None;
    for b in bytes {
        last = parser.push(*b);
    }
    (parser, last)
}

fn values(list: &[u16]) -> ArrayVec<u16, 16> {
    let mut values = ArrayVec::new();
    for value in list {
        let _ = values.try_push(*value);
    }
    values
}

fn control(marker: Option<u8>, params: &[u16], full: bool, phase: Phase) -> Held {
    Held::Control {
        marker,
        params: values(params),
        full,
        phase,
    }
}

fn sequence(params: &[u16], last: u8) -> Option<Event> {
    Some(Event::Sequence {
        marker: None,
        params: values(params),
        inter: None,
        last,
    })
}

/// Returns whether these bytes leave this held part, and the last of them completes this event.
fn leaves(bytes: &[u8], held: Held, event: Option<Event>) -> bool {
    let (parser, last) = parsed(bytes);
    *parser.held() == held && parser.is_between() == (held == Held::Nothing) && last == event
}

/// Returns whether the last of these bytes completes this event, and nothing is held.
fn ends(bytes: &[u8], event: Option<Event>) -> bool {
    leaves(bytes, Held::Nothing, event)
}

#[test]
fn controls_are_carried_out_inside_a_sequence(rt: HostRuntime) {
    let held = control(None, &[1], false, Phase::Values);
    let line_feed = Some(Event::Control(0x0A));
    holds(&rt, "LF inside", leaves(b"\x1B[1\n", held, line_feed));
    holds(&rt, "goes on", ends(b"\x1B[1\n2H", sequence(&[12], b'H')));
    let bell = Some(Event::Control(0x07));
    holds(&rt, "BEL", parsed(b"\x1B\x07").1 == bell);
    holds(&rt, "ESC ( BEL", parsed(b"\x1B(\x07").1 == bell);
    let index = Some(Event::Control(0x84));
    holds(&rt, "a C1 control in its 7-bit form", ends(b"\x1BD", index));
}

/// Returns whether a new parser, after `before`, takes this many bytes at the front of `piece`. It must leave this
/// event, these values and this held part.
fn takes(before: &[u8], piece: &[u8], taken: Taken, values: &[u16], held: Held) -> bool {
    let (mut parser, _) = parsed(before);
    let mut read = Values::new();
    let found = parser.next(piece, &mut read);
    found == taken && read.as_slice() == values && *parser.held() == held
}

/// Returns whether it takes this many bytes, to this event, and nothing is held.
fn takes_whole(before: &[u8], piece: &[u8], bytes: usize, event: Option<EventKind>) -> bool {
    let (mut parser, _) = parsed(before);
    let found = parser.next(piece, &mut Values::new());
    found == Taken { bytes, event } && parser.is_between()
}

#[test]
fn next_sequences(rt: HostRuntime) {
    let event = Some(EventKind::Sequence {
        marker: None,
        inter: None,
        last: b'H',
    });
    let whole = Taken { bytes: 7, event };
    let rest = Taken { bytes: 4, event };
    let none = Taken {
        bytes: 4,
        event: None,
    };
    let held = control(None, &[12], false, Phase::Values);
    holds(
        &rt,
        "whole",
        takes(b"", b"\x1B[12;7HA", whole, &[12, 7], Held::Nothing),
    );
    holds(
        &rt,
        "cut",
        takes(b"\x1B[1", b"2;7HA", rest, &[12, 7], Held::Nothing),
    );
    holds(&rt, "unfinished", takes(b"", b"\x1B[12", none, &[], held));
}

#[test]
fn next_escapes(rt: HostRuntime) {
    let escape = Some(EventKind::Escape {
        inter: Some(b'('),
        last: b'0',
    });
    let index = Some(EventKind::Control(0x84));
    holds(&rt, "whole", takes_whole(b"", b"\x1B(0", 3, escape));
    holds(&rt, "cut", takes_whole(b"\x1B(", b"0", 1, escape));
    holds(&rt, "7 bits", takes_whole(b"", b"\x1BD", 2, index));
    holds(&rt, "8 bits", takes_whole(b"", b"\x84", 1, index));
    holds(&rt, "string", takes_whole(b"", b"\x9D0;title\x07", 9, None));
}

#[test]
fn next_control_inside_a_sequence(rt: HostRuntime) {
    let bell = Taken {
        bytes: 4,
        event: Some(EventKind::Control(0x07)),
    };
    let held = control(None, &[1], false, Phase::Values);
    holds(&rt, "BEL", takes(b"", b"\x1B[1\x07H", bell, &[], held));
}

/// Returns whether a million bytes inside an OSC string complete no event.
fn long_string_is_held() -> bool {
    let mut parser = Parser::new();
    parser.push(0x9D);
    for _ in 0..1_000_000u32 {
        if parser.push(b'a').is_some() {
            return false;
        }
    }
    *parser.held() == Held::Text { osc: true }
}

/// Returns the event of a final byte after CSI and so many of one byte.
fn ended_after(count: u32, b: u8, last: u8) -> Option<Event> {
    let (mut parser, _) = parsed(b"\x1B[");
    for _ in 0..count {
        parser.push(b);
    }
    parser.push(last)
}

#[test]
fn long_inputs(rt: HostRuntime) {
    let greatest = sequence(&[9999], b'H');
    let zeros = sequence(&[0; 16], b'm');
    holds(&rt, "string", long_string_is_held());
    holds(
        &rt,
        "digits",
        ended_after(1_000_000, b'9', b'H') == greatest,
    );
    holds(&rt, "values", ended_after(999, b';', b'm') == zeros);
}

/// Returns whether the run of plain bytes in front of a piece has this length.
fn is_plain_for(piece: &[u8], length: usize) -> bool {
    plain_run(piece) == length
}

/// Returns whether all bytes from 20 to 7E are plain.
fn all_are_plain(alloc: Global) -> Result<bool, AllocError> {
    let mut each = Vec::new(alloc);
    for b in 0x20..0x7Fu8 {
        each.push(b)?;
    }
    Ok(is_plain_for(&each, 95))
}

/// A letter 31 times, and an ESC.
const LETTERS: &[u8] = b"aaaaaaaaaaaaaaaaaaaaaaaaaaaaaaa\x1Ba";

/// A tilde 64 times, and a DEL.
const TILDES: &[u8] = b"~~~~~~~~~~~~~~~~~~~~~~~~~~~~~~~~~~~~~~~~~~~~~~~~~~~~~~~~~~~~~~~~\x7F";

/// A name, a piece, and the length of the run of plain bytes in front of it.
const PLAIN: &[(&str, &[u8], usize)] = &[
    ("none", b"", 0),
    ("a control", b"\x1FA", 0),
    ("the right half", b"\x80A", 0),
    ("letters", LETTERS, 31),
    ("tildes", TILDES, 64),
];

#[test]
fn plain_runs(rt: HostRuntime) {
    for (name, piece, length) in PLAIN {
        holds(&rt, name, is_plain_for(piece, *length));
    }
    holds(&rt, "all", all_are_plain(rt.alloc()));
}

/// Returns whether the run of graphic bytes in front of a piece has this length.
fn is_graphic_for(piece: &[u8], length: usize) -> bool {
    graphic_run(piece) == length
}

#[test]
fn graphic_runs(rt: HostRuntime) {
    let mut pounds = [0xA3; 40];
    pounds[30] = 0xA0;
    holds(&rt, "none", is_graphic_for(b"", 0));
    holds(&rt, "DEL", is_graphic_for(b"\x7FA", 0));
    holds(
        &rt,
        "both halves",
        is_graphic_for(b"\x20\x7E\xA1\xFE\xFF", 4),
    );
    holds(&rt, "pounds", is_graphic_for(&pounds, 30));
}

/// Returns whether a piece begins so.
fn begins(piece: &[u8], front: Front) -> bool {
    !piece.is_empty() && Front::of(piece) == front
}

/// A name, a piece, and how it begins.
const FRONTS: &[(&str, &[u8], Front)] = &[
    ("ESC", b"\x1B[H", Front::Escape),
    ("CSI", b"\x9BH", Front::Introducer),
    ("space", b" ", Front::Plain),
    ("right", b"\xFE", Front::Right),
    ("empty", b"\xA0", Front::Empty),
    ("CR", b"\r\n", Front::CarriageReturn),
    ("IND", b"\x84", Front::Control(0x84)),
    ("DEL", b"\x7F", Front::Other),
];

#[test]
fn fronts(rt: HostRuntime) {
    for (name, piece, front) in FRONTS {
        holds(&rt, name, begins(piece, *front));
    }
}

/// A name, a piece, the number of values at its front, the first two of them, and the byte after them.
type ValuesRow = (&'static str, &'static [u8], usize, u16, u16, u8);

const VALUES: &[ValuesRow] = &[
    ("one", b"\x1B[12Habcdef", 1, 12, 0, b'H'),
    ("two", b"\x1B[;132Habcdef", 2, 0, 132, b'H'),
    ("three", b"\x1B[0;1;7mabcdefgh", 3, 0, 1, b'm'),
];

/// Returns whether the values at the front of a row's piece are these.
fn has_values((_name, piece, count, first, second, last): &ValuesRow) -> bool {
    match front_values(piece) {
        Some(f) => {
            f.count == *count && f.first == *first && f.second == *second && f.last == *last
        }
        None => false,
    }
}

#[test]
fn values_at_the_front(rt: HostRuntime) {
    for row in VALUES {
        holds(&rt, row.0, has_values(row));
    }
    holds(&rt, "few bytes", front_values(b"\x1B[12Ha").is_none());
    holds(&rt, "final", is_final(b'@') && !is_final(0x7F));
}
