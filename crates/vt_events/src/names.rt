//! The names of events, and the values by which events are ignored. (ECMA-48, EK-VT220-RM, ctlseqs; docs/TRACE.md)

use vt_syntax::EventKind;
use vt_xterm_cell::XtermCell;

/// A terminal, by whose functions events are named.
#[derive(Clone, Copy)]
pub enum Terminal {
    /// A VT220.
    Vt220,
    /// An xterm, which has a VT220's functions, too.
    Xterm,
}

/// Returns the name of SCS: of what a set is designated to, and of the set.
pub(crate) fn designation(kind: EventKind) -> Option<(&'static str, &'static str)> {
    let EventKind::Escape {
        inter: Some(inter),
        last,
    } = kind
    else {
        return None;
    };
    let front = match inter {
        b'(' => "SCS G0 ",
        b')' => "SCS G1 ",
        b'*' => "SCS G2 ",
        b'+' => "SCS G3 ",
        _ => return None,
    };
    let set = match last {
        b'B' => "ASCII",
        b'A' => "British",
        b'K' => "German",
        b'0' => "Special Graphics",
        b'<' => "Supplemental",
        _ => return None,
    };
    Some((front, set))
}

/// Returns the name of an event on a screen of so many rows, or `None` if it is ignored. Graphic bytes and SCS aren't here.
pub(crate) fn name_of(
    terminal: Terminal,
    rows: usize,
    kind: EventKind,
    values: &[u16],
) -> Option<&'static str> {
    match kind {
        EventKind::Print(_) => None,
        EventKind::Control(b) => control(b),
        EventKind::Escape { inter, last } => escape(inter, last),
        EventKind::Sequence { .. } if !takes(terminal, rows, kind, values) => None,
        EventKind::Sequence {
            marker: None,
            inter: None,
            last,
        } => plain_sequence(terminal, last, values),
        EventKind::Sequence {
            marker,
            inter,
            last,
        } => other_sequence(terminal, marker, inter, last),
    }
}

/// Returns the name of a control.
fn control(b: u8) -> Option<&'static str> {
    match b {
        0x08 => Some("BS"),
        0x09 => Some("HT"),
        0x0A => Some("LF"),
        0x0B => Some("VT"),
        0x0C => Some("FF"),
        0x0D => Some("CR"),
        0x0E => Some("SO"),
        0x0F => Some("SI"),
        0x1A => Some("SUB"),
        0x84 => Some("IND"),
        0x85 => Some("NEL"),
        0x88 => Some("HTS"),
        0x8D => Some("RI"),
        0x8E => Some("SS2"),
        0x8F => Some("SS3"),
        0x9A => Some("DECID"),
        _ => None,
    }
}

/// Returns the name of an escape sequence.
fn escape(inter: Option<u8>, last: u8) -> Option<&'static str> {
    match (inter, last) {
        (None, b'7') => Some("DECSC"),
        (None, b'8') => Some("DECRC"),
        (None, b'=') => Some("DECKPAM"),
        (None, b'>') => Some("DECKPNM"),
        (None, b'c') => Some("RIS"),
        (None, b'n') => Some("LS2"),
        (None, b'o') => Some("LS3"),
        (None, b'~') => Some("LS1R"),
        (None, b'}') => Some("LS2R"),
        (None, b'|') => Some("LS3R"),
        (Some(b' '), b'F') => Some("S7C1T"),
        (Some(b' '), b'G') => Some("S8C1T"),
        (Some(b'#'), b'8') => Some("DECALN"),
        _ => None,
    }
}

/// Returns the name of a control sequence without marker and intermediate.
fn plain_sequence(terminal: Terminal, last: u8, values: &[u16]) -> Option<&'static str> {
    match last {
        b'@' => Some("ICH"),
        b'A' => Some("CUU"),
        b'B' => Some("CUD"),
        b'C' => Some("CUF"),
        b'D' => Some("CUB"),
        b'H' => Some("CUP"),
        b'J' => Some("ED"),
        b'K' => Some("EL"),
        b'L' => Some("IL"),
        b'M' => Some("DL"),
        b'P' => Some("DCH"),
        b'X' => Some("ECH"),
        b'c' => Some("DA"),
        b'f' => Some("HVP"),
        b'g' => Some("TBC"),
        b'h' => Some("SM"),
        b'l' => Some("RM"),
        b'm' => Some("SGR"),
        b'n' => Some("DSR"),
        b'r' => Some("DECSTBM"),
        _ => match terminal {
            Terminal::Vt220 => None,
            Terminal::Xterm => xterm_sequence(last, values),
        },
    }
}

/// Returns the name of a control sequence of xterm that a VT220 lacks, without marker and intermediate.
fn xterm_sequence(last: u8, values: &[u16]) -> Option<&'static str> {
    match last {
        b'E' => Some("CNL"),
        b'F' => Some("CPL"),
        b'G' => Some("CHA"),
        b'I' => Some("CHT"),
        b'S' => Some("SU"),
        b'T' => Some("SD"),
        b'Z' => Some("CBT"),
        b'^' => Some("SD"),
        b'`' => Some("HPA"),
        b'a' => Some("HPR"),
        b'b' => Some("REP"),
        b'd' => Some("VPA"),
        b'e' => Some("VPR"),
        b's' if values.len() == 1 && values[0] == 0 => Some("SCP"),
        b's' => Some("DECSLRM"),
        b'u' => Some("RCP"),
        _ => None,
    }
}

/// Returns the name of a control sequence with a marker or an intermediate.
fn other_sequence(
    terminal: Terminal,
    marker: Option<u8>,
    inter: Option<u8>,
    last: u8,
) -> Option<&'static str> {
    match (marker, inter, last) {
        (Some(b'?'), None, b'J') => Some("DECSED"),
        (Some(b'?'), None, b'K') => Some("DECSEL"),
        (Some(b'?'), None, b'h') => Some("SM"),
        (Some(b'?'), None, b'l') => Some("RM"),
        (Some(b'?'), None, b'n') => Some("DSR"),
        (Some(b'>'), None, b'c') => Some("DA"),
        (None, Some(b'"'), b'p') => Some("DECSCL"),
        (None, Some(b'"'), b'q') => Some("DECSCA"),
        (None, Some(b'!'), b'p') => Some("DECSTR"),
        (None, Some(b' '), b'q') if matches!(terminal, Terminal::Xterm) => Some("DECSCUSR"),
        _ => None,
    }
}

/// Returns whether a control sequence that has a function has one with these values, on a screen of so many rows.
fn takes(terminal: Terminal, rows: usize, kind: EventKind, values: &[u16]) -> bool {
    let EventKind::Sequence {
        marker,
        inter,
        last,
    } = kind
    else {
        return true;
    };
    let first = values.first().copied().unwrap_or(0);
    let second = values.get(1).copied().unwrap_or(0);
    match (marker, inter, last) {
        (None | Some(b'?'), None, b'J' | b'K') => first <= 2,
        (None | Some(b'>'), None, b'c') => first == 0,
        (None, None, b'g') => first == 0 || first == 3,
        (None, None, b'h' | b'l') => values.iter().any(|p| matches!(*p, 2 | 4 | 12 | 20)),
        (Some(b'?'), None, b'h' | b'l') => has_private_mode(terminal, values),
        (None, None, b'm') => has_rendition(terminal, values),
        (None, None, b'n') => first == 5 || first == 6,
        (Some(b'?'), None, b'n') => first == 15 || first == 26,
        (None, None, b'r') => are_margins(rows, first, second),
        (None, None, b'T') => values.len() == 1,
        (None, None, b'u') => values.len() == 1 && first == 0,
        (None, Some(b'"'), b'p') => first == 61 || first == 62 && second <= 2,
        (None, Some(b'"'), b'q') => first <= 2,
        (None, Some(b' '), b'q') => first <= 6,
        _ => true,
    }
}

/// Returns whether the top margin is above the bottom one, on a screen of so many rows.
fn are_margins(rows: usize, top: u16, bottom: u16) -> bool {
    let bottom = match bottom as usize {
        0 => rows,
        row => row.min(rows),
    };
    (top.max(1) as usize) < bottom
}

/// Returns whether a private mode of the terminal is among the values.
fn has_private_mode(terminal: Terminal, values: &[u16]) -> bool {
    match terminal {
        Terminal::Vt220 => values.iter().any(|p| matches!(*p, 1 | 3..=8 | 25)),
        Terminal::Xterm => values.iter().any(|p| {
            matches!(
                *p,
                1 | 3..=9 | 12 | 25 | 40 | 47 | 69 | 1000 | 1002..=1006 | 1015 | 1016 | 1047..=1049 | 2004 | 2026
            )
        }),
    }
}

/// Returns whether SGR with these values changes a pen: on an xterm a plain one, or one that differs from it in each part.
fn has_rendition(terminal: Terminal, values: &[u16]) -> bool {
    match terminal {
        Terminal::Vt220 => values
            .iter()
            .any(|p| matches!(*p, 0 | 1 | 4 | 5 | 7 | 22 | 24 | 25 | 27)),
        Terminal::Xterm => {
            changes(&[0], values) || changes(&[1, 2, 3, 4, 5, 7, 8, 9, 21, 31, 41], values)
        }
    }
}

/// Returns whether SGR with these values changes the pen that SGR with other ones makes.
fn changes(made_by: &[u16], values: &[u16]) -> bool {
    let mut pen = XtermCell::blank();
    pen.render(made_by);
    let old = pen;
    pen.render(values);
    !pen.same(&old)
}
