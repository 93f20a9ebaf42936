//! The notes on standard error: what the input looks like, and for which terminal and at which size it was recorded.
//! They have no other effect.

use crate::reasons::{hint_of, name_of};
use std::alloc::Global;
use vt_recording::{changes_of, shows_utf8, timeline_of};
use vt_replay::{
    Format, Heading, Host, Part, Request, TerminalType, Word, detect, heading_of, host_for,
    keeps_size, size_of,
};

/// The number of first bytes that are looked at for what a host sends. Looking at more would cost as much as playing
/// them.
pub(crate) const LOOKED_AT: usize = 4096;

/// Sequences of xterm that programs send and a VT220 doesn't have: the alternate screen, and a colour of 256.
const XTERM_SEQUENCES: [&[u8]; 2] = [b"\x1B[?1049h", b"\x1B[38;5;"];

/// The code of an event in a recording by asciinema that changes the size of the window. In a text its quotes would have
/// backslashes.
const RESIZE_CODE: &[u8] = b"\"r\"";

/// Prints what there is to note of an input that begins so and was read in a format, unless the notes are left out.
pub(crate) fn print_notes<R: Eprint + AllocGlobal>(
    rt: &R,
    request: &Request,
    format: Format,
    beginning: &[u8],
) {
    if request.quiet {
        return;
    }
    let name = name_of(request, Part::Recording);
    let Ok(heading) = heading_of(rt.alloc(), beginning, format) else {
        return;
    };
    let host = host_for(request, format.usual_encoding(), heading);
    let hint = if request.format == Some(Format::Raw) {
        hint_of(detect(beginning))
    } else {
        None
    };
    if let Some(hint) = hint.or(language_hint(request, format, heading, host, beginning)) {
        let _ = eprintln!(rt; "vt220: {name}: {hint}");
    }
    if !matches!(request.word, Word::Events | Word::Content) {
        print_sizes(rt, request, format, heading, host, beginning);
    }
}

/// Prints what there is to note of the sizes of a recording that begins so and is played on a screen.
fn print_sizes<R: Eprint + AllocGlobal>(
    rt: &R,
    request: &Request,
    format: Format,
    heading: Heading,
    host: Host,
    beginning: &[u8],
) {
    let name = name_of(request, Part::Recording);
    let (width, height) = host.screen();
    if let (Some(columns), Some(rows)) = (heading.columns, heading.rows) {
        if columns as usize != width || rows as usize != height {
            let _ = eprintln!(rt;
                "vt220: {name}: recorded at {columns}x{rows}, played on {width}x{height}"
            );
        }
    }
    if format == Format::Asciicast && has_any(beginning, b'"', &[RESIZE_CODE]) {
        if keeps_size(request, format) {
            let _ = eprintln!(rt;
                "vt220: {name}: the window changes its size, and the screen stays at {width}x{height}"
            );
        } else if has_impossible(rt.alloc(), beginning, format, host) {
            let _ = eprintln!(rt;
                "vt220: {name}: the window changes to a size from outside 2x2 to 255x255, and the screen doesn't"
            );
        }
    }
}

/// Returns whether a recording that begins so changes its window to a size that no screen may have.
fn has_impossible(alloc: Global, beginning: &[u8], format: Format, host: Host) -> bool {
    let Ok(timeline) = timeline_of(alloc, beginning, None, format) else {
        return false;
    };
    let Ok(changes) = changes_of(alloc, &timeline, format, host.encoding, None) else {
        return false;
    };
    for change in changes.iter() {
        if size_of(change.window.columns, change.window.rows).is_none() {
            return true;
        }
    }
    false
}

/// Returns what the host seems to send for, if it isn't what was played, or none.
fn language_hint(
    request: &Request,
    format: Format,
    heading: Heading,
    host: Host,
    beginning: &[u8],
) -> Option<&'static str> {
    if host.terminal == TerminalType::Xterm {
        return None;
    }
    let front = beginning.get(..LOOKED_AT).unwrap_or(beginning);
    let is_chosen = request.terminal.is_some() || request.encoding.is_some();
    if is_chosen || matches!(request.word, Word::Events | Word::Content) {
        return None;
    }
    if heading.terminal.is_none() && has_any(front, 0x1B, &XTERM_SEQUENCES) {
        return Some("it has sequences of an xterm: use --terminal xterm");
    }
    if request.format == Some(Format::Raw) && shows_utf8(front) {
        return Some("it looks like UTF-8: use --encoding utf-8");
    }
    None
}

/// Returns whether bytes have one of these sequences, all of which begin with one byte.
fn has_any(bytes: &[u8], first: u8, sequences: &[&[u8]]) -> bool {
    for (i, byte) in bytes.iter().enumerate() {
        if *byte == first {
            let rest = bytes.get(i..).unwrap_or(b"");
            for sequence in sequences {
                if rest.starts_with(sequence) {
                    return true;
                }
            }
        }
    }
    false
}
