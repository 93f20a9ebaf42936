//! Screens of two widths that aren't a VT220's, which only these calls have: what an input shows, its repaint and its picture.
ghost use Rattle.std.specs.Prelude.{◌≡◌, IfOk};
ghost use Rattle.vt_screen.specs.Sizes.{IsSize};

use crate::rows::holds;
use std::alloc::{AllocError, Global};
use vt_paint::sized::{paint_limit, repaint_reserved};
use vt_picture::sized::{picture, show};
use vt_term::laws::sized_soundness;
use vt_term::{Cursor, Size, SizedTerminal};

/// A size that a screen may have.
#[derive(Clone, Copy)]
struct Fit {
    size: Size,
    ghost is_size: { IsSize size },
}

const LOW: Fit = Fit {
    size: Size {
        rows: 3,
        narrow: 80,
        wide: 200,
    },
};

const MIDDLE: Fit = Fit {
    size: Size {
        rows: 30,
        narrow: 80,
        wide: 100,
    },
};

const LARGEST: Fit = Fit {
    size: Size {
        rows: 255,
        narrow: 80,
        wide: 255,
    },
};

/// Returns a terminal of a size that was fed an input.
fn fed(alloc: Global, fit: Fit, input: &[u8]) -> Result<SizedTerminal, AllocError>
    ensures { IfOk result (λ t. t.display.grid.size ≡ fit.size) }
{
    sized_soundness();
    let mut terminal = SizedTerminal::new(alloc, fit.size)?;
    let mut reports = Vec::new(alloc);
    terminal.feed(input, &mut reports)?;
    Ok(terminal)
}

/// Returns whether a text of 30 rows has `x` in column 100 of the first one, and nothing else.
fn has_a_letter_at_the_right(text: &[u8]) -> bool {
    let Some(spaces) = text.get(..99) else {
        return false;
    };
    spaces.iter().all(|byte| *byte == b' ')
        && text.get(99..101) == Some(b"x\n".as_slice())
        && text.len() == 130
}

/// Returns whether DECCOLM takes the wide screen of the size.
fn is_wide(alloc: Global) -> Result<bool, AllocError> {
    let terminal = fed(alloc, MIDDLE, b"\x1b[?3h\x1b[999Cx")?;
    let mut text = Vec::new(alloc);
    terminal.text(&mut text)?;
    let last = Cursor {
        row: 1,
        col: 100,
        wrap: true,
    };
    Ok(has_a_letter_at_the_right(&text) && terminal.cursor() == last)
}

/// A size, an input, and its repaint without RIS, the brush and the sets at its end.
type Row = (Fit, &'static [u8], &'static [u8]);

const ROWS: [Row; 3] = [
    // the wide screen
    (LOW, b"\x1b[?3h", b"\x1b[?3h\x1b[1;1H"),
    // a stop right of the narrow screen
    (
        LOW,
        b"\x1b[?3h\x1b[3g\x1b[1;200H\x1bH\x1b[?3l",
        b"\x1b[?3h\x1b[3g\x1b[1;200H\x1bH\x1b[?3l\x1b[1;1H",
    ),
    // numbers of three digits
    (
        LARGEST,
        b"\x1b[?3h\x1b[255;255Hx\x1b[100;100H",
        b"\x1b[?3h\x1b(B\x1b*<\x1b+0\x0f\x1b[255;255H\x1b[0m\x1b[0\"qx\x1b[100;100H",
    ),
];

/// The brush and the sets at power-up.
const END: &[u8] = b"\x1b[0m\x1b[0\"q\x1b(B\x1b)B\x1b*<\x1b+<\x0f\x1b}";

/// Returns whether bytes are these items between RIS and the end.
fn are_items(painted: &[u8], items: &[u8]) -> bool {
    painted.len() == 2 + items.len() + END.len()
        && painted.starts_with(b"\x1bc")
        && painted.ends_with(END)
        && painted.get(2..2 + items.len()) == Some(items)
}

/// Appends the repaint of a terminal that is between sequences.
fn repaint(terminal: &SizedTerminal, out: &mut Vec<u8>) -> Result<(), AllocError> {
    out.reserve(paint_limit(terminal.size()))?;
    if terminal.is_between() {
        repaint_reserved(terminal, out);
    }
    Ok(())
}

/// Returns whether the input of a row has the repaint that was written by hand.
fn is_by_hand(alloc: Global, (fit, input, items): &Row) -> Result<bool, AllocError> {
    let terminal = fed(alloc, *fit, input)?;
    let mut out = Vec::new(alloc);
    repaint(&terminal, &mut out)?;
    Ok(are_items(&out, items))
}

#[test]
fn screens_have_other_widths(rt: HostRuntime) {
    holds(&rt, "DECCOLM", is_wide(rt.alloc()));
    for (i, row) in ROWS.iter().enumerate() {
        holds(&rt, i, is_by_hand(rt.alloc(), row));
    }
}

/// Returns whether a wide screen is shown so: an empty row, 198 spaces, and the rest.
fn is_shown_by_hand(alloc: Global) -> Result<bool, AllocError> {
    let terminal = fed(alloc, LOW, b"\x1b[?3h\x1b[2;199Hxyz")?;
    let mut out = Vec::new(alloc);
    show(&terminal, &mut out)?;
    let mut expected = Vec::from_slice(alloc, b"\n")?;
    for _ in 0..198u8 {
        expected.push(b' ')?;
    }
    expected.extend_from_slice(b"xy\nz\n")?;
    Ok(out.as_slice() == expected.as_slice())
}

#[test]
fn a_screen_of_two_widths_is_shown_as_it_was_written_by_hand(rt: HostRuntime) {
    holds(&rt, "shown", is_shown_by_hand(rt.alloc()));
}

/// The picture of a wide screen without a cursor: the start, the text alternative, the styles, the colours, and the rest.
const DRAWN: [&str; 5] = [
    "<svg xmlns='http://www.w3.org/2000/svg' viewBox='-10 -10 2020 74' width='2020' height='74' role='img' xml:space='preserve'>\n<title>VT220 screen</title>\n<desc>",
    "\n\n                                                                                                                                                                                                       x\n",
    "</desc>\n<style>.vt220-text{font-family:'DejaVu Sans Mono','Liberation Mono',Menlo,Consolas,monospace;font-size:16.6px;white-space:pre}\n.vt220-b{font-weight:bold}.vt220-u{text-decoration:underline}\n@media (prefers-reduced-motion:no-preference){.vt220-k{animation:vt220-k 1s steps(1) infinite}}\n@keyframes vt220-k{50%{opacity:0}}</style>\n",
    "<g fill='#d0d0d0' direction='ltr' font-style='normal' font-weight='normal' letter-spacing='0' word-spacing='0'>\n<rect fill='#101010' x='-10' y='-10' width='100%' height='100%'/>\n",
    "<text class='vt220-text' x='1990' y='49' textLength='10' lengthAdjust='spacingAndGlyphs'>x</text>\n</g>\n</svg>\n",
];

/// Returns whether a wide screen is drawn as it was written by hand.
fn is_drawn_by_hand(alloc: Global) -> Result<bool, AllocError> {
    let terminal = fed(alloc, LOW, b"\x1b[?3h\x1b[?25l\x1b[3;200Hx")?;
    let mut out = Vec::new(alloc);
    picture(&terminal, &mut out)?;
    let mut expected = Vec::new(alloc);
    for part in DRAWN {
        expected.extend_from_slice(part.as_bytes())?;
    }
    Ok(out.as_slice() == expected.as_slice())
}

#[test]
fn a_picture_of_two_widths_is_the_one_written_by_hand(rt: HostRuntime) {
    holds(&rt, "drawn", is_drawn_by_hand(rt.alloc()));
}
