//! Renders a screen after the bytes of standard input, for tests.
//!
//! The first three bytes are the columns and the rows of the screen, 2 to 255, and what is printed: `s` and `p` are an xterm's screen as text
//! with SGR sequences and as a picture, `S` and `P` a VT220's.
#![tactic(auto)]

ghost use Rattle.std.specs.Prelude.{IfSome};
ghost use Rattle.vt_screen.specs.Sizes.{IsSize};

use std::alloc::AllocError;
use std::io::{self, Read, Write};
use vt_render::{Renderable, picture_limit, picture_reserved, show_limit, show_reserved};
use vt_screen::Size;
use vt_term::SizedTerminal;
use vt_xterm_display::Xterm;

/// Returns the size that two bytes name, if a screen may have it.
fn size_of(columns: u8, rows: u8) -> Option<Size>
    ensures { IfSome result (λ size. IsSize size) }
{
    if columns < 2 {
        return None;
    }
    if rows < 2 {
        return None;
    }
    let columns = columns as usize;
    let rows = rows as usize;
    if columns == 80 && rows == 24 {
        return Some(Size::vt220());
    }
    Some(Size {
        rows,
        narrow: columns,
        wide: columns,
    })
}

/// Appends what is printed of a screen.
fn render<S: Renderable>(
    screen: &S,
    is_picture: bool,
    out: &mut Vec<u8>,
) -> Result<(), AllocError> {
    if is_picture {
        out.reserve(picture_limit(screen.size()))?;
        picture_reserved(screen, out);
    } else {
        out.reserve(show_limit(screen.size()))?;
        show_reserved(screen, out);
    }
    Ok(())
}

fn main(rt: HostRuntime) -> io::Result<()> {
    let mut sent = Vec::new(rt.alloc());
    rt.reader().read_to_end(&mut sent)?;
    if sent.len() < 3 {
        return Ok(());
    }
    let Some(size) = size_of(sent[0], sent[1]) else {
        return Ok(());
    };
    let what = sent[2];
    let is_picture = what == b'p' || what == b'P';
    let mut out = Vec::new(rt.alloc());
    let mut reports = Vec::new(rt.alloc());
    if what == b's' || what == b'p' {
        let mut terminal = Xterm::new(rt.alloc(), size)?;
        terminal.feed(&sent[3..], &mut reports)?;
        render(&terminal, is_picture, &mut out)?;
    } else {
        let mut terminal = SizedTerminal::new(rt.alloc(), size)?;
        terminal.feed(&sent[3..], &mut reports)?;
        render(&terminal, is_picture, &mut out)?;
    }
    let mut writer = io::writer(&rt);
    writer.write_all(&out)?;
    writer.flush()
}
