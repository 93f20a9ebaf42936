//! Prints the bytes of an update of an xterm, for tests.
//!
//! Standard input has the columns and the rows of the screen, 2 to 255, the number of bytes that both xterms play, in two bytes, the low one first, and
//! these bytes. The remainder is played by the xterm alone to which the update leads. The program prints the number of bytes of its repaint, LF, and the
//! update.
#![tactic(auto)]

ghost use Rattle.std.specs.Prelude.{◌≡◌, [], IfSome};
ghost use Rattle.vt_syntax.specs.declared.held.Held.TheVariants.{Nothing};
ghost use Rattle.vt_feed.specs.Languages.{reading};
ghost use Rattle.vt_screen.specs.Sizes.{IsSize};

use std::alloc::{AllocError, Global};
use std::io::{self, Read, Write};
use vt_screen::Size;
use vt_xterm_display::Xterm;
use vt_xterm_repaint::{repaint_limit, repaint_reserved};
use vt_xterm_update::{update_limit, update_reserved};

/// Returns the size that the input names, if a screen may have it.
fn size_of(columns: u8, rows: u8) -> Option<Size>
    ensures { IfSome result (λ size. IsSize size) }
{
    if columns < 2 {
        return None;
    }
    if rows < 2 {
        return None;
    }
    Some(Size {
        rows: rows as usize,
        narrow: columns as usize,
        wide: columns as usize,
    })
}

/// Returns the number of bytes of the repaint. Returns `Err` if allocation fails.
fn repaint_len(alloc: Global, terminal: &Xterm) -> Result<usize, AllocError>
    requires { terminal.now.reading ≡ reading Nothing [] }
{
    let mut out = Vec::new(alloc);
    out.reserve(repaint_limit(terminal.size()))?;
    repaint_reserved(terminal, &mut out);
    Ok(out.len())
}

/// Appends the update after some bytes to the state after all of them. Returns the number of bytes of the repaint, or `Err` if allocation fails.
fn update(
    alloc: Global,
    size: Size,
    both: &[u8],
    more: &[u8],
    out: &mut Vec<u8>,
) -> Result<usize, AllocError>
    requires { IsSize size }
{
    let mut reports = Vec::new(alloc);
    let mut shown = Xterm::new(alloc, size)?;
    let mut to = Xterm::new(alloc, size)?;
    shown.feed(both, &mut reports)?;
    to.feed(both, &mut reports)?;
    to.feed(more, &mut reports)?;
    if !shown.is_between() || !to.is_between() {
        return Ok(0);
    }
    out.reserve(update_limit(to.size()))?;
    update_reserved(&mut shown, &to, out);
    repaint_len(alloc, &to)
}

fn main(rt: HostRuntime) -> io::Result<()> {
    let mut input = Vec::new(rt.alloc());
    rt.reader().read_to_end(&mut input)?;
    if input.len() < 4 {
        return Ok(());
    }
    let Some(size) = size_of(input[0], input[1]) else {
        return Ok(());
    };
    let end = (4 + input[2] as usize + 256 * input[3] as usize).min(input.len());
    let mut out = Vec::new(rt.alloc());
    let repaint = update(rt.alloc(), size, &input[4..end], &input[end..], &mut out)?;
    println!(rt; "{repaint}")?;
    let mut writer = io::writer(&rt);
    writer.write_all(&out)?;
    writer.flush()
}
