//! Prints what observers have after the steps of standard input, for tests: the trace of an xterm, and its title and bells.
//!
//! A step has the columns and the rows of the screen, 2 to 255, the number of its bytes in two bytes, the low one first, and these bytes. Another size
//! than before is a change of the size, and then the bytes are played. The lines of the trace come first. After them comes a line with the title, and
//! one with the number of bells.
#![tactic(auto)]

ghost use Rattle.std.specs.Prelude.{◌≤◌, IfSome, IfOk, length};
ghost use Rattle.vt_screen.specs.Sizes.{IsSize};

use std::alloc::{AllocError, Global};
use std::io::{self, Input, Read, Write};
use vt_events::{CHUNK, Terminal, Title, Trace};
use vt_feed::{Observer, REPORT_LIMIT};
use vt_screen::Size;
use vt_xterm_display::{Xterm, XtermDisplay};

/// Returns the size that a step names, if a screen may have it.
fn size_of(columns: u8, rows: u8) -> Option<Size>
    ensures { IfSome result (λ size. IsSize size) }
{
    if columns < 2 {
        return None;
    }
    if rows < 2 {
        return None;
    }
    Some(Size {
        rows: rows as usize,
        narrow: columns as usize,
        wide: columns as usize,
    })
}

/// What is watched: an xterm for each observer, and the lines of the trace.
#[derive(Drop)]
struct Watched {
    traced: Xterm,
    trace: Trace,
    lines: Vec<u8>,
    titled: Xterm,
    title: Title,
}

/// Puts an xterm of another size in the place of one. Returns `Err` if allocation fails.
fn resize(alloc: Global, terminal: &mut Xterm, size: Size) -> Result<(), AllocError>
    requires { IsSize size }
{
    let mut made = Xterm::new(alloc, size)?;
    terminal.resize_into(&mut made);
    *terminal = made;
    Ok(())
}

/// Feeds a chunk to an xterm that is observed. Returns how many bytes it played, or `Err` if allocation fails.
fn feed<O: Observer<XtermDisplay>>(
    alloc: Global,
    terminal: &mut Xterm,
    piece: &[u8],
    observer: &mut O,
) -> Result<usize, AllocError>
    ensures { IfOk result (λ count. count ≤ length piece.now) }
{
    let Some(room) = piece.len().checked_mul(REPORT_LIMIT) else {
        return Err(AllocError);
    };
    let mut reports = Vec::with_capacity(alloc, room)?;
    Ok(terminal.feed_observed(piece, observer, &mut reports))
}

impl Watched {
    /// Plays bytes. Returns `Err` if allocation fails.
    fn play(&mut self, alloc: Global, sent: &[u8]) -> Result<(), AllocError> {
        let mut rest = sent;
        for _ in 0..sent.len() {
            let end = rest.len().min(CHUNK);
            let count = feed(alloc, &mut self.traced, &rest[..end], &mut self.trace)?;
            self.lines.extend_from_slice(self.trace.lines())?;
            self.trace.clear();
            rest = &rest[count..];
        }
        feed(alloc, &mut self.titled, sent, &mut self.title)?;
        Ok(())
    }

    /// Changes the size, unless it is that already. Returns `Err` if allocation fails.
    fn resize(&mut self, alloc: Global, size: Size) -> Result<(), AllocError>
        requires { IsSize size }
    {
        if size != self.traced.size() {
            resize(alloc, &mut self.traced, size)?;
            resize(alloc, &mut self.titled, size)?;
            self.trace.resize(size);
        }
        Ok(())
    }

    /// Carries out steps, up to one that isn't complete. Returns `Err` if allocation fails.
    fn play_steps(&mut self, alloc: Global, steps: &[u8]) -> Result<(), AllocError> {
        let mut rest = steps;
        for _ in 0..steps.len() {
            if rest.len() < 4 {
                return Ok(());
            }
            let Some(size) = size_of(rest[0], rest[1]) else {
                return Ok(());
            };
            let end = (4 + rest[2] as usize + 256 * rest[3] as usize).min(rest.len());
            self.resize(alloc, size)?;
            self.play(alloc, &rest[4..end])?;
            rest = &rest[end..];
        }
        Ok(())
    }
}

fn main(rt: HostRuntime) -> io::Result<()> {
    let mut steps = Vec::new(rt.alloc());
    rt.reader().read_to_end(&mut steps)?;
    if steps.len() < 2 {
        return Ok(());
    }
    let Some(size) = size_of(steps[0], steps[1]) else {
        return Ok(());
    };
    let mut watched = Watched {
        traced: Xterm::new(rt.alloc(), size)?,
        trace: Trace::new(rt.alloc(), Terminal::Xterm, true)?,
        lines: Vec::new(rt.alloc()),
        titled: Xterm::new(rt.alloc(), size)?,
        title: Title::new(),
    };
    watched.play_steps(rt.alloc(), &steps)?;
    watched.trace.end();
    watched.lines.extend_from_slice(watched.trace.lines())?;
    let mut writer = io::writer(&rt);
    writer.write_all(&watched.lines)?;
    writer.write_all(watched.title.title())?;
    writer.flush()?;
    let bells = watched.title.bells();
    println!(rt; "\n{bells}")
}
