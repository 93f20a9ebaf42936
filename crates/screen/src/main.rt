//! The smallest program over the core, which plays the bytes of standard input on a terminal, and prints its screen as
//! text.
#![tactic(auto)]

use std::io::{self, Input, Read, Write};
use vt_term::Terminal;

fn main(rt: HostRuntime) -> io::Result<()> {
    let mut bytes = Vec::new(rt.alloc());
    rt.reader().read_to_end(&mut bytes)?;
    let mut terminal = Terminal::new(rt.alloc())?;
    let mut reports = Vec::new(rt.alloc());
    terminal.feed(&bytes, &mut reports)?;
    let mut text = Vec::new(rt.alloc());
    terminal.text(&mut text)?;
    let mut writer = io::writer(&rt);
    writer.write_all(&text)?;
    writer.flush()
}
