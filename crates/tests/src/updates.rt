//! Tests what no clause says of the update: it asks for no memory, and what the output holds makes no difference. What is
//! sent is in lib/rows/updates.txt.

use crate::rows::holds;
use crate::scarce::Scarce;
use std::alloc::{AllocError, Global};
use vt_term::{Size, SizedTerminal};
use vt_update::sized::{update_limit, update_reserved};

/// Bytes of the screen that is shown, and of the one that is asked for.
type Pair = (&'static [u8], &'static [u8]);

/// One letter, and changes that only a repaint makes.
const PAIRS: [Pair; 3] = [
    (b"", b"A"),
    (b"A", b"\x1b[?3hB\x1b7"),
    (b"A\x1b7", b"\x1b[2;5r\x1b[?6hC\x1b(0"),
];

/// Returns a terminal as at power-up that was fed these bytes.
fn terminal(alloc: Global, input: &[u8]) -> Result<SizedTerminal, AllocError> {
    let mut terminal = SizedTerminal::new(alloc, Size::vt220())?;
    let mut reports = Vec::new(alloc);
    terminal.feed(input, &mut reports)?;
    Ok(terminal)
}

/// Returns what an update sends while there is no memory.
fn reserved_update(
    alloc: Global,
    shown: &mut SizedTerminal,
    to: &SizedTerminal,
) -> Result<Vec<u8>, AllocError> {
    let mut out = Vec::with_capacity(alloc, update_limit(to.size()))?;
    let scarce = Scarce::new(alloc)?;
    if shown.is_between() && to.is_between() {
        update_reserved(shown, to, &mut out);
    }
    drop(scarce);
    Ok(out)
}

/// Returns whether an update that asks for no memory leads there.
fn takes_no_memory(alloc: Global, (from, to): Pair) -> Result<bool, AllocError> {
    let mut shown = terminal(alloc, from)?;
    let to = terminal(alloc, to)?;
    let sent = reserved_update(alloc, &mut shown, &to)?;
    Ok(shown.same_state(&to) && !sent.is_empty())
}

#[test]
fn no_memory_is_asked_for(rt: HostRuntime) {
    for (i, pair) in PAIRS.iter().enumerate() {
        holds(&rt, i, takes_no_memory(rt.alloc(), *pair));
    }
}

/// Appends an update that leads from a blank screen to a letter.
fn append_a_letter(alloc: Global, out: &mut Vec<u8>) -> Result<(), AllocError> {
    let mut shown = SizedTerminal::new(alloc, Size::vt220())?;
    let to = terminal(alloc, b"A")?;
    out.reserve(update_limit(to.size()))?;
    if shown.is_between() && to.is_between() {
        update_reserved(&mut shown, &to, out);
    }
    Ok(())
}

/// Returns whether an update appends the same to what another one sent.
fn appends_a_letter(alloc: Global) -> Result<bool, AllocError> {
    let mut out = Vec::new(alloc);
    append_a_letter(alloc, &mut out)?;
    append_a_letter(alloc, &mut out)?;
    Ok(out.as_slice() == b"AA".as_slice())
}

#[test]
fn sends_the_same_whatever_the_output_holds(rt: HostRuntime) {
    holds(&rt, "after another", appends_a_letter(rt.alloc()));
}
