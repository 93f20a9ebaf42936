//! A terminal that was fed in pieces, and a replay, for several tests.
ghost use Rattle.std.specs.Prelude.{◌≤◌};

use std::alloc::{AllocError, Global};
use vt_replay::{Fault, Watched, What, run};
use vt_term::Terminal;

/// A failure of something that a test needs.
#[derive(Drop)]
pub(super) struct Failed;

impl From<AllocError> for Failed {
    fn from(_error: AllocError) -> Failed {
        Failed
    }
}

impl From<Fault> for Failed {
    fn from(_error: Fault) -> Failed {
        Failed
    }
}

/// The greatest input of the program, unless it is told another.
pub(super) const LIMIT: u64 = 268435456;

/// How many bytes a replay reads at a time.
#[derive(Clone, Copy)]
struct Piece {
    count: usize,
    ghost in_range: { (1 ≤ count) × (count ≤ 65536) },
}

const PIECES: [Piece; 3] = [
    Piece { count: 4096 },
    Piece { count: 3 },
    Piece { count: 1 },
];

/// A terminal, and its reports so far.
#[derive(Drop)]
pub(super) struct Played {
    pub(super) terminal: Terminal,
    pub(super) reports: Vec<u8>,
}

impl Played {
    /// Returns a terminal as at power-up that was fed these pieces.
    pub(super) fn of(alloc: Global, pieces: &[&[u8]]) -> Result<Played, AllocError> {
        let mut played = Played {
            terminal: Terminal::new(alloc)?,
            reports: Vec::new(alloc),
        };
        played.feed_all(pieces)?;
        Ok(played)
    }

    fn feed_all(&mut self, pieces: &[&[u8]]) -> Result<(), AllocError> {
        for piece in pieces {
            self.feed(piece)?;
        }
        Ok(())
    }

    /// Feeds an input in pieces of this size.
    pub(super) fn feed_by(&mut self, size: usize, input: &[u8]) -> Result<(), AllocError>
        requires { 1 ≤ size }
    {
        for piece in input.chunks(size) {
            self.feed(piece)?;
        }
        Ok(())
    }

    pub(super) fn feed(&mut self, piece: &[u8]) -> Result<(), AllocError> {
        self.terminal.feed(piece, &mut self.reports)
    }
}

/// Returns what a replay of these bytes writes.
pub(super) fn replayed(
    alloc: Global,
    input: &[u8],
    what: What,
    piece: usize,
) -> Result<Vec<u8>, Failed>
    requires { (1 ≤ piece) × (piece ≤ 65536) }
{
    let mut reader = Watched::new(input);
    let mut writer = Watched::new(Vec::new(alloc));
    run(alloc, &mut reader, &mut writer, what, piece, LIMIT)?;
    if !reader.ended() || reader.failed() || writer.failed() {
        return Err(Failed);
    }
    Ok(writer.into_inner())
}

/// Returns whether a replay of these bytes writes this, in pieces of this size.
fn replays(
    alloc: Global,
    input: &[u8],
    what: What,
    size: Piece,
    expected: &[u8],
) -> Result<bool, Failed> {
    Ok(replayed(alloc, input, what, size.count)?.as_slice() == expected)
}

/// Returns whether a replay of these bytes writes this, in pieces of 4096 bytes, of 3 and of 1.
pub(super) fn is_replayed(
    alloc: Global,
    input: &[u8],
    what: What,
    expected: &[u8],
) -> Result<bool, Failed> {
    for size in &PIECES {
        if !replays(alloc, input, what, *size, expected)? {
            return Ok(false);
        }
    }
    Ok(true)
}
