//! Reads and writes that are short or fail, and what a replay then answers and has written.
ghost use Rattle.std.specs.Prelude.{◌≤◌};

use super::common::Failed;
use crate::rows::holds;
use std::alloc::{AllocError, Global};
use vt_replay::{Fault, Format, Request, Watched, What, Word, carry_out};
use vt_term::{Size, SizedTerminal};
use vt_vectors::{ShortReader, ShortWriter, vector, vector_count};

/// The greatest input of the program, unless it is told another.
const LIMIT: u64 = 268435456;

/// Asks for both device attributes in the 8-bit form: ten bytes.
const REQUESTS: &[u8] = b"\x1b G\x1b[c\x1b[>c";

const ANSWERS: &[u8] = b"\x9b?62;1;6c\x9b>1;10;0c";

/// More bytes than any replay here writes.
const ROOM: usize = 100_000;

/// The limit of a replay, and the most bytes of one write: at least one.
#[derive(Clone, Copy)]
struct Bounds {
    limit: u64,
    most: usize,
    ghost limit_in_range: { limit ≤ 1099511627776 },
    ghost some: { 1 ≤ most },
}

/// A replay with its request and its devices. A read gives one byte.
#[derive(Clone, Copy)]
struct Replay {
    word: Word,
    bounds: Bounds,
    /// The number of the read that fails.
    failing_read: Option<usize>,
    /// The most bytes that are written in all.
    room: usize,
    /// The number of the write that fails.
    failing_write: Option<usize>,
}

/// The greatest input, and writes that take all.
const WIDE: Bounds = Bounds {
    limit: LIMIT,
    most: ROOM,
};

/// Writes of three bytes.
const THREE: Bounds = Bounds {
    limit: LIMIT,
    most: 3,
};

/// Writes of one byte.
const ONE: Bounds = Bounds {
    limit: LIMIT,
    most: 1,
};

/// Inputs of at most 5 bytes, of 6 and of 10.
const UP_TO_5: Bounds = Bounds {
    limit: 5,
    most: ROOM,
};

const UP_TO_6: Bounds = Bounds {
    limit: 6,
    most: ROOM,
};

const UP_TO_10: Bounds = Bounds {
    limit: 10,
    most: ROOM,
};

/// Devices that neither fail nor lack capacity.
const REPORTS: Replay = Replay {
    word: Word::Replay(What::Reports),
    bounds: WIDE,
    failing_read: None,
    room: ROOM,
    failing_write: None,
};

/// Returns what a replay answers, and what it has written.
fn replayed(
    alloc: Global,
    input: &[u8],
    replay: Replay,
) -> Result<(Result<(), Fault>, Vec<u8>), Failed> {
    let into = Vec::with_capacity(alloc, replay.room)?;
    let writer = ShortWriter::new(into, replay.room, replay.bounds.most, replay.failing_write);
    let mut reader = Watched::new(ShortReader::new(input, 1, replay.failing_read));
    let mut writer = Watched::new(writer);
    let request = Request {
        word: replay.word,
        piece: 1,
        limit: replay.bounds.limit,
        file: None,
        format: Some(Format::Raw),
        encoding: None,
        terminal: None,
        wide: None,
        size: None,
        timing: None,
        from: None,
        until: None,
        full: false,
        partial: false,
        quiet: false,
    };
    let outcome = carry_out(alloc, &mut reader, Format::Raw, None, &mut writer, &request);
    let answer = outcome.ended;
    let written = Vec::from_slice(alloc, writer.into_inner().taken())?;
    Ok((answer, written))
}

/// A replay of the requests, its answer, and how many bytes of the answers it has written.
const TABLE: [(Replay, Result<(), Fault>, usize); 11] = [
    (
        Replay {
            failing_read: Some(7),
            ..REPORTS
        },
        Err(Fault::Read),
        9,
    ),
    (
        Replay {
            word: Word::Replay(What::Text),
            failing_read: Some(7),
            ..REPORTS
        },
        Err(Fault::Read),
        0,
    ),
    // six writes, so that a seventh can't fail
    (
        Replay {
            bounds: THREE,
            failing_write: Some(7),
            ..REPORTS
        },
        Ok(()),
        18,
    ),
    (
        Replay {
            bounds: THREE,
            failing_write: Some(6),
            ..REPORTS
        },
        Err(Fault::Write),
        15,
    ),
    (
        Replay {
            bounds: THREE,
            failing_write: Some(2),
            ..REPORTS
        },
        Err(Fault::Write),
        3,
    ),
    (
        Replay {
            bounds: THREE,
            room: 5,
            ..REPORTS
        },
        Err(Fault::Write),
        5,
    ),
    (
        Replay {
            bounds: UP_TO_5,
            ..REPORTS
        },
        Err(Fault::TooLong),
        0,
    ),
    (
        Replay {
            bounds: UP_TO_6,
            ..REPORTS
        },
        Err(Fault::TooLong),
        9,
    ),
    (
        Replay {
            bounds: UP_TO_10,
            ..REPORTS
        },
        Ok(()),
        18,
    ),
    (
        Replay {
            bounds: UP_TO_10,
            failing_read: Some(11),
            ..REPORTS
        },
        Err(Fault::Read),
        18,
    ),
    (REPORTS, Ok(()), 18),
];

/// Returns whether a replay answers this, and has written this.
fn leaves(
    alloc: Global,
    input: &[u8],
    replay: Replay,
    answer: Result<(), Fault>,
    written: &[u8],
) -> Result<bool, Failed> {
    let (answered, bytes) = replayed(alloc, input, replay)?;
    Ok(answered == answer && bytes.as_slice() == written)
}

#[test]
fn the_table_of_devices_holds(rt: HostRuntime) {
    for (i, (replay, answer, count)) in TABLE.iter().enumerate() {
        let written = ANSWERS.get(..*count).unwrap_or(b"?");
        holds(
            &rt,
            i,
            leaves(rt.alloc(), REQUESTS, *replay, *answer, written),
        );
    }
}

/// The words, which are asked for in turn.
const WORDS: &[Word] = &[
    Word::Replay(What::Text),
    Word::Replay(What::Reports),
    Word::Replay(What::Repaint),
    Word::Replay(What::Status),
    Word::Log,
];

/// Returns a replay whose read of this number fails.
fn with_failing_read(word: Word, number: usize) -> Replay {
    Replay {
        word,
        failing_read: Some(number),
        ..REPORTS
    }
}

/// Returns whether the read after the one that gave no byte is never made.
fn ends_before(alloc: Global, input: &[u8], word: Word, is_between: bool) -> Result<bool, Failed> {
    let replay = with_failing_read(word, input.len().saturating_add(2));
    let (answer, _written) = replayed(alloc, input, replay)?;
    Ok(if word == Word::Replay(What::Repaint) && !is_between {
        answer == Err(Fault::Partial)
    } else {
        answer == Ok(())
    })
}

/// The outputs that are due of the bytes that were read.
#[derive(Drop)]
struct Due {
    terminal: SizedTerminal,
    reports: Vec<u8>,
    lines: Vec<u8>,
}

impl Due {
    /// Returns the reports or the lines, if a word asks for them.
    fn of(&self, word: Word) -> &[u8] {
        match word {
            Word::Replay(What::Reports) => &self.reports,
            Word::Log => &self.lines,
            _ => b"",
        }
    }

    fn feed(&mut self, byte: &[u8]) -> Result<(), AllocError> {
        self.terminal
            .feed_log(byte, &mut self.reports, &mut self.lines)
    }
}

/// Returns whether each read of a byte fails in turn: what was written is what is due of the bytes before it.
fn reads_fail(alloc: Global, input: &[u8], word: Word, due: &mut Due) -> Result<bool, Failed> {
    for call in 0..input.len() + 1 {
        let replay = with_failing_read(word, call + 1);
        if !leaves(alloc, input, replay, Err(Fault::Read), due.of(word))? {
            return Ok(false);
        }
        if let Some(byte) = input.get(call..call + 1) {
            due.feed(byte)?;
        }
    }
    Ok(true)
}

/// Returns whether each read fails in turn, and none is made after the one that gave no byte.
fn each_read_fails(alloc: Global, input: &[u8], word: Word) -> Result<bool, Failed> {
    let mut due = Due {
        terminal: SizedTerminal::new(alloc, Size::vt220())?,
        reports: Vec::new(alloc),
        lines: Vec::new(alloc),
    };
    let fail = reads_fail(alloc, input, word, &mut due)?;
    Ok(fail && ends_before(alloc, input, word, due.terminal.is_between())?)
}

/// Returns whether that is so for each word.
fn each_read_fails_for_all(alloc: Global, input: &[u8]) -> Result<bool, Failed> {
    for word in WORDS {
        if !each_read_fails(alloc, input, *word)? {
            return Ok(false);
        }
    }
    Ok(true)
}

/// Returns a replay whose write of one byte of this number fails.
fn with_failing_write(word: Word, number: Option<usize>) -> Replay {
    Replay {
        word,
        bounds: ONE,
        failing_write: number,
        ..REPORTS
    }
}

/// Returns whether each write of one byte of what is due fails in turn: what was written is what is due up to there.
fn writes_fail(alloc: Global, input: &[u8], word: Word, due: &[u8]) -> Result<bool, Failed> {
    for call in 0..due.len() {
        let replay = with_failing_write(word, Some(call + 1));
        if !leaves(alloc, input, replay, Err(Fault::Write), &due[..call])? {
            return Ok(false);
        }
    }
    Ok(true)
}

/// Returns whether each write fails in turn, and none is made after the last one.
fn each_write_fails(alloc: Global, input: &[u8], word: Word) -> Result<bool, Failed> {
    let (answered, due) = replayed(alloc, input, with_failing_write(word, None))?;
    let last = with_failing_write(word, Some(due.len().saturating_add(1)));
    Ok(writes_fail(alloc, input, word, &due)? && leaves(alloc, input, last, answered, &due)?)
}

/// Returns whether that is so for each word.
fn each_write_fails_for_all(alloc: Global, input: &[u8]) -> Result<bool, Failed> {
    for word in WORDS {
        if !each_write_fails(alloc, input, *word)? {
            return Ok(false);
        }
    }
    Ok(true)
}

#[test]
fn each_read_of_each_vector_fails(rt: HostRuntime) {
    for i in 0..vector_count() {
        holds(&rt, i, each_read_fails_for_all(rt.alloc(), vector(i).input));
    }
}

#[test]
fn each_write_of_each_vector_fails(rt: HostRuntime) {
    for i in 0..vector_count() {
        holds(
            &rt,
            i,
            each_write_fails_for_all(rt.alloc(), vector(i).input),
        );
    }
}
