//! The devices, through the bounds that a caller has.
ghost use Rattle.std.specs.Prelude.{◌≤◌};

use super::common::Failed;
use crate::rows::holds;
use std::alloc::Global;
use std::io::{Read, Write};
use vt_vectors::{ShortReader, ShortWriter};

/// Returns the answers of so many reads, each of at most four bytes, in one line. An answer is what was read, or `!`
/// for an error, and `,`.
fn reads<R: Read>(alloc: Global, reader: &mut R, count: u8) -> Result<Vec<u8>, Failed> {
    let mut line = Vec::new(alloc);
    for _ in 0..count {
        let mut buffer = [0u8; 4];
        match reader.read(&mut buffer) {
            Ok(n) => line.extend_from_slice(buffer.get(..n).unwrap_or(b"?"))?,
            Err(_) => line.extend_from_slice(b"!")?,
        }
        line.extend_from_slice(b",")?;
    }
    Ok(line)
}

/// Returns the answers of so many writes of a chunk's rest, in one line. An answer is how many bytes were taken, or `!`
/// for an error, and `,`.
fn writes<W: Write>(
    alloc: Global,
    writer: &mut W,
    piece: &[u8],
    count: u8,
) -> Result<String, Failed> {
    let mut line = String::new(alloc);
    let mut left = piece;
    for _ in 0..count {
        match writer.write(left) {
            Ok(n) => {
                left = left.get(n..).unwrap_or(b"?");
                let taken = format!(in alloc; "{n},")?;
                line.push_str(taken.as_str())?;
            }
            Err(_) => line.push_str("!,")?,
        }
    }
    Ok(line)
}

/// The most bytes of a call.
#[derive(Clone, Copy)]
struct Most {
    count: usize,
    ghost some: { 1 ≤ count },
}

/// One, three and nine bytes.
const ONE: Most = Most { count: 1 };

const THREE: Most = Most { count: 3 };

const NINE: Most = Most { count: 9 };

/// The most bytes of a read, the call that fails, and the answers of eight reads.
const READERS: [(Most, Option<usize>, &[u8]); 6] = [
    (ONE, None, b"a,b,c,d,e,f,g,,"),
    (THREE, None, b"abc,def,g,,,,,,"),
    (NINE, None, b"abcd,efg,,,,,,,"),
    (ONE, Some(3), b"a,b,!,c,d,e,f,g,"),
    (THREE, Some(1), b"!,abc,def,g,,,,,"),
    (THREE, Some(0), b"abc,def,g,,,,,,"),
];

/// Returns whether a reader's answers are these.
fn is_read(alloc: Global, most: Most, fail: Option<usize>, line: &[u8]) -> Result<bool, Failed> {
    let mut reader = ShortReader::new(b"abcdefg", most.count, fail);
    Ok(reads(alloc, &mut reader, 8)?.as_slice() == line)
}

#[test]
fn a_reader_gives_little_and_fails_once(rt: HostRuntime) {
    for (i, (most, fail, line)) in READERS.iter().enumerate() {
        holds(&rt, i, is_read(rt.alloc(), *most, *fail, line));
    }
}

/// The capacity, the most bytes of a write, the call that fails, the results of four writes, and what was taken.
type Writing = (usize, Most, Option<usize>, &'static str, &'static [u8]);

const WRITERS: [Writing; 5] = [
    (9, THREE, None, "3,3,1,0,", b"abcdefg"),
    (5, THREE, None, "3,2,0,0,", b"abcde"),
    (9, THREE, Some(2), "3,!,3,1,", b"abcdefg"),
    (9, NINE, Some(1), "!,7,0,0,", b"abcdefg"),
    (0, ONE, Some(5), "0,0,0,0,", b""),
];

/// Returns whether a writer's answers are these, and what it has taken.
fn is_written(alloc: Global, (room, most, fail, line, taken): &Writing) -> Result<bool, Failed> {
    let into = Vec::with_capacity(alloc, *room)?;
    let mut writer = ShortWriter::new(into, *room, most.count, *fail);
    let answers = writes(alloc, &mut writer, b"abcdefg", 4)?;
    Ok(answers.as_str() == *line && writer.taken() == *taken)
}

#[test]
fn a_writer_takes_little_and_fails_once(rt: HostRuntime) {
    for (i, row) in WRITERS.iter().enumerate() {
        holds(&rt, i, is_written(rt.alloc(), row));
    }
}
