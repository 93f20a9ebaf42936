//! Tests what the program needs of a replay: a writer that is full, and the lines of faults.
ghost use Rattle.std.specs.Prelude.{◌≡◌, ◌≤◌, false};

use super::common::Failed;
use crate::rows::holds;
use std::alloc::Global;
use std::io::Write;
use vt_replay::{Break, Fault, Part, Watched, What, run};

/// The greatest input of the program, unless it is told another.
const LIMIT: u64 = 268435456;

/// Asks for both device attributes in the 8-bit form.
const REQUESTS: &[u8] = b"\x1b G\x1b[c\x1b[>c";

const ANSWERS: &[u8] = b"\x9b?62;1;6c\x9b>1;10;0c";

/// Returns the answer of a replay that reads so many bytes at a time.
fn answer<W: Write>(
    alloc: Global,
    input: &[u8],
    writer: &mut Watched<W>,
    what: What,
    piece: usize,
    limit: u64,
) -> Result<(), Fault>
    requires works { writer.old.failed ≡ false }
    requires piece_in_range { (1 ≤ piece) × (piece ≤ 65536) }
    requires limit_in_range { limit ≤ 1099511627776 }
{
    let mut reader = Watched::new(input);
    run(alloc, &mut reader, writer, what, piece, limit)
}

/// Returns whether a writer with capacity for five bytes is a fault, and has these.
fn is_full(alloc: Global, input: &[u8], what: What, piece: usize, expected: &[u8]) -> bool
    requires { (1 ≤ piece) × (piece ≤ 65536) }
{
    let mut room = [0u8; 5];
    let mut writer = Watched::new(room.as_mut_slice());
    let answered = answer(alloc, input, &mut writer, what, piece, LIMIT);
    let failed = writer.failed();
    drop(writer);
    answered == Err(Fault::Write) && failed && room.as_slice() == expected
}

#[test]
fn a_writer_that_is_full_is_a_fault(rt: HostRuntime) {
    assert!(rt; is_full(rt.alloc(), b"A\r\nBCD", What::Text, 3, b"A\nBCD"));
    assert!(rt; is_full(rt.alloc(), REQUESTS, What::Reports, 1, b"\x9b?62;"));
}

/// Returns whether a fault has this status and this line. Its message is the line and what is after it.
fn has_line(
    alloc: Global,
    fault: &Fault,
    status: u8,
    line: &str,
    after: &str,
) -> Result<bool, Failed> {
    let message = fault.to_string(alloc)?;
    let has_message = message.as_str().strip_prefix(line) == Some(after);
    Ok(fault.status() == status && fault.line() == line && has_message)
}

const FAULTS: &[(Fault, u8, &str, &str)] = &[
    (Fault::Memory, 1, "vt220: out of memory", ""),
    (Fault::NoTimes, 2, "vt220: the input has no times", ""),
    (Fault::Partial, 3, "vt220: input ends inside a sequence", ""),
    (Fault::Read, 4, "vt220: read failed", ""),
    (Fault::Write, 5, "vt220: write failed", ""),
    (
        Fault::TooLong,
        6,
        "vt220: input is longer than the limit",
        "",
    ),
    (
        Fault::Broken(Break {
            part: Part::Recording,
            at: 14,
        }),
        7,
        "vt220: the recording is broken",
        " at byte 14",
    ),
    (
        Fault::Broken(Break {
            part: Part::Timing,
            at: 0,
        }),
        7,
        "vt220: the timing file is broken",
        " at byte 0",
    ),
];

#[test]
fn faults_have_a_status_and_a_line(rt: HostRuntime) {
    for (fault, status, line, after) in FAULTS {
        holds(&rt, line, has_line(rt.alloc(), fault, *status, line, after));
    }
}
