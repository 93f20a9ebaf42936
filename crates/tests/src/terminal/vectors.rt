//! The terminal meets every vector, alone and through a replay, and no wrong one.
ghost use Rattle.std.specs.Prelude.{◌≤◌, ◌<◌};

use super::common::{Failed, LIMIT, is_replayed};
use crate::rows::holds;
use std::alloc::Global;
use vt_replay::{Fault, Watched, What, run};
use vt_vectors::{Mismatch, VECTOR_COUNT, Vector, check, vector, vector_count, vector_name};

/// Returns whether a replay for a repaint answers and writes what the vector expects: inside a sequence there is none.
fn is_repainted(alloc: Global, v: &Vector, piece: usize) -> bool
    requires { (1 ≤ piece) × (piece ≤ 65536) }
{
    let mut writer = Watched::new(Vec::new(alloc));
    let mut reader = Watched::new(v.input);
    let answer = run(alloc, &mut reader, &mut writer, What::Repaint, piece, LIMIT);
    let written = writer.into_inner();
    match v.repaint {
        Some(due) => answer == Ok(()) && written.as_slice() == due,
        None => answer == Err(Fault::Partial) && written.is_empty(),
    }
}

/// Returns whether replays write what the vector expects.
fn is_met(alloc: Global, v: &Vector) -> Result<bool, Failed> {
    Ok(
        check(alloc, v) == Ok(())
            && is_replayed(alloc, v.input, What::Text, v.text)?
            && is_replayed(alloc, v.input, What::Reports, v.reports)?
            && is_repainted(alloc, v, 1)
            && is_repainted(alloc, v, 4096),
    )
}

#[test]
fn every_vector_is_met(rt: HostRuntime) {
    for i in 0..vector_count() {
        holds(&rt, i, is_met(rt.alloc(), &vector(i)));
    }
}

/// Returns whether two vectors have one name or one input.
fn are_alike(i: usize, j: usize) -> bool
    requires { (i < VECTOR_COUNT) × (j < VECTOR_COUNT) }
{
    vector_name(i) == vector_name(j) || vector(i).input == vector(j).input
}

#[test]
fn each_vector_has_a_name_and_an_input_of_its_own(rt: HostRuntime) {
    for i in 0..vector_count() {
        for j in 0..i {
            holds(&rt, i, !are_alike(i, j));
        }
    }
}

/// An input, and how many bytes its text and its repaint have.
const LENGTHS: [(&[u8], usize, usize); 29] = [
    (b"", 24, 32),
    (b"A", 25, 58),
    (b"A\r\nB", 26, 74),
    (b"\x1b[38;5;1mX", 25, 66),
    (b"\x1b(A#", 26, 60),
    (b"\x1b(0}", 26, 60),
    (b"\xa3", 26, 60),
    (b"\x1b[1\"qAB\x1b[0\"qC\x1b[1;1H\x1b[?K", 26, 59),
    (b"\x1b[5;10r\x1b[?6h\x1b[99;99H\x1b[6n", 24, 45),
    (b"\x1b[?6h\x1b[20;3H\x1b7\x1b[2;5r\x1b8", 24, 86),
    (b"\x1bN", 24, 34),
    (b"\x1b[3g\x1b[1;5H\x1bH", 24, 54),
    (b"\x1b[!p", 24, 37),
    (b"\x1b[7mA\x1b[1;1H\x1b[?2J", 24, 62),
    (b"\x1b[7mA\x1b[1;1H\x1b[2J", 24, 34),
    (b"\x1b#8", 1944, 2337),
    (b"A  B", 28, 74),
    (b"\x1b=\x1b[?25l\x1b[2;4h", 24, 48),
    (b"\x1b[12l", 24, 37),
    (b"\x1b(K@[\\]{|}~", 40, 81),
    (b"\x1b(K[", 26, 60),
    (b"\x1b[?3h", 24, 37),
    (b"\x1b[?3h\x1b[3g\x1b[1;100H\x1bH\x1b[?3l\t", 24, 57),
    (b"\x1b[?3h\x1b[5;120H\x1b7\x1b[?3l\x1b8", 24, 66),
    (b"\x1b[?3hA\x1b[!p", 25, 68),
    (b"\x1b[?3h\x1b#8", 3192, 3590),
    (
        b"                                                                                ",
        24,
        53,
    ),
    (
        b"xxxxxxxxxxxxxxxxxxxxxxxxxxxxxxxxxxxxxxxxxxxxxxxxxxxxxxxxxxxxxxxxxxxxxxxxxxxxxxxx\x1b[6n",
        104,
        148,
    ),
    (
        b"xxxxxxxxxxxxxxxxxxxxxxxxxxxxxxxxxxxxxxxxxxxxxxxxxxxxxxxxxxxxxxxxxxxxxxxxxxxxxxxx\x1b7",
        104,
        182,
    ),
];

/// Returns how many vectors have this input, with a text and a repaint of these lengths.
fn found_with(input: &[u8], text: usize, repaint: usize) -> usize {
    let mut found = 0usize;
    for i in 0..vector_count() {
        let v = vector(i);
        let painted = v.repaint.unwrap_or(b"").len();
        if v.input == input && v.text.len() == text && painted == repaint {
            found = found.saturating_add(1);
        }
    }
    found
}

#[test]
fn texts_and_repaints_have_their_lengths(rt: HostRuntime) {
    for (i, (input, text, repaint)) in LENGTHS.iter().enumerate() {
        holds(&rt, i, found_with(input, *text, *repaint) == 1);
    }
}

/// A letter, and what it must give.
const LETTER: Vector<'static> = Vector {
    input: b"A",
    text: b"A\n\n\n\n\n\n\n\n\n\n\n\n\n\n\n\n\n\n\n\n\n\n\n\n",
    reports: b"",
    repaint: Some(
        b"\x1bc\x1b(B\x1b*<\x1b+0\x0f\x1b[1;1H\x1b[0m\x1b[0\"qA\x1b[1;2H\x1b[0m\x1b[0\"q\x1b(B\x1b)B\x1b*<\x1b+<\x0f\x1b}",
    ),
};

/// No line shown.
const EMPTY: &[u8] = b"\n\n\n\n\n\n\n\n\n\n\n\n\n\n\n\n\n\n\n\n\n\n\n\n";

const WRONG_TEXT: Vector<'static> = Vector {
    text: EMPTY,
    ..LETTER
};

const WRONG_REPORTS: Vector<'static> = Vector {
    reports: b"x",
    ..LETTER
};

const NO_REPAINT: Vector<'static> = Vector {
    repaint: None,
    ..LETTER
};

const TWO_WRONG: Vector<'static> = Vector {
    repaint: None,
    ..WRONG_REPORTS
};

const ALL_WRONG: Vector<'static> = Vector {
    text: EMPTY,
    ..TWO_WRONG
};

/// An input that ends inside a sequence.
const HELD: Vector<'static> = Vector {
    input: b"\x1b[1",
    text: EMPTY,
    repaint: None,
    ..LETTER
};

const HELD_WITH_REPAINT: Vector<'static> = Vector {
    repaint: Some(b"\x1bc"),
    ..HELD
};

const ANSWERS: &[(Vector<'static>, Result<(), Mismatch>)] = &[
    (LETTER, Ok(())),
    (WRONG_TEXT, Err(Mismatch::Text)),
    (WRONG_REPORTS, Err(Mismatch::Reports)),
    (NO_REPAINT, Err(Mismatch::Repaint)),
    (TWO_WRONG, Err(Mismatch::Reports)),
    (ALL_WRONG, Err(Mismatch::Text)),
    (HELD, Ok(())),
    (HELD_WITH_REPAINT, Err(Mismatch::Repaint)),
];

#[test]
fn the_first_difference_decides(rt: HostRuntime) {
    for (i, (v, expected)) in ANSWERS.iter().enumerate() {
        holds(&rt, i, check(rt.alloc(), v) == *expected);
    }
}

/// Returns whether a mismatch says this.
fn says(alloc: Global, mismatch: &Mismatch, message: &str) -> Result<bool, Failed> {
    let said = format!(in alloc; "{mismatch}")?;
    Ok(said.as_str() == message)
}

const MESSAGES: &[(Mismatch, &str)] = &[
    (Mismatch::Memory, "memory"),
    (Mismatch::Text, "text"),
    (Mismatch::Reports, "reports"),
    (Mismatch::Repaint, "repaint"),
];

#[test]
fn mismatches_have_messages(rt: HostRuntime) {
    for (mismatch, message) in MESSAGES {
        holds(&rt, message, says(rt.alloc(), mismatch, message));
    }
}
