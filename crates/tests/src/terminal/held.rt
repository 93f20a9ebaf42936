//! Tests what a terminal and a parser hold after each of the inputs that end inside a sequence.
use super::common::{Failed, Played};
use crate::rows::holds;
use std::alloc::{AllocError, Global};
use vt_syntax::Parser;
use vt_vectors::{held_sample, held_sample_count};

const HELD: [&str; 14] = [
    "Escape(Zero)",
    "Escape(One(40))",
    "Escape(Many)",
    "Control { marker: None, params: [0], full: false, phase: Start }",
    "Control { marker: Some(63), params: [0], full: false, phase: Values }",
    "Control { marker: None, params: [0, 0], full: false, phase: Values }",
    "Control { marker: None, params: [1], full: false, phase: Inter(32) }",
    "Spoilt",
    "Spoilt",
    "Control { marker: None, params: [0, 0, 0, 0, 0, 0, 0, 0, 0, 0, 0, 0, 0, 0, 0, 0], full: false, phase: Values }",
    "Control { marker: None, params: [0, 0, 0, 0, 0, 0, 0, 0, 0, 0, 0, 0, 0, 0, 0, 0], full: true, phase: Values }",
    "Text { osc: false }",
    "Text { osc: true }",
    "Escape(Zero)",
];

/// Returns whether an input is held so, and asks for no report.
fn is_held(alloc: Global, input: &[u8], expected: &str) -> Result<bool, Failed> {
    let played = Played::of(alloc, &[input])?;
    let held = format!(in alloc; "{:?}", played.terminal.held())?;
    let is_between = played.terminal.is_between();
    Ok(
        held.as_str() == expected
            && is_between == (expected == "Nothing")
            && played.reports.is_empty(),
    )
}

/// Returns whether a new parser holds this after an input.
fn is_held_by_a_parser(alloc: Global, input: &[u8], expected: &str) -> Result<bool, AllocError> {
    let mut parser = Parser::new();
    for b in input {
        let _ = parser.push(*b);
    }
    let held = format!(in alloc; "{:?}", parser.held())?;
    Ok(held.as_str() == expected)
}

#[test]
fn samples_leave_their_held_parts(rt: HostRuntime) {
    assert!(rt; held_sample_count() == HELD.len());
    for i in 0..held_sample_count() {
        let sample = held_sample(i);
        holds(&rt, i, is_held(rt.alloc(), sample, HELD[i]));
        holds(&rt, i, is_held_by_a_parser(rt.alloc(), sample, HELD[i]));
    }
    holds(&rt, "nothing", is_held(rt.alloc(), b"", "Nothing"));
}
