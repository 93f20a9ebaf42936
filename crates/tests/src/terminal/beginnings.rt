//! Every beginning of every vector: it has a repaint exactly between sequences, and that rebuilds its state on a
//! terminal that holds whatever it may.
ghost use Rattle.std.specs.Prelude.{◌<◌};

use super::common::{Failed, Played};
use crate::rows::holds;
use std::alloc::Global;
use vt_paint::{PaintError, repaint};
use vt_term::Terminal;
use vt_vectors::{held_sample, held_sample_count, vector, vector_count};

/// Returns whether a repaint, in chunks of 1 to 14 bytes, leaves this state on a terminal that holds this sample. It
/// must ask for no report.
fn is_rebuilt(alloc: Global, i: usize, bytes: &[u8], due: &Terminal) -> Result<bool, Failed>
    requires { i < 14 }
{
    let mut used = Played::of(alloc, &[held_sample(i)])?;
    used.feed_by(i + 1, bytes)?;
    Ok(used.terminal.same_state(due) && used.reports.is_empty())
}

/// Returns whether that is so for each of the samples.
fn rebuilds(alloc: Global, bytes: &[u8], due: &Terminal) -> Result<bool, Failed> {
    for i in 0..held_sample_count() {
        if !is_rebuilt(alloc, i, bytes, due)? {
            return Ok(false);
        }
    }
    Ok(true)
}

/// Returns whether a beginning's repaint is what it must be.
fn is_painted(alloc: Global, front: &[u8]) -> Result<bool, Failed> {
    let played = Played::of(alloc, &[front])?;
    let mut bytes = Vec::new(alloc);
    let answer = repaint(&played.terminal, &mut bytes);
    if played.terminal.is_between() {
        Ok(answer == Ok(()) && rebuilds(alloc, &bytes, &played.terminal)?)
    } else {
        Ok(answer == Err(PaintError::Partial) && bytes.is_empty())
    }
}

#[test]
fn beginnings_are_rebuilt_between_sequences(rt: HostRuntime) {
    for i in 0..vector_count() {
        let input = vector(i).input;
        for end in 0..input.len() + 1 {
            holds(&rt, i, is_painted(rt.alloc(), &input[..end]));
        }
    }
}
