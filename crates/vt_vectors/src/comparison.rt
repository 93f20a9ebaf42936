//! The comparison of the terminal with a vector.
ghost use Rattle.std.specs.Prelude.{◌≡◌, ◌↔◌, ◌≤◌, ◌+◌, ◌*◌, ◌++◌, ℕ, List, [], IsTrue, IsErrOf, IfOk, length, vec_len};
ghost use Rattle.std.specs.Prelude.{vec_capacity};
ghost use Rattle.std.specs.Option.{option_copied};
ghost use Rattle.vt_term.specs.Text.{text};
ghost use Rattle.vt_vectors.specs.Outcome.{outcome_of, outcome_after, repaint_of};
ghost use Rattle.vt_vectors.specs.Comparison.{Compares, expected_of};

use crate::expectation::Vector;
use crate::mismatch::Mismatch;
use std::alloc::{AllocError, Global};
use vt_paint::laws::rebuilds;
use vt_paint::{PAINT_LIMIT, repaint_reserved};
use vt_term::laws::{cuts, soundness};
use vt_term::{REPORT_LIMIT, Terminal};

/// Compares the terminal with a vector. It plays the vector's input from power-up whole, byte by byte, and in every cut
/// into two, empty parts included. After each play it compares the text, then the reports, then the repaint. The first
/// difference decides.
///
/// It allocates only before the first play.
///
/// # Errors
///
/// Returns `Memory` if allocation fails. Returns `Text`, `Reports` or `Repaint` if that one differs and those before it
/// don't.
pub fn check(alloc: Global, v: &Vector<'_>) -> Result<(), Mismatch>
    ensures { Compares result (expected_of v.now) (outcome_of v.now.input.now) }
{
    let mut bench = Bench::new(alloc, v.input.len())?;
    bench.check(v)
}

/// Returns an empty buffer with capacity for the reports of `longest` bytes. Returns `Err` if allocation fails.
fn reports_for(alloc: Global, longest: usize) -> Result<Vec<u8>, AllocError>
    ensures { IfOk result (λ reports. 10 * longest ≤ vec_capacity reports) }
{
    let room = longest.checked_mul(REPORT_LIMIT).ok_or(AllocError)?;
    Vec::with_capacity(alloc, room)
}

/// A terminal, and buffers for what it gives.
#[derive(Drop)]
struct Bench {
    terminal: Terminal,
    /// The repaint of a terminal in its power-up state, which brings any terminal there.
    power_up: Vec<u8>,
    reports: Vec<u8>,
    output: Vec<u8>,
}

impl Bench {
    ghost use Rattle.vt_vectors.specs.Bench.{IsReady, HasPlayed, IsKept};

    /// Returns a bench with capacity for plays of an input of `longest` bytes. Returns `Err` if allocation fails.
    fn new(alloc: Global, longest: usize) -> Result<Bench, AllocError>
        ensures ready { IfOk result IsReady }
        ensures room { IfOk result (λ b. 10 * longest ≤ vec_capacity b.reports) }
    {
        soundness();
        let mut power_up = Vec::with_capacity(alloc, PAINT_LIMIT)?;
        let output = Vec::with_capacity(alloc, PAINT_LIMIT)?;
        let terminal = Terminal::new(alloc)?;
        repaint_reserved(&terminal, &mut power_up);
        let reports = reports_for(alloc, longest.max(power_up.len()))?;
        Ok(Bench {
            terminal,
            power_up,
            reports,
            output,
        })
    }

    /// Plays the vector's input whole, byte by byte, and in every cut into two, and compares after each play.
    fn check(&mut self, v: &Vector<'_>) -> Result<(), Mismatch>
        requires ready { IsReady self.old }
        requires room { 10 * length v.now.input.now ≤ vec_capacity self.old.reports }
        ensures compares { Compares result (expected_of v.now) (outcome_of v.now.input.now) }
        ensures no_memory { ¬ IsErrOf result Mismatch.Memory }
    {
        self.start();
        self.feed(v.input);
        self.compare(v)?;
        self.start();
        for at in 0..v.input.len() {
            self.feed(&v.input[at..at + 1]);
        }
        self.compare(v)?;
        for cut in 0..v.input.len() + 1 {
            let (front, back) = v.input.split_at(cut);
            self.start();
            self.feed(front);
            self.feed(back);
            self.compare(v)?;
        }
        Ok(())
    }

    /// Brings the terminal to its power-up state, with no report.
    fn start(&mut self)
        requires { IsReady self.old }
        ensures ready { IsReady self.new }
        ensures played { HasPlayed [] self.new }
        ensures reports { vec_len self.new.reports ≡ 0 }
        ensures capacity { vec_capacity self.old.reports ≤ vec_capacity self.new.reports }
    {
        rebuilds();
        soundness();
        cuts();
        self.reports.clear();
        self.terminal
            .feed_reserved(&self.power_up, &mut self.reports);
    }

    /// Plays a chunk. There is capacity for its reports.
    fn feed(&mut self, piece: &[u8])
        requires ready { IsReady self.old }
        requires room { vec_len self.old.reports + 10 * length piece.now ≤ vec_capacity self.old.reports }
        ensures ready { IsReady self.new }
        ensures played { (bytes : List ℕ) → HasPlayed bytes self.old → HasPlayed (bytes ++ piece.now) self.new }
        ensures reports { vec_len self.new.reports ≤ vec_len self.old.reports + 10 * length piece.now }
        ensures capacity { vec_capacity self.old.reports ≤ vec_capacity self.new.reports }
    {
        cuts();
        soundness();
        self.terminal.feed_reserved(piece, &mut self.reports);
    }

    /// Compares the terminal's output with what the vector expects.
    fn compare(&mut self, v: &Vector<'_>) -> Result<(), Mismatch>
        requires { IsReady self.old }
        ensures kept { IsKept self.old self.new }
        ensures compares { Compares result (expected_of v.now)
            (outcome_after (record { state = self.old.terminal; reports = self.old.reports.items })) }
        ensures no_memory { ¬ IsErrOf result Mismatch.Memory }
    {
        if !self.shows(v.text) {
            return Err(Mismatch::Text);
        }
        if self.reports.as_slice() != v.reports {
            return Err(Mismatch::Reports);
        }
        if !self.repaints(v.repaint) {
            return Err(Mismatch::Repaint);
        }
        Ok(())
    }

    /// Returns whether the terminal's text is as expected.
    fn shows(&mut self, expected: &[u8]) -> bool
        requires { IsReady self.old }
        ensures kept { IsKept self.old self.new }
        ensures same { IsTrue result ↔ (expected.now ≡ text self.old.terminal) }
    {
        self.output.clear();
        self.terminal.text_reserved(&mut self.output);
        self.output.as_slice() == expected
    }

    /// Returns whether the terminal's repaint is as expected, or both are missing.
    fn repaints(&mut self, expected: Option<&[u8]>) -> bool
        requires { IsReady self.old }
        ensures kept { IsKept self.old self.new }
        ensures same { IsTrue result ↔ (option_copied expected.entry ≡ repaint_of self.old.terminal) }
    {
        if !self.terminal.is_between() {
            return expected.is_none();
        }
        let Some(expected) = expected else {
            return false;
        };
        self.output.clear();
        repaint_reserved(&self.terminal, &mut self.output);
        self.output.as_slice() == expected
    }
}
