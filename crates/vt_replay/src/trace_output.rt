//! The output of a trace, on a screen that changes its size.
ghost use Rattle.std.specs.Prelude.{◌≡◌, ◌+◌, ◌*◌, ◌/◌, ◌≤◌, ◌++◌, ◌∷◌, ℕ, List, true, false, length, drop, vec_len, vec_capacity, All, IfOk};
ghost use Rattle.vt_screen.specs.Sizes.{IsSize};
ghost use Rattle.vt_trace.specs.Trace.{tracer_at_start, size_lines, tracer_resized};
ghost use Rattle.vt_replay.specs.Log.{lines_on};
ghost use Rattle.vt_replay.specs.Resizes.{kept_on, due, is_settled, coming};
ghost use Rattle.vt_replay.specs.Traces.{traced, traced_on, traced_end_on};
ghost use Rattle.vt_replay.specs.declared.resized.Later.{Later};

use crate::log_output::front_before;
use crate::output::front_for;
use crate::resized::{Later, Resize, bytes_before, is_now, later_for};
use crate::trace_player::TracePlayer;
use std::alloc::{AllocError, Global};
use std::collections::VecDeque;
use std::mem;
use vt_device::Output;
use vt_term::{REPORT_LIMIT, Size};
use vt_trace::{RESIZE_LIMIT, TRACE_LIMIT, Tracer, trace_end, trace_resize};

/// The most changes for whose lines there is memory.
const MOST_LINES: usize = 1_000_000;

/// Carries out the next change, and appends its line.
fn change_trace<P: TracePlayer>(
    player: &mut P,
    tracer: &mut Tracer,
    later: &mut VecDeque<Later<P>>,
    out: &mut Vec<u8>,
)
    requires { vec_len out.old + 80 ≤ vec_capacity out.old }
    ensures kept { (next : Later P) (rest : List (Later P)) → later.old.items ≡ next ∷ rest
        → P.kept player.new ≡ P.session.on (P.screen next.target) (P.kept player.old) }
    ensures lines { (next : Later P) (rest : List (Later P)) → later.old.items ≡ next ∷ rest
        → out.new.items ≡ out.old.items ++ size_lines tracer.old (P.screen next.target) }
    ensures tracer { (next : Later P) (rest : List (Later P)) → later.old.items ≡ next ∷ rest
        → tracer.new ≡ tracer_resized tracer.old }
    ensures rest { later.new.items ≡ drop 1 later.old.items }
    ensures place { tracer.new.place ≡ tracer.old.place }
    ensures bounded { vec_len out.new ≤ vec_len out.old + 80 }
    ensures capacity { vec_capacity out.old ≤ vec_capacity out.new }
{
    if let Some(mut next) = later.pop_front() {
        let size = next.target.sized().size();
        trace_resize(tracer, size, out);
        player.resize_into(&mut next.target);
        mem::swap(player, &mut next.target);
    }
}

/// Carries out the changes that come before the next byte, and appends their lines. If one is to come, `out` has capacity for
/// the lines of all changes.
fn settle_trace<P: TracePlayer>(
    player: &mut P,
    tracer: &mut Tracer,
    left: &mut usize,
    later: &mut VecDeque<Later<P>>,
    out: &mut Vec<u8>,
)
    requires { is_settled left.old later.old.items ≡ false → vec_len out.old + 80 * length later.old.items ≤ vec_capacity out.old }
    ensures kept { (bytes : List ℕ)
        → kept_on (traced P.session) (record { kept = P.kept player.old; tracer = tracer.old }) (due left.old (coming later.old.items (λ l. l.after) (λ l. P.screen l.target))) bytes
        ≡ kept_on (traced P.session) (record { kept = P.kept player.new; tracer = tracer.new }) (due left.new (coming later.new.items (λ l. l.after) (λ l. P.screen l.target))) bytes }
    ensures lines { (bytes : List ℕ)
        → out.old.items ++ lines_on (traced P.session) (record { kept = P.kept player.old; tracer = tracer.old }) (due left.old (coming later.old.items (λ l. l.after) (λ l. P.screen l.target))) bytes
        ≡ out.new.items ++ lines_on (traced P.session) (record { kept = P.kept player.new; tracer = tracer.new }) (due left.new (coming later.new.items (λ l. l.after) (λ l. P.screen l.target))) bytes }
    ensures settled { is_settled left.new later.new.items ≡ true }
    ensures place { tracer.new.place ≡ tracer.old.place }
    ensures fewer { length later.new.items ≤ length later.old.items }
    ensures bounded { vec_len out.new + 80 * length later.new.items ≤ vec_len out.old + 80 * length later.old.items }
    ensures capacity { vec_capacity out.old ≤ vec_capacity out.new }
{
    while is_now(*left, later) {
        let _ = player.sized();
        player.no_trace();
        change_trace(player, tracer, later, out);
        *left = bytes_before(later);
    }
}

/// Returns the capacity for the lines of so many changes. `Err` means that there is no memory for them.
fn room_for(changes: usize) -> Result<usize, AllocError>
    ensures room { IfOk result (λ room. room ≡ 80 * changes) }
    ensures most { IfOk result (λ room. room ≤ 80000000) }
{
    if changes > MOST_LINES {
        return Err(AllocError);
    }
    Ok(RESIZE_LIMIT * changes)
}

/// The trace of a host's bytes as they come, with a line for each change of the size.
#[derive(Drop)]
pub(crate) struct TraceOutput<P: Drop> {
    player: P,
    tracer: Tracer,
    /// The number of bytes before the next change, if one is to come.
    left: usize,
    later: VecDeque<Later<P>>,
    /// The reports of a chunk, which are dropped: the trace has them.
    reports: Vec<u8>,
    /// The capacity for the lines of the changes.
    room: usize,
    ghost fits: { 80 * length later.items ≤ room },
    ghost most: { room ≤ 80000000 },
}

impl<P: TracePlayer> TraceOutput<P> {
    /// Returns the output of a new terminal whose screen has these changes, with memory for the reports of chunks of so many
    /// bytes. `Err` means that allocation failed.
    pub(crate) fn new(
        alloc: Global,
        size: Size,
        resizes: &[Resize],
        piece: usize,
    ) -> Result<TraceOutput<P>, AllocError>
        requires piece_in_range { (1 ≤ piece) × (piece ≤ 65536) }
        requires size_in_range { IsSize size }
        requires sizes_in_range { All (λ r. IsSize r.size) resizes.now }
        ensures kept { IfOk result (λ o. P.kept o.player ≡ P.begun size) }
        ensures tracer { IfOk result (λ o. o.tracer ≡ tracer_at_start) }
        ensures changes { IfOk result (λ o. due o.left (coming o.later.items (λ l. l.after) (λ l. P.screen l.target)) ≡ resizes.now) }
        ensures takes { IfOk result (λ o. 1 ≤ vec_capacity o.reports / 10) }
    {
        let player = P::new(alloc, size)?;
        let later = later_for(alloc, resizes)?;
        let left = bytes_before(&later);
        let room = room_for(later.len())?;
        let reports = Vec::with_capacity(alloc, REPORT_LIMIT * piece)?;
        Ok(TraceOutput {
            player,
            tracer: Tracer::new(),
            left,
            later,
            reports,
            room,
        })
    }
}

impl<P: TracePlayer> Output for TraceOutput<P> {
    ghost written = { λ o bytes. traced_on P.session (record { kept = P.kept o.player; tracer = o.tracer })
        (due o.left (coming o.later.items (λ l. l.after) (λ l. P.screen l.target))) bytes };

    ghost ending = { λ o bytes. traced_end_on P.session (record { kept = P.kept o.player; tracer = o.tracer })
        (due o.left (coming o.later.items (λ l. l.after) (λ l. P.screen l.target))) bytes };

    ghost there = { λ o bytes. true };

    ghost most = { λ o. vec_capacity o.reports / 10 };

    ghost counted = { λ o. o.tracer.place };

    ghost reserve = { λ o. 430080 + o.room };

    fn capacity(&self) -> usize {
        1024 * TRACE_LIMIT + self.room
    }

    fn feed(&mut self, chunk: &[u8], out: &mut Vec<u8>) -> usize {
        settle_trace(
            &mut self.player,
            &mut self.tracer,
            &mut self.left,
            &mut self.later,
            out,
        );
        self.reports.clear();
        let count = front_before(&self.later, self.left, front_for(chunk, &self.reports));
        let taken = self
            .player
            .feed_trace(&mut self.tracer, &chunk[..count], &mut self.reports, out);
        self.left = self.left.saturating_sub(taken);
        settle_trace(
            &mut self.player,
            &mut self.tracer,
            &mut self.left,
            &mut self.later,
            out,
        );
        let _ = self.player.sized();
        self.player.no_trace();
        taken
    }

    fn is_there(&self) -> bool {
        true
    }

    fn end(&mut self, out: &mut Vec<u8>) {
        settle_trace(
            &mut self.player,
            &mut self.tracer,
            &mut self.left,
            &mut self.later,
            out,
        );
        let _ = self.player.sized();
        self.player.no_trace();
        trace_end(&self.tracer, out)
    }
}
