//! The output of a log, on a screen that changes its size.
ghost use Rattle.std.specs.Prelude.{◌≡◌, ◌+◌, ◌*◌, ◌/◌, ◌≤◌, ◌++◌, ◌∷◌, [], ℕ, List, true, false, length, drop, vec_len, vec_capacity, nat_lt, All, IfOk};
ghost use Rattle.vt_screen.specs.Sizes.{IsSize};
ghost use Rattle.vt_term.specs.Play.{Played};
ghost use Rattle.vt_term.specs.Text.{text};
ghost use Rattle.vt_replay.specs.Log.{lines_on};
ghost use Rattle.vt_replay.specs.Resizes.{played_on, due, is_settled, is_before, coming};
ghost use Rattle.vt_replay.specs.declared.resized.Later.{Later};

use crate::log_player::{LogPlayer, lines_fit};
use crate::output::front_for;
use crate::player::Player;
use crate::resized::{Later, Resize, bytes_before, is_now, later_for};
use std::alloc::{AllocError, Global};
use std::collections::VecDeque;
use std::mem;
use vt_device::Output;
use vt_term::{REPORT_LIMIT, Size};

/// The capacity for the lines that leave at the changes after a byte, and for the text: that of the largest screen.
const TEXT_ROOM: usize = 195330;

/// Carries out the next change, and appends the lines that leave at the top.
fn change_log<P: LogPlayer>(player: &mut P, later: &mut VecDeque<Later<P>>, lines: &mut Vec<u8>)
    requires { vec_len lines.old + 766 * P.line player.old ≤ vec_capacity lines.old + 766 }
    ensures kept { (next : Later P) (rest : List (Later P)) → later.old.items ≡ next ∷ rest
        → P.kept player.new ≡ P.session.on (P.screen next.target) (P.kept player.old) }
    ensures lines { (next : Later P) (rest : List (Later P)) → later.old.items ≡ next ∷ rest
        → lines.new.items ≡ lines.old.items ++ P.session.off (P.screen next.target) (P.kept player.old) }
    ensures rest { later.new.items ≡ drop 1 later.old.items }
    ensures bounded { vec_len lines.new + 766 * P.line player.new ≤ vec_len lines.old + 766 * P.line player.old }
    ensures capacity { vec_capacity lines.old ≤ vec_capacity lines.new }
{
    if let Some(mut next) = later.pop_front() {
        player.resize_log_into(&mut next.target, lines);
        mem::swap(player, &mut next.target);
    }
}

/// Carries out the changes that come before the next byte, and appends the lines that leave at the top. If one is to
/// come, `lines` has capacity for a line for each row above the cursor.
fn settle_log<P: LogPlayer>(
    player: &mut P,
    left: &mut usize,
    later: &mut VecDeque<Later<P>>,
    lines: &mut Vec<u8>,
)
    requires { is_settled left.old later.old.items ≡ false → vec_len lines.old + 766 * P.line player.old ≤ vec_capacity lines.old + 766 }
    ensures on { (bytes : List ℕ)
        → played_on P.session (P.kept player.old) (due left.old (coming later.old.items (λ l. l.after) (λ l. P.screen l.target))) bytes
        ≡ played_on P.session (P.kept player.new) (due left.new (coming later.new.items (λ l. l.after) (λ l. P.screen l.target))) bytes }
    ensures lines { (bytes : List ℕ)
        → lines.old.items ++ lines_on P.session (P.kept player.old) (due left.old (coming later.old.items (λ l. l.after) (λ l. P.screen l.target))) bytes
        ≡ lines.new.items ++ lines_on P.session (P.kept player.new) (due left.new (coming later.new.items (λ l. l.after) (λ l. P.screen l.target))) bytes }
    ensures settled { is_settled left.new later.new.items ≡ true }
    ensures bounded { vec_len lines.new + 766 * P.line player.new ≤ vec_len lines.old + 766 * P.line player.old }
    ensures capacity { vec_capacity lines.old ≤ vec_capacity lines.new }
{
    while is_now(*left, later) {
        let _ = player.sized();
        player.rows();
        change_log(player, later, lines);
        *left = bytes_before(later);
    }
}

/// Returns how many of so many bytes are taken at once: those before the byte that a change follows, or that byte.
pub(crate) fn front_before<P: Player>(
    later: &VecDeque<Later<P>>,
    left: usize,
    count: usize,
) -> usize
    ensures within { result ≤ count }
    ensures some { 1 ≤ count → 1 ≤ result }
    ensures one { nat_lt 0 (length later.now.items) ≡ true → left ≤ result → result ≤ 1 }
    ensures before { is_settled left later.now.items ≡ true → is_before result left later.now.items ≡ true }
{
    match later.front() {
        Some(_) => count.min(left.saturating_sub(1).max(1)),
        None => count,
    }
}

/// The lines that scroll off as a host's bytes come, and the screen at their end.
#[derive(Drop)]
pub(crate) struct LogOutput<P: Drop> {
    player: P,
    /// The number of bytes before the next change, if one is to come.
    left: usize,
    later: VecDeque<Later<P>>,
    /// The reports of a chunk, which are dropped.
    reports: Vec<u8>,
    ghost settled: { is_settled left later.items ≡ true },
}

impl<P: LogPlayer> LogOutput<P> {
    /// Returns the output of a new terminal whose screen has these changes, after those that come before the first
    /// byte, with memory for the reports of chunks of so many bytes. `Err` means that allocation failed.
    pub(crate) fn new_with(
        alloc: Global,
        size: Size,
        resizes: &[Resize],
        piece: usize,
    ) -> Result<LogOutput<P>, AllocError>
        requires piece_in_range { (1 ≤ piece) × (piece ≤ 65536) }
        requires size_in_range { IsSize size }
        requires sizes_in_range { All (λ r. IsSize r.size) resizes.now }
        ensures lines { IfOk result (λ o. ◌≡◌ {A = List ℕ → List ℕ} (λ bytes. lines_on P.session (P.kept o.player)
            (due o.left (coming o.later.items (λ l. l.after) (λ l. P.screen l.target))) bytes)
            (λ bytes. lines_on P.session (P.begun size) resizes.now bytes)) }
        ensures played { IfOk result (λ o. ◌≡◌ {A = List ℕ → Played} (λ bytes. played_on P.session (P.kept o.player)
            (due o.left (coming o.later.items (λ l. l.after) (λ l. P.screen l.target))) bytes)
            (λ bytes. played_on P.session (P.begun size) resizes.now bytes)) }
        ensures none { IfOk result (λ o. lines_on P.session (P.kept o.player)
            (due o.left (coming o.later.items (λ l. l.after) (λ l. P.screen l.target))) [] ≡ []) }
        ensures takes { IfOk result (λ o. 1 ≤ vec_capacity o.reports / 10) }
    {
        let mut player = P::new(alloc, size)?;
        let mut later = later_for(alloc, resizes)?;
        let mut left = bytes_before(&later);
        let mut reports = Vec::with_capacity(alloc, REPORT_LIMIT * piece)?;
        player.rows();
        settle_log(&mut player, &mut left, &mut later, &mut reports);
        player.rows();
        Ok(LogOutput {
            player,
            left,
            later,
            reports,
        })
    }
}

impl<P: LogPlayer> Output for LogOutput<P> {
    ghost written = { λ o bytes. lines_on P.session (P.kept o.player)
        (due o.left (coming o.later.items (λ l. l.after) (λ l. P.screen l.target))) bytes };

    ghost ending = { λ o bytes. text (played_on P.session (P.kept o.player)
        (due o.left (coming o.later.items (λ l. l.after) (λ l. P.screen l.target))) bytes).state };

    ghost there = { λ o bytes. true };

    ghost most = { λ o. vec_capacity o.reports / 10 };

    ghost counted = { λ o. 0 };

    ghost reserve = { λ o. P.room + 195330 };

    fn capacity(&self) -> usize {
        self.player.capacity() + TEXT_ROOM
    }

    fn feed(&mut self, chunk: &[u8], out: &mut Vec<u8>) -> usize {
        self.reports.clear();
        let count = front_before(&self.later, self.left, front_for(chunk, &self.reports));
        let taken = self
            .player
            .feed_log(&chunk[..count], &mut self.reports, out);
        self.left = self.left.saturating_sub(taken);
        self.player.rows();
        settle_log(&mut self.player, &mut self.left, &mut self.later, out);
        let _ = self.player.sized();
        self.player.rows();
        taken
    }

    fn is_there(&self) -> bool {
        true
    }

    fn end(&mut self, out: &mut Vec<u8>) {
        let terminal = self.player.sized();
        lines_fit(terminal);
        terminal.text_reserved(out);
    }
}
