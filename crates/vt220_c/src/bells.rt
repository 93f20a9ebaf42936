//! The observer that counts the bells of a feed, and which bytes ring.
ghost use Rattle.std.specs.Prelude.{◌≡◌, ◌+◌, ◌*◌, ◌≤◌, ◌<◌, ◌⊎◌, ◌∷◌, ◌++◌, [], ℕ, List, true, false, length, take, cond};
ghost use Rattle.std.specs.Prelude.{vec_len, vec_capacity};
ghost use Rattle.vt_syntax.specs.Event.{event_of, is_control};
ghost use Rattle.vt_syntax.specs.Held.{IsHeldPart};
ghost use Rattle.vt_term.specs.Play.{play};
ghost use Rattle.vt_term.specs.Scrolling.{log};
ghost use Rattle.vt_term.specs.Text.{row_text_limit};
ghost use Rattle.vt220_c.specs.Bells.{bells};
ghost use Rattle.vt220_c.specs.BellCuts.{rung_by_character};

use vt_syntax::EventKind;
use vt_syntax::laws::{controls, spelled};
use vt_term::laws::{sized_happened, sized_log_cuts};
use vt_term::{Held, Lines, Observer, SizedTerminal};

/// BEL.
const BEL: u8 = 0x07;

/// Returns how often a byte rings while this is held: once for a BEL outside a control string.
pub(crate) fn rings(held: &Held, b: u8) -> usize
    requires { IsHeldPart held.now }
    ensures bells { result ≡ bells held.now (b ∷ []) }
    ensures few { result ≤ 1 }
{
    controls();
    if b != BEL {
        return 0;
    }
    match held {
        Held::Text { .. } => 0,
        Held::Nothing | Held::Escape(_) | Held::Control { .. } | Held::Spoilt => 1,
    }
}

/// Returns how often a character rings.
pub(crate) fn rings_in_character(held: &Held, character: Option<char>) -> usize
    requires { IsHeldPart held.now }
    ensures bells { result ≡ rung_by_character held.now character }
    ensures few { result ≤ 1 }
{
    match character {
        None => 0,
        Some(c) => {
            if (c as u32) < 0x80 {
                rings(held, c as u8)
            } else {
                0
            }
        }
    }
}

/// Returns how often an event rings.
#[inline(always)]
fn rung_by(kind: EventKind) -> usize
    ensures bells { (values : List ℕ) → result ≡ cond (is_control 7 (event_of kind values)) 1 0 }
    ensures few { result ≤ 1 }
{
    match kind {
        EventKind::Print(_) => 0,
        EventKind::Control(b) => usize::from(b == BEL),
        EventKind::Escape { .. } => 0,
        EventKind::Sequence { .. } => 0,
    }
}

/// The observer that counts the bells of a feed.
#[derive(Drop)]
pub(crate) struct Bells {
    pub(crate) count: usize,
}

impl Observer for Bells {
    ghost use Rattle.std.specs.Prelude.{⊤, ◌≤◌, ◌+◌, false};
    ghost use Rattle.vt220_c.specs.BellCuts.{Rang, bells_joined};

    ghost Saw = { λ o hs p. Rang hs o.count p.count };

    ghost Takes = { λ o n. o.count + n ≤ 0xFFFFFFFFFFFFFFFF };

    ghost Lets = { λ o s event. ⊤ };

    ghost Fits = { λ o s n. ⊤ };

    ghost Stopped = { λ o. ⊥ };

    ghost Stops = { false };

    ghost joined = { bells_joined (λ o. o.count) };

    #[inline(always)]
    fn stops(&self) -> bool {
        false
    }

    #[inline(always)]
    fn lets(&self, terminal: &SizedTerminal, kind: EventKind, values: &[u16]) -> bool {
        true
    }

    #[inline(always)]
    fn event(&mut self, terminal: &SizedTerminal, bytes: &[u8], kind: EventKind, values: &[u16]) {
        sized_happened();
        self.count += rung_by(kind);
    }

    #[inline(always)]
    fn limit(&self, terminal: &SizedTerminal) -> usize {
        usize::MAX
    }

    #[inline(always)]
    fn run(&mut self, terminal: &SizedTerminal, bytes: &[u8]) {
        sized_happened();
        spelled();
    }

    #[inline(always)]
    fn part(&mut self, bytes: &[u8]) {
        sized_happened();
    }
}

/// Returns the bells if they are counted, otherwise 0.
#[inline(always)]
pub(crate) fn counted(bells: usize, counts: bool) -> usize
    ensures none { counts ≡ false → result ≡ 0 }
    ensures all { counts ≡ true → result ≡ bells }
    ensures few { result ≤ bells }
{
    if counts { bells } else { 0 }
}

/// The number of bytes that were played, and of the bells in them.
#[derive(Drop)]
pub(crate) struct Rung {
    pub(crate) taken: usize,
    pub(crate) bells: usize,
}

/// Plays bytes, and returns how often the bell rings. Appends the reports to `out`, which has capacity for ten more bytes for each
/// byte. Speed: as the only place with this feed, it has the whole dispatcher inline.
#[inline(never)]
pub(crate) fn feed_counting(terminal: &mut SizedTerminal, piece: &[u8], out: &mut Vec<u8>) -> usize
    requires { vec_len out.old + 10 * length piece.now ≤ vec_capacity out.old }
    ensures state { terminal.new ≡ (play terminal.old piece.now).state }
    ensures reports { out.new.items ≡ out.old.items ++ (play terminal.old piece.now).reports }
    ensures bells { result ≡ bells terminal.old.held piece.now }
    ensures few { result ≤ length piece.now }
    ensures bounded { vec_len out.new ≤ vec_len out.old + 10 * length piece.now }
    ensures capacity { vec_capacity out.old ≤ vec_capacity out.new }
{
    terminal.soundness();
    sized_happened();
    let mut bells = Bells { count: 0 };
    terminal.feed_observed(piece, &mut bells, out);
    bells.count
}

/// Plays the front of bytes, and appends the reports to `reports` and at most `most` bytes of the lines that scroll off to
/// `lines`. If it stops early, `lines` has fewer than `row_text_limit` bytes free, or fewer of `most` are left. `reports` has
/// capacity for ten more bytes for each byte. Speed: as the only place with this feed, it has the whole dispatcher inline.
#[inline(never)]
#[tactic(auto, unfolding(vt_term::specs::Scrolling::log))]
pub(crate) fn feed_log_counting(
    terminal: &mut SizedTerminal,
    piece: &[u8],
    reports: &mut Vec<u8>,
    lines: &mut Vec<u8>,
    most: usize,
) -> Rung
    requires { vec_len reports.old + 10 * length piece.now ≤ vec_capacity reports.old }
    ensures within { result.taken ≤ length piece.now }
    ensures all { result.taken < length piece.now
        → (vec_capacity lines.new < vec_len lines.new + row_text_limit terminal.old.display.grid.size)
        ⊎ (vec_len lines.old + most < vec_len lines.new + row_text_limit terminal.old.display.grid.size) }
    ensures state { terminal.new ≡ (play terminal.old (take result.taken piece.now)).state }
    ensures reports { reports.new.items
        ≡ reports.old.items ++ (play terminal.old (take result.taken piece.now)).reports }
    ensures lines { lines.new.items ≡ lines.old.items ++ log terminal.old (take result.taken piece.now) }
    ensures bells { result.bells ≡ bells terminal.old.held (take result.taken piece.now) }
    ensures few_bells { result.bells ≤ result.taken }
    ensures reports_bounded { vec_len reports.new ≤ vec_len reports.old + 10 * result.taken }
    ensures no_lines { result.taken ≡ 0 → vec_len lines.new ≡ vec_len lines.old }
    ensures lines_fit { vec_len lines.new ≤ vec_len lines.old + most }
    ensures reports_capacity { vec_capacity reports.old ≤ vec_capacity reports.new }
    ensures lines_capacity { vec_capacity lines.old ≤ vec_capacity lines.new }
{
    terminal.soundness();
    sized_happened();
    sized_log_cuts();
    let end = lines.len().saturating_add(most);
    let limit = terminal.row_text_limit();
    let mut log = Lines {
        lines,
        limit,
        end,
        beside: Bells { count: 0 },
    };
    let taken = terminal.feed_observed(piece, &mut log, reports);
    Rung {
        taken,
        bells: log.beside.count,
    }
}
