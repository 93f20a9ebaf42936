//! The observers that find the functions of a front: a feed stops before each event that isn't a VT220's, or before those that set
//! DECLRMM.
ghost use Rattle.std.specs.Prelude.{◌≡◌, ◌==◌, false, true, Some, None};
ghost use Rattle.std.specs.List.{list_any};
ghost use Rattle.std.specs.Bool.{OnFalse};
ghost use Rattle.vt_syntax.specs.Event.{event_of};
ghost use Rattle.vt_syntax.specs.declared.event.Event.TheVariants.{Escape, Sequence};
ghost use Rattle.vt_xterm.specs.Front.{sets_sides};
ghost use Rattle.vt_xterm.specs.Private.Finding.{IsVt220};

use crate::attributes::has_colour;
use crate::tabs::HT;
use vt_syntax::EventKind;
use vt_syntax::laws::spelled;
use vt_term::laws::sized_happened;
use vt_term::{Observer, SizedTerminal};

/// Returns whether a control sequence without marker and intermediate isn't a VT220's.
#[inline(always)]
#[tactic(auto, unfolding(crate::specs::Front::functions_of, crate::specs::Front::function_in, crate::specs::Log::function_off))]
pub(crate) fn is_own_plain(values: &[u16], last: u8) -> bool
    ensures { OnFalse result (IsVt220 (Sequence None (record { items = values.now }) None last)) }
{
    match last {
        b'm' => has_colour(values),
        b'E' => true,
        b'F' => true,
        b'G' => true,
        b'I' => true,
        b'L' => true,
        b'M' => true,
        b'Z' => true,
        b'S' => true,
        b'T' => true,
        b'^' => true,
        b'b' => true,
        b's' => true,
        b'u' => true,
        b'`' => true,
        b'a' => true,
        b'd' => true,
        b'e' => true,
        _ => false,
    }
}

/// Returns whether a control sequence isn't a VT220's.
#[inline(always)]
#[tactic(auto, unfolding(crate::specs::Front::functions_of, crate::specs::Front::function_in, crate::specs::Log::function_off))]
fn is_own_sequence(marker: Option<u8>, values: &[u16], inter: Option<u8>, last: u8) -> bool
    ensures { OnFalse result (IsVt220 (Sequence marker (record { items = values.now }) inter last)) }
{
    match (marker, inter) {
        (None, None) => is_own_plain(values, last),
        (Some(b'?'), None) => last == b'h' || last == b'l',
        (None, Some(b'!')) => last == b'p',
        (None, Some(b'"')) => last == b'p',
        _ => false,
    }
}

/// Returns whether an event isn't a VT220's.
#[inline(always)]
#[tactic(auto, unfolding(crate::specs::Front::function_in))]
pub(crate) fn is_own(kind: EventKind, values: &[u16]) -> bool
    ensures { OnFalse result (IsVt220 (event_of kind values.now)) }
{
    match kind {
        EventKind::Print(_) => false,
        EventKind::Control(b) => b == HT,
        EventKind::Escape { inter: None, last } => last == b'c' || last == b'8',
        EventKind::Escape {
            inter: Some(inter),
            last,
        } => inter == b'#' && last == b'8',
        EventKind::Sequence {
            marker,
            inter,
            last,
        } => is_own_sequence(marker, values, inter, last),
    }
}

/// The observer that stops a feed before each event that isn't a VT220's.
#[derive(Drop)]
pub(crate) struct Finder;

impl Observer for Finder {
    ghost use Rattle.std.specs.Prelude.{⊤, true};
    ghost use Rattle.vt_xterm.specs.Private.Finding.{IsVt220, FindsNone, finder_joined};

    ghost Saw = { λ o hs p. FindsNone hs };

    ghost Takes = { λ o n. ⊤ };

    ghost Lets = { λ o s event. IsVt220 event };

    ghost Fits = { λ o s n. ⊤ };

    ghost Stopped = { λ o. ⊤ };

    ghost Stops = { true };

    ghost joined = { finder_joined };

    #[inline(always)]
    fn stops(&self) -> bool {
        true
    }

    #[inline(always)]
    fn lets(&self, terminal: &SizedTerminal, kind: EventKind, values: &[u16]) -> bool {
        !is_own(kind, values)
    }

    #[inline(always)]
    fn event(&mut self, terminal: &SizedTerminal, bytes: &[u8], kind: EventKind, values: &[u16]) {
        sized_happened();
    }

    #[inline(always)]
    fn limit(&self, terminal: &SizedTerminal) -> usize {
        usize::MAX
    }

    #[inline(always)]
    fn run(&mut self, terminal: &SizedTerminal, bytes: &[u8]) {
        sized_happened();
        spelled();
    }

    #[inline(always)]
    fn part(&mut self, bytes: &[u8]) {
        sized_happened();
    }
}

/// Returns whether a control sequence sets DECLRMM: ?69h, among other modes or not.
fn sets_sides(marker: u8, values: &[u16], last: u8) -> bool
    ensures { result ≡ sets_sides marker last values.now }
{
    marker == b'?' && (last == b'h' && has_side_mode(values))
}

/// Returns whether one of the values is the number of DECLRMM.
fn has_side_mode(values: &[u16]) -> bool
    ensures { result ≡ list_any (λ p. p == 69) values.now }
{
    values.iter().any(|p| *p == 69)
}

/// The observer that stops a feed before an event that sets DECLRMM. After such an event, left and right margins may
/// bound what functions do.
#[derive(Drop)]
pub(crate) struct Setter;

impl Observer for Setter {
    ghost use Rattle.std.specs.Prelude.{⊤, true};
    ghost use Rattle.vt_xterm.specs.Private.Finding.{KeepsNone, SetsNone, setter_joined};

    ghost Saw = { λ o hs p. SetsNone hs };

    ghost Takes = { λ o n. ⊤ };

    ghost Lets = { λ o s event. KeepsNone event };

    ghost Fits = { λ o s n. ⊤ };

    ghost Stopped = { λ o. ⊤ };

    ghost Stops = { true };

    ghost joined = { setter_joined };

    #[inline(always)]
    fn stops(&self) -> bool {
        true
    }

    #[inline(always)]
    fn lets(&self, terminal: &SizedTerminal, kind: EventKind, values: &[u16]) -> bool {
        match kind {
            EventKind::Print(_) => true,
            EventKind::Control(_) => true,
            EventKind::Escape { .. } => true,
            EventKind::Sequence { marker: None, .. } => true,
            EventKind::Sequence {
                marker: Some(_),
                inter: Some(_),
                ..
            } => true,
            EventKind::Sequence {
                marker: Some(marker),
                inter: None,
                last,
            } => !sets_sides(marker, values, last),
        }
    }

    #[inline(always)]
    fn event(&mut self, terminal: &SizedTerminal, bytes: &[u8], kind: EventKind, values: &[u16]) {
        sized_happened();
    }

    #[inline(always)]
    fn limit(&self, terminal: &SizedTerminal) -> usize {
        usize::MAX
    }

    #[inline(always)]
    fn run(&mut self, terminal: &SizedTerminal, bytes: &[u8]) {
        sized_happened();
        spelled();
    }

    #[inline(always)]
    fn part(&mut self, bytes: &[u8]) {
        sized_happened();
    }
}
