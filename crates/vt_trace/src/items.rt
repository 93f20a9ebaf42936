//! Events that are whole items of the input.
ghost use Rattle.std.specs.Prelude.{◌≡◌, ◌≤◌, ℕ, List, All, length};
ghost use Rattle.std.specs.Bool.{OnTrue};
ghost use Rattle.vt_syntax.specs.Class.{IsPlain};
ghost use Rattle.vt_syntax.specs.Event.{event_of};
ghost use Rattle.vt_trace.specs.Runs.{IsItem, IsShown, is_graphic};

use vt_syntax::EventKind;

/// Returns whether an event at the end of these bytes is one item with them: the event is a single byte, or it is no
/// graphic byte and the bytes after the first are plain.
#[inline(always)]
pub(crate) fn is_item(kind: EventKind, item: &[u8]) -> bool
    requires { 1 ≤ length item.now }
    ensures { OnTrue result ((values : List ℕ) → IsItem item.now (event_of kind values)) }
{
    if item.len() == 1 {
        return true;
    }
    let after = &item[1..];
    !is_print(kind) && are_plain(after)
}

/// Returns whether all bytes are plain. (Speed: the bytes are few, so they are tested one by one.)
#[inline(always)]
fn are_plain(bytes: &[u8]) -> bool
    ensures { OnTrue result (All IsPlain bytes.now) }
{
    for b in bytes.iter() {
        if *b < 0x20 || *b > 0x7E {
            return false;
        }
    }
    true
}

/// Returns whether a text shows all bytes as themselves.
#[inline(always)]
pub(crate) fn are_shown(bytes: &[u8]) -> bool
    ensures { OnTrue result (All IsShown bytes.now) }
{
    for b in bytes.iter() {
        if !is_shown(*b) {
            return false;
        }
    }
    true
}

/// Returns whether a text shows a byte as itself.
#[inline(always)]
fn is_shown(b: u8) -> bool
    ensures { OnTrue result (IsShown b) }
{
    0x20 <= b && b < 0x7F && b != b'\\'
}

/// Returns whether an event is a graphic byte.
#[inline(always)]
fn is_print(kind: EventKind) -> bool
    ensures { (values : List ℕ) → result ≡ is_graphic (event_of kind values) }
{
    match kind {
        EventKind::Print(_) => true,
        EventKind::Control(_) => false,
        EventKind::Escape { .. } => false,
        EventKind::Sequence { .. } => false,
    }
}
