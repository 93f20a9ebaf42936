//! The names of events, as the specification's tables have them.
ghost use Rattle.std.specs.Prelude.{◌≡◌, ◌≤◌, ◌<◌, ℕ, [], length, IfSome, option_copied, option_map};
ghost use Rattle.vt_syntax.specs.Event.{event_of};
ghost use Rattle.vt_screen.specs.Grid.{last_row};
ghost use Rattle.vt_term.specs.Functions.{designation};
ghost use Rattle.vt_term.specs.Names.{name_on, name_with, control_name, plain_escape_name, escape_with_name, print_name};
ghost use Rattle.vt_trace.specs.Lines.{Names};
ghost use Rattle.vt_trace.specs.Names.{numbered, word_of, basic_word, sequence_word, slot_begins};

use crate::functions::Basic::{self, *};
use crate::functions::Slot::{self, *};
use crate::functions::{ControlFunction, FUNCTIONS, Sequence, word_at};
use crate::sequences::sequence;
use vt_glyph::Set;
use vt_syntax::EventKind;

/// The names of events.
pub trait Naming {
    /// The names of events on a screen of so many rows. An event without a name is ignored.
    ghost names: { Names };

    /// Returns the name of an event on a screen of so many rows, and `None` if it is ignored. `values` are those of a control
    /// sequence.
    fn name_of(&self, rows: usize, kind: EventKind, values: &[u16]) -> Option<&'static str>
        ensures word { option_copied result ≡ names rows (event_of kind values.now) }
        ensures short { IfSome result (λ word. length word.now ≤ 23) };
}

/// The names of a VT220's functions.
#[derive(Drop)]
pub struct Vt220Names;

impl Naming for Vt220Names {
    ghost use Rattle.vt_term.specs.Names.{name_on};

    ghost names = { name_on };

    #[inline(always)]
    fn name_of(&self, rows: usize, kind: EventKind, values: &[u16]) -> Option<&'static str> {
        match index(rows, kind, values) {
            Some(index) => Some(word_at(index)),
            None => None,
        }
    }
}

/// Returns the index of an event's control function on a screen of so many rows, and `None` if the event is ignored.
#[inline(always)]
fn index(rows: usize, kind: EventKind, values: &[u16]) -> Option<usize>
    ensures word { option_map numbered result ≡ name_on rows (event_of kind values.now) }
    ensures within { IfSome result (λ index. index < FUNCTIONS) }
{
    match kind {
        EventKind::Print(b) => index_of(basic(print(b))),
        EventKind::Control(b) => index_of(basic(control(b))),
        EventKind::Escape { inter: None, last } => index_of(basic(plain_escape(last))),
        EventKind::Escape {
            inter: Some(inter),
            last,
        } => index_of(escape(inter, last)),
        EventKind::Sequence {
            marker,
            inter,
            last,
        } => index_of(of_sequence(sequence(rows, marker, values, inter, last))),
    }
}

/// Returns the index of a function, if there is one.
#[inline(always)]
fn index_of(f: Option<ControlFunction>) -> Option<usize>
    ensures word { option_map numbered result ≡ option_map word_of f }
    ensures within { IfSome result (λ index. index < FUNCTIONS) }
{
    match f {
        Some(f) => Some(f.index()),
        None => None,
    }
}

/// Returns a function that isn't a control sequence, if there is one.
#[inline(always)]
fn basic(f: Option<Basic>) -> Option<ControlFunction>
    ensures { option_map word_of result ≡ option_map basic_word f }
{
    match f {
        Some(f) => Some(ControlFunction::Basic(f)),
        None => None,
    }
}

/// Returns a control sequence, if there is one.
#[inline(always)]
fn of_sequence(f: Option<Sequence>) -> Option<ControlFunction>
    ensures { option_map word_of result ≡ option_map sequence_word f }
{
    match f {
        Some(f) => Some(ControlFunction::Sequence(f)),
        None => None,
    }
}

/// Returns the function of a graphic byte, if it has a glyph.
fn print(b: u8) -> Option<Basic>
    ensures { option_map basic_word result ≡ print_name b }
{
    if b != 0x20 && (b % 0x80 < 0x21 || b % 0x80 > 0x7E) {
        return None;
    }
    Some(Text)
}

/// Returns the function of a control.
#[tactic(auto, unfolding(vt_term::specs::Names::control_name))]
fn control(b: u8) -> Option<Basic>
    ensures { option_map basic_word result ≡ control_name b }
{
    match b {
        0x08 => Some(BS),
        0x09 => Some(HT),
        0x0A => Some(LF),
        0x0B => Some(VT),
        0x0C => Some(FF),
        0x0D => Some(CR),
        0x0E => Some(SO),
        0x0F => Some(SI),
        0x1A => Some(SUB),
        0x84 => Some(IND),
        0x85 => Some(NEL),
        0x88 => Some(HTS),
        0x8D => Some(RI),
        0x8E => Some(SS2),
        0x8F => Some(SS3),
        0x9A => Some(DECID),
        _ => None,
    }
}

/// Returns the function of an escape sequence without an intermediate.
#[tactic(auto, unfolding(vt_term::specs::Names::plain_escape_name))]
fn plain_escape(last: u8) -> Option<Basic>
    ensures { option_map basic_word result ≡ plain_escape_name last }
{
    match last {
        b'7' => Some(DECSC),
        b'8' => Some(DECRC),
        b'=' => Some(DECKPAM),
        b'>' => Some(DECKPNM),
        b'c' => Some(RIS),
        b'n' => Some(LS2),
        b'o' => Some(LS3),
        b'~' => Some(LS1R),
        b'}' => Some(LS2R),
        b'|' => Some(LS3R),
        _ => None,
    }
}

/// Returns the function of an escape sequence with an intermediate: S7C1T, S8C1T, DECALN and SCS.
#[tactic(auto, unfolding(vt_term::specs::Names::escape_with_name))]
fn escape(inter: u8, last: u8) -> Option<ControlFunction>
    ensures { option_map word_of result ≡ escape_with_name inter last }
{
    match (inter, last) {
        (b' ', b'F') => Some(ControlFunction::Basic(S7C1T)),
        (b' ', b'G') => Some(ControlFunction::Basic(S8C1T)),
        (b'#', b'8') => Some(ControlFunction::Basic(DECALN)),
        (b'(', _) => scs(G0, last),
        (b')', _) => scs(G1, last),
        (b'*', _) => scs(G2, last),
        (b'+', _) => scs(G3, last),
        _ => None,
    }
}

/// Returns the SCS of a slot and a final byte, if the byte designates a set.
fn scs(slot: Slot, last: u8) -> Option<ControlFunction>
    ensures { (n : ℕ) → option_map word_of result ≡ name_with last_row [] (designation n (slot_begins slot) last) }
{
    match Set::of_final(last) {
        Some(set) => Some(ControlFunction::Scs(slot, set)),
        None => None,
    }
}
