//! One byte after a held part: the new held part, and the event that the byte gives.
ghost use Rattle.std.specs.Prelude.{◌≡◌, ◌<◌, ◌≤◌, ℕ, List, [], ◌∷◌, Option, Bool, length, take};
ghost use Rattle.std.specs.Bool.{OnTrue, OnFalse};
ghost use Rattle.vt_syntax.specs.Class.{class_of as byte_class};
ghost use Rattle.vt_syntax.specs.Items.{introduces as introduces_after};
ghost use Rattle.vt_syntax.specs.Reading.{quiet_control as control_of_quiet, cancel_function};
ghost use Rattle.vt_syntax.specs.Reading.{single_function as function_of_single, escape_function as function_of_escape};
ghost use Rattle.vt_syntax.specs.Event.{event_in};
ghost use Rattle.vt_syntax.specs.Steps.{step_to, step_of, step_between as between, step_escape as in_escape};
ghost use Rattle.vt_syntax.specs.Steps.{step_spoilt as in_spoilt, step_string as in_string, step_value, step_parameter};
ghost use Rattle.vt_syntax.specs.Steps.{step_intermediate, with_digit, steps, opened_by as opened_part};

use crate::class::{Class, class_of};
use crate::content::content_len;
use crate::event::EventKind;
use crate::front::plain_escape;
use crate::held::{Held, Inters, Phase};
use crate::values::Values;
use arrayvec::ArrayVec;

/// Reads one byte after a held part, and returns its event, if there is one. It writes the values of a control sequence
/// into `values`. (It is inlined in each caller, so that no event goes through memory.)
#[inline(always)]
#[tactic(auto, unfolding(crate::specs::Steps::step_of))]
pub(crate) fn step(held: &mut Held, b: u8, values: &mut Values) -> Option<EventKind>
    ensures { step_of held.old b ≡ step_to held.new (event_in result values.new) }
{
    match held {
        Held::Nothing => step_between(held, b),
        Held::Text { osc } => {
            let osc = *osc;
            step_string(held, osc, b)
        }
        Held::Escape(inters) => {
            let inters = *inters;
            step_escape(held, inters, b)
        }
        Held::Spoilt => step_spoilt(held, b),
        Held::Control {
            marker,
            params,
            full,
            phase,
        } => match class_of(b) {
            Class::Parameter => {
                if !parameter(marker, params, full, phase, b) {
                    *held = Held::Spoilt;
                }
                None
            }
            Class::Intermediate => {
                if !intermediate(phase, b) {
                    *held = Held::Spoilt;
                }
                None
            }
            Class::Final => {
                values.set(params.as_slice());
                let kind = EventKind::Sequence {
                    marker: *marker,
                    inter: phase.inter(),
                    last: b,
                };
                *held = Held::Nothing;
                Some(kind)
            }
            Class::Quiet => quiet_control(b),
            Class::Cancel => cancel(held, b),
            Class::Esc | Class::High => step_between(held, b),
        },
    }
}

/// Returns how many bytes at the front of a chunk are content of the string that is held, or 0 if none is held. Content
/// may follow them.
#[inline(always)]
#[tactic(auto, unfolding(crate::specs::Steps::steps))]
pub(crate) fn hold_content(held: &Held, piece: &[u8]) -> usize
    ensures within { result ≤ length piece.now }
    ensures holds { steps held.now (take result piece.now) ≡ step_to held.now [] }
{
    match held {
        Held::Text { .. } => content_len(piece),
        _ => 0,
    }
}

/// Reads a byte between sequences, or one that cuts a sequence off: it opens something, or is read by itself.
#[tactic(auto, using(std::proofs::lemmas::Bool::Decides::nat_tests), unfolding(crate::specs::Class::opens_string))]
fn step_between(held: &mut Held, b: u8) -> Option<EventKind>
    ensures { (values : List ℕ) → between b ≡ step_to held.new (event_in result values) }
{
    match b {
        0x1B => *held = Held::Escape(Inters::Zero),
        0x90 | 0x98 | 0x9B | 0x9D..=0x9F => *held = opened_by(b),
        _ => {
            *held = Held::Nothing;
            return single_function(b);
        }
    }
    None
}

/// Returns the held part after a C1 control that opens something.
#[tactic(auto, using(std::proofs::lemmas::Bool::Decides::nat_tests), unfolding(crate::specs::Class::opens_string))]
fn opened_by(code: u8) -> Held
    ensures { result ≡ opened_part code }
{
    if code == 0x9B {
        Held::Control {
            marker: None,
            params: zero(),
            full: false,
            phase: Phase::Start,
        }
    } else {
        Held::Text { osc: code == 0x9D }
    }
}

/// Returns the values of a sequence without parameters: one 0.
fn zero() -> ArrayVec<u16, 16>
    ensures { result.items ≡ 0 ∷ [] }
{
    let mut params = ArrayVec::new();
    params.push(0);
    params
}

/// Returns the event of a byte by itself. CAN and DEL have none.
#[tactic(auto, using(std::proofs::lemmas::Bool::Decides::nat_tests))]
fn single_function(b: u8) -> Option<EventKind>
    ensures { (values : List ℕ) → event_in result values ≡ function_of_single b }
{
    match b {
        0x18 | 0x7F => None,
        0x20..=0x7E | 0xA0..=0xFF => Some(EventKind::Print(b)),
        _ => Some(EventKind::Control(b)),
    }
}

/// Returns the event of a quiet byte in a sequence. DEL has none.
#[tactic(auto, using(std::proofs::lemmas::Bool::Decides::nat_tests), unfolding(crate::specs::Class::class_of))]
fn quiet_control(b: u8) -> Option<EventKind>
    requires { byte_class b ≡ Class.Quiet }
    ensures { (values : List ℕ) → event_in result values ≡ control_of_quiet b }
{
    if b == 0x7F {
        None
    } else {
        Some(EventKind::Control(b))
    }
}

/// Ends the held part at CAN, SUB or ST. Only SUB is an event.
#[tactic(auto, using(std::proofs::lemmas::Bool::Decides::nat_tests))]
fn cancel(held: &mut Held, b: u8) -> Option<EventKind>
    ensures holds { held.new ≡ Held.Nothing }
    ensures tells { (values : List ℕ) → event_in result values ≡ cancel_function b }
{
    *held = Held::Nothing;
    if b == 0x1A {
        Some(EventKind::Control(b))
    } else {
        None
    }
}

/// Reads a byte in a string.
#[tactic(auto, using(std::proofs::lemmas::Bool::Decides::nat_tests), unfolding(crate::specs::Items::ends_string))]
fn step_string(held: &mut Held, osc: bool, b: u8) -> Option<EventKind>
    requires { held.old ≡ Held.Text osc }
    ensures { (values : List ℕ) → in_string osc b ≡ step_to held.new (event_in result values) }
{
    match b {
        0x18 | 0x1A | 0x9C => return cancel(held, b),
        0x07 if osc => *held = Held::Nothing,
        0x1B => *held = Held::Escape(Inters::Zero),
        _ => {}
    }
    None
}

/// Reads a byte after ESC and intermediates.
#[tactic(auto, using(std::proofs::lemmas::Bool::Decides::nat_tests), unfolding(crate::specs::Class::class_of))]
fn step_escape(held: &mut Held, inters: Inters, b: u8) -> Option<EventKind>
    requires { held.old ≡ Held.Escape inters }
    ensures { (values : List ℕ) → in_escape inters (byte_class b) b ≡ step_to held.new (event_in result values) }
{
    match class_of(b) {
        Class::Intermediate => {
            *held = Held::Escape(match inters {
                Inters::Zero => Inters::One(b),
                _ => Inters::Many,
            });
            None
        }
        Class::Final if introduces(inters, b) => {
            *held = opened_by(b + 0x40);
            None
        }
        Class::Parameter | Class::Final => {
            *held = Held::Nothing;
            escape_function(inters, b)
        }
        Class::Quiet => quiet_control(b),
        Class::Cancel => cancel(held, b),
        Class::Esc | Class::High => step_between(held, b),
    }
}

/// Returns whether a final byte after ESC is the 7-bit form of a C1 control that opens something.
#[tactic(auto, using(std::proofs::lemmas::Bool::Decides::nat_tests), unfolding(crate::specs::Class::opens_string))]
fn introduces(inters: Inters, b: u8) -> bool
    requires { b < 0x80 }
    ensures { result ≡ introduces_after inters b }
{
    match inters {
        Inters::Zero => matches!(b, b'P' | b'X' | b'[' | b']'..=b'_'),
        _ => false,
    }
}

/// Returns the event of an escape sequence. A sequence with two or more intermediates has none.
#[tactic(auto, using(std::proofs::lemmas::Bool::Decides::nat_tests))]
fn escape_function(inters: Inters, last: u8) -> Option<EventKind>
    requires { last < 0x80 }
    ensures { (values : List ℕ) → event_in result values ≡ function_of_escape inters last }
{
    match inters {
        Inters::Zero => Some(plain_escape(last)),
        Inters::One(inter) => Some(EventKind::Escape {
            inter: Some(inter),
            last,
        }),
        Inters::Many => None,
    }
}

/// Reads a byte in a control sequence that has no function.
fn step_spoilt(held: &mut Held, b: u8) -> Option<EventKind>
    requires { held.old ≡ Held.Spoilt }
    ensures { (values : List ℕ) → in_spoilt (byte_class b) b ≡ step_to held.new (event_in result values) }
{
    match class_of(b) {
        Class::Intermediate | Class::Parameter => None,
        Class::Final => {
            *held = Held::Nothing;
            None
        }
        Class::Quiet => quiet_control(b),
        Class::Cancel => cancel(held, b),
        Class::Esc | Class::High => step_between(held, b),
    }
}

/// Reads an intermediate in a control sequence. Returns whether the sequence may still have a function. It may if this
/// is the first intermediate.
fn intermediate(phase: &mut Phase, b: u8) -> bool
    ensures goes_on { (marker : Option ℕ) (params : List ℕ) (full : Bool) → OnTrue result
        (step_intermediate marker params full phase.old b
        ≡ Held.Control marker (record { items = params }) full phase.new) }
    ensures spoils { (marker : Option ℕ) (params : List ℕ) (full : Bool) → OnFalse result
        (step_intermediate marker params full phase.old b ≡ Held.Spoilt) }
{
    if let Phase::Inter(_) = phase {
        return false;
    }
    *phase = Phase::Inter(b);
    true
}

/// Reads a parameter byte in a control sequence. Returns whether the sequence may still have a function. It may if no
/// intermediate has come, and the byte is a digit, `;`, or a marker that is first.
#[tactic(auto, using(std::proofs::lemmas::Bool::Decides::nat_tests), unfolding(crate::specs::Class::class_of))]
fn parameter(
    marker: &mut Option<u8>,
    params: &mut ArrayVec<u16, 16>,
    full: &mut bool,
    phase: &mut Phase,
    b: u8,
) -> bool
    requires { byte_class b ≡ Class.Parameter }
    ensures goes_on { OnTrue result
        (step_parameter marker.old params.old.items full.old phase.old b
        ≡ Held.Control marker.new params.new full.new phase.new) }
    ensures spoils { OnFalse result (step_parameter marker.old params.old.items full.old phase.old b ≡ Held.Spoilt) }
{
    match phase {
        Phase::Inter(_) => return false,
        Phase::Start if b >= 0x3C => *marker = Some(b),
        _ if b == 0x3A || b >= 0x3C => return false,
        _ => value(params, full, b),
    }
    *phase = Phase::Values;
    true
}

/// Reads a digit or `;`: one more digit of the last value, or a new value. After the 16th value, it drops the rest.
#[inline(always)]
#[tactic(auto, using(crate::proofs::Steps::last_values))]
fn value(params: &mut ArrayVec<u16, 16>, full: &mut bool, b: u8)
    requires low { 48 ≤ b }
    requires high { b < 60 }
    ensures { (marker : Option ℕ)
        → step_value marker params.old.items full.old b ≡ Held.Control marker params.new full.new Phase.Values }
{
    let at_limit = params.is_full();
    if b == 0x3B {
        if at_limit {
            *full = true;
        } else {
            params.push(0);
        }
    } else if !*full {
        if let Some(last) = params.last_mut() {
            *last = with_digit(*last, b);
        }
    }
}

/// Returns a value with one more digit, at most 9999.
#[inline(always)]
fn with_digit(value: u16, b: u8) -> u16
    requires low { 48 ≤ b }
    requires high { b < 60 }
    ensures { result ≡ with_digit b value }
{
    (value as u32 * 10 + (b - 0x30) as u32).min(9999) as u16
}
