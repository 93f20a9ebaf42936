//! Fronts: events that are whole at the front of a chunk, between sequences. They are read from the chunk, and never
//! held.
//!
//! A terminal calls [`Front::of`], and reads each frequent kind of front by a function for this kind. So the kind of
//! the event is known when the terminal's dispatcher is compiled. `Parser::next` reads all kinds by [`front_event`],
//! for speed.
ghost use Rattle.std.specs.Prelude.{◌≡◌, ◌+◌, ◌-◌, ◌<◌, ◌≤◌, ℕ, List, [], ◌∷◌, ◌++◌, Option, Some, None, IfSome, IsTrue, ◌↔◌};
ghost use Rattle.std.specs.Prelude.{IsSome, length, take, slice_index};
ghost use Rattle.std.specs.Bool.{OnTrue};
ghost use Rattle.vt_syntax.specs.declared.event.Event.TheVariants.{Sequence};
ghost use Rattle.vt_syntax.specs.declared.event.Event.TheVariants as event;
ghost use Rattle.vt_syntax.specs.declared.held.Held.TheVariants.{Nothing, Escape, Control};
ghost use Rattle.vt_syntax.specs.declared.held.Inters.TheVariants.{Zero};
ghost use Rattle.vt_syntax.specs.Event.{event_of};
ghost use Rattle.vt_syntax.specs.Front.{Begins, IsFront, IsControl, IsFinal, BeginsWithShortEscape, BeginsWithEscape};
ghost use Rattle.vt_syntax.specs.Front.{front_list, AreFirst};
ghost use Rattle.vt_syntax.specs.Held.{IsEnding, ended_by};
ghost use Rattle.vt_syntax.specs.Steps.{step_to, step_between, opened_by, steps};
ghost use Rattle.vt_syntax.specs.Whole.{AreRead, begun};

use crate::event::EventKind;
use crate::values::Values;

/// The beginning of a chunk, between sequences.
#[derive(Clone, Copy, Debug, PartialEq, Eq)]
pub enum Front {
    /// ESC.
    Escape,
    /// CSI in its 8-bit form, 9B.
    Introducer,
    /// A plain byte, 20 to 7E.
    Plain,
    /// A byte of the right graphic area, A1 to FE.
    Right,
    /// A0 or FF: a graphic byte for which no set has a glyph.
    Empty,
    /// CR.
    CarriageReturn,
    /// Another control that is an event by itself.
    Control(u8),
    /// CAN, DEL, or a C1 control that opens a string.
    Other,
}

/// The first values of a control sequence, and the byte after them.
#[derive(Clone, Copy, Debug)]
pub struct FrontValues {
    /// The number of bytes, from the introducer to the byte after the values.
    pub bytes: usize,
    /// The number of values, 1 to 3. The third is read only for SGR.
    pub count: usize,
    /// The first value.
    pub first: u16,
    /// The second value, or 0.
    pub second: u16,
    /// The third value, or 0.
    pub third: u16,
    /// The byte after the values. If it is a final byte, it ends the sequence.
    pub last: u8,
}

impl Front {
    /// Returns what a chunk begins with. (ECMA-35 6.2, ECMA-48 5.2)
    #[inline(always)]
    #[tactic(auto, using(crate::proofs::Fronts::front_single))]
    pub fn of(piece: &[u8]) -> Front
        requires some { 1 ≤ length piece.now }
        ensures begins { Begins result piece.now }
    {
        let b = piece[0];
        if b == 0x1B {
            Front::Escape
        } else if 0x20 <= b && b < 0x7F {
            Front::Plain
        } else if b == 0x0D {
            Front::CarriageReturn
        } else if 0xA1 <= b && b < 0xFF {
            Front::Right
        } else if is_single_control(b) {
            Front::Control(b)
        } else if b == 0x9B {
            Front::Introducer
        } else if b >= 0xA0 {
            Front::Empty
        } else {
            Front::Other
        }
    }
}

/// Reads the first values of a control sequence whose introducer is `ESC [` and that has no marker. It also reads the
/// byte after them.
///
/// Returns `None` if there is no such sequence, if fewer than ten bytes remain, and for three values that aren't those
/// of SGR.
#[inline(always)]
pub fn front_values(piece: &[u8]) -> Option<FrontValues>
    ensures front { IfSome result (λ f. IsFinal f.last
        → IsFront piece.now f.bytes (Sequence None (record { items = front_list f }) None f.last)) }
    ensures few { IfSome result (λ f. (1 ≤ f.count) × (f.count ≤ 3)) }
    ensures values { IfSome result (λ f. AreFirst f) }
{
    if piece.len() < 10 || !is_introducer(piece[0], piece[1]) {
        return None;
    }
    let (first, end) = read_value(piece, 2);
    let last = piece[end];
    if last != b';' {
        return Some(FrontValues {
            bytes: end + 1,
            count: 1,
            first,
            second: 0,
            third: 0,
            last,
        });
    }
    let (second, end) = read_value(piece, end + 1);
    let last = piece[end];
    if last != b';' {
        return Some(FrontValues {
            bytes: end + 1,
            count: 2,
            first,
            second,
            third: 0,
            last,
        });
    }
    if piece.len() < 14 {
        return None;
    }
    let (third, end) = read_value(piece, end + 1);
    if piece[end] != b'm' {
        return None;
    }
    Some(FrontValues {
        bytes: end + 1,
        count: 3,
        first,
        second,
        third,
        last: piece[end],
    })
}

/// Returns whether a byte is the final byte of a control sequence, 40 to 7E (ECMA-48 5.4).
#[inline(always)]
pub fn is_final(b: u8) -> bool
    ensures { IsTrue result ↔ IsFinal b }
{
    0x40 <= b && b < 0x7F
}

/// Returns the intermediate and the final byte of an escape sequence of three bytes (ECMA-35 13). Returns `None` if and
/// only if no such sequence is whole at the front.
#[inline(always)]
#[tactic(auto, using(crate::proofs::Fronts::front_with))]
pub fn front_escape(piece: &[u8]) -> Option<(u8, u8)>
    ensures front { IfSome result (λ t. IsFront piece.now 3 (event.Escape (Some t.0) t.1)) }
    ensures exact { IsSome result ↔ BeginsWithEscape piece.now }
{
    if piece.len() < 3 || piece[0] != 0x1B {
        return None;
    }
    let inter = piece[1];
    let last = piece[2];
    if 0x20 <= inter && inter < 0x30 && 0x30 <= last && last < 0x7F {
        return Some((inter, last));
    }
    None
}

/// Returns the event of an escape sequence of two bytes (ECMA-35 13), which may be the 7-bit form of a C1 control
/// (ECMA-48 5.3). Returns `None` if and only if no such sequence is whole at the front.
#[inline(always)]
#[tactic(auto, using(crate::proofs::Fronts::front_short))]
pub fn front_short_escape(piece: &[u8]) -> Option<EventKind>
    ensures front { IfSome result (λ kind. (values : List ℕ) → IsFront piece.now 2 (event_of kind values)) }
    ensures exact { IsSome result ↔ BeginsWithShortEscape piece.now }
{
    if piece.len() < 2 || piece[0] != 0x1B || !ends_escape(piece[1]) {
        return None;
    }
    Some(plain_escape(piece[1]))
}

/// Returns whether a byte between sequences is a control by itself.
#[inline(always)]
#[tactic(auto, using(std::proofs::lemmas::Bool::Decides::nat_tests), unfolding(crate::specs::Class::opens_string))]
fn is_single_control(b: u8) -> bool
    ensures step { OnTrue result (step_between b ≡ step_to Nothing (event.Control b ∷ [])) }
    ensures exact { IsTrue result ↔ IsControl b }
{
    if b < 0x20 {
        b != 0x18 && b != 0x1B
    } else {
        (0x80 <= b && b < 0x98 && b != 0x90) || b == 0x99 || b == 0x9A || b == 0x9C
    }
}

/// Reads the event that is whole at the front of a chunk: a byte by itself, or a sequence. Returns its length and kind.
///
/// Returns `None` if there is none, and for rare forms: more than 16 values, a value of four digits, or a control
/// inside. It also returns `None` if fewer than four bytes follow the place of a value.
#[inline(always)]
#[tactic(auto, using(crate::proofs::Fronts::front_events))]
pub(crate) fn front_event(piece: &[u8], values: &mut Values) -> Option<(usize, EventKind)>
    ensures { IfSome result (λ t. IsFront piece.now t.0 (event_of t.1 values.new)) }
{
    if piece.len() < 2 {
        return None;
    }
    match Front::of(piece) {
        Front::Escape => front_after_escape(piece, values),
        Front::Introducer => front_sequence(piece, 1, values),
        Front::Plain => Some((1, EventKind::Print(piece[0]))),
        Front::Right => Some((1, EventKind::Print(piece[0]))),
        Front::Empty => Some((1, EventKind::Print(piece[0]))),
        Front::CarriageReturn => Some((1, EventKind::Control(piece[0]))),
        Front::Control(b) => Some((1, EventKind::Control(b))),
        Front::Other => None,
    }
}

/// Returns whether two bytes are ESC and `[`, the 7-bit form of CSI. (Speed: one comparison of both.)
#[inline(always)]
fn is_introducer(first: u8, second: u8) -> bool
    ensures introducer { OnTrue result ((first ≡ 0x1B) × (second ≡ 0x5B)) }
    ensures exact { first ≡ 0x1B → second ≡ 0x5B → IsTrue result }
{
    first as u16 + 256 * second as u16 == 0x5B1B
}

/// Reads a control sequence whose introducer ends at `from`.
#[inline(always)]
#[tactic(auto, using(crate::proofs::Fronts::front_control))]
fn front_sequence(piece: &[u8], from: usize, values: &mut Values) -> Option<(usize, EventKind)>
    requires within { from ≤ length piece.now }
    requires introduced { steps Nothing (take from piece.now) ≡ step_to (opened_by 0x9B) [] }
    ensures { IfSome result (λ t. IsFront piece.now t.0 (event_of t.1 values.new)) }
{
    let (marker, start) = marker_at(piece, from);
    let at = read_values(piece, start, marker, values)?;
    let last = piece[at];
    if 0x40 <= last && last < 0x7F {
        let inter = None;
        return Some((
            at + 1,
            EventKind::Sequence {
                marker,
                inter,
                last,
            },
        ));
    }
    front_sequence_with(piece, at, marker, values)
}

/// Reads the intermediate at `at`, after the values of a control sequence, and the final byte.
#[inline(never)]
fn front_sequence_with(
    piece: &[u8],
    at: usize,
    marker: Option<u8>,
    values: &Values,
) -> Option<(usize, EventKind)>
    requires { AreRead piece.now at marker values.now }
    ensures { IfSome result (λ t. IsFront piece.now t.0 (event_of t.1 values.now)) }
{
    if at + 2 > piece.len() || piece[at] < 0x20 || 0x30 <= piece[at] {
        return None;
    }
    let last = piece[at + 1];
    if last < 0x40 || 0x7F <= last {
        return None;
    }
    let inter = Some(piece[at]);
    Some((
        at + 2,
        EventKind::Sequence {
            marker,
            inter,
            last,
        },
    ))
}

/// Returns the marker at `from`, if there is one, and the position after it.
#[inline(always)]
#[tactic(auto, using(crate::proofs::Fronts::steps_marker))]
fn marker_at(piece: &[u8], from: usize) -> (Option<u8>, usize)
    requires { from ≤ length piece.now }
    ensures within { result.1 ≤ length piece.now }
    ensures reads { steps Nothing (take from piece.now) ≡ step_to (opened_by 0x9B) []
        → steps Nothing (take result.1 piece.now) ≡ step_to (begun result.0) [] }
{
    if from < piece.len() && 0x3C <= piece[from] && piece[from] < 0x40 {
        (Some(piece[from]), from + 1)
    } else {
        (None, from)
    }
}

/// Reads the values that begin at `start`, and returns the position after them. Returns `None` after the 16th, and if
/// fewer than four bytes follow the place of a value.
#[inline(always)]
fn read_values(piece: &[u8], start: usize, marker: Option<u8>, values: &mut Values) -> Option<usize>
    requires within { start ≤ length piece.now }
    requires begun { steps Nothing (take start piece.now) ≡ step_to (begun marker) [] }
    ensures reads { IfSome result (λ at. (at < length piece.now) × AreRead piece.now at marker values.new) }
{
    let (at, count) = read_list(piece, start, marker, &mut values.list)?;
    values.len = count;
    Some(at)
}

/// Reads values into the front of a list. Returns the position after them, and how many there are. (Speed: they are
/// counted in a register.)
#[inline(always)]
#[tactic(auto, using(crate::proofs::Fronts::read_none))]
fn read_list(
    piece: &[u8],
    start: usize,
    marker: Option<u8>,
    list: &mut [u16; 16],
) -> Option<(usize, usize)>
    requires within { start ≤ length piece.now }
    requires begun { steps Nothing (take start piece.now) ≡ step_to (begun marker) [] }
    ensures reads { IfSome result (λ t. (t.0 < length piece.now) × (t.1 ≤ 16)
        × AreRead piece.now t.0 marker (take t.1 list.new)) }
{
    let mut count = 0;
    let mut at = start;
    while at + 4 <= piece.len() && count < 16 {
        let (value, end) = read_value(piece, at);
        list[count] = value;
        count += 1;
        if piece[end] != b';' {
            return Some((end, count));
        }
        at = end + 1;
    }
    None
}

/// Reads a value of at most three digits, and returns it and the position after it.
#[inline(always)]
#[tactic(auto, using(crate::proofs::Fronts::digits))]
fn read_value(piece: &[u8], at: usize) -> (u16, usize)
    requires { at + 4 ≤ length piece.now }
    ensures low { at ≤ result.1 }
    ensures high { result.1 ≤ at + 3 }
    ensures reads { (marker : Option ℕ) (xs : List ℕ) → AreRead piece.now at marker (xs ++ 0 ∷ [])
        → AreRead piece.now result.1 marker (xs ++ result.0 ∷ []) }
{
    let Some(a) = digit(piece[at]) else {
        return (0, at);
    };
    let Some(b) = digit(piece[at + 1]) else {
        return (a as u16, at + 1);
    };
    let Some(c) = digit(piece[at + 2]) else {
        return ((10 * a + b) as u16, at + 2);
    };
    ((100 * a + 10 * b + c) as u16, at + 3)
}

/// Returns the value of a digit. (Speed: the compiler would widen a byte again at each use.)
#[inline(always)]
fn digit(b: u8) -> Option<u32>
    ensures number { IfSome result (λ d. (48 ≤ b) × (b ≤ 57) × (d ≡ b - 48)) }
{
    let d = (b as u32).wrapping_sub(0x30);
    if d < 10 { Some(d) } else { None }
}

/// Reads the sequence that begins with the ESC at the front of a chunk.
#[inline(always)]
#[tactic(auto, using(crate::proofs::Fronts::front_events))]
fn front_after_escape(piece: &[u8], values: &mut Values) -> Option<(usize, EventKind)>
    requires long { 2 ≤ length piece.now }
    ensures { IfSome result (λ t. IsFront piece.now t.0 (event_of t.1 values.new)) }
{
    if is_introducer(piece[0], piece[1]) {
        return front_sequence(piece, 2, values);
    }
    if let Some(kind) = front_short_escape(piece) {
        return Some((2, kind));
    }
    let (inter, last) = front_escape(piece)?;
    let inter = Some(inter);
    Some((3, EventKind::Escape { inter, last }))
}

/// Returns whether a byte after ESC ends an escape sequence: a final byte, except the letters of the C1 controls that
/// open something.
#[inline(always)]
#[tactic(auto, using(std::proofs::lemmas::Bool::Decides::nat_tests), unfolding(crate::specs::Class::opens_string))]
pub(crate) fn ends_escape(b: u8) -> bool
    ensures ends { OnTrue result (IsEnding (Escape Zero) b) }
    ensures exact { IsTrue result ↔ IsEnding (Escape Zero) b }
{
    match b {
        b'P' | b'X' | b'[' | b']'..=b'_' => false,
        0x30..=0x7E => true,
        _ => false,
    }
}

/// Returns the event of ESC and a final byte. 40..5F are the C1 controls that are 40 higher.
#[inline(always)]
pub(crate) fn plain_escape(last: u8) -> EventKind
    requires { last < 0x80 }
    ensures { (values : List ℕ) → event_of result values ≡ ended_by (Escape Zero) last }
{
    if 0x40 <= last && last < 0x60 {
        EventKind::Control(last + 0x40)
    } else {
        EventKind::Escape { inter: None, last }
    }
}
