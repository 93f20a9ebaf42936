//! The parser: from bytes, one at a time, to events.
ghost use Rattle.std.specs.Prelude.{◌≡◌, ◌-◌, ◌<◌, ◌≤◌, [], ◌∷◌, IsTrue, ◌↔◌, IfSome, IfNone, length, take};
ghost use Rattle.std.specs.Option.{option_to_list};
ghost use Rattle.vt_syntax.specs.Held.{IsHeldPart, events_from, held_from};
ghost use Rattle.vt_syntax.specs.Spelling.{IsEvent};
ghost use Rattle.vt_syntax.specs.Event.{event_of, event_in};
ghost use Rattle.vt_syntax.specs.Steps.{step_to, step_of, steps};

use crate::event::{Event, EventKind, Taken};
use crate::front::front_event;
use crate::held::Held;
use crate::step::{hold_content, step};
use crate::values::Values;
use arrayvec::ArrayVec;
use std::marker::Model;

/// A parser. It keeps the held part: what decides how an unfinished sequence goes on.
#[derive(Drop)]
pub struct Parser {
    held: Held,
}

impl Model for Parser {
    ghost use Rattle.vt_syntax.specs.declared.held.Held.{Held};
    ghost use Rattle.vt_syntax.specs.Held.{IsHeldPart};

    ghost Value = { Held };

    ghost view = { λ p. p.held };

    ghost invariant = { λ p. IsHeldPart p.held };

    ghost inverse = { λ h. record { held = h } };
}

impl Parser {
    /// Returns a parser between sequences.
    pub fn new() -> Self
        ensures { result ≡ Held.Nothing }
    {
        Parser {
            held: Held::Nothing,
        }
    }

    /// Reads the next byte, and returns the event that it completes, if there is one.
    ///
    /// The event and the new held part are those of the split of the held part's spelling and the byte.
    #[inline(always)]
    #[tactic(auto, using(crate::proofs::Cutting::read_step))]
    pub fn push(&mut self, b: u8) -> Option<Event>
        ensures event { option_to_list result ≡ events_from self.old (b ∷ []) }
        ensures held { self.new ≡ held_from self.old (b ∷ []) }
        ensures in_range { IfSome result IsEvent }
    {
        step_with_values(&mut self.held, b)
    }

    /// Reads the bytes of a chunk up to and including the first that completes an event. Reads all of them if none
    /// does. Returns how many it read, and the event. It writes the values of a control sequence into `values`.
    ///
    /// [`Parser::push`] called for these bytes one by one gives the same event and held part. A sequence may be whole
    /// in the chunk or cut by chunks: the result has the same form.
    #[inline(always)]
    pub fn next(&mut self, piece: &[u8], values: &mut Values) -> Taken
        ensures some { 1 ≤ length piece.now → 1 ≤ result.bytes }
        ensures within { result.bytes ≤ length piece.now }
        ensures event { event_in result.event values.new ≡ events_from self.old (take result.bytes piece.now) }
        ensures held { self.new ≡ held_from self.old (take result.bytes piece.now) }
        ensures last { IfSome result.event (λ _. events_from self.old (take (result.bytes - 1) piece.now) ≡ []) }
        ensures all { IfNone result.event (result.bytes ≡ length piece.now) }
        ensures in_range { IfSome result.event (λ kind. IsEvent (event_of kind values.new)) }
    {
        next_event(&mut self.held, piece, values)
    }

    /// Returns a parser with the same held part.
    pub fn copied(&self) -> Parser
        ensures { result ≡ self.now }
    {
        Parser {
            held: self.held.copied(),
        }
    }

    /// Returns the held part: what decides how an unfinished sequence goes on.
    pub fn held(&self) -> &Held
        ensures value { result.now ≡ self.now }
        ensures held_part { IsHeldPart self.now }
    {
        &self.held
    }

    /// Returns whether the parser is between sequences.
    pub fn is_between(&self) -> bool
        ensures { IsTrue result ↔ (self.now ≡ Held.Nothing) }
    {
        matches!(&self.held, Held::Nothing)
    }
}

/// Reads the front of a chunk up to the first event: a sequence that is whole in it, or bytes one by one.
#[inline(always)]
#[tactic(auto, using(crate::proofs::Cutting::read_from))]
fn next_event(held: &mut Held, piece: &[u8], values: &mut Values) -> Taken
    requires { IsHeldPart held.old }
    ensures some { 1 ≤ length piece.now → 1 ≤ result.bytes }
    ensures within { result.bytes ≤ length piece.now }
    ensures event { event_in result.event values.new ≡ events_from held.old (take result.bytes piece.now) }
    ensures held { held.new ≡ held_from held.old (take result.bytes piece.now) }
    ensures last { IfSome result.event (λ _. events_from held.old (take (result.bytes - 1) piece.now) ≡ []) }
    ensures all { IfNone result.event (result.bytes ≡ length piece.now) }
{
    if matches!(held, Held::Nothing) {
        if let Some((bytes, kind)) = front_event(piece, values) {
            return Taken {
                bytes,
                event: Some(kind),
            };
        }
    }
    next_held(held, piece, values)
}

/// Reads the front of a chunk up to the first event, byte by byte.
#[inline(never)]
#[tactic(auto, using(crate::proofs::Steps::steps_nil))]
fn next_held(held: &mut Held, piece: &[u8], values: &mut Values) -> Taken
    ensures some { 1 ≤ length piece.now → 1 ≤ result.bytes }
    ensures within { result.bytes ≤ length piece.now }
    ensures reads { steps held.old (take result.bytes piece.now) ≡ step_to held.new (event_in result.event values.new) }
    ensures silent { IfSome result.event (λ _. (steps held.old (take (result.bytes - 1) piece.now)).events ≡ []) }
    ensures all { IfNone result.event (result.bytes ≡ length piece.now) }
{
    let mut bytes = 0;
    while bytes < piece.len() {
        if let Some(kind) = step(held, piece[bytes], values) {
            return Taken {
                bytes: bytes + 1,
                event: Some(kind),
            };
        }
        bytes += 1;
        bytes += hold_content(held, &piece[bytes..]);
    }
    Taken { bytes, event: None }
}

/// Reads one byte after a held part, and returns its event with its values.
fn step_with_values(held: &mut Held, b: u8) -> Option<Event>
    ensures holds { held.new ≡ (step_of held.old b).held }
    ensures tells { option_to_list result ≡ (step_of held.old b).events }
{
    let mut values = Values::new();
    match step(held, b, &mut values) {
        Some(kind) => Some(with_values(kind, &values)),
        None => None,
    }
}

/// Returns the event of this kind, with these values if it is a control sequence.
fn with_values(kind: EventKind, values: &Values) -> Event
    ensures { result ≡ event_of kind values.now }
{
    match kind {
        EventKind::Print(b) => Event::Print(b),
        EventKind::Control(b) => Event::Control(b),
        EventKind::Escape { inter, last } => Event::Escape { inter, last },
        EventKind::Sequence {
            marker,
            inter,
            last,
        } => {
            let mut params = ArrayVec::new();
            let _ = params.try_extend_from_slice(values.as_slice());
            Event::Sequence {
                marker,
                params,
                inter,
                last,
            }
        }
    }
}
