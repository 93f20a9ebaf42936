//! Observers: types that a feed tells of its events.
ghost use Rattle.std.specs.Prelude.{◌≡◌, ◌≤◌, ◌-◌, ◌∷◌, [], ℕ, List, Bool, All, true, false, length, take};
ghost use Rattle.std.specs.Bool.{OnTrue, OnFalse};
ghost use Rattle.vt_glyph.specs.Invocation.{HasGlyph};
ghost use Rattle.vt_syntax.specs.declared.held.Held.TheVariants.{Nothing};
ghost use Rattle.vt_syntax.specs.declared.event.Event.{Event};
ghost use Rattle.vt_syntax.specs.Spelling.{IsEvent};
ghost use Rattle.vt_syntax.specs.Event.{event_of};
ghost use Rattle.vt_syntax.specs.Held.{events_from};
ghost use Rattle.vt_term.specs.State.{State, Display};
ghost use Rattle.vt_term.specs.Sound.{IsSoundSized};
ghost use Rattle.vt_term.specs.Happenings.{Happening, happenings};
ghost use Rattle.vt_term.specs.Observing.{AreJoined};

use crate::sized::SizedTerminal;
use vt_syntax::EventKind;

/// An observer of a feed. Before each event, the feed asks the observer whether the event may be carried out. If it
/// may, the observer is told of the event, in the state before the event. Otherwise the feed stops. The observer is
/// also told of bytes without an event.
///
/// In contracts, an observer is told of a list of happenings, one for each byte.
pub trait Observer {
    /// The observer after it was told of happenings.
    ghost Saw: { Self → List Happening → Self → Type 0 };

    /// The observer may be told of so many more happenings: it can count them, or has capacity for them.
    ghost Takes: { Self → ℕ → Type 0 };

    /// The observer lets an event be carried out.
    ghost Lets: { Self → Display → Event → Type 0 };

    /// The observer lets so many graphic bytes be written at once.
    ghost Fits: { Self → Display → ℕ → Type 0 };

    /// The reason for which the observer stopped the feed.
    ghost Stopped: { Self → Type 0 };

    /// The observer may stop the feed. Speed: otherwise nothing is kept to go back to.
    ghost Stops: { Bool };

    /// Returns whether the observer may stop the feed. (It is no constant: the toolchain proves none in an `impl` with
    /// a lifetime.)
    fn stops(&self) -> bool
        ensures { result ≡ Stops };

    /// Returns whether the observer lets an event be carried out. `terminal` has the display before the event.
    fn lets(&self, terminal: &SizedTerminal, kind: EventKind, values: &[u16]) -> bool
        ensures lets { OnTrue result (Lets self.now terminal.now.display (event_of kind values.now)) }
        ensures stops { OnFalse result (Stops ≡ true) }
        ensures stopped { OnFalse result (Stopped self.now) };

    /// Is told of the next event, which the last of these bytes completes. `terminal` has the display before the event.
    fn event(&mut self, terminal: &SizedTerminal, bytes: &[u8], kind: EventKind, values: &[u16])
        requires some { 1 ≤ length bytes.now }
        requires event { IsEvent (event_of kind values.now) }
        requires lets { Lets self.old terminal.now.display (event_of kind values.now) }
        requires takes { Takes self.old (length bytes.now) }
        ensures { (s : State) → IsSoundSized s → s.display ≡ terminal.now.display
            → events_from s.held bytes.now ≡ event_of kind values.now ∷ []
            → events_from s.held (take (length bytes.now - 1) bytes.now) ≡ []
            → Saw self.old (happenings s bytes.now) self.new };

    /// Returns how many graphic bytes the observer lets be written at once. If it is none, the feed stops before the
    /// first one.
    fn limit(&self, terminal: &SizedTerminal) -> usize
        ensures fits { (n : ℕ) → n ≤ result → Fits self.now terminal.now.display n }
        ensures stops { result ≡ 0 → Stops ≡ true }
        ensures stopped { result ≡ 0 → Stopped self.now };

    /// Is told of graphic bytes between sequences, each an event, which are written at once.
    fn run(&mut self, terminal: &SizedTerminal, bytes: &[u8])
        requires some { 1 ≤ length bytes.now }
        requires graphic { All HasGlyph bytes.now }
        requires fits { Fits self.old terminal.now.display (length bytes.now) }
        requires takes { Takes self.old (length bytes.now) }
        ensures { (s : State) → IsSoundSized s → s.display ≡ terminal.now.display → s.held ≡ Nothing
            → Saw self.old (happenings s bytes.now) self.new };

    /// Is told of bytes without an event: of a sequence that isn't whole, or that asks for nothing.
    fn part(&mut self, bytes: &[u8])
        requires { Takes self.old (length bytes.now) }
        ensures { (s : State) → IsSoundSized s → events_from s.held bytes.now ≡ []
            → Saw self.old (happenings s bytes.now) self.new };

    /// The observer may be told in parts.
    ghost joined: { AreJoined Saw Takes };
}

/// The observer of a feed that nobody observes.
#[derive(Drop)]
pub struct Nobody;

impl Observer for Nobody {
    ghost use Rattle.vt_term.specs.Observers.{nobody_joined};
    ghost use Rattle.std.specs.Prelude.{⊤};

    ghost Saw = { λ o hs p. ⊤ };

    ghost Takes = { λ o n. ⊤ };

    ghost Lets = { λ o s event. ⊤ };

    ghost Fits = { λ o s n. ⊤ };

    ghost Stopped = { λ o. ⊥ };

    ghost Stops = { false };

    #[inline(always)]
    fn stops(&self) -> bool {
        false
    }

    ghost joined = { nobody_joined };

    #[inline(always)]
    fn lets(&self, _: &SizedTerminal, _: EventKind, _: &[u16]) -> bool {
        true
    }

    #[inline(always)]
    fn event(&mut self, _: &SizedTerminal, _: &[u8], _: EventKind, _: &[u16]) {}

    #[inline(always)]
    fn limit(&self, _: &SizedTerminal) -> usize {
        usize::MAX
    }

    #[inline(always)]
    fn run(&mut self, _: &SizedTerminal, _: &[u8]) {}

    #[inline(always)]
    fn part(&mut self, _: &[u8]) {}
}
