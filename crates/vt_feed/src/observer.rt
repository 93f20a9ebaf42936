//! Observers: types that a feed tells of what happens.
ghost use Rattle.std.specs.Prelude.{◌≡◌, ◌≤◌, ◌+◌, ◌∷◌, [], ℕ, List, All, length};
ghost use Rattle.std.specs.Bool.{OnTrue, OnFalse};
ghost use Rattle.vt_glyph.specs.Invocation.{HasGlyph};
ghost use Rattle.vt_syntax.specs.Event.{event_of};
ghost use Rattle.vt_feed.specs.Actions.{Function, Character};
ghost use Rattle.vt_feed.specs.Observing.{Happening, Does, AreJoined, silent, prints};

use crate::machine::Machine;
use vt_syntax::EventKind;

/// An observer of a feed. It is told of the bytes as they are read, and of each action before it is carried out. If it is full, the
/// feed stops before the next byte.
pub trait Observer<M: Machine> {
    /// The observer after it was told of what happened.
    ghost Saw: { Self → List (Happening M) → Self → Type 0 };

    /// The observer has room for so many actions.
    ghost HasRoom: { Self → ℕ → Type 0 };

    /// The observer has room for so many graphic bytes, written at once in this state.
    ghost Fits: { Self → M → ℕ → Type 0 };

    /// The observer is full.
    ghost Full: { Self → Type 0 };

    /// Returns whether the observer is full. Otherwise it has room for the two actions that a byte may ask for.
    fn is_full(&self) -> bool
        ensures full { OnTrue result (Full self.now) }
        ensures room { OnFalse result (HasRoom self.now 2 × HasRoom self.now 1) };

    /// Is told of bytes that are read.
    fn bytes(&mut self, bytes: &[u8])
        ensures saw { Saw self.old (silent bytes.now) self.new }
        ensures room { (n : ℕ) → HasRoom self.old n → HasRoom self.new n };

    /// Is told of an event.
    fn event(&mut self, machine: &M, kind: EventKind, values: &[u16])
        requires room { HasRoom self.old 1 }
        ensures saw { Saw self.old (Does (Function (event_of kind values.now)) machine.now ∷ []) self.new };

    /// Is told of a character beyond ASCII.
    fn character(&mut self, machine: &M, c: char)
        requires room { HasRoom self.old 1 }
        ensures saw { Saw self.old (Does (Character c) machine.now ∷ []) self.new }
        ensures room { HasRoom self.old 2 → HasRoom self.new 1 };

    /// Returns how many graphic bytes, written at once, it has room for: at least one.
    fn limit(&self, machine: &M) -> usize
        requires room { HasRoom self.now 1 }
        ensures some { 1 ≤ result }
        ensures fits { (n : ℕ) → n ≤ result → Fits self.now machine.now n };

    /// Is told of graphic bytes between sequences, which are written at once.
    fn run(&mut self, machine: &M, run: &[u8])
        requires some { 1 ≤ length run.now }
        requires graphic { All HasGlyph run.now }
        requires fits { Fits self.old machine.now (length run.now) }
        ensures { Saw self.old (prints M.machine machine.now run.now) self.new };

    /// The observer may be told in parts.
    ghost joined: { AreJoined Saw };
}

/// The observer of a feed that nobody observes.
#[derive(Drop)]
pub struct Nobody;

impl<M: Machine> Observer<M> for Nobody {
    ghost use Rattle.std.specs.Prelude.{⊤};
    ghost use Rattle.vt_feed.specs.Observers.{nobody_joined};

    ghost Saw = { λ o hs p. ⊤ };

    ghost HasRoom = { λ o n. ⊤ };

    ghost Fits = { λ o s n. ⊤ };

    ghost Full = { λ o. ⊥ };

    ghost joined = { nobody_joined };

    #[inline(always)]
    fn is_full(&self) -> bool {
        false
    }

    #[inline(always)]
    fn bytes(&mut self, _: &[u8]) {}

    #[inline(always)]
    fn event(&mut self, _: &M, _: EventKind, _: &[u16]) {}

    #[inline(always)]
    fn character(&mut self, _: &M, _: char) {}

    #[inline(always)]
    fn limit(&self, _: &M) -> usize {
        usize::MAX
    }

    #[inline(always)]
    fn run(&mut self, _: &M, _: &[u8]) {}
}
