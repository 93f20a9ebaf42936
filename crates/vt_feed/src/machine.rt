//! Machines: what a host's actions change.
ghost use Rattle.std.specs.Prelude.{◌≡◌, ◌≤◌, ◌+◌, ◌++◌, [], ℕ, All, map, length, vec_len, vec_capacity, None};
ghost use Rattle.vt_glyph.specs.Invocation.{HasGlyph};
ghost use Rattle.vt_syntax.specs.Class.{IsPlain};
ghost use Rattle.vt_syntax.specs.Event.{event_of};
ghost use Rattle.vt_syntax.specs.Front.{AreFirst, front_list};
ghost use Rattle.vt_syntax.specs.Spelling.{IsEvent};
ghost use Rattle.vt_syntax.specs.declared.event.Event.TheVariants.{Sequence};
ghost use Rattle.vt_feed.specs.Actions.{MachineOf, Function, Character, printed, state_after};

use vt_syntax::{EventKind, FrontValues};

/// The limit of report bytes for each byte of a chunk.
pub const REPORT_LIMIT: usize = 10;

/// A machine: a terminal, whose state actions change.
pub trait Machine {
    /// What actions do, and what they report.
    ghost machine: { MachineOf Self };

    /// Carries out an event: its kind, and the values of a control sequence. It appends the report in the state before the
    /// event to `out`: at most ten bytes, for which `out` has capacity.
    fn carry_out(&mut self, kind: EventKind, values: &[u16], out: &mut Vec<u8>)
        requires event { IsEvent (event_of kind values.now) }
        requires room { vec_len out.old + 10 ≤ vec_capacity out.old }
        ensures state { self.new ≡ machine.effect (Function (event_of kind values.now)) self.old }
        ensures items { out.new.items ≡ out.old.items ++ machine.report (Function (event_of kind values.now)) self.old }
        ensures bounded { vec_len out.new ≤ vec_len out.old + 10 }
        ensures capacity { vec_capacity out.old ≤ vec_capacity out.new };

    /// Carries out a control sequence of these values, as `carry_out` does. Speed: the values are in registers.
    fn carry_out_values(&mut self, front: &FrontValues, out: &mut Vec<u8>)
        requires few { (1 ≤ front.now.count) × (front.now.count ≤ 3) }
        requires values { AreFirst front.now }
        requires event { IsEvent (Sequence None (record { items = front_list front.now }) None front.now.last) }
        requires room { vec_len out.old + 10 ≤ vec_capacity out.old }
        ensures state { self.new ≡ machine.effect
            (Function (Sequence None (record { items = front_list front.now }) None front.now.last)) self.old }
        ensures items { out.new.items ≡ out.old.items ++ machine.report
            (Function (Sequence None (record { items = front_list front.now }) None front.now.last)) self.old }
        ensures bounded { vec_len out.new ≤ vec_len out.old + 10 }
        ensures capacity { vec_capacity out.old ≤ vec_capacity out.new };

    /// Writes plain bytes, 20..7E.
    fn write_plain(&mut self, run: &[u8])
        requires some { 1 ≤ length run.now }
        requires plain { All IsPlain run.now }
        ensures { self.new ≡ state_after machine (map printed run.now) self.old };

    /// Writes graphic bytes, 20..7E and A1..FE.
    fn write_graphic(&mut self, run: &[u8])
        requires some { 1 ≤ length run.now }
        requires graphic { All HasGlyph run.now }
        ensures { self.new ≡ state_after machine (map printed run.now) self.old };

    /// Writes a character beyond ASCII.
    fn write_character(&mut self, c: char)
        requires beyond { 0x80 ≤ c }
        ensures { self.new ≡ machine.effect (Character c) self.old };

    /// Graphic bytes report nothing.
    ghost prints_silently: { (b : ℕ) (s : Self) → machine.report (printed b) s ≡ [] };

    /// Characters report nothing.
    ghost writes_silently: { (c : ℕ) (s : Self) → machine.report (Character c) s ≡ [] };
}
