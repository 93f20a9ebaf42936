//! Profiles: what the host's bytes are meant for, a VT220 or another terminal.
ghost use Rattle.std.specs.Prelude.{◌≡◌, ◌≤◌, ◌+◌, ◌++◌, vec_len, vec_capacity, None};
ghost use Rattle.vt_syntax.specs.Event.{event_of};
ghost use Rattle.vt_syntax.specs.Front.{AreFirst, front_list};
ghost use Rattle.vt_syntax.specs.Spelling.{IsEvent};
ghost use Rattle.vt_syntax.specs.declared.event.Event.TheVariants.{Sequence};
ghost use Rattle.vt_term.specs.State.{Display};
ghost use Rattle.vt_term.specs.Machines.{KeepsSize, Machine, PrintsAlike};

use crate::sized::SizedTerminal;
use vt_syntax::{EventKind, FrontValues};

/// A profile: what events do. A value of it is what such a terminal keeps besides a VT220's state, such as a page that
/// isn't shown. In every profile, graphic bytes do what they do on a VT220.
pub trait Profile {
    /// The type of the screens, which events change.
    ghost Screens: { Type 0 };

    /// The screens of a display and of what the profile keeps.
    ghost screens: { Display → Self → Screens };

    /// What events do.
    ghost machine: { Machine Screens };

    /// What the profile keeps is of the display's size.
    ghost OneSize: { Screens → Type 0 };

    /// Carries out an event: its kind, and the values of a control sequence. It appends the report in the state before the
    /// event to `out`: at most ten bytes, for which `out` has capacity.
    fn carry_out(
        &mut self,
        terminal: &mut SizedTerminal,
        kind: EventKind,
        values: &[u16],
        out: &mut Vec<u8>,
    )
        requires event { IsEvent (event_of kind values.now) }
        requires one_size { OneSize (screens terminal.old.display self.old) }
        requires room { vec_len out.old + 10 ≤ vec_capacity out.old }
        ensures screens { screens terminal.new.display self.new
            ≡ machine.effect (event_of kind values.now) (screens terminal.old.display self.old) }
        ensures held { terminal.new.held ≡ terminal.old.held }
        ensures items { out.new.items ≡ out.old.items
            ++ machine.report (event_of kind values.now) (screens terminal.old.display self.old) }
        ensures bounded { vec_len out.new ≤ vec_len out.old + 10 }
        ensures capacity { vec_capacity out.old ≤ vec_capacity out.new };

    /// Carries out a control sequence of these values, as `carry_out` does. Speed: the values are in registers.
    fn carry_out_values(
        &mut self,
        terminal: &mut SizedTerminal,
        front: &FrontValues,
        out: &mut Vec<u8>,
    )
        requires few { (1 ≤ front.now.count) × (front.now.count ≤ 3) }
        requires values { AreFirst front.now }
        requires event { IsEvent (Sequence None (record { items = front_list front.now }) None front.now.last) }
        requires one_size { OneSize (screens terminal.old.display self.old) }
        requires room { vec_len out.old + 10 ≤ vec_capacity out.old }
        ensures screens { screens terminal.new.display self.new
            ≡ machine.effect (Sequence None (record { items = front_list front.now }) None front.now.last)
            (screens terminal.old.display self.old) }
        ensures held { terminal.new.held ≡ terminal.old.held }
        ensures items { out.new.items ≡ out.old.items
            ++ machine.report (Sequence None (record { items = front_list front.now }) None front.now.last)
            (screens terminal.old.display self.old) }
        ensures bounded { vec_len out.new ≤ vec_len out.old + 10 }
        ensures capacity { vec_capacity out.old ≤ vec_capacity out.new };

    /// States that the functions keep the size of the screen. It does nothing when it runs.
    fn keeps_size(&self)
        ensures { KeepsSize machine OneSize };

    /// Graphic bytes do what they do on a VT220.
    ghost prints: { PrintsAlike machine screens };
}

/// A VT220, which keeps nothing else.
#[derive(Drop)]
pub struct Vt220;

impl Profile for Vt220 {
    ghost use Rattle.std.specs.Prelude.{⊤};
    ghost use Rattle.vt_term.specs.State.{Display};
    ghost use Rattle.vt_term.specs.Machines.{vt220};
    ghost use Rattle.vt_term.specs.Observers.{vt220_prints};

    ghost Screens = { Display };

    ghost screens = { λ d p. d };

    ghost machine = { vt220 };

    ghost OneSize = { λ d. ⊤ };

    ghost prints = { vt220_prints };

    #[inline(always)]
    fn keeps_size(&self) {}

    #[inline(always)]
    fn carry_out(
        &mut self,
        terminal: &mut SizedTerminal,
        kind: EventKind,
        values: &[u16],
        out: &mut Vec<u8>,
    ) {
        terminal.display.carry_out(kind, values, out);
    }

    #[inline(always)]
    fn carry_out_values(
        &mut self,
        terminal: &mut SizedTerminal,
        front: &FrontValues,
        out: &mut Vec<u8>,
    ) {
        terminal.display.carry_out_values(front, out);
    }
}
