//! The function that an event asks for.
ghost use Rattle.std.specs.Prelude.{◌≡◌, ◌<◌, ◌≤◌, ◌+◌, ◌++◌, vec_len, vec_capacity, Some, None};
ghost use Rattle.vt_syntax.specs.Spelling.{IsEvent};
ghost use Rattle.vt_syntax.specs.declared.event.Event.TheVariants.{Sequence};
ghost use Rattle.vt_syntax.specs.Event.{event_of};
ghost use Rattle.vt_syntax.specs.Front.{AreFirst, front_list};
ghost use Rattle.vt_glyph.specs.Tables.{substitute_glyph};
ghost use Rattle.vt_term.specs.Writing.{write_glyph_any};
ghost use Rattle.vt_term.specs.Kinds.{kind_of};
ghost use Rattle.vt_term.specs.Parameters.{first, second, count};
ghost use Rattle.vt_glyph.specs.Invocation.{locked_left, locked_right, shifted_once};
ghost use Rattle.vt_term.specs.Functions.{effect_any, control_any, plain_escape_any, escape_with_any, designate, with_sets};
ghost use Rattle.vt_term.specs.Functions.{sequences_any, sequence_in, plain_sequences_any, private_sequences_any};
ghost use Rattle.vt_term.specs.Functions.{quote_sequences_any, exclamation_sequences_any};
ghost use Rattle.vt_term.specs.Reports.{report_any};

use crate::codes::{BS, CR, FF, HT, HTS, IND, LF, NEL, RI, SI, SO, SS2, SS3, SUB, VT};
use crate::display::Display;
use crate::kind::Kind;
use vt_glyph::{Glyph, Set};
use vt_syntax::{EventKind, FrontValues};

/// Returns the first parameter, or 0 if there is none.
pub(crate) fn first(params: &[u16]) -> u16
    ensures { result ≡ first params.now }
{
    params.first().copied().unwrap_or(0)
}

/// Returns the second parameter, or 0 if there is none.
fn second(params: &[u16]) -> u16
    ensures { result ≡ second params.now }
{
    params.get(1).copied().unwrap_or(0)
}

/// Returns the first parameter as a count: 0 means 1. (EK-VT220-RM, chapter 4)
pub fn count(params: &[u16]) -> u16
    ensures { result ≡ count params.now }
{
    first(params).max(1)
}

impl<K: Kind> Display<K> {
    /// Carries out an event: its kind, and the values of a control sequence. It appends the report in the state before
    /// the event to `out`: at most ten bytes, for which `out` has capacity.
    #[inline(always)]
    pub fn carry_out(&mut self, kind: EventKind, values: &[u16], out: &mut Vec<u8>)
        requires event { IsEvent (event_of kind values.now) }
        requires room { vec_len out.old + 10 ≤ vec_capacity out.old }
        ensures state { self.new ≡ effect_any (kind_of K.cells K.own) (event_of kind values.now) self.old }
        ensures items { out.new.items ≡ out.old.items ++ report_any (kind_of K.cells K.own) (event_of kind values.now) self.old }
        ensures bounded { vec_len out.new ≤ vec_len out.old + 10 }
        ensures capacity { vec_capacity out.old ≤ vec_capacity out.new }
    {
        self.report(kind, values, out);
        match kind {
            EventKind::Print(b) => self.print(b),
            EventKind::Control(b) => self.control(b),
            EventKind::Escape { inter: None, last } => self.plain_escape(last),
            EventKind::Escape {
                inter: Some(inter),
                last,
            } => self.escape_with(inter, last),
            EventKind::Sequence {
                marker,
                inter,
                last,
            } => self.sequence(marker, values, inter, last),
        }
    }

    /// Carries out a control sequence of these values.
    ///
    /// Speed: CUP and SGR are tested before the table, and all others out of line.
    #[inline(always)]
    #[tactic(auto, unfolding(crate::specs::Functions::sequences_any, crate::specs::Functions::sequence_in, crate::specs::Reports::sequence_report_any))]
    pub fn carry_out_values(&mut self, front: &FrontValues, out: &mut Vec<u8>)
        requires few { (1 ≤ front.now.count) × (front.now.count ≤ 3) }
        requires values { AreFirst front.now }
        requires room { vec_len out.old + 10 ≤ vec_capacity out.old }
        ensures state { self.new ≡ effect_any (kind_of K.cells K.own) (Sequence None (record { items = front_list front.now }) None front.now.last) self.old }
        ensures items { out.new.items ≡ out.old.items
            ++ report_any (kind_of K.cells K.own) (Sequence None (record { items = front_list front.now }) None front.now.last) self.old }
        ensures bounded { vec_len out.new ≤ vec_len out.old + 10 }
        ensures capacity { vec_capacity out.old ≤ vec_capacity out.new }
    {
        if front.last == b'H' {
            return self.cursor_position(front.first, front.second);
        }
        if front.last == b'm' {
            return self.select_front_rendition(front);
        }
        let list = [front.first, front.second, front.third];
        self.report_sequence(None, None, front.last, front.first, out);
        self.plain_sequence(front.last, &list[..front.count]);
    }

    /// Carries out a C0 or C1 control. (It is inlined in each caller, so CR and LF cost no dispatch.)
    #[inline(always)]
    #[tactic(auto, unfolding(crate::specs::Functions::control_any))]
    pub fn control(&mut self, b: u8)
        ensures { self.new ≡ control_any (kind_of K.cells K.own) b self.old }
    {
        match b {
            BS => self.backspace(),
            HT => self.horizontal_tab(),
            LF => self.line_feed(),
            VT => self.line_feed(),
            FF => self.line_feed(),
            CR => self.carriage_return(),
            SO => self.lock_left(1),
            SI => self.lock_left(0),
            SUB => self.write_substitute(),
            IND => self.index(),
            NEL => self.next_line(),
            HTS => self.set_tab(),
            RI => self.reverse_index(),
            SS2 => self.shift_once(2),
            SS3 => self.shift_once(3),
            _ => {}
        }
    }

    /// Carries out SUB: writes U+2426.
    #[inline(never)]
    fn write_substitute(&mut self)
        ensures { self.new ≡ write_glyph_any (kind_of K.cells K.own) substitute_glyph self.old }
    {
        self.write_glyph(Glyph::substitute());
    }

    /// Carries out an escape sequence without an intermediate.
    #[tactic(auto, unfolding(crate::specs::Functions::plain_escape_any))]
    fn plain_escape(&mut self, last: u8)
        ensures { self.new ≡ plain_escape_any (kind_of K.cells K.own) last self.old }
    {
        match last {
            b'7' => self.save_cursor(),
            b'8' => self.restore_cursor(),
            b'=' => self.keypad_mode(true),
            b'>' => self.keypad_mode(false),
            b'c' => self.reset_to_initial_state(),
            b'n' => self.lock_left(2),
            b'o' => self.lock_left(3),
            b'~' => self.lock_right(1),
            b'}' => self.lock_right(2),
            b'|' => self.lock_right(3),
            _ => {}
        }
    }

    /// Carries out an escape sequence with an intermediate.
    #[inline(always)]
    #[tactic(auto, unfolding(crate::specs::Functions::escape_with_any))]
    fn escape_with(&mut self, inter: u8, last: u8)
        ensures { self.new ≡ escape_with_any (kind_of K.cells K.own) inter last self.old }
    {
        if inter == b'(' {
            return self.designate(0, last);
        }
        self.rare_escape(inter, last);
    }

    /// Carries out an escape sequence with an intermediate. Speed: `escape_with` tests for G0 first, which is frequent.
    #[inline(never)]
    #[tactic(auto, unfolding(crate::specs::Functions::escape_with_any))]
    fn rare_escape(&mut self, inter: u8, last: u8)
        ensures { self.new ≡ escape_with_any (kind_of K.cells K.own) inter last self.old }
    {
        match (inter, last) {
            (b' ', b'F') => self.report_form(false),
            (b' ', b'G') => self.report_form(true),
            (b'#', b'8') => self.screen_alignment(),
            (b'(', _) => self.designate(0, last),
            (b')', _) => self.designate(1, last),
            (b'*', _) => self.designate(2, last),
            (b'+', _) => self.designate(3, last),
            _ => {}
        }
    }

    /// Carries out SCS: designates the set of a final byte. Another final byte does nothing.
    #[inline(always)]
    pub fn designate(&mut self, slot: u8, last: u8)
        requires { slot < 4 }
        ensures { self.new ≡ designate slot last self.old }
    {
        if let Some(set) = Set::of_final(last) {
            self.sets.designate(slot, set);
        }
    }

    /// Carries out LS0 to LS3.
    pub fn lock_left(&mut self, slot: u8)
        requires { slot < 4 }
        ensures { self.new ≡ with_sets (locked_left slot) self.old }
    {
        self.sets.lock_left(slot);
    }

    /// Carries out LS1R to LS3R.
    pub fn lock_right(&mut self, slot: u8)
        requires { (1 ≤ slot) × (slot < 4) }
        ensures { self.new ≡ with_sets (locked_right slot) self.old }
    {
        self.sets.lock_right(slot);
    }

    /// Carries out SS2 and SS3.
    pub fn shift_once(&mut self, slot: u8)
        requires { (2 ≤ slot) × (slot < 4) }
        ensures { self.new ≡ with_sets (shifted_once slot) self.old }
    {
        self.sets.shift_once(slot);
    }

    /// Carries out a control sequence.
    #[inline(always)]
    #[tactic(auto, unfolding(crate::specs::Functions::sequences_any, crate::specs::Functions::sequence_in))]
    fn sequence(&mut self, marker: Option<u8>, params: &[u16], inter: Option<u8>, last: u8)
        ensures { self.new ≡ sequence_in (sequences_any (kind_of K.cells K.own) marker inter) last params.now self.old }
    {
        match (marker, inter) {
            (None, None) => self.plain_sequence(last, params),
            (Some(b'?'), None) => self.private_sequence(last, params),
            (None, Some(b'"')) => self.quote_sequence(last, params),
            (None, Some(b'!')) => self.exclamation_sequence(last, params),
            _ => {}
        }
    }

    /// Carries out a control sequence without marker and intermediate. DA and DSR only report.
    #[inline(never)]
    #[tactic(auto, unfolding(crate::specs::Functions::sequence_in))]
    fn plain_sequence(&mut self, last: u8, params: &[u16])
        ensures { self.new ≡ sequence_in (plain_sequences_any (kind_of K.cells K.own)) last params.now self.old }
    {
        match last {
            b'@' => self.insert_character(count(params)),
            b'A' => self.cursor_up(count(params)),
            b'B' => self.cursor_down(count(params)),
            b'C' => self.cursor_forward(count(params)),
            b'D' => self.cursor_backward(count(params)),
            b'H' => self.cursor_position(first(params), second(params)),
            b'J' => self.erase_in_display(false, first(params)),
            b'K' => self.erase_in_line(false, first(params)),
            b'L' => self.insert_line(count(params)),
            b'M' => self.delete_line(count(params)),
            b'P' => self.delete_character(count(params)),
            b'X' => self.erase_character(count(params)),
            b'c' => {}
            b'f' => self.cursor_position(first(params), second(params)),
            b'g' => self.clear_tabs(first(params)),
            b'h' => self.change_ansi_modes(params, true),
            b'l' => self.change_ansi_modes(params, false),
            b'm' => self.select_graphic_rendition(params),
            b'n' => {}
            b'r' => self.set_margins(first(params), second(params)),
            _ => {}
        }
    }

    /// Carries out a private control sequence, with the marker `?`. DSR only reports.
    #[tactic(auto, unfolding(crate::specs::Functions::sequence_in))]
    fn private_sequence(&mut self, last: u8, params: &[u16])
        ensures { self.new ≡ sequence_in (private_sequences_any (kind_of K.cells K.own)) last params.now self.old }
    {
        match last {
            b'J' => self.erase_in_display(true, first(params)),
            b'K' => self.erase_in_line(true, first(params)),
            b'h' => self.change_private_modes(params, true),
            b'l' => self.change_private_modes(params, false),
            b'n' => {}
            _ => {}
        }
    }

    /// Carries out a control sequence with the intermediate `"`.
    #[tactic(auto, unfolding(crate::specs::Functions::sequence_in))]
    fn quote_sequence(&mut self, last: u8, params: &[u16])
        ensures { self.new ≡ sequence_in (quote_sequences_any (kind_of K.cells K.own)) last params.now self.old }
    {
        match last {
            b'p' => self.set_conformance_level(first(params), second(params)),
            b'q' => self.select_character_attribute(first(params)),
            _ => {}
        }
    }

    /// Carries out a control sequence with the intermediate `!`.
    #[tactic(auto, unfolding(crate::specs::Functions::sequence_in))]
    fn exclamation_sequence(&mut self, last: u8, params: &[u16])
        ensures { self.new ≡ sequence_in (exclamation_sequences_any (kind_of K.cells K.own)) last params.now self.old }
    {
        if last == b'p' {
            self.soft_reset();
        }
    }
}
