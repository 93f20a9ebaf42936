//! The function that an action asks for.
ghost use Rattle.std.specs.Prelude.{◌≡◌, ◌≤◌, ◌<◌, ◌+◌, ◌++◌, [], All, map, length, vec_len, vec_capacity, Some, None, slice_index};
ghost use Rattle.vt_glyph.specs.Invocation.{HasGlyph};
ghost use Rattle.vt_syntax.specs.Class.{IsPlain};
ghost use Rattle.vt_syntax.specs.Event.{event_of};
ghost use Rattle.vt_syntax.specs.Front.{AreFirst, front_list};
ghost use Rattle.vt_syntax.specs.Spelling.{IsEvent};
ghost use Rattle.vt_syntax.specs.declared.event.Event.TheVariants.{Control, Escape, Sequence};
ghost use Rattle.vt_term.specs.Reports.{report_any};
ghost use Rattle.vt_xterm_display.specs.State.{xterm_kind, between};
ghost use Rattle.vt_xterm_display.specs.Functions.{controls, plain_escapes, alignments, sequences, function_in, effect, substitute};
ghost use Rattle.vt_xterm_display.specs.Functions.{rows_down_by, save_or_set_sides, restore_if_bare, plain_sequences, is_bare};
ghost use Rattle.vt_xterm_display.specs.Functions.{private_sequences, space_sequences, exclamation_sequences, quote_sequences, plainly};

use crate::display::XtermDisplay;
use vt_glyph::Glyph;
use vt_syntax::{EventKind, FrontValues};
use vt_term::count;

/// Returns one of the values: 0 if there are fewer.
fn value(values: &[u16], at: usize) -> u16
    ensures { result ≡ slice_index values.now at }
{
    values.get(at).copied().unwrap_or(0)
}

/// Returns whether the only value is empty, or 0.
fn is_bare(values: &[u16]) -> bool
    ensures { result ≡ is_bare values.now }
{
    values.len() == 1 && value(values, 0) == 0
}

impl XtermDisplay {
    /// Carries out an event: its kind, and the values of a control sequence. It appends the report in the state before the event to `out`:
    /// at most ten bytes, for which `out` has capacity.
    pub(crate) fn carry_out_event(&mut self, kind: EventKind, values: &[u16], out: &mut Vec<u8>)
        requires event { IsEvent (event_of kind values.now) }
        requires room { vec_len out.old + 10 ≤ vec_capacity out.old }
        ensures state { self.new ≡ effect (event_of kind values.now) self.old }
        ensures items { out.new.items ≡ out.old.items ++ report_any xterm_kind (event_of kind values.now) self.old.shown }
        ensures bounded { vec_len out.new ≤ vec_len out.old + 10 }
        ensures capacity { vec_capacity out.old ≤ vec_capacity out.new }
    {
        self.shown.report(kind, values, out);
        match kind {
            EventKind::Print(b) => self.print(b),
            EventKind::Control(b) => self.control(b),
            EventKind::Escape { inter: None, last } => self.plain_escape(last),
            EventKind::Escape {
                inter: Some(inter),
                last,
            } => self.escape_with(inter, last),
            EventKind::Sequence {
                marker,
                inter,
                last,
            } => self.sequence(marker, values, inter, last),
        }
    }

    /// Carries out a control sequence of these values. Speed: CUP and SGR are tested before the table.
    #[inline(always)]
    #[tactic(auto, unfolding(crate::specs::Functions::sequences, crate::specs::Functions::function_in, vt_term::specs::Functions::sequences_any, vt_term::specs::Functions::sequence_in, vt_term::specs::Reports::sequence_report_any))]
    pub(crate) fn carry_out_front(&mut self, front: &FrontValues, out: &mut Vec<u8>)
        requires few { (1 ≤ front.now.count) × (front.now.count ≤ 3) }
        requires values { AreFirst front.now }
        requires room { vec_len out.old + 10 ≤ vec_capacity out.old }
        ensures state { self.new ≡ effect (Sequence None (record { items = front_list front.now }) None front.now.last) self.old }
        ensures items { out.new.items ≡ out.old.items
            ++ report_any xterm_kind (Sequence None (record { items = front_list front.now }) None front.now.last) self.old.shown }
        ensures bounded { vec_len out.new ≤ vec_len out.old + 10 }
        ensures capacity { vec_capacity out.old ≤ vec_capacity out.new }
    {
        if front.last == b'H' {
            return self.cursor_position(front.first, front.second);
        }
        if front.last == b'm' {
            return self.shown.select_front_rendition(front);
        }
        let list = [front.first, front.second, front.third];
        self.shown
            .report_sequence(None, None, front.last, front.first, out);
        self.plain_sequence(front.last, &list[..front.count]);
    }

    /// Carries out SUB: writes U+2426.
    fn write_substitute(&mut self)
        ensures { self.new ≡ substitute self.old }
    {
        let cell = self.shown.pen.written(Glyph::substitute());
        self.write(cell);
    }

    /// Carries out a control.
    #[tactic(auto, unfolding(crate::specs::Functions::function_in, vt_term::specs::Functions::control_any))]
    pub(crate) fn control(&mut self, b: u8)
        ensures { self.new ≡ function_in controls (Control b) b [] self.old }
    {
        match b {
            0x08 => self.cursor_backward(1),
            0x09 => self.cursor_forward_tabulation(1),
            0x0A => self.line_feed(),
            0x0B => self.line_feed(),
            0x0C => self.line_feed(),
            0x0D => self.carriage_return(),
            0x0E => self.shown.lock_left(1),
            0x0F => self.shown.lock_left(0),
            0x1A => self.write_substitute(),
            0x84 => self.index(),
            0x85 => self.next_line(),
            0x88 => self.shown.set_tab(),
            0x8D => self.reverse_index(),
            0x8E => self.shown.shift_once(2),
            0x8F => self.shown.shift_once(3),
            _ => {}
        }
    }

    /// Carries out an escape sequence without an intermediate.
    #[tactic(auto, unfolding(crate::specs::Functions::function_in, vt_term::specs::Functions::plain_escape_any))]
    fn plain_escape(&mut self, last: u8)
        ensures { self.new ≡ function_in plain_escapes (Escape None last) last [] self.old }
    {
        match last {
            b'7' => self.save_cursor(),
            b'8' => self.restore_cursor(),
            b'=' => self.shown.keypad_mode(true),
            b'>' => self.shown.keypad_mode(false),
            b'c' => self.reset_to_initial_state(),
            b'n' => self.shown.lock_left(2),
            b'o' => self.shown.lock_left(3),
            b'~' => self.shown.lock_right(1),
            b'}' => self.shown.lock_right(2),
            b'|' => self.shown.lock_right(3),
            _ => {}
        }
    }

    /// Carries out an escape sequence with an intermediate.
    #[tactic(auto, unfolding(crate::specs::Functions::function_in, vt_term::specs::Functions::escape_with_any))]
    fn escape_with(&mut self, inter: u8, last: u8)
        ensures { self.new ≡ function_in (alignments inter) (Escape (Some inter) last) last [] self.old }
    {
        match inter {
            b' ' => self.set_report_form(last),
            b'#' => {
                if last == b'8' {
                    self.screen_alignment();
                }
            }
            b'(' => self.shown.designate(0, last),
            b')' => self.shown.designate(1, last),
            b'*' => self.shown.designate(2, last),
            b'+' => self.shown.designate(3, last),
            _ => {}
        }
    }

    /// Carries out S7C1T and S8C1T.
    #[tactic(auto, unfolding(vt_term::specs::Functions::escape_with_any))]
    fn set_report_form(&mut self, last: u8)
        ensures { self.new ≡ plainly (Escape (Some 0x20) last) self.old }
    {
        match last {
            b'F' => self.shown.report_form(false),
            b'G' => self.shown.report_form(true),
            _ => {}
        }
    }

    /// Carries out a control sequence.
    #[tactic(auto, unfolding(crate::specs::Functions::sequences, crate::specs::Functions::function_in, vt_term::specs::Functions::sequences_any, vt_term::specs::Functions::sequence_in))]
    fn sequence(&mut self, marker: Option<u8>, values: &[u16], inter: Option<u8>, last: u8)
        ensures { self.new ≡ function_in (sequences marker inter) (Sequence marker (record { items = values.now }) inter last) last values.now
            self.old }
    {
        match (marker, inter) {
            (None, None) => self.plain_sequence(last, values),
            (Some(b'?'), None) => self.private_sequence(last, values),
            (None, Some(inter)) => self.sequence_with(inter, last, values),
            _ => {}
        }
    }

    /// Carries out a control sequence without marker and intermediate. DA and DSR only report.
    #[tactic(auto, unfolding(crate::specs::Functions::function_in, vt_term::specs::Functions::sequences_any, vt_term::specs::Functions::sequence_in))]
    fn plain_sequence(&mut self, last: u8, values: &[u16])
        ensures { self.new ≡ function_in plain_sequences (Sequence None (record { items = values.now }) None last) last values.now self.old }
    {
        let n = count(values);
        match last {
            b'@' => self.insert_character(n),
            b'A' => self.cursor_up(n),
            b'B' => self.cursor_down(n),
            b'C' => self.cursor_forward(n),
            b'D' => self.cursor_backward(n),
            b'E' => self.cursor_next_line(n),
            b'F' => self.cursor_preceding_line(n),
            b'G' => self.cursor_character_absolute(n),
            b'H' => self.cursor_position(value(values, 0), value(values, 1)),
            b'I' => self.cursor_forward_tabulation(n),
            b'J' => self.erase_in_display(false, value(values, 0)),
            b'K' => self.erase_in_line(false, value(values, 0)),
            b'L' => self.insert_line(n),
            b'M' => self.delete_line(n),
            b'P' => self.delete_character(n),
            b'S' => self.rows_up(n),
            b'T' => self.rows_down_by(values),
            b'X' => self.erase_character(n),
            b'Z' => self.cursor_backward_tabulation(n),
            b'^' => self.rows_down(n),
            b'`' => self.cursor_character_absolute(n),
            b'a' => self.character_position_forward(n),
            b'b' => self.repeat(n),
            b'c' => {}
            b'd' => self.line_position_absolute(n),
            b'e' => self.line_position_forward(n),
            b'f' => self.cursor_position(value(values, 0), value(values, 1)),
            b'g' => self.shown.clear_tabs(value(values, 0)),
            b'h' => self.change_ansi_modes(values, true),
            b'l' => self.change_ansi_modes(values, false),
            b'm' => self.shown.select_graphic_rendition(values),
            b'n' => {}
            b'r' => self.set_margins(value(values, 0), value(values, 1)),
            b's' => self.save_or_set_sides(values),
            b'u' => self.restore_if_bare(values),
            _ => {}
        }
    }

    /// Carries out SD by `T`, which has one parameter.
    fn rows_down_by(&mut self, values: &[u16])
        ensures { self.new ≡ rows_down_by values.now self.old }
    {
        if values.len() == 1 {
            self.rows_down(count(values));
        }
    }

    /// Carries out DECSLRM under DECLRMM, otherwise SCP.
    fn save_or_set_sides(&mut self, values: &[u16])
        ensures { self.new ≡ save_or_set_sides values.now self.old }
    {
        if self.bounded {
            self.set_sides(value(values, 0), value(values, 1));
        } else if is_bare(values) {
            self.save_cursor();
        }
    }

    /// Carries out RCP.
    fn restore_if_bare(&mut self, values: &[u16])
        ensures { self.new ≡ restore_if_bare values.now self.old }
    {
        if is_bare(values) {
            self.restore_cursor();
        }
    }

    /// Carries out a private control sequence, with the marker `?`. DSR only reports.
    #[tactic(auto, unfolding(crate::specs::Functions::function_in, vt_term::specs::Functions::sequences_any, vt_term::specs::Functions::sequence_in))]
    fn private_sequence(&mut self, last: u8, values: &[u16])
        ensures { self.new ≡ function_in private_sequences (Sequence (Some 0x3F) (record { items = values.now }) None last) last values.now
            self.old }
    {
        match last {
            b'J' => self.erase_in_display(true, value(values, 0)),
            b'K' => self.erase_in_line(true, value(values, 0)),
            b'h' => self.change_modes(values, true),
            b'l' => self.change_modes(values, false),
            b'n' => {}
            _ => {}
        }
    }

    /// Carries out a control sequence with an intermediate: DECSCUSR, DECSTR, DECSCL or DECSCA.
    #[tactic(auto, unfolding(crate::specs::Functions::sequences, crate::specs::Functions::function_in, vt_term::specs::Functions::sequences_any, vt_term::specs::Functions::sequence_in))]
    fn sequence_with(&mut self, inter: u8, last: u8, values: &[u16])
        ensures { self.new ≡ function_in (sequences None (Some inter)) (Sequence None (record { items = values.now }) (Some inter) last) last
            values.now self.old }
    {
        match (inter, last) {
            (b' ', b'q') => self.set_cursor_style(value(values, 0)),
            (b'!', b'p') => self.soft_reset(),
            (b'"', b'p') => self.set_conformance_level(value(values, 0), value(values, 1)),
            (b'"', b'q') => self.shown.select_character_attribute(value(values, 0)),
            _ => {}
        }
    }
}
