//! The terminal's reports.
ghost use Rattle.std.specs.Prelude.{◌≡◌, ◌+◌, ◌≤◌, ◌<◌, ◌++◌, Some, None, length, decimal, vec_len, vec_capacity};
ghost use Rattle.vt_syntax.specs.Event.{event_of};
ghost use Rattle.vt_term.specs.Answers.{answer, cursor_report};
ghost use Rattle.vt_term.specs.Reports.{report, report_any, control_report_any, sequence_report_any};
ghost use Rattle.vt_term.specs.Kinds.{kind_of};

use crate::codes::{CSI, DECID};
use crate::display::Display;
use crate::functions::first;
use crate::kind::Kind;
use crate::sized::SizedTerminal;
use itoa::Buffer;
use vt_syntax::EventKind;

impl SizedTerminal {
    /// Appends the report of an event in the present display: at most ten bytes, for which `out` has capacity. The event
    /// isn't carried out.
    #[inline(always)]
    pub fn report_reserved(&self, kind: EventKind, values: &[u16], out: &mut Vec<u8>)
        requires { vec_len out.old + 10 ≤ vec_capacity out.old }
        ensures items { out.new.items ≡ out.old.items ++ report (event_of kind values.now) self.now.display }
        ensures bounded { vec_len out.new ≤ vec_len out.old + 10 }
        ensures capacity { vec_capacity out.old ≤ vec_capacity out.new }
    {
        self.display.report(kind, values, out);
    }
}

impl<K: Kind> Display<K> {
    /// Appends the report of an event in this display.
    #[inline(always)]
    pub fn report(&self, kind: EventKind, values: &[u16], out: &mut Vec<u8>)
        requires { vec_len out.old + 10 ≤ vec_capacity out.old }
        ensures items { out.new.items ≡ out.old.items ++ report_any (kind_of K.cells K.own) (event_of kind values.now) self.now }
        ensures bounded { vec_len out.new ≤ vec_len out.old + 10 }
        ensures capacity { vec_capacity out.old ≤ vec_capacity out.new }
    {
        match kind {
            EventKind::Print(_) => {}
            EventKind::Control(b) => self.report_control(b, out),
            EventKind::Escape { .. } => {}
            EventKind::Sequence {
                marker,
                inter,
                last,
            } => self.report_sequence(marker, inter, last, first(values), out),
        }
    }

    /// Appends the report to DECID.
    #[inline(always)]
    #[tactic(auto, unfolding(crate::specs::Reports::control_report_any))]
    fn report_control(&self, b: u8, out: &mut Vec<u8>)
        requires { vec_len out.old + 10 ≤ vec_capacity out.old }
        ensures items { out.new.items ≡ out.old.items ++ control_report_any (kind_of K.cells K.own) b self.now }
        ensures bounded { vec_len out.new ≤ vec_len out.old + 10 }
        ensures capacity { vec_capacity out.old ≤ vec_capacity out.new }
    {
        if b == DECID {
            self.answer(b"?62;1;6c", out);
        }
    }

    /// Appends the report to a control sequence, by its first parameter. Only those that end with `c` or `n` have one.
    #[inline(always)]
    pub fn report_sequence(
        &self,
        marker: Option<u8>,
        inter: Option<u8>,
        last: u8,
        p: u16,
        out: &mut Vec<u8>,
    )
        requires { vec_len out.old + 10 ≤ vec_capacity out.old }
        ensures items { out.new.items ≡ out.old.items ++ sequence_report_any (kind_of K.cells K.own) marker inter last p self.now }
        ensures bounded { vec_len out.new ≤ vec_len out.old + 10 }
        ensures capacity { vec_capacity out.old ≤ vec_capacity out.new }
    {
        if last == b'c' {
            return self.report_attributes(marker, inter, p, out);
        }
        if last == b'n' {
            self.report_status(marker, inter, p, out);
        }
    }

    /// Appends the report to DA, primary or secondary.
    #[inline(never)]
    #[tactic(auto, unfolding(crate::specs::Functions::sequences_any, crate::specs::Reports::sequence_report_any))]
    fn report_attributes(&self, marker: Option<u8>, inter: Option<u8>, p: u16, out: &mut Vec<u8>)
        requires { vec_len out.old + 10 ≤ vec_capacity out.old }
        ensures items { out.new.items ≡ out.old.items ++ sequence_report_any (kind_of K.cells K.own) marker inter 0x63 p self.now }
        ensures bounded { vec_len out.new ≤ vec_len out.old + 10 }
        ensures capacity { vec_capacity out.old ≤ vec_capacity out.new }
    {
        match (marker, inter, p) {
            (None, None, 0) => self.answer(b"?62;1;6c", out),
            (Some(b'>'), None, 0) => self.answer(b">1;10;0c", out),
            _ => {}
        }
    }

    /// Appends the report to DSR: the operating status, the cursor's position, and with the marker `?` the printer or the
    /// keyboard's language.
    #[inline(never)]
    #[tactic(auto, unfolding(crate::specs::Functions::sequences_any, crate::specs::Reports::sequence_report_any))]
    fn report_status(&self, marker: Option<u8>, inter: Option<u8>, p: u16, out: &mut Vec<u8>)
        requires { vec_len out.old + 10 ≤ vec_capacity out.old }
        ensures items { out.new.items ≡ out.old.items ++ sequence_report_any (kind_of K.cells K.own) marker inter 0x6E p self.now }
        ensures bounded { vec_len out.new ≤ vec_len out.old + 10 }
        ensures capacity { vec_capacity out.old ≤ vec_capacity out.new }
    {
        match (marker, inter, p) {
            (None, None, 5) => self.answer(b"0n", out),
            (None, None, 6) => self.report_cursor(out),
            (Some(b'?'), None, 15) => self.answer(b"?13n", out),
            (Some(b'?'), None, 26) => self.answer(b"?27;1n", out),
            _ => {}
        }
    }

    /// Appends a report: the introducer in its 7-bit or 8-bit form, and a text.
    fn answer(&self, text: &[u8], out: &mut Vec<u8>)
        requires { vec_len out.old + length text.now + 2 ≤ vec_capacity out.old }
        ensures items { out.new.items ≡ out.old.items ++ answer text.now self.now }
        ensures bounded { vec_len out.new ≤ vec_len out.old + length text.now + 2 }
        ensures capacity { vec_capacity out.old ≤ vec_capacity out.new }
    {
        if self.modes.reports_8bit {
            out.push(CSI).unwrap();
        } else {
            out.extend_from_slice(b"\x1B[").unwrap();
        }
        out.extend_from_slice(text).unwrap();
    }

    /// Appends CPR: the cursor's row, under DECOM counted from the top margin, and its column.
    fn report_cursor(&self, out: &mut Vec<u8>)
        requires { vec_len out.old + 10 ≤ vec_capacity out.old }
        ensures items { out.new.items ≡ out.old.items ++ cursor_report self.now }
        ensures bounded { vec_len out.new ≤ vec_len out.old + 10 }
        ensures capacity { vec_capacity out.old ≤ vec_capacity out.new }
    {
        let line = if self.modes.decom {
            self.cursor.row - self.margins.top + 1
        } else {
            self.cursor.row
        };
        self.answer(b"", out);
        push_number(line as u16, out);
        out.push(b';').unwrap();
        push_number(self.cursor.col as u16, out);
        out.push(b'R').unwrap();
    }
}

/// Appends a number of at most three digits.
#[tactic(auto, using(crate::proofs::GlyphSizes::decimal_short))]
fn push_number(n: u16, out: &mut Vec<u8>)
    requires small { n < 1000 }
    requires room { vec_len out.old + 3 ≤ vec_capacity out.old }
    ensures items { out.new.items ≡ out.old.items ++ decimal n }
    ensures bounded { vec_len out.new ≤ vec_len out.old + 3 }
    ensures capacity { vec_capacity out.old ≤ vec_capacity out.new }
{
    let mut buffer = Buffer::new();
    let digits = buffer.format(n);
    out.extend_from_slice(digits.as_bytes()).unwrap();
}
