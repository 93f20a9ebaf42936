//! Calls for a front: a caller that reads the host's bytes by the terminal's syntax, and has functions that a VT220 lacks.
//! All but `next_event` leave what is held.
ghost use Rattle.std.specs.Prelude.{◌≡◌, ◌≤◌, ◌+◌, ◌++◌, IfSome, IfNone, All, true, false, length, map, take, vec_len, vec_capacity};
ghost use Rattle.vt_syntax.specs.Event.{event_of, event_in};
ghost use Rattle.vt_syntax.specs.Held.{events_from, held_from};
ghost use Rattle.vt_syntax.specs.Spelling.{IsEvent};
ghost use Rattle.vt_screen.specs.Grid.{scroll_up, scroll_down};
ghost use Rattle.vt_term.specs.State.{at_place};
ghost use Rattle.vt_term.specs.Functions.{effect};
ghost use Rattle.vt_term.specs.Reports.{report};
ghost use Rattle.vt_glyph.specs.Encoding.{IsEncoding, encoded_glyph};
ghost use Rattle.vt_term.specs.Writing.{write_glyph, write_glyphs};
ghost use Rattle.vt_term.specs.Editing.{erase_in_display};
ghost use Rattle.vt_term.specs.Rendition.{select_graphic_rendition};
ghost use Rattle.vt_term.specs.Modes.{change_modes, private_modes};
ghost use Rattle.vt_term.specs.Saving.{save_cursor, restore_cursor};
ghost use Rattle.vt_term.specs.Resets.{soft_reset};

use crate::sized::SizedTerminal;
use crate::state::{Cursor, Margins};
use vt_glyph::Glyph;
use vt_syntax::{EventKind, Taken, Values};

impl SizedTerminal {
    /// Reads the front of a chunk up to the first event, and all of it if there is none. The event isn't carried out.
    /// Returns how many bytes it read, and the event. It writes the values of a control sequence into `values`.
    pub fn next_event(&mut self, piece: &[u8], values: &mut Values) -> Taken
        ensures some { 1 ≤ length piece.now → 1 ≤ result.bytes }
        ensures within { result.bytes ≤ length piece.now }
        ensures event { event_in result.event values.new ≡ events_from self.old.held (take result.bytes piece.now) }
        ensures state { self.new ≡ record self.old { held = held_from self.old.held (take result.bytes piece.now) } }
        ensures all { IfNone result.event (result.bytes ≡ length piece.now) }
        ensures in_range { IfSome result.event (λ kind. IsEvent (event_of kind values.new)) }
    {
        self.parser.next(piece, values)
    }

    /// Carries out an event, and appends its report to `out`, which has capacity for ten more bytes.
    #[inline(never)]
    pub fn carry_out(&mut self, kind: EventKind, values: &[u16], out: &mut Vec<u8>)
        requires event { IsEvent (event_of kind values.now) }
        requires room { vec_len out.old + 10 ≤ vec_capacity out.old }
        ensures state { self.new ≡ record self.old { display = effect (event_of kind values.now) self.old.display } }
        ensures reports { out.new.items ≡ out.old.items ++ report (event_of kind values.now) self.old.display }
        ensures bounded { vec_len out.new ≤ vec_len out.old + 10 }
        ensures capacity { vec_capacity out.old ≤ vec_capacity out.new }
    {
        self.display.carry_out(kind, values, out);
    }

    /// Moves the cursor to a row and a column, and resets the wrap flag. Under DECOM the row is inside the margins.
    pub fn move_to(&mut self, row: usize, col: usize)
        requires row { (1 ≤ row) × (row ≤ self.old.display.grid.size.rows) }
        requires column { (1 ≤ col) × (col ≤ self.old.display.grid.width) }
        requires origin { self.old.display.modes.decom ≡ true
            → (self.old.display.margins.top ≤ row) × (row ≤ self.old.display.margins.bottom) }
        ensures { self.new ≡ record self.old { display = record self.old.display { cursor = at_place row col } } }
    {
        self.display.cursor = Cursor::at(row, col);
    }

    /// Moves the rows between the margins up by `n`. Blank rows come in at the bottom margin. The cursor stays, with its wrap
    /// flag.
    pub fn scroll_up(&mut self, n: u16)
        ensures { self.new ≡ record self.old {
          display = record self.old.display {
            grid = scroll_up self.old.display.grid self.old.display.margins.top self.old.display.margins.bottom n;
          };
        } }
    {
        let Margins { top, bottom } = self.display.margins;
        self.display.screen.scroll_up(top, bottom, n);
    }

    /// Moves the rows between the margins down by `n`. Blank rows come in at the top margin. The cursor stays, with its wrap
    /// flag.
    pub fn scroll_down(&mut self, n: u16)
        ensures { self.new ≡ record self.old {
          display = record self.old.display {
            grid = scroll_down self.old.display.grid self.old.display.margins.top self.old.display.margins.bottom n;
          };
        } }
    {
        let Margins { top, bottom } = self.display.margins;
        self.display.screen.scroll_down(top, bottom, n);
    }

    /// Writes a glyph at the cursor, after a pending wrap. The graphic sets and a pending single shift stay.
    pub fn write_glyph(&mut self, glyph: Glyph)
        ensures { self.new ≡ record self.old { display = write_glyph glyph self.old.display } }
    {
        self.display.write_glyph(glyph);
    }

    /// Writes the glyphs with these codes (`Glyph::code`) at the cursor, one after another, as `write_glyph` does. Speed: glyphs
    /// that end in the cursor's row are written at once.
    #[inline(always)]
    pub fn write_codes(&mut self, codes: &[u8])
        requires codes { All IsEncoding codes.now }
        ensures { self.new ≡ record self.old {
          display = write_glyphs (map encoded_glyph codes.now) self.old.display;
        } }
    {
        self.display.write_codes(codes);
    }

    /// Carries out DECSC: saves the cursor. (EK-VT220-RM, chapter 4)
    pub fn save_cursor(&mut self)
        ensures { self.new ≡ record self.old { display = save_cursor self.old.display } }
    {
        self.display.save_cursor();
    }

    /// Carries out DECRC: restores the saved cursor. (EK-VT220-RM, chapter 4)
    pub fn restore_cursor(&mut self)
        ensures { self.new ≡ record self.old { display = restore_cursor self.old.display } }
    {
        self.display.restore_cursor();
    }

    /// Carries out DECSTR: a soft reset. (EK-VT220-RM, chapter 4; the list of it is this profile's)
    pub fn soft_reset(&mut self)
        ensures { self.new ≡ record self.old { display = soft_reset self.old.display } }
    {
        self.display.soft_reset();
    }

    /// Carries out ED: erases the part of the screen that the parameter names. (ECMA-48 8.3.39)
    pub fn erase_in_display(&mut self, p: u16)
        ensures { self.new ≡ record self.old { display = erase_in_display false p self.old.display } }
    {
        self.display.erase_in_display(false, p);
    }

    /// Carries out SGR: changes the attributes of the brush, by each parameter in order. (ECMA-48 8.3.117)
    pub fn select_graphic_rendition(&mut self, params: &[u16])
        ensures { self.new ≡ record self.old { display = select_graphic_rendition params.now self.old.display } }
    {
        self.display.select_graphic_rendition(params);
    }

    /// Carries out SM and RM of private modes: each parameter in order. (ECMA-48 8.3.125, 8.3.106)
    pub fn change_private_modes(&mut self, params: &[u16], on: bool)
        ensures { self.new ≡ record self.old { display = change_modes private_modes on params.now self.old.display } }
    {
        self.display.change_private_modes(params, on);
    }
}
