//! The forms in which a terminal is written.
ghost use Rattle.std.specs.Prelude.{◌≡◌, ◌≢◌, ◌↔◌, ◌⊎◌};
ghost use Rattle.vt220_c.specs.Forms.{CanBe, refusal};
ghost use Rattle.vt220_c.specs.Status.{status_ok, status_no_row, status_partial};

use crate::status::{NO_ROW, OK, PARTIAL};
use vt_term::SizedTerminal;

/// A form: the text of the screen or of a row, the text with its attributes, the picture, the drawing, or the repaint.
#[derive(Clone, Copy)]
pub(crate) enum Form {
    Text,
    RowText(usize),
    Show,
    Picture,
    Draw,
    Repaint,
}

impl Form {
    /// Returns `OK` if a terminal can be written in this form, otherwise the status with the reason.
    pub(crate) fn status(self, terminal: &SizedTerminal) -> u32
        ensures can { (result ≡ status_ok) ↔ CanBe self terminal.now }
        ensures why { result ≢ status_ok → result ≡ refusal self }
        ensures answers { (result ≡ status_ok) ⊎ (result ≡ status_no_row) ⊎ (result ≡ status_partial) }
    {
        match self {
            Form::RowText(row) if row == 0 || row > terminal.size().rows => NO_ROW,
            Form::Repaint if !terminal.is_between() => PARTIAL,
            Form::Text
            | Form::RowText(_)
            | Form::Show
            | Form::Picture
            | Form::Draw
            | Form::Repaint => OK,
        }
    }
}
