//! The choice of bytes. An update needs that they are few, and elements of what updates consist of. The state to which
//! they lead is checked by playing them before they are sent.
ghost use Rattle.std.specs.Prelude.{◌≡◌, ◌≤◌, ◌++◌, drop, vec_len, vec_capacity};
ghost use Rattle.vt_paint.specs.Spoken.{Speaks};
ghost use Rattle.vt_update.specs.Private.Appended.{Appended};

use crate::remote::Remote;
use crate::rows::Rows;
use crate::scrolling::Scroll;
use vt_screen::{Cell, MOST};
use vt_term::SizedTerminal;

/// Appends bytes that should lead from one state to another. `counts` has the number of cells of each row that differ.
///
/// It appends none if a single shift is pending, since the next glyph would be read through it. (It isn't inlined,
/// so that its buffers aren't on the stack while the bytes are played.)
#[inline(never)]
pub(crate) fn push_choice<const R: usize, const C: usize>(
    shown: &SizedTerminal,
    counts: &[usize; R],
    to: &SizedTerminal,
    out: &mut Vec<u8>,
)
    requires size { shown.now.display.grid.size.rows ≡ to.now.display.grid.size.rows }
    requires fits { to.now.display.grid.size.rows ≤ R }
    requires rows { R ≤ MOST }
    requires columns { C ≤ MOST }
    ensures items { out.new.items ≡ out.old.items ++ drop (vec_len out.old) out.new.items }
    ensures speaks { Speaks (drop (vec_len out.old) out.new.items) }
    ensures capacity { vec_capacity out.old ≤ vec_capacity out.new }
{
    if shown.sets().pending().is_some() {
        return;
    }
    let mut remote = Remote::new(shown);
    remote.bring::<R, C>(shown, counts, to, out);
}

impl Remote {
    /// Brings the other side, which has the cells of `shown`, to the state of `to`.
    fn bring<const R: usize, const C: usize>(
        &mut self,
        shown: &SizedTerminal,
        counts: &[usize; R],
        to: &SizedTerminal,
        out: &mut Vec<u8>,
    )
        requires size { shown.now.display.grid.size.rows ≡ to.now.display.grid.size.rows }
        requires fits { to.now.display.grid.size.rows ≤ R }
        requires rows { R ≤ MOST }
        requires columns { C ≤ MOST }
        ensures appended { Appended out.old.items out.new.items }
        ensures capacity { vec_capacity out.old ≤ vec_capacity out.new }
    {
        let cursor = to.cursor();
        self.set_margins(to.margins());
        let blanks = [Cell::blank(); C];
        let blank = &blanks[..shown.width().min(C)];
        let mut rows = Rows::new(shown, blank, counts, to);
        if let Some(scroll) = Scroll::find(&rows, shown, to) {
            self.scroll(scroll, to);
            rows.scroll(scroll, to);
        }
        self.set_cells(&rows, to, out);
        self.set_saved(to.saved(), to);
        self.set_origin(to.modes().decom);
        self.stand(cursor, to);
        self.set_brush(to.brush());
        self.set_sets(to.sets());
        self.set_modes(to.modes());
        self.set_shift(to.sets().pending());
        self.chosen.flush(out);
    }
}
