//! The steps to a look.
use crate::step::{Step, VALUES};
use vt_paint::Function;
use vt_xterm_cell::{Attributes, Colour, Look, XtermCell};
use vt_xterm_display::XtermDisplay;

/// The values of SGR, up to `VALUES` of them. What has no place is left for the next step.
#[derive(Drop)]
struct Values {
    items: [u8; VALUES],
    len: usize,
}

impl Values {
    /// Adds values, if all have a place.
    fn add(&mut self, values: &[u8]) {
        let at = self.len;
        if at > VALUES || values.len() > VALUES - at {
            return;
        }
        for (i, value) in values.iter().enumerate() {
            self.items[at + i] = *value;
        }
        self.len = at + values.len();
    }

    /// Adds the value that sets or resets an attribute, if it differs.
    fn attribute(&mut self, now: bool, wanted: bool, set: u8, reset: u8) {
        if now != wanted {
            self.add(&[if wanted { set } else { reset }]);
        }
    }

    /// Adds the values of the attributes that differ. Two that are reset by one value need a second step if one of them stays.
    fn attributes(&mut self, now: Attributes, wanted: Attributes) {
        self.attribute(now.bold, wanted.bold, 1, 22);
        self.attribute(now.faint, wanted.faint, 2, 22);
        self.attribute(now.italic, wanted.italic, 3, 23);
        self.attribute(now.underlined, wanted.underlined, 4, 24);
        self.attribute(now.doubly_underlined, wanted.doubly_underlined, 21, 24);
        self.attribute(now.blinking, wanted.blinking, 5, 25);
        self.attribute(now.reverse, wanted.reverse, 7, 27);
        self.attribute(now.invisible, wanted.invisible, 8, 28);
        self.attribute(now.crossed_out, wanted.crossed_out, 9, 29);
    }

    /// Adds the values of a colour, if it differs. `eight` is the value of the first of eight colours: 30 or 40.
    fn colour(&mut self, now: Colour, wanted: Colour, eight: u8) {
        if now == wanted {
            return;
        }
        match wanted {
            Colour::Default => self.add(&[eight.wrapping_add(9)]),
            Colour::Indexed(index) => {
                if index < 8 {
                    self.add(&[eight.wrapping_add(index)]);
                } else if index < 16 {
                    self.add(&[eight.wrapping_add(52).wrapping_add(index)]);
                } else {
                    self.add(&[eight.wrapping_add(8), 5, index]);
                }
            }
            Colour::Rgb(red, green, blue) => {
                self.add(&[eight.wrapping_add(8), 2, red, green, blue]);
            }
        }
    }
}

/// Returns the step that selects the attributes and the colours of a look. The plain ones are selected by SGR without a value.
fn rendition_step(now: Look, wanted: Look, is_plain: bool) -> Step {
    let mut values = Values {
        items: [0; VALUES],
        len: 0,
    };
    if !is_plain {
        values.attributes(now.attributes, wanted.attributes);
        values.colour(now.foreground, wanted.foreground, 30);
        values.colour(now.background, wanted.background, 40);
    }
    Step::Select(values.items, values.len)
}

/// Returns the first step that selects the look of a cell. Returns `None` if it is selected.
pub(crate) fn look_step(d: &XtermDisplay, cell: XtermCell) -> Option<Step> {
    let pen = d.shown.pen;
    if pen.cleared().same(&cell.cleared()) {
        return None;
    }
    if pen.is_protected() != cell.is_protected() {
        return Some(Step::Send(Function::protection(cell.is_protected())));
    }
    let mut plain = cell.cleared();
    plain.set_protected(false);
    Some(rendition_step(pen.look(), cell.look(), plain.same(&XtermCell::blank())))
}
