//! The repaint: both pages, and what they share.
ghost use Rattle.std.specs.Prelude.{◌≡◌, ◌+◌, ◌*◌, ◌≤◌, ◌++◌, [], ◌∷◌, true, vec_len, vec_capacity};
ghost use Rattle.vt_syntax.specs.declared.held.Held.TheVariants.{Nothing};
ghost use Rattle.vt_feed.specs.Languages.{reading};
ghost use Rattle.vt_feed.specs.Spelled.{spell};
ghost use Rattle.vt_glyph.specs.Invocation.{sets_at_power_up};
ghost use Rattle.vt_screen.specs.Same.{when};
ghost use Rattle.vt_paint.specs.Controls.{private_mode};
ghost use Rattle.vt_xterm_repaint.specs.Looks.{look_actions};
ghost use Rattle.vt_xterm_repaint.specs.Items.{functions, margins_item, cursor_item, page_item, sets_item};
ghost use Rattle.vt_xterm_repaint.specs.Private.Kept.{kept_actions};
ghost use Rattle.vt_xterm_repaint.specs.Colours.{IsColour, HasColours};
ghost use Rattle.vt_xterm_repaint.specs.Makeable.{CanBeMade, Rebuilds};
ghost use Rattle.vt_xterm_repaint.specs.Limits.{page_limit, repaint_limit};
ghost use Rattle.vt_xterm_repaint.specs.Repaint.{pages_actions, last_actions, repaint};

use crate::cells::push_rows;
use crate::cursor::{push_cursor, push_margins};
use crate::functions::push_private_mode;
use crate::items::{
    push_all_sets, push_origin_when, push_saved, push_sets, push_stops, push_width, saved_sets,
    sets_of,
};
use crate::laws::rebuilds;
use crate::looks::push_look;
use crate::modes::push_kept;
use vt_paint::Function;
use vt_screen::{MOST, Screen};
use vt_term::{SavedOf, Sets};
use vt_xterm_cell::{Colour, Look, XtermCell};
use vt_xterm_display::{Xterm, XtermDisplay};

/// Appends a page: its width, what DECSC saved on it, and its cells. Look, sets and cursor are then as at power-up.
#[tactic(auto, unfolding(crate::specs::Items::page_item, crate::specs::Limits::page_limit))]
fn push_page(screen: &Screen<XtermCell>, saved: &SavedOf<Look>, out: &mut Vec<u8>)
    requires row { saved.now.row ≤ MOST }
    requires col { saved.now.col ≤ MOST }
    requires room { vec_len out.old + page_limit screen.now.size ≤ vec_capacity out.old }
    ensures items { out.new.items ≡ out.old.items ++ spell (page_item (record { grid = screen.now; saved = saved.now })) }
    ensures bounded { vec_len out.new ≤ vec_len out.old + page_limit screen.now.size }
    ensures capacity { vec_capacity out.old ≤ vec_capacity out.new }
{
    let size = screen.size();
    push_width(size, screen.width() == size.wide, out);
    push_saved(saved, out);
    push_sets(&saved_sets(saved), &sets_of(&Sets::power_up()), out);
    push_rows(screen, out);
    push_look(XtermCell::blank().look(), out);
    Function::cursor_to(1, 1).push(out);
}

/// Appends the tab stops, and both pages: that which is shown is the second one.
#[tactic(auto, unfolding(crate::specs::Repaint::pages_actions))]
fn push_pages(d: &XtermDisplay, out: &mut Vec<u8>)
    requires { vec_len out.old + 2 * page_limit d.now.shown.grid.size + 10 * d.now.shown.grid.size.wide + 44 ≤ vec_capacity out.old }
    ensures items { out.new.items ≡ out.old.items ++ spell (pages_actions d.now) }
    ensures bounded { vec_len out.new ≤ vec_len out.old + 2 * page_limit d.now.shown.grid.size + 10 * d.now.shown.grid.size.wide + 44 }
    ensures capacity { vec_capacity out.old ≤ vec_capacity out.new }
{
    // For the bounds of what is saved.
    d.shown.soundness();
    let other = &d.other;
    let shown = &d.shown;
    push_stops(shown.screen.size(), shown.stops(), out);
    push_private_mode(47, !d.alternate, out);
    push_page(&other.screen, &other.saved, out);
    push_private_mode(47, d.alternate, out);
    push_page(&shown.screen, &shown.saved, out);
}

/// Appends the look and the sets.
fn push_pen(d: &XtermDisplay, out: &mut Vec<u8>)
    requires { vec_len out.old + 82 ≤ vec_capacity out.old }
    ensures items { out.new.items ≡ out.old.items ++ spell (look_actions d.now.shown.brush ++ sets_item sets_at_power_up d.now.shown.sets) }
    ensures bounded { vec_len out.new ≤ vec_len out.old + 82 }
    ensures capacity { vec_capacity out.old ≤ vec_capacity out.new }
{
    push_look(d.shown.pen.look(), out);
    push_all_sets(&d.shown.sets, out);
}

/// Appends the modes that move nothing, the settings, and a pending single shift.
fn push_end(d: &XtermDisplay, out: &mut Vec<u8>)
    requires { vec_len out.old + 144 ≤ vec_capacity out.old }
    ensures items { out.new.items
        ≡ out.old.items
        ++ spell (kept_actions d.now.shown.modes d.now.settings d.now.resizes d.now.shown.sets.pending) }
    ensures bounded { vec_len out.new ≤ vec_len out.old + 144 }
    ensures capacity { vec_capacity out.old ≤ vec_capacity out.new }
{
    push_kept(
        d.shown.modes,
        d.settings,
        d.resizes,
        d.shown.sets.pending(),
        out,
    );
}

/// Appends the margins, DECOM and the cursor.
fn push_placed(d: &XtermDisplay, out: &mut Vec<u8>)
    requires { vec_len out.old + 128 ≤ vec_capacity out.old }
    ensures items { out.new.items
        ≡ out.old.items
        ++ spell (margins_item d.now ++ (when d.now.shown.modes.decom (functions (private_mode 6 true ∷ [])) ++ cursor_item d.now)) }
    ensures bounded { vec_len out.new ≤ vec_len out.old + 128 }
    ensures capacity { vec_capacity out.old ≤ vec_capacity out.new }
{
    // For the bounds of the margins.
    d.shown.soundness();
    let _ = d.shown.screen.size();
    push_margins(d.shown.margins, d.bounded, d.sides, out);
    push_origin_when(d.shown.modes.decom, true, out);
    push_cursor(d, out);
}

/// Appends what both pages share.
fn push_last(d: &XtermDisplay, out: &mut Vec<u8>)
    requires { vec_len out.old + 354 ≤ vec_capacity out.old }
    ensures items { out.new.items ≡ out.old.items ++ spell (last_actions d.now) }
    ensures bounded { vec_len out.new ≤ vec_len out.old + 354 }
    ensures capacity { vec_capacity out.old ≤ vec_capacity out.new }
{
    push_placed(d, out);
    push_pen(d, out);
    push_end(d, out);
}

/// States that the parts of a colour are bytes, for proofs. It does nothing when it runs.
fn is_colour(colour: Colour)
    ensures { IsColour colour }
{
    match colour {
        Colour::Default => {}
        Colour::Indexed(_) => {}
        Colour::Rgb(_, _, _) => {}
    }
}

/// States that the colours of a look are bytes, for proofs. It does nothing when it runs.
fn has_colours(look: Look)
    ensures { HasColours look }
{
    is_colour(look.foreground);
    is_colour(look.background);
}

/// States that a repaint rebuilds the screen of this xterm, for proofs. It does nothing when it runs.
pub fn makeable(x: &Xterm)
    ensures { CanBeMade x.now.screen }
{
    let screen = x.screen();
    screen.soundness();
    has_colours(screen.shown.pen.look());
    has_colours(screen.shown.saved.brush);
    has_colours(screen.other.saved.brush);
}

/// Appends the repaint of an xterm between sequences and characters to `out`, which has capacity for it. It never fails and allocates
/// nothing. Played on any session of this size, the bytes leave exactly this screen.
#[tactic(auto, unfolding(crate::specs::Repaint::repaint, crate::specs::Repaint::repaint_actions))]
pub fn repaint_reserved(x: &Xterm, out: &mut Vec<u8>)
    requires between { x.now.reading ≡ reading Nothing [] }
    requires room { vec_len out.old + repaint_limit x.now.screen.shown.grid.size ≤ vec_capacity out.old }
    ensures items { out.new.items ≡ out.old.items ++ repaint x.now.screen }
    ensures rebuilds { Rebuilds x.now.screen }
    ensures bounded { vec_len out.new ≤ vec_len out.old + repaint_limit x.now.screen.shown.grid.size }
    ensures capacity { vec_capacity out.old ≤ vec_capacity out.new }
{
    rebuilds();
    makeable(x);
    let screen = x.screen();
    push_private_mode(40, true, out);
    Function::reset().push(out);
    push_pages(screen, out);
    push_last(screen, out);
}
