//! The tab stops, the graphic sets, and what DECSC saved. The output has capacity for each.
ghost use Rattle.std.specs.Prelude.{◌≡◌, ◌+◌, ◌*◌, ◌≤◌, ◌<◌, ◌++◌, ◌∷◌, [], None, length, slice_index_or, vec_len, vec_capacity};
ghost use Rattle.std.specs.List.{flat_map, range_with_len};
ghost use Rattle.vt_glyph.specs.declared.set.Set.TheVariants.{Ascii};
ghost use Rattle.vt_glyph.specs.Invocation.{sets_at_power_up};
ghost use Rattle.vt_screen.specs.Same.{when};
ghost use Rattle.vt_feed.specs.Spelled.{spell};
ghost use Rattle.vt_paint.specs.Controls.{cursor_position, private_mode, set_tab};
ghost use Rattle.vt_xterm_repaint.specs.Items.{functions, width_item, stop_item, stops_item, set_item, sets_item, saved_item};

use crate::functions::push_private_mode;
use crate::looks::push_look;
use vt_paint::{Function, push_when};
use vt_screen::{MOST, Size};
use vt_term::{SavedOf, Set, Sets};
use vt_xterm_cell::Look;

/// Appends DECCOLM, on a screen with two widths.
pub(crate) fn push_width(size: Size, wide: bool, out: &mut Vec<u8>)
    requires { vec_len out.old + 10 ≤ vec_capacity out.old }
    ensures items { out.new.items ≡ out.old.items ++ spell (width_item size wide) }
    ensures bounded { vec_len out.new ≤ vec_len out.old + 10 }
    ensures capacity { vec_capacity out.old ≤ vec_capacity out.new }
{
    if size.narrow != size.wide {
        push_private_mode(3, wide, out);
    }
}

/// Appends CUP and HTS, if there is a stop.
fn push_stop(stop: bool, col: usize, out: &mut Vec<u8>)
    requires col { col ≤ MOST }
    requires room { vec_len out.old + 10 ≤ vec_capacity out.old }
    ensures items { out.new.items ≡ out.old.items ++ spell (when stop (functions (cursor_position 1 col ∷ set_tab ∷ []))) }
    ensures bounded { vec_len out.new ≤ vec_len out.old + 10 }
    ensures capacity { vec_capacity out.old ≤ vec_capacity out.new }
{
    if stop {
        Function::cursor_to(1, col as u8).push(out);
        Function::set_tab().push(out);
    }
}

fn push_each_stop(stops: &[bool], out: &mut Vec<u8>)
    requires few { length stops.now ≤ MOST }
    requires room { vec_len out.old + 10 * length stops.now ≤ vec_capacity out.old }
    ensures items { out.new.items ≡ out.old.items ++ spell (flat_map (stop_item stops.now) (range_with_len 1 (length stops.now))) }
    ensures bounded { vec_len out.new ≤ vec_len out.old + 10 * length stops.now }
    ensures capacity { vec_capacity out.old ≤ vec_capacity out.new }
{
    for (i, stop) in stops.iter().enumerate() {
        push_stop(*stop, i + 1, out);
    }
}

/// Appends the tab stops, which are set on a wide screen.
#[tactic(auto, unfolding(crate::specs::Items::stops_item))]
pub(crate) fn push_stops(size: Size, stops: &[bool], out: &mut Vec<u8>)
    requires len { length stops.now ≡ size.wide }
    requires few { size.wide ≤ MOST }
    requires room { vec_len out.old + 10 * size.wide + 24 ≤ vec_capacity out.old }
    ensures items { out.new.items ≡ out.old.items ++ spell (stops_item size stops.now) }
    ensures bounded { vec_len out.new ≤ vec_len out.old + 10 * size.wide + 24 }
    ensures capacity { vec_capacity out.old ≤ vec_capacity out.new }
{
    push_width(size, true, out);
    Function::clear_all_tabs().push(out);
    push_each_stop(stops, out);
    Function::cursor_to(1, 1).push(out);
}

/// Returns the set in a slot, 0 to 3.
fn set_in(g: &[Set; 4], slot: usize) -> Set
    requires { slot < 4 }
    ensures { result ≡ slice_index_or g.now slot Ascii }
{
    g[slot]
}

/// Which sets are designated as G0 to G3, and the slots of those in GL and GR.
#[derive(Clone, Copy)]
pub(crate) struct Designated {
    pub(crate) g: [Set; 4],
    pub(crate) left: u8,
    pub(crate) right: u8,
}

/// Returns the designations and the locking shifts of sets.
pub(crate) fn sets_of(sets: &Sets) -> Designated
    ensures g { result.g ≡ sets.now.g }
    ensures left { result.left ≡ sets.now.left }
    ensures right { result.right ≡ sets.now.right }
{
    Designated {
        g: sets.designations(),
        left: sets.left(),
        right: sets.right(),
    }
}

/// Appends a control function, if a test passes.
fn push_function_when(test: bool, function: Function, out: &mut Vec<u8>)
    requires { vec_len out.old + length function ≤ vec_capacity out.old }
    ensures items { out.new.items ≡ out.old.items ++ when test function }
    ensures bounded { vec_len out.new ≤ vec_len out.old + length function }
    ensures capacity { vec_capacity out.old ≤ vec_capacity out.new }
{
    push_when(test, function.bytes(), out);
}

/// Appends the designation of a slot, if it has another set.
fn push_set(slot: u8, old: Set, new: Set, out: &mut Vec<u8>)
    requires { vec_len out.old + 3 ≤ vec_capacity out.old }
    ensures items { out.new.items ≡ out.old.items ++ spell (set_item slot old new) }
    ensures bounded { vec_len out.new ≤ vec_len out.old + 3 }
    ensures capacity { vec_capacity out.old ≤ vec_capacity out.new }
{
    push_function_when(
        old.last() != new.last(),
        Function::designation(slot, new),
        out,
    );
}

/// Appends what leads from sets to others: the designations of G0 to G3, and then the locking shifts into GL and GR.
#[tactic(auto, unfolding(crate::specs::Items::sets_item))]
pub(crate) fn push_sets(old: &Designated, new: &Designated, out: &mut Vec<u8>)
    requires { vec_len out.old + 16 ≤ vec_capacity out.old }
    ensures items { out.new.items
        ≡ out.old.items
        ++ spell (sets_item (record { g = old.now.g; left = old.now.left; right = old.now.right; pending = None })
        (record { g = new.now.g; left = new.now.left; right = new.now.right; pending = None })) }
    ensures bounded { vec_len out.new ≤ vec_len out.old + 16 }
    ensures capacity { vec_capacity out.old ≤ vec_capacity out.new }
{
    push_set(0, set_in(&old.g, 0), set_in(&new.g, 0), out);
    push_set(1, set_in(&old.g, 1), set_in(&new.g, 1), out);
    push_set(2, set_in(&old.g, 2), set_in(&new.g, 2), out);
    push_set(3, set_in(&old.g, 3), set_in(&new.g, 3), out);
    push_function_when(old.left != new.left, Function::lock_left(new.left), out);
    push_function_when(old.right != new.right, Function::lock_right(new.right), out);
}

/// Appends what leads to sets from those of power-up.
pub(crate) fn push_all_sets(sets: &Sets, out: &mut Vec<u8>)
    requires { vec_len out.old + 16 ≤ vec_capacity out.old }
    ensures items { out.new.items ≡ out.old.items ++ spell (sets_item sets_at_power_up sets.now) }
    ensures bounded { vec_len out.new ≤ vec_len out.old + 16 }
    ensures capacity { vec_capacity out.old ≤ vec_capacity out.new }
{
    push_sets(&sets_of(&Sets::power_up()), &sets_of(sets), out);
}

/// Returns the designations and the locking shifts that DECSC saved.
pub(crate) fn saved_sets(saved: &SavedOf<Look>) -> Designated
    ensures g { result.g ≡ saved.now.g }
    ensures left { result.left ≡ saved.now.gl }
    ensures right { result.right ≡ saved.now.gr }
{
    Designated {
        g: saved.g,
        left: saved.gl,
        right: saved.gr,
    }
}

/// Appends DECOM, if a test passes.
pub(crate) fn push_origin_when(test: bool, on: bool, out: &mut Vec<u8>)
    requires { vec_len out.old + 10 ≤ vec_capacity out.old }
    ensures items { out.new.items ≡ out.old.items ++ spell (when test (functions (private_mode 6 on ∷ []))) }
    ensures bounded { vec_len out.new ≤ vec_len out.old + 10 }
    ensures capacity { vec_capacity out.old ≤ vec_capacity out.new }
{
    if test {
        push_private_mode(6, on, out);
    }
}

/// Appends what DECSC saved, on a blank page in the plain look.
#[tactic(auto, unfolding(crate::specs::Items::saved_item))]
pub(crate) fn push_saved(saved: &SavedOf<Look>, out: &mut Vec<u8>)
    requires row { saved.now.row ≤ MOST }
    requires col { saved.now.col ≤ MOST }
    requires room { vec_len out.old + 115 ≤ vec_capacity out.old }
    ensures items { out.new.items ≡ out.old.items ++ spell (saved_item saved.now) }
    ensures bounded { vec_len out.new ≤ vec_len out.old + 115 }
    ensures capacity { vec_capacity out.old ≤ vec_capacity out.new }
{
    push_origin_when(saved.origin, true, out);
    Function::cursor_to(saved.row as u8, saved.col as u8).push(out);
    push_when(saved.wrap, b" ", out);
    push_look(saved.brush, out);
    push_sets(&sets_of(&Sets::power_up()), &saved_sets(saved), out);
    Function::save_cursor().push(out);
    push_origin_when(saved.origin, false, out);
}
