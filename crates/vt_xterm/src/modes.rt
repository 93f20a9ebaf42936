//! The pages, and the private modes that choose between them.
ghost use Rattle.std.specs.Prelude.{◌≡◌, ℕ, List};
ghost use Rattle.vt_xterm.specs.Pages.{screens, shown_by, exchanged, show_page, show_or_clear, save_or_restore};
ghost use Rattle.vt_xterm.specs.Pages.{show_and_save, allowed_column_mode, with_page_mode, change_page_modes};
ghost use Rattle.vt_xterm.specs.Pages.{restore_screens, origin_mode_between, autowrap_mode_between, side_mode};

use crate::front::SizedPages;
use crate::sides::Sides;
use vt_glyph::laws::{glyphs, soundness as sets_soundness};
use vt_term::SizedTerminal;

/// Shows the other page.
fn exchange(terminal: &mut SizedTerminal, pages: &mut SizedPages, alternate: bool)
    requires { pages.old.other.grid.size ≡ terminal.old.display.grid.size }
    ensures terminal { terminal.new
        ≡ shown_by (exchanged alternate (screens terminal.old pages.old)) terminal.old.held }
    ensures pages { pages.new ≡ (exchanged alternate (screens terminal.old pages.old)).pages }
{
    terminal.exchange_page(&mut pages.other);
    pages.alternate = alternate;
}

/// Carries out ?47: shows the alternate page, or the main one.
fn show_page(terminal: &mut SizedTerminal, pages: &mut SizedPages, alternate: bool)
    requires { pages.old.other.grid.size ≡ terminal.old.display.grid.size }
    ensures terminal { terminal.new
        ≡ shown_by (show_page alternate (screens terminal.old pages.old)) terminal.old.held }
    ensures pages { pages.new ≡ (show_page alternate (screens terminal.old pages.old)).pages }
{
    if pages.alternate {
        if !alternate {
            exchange(terminal, pages, false);
        }
    } else if alternate {
        exchange(terminal, pages, true);
    }
}

/// Carries out ?1047: shows the alternate page, or leaves it blank and shows the main one.
fn show_or_clear(terminal: &mut SizedTerminal, pages: &mut SizedPages, alternate: bool)
    requires { pages.old.other.grid.size ≡ terminal.old.display.grid.size }
    ensures terminal { terminal.new
        ≡ shown_by (show_or_clear alternate (screens terminal.old pages.old)) terminal.old.held }
    ensures pages { pages.new ≡ (show_or_clear alternate (screens terminal.old pages.old)).pages }
{
    if alternate {
        show_page(terminal, pages, true);
    } else if pages.alternate {
        exchange(terminal, pages, false);
        pages.other.blank();
    }
}

/// Carries out DECRC. If DECOM is restored, the cursor is brought between the margins.
pub(crate) fn restore(terminal: &mut SizedTerminal, pages: &mut SizedPages)
    ensures terminal { terminal.new
        ≡ shown_by (restore_screens (screens terminal.old pages.old)) terminal.old.held }
    ensures pages { pages.new ≡ (restore_screens (screens terminal.old pages.old)).pages }
{
    let bounds = pages.bounds(terminal.width());
    pages.unwrap_sides();
    terminal.restore_cursor();
    if let Some(sides) = bounds {
        sides.bring(terminal);
    }
}

/// Carries out ?1048: saves the cursor, or restores it.
fn save_or_restore(terminal: &mut SizedTerminal, pages: &mut SizedPages, save: bool)
    ensures terminal { terminal.new
        ≡ shown_by (save_or_restore save (screens terminal.old pages.old)) terminal.old.held }
    ensures pages { pages.new ≡ (save_or_restore save (screens terminal.old pages.old)).pages }
{
    if save {
        terminal.save_cursor();
    } else {
        restore(terminal, pages);
    }
}

/// Carries out ?1049: saves the cursor and shows the alternate page blank, or shows the main one and restores the cursor.
fn show_and_save(terminal: &mut SizedTerminal, pages: &mut SizedPages, alternate: bool)
    requires { pages.old.other.grid.size ≡ terminal.old.display.grid.size }
    ensures terminal { terminal.new
        ≡ shown_by (show_and_save alternate (screens terminal.old pages.old)) terminal.old.held }
    ensures pages { pages.new ≡ (show_and_save alternate (screens terminal.old pages.old)).pages }
{
    if alternate {
        terminal.save_cursor();
        show_page(terminal, pages, true);
        terminal.erase_in_display(2);
        pages.unwrap_sides();
    } else {
        show_page(terminal, pages, false);
        restore(terminal, pages);
    }
}

/// Carries out ?3: DECCOLM, if it has an effect.
#[tactic(auto, unfolding(vt_term::specs::Modes::with_mode))]
fn column_mode(terminal: &mut SizedTerminal, pages: &mut SizedPages, wide: bool)
    ensures terminal { terminal.new
        ≡ shown_by (allowed_column_mode wide (screens terminal.old pages.old)) terminal.old.held }
    ensures pages { pages.new ≡ (allowed_column_mode wide (screens terminal.old pages.old)).pages }
{
    if pages.resizes {
        terminal.change_private_modes(&[3], wide);
        pages.fill_sides(terminal.width());
    }
}

/// Carries out ?6: DECOM, whose home is between the margins.
#[tactic(auto, unfolding(vt_term::specs::Modes::with_mode))]
fn origin_mode(terminal: &mut SizedTerminal, pages: &mut SizedPages, on: bool)
    ensures terminal { terminal.new
        ≡ shown_by (origin_mode_between on (screens terminal.old pages.old)) terminal.old.held }
    ensures pages { pages.new ≡ (origin_mode_between on (screens terminal.old pages.old)).pages }
{
    let bounds = pages.bounds(terminal.width());
    pages.unwrap_sides();
    terminal.change_private_modes(&[6], on);
    if let Some(sides) = bounds {
        sides.home(terminal);
    }
}

/// Carries out ?7: DECAWM, without which no wrap is pending.
#[tactic(auto, unfolding(vt_term::specs::Modes::with_mode))]
fn autowrap_mode(terminal: &mut SizedTerminal, pages: &mut SizedPages, on: bool)
    ensures terminal { terminal.new
        ≡ shown_by (autowrap_mode_between on (screens terminal.old pages.old)) terminal.old.held }
    ensures pages { pages.new ≡ (autowrap_mode_between on (screens terminal.old pages.old)).pages }
{
    terminal.change_private_modes(&[7], on);
    if !on {
        pages.unwrap_sides();
    }
}

/// Carries out ?69: DECLRMM. If it is set, the margins are full, unless there are margins already. If it is reset,
/// there are none.
fn side_mode(terminal: &SizedTerminal, pages: &mut SizedPages, on: bool)
    ensures { pages.new ≡ (side_mode on (screens terminal.now pages.old)).pages }
{
    if !on {
        pages.sides = None;
    } else if pages.sides.is_none() {
        pages.sides = Some(Sides::full(terminal.width()));
    }
}

/// Sets or resets a private mode.
#[tactic(auto, unfolding(crate::specs::Pages::with_page_mode))]
fn change_mode(terminal: &mut SizedTerminal, pages: &mut SizedPages, p: u16, on: bool)
    requires { pages.old.other.grid.size ≡ terminal.old.display.grid.size }
    ensures terminal { terminal.new
        ≡ shown_by (with_page_mode on p (screens terminal.old pages.old)) terminal.old.held }
    ensures pages { pages.new ≡ (with_page_mode on p (screens terminal.old pages.old)).pages }
{
    match p {
        3 => column_mode(terminal, pages, on),
        6 => origin_mode(terminal, pages, on),
        7 => autowrap_mode(terminal, pages, on),
        40 => pages.resizes = on,
        47 => show_page(terminal, pages, on),
        69 => side_mode(terminal, pages, on),
        1047 => show_or_clear(terminal, pages, on),
        1048 => save_or_restore(terminal, pages, on),
        1049 => show_and_save(terminal, pages, on),
        2004 => pages.brackets = on,
        _ => terminal.change_private_modes(&[p], on),
    }
}

/// States that SM and RM of private modes keep the pages of one size, for proofs. It does nothing when it runs.
#[inline(always)]
fn modes_keep_size(terminal: &SizedTerminal, pages: &SizedPages, on: bool)
    requires { pages.now.other.grid.size ≡ terminal.now.display.grid.size }
    ensures { (params : List ℕ) → (change_page_modes on params (screens terminal.now pages.now)).pages.other.grid.size
        ≡ (change_page_modes on params (screens terminal.now pages.now)).display.grid.size }
{
    let _ = on;
    terminal.soundness();
    pages.soundness();
    glyphs();
    sets_soundness();
}

/// Carries out SM and RM of private modes: each parameter in order.
pub(crate) fn change_modes(
    terminal: &mut SizedTerminal,
    pages: &mut SizedPages,
    params: &[u16],
    on: bool,
)
    requires { pages.old.other.grid.size ≡ terminal.old.display.grid.size }
    ensures terminal { terminal.new
        ≡ shown_by (change_page_modes on params.now (screens terminal.old pages.old)) terminal.old.held }
    ensures pages { pages.new ≡ (change_page_modes on params.now (screens terminal.old pages.old)).pages }
{
    modes_keep_size(terminal, pages, on);
    for p in params {
        change_mode(terminal, pages, *p, on);
    }
}
