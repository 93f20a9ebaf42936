//! The display: all of a terminal except its parser. Events change it.
ghost use Rattle.std.specs.Prelude.{◌≡◌, ◌↔◌, IsTrue, IfOk};
ghost use Rattle.vt_term.specs.Sound.{IsSoundDisplayOf};
ghost use Rattle.vt_term.specs.State.{display_any};
ghost use Rattle.vt_term.specs.Kinds.{kind_of};
ghost use Rattle.vt_screen.specs.Sizes.{IsSize};

use crate::kind::Kind;
use crate::same::{same_modes, same_saved};
use crate::state::{Cursor, Margins, Modes, SavedOf};
use crate::tabs::TabStops;
use std::alloc::{AllocError, Global};
use std::marker::Model;
use vt_glyph::Sets;
use vt_screen::{Cell, Screen, Size};

/// A terminal without its parser, of cells of any kind.
#[derive(Drop)]
pub struct Display<K: Kind = Cell> {
    /// The cells.
    pub screen: Screen<K>,
    /// The cursor.
    pub cursor: Cursor,
    /// The brush, as the cell that a space becomes. (Speed: a run copies it as one word.)
    pub pen: K,
    /// The graphic sets, designated and invoked.
    pub sets: Sets,
    /// The scroll region.
    pub margins: Margins,
    pub(crate) stops: TabStops,
    /// The modes.
    pub modes: Modes,
    /// The state that DECSC saved.
    pub saved: SavedOf<K::Brush>,
}

impl<K: Kind> Model for Display<K> {
    ghost use Rattle.vt_term.specs.State.{DisplayOf};
    ghost use Rattle.vt_term.specs.Sound.{IsSoundDisplayOf};

    ghost Value = { DisplayOf K K.Brush };

    ghost view = { λ d. record {
      grid = d.screen;
      cursor = d.cursor;
      brush = K.own.brush_of d.pen;
      sets = d.sets;
      margins = d.margins;
      stops = d.stops;
      modes = d.modes;
      saved = d.saved;
    } };

    ghost invariant = { λ d. IsSoundDisplayOf K.cells.shown d.screen.size (record {
      grid = d.screen;
      cursor = d.cursor;
      brush = K.own.brush_of d.pen;
      sets = d.sets;
      margins =
          d.margins;
      stops = d.stops;
      modes = d.modes;
      saved = d.saved;
    }) };
}

impl<K: Kind> Display<K> {
    /// States that the display is sound, for proofs. It does nothing when it runs.
    #[inline(always)]
    pub fn soundness(&self)
        ensures { IsSoundDisplayOf K.cells.shown self.now.grid.size self.now }
    {
        let _ = &self.cursor;
    }

    /// Returns the tab stops: index c - 1 for column c, from 1 to the last one of the wide screen at any width.
    pub fn stops(&self) -> &[bool]
        ensures { result.now ≡ self.now.stops }
    {
        self.stops.as_slice()
    }

    /// Returns the display of a size at power-up. Returns `Err` if allocation fails.
    pub fn new(alloc: Global, size: Size) -> Result<Display<K>, AllocError>
        requires { IsSize size }
        ensures { IfOk result (λ d. d ≡ display_any (kind_of K.cells K.own) size) }
    {
        Ok(Display {
            screen: Screen::with_size(alloc, size)?,
            cursor: Cursor::at(1, 1),
            pen: K::plain(),
            sets: Sets::power_up(),
            margins: Margins::full(size.rows),
            stops: TabStops::power_up(size.wide),
            modes: Modes::power_up(),
            saved: SavedOf::of_brush(K::plain().brush()),
        })
    }

    /// Returns whether two displays are equal in every part.
    pub fn same(&self, other: &Display<K>) -> bool
        ensures { IsTrue result ↔ (self.now ≡ other.now) }
    {
        self.cursor == other.cursor
            && K::same_brush(&self.pen.brush(), &other.pen.brush())
            && self.sets == other.sets
            && self.margins == other.margins
            && self.stops.same(&other.stops)
            && same_modes(&self.modes, &other.modes)
            && same_saved::<K>(&self.saved, &other.saved)
            && self.screen.same(&other.screen)
    }
}
