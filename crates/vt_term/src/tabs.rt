//! Tab stops.
ghost use Rattle.std.specs.Prelude.{◌≡◌, ◌≤◌, ◌<◌, ◌-◌, ◌↔◌, IsTrue, length, slice_set};
ghost use Rattle.vt_term.specs.Tabs.{horizontal_tab, set_tab, clear_tabs, next_stop_of, no_stops};
ghost use Rattle.vt_term.specs.Resizing.{is_stop_on, stops_on};
ghost use Rattle.vt_term.specs.State.{stops_of, is_stop_at_power_up};

use crate::display::Display;
use crate::kind::Kind;
use crate::same::same_stops;
use crate::state::Cursor;
use std::marker::Model;
use vt_screen::{COLUMNS, MOST};

/// The number of columns of a VT220 that may have a tab stop, at any width.
pub const STOPS: usize = COLUMNS;

/// The tab stops of a screen: for each column of its wide form, at any width, whether it has one.
#[derive(Drop)]
pub(crate) struct TabStops {
    /// Index c - 1 for column c. (Speed: an array of a fixed length costs no pointer.)
    stops: [bool; MOST],
    columns: usize,
}

impl Model for TabStops {
    ghost use Rattle.std.specs.Prelude.{◌≤◌, Bool, List, take};

    ghost Value = { List Bool };

    ghost view = { λ t. take t.columns t.stops };

    ghost invariant = { λ t. t.columns ≤ 255 };
}

/// Returns whether a column has a tab stop at power-up.
fn has_stop_at_power_up(col: usize) -> bool
    ensures { result ≡ is_stop_at_power_up col }
{
    1 < col && col % 8 == 1
}

/// Sets the tab stops at power-up, at columns 9, 17, 25 and so on, and no other: index c - 1 for column c. (This profile)
fn set_at_power_up(stops: &mut [bool])
    ensures { stops.new ≡ stops_of (length stops.old) }
{
    for col in 1..stops.len() + 1 {
        stops[col - 1] = has_stop_at_power_up(col);
    }
}

/// Returns whether a column has a tab stop on a screen of another size: as in `from`, or as at power-up if it is new.
fn has_stop_on(from: &[bool], col: usize) -> bool
    requires { 1 ≤ col }
    ensures { result ≡ is_stop_on from.now col }
{
    if col <= from.len() {
        from[col - 1]
    } else {
        has_stop_at_power_up(col)
    }
}

/// Sets the tab stops on a screen of another size: those of `from`, and of columns that are new those of power-up.
fn set_on(stops: &mut [bool], from: &[bool])
    ensures { stops.new ≡ stops_on (length stops.old) from.now }
{
    for col in 1..stops.len() + 1 {
        stops[col - 1] = has_stop_on(from, col);
    }
}

impl TabStops {
    /// Returns the tab stops of so many columns at power-up.
    pub(crate) fn power_up(columns: usize) -> TabStops
        requires { columns ≤ 255 }
        ensures { result ≡ stops_of columns }
    {
        let mut stops = [false; MOST];
        set_at_power_up(&mut stops[..columns]);
        TabStops { stops, columns }
    }

    /// Returns whether each column has a tab stop: index c - 1 for column c.
    pub(crate) fn as_slice(&self) -> &[bool]
        ensures { result.now ≡ self.now }
    {
        &self.stops[..self.columns]
    }

    /// Returns the same tab stops.
    pub(crate) fn copied(&self) -> TabStops
        ensures { result ≡ self.now }
    {
        TabStops {
            stops: self.stops,
            columns: self.columns,
        }
    }

    /// Returns the tab stops on a screen of so many columns: those that were there, and of columns that are new those of power-up.
    pub(crate) fn on(&self, columns: usize) -> TabStops
        requires { columns ≤ 255 }
        ensures { result ≡ stops_on columns self.now }
    {
        let mut stops = [false; MOST];
        set_on(&mut stops[..columns], self.as_slice());
        TabStops { stops, columns }
    }

    /// Returns whether the tab stops are the same.
    pub(crate) fn same(&self, other: &TabStops) -> bool
        ensures { IsTrue result ↔ (self.now ≡ other.now) }
    {
        same_stops(self.as_slice(), other.as_slice())
    }

    /// Sets or clears the stop at a column.
    fn set(&mut self, col: usize, stop: bool)
        requires { (1 ≤ col) × (col ≤ length self.old) }
        ensures { self.new ≡ slice_set self.old (col - 1) stop }
    {
        self.stops[col - 1] = stop;
    }

    /// Clears all stops.
    fn clear(&mut self)
        ensures { self.new ≡ no_stops (length self.old) }
    {
        self.stops = [false; MOST];
    }
}

impl<K: Kind> Display<K> {
    /// Carries out HT: moves the cursor to the next tab stop, or to the last column if there is none.
    pub fn horizontal_tab(&mut self)
        ensures { self.new ≡ horizontal_tab self.old }
    {
        let col = next_stop(self.stops.as_slice(), self.cursor.col, self.screen.width());
        self.cursor = Cursor::at(self.cursor.row, col);
    }

    /// Carries out HTS: sets a tab stop at the cursor's column.
    pub fn set_tab(&mut self)
        ensures { self.new ≡ set_tab self.old }
    {
        self.stops.set(self.cursor.col, true);
    }

    /// Carries out TBC: 0 clears the stop at the cursor's column, 3 clears all stops.
    #[inline(never)]
    #[tactic(auto, using(crate::proofs::SoundEffects::length_no_stops))]
    pub fn clear_tabs(&mut self, p: u16)
        ensures { self.new ≡ clear_tabs p self.old }
    {
        match p {
            0 => self.stops.set(self.cursor.col, false),
            3 => self.stops.clear(),
            _ => {}
        }
    }
}

/// Returns the next stop to the right of a column, or the last column if there is none.
pub fn next_stop(stops: &[bool], col: usize, last: usize) -> usize
    requires { (1 ≤ col) × (col ≤ last) × (last ≤ length stops.now) }
    ensures stop { result ≡ next_stop_of stops.now col last }
    ensures after { col ≤ result }
    ensures in_row { (1 ≤ result) × (result ≤ last) }
{
    for c in col + 1..last + 1 {
        if stops[c - 1] {
            return c;
        }
    }
    last
}
