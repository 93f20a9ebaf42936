//! The parts of the state that decide what later bytes do: brush, sets, tab stops and the saved record.
ghost use Rattle.std.specs.Prelude.{◌≡◌, ◌≤◌, ◌<◌, ◌++◌, IfSome, is_some, length, drop};
ghost use Rattle.vt220_c.specs.Parts.{c_brush, c_sets, c_saved};
ghost use Rattle.std.specs.declared.option.Option.TheVariants.{None};

use crate::handle::Vt220;
use std::alloc::Global;
use vt_screen::Brush;
use vt_term::{Saved, Sets};

/// The attributes and the protection of the next glyph.
#[repr(C)]
#[derive(Clone, Copy)]
pub struct Vt220Brush {
    pub bold: bool,
    pub underline: bool,
    pub blink: bool,
    pub reverse: bool,
    pub is_protected: bool,
}

/// The graphic sets: the final bytes of G0 to G3, the slots in GL and GR, and that of a pending single shift, or 0.
#[repr(C)]
#[derive(Clone, Copy)]
pub struct Vt220Sets {
    pub g0: u8,
    pub g1: u8,
    pub g2: u8,
    pub g3: u8,
    pub gl: u8,
    pub gr: u8,
    pub single_shift: u8,
}

/// The state that DECRC restores.
#[repr(C)]
#[derive(Clone, Copy)]
pub struct Vt220Saved {
    pub row: usize,
    pub col: usize,
    pub wrap: bool,
    pub origin: bool,
    pub bold: bool,
    pub underline: bool,
    pub blink: bool,
    pub reverse: bool,
    pub is_protected: bool,
    pub g0: u8,
    pub g1: u8,
    pub g2: u8,
    pub g3: u8,
    pub gl: u8,
    pub gr: u8,
}

fn c_brush(brush: Brush) -> Vt220Brush
    ensures { result ≡ c_brush brush }
{
    let look = brush.rendition;
    Vt220Brush {
        bold: look.bold,
        underline: look.underline,
        blink: look.blink,
        reverse: look.reverse,
        is_protected: brush.protected,
    }
}

fn c_sets(sets: &Sets) -> Vt220Sets
    ensures { result ≡ c_sets sets.now }
{
    Vt220Sets {
        g0: sets.set(0).last(),
        g1: sets.set(1).last(),
        g2: sets.set(2).last(),
        g3: sets.set(3).last(),
        gl: sets.left(),
        gr: sets.right(),
        single_shift: sets.pending().unwrap_or(0),
    }
}

fn c_saved(saved: &Saved) -> Vt220Saved
    ensures { result ≡ c_saved saved.now }
{
    let look = saved.brush.rendition;
    Vt220Saved {
        row: saved.row,
        col: saved.col,
        wrap: saved.wrap,
        origin: saved.origin,
        bold: look.bold,
        underline: look.underline,
        blink: look.blink,
        reverse: look.reverse,
        is_protected: saved.brush.protected,
        g0: saved.g[0].last(),
        g1: saved.g[1].last(),
        g2: saved.g[2].last(),
        g3: saved.g[3].last(),
        gl: saved.gl,
        gr: saved.gr,
    }
}

/// Writes the brush. Returns false, and leaves `brush` unchanged, if the handle is closed.
#[unsafe(no_mangle)]
pub extern "C" fn core_brush(t: &mut Vt220, brush: &mut Vt220Brush, alloc: Global) -> bool
    ensures same { t.new.kept.inside ≡ t.old.kept.inside }
    ensures brush { IfSome t.old.kept.inside (λ s. brush.new ≡ c_brush s.display.brush) }
    ensures closed { t.old.kept.inside ≡ None → brush.new ≡ brush.old }
    ensures opened { result ≡ is_some t.old.kept.inside }
{
    let Some(inner) = t.take(alloc) else {
        return false;
    };
    *brush = c_brush(inner.terminal().brush());
    t.put(inner);
    true
}

/// Writes the sets. Returns false, and leaves `sets` unchanged, if the handle is closed.
#[unsafe(no_mangle)]
pub extern "C" fn core_sets(t: &mut Vt220, sets: &mut Vt220Sets, alloc: Global) -> bool
    ensures same { t.new.kept.inside ≡ t.old.kept.inside }
    ensures sets { IfSome t.old.kept.inside (λ s. sets.new ≡ c_sets s.display.sets) }
    ensures closed { t.old.kept.inside ≡ None → sets.new ≡ sets.old }
    ensures opened { result ≡ is_some t.old.kept.inside }
{
    let Some(inner) = t.take(alloc) else {
        return false;
    };
    *sets = c_sets(inner.terminal().sets());
    t.put(inner);
    true
}

/// Writes truth values into the front of `stops`, if they fit. Returns how many it wrote.
fn put_stops(from: &[bool], stops: &mut [bool]) -> usize
    ensures stops { length from.now ≤ length stops.old
        → (stops.new ≡ from.now ++ drop (length from.now) stops.old) × (result ≡ length from.now) }
    ensures none { length stops.old < length from.now → (stops.new ≡ stops.old) × (result ≡ 0) }
{
    if from.len() > stops.len() {
        return 0;
    }
    stops[..from.len()].copy_from_slice(from);
    from.len()
}

/// Writes the tab stops into the front of `stops`: index c - 1 for column c, from 1 to the last one of the wide screen at any width.
/// Returns how many these are. Returns 0, and leaves `stops` unchanged, if the handle is closed or they don't fit.
#[unsafe(no_mangle)]
pub extern "C" fn core_stops(t: &mut Vt220, stops: &mut [bool], alloc: Global) -> usize
    ensures same { t.new.kept.inside ≡ t.old.kept.inside }
    ensures stops { IfSome t.old.kept.inside (λ s. length s.display.stops ≤ length stops.old
        → (stops.new ≡ s.display.stops ++ drop (length s.display.stops) stops.old) × (result ≡ length s.display.stops)) }
    ensures none { IfSome t.old.kept.inside (λ s. length stops.old < length s.display.stops → (stops.new ≡ stops.old) × (result ≡ 0)) }
    ensures closed { t.old.kept.inside ≡ None → (stops.new ≡ stops.old) × (result ≡ 0) }
{
    let Some(inner) = t.take(alloc) else {
        return 0;
    };
    let count = put_stops(inner.terminal().stops(), stops);
    t.put(inner);
    count
}

/// Writes the saved record. Returns false, and leaves `saved` unchanged, if the handle is closed.
#[unsafe(no_mangle)]
pub extern "C" fn core_saved(t: &mut Vt220, saved: &mut Vt220Saved, alloc: Global) -> bool
    ensures same { t.new.kept.inside ≡ t.old.kept.inside }
    ensures saved { IfSome t.old.kept.inside (λ s. saved.new ≡ c_saved s.display.saved) }
    ensures closed { t.old.kept.inside ≡ None → saved.new ≡ saved.old }
    ensures opened { result ≡ is_some t.old.kept.inside }
{
    let Some(inner) = t.take(alloc) else {
        return false;
    };
    *saved = c_saved(&inner.terminal().saved());
    t.put(inner);
    true
}
