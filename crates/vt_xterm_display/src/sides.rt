//! Left and right margins.
ghost use Rattle.std.specs.Prelude.{◌≡◌, IfSome, IfNone, true, false};
ghost use Rattle.vt_xterm_display.specs.State.{full_sides};
ghost use Rattle.vt_xterm_display.specs.Sound.{AreSides};
ghost use Rattle.vt_xterm_display.specs.Moving.{are_sides, sides_of};

/// Left and right margins: at least two columns.
#[derive(Clone, Copy, Debug, PartialEq, Eq)]
pub struct Sides {
    /// The first column, from 1.
    pub left: usize,
    /// The last column.
    pub right: usize,
}

impl Sides {
    /// Returns all columns of a screen of this width.
    pub(crate) fn full(width: usize) -> Sides
        ensures { result ≡ full_sides width }
    {
        Sides {
            left: 1,
            right: width,
        }
    }

    /// Returns the margins that DECSLRM sets on a screen of this width, if there are at least two columns.
    pub(crate) fn of(width: usize, p1: u16, p2: u16) -> Option<Sides>
        ensures sides { IfSome result (λ m. m ≡ sides_of width p1 p2) }
        ensures are { IfSome result (λ m. are_sides width p1 p2 ≡ true) }
        ensures fit { IfSome result (λ m. AreSides width m) }
        ensures none { IfNone result (are_sides width p1 p2 ≡ false) }
    {
        let left = (p1 as usize).max(1);
        let right = if p2 == 0 {
            width
        } else {
            (p2 as usize).min(width)
        };
        if left < right {
            Some(Sides { left, right })
        } else {
            None
        }
    }
}
