//! The state that a front keeps.
ghost use Rattle.std.specs.Prelude.{◌≡◌, ◌≤◌, IfOk, IfSome, None, Some, false, length, is_some};
ghost use Rattle.std.specs.Bool.{OnFalse};
ghost use Rattle.vt_screen.specs.Sizes.{IsSize};
ghost use Rattle.vt_term.specs.State.{display_of, state_of};
ghost use Rattle.vt_term.specs.Pages.{IsSoundSizedPage, with_page};
ghost use Rattle.vt_xterm.specs.Pages.{pages_of, change_sides};
ghost use Rattle.vt_xterm.specs.Sides.{AreSides, full_sides, bounds};
ghost use Rattle.vt_xterm.specs.Play.{front_of};

use crate::sides::Sides;
use std::alloc::{AllocError, Global};
use std::marker::Model;
use vt_term::{Size, SizedPage, SizedTerminal};
use vt_utf8::Decoder;

/// The page that isn't shown, of any size, which page is shown, and what else xterm keeps of a screen.
#[derive(Drop)]
pub struct SizedPages {
    /// The page that isn't shown.
    pub(crate) other: SizedPage,
    /// Whether the alternate page is shown.
    pub(crate) alternate: bool,
    /// Whether DECCOLM has an effect.
    pub(crate) resizes: bool,
    /// Whether pasted text is wanted in brackets.
    pub(crate) brackets: bool,
    /// The left and right margins, if DECLRMM is set.
    pub(crate) sides: Option<Sides>,
}

impl Model for SizedPages {
    ghost use Rattle.vt_xterm.specs.Pages.{PagesState};

    ghost Value = { PagesState };

    ghost view = { λ p. record { other = p.other; alternate = p.alternate; resizes = p.resizes; brackets = p.brackets; sides = p.sides } };
}

impl SizedPages {
    /// States that the page that isn't shown is sound, for proofs. It does nothing when it runs.
    #[inline(always)]
    pub fn soundness(&self)
        ensures { IsSoundSizedPage self.now.other }
    {
        self.other.soundness();
    }

    /// Returns whether the alternate page is shown.
    #[inline(always)]
    pub(crate) fn is_alternate(&self) -> bool
        ensures { result ≡ self.now.alternate }
    {
        self.alternate
    }

    /// Returns whether DECLRMM is set.
    #[inline(always)]
    pub fn has_sides(&self) -> bool
        ensures none { OnFalse result (self.now.sides ≡ None) }
    {
        self.sides.is_some()
    }

    /// Returns the left and right margins that bound functions on a screen of this width: those that leave a column out.
    #[inline(always)]
    #[tactic(auto, unfolding(crate::specs::Sides::bounds))]
    pub(crate) fn bounds(&self, width: usize) -> Option<Sides>
        ensures bounds { result ≡ bounds width self.now.sides }
        ensures fit { IfSome result (λ m. AreSides width m) }
    {
        let Some(sides) = self.sides else {
            return None;
        };
        if sides.are_narrow(width) {
            Some(sides)
        } else {
            None
        }
    }

    /// Makes the left and right margins full, if DECLRMM is set.
    pub(crate) fn fill_sides(&mut self, width: usize)
        ensures { self.new ≡ record self.old { sides = change_sides (λ m. full_sides width) self.old.sides } }
    {
        if self.sides.is_some() {
            self.sides = Some(Sides::full(width));
        }
    }

    /// Makes these the left and right margins.
    pub(crate) fn set_sides(&mut self, sides: Sides)
        ensures { self.new ≡ record self.old { sides = Some sides } }
    {
        self.sides = Some(sides);
    }

    /// Drops a wrap that is pending in the right margin's column.
    pub(crate) fn unwrap_sides(&mut self)
        ensures { self.new ≡ record self.old { sides = change_sides (λ m. record m { wrap = false }) self.old.sides } }
    {
        if let Some(sides) = self.sides {
            self.sides = Some(sides.unwrapped());
        }
    }

    /// Makes the pages equal to others of the same size.
    fn copy_from(&mut self, other: &SizedPages)
        requires { self.old.other.grid.size ≡ other.now.other.grid.size }
        ensures { self.new ≡ other.now }
    {
        self.other.copy_from(&other.other);
        self.alternate = other.alternate;
        self.resizes = other.resizes;
        self.brackets = other.brackets;
        self.sides = other.sides;
    }

    /// Makes the pages as at power-up: both blank, and the main one shown. Whether DECCOLM has an effect stays.
    pub(crate) fn reset(&mut self)
        ensures { self.new ≡ record (pages_of self.old.other.grid.size) { resizes = self.old.resizes } }
    {
        self.other.reset();
        self.alternate = false;
        self.brackets = false;
        self.sides = None;
    }
}

/// What a terminal of any size lacks under TERM=xterm: what is pending of UTF-8, the page that isn't shown, three
/// modes, and side margins. `new` allocates its memory, and nothing else does.
#[derive(Drop)]
pub struct SizedFront {
    /// What is pending of UTF-8.
    pub decoder: Decoder,
    /// The page that isn't shown, and the modes.
    pub pages: SizedPages,
}

impl Model for SizedFront {
    ghost use Rattle.vt_xterm.specs.Play.{FrontState};

    ghost Value = { FrontState };

    ghost view = { λ f. record { pending = f.decoder; pages = f.pages } };
}

impl SizedFront {
    /// Returns a front at power-up, for a terminal of a size at power-up: nothing is pending, and the main page is shown. Returns
    /// `Err` if allocation fails.
    pub fn new(alloc: Global, size: Size) -> Result<SizedFront, AllocError>
        requires { IsSize size }
        ensures { IfOk result (λ front. front ≡ front_of size) }
    {
        let other = SizedPage::new(alloc, size)?;
        Ok(SizedFront {
            decoder: Decoder::new(),
            pages: SizedPages {
                other,
                alternate: false,
                resizes: false,
                brackets: false,
                sides: None,
            },
        })
    }

    /// Returns the size of the page that isn't shown: the rows, and the columns of the narrow and of the wide screen.
    pub fn size(&self) -> Size
        ensures size { result ≡ self.now.pages.other.grid.size }
        ensures sound { IsSize self.now.pages.other.grid.size }
        ensures page { IsSoundSizedPage self.now.pages.other }
    {
        self.pages.soundness();
        self.pages.other.size()
    }

    /// Makes what the front keeps equal to what another one of the same size keeps. It never fails and allocates nothing.
    pub fn copy_from(&mut self, other: &SizedFront)
        requires { self.old.pages.other.grid.size ≡ other.now.pages.other.grid.size }
        ensures { self.new ≡ other.now }
    {
        self.decoder = other.decoder.copied();
        self.pages.copy_from(&other.pages);
    }

    /// Makes a terminal of the same size as at power-up, with the cells of the page that isn't shown, and what DECSC
    /// saved on it. It never fails and allocates nothing.
    pub fn show_other(&self, terminal: &mut SizedTerminal)
        requires { terminal.old.display.grid.size ≡ self.now.pages.other.grid.size }
        ensures { terminal.new ≡ record (state_of terminal.old.display.grid.size) {
          display = with_page self.now.pages.other (display_of terminal.old.display.grid.size);
        } }
    {
        terminal.show_copy(&self.pages.other);
    }

    /// Returns the pending bytes of UTF-8: at most three.
    pub fn pending(&self) -> &[u8]
        ensures value { result.now ≡ self.now.pending }
        ensures few { length result.now ≤ 3 }
    {
        self.decoder.pending()
    }

    /// Returns whether the alternate page is shown.
    pub fn is_alternate(&self) -> bool
        ensures { result ≡ self.now.pages.alternate }
    {
        self.pages.is_alternate()
    }

    /// Returns whether pasted text is wanted in brackets, `CSI 200 ~` and `CSI 201 ~` (?2004).
    pub fn brackets(&self) -> bool
        ensures { result ≡ self.now.pages.brackets }
    {
        self.pages.brackets
    }

    /// Returns whether DECCOLM has an effect.
    pub fn resizes(&self) -> bool
        ensures { result ≡ self.now.pages.resizes }
    {
        self.pages.resizes
    }

    /// Returns the left and right margins, if DECLRMM is set.
    pub fn sides(&self) -> Option<Sides>
        ensures { result ≡ self.now.pages.sides }
    {
        self.pages.sides
    }

    /// Returns whether the left and right margins bound functions on a screen of this width: they leave a column out.
    pub fn is_bounded(&self, width: usize) -> bool
        ensures { result ≡ is_some (bounds width self.now.pages.sides) }
    {
        self.pages.bounds(width).is_some()
    }
}
