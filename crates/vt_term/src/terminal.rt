//! The terminal of a VT220.
ghost use Rattle.std.specs.Prelude.{◌≡◌, ◌↔◌, ◌≤◌, ◌+◌, ◌*◌, ◌++◌, ◌⊎◌, IfOk, IsTrue, IsOk, OnOk, OnErr, true, false, length, vec_len};
ghost use Rattle.std.specs.Prelude.{vec_capacity};
ghost use Rattle.vt_syntax.specs.Held.{IsHeldPart};
ghost use Rattle.vt_syntax.specs.declared.held.Held.TheVariants.{Nothing};
ghost use Rattle.vt_screen.specs.Grid.{columns, row_of, last_row};
ghost use Rattle.vt_term.specs.State.{power_up};
ghost use Rattle.vt_term.specs.Sound.{IsSound};
ghost use Rattle.vt_term.specs.Play.{play};
ghost use Rattle.vt_term.specs.Text.{text};

use crate::sized::SizedTerminal;
use crate::state::{Cursor, Margins, Modes, Saved};
use crate::tabs::STOPS;
use std::alloc::{AllocError, Global};
use std::marker::Model;
use vt_glyph::Sets;
use vt_screen::{Brush, Cell, ROWS, Size};
use vt_syntax::Held;

/// The limit of the text of a row in bytes: three for each of 132 cells, and LF.
pub const ROW_TEXT_LIMIT: usize = 3 * STOPS + 1;

const _: () = prove!(ROW_TEXT_LIMIT == 397);

/// The limit of a text in bytes: that of a row, for each row.
pub const TEXT_LIMIT: usize = ROWS * ROW_TEXT_LIMIT;

const _: () = prove!(TEXT_LIMIT == 9528);

/// A terminal of a VT220's size: 24 rows of 80 or 132 columns. `new` allocates its memory. After that, only calls that reserve
/// capacity in `out` allocate.
#[derive(Drop)]
pub struct Terminal {
    /// The terminal, whose size is a VT220's.
    pub sized: SizedTerminal,
}

impl Model for Terminal {
    ghost use Rattle.std.specs.Prelude.{◌≡◌};
    ghost use Rattle.vt_screen.specs.Sizes.{vt220_size};
    ghost use Rattle.vt_term.specs.State.{State};

    ghost Value = { State };

    ghost view = { λ t. t.sized };

    ghost invariant = { λ t. t.sized.display.grid.size ≡ vt220_size };
}

impl Terminal {
    /// States that the terminal is sound, for proofs. It does nothing when it runs.
    #[inline(always)]
    pub fn soundness(&self)
        ensures { IsSound self.now }
    {
        self.sized.soundness();
    }

    /// Returns a terminal in its power-up state. Returns `Err` if allocation fails.
    #[inline(always)]
    pub fn new(alloc: Global) -> Result<Terminal, AllocError>
        ensures { IfOk result (λ t. t ≡ power_up) }
    {
        Ok(Terminal {
            sized: SizedTerminal::new(alloc, Size::vt220())?,
        })
    }

    /// Plays a chunk of the host's bytes, and appends the reports to `out`.
    ///
    /// It first reserves ten bytes of capacity for each byte of the chunk. Returns `Err` if that fails, or is more than
    /// any vector may hold. Then the terminal and the contents of `out` are unchanged.
    #[inline(always)]
    pub fn feed(&mut self, piece: &[u8], out: &mut Vec<u8>) -> Result<(), AllocError>
        ensures state { OnOk result (self.new ≡ (play self.old piece.now).state) }
        ensures reports { OnOk result (out.new.items ≡ out.old.items ++ (play self.old piece.now).reports) }
        ensures bounded { vec_len out.new ≤ vec_len out.old + 10 * length piece.now }
        ensures same_state { OnErr result (self.new ≡ self.old) }
        ensures same_out { OnErr result (out.new.items ≡ out.old.items) }
        ensures has_room { vec_len out.old + 10 * length piece.now ≤ vec_capacity out.old → IsOk result }
        ensures capacity { vec_capacity out.old ≤ vec_capacity out.new }
    {
        self.sized.feed(piece, out)
    }

    /// Plays a chunk of the host's bytes, and appends the reports to `out`. `out` has capacity for ten more bytes for
    /// each byte of the chunk. It never fails and allocates nothing.
    #[inline(always)]
    #[tactic(auto, using(crate::proofs::Staying::play_stays))]
    pub fn feed_reserved(&mut self, piece: &[u8], out: &mut Vec<u8>)
        requires { vec_len out.old + 10 * length piece.now ≤ vec_capacity out.old }
        ensures state { self.new ≡ (play self.old piece.now).state }
        ensures reports { out.new.items ≡ out.old.items ++ (play self.old piece.now).reports }
        ensures bounded { vec_len out.new ≤ vec_len out.old + 10 * length piece.now }
        ensures capacity { vec_capacity out.old ≤ vec_capacity out.new }
    {
        self.sized.feed_reserved(piece, out);
    }

    /// Returns the cells of a row, 1 to 24: as many as the screen is wide.
    #[inline(always)]
    pub fn row(&self, row: usize) -> &[Cell]
        requires { (1 ≤ row) × (row ≤ last_row) }
        ensures cells { result.now ≡ row_of self.now.display.grid row }
        ensures len { length result.now ≡ self.now.display.grid.width }
        ensures width { (length result.now ≡ columns false) ⊎ (length result.now ≡ columns true) }
    {
        self.sized.row(row)
    }

    /// Returns the number of columns: 80 or 132.
    #[inline(always)]
    pub fn width(&self) -> usize
        ensures width { result ≡ self.now.display.grid.width }
        ensures sound { IsSound self.now }
    {
        self.soundness();
        self.sized.width()
    }

    /// Returns the cursor: the position of the next glyph, and whether it begins a new line.
    #[inline(always)]
    pub fn cursor(&self) -> Cursor
        ensures cursor { result ≡ self.now.display.cursor }
        ensures sound { IsSound self.now }
    {
        self.soundness();
        self.sized.cursor()
    }

    /// Returns the brush: the attributes and the protection of the next glyph.
    #[inline(always)]
    pub fn brush(&self) -> Brush
        ensures { result ≡ self.now.display.brush }
    {
        self.sized.brush()
    }

    /// Returns the graphic sets, designated and invoked.
    #[inline(always)]
    pub fn sets(&self) -> &Sets
        ensures sets { result.now ≡ self.now.display.sets }
    {
        self.sized.sets()
    }

    /// Returns the scroll region: the whole screen, unless DECSTBM set another.
    #[inline(always)]
    pub fn margins(&self) -> Margins
        ensures { result ≡ self.now.display.margins }
    {
        self.sized.margins()
    }

    /// Returns the tab stops: index c - 1 for column c, from 1 to 132 at any width.
    #[inline(always)]
    pub fn stops(&self) -> &[bool; STOPS]
        ensures { result.now ≡ self.now.display.stops }
    {
        self.soundness();
        self.sized.stops().as_array().unwrap()
    }

    /// Returns the modes, with those of the keypad and of the form of reports.
    #[inline(always)]
    pub fn modes(&self) -> Modes
        ensures { result ≡ self.now.display.modes }
    {
        self.sized.modes()
    }

    /// Returns the state that DECRC restores: what DECSC saved last, or after a reset what is saved at power-up.
    ///
    /// A later change of the columns (DECCOLM) has brought its column inside the width, and has reset its wrap flag.
    #[inline(always)]
    pub fn saved(&self) -> Saved
        ensures { result ≡ self.now.display.saved }
    {
        self.sized.saved()
    }

    /// Returns the held part: what decides how an unfinished sequence goes on.
    #[inline(always)]
    pub fn held(&self) -> &Held
        ensures held { result.now ≡ self.now.held }
        ensures held_part { IsHeldPart self.now.held }
    {
        self.sized.held()
    }

    /// Returns whether the terminal is between sequences.
    #[inline(always)]
    pub fn is_between(&self) -> bool
        ensures { IsTrue result ↔ (self.now.held ≡ Nothing) }
    {
        self.sized.is_between()
    }

    /// Returns whether the two terminals are in the same state, the held part included.
    #[inline(always)]
    pub fn same_state(&self, other: &Terminal) -> bool
        ensures { IsTrue result ↔ (self.now ≡ other.now) }
    {
        self.sized.same_state(&other.sized)
    }

    /// Appends the text of the screen to `out`: each row in UTF-8, without the spaces at its end, and LF.
    ///
    /// It first reserves `TEXT_LIMIT` bytes of capacity. Returns `Err` if that fails. Then the contents of `out` are
    /// unchanged.
    #[inline(always)]
    pub fn text(&self, out: &mut Vec<u8>) -> Result<(), AllocError>
        ensures ok { OnOk result (out.new.items ≡ out.old.items ++ text self.now) }
        ensures err { OnErr result (out.new.items ≡ out.old.items) }
        ensures has_room { vec_len out.old + TEXT_LIMIT ≤ vec_capacity out.old → IsOk result }
        ensures bounded { vec_len out.new ≤ vec_len out.old + TEXT_LIMIT }
        ensures capacity { vec_capacity out.old ≤ vec_capacity out.new }
    {
        self.sized.text(out)
    }

    /// Appends the text of the screen to `out`, which has capacity for `TEXT_LIMIT` more bytes. It never fails and
    /// allocates nothing.
    #[inline(always)]
    pub fn text_reserved(&self, out: &mut Vec<u8>)
        requires { vec_len out.old + TEXT_LIMIT ≤ vec_capacity out.old }
        ensures items { out.new.items ≡ out.old.items ++ text self.now }
        ensures bounded { vec_len out.new ≤ vec_len out.old + TEXT_LIMIT }
        ensures capacity { vec_capacity out.old ≤ vec_capacity out.new }
    {
        self.sized.text_reserved(out);
    }
}
