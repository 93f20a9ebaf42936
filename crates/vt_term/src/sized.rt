//! The terminal of any size.
ghost use Rattle.std.specs.Prelude.{◌≡◌, IfOk};
ghost use Rattle.vt_screen.specs.Sizes.{IsSize};
ghost use Rattle.vt_term.specs.State.{state_of};
ghost use Rattle.vt_term.specs.Sound.{IsSoundSized};

use crate::display::Display;
use std::alloc::{AllocError, Global};
use std::marker::Model;
use vt_screen::Size;
use vt_syntax::Parser;

/// The limit of report bytes for each byte of a chunk.
pub const REPORT_LIMIT: usize = 10;

/// A terminal of any size from 2 rows of 2 columns to 255 rows of 255 columns, with a VT220's functions. `new` allocates its
/// memory. After that, only calls that reserve capacity in `out` allocate. Its size never changes.
#[derive(Drop)]
pub struct SizedTerminal {
    pub(crate) display: Display,
    pub(crate) parser: Parser,
}

impl Model for SizedTerminal {
    ghost use Rattle.vt_term.specs.State.{State};

    ghost Value = { State };

    ghost view = { λ t. record { display = t.display; held = t.parser } };
}

impl SizedTerminal {
    /// Returns a terminal of a size in its power-up state. Returns `Err` if allocation fails.
    pub fn new(alloc: Global, size: Size) -> Result<SizedTerminal, AllocError>
        requires { IsSize size }
        ensures { IfOk result (λ t. t ≡ state_of size) }
    {
        Ok(SizedTerminal {
            display: Display::new(alloc, size)?,
            parser: Parser::new(),
        })
    }

    /// Returns the size: the rows, and the columns of the narrow and of the wide screen.
    #[inline(always)]
    pub fn size(&self) -> Size
        ensures size { result ≡ self.now.display.grid.size }
        ensures sound { IsSize self.now.display.grid.size }
    {
        self.display.screen.size()
    }

    /// States that the terminal is sound, for proofs. It does nothing when it runs.
    #[inline(always)]
    pub fn soundness(&self)
        ensures { IsSoundSized self.now }
    {
        self.display.soundness();
        let _ = self.parser.held();
    }
}
