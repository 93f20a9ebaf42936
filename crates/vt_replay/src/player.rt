//! The players, which play a host's bytes on a terminal.
ghost use Rattle.std.specs.Prelude.{◌≡◌, ◌+◌, ◌*◌, ◌≤◌, ◌++◌, [], ℕ, List, length, vec_len, vec_capacity, IfOk};
ghost use Rattle.vt_screen.specs.declared.size.Size.{Size};
ghost use Rattle.vt_screen.specs.Sizes.{IsSize};
ghost use Rattle.vt_term.specs.State.{State, state_of};
ghost use Rattle.vt_term.specs.Play.{both};
ghost use Rattle.vt_xterm.specs.Play.{behind};
ghost use Rattle.vt_replay.specs.Resizes.{Session, Utf8Kept, XtermKept, plain_session, utf8_session, xterm_session, utf8_begun, xterm_begun};

use std::alloc::{AllocError, Global};
use vt_term::laws::{sized_cuts, sized_soundness};
use vt_term::{Size, SizedTerminal};
use vt_utf8::Decoder;
use vt_utf8::laws::{sized_cuts as utf8_cuts, sized_soundness as utf8_soundness};
use vt_utf8::sized::feed_utf8_reserved;
use vt_xterm::SizedFront;
use vt_xterm::laws::cuts as xterm_cuts;
use vt_xterm::sized::feed_xterm_reserved;

/// A player, which plays a host's bytes on a terminal.
pub(crate) trait Player: Drop {
    /// What is kept between bytes.
    ghost Kept: { Type 0 };

    /// What the player keeps.
    ghost kept: { Self → Kept };

    /// What bytes leave and report, and what a change of the size leaves.
    ghost session: { Session Kept };

    /// The size of the terminal.
    ghost screen: { Self → Size };

    /// What a new terminal of a size keeps.
    ghost begun: { Size → Kept };

    /// Returns the player of a new terminal. `Err` means that allocation failed.
    fn new(alloc: Global, size: Size) -> Result<Self, AllocError>
        requires { IsSize size }
        ensures kept { IfOk result (λ p. kept p ≡ begun size) }
        ensures screen { IfOk result (λ p. screen p ≡ size) };

    /// Plays a chunk, and appends the reports. `out` has capacity for ten more bytes for each byte of the chunk. It allocates
    /// nothing.
    fn feed(&mut self, chunk: &[u8], out: &mut Vec<u8>)
        requires { vec_len out.old + 10 * length chunk.now ≤ vec_capacity out.old }
        ensures reports { out.new.items ≡ out.old.items ++ (session.played (kept self.old) chunk.now).reports }
        ensures on { (more : List ℕ) → session.played (kept self.old) (chunk.now ++ more)
            ≡ both (session.played (kept self.old) chunk.now) (session.played (kept self.new) more) }
        ensures after { (more : List ℕ) → session.after (kept self.old) (chunk.now ++ more)
            ≡ session.after (kept self.new) more }
        ensures screen { screen self.new ≡ screen self.old }
        ensures bounded { vec_len out.new ≤ vec_len out.old + 10 * length chunk.now }
        ensures capacity { vec_capacity out.old ≤ vec_capacity out.new };

    /// Returns the terminal, as the bytes that came leave it.
    fn sized(&self) -> &SizedTerminal
        ensures state { session.played (kept self.now) [] ≡ record { state = result.now; reports = [] } }
        ensures kept { session.after (kept self.now) [] ≡ kept self.now }
        ensures screen { result.now.display.grid.size ≡ screen self.now };

    /// Makes another player, of any size, what this one becomes if the screen changes to that size. It allocates nothing.
    fn resize_into(&self, target: &mut Self)
        ensures kept { kept target.new ≡ session.on (screen target.old) (kept self.now) }
        ensures screen { screen target.new ≡ screen target.old };
}

/// The player of a host whose bytes are the terminal's.
#[derive(Drop)]
pub(crate) struct PlainPlayer {
    pub(crate) terminal: SizedTerminal,
}

impl Player for PlainPlayer {
    ghost Kept = { State };

    ghost kept = { λ p. p.terminal };

    ghost session = { plain_session };

    ghost screen = { λ p. p.terminal.display.grid.size };

    ghost begun = { state_of };

    fn new(alloc: Global, size: Size) -> Result<PlainPlayer, AllocError> {
        Ok(PlainPlayer {
            terminal: SizedTerminal::new(alloc, size)?,
        })
    }

    fn feed(&mut self, chunk: &[u8], out: &mut Vec<u8>) {
        sized_cuts();
        sized_soundness();
        self.terminal.soundness();
        self.terminal.feed_reserved(chunk, out);
    }

    fn sized(&self) -> &SizedTerminal {
        sized_cuts();
        self.terminal.soundness();
        &self.terminal
    }

    fn resize_into(&self, target: &mut PlainPlayer) {
        self.terminal.resize_into(&mut target.terminal);
    }
}

/// The player of a host that sends UTF-8.
#[derive(Drop)]
pub(crate) struct Utf8Player {
    pub(crate) terminal: SizedTerminal,
    pub(crate) decoder: Decoder,
}

impl Player for Utf8Player {
    ghost Kept = { Utf8Kept };

    ghost kept = { λ p. record { state = p.terminal; pending = p.decoder } };

    ghost session = { utf8_session };

    ghost screen = { λ p. p.terminal.display.grid.size };

    ghost begun = { utf8_begun };

    fn new(alloc: Global, size: Size) -> Result<Utf8Player, AllocError> {
        Ok(Utf8Player {
            terminal: SizedTerminal::new(alloc, size)?,
            decoder: Decoder::new(),
        })
    }

    /// Speed: this is the only call of `feed_utf8_reserved`, so the compiler inlines its loop.
    #[inline(never)]
    fn feed(&mut self, chunk: &[u8], out: &mut Vec<u8>) {
        self.terminal.soundness();
        utf8_cuts();
        utf8_soundness();
        feed_utf8_reserved(&mut self.terminal, &mut self.decoder, chunk, out);
    }

    fn sized(&self) -> &SizedTerminal {
        utf8_cuts();
        self.terminal.soundness();
        &self.terminal
    }

    fn resize_into(&self, target: &mut Utf8Player) {
        self.terminal.resize_into(&mut target.terminal);
        target.decoder = self.decoder.copied();
    }
}

/// The player of a host that sends UTF-8, with the functions of xterm. The terminal and the front have one size.
#[derive(Drop)]
pub(crate) struct XtermPlayer {
    pub(crate) terminal: SizedTerminal,
    pub(crate) front: SizedFront,
    pub(crate) ghost one_size: { front.pages.other.grid.size ≡ terminal.display.grid.size },
}

impl Player for XtermPlayer {
    ghost Kept = { XtermKept };

    ghost kept = { λ p. record { whole = behind p.terminal p.front; pending = p.front.pending } };

    ghost session = { xterm_session };

    ghost screen = { λ p. p.terminal.display.grid.size };

    ghost begun = { xterm_begun };

    fn new(alloc: Global, size: Size) -> Result<XtermPlayer, AllocError> {
        Ok(XtermPlayer {
            terminal: SizedTerminal::new(alloc, size)?,
            front: SizedFront::new(alloc, size)?,
        })
    }

    fn feed(&mut self, chunk: &[u8], out: &mut Vec<u8>) {
        xterm_cuts();
        utf8_cuts();
        feed_xterm_reserved(&mut self.terminal, &mut self.front, chunk, out);
    }

    fn sized(&self) -> &SizedTerminal {
        xterm_cuts();
        utf8_cuts();
        &self.terminal
    }

    fn resize_into(&self, target: &mut XtermPlayer) {
        self.front.resize_into(&self.terminal, &mut target.front);
        self.terminal.resize_into(&mut target.terminal);
    }
}
