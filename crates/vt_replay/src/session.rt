//! The repaint of a session under TERM=xterm.
ghost use Rattle.std.specs.Prelude.{◌≡◌, ◌+◌, ◌*◌, ◌/◌, ◌≤◌, ◌++◌, [], List, ℕ, true, All, vec_len, vec_capacity, nat_le, IfOk};
ghost use Rattle.std.specs.List.{list_all};
ghost use Rattle.vt_screen.specs.Sizes.{IsSize};
ghost use Rattle.vt_xterm.specs.Play.{behind};
ghost use Rattle.vt_xterm_paint.specs.Repaint.{xterm_repaint, xterm_paint_limit};
ghost use Rattle.vt_replay.specs.Resizes.{XtermKept, xterm_session, xterm_begun, session_with, kept_on, due, coming, sizes_of};
ghost use Rattle.vt_replay.specs.Session.{is_between};

use crate::output::front_for;
use crate::player::{Player, XtermPlayer};
use crate::resized::{Playing, Resize, Resized};
use crate::sized::Ending;
use std::alloc::{AllocError, Global};
use vt_device::Output;
use vt_term::{REPORT_LIMIT, Size, SizedTerminal};
use vt_xterm_paint::sized::repaint_xterm_reserved;

/// The player of a session that is repainted: of the terminal, the page that isn't shown, and the modes of the front.
#[derive(Drop)]
pub(crate) struct SessionPlayer {
    pub(crate) player: XtermPlayer,
    /// A terminal on which the page that isn't shown is repainted.
    scratch: SizedTerminal,
    ghost scratch_size: { scratch.display.grid.size ≡ player.terminal.display.grid.size },
}

impl Player for SessionPlayer {
    ghost Kept = { XtermKept };

    ghost kept = { λ p. record { whole = behind p.player.terminal p.player.front; pending = p.player.front.pending } };

    ghost session = { xterm_session };

    ghost screen = { λ p. p.player.terminal.display.grid.size };

    ghost begun = { xterm_begun };

    fn new(alloc: Global, size: Size) -> Result<SessionPlayer, AllocError> {
        let scratch = SizedTerminal::new(alloc, size)?;
        let player = XtermPlayer::new(alloc, size)?;
        Ok(SessionPlayer { player, scratch })
    }

    fn feed(&mut self, chunk: &[u8], out: &mut Vec<u8>) {
        self.player.feed(chunk, out);
    }

    fn sized(&self) -> &SizedTerminal {
        self.player.sized()
    }

    fn resize_into(&self, target: &mut SessionPlayer) {
        self.player.resize_into(&mut target.player);
    }
}

impl SessionPlayer {
    /// Returns whether the session is between sequences, and between characters.
    fn is_between(&self) -> bool
        ensures { result ≡ is_between (behind self.now.player.terminal self.now.player.front) self.now.player.front.pending }
    {
        self.player.terminal.is_between() && self.player.front.pending().is_empty()
    }

    /// Appends the repaint of the session, which is between sequences, and between characters.
    fn repaint(&mut self, out: &mut Vec<u8>)
        requires there { is_between (behind self.old.player.terminal self.old.player.front) self.old.player.front.pending ≡ true }
        requires room { vec_len out.old + xterm_paint_limit self.old.player.terminal.display.grid.size ≤ vec_capacity out.old }
        ensures items { out.new.items ≡ out.old.items ++ xterm_repaint (behind self.old.player.terminal self.old.player.front) }
        ensures player { self.new.player ≡ self.old.player }
    {
        let player = &self.player;
        repaint_xterm_reserved(&player.terminal, &player.front, &mut self.scratch, out);
    }
}

/// The output of the repaint of a session on a screen that changes its size.
#[derive(Drop)]
pub(crate) struct SessionOutput {
    session: Resized<SessionPlayer>,
    /// The most bytes of the repaint, at each size of the screen.
    most: usize,
    /// The reports of a chunk, which are dropped.
    reports: Vec<u8>,
    ghost fits: { list_all (λ size. nat_le (xterm_paint_limit size) most)
        (sizes_of session.player.player.terminal.display.grid.size
        (coming session.later.items (λ l. l.after) (λ l. l.target.player.terminal.display.grid.size))) ≡ true },
}

impl SessionOutput {
    /// Returns the output of a new session whose screen has these changes, with memory for the reports of chunks of so many bytes.
    /// `Err` means that allocation failed.
    pub(crate) fn new(
        alloc: Global,
        size: Size,
        resizes: &[Resize],
        piece: usize,
    ) -> Result<SessionOutput, AllocError>
        requires piece_in_range { (1 ≤ piece) × (piece ≤ 65536) }
        requires size_in_range { IsSize size }
        requires sizes_in_range { All (λ r. IsSize r.size) resizes.now }
        ensures kept { IfOk result (λ o. ◌≡◌ {A = List ℕ → XtermKept}
            (λ bytes. kept_on xterm_session
            (record { whole = behind o.session.player.player.terminal o.session.player.player.front; pending = o.session.player.player.front.pending })
            (due o.session.left (coming o.session.later.items (λ l. l.after) (λ l. l.target.player.terminal.display.grid.size))) bytes)
            (λ bytes. session_with size resizes.now bytes)) }
        ensures takes { IfOk result (λ o. 1 ≤ vec_capacity o.reports / 10) }
    {
        let reports = Vec::with_capacity(alloc, REPORT_LIMIT * piece)?;
        let session = Resized::<SessionPlayer>::new(alloc, size, resizes)?;
        let most = session.most(Ending::Session);
        Ok(SessionOutput {
            session,
            most,
            reports,
        })
    }
}

impl Output for SessionOutput {
    ghost written = { λ o bytes. [] };

    ghost ending = { λ o bytes. xterm_repaint (kept_on xterm_session
        (record { whole = behind o.session.player.player.terminal o.session.player.player.front; pending = o.session.player.player.front.pending })
        (due o.session.left (coming o.session.later.items (λ l. l.after) (λ l. l.target.player.terminal.display.grid.size))) bytes).whole };

    ghost there = { λ o bytes.
        let kept = kept_on xterm_session
        (record { whole = behind o.session.player.player.terminal o.session.player.player.front; pending = o.session.player.player.front.pending })
        (due o.session.left (coming o.session.later.items (λ l. l.after) (λ l. l.target.player.terminal.display.grid.size))) bytes in
        is_between kept.whole kept.pending };

    ghost most = { λ o. vec_capacity o.reports / 10 };

    ghost counted = { λ o. 0 };

    ghost reserve = { λ o. o.most };

    fn capacity(&self) -> usize {
        self.most
    }

    fn feed(&mut self, chunk: &[u8], _out: &mut Vec<u8>) -> usize {
        self.reports.clear();
        let count = self.session.front(front_for(chunk, &self.reports));
        self.session.feed(&chunk[..count], &mut self.reports);
        count
    }

    fn is_there(&self) -> bool {
        let _ = self.session.sized();
        self.session.player.is_between()
    }

    fn end(&mut self, out: &mut Vec<u8>) {
        let _ = self.session.sized();
        self.session.player.repaint(out);
    }
}
