//! A server with two clients.
use crate::counted::update;
use std::alloc::{AllocError, Global};
use std::io;
use std::time::{Clock, Instant};
use vt_paint::{PAINT_LIMIT, repaint};
use vt_term::{Size, SizedTerminal, Terminal};
use vt_update::UPDATE_LIMIT;

/// The bytes that a client was sent, and the time that it took to make them.
#[derive(Drop)]
pub(crate) struct Sent {
    pub(crate) bytes: u64,
    pub(crate) nanos: u64,
    out: Vec<u8>,
}

impl Sent {
    fn new(alloc: Global, room: usize) -> Result<Sent, AllocError> {
        Ok(Sent {
            bytes: 0,
            nanos: 0,
            out: Vec::with_capacity(alloc, room)?,
        })
    }

    fn restart(&mut self) {
        self.bytes = 0;
        self.nanos = 0;
    }

    fn count(&mut self, rt: &impl Clock, start: Instant) -> io::Result<()> {
        let nanos = start.elapsed(rt)?.subsec_nanos() as u64;
        self.nanos = self.nanos.saturating_add(nanos);
        self.bytes = self.bytes.saturating_add(self.out.len() as u64);
        Ok(())
    }
}

/// The server's terminal, the one that a client shows, and what was sent.
#[derive(Drop)]
pub(crate) struct Server {
    terminal: Terminal,
    shown: SizedTerminal,
    reports: Vec<u8>,
    pub(crate) frames: u64,
    pub(crate) inside: u64,
    pub(crate) repainted: u64,
    pub(crate) updates: Sent,
    pub(crate) repaints: Sent,
}

impl Server {
    /// Returns a server with terminals in their power-up state. Returns `Err` if allocation fails.
    pub(crate) fn new(alloc: Global) -> Result<Server, AllocError> {
        Ok(Server {
            reports: Vec::new(alloc),
            frames: 0,
            inside: 0,
            repainted: 0,
            updates: Sent::new(alloc, UPDATE_LIMIT)?,
            repaints: Sent::new(alloc, PAINT_LIMIT)?,
            terminal: Terminal::new(alloc)?,
            shown: SizedTerminal::new(alloc, Size::vt220())?,
        })
    }

    /// Resets everything to its power-up state, with nothing sent. The buffers keep their capacity.
    pub(crate) fn restart(&mut self, alloc: Global) -> Result<(), AllocError> {
        self.terminal = Terminal::new(alloc)?;
        self.shown = SizedTerminal::new(alloc, Size::vt220())?;
        self.frames = 0;
        self.inside = 0;
        self.repainted = 0;
        self.updates.restart();
        self.repaints.restart();
        Ok(())
    }

    /// Plays a frame. If it ends between sequences, sends what it changed.
    pub(crate) fn play(&mut self, rt: &impl Clock, frame: &[u8]) -> io::Result<()> {
        self.frames = self.frames.saturating_add(1);
        self.reports.clear();
        self.terminal.feed(frame, &mut self.reports)?;
        if !self.terminal.is_between() {
            self.inside = self.inside.saturating_add(1);
            return Ok(());
        }
        self.updates.out.clear();
        let start = Instant::now(rt)?;
        if !update(&mut self.shown, &self.terminal, &mut self.updates.out) {
            return Err(AllocError.into());
        }
        self.updates.count(rt, start)?;
        self.repaints.out.clear();
        let start = Instant::now(rt)?;
        repaint(&self.terminal, &mut self.repaints.out).map_err(|_| AllocError)?;
        self.repaints.count(rt, start)?;
        if self.updates.out.as_slice() == self.repaints.out.as_slice() {
            self.repainted = self.repainted.saturating_add(1);
        }
        Ok(())
    }
}
