//! One call after each frame, whose instructions are to be counted.
ghost use Rattle.std.specs.Prelude.{◌≤◌};

use std::alloc::{AllocError, Global};
use vt_paint::{PAINT_LIMIT, repaint};
use vt_picture::SHOW_LIMIT;
use vt_picture::sized::show;
use vt_term::{Size, SizedTerminal, Terminal};
use vt_update::UPDATE_LIMIT;
use vt_update::sized::{update_limit, update_reserved};

/// The call that is made after each frame.
#[derive(Clone, Copy)]
pub(crate) enum Call {
    Nothing,
    Show,
    Repaint,
    Update,
}

impl Call {
    /// Returns the call with a name. Any other name is no call.
    pub(crate) fn named(name: &str) -> Call {
        match name {
            "show" => Call::Show,
            "repaint" => Call::Repaint,
            "update" => Call::Update,
            _ => Call::Nothing,
        }
    }

    /// Makes the call into `out`, which has capacity for it. Returns whether it succeeded.
    fn make(self, terminal: &Terminal, shown: &mut SizedTerminal, out: &mut Vec<u8>) -> bool {
        match self {
            Call::Nothing => true,
            Call::Show => show(&terminal.sized, out).is_ok(),
            Call::Repaint => repaint(terminal, out).is_ok(),
            Call::Update => update(shown, terminal, out),
        }
    }
}

/// Updates what is shown. Returns whether both terminals are between sequences, and `out` has capacity.
pub(crate) fn update(shown: &mut SizedTerminal, to: &Terminal, out: &mut Vec<u8>) -> bool {
    let to = &to.sized;
    if !shown.is_between() || !to.is_between() || out.reserve(update_limit(to.size())).is_err() {
        return false;
    }
    update_reserved(shown, to, out)
}

/// A terminal on which a recording is played, and a second one for what is shown.
#[derive(Drop)]
struct Player {
    terminal: Terminal,
    shown: SizedTerminal,
    reports: Vec<u8>,
    out: Vec<u8>,
}

impl Player {
    fn new(alloc: Global) -> Result<Player, AllocError> {
        Ok(Player {
            reports: Vec::new(alloc),
            out: Vec::with_capacity(alloc, PAINT_LIMIT.max(SHOW_LIMIT).max(UPDATE_LIMIT))?,
            terminal: Terminal::new(alloc)?,
            shown: SizedTerminal::new(alloc, Size::vt220())?,
        })
    }

    /// Plays a frame, and makes the call if the frame ends between sequences. Returns whether it was made.
    fn play(&mut self, frame: &[u8], call: Call) -> Result<bool, AllocError> {
        self.reports.clear();
        self.terminal.feed(frame, &mut self.reports)?;
        if !self.terminal.is_between() {
            return Ok(false);
        }
        self.out.clear();
        if call.make(&self.terminal, &mut self.shown, &mut self.out) {
            Ok(true)
        } else {
            Err(AllocError)
        }
    }
}

/// Plays a recording in frames of `size` bytes, and makes the call after each that ends between sequences. Returns the
/// number of these frames, and the bytes of the calls.
pub(crate) fn count(
    alloc: Global,
    recording: &[u8],
    size: usize,
    call: Call,
) -> Result<(u64, u64), AllocError>
    requires { 1 ≤ size }
{
    let mut player = Player::new(alloc)?;
    let mut calls = 0u64;
    let mut bytes = 0u64;
    for frame in recording.chunks(size) {
        if player.play(frame, call)? {
            calls = calls.wrapping_add(1);
            bytes = bytes.wrapping_add(player.out.len() as u64);
        }
    }
    Ok((calls, bytes))
}
