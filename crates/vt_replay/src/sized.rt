//! What is due of a screen of any size.
ghost use Rattle.std.specs.Prelude.{◌≡◌, ◌+◌, ◌*◌, ◌≤◌, ◌++◌, [], true, false, length, max, vec_len, vec_capacity, nat_le};
ghost use Rattle.vt_replay.specs.Due.{due_at_end, is_sent, is_there, sent_by, there_by};
ghost use Rattle.vt_replay.specs.Sized.{room_at, room_of};
ghost use Rattle.std.specs.List.{list_all};

use crate::output::front_for;
use crate::resized::Playing;
use crate::status::{STATUS_LIMIT, push_status};
use vt_cli::What;
use vt_device::Output;
use vt_paint::sized::{paint_limit, repaint_reserved};
use vt_picture::sized::{picture_limit, picture_reserved, show_limit, show_reserved};
use vt_term::{REPORT_LIMIT, SizedTerminal};
use vt_xterm_paint::sized::xterm_paint_limit;

/// What is due at the end of the input.
#[derive(Clone, Copy)]
pub(crate) enum Ending {
    /// What is due of a terminal.
    Terminal(What),
    /// The repaint of a session under TERM=xterm.
    Session,
}

/// The output that is due of a player on a terminal of any size: its reports as they come, or its text, its repaint, its status, its
/// text with attributes or its picture at the end.
#[derive(Drop)]
pub(crate) struct SizedOutput<P: Playing> {
    what: What,
    player: P,
    /// The number of report bytes.
    reported: u64,
    /// The capacity for the reports of one chunk.
    room: usize,
    /// The most bytes that are due at the end, at each size of the screen.
    most: usize,
    ghost fits: { list_all (λ size. nat_le (room_at what size) most) (P.sizes player) ≡ true },
}

impl<P: Playing> SizedOutput<P> {
    /// Returns the output of a player, with capacity for the reports of chunks of so many bytes.
    pub(crate) fn new(player: P, what: What, piece: usize) -> SizedOutput<P>
        requires piece { piece ≤ 65536 }
        ensures what { result.what ≡ what }
        ensures player { result.player ≡ player }
        ensures reported { result.reported ≡ 0 }
        ensures none { (P.played player []).reports ≡ [] }
    {
        let _ = player.sized();
        let most = player.most(Ending::Terminal(what));
        SizedOutput {
            what,
            player,
            reported: 0,
            room: REPORT_LIMIT * piece,
            most,
        }
    }
}

impl<P: Playing> Output for SizedOutput<P> {
    ghost written = { λ o bytes. sent_by (P.played o.player) o.what bytes };

    ghost ending = { λ o bytes. due_at_end o.what (P.played o.player bytes).state
        (o.reported + length (P.played o.player bytes).reports) };

    ghost there = { λ o bytes. there_by (P.played o.player) o.what bytes };

    ghost most = { λ o. 65536 };

    ghost counted = { λ o. o.reported };

    ghost reserve = { λ o. max (max o.room 10) o.most };

    fn capacity(&self) -> usize {
        self.room.max(REPORT_LIMIT).max(self.most)
    }

    fn feed(&mut self, chunk: &[u8], out: &mut Vec<u8>) -> usize {
        let count = self.player.front(front_for(chunk, out));
        self.player.feed(&chunk[..count], out);
        self.reported += out.len() as u64;
        if !is_sent(self.what) {
            out.clear();
        }
        count
    }

    fn is_there(&self) -> bool {
        is_due(self.player.sized(), self.what)
    }

    fn end(&mut self, out: &mut Vec<u8>) {
        push_sized(self.player.sized(), self.what, self.reported, out);
    }
}

/// Returns whether what is asked for is there: a repaint between sequences only, everything else always.
fn is_due(terminal: &SizedTerminal, what: What) -> bool
    ensures { result ≡ is_there what terminal.now }
{
    match what {
        What::Repaint => terminal.is_between(),
        What::Text | What::Reports | What::Status | What::Show | What::Picture => true,
    }
}

/// Returns whether the reports are written.
fn is_sent(what: What) -> bool
    ensures { result ≡ is_sent what }
{
    match what {
        What::Reports => true,
        What::Text | What::Repaint | What::Status | What::Show | What::Picture => false,
    }
}

/// Returns the most bytes that are due after the whole input on the screen of a terminal.
pub(crate) fn room_of(terminal: &SizedTerminal, ending: Ending) -> usize
    ensures { result ≡ room_of ending terminal.now.display.grid.size }
{
    match ending {
        Ending::Terminal(what) => room_at(terminal, what),
        Ending::Session => xterm_paint_limit(terminal.size()),
    }
}

/// Returns the most bytes that are due of a terminal after the whole input.
fn room_at(terminal: &SizedTerminal, what: What) -> usize
    ensures { result ≡ room_at what terminal.now.display.grid.size }
{
    match what {
        What::Text => terminal.text_limit(),
        What::Reports => 0,
        What::Repaint => paint_limit(terminal.size()),
        What::Status => STATUS_LIMIT,
        What::Show => show_limit(terminal.size()),
        What::Picture => picture_limit(terminal.size()),
    }
}

/// Appends what is due after the whole input: the text, the repaint, the status, the text with its attributes, the picture, or
/// nothing.
fn push_sized(terminal: &SizedTerminal, what: What, reported: u64, out: &mut Vec<u8>)
    requires room { vec_len out.old + room_at what terminal.now.display.grid.size ≤ vec_capacity out.old }
    requires there { is_there what terminal.now ≡ true }
    ensures { out.new.items ≡ out.old.items ++ due_at_end what terminal.now reported }
{
    match what {
        What::Text => terminal.text_reserved(out),
        What::Status => push_status(terminal, reported, out),
        What::Reports => {}
        What::Repaint => repaint_reserved(terminal, out),
        What::Show => show_reserved(terminal, out),
        What::Picture => picture_reserved(terminal, out),
    }
}
