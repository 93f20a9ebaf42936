//! Playing what a host sends on the terminal of a handle by a player, with its log if there is a buffer for it.
ghost use Rattle.std.specs.Prelude.{◌≡◌, ◌+◌, ◌≤◌, ◌<◌, ◌⊎◌, ◌∷◌, [], ℕ, true, length, take, vec_capacity};
ghost use Rattle.std.specs.Bool.{OnTrue, OnFalse};
ghost use Rattle.vt220_c.specs.Told.{WritesAt, Plays, Rings, lines_if};

use crate::bytes::put;
use crate::inner::{CHUNK, Fed, Inner, Logged};
use crate::player::Player;
use vt_term::REPORT_LIMIT;

/// The number of bytes at the front of a chunk that may be played at once, and the number of bells in them.
#[derive(Drop)]
struct Turn {
    len: usize,
    bells: usize,
}

/// The numbers of bytes at the front of a chunk that were played, and of bytes of reports and of lines that were
/// written.
#[derive(Drop)]
struct Sent {
    taken: usize,
    written: usize,
    lines_written: usize,
}

/// Returns the part of a chunk that is played next: a byte if bells are counted, otherwise the whole chunk.
fn next_turn<P: Player>(inner: &Inner, player: &P, piece: &[u8], counts: bool) -> Turn
    requires { 1 ≤ length piece.now }
    ensures some { 1 ≤ result.len }
    ensures within { result.len ≤ length piece.now }
    ensures few { result.bells ≤ 1 }
    ensures rings { (n : ℕ) → 1 ≤ n → n ≤ result.len
        → Rings counts (P.told inner.now player.now (take n piece.now)).rung result.bells }
{
    if counts {
        Turn {
            len: 1,
            bells: player.rings(&inner.terminal, piece[0]),
        }
    } else {
        Turn {
            len: piece.len(),
            bells: 0,
        }
    }
}

/// Plays at most `limit` bytes of a chunk, and at most those for whose reports `out` has capacity after `written`.
fn feed_turn<P: Player>(
    inner: &mut Inner,
    player: &mut P,
    piece: &[u8],
    limit: usize,
    out: &mut [u8],
    written: usize,
) -> Sent
    requires some { 1 ≤ limit }
    requires limit { limit ≤ length piece.now }
    requires room { written + REPORT_LIMIT ≤ length out.old }
    requires kept_fits { P.Fits inner.old.display.grid.size player.old }
    ensures size { inner.new.display.grid.size ≡ inner.old.display.grid.size }
    ensures kept_fits { P.Fits inner.old.display.grid.size player.new }
    ensures some { 1 ≤ result.taken }
    ensures within { result.taken ≤ limit }
    ensures state { inner.new ≡ (P.told inner.old player.old (take result.taken piece.now)).state }
    ensures kept { player.new ≡ (P.told inner.old player.old (take result.taken piece.now)).kept }
    ensures sent { WritesAt (P.told inner.old player.old (take result.taken piece.now)).reports out.old written out.new
        result.written }
    ensures no_lines { result.lines_written ≡ 0 }
    ensures fits { written + result.written ≤ length out.old }
{
    let most = ((out.len() - written) / REPORT_LIMIT).min(CHUNK);
    let taken = limit.min(most);
    inner.reports.clear();
    player.feed(&mut inner.terminal, &piece[..taken], &mut inner.reports);
    put(out, written, inner.reports.as_slice());
    Sent {
        taken,
        written: inner.reports.len(),
        lines_written: 0,
    }
}

/// Plays at most `limit` bytes of a chunk with their log, and at most those for whose reports and lines the two buffers have
/// capacity. `room` has capacity for the lines of a turn.
fn log_turn<P: Player>(
    inner: &mut Inner,
    player: &mut P,
    piece: &[u8],
    limit: usize,
    out: &mut [u8],
    written: usize,
    lines: &mut [u8],
    lines_written: usize,
    room: &mut Vec<u8>,
) -> Sent
    requires some { 1 ≤ limit }
    requires limit { limit ≤ length piece.now }
    requires out_room { written + REPORT_LIMIT ≤ length out.old }
    requires lines_room { lines_written + P.room inner.old.display.grid.size ≤ length lines.old }
    requires capacity { P.room inner.old.display.grid.size ≤ vec_capacity room.old }
    requires kept_fits { P.Fits inner.old.display.grid.size player.old }
    ensures size { inner.new.display.grid.size ≡ inner.old.display.grid.size }
    ensures kept_fits { P.Fits inner.old.display.grid.size player.new }
    ensures some { 1 ≤ result.taken }
    ensures within { result.taken ≤ limit }
    ensures state { inner.new ≡ (P.told inner.old player.old (take result.taken piece.now)).state }
    ensures kept { player.new ≡ (P.told inner.old player.old (take result.taken piece.now)).kept }
    ensures sent { WritesAt (P.told inner.old player.old (take result.taken piece.now)).reports out.old written out.new
        result.written }
    ensures off { WritesAt (P.told inner.old player.old (take result.taken piece.now)).lines lines.old lines_written
        lines.new result.lines_written }
    ensures fits { written + result.written ≤ length out.old }
    ensures capacity { vec_capacity room.old ≤ vec_capacity room.new }
{
    inner.terminal.soundness();
    player.cuts();
    let most = ((out.len() - written) / REPORT_LIMIT).min(CHUNK);
    inner.reports.clear();
    room.clear();
    let taken = player.feed_log(
        &mut inner.terminal,
        &piece[..limit.min(most)],
        &mut inner.reports,
        room,
        lines.len() - lines_written,
    );
    put(out, written, inner.reports.as_slice());
    put(lines, lines_written, room.as_slice());
    Sent {
        taken,
        written: inner.reports.len(),
        lines_written: room.len(),
    }
}

/// Plays a turn, with its log if `logs` is true.
fn any_turn<P: Player>(
    inner: &mut Inner,
    player: &mut P,
    piece: &[u8],
    limit: usize,
    logs: bool,
    out: &mut [u8],
    written: usize,
    lines: &mut [u8],
    lines_written: usize,
    room: &mut Vec<u8>,
) -> Sent
    requires some { 1 ≤ limit }
    requires limit { limit ≤ length piece.now }
    requires out_room { written + REPORT_LIMIT ≤ length out.old }
    requires lines { lines_written ≤ length lines.old }
    requires lines_room { logs ≡ true → lines_written + P.room inner.old.display.grid.size ≤ length lines.old }
    requires capacity { logs ≡ true → P.room inner.old.display.grid.size ≤ vec_capacity room.old }
    requires kept_fits { P.Fits inner.old.display.grid.size player.old }
    ensures size { inner.new.display.grid.size ≡ inner.old.display.grid.size }
    ensures kept_fits { P.Fits inner.old.display.grid.size player.new }
    ensures some { 1 ≤ result.taken }
    ensures within { result.taken ≤ limit }
    ensures state { inner.new ≡ (P.told inner.old player.old (take result.taken piece.now)).state }
    ensures kept { player.new ≡ (P.told inner.old player.old (take result.taken piece.now)).kept }
    ensures sent { WritesAt (P.told inner.old player.old (take result.taken piece.now)).reports out.old written out.new
        result.written }
    ensures off { WritesAt (lines_if logs (P.told inner.old player.old (take result.taken piece.now)).lines) lines.old
        lines_written lines.new result.lines_written }
    ensures fits { written + result.written ≤ length out.old }
    ensures capacity { vec_capacity room.old ≤ vec_capacity room.new }
{
    if logs {
        log_turn(
            inner,
            player,
            piece,
            limit,
            out,
            written,
            lines,
            lines_written,
            room,
        )
    } else {
        feed_turn(inner, player, piece, limit, out, written)
    }
}

/// Returns whether there is capacity for the lines of a turn, or there is no log.
fn has_room(limit: usize, lines: &[u8], lines_written: usize, logs: bool) -> bool
    requires { lines_written ≤ length lines.now }
    ensures room { OnTrue result (logs ≡ true → lines_written + limit ≤ length lines.now) }
    ensures full { OnFalse result ((logs ≡ true) × (length lines.now < lines_written + limit)) }
{
    !logs || lines.len() - lines_written >= limit
}

/// Plays a byte if `out` has capacity for its reports. Speed: there is no loop, no log, and no bell is counted.
#[inline(always)]
pub(crate) fn play_byte<P: Player>(
    inner: &mut Inner,
    player: &mut P,
    byte: u8,
    out: &mut [u8],
) -> Fed
    requires kept_fits { P.Fits inner.old.display.grid.size player.old }
    ensures kept_fits { P.Fits inner.old.display.grid.size player.new }
    ensures within { result.taken ≤ 1 }
    ensures state { inner.new ≡ (P.told inner.old player.old (take result.taken (byte ∷ []))).state }
    ensures kept { player.new ≡ (P.told inner.old player.old (take result.taken (byte ∷ []))).kept }
    ensures sent { WritesAt (P.told inner.old player.old (take result.taken (byte ∷ []))).reports out.old 0 out.new
        result.written }
    ensures all { (result.taken ≡ 1) ⊎ (length out.old < result.written + REPORT_LIMIT) }
{
    inner.terminal.soundness();
    player.cuts();
    if out.len() < REPORT_LIMIT {
        return Fed {
            taken: 0,
            written: 0,
        };
    }
    inner.reports.clear();
    player.feed(&mut inner.terminal, &[byte], &mut inner.reports);
    put(out, 0, inner.reports.as_slice());
    Fed {
        taken: 1,
        written: inner.reports.len(),
    }
}

/// Plays as many bytes of a chunk as the buffers have capacity for: a byte can cause ten bytes of reports, and a turn with a log
/// needs capacity for its lines. Counts the bells if `counts` is true. There is a log if `logs` is true.
pub(crate) fn play<P: Player>(
    inner: &mut Inner,
    player: &mut P,
    piece: &[u8],
    counts: bool,
    logs: bool,
    out: &mut [u8],
    lines: &mut [u8],
    room: &mut Vec<u8>,
) -> Logged
    requires room { logs ≡ true → P.room inner.old.display.grid.size ≤ vec_capacity room.old }
    requires kept_fits { P.Fits inner.old.display.grid.size player.old }
    ensures within { result.taken ≤ length piece.now }
    ensures fed { Plays logs counts (P.told inner.old player.old (take result.taken piece.now)) inner.new player.new out.old 0
        out.new lines.old 0 lines.new result.written result.lines_written result.bells }
    ensures all { (result.taken ≡ length piece.now) ⊎ (length out.old < result.written + REPORT_LIMIT)
        ⊎ ((logs ≡ true) × (length lines.old < result.lines_written + P.room inner.old.display.grid.size)) }
    ensures capacity { vec_capacity room.old ≤ vec_capacity room.new }
{
    inner.terminal.soundness();
    player.cuts();
    let limit = player.lines_limit(&inner.terminal);
    let mut done = Logged {
        taken: 0,
        written: 0,
        lines_written: 0,
        bells: 0,
    };
    while done.taken < piece.len()
        && out.len() - done.written >= REPORT_LIMIT
        && has_room(limit, lines, done.lines_written, logs)
    {
        let rest = &piece[done.taken..];
        let turn = next_turn(inner, player, rest, counts);
        let sent = any_turn(
            inner,
            player,
            rest,
            turn.len,
            logs,
            out,
            done.written,
            lines,
            done.lines_written,
            room,
        );
        done.taken += sent.taken;
        done.written += sent.written;
        done.lines_written += sent.lines_written;
        done.bells += turn.bells;
    }
    done
}
