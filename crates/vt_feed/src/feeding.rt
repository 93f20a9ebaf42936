//! Feeding bytes as they are, each by itself.
ghost use Rattle.std.specs.Prelude.{◌≡◌, ◌+◌, ◌*◌, ◌≤◌, ◌<◌, [], ◌∷◌, ℕ, List, length, take, slice_index, None, true};
ghost use Rattle.std.specs.Prelude.{vec_len, vec_capacity};
ghost use Rattle.vt_glyph.specs.Invocation.{HasGlyph};
ghost use Rattle.vt_syntax.specs.declared.held.Held.TheVariants.{Nothing};
ghost use Rattle.vt_syntax.specs.declared.event.Event.TheVariants.{Sequence};
ghost use Rattle.vt_syntax.specs.Class.{IsPlain};
ghost use Rattle.vt_syntax.specs.Event.{event_of};
ghost use Rattle.vt_syntax.specs.Front.{IsFront, IsFinal, AreFirst, front_list};
ghost use Rattle.vt_feed.specs.Actions.{Plays};
ghost use Rattle.vt_feed.specs.Languages.{eight_bit};
ghost use Rattle.vt_feed.specs.Observing.{happenings};

use crate::machine::Machine;
use crate::observer::Observer;
use vt_syntax::laws::{one_split, spelled};
use vt_syntax::{
    EventKind, Front, FrontValues, Parser, Taken, Values, front_escape, front_short_escape,
    front_values, graphic_run, is_final, plain_run,
};

/// CR and LF.
const CR: u8 = 0x0D;

const LF: u8 = 0x0A;

/// The least number of plain bytes that are written separately even if bytes of the right half follow.
const LONG_RUN: usize = 8;

/// Returns whether there is a byte at a position, and it is of the right half.
#[inline(always)]
fn right_half_at(piece: &[u8], at: usize) -> bool {
    at < piece.len() && piece[at] >= 0xA0
}

/// Plays a chunk of the host's bytes on a machine, each byte by itself, and appends the reports to `out`. It tells the observer
/// of them. Returns how many bytes it played: all, unless the observer is full. `parser` keeps what is held between chunks.
///
/// `out` has capacity for ten more bytes for each byte of the chunk. It never fails and allocates nothing. Speed: the types of
/// machine and observer are known when this is compiled, so an observer that does nothing costs nothing.
#[inline(always)]
pub fn feed<M: Machine, O: Observer<M>>(
    machine: &mut M,
    parser: &mut Parser,
    piece: &[u8],
    observer: &mut O,
    out: &mut Vec<u8>,
) -> usize
    requires room { vec_len out.old + 10 * length piece.now ≤ vec_capacity out.old }
    ensures all { result < length piece.now → O.Full observer.new }
    ensures within { result ≤ length piece.now }
    ensures plays { Plays eight_bit M.machine parser.old machine.old (take result piece.now) parser.new machine.new out.old.items out.new.items }
    ensures saw { O.Saw observer.old (happenings eight_bit M.machine parser.old machine.old (take result piece.now)) observer.new }
    ensures bounded { vec_len out.new ≤ vec_len out.old + 10 * result }
    ensures capacity { vec_capacity out.old ≤ vec_capacity out.new }
{
    let mut values = Values::new();
    let mut at = 0;
    while at < piece.len() {
        let bytes = feed_next(machine, parser, &piece[at..], &mut values, observer, out);
        if bytes == 0 {
            return at;
        }
        at += bytes;
    }
    at
}

/// Plays the front of a chunk that isn't empty: between sequences what the fronts read, otherwise up to the first event, by the
/// parser. Returns how many bytes it played: none if the observer is full.
#[inline(always)]
fn feed_next<M: Machine, O: Observer<M>>(
    machine: &mut M,
    parser: &mut Parser,
    piece: &[u8],
    values: &mut Values,
    observer: &mut O,
    out: &mut Vec<u8>,
) -> usize
    requires some { 1 ≤ length piece.now }
    requires room { vec_len out.old + 10 * length piece.now ≤ vec_capacity out.old }
    ensures stops { result ≡ 0 → O.Full observer.new }
    ensures within { result ≤ length piece.now }
    ensures plays { Plays eight_bit M.machine parser.old machine.old (take result piece.now) parser.new machine.new out.old.items out.new.items }
    ensures saw { O.Saw observer.old (happenings eight_bit M.machine parser.old machine.old (take result piece.now)) observer.new }
    ensures bounded { vec_len out.new ≤ vec_len out.old + 10 * result }
    ensures capacity { vec_capacity out.old ≤ vec_capacity out.new }
{
    if !parser.is_between() {
        return feed_by_parser(machine, parser, piece, values, observer, out);
    }
    let at = feed_between(machine, parser, piece, observer, out);
    if at > 0 {
        return at;
    }
    feed_by_parser(machine, parser, piece, values, observer, out)
}

/// Plays the front of a chunk, between sequences, up to the first byte that goes through the parser. Returns how many bytes it
/// played: fewer if the observer is full.
#[inline(always)]
fn feed_between<M: Machine, O: Observer<M>>(
    machine: &mut M,
    parser: &mut Parser,
    piece: &[u8],
    observer: &mut O,
    out: &mut Vec<u8>,
) -> usize
    requires room { vec_len out.old + 10 * length piece.now ≤ vec_capacity out.old }
    requires between { parser.old ≡ Nothing }
    ensures within { result ≤ length piece.now }
    ensures between { parser.new ≡ Nothing }
    ensures plays { Plays eight_bit M.machine parser.old machine.old (take result piece.now) parser.new machine.new out.old.items out.new.items }
    ensures saw { O.Saw observer.old (happenings eight_bit M.machine parser.old machine.old (take result piece.now)) observer.new }
    ensures bounded { vec_len out.new ≤ vec_len out.old + 10 * result }
    ensures capacity { vec_capacity out.old ≤ vec_capacity out.new }
{
    let mut at = 0;
    while at < piece.len() && !observer.is_full() {
        let bytes = feed_front(machine, parser, &piece[at..], observer, out);
        if bytes == 0 {
            return at;
        }
        at += bytes;
    }
    at
}

/// Plays the front of a chunk that isn't empty, between sequences, by its kind. Returns how many bytes it played: none if it goes
/// through the parser.
#[inline(always)]
fn feed_front<M: Machine, O: Observer<M>>(
    machine: &mut M,
    parser: &mut Parser,
    piece: &[u8],
    observer: &mut O,
    out: &mut Vec<u8>,
) -> usize
    requires some { 1 ≤ length piece.now }
    requires has_room { O.HasRoom observer.old 1 }
    requires room { vec_len out.old + 10 * length piece.now ≤ vec_capacity out.old }
    requires between { parser.old ≡ Nothing }
    ensures within { result ≤ length piece.now }
    ensures between { parser.new ≡ Nothing }
    ensures plays { Plays eight_bit M.machine parser.old machine.old (take result piece.now) parser.new machine.new out.old.items out.new.items }
    ensures saw { O.Saw observer.old (happenings eight_bit M.machine parser.old machine.old (take result piece.now)) observer.new }
    ensures bounded { vec_len out.new ≤ vec_len out.old + 10 * result }
    ensures capacity { vec_capacity out.old ≤ vec_capacity out.new }
{
    match Front::of(piece) {
        Front::Escape => feed_escape(machine, parser, piece, observer, out),
        Front::Plain => graphics_first(machine, parser, piece, true, observer, out),
        Front::CarriageReturn => {
            event_first(
                machine,
                parser,
                piece,
                1,
                EventKind::Control(CR),
                observer,
                out,
            )
        }
        Front::Right => graphics_first(machine, parser, piece, false, observer, out),
        Front::Control(control) => {
            event_first(
                machine,
                parser,
                piece,
                1,
                EventKind::Control(control),
                observer,
                out,
            )
        }
        Front::Empty => {
            event_first(
                machine,
                parser,
                piece,
                1,
                EventKind::Print(piece[0]),
                observer,
                out,
            )
        }
        Front::Introducer => 0,
        Front::Other => 0,
    }
}

/// Plays the front of a chunk that begins with ESC, between sequences, up to the first event. Returns as `feed_front` does. (Speed:
/// the final bytes of CUP and SGR are known when the dispatcher is compiled.)
#[inline(always)]
fn feed_escape<M: Machine, O: Observer<M>>(
    machine: &mut M,
    parser: &mut Parser,
    piece: &[u8],
    observer: &mut O,
    out: &mut Vec<u8>,
) -> usize
    requires some { 1 ≤ length piece.now }
    requires has_room { O.HasRoom observer.old 1 }
    requires room { vec_len out.old + 10 ≤ vec_capacity out.old }
    requires between { parser.old ≡ Nothing }
    ensures within { result ≤ length piece.now }
    ensures between { parser.new ≡ Nothing }
    ensures plays { Plays eight_bit M.machine parser.old machine.old (take result piece.now) parser.new machine.new out.old.items out.new.items }
    ensures saw { O.Saw observer.old (happenings eight_bit M.machine parser.old machine.old (take result piece.now)) observer.new }
    ensures bounded { vec_len out.new ≤ vec_len out.old + 10 * result }
    ensures capacity { vec_capacity out.old ≤ vec_capacity out.new }
{
    if let Some(front) = front_values(piece) {
        if front.last == b'H' {
            return values_first(machine, parser, piece, &front, observer, out);
        }
        if front.last == b'm' {
            return values_first(machine, parser, piece, &front, observer, out);
        }
        if is_final(front.last) {
            return values_first(machine, parser, piece, &front, observer, out);
        }
    }
    if let Some((inter, last)) = front_escape(piece) {
        let inter = Some(inter);
        let kind = EventKind::Escape { inter, last };
        return event_first(machine, parser, piece, 3, kind, observer, out);
    }
    if let Some(kind) = front_short_escape(piece) {
        return event_first(machine, parser, piece, 2, kind, observer, out);
    }
    0
}

/// Carries out a control sequence whose values were read at the front of a chunk, between sequences. Returns its length.
#[inline(always)]
fn values_first<M: Machine, O: Observer<M>>(
    machine: &mut M,
    parser: &mut Parser,
    piece: &[u8],
    front: &FrontValues,
    observer: &mut O,
    out: &mut Vec<u8>,
) -> usize
    requires few { (1 ≤ front.now.count) × (front.now.count ≤ 3) }
    requires values { AreFirst front.now }
    requires ends { IsFinal front.now.last }
    requires front { IsFront piece.now front.now.bytes
        (Sequence None (record { items = front_list front.now }) None front.now.last) }
    requires has_room { O.HasRoom observer.old 1 }
    requires room { vec_len out.old + 10 ≤ vec_capacity out.old }
    requires between { parser.old ≡ Nothing }
    ensures within { result ≤ length piece.now }
    ensures between { parser.new ≡ Nothing }
    ensures plays { Plays eight_bit M.machine parser.old machine.old (take result piece.now) parser.new machine.new out.old.items out.new.items }
    ensures saw { O.Saw observer.old (happenings eight_bit M.machine parser.old machine.old (take result piece.now)) observer.new }
    ensures bounded { vec_len out.new ≤ vec_len out.old + 10 * result }
    ensures capacity { vec_capacity out.old ≤ vec_capacity out.new }
{
    one_split();
    let list = [front.first, front.second, front.third];
    let kind = EventKind::Sequence {
        marker: None,
        inter: None,
        last: front.last,
    };
    observer.bytes(&piece[..front.bytes]);
    observer.event(machine, kind, &list[..front.count]);
    machine.carry_out_values(front, out);
    front.bytes
}

/// Carries out an event that is whole at the front of a chunk, between sequences. Returns its length. Speed: it is inlined in each
/// caller, so a known kind costs no dispatch.
#[inline(always)]
fn event_first<M: Machine, O: Observer<M>>(
    machine: &mut M,
    parser: &mut Parser,
    piece: &[u8],
    bytes: usize,
    kind: EventKind,
    observer: &mut O,
    out: &mut Vec<u8>,
) -> usize
    requires front { IsFront piece.now bytes (event_of kind []) }
    requires has_room { O.HasRoom observer.old 1 }
    requires room { vec_len out.old + 10 ≤ vec_capacity out.old }
    requires between { parser.old ≡ Nothing }
    ensures within { result ≤ length piece.now }
    ensures between { parser.new ≡ Nothing }
    ensures plays { Plays eight_bit M.machine parser.old machine.old (take result piece.now) parser.new machine.new out.old.items out.new.items }
    ensures saw { O.Saw observer.old (happenings eight_bit M.machine parser.old machine.old (take result piece.now)) observer.new }
    ensures bounded { vec_len out.new ≤ vec_len out.old + 10 * result }
    ensures capacity { vec_capacity out.old ≤ vec_capacity out.new }
{
    one_split();
    observer.bytes(&piece[..bytes]);
    observer.event(machine, kind, &[]);
    machine.carry_out(kind, &[], out);
    bytes
}

/// Writes graphic bytes at the front of a chunk, between sequences, as many as the observer has room for. Returns how many.
#[inline(always)]
fn graphics_first<M: Machine, O: Observer<M>>(
    machine: &mut M,
    parser: &mut Parser,
    piece: &[u8],
    is_plain: bool,
    observer: &mut O,
    out: &mut Vec<u8>,
) -> usize
    requires some { 1 ≤ length piece.now }
    requires graphic { HasGlyph (slice_index piece.now 0) }
    requires plain { is_plain ≡ true → IsPlain (slice_index piece.now 0) }
    requires has_room { O.HasRoom observer.old 1 }
    requires room { vec_len out.old + 10 ≤ vec_capacity out.old }
    requires between { parser.old ≡ Nothing }
    ensures within { result ≤ length piece.now }
    ensures between { parser.new ≡ Nothing }
    ensures plays { Plays eight_bit M.machine parser.old machine.old (take result piece.now) parser.new machine.new out.old.items out.new.items }
    ensures saw { O.Saw observer.old (happenings eight_bit M.machine parser.old machine.old (take result piece.now)) observer.new }
    ensures bounded { vec_len out.new ≤ vec_len out.old + 10 * result }
    ensures capacity { vec_capacity out.old ≤ vec_capacity out.new }
{
    let limit = observer.limit(machine).min(piece.len());
    run_first(machine, parser, &piece[..limit], is_plain, observer, out)
}

/// Writes graphic bytes at the front of a chunk, between sequences. Returns how many. Speed: plain bytes are written separately;
/// `is_plain` says that the first one is plain, and is known in each caller.
#[inline(always)]
fn run_first<M: Machine, O: Observer<M>>(
    machine: &mut M,
    parser: &mut Parser,
    piece: &[u8],
    is_plain: bool,
    observer: &mut O,
    out: &mut Vec<u8>,
) -> usize
    requires some { 1 ≤ length piece.now }
    requires graphic { HasGlyph (slice_index piece.now 0) }
    requires plain { is_plain ≡ true → IsPlain (slice_index piece.now 0) }
    requires fits { (n : ℕ) → n ≤ length piece.now → O.Fits observer.old machine.old n }
    requires room { vec_len out.old + 10 ≤ vec_capacity out.old }
    requires between { parser.old ≡ Nothing }
    ensures within { result ≤ length piece.now }
    ensures between { parser.new ≡ Nothing }
    ensures plays { Plays eight_bit M.machine parser.old machine.old (take result piece.now) parser.new machine.new out.old.items out.new.items }
    ensures saw { O.Saw observer.old (happenings eight_bit M.machine parser.old machine.old (take result piece.now)) observer.new }
    ensures bounded { vec_len out.new ≤ vec_len out.old + 10 * result }
    ensures capacity { vec_capacity out.old ≤ vec_capacity out.new }
{
    spelled();
    if is_plain {
        let run = plain_run(piece);
        if !right_half_at(piece, run) || run >= LONG_RUN {
            observer.run(machine, &piece[..run]);
            machine.write_plain(&piece[..run]);
            return run;
        }
    }
    let run = graphic_run(piece);
    observer.run(machine, &piece[..run]);
    machine.write_graphic(&piece[..run]);
    run
}

/// Plays the front of a chunk that isn't empty up to the first event, by the parser. Returns how many bytes it played: none if the
/// observer is full.
#[inline(never)]
fn feed_by_parser<M: Machine, O: Observer<M>>(
    machine: &mut M,
    parser: &mut Parser,
    piece: &[u8],
    values: &mut Values,
    observer: &mut O,
    out: &mut Vec<u8>,
) -> usize
    requires some { 1 ≤ length piece.now }
    requires room { vec_len out.old + 10 ≤ vec_capacity out.old }
    ensures stops { result ≡ 0 → O.Full observer.new }
    ensures within { result ≤ length piece.now }
    ensures plays { Plays eight_bit M.machine parser.old machine.old (take result piece.now) parser.new machine.new out.old.items out.new.items }
    ensures saw { O.Saw observer.old (happenings eight_bit M.machine parser.old machine.old (take result piece.now)) observer.new }
    ensures bounded { vec_len out.new ≤ vec_len out.old + 10 * result }
    ensures capacity { vec_capacity out.old ≤ vec_capacity out.new }
{
    one_split();
    if observer.is_full() {
        return 0;
    }
    let Taken { bytes, event } = parser.next(piece, values);
    observer.bytes(&piece[..bytes]);
    if let Some(kind) = event {
        observer.event(machine, kind, values.as_slice());
        machine.carry_out(kind, values.as_slice(), out);
    }
    bytes
}
