//! Feeding UTF-8.
ghost use Rattle.std.specs.Prelude.{◌≡◌, ◌+◌, ◌*◌, ◌≤◌, ◌<◌, ◌++◌, [], ◌∷◌, All, length, take, slice_index, vec_len, vec_capacity};
ghost use Rattle.std.specs.Prelude.{IfSome};
ghost use Rattle.std.specs.Option.{option_to_list};
ghost use Rattle.bstr.specs.Utf8.{replacement};
ghost use Rattle.vt_syntax.specs.declared.held.Held.TheVariants.{Nothing};
ghost use Rattle.vt_feed.specs.Actions.{Plays, state_after, reports};
ghost use Rattle.vt_feed.specs.Languages.{asked, held_by, all_asked, held_by_all, beyond, held_beyond, reading, utf8};
ghost use Rattle.vt_feed.specs.Observing.{does, happenings};

use crate::feeding::feed;
use crate::machine::Machine;
use crate::observer::Observer;
use vt_syntax::{Held, Parser, Taken, Values};
use vt_utf8::{Decoder, ascii_run, whole_character};

/// Plays a chunk of the host's bytes, in UTF-8, on a machine, and appends the reports to `out`. It tells the observer of them. Returns
/// how many bytes it played: all, unless the observer is full. `parser` and `decoder` keep what is read of a sequence and of a
/// character between chunks.
///
/// `out` has capacity for ten more bytes for each byte of the chunk. It never fails and allocates nothing.
#[inline(always)]
pub fn feed_utf8<M: Machine, O: Observer<M>>(
    machine: &mut M,
    parser: &mut Parser,
    decoder: &mut Decoder,
    piece: &[u8],
    observer: &mut O,
    out: &mut Vec<u8>,
) -> usize
    requires room { vec_len out.old + 10 * length piece.now ≤ vec_capacity out.old }
    ensures all { result < length piece.now → O.Full observer.new }
    ensures within { result ≤ length piece.now }
    ensures plays { Plays utf8 M.machine (reading parser.old decoder.old) machine.old (take result piece.now)
        (reading parser.new decoder.new) machine.new out.old.items out.new.items }
    ensures saw { O.Saw observer.old (happenings utf8 M.machine (reading parser.old decoder.old) machine.old (take result piece.now)) observer.new }
    ensures bounded { vec_len out.new ≤ vec_len out.old + 10 * result }
    ensures capacity { vec_capacity out.old ≤ vec_capacity out.new }
{
    let mut at = 0;
    while at < piece.len() {
        let bytes = feed_some(machine, parser, decoder, &piece[at..], observer, out);
        if bytes == 0 {
            return at;
        }
        at += bytes;
    }
    at
}

/// Returns how many bytes at the front of a chunk that isn't empty are ASCII. Speed: after a first byte beyond ASCII no vector is read.
#[inline(always)]
fn front_run(piece: &[u8]) -> usize
    requires { 1 ≤ length piece.now }
    ensures within { result ≤ length piece.now }
    ensures ascii { All (λ b. b < 0x80) (take result piece.now) }
{
    if piece[0] < 0x80 { ascii_run(piece) } else { 0 }
}

/// Plays the front of a chunk that isn't empty: a run of ASCII, a character, or a byte. Returns how many bytes it played: none if
/// the observer is full.
#[inline(always)]
fn feed_some<M: Machine, O: Observer<M>>(
    machine: &mut M,
    parser: &mut Parser,
    decoder: &mut Decoder,
    piece: &[u8],
    observer: &mut O,
    out: &mut Vec<u8>,
) -> usize
    requires some { 1 ≤ length piece.now }
    requires room { vec_len out.old + 10 * length piece.now ≤ vec_capacity out.old }
    ensures stops { result ≡ 0 → O.Full observer.new }
    ensures within { result ≤ length piece.now }
    ensures plays { Plays utf8 M.machine (reading parser.old decoder.old) machine.old (take result piece.now)
        (reading parser.new decoder.new) machine.new out.old.items out.new.items }
    ensures saw { O.Saw observer.old (happenings utf8 M.machine (reading parser.old decoder.old) machine.old (take result piece.now)) observer.new }
    ensures bounded { vec_len out.new ≤ vec_len out.old + 10 * result }
    ensures capacity { vec_capacity out.old ≤ vec_capacity out.new }
{
    if !decoder.is_empty() {
        return feed_byte(machine, parser, decoder, piece[0], observer, out);
    }
    let ascii = front_run(piece);
    if ascii > 0 {
        return feed(machine, parser, &piece[..ascii], observer, out);
    }
    let Some((c, bytes)) = whole_character(piece) else {
        return feed_byte(machine, parser, decoder, piece[0], observer, out);
    };
    if observer.is_full() {
        return 0;
    }
    observer.bytes(&piece[..bytes]);
    play_beyond(machine, parser, c, observer);
    bytes
}

/// Plays a byte. Returns how many bytes it played: none if the observer is full, otherwise one.
#[inline(never)]
fn feed_byte<M: Machine, O: Observer<M>>(
    machine: &mut M,
    parser: &mut Parser,
    decoder: &mut Decoder,
    b: u8,
    observer: &mut O,
    out: &mut Vec<u8>,
) -> usize
    requires room { vec_len out.old + 10 ≤ vec_capacity out.old }
    ensures stops { result ≡ 0 → O.Full observer.new }
    ensures within { result ≤ 1 }
    ensures plays { Plays utf8 M.machine (reading parser.old decoder.old) machine.old (take result (b ∷ []))
        (reading parser.new decoder.new) machine.new out.old.items out.new.items }
    ensures saw { O.Saw observer.old (happenings utf8 M.machine (reading parser.old decoder.old) machine.old (take result (b ∷ []))) observer.new }
    ensures bounded { vec_len out.new ≤ vec_len out.old + 10 * result }
    ensures capacity { vec_capacity out.old ≤ vec_capacity out.new }
{
    if observer.is_full() {
        return 0;
    }
    observer.bytes(&[b]);
    let (lost, whole) = decoder.push(b);
    play_lost(machine, parser, lost, observer);
    play_read(machine, parser, whole, observer, out);
    1
}

/// Plays U+FFFD if something was lost.
#[inline(always)]
fn play_lost<M: Machine, O: Observer<M>>(
    machine: &mut M,
    parser: &mut Parser,
    lost: Option<char>,
    observer: &mut O,
)
    requires lost { IfSome lost (λ c. c ≡ replacement) }
    requires has_room { O.HasRoom observer.old 2 × O.HasRoom observer.old 1 }
    ensures state { machine.new ≡ state_after M.machine (all_asked parser.old (option_to_list lost)) machine.old }
    ensures held { parser.new ≡ held_by_all parser.old (option_to_list lost) }
    ensures silent { reports M.machine (all_asked parser.old (option_to_list lost)) machine.old ≡ [] }
    ensures saw { O.Saw observer.old (does M.machine (all_asked parser.old (option_to_list lost)) machine.old) observer.new }
    ensures room { O.HasRoom observer.new 1 }
{
    if let Some(c) = lost {
        play_beyond(machine, parser, c, observer);
    }
}

/// Plays a character if one was read.
#[inline(always)]
fn play_read<M: Machine, O: Observer<M>>(
    machine: &mut M,
    parser: &mut Parser,
    whole: Option<char>,
    observer: &mut O,
    out: &mut Vec<u8>,
)
    requires has_room { O.HasRoom observer.old 1 }
    requires room { vec_len out.old + 10 ≤ vec_capacity out.old }
    ensures state { machine.new ≡ state_after M.machine (all_asked parser.old (option_to_list whole)) machine.old }
    ensures held { parser.new ≡ held_by_all parser.old (option_to_list whole) }
    ensures items { out.new.items ≡ out.old.items ++ reports M.machine (all_asked parser.old (option_to_list whole)) machine.old }
    ensures saw { O.Saw observer.old (does M.machine (all_asked parser.old (option_to_list whole)) machine.old) observer.new }
    ensures bounded { vec_len out.new ≤ vec_len out.old + 10 }
    ensures capacity { vec_capacity out.old ≤ vec_capacity out.new }
{
    if let Some(c) = whole {
        play_character(machine, parser, c, observer, out);
    }
}

/// Plays a character.
fn play_character<M: Machine, O: Observer<M>>(
    machine: &mut M,
    parser: &mut Parser,
    c: char,
    observer: &mut O,
    out: &mut Vec<u8>,
)
    requires has_room { O.HasRoom observer.old 1 }
    requires room { vec_len out.old + 10 ≤ vec_capacity out.old }
    ensures state { machine.new ≡ state_after M.machine (asked parser.old c) machine.old }
    ensures held { parser.new ≡ held_by parser.old c }
    ensures items { out.new.items ≡ out.old.items ++ reports M.machine (asked parser.old c) machine.old }
    ensures saw { O.Saw observer.old (does M.machine (asked parser.old c) machine.old) observer.new }
    ensures bounded { vec_len out.new ≤ vec_len out.old + 10 }
    ensures capacity { vec_capacity out.old ≤ vec_capacity out.new }
{
    if c as u32 >= 0x80 {
        return play_beyond(machine, parser, c, observer);
    }
    let mut values = Values::new();
    let Taken { event, .. } = parser.next(&[c as u8], &mut values);
    if let Some(kind) = event {
        observer.event(machine, kind, values.as_slice());
        machine.carry_out(kind, values.as_slice(), out);
    }
}

/// Drops what is held of a sequence. Speed: mostly nothing is held, and nothing is written.
#[inline(always)]
fn drop_held(parser: &mut Parser)
    ensures { parser.new ≡ Nothing }
{
    if !parser.is_between() {
        *parser = Parser::new();
    }
}

/// Plays a character beyond ASCII.
#[inline(always)]
fn play_beyond<M: Machine, O: Observer<M>>(
    machine: &mut M,
    parser: &mut Parser,
    c: char,
    observer: &mut O,
)
    requires beyond { 0x80 ≤ c }
    requires has_room { O.HasRoom observer.old 1 }
    ensures state { machine.new ≡ state_after M.machine (beyond parser.old c) machine.old }
    ensures held { parser.new ≡ held_beyond parser.old }
    ensures silent { reports M.machine (beyond parser.old c) machine.old ≡ [] }
    ensures saw { O.Saw observer.old (does M.machine (beyond parser.old c) machine.old) observer.new }
    ensures room { O.HasRoom observer.old 2 → O.HasRoom observer.new 1 }
{
    if let Held::Text { .. } = parser.held() {
        return;
    }
    drop_held(parser);
    observer.character(machine, c);
    machine.write_character(c);
}
