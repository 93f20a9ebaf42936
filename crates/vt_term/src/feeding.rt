//! Feeding: a host's bytes change the state, and give report bytes.
ghost use Rattle.std.specs.Prelude.{◌≡◌, ◌+◌, ◌*◌, ◌≤◌, ◌<◌, ◌++◌, ◌&&◌, ◌==◌, [], ℕ, List, All, true, false, length, map, take};
ghost use Rattle.std.specs.Prelude.{slice_index, vec_len, vec_capacity, None, OnOk, OnErr, IsOk};
ghost use Rattle.std.specs.Bool.{OnTrue, OnFalse};
ghost use Rattle.vt_glyph.specs.Invocation.{HasGlyph};
ghost use Rattle.vt_syntax.specs.declared.held.Held.TheVariants.{Nothing};
ghost use Rattle.vt_syntax.specs.Class.{IsPlain};
ghost use Rattle.vt_syntax.specs.Event.{event_of};
ghost use Rattle.vt_syntax.specs.Front.{IsFront, IsFinal, AreFirst, front_list};
ghost use Rattle.vt_syntax.specs.declared.event.Event.TheVariants.{Print, Sequence};
ghost use Rattle.vt_term.specs.Play.{play, after_events};
ghost use Rattle.vt_term.specs.Runs.{WritesAscii};
ghost use Rattle.vt_term.specs.Happenings.{happenings};
ghost use Rattle.vt_term.specs.Observing.{Feeds, happenings_of};

use crate::codes::{CR, LF, RIGHT};
use crate::observing::{Nobody, Observer};
use crate::profile::{Profile, Vt220};
use crate::sized::{REPORT_LIMIT, SizedTerminal};
use std::alloc::AllocError;
use vt_glyph::laws::in_use;
use vt_syntax::laws::{one_split, spelled};
use vt_syntax::{
    EventKind, Front, FrontValues, Parser, Taken, Values, front_escape, front_short_escape,
    front_values, graphic_run, is_final, plain_run,
};

/// The least number of plain bytes that are written separately even if bytes of the right half follow.
const LONG_RUN: usize = 8;

/// Returns whether there is a byte at a position, and it is of the right half.
#[inline(always)]
fn right_half_at(piece: &[u8], at: usize) -> bool {
    at < piece.len() && piece[at] >= RIGHT
}

/// Returns whether the observer stopped the feed: it may do so, and no byte was played.
#[inline(always)]
fn is_stop<O: Observer>(observer: &O, bytes: usize) -> bool
    ensures { result ≡ (O.Stops && (bytes == 0)) }
{
    observer.stops() && bytes == 0
}

impl SizedTerminal {
    /// Plays a chunk of the host's bytes, and appends the reports to `out`.
    ///
    /// It first reserves ten bytes of capacity for each byte of the chunk. Returns `Err` if that fails, or is more than
    /// any vector may hold. Then the terminal and the contents of `out` are unchanged.
    #[tactic(auto, using(crate::proofs::SizeKept::play_kept))]
    pub fn feed(&mut self, piece: &[u8], out: &mut Vec<u8>) -> Result<(), AllocError>
        ensures size { self.new.display.grid.size ≡ self.old.display.grid.size }
        ensures state { OnOk result (self.new ≡ (play self.old piece.now).state) }
        ensures reports { OnOk result (out.new.items ≡ out.old.items ++ (play self.old piece.now).reports) }
        ensures bounded { vec_len out.new ≤ vec_len out.old + 10 * length piece.now }
        ensures same_state { OnErr result (self.new ≡ self.old) }
        ensures same_out { OnErr result (out.new.items ≡ out.old.items) }
        ensures has_room { vec_len out.old + 10 * length piece.now ≤ vec_capacity out.old → IsOk result }
        ensures capacity { vec_capacity out.old ≤ vec_capacity out.new }
    {
        let Some(room) = piece.len().checked_mul(REPORT_LIMIT) else {
            return Err(AllocError);
        };
        out.reserve(room)?;
        self.feed_reserved(piece, out);
        Ok(())
    }

    /// Plays a chunk of the host's bytes, and appends the reports to `out`. `out` has capacity for ten more bytes for
    /// each byte of the chunk. It never fails and allocates nothing. (Speed: as the only place with this feed, it has the whole
    /// dispatcher inline.)
    #[inline(never)]
    pub fn feed_reserved(&mut self, piece: &[u8], out: &mut Vec<u8>)
        requires { vec_len out.old + 10 * length piece.now ≤ vec_capacity out.old }
        ensures state { self.new ≡ (play self.old piece.now).state }
        ensures reports { out.new.items ≡ out.old.items ++ (play self.old piece.now).reports }
        ensures bounded { vec_len out.new ≤ vec_len out.old + 10 * length piece.now }
        ensures capacity { vec_capacity out.old ≤ vec_capacity out.new }
    {
        self.feed_observed(piece, &mut Nobody, out);
    }

    /// Plays a chunk of the host's bytes, appends the reports to `out`, and tells the observer of it. Returns how many bytes
    /// it played: all, or those up to the first event before which the observer stops.
    ///
    /// `out` has capacity for ten more bytes for each byte of the chunk. It never fails and allocates nothing.
    ///
    /// Speed: the observer's type is known when this is compiled, so an observer that does nothing costs nothing.
    #[inline(always)]
    pub fn feed_observed<O: Observer>(
        &mut self,
        piece: &[u8],
        observer: &mut O,
        out: &mut Vec<u8>,
    ) -> usize
        requires room { vec_len out.old + 10 * length piece.now ≤ vec_capacity out.old }
        requires takes { O.Takes observer.old (length piece.now) }
        ensures within { result ≤ length piece.now }
        ensures all { result < length piece.now → O.Stopped observer.new }
        ensures state { self.new ≡ (play self.old (take result piece.now)).state }
        ensures reports { out.new.items ≡ out.old.items ++ (play self.old (take result piece.now)).reports }
        ensures saw { O.Saw observer.old (happenings self.old (take result piece.now)) observer.new }
        ensures bounded { vec_len out.new ≤ vec_len out.old + 10 * result }
        ensures capacity { vec_capacity out.old ≤ vec_capacity out.new }
    {
        self.feed_as(&mut Vt220, piece, observer, out)
    }

    /// Plays a chunk as `feed_observed` does, by the functions of a profile. `profile` is what such a terminal keeps
    /// besides a VT220's state.
    ///
    /// Speed: the types of profile and observer are known when this is compiled. So a VT220 pays nothing for another profile.
    #[inline(always)]
    pub fn feed_as<P: Profile, O: Observer>(
        &mut self,
        profile: &mut P,
        piece: &[u8],
        observer: &mut O,
        out: &mut Vec<u8>,
    ) -> usize
        requires room { vec_len out.old + 10 * length piece.now ≤ vec_capacity out.old }
        requires takes { O.Takes observer.old (length piece.now) }
        requires one_size { P.OneSize (P.screens self.old.display profile.old) }
        ensures within { result ≤ length piece.now }
        ensures all { result < length piece.now → O.Stopped observer.new }
        ensures fed { Feeds P.machine P.screens self.old profile.old (take result piece.now) self.new profile.new
            out.old.items out.new.items }
        ensures saw { O.Saw observer.old (happenings_of P.machine P.screens self.old profile.old (take result piece.now)) observer.new }
        ensures bounded { vec_len out.new ≤ vec_len out.old + 10 * result }
        ensures capacity { vec_capacity out.old ≤ vec_capacity out.new }
    {
        self.soundness();
        profile.keeps_size();
        one_split();
        let mut values = Values::new();
        let mut at = 0;
        while at < piece.len() {
            let (bytes, stops) = self.feed_next(profile, &piece[at..], &mut values, observer, out);
            at += bytes;
            if stops {
                return at;
            }
        }
        at
    }

    /// Plays the front of a chunk that isn't empty: between sequences what the fronts read, and then up to the first
    /// event, by the parser. Returns how many bytes it played, and whether the observer stops there.
    #[inline(always)]
    fn feed_next<P: Profile, O: Observer>(
        &mut self,
        profile: &mut P,
        piece: &[u8],
        values: &mut Values,
        observer: &mut O,
        out: &mut Vec<u8>,
    ) -> (usize, bool)
        requires some { 1 ≤ length piece.now }
        requires room { vec_len out.old + 10 * length piece.now ≤ vec_capacity out.old }
        requires takes { O.Takes observer.old (length piece.now) }
        requires one_size { P.OneSize (P.screens self.old.display profile.old) }
        ensures some { OnFalse result.1 (1 ≤ result.0) }
        ensures within { result.0 ≤ length piece.now }
        ensures fed { Feeds P.machine P.screens self.old profile.old (take result.0 piece.now) self.new profile.new
            out.old.items out.new.items }
        ensures saw { O.Saw observer.old (happenings_of P.machine P.screens self.old profile.old (take result.0 piece.now)) observer.new }
        ensures next { OnTrue result.1 (O.Stopped observer.new) }
        ensures bounded { vec_len out.new ≤ vec_len out.old + 10 * result.0 }
        ensures capacity { vec_capacity out.old ≤ vec_capacity out.new }
    {
        self.soundness();
        profile.keeps_size();
        one_split();
        if !self.parser.is_between() {
            let bytes = self.feed_by_parser(profile, piece, values, observer, out);
            return (bytes, is_stop(observer, bytes));
        }
        let at = self.feed_between(profile, piece, observer, out);
        let is_whole = at == piece.len();
        if is_whole {
            return (at, false);
        }
        let rest = &piece[at..];
        let bytes = self.feed_by_parser(profile, rest, values, observer, out);
        (at + bytes, is_stop(observer, bytes))
    }

    /// Plays the front of a chunk, between sequences, up to the first byte that goes through the parser, or the first event
    /// before which the observer stops. Returns how many bytes it played.
    #[inline(always)]
    fn feed_between<P: Profile, O: Observer>(
        &mut self,
        profile: &mut P,
        piece: &[u8],
        observer: &mut O,
        out: &mut Vec<u8>,
    ) -> usize
        requires room { vec_len out.old + 10 * length piece.now ≤ vec_capacity out.old }
        requires takes { O.Takes observer.old (length piece.now) }
        requires one_size { P.OneSize (P.screens self.old.display profile.old) }
        requires between { self.old.held ≡ Nothing }
        ensures within { result ≤ length piece.now }
        ensures between { self.new.held ≡ Nothing }
        ensures fed { Feeds P.machine P.screens self.old profile.old (take result piece.now) self.new profile.new
            out.old.items out.new.items }
        ensures saw { O.Saw observer.old (happenings_of P.machine P.screens self.old profile.old (take result piece.now)) observer.new }
        ensures bounded { vec_len out.new ≤ vec_len out.old + 10 * result }
        ensures capacity { vec_capacity out.old ≤ vec_capacity out.new }
    {
        self.soundness();
        profile.keeps_size();
        one_split();
        let mut rest = piece;
        while !rest.is_empty() {
            let bytes = self.feed_front(profile, rest, observer, out);
            let stops = bytes == 0;
            if stops {
                return piece.len() - rest.len();
            }
            rest = &rest[bytes..];
        }
        piece.len()
    }

    /// Plays the front of a chunk that isn't empty, between sequences, by its kind. Returns how many bytes it played:
    /// none if it goes through the parser, or the observer stops there.
    #[inline(always)]
    fn feed_front<P: Profile, O: Observer>(
        &mut self,
        profile: &mut P,
        piece: &[u8],
        observer: &mut O,
        out: &mut Vec<u8>,
    ) -> usize
        requires some { 1 ≤ length piece.now }
        requires room { vec_len out.old + 10 * length piece.now ≤ vec_capacity out.old }
        requires takes { O.Takes observer.old (length piece.now) }
        requires one_size { P.OneSize (P.screens self.old.display profile.old) }
        requires between { self.old.held ≡ Nothing }
        ensures within { result ≤ length piece.now }
        ensures between { self.new.held ≡ Nothing }
        ensures fed { Feeds P.machine P.screens self.old profile.old (take result piece.now) self.new profile.new
            out.old.items out.new.items }
        ensures saw { O.Saw observer.old (happenings_of P.machine P.screens self.old profile.old (take result piece.now)) observer.new }
        ensures bounded { vec_len out.new ≤ vec_len out.old + 10 * result }
        ensures capacity { vec_capacity out.old ≤ vec_capacity out.new }
    {
        match Front::of(piece) {
            Front::Escape => self.feed_escape(profile, piece, observer, out),
            Front::Plain => self.graphics_first(profile, piece, true, observer, out),
            Front::CarriageReturn => self.carriage_return_first(profile, piece, observer, out),
            Front::Right => self.graphics_first(profile, piece, false, observer, out),
            Front::Control(control) => {
                self.event_first(
                    profile,
                    piece,
                    1,
                    EventKind::Control(control),
                    observer,
                    out,
                )
            }
            Front::Empty => self.event_first(
                profile,
                piece,
                1,
                EventKind::Print(piece[0]),
                observer,
                out,
            ),
            Front::Introducer => self.by_parser(profile, observer),
            Front::Other => self.by_parser(profile, observer),
        }
    }

    /// Plays nothing: the front goes through the parser.
    #[inline(always)]
    fn by_parser<P: Profile, O: Observer>(&self, profile: &P, observer: &O) -> usize
        ensures none { result ≡ 0 }
        ensures nothing { (out : List ℕ) → Feeds P.machine P.screens self.now profile.now [] self.now profile.now out out }
        ensures saw { O.Saw observer.now [] observer.now }
    {
        let _ = profile;
        let _ = observer;
        self.soundness();
        one_split();
        0
    }

    /// Plays the front of a chunk that begins with ESC, between sequences, up to the first event. Returns as
    /// `feed_front` does.
    #[inline(always)]
    fn feed_escape<P: Profile, O: Observer>(
        &mut self,
        profile: &mut P,
        piece: &[u8],
        observer: &mut O,
        out: &mut Vec<u8>,
    ) -> usize
        requires some { 1 ≤ length piece.now }
        requires room { vec_len out.old + 10 ≤ vec_capacity out.old }
        requires takes { O.Takes observer.old (length piece.now) }
        requires one_size { P.OneSize (P.screens self.old.display profile.old) }
        requires between { self.old.held ≡ Nothing }
        ensures within { result ≤ length piece.now }
        ensures between { self.new.held ≡ Nothing }
        ensures fed { Feeds P.machine P.screens self.old profile.old (take result piece.now) self.new profile.new
            out.old.items out.new.items }
        ensures saw { O.Saw observer.old (happenings_of P.machine P.screens self.old profile.old (take result piece.now)) observer.new }
        ensures bounded { vec_len out.new ≤ vec_len out.old + 10 * result }
        ensures capacity { vec_capacity out.old ≤ vec_capacity out.new }
    {
        if let Some(front) = front_values(piece) {
            if front.last == b'H' {
                return self.values_first(profile, piece, &front, observer, out);
            }
            if front.last == b'm' {
                return self.values_first(profile, piece, &front, observer, out);
            }
            if is_final(front.last) {
                return self.values_first(profile, piece, &front, observer, out);
            }
        }
        self.escape_first(profile, piece, observer, out)
    }

    /// Carries out a control sequence whose values were read at the front of a chunk, between sequences. Returns as
    /// `feed_front` does.
    #[inline(always)]
    fn values_first<P: Profile, O: Observer>(
        &mut self,
        profile: &mut P,
        piece: &[u8],
        front: &FrontValues,
        observer: &mut O,
        out: &mut Vec<u8>,
    ) -> usize
        requires few { (1 ≤ front.now.count) × (front.now.count ≤ 3) }
        requires values { AreFirst front.now }
        requires ends { IsFinal front.now.last }
        requires front { IsFront piece.now front.now.bytes
            (Sequence None (record { items = front_list front.now }) None front.now.last) }
        requires room { vec_len out.old + 10 ≤ vec_capacity out.old }
        requires takes { O.Takes observer.old (length piece.now) }
        requires one_size { P.OneSize (P.screens self.old.display profile.old) }
        requires between { self.old.held ≡ Nothing }
        ensures within { result ≤ length piece.now }
        ensures between { self.new.held ≡ Nothing }
        ensures fed { Feeds P.machine P.screens self.old profile.old (take result piece.now) self.new profile.new
            out.old.items out.new.items }
        ensures saw { O.Saw observer.old (happenings_of P.machine P.screens self.old profile.old (take result piece.now)) observer.new }
        ensures bounded { vec_len out.new ≤ vec_len out.old + 10 * result }
        ensures capacity { vec_capacity out.old ≤ vec_capacity out.new }
    {
        self.soundness();
        one_split();
        let list = [front.first, front.second, front.third];
        let kind = EventKind::Sequence {
            marker: None,
            inter: None,
            last: front.last,
        };
        if !observer.lets(self, kind, &list[..front.count]) {
            return 0;
        }
        observer.event(self, &piece[..front.bytes], kind, &list[..front.count]);
        profile.carry_out_values(self, front, out);
        front.bytes
    }

    /// Plays a sequence that begins with ESC and that `front_values` doesn't read.
    #[inline(always)]
    fn escape_first<P: Profile, O: Observer>(
        &mut self,
        profile: &mut P,
        piece: &[u8],
        observer: &mut O,
        out: &mut Vec<u8>,
    ) -> usize
        requires some { 1 ≤ length piece.now }
        requires room { vec_len out.old + 10 ≤ vec_capacity out.old }
        requires takes { O.Takes observer.old (length piece.now) }
        requires one_size { P.OneSize (P.screens self.old.display profile.old) }
        requires between { self.old.held ≡ Nothing }
        ensures within { result ≤ length piece.now }
        ensures between { self.new.held ≡ Nothing }
        ensures fed { Feeds P.machine P.screens self.old profile.old (take result piece.now) self.new profile.new
            out.old.items out.new.items }
        ensures saw { O.Saw observer.old (happenings_of P.machine P.screens self.old profile.old (take result piece.now)) observer.new }
        ensures bounded { vec_len out.new ≤ vec_len out.old + 10 * result }
        ensures capacity { vec_capacity out.old ≤ vec_capacity out.new }
    {
        if let Some((inter, last)) = front_escape(piece) {
            let inter = Some(inter);
            return self.event_first(
                profile,
                piece,
                3,
                EventKind::Escape { inter, last },
                observer,
                out,
            );
        }
        if let Some(kind) = front_short_escape(piece) {
            return self.event_first(profile, piece, 2, kind, observer, out);
        }
        self.by_parser(profile, observer)
    }

    /// Carries out an event that is whole at the front of a chunk, between sequences. Returns as `feed_front` does.
    /// Speed: it is inlined in each caller, so a known kind costs no dispatch.
    #[inline(always)]
    fn event_first<P: Profile, O: Observer>(
        &mut self,
        profile: &mut P,
        piece: &[u8],
        bytes: usize,
        kind: EventKind,
        observer: &mut O,
        out: &mut Vec<u8>,
    ) -> usize
        requires front { IsFront piece.now bytes (event_of kind []) }
        requires room { vec_len out.old + 10 ≤ vec_capacity out.old }
        requires takes { O.Takes observer.old (length piece.now) }
        requires one_size { P.OneSize (P.screens self.old.display profile.old) }
        requires between { self.old.held ≡ Nothing }
        ensures whole { 1 ≤ result → result ≡ bytes }
        ensures within { result ≤ length piece.now }
        ensures between { self.new.held ≡ Nothing }
        ensures fed { Feeds P.machine P.screens self.old profile.old (take result piece.now) self.new profile.new
            out.old.items out.new.items }
        ensures saw { O.Saw observer.old (happenings_of P.machine P.screens self.old profile.old (take result piece.now)) observer.new }
        ensures bounded { vec_len out.new ≤ vec_len out.old + 10 * result }
        ensures capacity { vec_capacity out.old ≤ vec_capacity out.new }
    {
        self.soundness();
        one_split();
        if !observer.lets(self, kind, &[]) {
            return 0;
        }
        observer.event(self, &piece[..bytes], kind, &[]);
        profile.carry_out(self, kind, &[], out);
        bytes
    }

    /// Plays graphic bytes at the front of a chunk, between sequences, as many as the observer is told of at once. Returns
    /// as `feed_front` does.
    #[inline(always)]
    fn graphics_first<P: Profile, O: Observer>(
        &mut self,
        profile: &mut P,
        piece: &[u8],
        is_plain: bool,
        observer: &mut O,
        out: &mut Vec<u8>,
    ) -> usize
        requires some { 1 ≤ length piece.now }
        requires graphic { HasGlyph (slice_index piece.now 0) }
        requires plain { is_plain ≡ true → IsPlain (slice_index piece.now 0) }
        requires room { vec_len out.old + 10 ≤ vec_capacity out.old }
        requires takes { O.Takes observer.old (length piece.now) }
        requires one_size { P.OneSize (P.screens self.old.display profile.old) }
        requires between { self.old.held ≡ Nothing }
        ensures within { result ≤ length piece.now }
        ensures between { self.new.held ≡ Nothing }
        ensures fed { Feeds P.machine P.screens self.old profile.old (take result piece.now) self.new profile.new
            out.old.items out.new.items }
        ensures saw { O.Saw observer.old (happenings_of P.machine P.screens self.old profile.old (take result piece.now)) observer.new }
        ensures bounded { vec_len out.new ≤ vec_len out.old + 10 * result }
        ensures capacity { vec_capacity out.old ≤ vec_capacity out.new }
    {
        self.soundness();
        one_split();
        let limit = observer.limit(self).min(piece.len());
        if limit == 0 {
            return 0;
        }
        self.run_first(profile, &piece[..limit], is_plain, observer, out)
    }

    /// Plays graphic bytes at the front of a chunk, between sequences. It plays a run if it may be written at once,
    /// otherwise the first byte. Returns as `feed_front` does.
    ///
    /// Speed: if GL is ASCII, plain bytes are their own glyphs, and need no chart. `is_plain` says that the first byte
    /// is plain, and is known in each caller.
    #[inline(always)]
    fn run_first<P: Profile, O: Observer>(
        &mut self,
        profile: &mut P,
        piece: &[u8],
        is_plain: bool,
        observer: &mut O,
        out: &mut Vec<u8>,
    ) -> usize
        requires some { 1 ≤ length piece.now }
        requires graphic { HasGlyph (slice_index piece.now 0) }
        requires plain { is_plain ≡ true → IsPlain (slice_index piece.now 0) }
        requires fits { (n : ℕ) → n ≤ length piece.now → O.Fits observer.old self.old.display n }
        requires room { vec_len out.old + 10 ≤ vec_capacity out.old }
        requires takes { O.Takes observer.old (length piece.now) }
        requires one_size { P.OneSize (P.screens self.old.display profile.old) }
        requires between { self.old.held ≡ Nothing }
        ensures within { result ≤ length piece.now }
        ensures between { self.new.held ≡ Nothing }
        ensures fed { Feeds P.machine P.screens self.old profile.old (take result piece.now) self.new profile.new
            out.old.items out.new.items }
        ensures saw { O.Saw observer.old (happenings_of P.machine P.screens self.old profile.old (take result piece.now)) observer.new }
        ensures bounded { vec_len out.new ≤ vec_len out.old + 10 * result }
        ensures capacity { vec_capacity out.old ≤ vec_capacity out.new }
    {
        self.soundness();
        one_split();
        spelled();
        if is_plain && self.display.writes_over() && self.display.sets.reads_ascii() {
            let run = plain_run(piece);
            if !right_half_at(piece, run) || run >= LONG_RUN {
                observer.run(self, &piece[..run]);
                self.write_ascii(&piece[..run]);
                return run;
            }
        }
        if !self.display.writes_over() {
            return self.event_first(profile, piece, 1, EventKind::Print(piece[0]), observer, out);
        }
        let run = graphic_run(piece);
        observer.run(self, &piece[..run]);
        self.write_in_use(&piece[..run]);
        run
    }

    /// Plays CR at the front of a chunk, and LF if it follows and the observer doesn't stop before it. Returns as
    /// `feed_front` does. Speed: most lines end so.
    #[inline(always)]
    fn carriage_return_first<P: Profile, O: Observer>(
        &mut self,
        profile: &mut P,
        piece: &[u8],
        observer: &mut O,
        out: &mut Vec<u8>,
    ) -> usize
        requires some { 1 ≤ length piece.now }
        requires carriage_return { slice_index piece.now 0 ≡ CR }
        requires room { vec_len out.old + 10 * length piece.now ≤ vec_capacity out.old }
        requires takes { O.Takes observer.old (length piece.now) }
        requires one_size { P.OneSize (P.screens self.old.display profile.old) }
        requires between { self.old.held ≡ Nothing }
        ensures within { result ≤ length piece.now }
        ensures between { self.new.held ≡ Nothing }
        ensures fed { Feeds P.machine P.screens self.old profile.old (take result piece.now) self.new profile.new
            out.old.items out.new.items }
        ensures saw { O.Saw observer.old (happenings_of P.machine P.screens self.old profile.old (take result piece.now)) observer.new }
        ensures bounded { vec_len out.new ≤ vec_len out.old + 10 * result }
        ensures capacity { vec_capacity out.old ≤ vec_capacity out.new }
    {
        self.soundness();
        profile.keeps_size();
        one_split();
        let first = self.event_first(profile, piece, 1, EventKind::Control(CR), observer, out);
        if first == 0 || piece.len() < 2 || piece[1] != LF {
            return first;
        }
        let second = self.event_first(
            profile,
            &piece[1..],
            1,
            EventKind::Control(LF),
            observer,
            out,
        );
        1 + second
    }

    /// Plays the front of a chunk that isn't empty up to the first event, by the parser. Returns how many bytes it
    /// played: none if the observer stops there.
    #[inline(never)]
    fn feed_by_parser<P: Profile, O: Observer>(
        &mut self,
        profile: &mut P,
        piece: &[u8],
        values: &mut Values,
        observer: &mut O,
        out: &mut Vec<u8>,
    ) -> usize
        requires some { 1 ≤ length piece.now }
        requires room { vec_len out.old + 10 ≤ vec_capacity out.old }
        requires takes { O.Takes observer.old (length piece.now) }
        requires one_size { P.OneSize (P.screens self.old.display profile.old) }
        ensures within { result ≤ length piece.now }
        ensures fed { Feeds P.machine P.screens self.old profile.old (take result piece.now) self.new profile.new
            out.old.items out.new.items }
        ensures saw { O.Saw observer.old (happenings_of P.machine P.screens self.old profile.old (take result piece.now)) observer.new }
        ensures stops { result ≡ 0 → O.Stops ≡ true }
        ensures next { result ≡ 0 → O.Stopped observer.new }
        ensures bounded { vec_len out.new ≤ vec_len out.old + 10 * result }
        ensures capacity { vec_capacity out.old ≤ vec_capacity out.new }
    {
        self.soundness();
        one_split();
        let before = self.parser_before(observer);
        let Taken { bytes, event } = self.parser.next(piece, values);
        let Some(kind) = event else {
            observer.part(&piece[..bytes]);
            return bytes;
        };
        if !observer.lets(self, kind, values.as_slice()) {
            self.parser = before;
            return 0;
        }
        observer.event(self, &piece[..bytes], kind, values.as_slice());
        profile.carry_out(self, kind, values.as_slice(), out);
        bytes
    }

    /// Returns the parser if the observer may stop the feed, so that it may be put back. Speed: between sequences nothing is copied.
    #[inline(always)]
    fn parser_before<O: Observer>(&self, observer: &O) -> Parser
        ensures { O.Stops ≡ true → result ≡ self.now.held }
    {
        if observer.stops() && !self.parser.is_between() {
            self.parser.copied()
        } else {
            Parser::new()
        }
    }

    /// Writes a run of plain bytes.
    #[inline(always)]
    fn write_ascii(&mut self, run: &[u8])
        requires plain { All IsPlain run.now }
        requires some { 1 ≤ length run.now }
        requires writes { WritesAscii self.old.display }
        ensures held { self.new.held ≡ self.old.held }
        ensures written { self.new.display ≡ after_events (map Print run.now) self.old.display }
    {
        self.display.write_run(run);
    }

    /// Writes a run of graphic bytes through the sets in GL and GR.
    fn write_in_use(&mut self, run: &[u8])
        requires graphic { All HasGlyph run.now }
        requires some { 1 ≤ length run.now }
        requires writes { (self.old.display.sets.pending ≡ None) × (self.old.display.modes.irm ≡ false) }
        ensures held { self.new.held ≡ self.old.held }
        ensures written { self.new.display ≡ after_events (map Print run.now) self.old.display }
    {
        in_use();
        self.display.write_graphics(run);
    }
}
