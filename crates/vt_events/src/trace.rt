//! The trace of what a host sent. docs/TRACE.md describes its lines.

use crate::items::Item;
use crate::lines::Lines;
use crate::names::{Terminal, designation, name_of};
use crate::traced::Traced;
use arrayvec::ArrayVec;
use std::alloc::{AllocError, Global};
use vt_feed::Observer;
use vt_screen::Size;
use vt_syntax::EventKind;

/// The most bytes of a chunk that is traced. Of a longer one some lines may be left out.
pub const CHUNK: usize = 1024;

/// More than the bytes of all lines of a chunk.
const RESERVE: usize = 128 * CHUNK;

/// The most bytes of a report.
const REPORT: usize = 10;

/// The number of bytes of an item that a line shows.
const SHOWN: usize = 32;

/// An observer that writes the trace of what a host sent, in chunks of any lengths up to `CHUNK`. It is full if its buffer hasn't the capacity for
/// the lines of another chunk. `new` allocates its memory, and nothing else does.
#[derive(Drop)]
pub struct Trace {
    lines: Lines,
    /// Scratch for a report.
    report: Vec<u8>,
    terminal: Terminal,
    is_utf8: bool,
    /// The number of bytes that came.
    place: u64,
    /// The last line is a text, which may go on.
    in_text: bool,
    item: Item,
    /// The place of the first byte of the item.
    begin: u64,
    /// The first bytes of the item: those that a line shows, and one more.
    first: ArrayVec<u8, 33>,
}

impl Trace {
    /// Returns the trace of no bytes. `terminal` says which names events have. `is_utf8` is true for a feed in UTF-8, and false for one of bytes.
    /// Returns `Err` if allocation fails.
    pub fn new(alloc: Global, terminal: Terminal, is_utf8: bool) -> Result<Trace, AllocError> {
        Ok(Trace {
            lines: Lines {
                bytes: Vec::with_capacity(alloc, 2 * RESERVE)?,
            },
            report: Vec::with_capacity(alloc, REPORT)?,
            terminal,
            is_utf8,
            place: 0,
            in_text: false,
            item: Item::Nothing,
            begin: 0,
            first: ArrayVec::new(),
        })
    }

    /// Returns the lines that were written since the last `clear`. The last one may be a text that goes on.
    pub fn lines(&self) -> &[u8] {
        self.lines.bytes.as_slice()
    }

    /// Removes the lines, which the caller has taken.
    pub fn clear(&mut self) {
        self.lines.bytes.clear();
    }

    /// Writes what is due at the end of the input: the line of an item that is open, and the end of a text.
    pub fn end(&mut self) {
        if !matches!(self.item, Item::Nothing) {
            self.end_item(None);
        }
        self.end_text();
    }

    /// Writes the line of a change of the screen's size, even if the screen has that size already.
    pub fn resize(&mut self, size: Size) {
        self.settle();
        let place = self.place;
        self.begin_line(place);
        self.lines.push(b"size\t");
        self.lines.push_number(size.wide as u64);
        self.lines.push(b"x");
        self.lines.push_number(size.rows as u64);
        self.lines.push(b"\n");
    }

    /// Ends a text.
    fn end_text(&mut self) {
        if self.in_text {
            self.lines.push(b"\n");
        }
        self.in_text = false;
    }

    /// Begins a line.
    fn begin_line(&mut self, place: u64) {
        self.end_text();
        self.lines.push_number(place);
        self.lines.push(b"\t");
    }

    /// Writes text at a place.
    fn push_text(&mut self, place: u64, text: &[u8]) {
        if !self.in_text {
            self.begin_line(place);
            self.lines.push(b"text\t");
            self.in_text = true;
        }
        self.lines.push_shown(text);
    }

    /// Writes the line of an item that has no event, and ends it. `last` is the byte that ends it, unless that is the end of the input.
    fn end_item(&mut self, last: Option<u8>) {
        let (begin, name) = (self.begin, self.item.name(self.terminal, last));
        self.begin_line(begin);
        self.lines.push(name.as_bytes());
        self.lines.push(b"\t");
        let count = self.first.len().min(SHOWN);
        self.lines.push_shown(&self.first.as_slice()[..count]);
        if self.first.len() > SHOWN {
            self.lines.push(b"..");
        }
        self.lines.push(b"\n");
        self.item = Item::Nothing;
    }

    /// Writes the line of an item whose event would have followed, and didn't.
    fn settle(&mut self) {
        if self.item.is_complete() {
            self.end_item(None);
        }
    }

    /// Reads a byte.
    fn read(&mut self, b: u8) {
        self.settle();
        if self.item.is_cut_by(b) {
            self.end_item(Some(b));
        }
        if self.is_utf8 && b >= 0x80 && !self.item.is_string() {
            let place = self.place;
            self.push_text(place, &[b]);
        } else {
            self.hold(b);
        }
        self.place = self.place.saturating_add(1);
    }

    /// Adds a byte to the item that it begins or goes on with.
    fn hold(&mut self, b: u8) {
        if matches!(self.item, Item::Nothing) {
            self.begin = self.place;
            self.first.clear();
            self.item = Item::begun_by(b, self.is_utf8);
        } else if !self.item.is_ended_by(b, self.is_utf8) {
            self.item = self.item.after(b);
        }
        if !self.first.is_full() {
            self.first.push(b);
        }
        if self.item.is_ended_by(b, self.is_utf8) && !self.item.is_complete() {
            self.end_item(Some(b));
        }
    }

    /// Returns the place of the event that the last byte completes. A control inside a sequence leaves the sequence open.
    fn event_place(&mut self) -> u64 {
        if self.item.is_complete() {
            self.item = Item::Nothing;
            self.begin
        } else {
            self.place.saturating_sub(1)
        }
    }

    /// Writes the line of an event on a screen of so many rows.
    fn push_event(&mut self, rows: usize, place: u64, kind: EventKind, values: &[u16]) {
        self.begin_line(place);
        if let Some((front, set)) = designation(kind) {
            self.lines.push(front.as_bytes());
            self.lines.push(set.as_bytes());
            self.lines.push(b"\t");
        } else if let Some(name) = name_of(self.terminal, rows, kind, values) {
            self.lines.push(name.as_bytes());
            self.lines.push(b"\t");
            if let EventKind::Sequence { marker, .. } = kind {
                self.lines.push_values(marker, values);
            }
        } else {
            self.lines.push(b"ignored\t");
            self.lines.push_event_bytes(kind, values);
        }
        self.lines.push(b"\n");
    }

    /// Writes the line of a report, if an event has one.
    fn push_report<M: Traced>(&mut self, machine: &M, place: u64, kind: EventKind, values: &[u16]) {
        self.report.clear();
        if self.report.capacity() >= REPORT {
            machine.report(kind, values, &mut self.report);
        }
        if !self.report.is_empty() {
            self.begin_line(place);
            self.lines.push(b"report\t");
            self.lines.push_shown(self.report.as_slice());
            self.lines.push(b"\n");
        }
    }
}

impl<M: Traced> Observer<M> for Trace {
    ghost use Rattle.std.specs.Prelude.{⊤};
    ghost use Rattle.vt_feed.specs.Observers.{nobody_joined};

    ghost Saw = { λ o hs p. ⊤ };

    ghost HasRoom = { λ o n. ⊤ };

    ghost Fits = { λ o s n. ⊤ };

    ghost Full = { λ o. ⊤ };

    ghost joined = { nobody_joined };

    fn is_full(&self) -> bool {
        self.lines.bytes.capacity() - self.lines.bytes.len() < RESERVE
    }

    fn bytes(&mut self, bytes: &[u8]) {
        for b in bytes {
            self.read(*b);
        }
    }

    fn event(&mut self, machine: &M, kind: EventKind, values: &[u16]) {
        let place = self.event_place();
        match kind {
            EventKind::Print(b) if b != 0xA0 && b != 0xFF => self.push_text(place, &[b]),
            _ => {
                self.push_event(machine.rows(), place, kind, values);
                self.push_report(machine, place, kind, values);
            }
        }
    }

    fn character(&mut self, _: &M, _: char) {}

    fn limit(&self, _: &M) -> usize {
        CHUNK
    }

    fn run(&mut self, _: &M, run: &[u8]) {
        self.settle();
        let place = self.place;
        self.push_text(place, run);
        self.place = self.place.saturating_add(run.len() as u64);
    }
}
