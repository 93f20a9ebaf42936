//! The chosen bytes: elements that updates consist of, and nothing else.
ghost use Rattle.std.specs.Prelude.{◌≡◌, ℕ, ◌+◌, ◌≤◌, length, take, vec_capacity};
ghost use Rattle.vt_paint.specs.Spoken.{Speaks};
ghost use Rattle.vt_update.specs.declared.chosen.TheConstants.{ROOM};
ghost use Rattle.vt_update.specs.Private.Appended.{Appended};

use vt_paint::{FUNCTION_LIMIT, Function};
use vt_screen::Cell;

/// The number of bytes that are kept before they are appended to the output.
const ROOM: usize = 768;

/// The number of bytes that are appended before more cells are written. The other half has capacity for a run of cells
/// with everything before it, and for everything after the cells.
const MANY: usize = ROOM / 2;

/// The elements chosen last, which aren't appended yet. An element that doesn't fit is left out. The play then shows
/// that the bytes don't lead to the target.
#[derive(Drop)]
pub(crate) struct Chosen {
    bytes: [u8; ROOM],
    len: usize,
    ghost within: { len ≤ ROOM },
    ghost speaks: { Speaks (take len bytes) },
}

/// Writes the bytes of cells at a position, as long as the cells differ from the old ones and are in the range. The
/// word `low` is written as the byte `first`, and the words after it as the bytes after `first`, up to 7E. Returns the
/// number of cells.
fn put_codes(
    low: u64,
    first: u8,
    old: &[Cell],
    new: &[Cell],
    at: usize,
    all: &mut [u8; ROOM],
) -> usize
    requires room { at + length new.now ≤ ROOM }
    requires len { length old.now ≡ length new.now }
    requires first { (0x20 ≤ first) × (first ≤ 0x7E) }
    ensures speaks { Speaks (take at all.old) → Speaks (take (at + result) all.new) }
    ensures kept { (n : ℕ) → n ≤ at → take n all.new ≡ take n all.old }
    ensures within { result ≤ length new.now }
{
    let span = 0x7E - first as u64;
    for (i, cell) in new.iter().enumerate() {
        let word = cell.word();
        let place = word.wrapping_sub(low);
        if place > span || word == old[i].word() {
            return i;
        }
        all[at + i] = place as u8 + first;
    }
    new.len()
}

/// Appends the bytes of elements to the output, if it has capacity for them.
fn append(bytes: &[u8], out: &mut Vec<u8>)
    requires { Speaks bytes.now }
    ensures appended { Appended out.old.items out.new.items }
    ensures capacity { vec_capacity out.old ≤ vec_capacity out.new }
{
    if bytes.len() <= out.capacity() - out.len() {
        out.extend_from_slice(bytes).unwrap();
    }
}

impl Chosen {
    /// Returns an empty list.
    pub(crate) fn new() -> Chosen {
        Chosen {
            bytes: [0; ROOM],
            len: 0,
        }
    }

    /// Appends the bytes to the output, if it has capacity for them, and keeps none.
    #[inline(never)]
    pub(crate) fn flush(&mut self, out: &mut Vec<u8>)
        ensures appended { Appended out.old.items out.new.items }
        ensures capacity { vec_capacity out.old ≤ vec_capacity out.new }
    {
        append(&self.bytes[..self.len], out);
        self.len = 0;
    }

    /// Appends the bytes to the output, if they are many.
    #[inline(always)]
    pub(crate) fn flush_many(&mut self, out: &mut Vec<u8>)
        ensures appended { Appended out.old.items out.new.items }
        ensures capacity { vec_capacity out.old ≤ vec_capacity out.new }
    {
        if self.len >= MANY {
            self.flush(out);
        }
    }

    /// Writes a control function.
    #[inline(always)]
    pub(crate) fn put(&mut self, function: Function) {
        if FUNCTION_LIMIT <= ROOM - self.len {
            self.len = function.put(self.len, &mut self.bytes);
        }
    }

    /// Writes a graphic character, 20 to 7E.
    #[inline(always)]
    pub(crate) fn character(&mut self, code: u8) {
        if 0x20 <= code && code <= 0x7E && self.len < ROOM {
            self.bytes[self.len] = code;
            self.len += 1;
        }
    }

    /// Writes the characters of cells, as long as the cells differ from the old ones and are in the range. The word
    /// `low` is written as `first`. Returns the number of cells.
    pub(crate) fn characters(&mut self, low: u64, first: u8, old: &[Cell], new: &[Cell]) -> usize
        requires len { length old.now ≡ length new.now }
        requires first { (0x20 ≤ first) × (first ≤ 0x7E) }
        ensures { result ≤ length new.now }
    {
        let room = new.len().min(ROOM - self.len);
        let count = put_codes(
            low,
            first,
            &old[..room],
            &new[..room],
            self.len,
            &mut self.bytes,
        );
        self.len += count;
        count
    }
}
