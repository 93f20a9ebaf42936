//! Decoding: from bytes, one at a time, to characters.
ghost use Rattle.std.specs.Prelude.{◌≡◌, ◌<◌, ◌≤◌, ◌⊎◌, ◌++◌, [], ◌∷◌, ◌==◌, length, IfSome};
ghost use Rattle.std.specs.Bool.{OnTrue, OnFalse};
ghost use Rattle.std.specs.Option.{option_to_list};
ghost use Rattle.bstr.specs.Utf8.{continues, decoded, lead_len, replacement};
ghost use Rattle.vt_utf8.specs.Decoding.{IsWhole};
ghost use Rattle.vt_utf8.specs.Decoding.{is_begun, pending_of, given_up, read, read_first};
ghost use Rattle.vt_utf8.specs.Private.Cut.{IsCut};

use arrayvec::ArrayVec;
use bstr::decode_utf8 as decode;
use std::marker::Model;

/// The pending part of UTF-8: the bytes, at most three, of a character that isn't complete yet.
#[derive(Drop)]
pub struct Decoder {
    pending: ArrayVec<u8, 4>,
}

impl Model for Decoder {
    ghost use Rattle.std.specs.Prelude.{◌≤◌, ℕ, List, length};

    ghost Value = { List ℕ };

    ghost view = { λ d. d.pending.items };

    ghost invariant = { λ d. length d.pending.items ≤ 3 };
}

/// Returns how many bytes a character that begins with this byte takes, or 0 if none begins with it.
#[inline(always)]
fn lead_len(b: u8) -> usize
    ensures { result ≡ lead_len b }
{
    if b < 0x80 {
        1
    } else if b < 0xC2 {
        0
    } else if b < 0xE0 {
        2
    } else if b < 0xF0 {
        3
    } else if b < 0xF5 {
        4
    } else {
        0
    }
}

/// Returns whether a byte may be the first of a character beyond ASCII.
#[inline(always)]
pub(crate) fn begins_beyond(b: u8) -> bool
    ensures first { OnTrue result ((0xC2 ≤ b) × (b ≤ 0xF4)) }
    ensures apart { OnFalse result ((b < 0xC2) ⊎ (0xF4 < b)) }
{
    matches!(b, 0xC2..=0xF4)
}

/// Returns whether bytes begin a character that more bytes have to complete. `size` is the size that they decode to.
#[inline(always)]
fn is_begun(bytes: &[u8], size: usize) -> bool
    requires some { 1 ≤ length bytes.now }
    requires size { size ≡ (decoded bytes.now).size }
    ensures { result ≡ is_begun bytes.now }
{
    size == bytes.len() && bytes.len() < lead_len(bytes[0])
}

/// Returns whether a byte may be any but the first of a character.
#[inline(always)]
fn continues(b: u8) -> bool
    ensures { result ≡ continues b }
{
    0x7F < b && b < 0xC0
}

/// Returns the character of three bytes that begin a chunk, if the first is from E1 to EC. Speed: any two bytes that
/// continue a character may follow, so most characters of three bytes are decoded by fewer tests.
#[inline(always)]
fn three_bytes(piece: &[u8]) -> Option<char>
    ensures { IfSome result (λ c. (0x80 ≤ c) × IsWhole piece.now c 3) }
{
    if piece.len() < 3 {
        return None;
    }
    let (b, x, d) = (piece[0], piece[1], piece[2]);
    if b < 0xE1 {
        return None;
    }
    if b > 0xEC {
        return None;
    }
    if continues(x) && continues(d) {
        return char::from_u32(
            ((b as u32 - 0xE0) * 64 + (x as u32 - 0x80)) * 64 + (d as u32 - 0x80),
        );
    }
    None
}

/// Returns the character of two bytes that begin a chunk, if there is one. Speed: it is decoded by fewer tests.
#[inline(always)]
fn two_bytes(piece: &[u8]) -> Option<char>
    ensures { IfSome result (λ c. (0x80 ≤ c) × IsWhole piece.now c 2) }
{
    if piece.len() < 2 {
        return None;
    }
    let (b, x) = (piece[0], piece[1]);
    if b < 0xC2 {
        return None;
    }
    if b > 0xDF {
        return None;
    }
    if continues(x) {
        return char::from_u32((b as u32 - 0xC0) * 64 + (x as u32 - 0x80));
    }
    None
}

/// Returns whether a chunk may begin with a character of three or four bytes: with any other, or none, it doesn't.
#[inline(always)]
fn may_be_long(piece: &[u8]) -> bool {
    piece.len() >= 3 && piece[0] >= 0xE0 && continues(piece[1])
}

/// Returns the character beyond ASCII at the front of a chunk, if it is whole, and how many bytes it takes.
#[inline(always)]
pub fn whole_character(piece: &[u8]) -> Option<(char, usize)>
    ensures { IfSome result (λ found. (0x80 ≤ found.0) × IsWhole piece.now found.0 found.1) }
{
    if let Some(c) = three_bytes(piece) {
        return Some((c, 3));
    }
    if let Some(c) = two_bytes(piece) {
        return Some((c, 2));
    }
    if !may_be_long(piece) {
        return None;
    }
    let (found, size) = decode(piece);
    let Some(c) = found else {
        return None;
    };
    if (c as u32) < 0x80 {
        return None;
    }
    Some((c, size))
}

impl Decoder {
    /// Returns a decoder with nothing pending.
    pub fn new() -> Decoder
        ensures { result ≡ [] }
    {
        Decoder {
            pending: ArrayVec::new(),
        }
    }

    /// Returns a decoder with these bytes pending, if they begin a character that more bytes have to complete. Otherwise
    /// nothing is pending.
    pub fn of(bytes: &[u8]) -> Decoder
        ensures { result ≡ pending_of bytes.now }
    {
        if bytes.is_empty() {
            return Decoder::new();
        }
        if bytes.len() > 3 {
            return Decoder::new();
        }
        let (_, size) = decode(bytes);
        if !is_begun(bytes, size) {
            return Decoder::new();
        }
        let mut pending = ArrayVec::new();
        let _ = pending.try_extend_from_slice(bytes);
        Decoder { pending }
    }

    /// Returns a decoder with the same bytes pending.
    pub fn copied(&self) -> Decoder
        ensures { result ≡ self.now }
    {
        let mut pending = ArrayVec::new();
        let _ = pending.try_extend_from_slice(self.pending.as_slice());
        Decoder { pending }
    }

    /// Returns the pending bytes: at most three.
    pub fn pending(&self) -> &[u8]
        ensures value { result.now ≡ self.now }
        ensures few { length result.now ≤ 3 }
    {
        self.pending.as_slice()
    }

    /// Returns whether nothing is pending.
    #[inline(always)]
    pub fn is_empty(&self) -> bool
        ensures { result ≡ (length self.now == 0) }
    {
        self.pending.is_empty()
    }

    /// Returns U+FFFD if anything is pending.
    #[inline(always)]
    fn given_up(&self) -> Option<char>
        ensures value { option_to_list result ≡ given_up self.now }
        ensures lost { IfSome result (λ c. c ≡ replacement) }
    {
        if self.is_empty() {
            None
        } else {
            Some('\u{FFFD}')
        }
    }

    /// Reads a byte if nothing is pending, and returns the character that it is, if it is one. U+FFFD is in place of an
    /// ill-formed byte.
    #[inline(always)]
    fn push_first(&mut self, b: u8) -> Option<char>
        requires { self.old ≡ [] }
        ensures characters { option_to_list result ≡ (read_first b).characters }
        ensures pending { self.new ≡ (read_first b).pending }
    {
        if b < 0x80 {
            return Some(b as char);
        }
        if !begins_beyond(b) {
            return Some('\u{FFFD}');
        }
        self.pending.push(b);
        None
    }

    /// Drops what is pending.
    #[inline(always)]
    pub(crate) fn clear(&mut self)
        ensures { self.new ≡ [] }
    {
        self.pending.clear();
    }

    /// Returns whether one byte beyond ASCII is pending, and a byte can't continue it.
    #[inline(always)]
    pub(crate) fn is_cut_by(&self, b: u8) -> bool
        ensures { OnTrue result (IsCut self.now b) }
    {
        let pending = self.pending.as_slice();
        pending.len() == 1 && pending[0] >= 0x80 && !continues(b)
    }

    /// Reads a byte. Returns U+FFFD if what was pending is ill-formed, and the character that the byte completes, if it
    /// completes one. U+FFFD is in place of an ill-formed byte. Speed: a first byte, and one that cuts off a first byte, are
    /// read by fewer tests.
    #[inline(always)]
    pub fn push(&mut self, b: u8) -> (Option<char>, Option<char>)
        ensures characters { option_to_list result.0 ++ option_to_list result.1 ≡ (read self.old b).characters }
        ensures lost { IfSome result.0 (λ c. c ≡ replacement) }
        ensures pending { self.new ≡ (read self.old b).pending }
    {
        if self.is_empty() {
            return (None, self.push_first(b));
        }
        if self.is_cut_by(b) {
            self.pending.clear();
            return (Some('\u{FFFD}'), self.push_first(b));
        }
        self.push_after(b)
    }

    /// Reads a byte as `push` does, whatever is pending.
    #[inline(never)]
    fn push_after(&mut self, b: u8) -> (Option<char>, Option<char>)
        ensures characters { option_to_list result.0 ++ option_to_list result.1 ≡ (read self.old b).characters }
        ensures lost { IfSome result.0 (λ c. c ≡ replacement) }
        ensures pending { self.new ≡ (read self.old b).pending }
    {
        let lost = self.given_up();
        self.pending.push(b);
        let (found, size) = decode(self.pending.as_slice());
        if is_begun(self.pending.as_slice(), size) {
            return (None, None);
        }
        self.pending.clear();
        match found {
            Some(c) => (None, Some(c)),
            None => (lost, self.push_first(b)),
        }
    }
}
