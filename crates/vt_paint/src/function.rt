//! Control functions, each spelled once.
ghost use Rattle.std.specs.Prelude.{◌≡◌, ◌+◌, ◌≤◌, ◌<◌, ◌++◌, ◌∷◌, [], true, length, take, codes, vec_len, vec_capacity};
ghost use Rattle.vt_syntax.specs.Spelling.{spell_event};
ghost use Rattle.vt_paint.specs.Controls.{sequence_of, cursor_position, margins_to, clear_all_tabs, all_attributes};
ghost use Rattle.vt_paint.specs.Controls.{protection_to, set_tab, shift_to, reset_to_initial_state, soft_reset, save_cursor};
ghost use Rattle.vt_paint.specs.Controls.{designation_of, left_event, right_event, mode_event};
ghost use Rattle.vt_paint.specs.Named.{control_named, sequence_named, unless_one, no_protection, resets, newly_set};
ghost use Rattle.vt_paint.specs.Named.{rendition_change};
ghost use Rattle.vt_paint.specs.Spoken.{Control, Escape, Sequence, is_spoken, is_one_of, Speaks};
ghost use Rattle.vt_paint.specs.Private.Attributes.{attribute, attributes};

use crate::bytes::{push_bytes, put_front, put_number, put_part};
use crate::modes::{ALL_MODES, FRONTS, LENGTHS, last_of};
use std::marker::Model;
use vt_glyph::Set;
use vt_screen::Rendition;

/// The capacity for a function: more than the bytes of each.
pub const FUNCTION_LIMIT: usize = 16;

/// A control function in its 7-bit form. Contracts see its bytes, which are made of what `Spoken` names.
#[derive(Drop)]
pub struct Function {
    bytes: [u8; FUNCTION_LIMIT],
    len: usize,
}

impl Model for Function {
    ghost use Rattle.std.specs.Prelude.{◌≤◌, ℕ, List, take};
    ghost use Rattle.vt_paint.specs.Spoken.{Speaks};

    ghost Value = { List ℕ };

    ghost view = { λ f. take f.len f.bytes };

    ghost invariant = { λ f. (f.len ≤ 16) × Speaks (take f.len f.bytes) };
}

impl Function {
    // ---- what is done with a function

    /// Returns the bytes.
    #[inline(always)]
    pub fn bytes(&self) -> &[u8]
        ensures value { result.now ≡ self.now }
        ensures speaks { Speaks self.now }
        ensures short { length self.now ≤ FUNCTION_LIMIT }
    {
        &self.bytes[..self.len]
    }

    /// Appends the function. `out` has capacity for it.
    #[inline(always)]
    pub fn push(&self, out: &mut Vec<u8>)
        requires { vec_len out.old + length self.now ≤ vec_capacity out.old }
        ensures items { out.new.items ≡ out.old.items ++ self.now }
        ensures bounded { vec_len out.new ≤ vec_len out.old + length self.now }
        ensures capacity { vec_capacity out.old ≤ vec_capacity out.new }
    {
        push_bytes(self.bytes(), out);
    }

    /// Writes the function at a position. Returns the position after it. (Speed: the buffer has capacity for any function,
    /// and so it is copied whole.)
    #[inline(always)]
    pub fn put<const N: usize>(&self, at: usize, all: &mut [u8; N]) -> usize
        requires { at + FUNCTION_LIMIT ≤ N }
        ensures items { take result all.new ≡ take at all.old ++ self.now }
        ensures speaks { Speaks self.now }
        ensures next { result ≤ at + FUNCTION_LIMIT }
    {
        put_front(&self.bytes, self.len, at, all)
    }

    // ---- how a function is made

    /// Returns the function of three parts.
    #[inline(always)]
    fn of(front: &[u8], middle: &[u8], back: &[u8]) -> Function
        requires short { length front.now + (length middle.now + length back.now) ≤ FUNCTION_LIMIT }
        requires speaks { Speaks (front.now ++ (middle.now ++ back.now)) }
        ensures { result ≡ front.now ++ (middle.now ++ back.now) }
    {
        let mut bytes = [0; FUNCTION_LIMIT];
        let at = put_part(front, 0, &mut bytes);
        let at = put_part(middle, at, &mut bytes);
        let len = put_part(back, at, &mut bytes);
        Function { bytes, len }
    }

    /// Returns a control of one byte.
    #[inline(always)]
    fn control(code: u8) -> Function
        requires { is_spoken (Control code) ≡ true }
        ensures { result ≡ code ∷ [] }
    {
        Function::of(&[code], b"", b"")
    }

    /// Returns an escape sequence, given what follows ESC.
    #[inline(always)]
    fn escape(ending: &[u8]) -> Function
        requires short { length ending.now ≤ 4 }
        requires spoken { is_spoken (Escape ending.now) ≡ true }
        ensures { result ≡ 0x1B ∷ ending.now }
    {
        Function::of(b"\x1B", ending, b"")
    }

    /// Returns a control sequence, given its parameters and what ends it.
    #[inline(always)]
    fn sequence(parameters: &[u8], ending: &[u8]) -> Function
        requires parameters { length parameters.now ≤ 9 }
        requires ending { length ending.now ≤ 4 }
        requires spoken { is_spoken (Sequence parameters.now ending.now) ≡ true }
        ensures { result ≡ 0x1B ∷ 0x5B ∷ (parameters.now ++ ending.now) }
    {
        Function::of(b"\x1B[", parameters, ending)
    }

    /// Returns a control sequence of one number. The number is left out if it is 1.
    #[inline]
    fn numbered(n: u8, last: u8) -> Function
        requires { is_one_of (codes "CDHLMr") last ≡ true }
        ensures { result ≡ spell_event (sequence_of (unless_one n) last) }
    {
        if n == 1 {
            return Function::sequence(b"", &[last]);
        }
        let mut bytes = [0; FUNCTION_LIMIT];
        let at = put_part(b"\x1B[", 0, &mut bytes);
        let at = put_number(n, at, &mut bytes);
        let len = put_part(&[last], at, &mut bytes);
        Function { bytes, len }
    }

    /// Returns a control sequence of two numbers.
    #[inline]
    fn numbered_twice(n: u8, m: u8, last: u8) -> Function
        requires { is_one_of (codes "CDHLMr") last ≡ true }
        ensures value { result ≡ spell_event (sequence_of (n ∷ m ∷ []) last) }
        ensures short { n < 100 → length result ≤ 9 }
        ensures shorter { n < 100 → m < 100 → length result ≤ 8 }
        ensures shortest { n < 10 → length result ≤ 8 }
        ensures bounded { length result ≤ 10 }
    {
        let mut bytes = [0; FUNCTION_LIMIT];
        let at = put_part(b"\x1B[", 0, &mut bytes);
        let at = put_number(n, at, &mut bytes);
        let at = put_part(b";", at, &mut bytes);
        let at = put_number(m, at, &mut bytes);
        let len = put_part(&[last], at, &mut bytes);
        Function { bytes, len }
    }

    // ---- the cursor and the margins

    /// Returns CUP to a line and a column, with both numbers.
    #[inline(always)]
    pub fn cursor_to(line: u8, col: u8) -> Function
        ensures value { result ≡ spell_event (cursor_position line col) }
        ensures short { line < 100 → length result ≤ 9 }
        ensures shortest { line < 10 → length result ≤ 8 }
        ensures bounded { length result ≤ 10 }
    {
        Function::numbered_twice(line, col, b'H')
    }

    /// Returns CUP to column 1 of a line.
    #[inline(always)]
    #[tactic(auto, unfolding(crate::specs::Named::byte_named))]
    pub fn cursor_to_line(line: u8) -> Function
        ensures { result ≡ spell_event (sequence_named (unless_one line) (codes "CUP")) }
    {
        Function::numbered(line, b'H')
    }

    /// Returns CUF, which moves the cursor right by `columns`.
    #[inline(always)]
    #[tactic(auto, unfolding(crate::specs::Named::byte_named))]
    pub fn forward(columns: u8) -> Function
        ensures { result ≡ spell_event (sequence_named (unless_one columns) (codes "CUF")) }
    {
        Function::numbered(columns, b'C')
    }

    /// Returns CUB, which moves the cursor left by `columns`.
    #[inline(always)]
    #[tactic(auto, unfolding(crate::specs::Named::byte_named))]
    pub fn backward(columns: u8) -> Function
        ensures { result ≡ spell_event (sequence_named (unless_one columns) (codes "CUB")) }
    {
        Function::numbered(columns, b'D')
    }

    /// Returns BS, which moves the cursor left by one column.
    #[inline(always)]
    #[tactic(auto, unfolding(crate::specs::Named::byte_named))]
    pub fn backspace() -> Function
        ensures { result ≡ spell_event (control_named (codes "BS")) }
    {
        Function::control(0x08)
    }

    /// Returns LF, which moves the cursor down by one row, and under LNM to column 1.
    #[inline(always)]
    #[tactic(auto, unfolding(crate::specs::Named::byte_named))]
    pub fn line_feed() -> Function
        ensures { result ≡ spell_event (control_named (codes "LF")) }
    {
        Function::control(b'\n')
    }

    /// Returns CR, which moves the cursor to column 1.
    #[inline(always)]
    #[tactic(auto, unfolding(crate::specs::Named::byte_named))]
    pub fn carriage_return() -> Function
        ensures { result ≡ spell_event (control_named (codes "CR")) }
    {
        Function::control(b'\r')
    }

    /// Returns DECSTBM, which sets the margins, and moves the cursor home.
    #[inline(always)]
    pub fn margins_to(top: u8, bottom: u8) -> Function
        ensures value { result ≡ spell_event (margins_to top bottom) }
        ensures short { top < 100 → bottom < 100 → length result ≤ 8 }
        ensures bounded { length result ≤ 10 }
    {
        Function::numbered_twice(top, bottom, b'r')
    }

    /// Returns HTS, which sets a tab stop at the cursor's column.
    #[inline(always)]
    pub fn set_tab() -> Function
        ensures value { result ≡ spell_event set_tab }
        ensures short { length result ≤ 2 }
    {
        Function::escape(b"H")
    }

    /// Returns TBC that clears all tab stops.
    #[inline(always)]
    pub fn clear_all_tabs() -> Function
        ensures value { result ≡ spell_event clear_all_tabs }
        ensures short { length result ≤ 4 }
    {
        Function::sequence(b"3", b"g")
    }

    // ---- cells

    /// Returns IL, which inserts `lines` blank rows at the cursor's row.
    #[inline(always)]
    #[tactic(auto, unfolding(crate::specs::Named::byte_named))]
    pub fn insert_lines(lines: u8) -> Function
        ensures { result ≡ spell_event (sequence_named (unless_one lines) (codes "IL")) }
    {
        Function::numbered(lines, b'L')
    }

    /// Returns DL, which deletes `lines` rows starting at the cursor's row.
    #[inline(always)]
    #[tactic(auto, unfolding(crate::specs::Named::byte_named))]
    pub fn delete_lines(lines: u8) -> Function
        ensures { result ≡ spell_event (sequence_named (unless_one lines) (codes "DL")) }
    {
        Function::numbered(lines, b'M')
    }

    /// Returns ED from the cursor to the end of the screen.
    #[inline(always)]
    #[tactic(auto, unfolding(crate::specs::Named::byte_named))]
    pub fn erase_below() -> Function
        ensures { result ≡ spell_event (sequence_named [] (codes "ED")) }
    {
        Function::sequence(b"", b"J")
    }

    /// Returns EL from the cursor to the end of the row.
    #[inline(always)]
    #[tactic(auto, unfolding(crate::specs::Named::byte_named))]
    pub fn erase_right() -> Function
        ensures { result ≡ spell_event (sequence_named [] (codes "EL")) }
    {
        Function::sequence(b"", b"K")
    }

    // ---- attributes and protection

    /// Returns SGR that changes the attributes from `old` to `new`. It sets those that are new. If an attribute is
    /// reset, an empty parameter first resets all, and those of `new` are set again.
    #[inline]
    pub fn rendition_change(old: Rendition, new: Rendition) -> Function
        ensures { result ≡ rendition_change old new }
    {
        let reset = resets(old, new);
        let mut text = [0; 8];
        let at = put_attributes(newly_set(reset, old, new), &mut text);
        if reset {
            return Function::sequence(&text[..at], b"m");
        }
        if at == 0 {
            return Function::sequence(b"", b"m");
        }
        Function::sequence(&text[1..at], b"m")
    }

    /// Returns DECSCA, which sets or resets the protection of what is written next.
    #[inline(always)]
    pub fn protection(protected: bool) -> Function
        ensures value { result ≡ spell_event (protection_to protected) }
        ensures short { length result ≤ 5 }
    {
        if protected {
            Function::sequence(b"1", b"\"q")
        } else {
            Function::sequence(b"0", b"\"q")
        }
    }

    /// Returns DECSCA without protection, in its shortest form.
    #[inline(always)]
    #[tactic(auto, unfolding(crate::specs::Named::byte_named))]
    pub fn no_protection() -> Function
        ensures { result ≡ spell_event no_protection }
    {
        Function::sequence(b"", b"\"q")
    }

    /// Returns SGR of all four attributes, without 0.
    #[inline(always)]
    pub fn all_attributes() -> Function
        ensures value { result ≡ spell_event all_attributes }
        ensures short { length result ≤ 10 }
    {
        Function::sequence(b"1;4;5;7", b"m")
    }

    // ---- sets

    /// Returns SCS, which designates a set as G0 to G3: `slot` is 0 to 3.
    #[inline(always)]
    pub fn designation(slot: u8, set: Set) -> Function
        ensures value { result ≡ spell_event (designation_of slot set) }
        ensures short { length result ≤ 3 }
    {
        let inter = match slot {
            0 => b'(',
            1 => b')',
            2 => b'*',
            _ => b'+',
        };
        Function::escape(&[inter, set.last()])
    }

    /// Returns the locking shift of a slot into GL: LS0 to LS3, for 0 to 3.
    #[inline(always)]
    pub fn lock_left(slot: u8) -> Function
        ensures value { result ≡ spell_event (left_event slot) }
        ensures short { length result ≤ 2 }
    {
        match slot {
            0 => Function::control(0x0F),
            1 => Function::control(0x0E),
            2 => Function::escape(b"n"),
            _ => Function::escape(b"o"),
        }
    }

    /// Returns the locking shift of a slot into GR: LS1R to LS3R, for 1 to 3.
    #[inline(always)]
    pub fn lock_right(slot: u8) -> Function
        ensures value { result ≡ spell_event (right_event slot) }
        ensures short { length result ≤ 2 }
    {
        match slot {
            1 => Function::escape(b"~"),
            2 => Function::escape(b"}"),
            _ => Function::escape(b"|"),
        }
    }

    /// Returns the single shift to a slot: SS2 for 2, and SS3 for 3.
    #[inline(always)]
    pub fn single_shift(slot: u8) -> Function
        ensures value { result ≡ spell_event (shift_to slot) }
        ensures short { length result ≤ 2 }
    {
        Function::escape(if slot == 2 { b"N" } else { b"O" })
    }

    // ---- the whole state

    /// Returns RIS, which resets the terminal to its power-up state.
    #[inline(always)]
    pub fn reset() -> Function
        ensures value { result ≡ spell_event reset_to_initial_state }
        ensures short { length result ≤ 2 }
    {
        Function::escape(b"c")
    }

    /// Returns DECSTR, a soft reset.
    #[inline(always)]
    pub fn soft_reset() -> Function
        ensures value { result ≡ spell_event soft_reset }
        ensures short { length result ≤ 5 }
    {
        Function::sequence(b"0", b"!p")
    }

    /// Returns DECSC, which saves the cursor.
    #[inline(always)]
    pub fn save_cursor() -> Function
        ensures value { result ≡ spell_event save_cursor }
        ensures short { length result ≤ 2 }
    {
        Function::escape(b"7")
    }

    /// Returns the function that sets or resets a mode, by the mode's index in the table of modes.
    #[inline]
    pub fn mode(index: usize, on: bool) -> Function
        requires { index < ALL_MODES }
        ensures value { result ≡ spell_event (mode_event index on) }
        ensures short { length result ≤ 6 }
    {
        let front = &FRONTS[index][..LENGTHS[index]];
        Function::of(front, &[last_of(index, on)], b"")
    }
}

/// Returns whether an attribute is reset.
#[inline(always)]
fn resets(old: Rendition, new: Rendition) -> bool
    ensures { result ≡ resets old new }
{
    old.bold && !new.bold
        || old.underline && !new.underline
        || old.blink && !new.blink
        || old.reverse && !new.reverse
}

/// Returns the attributes to be set: after a reset all of them, otherwise those that are new.
#[inline(always)]
fn newly_set(reset: bool, old: Rendition, new: Rendition) -> Rendition
    ensures { result ≡ newly_set reset old new }
{
    Rendition {
        bold: new.bold && (reset || !old.bold),
        underline: new.underline && (reset || !old.underline),
        blink: new.blink && (reset || !old.blink),
        reverse: new.reverse && (reset || !old.reverse),
    }
}

/// Writes `;` and an attribute, if it is set. Returns the position after it.
#[inline(always)]
fn put_attribute(digit: u8, set: bool, at: usize, text: &mut [u8; 8]) -> usize
    requires { at ≤ 6 }
    ensures items { take result text.new ≡ take at text.old ++ attribute set digit }
    ensures bounded { result ≤ at + 2 }
{
    if !set {
        return at;
    }
    text[at] = b';';
    text[at + 1] = digit;
    at + 2
}

/// Writes each attribute that is set, after `;`. Returns the number of bytes.
#[inline(always)]
fn put_attributes(look: Rendition, text: &mut [u8; 8]) -> usize
    ensures items { take result text.new ≡ attributes look }
    ensures bounded { result ≤ 8 }
{
    let at = put_attribute(b'1', look.bold, 0, text);
    let at = put_attribute(b'4', look.underline, at, text);
    let at = put_attribute(b'5', look.blink, at, text);
    put_attribute(b'7', look.reverse, at, text)
}
