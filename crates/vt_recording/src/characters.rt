//! The bytes of characters.
ghost use Rattle.std.specs.Prelude.{◌≡◌, ◌≤◌, ◌++◌, ◌∷◌, [], ℕ, List, length, true, false, IfOk, OnOk, chars};
ghost use Rattle.vt_recording.specs.Characters.{byte_of, AreWritten};
ghost use Rattle.vt_recording.specs.Taken.{spoken};

use crate::asciicast::text_in;
use crate::lines::front;
use std::alloc::{AllocError, Global};
use vt_glyph::Set;

/// The byte for a character that has none.
const SUB: u8 = 0x1A;

/// The character that undefined places of a set show.
const SUBSTITUTE: char = '␦';

/// Returns the byte that a character has in ASCII or DEC's supplemental set, if it has one.
fn byte_of(c: char) -> Option<u8>
    ensures { result ≡ byte_of c }
{
    if c.is_ascii() {
        return Some(c as u8);
    }
    if c == SUBSTITUTE {
        return None;
    }
    let mut code = 0x21u8;
    while code < 0x7F {
        if Set::Supplemental.glyph(code).to_char() == c {
            return Some(code + 0x80);
        }
        code += 1;
    }
    None
}

/// The content so far.
#[derive(Drop)]
pub(crate) struct Written {
    /// The bytes.
    pub(crate) bytes: Vec<u8>,
    /// The number of characters that have no byte.
    pub(crate) replaced: u64,
}

impl Written {
    /// Returns no bytes, with the capacity for so many. Returns `Err` if allocation fails.
    pub(crate) fn with_capacity(alloc: Global, capacity: usize) -> Result<Written, AllocError>
        ensures bytes { IfOk result (λ w. w.bytes.items ≡ []) }
        ensures replaced { IfOk result (λ w. w.replaced ≡ 0) }
    {
        Ok(Written {
            bytes: Vec::with_capacity(alloc, capacity)?,
            replaced: 0,
        })
    }

    /// Appends the byte of a character, if there are fewer than `most`.
    fn push(&mut self, most: usize, c: char) -> Result<(), AllocError>
        requires { self.old.replaced ≤ length self.old.bytes.items }
        ensures bound { self.new.replaced ≤ length self.new.bytes.items }
        ensures written { OnOk result ((front : List ℕ)
            → AreWritten true most front self.old.bytes.items self.old.replaced
            → AreWritten true most (front ++ c ∷ []) self.new.bytes.items self.new.replaced) }
    {
        if most <= self.bytes.len() {
            return Ok(());
        }
        match byte_of(c) {
            Some(byte) => self.bytes.push(byte)?,
            None => {
                self.bytes.push(SUB)?;
                self.replaced += 1;
            }
        }
        Ok(())
    }

    /// Appends the bytes of a text's characters, up to `most`.
    fn push_characters(&mut self, most: usize, text: &str) -> Result<(), AllocError>
        requires { self.old.replaced ≤ length self.old.bytes.items }
        ensures bound { self.new.replaced ≤ length self.new.bytes.items }
        ensures written { OnOk result ((front : List ℕ)
            → AreWritten true most front self.old.bytes.items self.old.replaced
            → AreWritten true most (front ++ chars text.now) self.new.bytes.items self.new.replaced) }
    {
        for c in text.chars() {
            self.push(most, c)?;
        }
        Ok(())
    }

    /// Appends bytes, up to `most`.
    fn push_bytes(&mut self, most: usize, text: &[u8]) -> Result<(), AllocError>
        ensures replaced { self.new.replaced ≡ self.old.replaced }
        ensures longer { length self.old.bytes.items ≤ length self.new.bytes.items }
        ensures written { OnOk result ((front : List ℕ)
            → AreWritten false most front self.old.bytes.items self.old.replaced
            → AreWritten false most (front ++ text.now) self.new.bytes.items self.new.replaced) }
    {
        let room = most.saturating_sub(self.bytes.len());
        let wanted = front(room, text);
        self.bytes.extend_from_slice(wanted)?;
        Ok(())
    }

    /// Appends a text up to `most` bytes: those of its characters, or its own.
    pub(crate) fn push_text(
        &mut self,
        characters: bool,
        most: usize,
        text: &[u8],
    ) -> Result<(), AllocError>
        requires { self.old.replaced ≤ length self.old.bytes.items }
        ensures bound { OnOk result (self.new.replaced ≤ length self.new.bytes.items) }
        ensures written { OnOk result ((front : List ℕ)
            → AreWritten characters most front self.old.bytes.items self.old.replaced
            → AreWritten characters most (front ++ spoken characters text.now) self.new.bytes.items self.new.replaced) }
    {
        if !characters {
            return self.push_bytes(most, text);
        }
        match text_in(text) {
            Some(text) => self.push_characters(most, text),
            None => Ok(()),
        }
    }
}
