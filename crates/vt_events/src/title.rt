//! The title of an xterm's window, and its bells.

use crate::items::BEL;
use crate::osc::Command;
use arrayvec::ArrayVec;
use vt_feed::{Machine, Observer};
use vt_syntax::EventKind;
use vt_utf8::Decoder;

/// The most bytes of a title. A longer one ends before the first character that would go beyond them. (this profile)
pub const TITLE_LIMIT: usize = 256;

/// What is read of a string that may set a title.
#[derive(Clone, Copy)]
enum Part {
    /// Nothing.
    Nothing,
    /// ESC. After an OSC string it may begin ST, which ends the string, whose command is kept.
    Escape(Option<Command>),
    /// An OSC string.
    Text(Command),
}

/// An observer of a feed in UTF-8, which keeps the title that a host set by OSC 0 or OSC 2, and counts bells. It is never full. (ctlseqs; docs/XTERM.md,
/// 'Title')
#[derive(Drop)]
pub struct Title {
    title: ArrayVec<u8, TITLE_LIMIT>,
    /// The title that is being read.
    next: ArrayVec<u8, TITLE_LIMIT>,
    /// The title that is being read has all bytes that it may have.
    is_full: bool,
    part: Part,
    /// The bytes of a character of the string that isn't complete.
    decoder: Decoder,
    bells: u64,
}

impl Title {
    /// Returns an empty title, which is none, and no bells.
    pub fn new() -> Title {
        Title {
            title: ArrayVec::new(),
            next: ArrayVec::new(),
            is_full: false,
            part: Part::Nothing,
            decoder: Decoder::new(),
            bells: 0,
        }
    }

    /// Returns the title, in UTF-8 without control characters: at most 256 bytes, and none if there is no title.
    pub fn title(&self) -> &[u8] {
        self.title.as_slice()
    }

    /// Returns how often the bell rang: BEL outside a string.
    pub fn bells(&self) -> u64 {
        self.bells
    }

    /// Reads a character of a string, or a byte outside.
    fn read(&mut self, c: char) {
        self.part = match self.part {
            Part::Text(command) => self.read_in_string(command, c),
            Part::Escape(command) if c == '\x1B' => Part::Escape(command),
            Part::Escape(command) => self.read_in_escape(command, c),
            Part::Nothing if c == '\x1B' => Part::Escape(None),
            Part::Nothing => Part::Nothing,
        };
    }

    /// Reads a character after ESC. Returns what is read then.
    fn read_in_escape(&mut self, command: Option<Command>, c: char) -> Part {
        match c {
            '\\' => {
                self.set(command);
                Part::Nothing
            }
            ']' => {
                self.next.clear();
                self.is_full = false;
                Part::Text(Command::Number(0))
            }
            '\x18' | '\x1A' => Part::Nothing,
            '\0'..='\x1F' | '\x7F' => Part::Escape(command),
            _ => Part::Nothing,
        }
    }

    /// Reads a character in an OSC string. Returns what is read then.
    fn read_in_string(&mut self, command: Command, c: char) -> Part {
        match c {
            '\x07' => {
                self.set(Some(command));
                Part::Nothing
            }
            '\x18' | '\x1A' => Part::Nothing,
            '\x1B' => Part::Escape(Some(command)),
            _ => {
                if let Command::Title(_) = command {
                    self.add(c);
                }
                Part::Text(command.after(if c.is_ascii() { c as u8 } else { 0x80 }))
            }
        }
    }

    /// Adds a character to the title that is being read. A control is `?`.
    fn add(&mut self, c: char) {
        let mut buffer = [0; 4];
        let is_control = matches!(c, '\0'..='\x1F' | '\x7F'..='\u{9F}');
        let shown = if is_control { '?' } else { c };
        let bytes = shown.encode_utf8(&mut buffer).as_bytes();
        if self.is_full || self.next.try_extend_from_slice(bytes).is_err() {
            self.is_full = true;
        }
    }

    /// Sets the title that was read, if the command of its string sets one.
    fn set(&mut self, command: Option<Command>) {
        let Some(command) = command else {
            return;
        };
        if command.title_number().is_some() {
            self.title.clear();
            let _ = self.title.try_extend_from_slice(self.next.as_slice());
        }
    }
}

impl<M: Machine> Observer<M> for Title {
    ghost use Rattle.std.specs.Prelude.{⊤};
    ghost use Rattle.vt_feed.specs.Observers.{nobody_joined};

    ghost Saw = { λ o hs p. ⊤ };

    ghost HasRoom = { λ o n. ⊤ };

    ghost Fits = { λ o s n. ⊤ };

    ghost Full = { λ o. ⊥ };

    ghost joined = { nobody_joined };

    fn is_full(&self) -> bool {
        false
    }

    fn bytes(&mut self, bytes: &[u8]) {
        for b in bytes {
            if !matches!(self.part, Part::Text(_)) {
                self.read(*b as char);
                continue;
            }
            let (lost, whole) = self.decoder.push(*b);
            if let Some(c) = lost {
                self.read(c);
            }
            if let Some(c) = whole {
                self.read(c);
            }
        }
    }

    fn event(&mut self, _: &M, kind: EventKind, _: &[u16]) {
        if kind == EventKind::Control(BEL) {
            self.bells = self.bells.saturating_add(1);
        }
    }

    fn character(&mut self, _: &M, _: char) {}

    fn limit(&self, _: &M) -> usize {
        usize::MAX
    }

    fn run(&mut self, _: &M, _: &[u8]) {}
}
