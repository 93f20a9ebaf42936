//! The items of a host's bytes, as far as a trace has to know them: how an item goes on, and what ends it. (ECMA-48 5.4, ECMA-35 13)

use crate::names::Terminal;
use crate::osc::Command;

pub(crate) const BEL: u8 = 0x07;

const CAN: u8 = 0x18;

const SUB: u8 = 0x1A;

const ESC: u8 = 0x1B;

const CSI: u8 = 0x9B;

const ST: u8 = 0x9C;

const OSC: u8 = 0x9D;

/// What is read of an item.
#[derive(Clone, Copy)]
pub(crate) enum Item {
    /// Nothing: the next byte begins an item.
    Nothing,
    /// A byte by itself. Its event may follow.
    Byte,
    /// ESC, without intermediates.
    Escape,
    /// ESC and intermediates.
    Designation,
    /// A control sequence without its final byte.
    Sequence,
    /// A sequence with its final byte. Its event may follow.
    Complete,
    /// An OSC string.
    Command(Command),
    /// Another string, by the C1 control that opens it.
    Text(u8),
}

impl Item {
    /// Returns the item that a byte begins. In UTF-8 no byte is a C1 control.
    pub(crate) fn begun_by(b: u8, is_utf8: bool) -> Item {
        if b == ESC {
            Item::Escape
        } else if is_utf8 {
            Item::Byte
        } else {
            Item::opened_by(b, Item::Byte)
        }
    }

    /// Returns the sequence or string that a C1 control opens, otherwise another item.
    fn opened_by(c1: u8, other: Item) -> Item {
        match c1 {
            CSI => Item::Sequence,
            OSC => Item::Command(Command::Number(0)),
            0x90 | 0x98 | 0x9E | 0x9F => Item::Text(c1),
            _ => other,
        }
    }

    /// Returns the item after a byte that goes on with it.
    pub(crate) fn after(self, b: u8) -> Item {
        match self {
            Item::Escape | Item::Designation if b < 0x20 || b == 0x7F => self,
            Item::Escape | Item::Designation if b < 0x30 => Item::Designation,
            Item::Escape if 0x40 <= b && b < 0x60 => Item::opened_by(
                b.wrapping_add(0x40),
                Item::Complete,
            ),
            Item::Escape | Item::Designation => Item::Complete,
            Item::Sequence if 0x40 <= b && b < 0x7F => Item::Complete,
            Item::Command(command) => Item::Command(command.after(b)),
            _ => self,
        }
    }

    /// Returns whether the event of the item may follow.
    pub(crate) fn is_complete(self) -> bool {
        matches!(self, Item::Byte | Item::Complete)
    }

    /// Returns whether it is a string.
    pub(crate) fn is_string(self) -> bool {
        matches!(self, Item::Command(_) | Item::Text(_))
    }

    /// Returns whether a byte ends the item, which it doesn't belong to.
    pub(crate) fn is_cut_by(self, b: u8) -> bool {
        match self {
            Item::Nothing => false,
            _ => b == ESC || b == SUB || b >= 0x80 && !self.is_string(),
        }
    }

    /// Returns whether a byte that belongs to the item ends it, and no event follows.
    pub(crate) fn is_ended_by(self, b: u8, is_utf8: bool) -> bool {
        match self {
            Item::Command(_) => b == CAN || b == BEL || b == ST && !is_utf8,
            Item::Text(_) => b == CAN || b == ST && !is_utf8,
            _ => b == CAN,
        }
    }

    /// Returns the name of the item, which has no event. `last` is the byte that ends it, unless that is the end of the input.
    pub(crate) fn name(self, terminal: Terminal, last: Option<u8>) -> &'static str {
        match self {
            Item::Escape | Item::Designation | Item::Sequence => "ignored cut sequence",
            Item::Complete => "ignored spoilt sequence",
            Item::Command(command) => title_name(terminal, command, last),
            Item::Text(0x90) => "ignored DCS string",
            Item::Text(0x98) => "ignored SOS string",
            Item::Text(0x9E) => "ignored PM string",
            Item::Text(_) => "ignored APC string",
            Item::Nothing | Item::Byte => "ignored",
        }
    }
}

/// Returns the name of an OSC string. It sets a title of an xterm, unless CAN, SUB or the end of the input ends it.
fn title_name(terminal: Terminal, command: Command, last: Option<u8>) -> &'static str {
    let is_sent = matches!(last, Some(b) if b != CAN && b != SUB);
    match (terminal, command.title_number()) {
        (Terminal::Xterm, Some(0)) if is_sent => "OSC 0",
        (Terminal::Xterm, Some(_)) if is_sent => "OSC 2",
        _ => "ignored OSC string",
    }
}
