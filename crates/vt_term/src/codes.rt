//! The controls that the terminal carries out, and other codes, by their names (ECMA-48, ECMA-35, EK-VT220-RM).

/// Backspace.
pub(crate) const BS: u8 = 0x08;
/// Horizontal tab.
pub(crate) const HT: u8 = 0x09;
/// Line feed.
pub(crate) const LF: u8 = 0x0A;
/// Vertical tab.
pub(crate) const VT: u8 = 0x0B;
/// Form feed.
pub(crate) const FF: u8 = 0x0C;
/// Carriage return.
pub(crate) const CR: u8 = 0x0D;
/// Locking shift 1.
pub(crate) const SO: u8 = 0x0E;
/// Locking shift 0.
pub(crate) const SI: u8 = 0x0F;
/// Substitute.
pub(crate) const SUB: u8 = 0x1A;
/// Index.
pub(crate) const IND: u8 = 0x84;
/// Next line.
pub(crate) const NEL: u8 = 0x85;
/// Horizontal tabulation set.
pub(crate) const HTS: u8 = 0x88;
/// Reverse index.
pub(crate) const RI: u8 = 0x8D;
/// Single shift 2.
pub(crate) const SS2: u8 = 0x8E;
/// Single shift 3.
pub(crate) const SS3: u8 = 0x8F;
/// Identify terminal.
pub(crate) const DECID: u8 = 0x9A;
/// Control sequence introducer.
pub(crate) const CSI: u8 = 0x9B;

/// The number of codes in each half of the code table.
pub(crate) const HALF: u8 = 0x80;
/// The first code of the right graphic area.
pub(crate) const RIGHT: u8 = 0xA0;
