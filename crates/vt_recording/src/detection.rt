//! The format that the beginning of a file shows, and the encoding that content shows.
ghost use Rattle.std.specs.Prelude.{◌≡◌, ◌≤◌, length, nat_lt, option_map, true};
ghost use Rattle.std.specs.List.{list_all};
ghost use Rattle.vt_recording.specs.Detection.{after, is_version, begins_version, has_version};
ghost use Rattle.vt_recording.specs.Detection.{is_asciicast, is_header, goes_on, is_ttyrec, is_bzip2, detected, shows_utf8};

use crate::asciicast::{json_text, trimmed};
use crate::format::Format;
use crate::lines::{behind, front_line, stripped};
use crate::script::FIRST_WORDS;
use crate::ttyrec::{HEADER, number_at, time_of};

/// The most bytes of a ttyrec's frame: a frame is what one read of the terminal gave.
const LONGEST_FRAME: usize = 0x1_0000;

/// The number of first bytes that suffices for [`detect`]: a ttyrec's longest frame, with its header and the next.
pub const DETECTION_LENGTH: usize = HEADER + LONGEST_FRAME + HEADER;

/// The format of a compressed file.
#[derive(Clone, Copy, Debug, PartialEq, Eq)]
pub enum Compression {
    /// The format of gzip.
    Gzip,
    /// The format of zstd.
    Zstd,
    /// The format of xz.
    Xz,
    /// The format of bzip2.
    Bzip2,
}

/// The kind of file that [`detect`] found.
#[derive(Clone, Copy, Debug, PartialEq, Eq)]
pub enum Detected {
    /// A recording. It is raw if nothing else was found.
    Recording(Format),
    /// A compressed file.
    Compressed(Compression),
}

/// Returns the text after a token and white space, if it begins with the token.
fn after<'a>(token: &[u8], text: &'a [u8]) -> Option<&'a [u8]>
    ensures { option_map (λ s. s.now) result ≡ after token.now text.entry.now }
{
    Some(trimmed(stripped(token, text)?))
}

/// Returns whether a value is there, a number that begins with 1, 2 or 3.
fn is_version(value: Option<&[u8]>) -> bool
    ensures { result ≡ is_version (option_map (λ s. s.now) value.entry) }
{
    match value {
        Some(value) => match value.first() {
            Some(digit) => b'1' <= *digit && *digit <= b'3',
            None => false,
        },
        None => false,
    }
}

/// Returns whether a text begins with the member `"version"` of an object.
fn begins_version(text: &[u8]) -> bool
    ensures { result ≡ begins_version text.now }
{
    match after(b"\"version\"", text) {
        Some(rest) => is_version(after(b":", rest)),
        None => false,
    }
}

/// Returns whether a text has the member `"version"` of an object.
#[tactic(auto, unfolding(crate::specs::Detection::has_version))]
fn has_version(text: &[u8]) -> bool
    ensures { result ≡ has_version text.now }
{
    let mut at = 0;
    while at < text.len() {
        if begins_version(&text[at..]) {
            return true;
        }
        at += 1;
    }
    false
}

/// Returns whether the bytes begin an object that names its version on the line of its first member.
fn is_asciicast(bytes: &[u8]) -> bool
    ensures { result ≡ is_asciicast bytes.now }
{
    match after(b"{", json_text(bytes)) {
        Some(members) => has_version(front_line(members)),
        None => false,
    }
}

/// Returns whether the bytes begin with a possible header of a ttyrec's frame.
fn is_header(bytes: &[u8]) -> bool
    ensures value { result ≡ is_header bytes.now }
    ensures whole { result ≡ true → 12 ≤ length bytes.now }
{
    HEADER <= bytes.len()
        && number_at(4, bytes) < 1_000_000
        && number_at(8, bytes) <= LONGEST_FRAME as u64
}

/// Returns whether a frame's bytes go on with another one, or end before its header does.
fn goes_on(bytes: &[u8], rest: &[u8]) -> bool
    requires { 12 ≤ length bytes.now }
    ensures { result ≡ goes_on bytes.now rest.now }
{
    rest.len() < HEADER || (is_header(rest) && time_of(bytes) <= time_of(rest))
}

/// Returns whether the bytes begin with a frame of a ttyrec, and go on with another one if they don't end before that.
fn is_ttyrec(bytes: &[u8]) -> bool
    ensures { result ≡ is_ttyrec bytes.now }
{
    if !is_header(bytes) {
        return false;
    }
    let size = number_at(8, bytes) as usize;
    1 <= size && goes_on(bytes, behind(HEADER + size, bytes))
}

/// Returns whether the bytes begin a file by bzip2.
fn is_bzip2(bytes: &[u8]) -> bool
    ensures { result ≡ is_bzip2 bytes.now }
{
    bytes.starts_with(b"BZh") && behind(4, bytes).starts_with(b"1AY&SY")
}

/// Returns the format that the first bytes of a file show, however many they are. Bytes that show no other format are raw.
///
/// [`DETECTION_LENGTH`] bytes suffice, except for an asciicast whose `"version"` comes later in its first line.
///
/// - script: `Script started on `
/// - asciicast: an object with the member `"version"` on the line of its first member, whose value begins with 1, 2 or 3. White
///   space and a byte order mark may come before it
/// - gzip, zstd, xz and bzip2: the fixed bytes at the beginning of each
/// - ttyrec: a header with less than 1,000,000 microseconds and a frame of 1 to 65,536 bytes. If 12 bytes or more follow the
///   frame, they are a header with less than 1,000,000 microseconds, a frame of at most 65,536 bytes, and no earlier time
pub fn detect(beginning: &[u8]) -> Detected
    ensures { result ≡ detected beginning.now }
{
    if beginning.starts_with(FIRST_WORDS) {
        return Detected::Recording(Format::Script);
    }
    if is_asciicast(beginning) {
        return Detected::Recording(Format::Asciicast);
    }
    if beginning.starts_with(b"\x1F\x8B") {
        return Detected::Compressed(Compression::Gzip);
    }
    if beginning.starts_with(b"\x28\xB5\x2F\xFD") {
        return Detected::Compressed(Compression::Zstd);
    }
    if beginning.starts_with(b"\xFD7zXZ\0") {
        return Detected::Compressed(Compression::Xz);
    }
    if is_bzip2(beginning) {
        return Detected::Compressed(Compression::Bzip2);
    }
    if is_ttyrec(beginning) {
        return Detected::Recording(Format::Ttyrec);
    }
    Detected::Recording(Format::Raw)
}

/// Returns whether no byte is beyond ASCII.
fn is_ascii(bytes: &[u8]) -> bool
    ensures { result ≡ list_all (λ b. nat_lt b 0x80) bytes.now }
{
    bytes.iter().all(|b| *b < 0x80)
}

/// Returns whether content is UTF-8 with a character beyond ASCII. The last character may be cut.
pub fn shows_utf8(content: &[u8]) -> bool
    ensures { result ≡ shows_utf8 content.now }
{
    match std::str::from_utf8(content) {
        Ok(_) => !is_ascii(content),
        Err(error) => { error.error_len().is_none() && !is_ascii(&content[..error.valid_up_to()]) }
    }
}
