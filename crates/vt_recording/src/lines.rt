//! The lines of a text.
ghost use Rattle.std.specs.Prelude.{◌≡◌, ◌≤◌, take, drop, false, length, true, MatchOption};
ghost use Rattle.vt_recording.specs.Lines.{front_line};
ghost use Rattle.vt_recording.specs.Script.{begins_with};

use crate::script::line_feed;

/// Returns the first line, without its LF.
pub(crate) fn front_line(bytes: &[u8]) -> &[u8]
    ensures line { result.now ≡ front_line bytes.now }
    ensures within { length result.now ≤ length bytes.now }
{
    match line_feed(bytes) {
        Some(at) => &bytes[..at],
        None => bytes,
    }
}

/// Returns what follows these words, if the bytes begin with them.
pub(crate) fn stripped<'a>(words: &[u8], bytes: &'a [u8]) -> Option<&'a [u8]>
    ensures { MatchOption result (begins_with words.now bytes.entry.now ≡ false)
        (λ rest. (begins_with words.now bytes.entry.now ≡ true) × (rest.now ≡ drop (length words.now) bytes.entry.now)) }
{
    if bytes.starts_with(words) {
        Some(&bytes[words.len()..])
    } else {
        None
    }
}

/// Returns the first `count` bytes, of which there may be fewer.
pub(crate) fn front(count: usize, bytes: &[u8]) -> &[u8]
    ensures { result.now ≡ take count bytes.now }
{
    if count < bytes.len() {
        &bytes[..count]
    } else {
        bytes
    }
}

/// Returns the bytes after the first `count`, of which there may be fewer.
pub(crate) fn behind(count: usize, bytes: &[u8]) -> &[u8]
    ensures { result.now ≡ drop count bytes.now }
{
    &bytes[bytes.len().min(count)..]
}
