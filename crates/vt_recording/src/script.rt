//! A recording by script(1).
ghost use Rattle.std.specs.Prelude.{◌≡◌, ◌<◌, length, cond, IfNone, IfSome, None, Some};
ghost use Rattle.vt_recording.specs.Script.{begins_with, first_words, first_line, line_feed, own_line, is_last_place, behind_line};
ghost use Rattle.vt_recording.specs.Script.{is_joint, is_end, EndsAt, IsSession};

use crate::lines::front_line;
use memchr::memchr;

/// The beginning of a first line.
pub(crate) const FIRST_WORDS: &[u8] = b"Script started on ";

/// The beginning of a last line, with the LF before it.
const LAST_WORDS: &[u8] = b"\nScript done on ";

/// Returns the index of the first LF.
pub(crate) fn line_feed(bytes: &[u8]) -> Option<usize>
    ensures value { result ≡ line_feed bytes.now }
    ensures within { IfSome result (λ at. at < length bytes.now) }
{
    memchr(b'\n', bytes)
}

/// Returns the index of the LF that ends the first line, if the bytes begin with such a line.
fn first_line(bytes: &[u8]) -> Option<usize>
    ensures value { result ≡ first_line bytes.now }
    ensures within { IfSome result (λ at. at < length bytes.now) }
{
    if bytes.starts_with(FIRST_WORDS) {
        line_feed(bytes)
    } else {
        None
    }
}

/// Returns the index of the LF that ends the first of these lines, if script wrote it. A line that a terminal showed ends with
/// CR LF.
fn own_line(bytes: &[u8]) -> Option<usize>
    ensures value { result ≡ own_line bytes.now }
    ensures within { IfSome result (λ at. at < length bytes.now) }
{
    if front_line(bytes).ends_with(b"\r") {
        None
    } else {
        line_feed(bytes)
    }
}

/// Returns whether there is exactly one line, and script wrote it.
fn is_line(bytes: &[u8]) -> bool
    ensures { result ≡ is_last_place (own_line bytes.now) (length bytes.now) }
{
    match own_line(bytes) {
        Some(at) => at + 1 == bytes.len(),
        None => false,
    }
}

/// Returns whether a line of script begins these bytes, and the words of a first line follow it.
fn goes_on(bytes: &[u8]) -> bool
    ensures { result ≡ begins_with first_words (behind_line (own_line bytes.now) bytes.now) }
{
    match own_line(bytes) {
        Some(at) => bytes[at + 1..].starts_with(FIRST_WORDS),
        None => false,
    }
}

/// Returns whether `script -a` appended a session here: an LF and a last line, and a first line directly after it.
fn is_joint(bytes: &[u8]) -> bool
    ensures { result ≡ is_joint bytes.now }
{
    bytes.starts_with(LAST_WORDS) && goes_on(&bytes[1..])
}

/// Returns whether the content ends here: with the last line, or at an appended session.
fn is_end(bytes: &[u8]) -> bool
    ensures { result ≡ is_end bytes.now }
{
    bytes.starts_with(LAST_WORDS) && (is_line(&bytes[1..]) || goes_on(&bytes[1..]))
}

/// Returns the index at which the content ends, in the bytes after the first line.
fn end_of(body: &[u8]) -> usize
    ensures { EndsAt body.now result }
{
    let mut at = 0;
    while at < body.len() {
        if is_end(&body[at..]) {
            return at;
        }
        at += 1;
    }
    at
}

/// A session: what is between the first line and the last one.
#[derive(Clone, Copy)]
pub(crate) struct Session<'a> {
    /// The output.
    pub(crate) output: &'a [u8],
    /// The offset of its end in the recording.
    pub(crate) stop: usize,
    /// The same offset, if `script -a` appended another session there.
    pub(crate) joint: Option<usize>,
}

/// Returns an offset if `script -a` appended a session to what comes before `rest`.
fn joint_at(rest: &[u8], at: usize) -> Option<usize>
    ensures { result ≡ cond (is_joint rest.now) (Some at) None }
{
    if is_joint(rest) { Some(at) } else { None }
}

/// Returns the first session, if there is a first line.
pub(crate) fn session_in(bytes: &[u8]) -> Option<Session<'_>>
    ensures some { IfSome result (IsSession bytes.now) }
    ensures none { IfNone result (first_line bytes.now ≡ None) }
{
    let line = first_line(bytes)?;
    let body = &bytes[line + 1..];
    let end = end_of(body);
    let stop = line + 1 + end;
    Some(Session {
        output: &body[..end],
        stop,
        joint: joint_at(&body[end..], stop),
    })
}
