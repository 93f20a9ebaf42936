//! A recording by asciinema.
ghost use Rattle.std.specs.Prelude.{◌≡◌, ◌≤◌, length, true, false, IfOk, option_map, MatchOption};
ghost use Rattle.json.specs.Value.{value_view, items_view};
ghost use Rattle.json.specs.Reads.{token_of};
ghost use Rattle.vt_recording.specs.Asciicast.{trimmed, without_mark, json_text, version_of, document_in, version_in, event_of, event_in, is_silent, clock_after};
ghost use Rattle.vt_recording.specs.Asciicast.{begins_array, ends_array, number_in, string_in, event_from, is_text, frame_of, names_one, items_in, frames_of};
ghost use Rattle.vt_recording.specs.Events.{event_view};

use crate::seconds::{micros_of_number, risen};
use json::{Error, Reader, Scratch, Token, Value};
use std::alloc::{AllocError, Global};

/// UTF-8's byte order mark.
const BYTE_ORDER_MARK: &[u8] = b"\xEF\xBB\xBF";

/// Returns the text without the white space at its front.
pub(crate) fn trimmed(text: &[u8]) -> &[u8]
    ensures { result.now ≡ trimmed text.now }
{
    text.trim_ascii_start()
}

/// Returns the bytes after a byte order mark, if they begin with one.
fn without_mark(bytes: &[u8]) -> &[u8]
    ensures { result.now ≡ without_mark bytes.now }
{
    if bytes.starts_with(BYTE_ORDER_MARK) {
        &bytes[BYTE_ORDER_MARK.len()..]
    } else {
        bytes
    }
}

/// Returns what follows a byte order mark of UTF-8 and white space, if there are any: the JSON text of a recording by asciinema.
pub fn json_text(bytes: &[u8]) -> &[u8]
    ensures text { result.now ≡ json_text bytes.now }
    ensures within { length result.now ≤ length bytes.now }
{
    trimmed(without_mark(bytes))
}

/// An event of a recording.
#[derive(Drop)]
pub(crate) struct Event<'a> {
    /// The number with which the event begins, in microseconds.
    pub(crate) micros: u64,
    /// The code: `o` for output.
    pub(crate) code: &'a str,
    /// The text of the event.
    pub(crate) text: &'a str,
}

/// Returns the version that an object names, if it is 2 or 3.
pub(crate) fn version_of(object: &Value<'_>) -> Option<u64>
    ensures { result ≡ version_of (value_view object.now) }
{
    match object.get("version")?.as_number()? {
        "2" => Some(2),
        "3" => Some(3),
        _ => None,
    }
}

/// Returns a line as text, if it is UTF-8.
pub(crate) fn text_in(line: &[u8]) -> Option<&str>
    ensures { MatchOption result (is_text line.now ≡ false) (λ s. (is_text line.now ≡ true) × (s.now ≡ line.now)) }
{
    let Ok(text) = std::str::from_utf8(line) else {
        return None;
    };
    Some(text)
}

/// Returns the JSON text that a line is, if it is one.
pub(crate) fn document_in<'a>(
    alloc: Global,
    line: &'a [u8],
    scratch: &'a mut Scratch,
) -> Result<Option<Value<'a>>, AllocError>
    ensures { IfOk result (λ document. option_map (λ v. value_view v) document ≡ document_in line.entry.now) }
{
    let Ok(text) = std::str::from_utf8(line) else {
        return Ok(None);
    };
    match Value::parse(alloc, text, scratch) {
        Ok(document) => Ok(Some(document)),
        Err(Error::Invalid) => Ok(None),
        Err(_) => Err(AllocError),
    }
}

/// Returns the version in a line, if it is the first line of a recording.
pub(crate) fn version_in(
    alloc: Global,
    line: &[u8],
    scratch: &mut Scratch,
) -> Result<Option<u64>, AllocError>
    ensures { IfOk result (λ version. version ≡ version_in line.now) }
{
    match document_in(alloc, line, scratch) {
        Ok(Some(object)) => Ok(version_of(&object)),
        Ok(None) => Ok(None),
        Err(AllocError) => Err(AllocError),
    }
}

/// Returns whether an array begins.
fn begins_array(token: &Token<'_>) -> bool
    ensures { result ≡ begins_array (token_of token.now) }
{
    matches!(token, Token::BeginArray)
}

/// Returns whether an array ends.
fn ends_array(token: &Token<'_>) -> bool
    ensures { result ≡ ends_array (token_of token.now) }
{
    matches!(token, Token::EndArray)
}

/// Returns the text of a number.
fn number_in<'a>(token: Token<'a>) -> Option<&'a str>
    ensures { option_map (λ s. s.now) result ≡ number_in (token_of token.entry) }
{
    match token {
        Token::Number(text) => Some(text),
        _ => None,
    }
}

/// Returns a string.
fn string_in<'a>(token: Token<'a>) -> Option<&'a str>
    ensures { option_map (λ s. s.now) result ≡ string_in (token_of token.entry) }
{
    match token {
        Token::String(text) => Some(text),
        _ => None,
    }
}

/// Returns the event of a number and two strings.
fn event_from<'a>(time: Token<'a>, code: Token<'a>, text: Token<'a>) -> Option<Event<'a>>
    ensures { option_map event_view result
        ≡ event_from (number_in (token_of time.entry)) (string_in (token_of code.entry)) (string_in (token_of text.entry)) }
{
    let micros = micros_of_number(number_in(time)?.as_bytes())?;
    let code = string_in(code)?;
    let text = string_in(text)?;
    Some(Event { micros, code, text })
}

/// Returns the event that the tokens are, if they are one.
fn event_of<'a>(reader: &mut Reader<'a>) -> Option<Event<'a>>
    ensures { option_map event_view result ≡ event_of reader.old }
{
    let begin = reader.next()?;
    let time = reader.next()?;
    let code = reader.next()?;
    let text = reader.next()?;
    let end = reader.next()?;
    if reader.next().is_some() || !begins_array(&begin) || !ends_array(&end) {
        return None;
    }
    event_from(time, code, text)
}

/// Returns the event in a line, if there is one.
pub(crate) fn event_in<'a>(
    line: &'a [u8],
    scratch: &'a mut Scratch,
) -> Result<Option<Event<'a>>, AllocError>
    ensures { IfOk result (λ event. option_map event_view event ≡ event_in line.entry.now) }
{
    let Ok(text) = std::str::from_utf8(line) else {
        return Ok(None);
    };
    match Reader::new(text, scratch) {
        Ok(mut reader) => Ok(event_of(&mut reader)),
        Err(AllocError) => Err(AllocError),
    }
}

/// Returns the event of a frame of version 1, which is output.
pub(crate) fn frame_of<'a>(value: &Value<'a>) -> Option<Event<'a>>
    ensures { option_map event_view result ≡ frame_of (value_view value.now) }
{
    if value.at(2).is_some() {
        return None;
    }
    let micros = micros_of_number(value.at(0)?.as_number()?.as_bytes())?;
    let text = value.at(1)?.as_str()?;
    Some(Event {
        micros,
        code: "o",
        text,
    })
}

/// Returns whether an object names version 1.
pub(crate) fn names_one(object: &Value<'_>) -> bool
    ensures { result ≡ names_one (value_view object.now) }
{
    match object.get("version") {
        Some(version) => version.as_number() == Some("1"),
        None => false,
    }
}

/// Returns the items of an array.
fn items_in<'v, 'a>(value: &'v Value<'a>) -> Option<&'v [Value<'a>]>
    ensures { option_map (λ v. items_view v.now) result ≡ items_in (value_view value.now) }
{
    match value {
        Value::Array(items) => Some(items),
        _ => None,
    }
}

/// Returns the frames of an object of version 1.
pub(crate) fn frames_of<'v, 'a>(object: &'v Value<'a>) -> Option<&'v [Value<'a>]>
    ensures { option_map (λ v. items_view v.now) result ≡ frames_of (value_view object.now) }
{
    if names_one(object) {
        items_in(object.get("stdout")?)
    } else {
        None
    }
}

/// Returns whether a line has no event: it is empty, or a comment of version 3.
pub(crate) fn is_silent(version: u64, line: &[u8]) -> bool
    ensures { result ≡ is_silent version line.now }
{
    line.is_empty() || (version == 3 && line.starts_with(b"#"))
}

/// Returns the time of an event after one of the time `clock`. Its number counts from that in versions 1 and 3.
pub(crate) fn clock_after(version: u64, clock: u64, micros: u64) -> u64
    ensures { result ≡ clock_after version clock micros }
{
    if version == 2 {
        risen(clock, micros)
    } else {
        clock.saturating_add(micros)
    }
}
