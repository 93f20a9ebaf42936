//! The facts that the first line of a recording names of the terminal that it was made on.
ghost use Rattle.std.specs.Prelude.{◌≡◌, ◌<◌, IfOk, IfSome, length, option_map};
ghost use Rattle.json.specs.Value.{value_view};
ghost use Rattle.vt_recording.specs.Asciicast.{document_in};
ghost use Rattle.vt_recording.specs.Heading.{begins_with_digit, is_vt, terminal_of, count_of, inner, text_of, number_of, by_term};
ghost use Rattle.vt_recording.specs.Heading.{by_env, in_header, in_document, header_in, after_last, quote_in, up_to_quote, fact, in_line, heading_of};

use crate::asciicast::{document_in, json_text, names_one, version_of};
use crate::format::{Format, TerminalType};
use crate::lines::{front_line, stripped};
use crate::script::FIRST_WORDS;
use crate::seconds::number;
use json::{Scratch, Value};
use std::alloc::{AllocError, Global};

/// The facts that the first line of a recording names of the terminal that it was made on.
#[derive(Clone, Copy, Debug, PartialEq, Eq)]
pub struct Heading {
    /// The terminal, by its TERM.
    pub terminal: Option<TerminalType>,
    /// The number of its columns.
    pub columns: Option<u32>,
    /// The number of its rows.
    pub rows: Option<u32>,
}

/// The heading that names nothing.
const NOTHING: Heading = Heading {
    terminal: None,
    columns: None,
    rows: None,
};

/// Returns whether a text begins with a digit.
fn begins_with_digit(text: &[u8]) -> bool
    ensures { result ≡ begins_with_digit text.now }
{
    match text.first() {
        Some(byte) => byte.is_ascii_digit(),
        None => false,
    }
}

/// Returns whether a name is that of a VT220 or of a terminal like it.
fn is_vt(name: &[u8]) -> bool
    ensures { result ≡ is_vt name.now }
{
    match stripped(b"vt", name) {
        Some(rest) => begins_with_digit(rest),
        None => false,
    }
}

/// Returns the terminal of a TERM, if there is one.
fn terminal_of(name: Option<&[u8]>) -> Option<TerminalType>
    ensures { result ≡ terminal_of (option_map (λ s. s.now) name.entry) }
{
    let name = name?;
    if name.is_empty() {
        return None;
    }
    if is_vt(name) {
        return Some(TerminalType::Vt220);
    }
    Some(TerminalType::Xterm)
}

/// Returns the number that digits write, if there are at most nine.
fn count_of(digits: Option<&[u8]>) -> Option<u32>
    ensures { result ≡ count_of (option_map (λ s. s.now) digits.entry) }
{
    Some(number(9, digits?)? as u32)
}

/// Returns the member of a member of an object.
fn inner<'v, 'a>(object: &'v Value<'a>, outer: &str, name: &str) -> Option<&'v Value<'a>>
    ensures { option_map (λ v. value_view v.now) result ≡ inner outer.now name.now (value_view object.now) }
{
    object.get(outer)?.get(name)
}

/// Returns the text of a string.
fn text_of<'a>(value: Option<&Value<'a>>) -> Option<&'a [u8]>
    ensures { option_map (λ s. s.now) result ≡ text_of (option_map (λ v. value_view v.now) value.entry) }
{
    Some(value?.as_str()?.as_bytes())
}

/// Returns the number that a number of JSON writes with at most nine digits and nothing else.
fn number_of(value: Option<&Value<'_>>) -> Option<u32>
    ensures { result ≡ number_of (option_map (λ v. value_view v.now) value.entry) }
{
    count_of(Some(value?.as_number()?.as_bytes()))
}

/// Returns the heading in a header of version 3.
fn by_term(header: &Value<'_>) -> Heading
    ensures { result ≡ by_term (value_view header.now) }
{
    Heading {
        terminal: terminal_of(text_of(inner(header, "term", "type"))).or(Some(TerminalType::Xterm)),
        columns: number_of(inner(header, "term", "cols")),
        rows: number_of(inner(header, "term", "rows")),
    }
}

/// Returns the heading in a header of version 1 or 2.
fn by_env(header: &Value<'_>) -> Heading
    ensures { result ≡ by_env (value_view header.now) }
{
    Heading {
        terminal: terminal_of(text_of(inner(header, "env", "TERM"))).or(Some(TerminalType::Xterm)),
        columns: number_of(header.get("width")),
        rows: number_of(header.get("height")),
    }
}

/// Returns the heading in a header of any version.
fn in_header(header: &Value<'_>) -> Heading
    ensures { result ≡ in_header (value_view header.now) }
{
    if names_one(header) {
        return by_env(header);
    }
    match version_of(header) {
        Some(3) => by_term(header),
        Some(_) => by_env(header),
        None => NOTHING,
    }
}

/// Returns the heading in a text, if that is an object.
fn in_object(alloc: Global, text: &[u8]) -> Result<Option<Heading>, AllocError>
    ensures { IfOk result (λ heading. heading ≡ option_map in_header (document_in text.now)) }
{
    let mut scratch = Scratch::new(alloc);
    match document_in(alloc, text, &mut scratch) {
        Ok(Some(header)) => Ok(Some(in_header(&header))),
        Ok(None) => Ok(None),
        Err(AllocError) => Err(AllocError),
    }
}

/// Returns the heading in a recording by asciinema: in its first line, or in all lines if these are one object.
fn in_cast(alloc: Global, text: &[u8]) -> Result<Heading, AllocError>
    ensures { IfOk result (λ heading. heading ≡ in_document (header_in text.now)) }
{
    if let Some(heading) = in_object(alloc, front_line(text))? {
        return Ok(heading);
    }
    match in_object(alloc, text)? {
        Some(heading) => Ok(heading),
        None => Ok(NOTHING),
    }
}

/// Returns the text after the last place that has these words.
fn after_last<'a>(words: &[u8], text: &'a [u8]) -> Option<&'a [u8]>
    ensures { option_map (λ s. s.now) result ≡ after_last words.now text.entry.now }
{
    let mut at = text.len();
    while at > 0 {
        at -= 1;
        if let Some(rest) = stripped(words, &text[at..]) {
            return Some(rest);
        }
    }
    None
}

/// Returns the index of the first quotation mark.
fn quote_in(text: &[u8]) -> Option<usize>
    ensures value { result ≡ quote_in text.now }
    ensures within { IfSome result (λ at. at < length text.now) }
{
    text.iter().position(|b| *b == b'"')
}

/// Returns the text up to the first quotation mark, if there is one.
fn up_to_quote(text: &[u8]) -> Option<&[u8]>
    ensures { option_map (λ s. s.now) result ≡ up_to_quote text.now }
{
    Some(&text[..quote_in(text)?])
}

/// Returns the value of a fact. The name ends with the quotation mark before the value.
fn fact<'a>(name: &[u8], line: &'a [u8]) -> Option<&'a [u8]>
    ensures { option_map (λ s. s.now) result ≡ fact name.now line.entry.now }
{
    up_to_quote(after_last(name, line)?)
}

/// Returns the heading in the first line of a recording by script.
fn in_line(line: &[u8]) -> Heading
    ensures { result ≡ in_line line.now }
{
    if !line.starts_with(FIRST_WORDS) || !line.ends_with(b"\"]") {
        return NOTHING;
    }
    Heading {
        terminal: terminal_of(fact(b"TERM=\"", line)),
        columns: count_of(fact(b"COLUMNS=\"", line)),
        rows: count_of(fact(b"LINES=\"", line)),
    }
}

/// Returns what the first line of a recording names of the terminal that it was made on: its TERM and its size. Only the
/// first line is read, but an asciicast of version 1 may be an object of several lines.
///
/// - asciicast, versions 1 and 2: `width`, `height`, and TERM in `env`
/// - asciicast, version 3: `cols`, `rows` and `type` in `term`
/// - script: TERM, COLUMNS and LINES at the end of the line. A session without a terminal has none
/// - ttyrec and raw: nothing
///
/// A TERM that begins with `vt` and a digit is a VT220's. Any other is an xterm's.
///
/// Returns `Err` if allocation fails.
pub fn heading_of(alloc: Global, bytes: &[u8], format: Format) -> Result<Heading, AllocError>
    ensures { IfOk result (λ heading. heading ≡ heading_of format bytes.now) }
{
    match format {
        Format::Script => Ok(in_line(front_line(bytes))),
        Format::Asciicast => in_cast(alloc, json_text(bytes)),
        _ => Ok(NOTHING),
    }
}
