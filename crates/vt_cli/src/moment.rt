//! A moment of a recording as text.
ghost use Rattle.std.specs.Prelude.{◌≡◌, ◌<◌, ◌+◌, ◌*◌, ◌^◌, IfSome, Some, length};
ghost use Rattle.vt_cli.specs.Moment.{place, sixtieth, with_sixtieth, seconds, micros, numbered, plain_moment, moment};

use vt_recording::{Moment, number, scale};

/// Returns the index of the first byte that is this.
pub(crate) fn place(byte: u8, text: &[u8]) -> Option<usize>
    ensures value { result ≡ place byte text.now }
    ensures within { IfSome result (λ at. at < length text.now) }
{
    text.iter().position(|b| *b == byte)
}

/// Returns the minutes of an hour or seconds of a minute that one or two digits write, if they are less than 60.
fn sixtieth(digits: &[u8]) -> Option<u64>
    ensures value { result ≡ sixtieth digits.now }
    ensures small { IfSome result (λ n. n < 60) }
{
    let n = number(2, digits)?;
    if n < 60 { Some(n) } else { None }
}

/// Returns so many of a greater unit and the sixtieths that digits write, in sixtieths.
fn with_sixtieth(greater: u64, digits: &[u8]) -> Option<u64>
    requires { greater < 10 ^ 11 }
    ensures value { result ≡ with_sixtieth (Some greater) digits.now }
    ensures small { IfSome result (λ n. n < 60 * greater + 60) }
{
    Some(60 * greater + sixtieth(digits)?)
}

/// Returns the seconds that a text gives: of up to nine digits, or as minutes and seconds, or as hours, minutes and
/// seconds, with colons between them.
fn seconds(text: &[u8]) -> Option<u64>
    ensures value { result ≡ seconds text.now }
    ensures small { IfSome result (λ n. n < 10 ^ 13) }
{
    let Some(at) = place(b':', text) else {
        return number(9, text);
    };
    let greater = number(9, &text[..at])?;
    let rest = &text[at + 1..];
    match place(b':', rest) {
        None => with_sixtieth(greater, rest),
        Some(at) => with_sixtieth(with_sixtieth(greater, &rest[..at])?, &rest[at + 1..]),
    }
}

/// Returns the number of microseconds that a text gives: seconds, and after a point up to six decimals.
fn micros(text: &[u8]) -> Option<u64>
    ensures { result ≡ micros text.now }
{
    match place(b'.', text) {
        Some(at) => {
            let seconds = seconds(&text[..at])?;
            let decimals = &text[at + 1..];
            let parts = number(6, decimals)?;
            Some(1_000_000 * seconds + scale(decimals.len()) * parts)
        }
        None => Some(1_000_000 * seconds(text)?),
    }
}

/// Returns the number of an event or a marker, which counts from 1.
fn numbered(digits: &[u8]) -> Option<u64>
    ensures { result ≡ numbered digits.now }
{
    match number(15, digits)? {
        0 => None,
        n => Some(n),
    }
}

/// Returns the moment that a text gives: seconds, as `12.5`, `12:31` or `1:02:03`, a number of bytes, as `4096b`, or the number of an
/// event or a marker, as `event:12` or `marker:2`.
pub(crate) fn moment(text: &[u8]) -> Option<Moment>
    ensures { result ≡ moment text.now }
{
    if text.starts_with(b"event:") {
        return Some(Moment::Event(numbered(&text[6..])?));
    }
    if text.starts_with(b"marker:") {
        return Some(Moment::Marker(numbered(&text[7..])?));
    }
    plain_moment(text)
}

/// Returns the moment that a text gives, if that is a time or a number of bytes.
fn plain_moment(text: &[u8]) -> Option<Moment>
    ensures { result ≡ plain_moment text.now }
{
    match place(b'b', text) {
        None => Some(Moment::Micros(micros(text)?)),
        Some(at) if at + 1 == text.len() => Some(Moment::Bytes(number(15, &text[..at])?)),
        Some(_) => None,
    }
}
