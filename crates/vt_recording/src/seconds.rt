//! Numbers of seconds as text.
ghost use Rattle.std.specs.Prelude.{◌≡◌, ◌≤◌, ◌<◌, ◌^◌, ◌||◌, IfSome, length, nat_eq, true};
ghost use Rattle.std.specs.Char.{is_ascii_digit};
ghost use Rattle.std.specs.List.{list_all, position};
ghost use Rattle.vt_recording.specs.Seconds.{number, value, micros, scale, micros_of_decimals, without_digits};
ghost use Rattle.vt_recording.specs.Seconds.{negative_exponent, micros_of_number, risen};

/// Returns the number that the digits write, if there are at least one and at most `most`.
pub fn number(most: usize, digits: &[u8]) -> Option<u64>
    requires { most ≤ 15 }
    ensures value { result ≡ number most digits.now }
    ensures small { IfSome result (λ n. n < 10 ^ most) }
{
    if digits.is_empty() || most < digits.len() || !are_digits(digits) {
        return None;
    }
    Some(value(digits))
}

/// Returns whether all bytes are digits.
fn are_digits(bytes: &[u8]) -> bool
    ensures { result ≡ list_all (λ b. is_ascii_digit b) bytes.now }
{
    bytes.iter().all(|b| b.is_ascii_digit())
}

/// Returns the number that up to fifteen digits write.
fn value(digits: &[u8]) -> u64
    requires few { length digits.now ≤ 15 }
    requires digits { list_all (λ b. is_ascii_digit b) digits.now ≡ true }
    ensures value { result ≡ value digits.now }
    ensures small { result < 10 ^ length digits.now }
{
    let mut n = 0u64;
    for digit in digits {
        n = 10 * n + (*digit - b'0') as u64;
    }
    n
}

/// Returns the value of the last of `decimals` decimals, in microseconds.
pub fn scale(decimals: usize) -> u64
    ensures value { result ≡ scale decimals }
    ensures small { result ≤ 1000000 }
{
    match decimals {
        0 => 1_000_000,
        1 => 100_000,
        2 => 10_000,
        3 => 1_000,
        4 => 100,
        5 => 10,
        _ => 1,
    }
}

/// Returns the microseconds of decimals, at least one. Those after the sixth are left out.
fn micros_of_decimals(decimals: &[u8]) -> Option<u64>
    ensures value { result ≡ micros_of_decimals decimals.now }
    ensures small { IfSome result (λ n. n < 10 ^ 15) }
{
    if !are_digits(decimals) {
        return None;
    }
    let six = &decimals[..decimals.len().min(6)];
    let parts = number(6, six)?;
    Some(scale(six.len()) * parts)
}

/// Returns the number of microseconds that a text writes: up to nine digits of seconds, and decimals after a point.
pub(crate) fn micros(text: &[u8]) -> Option<u64>
    ensures { result ≡ micros text.now }
{
    match point(text) {
        Some(at) => {
            let seconds = number(9, &text[..at])?;
            let parts = micros_of_decimals(&text[at + 1..])?;
            Some(1_000_000 * seconds + parts)
        }
        None => Some(1_000_000 * number(9, text)?),
    }
}

/// Returns the index of the first point.
fn point(text: &[u8]) -> Option<usize>
    ensures value { result ≡ position (λ b. nat_eq b 0x2E) text.now }
    ensures within { IfSome result (λ at. at < length text.now) }
{
    text.iter().position(|b| *b == b'.')
}

/// Returns the index of the first `e` or `E`.
fn exponent(text: &[u8]) -> Option<usize>
    ensures value { result ≡ position (λ b. nat_eq b 0x65 || nat_eq b 0x45) text.now }
    ensures within { IfSome result (λ at. at < length text.now) }
{
    text.iter().position(|b| *b == b'e' || *b == b'E')
}

/// Returns a number without its last digits.
fn without_digits(count: u64, number: u64) -> u64
    ensures { result ≡ without_digits count number }
{
    let mut n = number;
    let mut left = count;
    while left > 0 {
        n /= 10;
        left -= 1;
    }
    n
}

/// Returns the number of a negative exponent, of one digit or two.
fn negative_exponent(text: &[u8]) -> Option<u64>
    ensures { result ≡ negative_exponent text.now }
{
    if text.starts_with(b"-") {
        number(2, &text[1..])
    } else {
        None
    }
}

/// Returns the number of microseconds that a number of JSON writes: seconds of up to nine digits, decimals, and a
/// negative exponent.
pub(crate) fn micros_of_number(text: &[u8]) -> Option<u64>
    ensures { result ≡ micros_of_number text.now }
{
    match exponent(text) {
        Some(at) => {
            let n = micros(&text[..at])?;
            let places = negative_exponent(&text[at + 1..])?;
            Some(without_digits(places, n))
        }
        None => micros(text),
    }
}

/// Returns the time of an event after one of the time `clock`, which never falls.
pub(crate) fn risen(clock: u64, micros: u64) -> u64
    ensures { result ≡ risen clock micros }
{
    if micros < clock { clock } else { micros }
}
