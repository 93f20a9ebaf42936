//! Lines of a trace, in a buffer of a fixed capacity.
ghost use Rattle.std.specs.Prelude.{◌<◌};

use itoa::Buffer;
use vt_syntax::EventKind;

/// Lines, in a buffer whose capacity never changes. What there is no capacity for is left out.
#[derive(Drop)]
pub(crate) struct Lines {
    pub(crate) bytes: Vec<u8>,
}

impl Lines {
    /// Appends bytes.
    #[inline(always)]
    pub(crate) fn push(&mut self, bytes: &[u8]) {
        if bytes.len() <= self.bytes.capacity() - self.bytes.len() {
            self.bytes.extend_from_slice(bytes).unwrap();
        }
    }

    /// Appends a number, in decimal.
    pub(crate) fn push_number(&mut self, n: u64) {
        let mut buffer = Buffer::new();
        self.push(buffer.format(n).as_bytes());
    }

    /// Appends bytes as text. Speed: they are one copy if all of them are shown as themselves.
    pub(crate) fn push_shown(&mut self, bytes: &[u8]) {
        if bytes.iter().all(|b| is_shown(*b)) {
            return self.push(bytes);
        }
        for b in bytes {
            if is_shown(*b) {
                self.push(&[*b]);
            } else {
                self.push(&[b'\\', b'x', hex_digit(*b / 16), hex_digit(*b % 16)]);
            }
        }
    }

    /// Appends a marker, if there is one, and values with semicolons between them.
    pub(crate) fn push_values(&mut self, marker: Option<u8>, values: &[u16]) {
        if let Some(marker) = marker {
            self.push(&[marker]);
        }
        for (i, value) in values.iter().enumerate() {
            if i > 0 {
                self.push(b";");
            }
            self.push_number(*value as u64);
        }
    }

    /// Appends the bytes of an event as text. A sequence is spelled in its 7-bit form.
    pub(crate) fn push_event_bytes(&mut self, kind: EventKind, values: &[u16]) {
        let (inter, last) = match kind {
            EventKind::Print(b) => (None, b),
            EventKind::Control(b) => (None, b),
            EventKind::Escape { inter, last } => {
                self.push(b"\\x1B");
                (inter, last)
            }
            EventKind::Sequence {
                marker,
                inter,
                last,
            } => {
                self.push(b"\\x1B[");
                self.push_values(marker, values);
                (inter, last)
            }
        };
        if let Some(inter) = inter {
            self.push(&[inter]);
        }
        self.push_shown(&[last]);
    }
}

/// Returns whether a byte is shown as itself.
fn is_shown(b: u8) -> bool {
    0x20 <= b && b < 0x7F && b != b'\\'
}

/// Returns a hexadecimal digit.
fn hex_digit(n: u8) -> u8
    requires { n < 16 }
{
    if n < 10 { n + b'0' } else { n - 10 + b'A' }
}
