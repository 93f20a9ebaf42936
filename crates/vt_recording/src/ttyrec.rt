//! A recording by ttyrec.
ghost use Rattle.std.specs.Prelude.{◌≡◌, ◌+◌, ◌*◌, ◌≤◌, ◌<◌, ◌^◌, length, drop, IfSome, IfNone};
ghost use Rattle.vt_recording.specs.Ttyrec.{number_at, time_of, size_of, IsCut};

/// The number of bytes of a frame's header.
pub(crate) const HEADER: usize = 12;

/// The contents of a header.
#[derive(Clone, Copy)]
pub(crate) struct Header {
    /// The time of the frame, in microseconds.
    pub(crate) time: u64,
    /// The number of bytes of the frame.
    pub(crate) size: usize,
}

/// Returns the number of 32 bits at `at`, lowest byte first.
pub(crate) fn number_at(at: usize, bytes: &[u8]) -> u64
    requires { at + 4 ≤ length bytes.now }
    ensures value { result ≡ number_at at bytes.now }
    ensures small { result < 2 ^ 32 }
{
    bytes[at] as u64
        + 0x100 * bytes[at + 1] as u64
        + 0x1_0000 * bytes[at + 2] as u64
        + 0x100_0000 * bytes[at + 3] as u64
}

/// Returns the time in a header, in microseconds.
pub(crate) fn time_of(header: &[u8]) -> u64
    requires { 12 ≤ length header.now }
    ensures { result ≡ time_of header.now }
{
    1_000_000 * number_at(0, header) + number_at(4, header)
}

/// Returns the header of the frame with which the bytes begin, if the frame is whole.
pub(crate) fn header_of(bytes: &[u8]) -> Option<Header>
    ensures time { IfSome result (λ h. h.time ≡ time_of bytes.now) }
    ensures size { IfSome result (λ h. h.size ≡ size_of bytes.now) }
    ensures whole { IfSome result (λ h. 12 + h.size ≤ length bytes.now) }
    ensures cut { IfNone result (IsCut bytes.now) }
{
    if bytes.len() < HEADER {
        return None;
    }
    let size = number_at(8, bytes) as usize;
    if bytes.len() - HEADER < size {
        return None;
    }
    Some(Header {
        time: time_of(bytes),
        size,
    })
}
