//! Bytes that are written into a slice of the caller.
ghost use Rattle.std.specs.Prelude.{◌≡◌, ◌↔◌, ◌+◌, ◌≤◌, ◌++◌, IsTrue, true, false, length, take, drop};
ghost use Rattle.vt220_c.specs.Written.{written_over};

/// The number of bytes, and whether they were written.
#[derive(Drop)]
pub(crate) struct Copied {
    pub(crate) len: usize,
    pub(crate) fits: bool,
}

/// Writes bytes into a slice, starting at `at`. Speed: most chunks cause no report, so there is nothing to copy.
#[inline(always)]
pub(crate) fn put(out: &mut [u8], at: usize, bytes: &[u8])
    requires { at + length bytes.now ≤ length out.old }
    ensures { out.new ≡ take at out.old ++ written_over bytes.now (drop at out.old) }
{
    if bytes.is_empty() {
        return;
    }
    let end = at + bytes.len();
    out[at..end].copy_from_slice(bytes);
}

/// Writes bytes into the front of a slice, if they fit.
pub(crate) fn copy_out(bytes: &[u8], out: &mut [u8]) -> Copied
    ensures len { result.len ≡ length bytes.now }
    ensures fits { IsTrue result.fits ↔ (length bytes.now ≤ length out.old) }
    ensures out { result.fits ≡ true → out.new ≡ written_over bytes.now out.old }
    ensures unchanged { result.fits ≡ false → out.new ≡ out.old }
{
    let fits = bytes.len() <= out.len();
    if fits {
        put(out, 0, bytes);
    }
    Copied {
        len: bytes.len(),
        fits,
    }
}
