//! Inputs that end inside a sequence, one for each kind of held part.
ghost use Rattle.std.specs.Prelude.{◌≡◌, ◌<◌, Some, slice_get, length};
ghost use Rattle.vt_vectors.specs.HeldSamples.{held_samples};

const SAMPLES: [&[u8]; 14] = [
    // ESC
    b"\x1b",
    // ESC and an intermediate, BEL carried out
    b"\x1b(\x07",
    // ESC and two intermediates
    b"\x1b( ",
    // CSI
    b"\x9b",
    // CSI and a marker
    b"\x9b?",
    // CSI and two empty parameters
    b"\x9b;",
    // CSI, a parameter and an intermediate
    b"\x9b1 ",
    // a parameter after an intermediate: spoilt
    b"\x9b 1",
    // a colon: spoilt
    b"\x1b[1:",
    // 16 empty parameters
    b"\x9b;;;;;;;;;;;;;;;",
    // a 17th
    b"\x9b;;;;;;;;;;;;;;;;",
    // a device control string
    b"\x90A",
    // an operating system command, BEL carried out before its letter
    b"\x1b\x07]1",
    // a string that ESC ended
    b"\x9d1\x1b",
];

/// Returns the number of inputs that end inside a sequence: 14.
pub fn held_sample_count() -> usize
    ensures count { result ≡ 14 }
    ensures all { result ≡ length held_samples }
{
    SAMPLES.len()
}

/// Returns the `i`-th of the inputs that end inside a sequence, counted from 0 to 13.
pub fn held_sample(i: usize) -> &'static [u8]
    requires { i < 14 }
    ensures { slice_get held_samples i ≡ Some result.now }
{
    SAMPLES[i]
}
