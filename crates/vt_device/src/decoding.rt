//! Decodings of the host's bytes to the terminal's. One leaves them as they are. The others are types of crates above.
ghost use Rattle.std.specs.Prelude.{◌≡◌, ◌*◌, ◌≤◌, ◌++◌, [], ℕ, List, length, IfOk};

use std::alloc::{AllocError, Global};

/// A decoding of the host's bytes to the terminal's.
pub trait Decoding: Drop {
    /// The terminal's bytes may be these, if the host's are those.
    ghost Translates: { List ℕ → List ℕ → Type 0 };

    /// All bytes that came, and the terminal's bytes for them.
    ghost Came: { Self → List ℕ → List ℕ → Type 0 };

    /// The terminal's bytes for the chunk that was decoded last.
    ghost held: { Self → List ℕ → List ℕ };

    /// The most bytes of a chunk.
    ghost most: { Self → ℕ };

    /// Returns the decoding before any byte came, with memory for chunks of so many bytes. `Err` means that allocation
    /// failed.
    fn new(alloc: Global, piece: usize) -> Result<Self, AllocError>
        requires { (1 ≤ piece) × (piece ≤ 65536) }
        ensures came { IfOk result (λ d. Came d [] []) }
        ensures translates { IfOk result (λ d. Translates [] []) }
        ensures most { IfOk result (λ d. piece ≤ most d) };

    /// Decodes a chunk that isn't empty. It allocates nothing.
    fn decode(&mut self, chunk: &[u8])
        requires some { 1 ≤ length chunk.now }
        requires short { length chunk.now ≤ most self.old }
        ensures came { (b x : List ℕ) → Came self.old b x
            → Came self.new (b ++ chunk.now) (x ++ held self.new chunk.now) }
        ensures translates { (b x : List ℕ) → Came self.new b x → Translates b x }
        ensures few { length (held self.new chunk.now) ≤ 94152 * length chunk.now }
        ensures most { most self.old ≤ most self.new };

    /// Returns the terminal's bytes for the chunk that was decoded last.
    fn bytes<'a>(&'a self, chunk: &'a [u8]) -> &'a [u8]
        ensures { result.now ≡ held self.now chunk.now };
}

/// The decoding that leaves the host's bytes as they are.
#[derive(Drop)]
pub struct Plain;

impl Decoding for Plain {
    ghost Translates = { λ b x. x ≡ b };

    ghost Came = { λ d b x. x ≡ b };

    ghost held = { λ d chunk. chunk };

    ghost most = { λ d. 65536 };

    fn new(alloc: Global, piece: usize) -> Result<Plain, AllocError> {
        let _ = (alloc, piece);
        Ok(Plain)
    }

    fn decode(&mut self, _chunk: &[u8]) {}

    fn bytes<'a>(&'a self, chunk: &'a [u8]) -> &'a [u8] {
        chunk
    }
}
