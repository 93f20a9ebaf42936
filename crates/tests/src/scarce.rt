//! Refuses memory, and grants one growth after another. So a test sees each growth of a call refused once.
use std::alloc::{AllocError, Global};

/// The number of blocks that a `Scarce` keeps. No call of the tests grows its memory so often.
pub(crate) const BLOCKS: u32 = 16000;

/// Takes all the memory that the allocator still gives, in blocks that are never touched.
fn take_all(alloc: Global, ballast: &mut Vec<Vec<u8>>) {
    let mut size = 1usize << 46;
    for _ in 0..1_000_000u32 {
        if ballast.len() == ballast.capacity() || size == 0 {
            return;
        }
        match Vec::with_capacity(alloc, size) {
            Ok(block) => {
                let _ = ballast.push(block);
            }
            Err(_) => size /= 2,
        }
    }
}

/// Leaves no memory, but keeps blocks that are freed one by one. Each lets one more growth through.
#[derive(Drop)]
pub(crate) struct Scarce {
    reserve: Vec<Vec<u8>>,
    ballast: Vec<Vec<u8>>,
}

impl Scarce {
    /// Takes all memory. Fails if there is too little for the blocks themselves.
    pub(crate) fn new(alloc: Global) -> Result<Scarce, AllocError> {
        let mut ballast = Vec::with_capacity(alloc, 100_000)?;
        let mut reserve = Vec::with_capacity(alloc, BLOCKS as usize)?;
        for _ in 0..BLOCKS {
            reserve.push(Vec::with_capacity(alloc, 1000)?)?;
        }
        take_all(alloc, &mut ballast);
        Ok(Scarce { reserve, ballast })
    }

    /// Frees a block, if one is left.
    fn relent(&mut self) {
        let _ = self.reserve.pop();
    }
}

/// A call that grows what it appends to.
pub(crate) trait Growing {
    /// Makes the call. Returns whether it had its memory.
    fn has_memory(&mut self) -> bool;

    /// Returns whether all is as it was before the first call.
    fn is_unchanged(&self) -> bool;
}

/// Returns how often a call was refused, and how often that has changed something. After each time it is granted one
/// more growth, until it has its memory.
pub(crate) fn refusals<G: Growing>(alloc: Global, call: &mut G) -> Result<(u32, u32), AllocError> {
    let mut scarce = Scarce::new(alloc)?;
    let mut refused = 0u32;
    let mut changed = 0u32;
    for _ in 0..BLOCKS {
        if call.has_memory() {
            break;
        }
        refused = refused.saturating_add(1);
        if !call.is_unchanged() {
            changed = changed.saturating_add(1);
        }
        scarce.relent();
    }
    Ok((refused, changed))
}

/// Returns whether an output has what was expected after the bytes `ok`.
pub(crate) fn follows_ok(out: &[u8], expected: &[u8]) -> bool {
    out.get(..2) == Some(b"ok".as_slice()) && out.get(2..) == Some(expected)
}
