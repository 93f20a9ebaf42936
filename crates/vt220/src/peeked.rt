//! The input, whose first bytes are kept, and can be looked at before they are read.

use std::alloc::{AllocError, Global};
use std::io::{self, Read};
use vt_recording::json_text;
use vt_replay::{DETECTION_LENGTH, Detected, Format, detect};

/// The most bytes of one read that looks ahead.
const PIECE: usize = 4096;

/// The number of first bytes after which only an asciicast can still be found: those of the first line by script(1).
const SETTLED: usize = 18;

/// Returns whether an input that begins so is raw, whatever follows. A JSON object may still become an asciicast, and so may
/// white space.
fn stays_raw(beginning: &[u8]) -> bool {
    SETTLED <= beginning.len()
        && !matches!(json_text(beginning).first(), None | Some(b'{'))
        && detect(beginning) == Detected::Recording(Format::Raw)
}

/// The input, and its first bytes: [`DETECTION_LENGTH`], maybe some more.
#[derive(Drop)]
pub(crate) struct Peeked<D> {
    device: D,
    /// The first bytes of the input, and how many of them were read.
    beginning: Vec<u8>,
    at: usize,
}

impl<D: Read + Drop> Peeked<D> {
    /// Returns the input of a device, with memory for its first bytes. `Err` means that allocation failed.
    pub(crate) fn new(alloc: Global, device: D) -> Result<Peeked<D>, AllocError> {
        Ok(Peeked {
            device,
            beginning: Vec::with_capacity(alloc, DETECTION_LENGTH)?,
            at: 0,
        })
    }

    /// Returns the first bytes that were read or looked at.
    pub(crate) fn beginning(&self) -> &[u8] {
        self.beginning.as_slice()
    }

    /// Returns the first bytes that were read or looked at.
    pub(crate) fn into_beginning(self) -> Vec<u8> {
        let Peeked {
            device: _,
            beginning,
            at: _,
        } = self;
        beginning
    }

    /// Looks at the first bytes, at least at so many: reads them ahead until they show the format, at most [`DETECTION_LENGTH`] of
    /// them, maybe some more. Gives them again to the reads that follow.
    pub(crate) fn look(&mut self, alloc: Global, least: usize) -> io::Result<()> {
        let mut buffer = vec![in alloc; 0u8; PIECE]?;
        for _ in 0..DETECTION_LENGTH {
            let count = self.read_ahead(buffer.as_mut_slice())?;
            if count == 0 || self.has_enough(least) {
                break;
            }
        }
        Ok(())
    }

    /// Reads bytes ahead, and returns how many.
    fn read_ahead(&mut self, buffer: &mut [u8]) -> io::Result<usize> {
        let count = self.device.read(buffer)?;
        self.beginning.extend_from_slice(&buffer[..count])?;
        Ok(count)
    }

    /// Returns whether the first bytes suffice for the decision on the format, and are at least so many.
    fn has_enough(&self, least: usize) -> bool {
        let count = self.beginning.len();
        count >= DETECTION_LENGTH || (count >= least && stays_raw(&self.beginning))
    }

    /// Keeps bytes that were read, if they are among the first. Those that there is no memory for are left out.
    fn keep(&mut self, bytes: &[u8]) {
        let want = DETECTION_LENGTH.saturating_sub(self.beginning.len());
        let _ = self
            .beginning
            .extend_from_slice(&bytes[..bytes.len().min(want)]);
        self.at = self.beginning.len();
    }
}

impl<D: Read + Drop> Read for Peeked<D> {
    fn read(&mut self, buf: &mut [u8]) -> io::Result<usize> {
        if self.at < self.beginning.len() {
            let mut ahead = &self.beginning[self.at..];
            let count = ahead.read(buf)?;
            self.at = self.at.saturating_add(count);
            return Ok(count);
        }
        let count = self.device.read(buf)?;
        self.keep(&buf[..count]);
        Ok(count)
    }
}
