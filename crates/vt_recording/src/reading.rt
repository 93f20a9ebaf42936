//! The reading of a whole recording.
ghost use Rattle.std.specs.Prelude.{◌≡◌, ◌≤◌, ◌+◌, ℕ, true, false, length};
ghost use Rattle.std.specs.Io.KnownBytes.{IsAtEnd};
ghost use Rattle.vt_device.specs.Runs.{Takes};
ghost use Rattle.vt_recording.specs.Reading.{ReadTable};

use std::alloc::Global;
use std::io::Read;
use vt_device::{Fault, Watched};

/// The most bytes of one read.
const PIECE: usize = 65536;

/// Reads a recording to its end, and returns its bytes. The reader hasn't failed before, and hasn't ended.
///
/// It reads at most `limit` bytes (up to 2 to the 40th), and one more to see whether the input continues. After an error
/// it doesn't call the reader again. If the reader has ended, none of its `remaining` bytes is left.
///
/// # Errors
///
/// - `Memory` if allocation fails
/// - `Read` if the reader failed
/// - `TooLong` if the input has more than `limit` bytes
pub fn read_recording<R: Read>(
    alloc: Global,
    reader: &mut Watched<R>,
    limit: usize,
) -> Result<Vec<u8>, Fault>
    requires works { reader.old.failed ≡ false }
    requires goes_on { reader.old.ended ≡ false }
    requires limit_in_range { limit ≤ 1099511627776 }
    ensures takes { Takes (R.remaining reader.old.device) (R.remaining reader.new.device)
        (λ b. ReadTable result b reader.new.failed reader.new.ended limit) }
    ensures whole { reader.new.ended ≡ true → IsAtEnd (R.remaining reader.new.device) }
{
    let mut buffer = vec![in alloc; 0u8; PIECE]?;
    read_whole(alloc, reader, buffer.as_mut_slice(), limit)
}

/// Reads to the end of the input, one buffer at a time.
fn read_whole<R: Read>(
    alloc: Global,
    reader: &mut Watched<R>,
    buffer: &mut [u8],
    limit: usize,
) -> Result<Vec<u8>, Fault>
    requires works { reader.old.failed ≡ false }
    requires goes_on { reader.old.ended ≡ false }
    requires some_room { 1 ≤ length buffer.old }
    requires limit_in_range { limit ≤ 1099511627776 }
    ensures takes { Takes (R.remaining reader.old.device) (R.remaining reader.new.device)
        (λ b. ReadTable result b reader.new.failed reader.new.ended limit) }
    ensures whole { reader.new.ended ≡ true → IsAtEnd (R.remaining reader.new.device) }
{
    let mut bytes = Vec::new(alloc);
    let mut left = limit + 1;
    while left > 0 {
        let want = left.min(buffer.len());
        let Ok(count) = reader.read(&mut buffer[..want]) else {
            return Err(Fault::Read);
        };
        if count == 0 {
            return Ok(bytes);
        }
        bytes.extend_from_slice(&buffer[..count])?;
        left -= count;
    }
    Err(Fault::TooLong)
}
