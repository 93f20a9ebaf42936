//! Writing of a whole chunk.
ghost use Rattle.std.specs.Prelude.{◌≡◌, false};
ghost use Rattle.vt_device.specs.Writing.{Gives, WriteTable};

use crate::watched::Watched;
use std::io::Write;

/// Writes the whole chunk, by as many writes as are needed, and returns whether all of it was written. The device
/// hasn't failed before. After an error it isn't called again.
pub fn write_whole<W: Write>(writer: &mut Watched<W>, piece: &[u8]) -> bool
    requires { writer.old.failed ≡ false }
    ensures gives { Gives (W.contents writer.old.device) (W.contents writer.new.device)
        (WriteTable result writer.new.failed piece.now) }
    ensures ended { writer.new.ended ≡ writer.old.ended }
{
    let mut at = 0;
    while at < piece.len() {
        match writer.write(&piece[at..]) {
            Ok(0) => return false,
            Ok(n) => at += n,
            Err(_) => return false,
        }
    }
    true
}
