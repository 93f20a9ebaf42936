//! Laws over the definitions alone. A caller cites a law by a call of its function.
ghost use Rattle.std.specs.Prelude.{◌≡◌};
ghost use Rattle.vt_screen.specs.Sizes.{vt220_size};
ghost use Rattle.vt_picture.specs.Limits.{draw_limit, picture_limit, show_limit};

use crate::document::PICTURE_LIMIT;
use crate::drawing::DRAW_LIMIT;
use crate::showing::SHOW_LIMIT;

/// States that the constants of this crate are the limits of a VT220's size.
pub fn vt220_limits()
    ensures show { show_limit vt220_size ≡ SHOW_LIMIT }
    ensures draw { draw_limit vt220_size ≡ DRAW_LIMIT }
    ensures picture { picture_limit vt220_size ≡ PICTURE_LIMIT }
{}
