// How many values a clock moves.
ghost use Rattle.std.specs.Prelude.{◌≡◌};
ghost use Rattle.rules.specs.Clocks.{idle};
ghost use Rattle.channels.specs.Serving.{to_move};

use crate::targets::group_size;
use rules::Core;
use status::burst_ready;

// 01: "An accepted clock moves nothing if the mask is 0, or if bursts are enabled with none in progress."
pub(crate) fn idle(c: Core) -> bool
    ensures { result ≡ idle c }
{
    (c.outputs.mask == 0) | burst_ready(c)
}

// 01: "sequential mode moves one value, if any"; "only if that many are stored". 0 where the mask or the cursor is out of range.
pub(crate) fn to_move(c: Core, count: u32) -> u32
    ensures { result ≡ to_move c count }
{
    if (c.outputs.mask < 1048576) & (c.outputs.cursor <= 20) {
        let size = group_size(c);
        if idle(c) | (count < size) { 0 } else { size }
    } else {
        0
    }
}
