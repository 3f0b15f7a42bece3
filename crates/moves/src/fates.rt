// What becomes of a load.
ghost use Rattle.std.specs.Prelude.{◌≡◌};
ghost use Rattle.rules.specs.Clocks.{fate_number};
ghost use Rattle.moves.specs.Ready.{fate_of};

use crate::limits::fits;
use rules::{Core, Fate, Ring};
use status::{closed, is_full};

// 01: "A write to 18h: if closed, .. lost; else if full, ..; else it is stored." None where it has no place to be stored in.
pub(crate) fn fate_of(c: Core, size: u32, r: Ring, d: u32, len: usize) -> Fate
    ensures { fate_number result ≡ fate_of c size r d len }
{
    if !(fits(r, d, len) & (size <= d)) {
        Fate::NoLoad
    } else if closed(c) {
        Fate::LostToClosed
    } else if is_full(size, r.count) {
        Fate::LostToFull
    } else {
        Fate::Stored
    }
}
