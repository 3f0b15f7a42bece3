// A value as a level, and what the end of a frame ends.
ghost use Rattle.std.specs.Prelude.{◌≡◌};
ghost use Rattle.rules.specs.Clocks.{coded, burst_after, load_after};

use rules::{Burst, Load};

// 01: "Offset binary makes the level equal the data; two's complement adds 8000h mod 10000h." The data are the low 16 bits: `as u16` alone
// asks for a number that fits.
#[tactic(auto, unfolding(rules::specs::Clocks::coded))]
pub(crate) fn coded(binary: bool, v: u32) -> u16
    ensures { result ≡ coded binary v }
{
    let data = (v % 65536) as u16;
    if binary {
        data
    } else {
        data.wrapping_add(32768)
    }
}

// 01: "a burst ends"
#[tactic(auto, unfolding(rules::specs::Clocks::burst_after))]
pub(crate) fn burst_after(ended: bool, x: Burst) -> Burst
    ensures { result ≡ burst_after ended x }
{
    if ended { Burst::default() } else { x }
}

// 01: "opened becomes closed; else pending becomes opened"
#[tactic(auto, unfolding(rules::specs::Clocks::load_after))]
pub(crate) fn load_after(ended: bool, x: Load) -> Load
    ensures { result ≡ load_after ended x }
{
    if ended {
        Load {
            pending: false,
            opened: !x.opened & x.pending,
        }
    } else {
        x
    }
}
