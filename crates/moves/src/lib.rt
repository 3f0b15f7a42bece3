// The values that move: those that an accepted clock takes to the channels, and one that a load stores.
// Every call takes every input. What each promises is in specs/Promises.antt.
#![tactic(auto)]

ghost use Rattle.moves.specs.Promises.{Deals, LoadsOne};

use crate::fates::fate_of;
use crate::frames::{burst_after, coded, load_after};
use crate::limits::fits;
use crate::ring::{pass, wrapped};
use channels::ActiveChannels;
use rules::{Burst, Core, Fate, Load, Ring};
use status::bit;

mod fates;
mod frames;
mod limits;
mod ring;

// What an event that is not refused did, with the stored values at their places.
#[derive(Clone, Copy)]
pub struct Played {
    pub core: Core,
    pub ring: Ring,
    pub moved: u32,
    pub fate: Fate,
}

// What values that leave change beside the levels and the memory.
#[derive(Clone, Copy)]
pub struct Frame {
    pub ring: Ring,
    pub burst: Burst,
    pub load: Load,
}

// What a load came to: its fate, and the ring after it.
#[derive(Clone, Copy)]
pub struct Stored {
    pub fate: Fate,
    pub ring: Ring,
}

// A value from the front of the ring to each channel of the mask, ascending, as far as there are any. Where the ring does not lie in the
// first d values of the memory, nothing moves. The ring, the depth and the memory are no struct: one would be made at each clock and each
// load, and the ring taken out of it again. Compiled into its callers: called, it would take the levels and the ring by memory.
#[inline(always)]
pub fn deal(
    mask: u32,
    x: Frame,
    binary: bool,
    again: bool,
    d: u32,
    levels: &mut [u16; 20],
    memory: &mut [u32],
) -> Frame
    ensures { Deals mask x binary again d levels.old memory.old result levels.new memory.new }
{
    let served = if fits(x.ring, d, memory.len()) {
        mask
    } else {
        0
    };
    let mut ring = x.ring;
    // bit 16 is set once a value carried EOF
    let mut marks = 0;
    for k in ActiveChannels::of(served) {
        if ring.count == 0 {
            break;
        }
        let passed = pass(ring, again, d, memory);
        levels[k] = coded(binary, passed.value);
        marks |= passed.value;
        ring = passed.ring;
    }
    let ended = bit(marks, 16);
    Frame {
        ring,
        burst: burst_after(ended, x.burst),
        load: load_after(ended, x.load),
    }
}

// A write of v to 18h, where the buffer takes values up to the active size. Where the ring does not lie in the first d values of the
// memory, or the active size is above d, nothing is stored.
pub fn load(c: Core, size: u32, ring: Ring, d: u32, v: u32, memory: &mut [u32]) -> Stored
    ensures { LoadsOne c size ring d v memory.old result memory.new }
{
    let fate = fate_of(c, size, ring, d, memory.len());
    match fate {
        Fate::Stored => {
            let at = wrapped(ring.first + ring.count, d) as usize;
            memory[at] = v % 131072;
            let count = ring.count + 1;
            Stored {
                fate,
                ring: Ring { count, ..ring },
            }
        }
        _ => Stored { fate, ring },
    }
}
