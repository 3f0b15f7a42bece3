// What is read off a record: is the buffer closed, is a clock or a burst awaited, is a tick accepted, how many values the active buffer
// takes, its four flags; and whether an event initialises. Each test stands here once, for every crate that asks.
// Every call takes every input, and tells what a rule says (`Told` of rules/specs/Told.antt).
#![tactic(auto)]

ghost use Rattle.std.specs.Prelude.{◌*◌, leb, ltb};
ghost use Rattle.rules.specs.Record.{active_size};
ghost use Rattle.rules.specs.Clocks.{closed, clock_ready, burst_ready, tick_accepted};
ghost use Rattle.rules.specs.Flags.{is_empty};
ghost use Rattle.rules.specs.Size.{initialises};
ghost use Rattle.rules.specs.declared.Event.TheVariants.{Write as write};
ghost use Rattle.rules.specs.Told.{Told};
ghost use Rattle.record.specs.Capped.{capped};

use record::depth_of;
use rules::{Core, Event, Size};

mod bits;

pub use bits::bit;

// 01: "closed = circular and not opened"
pub fn closed(c: Core) -> bool
    ensures { Told (closed c) result }
{
    c.mode.circular & !c.load.opened
}

// 01: "D6 reads EXTERNAL and neither settling nor calibrating"
pub fn clock_ready(c: Core) -> bool
    ensures { Told (clock_ready c) result }
{
    c.mode.external & !c.clock.settling & !c.calibration.running
}

// 01: "D1 = enabled and no burst"
pub fn burst_ready(c: Core) -> bool
    ensures { Told (burst_ready c) result }
{
    c.control.bursts & !c.burst.running
}

// 01: "A generator tick is accepted when clocking is enabled and (EXTERNAL = 0 or ALT = 1)."; "While calibrating, no clock .. is accepted."
pub fn tick_accepted(c: Core) -> bool
    ensures { Told (tick_accepted c) result }
{
    c.mode.enabled & (!c.mode.external | c.clock.alt) & !c.calibration.running
}

// 01: "The active size is 8·2^m, where m is the lesser of size code and d."
#[tactic(auto, unfolding(rules::specs::Record::active_size, rules::specs::Record::depth_of))]
pub fn active_size(s: Size) -> u32
    ensures { Told (active_size (capped s)) result }
{
    depth_of(s.code.min(s.fitted))
}

// 01: "Flags: empty at count 0"
pub fn is_empty(count: u32) -> bool
    ensures { Told (is_empty count) result }
{
    count == 0
}

// 01: "low quarter at 4·count < size"
pub fn is_low(size: u32, count: u32) -> bool
    ensures { Told (ltb (4 * count) size) result }
{
    4 * u64::from(count) < u64::from(size)
}

// 02, 2026-06: "high quarter when 4·count is at least 3·size"
pub fn is_high(size: u32, count: u32) -> bool
    ensures { Told (leb (3 * size) (4 * count)) result }
{
    3 * u64::from(size) <= 4 * u64::from(count)
}

// 01: "full at count ≥ size"
pub fn is_full(size: u32, count: u32) -> bool
    ensures { Told (leb size count) result }
{
    size <= count
}

// A BCR write with D15 set.
#[tactic(auto, unfolding(rules::specs::Size::initialises))]
pub fn write_initialises(offset: u32, value: u32) -> bool
    ensures { Told (initialises (write offset value)) result }
{
    (offset == 0x00) & bit(value, 15)
}

// Power-up, or such a write.
#[tactic(auto, unfolding(rules::specs::Size::initialises))]
pub fn initialises(e: Event) -> bool
    ensures { Told (initialises e) result }
{
    match e {
        Event::PowerUp(_) => true,
        Event::Write { offset, value } => write_initialises(offset, value),
        _ => false,
    }
}
