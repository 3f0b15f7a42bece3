// What an event leaves of the size code and of the interrupt request, and the condition that is selected. Every call takes every input,
// and tells what a rule says (`Told` of rules/specs/Told.antt); a fitted code above 15, as no sound record has, counts as 15 (`capped` of
// record/specs/Capped.antt).
#![tactic(auto)]

ghost use Rattle.rules.specs.Size.{size_after};
ghost use Rattle.rules.specs.Interrupt.{condition, request_held, request_after};
ghost use Rattle.rules.specs.Told.{Told};
ghost use Rattle.record.specs.Capped.{capped_board};

use crate::latched::{code_of, edge};
use rules::{Board, Event, Size};
use status::{active_size, bit, burst_ready, closed, initialises, is_empty, is_high, is_low};

mod latched;

// 01: "conditions 1 calibrated, 2 empty, 3 low quarter, 4 high quarter, 5 burst ready, 6 load ready, 7 not load ready": the one that is
// selected. The arms are numbers, for a record handed in may have any selection.
#[tactic(auto, unfolding(rules::specs::Interrupt::condition, rules::specs::Interrupt::conditions))]
pub fn condition(b: Board) -> bool
    ensures { Told (condition (capped_board b)) result }
{
    let c = b.core;
    let n = b.ring.count;
    let size = active_size(b.size);
    match c.control.selection {
        1 => c.calibration.calibrated,
        2 => is_empty(n),
        3 => is_low(size, n),
        4 => is_high(size, n),
        5 => burst_ready(c),
        6 => !closed(c),
        7 => closed(c),
        _ => false,
    }
}

// 01: BOR "store D0 to D5": D0 to D3 are the size code; initialise sets it to 15.
#[tactic(auto, unfolding(rules::specs::Size::size_after))]
pub fn size_after(s: Size, e: Event) -> Size
    ensures { Told (size_after s e) result }
{
    match e {
        Event::PowerUp(x) => Size {
            fitted: x.fitted,
            code: 15,
        },
        Event::Write { offset, value } => Size {
            code: code_of(s, offset, value),
            ..s
        },
        _ => s,
    }
}

// 01 of a BCR write: "D11 = 0 clears the request, 1 leaves it"
#[tactic(auto, unfolding(rules::specs::Interrupt::request_held))]
pub fn request_held(q: bool, e: Event) -> bool
    ensures { Told (request_held q e) result }
{
    match e {
        Event::Write { offset, value } => q & ((offset != 0x00) | bit(value, 11)),
        _ => q,
    }
}

// The request after an event, from the board before it and the one after all but the edge. 01: "If an event leaves the selection
// unchanged, false to true sets the request after all else; true to false clears it .. Initialise just sets it."
#[tactic(auto, unfolding(rules::specs::Interrupt::request_after))]
pub fn request_after(e: Event, b: Board, a: Board) -> bool
    ensures { Told (request_after e (capped_board b) (capped_board a)) result }
{
    if initialises(e) {
        true
    } else if b.core.control.selection == a.core.control.selection {
        edge(condition(b), condition(a), a.request)
    } else {
        a.request
    }
}
