// Which events are refused, and why. Every call takes every input.
#![tactic(auto)]

ghost use Rattle.refusals.specs.Promises.{RefusalTold};
ghost use Rattle.rules.specs.Numbered.{outcome_number};

use crate::events::{judge_ordinary, judge_power_up};
use rules::{Board, Event, Refusal};

mod events;

// Whether an event is refused on a record and a sample memory of `len` values, and why.
pub fn judge(b: Board, len: usize, e: Event) -> Result<(), Refusal>
    ensures { RefusalTold b len e (outcome_number result) }
{
    match e {
        Event::PowerUp(x) => judge_power_up(x, len),
        _ => judge_ordinary(b, len, e),
    }
}
