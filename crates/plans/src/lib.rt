// What an event is to do, before any value moves: the core that it leaves, and what then comes of the stored values.
// Every call takes every input. `plan_of` tells the plan that specs/Plan.antt says (`Told` of rules/specs/Told.antt).
#![tactic(auto)]

ghost use Rattle.std.specs.Prelude.{◌≡◌};
ghost use Rattle.rules.specs.Told.{Told};
ghost use Rattle.plans.specs.Plan.{core_alone, initial_plan, planned};

use crate::signals::on_signal;
use crate::writes::{initial, on_write};
use rules::{Core, Event, Options, Settings};

mod signals;
mod states;
mod writes;

// What comes of the stored values: nothing; all are dropped; a clock is accepted; one is loaded.
#[derive(Clone, Copy)]
pub enum Act {
    Nothing,
    Empties,
    Clocks,
    Loads(u32),
}

#[derive(Clone, Copy)]
pub struct Plan {
    pub core: Core,
    pub act: Act,
}

impl Plan {
    // The core becomes this one, and nothing comes of the stored values.
    pub(crate) fn core_alone(core: Core) -> Self
        ensures { result ≡ core_alone core }
    {
        Plan {
            core,
            act: Act::Nothing,
        }
    }

    // Initialise and power-up.
    pub(crate) fn initial(o: Options) -> Self
        ensures { result ≡ initial_plan o }
    {
        Plan {
            core: initial(o),
            act: Act::Empties,
        }
    }
}

// The plan of an event that is not refused. The options are taken one by one: a `From` would have to stand in `rules`, among definitions.
#[tactic(auto, unfolding(crate::specs::Plan::planned))]
pub fn plan_of(c: Core, e: Event) -> Plan
    ensures { Told (planned c e) result }
{
    match e {
        Event::PowerUp(
            Settings {
                range,
                filter,
                kit,
                firmware,
                ..
            },
        ) => Plan::initial(Options {
            range,
            filter,
            kit,
            firmware,
        }),
        Event::Write { offset, value } => on_write(c, offset, value),
        Event::Read { .. } => Plan::core_alone(c),
        Event::Signal(x) => on_signal(c, x),
    }
}
