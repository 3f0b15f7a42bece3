// Clocks, triggers, the ends of calibration and settling: what each plans.
ghost use Rattle.std.specs.Prelude.{◌≡◌};
ghost use Rattle.rules.specs.Clocks.{on_trigger};
ghost use Rattle.rules.specs.Play.{calibration_ends, settles};
ghost use Rattle.plans.specs.Parts.{clocks_if};
ghost use Rattle.plans.specs.Plan.{signal_plan};

use crate::states::{clock_accepted, trigger_accepted};
use crate::{Act, Plan};
use rules::{Burst, Calibration, Clock, Core, Signal};
use status::tick_accepted;

// 01: "Clocks and triggers that are not accepted answer 0 and change nothing."
#[tactic(auto, unfolding(crate::specs::Parts::clocks_if))]
pub(crate) fn clocks_if(accepted: bool) -> Act
    ensures { result ≡ clocks_if accepted }
{
    if accepted { Act::Clocks } else { Act::Nothing }
}

#[tactic(auto, unfolding(rules::specs::Clocks::on_trigger))]
pub(crate) fn on_trigger(c: Core) -> Core
    ensures { result ≡ (on_trigger c).core }
{
    let burst = if trigger_accepted(c) {
        Burst {
            running: true,
            software: false,
        }
    } else {
        c.burst
    };
    Core { burst, ..c }
}

// 01: "A calibration end clears D13, sets "calibrated" and sets D14 on failure."
#[tactic(auto, unfolding(rules::specs::Play::calibration_ends))]
pub(crate) fn calibration_ends(c: Core, failure: bool) -> Core
    ensures { result ≡ (calibration_ends c failure).core }
{
    Core {
        calibration: Calibration {
            running: false,
            failed: c.calibration.failed | failure,
            calibrated: true,
        },
        ..c
    }
}

#[tactic(auto, unfolding(rules::specs::Play::settles))]
pub(crate) fn settled(c: Core) -> Core
    ensures { result ≡ (settles c).core }
{
    Core {
        clock: Clock {
            settling: false,
            ..c.clock
        },
        ..c
    }
}

pub(crate) fn on_signal(c: Core, x: Signal) -> Plan
    ensures { result ≡ signal_plan c x }
{
    match x {
        Signal::Tick => Plan {
            core: c,
            act: clocks_if(tick_accepted(c)),
        },
        Signal::Outside => Plan {
            core: c,
            act: clocks_if(clock_accepted(c)),
        },
        Signal::Trigger => Plan::core_alone(on_trigger(c)),
        Signal::Passed => Plan::core_alone(calibration_ends(c, false)),
        Signal::Failed => Plan::core_alone(calibration_ends(c, true)),
        Signal::Settled => Plan::core_alone(settled(c)),
    }
}
