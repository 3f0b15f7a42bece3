// Which outside clocks and triggers are accepted.
ghost use Rattle.std.specs.Prelude.{◌≡◌};
ghost use Rattle.rules.specs.Clocks.{clock_accepted, trigger_accepted};

use rules::Core;
use status::clock_ready;

pub(crate) fn clock_accepted(c: Core) -> bool
    ensures { result ≡ clock_accepted c }
{
    c.mode.enabled & c.mode.external & !c.clock.alt & clock_ready(c)
}

pub(crate) fn trigger_accepted(c: Core) -> bool
    ensures { result ≡ trigger_accepted c }
{
    c.control.bursts & !c.control.barred & !c.burst.running & !c.calibration.running
}
