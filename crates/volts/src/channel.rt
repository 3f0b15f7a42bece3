// The record of one channel, updated with the volts that it has after an event.
ghost use Rattle.std.specs.Prelude.{◌≡◌};
ghost use Rattle.volts.specs.Watching.{at_once, entered};

use volt_rules::Extremes;

// 02: "another accepted power-up starts afresh": the three are what the channel has now.
pub(crate) fn at_once(v: f32) -> Extremes
    ensures { result ≡ at_once v }
{
    Extremes {
        lowest: v,
        highest: v,
        last: v,
    }
}

// Two tests and not `min` and `max` of f32, which may answer either of two zeros, and the other one where one is no number.
pub(crate) fn entered(x: Extremes, v: f32) -> Extremes
    ensures { result ≡ entered x v }
{
    Extremes {
        lowest: if v < x.lowest { v } else { x.lowest },
        highest: if x.highest < v { v } else { x.highest },
        last: v,
    }
}
