// The clauses of soundness.
ghost use Rattle.std.specs.Prelude.{min, ◌≡◌};
ghost use Rattle.rules.specs.Bits.{only_if};
ghost use Rattle.rules.specs.Record.{depth_of, options_in_range, sound_core, sound_ring};

use record::{code_in_range, firmware_in_range, fitted_in_range, mask_limit};
use rules::{Core, Options, Ring, Size};

// a only if b
pub(crate) fn only_if(a: bool, b: bool) -> bool
    ensures { result ≡ only_if a b }
{
    !a | b
}

// Each clause is a value, and `&` joins them: nearly all of a sound record's hold, so that to skip the later ones would only cost tests.
pub(crate) fn options_in_range(o: Options) -> bool
    ensures { result ≡ options_in_range o }
{
    code_in_range(o.range)
        & code_in_range(o.filter)
        & code_in_range(o.kit)
        & firmware_in_range(o.firmware)
}

// 01's clauses of soundness that speak of the core.
pub(crate) fn sound_core(c: Core) -> bool
    ensures { result ≡ sound_core c }
{
    c.powered
        & options_in_range(c.options)
        & (c.outputs.mask < mask_limit(c.options.kit))
        & (c.outputs.cursor <= 20)
        & only_if(c.control.simultaneous, c.outputs.cursor == 0)
        & (c.control.selection <= 7)
        & (c.clock.nclk <= 511)
        & only_if(c.load.pending | c.load.opened, c.mode.circular)
        & !(c.load.pending & c.load.opened)
        & only_if(c.burst.running, c.control.bursts)
        & only_if(c.burst.software, c.burst.running)
        & !(c.calibration.running & c.calibration.calibrated)
}

// 01's clauses of soundness that speak of sizes and places, d being the depth where the fitted code is in range.
pub(crate) fn sound_ring(s: Size, r: Ring, d: u32) -> bool
    requires { d ≡ depth_of (min s.fitted 15) }
    ensures { result ≡ sound_ring s r }
{
    fitted_in_range(s.fitted) & (s.code <= 15) & (r.first < d) & (r.count <= d)
}
