// A core with other levels.
ghost use Rattle.std.specs.Prelude.{◌≡◌};
ghost use Rattle.moves.specs.Promises.{with_levels};

use rules::{Burst, Calibration, Clock, Control, Core, Load, Lost, Mode, Options, Outputs};

// Field by field: of parts that are copied whole, the compiler keeps groups of flags in memory and waits for them. Tried with `..core`: a
// listing takes 11 to 31 in 100 more time than the bar, which is that of this form.
pub(crate) fn with_levels(core: Core, levels: [u16; 20]) -> Core
    ensures { result ≡ with_levels core levels }
{
    Core {
        powered: core.powered,
        options: Options {
            range: core.options.range,
            filter: core.options.filter,
            kit: core.options.kit,
            firmware: core.options.firmware,
        },
        control: Control {
            bursts: core.control.bursts,
            ground_sense: core.control.ground_sense,
            binary: core.control.binary,
            differential: core.control.differential,
            barred: core.control.barred,
            simultaneous: core.control.simultaneous,
            selection: core.control.selection,
        },
        mode: Mode {
            external: core.mode.external,
            enabled: core.mode.enabled,
            circular: core.mode.circular,
        },
        calibration: Calibration {
            running: core.calibration.running,
            failed: core.calibration.failed,
            calibrated: core.calibration.calibrated,
        },
        clock: Clock {
            divisor: core.clock.divisor,
            nclk: core.clock.nclk,
            alt: core.clock.alt,
            settling: core.clock.settling,
        },
        burst: Burst {
            running: core.burst.running,
            software: core.burst.software,
        },
        load: Load {
            pending: core.load.pending,
            opened: core.load.opened,
        },
        lost: Lost {
            full: core.lost.full,
            closed: core.lost.closed,
        },
        outputs: Outputs {
            mask: core.outputs.mask,
            cursor: core.outputs.cursor,
            levels,
        },
    }
}
