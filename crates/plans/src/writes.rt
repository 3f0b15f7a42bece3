// Writes as changes of the core, and what the write to each offset plans.
ghost use Rattle.std.specs.Prelude.{◌≡◌};
ghost use Rattle.plans.specs.Parts.{core_of, buffer_act};
ghost use Rattle.plans.specs.Plan.{write_plan};
ghost use Rattle.rules.specs.Writes.{initial, control_of, burst_of, cursor_of, calibration_of, write_control, write_mask, write_rate, write_adjust, mode_of, lost_of, load_kept, load_asked, buffer_of};

use crate::signals::clocks_if;
use crate::states::clock_accepted;
use crate::{Act, Plan};
use record::mask_limit;
use rules::{Burst, Calibration, Clock, Control, Core, Load, Lost, Mode, Options, Outputs};
use status::{bit, write_initialises};

// 01: "Initialise: BCR 00000810h, mask of all fitted channels, divisor 0064h, .." What is not written here is zero.
#[tactic(auto, unfolding(rules::specs::Writes::initial))]
pub(crate) fn initial(o: Options) -> Core
    ensures { result ≡ initial o }
{
    Core {
        powered: true,
        options: o,
        control: Control {
            binary: true,
            ..Control::default()
        },
        clock: Clock {
            divisor: 100,
            ..Clock::default()
        },
        outputs: Outputs {
            mask: mask_limit(o.kit) - 1,
            cursor: 0,
            levels: [32768; 20],
        },
        ..Core::default()
    }
}

// 01: "store D0, D3 to D10"
pub(crate) fn control_of(v: u32) -> Control
    ensures { result ≡ control_of v }
{
    Control {
        bursts: bit(v, 0),
        ground_sense: bit(v, 3),
        binary: bit(v, 4),
        differential: bit(v, 5),
        barred: bit(v, 6),
        simultaneous: bit(v, 7),
        selection: v / 256 % 8,
    }
}

// 01: "D0 = 0 ends a burst"; "D2 = 1 with D0 set and no burst starts one"
#[tactic(auto, unfolding(rules::specs::Writes::burst_of))]
pub(crate) fn burst_of(v: u32, x: Burst) -> Burst
    ensures { result ≡ burst_of v x }
{
    if !bit(v, 0) {
        Burst::default()
    } else if bit(v, 2) & !x.running {
        Burst {
            running: true,
            software: true,
        }
    } else {
        x
    }
}

// 01: "changed D7 sets the cursor to 0"
#[tactic(auto, unfolding(rules::specs::Writes::cursor_of))]
pub(crate) fn cursor_of(was: bool, is: bool, n: u32) -> u32
    ensures { result ≡ cursor_of was is n }
{
    if was == is { n } else { 0 }
}

// 01: "D13 = 1 starts calibration, clearing D14 and "calibrated""
#[tactic(auto, unfolding(rules::specs::Writes::calibration_of))]
pub(crate) fn calibration_of(v: u32, x: Calibration) -> Calibration
    ensures { result ≡ calibration_of v x }
{
    if bit(v, 13) {
        Calibration {
            running: true,
            ..Calibration::default()
        }
    } else {
        x
    }
}

#[tactic(auto, unfolding(rules::specs::Writes::write_control))]
pub(crate) fn write_control(c: Core, v: u32) -> Core
    ensures { result ≡ (write_control c v).core }
{
    let control = control_of(v);
    Core {
        control,
        burst: burst_of(v, c.burst),
        calibration: calibration_of(v, c.calibration),
        outputs: Outputs {
            cursor: cursor_of(
                c.control.simultaneous,
                control.simultaneous,
                c.outputs.cursor,
            ),
            ..c.outputs
        },
        ..c
    }
}

// 01: "04h keeps the bits of fitted channels and sets the cursor to 0."
#[tactic(auto, unfolding(rules::specs::Writes::write_mask))]
pub(crate) fn write_mask(c: Core, v: u32) -> Core
    ensures { result ≡ (write_mask c v).core }
{
    Core {
        outputs: Outputs {
            mask: v % mask_limit(c.options.kit),
            cursor: 0,
            ..c.outputs
        },
        ..c
    }
}

// 01: "08h keeps 16 bits."
#[tactic(auto, unfolding(rules::specs::Writes::write_rate))]
pub(crate) fn write_rate(c: Core, v: u32) -> Core
    ensures { result ≡ (write_rate c v).core }
{
    Core {
        clock: Clock {
            divisor: v % 65536,
            ..c.clock
        },
        ..c
    }
}

// 01: "1Ch keeps Nclk (D8..0) and ALT (D9); a changed Nclk with EXTERNAL CLOCK set starts settling"
#[tactic(auto, unfolding(rules::specs::Writes::write_adjust))]
pub(crate) fn write_adjust(c: Core, v: u32) -> Core
    ensures { result ≡ (write_adjust c v).core }
{
    let nclk = v % 512;
    Core {
        clock: Clock {
            nclk,
            alt: bit(v, 9),
            settling: c.clock.settling | (c.mode.external & (nclk != c.clock.nclk)),
            ..c.clock
        },
        ..c
    }
}

pub(crate) fn mode_of(v: u32) -> Mode
    ensures { result ≡ mode_of v }
{
    Mode {
        external: bit(v, 4),
        enabled: bit(v, 5),
        circular: bit(v, 8),
    }
}

// 01: "D16, D17 = 0 clear those flags, 1 leaves them"
pub(crate) fn lost_of(v: u32, x: Lost) -> Lost
    ensures { result ≡ lost_of v x }
{
    Lost {
        full: x.full & bit(v, 16),
        closed: x.closed & bit(v, 17),
    }
}

// 01: "D8 = 0 drops pending and opened; D11 = 1 .. drops pending and opened"
#[tactic(auto, unfolding(rules::specs::Writes::load_kept))]
pub(crate) fn load_kept(v: u32, x: Load) -> Load
    ensures { result ≡ load_kept v x }
{
    if bit(v, 8) & !bit(v, 11) {
        x
    } else {
        Load::default()
    }
}

// 01: "if circular and not opened, pending = D9"
#[tactic(auto, unfolding(rules::specs::Writes::load_asked))]
pub(crate) fn load_asked(v: u32, x: Load) -> Load
    ensures { result ≡ load_asked v x }
{
    if bit(v, 8) & !x.opened {
        Load {
            pending: bit(v, 9),
            ..x
        }
    } else {
        x
    }
}

// The core of a BOR write when its software clock is tried.
#[tactic(auto, unfolding(rules::specs::Writes::buffer_of))]
pub(crate) fn buffer_of(v: u32, c: Core) -> Core
    ensures { result ≡ buffer_of v c }
{
    let clears = bit(v, 11);
    let burst = if clears { Burst::default() } else { c.burst };
    let cursor = if clears { 0 } else { c.outputs.cursor };
    Core {
        mode: mode_of(v),
        lost: lost_of(v, c.lost),
        load: load_asked(v, load_kept(v, c.load)),
        burst,
        outputs: Outputs {
            cursor,
            ..c.outputs
        },
        ..c
    }
}

// A write that changes the core alone.
#[tactic(auto, unfolding(crate::specs::Parts::core_of))]
pub(crate) fn write_core(c: Core, o: u32, v: u32) -> Core
    ensures { result ≡ core_of c o v }
{
    match o {
        0x00 => write_control(c, v),
        0x04 => write_mask(c, v),
        0x08 => write_rate(c, v),
        _ => write_adjust(c, v),
    }
}

// 01: "D11 = 1 empties"; "D7 = 1 tries a software clock"
pub(crate) fn buffer_act(v: u32, accepted: bool) -> Act
    ensures { result ≡ buffer_act v accepted }
{
    let empties = bit(v, 11);
    if empties {
        Act::Empties
    } else {
        clocks_if(bit(v, 7) & accepted)
    }
}

// A write to any offset that takes one.
#[tactic(auto, unfolding(crate::specs::Plan::write_plan, crate::specs::Plan::buffer_plan, rules::specs::Size::initialises))]
pub(crate) fn on_write(c: Core, o: u32, v: u32) -> Plan
    ensures { result ≡ write_plan c o v }
{
    match o {
        0x0C => {
            let core = buffer_of(v, c);
            Plan {
                core,
                act: buffer_act(v, clock_accepted(core)),
            }
        }
        0x18 => Plan {
            core: c,
            act: Act::Loads(v),
        },
        _ if write_initialises(o, v) => Plan::initial(c.options),
        _ => Plan::core_alone(write_core(c, o, v)),
    }
}
