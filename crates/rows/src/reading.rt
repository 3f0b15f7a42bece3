// A board record read from a row: the numbers in their order, each into its field.
ghost use Rattle.std.specs.Prelude.{◌≡◌, ◌%◌};
ghost use Rattle.rules.specs.Record.{level_span};
ghost use Rattle.rows.specs.Reading.{levels_at, board_at};

use crate::places::{LEVEL_COUNT, LEVELS, ROW_LONG};
use rules::{
    Board, Burst, Calibration, Clock, Control, Core, Load, Lost, Mode, Options, Outputs, Ring, Size,
};
use std::array;

// A level is taken modulo 10000h; `as u16` alone asks for a number that fits.
fn level(x: u32) -> u16
    ensures { result ≡ x % level_span }
{
    (x % 65536) as u16
}

// Tried `levels @ ..` in the pattern of `board_in`: the borrow checker does not cover a part of an array taken by value; a chunk is an Option.
fn levels_at(row: &[u32; ROW_LONG]) -> [u16; LEVEL_COUNT]
    ensures { result ≡ levels_at row.now }
{
    array::from_fn(|i| level(row[LEVELS + i]))
}

pub(crate) fn board_in(row: &[u32; ROW_LONG]) -> Board
    ensures { result ≡ board_at row.now }
{
    let [
        powered,
        range,
        filter,
        kit,
        firmware,
        fitted,
        code,
        bursts,
        ground_sense,
        binary,
        differential,
        barred,
        simultaneous,
        selection,
        external,
        enabled,
        circular,
        calibration_running,
        failed,
        calibrated,
        divisor,
        nclk,
        alt,
        settling,
        burst_running,
        software,
        pending,
        opened,
        full,
        closed,
        mask,
        cursor,
        request,
        first,
        count,
        ..
    ] = *row;
    let core = Core {
        powered: powered != 0,
        options: Options {
            range,
            filter,
            kit,
            firmware,
        },
        control: Control {
            bursts: bursts != 0,
            ground_sense: ground_sense != 0,
            binary: binary != 0,
            differential: differential != 0,
            barred: barred != 0,
            simultaneous: simultaneous != 0,
            selection,
        },
        mode: Mode {
            external: external != 0,
            enabled: enabled != 0,
            circular: circular != 0,
        },
        calibration: Calibration {
            running: calibration_running != 0,
            failed: failed != 0,
            calibrated: calibrated != 0,
        },
        clock: Clock {
            divisor,
            nclk,
            alt: alt != 0,
            settling: settling != 0,
        },
        burst: Burst {
            running: burst_running != 0,
            software: software != 0,
        },
        load: Load {
            pending: pending != 0,
            opened: opened != 0,
        },
        lost: Lost {
            full: full != 0,
            closed: closed != 0,
        },
        outputs: Outputs {
            mask,
            cursor,
            levels: levels_at(row),
        },
    };
    Board {
        core,
        size: Size { fitted, code },
        request: request != 0,
        ring: Ring { first, count },
    }
}
