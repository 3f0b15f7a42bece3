// A board record as a row: its fields in the order of their places, and the levels last.
ghost use Rattle.std.specs.Prelude.{◌≡◌};
ghost use Rattle.std.proofs.lemmas.List.Edits.{sets};
ghost use Rattle.rules.specs.Told.{Told};
ghost use Rattle.rows.specs.Places as places;
ghost use Rattle.rows.specs.Writing.{fields_row, board_row};

use crate::places::{LEVEL_COUNT, LEVELS, ROW_LONG};
use rules::Board;

// All of a row but its levels; a bool is 0 or 1.
// `as u32` of a bool, and no `u32::from`: the proof would cite each call by name, where one line has all casts now.
fn fields_of(b: Board) -> [u32; LEVELS]
    ensures { result ≡ fields_row b }
{
    let c = b.core;
    [
        c.powered as u32,
        c.options.range,
        c.options.filter,
        c.options.kit,
        c.options.firmware,
        b.size.fitted,
        b.size.code,
        c.control.bursts as u32,
        c.control.ground_sense as u32,
        c.control.binary as u32,
        c.control.differential as u32,
        c.control.barred as u32,
        c.control.simultaneous as u32,
        c.control.selection,
        c.mode.external as u32,
        c.mode.enabled as u32,
        c.mode.circular as u32,
        c.calibration.running as u32,
        c.calibration.failed as u32,
        c.calibration.calibrated as u32,
        c.clock.divisor,
        c.clock.nclk,
        c.clock.alt as u32,
        c.clock.settling as u32,
        c.burst.running as u32,
        c.burst.software as u32,
        c.load.pending as u32,
        c.load.opened as u32,
        c.lost.full as u32,
        c.lost.closed as u32,
        c.outputs.mask,
        c.outputs.cursor,
        b.request as u32,
        b.ring.first,
        b.ring.count,
    ]
}

// By place: `map` of an array makes an `Option` of each level, and an event of a host took half as long again.
fn put_levels(levels: [u16; LEVEL_COUNT], row: &mut [u32; ROW_LONG])
    ensures { row.new ≡ sets row.old places.levels levels }
{
    for i in 0..LEVEL_COUNT {
        row[LEVELS + i] = u32::from(levels[i]);
    }
}

// The row of a record, written where it stands; its levels stand last.
pub(crate) fn put_row(b: Board, row: &mut [u32; ROW_LONG])
    ensures { row.new ≡ board_row b }
{
    row[..LEVELS].copy_from_slice(&fields_of(b));
    put_levels(b.core.outputs.levels, row);
}

// The same, for a caller that has no row yet.
pub fn row_of(b: Board) -> [u32; ROW_LONG]
    ensures { Told (board_row b) result }
{
    let mut row = [0; ROW_LONG];
    put_row(b, &mut row);
    row
}
