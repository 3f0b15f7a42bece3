// The two registers that are read bit by bit, D00 first.
ghost use Rattle.std.specs.Prelude.{◌≡◌, ◌≤◌, length};
ghost use Rattle.rules.specs.Bits.{number};
ghost use Rattle.rules.specs.Registers.{read_at};
ghost use Rattle.record.specs.Capped.{capped_board};

use rules::Board;
use status::{
    active_size, bit, burst_ready, clock_ready, closed, is_empty, is_full, is_high, is_low,
};

// The number of a list of bits, D00 first.
pub(crate) fn number_of(bits: &[bool]) -> u32
    requires { length bits.now ≤ 32 }
    ensures { result ≡ number bits.now }
{
    let mut n = 0;
    for &set in bits.iter().rev() {
        n = u32::from(set) + 2 * n;
    }
    n
}

// 00h
pub(crate) fn read_control(b: Board) -> u32
    ensures { result ≡ read_at (capped_board b) 0x00 }
{
    let c = b.core;
    let s = c.control.selection;
    number_of(&[
        c.control.bursts,
        burst_ready(c),
        c.burst.software,
        c.control.ground_sense,
        c.control.binary,
        c.control.differential,
        c.control.barred,
        c.control.simultaneous,
        bit(s, 0),
        bit(s, 1),
        bit(s, 2),
        b.request,
        false,
        c.calibration.running,
        c.calibration.failed,
        false,
    ])
}

// 0Ch
pub(crate) fn read_buffer(b: Board) -> u32
    ensures { result ≡ read_at (capped_board b) 0x0C }
{
    let c = b.core;
    let n = b.ring.count;
    let code = b.size.code;
    let size = active_size(b.size);
    number_of(&[
        bit(code, 0),
        bit(code, 1),
        bit(code, 2),
        bit(code, 3),
        c.mode.external,
        c.mode.enabled,
        clock_ready(c),
        false,
        c.mode.circular,
        c.load.pending | c.load.opened,
        !closed(c),
        false,
        is_empty(n),
        is_low(size, n),
        is_high(size, n),
        is_full(size, n),
        c.lost.full,
        c.lost.closed,
    ])
}
