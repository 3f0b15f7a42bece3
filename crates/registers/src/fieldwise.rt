// The registers that are read field by field.
ghost use Rattle.std.specs.Prelude.{◌≢◌, ◌≡◌};
ghost use Rattle.rules.specs.Registers.{read_at};
ghost use Rattle.record.specs.Capped.{capped_board};

use rules::Board;

// 10h
pub(crate) fn read_options(b: Board) -> u32
    ensures { result ≡ read_at (capped_board b) 0x10 }
{
    let o = b.core.options;
    o.firmware % 4096 + 65536 * (o.range % 4) + 262144 * (o.filter % 4) + 1048576 * (o.kit % 4)
}

// 1Ch
pub(crate) fn read_adjust(b: Board) -> u32
    ensures { result ≡ read_at (capped_board b) 0x1C }
{
    let k = b.core.clock;
    k.nclk % 512 + 512 * u32::from(k.alt)
}

// The registers but the two that are bit by bit; 14h and 18h read 0.
pub(crate) fn read_fields(b: Board, o: u32) -> u32
    ensures { o ≢ 0x00 → o ≢ 0x0C → result ≡ read_at (capped_board b) o }
{
    match o {
        0x04 => b.core.outputs.mask % 1048576,
        0x08 => b.core.clock.divisor % 65536,
        0x10 => read_options(b),
        0x1C => read_adjust(b),
        _ => 0,
    }
}
