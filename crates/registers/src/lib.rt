// The registers as the bus reads them. Every call takes every input, and tells what a rule says (`Told` of rules/specs/Told.antt); a
// fitted code above 15, as no sound record has, counts as 15 (`capped` of record/specs/Capped.antt).
#![tactic(auto)]

ghost use Rattle.rules.specs.Registers.{read_at};
ghost use Rattle.rules.specs.Told.{Told};
ghost use Rattle.record.specs.Capped.{capped_board};

use crate::bitwise::{read_buffer, read_control};
use crate::fieldwise::read_fields;
use rules::Board;

mod bitwise;
mod fieldwise;

// What is read at an offset; 0 where there is no register. Offsets are numbers, here and wherever they are asked for: an event carries
// any, and 01 names most registers by them alone; an enum would leave its `None` to be answered at each place.
pub fn register_at(b: Board, o: u32) -> u32
    ensures { Told (read_at (capped_board b) o) result }
{
    match o {
        0x00 => read_control(b),
        0x0C => read_buffer(b),
        _ => read_fields(b, o),
    }
}
