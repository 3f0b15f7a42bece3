// A board record by itself: which settings are in range, the unpowered record, its depth, and the mask of its kit.
// Every call takes every input, and tells what a rule says (`Told` of rules/specs/Told.antt). Here and above these are functions, and no
// methods of a record or a core: the crate of the types, `rules`, is what must be believed and holds no function.
#![tactic(auto)]

ghost use Rattle.std.specs.Prelude.{◌^◌, min};
ghost use Rattle.rules.specs.Record.{fitted_in_range, code_in_range, firmware_in_range, depth_of, depth, channels, unpowered};
ghost use Rattle.rules.specs.Told.{Told};
ghost use Rattle.record.specs.Capped.{capped_board};

use rules::Board;

// The record that a run starts from. 01: "The unpowered record is all zero."
pub fn unpowered() -> Board
    ensures { Told unpowered result }
{
    Board::default()
}

// 01: "a fitted code d (0 to 15), range, filter and kit codes (0 to 2) and a firmware number (0 to 4095)".
// Each of the three is a rule of 01.
pub fn fitted_in_range(d: u32) -> bool
    ensures { Told (fitted_in_range d) result }
{
    d <= 15
}

pub fn code_in_range(n: u32) -> bool
    ensures { Told (code_in_range n) result }
{
    n <= 2
}

pub fn firmware_in_range(n: u32) -> bool
    ensures { Told (firmware_in_range n) result }
{
    n <= 4095
}

// 01: "The depth is 8·2^d values." A code that is out of range counts as 15.
#[tactic(auto, unfolding(rules::specs::Record::depth_of))]
pub fn depth_of(d: u32) -> u32
    ensures { Told (depth_of (min d 15)) result }
{
    8 << d.min(15)
}

// The depth of a record.
pub fn depth(b: Board) -> u32
    ensures { Told (depth (capped_board b)) result }
{
    depth_of(b.size.fitted)
}

// One more than the highest mask of a kit's channels.
#[tactic(auto, unfolding(rules::specs::Record::channels))]
pub fn mask_limit(kit: u32) -> u32
    ensures { Told (2 ^ channels kit) result }
{
    match kit {
        0 => 64,
        1 => 4096,
        _ => 1048576,
    }
}
