// Which channels an accepted clock serves. Every call takes every input. It tells what specs/Serving.antt says
// (`Told` of rules/specs/Told.antt).
#![tactic(auto)]

ghost use Rattle.rules.specs.Told.{Told};
ghost use Rattle.channels.specs.Serving.{serving_of};

use crate::amounts::to_move;
use crate::targets::{cursor_after, served};
use rules::Core;
use status::closed;

mod amounts;
mod ascending;
mod targets;

pub use ascending::ActiveChannels;

// What an accepted clock is to do: the channels that it gives a value each, as a mask; how many these are; the cursor after it; and
// whether the values are stored again.
#[derive(Clone, Copy)]
pub struct Serving {
    pub mask: u32,
    pub moved: u32,
    pub cursor: u32,
    pub again: bool,
}

// Which channels an accepted clock serves, count values being stored. Where the core's mask or cursor is out of range it serves none.
pub fn serve(c: Core, count: u32) -> Serving
    ensures { Told (serving_of c count) result }
{
    let still = Serving {
        mask: 0,
        moved: 0,
        cursor: c.outputs.cursor,
        again: closed(c),
    };
    let n = to_move(c, count);
    if n == 0 {
        return still;
    }
    Serving {
        mask: served(c),
        moved: n,
        cursor: cursor_after(c),
        ..still
    }
}
