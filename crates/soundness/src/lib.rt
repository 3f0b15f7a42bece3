// Which records are sound. Every call takes every input. It tells what the rule says (`Told` of rules/specs/Told.antt).
#![tactic(auto)]

ghost use Rattle.rules.specs.Record.{sound};
ghost use Rattle.rules.specs.Told.{Told};

use crate::clauses::{sound_core, sound_ring};
use record::depth;
use rules::Board;

mod clauses;

// Whether a record is sound.
pub fn is_sound(b: Board) -> bool
    ensures { Told (sound b) result }
{
    sound_core(b.core) & sound_ring(b.size, b.ring, depth(b))
}
