// The smallest size that plays a session (02, 2026-05). A size code has to go into each event before it is played: so the loop goes by
// `run::next` and `board::step`.
#![tactic(auto)]

ghost use Rattle.sizes.specs.Numbered.{smallest_of};
ghost use Rattle.sizes.specs.Promises.{SizeNamed};

use crate::replay::{file_end, lowest_code};

mod exported;
mod refusal;
mod replay;
mod sized;

pub use exported::nergutsai_smallest_size;
pub use refusal::SizeRefusal;

// The smallest size of a session file over the lent sample memory, which is left as the replays leave it, and untouched where the file is
// refused. A file of any length is taken.
pub fn smallest_size(s: &[u8], memory: &mut [u32]) -> Result<u32, SizeRefusal>
    ensures { SizeNamed s.now memory.old (smallest_of result) memory.new }
{
    file_end(s)?;
    lowest_code(s, memory).ok_or(SizeRefusal::NonePlays)
}
