// The listing of a session file as bytes in a lent output. Every call takes every input.
#![tactic(auto)]

ghost use Rattle.listing.specs.Promises.{Lists};

use crate::whole::put_body;
use lines::put_text;

mod exported;
mod hurry;
mod parts;
mod shortcuts;
mod whole;

pub use exported::nergutsai_list;

// An output that is too short, and how many bytes it has to have. This is no refusal of the file.
#[derive(Clone, Copy, Debug, PartialEq, Eq)]
pub struct ShortOutput {
    pub needed: usize,
}

// The listing of a session file on a board with this sample memory, as so many bytes of text. What stands past the text in the output is
// left as it was; an output that is too short is left as it was, and so is the memory.
pub fn list(s: &[u8], memory: &mut [u32], out: &mut [u8]) -> Result<usize, ShortOutput>
    ensures { Lists s.now memory.old out.old result memory.new out.new }
{
    let too_long = 65536 < s.len();
    if too_long {
        if out.len() < 9 {
            return Err(ShortOutput { needed: 9 });
        }
        return Ok(put_text(out, 0, b"TOO LONG\n"));
    }
    let room = 160 + 22 * s.len();
    let short = out.len() < room;
    if short {
        return Err(ShortOutput { needed: room });
    }
    let at = put_text(out, 0, b"REHEARSAL 1\n");
    Ok(put_body(s, memory, out, at))
}
