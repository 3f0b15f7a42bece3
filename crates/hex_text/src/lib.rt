// Hex text, in which people write session files: the bytes that it says. Every call takes every input.
#![tactic(auto)]

ghost use Rattle.hex_text.specs.Promises.{Decodes};

pub use crate::error::HexError;
use crate::marks::{mark_at, opening};
use hex_rules::Mark;

mod error;
mod marks;

// The bytes that a text says, from the start of out on, as far as there is room and the text is hex text: how many they are. The rest of
// out stays.
pub fn decode(text: &[u8], out: &mut [u8]) -> Result<usize, HexError>
    ensures { Decodes text.now out.old result out.new }
{
    // A byte is two characters and a blank is one, and a fault is told by its place: so the place goes on by hand.
    let mut at = opening(text);
    let mut comment = false;
    let mut n: usize = 0;
    while at < text.len() {
        match mark_at(text, at, comment) {
            Mark::Passed(x) => {
                at += 1;
                comment = x;
            }
            Mark::Byte(b) => {
                // std's `get_mut` promises of the slice after it the length alone, and not what is written
                if out.len() <= n {
                    return Err(HexError::Full);
                }
                out[n] = b;
                at += 2;
                comment = false;
                n += 1;
            }
            Mark::Fault => {
                return Err(HexError::NotHex(at));
            }
        }
    }
    Ok(n)
}
