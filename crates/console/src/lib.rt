// Standard input and output of the programs. A failure is said on standard error and is never taken for the end of the input.
// No promise can say what is read or written: that rests on std's contracts, and on the C library below them.
#![tactic(auto)]

ghost use Rattle.std.specs.Prelude.{◌≡◌, ◌<◌, ◌≤◌, length, take, IfOk};
ghost use Rattle.std.specs.Io.{ReadsAtMost};
ghost use Rattle.std.specs.Io.KnownBytes.{Consumes, IsAtEnd};

pub use crate::program::{Program, Said};
use std::io;
use std::io::Read;

mod program;

// Room for N bytes. A list of a million zeros is too long for a proof to look at: so its length is promised.
pub fn room<const N: usize>() -> [u8; N]
    ensures { N ≡ length result }
{
    [0; N]
}

// Reads to the end of the input, or until buf is full. Where it is known what the input has, that stands at the front of buf then, and an
// input that did not fill buf is at its end. std reads to an end only into a `Vec`, and the room here is fixed: so the loop counts.
pub fn read_all<R: Read>(input: &mut R, buf: &mut [u8]) -> io::Result<usize>
    ensures bound { ReadsAtMost result buf.new }
    ensures bytes { IfOk result (λ n. Consumes (R.remaining input.old) (R.remaining input.new) (take n buf.new)) }
    ensures end { IfOk result (λ n. n < length buf.new → IsAtEnd (R.remaining input.new)) }
{
    let mut n: usize = 0;
    while n < buf.len() {
        let k = input.read(&mut buf[n..])?;
        if k == 0 {
            return Ok(n);
        }
        n += k;
    }
    Ok(n)
}
