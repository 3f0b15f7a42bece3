// The writers for hosts in Rust and C. A slice is a pointer and then a length on their side, and `end` a pointer (hosts/).
ghost use Rattle.writer.specs.Promises.{Writes, cut_of, Cuts};
ghost use Rattle.writer.specs.Written.{outcome_number};
ghost use Rattle.std.specs.Prelude.{◌≡◌};

use crate::{Order, WriteRefusal, cut, write};

// 02's number of an outcome, 0 where the session was written.
#[tactic(auto, unfolding(crate::specs::Written::outcome_number))]
fn number_of(outcome: Result<usize, WriteRefusal>) -> u32
    ensures { result ≡ outcome_number outcome }
{
    outcome.err().map_or(0, u32::from)
}

// A session of these rows, six numbers an event, in the output from a place on. Answers the refusal number, 0 where the session was
// written; `end` is the place after its last byte, and 0 where it was refused and nothing was written.
pub fn nergutsai_write(rows: &[u32], out: &mut [u8], place: usize, end: &mut usize) -> u32
    ensures { Writes rows.now out.old place (record { refusal = result; place = end.new }) out.new }
{
    let written = write(rows, out, place);
    let after = written.unwrap_or(0);
    *end = after;
    number_of(written)
}

// The session that loads a cut of a recording, in the output from a place on: of the groups from the first to the last, both taken, the
// numbers of the channels whose bits the mask has. Answers the refusal number, 0 where the session was written; `end` is the place after
// its last byte, and 0 where it was refused and nothing was written.
pub fn nergutsai_cut(
    recording: &[u16],
    channels: u32,
    first: usize,
    last: usize,
    mask: u32,
    out: &mut [u8],
    place: usize,
    end: &mut usize,
) -> u32
    ensures { Cuts (cut_of recording.now channels first last mask) out.old place (record { refusal = result; place = end.new }) out.new }
{
    let order = Order {
        recording,
        channels,
        first,
        last,
        mask,
    };
    let cut = cut(&order, out, place);
    let stop = cut.unwrap_or(0);
    *end = stop;
    number_of(cut)
}
