// Session files written: rows of six numbers, one for each event (02, request 2026-01), or a cut of a recording (2026-07), become a
// version 1 session in a lent output. Every call takes every input: what is wrong is told, and then nothing is written.
#![tactic(auto)]

ghost use Rattle.writer.specs.Orders.{order_of};
ghost use Rattle.writer.specs.Promises.{Writes, Cuts};
ghost use Rattle.writer.specs.Written.{written_of};

pub use crate::exported::{nergutsai_cut, nergutsai_write};
use crate::judging::check_rows;
use crate::loads::put_cut;
pub use crate::order::Order;
use crate::records::put_session;
pub use crate::refusal::WriteRefusal;
use crate::room::check_room;

mod exported;
mod judging;
mod loads;
mod order;
mod pieces;
mod records;
mod refusal;
mod room;

// 02: "from a lent slice of events, six numbers each (kind, then fields), it writes a version 1 session into a lent output, from a place
// the caller names, and says where it stopped". "32 a slice not of whole events, first"; then the rows are judged, and written only where
// the whole session fits: the version byte, three bytes a record, and their fields.
pub fn write(rows: &[u32], out: &mut [u8], place: usize) -> Result<usize, WriteRefusal>
    ensures { Writes rows.now out.old place (written_of result) out.new }
{
    let (whole, part) = rows.as_chunks::<6>();
    if !part.is_empty() {
        return Err(WriteRefusal::PartOfARow);
    }
    let fields = check_rows(whole)?;
    check_room(
        out.len(),
        place,
        1 + 3 * whole.len() as u128 + fields as u128,
    )?;
    Ok(put_session(whole, out, place))
}

// 02: "cut groups a to b .. and a chosen subset of channels, and write, as 2026-01 does, the session that loads them". The order is judged
// first, and written only where the whole session fits.
pub fn cut(order: &Order<'_>, out: &mut [u8], place: usize) -> Result<usize, WriteRefusal>
    ensures { Cuts (order_of order.now) out.old place (written_of result) out.new }
{
    order.check(out.len(), place)?;
    Ok(put_cut(order, out, place))
}
