// Records and the whole session, written where there is room for them.
ghost use Rattle.std.specs.Prelude.{◌+◌, ◌≤◌, ◌≡◌, ◌∷◌, length, map};
ghost use Rattle.file_rules.specs.Bytes.{bytes_of, records_of};
ghost use Rattle.file_rules.specs.Row.{event_of_row};
ghost use Rattle.file_rules.specs.Pieces.{Piece};
ghost use Rattle.file_rules.specs.Writing.{row_refusal, first_bad};

use crate::pieces::{put, put_record, put_write};
use kinds::Kind;

// The record of a good row; 01: "power-up (d, range, filter, kit, firmware in two bytes)", "write (offset, value in four)", "read (offset)".
#[tactic(auto, using(crate::proofs::GoodRows::power_up_row, crate::proofs::GoodRows::write_row, crate::proofs::GoodRows::read_row, crate::proofs::GoodRows::signal_row))]
fn put_row(out: &mut [u8], at: usize, row: &[u32; 6]) -> usize
    requires good { row_refusal row.now ≡ 0 }
    requires room { at + length (bytes_of (event_of_row row.now)) ≤ length out.old }
    ensures { Piece out.old at (bytes_of (event_of_row row.now)) out.new result }
{
    let [number, a, b, c, d, e] = *row;
    let Ok(kind) = Kind::try_from(number) else {
        unreachable!()
    };
    match kind {
        Kind::PowerUp => {
            let [high, low] = (e as u16).to_be_bytes();
            put_record(out, at, 1, [a as u8, b as u8, c as u8, d as u8, high, low])
        }
        Kind::Write => put_write(out, at, a as u8, b),
        Kind::Read => put_record(out, at, 3, [a as u8]),
        Kind::Signal(_) => put_record(out, at, number as u8, []),
    }
}

// 01: "Byte 01, then records"
pub(crate) fn put_session(rows: &[[u32; 6]], out: &mut [u8], place: usize) -> usize
    requires good { first_bad rows.now ≡ 0 }
    requires room { place + 1 + length (records_of (map event_of_row rows.now)) ≤ length out.old }
    ensures { Piece out.old place (1 ∷ records_of (map event_of_row rows.now)) out.new result }
{
    let mut to = put(out, place, [1]);
    for row in rows {
        to = put_row(out, to, row);
    }
    to
}
