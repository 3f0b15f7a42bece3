// A board record as a row of 55 numbers, for hosts in other languages: read from one, and written to one.
#![tactic(auto)]

ghost use Rattle.rules.specs.Told.{Told};
ghost use Rattle.rows.specs.Promises.{told_of, Put};

pub use crate::places::ROW_LONG;
use crate::reading::board_in;
use crate::writing::put_row;
pub use crate::writing::row_of;
use rules::Board;

mod places;
mod reading;
mod writing;

// A row of another length is not understood, and reads as a row of zeros does: as the unpowered record.
pub fn board_at(row: &[u32]) -> Board
    ensures { Told (told_of row.now) result }
{
    match row.as_array() {
        Some(row) => board_in(row),
        None => board_in(&[0; ROW_LONG]),
    }
}

// The row has another length than 55.
#[derive(Clone, Copy, Debug, PartialEq, Eq)]
pub struct WrongLength;

// A row of another length is left as it was, and answered `WrongLength`.
pub fn put_board(b: Board, row: &mut [u32]) -> Result<(), WrongLength>
    ensures { Put b row.old result row.new }
{
    let Some(row) = row.as_mut_array() else {
        return Err(WrongLength);
    };
    put_row(b, row);
    Ok(())
}
