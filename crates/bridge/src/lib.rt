// One event, and the rate question, on rows of numbers, for hosts in Rust and C.
// A slice is a pointer and then a length on their side (hosts/), and what is answered a number, since C has no Result.
#![tactic(auto)]

ghost use Rattle.bridge.specs.Misfits.{status_number};
ghost use Rattle.bridge.specs.Promises.{Called, RateCalled};

use crate::events::row_event;
use crate::misfit::{Misfit, status};
use crate::numbers::{answer_row, figures_row};
use board::step;
use rates::rate;
use rows::{ROW_LONG, board_at, put_board};

mod events;
mod misfit;
mod numbers;

// 01: "the given record comes back": a refused event leaves the row alone, and does not write it anew.
// The lengths of row, answer and figures are tests of their own, no array types: a test of a wrong length is refused by numbers so.
fn event_called(
    row: &mut [u32],
    memory: &mut [u32],
    event: &[u32],
    answer: &mut [u32],
) -> Result<(), Misfit>
    ensures { Called row.old memory.old event.now answer.old (status_number result) row.new memory.new answer.new }
{
    let other = row.len() != ROW_LONG;
    if other {
        return Err(Misfit::Record);
    }
    let Some(numbers) = event.as_array() else {
        return Err(Misfit::Event);
    };
    let misfit = answer.len() != 4;
    if misfit {
        return Err(Misfit::Room);
    }
    let event = row_event(numbers)?;
    let reply = step(board_at(row), memory, event);
    answer.copy_from_slice(&answer_row(reply.answer));
    let done = reply.answer.is_ok();
    if done {
        // a row of another length was told above
        let _ = put_board(reply.board, row);
    }
    Ok(())
}

fn rate_called(row: &[u32], figures: &mut [u32]) -> Result<(), Misfit>
    ensures { RateCalled row.now figures.old (status_number result) figures.new }
{
    let other = row.len() != ROW_LONG;
    if other {
        return Err(Misfit::Record);
    }
    let misfit = figures.len() != 3;
    if misfit {
        return Err(Misfit::Room);
    }
    figures.copy_from_slice(&figures_row(rate(board_at(row))));
    Ok(())
}

// One event. Answers 0 where the call was understood, be the event done or refused; else why it was not (specs/Calls.antt).
pub fn nergutsai_event(
    row: &mut [u32],
    memory: &mut [u32],
    event: &[u32],
    answer: &mut [u32],
) -> u32
    ensures { Called row.old memory.old event.now answer.old result row.new memory.new answer.new }
{
    status(event_called(row, memory, event, answer))
}

// The rate question, which asks a record alone and leaves it as it is. Answers 0 where it was understood, be the figures given or
// refused; else why it was not (specs/Calls.antt).
pub fn nergutsai_rate(row: &[u32], figures: &mut [u32]) -> u32
    ensures { RateCalled row.now figures.old result figures.new }
{
    status(rate_called(row, figures))
}
