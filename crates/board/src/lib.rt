// The board: one event on a record and its lent sample memory, as `rules` says.
// Every call takes every input. What each promises is in specs/Promises.antt.
#![tactic(auto)]

ghost use Rattle.board.specs.Promises.{Stepped};

use refusals::judge;
use rules::{Board, Done, Event, Refusal};

mod carry;
mod steps;

// What an event answers, and the record after it.
#[derive(Clone, Copy)]
pub struct Reply {
    pub answer: Result<Done, Refusal>,
    pub board: Board,
}

// One event on a board record and its lent sample memory. 01: "On refusal .. the given record comes back and memory is unchanged."
pub fn step(b: Board, memory: &mut [u32], e: Event) -> Reply
    ensures { Stepped b memory.old e result memory.new }
{
    match judge(b, memory.len(), e) {
        Ok(()) => steps::done(b, memory, e),
        Err(why) => Reply {
            answer: Err(why),
            board: b,
        },
    }
}
