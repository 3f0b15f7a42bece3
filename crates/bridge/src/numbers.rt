// The answers of the board, in numbers, as hosts get them. (`Answered` of `lines` has the same four for a line: no crate of code is below both.)
ghost use Rattle.std.specs.Prelude.{◌≡◌};
ghost use Rattle.rules.specs.Numbered.{answer_of, figures_of};
ghost use Rattle.bridge.specs.Calls.{answer_row, figures_row};

use rules::{Done, Frequencies, Refusal};

// 01: "Each event answers: refusal number; register value ..; values moved ..; load fate": in this order.
#[tactic(auto, unfolding(rules::specs::Numbered::refusal_number))]
pub(crate) fn answer_row(answer: Result<Done, Refusal>) -> [u32; 4]
    ensures { result ≡ answer_row (answer_of answer) }
{
    match answer {
        Ok(done) => [0, done.register, done.moved, done.fate as u32],
        Err(why) => [why as u32, 0, 0, 0],
    }
}

// 01: "A rate question answers refusal number, whole reference and rate": in this order.
#[tactic(auto, unfolding(rules::specs::Numbered::refusal_number))]
pub(crate) fn figures_row(answer: Result<Frequencies, Refusal>) -> [u32; 3]
    ensures { result ≡ figures_row (figures_of answer) }
{
    match answer {
        Ok(f) => [0, f.reference, f.rate],
        Err(why) => [why as u32, 0, 0],
    }
}
