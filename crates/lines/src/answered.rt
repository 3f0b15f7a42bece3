// The four answers of an event as a line has them: any numbers, since a line can be written of any.
ghost use Rattle.std.specs.Prelude.{◌≡◌};
ghost use Rattle.rules.specs.Numbered.{answer_of};
ghost use Rattle.lines.specs.Answers.{answer_in};

use rules::{Done, Refusal};

// 01: "refusal number; register value ..; values moved ..; load fate"
#[derive(Clone, Copy, Debug, PartialEq, Eq)]
pub struct Answered {
    pub refusal: u32,
    pub register: u32,
    pub moved: u32,
    pub fate: u32,
}

#[tactic(auto, unfolding(rules::specs::Numbered::refusal_number, rules::specs::Clocks::fate_number))]
impl From<Result<Done, Refusal>> for Answered {
    ghost from_gives = { λ r a. answer_in a ≡ answer_of r };

    fn from(answer: Result<Done, Refusal>) -> Answered {
        match answer {
            Ok(done) => Answered {
                refusal: 0,
                register: done.register,
                moved: done.moved,
                fate: done.fate as u32,
            },
            Err(why) => Answered {
                refusal: why as u32,
                register: 0,
                moved: 0,
                fate: 0,
            },
        }
    }
}
