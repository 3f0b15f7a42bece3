// The kinds of a session file's records: the kind that a number says, and back; how long each is, and which an event has; an event as a
// row that begins with its kind; and the numbers of a file's faults.
// Every call takes every input, and tells what a rule says (`Told` of rules/specs/Told.antt).
#![tactic(auto)]

ghost use Rattle.std.specs.Prelude.{◌≡◌};
ghost use Rattle.rules.specs.Told.{Told};
ghost use Rattle.file_rules.specs.Bytes.{kind_of};
ghost use Rattle.file_rules.specs.File.{length_of, signal_of, fault_number};
ghost use Rattle.file_rules.specs.Row.{row_of};
ghost use Rattle.kinds.specs.Numbers.{kind_number, Named};

use file_rules::Fault;
use rules::{Event, Signal};

// 01: "1 power-up ..; 2 write ..; 3 read ..; 4 tick, 5 outside clock, 6 trigger, 7 calibration passed, 8 failed, 9 settled"
#[derive(Clone, Copy, Debug, PartialEq, Eq)]
pub enum Kind {
    PowerUp,
    Write,
    Read,
    Signal(Signal),
}

// 01: "13 unknown record kind": a number that no kind has.
#[derive(Clone, Copy, Debug, PartialEq, Eq)]
pub struct UnknownKind;

#[tactic(auto, unfolding(file_rules::specs::File::length_of))]
impl TryFrom<u32> for Kind {
    type Error = UnknownKind;

    ghost try_from_gives = { Named };

    fn try_from(number: u32) -> Result<Kind, UnknownKind> {
        match number {
            1 => Ok(Kind::PowerUp),
            2 => Ok(Kind::Write),
            3 => Ok(Kind::Read),
            4..=9 => Ok(Kind::Signal(signal_of(number))),
            _ => Err(UnknownKind),
        }
    }
}

// And back.
impl From<Kind> for u32 {
    ghost from_gives = { λ k n. n ≡ kind_number k };

    fn from(kind: Kind) -> u32 {
        match kind {
            Kind::PowerUp => 1,
            Kind::Write => 2,
            Kind::Read => 3,
            Kind::Signal(s) => s as u32,
        }
    }
}

// The kind of an event's record.
impl From<Event> for Kind {
    ghost from_gives = { λ e k. kind_number k ≡ kind_of e };

    fn from(e: Event) -> Kind {
        match e {
            Event::PowerUp(_) => Kind::PowerUp,
            Event::Write { .. } => Kind::Write,
            Event::Read { .. } => Kind::Read,
            Event::Signal(s) => Kind::Signal(s),
        }
    }
}

impl Kind {
    // 01: "Kinds and lengths": how long a record of this kind is.
    #[tactic(auto, unfolding(file_rules::specs::File::length_of))]
    pub fn length(self) -> u32
        ensures { Told (length_of (kind_number self)) result }
    {
        match self {
            Kind::PowerUp => 7,
            Kind::Write => 6,
            Kind::Read => 2,
            Kind::Signal(_) => 1,
        }
    }
}

// 01: "4 tick, 5 outside clock, 6 trigger, 7 calibration passed, 8 failed, 9 settled"; any other number counts as 9.
#[tactic(auto, unfolding(file_rules::specs::File::signal_of))]
pub fn signal_of(number: u32) -> Signal
    ensures { Told (signal_of number) result }
{
    match number {
        4 => Signal::Tick,
        5 => Signal::Outside,
        6 => Signal::Trigger,
        7 => Signal::Passed,
        8 => Signal::Failed,
        _ => Signal::Settled,
    }
}

// The row of an event: its kind, then its fields, 0 where the kind has none.
pub fn row_of(e: Event) -> [u32; 6]
    ensures { Told (row_of e) result }
{
    let kind = u32::from(Kind::from(e));
    match e {
        Event::PowerUp(x) => [kind, x.fitted, x.range, x.filter, x.kit, x.firmware],
        Event::Write { offset, value } => [kind, offset, value, 0, 0, 0],
        Event::Read { offset } => [kind, offset, 0, 0, 0, 0],
        Event::Signal(_) => [kind, 0, 0, 0, 0, 0],
    }
}

// 01's number of what is wrong with a file. A function and no `From`, which would have to stand where `Fault` does, among definitions.
#[tactic(auto, unfolding(file_rules::specs::File::fault_number))]
pub fn fault_number(why: Fault) -> u32
    ensures { Told (fault_number why) result }
{
    why as u32
}
