// Why a session is not written.
ghost use Rattle.writer.specs.declared.refusal.WriteRefusal.TheVariants.{UnknownKind as unknown_kind};
ghost use Rattle.writer.specs.Written.{refusal_number};
ghost use Rattle.std.specs.Prelude.{◌≡◌};

use kinds::UnknownKind;
use std::error::Error;
use std::fmt;

// 02: "32 a slice not of whole events, .. 13 an unknown kind, 30 a field too large for its bytes or not 0 where the kind has none, 20 a
// place past the output's end, 21 when the whole session doesn't fit"; of a cut "22 channels in a group not 1 to 20, or length no whole
// number of groups; 23 empty choice, a channel outside the group, or groups out of range or reversed". `as u32` is that number, as
// `refusal_number` in specs/Written.antt says.
#[derive(Clone, Copy, Debug, PartialEq, Eq)]
pub enum WriteRefusal {
    UnknownKind = 13,
    PlacePastEnd = 20,
    NoRoom = 21,
    PartOfAGroup = 22,
    NoChoice = 23,
    FieldTooLarge = 30,
    PartOfARow = 32,
}

impl fmt::Display for WriteRefusal {
    fn fmt<W: fmt::Write>(&self, f: &mut fmt::Formatter<W>) -> fmt::Result {
        f.write_str(match self {
            WriteRefusal::UnknownKind => "a row has an unknown kind: kinds are 1 to 9",
            WriteRefusal::PlacePastEnd =>
                "the place is past the end of the output: name one inside it",
            WriteRefusal::NoRoom =>
                "the whole session doesn't fit behind the place: lend a longer output",
            WriteRefusal::PartOfAGroup => {
                "the recording is no whole number of groups of 1 to 20 channels: cut it short, or say how many channels a group has"
            }
            WriteRefusal::NoChoice => {
                "no number is chosen: choose channels inside a group, and groups inside the recording, the first one first"
            }
            WriteRefusal::FieldTooLarge => {
                "a field of a row is too large for its bytes: make it smaller, or 0 where the kind has no such field"
            }
            WriteRefusal::PartOfARow => "the rows have six numbers each: the last one is not whole",
        })
    }
}

impl Error for WriteRefusal {}

impl From<UnknownKind> for WriteRefusal {
    ghost from_gives = { λ _ why. why ≡ unknown_kind };

    fn from(_: UnknownKind) -> Self {
        Self::UnknownKind
    }
}

// 02's number of a refusal.
#[tactic(auto, unfolding(crate::specs::Written::refusal_number))]
impl From<WriteRefusal> for u32 {
    ghost from_gives = { λ why n. n ≡ refusal_number why };

    fn from(why: WriteRefusal) -> u32 {
        why as u32
    }
}
