// Why a session has no smallest size, and 02's number of it.
ghost use Rattle.std.specs.Prelude.{◌≡◌};
ghost use Rattle.sizes.specs.Numbered.{size_refusal_number};
ghost use Rattle.sizes.specs.declared.refusal.SizeRefusal.TheVariants.{File};

use file_rules::{Fault, FileError};
use kinds::fault_number;

// Not one type with that of a table of volts: each has a refusal that the other never gives.
#[derive(Clone, Copy, Debug, PartialEq, Eq)]
pub enum SizeRefusal {
    // 02: "10 to 13 first"
    File(Fault),
    // "19 exactly when none of the sixteen codes plays without loss"
    NonePlays,
}

impl From<FileError> for SizeRefusal {
    ghost from_gives = { λ x why. why ≡ File x.fault };

    fn from(x: FileError) -> SizeRefusal {
        SizeRefusal::File(x.fault)
    }
}

#[tactic(auto, unfolding(file_rules::specs::File::fault_number, crate::specs::Numbered::size_refusal_number))]
impl From<SizeRefusal> for u32 {
    ghost from_gives = { λ why n. n ≡ size_refusal_number why };

    fn from(why: SizeRefusal) -> u32 {
        match why {
            SizeRefusal::File(fault) => fault_number(fault),
            SizeRefusal::NonePlays => 19,
        }
    }
}
