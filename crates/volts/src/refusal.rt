// Why a session has no table, and 02's number of it.
ghost use Rattle.std.specs.Prelude.{◌≡◌};
ghost use Rattle.volts.specs.Numbered.{volt_refusal_number};
ghost use Rattle.volts.specs.declared.refusal.VoltRefusal.TheVariants.{File};

use file_rules::{Fault, FileError};
use kinds::fault_number;

#[derive(Clone, Copy, Debug, PartialEq, Eq)]
pub enum VoltRefusal {
    // 02: "file refusals 10 to 13 come first"
    File(Fault),
    // "18 when the session has no accepted power-up"
    NoPowerUp,
}

impl From<FileError> for VoltRefusal {
    ghost from_gives = { λ x why. why ≡ File x.fault };

    fn from(x: FileError) -> VoltRefusal {
        VoltRefusal::File(x.fault)
    }
}

#[tactic(auto, unfolding(file_rules::specs::File::fault_number, crate::specs::Numbered::volt_refusal_number))]
impl From<VoltRefusal> for u32 {
    ghost from_gives = { λ why n. n ≡ volt_refusal_number why };

    fn from(why: VoltRefusal) -> u32 {
        match why {
            VoltRefusal::File(fault) => fault_number(fault),
            VoltRefusal::NoPowerUp => 18,
        }
    }
}
