// Why a call is not understood, by the number that it is answered with; specs/Calls.antt says which comes first.
ghost use Rattle.std.specs.Prelude.{◌≡◌};
ghost use Rattle.bridge.specs.Misfits.{status_number};

use kinds::UnknownKind;

#[derive(Clone, Copy, Debug, PartialEq, Eq)]
pub(crate) enum Misfit {
    Record = 1,
    Event = 2,
    Room = 3,
    Kind = 4,
}

impl From<UnknownKind> for Misfit {
    ghost use Rattle.bridge.specs.declared.misfit.Misfit.{Misfit};

    ghost from_gives = { λ _ why. why ≡ Misfit.Kind };

    fn from(_: UnknownKind) -> Misfit {
        Misfit::Kind
    }
}

// 0 where the call was understood.
pub(crate) fn status(call: Result<(), Misfit>) -> u32
    ensures { result ≡ status_number call }
{
    match call {
        Ok(()) => 0,
        Err(why) => why as u32,
    }
}
