// Whether a session fits into an output.
ghost use Rattle.std.specs.Prelude.{◌≡◌};
ghost use Rattle.writer.specs.Written.{outcome_number};
ghost use Rattle.writer.specs.Room.{room_refusal};

use crate::refusal::WriteRefusal;

// 02: "20 a place past the output's end, 21 when the whole session doesn't fit". So many bytes can be more than an address counts.
pub(crate) fn check_room(length: usize, place: usize, bytes: u128) -> Result<(), WriteRefusal>
    ensures { outcome_number result ≡ room_refusal length place bytes }
{
    if length < place {
        return Err(WriteRefusal::PlacePastEnd);
    }
    let room = (length - place) as u128;
    if room < bytes {
        return Err(WriteRefusal::NoRoom);
    }
    Ok(())
}
