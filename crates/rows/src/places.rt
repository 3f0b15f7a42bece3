// Where the levels of a row stand, behind the other fields; specs/Places.antt has the place of every field.
pub(crate) const LEVELS: usize = 35;

pub(crate) const LEVEL_COUNT: usize = 20;

// How many numbers a row has.
pub const ROW_LONG: usize = LEVELS + LEVEL_COUNT;
