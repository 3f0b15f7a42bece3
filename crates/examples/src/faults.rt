// Why an example does not show what it should.
use hex_text::HexError;
use std::fmt;

#[derive(Debug, Drop)]
pub(crate) enum Wrong {
    // The file of this ending cannot be read.
    Unread(&'static str),
    Hex(HexError),
    TooLong,
    // Bytes are counted from 0, as in the `FILE` line of a listing.
    DiffersAt(usize),
}

impl From<HexError> for Wrong {
    fn from(why: HexError) -> Wrong {
        Wrong::Hex(why)
    }
}

impl Wrong {
    // The ending of the file that is at fault; none where it is the example.
    pub(crate) fn ending(&self) -> &str {
        match self {
            Wrong::Unread(ending) => ending,
            _ => "",
        }
    }
}

// What is said behind the name of the file or the example.
impl fmt::Display for Wrong {
    fn fmt<W: fmt::Write>(&self, f: &mut fmt::Formatter<W>) -> fmt::Result {
        match self {
            Wrong::Unread(_) => write!(f, "cannot be read"),
            Wrong::Hex(why) => write!(f, "{why}"),
            Wrong::TooLong => write!(f, "is too long"),
            Wrong::DiffersAt(place) => write!(f, "differs at byte {place}"),
        }
    }
}
