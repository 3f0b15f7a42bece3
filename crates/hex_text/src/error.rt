// Why a text gives no bytes, or not all of them.
use std::error::Error;
use std::fmt;

#[derive(Clone, Copy, Debug, PartialEq, Eq)]
pub enum HexError {
    // The output was full, and the text says more.
    Full,
    // At this place of the text it is no hex text.
    NotHex(usize),
}

impl fmt::Display for HexError {
    fn fmt<W: fmt::Write>(&self, f: &mut fmt::Formatter<W>) -> fmt::Result {
        match self {
            HexError::Full => write!(f, "is too long"),
            HexError::NotHex(at) => write!(f, "is not hex text at byte {at}"),
        }
    }
}

impl Error for HexError {}
