// Session files: the types that specs/ speaks of and that the crates above work on. There is no function here: what stands in a file is
// said in specs/.
#![tactic(auto)]

use rules::Event;

// Why a file is refused; `as u32` is 01's number of it, as `fault_number` in specs/File.antt says.
#[derive(Clone, Copy, Debug, PartialEq, Eq)]
pub enum Fault {
    Version = 10,
    Cut = 11,
    Length = 12,
    Kind = 13,
}

// A file that is refused: why, and the place where the record starts.
#[derive(Clone, Copy, Debug, PartialEq, Eq)]
pub struct FileError {
    pub fault: Fault,
    pub place: usize,
}

// What stands at a place: an event, with the place of the next record; nothing, where the file ends with its last byte; or why it is
// refused.
pub type Item = Result<Option<(Event, usize)>, FileError>;
