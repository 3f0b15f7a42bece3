// How a session file ends.
use crate::print;
use file_rules::FileError;
use kinds::fault_number;
use std::io;

// 0 where it is whole; else by which number it is at fault, and the place.
pub(crate) fn print_ending(rt: &impl Print, file: &[u8]) -> io::Result<()> {
    let mut memory = [0u32; 8];
    match run::run(file, &mut memory).end {
        Ok(()) => print::field(rt, 0),
        Err(FileError { fault, place }) => {
            print::field(rt, fault_number(fault))?;
            print::field(rt, (place % 65537) as u32)
        }
    }
}
