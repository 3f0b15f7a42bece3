// What the program writes: a line for each session.

use std::io;

// The number of a session, and the checksum of its listing in eight hex digits.
pub(crate) fn line(rt: &impl Print, number: u64, sum: u32) -> io::Result<()> {
    println!(rt; "{number} {sum:08X}")
}
