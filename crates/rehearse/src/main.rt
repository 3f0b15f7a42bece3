// Reads a session file from standard input to its end and writes its listing: the rest is crate `listing`. Where the input cannot be
// read, that is said on standard error and nothing is listed.
#![tactic(auto)]

use console::{Program, Said, room};
use listing::list;

// There is as much room as the listing of the longest file asks for, and in the memory for the buffer of fitted code 11.
fn show(program: &Program<'_>, file: &[u8]) -> Result<(), Said> {
    let mut memory = [0u32; 16384];
    let mut out = room::<1441952>();
    match list(file, &mut memory, &mut out) {
        // `list` promises n as the length of the listing; that no listing outgrows the room would be a proof here, and `min` needs none
        Ok(n) => program.write_output(&out[..n.min(out.len())]),
        // never with the room above
        Err(_) => Ok(()),
    }
}

// There is room for one byte more than a file may have, so that a longer input shows.
fn work(program: &Program<'_>) -> Result<(), Said> {
    let mut buf = [0u8; 65537];
    let file = program.read_input(&mut buf)?;
    show(program, file)
}

fn main(rt: HostRuntime) {
    let _ = work(&Program {
        rt: &rt,
        name: b"rehearse",
    });
}
