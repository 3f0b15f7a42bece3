// Reads hex text from standard input to its end and writes the bytes that it says: the rest is crate `hex_text`. On standard error it
// says how many bytes they are, or, where it writes none, what is wrong.
#![tactic(auto)]

use console::{Program, Said, room};
use faults::say_fault;
use hex_text::{HexError, decode};

mod faults;

// A number that cannot be said on standard error is said nowhere.
fn give(program: &Program<'_>, bytes: &[u8]) -> Result<(), Said> {
    program.write_output(bytes)?;
    let n = bytes.len();
    let _ = eprintln!(program.rt; "hexbytes: {n} bytes");
    Ok(())
}

// There is room for one byte more than a session file may have, so that a longer one shows, and `rehearse` says so.
fn show(program: &Program<'_>, text: &[u8]) -> Result<(), Said> {
    let mut out = [0u8; 65537];
    match decode(text, &mut out) {
        // `decode` promises n as how many bytes the text says; that they have room would be a proof here, and `min` needs none
        Ok(n) => give(program, &out[..n.min(out.len())]),
        Err(HexError::Full) => give(program, &out),
        Err(HexError::NotHex(at)) => {
            let _ = say_fault(program.rt, text, at);
            Ok(())
        }
    }
}

// There is room for one byte more than a text may have, so that a longer input shows.
fn work(program: &Program<'_>) -> Result<(), Said> {
    let mut buf = room::<1048577>();
    let text = program.read_input(&mut buf)?;
    if 1048576 < text.len() {
        let _ = eprintln!(program.rt;
            "hexbytes: the text is longer than 1048576 bytes, the most that is read"
        );
        return Ok(());
    }
    show(program, text)
}

fn main(rt: HostRuntime) {
    let _ = work(&Program {
        rt: &rt,
        name: b"hexbytes",
    });
}
