// Tables of volts, and smallest sizes, that are printed and compared: what each session prints is held to the file `stdout`. The sessions
// stand in the file `stdin`, each a line that begins with `=` and names it, or with `=?` where its smallest size is asked, and then its
// bytes as hex text, so that one more is no code more. Nothing is promised of what is written; every function is proved safe.
#![tactic(auto)]

use console::read_all;
use hex_text::{HexError, decode};
use sizes::smallest_size;
use std::io;
use volts::volts;

mod decimals;
mod print;

// On a board with a depth of 8 values at most. The memory has values that no load stores: so what the run left there can be seen.
fn play(rt: &impl Print, session: &[u8]) -> io::Result<()> {
    let mut memory = [7000000u32; 8];
    print::table(rt, volts(session, &mut memory))?;
    print::memory(rt, &memory)
}

// On a board with a depth of 32 values at most, and the same values in the memory.
fn search(rt: &impl Print, session: &[u8]) -> io::Result<()> {
    let mut memory = [7000000u32; 32];
    print::size(rt, smallest_size(session, &mut memory))?;
    print::memory(rt, &memory)
}

// A session from behind its `=`: its name, to the end of the line, and what it says.
fn show(rt: &impl Print, text: &[u8]) -> io::Result<()> {
    let end = text.iter().position(|c| *c == b'\n');
    let (name, said) = text.split_at(end.unwrap_or(text.len()));
    rt.write_all(b"=")?;
    rt.write_all(name)?;
    println!(rt)?;
    // one that is longer is told to be too long
    let mut session = [0u8; 512];
    match decode(said, &mut session) {
        Ok(n) => {
            let session = &session[..n.min(session.len())];
            if name.starts_with(b"?") {
                search(rt, session)
            } else {
                play(rt, session)
            }
        }
        Err(HexError::Full) => println!(rt; "  is too long"),
        Err(HexError::NotHex(_)) => println!(rt; "  is not hex text"),
    }
}

// What stands before the first `=` is for the reader.
fn work(rt: &impl Print, text: &[u8]) -> io::Result<()> {
    for session in text.split(|c| *c == b'=').skip(1) {
        show(rt, session)?;
    }
    Ok(())
}

fn main(rt: HostRuntime) -> io::Result<()> {
    // fixed room: a longer text is cut, and so is what is printed of it
    let mut text = [0u8; 16384];
    let n = read_all(&mut rt.stdin(), &mut text)?;
    work(&rt, &text[..n])
}
