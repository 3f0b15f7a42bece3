// 01's cases that are run and compared, and more: what each prints is held to the file `stdout`. The cases are the lines of the file
// `stdin`, so that one more is no code more. Nothing is promised of what is written; every function is proved safe.
#![tactic(auto)]

use console::read_all;
use desk::Desk;
use std::io;

mod acts;
mod desk;
mod device;
mod endings;
mod extract;
mod figures;
mod line;
mod print;
mod sheet;

fn work(rt: &impl Print, text: &[u8]) -> io::Result<()> {
    let mut desk = Desk::new();
    for line in text.split_inclusive(|c| *c == b'\n') {
        desk.read(rt, line)?;
    }
    Ok(())
}

// There is room for almost twice the cases of today. A longer file is cut, and so is what is printed of it.
fn main(rt: HostRuntime) -> io::Result<()> {
    let mut text = [0u8; 32768];
    let n = read_all(&mut rt.stdin(), &mut text)?;
    work(&rt, &text[..n])
}
