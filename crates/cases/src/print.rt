// What the program writes behind a name: numbers with a blank before each.
use std::fmt::Display;
use std::io;

pub(crate) fn field(rt: &impl Print, n: impl Display + Drop) -> io::Result<()> {
    print!(rt; " {n}")
}

// An entry of a row or a memory; nothing where there is none.
pub(crate) fn entry(rt: &impl Print, entries: &[u32], at: u32) -> io::Result<()> {
    match entries.get(at as usize) {
        Some(n) => field(rt, *n),
        None => Ok(()),
    }
}

// All numbers of a row, or bytes of an output.
pub(crate) fn fields<N: Display>(rt: &impl Print, numbers: &[N]) -> io::Result<()> {
    for n in numbers {
        field(rt, n)?;
    }
    Ok(())
}
