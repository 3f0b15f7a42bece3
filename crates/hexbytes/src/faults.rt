// What is wrong with a text, in words on standard error: the line, and the word in it.
use std::io;

// Blanks end a word, and so does the end of the text.
fn ends_word(c: u8) -> bool {
    c <= b' '
}

// A character, where a terminal shows it as one; `?` for any other.
fn shown(c: u8) -> char {
    if c.is_ascii_graphic() {
        char::from(c)
    } else {
        '?'
    }
}

// A word in two parts, and of a long one its first 24 characters.
fn say_word(rt: &impl Eprint, front: &[u8], rest: &[u8]) -> io::Result<()> {
    for c in front.iter().chain(rest).take(24) {
        let shown = shown(*c);
        eprint!(rt; "{shown}")?;
    }
    match front.iter().chain(rest).nth(23) {
        Some(_) => eprint!(rt; ".."),
        None => Ok(()),
    }
}

// The word at a place, of which the one part stands before it. What stands behind it is looked at as far as it is said, and no further.
fn say_word_at(rt: &impl Eprint, before: &[u8], behind: &[u8]) -> io::Result<()> {
    let behind = &behind[..behind.len().min(24)];
    let front = before.rsplit(|c| ends_word(*c)).next();
    let rest = behind.split(|c| ends_word(*c)).next();
    say_word(rt, front.unwrap_or(before), rest.unwrap_or(behind))
}

// Lines are counted from 1, as editors do.
pub(crate) fn say_fault(rt: &impl Eprint, text: &[u8], at: usize) -> io::Result<()> {
    let before = text.get(..at).unwrap_or(text);
    let behind = text.get(at..).unwrap_or(&[]);
    let line = before.split(|c| *c == b'\n').count();
    eprint!(rt; "hexbytes: line {line}")?;
    match behind.first() {
        Some(b'\r') => eprintln!(rt;
            ": a carriage return inside the line; a line ends in a new line, or in both"
        ),
        Some(c) if c.is_ascii_control() => {
            eprintln!(rt; ": a control character, {c:02x}h, which hex text has none of")
        }
        _ => {
            eprint!(rt; ": \"")?;
            say_word_at(rt, before, behind)?;
            eprintln!(rt; "\" is not hex: two digits a byte, blanks between, # starts a comment")
        }
    }
}
