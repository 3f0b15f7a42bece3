// A program's voice: what it says where standard input or output fails it.
use crate::read_all;
use std::io;
use std::io::{Print, Write};

// A program that reads standard input and writes standard output, by the name under which it speaks on standard error.
#[derive(Clone, Copy)]
pub struct Program<'a> {
    pub rt: &'a HostRuntime,
    pub name: &'a [u8],
}

// Reading or writing failed, and that was said.
#[derive(Clone, Copy, Debug, PartialEq, Eq)]
pub struct Said;

// The system's words for what went wrong. std puts the error's number behind them, in brackets.
fn words(text: &str) -> &str {
    text.split_once(" (os error ")
        .map_or(text, |(front, _)| front)
}

impl Program<'_> {
    // A line on standard error. Where that cannot be written either, there is nobody to tell.
    fn say(&self, what: &str, error: io::Error) -> Said {
        let _ = self.rt.stderr().write_all(self.name);
        let _ = eprint!(self.rt; ": {what}: ");
        let _ = match format!(in self.rt.alloc(); "{error}") {
            Ok(text) => eprintln!(self.rt; "{}", words(text.as_str())),
            Err(_) => eprintln!(self.rt; "{error}"),
        };
        Said
    }

    // The bytes of standard input, as many as there is room for; a failure is said.
    pub fn read_input<'b>(&self, buf: &'b mut [u8]) -> Result<&'b [u8], Said> {
        match read_all(&mut self.rt.stdin(), buf) {
            Ok(n) => Ok(&buf[..n]),
            Err(e) => Err(self.say("standard input cannot be read", e)),
        }
    }

    // Writes standard output; a failure is said.
    pub fn write_output(&self, text: &[u8]) -> Result<(), Said> {
        self.rt
            .write_all(text)
            .map_err(|e| self.say("standard output cannot be written", e))
    }
}
