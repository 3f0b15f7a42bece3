// Session files: the record at a place of the lent file bytes. Every call takes every input, and tells what a rule says, in document
// 01's numbers too (`ToldInNumbers` of rules/specs/ToldInNumbers.antt).
#![tactic(auto)]

ghost use Rattle.std.specs.Prelude.{◌≡◌};
ghost use Rattle.rules.specs.ToldInNumbers.{ToldInNumbers};
ghost use Rattle.file_rules.specs.Item.{item_of};
ghost use Rattle.file_rules.specs.File.{item_at};
ghost use Rattle.file_rules.specs.Numbers.{item_numbers};

use crate::common::ahead;
use crate::records::record_at;
use file_rules::{Fault, FileError, Item};
use rules::{Event, Signal};

mod common;
mod fields;
mod records;

// Any record, its length and its kind tested in 01's order. 01: "10 session file empty or its first byte not 01"; "Byte 01, then records":
// at the start of the file the first record is meant.
pub(crate) fn any_at(s: &[u8], at: usize) -> Item
    ensures { item_of result ≡ item_at s.now at }
{
    if at > 0 {
        return record_at(s, at);
    }
    let first = s.first().copied().unwrap_or(0);
    let opened = first == 1;
    if !opened {
        return Err(FileError {
            fault: Fault::Version,
            place: 0,
        });
    }
    record_at(s, 1)
}

// The record at a place of a session file; place 0 is the start of the file, before its version byte. A tick or a write to 18h, as most
// records of a session are, is told by its bytes alone, in fewer steps.
pub fn item_at(s: &[u8], at: usize) -> Item
    ensures { ToldInNumbers item_numbers (item_at s.now at) (item_of result) }
{
    let rest = ahead(s, at);
    if let [0, 1, 4, ..] = rest {
        return Ok(Some((Event::Signal(Signal::Tick), at + 3)));
    }
    if let [0, 6, 2, 0x18, a, b, c, d, ..] = rest {
        let value = u32::from_be_bytes([*a, *b, *c, *d]);
        let load = Event::Write {
            offset: 0x18,
            value,
        };
        return Ok(Some((load, at + 8)));
    }
    any_at(s, at)
}
