// Lines of a listing as bytes in a lent output, each from a place on; the answer is the place after it. Every call takes every input:
// where the output has no room for the longest such line, nothing is written and the place comes back.
#![tactic(auto)]

ghost use Rattle.std.specs.Prelude.{length};
ghost use Rattle.listing_rules.specs.Text.{line, tail};
ghost use Rattle.lines.specs.Answers.{answer_in};
ghost use Rattle.lines.specs.Promises.{Printed};

pub use crate::answered::Answered;
use crate::pieces::put_bytes;
use crate::whole::{has_room, write_done, write_line, write_tail};

mod answered;
mod pieces;
mod whole;

// Each function tests for room by itself: shared, the test would take a closure that is lent the output and promises the piece.

// A text as it stands.
pub fn put_text(out: &mut [u8], at: usize, text: &[u8]) -> usize
    ensures { Printed (length text.now) out.old at text.now out.new result }
{
    if !has_room(out.len(), at, text.len()) {
        return at;
    }
    put_bytes(out, at, text)
}

// The line of a record: its number, the four answers, the count after.
pub fn put_line(out: &mut [u8], at: usize, number: u32, a: Answered, count: u32) -> usize
    ensures { Printed 64 out.old at (line number (answer_in a) count) out.new result }
{
    if !has_room(out.len(), at, 64) {
        return at;
    }
    write_line(out, at, number, a, count)
}

// The line of an event that was done and is no read: its refusal and its register are 0.
// The fate is a number, as in `Answered`: the promise holds for every number, and a narrower type would ask more of callers.
pub fn put_done(out: &mut [u8], at: usize, number: u32, moved: u32, fate: u32, count: u32) -> usize
    ensures { Printed 64 out.old at (line number (record { refusal = 0; register = 0; moved = moved; fate = fate }) count) out.new result }
{
    if !has_room(out.len(), at, 64) {
        return at;
    }
    write_done(out, at, number, moved, fate, count)
}

// How a listing ends: the line of the file refusal n at the byte p, where n is not 0, and the levels.
// n and p are numbers, 0 where there is no refusal: the promise holds for every two, and an enum or an Option would ask more of callers.
pub fn put_tail(out: &mut [u8], at: usize, n: u32, p: u32, levels: [u16; 20]) -> usize
    ensures { Printed 134 out.old at (tail n p levels) out.new result }
{
    if !has_room(out.len(), at, 134) {
        return at;
    }
    write_tail(out, at, n, p, levels)
}
