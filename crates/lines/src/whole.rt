// Whole lines, where there is room for them.
ghost use Rattle.std.specs.Prelude.{◌+◌, ◌≤◌, ◌≡◌, ◌∷◌, leb, length};
ghost use Rattle.basics.specs.Ascii.{space};
ghost use Rattle.listing_rules.specs.Text.{decimal, line, levels_line, file_line, tail};
ghost use Rattle.file_rules.specs.Pieces.{Piece};
ghost use Rattle.lines.specs.Answers.{answer_in};
ghost use Rattle.lines.specs.Pieces.{rest};

use crate::Answered;
use crate::pieces::{put_byte, put_bytes, put_decimal, put_hex, put_long, put_register};

// Whether an output of this length has n bytes from a place on.
pub(crate) fn has_room(length: usize, at: usize, n: usize) -> bool
    ensures { result ≡ leb (at + n) length }
{
    n <= length && at <= length - n
}

// A space and a number.
pub(crate) fn put_field(out: &mut [u8], at: usize, n: u32) -> usize
    requires { at + 11 ≤ length out.old }
    ensures { Piece out.old at (space ∷ decimal n) out.new result }
{
    let p = put_byte(out, at, b' ');
    put_decimal(out, p, n)
}

// What stands in a line after the register: how many values moved, the fate of a load, the count after. Fate, refusal and place are numbers
// here and below, as in `put_done` and `put_tail`.
pub(crate) fn put_rest(out: &mut [u8], at: usize, moved: u32, fate: u32, count: u32) -> usize
    requires { at + 34 ≤ length out.old }
    ensures { Piece out.old at (rest moved fate count) out.new result }
{
    let t = put_field(out, at, moved);
    let u = put_field(out, t, fate);
    let v = put_field(out, u, count);
    put_byte(out, v, b'\n')
}

// 01: "record number, the four answers, count after"
pub(crate) fn write_line(out: &mut [u8], at: usize, number: u32, a: Answered, count: u32) -> usize
    requires { at + 64 ≤ length out.old }
    ensures { Piece out.old at (line number (answer_in a) count) out.new result }
{
    let p = put_long(out, at, number);
    let q = put_field(out, p, a.refusal);
    let r = put_byte(out, q, b' ');
    let s = put_register(out, r, a.register);
    put_rest(out, s, a.moved, a.fate, count)
}

// Beside `write_line` for speed: of most lines refusal and register are 0, here one text that is copied whole. Tried through `write_line`: a
// listing of loads and ticks takes 11 to 17 in 100 more time.
pub(crate) fn write_done(
    out: &mut [u8],
    at: usize,
    number: u32,
    moved: u32,
    fate: u32,
    count: u32,
) -> usize
    requires { at + 64 ≤ length out.old }
    ensures { Piece out.old at (line number (record { refusal = 0; register = 0; moved = moved; fate = fate }) count) out.new result }
{
    let p = put_long(out, at, number);
    let s = put_bytes(out, p, b" 0 00000000");
    put_rest(out, s, moved, fate, count)
}

// 01: "levels in four, channel 00 first"
pub(crate) fn write_levels(out: &mut [u8], at: usize, levels: [u16; 20]) -> usize
    requires { at + 107 ≤ length out.old }
    ensures { Piece out.old at (levels_line levels) out.new result }
{
    let mut p = put_bytes(out, at, b"LEVELS");
    for level in levels {
        p = put_byte(out, p, b' ');
        p = put_hex(out, p, u32::from(level));
    }
    put_byte(out, p, b'\n')
}

// 01: "A file refusal prints `FILE n p`"
pub(crate) fn write_file(out: &mut [u8], at: usize, n: u32, p: u32) -> usize
    requires { at + 27 ≤ length out.old }
    ensures { Piece out.old at (file_line n p) out.new result }
{
    let a = put_bytes(out, at, b"FILE ");
    let b = put_decimal(out, a, n);
    let c = put_field(out, b, p);
    put_byte(out, c, b'\n')
}

// 01: "before LEVELS"
pub(crate) fn write_tail(out: &mut [u8], at: usize, n: u32, p: u32, levels: [u16; 20]) -> usize
    requires { at + 134 ≤ length out.old }
    ensures { Piece out.old at (tail n p levels) out.new result }
{
    let unrefused = n == 0;
    if unrefused {
        return write_levels(out, at, levels);
    }
    let q = write_file(out, at, n, p);
    write_levels(out, q, levels)
}
