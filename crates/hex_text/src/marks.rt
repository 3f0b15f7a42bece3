// What stands at a place of the text.
ghost use Rattle.std.specs.Prelude.{◌<◌, ◌≡◌, length};
ghost use Rattle.hex_rules.specs.Hex.{char_at, hex_worth, is_control, is_blank, in_comment, byte_of, mark_of, mark_at, opening_of};

use hex_rules::Mark;

// 0 past the end of the text
fn char_at(text: &[u8], at: usize) -> u8
    ensures { result ≡ char_at text.now at }
{
    text.get(at).copied().unwrap_or(0)
}

fn is_control(c: u8, next: u8) -> bool
    ensures { result ≡ is_control c next }
{
    let shown = matches!(c, b'\t' | b'\n') || c == b'\r' && next == b'\n';
    c.is_ascii_control() && !shown
}

fn is_blank(c: u8) -> bool
    ensures { result ≡ is_blank c }
{
    matches!(c, b' ' | b'\t' | b'\n' | b'\r')
}

fn in_comment(before: bool, c: u8) -> bool
    ensures { result ≡ in_comment before c }
{
    (before || c == b'#') && c != b'\n'
}

// The byte of two digits, the first the more significant.
fn byte_of(high: u8, low: u8) -> Mark
    ensures { result ≡ byte_of (hex_worth high) (hex_worth low) }
{
    match (char::from(high).to_digit(16), char::from(low).to_digit(16)) {
        (Some(high), Some(low)) => Mark::Byte((16 * high + low) as u8),
        _ => Mark::Fault,
    }
}

// What a character says, the next one seen, in a comment or not.
fn mark_of(c: u8, next: u8, comment: bool) -> Mark
    ensures { result ≡ mark_of c next comment }
{
    if is_control(c, next) {
        return Mark::Fault;
    }
    if in_comment(comment, c) {
        return Mark::Passed(true);
    }
    if is_blank(c) {
        return Mark::Passed(false);
    }
    byte_of(c, next)
}

pub(crate) fn mark_at(text: &[u8], at: usize, comment: bool) -> Mark
    requires { at < length text.now }
    ensures { result ≡ mark_at text.now at comment }
{
    mark_of(char_at(text, at), char_at(text, at + 1), comment)
}

// A text begins behind its byte order mark, where it has one.
pub(crate) fn opening(text: &[u8]) -> usize
    ensures { result ≡ opening_of text.now }
{
    if text.starts_with(&[0xEF, 0xBB, 0xBF]) {
        3
    } else {
        0
    }
}
