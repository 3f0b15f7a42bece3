// Pieces of a line: bytes, texts and numbers, each written from a place on; the answer is the place after it. Output and place are two
// parameters: a struct of both would hold the lent output, and each function would have to promise that it stays the same one.
ghost use Rattle.std.specs.Prelude.{◌+◌, ◌/◌, ◌%◌, ◌<◌, ◌≤◌, ◌≡◌, [], ◌∷◌, length};
ghost use Rattle.listing_rules.specs.Text.{digit, capital, hex, decimal_in, decimal};
ghost use Rattle.file_rules.specs.Pieces.{Piece};

pub(crate) fn put_byte(out: &mut [u8], at: usize, b: u8) -> usize
    requires { at < length out.old }
    ensures { Piece out.old at (b ∷ []) out.new result }
{
    out[at] = b;
    at + 1
}

// Byte by byte: a text that is known becomes a store or two so. By `copy_from_slice`, tried, each piece of a line is asked first whether it
// lies over the output, and a listing of loads takes a tenth more time.
pub(crate) fn put_bytes(out: &mut [u8], at: usize, text: &[u8]) -> usize
    requires { at + length text.now ≤ length out.old }
    ensures { Piece out.old at text.now out.new result }
{
    let end = at + text.len();
    for (i, b) in text.iter().enumerate() {
        out[at + i] = *b;
    }
    end
}

// By hand, as the decimal digits are (see `put_long`).
pub(crate) fn capital_of(d: u32) -> u8
    requires { d < 16 }
    ensures { result ≡ capital d }
{
    if d < 10 {
        b'0' + d as u8
    } else {
        b'A' - 10 + d as u8
    }
}

// A number of one digit.
pub(crate) fn put_digit(out: &mut [u8], at: usize, n: u32) -> usize
    requires { (at < length out.old) × (n < 10) }
    ensures { Piece out.old at (digit n ∷ []) out.new result }
{
    put_byte(out, at, b'0' + n as u8)
}

// A number of at most two digits, in two.
pub(crate) fn put_two_digits(out: &mut [u8], at: usize, n: u32) -> usize
    requires { (at + 2 ≤ length out.old) × (n < 100) }
    ensures { Piece out.old at (digit (n / 10) ∷ digit (n % 10) ∷ []) out.new result }
{
    let q = n / 10;
    let p = put_digit(out, at, q);
    put_digit(out, p, n - 10 * q)
}

// The last hexadecimal digit of n.
pub(crate) fn put_capital(out: &mut [u8], at: usize, n: u32) -> usize
    requires { at < length out.old }
    ensures { Piece out.old at (capital (n % 16) ∷ []) out.new result }
{
    put_byte(out, at, capital_of(n % 16))
}

// The last four hexadecimal digits of n.
pub(crate) fn put_hex(out: &mut [u8], at: usize, n: u32) -> usize
    requires { at + 4 ≤ length out.old }
    ensures { Piece out.old at (hex 4 n) out.new result }
{
    let q = n / 16;
    let r = q / 16;
    let a = put_capital(out, at, r / 16);
    let b = put_capital(out, a, r);
    let c = put_capital(out, b, q);
    put_capital(out, c, n)
}

// n in eight hexadecimal digits. Most records answer 0: one text, so that it is one store.
pub(crate) fn put_register(out: &mut [u8], at: usize, n: u32) -> usize
    requires { at + 8 ≤ length out.old }
    ensures { Piece out.old at (hex 8 n) out.new result }
{
    if n == 0 {
        return put_bytes(out, at, b"00000000");
    }
    let p = put_hex(out, at, n / 16 / 16 / 16 / 16);
    put_hex(out, p, n)
}

// The last four digits of n.
pub(crate) fn put_four_digits(out: &mut [u8], at: usize, n: u32) -> usize
    requires { at + 4 ≤ length out.old }
    ensures { Piece out.old at (digit (n / 10 / 10 / 10 % 10) ∷ digit (n / 10 / 10 % 10) ∷ digit (n / 10 % 10) ∷ digit (n % 10) ∷ []) out.new result }
{
    let high = n / 100;
    let p = put_two_digits(out, at, high % 100);
    put_two_digits(out, p, n - 100 * high)
}

// A number of at most two digits.
pub(crate) fn put_tens(out: &mut [u8], at: usize, n: u32) -> usize
    requires { (at + 2 ≤ length out.old) × (n < 100) }
    ensures { Piece out.old at (decimal_in 1 n) out.new result }
{
    if n < 10 {
        return put_digit(out, at, n);
    }
    put_two_digits(out, at, n)
}

// A number of at most four digits.
pub(crate) fn put_small(out: &mut [u8], at: usize, n: u32) -> usize
    requires { (at + 4 ≤ length out.old) × (n < 10000) }
    ensures { Piece out.old at (decimal_in 3 n) out.new result }
{
    if n < 100 {
        return put_tens(out, at, n);
    }
    let high = n / 100;
    let p = put_tens(out, at, high);
    put_two_digits(out, p, n - 100 * high)
}

// A number of at most six digits.
pub(crate) fn put_middle(out: &mut [u8], at: usize, n: u32) -> usize
    requires { (at + 6 ≤ length out.old) × (n < 1000000) }
    ensures { Piece out.old at (decimal_in 5 n) out.new result }
{
    if n < 10000 {
        return put_small(out, at, n);
    }
    let p = put_tens(out, at, n / 10000);
    put_four_digits(out, p, n)
}

// A number that mostly has more than one digit, four at a time: ten are two, four and four. By `put_middle` and not by itself again
// (docs/PERFORMANCE.md, item 1: numbers without recursion).
// Tried: `itoa`, which prints into a buffer of its own to be copied from: a number alone takes three quarters of the time of a whole line so,
// and misses the bar, which is the time of this form.
pub(crate) fn put_long(out: &mut [u8], at: usize, n: u32) -> usize
    requires { at + 10 ≤ length out.old }
    ensures { Piece out.old at (decimal n) out.new result }
{
    if n < 10000 {
        return put_small(out, at, n);
    }
    let p = put_middle(out, at, n / 10000);
    put_four_digits(out, p, n)
}

// A number that mostly has one digit: short, so that it is compiled into its callers.
pub(crate) fn put_decimal(out: &mut [u8], at: usize, n: u32) -> usize
    requires { at + 10 ≤ length out.old }
    ensures { Piece out.old at (decimal n) out.new result }
{
    if n < 10 {
        return put_digit(out, at, n);
    }
    put_long(out, at, n)
}
