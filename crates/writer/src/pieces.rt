// Bytes put into an output, from a place on; the answer is the place after them. A struct that held the output would have to promise in each
// of its methods that it still holds the same one, so output and place go from call to call.
ghost use Rattle.std.specs.Prelude.{◌+◌, ◌≤◌, ◌<◌, length};
ghost use Rattle.rules.specs.declared.Event.TheVariants.{Write as write};
ghost use Rattle.file_rules.specs.Bytes.{bytes_of};
ghost use Rattle.file_rules.specs.Pieces.{Piece};
ghost use Rattle.writer.specs.Records.{record_of};

// The like of `put_bytes` of `lines`, but of arrays, whose length the compiler knows.
pub(crate) fn put<const N: usize>(out: &mut [u8], at: usize, bytes: [u8; N]) -> usize
    requires { at + N ≤ length out.old }
    ensures { Piece out.old at bytes.entry out.new result }
{
    let end = at + N;
    out[at..end].copy_from_slice(&bytes);
    end
}

// 01: "two-byte big-endian length of what follows, kind, fields". The kind is its number, which a row has: of a `Kind` it would be worked out
// anew, and rows of mixed kinds take 8 to 25 in 100 more time so.
pub(crate) fn put_record<const N: usize>(
    out: &mut [u8],
    at: usize,
    kind: u8,
    fields: [u8; N],
) -> usize
    requires small { N < 65535 }
    requires room { at + 3 + N ≤ length out.old }
    ensures { Piece out.old at (record_of kind fields.entry) out.new result }
{
    let [high, low] = ((N + 1) as u16).to_be_bytes();
    let p = put(out, at, [high, low, kind]);
    put(out, p, fields)
}

// The record of a write: 01, "write (offset, value in four)".
pub(crate) fn put_write(out: &mut [u8], at: usize, offset: u8, value: u32) -> usize
    requires { at + 8 ≤ length out.old }
    ensures { Piece out.old at (bytes_of (write offset value)) out.new result }
{
    let [a, b, c, d] = value.to_be_bytes();
    put_record(out, at, 2, [offset, a, b, c, d])
}
