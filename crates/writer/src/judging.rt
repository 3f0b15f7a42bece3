// What is wrong with rows, before anything is written.
ghost use Rattle.std.specs.Prelude.{◌*◌, ◌^◌, ◌<◌, ◌≡◌, length, drop, MatchResult};
ghost use Rattle.kinds.specs.Numbers.{kind_number};
ghost use Rattle.file_rules.specs.Writing.{widths, fit_widths, row_refusal, first_bad};
ghost use Rattle.writer.specs.Judged.{GoodRow, GoodRows};
ghost use Rattle.writer.specs.Written.{refusal_number};

use crate::refusal::WriteRefusal;
use kinds::Kind;

// 02: "a field too large for its bytes or not 0 where the kind has none"; 01: "power-up (d, range, filter, kit, firmware in two bytes)",
// "write (offset, value in four)", "read (offset)". The value of a write takes every number.
#[tactic(auto, unfolding(file_rules::specs::Writing::widths, file_rules::specs::Writing::fit_widths))]
fn fits_widths(kind: Kind, row: &[u32; 6]) -> bool
    ensures { result ≡ fit_widths (drop 1 row.now) (widths (kind_number kind)) }
{
    let [_, a, b, c, d, e] = *row;
    match kind {
        Kind::PowerUp => a < 256 && b < 256 && c < 256 && d < 256 && e < 65536,
        Kind::Write => a < 256 && c == 0 && d == 0 && e == 0,
        Kind::Read => a < 256 && b == 0 && c == 0 && d == 0 && e == 0,
        Kind::Signal(_) => a == 0 && b == 0 && c == 0 && d == 0 && e == 0,
    }
}

// 02: "13 an unknown kind, 30 a field ..", in this order. How many bytes the fields of a good row have.
fn check_row(row: &[u32; 6]) -> Result<usize, WriteRefusal>
    ensures { MatchResult result (GoodRow row.now) (λ why. row_refusal row.now ≡ refusal_number why) }
{
    let kind = Kind::try_from(row[0])?;
    if !fits_widths(kind, row) {
        return Err(WriteRefusal::FieldTooLarge);
    }
    Ok((kind.length() - 1) as usize)
}

// 02: "the first bad event decides". How many bytes the fields of all rows have, where all are good.
pub(crate) fn check_rows(rows: &[[u32; 6]]) -> Result<usize, WriteRefusal>
    requires { 6 * length rows.now < 2 ^ 64 }
    ensures { MatchResult result (GoodRows rows.now) (λ why. first_bad rows.now ≡ refusal_number why) }
{
    let mut fields: usize = 0;
    for row in rows {
        fields += check_row(row)?;
    }
    Ok(fields)
}
