// An f32 as a decimal number, exactly. The volts of a table are whole numbers of 65,536ths and no more than 10 in size, so that sixteen
// digits behind the point are enough, and 24 bytes for the whole; zeros at its end are left out.
use std::fmt;
use std::io::Write;

#[derive(Clone, Copy)]
pub(crate) struct Decimal(pub(crate) f32);

impl fmt::Display for Decimal {
    fn fmt<W: fmt::Write>(&self, f: &mut fmt::Formatter<W>) -> fmt::Result {
        let x = self.0;
        // room that is not written stays a zero at the end
        let mut room = [b'0'; 24];
        let mut rest = &mut room[..];
        write!(rest, "{x:.16}").map_err(|_| fmt::Error)?;
        let digits = str::from_utf8(&room).map_err(|_| fmt::Error)?;
        f.write_str(digits.trim_end_matches('0').trim_end_matches('.'))
    }
}
