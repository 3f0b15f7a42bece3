// The rate question.
use crate::print;
use bridge::nergutsai_rate;
use std::io;

pub(crate) fn print_figures(rt: &impl Print, row: &[u32; 55]) -> io::Result<()> {
    let mut figures = [99u32; 3];
    nergutsai_rate(row, &mut figures);
    print::fields(rt, &figures)
}
