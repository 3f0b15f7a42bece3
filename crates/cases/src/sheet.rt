// The rows on the desk, the session that is written of them, and the rows that are read from it.
use crate::desk::Desk;
use crate::print;
use kinds::row_of;
use run::Cursor;
use std::io;
use writer::WriteRefusal;

impl Desk {
    // A row joins the slice; there is room for four.
    pub(crate) fn put(&mut self, row: &[u32; 6]) {
        let held = self.held % 19;
        self.slice[held..held + 6].copy_from_slice(row);
        self.held = held + 6;
    }

    // The slice without its last numbers.
    pub(crate) fn cut(&mut self, n: u32) {
        self.held = self.held.saturating_sub(n as usize);
    }

    // The slice is written into an output of so many bytes, from a place on.
    pub(crate) fn write(&mut self, rt: &impl Print, room: u32, place: u32) -> io::Result<()> {
        let mut output = [238; 40];
        let room = (room % 41) as usize;
        let held = self.held.min(self.slice.len());
        let outcome = writer::write(&self.slice[..held], &mut output[..room], place as usize);
        self.output = output;
        print_outcome(rt, outcome)
    }
}

// By which number a session is refused, 0 where it was written; and the place after it, 0 where it was refused.
pub(crate) fn print_outcome(
    rt: &impl Print,
    outcome: Result<usize, WriteRefusal>,
) -> io::Result<()> {
    let (refusal, end) = match outcome {
        Ok(end) => (0, end),
        Err(why) => (why as u32, 0),
    };
    print::field(rt, refusal)?;
    print::field(rt, (end % 41) as u32)
}

// The row of the event at a place of the output, and the place after it; nothing where there is none.
pub(crate) fn print_row(rt: &impl Print, output: &[u8; 40], place: u32) -> io::Result<()> {
    let cursor = Cursor {
        place: place as usize,
    };
    if let Ok(Some((event, after))) = run::next(output, cursor) {
        print::fields(rt, &row_of(event))?;
        print::field(rt, (after.place % 41) as u32)?;
    }
    Ok(())
}
