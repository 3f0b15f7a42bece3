// What each act does. An act is told by its first letter.
//   Unpowered.           a board as before its first power-up
//   Lent(n)              it is lent n entries of its memory
//   Set(i, v)            number i of its row is v
//   Event(kind, ..)      an event: its kind and fields, as in a session file
//   Answer.              prints by which number the last event was refused
//   Value.               prints what the last event read
//   Number(i)            prints number i of the row
//   Memory(i)            prints entry i of the memory
//   Figures.             prints the answer of the rate question
//   Run(byte, ..)        prints how this session file ends
//   Put(kind, ..)        a row of an event joins the slice for the writer
//   Cut(n)               the slice's last n numbers are missing
//   Write(n, place)      writes the slice into an output of n bytes from a place on; prints the refusal, and where the writer stopped
//   Group(n, channels, first, last, mask, place)
//                        cuts these groups out of the first n numbers of a recording, into an output of 40 bytes from a place on; prints
//                        the refusal, and where the cutter stopped
//   Bytes.               prints the 40 bytes in which the output is the first n
//   Tell(place)          prints the row of the event at a place of the output, and the place after it
use crate::desk::Desk;
use crate::extract::Group;
use crate::{endings, figures, print, sheet};
use std::io;

#[derive(Drop)]
pub(crate) enum Act {
    Unpowered,
    Lent(u32),
    Set { place: u32, value: u32 },
    Event([u32; 6]),
    Answer,
    Value,
    Number(u32),
    Memory(u32),
    Figures,
    Run,
    Put([u32; 6]),
    Cut(u32),
    Write { room: u32, place: u32 },
    Group(Group),
    Bytes,
    Tell(u32),
}

// The act of a letter and numbers. A letter that opens no act runs a session file.
pub(crate) fn act_of(letter: u8, six: [u32; 6]) -> Act {
    let [a, b, ..] = six;
    match letter {
        b'U' => Act::Unpowered,
        b'L' => Act::Lent(a),
        b'S' => Act::Set { place: a, value: b },
        b'E' => Act::Event(six),
        b'A' => Act::Answer,
        b'V' => Act::Value,
        b'N' => Act::Number(a),
        b'M' => Act::Memory(a),
        b'F' => Act::Figures,
        b'P' => Act::Put(six),
        b'C' => Act::Cut(a),
        b'W' => Act::Write { room: a, place: b },
        b'G' => Act::Group(Group::from(six)),
        b'B' => Act::Bytes,
        b'T' => Act::Tell(a),
        _ => Act::Run,
    }
}

impl Desk {
    pub(crate) fn act(&mut self, rt: &impl Print, act: Act) -> io::Result<()> {
        match act {
            Act::Unpowered => *self = Desk::new(),
            Act::Lent(entries) => self.lent = entries,
            Act::Set { place, value } => self.set(place, value),
            Act::Event(event) => self.play(&event),
            Act::Put(row) => self.put(&row),
            Act::Cut(n) => self.cut(n),
            Act::Write { room, place } => self.write(rt, room, place)?,
            Act::Group(group) => self.extract(rt, group)?,
            Act::Answer => print::field(rt, self.refusal)?,
            Act::Value => print::field(rt, self.register)?,
            Act::Number(at) => print::entry(rt, &self.row, at)?,
            Act::Memory(at) => print::entry(rt, &self.memory, at)?,
            Act::Figures => figures::print_figures(rt, &self.row)?,
            Act::Bytes => print::fields(rt, &self.output)?,
            Act::Tell(place) => sheet::print_row(rt, &self.output, place)?,
            Act::Run => {
                let n = self.count.min(self.bytes.len());
                endings::print_ending(rt, &self.bytes[..n])?;
            }
        }
        Ok(())
    }
}
