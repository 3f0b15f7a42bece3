// A line of the cases: its name, which is printed as it stands; a colon; and acts. A line with no colon is a heading.
use crate::acts::act_of;
use crate::desk::Desk;
use std::io;

impl Desk {
    fn begin_act(&mut self, letter: u8) {
        self.letter = letter;
        self.count = 0;
        self.numbers = [0; 6];
    }

    // A longer list goes on from the first place, and after the first number and sixteen more from the second; as bytes, in sixteens.
    fn end_number(&mut self) {
        let n = self.number;
        let count = self.count;
        self.numbers[count % 6] = n;
        self.bytes[count % 16] = (n % 256) as u8;
        self.count = count % 16 + 1;
        self.number = 0;
    }

    fn end_act(&mut self, rt: &impl Print) -> io::Result<()> {
        self.act(rt, act_of(self.letter, self.numbers))
    }

    // An act is a word with a capital, and a full stop or its numbers, as `Answer.` and `Set(1, 3)`. Small letters and blanks are for the
    // reader, between digits too, and a number goes as far as 4,294,967,289, and then on from less: `parse` knows neither.
    fn read_char(&mut self, rt: &impl Print, c: u8) -> io::Result<()> {
        match c {
            b'0'..=b'9' => self.number = self.number % 429496729 * 10 + u32::from(c - b'0'),
            b',' => self.end_number(),
            b')' => {
                self.end_number();
                self.end_act(rt)?;
            }
            b'.' => self.end_act(rt)?,
            b'A'..=b'Z' => self.begin_act(c),
            b'\n' => println!(rt)?,
            _ => {}
        }
        Ok(())
    }

    pub(crate) fn read(&mut self, rt: &impl Print, line: &[u8]) -> io::Result<()> {
        let colon = line.iter().position(|c| *c == b':');
        let (name, acts) = line.split_at(colon.unwrap_or(line.len()));
        rt.write_all(name)?;
        for c in acts {
            self.read_char(rt, *c)?;
        }
        Ok(())
    }
}
