// The board on the desk.
use crate::desk::Desk;
use bridge::nergutsai_event;

impl Desk {
    // A number of the row is set. They are numbered as in crates/rows/specs/Places.antt.
    pub(crate) fn set(&mut self, place: u32, value: u32) {
        self.row[(place % 55) as usize] = value;
    }

    // An event, on as much of the memory as is lent.
    pub(crate) fn play(&mut self, event: &[u32; 6]) {
        let mut answer = [99u32; 4];
        let memory = &mut self.memory[..];
        let lent = (self.lent as usize).min(memory.len());
        nergutsai_event(&mut self.row, &mut memory[..lent], event, &mut answer);
        self.refusal = answer[0];
        self.register = answer[1];
    }
}
