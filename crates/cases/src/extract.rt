// A cut of a recording on the desk.
use crate::desk::Desk;
use crate::sheet::print_outcome;
use std::io;
use writer::{Order, cut};

// These groups, out of the first n numbers, go into the output from a place on.
#[derive(Drop)]
pub(crate) struct Group {
    n: u32,
    channels: u32,
    first: u32,
    last: u32,
    mask: u32,
    place: u32,
}

impl From<[u32; 6]> for Group {
    fn from([n, channels, first, last, mask, place]: [u32; 6]) -> Group {
        Group {
            n,
            channels,
            first,
            last,
            mask,
            place,
        }
    }
}

impl Desk {
    // Of the first n numbers of three groups of four channels, the thousands of a number being its group, and the units its channel.
    pub(crate) fn extract(&mut self, rt: &impl Print, group: Group) -> io::Result<()> {
        let recording = [
            1000u16, 1001, 1002, 1003, 2000, 2001, 2002, 2003, 3000, 3001, 3002, 3003,
        ];
        let n = (group.n % 13) as usize;
        let order = Order {
            recording: &recording[..n],
            channels: group.channels,
            first: group.first as usize,
            last: group.last as usize,
            mask: group.mask,
        };
        self.output = [238; 40];
        let outcome = cut(&order, &mut self.output, group.place as usize);
        print_outcome(rt, outcome)
    }
}
